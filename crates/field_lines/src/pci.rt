// Errors of PCI Express, PCI and PCI-X (UEFI 2.8, N.2.7 to N.2.9).
ghost use Rattle.std.specs.Prelude.{◌≡◌, IsTrue};
ghost use Rattle.field_lines.specs.Layouts.{is_sound_structure};
ghost use Rattle.field_lines.specs.Code.{structure_of};
ghost use Rattle.field_lines.specs.Pci.{pci_express, pci_bus, pci_component};

use crate::Shape::{Decimal, Flags, Hexadecimal, OneOf};
use crate::memory::ERROR_TYPES;
use crate::section_rows::{NO_NAMES, NO_PARTS, NOTHING_INSIDE, bits, field, name};
use crate::{Count, Field, Layout, Name, Parts, Shape, Size};

// The types of PCI Express ports (UEFI 2.8, N.2.7).
const PORT_TYPES: [Name; 9] = [
    name!(0, "PCI Express end point"),
    name!(1, "legacy PCI end point"),
    name!(4, "root port"),
    name!(5, "upstream switch port"),
    name!(6, "downstream switch port"),
    name!(7, "PCI Express to PCI/PCI-X bridge"),
    name!(8, "PCI/PCI-X to PCI Express bridge"),
    name!(9, "root complex integrated endpoint"),
    name!(10, "root complex event collector"),
];

// The bits of a PCI command register.
const COMMAND_BITS: [Name; 6] = [
    name!(0, "I/O space"),
    name!(1, "memory space"),
    name!(2, "bus master"),
    name!(6, "parity error response"),
    name!(8, "SERR#"),
    name!(10, "interrupt disable"),
];

// The bits of a PCI status register.
const STATUS_BITS: [Name; 8] = [
    name!(3, "interrupt status"),
    name!(4, "capabilities list"),
    name!(8, "master data parity error"),
    name!(11, "signaled target abort"),
    name!(12, "received target abort"),
    name!(13, "received master abort"),
    name!(14, "signaled system error"),
    name!(15, "detected parity error"),
];

// The bits of a bridge's secondary status register.
const SECONDARY_BITS: [Name; 6] = [
    name!(8, "master data parity error"),
    name!(11, "signaled target abort"),
    name!(12, "received target abort"),
    name!(13, "received master abort"),
    name!(14, "received system error"),
    name!(15, "detected parity error"),
];

// The uncorrectable errors of a PCI Express device.
const UNCORRECTABLE_BITS: [Name; 17] = [
    name!(4, "data link protocol error"),
    name!(5, "surprise down error"),
    name!(12, "poisoned TLP"),
    name!(13, "flow control protocol error"),
    name!(14, "completion timeout"),
    name!(15, "completer abort"),
    name!(16, "unexpected completion"),
    name!(17, "receiver overflow"),
    name!(18, "malformed TLP"),
    name!(19, "ECRC error"),
    name!(20, "unsupported request"),
    name!(21, "ACS violation"),
    name!(22, "uncorrectable internal error"),
    name!(23, "MC blocked TLP"),
    name!(24, "AtomicOp egress blocked"),
    name!(25, "TLP prefix blocked"),
    name!(26, "poisoned TLP egress blocked"),
];

// The correctable errors of a PCI Express device.
const CORRECTABLE_BITS: [Name; 8] = [
    name!(0, "receiver error"),
    name!(6, "bad TLP"),
    name!(7, "bad DLLP"),
    name!(8, "REPLAY_NUM rollover"),
    name!(12, "replay timer timeout"),
    name!(13, "advisory non-fatal error"),
    name!(14, "corrected internal error"),
    name!(15, "header log overflow"),
];

// The types of PCI bus errors (UEFI 2.8, N.2.8).
const BUS_ERRORS: [Name; 8] = [
    name!(0, "unknown or OEM system specific error"),
    name!(1, "data parity error"),
    name!(2, "system error"),
    name!(3, "master abort"),
    name!(4, "bus timeout"),
    name!(5, "master data parity error"),
    name!(6, "address parity error"),
    name!(7, "command parity error"),
];

// A PCI Express error (UEFI 2.8, N.2.7).
const PCI_EXPRESS_FIELDS: [Field; 56] = [
    field!(8, 4, Some(0), "port type", OneOf(&PORT_TYPES)),
    field!(12, 1, Some(1), "version minor", Hexadecimal),
    field!(13, 1, Some(1), "version major", Hexadecimal),
    field!(16, 2, Some(2), "command", Flags(&COMMAND_BITS)),
    field!(18, 2, Some(2), "status", Flags(&STATUS_BITS)),
    field!(24, 2, Some(3), "vendor ID", Hexadecimal),
    field!(26, 2, Some(3), "device ID", Hexadecimal),
    field!(28, 3, Some(3), "class code", Hexadecimal),
    field!(31, 1, Some(3), "function number", Decimal),
    field!(32, 1, Some(3), "device number", Decimal),
    field!(33, 2, Some(3), "segment number", Decimal),
    field!(35, 1, Some(3), "primary bus number", Decimal),
    field!(36, 1, Some(3), "secondary bus number", Decimal),
    bits!(37, 2, Some(3), "slot number", 3, 13, &NO_NAMES),
    field!(40, 8, Some(4), "device serial number", Hexadecimal),
    field!(48, 2, Some(5), "secondary status", Flags(&SECONDARY_BITS)),
    field!(50, 2, Some(5), "bridge control", Hexadecimal),
    field!(52, 1, Some(6), "capability ID", Hexadecimal),
    field!(53, 1, Some(6), "next capability", Hexadecimal),
    field!(54, 2, Some(6), "PCI Express capabilities", Hexadecimal),
    field!(56, 4, Some(6), "device capabilities", Hexadecimal),
    field!(60, 2, Some(6), "device control", Hexadecimal),
    field!(62, 2, Some(6), "device status", Hexadecimal),
    field!(64, 4, Some(6), "link capabilities", Hexadecimal),
    field!(68, 2, Some(6), "link control", Hexadecimal),
    field!(70, 2, Some(6), "link status", Hexadecimal),
    field!(72, 4, Some(6), "slot capabilities", Hexadecimal),
    field!(76, 2, Some(6), "slot control", Hexadecimal),
    field!(78, 2, Some(6), "slot status", Hexadecimal),
    field!(80, 2, Some(6), "root control", Hexadecimal),
    field!(82, 2, Some(6), "root capabilities", Hexadecimal),
    field!(84, 4, Some(6), "root status", Hexadecimal),
    field!(88, 4, Some(6), "device capabilities 2", Hexadecimal),
    field!(92, 2, Some(6), "device control 2", Hexadecimal),
    field!(94, 2, Some(6), "device status 2", Hexadecimal),
    field!(96, 4, Some(6), "link capabilities 2", Hexadecimal),
    field!(100, 2, Some(6), "link control 2", Hexadecimal),
    field!(102, 2, Some(6), "link status 2", Hexadecimal),
    field!(104, 4, Some(6), "slot capabilities 2", Hexadecimal),
    field!(108, 2, Some(6), "slot control 2", Hexadecimal),
    field!(110, 2, Some(6), "slot status 2", Hexadecimal),
    field!(112, 4, Some(7), "AER capability header", Hexadecimal),
    field!(
        116,
        4,
        Some(7),
        "uncorrectable error status",
        Flags(&UNCORRECTABLE_BITS)
    ),
    field!(
        120,
        4,
        Some(7),
        "uncorrectable error mask",
        Flags(&UNCORRECTABLE_BITS)
    ),
    field!(
        124,
        4,
        Some(7),
        "uncorrectable error severity",
        Flags(&UNCORRECTABLE_BITS)
    ),
    field!(
        128,
        4,
        Some(7),
        "correctable error status",
        Flags(&CORRECTABLE_BITS)
    ),
    field!(
        132,
        4,
        Some(7),
        "correctable error mask",
        Flags(&CORRECTABLE_BITS)
    ),
    field!(
        136,
        4,
        Some(7),
        "advanced error capabilities and control",
        Hexadecimal
    ),
    field!(140, 4, Some(7), "header log 0", Hexadecimal),
    field!(144, 4, Some(7), "header log 1", Hexadecimal),
    field!(148, 4, Some(7), "header log 2", Hexadecimal),
    field!(152, 4, Some(7), "header log 3", Hexadecimal),
    field!(156, 4, Some(7), "root error command", Hexadecimal),
    field!(160, 4, Some(7), "root error status", Hexadecimal),
    field!(164, 2, Some(7), "correctable error source", Hexadecimal),
    field!(166, 2, Some(7), "uncorrectable error source", Hexadecimal),
];

const PCI_EXPRESS: Layout = Layout {
    valid_at: 0,
    fields: &PCI_EXPRESS_FIELDS,
    parts_at: 0,
    parts: &NO_PARTS,
};

// A PCI or PCI-X bus error (UEFI 2.8, N.2.8).
const PCI_BUS_FIELDS: [Field; 11] = [
    field!(8, 8, Some(0), "error status", Hexadecimal),
    bits!(8, 8, Some(0), "error status type", 8, 8, &ERROR_TYPES),
    field!(16, 2, Some(1), "error type", OneOf(&BUS_ERRORS)),
    field!(18, 1, Some(2), "bus number", Decimal),
    field!(19, 1, Some(2), "segment number", Decimal),
    field!(24, 8, Some(3), "bus address", Hexadecimal),
    field!(32, 8, Some(4), "bus data", Hexadecimal),
    field!(40, 8, Some(5), "bus command", Hexadecimal),
    field!(48, 8, Some(6), "bus requestor ID", Hexadecimal),
    field!(56, 8, Some(7), "bus completer ID", Hexadecimal),
    field!(64, 8, Some(8), "target ID", Hexadecimal),
];

const PCI_BUS: Layout = Layout {
    valid_at: 0,
    fields: &PCI_BUS_FIELDS,
    parts_at: 0,
    parts: &NO_PARTS,
};

// A PCI or PCI-X component error (UEFI 2.8, N.2.9).
const PCI_COMPONENT_FIELDS: [Field; 11] = [
    field!(8, 8, Some(0), "error status", Hexadecimal),
    bits!(8, 8, Some(0), "error status type", 8, 8, &ERROR_TYPES),
    field!(16, 2, Some(1), "vendor ID", Hexadecimal),
    field!(18, 2, Some(1), "device ID", Hexadecimal),
    field!(20, 3, Some(1), "class code", Hexadecimal),
    field!(23, 1, Some(1), "function number", Decimal),
    field!(24, 1, Some(1), "device number", Decimal),
    field!(25, 1, Some(1), "bus number", Decimal),
    field!(26, 1, Some(1), "segment number", Decimal),
    field!(32, 4, Some(2), "memory number", Decimal),
    field!(36, 4, Some(3), "IO number", Decimal),
];

// A part of it: memory register.
const REGISTER_PAIR_FIELDS: [Field; 2] = [
    field!(0, 8, None, "address", Hexadecimal),
    field!(8, 8, None, "value", Hexadecimal),
];

const PCI_COMPONENT_PARTS: [Parts; 2] = [
    Parts {
        name: "memory register",
        count: Count {
            at: 32,
            width: 4,
            low: 0,
            bits: 32,
        },
        size: Size::Fixed(16),
        valid_at: 0,
        fields: &REGISTER_PAIR_FIELDS,
        inner: &NOTHING_INSIDE,
    },
    Parts {
        name: "IO register",
        count: Count {
            at: 36,
            width: 4,
            low: 0,
            bits: 32,
        },
        size: Size::Fixed(16),
        valid_at: 0,
        fields: &REGISTER_PAIR_FIELDS,
        inner: &NOTHING_INSIDE,
    },
];

const PCI_COMPONENT: Layout = Layout {
    valid_at: 0,
    fields: &PCI_COMPONENT_FIELDS,
    parts_at: 40,
    parts: &PCI_COMPONENT_PARTS,
};

/// The fields of a PCI Express error (UEFI 2.8, N.2.7).
#[tactic(auto, unfolding(crate::specs::Pci::pci_express))]
pub(crate) fn pci_express() -> Layout
    ensures layout { structure_of result ≡ pci_express }
    ensures sound { IsTrue (is_sound_structure (structure_of result)) }
{
    PCI_EXPRESS
}

/// The fields of a PCI or PCI-X bus error (UEFI 2.8, N.2.8).
#[tactic(auto, unfolding(crate::specs::Pci::pci_bus))]
pub(crate) fn pci_bus() -> Layout
    ensures layout { structure_of result ≡ pci_bus }
    ensures sound { IsTrue (is_sound_structure (structure_of result)) }
{
    PCI_BUS
}

/// The fields of a PCI or PCI-X component error (UEFI 2.8, N.2.9).
#[tactic(auto, unfolding(crate::specs::Pci::pci_component))]
pub(crate) fn pci_component() -> Layout
    ensures layout { structure_of result ≡ pci_component }
    ensures sound { IsTrue (is_sound_structure (structure_of result)) }
{
    PCI_COMPONENT
}
