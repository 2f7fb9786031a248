// Error sources of IA-32 processors (ACPI 6.4, 18.3.2.1, 18.3.2.2 and 18.3.2.10).
use crate::Shape::{Decimal, Flags, Hexadecimal, OneOf};
use crate::table_rows::{NO_PARTS, NOTHING_INSIDE, field, name};
use crate::{Count, Field, Layout, Name, Parts, Size};

// The types of error sources (ACPI 6.4, 18.3.2).
pub(crate) const SOURCE_TYPES: [Name; 9] = [
    name!(0, "IA-32 machine check exception"),
    name!(1, "IA-32 corrected machine check"),
    name!(2, "IA-32 non-maskable interrupt"),
    name!(6, "PCI Express root port AER"),
    name!(7, "PCI Express device AER"),
    name!(8, "PCI Express bridge AER"),
    name!(9, "generic hardware error source"),
    name!(10, "generic hardware error source version 2"),
    name!(11, "IA-32 deferred machine check"),
];

// The flags of error sources (ACPI 6.4, 18.3.2.1).
pub(crate) const SOURCE_FLAGS: [Name; 3] = [
    name!(0, "firmware first"),
    name!(1, "global"),
    name!(2, "GHES assist"),
];

// The formats of a bank's status (ACPI 6.4, 18.3.2.1.1).
const STATUS_FORMATS: [Name; 3] = [
    name!(0, "IA-32 MCA"),
    name!(1, "Intel 64 MCA"),
    name!(2, "AMD64 MCA"),
];

// The types of notifications (ACPI 6.4, 18.3.2.9).
pub(crate) const NOTIFICATIONS: [Name; 12] = [
    name!(0, "polled"),
    name!(1, "external interrupt"),
    name!(2, "local interrupt"),
    name!(3, "SCI"),
    name!(4, "NMI"),
    name!(5, "CMCI"),
    name!(6, "MCE"),
    name!(7, "GPIO signal"),
    name!(8, "ARMv8 SEA"),
    name!(9, "ARMv8 SEI"),
    name!(10, "external interrupt - GSIV"),
    name!(11, "software delegated exception"),
];

// The parts of a notification that may be written (ACPI 6.4, 18.3.2.9).
pub(crate) const CONFIGURATION_WRITES: [Name; 6] = [
    name!(0, "type"),
    name!(1, "poll interval"),
    name!(2, "switch to polling threshold value"),
    name!(3, "switch to polling threshold window"),
    name!(4, "error threshold value"),
    name!(5, "error threshold window"),
];

// An IA-32 machine check exception (ACPI 6.4, 18.3.2.1).
const MACHINE_CHECK_FIELDS: [Field; 9] = [
    field!(0, 2, None, "type", OneOf(&SOURCE_TYPES)),
    field!(2, 2, None, "source ID", Decimal),
    field!(6, 1, None, "flags", Flags(&SOURCE_FLAGS)),
    field!(7, 1, None, "enabled", Decimal),
    field!(8, 4, None, "number of records to pre-allocate", Decimal),
    field!(12, 4, None, "max sections per record", Decimal),
    field!(16, 8, None, "global capability init data", Hexadecimal),
    field!(24, 8, None, "global control init data", Hexadecimal),
    field!(32, 1, None, "number of hardware banks", Decimal),
];

// A part of it: bank.
const BANK_FIELDS: [Field; 8] = [
    field!(0, 1, None, "bank number", Decimal),
    field!(1, 1, None, "clear status on initialization", Decimal),
    field!(2, 1, None, "status data format", OneOf(&STATUS_FORMATS)),
    field!(4, 4, None, "control register MSR address", Hexadecimal),
    field!(8, 8, None, "control init data", Hexadecimal),
    field!(16, 4, None, "status register MSR address", Hexadecimal),
    field!(20, 4, None, "address register MSR address", Hexadecimal),
    field!(24, 4, None, "misc register MSR address", Hexadecimal),
];

const MACHINE_CHECK_PARTS: [Parts; 1] = [Parts {
    name: "bank",
    count: Count {
        at: 32,
        width: 1,
        low: 0,
        bits: 8,
    },
    size: Size::Fixed(28),
    valid_at: 0,
    fields: &BANK_FIELDS,
    inner: &NOTHING_INSIDE,
}];

pub(crate) const MACHINE_CHECK: Layout = Layout {
    valid_at: 0,
    fields: &MACHINE_CHECK_FIELDS,
    parts_at: 40,
    parts: &MACHINE_CHECK_PARTS,
};

// An IA-32 corrected machine check, or a deferred one (ACPI 6.4, 18.3.2.2, 18.3.2.10).
const CORRECTED_CHECK_FIELDS: [Field; 16] = [
    field!(0, 2, None, "type", OneOf(&SOURCE_TYPES)),
    field!(2, 2, None, "source ID", Decimal),
    field!(6, 1, None, "flags", Flags(&SOURCE_FLAGS)),
    field!(7, 1, None, "enabled", Decimal),
    field!(8, 4, None, "number of records to pre-allocate", Decimal),
    field!(12, 4, None, "max sections per record", Decimal),
    field!(16, 1, None, "notification type", OneOf(&NOTIFICATIONS)),
    field!(17, 1, None, "notification length", Decimal),
    field!(
        18,
        2,
        None,
        "configuration write enable",
        Flags(&CONFIGURATION_WRITES)
    ),
    field!(20, 4, None, "poll interval", Decimal),
    field!(24, 4, None, "vector", Decimal),
    field!(28, 4, None, "switch to polling threshold value", Decimal),
    field!(32, 4, None, "switch to polling threshold window", Decimal),
    field!(36, 4, None, "error threshold value", Decimal),
    field!(40, 4, None, "error threshold window", Decimal),
    field!(44, 1, None, "number of hardware banks", Decimal),
];

const CORRECTED_CHECK_PARTS: [Parts; 1] = [Parts {
    name: "bank",
    count: Count {
        at: 44,
        width: 1,
        low: 0,
        bits: 8,
    },
    size: Size::Fixed(28),
    valid_at: 0,
    fields: &BANK_FIELDS,
    inner: &NOTHING_INSIDE,
}];

pub(crate) const CORRECTED_CHECK: Layout = Layout {
    valid_at: 0,
    fields: &CORRECTED_CHECK_FIELDS,
    parts_at: 48,
    parts: &CORRECTED_CHECK_PARTS,
};

// An IA-32 non-maskable interrupt (ACPI 6.4, 18.3.2.2.1).
const NMI_SOURCE_FIELDS: [Field; 5] = [
    field!(0, 2, None, "type", OneOf(&SOURCE_TYPES)),
    field!(2, 2, None, "source ID", Decimal),
    field!(8, 4, None, "number of records to pre-allocate", Decimal),
    field!(12, 4, None, "max sections per record", Decimal),
    field!(16, 4, None, "max raw data length", Decimal),
];

pub(crate) const NMI_SOURCE: Layout = Layout {
    valid_at: 0,
    fields: &NMI_SOURCE_FIELDS,
    parts_at: 0,
    parts: &NO_PARTS,
};
