// Firmware error records, DMA remapping and CCIX (UEFI 2.8, N.2.10 to N.2.12).
ghost use Rattle.std.specs.Prelude.{◌≡◌, IsTrue};
ghost use Rattle.field_lines.specs.Layouts.{is_sound_structure};
ghost use Rattle.field_lines.specs.Code.{structure_of};
ghost use Rattle.field_lines.specs.Remapping.{firmware_record, dma_remapping, directed_io, iommu, ccix};

use crate::Shape::{Bytes, Decimal, Guid, Hexadecimal, OneOf, Text};
use crate::section_rows::{NO_PARTS, field, name};
use crate::{Field, Layout, Name};

// The types of firmware error records (UEFI 2.8, N.2.10).
const FIRMWARE_RECORDS: [Name; 3] = [
    name!(0, "IPF SAL error record"),
    name!(1, "SOC firmware error record type 1"),
    name!(2, "SOC firmware error record type 2"),
];

// The reasons of DMA remapping faults (UEFI 2.8, N.2.11.1).
const FAULT_REASONS: [Name; 12] = [
    name!(1, "domain mapping table entry is not present"),
    name!(2, "invalid domain mapping table entry"),
    name!(3, "access to the domain mapping table failed"),
    name!(4, "reserved bit set in the domain mapping table"),
    name!(5, "address beyond the device address width"),
    name!(6, "invalid read or write access"),
    name!(7, "invalid device request"),
    name!(8, "access to the address translation table failed"),
    name!(9, "reserved bit set in the address translation table"),
    name!(10, "illegal command error"),
    name!(11, "access to the command buffer failed"),
    name!(12, "other"),
];

// The access types (UEFI 2.8, N.2.11.1).
const DMA_ACCESSES: [Name; 2] = [name!(0, "DMA read"), name!(1, "DMA write")];

// The address types (UEFI 2.8, N.2.11.1).
const DMA_ADDRESSES: [Name; 2] = [
    name!(0, "untranslated request"),
    name!(1, "translation request"),
];

// The architecture types (UEFI 2.8, N.2.11.1).
const DMA_ARCHITECTURES: [Name; 2] = [name!(1, "VT-d"), name!(2, "IOMMU")];

// A reference to a firmware error record (UEFI 2.8, N.2.10).
const FIRMWARE_RECORD_FIELDS: [Field; 4] = [
    field!(
        0,
        1,
        None,
        "firmware error record type",
        OneOf(&FIRMWARE_RECORDS)
    ),
    field!(1, 1, None, "revision", Decimal),
    field!(8, 8, None, "record identifier", Hexadecimal),
    field!(16, 16, None, "record identifier GUID extension", Guid),
];

const FIRMWARE_RECORD: Layout = Layout {
    valid_at: 0,
    fields: &FIRMWARE_RECORD_FIELDS,
    parts_at: 0,
    parts: &NO_PARTS,
};

// A DMA remapping error (UEFI 2.8, N.2.11.1).
const DMA_REMAPPING_FIELDS: [Field; 7] = [
    field!(0, 2, None, "requester ID", Hexadecimal),
    field!(2, 2, None, "segment number", Decimal),
    field!(4, 1, None, "fault reason", OneOf(&FAULT_REASONS)),
    field!(5, 1, None, "access type", OneOf(&DMA_ACCESSES)),
    field!(6, 1, None, "address type", OneOf(&DMA_ADDRESSES)),
    field!(7, 1, None, "architecture type", OneOf(&DMA_ARCHITECTURES)),
    field!(8, 8, None, "device address", Hexadecimal),
];

const DMA_REMAPPING: Layout = Layout {
    valid_at: 0,
    fields: &DMA_REMAPPING_FIELDS,
    parts_at: 0,
    parts: &NO_PARTS,
};

// An error of Intel's VT for Directed I/O (UEFI 2.8, N.2.11.2).
const DIRECTED_IO_FIELDS: [Field; 17] = [
    field!(0, 1, None, "version", Decimal),
    field!(1, 1, None, "revision", Decimal),
    field!(2, 6, None, "OEM ID", Text),
    field!(8, 8, None, "capability register", Hexadecimal),
    field!(16, 8, None, "extended capability register", Hexadecimal),
    field!(24, 4, None, "global command register", Hexadecimal),
    field!(28, 4, None, "global status register", Hexadecimal),
    field!(32, 4, None, "fault status register", Hexadecimal),
    field!(48, 16, None, "fault record", Hexadecimal),
    field!(64, 16, None, "root entry", Hexadecimal),
    field!(80, 16, None, "context entry", Hexadecimal),
    field!(96, 8, None, "level 6 page table entry", Hexadecimal),
    field!(104, 8, None, "level 5 page table entry", Hexadecimal),
    field!(112, 8, None, "level 4 page table entry", Hexadecimal),
    field!(120, 8, None, "level 3 page table entry", Hexadecimal),
    field!(128, 8, None, "level 2 page table entry", Hexadecimal),
    field!(136, 8, None, "level 1 page table entry", Hexadecimal),
];

const DIRECTED_IO: Layout = Layout {
    valid_at: 0,
    fields: &DIRECTED_IO_FIELDS,
    parts_at: 0,
    parts: &NO_PARTS,
};

// An error of an IOMMU (UEFI 2.8, N.2.11.3).
const IOMMU_FIELDS: [Field; 11] = [
    field!(0, 1, None, "revision", Decimal),
    field!(8, 8, None, "control register", Hexadecimal),
    field!(16, 8, None, "status register", Hexadecimal),
    field!(32, 16, None, "event log entry", Hexadecimal),
    field!(64, 32, None, "device table entry", Hexadecimal),
    field!(96, 8, None, "level 6 page table entry", Hexadecimal),
    field!(104, 8, None, "level 5 page table entry", Hexadecimal),
    field!(112, 8, None, "level 4 page table entry", Hexadecimal),
    field!(120, 8, None, "level 3 page table entry", Hexadecimal),
    field!(128, 8, None, "level 2 page table entry", Hexadecimal),
    field!(136, 8, None, "level 1 page table entry", Hexadecimal),
];

const IOMMU: Layout = Layout {
    valid_at: 0,
    fields: &IOMMU_FIELDS,
    parts_at: 0,
    parts: &NO_PARTS,
};

// A CCIX PER log (UEFI 2.8, N.2.12).
const CCIX_FIELDS: [Field; 4] = [
    field!(0, 4, None, "length", Decimal),
    field!(12, 1, Some(0), "CCIX source ID", Decimal),
    field!(13, 1, Some(1), "CCIX port ID", Decimal),
    field!(16, 1, Some(2), "CCIX PER log", Bytes),
];

const CCIX: Layout = Layout {
    valid_at: 4,
    fields: &CCIX_FIELDS,
    parts_at: 0,
    parts: &NO_PARTS,
};

/// The fields of a reference to a firmware error record (UEFI 2.8, N.2.10).
#[tactic(auto, unfolding(crate::specs::Remapping::firmware_record))]
pub(crate) fn firmware_record() -> Layout
    ensures layout { structure_of result ≡ firmware_record }
    ensures sound { IsTrue (is_sound_structure (structure_of result)) }
{
    FIRMWARE_RECORD
}

/// The fields of a DMA remapping error (UEFI 2.8, N.2.11.1).
#[tactic(auto, unfolding(crate::specs::Remapping::dma_remapping))]
pub(crate) fn dma_remapping() -> Layout
    ensures layout { structure_of result ≡ dma_remapping }
    ensures sound { IsTrue (is_sound_structure (structure_of result)) }
{
    DMA_REMAPPING
}

/// The fields of an error of Intel's VT for Directed I/O (UEFI 2.8, N.2.11.2).
#[tactic(auto, unfolding(crate::specs::Remapping::directed_io))]
pub(crate) fn directed_io() -> Layout
    ensures layout { structure_of result ≡ directed_io }
    ensures sound { IsTrue (is_sound_structure (structure_of result)) }
{
    DIRECTED_IO
}

/// The fields of an error of an IOMMU (UEFI 2.8, N.2.11.3).
#[tactic(auto, unfolding(crate::specs::Remapping::iommu))]
pub(crate) fn iommu() -> Layout
    ensures layout { structure_of result ≡ iommu }
    ensures sound { IsTrue (is_sound_structure (structure_of result)) }
{
    IOMMU
}

/// The fields of a CCIX PER log (UEFI 2.8, N.2.12).
#[tactic(auto, unfolding(crate::specs::Remapping::ccix))]
pub(crate) fn ccix() -> Layout
    ensures layout { structure_of result ≡ ccix }
    ensures sound { IsTrue (is_sound_structure (structure_of result)) }
{
    CCIX
}
