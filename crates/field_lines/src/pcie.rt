// Error sources of PCI Express (ACPI 6.4, 18.3.2.3 to 18.3.2.5).
use crate::Shape::{Decimal, Flags, Hexadecimal, OneOf};
use crate::checks::{SOURCE_FLAGS, SOURCE_TYPES};
use crate::table_rows::{NO_PARTS, field};
use crate::{Field, Layout};

// A PCI Express root port (ACPI 6.4, 18.3.2.3).
const ROOT_PORT_FIELDS: [Field; 15] = [
    field!(0, 2, None, "type", OneOf(&SOURCE_TYPES)),
    field!(2, 2, None, "source ID", Decimal),
    field!(6, 1, None, "flags", Flags(&SOURCE_FLAGS)),
    field!(7, 1, None, "enabled", Decimal),
    field!(8, 4, None, "number of records to pre-allocate", Decimal),
    field!(12, 4, None, "max sections per record", Decimal),
    field!(16, 4, None, "bus", Hexadecimal),
    field!(20, 2, None, "device", Decimal),
    field!(22, 2, None, "function", Decimal),
    field!(24, 2, None, "device control", Hexadecimal),
    field!(28, 4, None, "uncorrectable error mask", Hexadecimal),
    field!(32, 4, None, "uncorrectable error severity", Hexadecimal),
    field!(36, 4, None, "correctable error mask", Hexadecimal),
    field!(
        40,
        4,
        None,
        "advanced error capabilities and control",
        Hexadecimal
    ),
    field!(44, 4, None, "root error command", Hexadecimal),
];

pub(crate) const ROOT_PORT: Layout = Layout {
    valid_at: 0,
    fields: &ROOT_PORT_FIELDS,
    parts_at: 0,
    parts: &NO_PARTS,
};

// A PCI Express device (ACPI 6.4, 18.3.2.4).
const PCIE_DEVICE_FIELDS: [Field; 14] = [
    field!(0, 2, None, "type", OneOf(&SOURCE_TYPES)),
    field!(2, 2, None, "source ID", Decimal),
    field!(6, 1, None, "flags", Flags(&SOURCE_FLAGS)),
    field!(7, 1, None, "enabled", Decimal),
    field!(8, 4, None, "number of records to pre-allocate", Decimal),
    field!(12, 4, None, "max sections per record", Decimal),
    field!(16, 4, None, "bus", Hexadecimal),
    field!(20, 2, None, "device", Decimal),
    field!(22, 2, None, "function", Decimal),
    field!(24, 2, None, "device control", Hexadecimal),
    field!(28, 4, None, "uncorrectable error mask", Hexadecimal),
    field!(32, 4, None, "uncorrectable error severity", Hexadecimal),
    field!(36, 4, None, "correctable error mask", Hexadecimal),
    field!(
        40,
        4,
        None,
        "advanced error capabilities and control",
        Hexadecimal
    ),
];

pub(crate) const PCIE_DEVICE: Layout = Layout {
    valid_at: 0,
    fields: &PCIE_DEVICE_FIELDS,
    parts_at: 0,
    parts: &NO_PARTS,
};

// A PCI Express bridge (ACPI 6.4, 18.3.2.5).
const PCIE_BRIDGE_FIELDS: [Field; 17] = [
    field!(0, 2, None, "type", OneOf(&SOURCE_TYPES)),
    field!(2, 2, None, "source ID", Decimal),
    field!(6, 1, None, "flags", Flags(&SOURCE_FLAGS)),
    field!(7, 1, None, "enabled", Decimal),
    field!(8, 4, None, "number of records to pre-allocate", Decimal),
    field!(12, 4, None, "max sections per record", Decimal),
    field!(16, 4, None, "bus", Hexadecimal),
    field!(20, 2, None, "device", Decimal),
    field!(22, 2, None, "function", Decimal),
    field!(24, 2, None, "device control", Hexadecimal),
    field!(28, 4, None, "uncorrectable error mask", Hexadecimal),
    field!(32, 4, None, "uncorrectable error severity", Hexadecimal),
    field!(36, 4, None, "correctable error mask", Hexadecimal),
    field!(
        40,
        4,
        None,
        "advanced error capabilities and control",
        Hexadecimal
    ),
    field!(
        44,
        4,
        None,
        "secondary uncorrectable error mask",
        Hexadecimal
    ),
    field!(
        48,
        4,
        None,
        "secondary uncorrectable error severity",
        Hexadecimal
    ),
    field!(
        52,
        4,
        None,
        "secondary advanced error capabilities and control",
        Hexadecimal
    ),
];

pub(crate) const PCIE_BRIDGE: Layout = Layout {
    valid_at: 0,
    fields: &PCIE_BRIDGE_FIELDS,
    parts_at: 0,
    parts: &NO_PARTS,
};
