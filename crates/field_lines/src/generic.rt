// Generic hardware error sources (ACPI 6.4, 18.3.2.7 and 18.3.2.8).
use crate::Shape::{Decimal, Flags, Hexadecimal, OneOf, Register};
use crate::checks::{CONFIGURATION_WRITES, NOTIFICATIONS, SOURCE_TYPES};
use crate::table_rows::{NO_PARTS, field};
use crate::{Field, Layout};

// A generic hardware error source (ACPI 6.4, 18.3.2.7).
const GENERIC_SOURCE_FIELDS: [Field; 19] = [
    field!(0, 2, None, "type", OneOf(&SOURCE_TYPES)),
    field!(2, 2, None, "source ID", Decimal),
    field!(4, 2, None, "related source ID", Decimal),
    field!(6, 1, None, "flags", Hexadecimal),
    field!(7, 1, None, "enabled", Decimal),
    field!(8, 4, None, "number of records to pre-allocate", Decimal),
    field!(12, 4, None, "max sections per record", Decimal),
    field!(16, 4, None, "max raw data length", Decimal),
    field!(20, 12, None, "error status address", Register),
    field!(32, 1, None, "notification type", OneOf(&NOTIFICATIONS)),
    field!(33, 1, None, "notification length", Decimal),
    field!(
        34,
        2,
        None,
        "configuration write enable",
        Flags(&CONFIGURATION_WRITES)
    ),
    field!(36, 4, None, "poll interval", Decimal),
    field!(40, 4, None, "vector", Decimal),
    field!(44, 4, None, "switch to polling threshold value", Decimal),
    field!(48, 4, None, "switch to polling threshold window", Decimal),
    field!(52, 4, None, "error threshold value", Decimal),
    field!(56, 4, None, "error threshold window", Decimal),
    field!(60, 4, None, "error status block length", Decimal),
];

pub(crate) const GENERIC_SOURCE: Layout = Layout {
    valid_at: 0,
    fields: &GENERIC_SOURCE_FIELDS,
    parts_at: 0,
    parts: &NO_PARTS,
};

// One of version 2 (ACPI 6.4, 18.3.2.8).
const GENERIC_SOURCE_2_FIELDS: [Field; 22] = [
    field!(0, 2, None, "type", OneOf(&SOURCE_TYPES)),
    field!(2, 2, None, "source ID", Decimal),
    field!(4, 2, None, "related source ID", Decimal),
    field!(6, 1, None, "flags", Hexadecimal),
    field!(7, 1, None, "enabled", Decimal),
    field!(8, 4, None, "number of records to pre-allocate", Decimal),
    field!(12, 4, None, "max sections per record", Decimal),
    field!(16, 4, None, "max raw data length", Decimal),
    field!(20, 12, None, "error status address", Register),
    field!(32, 1, None, "notification type", OneOf(&NOTIFICATIONS)),
    field!(33, 1, None, "notification length", Decimal),
    field!(
        34,
        2,
        None,
        "configuration write enable",
        Flags(&CONFIGURATION_WRITES)
    ),
    field!(36, 4, None, "poll interval", Decimal),
    field!(40, 4, None, "vector", Decimal),
    field!(44, 4, None, "switch to polling threshold value", Decimal),
    field!(48, 4, None, "switch to polling threshold window", Decimal),
    field!(52, 4, None, "error threshold value", Decimal),
    field!(56, 4, None, "error threshold window", Decimal),
    field!(60, 4, None, "error status block length", Decimal),
    field!(64, 12, None, "read ack register", Register),
    field!(76, 8, None, "read ack preserve", Hexadecimal),
    field!(84, 8, None, "read ack write", Hexadecimal),
];

pub(crate) const GENERIC_SOURCE_2: Layout = Layout {
    valid_at: 0,
    fields: &GENERIC_SOURCE_2_FIELDS,
    parts_at: 0,
    parts: &NO_PARTS,
};
