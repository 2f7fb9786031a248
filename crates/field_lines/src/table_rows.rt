// Rows of tables.
use crate::{Inner, Parts};

macro_rules! field {
    ($at:expr, $width:expr, $bit:expr, $name:expr, $shape:expr) => {
        Field {
            at: $at,
            width: $width,
            bit: $bit,
            name: $name,
            shape: $shape,
        }
    };
}

macro_rules! name {
    ($number:expr, $name:expr) => {
        Name {
            number: $number,
            name: $name,
        }
    };
}

pub(crate) use field;
pub(crate) use name;

pub(crate) const NO_PARTS: [Parts; 0] = [];

pub(crate) const NOTHING_INSIDE: [Inner; 0] = [];
