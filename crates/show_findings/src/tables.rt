// The sentences of tables.
ghost use Rattle.std.specs.Prelude.{◌==◌, ◌++◌, codes, decimal, if◌then◌else◌, OnOk};
ghost use Rattle.show_findings.specs.Sentences.{Adds, Grows, Says};

use crate::{seen_u32, seen_u64};
use std::alloc::AllocError;
use std::str::from_utf8;

/// Adds the sentence of a table.
pub fn add_table(out: &mut String, table: &[u8]) -> Result<(), AllocError>
    ensures { OnOk result (Says out.old out.new) }
{
    let len = table.len();
    let signature = match table {
        [a, b, c, d, ..] => [*a, *b, *c, *d],
        _ => return write!(out, "table cut off after {len} bytes"),
    };
    match &signature {
        b"ERST" => {
            out.push_str("Error Record Serialization Table, ")?;
            add_counted(
                out,
                seen_u32(table, 44),
                "instruction entry",
                "instruction entries",
            )
        }
        b"HEST" => {
            out.push_str("Hardware Error Source Table, ")?;
            add_counted(out, seen_u32(table, 36), "error source", "error sources")
        }
        b"BERT" => {
            let region = seen_u32(table, 36);
            let address = seen_u64(table, 40);
            write!(
                out,
                "Boot Error Record Table, a region of {region} bytes at {address:#x}"
            )
        }
        other => add_other(out, other, len),
    }
}

// Adds how many there are, with the word for one or for several.
fn add_counted(out: &mut String, count: u32, one: &str, several: &str) -> Result<(), AllocError>
    ensures { OnOk result (Adds (decimal count ++ codes " " ++ (if count == 1 then one.now else several.now)) out.old out.new) }
{
    write!(out, "{count}")?;
    out.push(' ')?;
    if count == 1 {
        out.push_str(one)
    } else {
        out.push_str(several)
    }
}

// A table that has another signature than those of errors.
fn add_other(out: &mut String, signature: &[u8; 4], len: usize) -> Result<(), AllocError>
    ensures { OnOk result (Says out.old out.new) }
{
    out.push_str("table ")?;
    add_signature(out, signature)?;
    write!(out, ", {len} bytes, none of those of errors")
}

fn add_signature(out: &mut String, signature: &[u8; 4]) -> Result<(), AllocError>
    ensures { OnOk result (Grows out.old out.new) }
{
    match from_utf8(signature) {
        Ok(name) => out.push_str(name),
        Err(_) => Ok(()),
    }
}
