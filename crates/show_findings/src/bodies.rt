// The sentences of what Linux stores without a record around it: the body of a machine check and a kernel's log.
ghost use Rattle.std.specs.Prelude.{◌++◌, codes, OnOk};
ghost use Rattle.field_lines.specs.Linux.{linux_machine_check};
ghost use Rattle.show_findings.specs.Sentences.{Adds, Grows, Says, Tells};
ghost use Rattle.show_findings.specs.Words.{check_words};

use crate::seen_u64;
use crate::times::add_seconds;
use crate::words::add_check;
use field_lines::{SectionKind, fields_of};
use std::alloc::AllocError;

/// Adds the sentence of a machine check that Linux stored, by its body alone.
pub fn add_machine_check(out: &mut String, body: &[u8]) -> Result<(), AllocError>
    ensures { OnOk result (Tells (codes "machine check" ++ check_words linux_machine_check body.now) out.old out.new) }
{
    add_checked(out, body)?;
    add_check_time(out, seen_u64(body, 48))
}

// Adds all of it but the time.
fn add_checked(out: &mut String, body: &[u8]) -> Result<(), AllocError>
    ensures { OnOk result (Adds (codes "machine check" ++ check_words linux_machine_check body.now) out.old out.new) }
{
    out.push_str("machine check")?;
    add_check(out, &fields_of(SectionKind::LinuxMachineCheck), body)
}

fn add_check_time(out: &mut String, seconds: u64) -> Result<(), AllocError>
    ensures { OnOk result (Grows out.old out.new) }
{
    if seconds == 0 {
        return Ok(());
    }
    out.push_str(", ")?;
    add_seconds(out, seconds)
}

/// Adds the sentence of a kernel's log that Linux stored.
pub fn add_dmesg(out: &mut String, body: &[u8]) -> Result<(), AllocError>
    ensures { OnOk result (Says out.old out.new) }
{
    let len = body.len();
    write!(out, "kernel log that Linux stored, {len} bytes")
}
