// Times (UEFI 2.8, N.2.1).
ghost use Rattle.std.specs.Prelude.{◌≡◌, ◌++◌, codes, length, slice_index, OnOk};
ghost use Rattle.field_lines.specs.Times.{packed_digits, stamp_clock, stamp_date};
ghost use Rattle.show_findings.specs.Sentences.{Adds, Says};
ghost use Rattle.show_findings.specs.Stamps.{about_word, is_packed, is_time, stamp_words};

use crate::phrases::digit;
use jiff::Timestamp;
use jiff::tz::Offset;
use std::alloc::AllocError;

/// Adds a time of Linux, which counts the seconds since the start of 1970.
pub(crate) fn add_seconds(out: &mut String, seconds: u64) -> Result<(), AllocError>
    ensures { OnOk result (Says out.old out.new) }
{
    let found = match i64::try_from(seconds) {
        Ok(seconds) => Timestamp::from_second(seconds).ok(),
        Err(_) => None,
    };
    match found {
        Some(instant) => {
            let time = Offset::UTC.to_datetime(instant);
            let date = time.date();
            let clock = time.time();
            write!(out, "{date} {clock} (Linux)")
        }
        None => write!(out, "{seconds} seconds since 1970 (Linux)"),
    }
}

/// Adds a time in digits of four bits behind a comma: seconds, minutes, hours, a byte of flags, day, month, year and century, from the low byte on.
/// Of one that is none it is said so.
pub(crate) fn add_stamp(out: &mut String, stamp: &[u8]) -> Result<(), AllocError>
    requires { length stamp.now ≡ 8 }
    ensures { OnOk result (Adds (stamp_words stamp.now) out.old out.new) }
{
    if !is_time(stamp) {
        return out.push_str(", no valid time");
    }
    out.push_str(", ")?;
    add_moment(out, stamp)
}

fn add_moment(out: &mut String, stamp: &[u8]) -> Result<(), AllocError>
    requires { length stamp.now ≡ 8 }
    ensures { OnOk result (Adds (stamp_date stamp.now ++ codes " " ++ stamp_clock stamp.now ++ about_word (slice_index stamp.now 3)) out.old out.new) }
{
    add_date(out, stamp)?;
    out.push(' ')?;
    add_hour(out, stamp)
}

fn add_hour(out: &mut String, stamp: &[u8]) -> Result<(), AllocError>
    requires { length stamp.now ≡ 8 }
    ensures { OnOk result (Adds (stamp_clock stamp.now ++ about_word (slice_index stamp.now 3)) out.old out.new) }
{
    add_clock(out, stamp)?;
    out.push_str(about(stamp[3]))
}

fn is_time(stamp: &[u8]) -> bool
    requires { length stamp.now ≡ 8 }
    ensures { result ≡ is_time stamp.now }
{
    is_packed(stamp[0], 0, 59)
        && is_packed(stamp[1], 0, 59)
        && is_packed(stamp[2], 0, 23)
        && is_packed(stamp[4], 1, 31)
        && is_packed(stamp[5], 1, 12)
        && is_packed(stamp[6], 0, 99)
        && is_packed(stamp[7], 0, 99)
}

// Whether a byte has two decimal digits, and is a number from one to another.
#[tactic(auto, using(std::proofs::lemmas::Bool::Decides::nat_tests))]
fn is_packed(byte: u8, least: u8, most: u8) -> bool
    ensures { result ≡ is_packed byte least most }
{
    if byte / 16 > 9 || byte % 16 > 9 {
        return false;
    }
    let number = byte / 16 * 10 + byte % 16;
    least <= number && number <= most
}

#[tactic(auto, unfolding(field_lines::specs::Times::stamp_date))]
fn add_date(out: &mut String, stamp: &[u8]) -> Result<(), AllocError>
    requires { length stamp.now ≡ 8 }
    ensures { OnOk result (Adds (stamp_date stamp.now) out.old out.new) }
{
    add_pair(out, stamp[7])?;
    add_pair(out, stamp[6])?;
    out.push('-')?;
    add_pair(out, stamp[5])?;
    out.push('-')?;
    add_pair(out, stamp[4])
}

#[tactic(auto, unfolding(field_lines::specs::Times::stamp_clock))]
fn add_clock(out: &mut String, stamp: &[u8]) -> Result<(), AllocError>
    requires { length stamp.now ≡ 8 }
    ensures { OnOk result (Adds (stamp_clock stamp.now) out.old out.new) }
{
    add_pair(out, stamp[2])?;
    out.push(':')?;
    add_pair(out, stamp[1])?;
    out.push(':')?;
    add_pair(out, stamp[0])
}

#[tactic(auto, unfolding(field_lines::specs::Times::packed_digits))]
fn add_pair(out: &mut String, byte: u8) -> Result<(), AllocError>
    ensures { OnOk result (Adds (packed_digits byte) out.old out.new) }
{
    out.push(digit(byte / 16))?;
    out.push(digit(byte % 16))
}

fn about(flags: u8) -> &'static str
    ensures { result.now ≡ about_word flags }
{
    if flags % 2 == 1 { "" } else { " or about then" }
}
