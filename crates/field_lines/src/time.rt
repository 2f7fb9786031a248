// Times: in digits of four bits, and in seconds.
ghost use Rattle.std.specs.Prelude.{◌≡◌, ◌++◌, ◌<◌, ◌^◌, length, OnOk};
ghost use Rattle.field_lines.specs.Times.{stamp_text, stamp_date, stamp_clock, packed_digits, precise_word, two_digits, clock_text, date_text, cycle_year, year_day, march_month, year_of, month_of, day_of};

use crate::digits::{digit, high, low};
use std::alloc::AllocError;

/// The first second of the year 10000.
pub(crate) const YEAR_10000: u64 = 253_402_300_800;

/// Appends the time that 8 bytes stand for in digits of four bits, and whether it is precise.
pub fn add_stamp(bytes: &[u8], out: &mut Vec<u8>) -> Result<(), AllocError>
    requires { length bytes.now ≡ 8 }
    ensures { OnOk result (out.new.items ≡ out.old.items ++ stamp_text bytes.now) }
{
    add_stamp_date(bytes, out)?;
    out.push(b' ')?;
    add_stamp_clock(bytes, out)?;
    add_precise(bytes[3], out)
}

#[tactic(auto, unfolding(crate::specs::Times::stamp_date))]
fn add_stamp_date(bytes: &[u8], out: &mut Vec<u8>) -> Result<(), AllocError>
    requires { length bytes.now ≡ 8 }
    ensures { OnOk result (out.new.items ≡ out.old.items ++ stamp_date bytes.now) }
{
    add_packed(bytes[7], out)?;
    add_packed(bytes[6], out)?;
    out.push(b'-')?;
    add_packed(bytes[5], out)?;
    out.push(b'-')?;
    add_packed(bytes[4], out)
}

#[tactic(auto, unfolding(crate::specs::Times::stamp_clock))]
fn add_stamp_clock(bytes: &[u8], out: &mut Vec<u8>) -> Result<(), AllocError>
    requires { length bytes.now ≡ 8 }
    ensures { OnOk result (out.new.items ≡ out.old.items ++ stamp_clock bytes.now) }
{
    add_packed(bytes[2], out)?;
    out.push(b':')?;
    add_packed(bytes[1], out)?;
    out.push(b':')?;
    add_packed(bytes[0], out)
}

#[tactic(auto, unfolding(crate::specs::Times::packed_digits))]
fn add_packed(byte: u8, out: &mut Vec<u8>) -> Result<(), AllocError>
    ensures { OnOk result (out.new.items ≡ out.old.items ++ packed_digits byte) }
{
    out.extend_from_slice(&[high(byte), low(byte)])
}

fn add_precise(byte: u8, out: &mut Vec<u8>) -> Result<(), AllocError>
    ensures { OnOk result (out.new.items ≡ out.old.items ++ precise_word byte) }
{
    if byte % 2 == 1 {
        out.extend_from_slice(b" precise")
    } else {
        Ok(())
    }
}

/// Appends the date and time in UTC, so many seconds behind the start of 1970.
pub fn add_date(seconds: u64, out: &mut Vec<u8>) -> Result<(), AllocError>
    ensures { OnOk result (out.new.items ≡ out.old.items ++ date_text seconds) }
{
    let days = seconds / 86_400;
    let year = year_of(days);
    let month = month_of(days);
    let day = day_of(days);
    add_two_digits(year / 100, out)?;
    add_two_digits(year, out)?;
    out.push(b'-')?;
    add_two_digits(month, out)?;
    out.push(b'-')?;
    add_two_digits(day, out)?;
    out.push(b' ')?;
    add_clock(seconds, out)
}

fn add_clock(seconds: u64, out: &mut Vec<u8>) -> Result<(), AllocError>
    ensures { OnOk result (out.new.items ≡ out.old.items ++ clock_text seconds) }
{
    add_two_digits(seconds / 3_600 % 24, out)?;
    out.push(b':')?;
    add_two_digits(seconds / 60 % 60, out)?;
    out.push(b':')?;
    add_two_digits(seconds % 60, out)
}

#[tactic(auto, unfolding(crate::specs::Times::two_digits))]
fn add_two_digits(number: u64, out: &mut Vec<u8>) -> Result<(), AllocError>
    ensures { OnOk result (out.new.items ≡ out.old.items ++ two_digits number) }
{
    out.extend_from_slice(&[digit((number / 10 % 10) as u8), digit((number % 10) as u8)])
}

// The calendar repeats after 400 years. Here its years begin with March, so that a leap day is the last day of one.

const CYCLE: u64 = 146_097;

const TO_1970: u64 = 719_468;

fn cycle_year(day: u64) -> u64
    requires { day < 146097 }
    ensures value { result ≡ cycle_year day }
    ensures low { result < 1000 }
{
    (day.saturating_sub(day / 1_460) + day / 36_524).saturating_sub(day / 146_096) / 365
}

fn year_day(day: u64) -> u64
    requires { day < 146097 }
    ensures value { result ≡ year_day day }
    ensures low { result < 146097 }
{
    let year = cycle_year(day);
    day.saturating_sub((365 * year + year / 4).saturating_sub(year / 100))
}

fn march_month(days: u64) -> u64
    requires { days < 2 ^ 50 }
    ensures value { result ≡ march_month days }
    ensures low { result < 10000 }
{
    (5 * year_day((days + TO_1970) % CYCLE) + 2) / 153
}

fn day_of(days: u64) -> u64
    requires { days < 2 ^ 50 }
    ensures { result ≡ day_of days }
{
    let day = year_day((days + TO_1970) % CYCLE);
    day.saturating_sub((153 * march_month(days) + 2) / 5) + 1
}

fn month_of(days: u64) -> u64
    requires { days < 2 ^ 50 }
    ensures { result ≡ month_of days }
{
    let month = march_month(days);
    if month < 10 { month + 3 } else { month - 9 }
}

fn year_of(days: u64) -> u64
    requires { days < 2 ^ 50 }
    ensures { result ≡ year_of days }
{
    let shifted = days + TO_1970;
    let year = 400 * (shifted / CYCLE) + cycle_year(shifted % CYCLE);
    if march_month(days) < 10 {
        year
    } else {
        year + 1
    }
}
