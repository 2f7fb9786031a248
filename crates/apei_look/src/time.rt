// A record's time (UEFI 2.8, N.2.1).
ghost use Rattle.std.specs.Prelude.{◌≡◌, ◌+◌, ◌*◌, ◌/◌, ◌%◌, ◌<◌, ◌≤◌, MatchOption, pos};
ghost use Rattle.std.specs.Str.{bytes_eq};
ghost use Rattle.apei_look.specs.Times.{IsDigits, two_digits, byte_of, has_time, is_of_error, AreOfCalendar, IsOfDigits, IsTimeOf, nanos_since_1970, linux};
ghost use Rattle.jiff.specs.Words.{civil_nanos, IsTimestampNanos};

use apei_bytes::Guid;
use cper_frame::RecordHead;
use jiff::Timestamp;
use jiff::civil::DateTime;
use jiff::tz::Offset;

// The creator of the records that Linux writes, 75a574e3-5052-4b29-8a8e-be2c6490b89d.
const LINUX: [u8; 16] = [
    0xE3, 0x74, 0xA5, 0x75, 0x52, 0x50, 0x29, 0x4B, 0x8A, 0x8E, 0xBE, 0x2C, 0x64, 0x90, 0xB8, 0x9D,
];

/// What a record says of its time.
#[derive(Clone, Copy, Debug)]
pub enum RecordTime {
    /// It says that it has none.
    Missing,
    /// A time of the calendar, in UTC where Linux wrote it, and whether it is that of the error.
    Calendar { time: DateTime, is_precise: bool },
    /// Eight bytes that are no time of the calendar, as a number.
    Bytes(u64),
}

/// The time of a record. Linux counts seconds since 1970; others write digits of four bits.
pub fn time_of(head: &RecordHead) -> RecordTime
    ensures { IsTimeOf head.now result }
{
    if !has_time(head.validation) {
        return RecordTime::Missing;
    }
    let stamp = head.timestamp;
    if is_linux(&head.creator) {
        match time_of_seconds(stamp) {
            Some(time) => RecordTime::Calendar {
                time,
                is_precise: true,
            },
            None => RecordTime::Bytes(stamp),
        }
    } else {
        match time_of_digits(stamp) {
            Some(time) => RecordTime::Calendar {
                time,
                is_precise: is_of_error(stamp),
            },
            None => RecordTime::Bytes(stamp),
        }
    }
}

#[tactic(auto, using(std::proofs::lemmas::Bool::Decides::nat_tests))]
fn has_time(validation: u32) -> bool
    ensures { result ≡ has_time validation }
{
    validation / 2 % 2 == 1
}

// Whether a time is that of the error.
#[tactic(auto, using(std::proofs::lemmas::Bool::Decides::nat_tests))]
fn is_of_error(stamp: u64) -> bool
    ensures { result ≡ is_of_error stamp }
{
    byte_of(stamp, 3) % 2 == 1
}

fn is_linux(creator: &Guid) -> bool
    ensures { result ≡ bytes_eq creator.now linux }
{
    are_equal(&creator.to_bytes(), &LINUX)
}

fn are_equal(one: &[u8], other: &[u8]) -> bool
    ensures { result ≡ bytes_eq one.now other.now }
{
    one == other
}

// So many seconds behind the start of 1970, in UTC.
fn time_of_seconds(seconds: u64) -> Option<DateTime>
    ensures { MatchOption result (IsTimestampNanos (nanos_since_1970 seconds) → ⊥)
        (λ time. civil_nanos time ≡ nanos_since_1970 seconds) }
{
    let seconds = i64::try_from(seconds).ok()?;
    let instant = Timestamp::from_second(seconds).ok()?;
    Some(Offset::UTC.to_datetime(instant))
}

// The time in digits of four bits: seconds, minutes, hours, a byte of flags, day, month, year and century, from the low byte on.
fn time_of_digits(stamp: u64) -> Option<DateTime>
    ensures { MatchOption result (AreOfCalendar stamp → ⊥) (IsOfDigits stamp) }
{
    let century = digits(byte_of(stamp, 7))?;
    let year = digits(byte_of(stamp, 6))?;
    let month = digits(byte_of(stamp, 5))?;
    let day = digits(byte_of(stamp, 4))?;
    let hour = digits(byte_of(stamp, 2))?;
    let minute = digits(byte_of(stamp, 1))?;
    let second = digits(byte_of(stamp, 0))?;
    let year = i16::from(century) * 100 + i16::from(year);
    DateTime::new(year, month, day, hour, minute, second, 0).ok()
}

// The number that two digits of four bits are.
#[tactic(auto, using(std::proofs::lemmas::Bool::Decides::nat_tests))]
fn digits(byte: u8) -> Option<i8>
    ensures { MatchOption result (¬ IsDigits byte) (λ number. IsDigits byte × (number ≡ pos (two_digits byte))) }
{
    let tens = byte / 16;
    let ones = byte % 16;
    if tens > 9 || ones > 9 {
        return None;
    }
    Some((tens * 10 + ones) as i8)
}

// One byte of a number, from the low one on.
fn byte_of(number: u64, at: u32) -> u8
    requires { at < 8 }
    ensures { result ≡ byte_of number at }
{
    ((number >> (8 * at)) % 256) as u8
}
