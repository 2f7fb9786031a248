// Error sources of a Hardware Error Source Table.
ghost use Rattle.std.specs.Prelude.{◌≡◌, ◌≤◌, length};
ghost use Rattle.linux_checks.specs.Hest.{ack_refusal, enabled_refusal, first_of, generic_refusal, is_generic, is_taken, poll_refusal, size_by, source_refusal};

use crate::reasons::{Reason, Refusal};
use crate::registers::register_refusal;
use apei_bytes::{byte_at, get_u32};

// The types of the generic sources.
const GENERIC: u16 = 9;

const GENERIC_V2: u16 = 10;

// Where the fields stand that Linux asks about (ACPI 6.4, sections 18.3.2.7 and 18.3.2.8).
const ENABLED: usize = 7;

const STATUS_ADDRESS: u8 = 20;

const NOTIFICATION: u8 = 32;

const POLL_INTERVAL: u8 = 36;

const BLOCK_LENGTH: u8 = 60;

const READ_ACK: u8 = 64;

// The bytes of a status block's head.
const HEAD: u32 = 20;

/// Why Linux refuses an error source of a type, if it does.
pub fn source_refusal(kind: u16, source: &[u8]) -> Option<Refusal>
    ensures { result ≡ source_refusal kind source.now }
{
    if !is_generic(kind) || source.len() < size_by(kind) {
        return None;
    }
    generic_refusal(kind, source)
}

fn is_generic(kind: u16) -> bool
    ensures { result ≡ is_generic kind }
{
    kind == GENERIC || kind == GENERIC_V2
}

fn size_by(kind: u16) -> usize
    ensures { result ≡ size_by kind }
{
    if kind == GENERIC { 64 } else { 92 }
}

fn generic_refusal(kind: u16, source: &[u8]) -> Option<Refusal>
    requires { size_by kind ≤ length source.now }
    ensures { result ≡ generic_refusal kind source.now }
{
    if byte_at(source, ENABLED) == 0 {
        return None;
    }
    enabled_refusal(kind, source)
}

fn enabled_refusal(kind: u16, source: &[u8]) -> Option<Refusal>
    requires { size_by kind ≤ length source.now }
    ensures { result ≡ enabled_refusal kind source.now }
{
    if !is_taken(byte_at(source, NOTIFICATION as usize)) {
        return Some(Refusal {
            at: NOTIFICATION,
            reason: Reason::Notification,
        });
    }
    if get_u32(source, BLOCK_LENGTH as usize) < HEAD {
        return Some(Refusal {
            at: BLOCK_LENGTH,
            reason: Reason::ShortBlock,
        });
    }
    first_of(
        ack_refusal(kind, source),
        first_of(
            register_refusal(source, STATUS_ADDRESS),
            poll_refusal(source),
        ),
    )
}

fn is_taken(notification: u8) -> bool
    ensures { result ≡ is_taken notification }
{
    notification < 2
        || notification == 3
        || notification == 4
        || notification == 7
        || notification == 8
        || notification == 10
        || notification == 11
}

fn first_of(refused: Option<Refusal>, other: Option<Refusal>) -> Option<Refusal>
    ensures { result ≡ first_of refused other }
{
    match refused {
        Some(refused) => Some(refused),
        None => other,
    }
}

fn ack_refusal(kind: u16, source: &[u8]) -> Option<Refusal>
    requires { size_by kind ≤ length source.now }
    ensures { result ≡ ack_refusal kind source.now }
{
    if kind == GENERIC_V2 {
        register_refusal(source, READ_ACK)
    } else {
        None
    }
}

fn poll_refusal(source: &[u8]) -> Option<Refusal>
    requires { 64 ≤ length source.now }
    ensures { result ≡ poll_refusal source.now }
{
    if byte_at(source, NOTIFICATION as usize) == 0 && get_u32(source, POLL_INTERVAL as usize) == 0 {
        Some(Refusal {
            at: POLL_INTERVAL,
            reason: Reason::NeverPolled,
        })
    } else {
        None
    }
}
