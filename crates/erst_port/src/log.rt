// The log of a flash's first changes.
ghost use Rattle.std.specs.Prelude.{◌≡◌, ◌⊎◌, ◌↔◌, ◌+◌, ◌≤◌, true, [], length, slice_get, IfOk, vec_capacity};
ghost use Rattle.erst_port.specs.Dues.{log_room};

use crate::due::Kind;
use std::alloc::{AllocError, Global};

// The bytes that a log has room for, beside one for each change.
const SPARE: usize = 256;

// The least size of a slot.
const SLOT: usize = 512;

// The greatest number of slots.
const SLOTS: usize = 1024;

/// What a change does, and where.
#[derive(Clone, Copy)]
pub(crate) struct Range {
    pub kind: Kind,
    pub at: usize,
    pub len: usize,
}

/// A change of the log: its bytes stand in the log from `start` on.
#[derive(Clone, Copy)]
pub(crate) struct Entry {
    pub range: Range,
    pub start: usize,
}

/// The first changes of a flash, each with its bytes, as many as there is room for.
#[derive(Drop)]
pub(crate) struct Log {
    entries: Vec<Entry>,
    bytes: Vec<u8>,
    room: usize,
    ghost has_room: { room ≤ vec_capacity entries },
    ghost has_bytes: { room + 256 ≤ vec_capacity bytes },
}

/// How many changes the log of a flash of this size has room for.
pub(crate) fn log_room(size: usize) -> usize
    ensures { result ≡ log_room size }
{
    (size / SLOT).min(SLOTS)
}

impl Log {
    ghost use Rattle.erst_port.specs.Logs.{IsEntered, IsLeft, HasPlace};

    /// A log with nothing in it.
    pub(crate) fn new(alloc: Global, room: usize) -> Result<Log, AllocError>
        requires { room ≤ 1024 }
        ensures entries { IfOk result (λ log. log.entries.items ≡ []) }
        ensures bytes { IfOk result (λ log. log.bytes.items ≡ []) }
        ensures room { IfOk result (λ log. log.room ≡ room) }
    {
        let entries = Vec::with_capacity(alloc, room)?;
        let bytes = Vec::with_capacity(alloc, room + SPARE)?;
        Ok(Log {
            entries,
            bytes,
            room,
        })
    }

    /// How many changes are in it.
    pub(crate) fn len(&self) -> usize
        ensures { result ≡ length self.now.entries.items }
    {
        self.entries.len()
    }

    /// Change number `step`, where it is in the log.
    pub(crate) fn entry(&self, step: u64) -> Option<Entry>
        ensures { result ≡ slice_get self.now.entries.items step }
    {
        self.entries.get(step as usize).copied()
    }

    /// The bytes of its changes, one after another.
    pub(crate) fn bytes(&self) -> &[u8]
        ensures { result.now ≡ self.now.bytes.items }
    {
        &self.bytes
    }

    /// Enters change number `step`, where all changes before it are there and there is room.
    pub(crate) fn enter(&mut self, step: u64, range: Range, content: &[u8])
        ensures room { self.new.room ≡ self.old.room }
        ensures entered { (HasPlace self.old step (length content.now) × IsEntered self.old range content.now self.new)
            ⊎ ((HasPlace self.old step (length content.now) → ⊥) × IsLeft self.old self.new) }
    {
        if self.has_place(step, content.len()) {
            let start = self.bytes.len();
            self.entries.push_reserved(Entry { range, start });
            let _ = self.bytes.extend_from_slice(content);
        }
    }

    // Whether change number `step`, of so many bytes, is entered.
    fn has_place(&self, step: u64, size: usize) -> bool
        ensures { result ≡ true ↔ HasPlace self.now step size }
    {
        self.entries.len() as u64 == step
            && self.entries.len() < self.room
            && size <= self.room + SPARE
            && self.bytes.len() <= self.room + SPARE - size
    }
}
