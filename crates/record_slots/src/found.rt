// What a scan finds.
ghost use Rattle.std.specs.Prelude.{◌≡◌, [], IfOk, vec_capacity};
ghost use Rattle.record_slots.specs.Rooms.{IsEmpty, HasRoom, SameRoom};

use crate::{Head, RecordId};
use std::alloc::{AllocError, Global};
use std::collections::VecDeque;

/// Where the record of an identifier is: its first slot, its generation, its length in bytes, and the numbers of its further
/// slots, as many as it has further parts.
#[derive(Clone, Copy, Debug, PartialEq, Eq)]
pub struct SlotOf {
    pub slot: u32,
    pub generation: u32,
    pub len: u32,
    pub next: [u16; 3],
}

/// The head and the tail mark of a slot, as they were read.
#[derive(Clone, Copy, Debug, PartialEq, Eq)]
pub struct Look {
    pub head: Head,
    pub tail: u8,
}

/// The identifiers that have a record, in rising order, for each of them at the same index the place of its record, and
/// the free slots in rising order, in a queue: a write takes the first ones, and no other has to move.
#[derive(Debug, Drop)]
pub struct Found {
    pub ids: Vec<RecordId>,
    pub places: Vec<SlotOf>,
    pub free: VecDeque<u32>,
    pub(crate) looks: Vec<Look>,
}

impl Found {
    /// Nothing found yet, with memory for a number of slots.
    pub(crate) fn with_room(alloc: Global, slots: usize) -> Result<Found, AllocError>
        ensures empty { IfOk result IsEmpty }
        ensures room { IfOk result (HasRoom slots) }
    {
        let ids = Vec::with_capacity(alloc, slots)?;
        let places = Vec::with_capacity(alloc, slots)?;
        let free = VecDeque::with_capacity(alloc, slots)?;
        let looks = Vec::with_capacity(alloc, slots)?;
        Ok(Found {
            ids,
            places,
            free,
            looks,
        })
    }

    /// Forgets what was found. The memory stays.
    pub(crate) fn clear(&mut self)
        ensures empty { IsEmpty self.new }
        ensures room { SameRoom self.old self.new }
    {
        self.ids.clear();
        self.places.clear();
        self.free.clear();
        self.looks.clear();
    }
}
