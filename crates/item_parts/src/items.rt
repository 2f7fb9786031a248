// What is checked.
ghost use Rattle.std.specs.Prelude.{IfOk, IfErr};
ghost use Rattle.item_parts.specs.Items.{PartsOf, Counts, Tells, FindsCount, FindsPart, IsFault};

use crate::faults::ItemError;
use crate::parts::Part;
use crate::{berts, blocks, ersts, hests, records};
use std::alloc::Global;

/// What bytes may begin with. Bytes behind it are left alone.
#[derive(Clone, Copy, Debug, PartialEq, Eq)]
pub enum Item {
    /// An Error Record Serialization Table (ACPI 6.4, section 18.5.1), whose parts are its instruction entries.
    Erst,
    /// A Hardware Error Source Table (section 18.3.2), whose parts are its error sources.
    Hest,
    /// A Boot Error Record Table (section 18.3.1), which has no parts.
    Bert,
    /// An error record (UEFI 2.8, appendix N.2), whose parts are its sections.
    Record,
    /// A generic error status block (ACPI 6.4, section 18.3.2.7.1), whose parts are its data entries.
    Block,
}

/// How many parts the item has that the bytes begin with. A Hardware Error Source Table takes memory meanwhile.
pub fn check(alloc: Global, item: Item, bytes: &[u8]) -> Result<u32, ItemError>
    // What is found is such an item.
    ensures found { IfOk result (Counts (PartsOf item) bytes.now) }
    // What is such an item is found.
    ensures only { FindsCount (PartsOf item) bytes.now result }
    // The error is the decoder's: the first reason that applies, or want of memory where there is none.
    ensures refused { IfErr result (IsFault item bytes.now) }
{
    match item {
        Item::Erst => ersts::count(bytes),
        Item::Hest => hests::count(alloc, bytes),
        Item::Bert => berts::count(bytes),
        Item::Record => records::count(bytes),
        Item::Block => blocks::count(bytes),
    }
}

/// A part of the item that the bytes begin with, in their order from 0, and none from the last one on. A Hardware Error Source
/// Table takes memory meanwhile.
pub fn part_at(
    alloc: Global,
    item: Item,
    bytes: &[u8],
    index: u32,
) -> Result<Option<Part>, ItemError>
    ensures found { IfOk result (Tells (PartsOf item) bytes.now index) }
    ensures only { FindsPart (PartsOf item) bytes.now index result }
    ensures refused { IfErr result (IsFault item bytes.now) }
{
    match item {
        Item::Erst => ersts::part(bytes, index),
        Item::Hest => hests::part(alloc, bytes, index),
        Item::Bert => berts::part(bytes, index),
        Item::Record => records::part(bytes, index),
        Item::Block => blocks::part(bytes, index),
    }
}
