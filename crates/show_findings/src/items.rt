// How many bytes an item has.
ghost use Rattle.std.specs.Prelude.{◌≡◌, ◌+◌, ◌<◌, ◌≤◌, length};
ghost use Rattle.show_findings.specs.Places.{block_end, claimed, least, raw_end, told};
ghost use Rattle.show_findings.specs.Places.{item_len as len_of_item};

use crate::bytes::seen_u32;

/// What stands in a file, one behind another.
#[derive(Clone, Copy, Debug, PartialEq, Eq)]
pub enum Item {
    Record,
    Table,
    Block,
}

/// How many of the bytes belong to the item that they begin with: as many as it says of itself. They are all that are there where it says
/// more, or fewer than its header has.
pub fn item_len(item: Item, bytes: &[u8]) -> usize
    ensures { result ≡ len_of_item item bytes.now }
{
    claimed(least(item), told(item, bytes), bytes.len())
}

fn claimed(least: usize, told: u64, have: usize) -> usize
    ensures { result ≡ claimed least told have }
{
    if told < least as u64 || told > have as u64 {
        have
    } else {
        told as usize
    }
}

// The bytes of the header.
fn least(item: Item) -> usize
    ensures value { result ≡ least item }
    ensures low { result < 1000 }
{
    match item {
        Item::Record => 128,
        Item::Table => 36,
        Item::Block => 20,
    }
}

// What an item says of itself.
fn told(item: Item, bytes: &[u8]) -> u64
    ensures { result ≡ told item bytes.now }
{
    match item {
        Item::Record => u64::from(seen_u32(bytes, 20)),
        Item::Table => u64::from(seen_u32(bytes, 4)),
        Item::Block => block_end(bytes),
    }
}

// The raw data of a block stand behind its entries.
fn block_end(bytes: &[u8]) -> u64
    ensures { result ≡ block_end bytes.now }
{
    let data_end = 20 + u64::from(seen_u32(bytes, 12));
    data_end.max(raw_end(bytes))
}

fn raw_end(bytes: &[u8]) -> u64
    ensures { result ≡ raw_end bytes.now }
{
    let length = u64::from(seen_u32(bytes, 8));
    if length == 0 {
        return 0;
    }
    u64::from(seen_u32(bytes, 4)) + length
}
