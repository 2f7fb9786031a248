// The data entries of an error status block, and the instruction entries of an Error Record Serialization Table.
ghost use Rattle.std.specs.Prelude.{◌≡◌, ◌+◌, ◌*◌, ◌<◌, ◌≤◌, length, IfSome, MatchOption};
ghost use Rattle.ghes_block.specs.Reading.{head_size as size_of_head};
ghost use Rattle.base_model.specs.Bytes.{part};
ghost use Rattle.show_findings.specs.Places.{HasDataEntry, IsDataEntry, HasInstruction, data_part};

use crate::bytes::{behind, first, seen_at, seen_u32};
use apei_bytes::{bytes_at, get_u16, get_u32};

// The bytes of a block's head, and those of an entry's, without a timestamp and with one (ACPI 6.4, section 18.3.2.7.1).
const BLOCK: usize = 20;

pub(crate) const HEAD: usize = 64;

const STAMPED_HEAD: usize = 72;

// Where the instruction entries begin, and the bytes of one (section 18.5.1.2).
const INSTRUCTIONS: usize = 48;

const INSTRUCTION: usize = 32;

/// A data entry: its head, and its data, as far as they are there.
#[derive(Clone, Copy)]
pub struct DataEntry<'a> {
    pub head: &'a [u8],
    /// Where its data begins in the block.
    pub body_at: usize,
    pub body: &'a [u8],
    /// Where the next one begins.
    pub next: usize,
}

/// The data entry that begins at a place of a block. There is none where too few bytes of the block's data are left for its head.
pub fn data_entry_at(block: &[u8], at: usize) -> Option<DataEntry<'_>>
    ensures entry { MatchOption result (¬ HasDataEntry block.now at) (λ entry. HasDataEntry block.now at
        × IsDataEntry block.now at entry.head.now entry.body_at entry.body.now entry.next) }
    // The next one stands further on.
    ensures places { IfSome result (λ entry. (at < entry.next) × (at < length block.now)
        × (entry.body_at < length block.now + 100)) }
{
    let content = data_part(block);
    if at > content.len() || content.len() - at < HEAD {
        return None;
    }
    let rest = behind(content, at);
    let size = head_size(rest);
    let data_len = get_u32(rest, 24) as usize;
    let body_at = at + size;
    Some(DataEntry {
        head: first(rest, size),
        body_at,
        body: seen_at(content, body_at, data_len),
        next: body_at + data_len,
    })
}

// The head and the entries of a block, without its raw data.
pub(crate) fn data_part(block: &[u8]) -> &[u8]
    ensures { result.now ≡ data_part block.now }
{
    first(block, BLOCK + seen_u32(block, 12) as usize)
}

pub(crate) fn head_size(entry: &[u8]) -> usize
    requires { 64 ≤ length entry.now }
    ensures { result ≡ size_of_head entry.now }
{
    if get_u16(entry, 20) / 256 >= 3 {
        STAMPED_HEAD
    } else {
        HEAD
    }
}

/// An instruction entry, by its index from 0. There is none from the table's count on, and where it isn't all there.
pub fn instruction_at(table: &[u8], index: u32) -> Option<&[u8]>
    ensures { MatchOption result (¬ HasInstruction table.now index) (λ entry. HasInstruction table.now index
        × (entry.now ≡ part table.now (48 + 32 * index) 32)) }
{
    let at = INSTRUCTIONS + INSTRUCTION * index as usize;
    if index >= seen_u32(table, 44) || table.len() < at + INSTRUCTION {
        return None;
    }
    Some(bytes_at(table, at, INSTRUCTION))
}
