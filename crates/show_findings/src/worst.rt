// The worst section of a record or of a block.
ghost use Rattle.std.specs.Prelude.{◌≡◌, ◌<◌, ◌≤◌, ◌+◌, ◌*◌, length, MatchOption, IfSome};
ghost use Rattle.base_model.specs.Bytes.{part, number_at};
ghost use Rattle.show_findings.specs.Places.{HasDataEntry, data_part};
ghost use Rattle.show_findings.specs.Worst.{IsWorstEntry, IsWorstSection, badness, entry_place, next_place, rank, rank_at, section_count, section_rank};

use crate::bytes::behind;
use crate::entries::{HEAD, data_part, head_size};
use crate::seen_u16;
use apei_bytes::{byte_at, bytes_at, get_u32};

// The bytes of a record's header, those of a descriptor (UEFI 2.8, N.2.1 and N.2.2), and those before a block's entries (ACPI 6.4, 18.3.2.7.1).
const HEADER: usize = 128;

const DESCRIPTOR: usize = 72;

const ENTRIES: usize = 20;

/// Which section is the worst: a fatal one before a recoverable, a corrected and an informational one. Of those that are equally bad it is a primary
/// one, and of these the first.
#[derive(Clone, Copy)]
pub struct Worst {
    /// Its number, from 0.
    pub index: usize,
    /// Where its descriptor or its data entry begins.
    pub at: usize,
    /// How many sections there are besides.
    pub others: usize,
}

/// The worst section of a record, of those whose descriptors are there.
pub fn worst_section(bytes: &[u8]) -> Option<Worst>
    ensures worst { MatchOption result (section_count bytes.now ≡ 0) (λ worst. IsWorstSection bytes.now worst.others worst.index
        × (worst.at ≡ 128 + 72 * worst.index)) }
    ensures within { IfSome result (λ worst. worst.at + 72 ≤ length bytes.now) }
{
    let count = section_count(bytes);
    if count == 0 {
        return None;
    }
    let mut index = 0;
    let mut highest = section_rank(bytes, 0);
    for other in 1..count {
        let rank = section_rank(bytes, other);
        if rank > highest {
            index = other;
            highest = rank;
        }
    }
    Some(Worst {
        index,
        at: HEADER + DESCRIPTOR * index,
        others: count - 1,
    })
}

fn section_count(bytes: &[u8]) -> usize
    ensures { result ≡ section_count bytes.now }
{
    let there = bytes.len().saturating_sub(HEADER) / DESCRIPTOR;
    usize::from(seen_u16(bytes, 10)).min(there)
}

fn section_rank(bytes: &[u8], index: usize) -> u32
    requires { index < section_count bytes.now }
    ensures { result ≡ section_rank bytes.now index }
{
    let descriptor = bytes_at(bytes, HEADER + DESCRIPTOR * index, DESCRIPTOR);
    rank(get_u32(descriptor, 48), get_u32(descriptor, 12))
}

fn rank(severity: u32, flags: u32) -> u32
    ensures { result ≡ rank severity flags }
{
    2 * badness(severity) + flags % 2
}

fn badness(severity: u32) -> u32
    ensures value { result ≡ badness severity }
    ensures low { result < 5 }
{
    match severity {
        1 => 4,
        0 => 3,
        2 => 2,
        3 => 1,
        _ => 0,
    }
}

/// The worst data entry of a block.
#[tactic(auto, using(crate::proofs::WorstLemmas::place_behind))]
pub fn worst_entry(block: &[u8]) -> Option<Worst>
    ensures { MatchOption result (¬ HasDataEntry block.now 20) (λ worst. IsWorstEntry block.now worst.others worst.index
        × (worst.at ≡ entry_place block.now worst.index) × HasDataEntry block.now worst.at) }
{
    let first = ranked_entry(block, ENTRIES)?;
    let mut highest = first.rank;
    let mut worst = Worst {
        index: 0,
        at: ENTRIES,
        others: 0,
    };
    let mut at = first.next;
    while let Some(entry) = ranked_entry(block, at) {
        worst.others += 1;
        if entry.rank > highest {
            worst.index = worst.others;
            worst.at = at;
            highest = entry.rank;
        }
        at = entry.next;
    }
    Some(worst)
}

// The rank of a data entry, and where the next one begins.
#[derive(Clone, Copy)]
struct Ranked {
    rank: u32,
    next: usize,
}

// The data entry that begins at a place of a block.
fn ranked_entry(block: &[u8], at: usize) -> Option<Ranked>
    ensures entry { MatchOption result (¬ HasDataEntry block.now at) (λ entry. HasDataEntry block.now at
        × (entry.rank ≡ rank_at block.now at) × (entry.next ≡ next_place block.now at)) }
    ensures places { IfSome result (λ entry. (at < entry.next) × (at < length block.now)) }
{
    let content = data_part(block);
    if at > content.len() || content.len() - at < HEAD {
        return None;
    }
    let rest = behind(content, at);
    Some(Ranked {
        rank: rank(get_u32(rest, 16), u32::from(byte_at(rest, 23))),
        next: at + (head_size(rest) + get_u32(rest, 24) as usize),
    })
}
