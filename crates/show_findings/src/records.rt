// The sentences of error records and error status blocks.
ghost use Rattle.std.specs.Prelude.{◌≡◌, ◌<◌, ◌≤◌, ◌+◌, ◌*◌, ◌++◌, [], codes, decimal, if◌then◌else◌, length, OnOk};
ghost use Rattle.show_findings.specs.Places.{HasDataEntry};
ghost use Rattle.show_findings.specs.Subjects.{is_of_linux};
ghost use Rattle.show_findings.specs.Sentences.{Adds, Grows, Tells};
ghost use Rattle.show_findings.specs.Spoken.{IsOfWorstEntry, IsOfWorstSection, bare_block, bare_record, cut_block, cut_record};
ghost use Rattle.show_findings.specs.Words.{previous_words, record_words, simulated_words};
ghost use Rattle.show_findings.specs.Worst.{IsWorstEntry, IsWorstSection, entry_place, section_count};

use crate::bytes::{behind, seen_at};
use crate::entries::{data_part, head_size};
use crate::error_section::{described, reported};
use crate::times::{add_seconds, add_stamp};
use crate::words::{add_section, add_severity};
use crate::worst::{Worst, worst_entry, worst_section};
use crate::{seen_u8, seen_u32, seen_u64};
use apei_bytes::{bytes_at, guid_at};
use field_lines::{number_told, record_header};
use std::alloc::AllocError;

// The bytes of a record's header and those of a block's.
const RECORD: usize = 128;

const BLOCK: usize = 20;

// The bit that says that there is a time, in a record's header and in an entry's head.
const HAS_TIME: u32 = 1 << 1;

const ENTRY_HAS_TIME: u8 = 1 << 2;

// The flags of a record (UEFI 2.8, N.2.1.2).
const PREVIOUS: u64 = 2;

const SIMULATED: u64 = 4;

// The creator of the records that Linux writes.
const LINUX: &[u8; 36] = b"75a574e3-5052-4b29-8a8e-be2c6490b89d";

/// Whether Linux made the record that these bytes are.
pub fn is_of_linux(bytes: &[u8]) -> bool
    ensures { result ≡ is_of_linux bytes.now }
{
    if bytes.len() < RECORD {
        return false;
    }
    let mut creator = [0; 36];
    guid_at(bytes, 64).text(&mut creator);
    creator == *LINUX
}

/// Adds the sentence of a record: what its worst section is about, how severe that was, where, and when.
pub fn add_record(out: &mut String, bytes: &[u8]) -> Result<(), AllocError>
    ensures cut { OnOk result (length bytes.now < 128 → Adds (cut_record (length bytes.now)) out.old out.new) }
    ensures bare { OnOk result (128 ≤ length bytes.now → section_count bytes.now ≡ 0
        → Tells (bare_record bytes.now) out.old out.new) }
    ensures worst { OnOk result (128 ≤ length bytes.now → 0 < section_count bytes.now
        → IsOfWorstSection bytes.now out.old out.new) }
{
    let len = bytes.len();
    if len < RECORD {
        return add_cut(out, "error record cut off after ", len);
    }
    match worst_section(bytes) {
        Some(worst) => add_worst(out, bytes, &worst),
        None => add_bare(out, bytes),
    }
}

fn add_cut(out: &mut String, words: &str, len: usize) -> Result<(), AllocError>
    ensures { OnOk result (Adds (words.now ++ decimal len ++ codes " bytes") out.old out.new) }
{
    out.push_str(words)?;
    write!(out, "{len}")?;
    out.push_str(" bytes")
}

fn add_worst(out: &mut String, bytes: &[u8], worst: &Worst) -> Result<(), AllocError>
    requires whole { 128 ≤ length bytes.now }
    requires within { worst.now.at + 72 ≤ length bytes.now }
    requires worst { IsWorstSection bytes.now worst.now.others worst.now.index }
    requires place { worst.now.at ≡ 128 + 72 * worst.now.index }
    ensures { OnOk result (IsOfWorstSection bytes.now out.old out.new) }
{
    add_section(out, &described(bytes, worst.at), worst.others)?;
    add_header(out, bytes)
}

fn add_bare(out: &mut String, bytes: &[u8]) -> Result<(), AllocError>
    requires { 128 ≤ length bytes.now }
    ensures { OnOk result (Tells (bare_record bytes.now) out.old out.new) }
{
    add_severity(out, seen_u32(bytes, 12))?;
    out.push_str("error record without sections")?;
    add_header(out, bytes)
}

// Adds what the header of a record says: of an earlier boot, simulated, and when.
fn add_header(out: &mut String, bytes: &[u8]) -> Result<(), AllocError>
    requires { 128 ≤ length bytes.now }
    ensures { OnOk result (Tells (record_words bytes.now) out.old out.new) }
{
    add_record_flags(out, bytes)?;
    add_time(out, bytes)
}

fn add_record_flags(out: &mut String, bytes: &[u8]) -> Result<(), AllocError>
    ensures { OnOk result (Adds (record_words bytes.now) out.old out.new) }
{
    match number_told(&record_header(false), "flags", seen_at(bytes, 0, RECORD)) {
        Some(flags) => add_flag_words(out, flags.number),
        None => Ok(()),
    }
}

fn add_flag_words(out: &mut String, flags: u64) -> Result<(), AllocError>
    ensures { OnOk result (Adds (previous_words flags ++ simulated_words flags) out.old out.new) }
{
    add_if(out, flags / PREVIOUS % 2 == 1, ", of an earlier boot")?;
    add_if(out, flags / SIMULATED % 2 == 1, ", simulated")
}

fn add_if(out: &mut String, is_so: bool, word: &str) -> Result<(), AllocError>
    ensures { OnOk result (Adds (if is_so then word.now else []) out.old out.new) }
{
    if is_so { out.push_str(word) } else { Ok(()) }
}

// Adds the time in the header of a record, where it is valid.
fn add_time(out: &mut String, bytes: &[u8]) -> Result<(), AllocError>
    requires { 128 ≤ length bytes.now }
    ensures { OnOk result (Grows out.old out.new) }
{
    if seen_u32(bytes, 16) & HAS_TIME == 0 {
        return Ok(());
    }
    if is_of_linux(bytes) {
        out.push_str(", ")?;
        return add_seconds(out, seen_u64(bytes, 24));
    }
    add_stamp(out, bytes_at(bytes, 24, 8))
}

/// Adds the sentence of an error status block: that of its worst data entry.
pub fn add_block(out: &mut String, block: &[u8]) -> Result<(), AllocError>
    ensures cut { OnOk result (length block.now < 20 → Adds (cut_block (length block.now)) out.old out.new) }
    ensures bare { OnOk result (20 ≤ length block.now → (¬ HasDataEntry block.now 20)
        → Adds (bare_block block.now) out.old out.new) }
    ensures worst { OnOk result (20 ≤ length block.now → HasDataEntry block.now 20
        → IsOfWorstEntry block.now out.old out.new) }
{
    let len = block.len();
    if len < BLOCK {
        return add_cut(out, "error status block cut off after ", len);
    }
    match worst_entry(block) {
        Some(worst) => add_worst_entry(out, block, &worst),
        None => add_bare_block(out, block),
    }
}

fn add_bare_block(out: &mut String, block: &[u8]) -> Result<(), AllocError>
    ensures { OnOk result (Adds (bare_block block.now) out.old out.new) }
{
    add_severity(out, seen_u32(block, 16))?;
    out.push_str("error status block without entries")
}

fn add_worst_entry(out: &mut String, block: &[u8], worst: &Worst) -> Result<(), AllocError>
    requires there { HasDataEntry block.now worst.now.at }
    requires worst { IsWorstEntry block.now worst.now.others worst.now.index }
    requires place { worst.now.at ≡ entry_place block.now worst.now.index }
    ensures { OnOk result (IsOfWorstEntry block.now out.old out.new) }
{
    add_section(out, &reported(block, worst.at), worst.others)?;
    add_entry_time(out, block, worst.at)
}

// Adds the time in the head of a data entry, which those from revision 0x300 on may have.
fn add_entry_time(out: &mut String, block: &[u8], at: usize) -> Result<(), AllocError>
    requires { HasDataEntry block.now at }
    ensures { OnOk result (Grows out.old out.new) }
{
    let entry = behind(data_part(block), at);
    if entry.len() < 72 || head_size(entry) < 72 || seen_u8(entry, 22) & ENTRY_HAS_TIME == 0 {
        return Ok(());
    }
    add_stamp(out, bytes_at(entry, 64, 8))
}
