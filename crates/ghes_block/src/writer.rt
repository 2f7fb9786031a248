// A block written entry by entry.
ghost use Rattle.std.specs.Prelude.{◌≡◌, ℕ, ◌+◌, ◌^◌, ◌<◌, ◌≤◌, ◌++◌, List, [], ◌∷◌, false, if◌then◌else◌, length, IfOk, OnOk, OnErr};
ghost use Rattle.base_model.specs.Bytes.{spelled, joined};
ghost use Rattle.apei_bytes.specs.Room.{NeedsRoom};
ghost use Rattle.apei_bytes.specs.Writing.{Wrote};
ghost use Rattle.ghes_block.specs.Grammar.{EntryValue, is_stamped, entry_front, entry_bytes, IsEntryHead};
ghost use Rattle.ghes_block.specs.Writer.{room_of, used_by, status_of, severity_of, name_of, entry_length, IsBlockWriter, IsUnchanged, IsWriting, IsWritten, offset_for};

use crate::block::HEADER;
use crate::entry::{EntryHead, HEAD, STAMPED_HEAD, has_stamp};
use apei_bytes::{
    NoRoom, room_for, write_array, write_bytes, write_guid, write_u8, write_u16, write_u32,
    write_u64,
};

/// Puts an entry's head but for the timestamp.
fn put_front(out: &mut [u8], at: usize, head: &EntryHead, count: u32)
    requires { at + 64 ≤ length out.old }
    ensures wrote { Wrote out.old out.new at (at + 64) (joined (entry_front head.now count)) }
    ensures numbers { (head.now.severity < 2 ^ 32) × (head.now.revision < 2 ^ 16) × (head.now.validation < 2 ^ 8)
        × (head.now.flags < 2 ^ 8) }
    ensures arrays { (length head.now.kind ≡ 16) × (length head.now.fru ≡ 16) × (length head.now.fru_text ≡ 20) }
{
    let severity = write_guid(out, at, &head.kind);
    let revision = write_u32(out, severity, head.severity);
    let validation = write_u16(out, revision, head.revision);
    let flags = write_u8(out, validation, head.validation);
    let length = write_u8(out, flags, head.flags);
    let fru = write_u32(out, length, count);
    let fru_text = write_guid(out, fru, &head.fru);
    write_array(out, fru_text, &head.fru_text);
}

/// Puts a timestamp, where the entry has one.
fn put_stamp(out: &mut [u8], at: usize, revision: u16, stamp: u64) -> usize
    requires { at + (if is_stamped revision then 8 else 0) ≤ length out.old }
    ensures end { result ≡ at + (if is_stamped revision then 8 else 0) }
    ensures wrote { Wrote out.old out.new at result (if is_stamped revision then spelled 8 stamp else []) }
    ensures range { stamp < 2 ^ 64 }
{
    if has_stamp(revision) {
        write_u64(out, at, stamp)
    } else {
        write_bytes(out, at, &[])
    }
}

/// Puts the head of a block.
fn put_head(
    out: &mut [u8],
    status: u32,
    raw_offset: u32,
    raw_length: u32,
    data_length: u32,
    severity: u32,
)
    requires { 20 ≤ length out.old }
    ensures { Wrote out.old out.new 0 20 (joined
        (spelled 4 status ∷ spelled 4 raw_offset ∷ spelled 4 raw_length ∷ spelled 4 data_length ∷ spelled 4 severity ∷ [])) }
{
    let raw_offset_at = write_u32(out, 0, status);
    let raw_length_at = write_u32(out, raw_offset_at, raw_offset);
    let data_length_at = write_u32(out, raw_length_at, raw_length);
    let severity_at = write_u32(out, data_length_at, data_length);
    write_u32(out, severity_at, severity);
}

/// How long an entry is.
fn entry_size_for(head: &EntryHead, count: usize) -> usize
    requires { count < 2 ^ 32 }
    ensures { result ≡ entry_length head.now count }
{
    if has_stamp(head.revision) {
        STAMPED_HEAD + count
    } else {
        HEAD + count
    }
}

/// Puts an entry.
fn put_entry(out: &mut [u8], at: usize, head: &EntryHead, body: &[u8]) -> usize
    requires room { at + entry_length head.now (length body.now) ≤ length out.old }
    requires short { length body.now < 2 ^ 32 }
    requires stamp { is_stamped head.now.revision ≡ false → head.now.stamp ≡ 0 }
    ensures wrote { Wrote out.old out.new at result (entry_bytes (record { head = head.now; body = body.now })) }
    ensures fits { IsEntryHead head.now }
    ensures end { result ≡ at + entry_length head.now (length body.now) }
{
    put_front(out, at, head, body.len() as u32);
    let data = put_stamp(out, at + HEAD, head.revision, head.stamp);
    write_bytes(out, data, body)
}

/// Writes a block into bytes: entries one after another, then raw data right behind them. Lengths and the raw data's
/// offset are its own.
#[derive(Drop)]
pub struct BlockWriter<'a> {
    out: &'a mut [u8],
    status: u32,
    severity: u32,
    end: usize,
}

impl<'a> BlockWriter<'a> {
    /// Begins a block of this status, which isn't 0, where there is room for its head.
    ///
    /// A caller who wants to know what the bytes are afterwards uses `start`: the checker doesn't follow a slice
    /// that is lent inside a `Result`.
    pub fn begin(out: &'a mut [u8], status: u32, severity: u32) -> Result<BlockWriter<'a>, NoRoom>
        requires { 0 < status }
        ensures begun { IfOk result (IsWriting out.old []) }
        ensures ready { IfOk result IsBlockWriter }
        ensures used { IfOk result (λ w. used_by w ≡ 20) }
        ensures room { IfOk result (λ w. room_of w ≡ length out.old) }
        ensures numbers { IfOk result (λ w. (status_of w ≡ status) × (severity_of w ≡ severity)) }
        // It is refused exactly where there is no room for the head.
        ensures refused { NeedsRoom 20 (length out.old) result }
    {
        room_for(out.len(), HEADER)?;
        Ok(BlockWriter::start(out, status, severity))
    }

    /// Begins a block of this status, which isn't 0. There is room for its head.
    pub fn start(out: &'a mut [u8], status: u32, severity: u32) -> BlockWriter<'a>
        requires room { 20 ≤ length out.old }
        requires published { 0 < status }
        ensures begun { IsWriting out.old [] result }
        ensures ready { IsBlockWriter result }
        ensures used { used_by result ≡ 20 }
        ensures room { room_of result ≡ length out.old }
        ensures numbers { (status_of result ≡ status) × (severity_of result ≡ severity) }
        ensures same_slice { name_of result ≡ out.entry.ghost_name }
    {
        BlockWriter {
            out,
            status,
            severity,
            end: HEADER,
        }
    }

    /// Writes an entry. Its timestamp is 0 where its revision has none, and the block stays below 2^32 bytes.
    pub fn entry(&mut self, head: &EntryHead, body: &[u8]) -> Result<(), NoRoom>
        requires ready { IsBlockWriter self.old }
        requires stamp { is_stamped head.now.revision ≡ false → head.now.stamp ≡ 0 }
        requires short { used_by self.old + entry_length head.now (length body.now) < 2 ^ 32 }
        // The entry is the next one of the block.
        ensures written { OnOk result ((before : List ℕ) (given : List EntryValue) → IsWriting before given self.old
            → IsWriting before (given ++ record { head = head.now; body = body.now } ∷ []) self.new) }
        ensures used { OnOk result (used_by self.new ≡ used_by self.old + entry_length head.now (length body.now)) }
        ensures on { OnOk result (used_by self.old + 64 ≤ used_by self.new) }
        // It is refused exactly where there is no room for it.
        ensures refused { NeedsRoom (used_by self.old + entry_length head.now (length body.now))
            (room_of self.old) result }
        ensures unchanged { OnErr result (IsUnchanged self.old self.new) }
        ensures ready { IsBlockWriter self.new }
        ensures same { (status_of self.new ≡ status_of self.old) × (severity_of self.new ≡ severity_of self.old)
            × (room_of self.new ≡ room_of self.old) }
        ensures same_slice { name_of self.new ≡ name_of self.old }
    {
        let need = self.end + entry_size_for(head, body.len());
        room_for(self.out.len(), need)?;
        put_entry(self.out, self.end, head, body);
        self.end = need;
        Ok(())
    }

    /// Writes the raw data and the head, and says how many bytes the block has.
    pub fn finish(self, raw: &[u8]) -> Result<usize, NoRoom>
        requires ready { IsBlockWriter self }
        requires short { used_by self + length raw.now < 2 ^ 32 }
        // The first bytes are exactly the block of the entries that were given and this raw data, with the raw offset 0 where
        // there is no raw data.
        ensures written { IfOk result (λ size. (before : List ℕ) (given : List EntryValue)
            → IsWriting before given self.entry → IsWritten (record {
              status = self.entry.status;
              severity = self.entry.severity;
              entries = given;
              raw = raw.now;
              size = size;
            }) (used_by self.entry) before self.exit.0.now) }
        ensures used { IfOk result (λ size. size ≡ used_by self.entry + length raw.now) }
        // It is refused exactly where there is no room for the raw data.
        ensures refused { NeedsRoom (used_by self.entry + length raw.now) (room_of self.entry) result }
        ensures unchanged { OnErr result (self.exit.0.now ≡ self.entry.out.now) }
    {
        let BlockWriter {
            out,
            status,
            severity,
            end,
        } = self;
        let size = end + raw.len();
        room_for(out.len(), size)?;
        put_head(
            out,
            status,
            offset_of(raw, end),
            raw.len() as u32,
            (end - HEADER) as u32,
            severity,
        );
        write_bytes(out, end, raw);
        Ok(size)
    }
}

/// Where raw data begins that stands right behind the entries.
fn offset_of(raw: &[u8], end: usize) -> u32
    requires { end < 2 ^ 32 }
    ensures { result ≡ offset_for (length raw.now) end }
{
    if raw.is_empty() { 0 } else { end as u32 }
}
