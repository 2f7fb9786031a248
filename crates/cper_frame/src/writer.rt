// A record written section by section.
ghost use Rattle.std.specs.Prelude.{◌≡◌, ℕ, ◌+◌, ◌*◌, ◌^◌, ◌<◌, ◌≤◌, ◌++◌, List, [], ◌∷◌, length, IfOk, OnOk, OnErr};
ghost use Rattle.base_model.specs.Bytes.{joined};
ghost use Rattle.apei_bytes.specs.Room.{NeedsRoom};
ghost use Rattle.apei_bytes.specs.Writing.{Wrote};
ghost use Rattle.cper_frame.specs.declared.heads.RecordHead.{RecordHead as Head};
ghost use Rattle.cper_frame.specs.Grammar.{header_front, header_back, header, descriptor_fields, IsRecordHead, IsSectionHead};
ghost use Rattle.cper_frame.specs.Writer.{Given, written_record, used_by, announced_to, given_to, IsRecordWriter, IsUnchanged, IsWriting, IsWritten};

use crate::heads::{RecordHead, SectionHead};
use crate::record::{DESCRIPTOR, HEADER, LENGTH_AT, SIGNATURE_END};
use apei_bytes::{
    NoRoom, room_for, write_array, write_bytes, write_guid, write_u8, write_u16, write_u32,
    write_u64,
};

/// Puts a header's fields up to the record length, which stays 0.
fn put_front(out: &mut [u8], head: &RecordHead, sections: u16)
    requires { 128 ≤ length out.old }
    ensures wrote { Wrote out.old out.new 0 24 (joined (header_front head.now sections 0)) }
    ensures fits { (head.now.revision < 2 ^ 16) × (head.now.severity < 2 ^ 32) × (head.now.validation < 2 ^ 32) }
{
    let revision = write_array(out, 0, b"CPER");
    let end = write_u16(out, revision, head.revision);
    let count = write_u32(out, end, SIGNATURE_END);
    let severity = write_u16(out, count, sections);
    let validation = write_u32(out, severity, head.severity);
    let length = write_u32(out, validation, head.validation);
    write_u32(out, length, 0);
}

/// Puts a header's fields behind the record length.
fn put_back(out: &mut [u8], head: &RecordHead)
    requires { 128 ≤ length out.old }
    ensures wrote { Wrote out.old out.new 24 128 (joined (header_back head.now)) }
    ensures numbers { (head.now.timestamp < 2 ^ 64) × (head.now.id < 2 ^ 64) × (head.now.flags < 2 ^ 32) }
    ensures guids { (length head.now.platform ≡ 16) × (length head.now.partition ≡ 16)
        × (length head.now.creator ≡ 16) × (length head.now.notification ≡ 16) }
    ensures arrays { (length head.now.persistence ≡ 8) × (length head.now.reserved ≡ 12) }
{
    let platform = write_u64(out, 24, head.timestamp);
    let partition = write_guid(out, platform, &head.platform);
    let creator = write_guid(out, partition, &head.partition);
    let notification = write_guid(out, creator, &head.creator);
    let id = write_guid(out, notification, &head.notification);
    let flags = write_u64(out, id, head.id);
    let persistence = write_u32(out, flags, head.flags);
    let reserved = write_array(out, persistence, &head.persistence);
    write_array(out, reserved, &head.reserved);
}

/// Puts a header whose record length is 0.
fn put_header(out: &mut [u8], head: &RecordHead, sections: u16)
    requires { 128 ≤ length out.old }
    ensures wrote { Wrote out.old out.new 0 128 (joined (header head.now sections 0)) }
    ensures fits { IsRecordHead head.now }
{
    put_front(out, head, sections);
    put_back(out, head);
}

/// Puts a descriptor.
fn put_descriptor(out: &mut [u8], at: usize, head: &SectionHead, offset: u32, count: u32)
    requires { at + 72 ≤ length out.old }
    ensures wrote { Wrote out.old out.new at (at + 72) (joined (descriptor_fields head.now offset count)) }
    ensures fits { IsSectionHead head.now }
{
    let length = write_u32(out, at, offset);
    let revision = write_u32(out, length, count);
    let validation = write_u16(out, revision, head.revision);
    let reserved = write_u8(out, validation, head.validation);
    let flags = write_u8(out, reserved, head.reserved);
    let kind = write_u32(out, flags, head.flags);
    let fru = write_guid(out, kind, &head.kind);
    let severity = write_guid(out, fru, &head.fru);
    let fru_text = write_u32(out, severity, head.severity);
    write_array(out, fru_text, &head.fru_text);
}

/// Writes a record into bytes: its header, then each section with its body, behind the descriptors and one after
/// another. Offsets, lengths and the section count are its own.
#[derive(Drop)]
pub struct RecordWriter<'a> {
    out: &'a mut [u8],
    sections: u16,
    done: u16,
    end: usize,
}

impl<'a> RecordWriter<'a> {
    /// Writes the header of a record of so many sections, where there is room for it and the descriptors.
    ///
    /// A caller who wants to know what the bytes are afterwards uses `start`: the checker doesn't follow a slice
    /// that is lent inside a `Result`.
    pub fn begin(
        out: &'a mut [u8],
        head: &RecordHead,
        sections: u16,
    ) -> Result<RecordWriter<'a>, NoRoom>
        ensures begun { IfOk result (IsWriting out.old head.now []) }
        ensures ready { IfOk result IsRecordWriter }
        ensures used { IfOk result (λ w. used_by w ≡ 128 + 72 * sections) }
        ensures room { IfOk result (λ w. length w.out.now ≡ length out.old) }
        ensures announced { IfOk result (λ w. announced_to w ≡ sections) }
        ensures given { IfOk result (λ w. given_to w ≡ 0) }
        // It is refused exactly where there is no room for the header and the descriptors.
        ensures refused { NeedsRoom (128 + 72 * sections) (length out.old) result }
    {
        room_for(out.len(), HEADER + DESCRIPTOR * sections as usize)?;
        Ok(RecordWriter::start(out, head, sections))
    }

    /// Writes the header of a record of so many sections. There is room for it and the descriptors.
    pub fn start(out: &'a mut [u8], head: &RecordHead, sections: u16) -> RecordWriter<'a>
        requires { 128 + 72 * sections ≤ length out.old }
        ensures begun { IsWriting out.old head.now [] result }
        ensures ready { IsRecordWriter result }
        ensures used { used_by result ≡ 128 + 72 * sections }
        ensures room { length result.out.now ≡ length out.old }
        ensures announced { announced_to result ≡ sections }
        ensures given { given_to result ≡ 0 }
        ensures same_slice { result.out.ghost_name ≡ out.entry.ghost_name }
    {
        put_header(out, head, sections);
        RecordWriter {
            out,
            sections,
            done: 0,
            end: HEADER + DESCRIPTOR * sections as usize,
        }
    }

    /// Writes a section. At most as many are written as were announced, and the record stays below 2^32 bytes.
    pub fn section(&mut self, head: &SectionHead, body: &[u8]) -> Result<(), NoRoom>
        requires ready { IsRecordWriter self.old }
        requires left { given_to self.old < announced_to self.old }
        requires short { used_by self.old + length body.now < 2 ^ 32 }
        // The section is the next one of the record.
        ensures written { OnOk result ((before : List ℕ) (head_of : Head) (given : List Given)
            → IsWriting before head_of given self.old
            → IsWriting before head_of (given ++ record { head = head.now; body = body.now } ∷ []) self.new) }
        ensures used { OnOk result (used_by self.new ≡ used_by self.old + length body.now) }
        ensures given { OnOk result (given_to self.new ≡ given_to self.old + 1) }
        // It is refused exactly where there is no room for its body.
        ensures refused { NeedsRoom (used_by self.old + length body.now) (length self.old.out.now) result }
        ensures unchanged { OnErr result (IsUnchanged self.old self.new) }
        ensures ready { IsRecordWriter self.new }
        ensures same { (announced_to self.new ≡ announced_to self.old) × (length self.new.out.now ≡ length self.old.out.now) }
        ensures same_slice { self.new.out.ghost_name ≡ self.old.out.ghost_name }
    {
        let need = self.end + body.len();
        room_for(self.out.len(), need)?;
        let at = HEADER + DESCRIPTOR * self.done as usize;
        put_descriptor(self.out, at, head, self.end as u32, body.len() as u32);
        write_bytes(self.out, self.end, body);
        self.end = need;
        self.done += 1;
        Ok(())
    }

    /// Writes the record length, and says it. Each announced section was written.
    pub fn finish(self) -> usize
        requires ready { IsRecordWriter self }
        requires all { given_to self ≡ announced_to self }
        // The first bytes are exactly the record of the head and the sections that were given.
        ensures written { (before : List ℕ) (head : Head) (given : List Given) → IsWriting before head given self.entry
            → IsWritten (written_record head given) result before self.exit.0.now }
        ensures used { result ≡ used_by self.entry }
    {
        let RecordWriter { out, end, .. } = self;
        write_u32(out, LENGTH_AT, end as u32);
        end
    }
}
