// A record written by hand and by calls, and records in a stream.
ghost use Rattle.std.specs.Prelude.{◌≡◌, ◌+◌, ◌≤◌, ◌<◌, length, None, IfOk, IfSome};
ghost use Rattle.cper_frame.specs.Stream.{frame_of};
ghost use Rattle.cper_frame.specs.Writer.{announced_to, given_to, used_by, IsRecordWriter};

use apei_bytes::{Guid, put_u16, put_u32, put_u64};
use cper_frame::{
    FrameError, FrameReader, Record, RecordHead, RecordWriter, SectionHead, frames_in, stamp,
};
use std::alloc::Global;
use std::test::Fail;

/// A platform memory error section, as firmware stores its type.
const KIND: [u8; 16] = [
    0x14, 0x11, 0xbc, 0xa5, 0x64, 0x6f, 0xde, 0x4e, 0xb8, 0x63, 0x3e, 0x83, 0xed, 0x7c, 0x83, 0xb1,
];

/// Puts the header of a corrected record.
fn put_plain<const N: usize>(bytes: &mut [u8; N], id: u64)
    requires low { 128 ≤ N }
    requires high { N < 1000 }
{
    bytes[..10].copy_from_slice(b"CPER\x01\x01\xff\xff\xff\xff");
    put_u32(bytes, 12, 2);
    put_u32(bytes, 20, N as u32);
    put_u64(bytes, 96, id);
}

/// A record without sections.
fn plain(id: u64) -> [u8; 128] {
    let mut bytes = [0; 128];
    put_plain(&mut bytes, id);
    bytes
}

/// A record of two sections of 80 bytes.
fn two_sections() -> [u8; 432] {
    let mut bytes = [0; 432];
    put_plain(&mut bytes, 7);
    put_u16(&mut bytes, 10, 2);
    put_u32(&mut bytes, 128, 272);
    put_u32(&mut bytes, 200, 352);
    for at in [128, 200] {
        put_u32(&mut bytes, at + 4, 80);
        put_u16(&mut bytes, at + 8, 0x0300);
        bytes[at + 16..at + 32].copy_from_slice(&KIND);
        put_u32(&mut bytes, at + 48, 2);
    }
    bytes[272..352].copy_from_slice(&[0x11; 80]);
    bytes[352..].copy_from_slice(&[0x22; 80]);
    bytes
}

fn head(id: u64) -> RecordHead {
    let none = Guid::from_bytes([0; 16]);
    RecordHead {
        revision: 0x0101,
        severity: 2,
        validation: 0,
        timestamp: 0,
        platform: none,
        partition: none,
        creator: none,
        notification: none,
        id,
        flags: 0,
        persistence: [0; 8],
        reserved: [0; 12],
    }
}

fn section_head() -> SectionHead {
    SectionHead {
        revision: 0x0300,
        validation: 0,
        reserved: 0,
        flags: 0,
        kind: Guid::from_bytes(KIND),
        fru: Guid::from_bytes([0; 16]),
        severity: 2,
        fru_text: [0; 20],
    }
}

#[test]
fn a_record_and_its_parts(rt: HostRuntime) -> Result<(), Fail> {
    let bytes = two_sections();
    match Record::decode(&bytes) {
        Ok((record, length)) => {
            assert_eq!(rt; length, 432);
            assert!(rt; record.head() == head(7));
            assert!(rt; record.sections() == 2);
            let second = record.section(1);
            assert!(rt; second.head == section_head());
            assert_eq!(rt; second.offset, 352);
            assert_eq!(rt; second.body, [0x22; 80].as_slice());
        }
        Err(_) => return Err("refused".into()),
    }
    Ok(())
}

/// Writes two sections behind what a writer has begun, where a third call finds no room between them.
fn write_behind(mut writer: RecordWriter<'_>) -> Option<usize>
    requires ready { IsRecordWriter writer }
    requires announced { announced_to writer ≡ 2 }
    requires given { given_to writer ≡ 0 }
    requires used { used_by writer ≡ 272 }
{
    if writer.section(&section_head(), &[0x11; 80]).is_err() {
        return None;
    }
    if writer.section(&section_head(), &[0; 100]).is_ok() {
        return None;
    }
    if writer.section(&section_head(), &[0x22; 80]).is_err() {
        return None;
    }
    Some(writer.finish())
}

/// The same from the beginning.
fn write(out: &mut [u8]) -> Option<usize> {
    match RecordWriter::begin(out, &head(7), 2) {
        Ok(writer) => write_behind(writer),
        Err(_) => None,
    }
}

#[test]
fn what_is_written(rt: HostRuntime) {
    let mut out = [0xee; 440];
    assert!(rt; write(&mut [0; 271]) == None);
    assert!(rt; write(&mut out) == Some(432));
    assert!(rt; out.starts_with(&two_sections()));
    assert!(rt; out.ends_with(&[0xee; 8]));
    let again = RecordWriter::start(&mut out, &head(7), 2);
    assert!(rt; write_behind(again) == Some(432));
    assert!(rt; out.starts_with(&two_sections()));
    stamp(&mut out);
    assert!(rt; out[108] == b'E' && out[109] == b'R');
}

fn place(bytes: &mut [u8], at: usize, id: u64)
    requires { at + 128 ≤ length bytes.old }
{
    bytes[at..at + 128].copy_from_slice(&plain(id));
}

/// Feeds a whole piece, and counts on the records whose identifiers go on from the count.
fn count_on(reader: &mut FrameReader, piece: &[u8], before: u64) -> Option<u64>
    requires { frame_of reader.old ≡ None }
    ensures { IfSome result (λ _. frame_of reader.new ≡ None) }
{
    let mut count = before;
    let mut rest = piece;
    while !rest.is_empty() {
        let Ok(fed) = reader.feed(rest) else {
            return None;
        };
        rest = &rest[fed.taken..];
        if let Some(record) = reader.frame() {
            if record.head().id == count.wrapping_add(1) {
                count = count.wrapping_add(1);
            }
        }
        reader.advance();
    }
    Some(count)
}

/// How many records of 128 bytes, with identifiers from 1 on, a reader finds in two pieces.
fn count_in(reader: &mut FrameReader, front: &[u8], rest: &[u8]) -> Option<u64>
    requires { frame_of reader.old ≡ None }
{
    let count = count_on(reader, front, 0)?;
    count_on(reader, rest, count)
}

/// A reader of records of at most 128 bytes.
fn begun(alloc: Global) -> Result<FrameReader, Fail>
    ensures { IfOk result (λ reader. frame_of reader ≡ None) }
{
    match FrameReader::new(alloc, 128) {
        Ok(reader) => Ok(reader),
        Err(_) => Err(Fail::from("no memory")),
    }
}

#[test]
fn records_in_any_pieces(rt: HostRuntime) -> Result<(), Fail> {
    let mut stream = [0; 384];
    place(&mut stream, 0, 1);
    place(&mut stream, 128, 2);
    place(&mut stream, 256, 3);
    for cut in 0..=384 {
        let mut reader = begun(rt.alloc())?;
        let (front, rest) = stream.split_at(cut);
        assert!(rt; count_in(&mut reader, front, rest) == Some(3));
    }
    let mut reader = begun(rt.alloc())?;
    for (at, byte) in plain(1).iter().enumerate() {
        let Ok(fed) = reader.feed(&[*byte]) else {
            return Err(Fail::from("refused"));
        };
        assert_eq!(rt; fed.whole, at == 127);
    }
    let long = two_sections();
    reader.advance();
    assert!(rt; reader.feed(&long).err() == Some(FrameError::Limit { found: 432 }));
    assert!(rt; reader.feed(&plain(1)).err() == Some(FrameError::Limit { found: 432 }));
    Ok(())
}

#[test]
fn a_stream_in_one_call(rt: HostRuntime) -> Result<(), Fail> {
    let mut pieces = Vec::new(rt.alloc());
    for id in 1..3 {
        pieces.push(Vec::from_slice(rt.alloc(), &plain(id))?)?;
    }
    let Ok(frames) = frames_in(rt.alloc(), 128, &pieces) else {
        return Err("no memory".into());
    };
    assert!(rt; frames.records.len() == 2);
    assert!(rt; frames.refused.is_none());
    Ok(())
}
