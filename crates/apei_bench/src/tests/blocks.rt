// An error status block written by hand and by calls.
ghost use Rattle.std.specs.Prelude.{◌≡◌, ◌+◌, ◌<◌, ◌≤◌, length};
ghost use Rattle.ghes_block.specs.Writer.{used_by, IsBlockWriter};

use apei_bytes::{Guid, put_u16, put_u32, put_u64};
use ghes_block::{Block, BlockWriter, EntryHead};

/// A platform memory error section, as firmware stores its type.
const KIND: [u8; 16] = [
    0x14, 0x11, 0xbc, 0xa5, 0x64, 0x6f, 0xde, 0x4e, 0xb8, 0x63, 0x3e, 0x83, 0xed, 0x7c, 0x83, 0xb1,
];

/// Puts the head of a block with an uncorrectable error and two entries.
fn put_head(bytes: &mut [u8], raw_offset: u32, data_length: u32)
    requires { 20 ≤ length bytes.old }
{
    put_u32(bytes, 0, 0x21);
    put_u32(bytes, 4, raw_offset);
    put_u32(bytes, 8, 4);
    put_u32(bytes, 12, data_length);
}

/// Puts an entry of revision 3 with a timestamp of 5 and four bytes, and one of revision 2 without data.
fn put_entries(bytes: &mut [u8])
    requires { 160 ≤ length bytes.old }
{
    bytes[20..36].copy_from_slice(&KIND);
    put_u16(bytes, 40, 0x0300);
    put_u32(bytes, 44, 4);
    put_u64(bytes, 84, 5);
    bytes[92..96].copy_from_slice(&[0xaa, 0xbb, 0xcc, 0xdd]);
    bytes[96..112].copy_from_slice(&KIND);
    put_u16(bytes, 116, 0x0201);
}

/// A block of two entries with raw data right behind them.
fn two_entries() -> [u8; 164] {
    let mut bytes = [0; 164];
    put_head(&mut bytes, 160, 140);
    put_entries(&mut bytes);
    put_u32(&mut bytes, 160, 0x0403_0201);
    bytes
}

/// The same entries without raw data, whose offset and length are 0.
fn without_raw_data() -> [u8; 160] {
    let mut bytes = [0; 160];
    put_u32(&mut bytes, 0, 0x21);
    put_u32(&mut bytes, 12, 140);
    put_entries(&mut bytes);
    bytes
}

fn head(revision: u16, stamp: u64) -> EntryHead
    ensures { (result.revision ≡ revision) × (result.stamp ≡ stamp) }
{
    EntryHead {
        kind: Guid::from_bytes(KIND),
        severity: 0,
        revision,
        validation: 0,
        flags: 0,
        fru: Guid::from_bytes([0; 16]),
        fru_text: [0; 20],
        stamp,
    }
}

#[test]
fn a_block_and_its_entries(rt: HostRuntime) -> Result<(), std::test::Fail> {
    let bytes = two_entries();
    match Block::decode(&bytes) {
        Ok((block, length)) => {
            assert!(rt; length == 164);
            assert!(rt; block.status() == 33);
            assert!(rt; block.severity() == 0);
            assert!(rt; block.len() == 164);
            assert!(rt; block.entries() == 2);
            assert!(rt; block.raw() == [1, 2, 3, 4].as_slice());
            let Some((first, next)) = block.entry_at(20) else {
                return Err("the first entry is missing".into());
            };
            let Some((second, end)) = block.entry_at(next) else {
                return Err("the second entry is missing".into());
            };
            assert!(rt; first.head == head(0x0300, 5));
            assert!(rt; first.body == [0xaa, 0xbb, 0xcc, 0xdd].as_slice());
            assert!(rt; second.head == head(0x0201, 0));
            assert!(rt; next == 96 && end == 160);
            assert!(rt; block.entry_at(end).is_none());
        }
        Err(_) => return Err("refused".into()),
    }
    Ok(())
}

/// Writes two entries and raw data behind what a writer has begun.
fn write_behind(mut writer: BlockWriter<'_>, raw: &[u8]) -> Option<usize>
    requires ready { IsBlockWriter writer }
    requires used { used_by writer ≡ 20 }
    requires short { length raw.now < 1000 }
{
    if writer
        .entry(&head(0x0300, 5), &[0xaa, 0xbb, 0xcc, 0xdd])
        .is_err()
    {
        return None;
    }
    if writer.entry(&head(0x0201, 0), &[]).is_err() {
        return None;
    }
    writer.finish(raw).ok()
}

/// The same from the beginning.
fn write(out: &mut [u8], raw: &[u8]) -> Option<usize>
    requires { length raw.now < 1000 }
{
    match BlockWriter::begin(out, 0x21, 0) {
        Ok(writer) => write_behind(writer, raw),
        Err(_) => None,
    }
}

#[test]
fn what_is_written(rt: HostRuntime) {
    let mut out = [0xee; 170];
    assert!(rt; write(&mut out, &[1, 2, 3, 4]) == Some(164));
    assert!(rt; out.starts_with(&two_entries()));
    assert!(rt; out.ends_with(&[0xee; 6]));
    assert!(rt; write(&mut out, &[]) == Some(160));
    assert!(rt; out.starts_with(&without_raw_data()));
    let again = BlockWriter::start(&mut out, 0x21, 0);
    assert!(rt; write_behind(again, &[1, 2, 3, 4]) == Some(164));
    assert!(rt; out.starts_with(&two_entries()));
    assert!(rt; write(&mut [0; 19], &[]) == None);
    assert!(rt; write(&mut [0; 163], &[1, 2, 3, 4]) == None);
}
