// Error records in a stream, and error status blocks.
use apei_bytes::{put_u32, put_u64};
use cper_frame::{FrameReader, ID_AT, LENGTH_AT};
use ghes_block::Block;
use std::alloc::Global;

const PIECE: usize = 4096;

const RECORD: usize = 512;

/// Reads so many pieces of 4 KiB that are eight records of 512 bytes each. It answers how many records were whole.
pub fn read_records(alloc: Global, pieces: u64) -> Option<u64> {
    let piece = records();
    let mut reader = FrameReader::new(alloc, RECORD as u32).ok()?;
    let mut whole = 0u64;
    for _ in 0..pieces {
        whole = whole.wrapping_add(fed(&mut reader, &piece)?);
    }
    Some(whole)
}

// Eight records without sections.
fn records() -> [u8; PIECE] {
    let mut piece = [0; PIECE];
    for k in 0..8usize {
        let record = &mut piece[RECORD * k..RECORD * k + RECORD];
        record[..10].copy_from_slice(b"CPER\x01\x01\xff\xff\xff\xff");
        put_u32(record, 12, 2);
        put_u32(record, LENGTH_AT, RECORD as u32);
        put_u64(record, ID_AT, 1 + k as u64);
    }
    piece
}

// Feeds a piece, and answers how many records it made whole.
fn fed(reader: &mut FrameReader, piece: &[u8]) -> Option<u64> {
    let mut whole = 0u64;
    let mut start = 0;
    for _ in 0..64 {
        if start >= piece.len() {
            break;
        }
        let fed = reader.feed(&piece[start..]).ok()?;
        start += fed.taken;
        if fed.whole {
            whole = whole.wrapping_add(1);
            reader.advance();
        }
    }
    Some(whole)
}

const ENTRIES: usize = 30;

const ENTRY: usize = 64;

const BLOCK: usize = 20 + ENTRY * ENTRIES;

/// Decodes a block of thirty entries without data so many times. It answers how many entries were walked.
pub fn walk_blocks(times: u64) -> Option<u64> {
    let mut bytes = [0u8; BLOCK];
    put_u32(&mut bytes, 0, 0x12);
    put_u32(&mut bytes, 12, (ENTRY * ENTRIES) as u32);
    put_u32(&mut bytes, 16, 2);
    let mut walked = 0u64;
    for _ in 0..times {
        match Block::decode(&bytes) {
            Ok((block, _)) => walked = walked.wrapping_add(u64::from(block.entries())),
            Err(_) => return None,
        }
    }
    Some(walked)
}
