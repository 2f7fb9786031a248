// A whole stream that comes in pieces.
ghost use Rattle.std.specs.Prelude.{◌≡◌, ℕ, ◌+◌, ◌<◌, ◌≤◌, List, ◌++◌, length, take, map, IfOk};
ghost use Rattle.std.specs.List.{flat_map};
ghost use Rattle.cper_frame.specs.declared.error.FrameError.{FrameError as Error};
ghost use Rattle.cper_frame.specs.Stream.{Waits, Splits, refusal};
ghost use Rattle.cper_frame.specs.Pieces.{contents, Stepped, Passed};

use crate::error::FrameError;
use crate::reader::FrameReader;
use apei_bytes::OutOfMemory;
use std::alloc::Global;

/// The records that a stream begins with, and the reason why what follows them is refused, where it is.
#[derive(Drop)]
pub struct Frames {
    pub records: Vec<Vec<u8>>,
    pub refused: Option<FrameError>,
}

/// How far a step came.
#[derive(Clone, Copy)]
enum Progress {
    Took(usize),
    Stopped(FrameError),
}

/// Feeds the front of a rest, up to the end of one record, which is added to the others.
fn step(
    alloc: Global,
    reader: &mut FrameReader,
    records: &mut Vec<Vec<u8>>,
    rest: &[u8],
) -> Result<Progress, OutOfMemory>
    requires waits { Waits reader.old }
    requires some { 0 < length rest.now }
    ensures { IfOk result (Stepped reader.old reader.new (contents records.old.items)
        (contents records.new.items) rest.now) }
{
    match reader.feed(rest) {
        Err(error) => Ok(Progress::Stopped(error)),
        Ok(fed) => match reader.frame() {
            None => Ok(Progress::Took(fed.taken)),
            Some(_) => {
                let record = Vec::from_slice(alloc, reader.bytes())?;
                records.push(record)?;
                reader.advance();
                Ok(Progress::Took(fed.taken))
            }
        },
    }
}

/// Feeds a whole piece.
fn feed_piece(
    alloc: Global,
    reader: &mut FrameReader,
    records: &mut Vec<Vec<u8>>,
    piece: &[u8],
) -> Result<Option<FrameError>, OutOfMemory>
    requires { Waits reader.old }
    ensures { IfOk result (Passed reader.old reader.new (contents records.old.items)
        (contents records.new.items) piece.now) }
{
    let mut at = 0;
    while at < piece.len() {
        match step(alloc, reader, records, &piece[at..])? {
            Progress::Took(taken) => at += taken,
            Progress::Stopped(error) => return Ok(Some(error)),
        }
    }
    Ok(None)
}

/// Cuts a stream that comes in these pieces into its records of at most `limit` bytes.
pub fn frames_in(alloc: Global, limit: u32, pieces: &[Vec<u8>]) -> Result<Frames, OutOfMemory>
    requires { 128 ≤ limit }
    // Up to a rest that is no whole record, or that is refused, the stream is these records.
    ensures split { IfOk result (λ f. (rest : List ℕ) × (error : Error)
        × Splits limit (flat_map (λ v. v.items) pieces.now) (contents f.records.items) rest error
        × (f.refused ≡ refusal error)) }
    // No other records are, so it doesn't matter how the stream was cut into pieces.
    ensures only { IfOk result (λ f. (others : List (List ℕ)) (rest : List ℕ) (error : Error)
        → Splits limit (flat_map (λ v. v.items) pieces.now) others rest error → (contents f.records.items ≡ others)
        × (f.refused ≡ refusal error)) }
{
    let mut reader = FrameReader::new(alloc, limit)?;
    let mut records = Vec::new(alloc);
    for piece in pieces {
        match feed_piece(alloc, &mut reader, &mut records, piece.as_slice())? {
            None => {}
            Some(error) => return Ok(Frames {
                records,
                refused: Some(error),
            }),
        }
    }
    Ok(Frames {
        records,
        refused: None,
    })
}
