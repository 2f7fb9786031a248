// Of a line of turns whose reply the sink refuses, no block is taken behind the one whose line it was.
use apei_bytes::{MemSink, MemSource};
use apei_cli::{Status, run};
use apei_notify::{Listener, Tally};
use flash_model::{Geometry, SimFlash, erased};
use std::alloc::Global;
use std::test::Fail;

/// Two blocks are handed over, and both are taken in one line of turns.
const SCRIPT: &[u8] =
    b"error 12000000000000000000000048000000020000001411bca5646fde4eb8633e83ed7c83b10200000001020000080000000000000000000000000000000000000000000000000000000000000000000000000000000102030405060708\nerror 12000000000000000000000048000000020000001411bca5646fde4eb8633e83ed7c83b10200000001020000080000000000000000000000000000000000000000000000000000000000000000000000000000000102030405060708\nturns FFFRRRRRFFFFRRRRR\nheard";

/// The replies before the first block is taken.
const QUEUED: &[u8] = b"queued 1 @0\nqueued 2 @0\n";

/// Plays the script over an erased flash of the default geometry, and answers how often the one listener has heard of an error.
fn heard_of_blocks(
    alloc: Global,
    failing_writes: Vec<u64>,
) -> Result<(Status, MemSink, u64), Fail> {
    let image = erased(alloc, &Geometry::new(4096, 2, 32)?)?;
    let flash = SimFlash::new(alloc, 4096, image, None, Vec::new(alloc), Vec::new(alloc));
    let mut words = Vec::new(alloc);
    words.push("sim".to_string(alloc)?)?;
    let mut listeners: Vec<Box<dyn Listener>> = Vec::new(alloc);
    listeners.push(Box::new(alloc, Tally::new(15))?)?;
    let mut script = MemSource::new(SCRIPT.to_vec(alloc)?, 64, Vec::new(alloc));
    let mut sink = MemSink::new(alloc, failing_writes);
    let (status, _, listeners) = run(alloc, &words, &mut script, &mut sink, flash, listeners);
    let heard = match listeners.first() {
        Some(listener) => listener.heard(),
        None => 0,
    };
    Ok((status, sink, heard))
}

#[test]
fn no_block_is_taken_behind_the_one_whose_line_is_refused(rt: HostRuntime) -> Result<(), Fail> {
    let alloc = rt.alloc();
    let (status, sink, heard) = heard_of_blocks(alloc, Vec::new(alloc))?;
    assert_eq!(rt; status, Status::Done);
    assert!(rt; sink.bytes().ends_with(b"heard 2 @0\n"));
    assert_eq!(rt; heard, 2);
    let (status, sink, heard) = heard_of_blocks(alloc, vec![in alloc; 2u64]?)?;
    assert_eq!(rt; status, Status::SinkFault);
    assert_eq!(rt; sink.bytes(), QUEUED);
    assert_eq!(rt; heard, 1);
    Ok(())
}
