// Streams in memory, and those of std's readers and writers.
use apei_bytes::{
    MemSink, MemSource, ReadFailed, Sink, SinkFault, Source, StdSink, StdSource, write_all,
};
use std::io;
use std::io::{ErrorKind, Read};
use std::test::Fail;

// A reader whose every read fails.
#[derive(Drop)]
struct Broken;

impl Read for Broken {
    fn read(&mut self, _buf: &mut [u8]) -> io::Result<usize> {
        Err(ErrorKind::BrokenPipe.into())
    }
}

#[test]
fn reads_in_pieces(rt: HostRuntime) -> Result<(), Fail> {
    let alloc = rt.alloc();
    let failing = vec![in alloc; 1u64]?;
    let mut source = MemSource::new([7, 8, 9].to_vec(alloc)?, 2, failing);
    let mut buf = [0u8; 4];
    assert_eq!(rt; source.read(&mut buf), Ok(2));
    assert_eq!(rt; source.read(&mut buf), Err(ReadFailed));
    assert_eq!(rt; source.read(&mut buf), Ok(1));
    assert_eq!(rt; buf, [9, 8, 0, 0]);
    assert_eq!(rt; source.read(&mut buf), Ok(0));
    Ok(())
}

#[test]
fn writes_all_or_a_prefix(rt: HostRuntime) -> Result<(), Fail> {
    let alloc = rt.alloc();
    let mut sink = MemSink::new(alloc, vec![in alloc; 1u64]?);
    assert_eq!(rt; write_all(&mut sink, b"abc"), Ok(()));
    assert_eq!(rt; write_all(&mut sink, b"de"), Err(SinkFault));
    assert_eq!(rt; write_all(&mut sink, b"f"), Ok(()));
    assert_eq!(rt; sink.bytes(), b"abcf".as_slice());
    assert_eq!(rt; sink.starved(), 0);
    Ok(())
}

#[test]
fn adapts_readers_and_writers(rt: HostRuntime) -> Result<(), Fail> {
    let mut source = StdSource::new(b"ab".as_slice());
    let mut buf = [0u8; 4];
    assert_eq!(rt; source.read(&mut buf), Ok(2));
    assert_eq!(rt; source.read(&mut buf), Ok(0));
    assert_eq!(rt; StdSource::new(Broken).read(&mut buf), Err(ReadFailed));
    let mut room = [0u8; 3];
    let mut sink = StdSink::new(room.as_mut_slice());
    assert_eq!(rt; write_all(&mut sink, b"xy"), Ok(()));
    assert_eq!(rt; write_all(&mut sink, b"zz"), Err(SinkFault));
    Ok(())
}
