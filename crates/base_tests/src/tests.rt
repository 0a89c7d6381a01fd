//! What the adapters give and take, and whole texts, worked by hand.
use lv_base::{
    MemSink, MemSource, ReadEnd, Sink, Source, StdSink, StdSource, Trouble, VecSink, VecSource,
    WriteEnd, push_number, read_all, write_all,
};
use std::alloc::{AllocError, Global};
use std::io;
use std::io::{Error, Read};
use std::test::Fail;

/// What each of some reads into three bytes answers: the bytes or `!`, and then `|`.
fn read_log<S: Source>(alloc: Global, source: &mut S, reads: usize) -> Result<Vec<u8>, AllocError> {
    let mut log = Vec::new(alloc);
    let mut buf = [0u8; 3];
    for _ in 0..reads {
        match source.read(&mut buf) {
            Ok(n) => log.extend_from_slice(&buf[..n])?,
            Err(Trouble::Failed) => log.push(b'!')?,
            Err(Trouble::Memory) => log.push(b'?')?,
        }
        log.push(b'|')?;
    }
    Ok(log)
}

/// What the writes of some pieces answer: how many bytes were taken or `!`, each behind a space.
fn write_log<K: Sink>(
    alloc: Global,
    sink: &mut K,
    pieces: &[&[u8]],
) -> Result<Vec<u8>, AllocError> {
    let mut log = Vec::new(alloc);
    for piece in pieces {
        log.push(b' ')?;
        match sink.write(piece) {
            Ok(n) => push_number(&mut log, n.min(1000) as i64)?,
            Err(Trouble::Failed) => log.push(b'!')?,
            Err(Trouble::Memory) => log.push(b'?')?,
        }
    }
    Ok(log)
}

/// Reads `ab`, then fails once, then reads `c`, and is at its end.
#[derive(Drop)]
struct Faltering {
    reads: u8,
}

impl Read for Faltering {
    fn read(&mut self, buf: &mut [u8]) -> io::Result<usize> {
        self.reads = self.reads.saturating_add(1);
        match self.reads {
            1 => b"ab".as_slice().read(buf),
            2 => Err(Error::other("broken")),
            3 => b"c".as_slice().read(buf),
            _ => Ok(0),
        }
    }
}

#[test]
fn sources_give_their_bytes_in_order(rt: HostRuntime) -> Result<(), Fail> {
    let alloc = rt.alloc();
    let bytes = Vec::from_slice(alloc, b"abcdefg")?;
    let mut pieces = MemSource::new(bytes, 2, Vec::from_slice(alloc, &[2])?);
    let log = read_log(alloc, &mut pieces, 6)?;
    assert_eq!(rt; log.as_slice(), b"ab|!|cd|ef|g||".as_slice());

    let mut whole = VecSource::new(Vec::from_slice(alloc, b"abcdefg")?);
    let log = read_log(alloc, &mut whole, 4)?;
    assert_eq!(rt; log.as_slice(), b"abc|def|g||".as_slice());

    let mut reader = StdSource::new(b"abcd".as_slice());
    let log = read_log(alloc, &mut reader, 3)?;
    assert_eq!(rt; log.as_slice(), b"abc|d||".as_slice());

    let mut faltering = StdSource::new(Faltering { reads: 0 });
    let log = read_log(alloc, &mut faltering, 4)?;
    assert_eq!(rt; log.as_slice(), b"ab|!|c||".as_slice());
    Ok(())
}

#[test]
fn sinks_hold_what_they_took(rt: HostRuntime) -> Result<(), Fail> {
    let alloc = rt.alloc();
    let pieces = [
        b"abc".as_slice(),
        b"def".as_slice(),
        b"gh".as_slice(),
        b"ij".as_slice(),
        b"k".as_slice(),
        b"".as_slice(),
    ];
    let mut small = MemSink::new(alloc, 5, 2, Vec::from_slice(alloc, &[2])?)?;
    let log = write_log(alloc, &mut small, &pieces)?;
    assert_eq!(rt; log.as_slice(), b" 2 ! 2 1 ! 0".as_slice());
    assert_eq!(rt; small.bytes(), b"abghi".as_slice());

    let mut growing = VecSink::new(alloc);
    let log = write_log(alloc, &mut growing, &pieces)?;
    assert_eq!(rt; log.as_slice(), b" 3 3 2 2 1 0".as_slice());
    assert_eq!(rt; growing.bytes(), b"abcdefghijk".as_slice());

    let mut held = Vec::new(alloc);
    let log = write_log(alloc, &mut StdSink::new(&mut held), &pieces)?;
    assert_eq!(rt; log.as_slice(), b" 3 3 2 2 1 0".as_slice());
    assert_eq!(rt; held.as_slice(), b"abcdefghijk".as_slice());

    let mut room = [0u8; 4];
    let log = write_log(alloc, &mut StdSink::new(room.as_mut_slice()), &pieces)?;
    assert_eq!(rt; log.as_slice(), b" 3 1 ! ! ! 0".as_slice());
    assert_eq!(rt; room.as_slice(), b"abcd".as_slice());
    Ok(())
}

#[test]
fn read_all_ends_at_the_limit(rt: HostRuntime) -> Result<(), Fail> {
    let alloc = rt.alloc();
    let cases = [
        (6, 0, None),
        (5, 0, Some(ReadEnd::Long)),
        (6, 1, Some(ReadEnd::Fault)),
        (6, 3, Some(ReadEnd::Fault)),
        (6, 4, None),
    ];
    for (limit, fails, want) in cases {
        let bytes = Vec::from_slice(alloc, b"abcdef")?;
        let mut source = MemSource::new(bytes, 4, Vec::from_slice(alloc, &[fails])?);
        match read_all(alloc, &mut source, limit) {
            Ok(read) => {
                assert_eq!(rt; want, None, "at {limit}, {fails}");
                assert_eq!(rt; read.as_slice(), b"abcdef".as_slice());
            }
            Err(end) => assert_eq!(rt; want, Some(end), "at {limit}, {fails}"),
        }
    }
    let mut empty = VecSource::new(Vec::new(alloc));
    assert_eq!(rt; read_all(alloc, &mut empty, 0)?.len(), 0);
    Ok(())
}

#[test]
fn write_all_writes_every_piece(rt: HostRuntime) -> Result<(), Fail> {
    let alloc = rt.alloc();
    let mut sink = MemSink::new(alloc, 6, 2, Vec::new(alloc))?;
    assert_eq!(rt; write_all(&mut sink, b"abcde"), Ok(()));
    assert_eq!(rt; sink.bytes(), b"abcde".as_slice());
    assert_eq!(rt; write_all(&mut sink, b"fg"), Err(WriteEnd::Fault));
    assert_eq!(rt; sink.bytes(), b"abcdef".as_slice());
    Ok(())
}

#[test]
fn push_number_writes_decimals(rt: HostRuntime) -> Result<(), Fail> {
    let cases = [
        (0, b"n=0".as_slice()),
        (-1, b"n=-1".as_slice()),
        (i64::MIN, b"n=-9223372036854775808".as_slice()),
        (i64::MAX, b"n=9223372036854775807".as_slice()),
    ];
    for (n, want) in cases {
        let mut text = Vec::from_slice(rt.alloc(), b"n=")?;
        push_number(&mut text, n)?;
        assert_eq!(rt; text.as_slice(), want);
    }
    Ok(())
}
