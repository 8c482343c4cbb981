//! Readers and writers of std as sources and sinks.
use kk_outside::{Failed, Sink, Source, StdSink, StdSource, fill, write_all};
use std::io;
use std::io::{Read, Write};
use std::test::Fail;

#[derive(Drop)]
struct Unreadable;

impl Read for Unreadable {
    fn read(&mut self, _: &mut [u8]) -> io::Result<usize> {
        Err(io::ErrorKind::Other.into())
    }
}

#[test]
fn reads_what_the_reader_gives(rt: HostRuntime) -> Result<(), Fail> {
    let mut source = StdSource::new([1, 2, 3].as_slice());
    let mut buf = [0; 8];
    assert_eq!(rt; fill(&mut source, &mut buf), Ok(3));
    assert_eq!(rt; &buf[..3], [1, 2, 3].as_slice());
    assert_eq!(rt; source.faults(), 0);
    Ok(())
}

#[test]
fn counts_the_errors_of_the_reader(rt: HostRuntime) -> Result<(), Fail> {
    let mut source = StdSource::new(Unreadable);
    let mut buf = [0; 8];
    assert_eq!(rt; source.read(&mut buf), Err(Failed));
    assert_eq!(rt; source.read(&mut buf), Err(Failed));
    assert_eq!(rt; source.faults(), 2);
    Ok(())
}

/// A reader that has bytes again after an end, as a terminal has: it gives 1, 2, then an end, and then 3.
#[derive(Drop)]
struct Terminal {
    reads: u8,
}

impl Read for Terminal {
    fn read(&mut self, buf: &mut [u8]) -> io::Result<usize> {
        self.reads = self.reads.saturating_add(1);
        if buf.len() < 2 {
            return Ok(0);
        }
        match self.reads {
            1 => {
                buf[..2].copy_from_slice(&[1, 2]);
                Ok(2)
            }
            3 => {
                buf[0] = 3;
                Ok(1)
            }
            _ => Ok(0),
        }
    }
}

#[test]
fn stops_at_an_end_that_is_not_final(rt: HostRuntime) -> Result<(), Fail> {
    let mut source = StdSource::new(Terminal { reads: 0 });
    let mut buf = [0; 8];
    assert_eq!(rt; fill(&mut source, &mut buf), Ok(2));
    assert_eq!(rt; fill(&mut source, &mut buf), Ok(1));
    assert_eq!(rt; buf[0], 3);
    Ok(())
}

#[derive(Drop)]
struct Unwritable;

impl Write for Unwritable {
    fn write(&mut self, _: &[u8]) -> io::Result<usize> {
        Err(io::ErrorKind::Other.into())
    }

    fn flush(&mut self) -> io::Result<()> {
        Ok(())
    }
}

#[test]
fn writes_what_it_is_given(rt: HostRuntime) -> Result<(), Fail> {
    let mut out = Vec::new(rt.alloc());
    let mut sink = StdSink::new(&mut out);
    assert_eq!(rt; write_all(&mut sink, &[1, 2, 3]), Ok(()));
    assert_eq!(rt; sink.faults(), 0);
    drop(sink);
    assert_eq!(rt; out.as_slice(), [1, 2, 3].as_slice());
    Ok(())
}

#[test]
fn counts_errors_and_writes_that_take_nothing(rt: HostRuntime) -> Result<(), Fail> {
    let mut broken = StdSink::new(Unwritable);
    assert_eq!(rt; broken.write(&[1]), Err(Failed));
    assert_eq!(rt; broken.faults(), 1);

    let mut place = [0u8; 2];
    let mut full = StdSink::new(&mut place[..]);
    assert_eq!(rt; write_all(&mut full, &[1, 2, 3]), Err(Failed));
    assert_eq!(rt; full.faults(), 1);
    Ok(())
}
