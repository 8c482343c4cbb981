//! `unpack` over a source and sinks in memory.
use kk_outside::{Alloc, MemorySink, MemorySource};
use kk_run_unpack::{Unpacking, run_unpack};
use kk_worked::{FIVE_AND_ZEROS, ONE_BYTE, capture, texts};
use std::alloc::Global;
use std::process::Abort;
use std::test::Fail;

/// Unpacks a capture that is held in memory, and drops the report: true where the file's sink has the file.
fn unpack_bytes(
    alloc: Global,
    words: &[String],
    bytes: Vec<u8>,
    file: &mut MemorySink,
) -> Result<bool, Alloc> {
    let mut source = MemorySource::new(bytes, 4096, Vec::new(alloc));
    let mut report = MemorySink::new(alloc, 1_000_000, 4096, Vec::new(alloc))?;
    Ok(run_unpack(alloc, words, &mut source, file, &mut report) == 0)
}

#[test]
fn a_capture_in_memory(rt: HostRuntime) -> Result<(), Fail> {
    let alloc = rt.alloc();
    let bytes = capture(alloc, FIVE_AND_ZEROS)?;
    let words = texts(alloc, &["unpack", ONE_BYTE])?;
    let mut file = MemorySink::new(alloc, 1, 1, Vec::new(alloc))?;
    assert_eq!(rt; unpack_bytes(alloc, &words, bytes, &mut file)?, true);
    assert_eq!(rt; file.bytes(), [0xa0].as_slice());
    Ok(())
}

#[test]
fn an_unpacking_is_opened_before_its_source_is_there(rt: HostRuntime) -> Result<(), Fail> {
    let alloc = rt.alloc();
    let words = texts(alloc, &["unpack", ONE_BYTE])?;
    let opened = Unpacking::open(alloc, &words);
    assert!(rt; opened.is_ok());
    let bytes = capture(alloc, FIVE_AND_ZEROS)?;
    let mut source = MemorySource::new(bytes, 4096, Vec::new(alloc));
    let mut file = MemorySink::new(alloc, 1, 1, Vec::new(alloc))?;
    let mut report = MemorySink::new(alloc, 1_000_000, 4096, Vec::new(alloc))?;
    if let Ok(unpacking) = opened {
        assert_eq!(rt; unpacking.run(&mut source, &mut file, &mut report), 0);
    }
    assert_eq!(rt; file.bytes(), [0xa0].as_slice());
    Ok(())
}
