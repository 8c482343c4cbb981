//! `pack` over sources and sinks in memory.
use kk_outside::{Alloc, MemorySink, MemorySource};
use kk_run_pack::{Packing, run_pack};
use kk_worked::{FIVE_AND_ZEROS, ONE_BYTE, capture, texts};
use std::alloc::Global;
use std::process::Abort;
use std::test::Fail;

/// What is under a run: the words, the bytes of the source, and the numbers of the calls that fail.
#[derive(Clone, Copy, Drop)]
struct Setting<'a> {
    words: &'a [&'a str],
    bytes: &'a [u8],
    source_fails: &'a [u64],
    file_fails: &'a [u64],
    report_fails: &'a [u64],
}

/// The byte A0 under its ticket.
const A0: Setting<'static> = Setting {
    words: &["pack", ONE_BYTE],
    bytes: &[0xa0],
    source_fails: &[],
    file_fails: &[],
    report_fails: &[],
};

/// The status of a run, and its two sinks.
#[derive(Drop)]
struct Outcome {
    status: u8,
    file: MemorySink,
    report: MemorySink,
}

fn source_of(alloc: Global, setting: &Setting) -> Result<MemorySource, Alloc> {
    let fails = setting.source_fails.to_vec(alloc)?;
    Ok(MemorySource::new(setting.bytes.to_vec(alloc)?, 1, fails))
}

fn outcome_of(alloc: Global, setting: &Setting) -> Result<Outcome, Alloc> {
    let words = texts(alloc, setting.words)?;
    let mut source = source_of(alloc, setting)?;
    let mut file = MemorySink::new(alloc, 1000, 150, setting.file_fails.to_vec(alloc)?)?;
    let mut report = MemorySink::new(alloc, 1000, 100, setting.report_fails.to_vec(alloc)?)?;
    let status = run_pack(alloc, &words, &mut source, &mut file, &mut report);
    Ok(Outcome {
        status,
        file,
        report,
    })
}

/// Runs `pack` in a setting, and compares its status, its report and how many bytes of the capture its file's sink took.
fn expect(
    rt: &impl Abort,
    alloc: Global,
    setting: &Setting,
    status: u8,
    report: &str,
    len: usize,
) -> Result<(), Alloc> {
    let whole = capture(alloc, FIVE_AND_ZEROS)?;
    let outcome = outcome_of(alloc, setting)?;
    assert_eq!(rt; outcome.status, status);
    assert_eq!(rt; outcome.report.bytes(), report.as_bytes());
    assert_eq!(rt; outcome.file.bytes().len(), len);
    assert!(rt; whole.starts_with(outcome.file.bytes()));
    Ok(())
}

#[test]
fn the_capture_of_one_byte(rt: HostRuntime) -> Result<(), Fail> {
    expect(&rt, rt.alloc(), &A0, 0, "frames 10\nstatus 0\n", 200)?;
    Ok(())
}

/// The opening has no source yet, and the run has no allocator.
#[test]
fn an_opening_and_its_run(rt: HostRuntime) -> Result<(), Fail> {
    let alloc = rt.alloc();
    let words = texts(alloc, A0.words)?;
    let mut source = source_of(alloc, &A0)?;
    let mut file = MemorySink::new(alloc, 1000, 150, Vec::new(alloc))?;
    let mut report = MemorySink::new(alloc, 1000, 100, Vec::new(alloc))?;
    let status = match Packing::open(alloc, &words) {
        Ok(packing) => Some(packing.run(&mut source, &mut file, &mut report)),
        Err(_) => None,
    };
    assert_eq!(rt; status, Some(0));
    assert_eq!(rt; file.bytes().len(), 200);
    Ok(())
}

/// Words and files, and the status and the report by which they are refused.
const REFUSED: &[(&[&str], &[u8], u8, &str)] = &[
    (&["pack", ONE_BYTE], &[], 9, "length 0\nstatus 9\n"),
    (
        &["pack", ONE_BYTE],
        &[0xa0, 0xa0],
        9,
        "length more\nstatus 9\n",
    ),
    (
        &["pack", ONE_BYTE],
        &[0xa0, 0xa0, 0xa0],
        9,
        "length more\nstatus 9\n",
    ),
    (&["pack"], &[0xa0], 1, "words\nstatus 1\n"),
    (&["pack", ONE_BYTE, "x"], &[0xa0], 1, "words\nstatus 1\n"),
    (&["unpack", ONE_BYTE], &[0xa0], 1, "words\nstatus 1\n"),
    (&["pack", ""], &[0xa0], 2, "ticket shape 0\nstatus 2\n"),
];

#[test]
fn files_and_words_that_are_refused(rt: HostRuntime) -> Result<(), Fail> {
    for (words, bytes, status, report) in REFUSED {
        let setting = Setting { words, bytes, ..A0 };
        expect(&rt, rt.alloc(), &setting, *status, report, 0)?;
    }
    Ok(())
}

/// The first read and the one that looks for the end.
#[test]
fn reads_that_fail(rt: HostRuntime) -> Result<(), Fail> {
    for read in 0..2 {
        let setting = Setting {
            source_fails: &[read],
            ..A0
        };
        expect(&rt, rt.alloc(), &setting, 4, "input fault\nstatus 4\n", 0)?;
    }
    Ok(())
}

#[test]
fn writes_that_fail(rt: HostRuntime) -> Result<(), Fail> {
    let file = Setting {
        file_fails: &[1],
        ..A0
    };
    expect(&rt, rt.alloc(), &file, 5, "status 5\n", 150)?;
    let report = Setting {
        report_fails: &[0],
        ..A0
    };
    expect(&rt, rt.alloc(), &report, 5, "", 200)?;
    Ok(())
}
