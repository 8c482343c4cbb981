//! `send` over sources, sinks and outlets in memory.
use kk_outside::{Alloc, MemoryOutlet, MemorySink, MemorySource};
use kk_run_send::{Sending, run_send};
use kk_worked::{ONE_BYTE, ZEROS, frame, texts};
use std::alloc::Global;
use std::process::Abort;
use std::test::Fail;

/// What is under a run: the words, the bytes of the source, and the numbers of the calls that fail.
#[derive(Clone, Copy, Drop)]
struct Setting<'a> {
    words: &'a [&'a str],
    bytes: &'a [u8],
    source_fails: &'a [u64],
    report_fails: &'a [u64],
    outlet_fails: &'a [u64],
}

const ONE: &str = "0100000000000000000000000000000000000000000000000000000000000000";

/// Where a sender sends to.
const TO: &str = "127.0.0.1:9000";

/// The words without an option.
const WORDS: &[&str] = &["send", ONE_BYTE, TO, "--seed", ZEROS];

/// A run over the byte A0 in which nothing fails.
fn unfailing<'a>(words: &'a [&'a str]) -> Setting<'a> {
    Setting {
        words,
        bytes: &[0xa0],
        source_fails: &[],
        report_fails: &[],
        outlet_fails: &[],
    }
}

/// The status of a run, its report, and what was sent.
#[derive(Drop)]
struct Outcome {
    status: u8,
    report: MemorySink,
    outlet: MemoryOutlet,
}

fn source_of(alloc: Global, setting: &Setting) -> Result<MemorySource, Alloc> {
    let fails = setting.source_fails.to_vec(alloc)?;
    Ok(MemorySource::new(setting.bytes.to_vec(alloc)?, 1, fails))
}

fn sent(alloc: Global, setting: &Setting) -> Result<Outcome, Alloc> {
    let words = texts(alloc, setting.words)?;
    let mut source = source_of(alloc, setting)?;
    let mut report = MemorySink::new(alloc, 1000, 100, setting.report_fails.to_vec(alloc)?)?;
    let mut outlet = MemoryOutlet::new(alloc, 100_000, setting.outlet_fails.to_vec(alloc)?)?;
    let status = run_send(alloc, &words, &mut source, &mut report, &mut outlet);
    Ok(Outcome {
        status,
        report,
        outlet,
    })
}

/// The status, the report and the number of datagrams sent are these.
fn expect(rt: &impl Abort, outcome: &Outcome, status: u8, report: &str, sent: usize) {
    assert_eq!(rt; outcome.status, status);
    assert_eq!(rt; outcome.report.bytes(), report.as_bytes());
    assert_eq!(rt; outcome.outlet.sent(), sent);
}

/// The datagram that was sent after `i` others; none where there are no more.
fn datagram(outcome: &Outcome, i: usize) -> &[u8] {
    let outlet = &outcome.outlet;
    if i < outlet.sent() {
        outlet.datagram(i)
    } else {
        &[]
    }
}

#[test]
fn one_byte(rt: HostRuntime) -> Result<(), Fail> {
    let outcome = sent(rt.alloc(), &unfailing(WORDS))?;
    expect(&rt, &outcome, 0, "datagrams 2 frames 10\nstatus 0\n", 2);
    assert_eq!(rt; datagram(&outcome, 0).len(), 180);
    assert!(rt; datagram(&outcome, 0).starts_with(&frame(0, 0, 13)));
    assert_eq!(rt; datagram(&outcome, 1), frame(1, 0, 0).as_slice());
    Ok(())
}

/// The opening has no source yet, and the run has no allocator.
#[test]
fn an_opening_and_its_run(rt: HostRuntime) -> Result<(), Fail> {
    let alloc = rt.alloc();
    let words = texts(alloc, WORDS)?;
    let mut source = source_of(alloc, &unfailing(WORDS))?;
    let mut report = MemorySink::new(alloc, 1000, 100, Vec::new(alloc))?;
    let mut outlet = MemoryOutlet::new(alloc, 1000, Vec::new(alloc))?;
    let status = match Sending::open(alloc, &words) {
        Ok(sending) => Some(sending.run(&mut source, &mut report, &mut outlet)),
        Err(_) => None,
    };
    assert_eq!(rt; status, Some(0));
    assert_eq!(rt; outlet.sent(), 2);
    Ok(())
}

const THREES: &[&str] = &["send", ONE_BYTE, TO, "--seed", ZEROS, "--pack", "3"];

#[test]
fn one_byte_by_three_frames(rt: HostRuntime) -> Result<(), Fail> {
    let outcome = sent(rt.alloc(), &unfailing(THREES))?;
    expect(&rt, &outcome, 0, "datagrams 4 frames 10\nstatus 0\n", 4);
    assert_eq!(rt; datagram(&outcome, 2).len(), 60);
    Ok(())
}

/// A combination more of each generation, by two seeds.
const BY_ZEROS: &[&str] = &[
    "send", ONE_BYTE, TO, "--extra", "1", "--pack", "1", "--seed", ZEROS,
];

const BY_ONE: &[&str] = &[
    "send", ONE_BYTE, TO, "--extra", "1", "--pack", "1", "--seed", ONE,
];

/// The first word by the seed of zeros is 0xade0b876, so the combination has the rows of bits 1 and 2, which are 17 and 34.
/// By the other seed it is 0x7c0ad3c5, and the rows are 13 and 34.
#[test]
fn a_combination_by_the_seed(rt: HostRuntime) -> Result<(), Fail> {
    let outcome = sent(rt.alloc(), &unfailing(BY_ZEROS))?;
    expect(&rt, &outcome, 0, "datagrams 13 frames 13\nstatus 0\n", 13);
    assert_eq!(rt; datagram(&outcome, 2), frame(0, 0, 34).as_slice());
    assert_eq!(rt; datagram(&outcome, 3), frame(0, 0, 51).as_slice());
    let outcome = sent(rt.alloc(), &unfailing(BY_ONE))?;
    assert_eq!(rt; datagram(&outcome, 3), frame(0, 0, 47).as_slice());
    Ok(())
}

/// Words and files, and the status and the report by which they are refused.
const REFUSED: &[(&[&str], &[u8], u8, &str)] = &[
    (WORDS, &[], 9, "length 0\nstatus 9\n"),
    (WORDS, &[0xa0, 0xa0], 9, "length more\nstatus 9\n"),
    (
        &["send", ONE_BYTE, TO, "--seed", "00"],
        &[0xa0],
        11,
        "range seed\nstatus 11\n",
    ),
    (
        &["send", ONE_BYTE, TO, "--seed", "00", "--extra", "1025"],
        &[0xa0],
        11,
        "range seed\nstatus 11\n",
    ),
    (
        &[
            "send", ONE_BYTE, TO, "--seed", ZEROS, "--extra", "1025", "--pack", "0",
        ],
        &[0xa0],
        11,
        "range extra\nstatus 11\n",
    ),
    (
        &["send", ONE_BYTE, TO, "--seed", ZEROS, "--pack", "0"],
        &[0xa0],
        11,
        "range pack\nstatus 11\n",
    ),
    (
        &["send", ONE_BYTE, TO, "--seed", ZEROS, "--pack", "33"],
        &[0xa0],
        11,
        "range pack\nstatus 11\n",
    ),
    (&["send", ONE_BYTE, TO], &[0xa0], 1, "words\nstatus 1\n"),
    (
        &["send", ONE_BYTE, "--seed", "00"],
        &[0xa0],
        1,
        "words\nstatus 1\n",
    ),
    (
        &["pack", ONE_BYTE, TO, "--seed", ZEROS],
        &[0xa0],
        1,
        "words\nstatus 1\n",
    ),
    (
        &["send", "", TO, "--seed", "00"],
        &[0xa0],
        2,
        "ticket shape 0\nstatus 2\n",
    ),
];

#[test]
fn files_and_words_that_are_refused(rt: HostRuntime) -> Result<(), Fail> {
    for (words, bytes, status, report) in REFUSED {
        let setting = Setting {
            bytes,
            ..unfailing(words)
        };
        let outcome = sent(rt.alloc(), &setting)?;
        expect(&rt, &outcome, *status, report, 0);
    }
    Ok(())
}

/// The first read and the one that looks for the end.
#[test]
fn reads_that_fail(rt: HostRuntime) -> Result<(), Fail> {
    for read in 0..2 {
        let setting = Setting {
            source_fails: &[read],
            ..unfailing(WORDS)
        };
        let outcome = sent(rt.alloc(), &setting)?;
        expect(&rt, &outcome, 4, "input fault\nstatus 4\n", 0);
    }
    Ok(())
}

/// Each of four datagrams in turn, after which no more is sent.
#[test]
fn sends_that_fail(rt: HostRuntime) -> Result<(), Fail> {
    for send in 0..4u8 {
        let setting = Setting {
            outlet_fails: &[u64::from(send)],
            ..unfailing(THREES)
        };
        let outcome = sent(rt.alloc(), &setting)?;
        expect(
            &rt,
            &outcome,
            7,
            "outlet fault\nstatus 7\n",
            usize::from(send),
        );
        assert_eq!(rt; outcome.outlet.faults(), 1);
    }
    Ok(())
}

#[test]
fn report_that_fails(rt: HostRuntime) -> Result<(), Fail> {
    let setting = Setting {
        report_fails: &[0],
        ..unfailing(WORDS)
    };
    let outcome = sent(rt.alloc(), &setting)?;
    expect(&rt, &outcome, 5, "", 2);
    Ok(())
}
