//! `sim` at its worked numbers, with losses beyond the radius, and with words that are refused.
use kk_outside::{Alloc, MemorySink};
use kk_run_sim::{Simulating, run_sim};
use kk_table::Logs;
use kk_worked::{ONE_BYTE, ZEROS, texts};
use std::alloc::Global;
use std::process::Abort;
use std::test::Fail;
use std::thread::Threads;

/// 65,536 bytes in 1,058 generations of 24 rows, with the radius 8.
const LARGE: &str = "kk1:0000002a:31:0000000000000009:24:16:65536";

/// The seed whose last digit is 1.
const ONE: &str = "0000000000000000000000000000000000000000000000000000000000000001";

/// The status of a run, its report, and the logs that it left.
#[derive(Drop)]
struct Outcome {
    status: u8,
    report: MemorySink,
    logs: Vec<Logs>,
}

/// Runs `sim` by these words, with a report's sink whose calls of these numbers fail.
fn simulated<R: Threads + Sync>(
    rt: &R,
    alloc: Global,
    words: &[&str],
    fails: &[u64],
) -> Result<Outcome, Alloc> {
    let words = texts(alloc, words)?;
    let mut report = MemorySink::new(alloc, 1000, 4096, fails.to_vec(alloc)?)?;
    let mut logs = Vec::new(alloc);
    let status = run_sim(rt, alloc, &words, &mut report, &mut logs);
    Ok(Outcome {
        status,
        report,
        logs,
    })
}

/// Words, the status, the report, and how many logs are left.
type Case = (&'static [&'static str], u8, &'static str, usize);

fn expect<R: Threads + Abort + Sync>(rt: &R, alloc: Global, cases: &[Case]) -> Result<(), Alloc> {
    for (words, status, report, logs) in cases {
        let outcome = simulated(rt, alloc, words, &[])?;
        assert_eq!(rt; outcome.report.bytes(), report.as_bytes());
        assert_eq!(rt; outcome.status, *status);
        assert_eq!(rt; outcome.logs.len(), *logs);
    }
    Ok(())
}

const EQUAL: &str = "generations 1058\ndecoded 1058\n\
    inserts 25392 innovative 25392 redundant 0 late 0\nfile equal\nstatus 0\n";

const GATES: &[Case] = &[
    (&["sim", LARGE, "4", "4", "1", "--seed", ZEROS], 0, EQUAL, 1),
    (&["sim", LARGE, "4", "4", "4", "--seed", ZEROS], 0, EQUAL, 1),
    (
        &["sim", LARGE, "4", "4", "16", "--seed", ZEROS],
        0,
        EQUAL,
        1,
    ),
];

#[test]
fn one_summary_for_1_4_and_16_gates(rt: HostRuntime) -> Result<(), Fail> {
    expect(&rt, rt.alloc(), GATES)?;
    Ok(())
}

/// All rows of a codeword are erased: nothing comes, or three foreign rows of each generation, which decode by chance.
const BEYOND: &[Case] = &[
    (
        &["sim", ONE_BYTE, "3", "0", "2", "--seed", ZEROS],
        3,
        "generations 3\ndecoded 0\ninserts 0 innovative 0 redundant 0 late 0\nfile none\nstatus 3\n",
        1,
    ),
    (
        &["sim", ONE_BYTE, "3", "3", "5", "--seed", ONE],
        0,
        "generations 3\ndecoded 3\ninserts 9 innovative 9 redundant 0 late 0\nfile different\nstatus 0\n",
        1,
    ),
];

#[test]
fn beyond_the_radius(rt: HostRuntime) -> Result<(), Fail> {
    expect(&rt, rt.alloc(), BEYOND)?;
    Ok(())
}

/// The seed is looked at before the numbers, and these in their order.
const RANGES: &[Case] = &[
    (
        &["sim", LARGE, "25", "4", "4", "--seed", ZEROS],
        11,
        "range erase\nstatus 11\n",
        0,
    ),
    (
        &["sim", LARGE, "24", "32", "4", "--seed", ZEROS],
        11,
        "range inject\nstatus 11\n",
        0,
    ),
    (
        &["sim", LARGE, "24", "31", "0", "--seed", ZEROS],
        11,
        "range gates\nstatus 11\n",
        0,
    ),
    (
        &["sim", LARGE, "24", "31", "17", "--seed", ZEROS],
        11,
        "range gates\nstatus 11\n",
        0,
    ),
    (
        &["sim", LARGE, "25", "32", "17", "--seed", "00"],
        11,
        "range seed\nstatus 11\n",
        0,
    ),
    (
        &["sim", LARGE, "25", "32", "17", "--seed", ZEROS],
        11,
        "range erase\nstatus 11\n",
        0,
    ),
    (
        &[
            "sim",
            ONE_BYTE,
            "18446744073709551615",
            "0",
            "1",
            "--seed",
            ZEROS,
        ],
        11,
        "range erase\nstatus 11\n",
        0,
    ),
];

#[test]
fn ranges(rt: HostRuntime) -> Result<(), Fail> {
    expect(&rt, rt.alloc(), RANGES)?;
    Ok(())
}

const WORDS: &[Case] = &[
    (
        &["sim", ONE_BYTE, "1", "x", "1", "--seed", ZEROS],
        1,
        "words\nstatus 1\n",
        0,
    ),
    (
        &["sim", "kk1:00000001:3", "1", "1", "0", "--seed", "00"],
        2,
        "ticket shape 3\nstatus 2\n",
        0,
    ),
];

#[test]
fn words_and_tickets(rt: HostRuntime) -> Result<(), Fail> {
    expect(&rt, rt.alloc(), WORDS)?;
    Ok(())
}

/// A run that comes to its end, and one of which nothing decodes.
const NEAR: &[&str] = &["sim", ONE_BYTE, "2", "0", "1", "--seed", ZEROS];

const FAR: &[&str] = &["sim", ONE_BYTE, "3", "0", "1", "--seed", ZEROS];

#[test]
fn a_report_that_fails_turns_0_into_5(rt: HostRuntime) -> Result<(), Fail> {
    let outcome = simulated(&rt, rt.alloc(), NEAR, &[0])?;
    assert_eq!(rt; outcome.status, 5);
    let outcome = simulated(&rt, rt.alloc(), FAR, &[0])?;
    assert_eq!(rt; outcome.status, 3);
    Ok(())
}

#[test]
fn a_simulation_is_opened_before_its_report_is_there(rt: HostRuntime) -> Result<(), Fail> {
    let alloc = rt.alloc();
    let words = texts(alloc, &["sim", LARGE, "4", "4", "1", "--seed", ZEROS])?;
    let opened = Simulating::open(alloc, &words);
    assert!(rt; opened.is_ok());
    let mut report = MemorySink::new(alloc, 1000, 4096, Vec::new(alloc))?;
    let mut logs = Vec::new(alloc);
    if let Ok(simulating) = opened {
        assert_eq!(rt; simulating.run(&rt, &mut report, &mut logs), 0);
    }
    assert_eq!(rt; report.bytes(), EQUAL.as_bytes());
    assert_eq!(rt; logs.len(), 1);
    Ok(())
}
