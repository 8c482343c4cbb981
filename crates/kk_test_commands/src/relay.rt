//! `relay` over gates, sinks and outlets in memory.
ghost use Rattle.std.specs.Prelude.{IfOk};
ghost use Rattle.kk_outside.specs.Gate.{FitsGate};

use kk_outside::{Alloc, Bytes, Event, MemoryGate, MemoryOutlet, MemorySink};
use kk_run_relay::{Relaying, run_relay};
use kk_worked::{ONE_BYTE, ZEROS, frame, texts};
use std::alloc::Global;
use std::process::Abort;
use std::test::Fail;

/// Where a relay sends to, and where it listens.
const TO: &str = "127.0.0.1:9001";

const AT: &str = "127.0.0.1:9000";

/// Two combinations for each data frame, and one.
const TWO: &[&str] = &["relay", ONE_BYTE, TO, AT, "--seed", ZEROS, "--rate", "2"];

const ONE: &[&str] = &["relay", ONE_BYTE, TO, AT, "--seed", ZEROS, "--rate", "1"];

/// A datagram of one frame of generation 0.
fn datagram(alloc: Global, kind: u8, row: u8) -> Result<Event, Alloc>
    ensures { IfOk result FitsGate }
{
    Ok(Event::Datagram(Bytes::new(frame(kind, 0, row).to_vec(alloc)?)))
}

/// One gate, which gives the rows 13 and 17 of generation 0, and then the last event.
fn two_rows(alloc: Global, last: Event) -> Result<Vec<MemoryGate>, Alloc>
    requires { FitsGate last }
{
    let first = datagram(alloc, 0, 13)?;
    let second = datagram(alloc, 0, 17)?;
    let events = Vec::from_array(alloc, [first, second, last])?;
    Ok(Vec::from_array(alloc, [MemoryGate::new(events)])?)
}

/// The status of a run, its report, and what was sent.
#[derive(Drop)]
struct Outcome {
    status: u8,
    report: MemorySink,
    outlet: MemoryOutlet,
}

/// Runs `relay` with an outlet whose calls of these numbers fail.
fn relayed(
    alloc: Global,
    words: &[&str],
    gates: &mut Vec<MemoryGate>,
    fails: &[u64],
) -> Result<Outcome, Alloc> {
    let words = texts(alloc, words)?;
    let mut report = MemorySink::new(alloc, 1000, 100, Vec::new(alloc))?;
    let mut outlet = MemoryOutlet::new(alloc, 100_000, fails.to_vec(alloc)?)?;
    let status = run_relay(alloc, &words, &mut report, gates, &mut outlet);
    Ok(Outcome {
        status,
        report,
        outlet,
    })
}

/// The status, the report and the number of datagrams sent are these.
fn expect(rt: &impl Abort, outcome: &Outcome, status: u8, report: &str, sent: usize) {
    assert_eq!(rt; outcome.status, status);
    assert_eq!(rt; outcome.report.bytes(), report.as_bytes());
    assert_eq!(rt; outcome.outlet.sent(), sent);
}

/// The datagram that was sent after `i` others; none where there are no more.
fn datagram_of(outlet: &MemoryOutlet, i: usize) -> &[u8] {
    if i < outlet.sent() {
        outlet.datagram(i)
    } else {
        &[]
    }
}

const RELAYED: &str =
    "gate 0 end datagrams 3 frames 2 badlength 0 magic 0 version 0 kind 0 session 0 generation 0 row 0 endrow 0\n\
    relayed frames 2 innovative 2 sent 4\nstatus 0\n";

#[test]
fn two_rows_and_the_end(rt: HostRuntime) -> Result<(), Fail> {
    let alloc = rt.alloc();
    let mut gates = two_rows(alloc, datagram(alloc, 1, 0)?)?;
    let outcome = relayed(alloc, TWO, &mut gates, &[])?;
    expect(&rt, &outcome, 0, RELAYED, 5);
    let outlet = &outcome.outlet;
    assert_eq!(rt; datagram_of(outlet, 0), frame(0, 0, 0).as_slice());
    assert_eq!(rt; datagram_of(outlet, 2), frame(0, 0, 13).as_slice());
    assert_eq!(rt; datagram_of(outlet, 4), frame(1, 0, 0).as_slice());
    Ok(())
}

/// The opening has no gate yet, and the run has no allocator.
#[test]
fn an_opening_and_its_run(rt: HostRuntime) -> Result<(), Fail> {
    let alloc = rt.alloc();
    let words = texts(alloc, TWO)?;
    let events = Vec::from_array(alloc, [datagram(alloc, 0, 13)?, datagram(alloc, 1, 0)?])?;
    let mut gate = MemoryGate::new(events);
    let mut report = MemorySink::new(alloc, 1000, 100, Vec::new(alloc))?;
    let mut outlet = MemoryOutlet::new(alloc, 1000, Vec::new(alloc))?;
    let status = match Relaying::open(alloc, &words, 1) {
        Ok(relaying) => Some(relaying.run(&mut gate, &mut report, &mut outlet)),
        Err(_) => None,
    };
    assert_eq!(rt; status, Some(0));
    assert_eq!(rt; outlet.sent(), 3);
    Ok(())
}

#[test]
fn a_gate_that_fails(rt: HostRuntime) -> Result<(), Fail> {
    let alloc = rt.alloc();
    let mut gates = two_rows(alloc, Event::Fault)?;
    let outcome = relayed(alloc, ONE, &mut gates, &[])?;
    expect(&rt, &outcome, 4, "input fault\nstatus 4\n", 2);
    Ok(())
}

#[test]
fn an_outlet_that_fails(rt: HostRuntime) -> Result<(), Fail> {
    let alloc = rt.alloc();
    let mut gates = two_rows(alloc, datagram(alloc, 1, 0)?)?;
    let outcome = relayed(alloc, TWO, &mut gates, &[1])?;
    expect(&rt, &outcome, 7, "outlet fault\nstatus 7\n", 1);
    Ok(())
}

/// Words, and the status and the report by which they are refused.
const REFUSED: &[(&[&str], u8, &str)] = &[
    (&["relay", ONE_BYTE, TO, AT], 1, "words\nstatus 1\n"),
    (
        &["relay", ONE_BYTE, TO, AT, "--seed", "00", "--rate", "17"],
        11,
        "range seed\nstatus 11\n",
    ),
    (
        &[
            "relay", ONE_BYTE, TO, AT, "--seed", ZEROS, "--rate", "17", "--idle", "0",
        ],
        11,
        "range rate\nstatus 11\n",
    ),
    (
        &[
            "relay", ONE_BYTE, TO, AT, "--seed", ZEROS, "--idle", "0", "--most", "0",
        ],
        11,
        "range idle\nstatus 11\n",
    ),
    (
        &["relay", ONE_BYTE, TO, AT, "--seed", ZEROS, "--most", "0"],
        11,
        "range most\nstatus 11\n",
    ),
    // There is no gate.
    (
        &["relay", ONE_BYTE, TO, AT, "--seed", ZEROS],
        11,
        "range listen\nstatus 11\n",
    ),
];

#[test]
fn refused(rt: HostRuntime) -> Result<(), Fail> {
    let mut gates: Vec<MemoryGate> = Vec::new(rt.alloc());
    for (words, status, report) in REFUSED {
        let outcome = relayed(rt.alloc(), words, &mut gates, &[])?;
        expect(&rt, &outcome, *status, report, 0);
    }
    Ok(())
}
