//! `recv` over gates in memory, and over two gates that wait for each other.
ghost use Rattle.std.specs.Prelude.{◌≡◌, IfOk, None, length};
ghost use Rattle.kk_outside.specs.Gate.{FitsGate};

use super::{Outcome, Setting, expect, outcome_over, unfailing};
use kk_outside::{Alloc, Bytes, Event, Failed, GATE_BYTES, Gate, Got, MemoryGate};
use kk_worked::{ONE_BYTE, frame};
use std::alloc::Global;
use std::process::Abort;
use std::sync::Arc;
use std::sync::atomic::{AtomicU64, Ordering};
use std::test::Fail;
use std::thread;
use std::thread::Threads;

/// What a gate gives: a datagram of data frames, each with its generation and its row, one of these bytes, one of END, or a
/// fault.
#[derive(Clone, Copy, Drop)]
enum Given {
    Rows(&'static [(u8, u8)]),
    Bytes(&'static [u8]),
    End,
    Fault,
}

/// A datagram of this.
fn datagram_of(rt: &impl Abort, bytes: Vec<u8>) -> Event
    ensures { FitsGate result }
{
    assert!(rt; bytes.len() <= GATE_BYTES);
    Event::Datagram(Bytes::new(bytes))
}

/// The frames of these rows, one after the other.
fn frames_of(alloc: Global, rows: &[(u8, u8)]) -> Result<Vec<u8>, Alloc> {
    let mut bytes = Vec::new(alloc);
    for (generation, row) in rows {
        bytes.extend_from_slice(&frame(0, *generation, *row))?;
    }
    Ok(bytes)
}

fn event_of(rt: &impl Abort, alloc: Global, given: &Given) -> Result<Event, Alloc>
    ensures { IfOk result FitsGate }
{
    match given {
        Given::Rows(rows) => Ok(datagram_of(rt, frames_of(alloc, rows)?)),
        Given::Bytes(bytes) => Ok(datagram_of(rt, bytes.to_vec(alloc)?)),
        Given::End => Ok(datagram_of(rt, frame(1, 0, 0).to_vec(alloc)?)),
        Given::Fault => Ok(Event::Fault),
    }
}

/// A gate that gives these, in order.
fn gate_of(rt: &impl Abort, alloc: Global, given: &[Given]) -> Result<MemoryGate, Alloc> {
    let mut events = Vec::new(alloc);
    for each in given {
        events.push(event_of(rt, alloc, each)?)?;
    }
    Ok(MemoryGate::new(events))
}

fn gates_of(rt: &impl Abort, alloc: Global, given: &[&[Given]]) -> Result<Vec<MemoryGate>, Alloc> {
    let mut gates = Vec::new(alloc);
    for each in given {
        gates.push(gate_of(rt, alloc, each)?)?;
    }
    Ok(gates)
}

/// Runs by these words over gates that give these.
fn received<R: Threads + Abort + Sync>(
    rt: &R,
    alloc: Global,
    setting: &Setting,
    given: &[&[Given]],
) -> Result<Outcome, Alloc> {
    let mut gates = gates_of(rt, alloc, given)?;
    assert!(rt; gates.len() <= 16);
    outcome_over(rt, alloc, setting, &mut gates)
}

/// Runs so, and compares the status, the file and the report. The logs of the run are left.
fn expect_received<R: Threads + Abort + Sync>(
    rt: &R,
    alloc: Global,
    setting: &Setting,
    given: &[&[Given]],
    status: u8,
    file: &[u8],
    report: &[u8],
) -> Result<(), Alloc> {
    let outcome = received(rt, alloc, setting, given)?;
    expect(rt, &outcome, status, file, report);
    assert_eq!(rt; outcome.left.logs.len(), 1);
    Ok(())
}

/// The generations of the byte A0, each in one datagram.
const FIRST: Given = Given::Rows(&[(0, 13), (0, 17), (0, 34)]);

const SECOND: Given = Given::Rows(&[(1, 8), (1, 16), (1, 32)]);

const THIRD: Given = Given::Rows(&[(2, 8), (2, 16), (2, 32)]);

/// The words of a receiver of one byte with three gates.
const THREE: &[&str] = &[
    "recv",
    ONE_BYTE,
    "127.0.0.1:9000",
    "127.0.0.1:9001",
    "127.0.0.1:9002",
];

/// A gate without an event, one with two generations that fails then, and one with the third and END.
const ALL: &[&[Given]] = &[&[], &[FIRST, SECOND, Given::Fault], &[THIRD, Given::End]];

const ALL_REPORT: &[u8] = b"generations 3\n\
    gate 0 over datagrams 0 frames 0 badlength 0 magic 0 version 0 kind 0 session 0 generation 0 row 0 endrow 0\n\
    gate 1 fault datagrams 2 frames 6 badlength 0 magic 0 version 0 kind 0 session 0 generation 0 row 0 endrow 0\n\
    gate 2 end datagrams 2 frames 3 badlength 0 magic 0 version 0 kind 0 session 0 generation 0 row 0 endrow 0\n\
    generation 0 rank 3 decoded\n\
    generation 1 rank 3 decoded\n\
    generation 2 rank 3 decoded\n\
    inserts 9 innovative 9 redundant 0 late 0\n\
    status 0\n";

/// All generations come, though a gate fails.
#[test]
fn three_gates_bring_the_file(rt: HostRuntime) -> Result<(), Fail> {
    let setting = unfailing(THREE, &[]);
    expect_received(&rt, rt.alloc(), &setting, ALL, 0, &[0xa0], ALL_REPORT)?;
    Ok(())
}

#[test]
fn a_file_that_cannot_be_written(rt: HostRuntime) -> Result<(), Fail> {
    let setting = Setting {
        file_fails: &[0],
        ..unfailing(THREE, &[])
    };
    expect_received(&rt, rt.alloc(), &setting, ALL, 5, &[], b"status 5\n")?;
    Ok(())
}

/// The third generation is missing, and a gate failed.
const FAILED: &[&[Given]] = &[&[], &[FIRST, SECOND, Given::Fault], &[Given::End]];

const FAILED_REPORT: &[u8] = b"generations 3\n\
    gate 0 over datagrams 0 frames 0 badlength 0 magic 0 version 0 kind 0 session 0 generation 0 row 0 endrow 0\n\
    gate 1 fault datagrams 2 frames 6 badlength 0 magic 0 version 0 kind 0 session 0 generation 0 row 0 endrow 0\n\
    gate 2 end datagrams 1 frames 0 badlength 0 magic 0 version 0 kind 0 session 0 generation 0 row 0 endrow 0\n\
    generation 0 rank 3 decoded\n\
    generation 1 rank 3 decoded\n\
    generation 2 rank 0 none\n\
    inserts 6 innovative 6 redundant 0 late 0\n\
    status 6\n";

#[test]
fn a_generation_is_missing_and_a_gate_failed(rt: HostRuntime) -> Result<(), Fail> {
    let setting = unfailing(THREE, &[]);
    expect_received(&rt, rt.alloc(), &setting, FAILED, 6, &[], FAILED_REPORT)?;
    Ok(())
}

/// The gate fails before its first datagram, and before its second: what comes after the fault isn't taken.
const FAILED_AT_ONCE: &[&[Given]] = &[&[], &[Given::Fault, FIRST, SECOND], &[THIRD, Given::End]];

const FAILED_BETWEEN: &[&[Given]] = &[&[], &[FIRST, Given::Fault, SECOND], &[THIRD, Given::End]];

#[test]
fn a_gate_fails_before_a_datagram(rt: HostRuntime) -> Result<(), Fail> {
    let setting = unfailing(THREE, &[]);
    let outcome = received(&rt, rt.alloc(), &setting, FAILED_AT_ONCE)?;
    assert_eq!(rt; outcome.status, 6);
    assert_eq!(rt; outcome.left.file.bytes().len(), 0);
    let outcome = received(&rt, rt.alloc(), &setting, FAILED_BETWEEN)?;
    assert_eq!(rt; outcome.status, 6);
    assert_eq!(rt; outcome.left.file.bytes().len(), 0);
    Ok(())
}

/// The same without a fault.
const MISSING: &[&[Given]] = &[&[], &[FIRST, SECOND], &[Given::End]];

const MISSING_REPORT: &[u8] = b"generations 3\n\
    gate 0 over datagrams 0 frames 0 badlength 0 magic 0 version 0 kind 0 session 0 generation 0 row 0 endrow 0\n\
    gate 1 over datagrams 2 frames 6 badlength 0 magic 0 version 0 kind 0 session 0 generation 0 row 0 endrow 0\n\
    gate 2 end datagrams 1 frames 0 badlength 0 magic 0 version 0 kind 0 session 0 generation 0 row 0 endrow 0\n\
    generation 0 rank 3 decoded\n\
    generation 1 rank 3 decoded\n\
    generation 2 rank 0 none\n\
    inserts 6 innovative 6 redundant 0 late 0\n\
    status 3\n";

#[test]
fn a_generation_is_missing_and_no_gate_failed(rt: HostRuntime) -> Result<(), Fail> {
    let setting = unfailing(THREE, &[]);
    expect_received(&rt, rt.alloc(), &setting, MISSING, 3, &[], MISSING_REPORT)?;
    Ok(())
}

const NO_BYTES: &[&str] = &[
    "recv",
    "kk1:00000001:3:0000000000000003:3:1:0",
    "127.0.0.1:9000",
];

const NO_BYTES_REPORT: &[u8] = b"generations 0\n\
    gate 0 over datagrams 0 frames 0 badlength 0 magic 0 version 0 kind 0 session 0 generation 0 row 0 endrow 0\n\
    inserts 0 innovative 0 redundant 0 late 0\n\
    status 0\n";

#[test]
fn a_file_of_no_bytes(rt: HostRuntime) -> Result<(), Fail> {
    let setting = unfailing(NO_BYTES, &[]);
    expect_received(&rt, rt.alloc(), &setting, &[&[]], 0, &[], NO_BYTES_REPORT)?;
    Ok(())
}

const AT: &str = "127.0.0.1:9000";

/// The words of a receiver with one gate.
const ONE: &[&str] = &["recv", ONE_BYTE, AT];

/// Words, and the report by which they are refused.
const REFUSED: &[(&[&str], u8, &[u8])] = &[
    (&["recv", ONE_BYTE], 1, b"words\nstatus 1\n"),
    (
        &["recv", ONE_BYTE, AT, "--tolerate", "-1"],
        1,
        b"words\nstatus 1\n",
    ),
    (
        &["recv", "", AT, "--idle", "0"],
        2,
        b"ticket shape 0\nstatus 2\n",
    ),
    (
        &["recv", ONE_BYTE, AT, "--most", "0", "--idle", "0"],
        11,
        b"range idle\nstatus 11\n",
    ),
    (
        &["recv", ONE_BYTE, AT, "--idle", "1000001"],
        11,
        b"range idle\nstatus 11\n",
    ),
    (
        &["recv", ONE_BYTE, AT, "--most", "100000001"],
        11,
        b"range most\nstatus 11\n",
    ),
    (
        &["recv", ONE_BYTE, AT, "--tolerate", "2", "--most", "0"],
        11,
        b"range most\nstatus 11\n",
    ),
    // With l = 3 and k = 1 at most one dimension is tolerated.
    (
        &["recv", "--tolerate", "2", ONE_BYTE, AT],
        11,
        b"range tolerate\nstatus 11\n",
    ),
    // Twice this number is 0 modulo 2^64.
    (
        &["recv", ONE_BYTE, AT, "--tolerate", "9223372036854775808"],
        11,
        b"range tolerate\nstatus 11\n",
    ),
    // Seventeen addresses.
    (
        &[
            "recv", ONE_BYTE, AT, AT, AT, AT, AT, AT, AT, AT, AT, AT, AT, AT, AT, AT, AT, AT, AT,
        ],
        11,
        b"range listen\nstatus 11\n",
    ),
    (
        &[
            "recv",
            "--tolerate",
            "2",
            ONE_BYTE,
            AT,
            AT,
            AT,
            AT,
            AT,
            AT,
            AT,
            AT,
            AT,
            AT,
            AT,
            AT,
            AT,
            AT,
            AT,
            AT,
            AT,
        ],
        11,
        b"range tolerate\nstatus 11\n",
    ),
];

/// No refusal leaves logs.
#[test]
fn words_that_are_refused(rt: HostRuntime) -> Result<(), Fail> {
    let alloc = rt.alloc();
    for (words, status, report) in REFUSED {
        let outcome = received(&rt, alloc, &unfailing(words, &[]), &[])?;
        expect(&rt, &outcome, *status, &[], report);
        assert_eq!(rt; outcome.left.logs.len(), 0);
    }
    Ok(())
}

/// Sixteen addresses are words of a receiver, whatever gates there are.
const SIXTEEN: &[&str] = &[
    "recv", ONE_BYTE, AT, AT, AT, AT, AT, AT, AT, AT, AT, AT, AT, AT, AT, AT, AT, AT,
];

const SIXTEEN_REPORT: &[u8] = b"generations 3\n\
    generation 0 rank 0 none\n\
    generation 1 rank 0 none\n\
    generation 2 rank 0 none\n\
    inserts 0 innovative 0 redundant 0 late 0\n\
    status 3\n";

#[test]
fn sixteen_addresses(rt: HostRuntime) -> Result<(), Fail> {
    let setting = unfailing(SIXTEEN, &[]);
    expect_received(&rt, rt.alloc(), &setting, &[], 3, &[], SIXTEEN_REPORT)?;
    Ok(())
}

/// Seven frames with a byte that is wrong, one with two, and one that is a byte short.
const NINE_FAULTS: &[&[Given]] = &[&[
    Given::Bytes(&[
        0x4a, 75, 1, 0, 0, 0, 0, 1, 0, 0, 0, 0, 0, 0, 0, 0, 0, 0, 0, 13,
    ]),
    Given::Bytes(&[
        75, 75, 2, 0, 0, 0, 0, 1, 0, 0, 0, 0, 0, 0, 0, 0, 0, 0, 0, 13,
    ]),
    Given::Bytes(&[
        75, 75, 1, 2, 0, 0, 0, 1, 0, 0, 0, 0, 0, 0, 0, 0, 0, 0, 0, 13,
    ]),
    Given::Bytes(&[
        75, 75, 1, 0, 0, 0, 0, 2, 0, 0, 0, 0, 0, 0, 0, 0, 0, 0, 0, 13,
    ]),
    Given::Bytes(&[
        75, 75, 1, 0, 0, 0, 0, 1, 0, 0, 0, 3, 0, 0, 0, 0, 0, 0, 0, 13,
    ]),
    Given::Bytes(&[
        75, 75, 1, 0, 0, 0, 0, 1, 0, 0, 0, 0, 0, 0, 0, 0, 0, 0, 0, 64,
    ]),
    Given::Bytes(&[75, 75, 1, 1, 0, 0, 0, 1, 0, 0, 0, 0, 0, 0, 0, 0, 0, 0, 0, 1]),
    Given::Bytes(&[0, 75, 2, 0, 0, 0, 0, 1, 0, 0, 0, 0, 0, 0, 0, 0, 0, 0, 0, 13]),
    Given::Bytes(&[75, 75, 1, 0, 0, 0, 0, 1, 0, 0, 0, 0, 0, 0, 0, 0, 0, 0, 0]),
]];

const NINE_REFUSED: &[u8] = b"generations 3\n\
    gate 0 over datagrams 9 frames 0 badlength 1 magic 2 version 1 kind 1 session 1 generation 1 row 1 endrow 1\n\
    generation 0 rank 0 none\n\
    generation 1 rank 0 none\n\
    generation 2 rank 0 none\n\
    inserts 0 innovative 0 redundant 0 late 0\n\
    status 3\n";

/// Each is counted once, by the first rule that it breaks.
#[test]
fn each_datagram_breaks_a_rule(rt: HostRuntime) -> Result<(), Fail> {
    let setting = unfailing(ONE, &[]);
    expect_received(&rt, rt.alloc(), &setting, NINE_FAULTS, 3, &[], NINE_REFUSED)?;
    Ok(())
}

/// A gate that brings all.
const WHOLE: &[Given] = &[FIRST, SECOND, THIRD, Given::End];

/// The first rows that come are innovative, and all others redundant.
#[test]
fn sixteen_gates_at_once(rt: HostRuntime) -> Result<(), Fail> {
    let alloc = rt.alloc();
    let outcome = received(&rt, alloc, &unfailing(SIXTEEN, &[]), &[WHOLE; 16])?;
    assert_eq!(rt; outcome.status, 0);
    assert_eq!(rt; outcome.left.file.bytes(), [0xa0].as_slice());
    assert!(rt; outcome.left.report.bytes().ends_with(SIXTEEN_TOTALS));
    Ok(())
}

const SIXTEEN_TOTALS: &[u8] = b"inserts 144 innovative 9 redundant 135 late 0\nstatus 0\n";

/// The words of a receiver that tolerates one injected dimension.
const TOLERANT: &[&str] = &["recv", "--tolerate", "1", ONE_BYTE, AT];

/// The rows of generation 0 with an injected one, which comes last or first.
const INJECTED_LAST: &[&[Given]] = &[&[
    Given::Rows(&[(0, 13)]),
    Given::Rows(&[(0, 17)]),
    Given::Rows(&[(0, 34)]),
    Given::Rows(&[(0, 1)]),
    SECOND,
    THIRD,
]];

const INJECTED_FIRST: &[&[Given]] = &[&[
    Given::Rows(&[(0, 1)]),
    Given::Rows(&[(0, 13)]),
    Given::Rows(&[(0, 17)]),
    Given::Rows(&[(0, 34)]),
    SECOND,
    THIRD,
]];

const ONE_LATE: &[u8] = b"generations 3\n\
    gate 0 over datagrams 6 frames 10 badlength 0 magic 0 version 0 kind 0 session 0 generation 0 row 0 endrow 0\n\
    generation 0 rank 3 decoded\n\
    generation 1 rank 3 decoded\n\
    generation 2 rank 3 decoded\n\
    inserts 10 innovative 9 redundant 0 late 1\n\
    status 0\n";

/// The generation is closed at rank 3, and the fourth row is late.
#[test]
fn one_injected_row_is_tolerated(rt: HostRuntime) -> Result<(), Fail> {
    let setting = unfailing(TOLERANT, &[]);
    expect_received(
        &rt,
        rt.alloc(),
        &setting,
        INJECTED_LAST,
        0,
        &[0xa0],
        ONE_LATE,
    )?;
    expect_received(
        &rt,
        rt.alloc(),
        &setting,
        INJECTED_FIRST,
        0,
        &[0xa0],
        ONE_LATE,
    )?;
    Ok(())
}

/// The rows of generation 0 are dealt over two gates, so that its rank is 3 or 4.
const DEALT: &[&[Given]] = &[
    &[Given::Rows(&[(0, 13)]), Given::Rows(&[(0, 1)]), SECOND],
    &[Given::Rows(&[(0, 17)]), Given::Rows(&[(0, 34)]), THIRD],
];

#[test]
fn one_injected_row_at_two_gates(rt: HostRuntime) -> Result<(), Fail> {
    let alloc = rt.alloc();
    let outcome = received(&rt, alloc, &unfailing(TOLERANT, &[]), DEALT)?;
    assert_eq!(rt; outcome.status, 0);
    assert_eq!(rt; outcome.left.file.bytes(), [0xa0].as_slice());
    Ok(())
}

/// A gate that doesn't tell what it has left. It gives some answers, and waits before the next until another such gate waits,
/// too. It notes where that doesn't come.
#[derive(Drop)]
struct Meeting {
    begun: Arc<AtomicU64, Global>,
    answers: u32,
    met: bool,
    alone: bool,
    events: MemoryGate,
}

impl Gate for Meeting {
    ghost told = { λ g. record { left = None; events = g.events.events; overs = g.events.overs; faults = g.events.faults } };

    fn next(&mut self, buf: &mut [u8; GATE_BYTES]) -> Result<Got, Failed> {
        if self.answers > 0 {
            self.answers -= 1;
        } else if !self.met {
            self.met = true;
            self.begun.fetch_add(1, Ordering::SeqCst);
            self.alone = !meets(&self.begun);
        }
        self.events.next(buf)
    }
}

/// Whether both have begun before a million turns are over.
fn meets(begun: &Arc<AtomicU64, Global>) -> bool {
    for _ in 0..1_000_000u32 {
        if begun.load(Ordering::SeqCst) >= 2 {
            return true;
        }
        thread::yield_now();
    }
    false
}

/// A gate that gives these, and waits after so many answers.
fn meeting_of(
    begun: &Arc<AtomicU64, Global>,
    answers: u32,
    events: MemoryGate,
) -> Result<Meeting, Alloc> {
    Ok(Meeting {
        begun: Arc::try_clone(begun)?,
        answers,
        met: false,
        alone: false,
        events,
    })
}

/// Two gates that wait for each other after so many answers, and give these.
fn two_meetings(
    rt: &impl Abort,
    alloc: Global,
    first: (u32, &[Given]),
    second: (u32, &[Given]),
) -> Result<Vec<Meeting>, Alloc>
    ensures { IfOk result (λ gates. length gates.items ≡ 2) }
{
    let begun = Arc::new(alloc, AtomicU64::new(0))?;
    let one = meeting_of(&begun, first.0, gate_of(rt, alloc, first.1)?)?;
    let other = meeting_of(&begun, second.0, gate_of(rt, alloc, second.1)?)?;
    Ok(Vec::from_array(alloc, [one, other])?)
}

/// Runs by these words over two gates that wait for each other, neither of them in vain.
fn met<R: Threads + Abort + Sync>(
    rt: &R,
    alloc: Global,
    words: &[&str],
    first: (u32, &[Given]),
    second: (u32, &[Given]),
) -> Result<Outcome, Alloc> {
    let mut gates = two_meetings(rt, alloc, first, second)?;
    let outcome = outcome_over(rt, alloc, &unfailing(words, &[]), &mut gates)?;
    for gate in &gates {
        assert!(rt; gate.met && !gate.alone);
    }
    Ok(outcome)
}

/// The words of a receiver with two gates, and of one that tolerates an injected dimension.
const TWO: &[&str] = &["recv", ONE_BYTE, AT, "127.0.0.1:9001"];

const TWO_TOLERANT: &[&str] = &["recv", ONE_BYTE, AT, "127.0.0.1:9001", "--tolerate", "1"];

/// A receiver that asks one gate after the other would leave the first to wait in vain.
#[test]
fn gates_are_asked_at_once(rt: HostRuntime) -> Result<(), Fail> {
    let outcome = met(
        &rt,
        rt.alloc(),
        TWO,
        (0, &[FIRST, SECOND]),
        (0, &[THIRD, Given::End]),
    )?;
    assert_eq!(rt; outcome.status, 0);
    assert_eq!(rt; outcome.left.file.bytes(), [0xa0].as_slice());
    Ok(())
}

/// The generations 0 and 2 in one datagram.
const TWO_AT_ONCE: Given = Given::Rows(&[(2, 8), (2, 16), (2, 32), (0, 13), (0, 17), (0, 34)]);

/// Rows of their own datagrams.
const ROW_OF_SECOND: Given = Given::Rows(&[(1, 8)]);

const OTHER_OF_SECOND: Given = Given::Rows(&[(1, 16)]);

const LAST_OF_SECOND: Given = Given::Rows(&[(1, 32)]);

const ROW_OF_FIRST: Given = Given::Rows(&[(0, 13)]);

/// Each gate closes what it has seen before the two meet, so a row that comes later at the other gate is late: two of eleven.
#[test]
fn generations_are_closed_while_gates_are_asked(rt: HostRuntime) -> Result<(), Fail> {
    let outcome = met(
        &rt,
        rt.alloc(),
        TWO_TOLERANT,
        (1, &[TWO_AT_ONCE, ROW_OF_SECOND]),
        (
            3,
            &[ROW_OF_SECOND, OTHER_OF_SECOND, LAST_OF_SECOND, ROW_OF_FIRST],
        ),
    )?;
    expect(&rt, &outcome, 0, &[0xa0], TWO_LATE);
    Ok(())
}

const TWO_LATE: &[u8] = b"generations 3\n\
    gate 0 over datagrams 2 frames 7 badlength 0 magic 0 version 0 kind 0 session 0 generation 0 row 0 endrow 0\n\
    gate 1 over datagrams 4 frames 4 badlength 0 magic 0 version 0 kind 0 session 0 generation 0 row 0 endrow 0\n\
    generation 0 rank 3 decoded\n\
    generation 1 rank 3 decoded\n\
    generation 2 rank 3 decoded\n\
    inserts 11 innovative 9 redundant 0 late 2\n\
    status 0\n";
