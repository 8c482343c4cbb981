//! `unpack` over sources and sinks in memory.
ghost use Rattle.std.specs.Prelude.{◌<◌};

use super::{Setting, expect, front, objects_of, outcome_of, run_without_gates, unfailing};
use kk_outside::{Alloc, Source, StdSource};
use kk_worked::{FIVE, ONE_BYTE, ZERO, capture, frame, texts};
use std::alloc::Global;
use std::io;
use std::io::Read;
use std::process::Abort;
use std::test::Fail;
use std::thread::Threads;

/// What a run over some bytes leaves: the words, the status, the file and the report.
type Case = (&'static [&'static str], u8, &'static [u8], &'static [u8]);

/// Runs over these bytes by the words of each case, and compares what is left.
fn expect_cases<R: Threads + Abort + Sync>(
    rt: &R,
    alloc: Global,
    bytes: &[u8],
    cases: &[Case],
) -> Result<(), Alloc> {
    for (words, status, file, report) in cases {
        let outcome = outcome_of(rt, alloc, &unfailing(words, bytes))?;
        expect(rt, &outcome, *status, file, report);
    }
    Ok(())
}

/// Nine rows of the byte A0, and END, which is piece number 10.
const WHOLE: &[Case] = &[
    (
        &["unpack", ONE_BYTE],
        0,
        b"\xa0",
        b"generations 3\n\
        gate 0 end datagrams 10 frames 9 badlength 0 magic 0 version 0 kind 0 session 0 generation 0 row 0 endrow 0\n\
        generation 0 rank 3 decoded\n\
        generation 1 rank 3 decoded\n\
        generation 2 rank 3 decoded\n\
        inserts 9 innovative 9 redundant 0 late 0\n\
        status 0\n",
    ),
    (
        &["unpack", "--most=10", ONE_BYTE],
        0,
        b"\xa0",
        b"generations 3\n\
        gate 0 end datagrams 10 frames 9 badlength 0 magic 0 version 0 kind 0 session 0 generation 0 row 0 endrow 0\n\
        generation 0 rank 3 decoded\n\
        generation 1 rank 3 decoded\n\
        generation 2 rank 3 decoded\n\
        inserts 9 innovative 9 redundant 0 late 0\n\
        status 0\n",
    ),
    (
        &["unpack", ONE_BYTE, "--most", "9"],
        0,
        b"\xa0",
        b"generations 3\n\
        gate 0 most datagrams 9 frames 9 badlength 0 magic 0 version 0 kind 0 session 0 generation 0 row 0 endrow 0\n\
        generation 0 rank 3 decoded\n\
        generation 1 rank 3 decoded\n\
        generation 2 rank 3 decoded\n\
        inserts 9 innovative 9 redundant 0 late 0\n\
        status 0\n",
    ),
];

/// Two frames, and half of the third, which is piece number 3.
const FRONT: &[Case] = &[
    (&["unpack", ONE_BYTE], 3, b"", CUT),
    (
        &["unpack", ONE_BYTE, "--most", "3"],
        3,
        b"",
        b"generations 3\n\
        gate 0 most datagrams 3 frames 2 badlength 1 magic 0 version 0 kind 0 session 0 generation 0 row 0 endrow 0\n\
        generation 0 rank 2 decoded\n\
        generation 1 rank 0 none\n\
        generation 2 rank 0 none\n\
        inserts 2 innovative 2 redundant 0 late 0\n\
        status 3\n",
    ),
];

const CUT: &[u8] = b"generations 3\n\
    gate 0 over datagrams 3 frames 2 badlength 1 magic 0 version 0 kind 0 session 0 generation 0 row 0 endrow 0\n\
    generation 0 rank 2 decoded\n\
    generation 1 rank 0 none\n\
    generation 2 rank 0 none\n\
    inserts 2 innovative 2 redundant 0 late 0\n\
    status 3\n";

const EMPTY: &[Case] = &[
    (
        &["unpack", "kk1:00000001:3:0000000000000003:3:1:0"],
        0,
        b"",
        b"generations 0\n\
        gate 0 over datagrams 0 frames 0 badlength 0 magic 0 version 0 kind 0 session 0 generation 0 row 0 endrow 0\n\
        inserts 0 innovative 0 redundant 0 late 0\n\
        status 0\n",
    ),
    (
        &["unpack", "kk1:00000001:8:000000000000001b:8:2:1"],
        3,
        b"",
        b"generations 1\n\
        gate 0 over datagrams 0 frames 0 badlength 0 magic 0 version 0 kind 0 session 0 generation 0 row 0 endrow 0\n\
        generation 0 rank 0 none\n\
        inserts 0 innovative 0 redundant 0 late 0\n\
        status 3\n",
    ),
];

/// One dimension erased, and one injected.
const ON_THE_RADIUS: &[Case] = &[(
    &["unpack", "kk1:00000001:4:0000000000000003:4:2:1"],
    0,
    b"\x11",
    b"generations 1\n\
    gate 0 over datagrams 4 frames 4 badlength 0 magic 0 version 0 kind 0 session 0 generation 0 row 0 endrow 0\n\
    generation 0 rank 4 decoded\n\
    inserts 4 innovative 4 redundant 0 late 0\n\
    status 0\n",
)];

#[test]
fn whole_captures(rt: HostRuntime) -> Result<(), Fail> {
    let alloc = rt.alloc();
    let whole = capture(alloc, &[FIVE, ZERO, ZERO])?;
    expect_cases(&rt, alloc, &whole, WHOLE)?;
    expect_cases(&rt, alloc, front(&whole), FRONT)?;
    Ok(())
}

#[test]
fn captures_without_a_frame(rt: HostRuntime) -> Result<(), Fail> {
    expect_cases(&rt, rt.alloc(), &[], EMPTY)?;
    Ok(())
}

#[test]
fn captures_on_the_radius(rt: HostRuntime) -> Result<(), Fail> {
    let bytes = [
        frame(0, 0, 16),
        frame(0, 0, 38),
        frame(0, 0, 71),
        frame(0, 0, 1),
    ];
    expect_cases(&rt, rt.alloc(), bytes.as_flattened(), ON_THE_RADIUS)?;
    Ok(())
}

/// A data frame of generation 0 with this byte at a place.
fn altered(at: usize, byte: u8) -> [u8; 20]
    requires { at < 20 }
{
    let mut bytes = frame(0, 0, 13);
    bytes[at] = byte;
    bytes
}

/// Each bad piece is counted by the first rule that it breaks. A row that came before, and a row 0, are redundant; what
/// stands after END isn't counted.
const BAD_PIECES: &[Case] = &[(
    &["unpack", ONE_BYTE],
    3,
    b"",
    b"generations 3\n\
    gate 0 end datagrams 14 frames 5 badlength 0 magic 2 version 1 kind 1 session 1 generation 1 row 1 endrow 1\n\
    generation 0 rank 2 decoded\n\
    generation 1 rank 1 decoded\n\
    generation 2 rank 0 none\n\
    inserts 5 innovative 3 redundant 2 late 0\n\
    status 3\n",
)];

#[test]
fn bad_pieces_and_redundant_rows(rt: HostRuntime) -> Result<(), Fail> {
    let bytes = [
        frame(0, 0, 13),
        altered(0, 76),
        altered(1, 107),
        altered(2, 2),
        frame(2, 0, 13),
        altered(7, 2),
        frame(0, 3, 13),
        frame(0, 2, 64),
        frame(1, 0, 1),
        frame(0, 0, 17),
        frame(0, 0, 28),
        frame(0, 1, 0),
        frame(0, 1, 8),
        frame(1, 0, 0),
        frame(0, 2, 8),
    ];
    expect_cases(&rt, rt.alloc(), bytes.as_flattened(), BAD_PIECES)?;
    Ok(())
}

const WORDS: &[Case] = &[
    (&[], 1, b"", b"words\nstatus 1\n"),
    (&["unpack"], 1, b"", b"words\nstatus 1\n"),
    (&["frob", ONE_BYTE], 1, b"", b"words\nstatus 1\n"),
    (&["unpack", ONE_BYTE, "more"], 1, b"", b"words\nstatus 1\n"),
    (
        &["unpack", ONE_BYTE, "--most"],
        1,
        b"",
        b"words\nstatus 1\n",
    ),
    (
        &["unpack", ONE_BYTE, "--most=-1"],
        1,
        b"",
        b"words\nstatus 1\n",
    ),
    (
        &["--most", "5", "unpack", ONE_BYTE],
        1,
        b"",
        b"words\nstatus 1\n",
    ),
    (&["send", ONE_BYTE], 1, b"", b"words\nstatus 1\n"),
];

const TICKETS: &[Case] = &[
    (&["unpack", ""], 2, b"", b"ticket shape 0\nstatus 2\n"),
    (
        &["unpack", "kk1:00000001:8:000000000000001B:4:2:1"],
        2,
        b"",
        b"ticket shape 3\nstatus 2\n",
    ),
    (
        &["unpack", "kk1:00000001:32:0000000000000009:32:16:1"],
        2,
        b"",
        b"ticket range 4\nstatus 2\n",
    ),
    (
        &["unpack", "kk1:00000001:4:0000000000000005:3:1:1"],
        2,
        b"",
        b"ticket not irreducible\nstatus 2\n",
    ),
    (
        &["unpack", "kk1:00000001:2:0000000000000003:1:1:4097"],
        2,
        b"",
        b"ticket too many generations 16388\nstatus 2\n",
    ),
    (
        &["unpack", "T", "--most", "0"],
        2,
        b"",
        b"ticket shape 0\nstatus 2\n",
    ),
];

const RANGES: &[Case] = &[
    (
        &["unpack", ONE_BYTE, "--most", "0"],
        11,
        b"",
        b"range most\nstatus 11\n",
    ),
    (
        &["unpack", ONE_BYTE, "--most", "100000001"],
        11,
        b"",
        b"range most\nstatus 11\n",
    ),
];

#[test]
fn refusals(rt: HostRuntime) -> Result<(), Fail> {
    let alloc = rt.alloc();
    expect_cases(&rt, alloc, &[], WORDS)?;
    expect_cases(&rt, alloc, &[], TICKETS)?;
    expect_cases(&rt, alloc, &[], RANGES)?;
    Ok(())
}

/// The largest ticket: 16,384 generations, each told by a line.
const LARGEST: &[&str] = &["unpack", "kk1:00000001:2:0000000000000003:1:1:4096"];

/// How the report begins, and how it ends.
const LARGEST_BEGINS: &[u8] = b"generations 16384\ngate 0 over datagrams 0 frames 0 ";

const LARGEST_ENDS: &[u8] =
    b"generation 16383 rank 0 none\ninserts 0 innovative 0 redundant 0 late 0\nstatus 3\n";

/// How many bytes it has. It goes out in 114 blocks of 4,096 bytes, and no call follows.
const LARGEST_BYTES: usize = 464_203;

/// There is memory for the largest ticket.
#[test]
fn the_largest_ticket_without_input(rt: HostRuntime) -> Result<(), Fail> {
    let alloc = rt.alloc();
    let setting = Setting {
        report_write: 4096,
        report_room: LARGEST_BYTES,
        report_fails: &[114],
        ..unfailing(LARGEST, &[])
    };
    let outcome = outcome_of(&rt, alloc, &setting)?;
    let text = outcome.left.report.bytes();
    assert_eq!(rt; outcome.status, 3);
    assert_eq!(rt; text.len(), LARGEST_BYTES);
    assert!(rt; text.starts_with(LARGEST_BEGINS));
    assert!(rt; text.ends_with(LARGEST_ENDS));
    Ok(())
}

/// A reader that has bytes again after an end, as a terminal has.
#[derive(Drop)]
struct Terminal<'a> {
    before: &'a [u8],
    has_ended: bool,
    after: &'a [u8],
}

impl<'a> Read for Terminal<'a> {
    fn read(&mut self, buf: &mut [u8]) -> io::Result<usize> {
        if !self.before.is_empty() {
            return self.before.read(buf);
        }
        if !self.has_ended {
            self.has_ended = true;
            return Ok(0);
        }
        self.after.read(buf)
    }
}

/// Unpacks what a source gives, and compares the status and the report.
fn expect_cut<R: Threads + Abort + Sync, S: Source>(
    rt: &R,
    alloc: Global,
    source: &mut S,
) -> Result<(), Alloc> {
    let words = texts(alloc, &["unpack", ONE_BYTE])?;
    let mut objects = objects_of(alloc, &unfailing(&[], &[]))?;
    let status = run_without_gates(
        rt,
        alloc,
        &words,
        source,
        &mut objects.file,
        &mut objects.report,
        &mut objects.outlet,
    );
    assert_eq!(rt; status, 3);
    assert_eq!(rt; objects.report.bytes(), CUT);
    Ok(())
}

#[test]
fn bytes_after_an_end_stay_with_the_source(rt: HostRuntime) -> Result<(), Fail> {
    let alloc = rt.alloc();
    let bytes = capture(alloc, &[FIVE, ZERO, ZERO])?;
    let mut source = StdSource::new(Terminal {
        before: front(&bytes),
        has_ended: false,
        after: &[1, 2, 3],
    });
    expect_cut(&rt, alloc, &mut source)?;
    let mut buf = [0; 4];
    assert_eq!(rt; source.read(&mut buf), Ok(3));
    assert_eq!(rt; &buf[..3], [1, 2, 3].as_slice());
    Ok(())
}
