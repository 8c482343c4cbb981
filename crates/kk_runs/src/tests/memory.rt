//! Runs of which a request for memory may be refused: each does all its work, or answers 8 and leaves all as it was.
//!
//! Where memory is found both tests of a run pass. `bench/memory` refuses each request in turn: then the test `.._or_not_at_all`
//! passes for each request that the run makes, and `.._finds_memory` fails for these alone.
ghost use Rattle.std.specs.Prelude.{◌≡◌, ◌≤◌, [], IfOk, length};
ghost use Rattle.kk_outside.specs.Gate.{FitsGate};
ghost use Rattle.kk_workers.specs.declared.running.TheConstants.{MAX_GATES};

use kk_outside::{
    Alloc, Bytes, Event, GATE_BYTES, Gate, Got, MemoryGate, MemoryOutlet, MemorySink, MemorySource,
    fill,
};
use kk_table::Logs;
use kk_top::{run_pack, run_recv, run_relay, run_send, run_unpack};
use kk_worked::{FIVE, ONE_BYTE, ZERO, ZEROS, capture, frame, texts};
use std::alloc::{AllocError, Global};
use std::process::Abort;
use std::test::Fail;
use std::thread::Threads;

/// What a run left.
#[derive(Clone, Copy, Debug, PartialEq, Eq)]
struct Left {
    status: u8,
    /// Whether the report is that of a run without memory.
    told_memory: bool,
    /// How many bytes the file has.
    file: usize,
    /// How many bytes of the source, or events of each gate, weren't taken.
    untaken: [usize; 3],
    /// How many datagrams were sent.
    sent: usize,
    logs: usize,
}

/// A run that took all, and wrote no file, sent nothing and left no logs.
const ALL_TAKEN: Left = Left {
    status: 0,
    told_memory: false,
    file: 0,
    untaken: [0; 3],
    sent: 0,
    logs: 0,
};

/// A run without memory, which took nothing of so many bytes or events.
fn refused(untaken: [usize; 3]) -> Left {
    Left {
        status: 8,
        told_memory: true,
        untaken,
        ..ALL_TAKEN
    }
}

/// Checks that a run did all its work, or none.
fn expect_either(rt: &impl Abort, left: Left, done: Left, refused: Left) {
    if left.status == 8 {
        assert_eq!(rt; left, refused);
    } else {
        assert_eq!(rt; left, done);
    }
}

/// Whether this is the report of a run without memory.
fn told_memory(report: &MemorySink) -> bool {
    report.bytes() == b"memory\nstatus 8\n".as_slice()
}

/// How many bytes, of at most 300, this source has left.
fn untaken_bytes(source: &mut MemorySource) -> usize {
    fill(source, &mut [0; 300]).unwrap_or(300)
}

/// How many events, of at most 8, this gate has left.
fn untaken_events(gate: &mut MemoryGate) -> usize {
    let mut buf = [0; GATE_BYTES];
    for i in 0..8 {
        if gate.next(&mut buf) == Ok(Got::Over) {
            return i;
        }
    }
    8
}

/// How many events each of the first three gates has left.
fn untaken_of(gates: &mut [MemoryGate]) -> [usize; 3] {
    let mut untaken = [0; 3];
    for (gate, count) in gates.iter_mut().zip(&mut untaken) {
        *count = untaken_events(gate);
    }
    untaken
}

/// A source, and the sinks of a file and a report.
#[derive(Drop)]
struct Streams {
    source: MemorySource,
    file: MemorySink,
    report: MemorySink,
}

/// A source of these bytes, and sinks with so much room.
fn streams_of(alloc: Global, bytes: Vec<u8>, file: usize, report: usize) -> Result<Streams, Alloc> {
    Ok(Streams {
        source: MemorySource::new(bytes, 20, Vec::new(alloc)),
        file: MemorySink::new(alloc, file, 1000, Vec::new(alloc))?,
        report: MemorySink::new(alloc, report, 1000, Vec::new(alloc))?,
    })
}

/// What a run with this status left in its streams.
fn left_in(status: u8, streams: &mut Streams) -> Left {
    Left {
        status,
        told_memory: told_memory(&streams.report),
        file: streams.file.bytes().len(),
        untaken: [untaken_bytes(&mut streams.source), 0, 0],
        ..ALL_TAKEN
    }
}

const UNPACKED: Left = Left {
    file: 1,
    ..ALL_TAKEN
};

fn unpack_over(alloc: Global, words: &[String], streams: &mut Streams) -> u8 {
    run_unpack(
        alloc,
        words,
        &mut streams.source,
        &mut streams.file,
        &mut streams.report,
    )
}

fn unpacked(alloc: Global) -> Result<Left, Alloc> {
    let words = texts(alloc, &["unpack", ONE_BYTE])?;
    let bytes = capture(alloc, &[FIVE, ZERO, ZERO])?;
    let mut streams = streams_of(alloc, bytes, 100, 1000)?;
    let status = unpack_over(alloc, &words, &mut streams);
    Ok(left_in(status, &mut streams))
}

#[test]
fn unpack_is_done_or_not_at_all(rt: HostRuntime) -> Result<(), Fail> {
    expect_either(&rt, unpacked(rt.alloc())?, UNPACKED, refused([200, 0, 0]));
    Ok(())
}

#[test]
fn unpack_finds_memory(rt: HostRuntime) -> Result<(), Fail> {
    assert_eq!(rt; unpacked(rt.alloc())?, UNPACKED);
    Ok(())
}

const PACKED: Left = Left {
    file: 200,
    ..ALL_TAKEN
};

fn pack_over(alloc: Global, words: &[String], streams: &mut Streams) -> u8 {
    run_pack(
        alloc,
        words,
        &mut streams.source,
        &mut streams.file,
        &mut streams.report,
    )
}

fn packed(alloc: Global) -> Result<Left, Alloc> {
    let words = texts(alloc, &["pack", ONE_BYTE])?;
    let bytes = [0xa0u8].to_vec(alloc)?;
    let mut streams = streams_of(alloc, bytes, 1000, 100)?;
    let status = pack_over(alloc, &words, &mut streams);
    Ok(left_in(status, &mut streams))
}

#[test]
fn pack_is_done_or_not_at_all(rt: HostRuntime) -> Result<(), Fail> {
    expect_either(&rt, packed(rt.alloc())?, PACKED, refused([1, 0, 0]));
    Ok(())
}

#[test]
fn pack_finds_memory(rt: HostRuntime) -> Result<(), Fail> {
    assert_eq!(rt; packed(rt.alloc())?, PACKED);
    Ok(())
}

/// A datagram with nine rows and six combinations, and END.
const SENT: Left = Left {
    sent: 2,
    ..ALL_TAKEN
};

const SEND: &[&str] = &[
    "send",
    ONE_BYTE,
    "127.0.0.1:9",
    "--extra",
    "2",
    "--seed",
    ZEROS,
];

/// A report's sink and an outlet.
#[derive(Drop)]
struct Ends {
    report: MemorySink,
    outlet: MemoryOutlet,
}

fn ends_of(alloc: Global, report: usize) -> Result<Ends, Alloc> {
    Ok(Ends {
        report: MemorySink::new(alloc, report, 1000, Vec::new(alloc))?,
        outlet: MemoryOutlet::new(alloc, 1000, Vec::new(alloc))?,
    })
}

/// What a run with this status left, and what its ends took.
fn left_at(status: u8, untaken: [usize; 3], ends: &Ends) -> Left {
    Left {
        status,
        told_memory: told_memory(&ends.report),
        untaken,
        sent: ends.outlet.sent(),
        ..ALL_TAKEN
    }
}

fn send_over(alloc: Global, words: &[String], source: &mut MemorySource, ends: &mut Ends) -> u8 {
    run_send(alloc, words, source, &mut ends.report, &mut ends.outlet)
}

fn sent(alloc: Global) -> Result<Left, Alloc> {
    let words = texts(alloc, SEND)?;
    let mut source = MemorySource::new([0xa0u8].to_vec(alloc)?, 1, Vec::new(alloc));
    let mut ends = ends_of(alloc, 100)?;
    let status = send_over(alloc, &words, &mut source, &mut ends);
    Ok(left_at(status, [untaken_bytes(&mut source), 0, 0], &ends))
}

#[test]
fn send_is_done_or_not_at_all(rt: HostRuntime) -> Result<(), Fail> {
    expect_either(&rt, sent(rt.alloc())?, SENT, refused([1, 0, 0]));
    Ok(())
}

#[test]
fn send_finds_memory(rt: HostRuntime) -> Result<(), Fail> {
    assert_eq!(rt; sent(rt.alloc())?, SENT);
    Ok(())
}

/// A datagram of one frame.
fn one(alloc: Global, kind: u8, row: u8) -> Result<Event, AllocError>
    ensures { IfOk result FitsGate }
{
    Ok(Event::Datagram(Bytes::new(frame(kind, 0, row).to_vec(alloc)?)))
}

/// A datagram with three rows of a generation.
fn three(alloc: Global, generation: u8, rows: [u8; 3]) -> Result<Event, AllocError>
    ensures { IfOk result FitsGate }
{
    let [a, b, c] = rows;
    let frames = [
        frame(0, generation, a),
        frame(0, generation, b),
        frame(0, generation, c),
    ];
    Ok(Event::Datagram(Bytes::new(frames.as_flattened().to_vec(alloc)?)))
}

/// Two combinations for each of two rows, and END.
const RELAYED: Left = Left {
    sent: 5,
    ..ALL_TAKEN
};

/// A gate with two rows and END.
fn two_rows(alloc: Global) -> Result<MemoryGate, AllocError> {
    let events = [one(alloc, 0, 13)?, one(alloc, 0, 17)?, one(alloc, 1, 0)?];
    Ok(MemoryGate::new(Vec::from_array(alloc, events)?))
}

const RELAY: &[&str] = &[
    "relay",
    ONE_BYTE,
    "127.0.0.1:9",
    "127.0.0.1:9",
    "--rate",
    "2",
    "--seed",
    ZEROS,
];

fn relay_over(alloc: Global, words: &[String], gates: &mut Vec<MemoryGate>, ends: &mut Ends) -> u8 {
    run_relay(alloc, words, &mut ends.report, gates, &mut ends.outlet)
}

fn relayed(alloc: Global) -> Result<Left, Alloc> {
    let words = texts(alloc, RELAY)?;
    let mut gates = Vec::from_array(alloc, [two_rows(alloc)?])?;
    let mut ends = ends_of(alloc, 1000)?;
    let status = relay_over(alloc, &words, &mut gates, &mut ends);
    Ok(left_at(status, untaken_of(&mut gates), &ends))
}

#[test]
fn relay_is_done_or_not_at_all(rt: HostRuntime) -> Result<(), Fail> {
    expect_either(&rt, relayed(rt.alloc())?, RELAYED, refused([3, 0, 0]));
    Ok(())
}

#[test]
fn relay_finds_memory(rt: HostRuntime) -> Result<(), Fail> {
    assert_eq!(rt; relayed(rt.alloc())?, RELAYED);
    Ok(())
}

const RECEIVED: Left = Left {
    file: 1,
    logs: 1,
    ..ALL_TAKEN
};

/// A gate without events, one with two generations and a fault, and one with the third and END.
fn three_gates(alloc: Global) -> Result<Vec<MemoryGate>, AllocError>
    ensures { IfOk result (λ gates. length gates.items ≡ 3) }
{
    let second = [three(alloc, 0, FIVE)?, three(alloc, 1, ZERO)?, Event::Fault];
    let third = [three(alloc, 2, ZERO)?, one(alloc, 1, 0)?];
    let second = MemoryGate::new(Vec::from_array(alloc, second)?);
    let third = MemoryGate::new(Vec::from_array(alloc, third)?);
    Ok(Vec::from_array(alloc, [MemoryGate::new(Vec::new(alloc)), second, third])?)
}

/// What `recv` fills.
#[derive(Drop)]
struct Filled {
    file: MemorySink,
    report: MemorySink,
    logs: Vec<Logs>,
}

fn unfilled(alloc: Global) -> Result<Filled, Alloc>
    ensures { IfOk result (λ filled. filled.logs.items ≡ []) }
{
    Ok(Filled {
        file: MemorySink::new(alloc, 100, 100, Vec::new(alloc))?,
        report: MemorySink::new(alloc, 3000, 3000, Vec::new(alloc))?,
        logs: Vec::new(alloc),
    })
}

fn recv_over<R: Threads + Sync>(
    rt: &R,
    alloc: Global,
    words: &[String],
    gates: &mut Vec<MemoryGate>,
    filled: &mut Filled,
) -> u8
    requires few { length gates.old.items ≤ MAX_GATES }
    requires no_logs { filled.old.logs.items ≡ [] }
{
    run_recv(
        rt,
        alloc,
        words,
        &mut filled.file,
        &mut filled.report,
        gates,
        &mut filled.logs,
    )
}

/// What a run with this status left of the gates, and filled.
fn left_of(status: u8, gates: &mut [MemoryGate], filled: &Filled) -> Left {
    Left {
        status,
        told_memory: told_memory(&filled.report),
        file: filled.file.bytes().len(),
        untaken: untaken_of(gates),
        logs: filled.logs.len(),
        ..ALL_TAKEN
    }
}

fn received<R: Threads + Sync>(rt: &R, alloc: Global) -> Result<Left, Alloc> {
    let words = texts(alloc, &["recv", ONE_BYTE, "127.0.0.1:9"])?;
    let mut gates = three_gates(alloc)?;
    let mut filled = unfilled(alloc)?;
    let status = recv_over(rt, alloc, &words, &mut gates, &mut filled);
    Ok(left_of(status, &mut gates, &filled))
}

#[test]
fn recv_is_done_or_not_at_all(rt: HostRuntime) -> Result<(), Fail> {
    expect_either(
        &rt,
        received(&rt, rt.alloc())?,
        RECEIVED,
        refused([0, 3, 2]),
    );
    Ok(())
}

#[test]
fn recv_finds_memory(rt: HostRuntime) -> Result<(), Fail> {
    assert_eq!(rt; received(&rt, rt.alloc())?, RECEIVED);
    Ok(())
}
