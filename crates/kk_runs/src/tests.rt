//! What the tests share: frames, captures, and the objects that a run is made over.
ghost use Rattle.std.specs.Prelude.{◌≡◌, ◌≤◌, [], IfOk, length};
ghost use Rattle.kk_workers.specs.declared.running.TheConstants.{MAX_GATES};

mod failing;
mod memory;
mod recv;
mod sockets;
mod unpack;

use kk_outside::{Alloc, Gate, MemoryGate, MemoryOutlet, MemorySink, MemorySource, Outlet, Source};
use kk_table::Logs;
use kk_top::run;
use kk_worked::texts;
use std::alloc::Global;
use std::process::Abort;
use std::thread::Threads;

/// The first 50 bytes of a capture: two frames, and half of the third.
fn front(bytes: &[u8]) -> &[u8] {
    if bytes.len() < 50 {
        bytes
    } else {
        &bytes[..50]
    }
}

/// What is under a run: the words, the bytes of the source and how many a read gives, how many bytes the sinks take at once and
/// in all, and the numbers of the calls that fail.
#[derive(Clone, Copy, Drop)]
struct Setting<'a> {
    words: &'a [&'a str],
    bytes: &'a [u8],
    read: usize,
    write: usize,
    file_room: usize,
    report_write: usize,
    report_room: usize,
    source_fails: &'a [u64],
    file_fails: &'a [u64],
    report_fails: &'a [u64],
}

/// A run over these bytes in which nothing fails.
fn unfailing<'a>(words: &'a [&'a str], bytes: &'a [u8]) -> Setting<'a> {
    Setting {
        words,
        bytes,
        read: 20,
        write: 100,
        file_room: 100,
        report_write: 100,
        report_room: 3000,
        source_fails: &[],
        file_fails: &[],
        report_fails: &[],
    }
}

/// What a run is made over, and what it leaves there.
#[derive(Drop)]
struct Objects {
    source: MemorySource,
    file: MemorySink,
    report: MemorySink,
    outlet: MemoryOutlet,
    logs: Vec<Logs>,
}

/// A source of these bytes, whose calls of these numbers fail.
fn source_of(
    alloc: Global,
    bytes: &[u8],
    read: usize,
    fails: &[u64],
) -> Result<MemorySource, Alloc> {
    let fails = fails.to_vec(alloc)?;
    Ok(MemorySource::new(bytes.to_vec(alloc)?, read.max(1), fails))
}

/// A sink that takes so many bytes at once, whose calls of these numbers fail.
fn sink_of(alloc: Global, room: usize, write: usize, fails: &[u64]) -> Result<MemorySink, Alloc> {
    MemorySink::new(alloc, room, write.max(1), fails.to_vec(alloc)?)
}

fn objects_of(alloc: Global, setting: &Setting) -> Result<Objects, Alloc>
    ensures { IfOk result (λ objects. objects.logs.items ≡ []) }
{
    Ok(Objects {
        source: source_of(alloc, setting.bytes, setting.read, setting.source_fails)?,
        file: sink_of(alloc, setting.file_room, setting.write, setting.file_fails)?,
        report: sink_of(
            alloc,
            setting.report_room,
            setting.report_write,
            setting.report_fails,
        )?,
        outlet: MemoryOutlet::new(alloc, 0, Vec::new(alloc))?,
        logs: Vec::new(alloc),
    })
}

/// Runs the program over these objects and gates, and answers the status.
fn run_over<R: Threads + Sync, G: Gate + Send>(
    rt: &R,
    alloc: Global,
    words: &[String],
    gates: &mut Vec<G>,
    objects: &mut Objects,
) -> u8
    requires few { length gates.old.items ≤ MAX_GATES }
    requires no_logs { objects.old.logs.items ≡ [] }
{
    run(
        rt,
        alloc,
        words,
        &mut objects.source,
        &mut objects.file,
        &mut objects.report,
        gates,
        &mut objects.outlet,
        &mut objects.logs,
    )
}

/// Runs the program with no gate, and answers the status.
fn run_without_gates<R: Threads + Sync, S: Source, O: Outlet>(
    rt: &R,
    alloc: Global,
    words: &[String],
    source: &mut S,
    file: &mut MemorySink,
    report: &mut MemorySink,
    outlet: &mut O,
) -> u8 {
    let mut gates: Vec<MemoryGate> = Vec::new(alloc);
    let mut logs = Vec::new(alloc);
    run(
        rt, alloc, words, source, file, report, &mut gates, outlet, &mut logs,
    )
}

/// The status of a run, and what it left.
#[derive(Drop)]
struct Outcome {
    status: u8,
    left: Objects,
}

/// Runs the program with these gates, and with an outlet that takes nothing.
fn outcome_over<R: Threads + Sync, G: Gate + Send>(
    rt: &R,
    alloc: Global,
    setting: &Setting,
    gates: &mut Vec<G>,
) -> Result<Outcome, Alloc>
    requires few { length gates.old.items ≤ MAX_GATES }
{
    let words = texts(alloc, setting.words)?;
    let mut left = objects_of(alloc, setting)?;
    let status = run_over(rt, alloc, &words, gates, &mut left);
    Ok(Outcome { status, left })
}

/// Runs the program with no gate.
fn outcome_of<R: Threads + Sync>(
    rt: &R,
    alloc: Global,
    setting: &Setting,
) -> Result<Outcome, Alloc> {
    let mut gates: Vec<MemoryGate> = Vec::new(alloc);
    outcome_over(rt, alloc, setting, &mut gates)
}

/// The status, the file and the report are these.
fn expect(rt: &impl Abort, outcome: &Outcome, status: u8, file: &[u8], report: &[u8]) {
    assert_eq!(rt; outcome.status, status);
    assert_eq!(rt; outcome.left.file.bytes(), file);
    assert_eq!(rt; outcome.left.report.bytes(), report);
}
