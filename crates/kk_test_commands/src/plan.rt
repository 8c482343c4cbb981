//! `plan` over sources and sinks in memory.
use kk_outside::{Alloc, MemorySink, MemorySource, Source};
use kk_run_plan::{Planning, run_plan};
use kk_worked::texts;
use std::alloc::Global;
use std::process::Abort;
use std::test::Fail;

/// The words for GF(8) with the modulus X^3 + X + 1, and for GF(4), whose messages carry the least.
const SMALL: &[&str] = &["plan", "00000001", "3", "0000000000000003", "3", "1"];

const LEAST: &[&str] = &["plan", "00000001", "2", "0000000000000003", "1", "1"];

/// Words with a colon in one of them, and with one too few.
const COLON: &[&str] = &["plan", "00000001", "3:0", "0000000000000003", "3", "1"];

const TOO_FEW: &[&str] = &["plan", "00000001", "3", "0000000000000003", "3"];

/// The status of a plan, its source, and its two sinks.
#[derive(Drop)]
struct Outcome {
    status: u8,
    source: MemorySource,
    file: MemorySink,
    report: MemorySink,
}

/// A source of so many bytes, whose calls of these numbers fail.
fn source_of(alloc: Global, len: usize, fails: &[u64]) -> Result<MemorySource, Alloc> {
    let mut bytes = Vec::new(alloc);
    bytes.resize(len, 0)?;
    Ok(MemorySource::new(bytes, 4096, fails.to_vec(alloc)?))
}

/// A plan over so many bytes.
fn plan(alloc: Global, words: &[&str], len: usize, fails: &[u64]) -> Result<Outcome, Alloc> {
    let words = texts(alloc, words)?;
    let mut source = source_of(alloc, len, fails)?;
    let mut file = MemorySink::new(alloc, 100, 100, Vec::new(alloc))?;
    let mut report = MemorySink::new(alloc, 100, 100, Vec::new(alloc))?;
    let status = run_plan(alloc, &words, &mut source, &mut file, &mut report);
    Ok(Outcome {
        status,
        source,
        file,
        report,
    })
}

/// The status, the text of the ticket and the report are these.
fn expect(rt: &impl Abort, outcome: &Outcome, status: u8, ticket: &str, report: &str) {
    assert_eq!(rt; outcome.status, status);
    assert_eq!(rt; outcome.file.bytes(), ticket.as_bytes());
    assert_eq!(rt; outcome.report.bytes(), report.as_bytes());
}

const TICKET: &str = "kk1:00000001:3:0000000000000003:3:1:1\n";

#[test]
fn one_byte_has_the_ticket_of_its_length(rt: HostRuntime) -> Result<(), Fail> {
    let outcome = plan(rt.alloc(), SMALL, 1, &[])?;
    expect(&rt, &outcome, 0, TICKET, "status 0\n");
    Ok(())
}

/// The opening has no source yet, and the run has no allocator.
#[test]
fn an_opening_and_its_run(rt: HostRuntime) -> Result<(), Fail> {
    let alloc = rt.alloc();
    let words = texts(alloc, SMALL)?;
    let mut source = source_of(alloc, 1, &[])?;
    let mut file = MemorySink::new(alloc, 100, 100, Vec::new(alloc))?;
    let mut report = MemorySink::new(alloc, 100, 100, Vec::new(alloc))?;
    let status = match Planning::open(alloc, &words) {
        Ok(planning) => Some(planning.run(&mut source, &mut file, &mut report)),
        Err(_) => None,
    };
    assert_eq!(rt; status, Some(0));
    assert_eq!(rt; file.bytes(), TICKET.as_bytes());
    Ok(())
}

#[test]
fn as_many_bytes_as_there_are_generations_for(rt: HostRuntime) -> Result<(), Fail> {
    let outcome = plan(rt.alloc(), LEAST, 4096, &[])?;
    assert_eq!(rt; outcome.status, 0);
    Ok(())
}

const TOO_MANY: &str = "ticket too many generations 16388\nstatus 2\n";

/// Three bytes are left of 4,100.
#[test]
fn the_byte_that_makes_too_many_generations_is_the_last_read(rt: HostRuntime) -> Result<(), Fail> {
    let mut outcome = plan(rt.alloc(), LEAST, 4100, &[])?;
    expect(&rt, &outcome, 2, "", TOO_MANY);
    let mut buf = [0; 8];
    assert_eq!(rt; outcome.source.read(&mut buf), Ok(3));
    assert_eq!(rt; outcome.source.read(&mut buf), Ok(0));
    Ok(())
}

#[test]
fn a_plan_is_refused(rt: HostRuntime) -> Result<(), Fail> {
    let outcome = plan(rt.alloc(), COLON, 1, &[])?;
    expect(&rt, &outcome, 2, "", "ticket shape 3\nstatus 2\n");
    let outcome = plan(rt.alloc(), TOO_FEW, 1, &[])?;
    expect(&rt, &outcome, 1, "", "words\nstatus 1\n");
    let outcome = plan(rt.alloc(), SMALL, 1, &[0])?;
    expect(&rt, &outcome, 4, "", "input fault\nstatus 4\n");
    Ok(())
}
