//! The report of a receiver with several gates.
ghost use Rattle.std.specs.Prelude.{◌≡◌, ◌↔◌, ◌⊎◌, ◌≤◌};
ghost use Rattle.kk_machine.specs.declared.log.TheConstants.{MAX_WIDTH};
ghost use Rattle.kk_outside.specs.Causes.{HasCause, CanCount};
ghost use Rattle.kk_outside.specs.Change.{change};
ghost use Rattle.kk_outside.specs.Sink.{SinkFailed, WasGiven, WritesAllTo};
ghost use Rattle.kk_report.specs.Block.{Adds};
ghost use Rattle.kk_outcome.specs.Outcome.{gate_lines_from, generation_lines, received_lines};
ghost use Rattle.kk_run_recv.specs.Report.{logged_outcomes, receiver_report};
ghost use Rattle.kk_report.specs.Status.{code_of};

use kk_outcome::{count_line, generation_line, inserts_line};
use kk_outside::{Failed, Sink, write_all};
use kk_report::{Block, Status, gate_line, status_after_report, status_line};
use kk_workers::Received;

/// Writes the report of a receiver, and answers the status of the run: a report that can't be written turns 0 into 5.
pub(crate) fn report_gates<P: Sink>(status: Status, received: &Received, report: &mut P) -> u8
    requires { received.now.logs.shape.width ≤ MAX_WIDTH }
    ensures given { WasGiven (receiver_report (code_of status) received.now.gates (logged_outcomes received.now.logs.shape.generations received.now.logs.logs received.now.answers) received.now.totals)
        (change (P.told report.old) (P.told report.new)) }
    ensures same_or_five { (result ≡ code_of status) ⊎ ((code_of status ≡ 0) × (result ≡ 5)) }
    ensures five { CanCount (P.told report.old).faults → code_of status ≡ 0
        → ((result ≡ 5) ↔ SinkFailed (change (P.told report.old) (P.told report.new))) }
{
    let outcome = write_received(status, received, report);
    status_after_report(status, outcome)
}

/// Writes what became of the run, and its status: the status alone where the file's sink failed. After `Failed` nothing more
/// is written.
fn write_received<P: Sink>(
    status: Status,
    received: &Received,
    report: &mut P,
) -> Result<(), Failed>
    requires { received.now.logs.shape.width ≤ MAX_WIDTH }
    ensures writes { WritesAllTo (change (P.told report.old) (P.told report.new)) result
        (receiver_report (code_of status) received.now.gates (logged_outcomes received.now.logs.shape.generations received.now.logs.logs received.now.answers) received.now.totals) }
    ensures cause { HasCause (P.told report.old).faults (P.told report.new).faults result }
{
    let last = status_line(status.code());
    if status == Status::OutputFault {
        return write_all(report, last.as_str().as_bytes());
    }
    let mut block = Block::new();
    add_received(&mut block, report, received)?;
    block.push(report, last.as_str().as_bytes())?;
    block.flush(report)
}

/// Adds how many generations there are, the lines of the gates, those of the generations, and that of the inserts.
fn add_received<P: Sink>(
    block: &mut Block,
    report: &mut P,
    received: &Received,
) -> Result<(), Failed>
    requires { received.now.logs.shape.width ≤ MAX_WIDTH }
    ensures adds { Adds (P.told report.old) (P.told report.new) block.old block.new result
        (received_lines received.now.gates (logged_outcomes received.now.logs.shape.generations received.now.logs.logs received.now.answers) received.now.totals) }
    ensures cause { HasCause (P.told report.old).faults (P.told report.new).faults result }
{
    let count = count_line(received.generations() as usize);
    block.push(report, count.as_str().as_bytes())?;
    add_gates(block, report, received)?;
    add_logs(block, report, received)?;
    block.push(report, inserts_line(&received.totals()).as_str().as_bytes())
}

/// Adds a line for each gate, by its number, counted from 0.
fn add_gates<P: Sink>(block: &mut Block, report: &mut P, received: &Received) -> Result<(), Failed>
    ensures adds { Adds (P.told report.old) (P.told report.new) block.old block.new result (gate_lines_from 0 received.now.gates) }
    ensures cause { HasCause (P.told report.old).faults (P.told report.new).faults result }
{
    for i in 0..received.gates().len() {
        let line = gate_line(i as u64, &received.gate(i));
        block.push(report, line.as_str().as_bytes())?;
    }
    Ok(())
}

/// Adds a line for each generation: its number, counted from 0, the rank of its log, and whether it has an answer.
fn add_logs<P: Sink>(block: &mut Block, report: &mut P, received: &Received) -> Result<(), Failed>
    requires { received.now.logs.shape.width ≤ MAX_WIDTH }
    ensures adds { Adds (P.told report.old) (P.told report.new) block.old block.new result
        (generation_lines (logged_outcomes received.now.logs.shape.generations received.now.logs.logs received.now.answers)) }
    ensures cause { HasCause (P.told report.old).faults (P.told report.new).faults result }
{
    for generation in 0..received.generations() {
        let rank = received.log(generation).len() as u32;
        let decoded = received.answers()[generation as usize].is_some();
        let line = generation_line(generation as usize, rank, decoded);
        block.push(report, line.as_str().as_bytes())?;
    }
    Ok(())
}
