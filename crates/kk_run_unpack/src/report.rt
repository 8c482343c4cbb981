//! The report of a run.
ghost use Rattle.std.specs.Prelude.{◌≡◌, ◌↔◌, ◌⊎◌, ◌≤◌, length, sum_by};
ghost use Rattle.kk_rows.specs.Span.{dimension};
ghost use Rattle.kk_outside.specs.Causes.{HasCause, CanCount};
ghost use Rattle.kk_outside.specs.Change.{change};
ghost use Rattle.kk_outside.specs.Sink.{SinkFailed, WasGiven, WritesAllTo};
ghost use Rattle.kk_report.specs.Block.{Adds};
ghost use Rattle.kk_outcome.specs.Outcome.{generation_lines};
ghost use Rattle.kk_run_unpack.specs.Report.{outcomes, outcome_lines, outcome_report};
ghost use Rattle.kk_report.specs.Status.{code_of};

use crate::totals::unfrozen;
use kk_code::Message;
use kk_frame::GateCount;
use kk_outcome::{count_line, generation_line, inserts_line};
use kk_outside::{Failed, Sink, write_all};
use kk_report::{Block, Status, gate_line, status_after_report, status_line};
use kk_rows::RowSpace;

/// Writes the report of a receiver with one gate, and answers the status of the run: a report that can't be written turns
/// 0 into 5. `answers` has one for each space.
pub(crate) fn report_capture<P: Sink>(
    status: Status,
    counts: &GateCount,
    spaces: &[RowSpace],
    answers: &[Option<Message>],
    report: &mut P,
) -> u8
    requires one_each { length answers.now ≡ length spaces.now }
    requires innovative { sum_by (λ space. dimension space.rows) spaces.now ≤ counts.now.frames }
    ensures given { WasGiven (outcome_report (code_of status) counts.now spaces.now answers.now)
        (change (P.told report.old) (P.told report.new)) }
    ensures same_or_five { (result ≡ code_of status) ⊎ ((code_of status ≡ 0) × (result ≡ 5)) }
    ensures five { CanCount (P.told report.old).faults → code_of status ≡ 0
        → ((result ≡ 5) ↔ SinkFailed (change (P.told report.old) (P.told report.new))) }
{
    let outcome = write_report(status, counts, spaces, answers, report);
    status_after_report(status, outcome)
}

/// Writes what became of the run, and its status: the status alone where the file's sink failed. After `Failed` nothing more
/// is written.
fn write_report<P: Sink>(
    status: Status,
    counts: &GateCount,
    spaces: &[RowSpace],
    answers: &[Option<Message>],
    report: &mut P,
) -> Result<(), Failed>
    requires one_each { length answers.now ≡ length spaces.now }
    requires innovative { sum_by (λ space. dimension space.rows) spaces.now ≤ counts.now.frames }
    ensures writes { WritesAllTo (change (P.told report.old) (P.told report.new)) result
        (outcome_report (code_of status) counts.now spaces.now answers.now) }
    ensures cause { HasCause (P.told report.old).faults (P.told report.new).faults result }
{
    let last = status_line(status.code());
    if status == Status::OutputFault {
        return write_all(report, last.as_str().as_bytes());
    }
    let mut block = Block::new();
    add_outcome(&mut block, report, counts, spaces, answers)?;
    block.push(report, last.as_str().as_bytes())?;
    block.flush(report)
}

/// Adds how many generations there are, the line of the gate, those of the generations, and that of the inserts.
fn add_outcome<P: Sink>(
    block: &mut Block,
    report: &mut P,
    counts: &GateCount,
    spaces: &[RowSpace],
    answers: &[Option<Message>],
) -> Result<(), Failed>
    requires one_each { length answers.now ≡ length spaces.now }
    requires innovative { sum_by (λ space. dimension space.rows) spaces.now ≤ counts.now.frames }
    ensures adds { Adds (P.told report.old) (P.told report.new) block.old block.new result
        (outcome_lines counts.now spaces.now answers.now) }
    ensures cause { HasCause (P.told report.old).faults (P.told report.new).faults result }
{
    let totals = unfrozen(counts.frames, spaces);
    block.push(report, count_line(spaces.len()).as_str().as_bytes())?;
    block.push(report, gate_line(0, counts).as_str().as_bytes())?;
    add_generations(block, report, spaces, answers)?;
    block.push(report, inserts_line(&totals).as_str().as_bytes())
}

/// Adds a line for each generation: its number, counted from 0, the rank of its space, and whether it has an answer.
fn add_generations<P: Sink>(
    block: &mut Block,
    report: &mut P,
    spaces: &[RowSpace],
    answers: &[Option<Message>],
) -> Result<(), Failed>
    ensures adds { Adds (P.told report.old) (P.told report.new) block.old block.new result
        (generation_lines (outcomes spaces.now answers.now)) }
    ensures cause { HasCause (P.told report.old).faults (P.told report.new).faults result }
{
    for (number, (space, answer)) in spaces.iter().zip(answers).enumerate() {
        let line = generation_line(number, space.rank(), answer.is_some());
        block.push(report, line.as_str().as_bytes())?;
    }
    Ok(())
}
