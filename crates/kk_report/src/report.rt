//! The report of a run.
ghost use Rattle.std.specs.Prelude.{◌≡◌, IsErr, ◌↔◌, ◌⊎◌, ◌≤◌, length};
ghost use Rattle.kk_outside.specs.Causes.{CanCount};
ghost use Rattle.kk_outside.specs.Change.{change};
ghost use Rattle.kk_outside.specs.Sink.{SinkFailed, WasGiven};
ghost use Rattle.kk_report.specs.Refusal.{status_of, refusal_text};
ghost use Rattle.kk_report.specs.Report.{concluded_text};
ghost use Rattle.kk_report.specs.Status.{code_of};

use crate::lines::{Lines, status_line};
use crate::refusal::Refusal;
use crate::status::Status;
use kk_outside::{Failed, Sink, write_all};

/// Writes the report of a refusal, and answers its status, whether or not the report can be written.
pub fn refuse<P: Sink>(refusal: Refusal, report: &mut P) -> u8
    ensures status { result ≡ status_of refusal }
    ensures given { WasGiven (refusal_text refusal) (change (P.told report.old) (P.told report.new)) }
{
    let _ = write_all(report, refusal.text().as_str().as_bytes());
    refusal.status()
}

/// Writes the report of a command that tells a few lines, each with its line feed, and answers the status of the run: a
/// report that can't be written turns 0 into 5. Where the file's sink failed, the report is the status alone.
pub fn conclude<P: Sink>(status: Status, lines: &str, report: &mut P) -> u8
    requires short { length lines.now ≤ 480 }
    ensures given { WasGiven (concluded_text (code_of status) lines.now) (change (P.told report.old) (P.told report.new)) }
    ensures same_or_five { (result ≡ code_of status) ⊎ ((code_of status ≡ 0) × (result ≡ 5)) }
    ensures five { CanCount (P.told report.old).faults → code_of status ≡ 0
        → ((result ≡ 5) ↔ SinkFailed (change (P.told report.old) (P.told report.new))) }
{
    let outcome = write_all(report, concluded(status, lines).as_str().as_bytes());
    status_after_report(status, outcome)
}

/// The lines, and the status; the status alone where the file's sink failed.
fn concluded(status: Status, lines: &str) -> Lines
    requires short { length lines.now ≤ 480 }
    ensures { result.bytes ≡ concluded_text (code_of status) lines.now }
{
    let mut text = Lines::new();
    if status != Status::OutputFault {
        text.push_str(lines);
    }
    text.push_str(status_line(status.code()).as_str());
    text
}

/// The number of the status, where the report came out so: a report that can't be written turns 0 into 5.
pub fn status_after_report(status: Status, outcome: Result<(), Failed>) -> u8
    ensures same_or_five { (result ≡ code_of status) ⊎ ((code_of status ≡ 0) × (result ≡ 5)) }
    ensures failed { code_of status ≡ 0 → ((result ≡ 5) ↔ IsErr outcome) }
{
    match outcome {
        Err(_) if status == Status::Done => Status::OutputFault.code(),
        _ => status.code(),
    }
}
