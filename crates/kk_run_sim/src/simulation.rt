//! What became of the file of a trial, and the summary that tells it.
ghost use Rattle.std.specs.Prelude.{◌≡◌, ◌≤◌, All, IfSome, is_some, length};
ghost use Rattle.std.specs.List.{count_by};
ghost use Rattle.arrayvec.specs.ArrayString.{array_string_len};
ghost use Rattle.kk_code.specs.Codeword.{IsMessage};
ghost use Rattle.kk_code.specs.Ticket.{generations};
ghost use Rattle.kk_outcome.specs.Answers.{file_of};
ghost use Rattle.kk_run_sim.specs.Simulation.{fate_of, fate_word, summary, status_of_fate};
ghost use Rattle.kk_report.specs.Status.{code_of};

use kk_assemble::join;
use kk_code::{Message, Ticket};
use kk_outcome::{count_line, inserts_line};
use kk_report::{Lines, Status, numbered};
use kk_workers::Totals;

/// What became of the file that was made.
#[derive(Clone, Copy, Debug, PartialEq, Eq)]
pub(crate) enum Fate {
    /// Some generation has no answer.
    Missing,
    /// The answers make another file.
    Different,
    /// The answers make that file.
    Equal,
}

impl Fate {
    /// How the summary tells it.
    fn word(self) -> &'static str
        ensures word { result.now ≡ fate_word self }
        ensures short { length result.now ≤ 9 }
    {
        match self {
            Fate::Missing => "none",
            Fate::Different => "different",
            Fate::Equal => "equal",
        }
    }

    /// The status of a run in which it became that.
    pub(crate) fn status(self) -> Status
        ensures { code_of result ≡ status_of_fate self }
    {
        match self {
            Fate::Missing => Status::NotDecoded,
            Fate::Different | Fate::Equal => Status::Done,
        }
    }
}

/// How many generations have an answer.
pub(crate) fn decoded(answers: &[Option<Message>]) -> usize
    ensures { result ≡ count_by is_some answers.now }
{
    answers.iter().filter(|answer| answer.is_some()).count()
}

/// Puts the file together in `bytes`, where each generation has an answer, and tells what became of the one that was made.
pub(crate) fn fate_of(
    answers: &[Option<Message>],
    ticket: &Ticket,
    bytes: &mut [u8],
    made: &[u8],
) -> Fate
    requires one_each { length answers.now ≡ generations ticket.now }
    requires messages { All (λ a. IfSome a (IsMessage ticket.now.code)) answers.now }
    requires room { length bytes.old ≡ ticket.now.length }
    ensures { result ≡ fate_of (file_of ticket.now answers.now) made.now }
{
    if !join(answers, ticket, bytes) {
        return Fate::Missing;
    }
    if &*bytes == made {
        Fate::Equal
    } else {
        Fate::Different
    }
}

/// The lines of the summary, without the status.
pub(crate) fn summary_lines(generations: u32, decoded: usize, totals: &Totals, fate: Fate) -> Lines
    ensures text { result.bytes ≡ summary generations decoded totals.now fate }
    ensures short { array_string_len result ≤ 480 }
{
    let mut lines = Lines::new();
    lines.push_str(count_line(generations as usize).as_str());
    lines.push_str(numbered("decoded ", decoded as u64).as_str());
    lines.push_str("\n");
    lines.push_str(inserts_line(totals).as_str());
    lines.push_str("file ");
    lines.push_str(fate.word());
    lines.push_str("\n");
    lines
}
