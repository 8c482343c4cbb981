//! The lines that tell what was received.
ghost use Rattle.std.specs.Prelude.{◌≡◌};
ghost use Rattle.kk_outcome.specs.Outcome.{count_line, generation_line, inserts_line};

use itoa::Buffer;
use kk_report::{Line, LongLine, push_count};
use kk_workers::Totals;

/// The line that tells how many generations there are.
pub fn count_line(count: usize) -> Line
    ensures { result.bytes ≡ count_line count }
{
    let mut digits = Buffer::new();
    let mut line = Line::new();
    line.push_str("generations ");
    line.push_str(digits.format(count));
    line.push_str("\n");
    line
}

/// The line of a generation.
pub fn generation_line(number: usize, rank: u32, decoded: bool) -> Line
    ensures { result.bytes ≡ generation_line number rank decoded }
{
    let mut digits = Buffer::new();
    let mut line = Line::new();
    line.push_str("generation ");
    line.push_str(digits.format(number));
    line.push_str(" rank ");
    line.push_str(digits.format(rank));
    line.push_str(if decoded { " decoded\n" } else { " none\n" });
    line
}

/// The line that tells how the inserts were answered.
pub fn inserts_line(totals: &Totals) -> LongLine
    ensures { result.bytes ≡ inserts_line totals.now }
{
    let mut line = LongLine::new();
    push_count(&mut line, "inserts ", totals.inserts);
    push_count(&mut line, " innovative ", totals.innovative);
    push_count(&mut line, " redundant ", totals.redundant);
    push_count(&mut line, " late ", totals.late);
    line.push_str("\n");
    line
}
