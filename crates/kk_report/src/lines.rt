//! The lines of a report.
ghost use Rattle.std.specs.Prelude.{◌≡◌, ◌+◌, ◌≤◌, ◌++◌, length, decimal};
ghost use Rattle.arrayvec.specs.ArrayString.{array_string_len};
ghost use Rattle.kk_report.specs.Report.{status_line, end_word, gate_line};

use arrayvec::ArrayString;
use itoa::Buffer;
use kk_frame::{Ended, GateCount};

/// A line of a name and a number or two. The longest has 56 bytes.
pub type Line = ArrayString<64>;

/// A line of many numbers. The longest has 318 bytes.
pub type LongLine = ArrayString<352>;

/// A few lines, and the status.
pub type Lines = ArrayString<512>;

/// A text as a line, without a line feed.
pub fn line_of(text: &str) -> Line
    requires { length text.now ≤ 48 }
    ensures text { result.bytes ≡ text.now }
    ensures short { array_string_len result ≤ 48 }
{
    let mut line = Line::new();
    line.push_str(text);
    line
}

/// A name and a number as a line, without a line feed.
pub fn numbered(name: &str, number: u64) -> Line
    requires { length name.now ≤ 28 }
    ensures text { result.bytes ≡ name.now ++ decimal number }
    ensures short { array_string_len result ≤ 48 }
{
    let mut digits = Buffer::new();
    let mut line = Line::new();
    line.push_str(name);
    line.push_str(digits.format(number));
    line
}

/// The last line of every report.
pub fn status_line(status: u8) -> Line
    ensures text { result.bytes ≡ status_line status }
    ensures short { array_string_len result ≤ 11 }
{
    let mut digits = Buffer::new();
    let mut line = Line::new();
    line.push_str("status ");
    line.push_str(digits.format(status));
    line.push_str("\n");
    line
}

/// The line of a gate: its number, why it has ended, and its counts.
pub fn gate_line(number: u64, counts: &GateCount) -> LongLine
    ensures { result.bytes ≡ gate_line number counts.now }
{
    let refused = &counts.refused;
    let mut line = LongLine::new();
    push_count(&mut line, "gate ", number);
    line.push_str(" ");
    line.push_str(end_word(counts.ended));
    push_count(&mut line, " datagrams ", counts.datagrams);
    push_count(&mut line, " frames ", counts.frames);
    push_count(&mut line, " badlength ", refused.badlength);
    push_count(&mut line, " magic ", refused.magic);
    push_count(&mut line, " version ", refused.version);
    push_count(&mut line, " kind ", refused.kind);
    push_count(&mut line, " session ", refused.session);
    push_count(&mut line, " generation ", refused.generation);
    push_count(&mut line, " row ", refused.row);
    push_count(&mut line, " endrow ", refused.endrow);
    line.push_str("\n");
    line
}

/// The word for why a gate has ended; none where it hasn't.
fn end_word(ended: Option<Ended>) -> &'static str
    ensures word { result.now ≡ end_word ended }
    ensures short { length result.now ≤ 5 }
{
    match ended {
        Some(Ended::End) => "end",
        Some(Ended::Idle) => "idle",
        Some(Ended::Most) => "most",
        Some(Ended::Fault) => "fault",
        Some(Ended::Over) => "over",
        None => "",
    }
}

/// Appends a name and a number.
pub fn push_count(line: &mut LongLine, name: &str, count: u64)
    requires { array_string_len line.old + length name.now + 20 ≤ 352 }
    ensures bytes { line.new.bytes ≡ line.old.bytes ++ name.now ++ decimal count }
    ensures len { array_string_len line.new ≤ array_string_len line.old + length name.now + 20 }
{
    let mut digits = Buffer::new();
    line.push_str(name);
    line.push_str(digits.format(count));
}
