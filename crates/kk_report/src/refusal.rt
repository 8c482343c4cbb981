//! Why a run is refused after its words.
ghost use Rattle.std.specs.Prelude.{◌≡◌, ◌≤◌};
ghost use Rattle.arrayvec.specs.ArrayString.{array_string_len};
ghost use Rattle.kk_report.specs.Refusal.{status_of, cause, length_cause, refusal_text};

use crate::lines::{Line, line_of, numbered, status_line};

/// Why a run is refused whose words give an order. Its report has a line with the cause, and the status.
#[derive(Clone, Copy, Debug, PartialEq, Eq)]
pub enum Refusal {
    /// The source failed, or the gate of a relay.
    Input,
    /// The source doesn't have as many bytes as the file.
    Length {
        /// How many bytes it gave.
        got: u64,
        /// Whether these are more than the file has.
        more: bool,
    },
    /// The outlet failed.
    Outlet,
    /// There is no memory.
    Memory,
}

impl Refusal {
    /// The number that the process ends with.
    pub fn status(self) -> u8
        ensures { result ≡ status_of self }
    {
        match self {
            Refusal::Input => 4,
            Refusal::Length { .. } => 9,
            Refusal::Outlet => 7,
            Refusal::Memory => 8,
        }
    }

    /// The report.
    pub fn text(self) -> Line
        ensures { result.bytes ≡ refusal_text self }
    {
        let mut text = self.cause();
        text.push_str("\n");
        text.push_str(status_line(self.status()).as_str());
        text
    }

    /// The cause, without a line feed.
    fn cause(self) -> Line
        ensures text { result.bytes ≡ cause self }
        ensures short { array_string_len result ≤ 48 }
    {
        match self {
            Refusal::Input => line_of("input fault"),
            Refusal::Length { got, more } => length_cause(got, more),
            Refusal::Outlet => line_of("outlet fault"),
            Refusal::Memory => line_of("memory"),
        }
    }
}

/// How many bytes a source gave that doesn't have as many as the file, without a line feed.
fn length_cause(got: u64, more: bool) -> Line
    ensures text { result.bytes ≡ length_cause got more }
    ensures short { array_string_len result ≤ 48 }
{
    if more {
        line_of("length more")
    } else {
        numbered("length ", got)
    }
}
