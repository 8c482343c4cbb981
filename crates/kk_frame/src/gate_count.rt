//! What is told of a gate: why it has ended, and how many datagrams and frames it gave.
ghost use Rattle.std.specs.Prelude.{◌≡◌, ◌+◌, ◌^◌, ◌≤◌, Some, length};
ghost use Rattle.kk_frame.specs.Counting.{one_more, sum_of, IsAtMost};
ghost use Rattle.kk_frame.specs.Events.{ended_by_fault};

use crate::FrameFault;

/// Why a gate has ended.
#[derive(Clone, Copy, Debug, PartialEq, Eq)]
pub enum Ended {
    /// An END frame was read.
    End,
    /// There were [`crate::Limits::idle`] quiets in a row.
    Idle,
    /// There were [`crate::Limits::most`] datagrams, and no END was read of the last one.
    Most,
    /// The gate failed.
    Fault,
    /// There are no more events.
    Over,
}

impl Ended {
    /// Whether the gate failed.
    pub fn is_fault(self) -> bool
        ensures { result ≡ ended_by_fault (Some self) }
    {
        matches!(self, Ended::Fault)
    }
}

/// How many datagrams have a wrong length, and how many pieces of the others are no frames of the ticket, by the rule
/// that they break first.
#[derive(Clone, Copy, Debug, PartialEq, Eq)]
pub struct Refused {
    /// Datagrams that aren't 1 to 32 whole pieces.
    pub badlength: u64,
    /// Pieces that don't begin with `KK`.
    pub magic: u64,
    /// Pieces of another version.
    pub version: u64,
    /// Pieces that are neither data nor END.
    pub kind: u64,
    /// Frames of another session.
    pub session: u64,
    /// Data frames of a generation that the file doesn't have.
    pub generation: u64,
    /// Data frames whose row is too large.
    pub row: u64,
    /// END frames with a 1 after the session.
    pub endrow: u64,
}

impl Refused {
    /// Nothing was refused.
    pub(crate) const NONE: Refused = Refused {
        badlength: 0,
        magic: 0,
        version: 0,
        kind: 0,
        session: 0,
        generation: 0,
        row: 0,
        endrow: 0,
    };

    /// Counts one piece more.
    pub(crate) fn count(&mut self, fault: FrameFault)
        requires { IsAtMost (2 ^ 40) self.old }
        ensures { self.new ≡ one_more fault self.old }
    {
        match fault {
            FrameFault::Magic => self.magic += 1,
            FrameFault::Version => self.version += 1,
            FrameFault::Kind => self.kind += 1,
            FrameFault::Session => self.session += 1,
            FrameFault::Generation => self.generation += 1,
            FrameFault::Row => self.row += 1,
            FrameFault::EndRow => self.endrow += 1,
        }
    }

    /// Counts what was refused of one datagram more.
    pub(crate) fn add(&mut self, more: &Refused)
        requires counts { IsAtMost (2 ^ 40) self.old }
        requires more { IsAtMost (2 ^ 40) more.now }
        ensures { self.new ≡ sum_of self.old more.now }
    {
        self.badlength += more.badlength;
        self.magic += more.magic;
        self.version += more.version;
        self.kind += more.kind;
        self.session += more.session;
        self.generation += more.generation;
        self.row += more.row;
        self.endrow += more.endrow;
    }
}

/// The counts of a gate. Every datagram counts, also one of a wrong length and one with the END; nothing after the END
/// is counted.
#[derive(Clone, Copy, Debug, PartialEq, Eq)]
pub struct GateCount {
    /// Why the gate has ended; `None` where it has not.
    pub ended: Option<Ended>,
    /// All datagrams.
    pub datagrams: u64,
    /// The data frames that were taken.
    pub frames: u64,
    /// What was refused.
    pub refused: Refused,
}

impl GateCount {
    /// The counts of a gate that was not asked.
    pub const NONE: GateCount = GateCount {
        ended: None,
        datagrams: 0,
        frames: 0,
        refused: Refused::NONE,
    };
}
