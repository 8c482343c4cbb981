//! The calls on the shared spaces, and their replies.
ghost use Rattle.std.specs.Prelude.{◌≡◌, ◌≤◌, ◌↔◌, IsTrue};
ghost use Rattle.kk_machine.specs.declared.log.TheConstants.{MAX_WIDTH};

use super::CLOSED;
use kk_rows::Row;

/// A call on the space of one generation.
#[derive(Clone, Copy, Debug, PartialEq, Eq)]
pub enum Call {
    /// Adds the row where it is outside the span.
    Insert {
        /// The generation that the row is of.
        generation: u32,
        /// The row.
        row: Row,
    },
    /// Closes the log: no row is added from then on.
    Freeze {
        /// The generation that is closed.
        generation: u32,
    },
    /// Asks how many rows there are.
    Peek {
        /// The generation that is asked about.
        generation: u32,
    },
}

/// The reply to a call.
#[derive(Clone, Copy, Debug, PartialEq, Eq)]
pub enum Reply {
    /// The row was outside the span, and is now the last of the log.
    Innovative {
        /// How many rows there are now.
        rank: u32,
    },
    /// The row is in the span.
    Redundant,
    /// The log was closed before the row came.
    Late,
    /// The log was open, and is now closed.
    Frozen {
        /// How many rows there are.
        rank: u32,
    },
    /// The log was closed before.
    Already,
    /// What a peek is told.
    Rank {
        /// How many rows there are.
        rank: u32,
    },
}

/// A call in a history: who made it, and its reply.
#[derive(Clone, Copy, Debug, PartialEq, Eq)]
pub struct Entry {
    /// The number of the caller.
    pub number: u32,
    /// The call.
    pub call: Call,
    /// Its reply.
    pub reply: Reply,
}

impl Call {
    ghost use Rattle.kk_machine.specs.Spaces.{generation_of, IsInWidth};
    ghost use Rattle.kk_machine.specs.Steps.{new_word, exchanged, stored};

    /// The generation that the call is about.
    pub fn generation(&self) -> u32
        ensures { result ≡ generation_of self.now }
    {
        match *self {
            Call::Insert { generation, .. }
            | Call::Freeze { generation }
            | Call::Peek { generation } => generation,
        }
    }

    /// Whether the row of the call is below 2^width, where the width is at most [`MAX_WIDTH`]. A freeze and a peek have no row.
    pub fn fits(&self, width: u32) -> bool
        requires { width ≤ MAX_WIDTH }
        ensures { IsTrue result ↔ IsInWidth width self.now }
    {
        match *self {
            Call::Insert { row, .. } => row.0 < 1 << width,
            Call::Freeze { .. } | Call::Peek { .. } => true,
        }
    }

    /// The word that the call changes a 0 to: the row, or [`CLOSED`]. A peek changes nothing, and has 0.
    pub fn word(&self) -> u128
        ensures { result ≡ new_word self.now }
    {
        match *self {
            Call::Insert { row, .. } => row.0,
            Call::Freeze { .. } => CLOSED,
            Call::Peek { .. } => 0,
        }
    }

    /// The word that a step for the call leaves where it found `found`: an exchange from 0 to the word of the call where
    /// `changing`, and else a load.
    pub fn leaves(&self, changing: bool, found: u128) -> u128
        ensures { result ≡ exchanged found (stored changing self.now) }
    {
        if changing && found == 0 {
            self.word()
        } else {
            found
        }
    }
}
