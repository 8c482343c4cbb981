//! The moves of the world.
use super::Call;
use kk_rows::Row;

/// One atomic step. A look, a put and a shut are on the first word of the generation that their actor hasn't seen.
#[derive(Clone, Copy, Debug, PartialEq, Eq)]
pub enum Move {
    /// Loads the word, for a call.
    Look {
        /// Who looks.
        actor: u32,
        /// The call that the word may decide.
        call: Call,
    },
    /// Exchanges the word for the row if it is 0: the insert of the row.
    Put {
        /// Who puts.
        actor: u32,
        /// The generation that the row is of.
        generation: u32,
        /// The row.
        row: Row,
    },
    /// Exchanges the word for [`crate::CLOSED`] if it is 0: the freeze of the generation.
    Shut {
        /// Who shuts.
        actor: u32,
        /// The generation that is closed.
        generation: u32,
    },
    /// The founder makes an actor, who has seen nothing.
    Split,
    /// The founder takes an actor back.
    Join {
        /// Whom.
        actor: u32,
    },
}
