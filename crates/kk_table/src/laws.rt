//! The laws of a table's steps. Each function's contract is the law.
ghost use Rattle.kk_table.specs.Moves.{BeginsAsWorld, StepsAreMoves, GiftsAreMoves, ReturnsAreMoves};

/// The words and the seats of a new table are the words and the actors of a new [`kk_machine::World`].
pub fn tables_begin_as_worlds()
    ensures { BeginsAsWorld }
{}

/// A load or an exchange of a pass is a move of its actor that is allowed: a look, a put, or a shut. It decides the same
/// call by the same reply, and leaves the same words, and what was seen is the same.
pub fn steps_are_moves()
    ensures { StepsAreMoves }
{}

/// Where the founder gives a pass, it makes an actor: a split.
pub fn gifts_are_moves()
    ensures { GiftsAreMoves }
{}

/// Where the founder takes a pass back, it takes its actor back: a join.
pub fn returns_are_moves()
    ensures { ReturnsAreMoves }
{}
