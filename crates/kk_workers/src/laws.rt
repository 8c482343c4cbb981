//! The laws of a goal. Each function's contract is the law.
ghost use Rattle.kk_workers.specs.Laws.{FrozenRowsDecode, AnswersAreTheMessages};

/// Rows that are frozen at the goal k + 2·t decode to the message that was sent, and so do all rows that came, where at most
/// t dimensions were injected into these and they have k + 2·t dimensions or lie within distance l - k of the codeword.
pub fn frozen_rows_decode()
    ensures { FrozenRowsDecode }
{}

/// A receiver with the goal k + 2·t answers the messages that were sent, as one without a goal does, where such rows came
/// to each generation.
pub fn answers_are_the_messages()
    ensures { AnswersAreTheMessages }
{}
