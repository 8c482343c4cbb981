//! A file on its way through the channel.
ghost use Rattle.std.specs.Prelude.{◌≡◌, ◌<◌, ◌≤◌, ◌++◌, length, map, IfOk, OnOk};
ghost use Rattle.rand_core.specs.Stream.{Stream};
ghost use Rattle.kk_rows.specs.Rows.{numbers};
ghost use Rattle.kk_outside.specs.Generator.{after_words, word_at};
ghost use Rattle.kk_code.specs.Ticket.{generations};
ghost use Rattle.kk_frame.specs.FrameView.{pairs};
ghost use Rattle.kk_trial.specs.Trial.{file_words, made_file, words_before, trial_frames};

use crate::OperatorChannel;
use kk_assemble::cut;
use kk_channel::pass_through;
use kk_code::{Encoder, Ticket};
use kk_outside::Alloc;
use kk_rows::Row;
use rand_core::Rng;
use std::alloc::Global;

/// The generations and rows that come out of the channel for a file that the generator has made: one generation after the other,
/// by the words that come next.
pub(crate) fn pass_file<R: Rng>(
    alloc: Global,
    ticket: &Ticket,
    file: &[u8],
    channel: OperatorChannel,
    rng: &mut R,
) -> Result<Vec<(u32, Row)>, Alloc>
    requires whole { length file.now ≡ ticket.now.length }
    requires erase { channel.erase ≤ ticket.now.code.l }
    requires inject { channel.inject ≤ ticket.now.code.field.degree }
    ensures frames { (start : Stream) → R.stream rng.old ≡ after_words (file_words ticket.now.length) start
        → file.now ≡ made_file ticket.now.length (word_at start)
        → IfOk result (λ frames. pairs frames.items ≡ trial_frames ticket.now channel (word_at start)) }
    ensures words { (start : Stream) → R.stream rng.old ≡ after_words (file_words ticket.now.length) start
        → OnOk result (R.stream rng.new ≡ after_words (words_before ticket.now channel (generations ticket.now)) start) }
{
    let code = ticket.code();
    let encoder = Encoder::new(alloc, &code)?;
    let mut frames = Vec::new(alloc);
    for generation in 0..ticket.generations() {
        let message = cut(file, ticket, generation);
        let codeword = encoder.encode(&message);
        let passed = pass_through(&code, &codeword, channel.erase, channel.inject, rng);
        push_rows(&mut frames, generation, passed.as_slice())?;
    }
    Ok(frames)
}

/// Appends the rows of a generation.
fn push_rows(frames: &mut Vec<(u32, Row)>, generation: u32, rows: &[Row]) -> Result<(), Alloc>
    ensures { OnOk result (pairs frames.new.items ≡ pairs frames.old.items ++ map (λ r. (generation, r)) (numbers rows.now)) }
{
    for row in rows {
        frames.push((generation, *row))?;
    }
    Ok(())
}
