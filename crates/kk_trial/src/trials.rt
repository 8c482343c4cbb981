//! A trial of a receiver.
ghost use Rattle.std.specs.Prelude.{◌≡◌, ◌≤◌, IfOk, OnOk};
ghost use Rattle.kk_outside.specs.Generator.{after_words, word_at};
ghost use Rattle.kk_code.specs.Ticket.{generations};
ghost use Rattle.kk_trial.specs.Trial.{made_file, words_before, trial_gates};

use crate::OperatorChannel;
use crate::dealing::deal;
use crate::making::make_file;
use crate::passing::pass_file;
use kk_code::Ticket;
use kk_outside::{Alloc, MemoryGate};
use rand_core::Rng;
use std::alloc::Global;

/// A file, and the gates that give the frames of its generations after the channel.
#[derive(Drop)]
pub struct Trial {
    /// What a receiver should make of the frames.
    pub file: Vec<u8>,
    /// The gates, which nobody has asked yet.
    pub gates: Vec<MemoryGate>,
}

/// Makes a file of the ticket's length by the words of the generator, passes the codewords of its generations through an operator
/// channel, and deals the frames over so many gates.
///
/// Frame number i, counted over all generations, is one datagram of gate i modulo `gates`. No gate gives an END.
///
/// # Errors
///
/// There is no memory.
pub fn make_trial<R: Rng>(
    alloc: Global,
    ticket: &Ticket,
    channel: OperatorChannel,
    gates: u32,
    rng: &mut R,
) -> Result<Trial, Alloc>
    requires erase { channel.erase ≤ ticket.now.code.l }
    requires inject { channel.inject ≤ ticket.now.code.field.degree }
    requires some { 1 ≤ gates }
    ensures file { IfOk result (λ trial. trial.file.items ≡ made_file ticket.now.length (word_at (R.stream rng.old))) }
    ensures gates { IfOk result (λ trial. trial.gates.items ≡ trial_gates ticket.now channel gates (word_at (R.stream rng.old))) }
    ensures words { OnOk result (R.stream rng.new ≡ after_words (words_before ticket.now channel (generations ticket.now)) (R.stream rng.old)) }
{
    let file = make_file(alloc, ticket.length() as usize, rng)?;
    let frames = pass_file(alloc, ticket, &file, channel, rng)?;
    let gates = deal(alloc, ticket, &frames, gates)?;
    Ok(Trial { file, gates })
}
