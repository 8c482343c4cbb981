//! The generations of an unpacking: their row spaces, and their answers.
ghost use Rattle.std.specs.Prelude.{◌≡◌, ◌<◌, ◌≤◌, ℕ, List, [], length, map, IfOk, IfSome, OnErr, All};
ghost use Rattle.kk_outside.specs.Causes.{HasCause};
ghost use Rattle.kk_outside.specs.Change.{change};
ghost use Rattle.kk_code.specs.Codeword.{IsMessage, width};
ghost use Rattle.kk_code.specs.Decoding.{answer};
ghost use Rattle.kk_code.specs.Ticket.{generations};
ghost use Rattle.kk_outcome.specs.Answers.{answers};
ghost use Rattle.kk_run_unpack.specs.Unpack.{FailsBeforeStop};
ghost use Rattle.kk_run_unpack.specs.Spaces.{AreReceived, AreSpanned};

use crate::receive::take_frames;
use kk_code::{Code, Message, Ticket};
use kk_decode::Scratch;
use kk_frame::GateCount;
use kk_outside::{Alloc, Failed, Source};
use kk_rows::RowSpace;
use kk_workers::decode_uncounted;
use std::alloc::Global;
use std::boxed::BoxedSlice;
use std::marker::Model;

/// A row space for each generation, and its answer, once it is decoded. Nothing of it can grow, and it lends no allocator.
#[derive(Drop)]
pub(crate) struct Generations {
    spaces: BoxedSlice<RowSpace>,
    answers: BoxedSlice<Option<Message>>,
}

// Clauses see spaces and answers.
impl Model for Generations {
    ghost use Rattle.std.specs.Prelude.{◌≡◌, length};
    ghost use Rattle.std.specs.Box.{boxed_slice_items};
    ghost use Rattle.kk_run_unpack.specs.Spaces.{GenerationsView};

    ghost Value = { GenerationsView };

    ghost view = { λ g. record { spaces = boxed_slice_items g.spaces; answers = boxed_slice_items g.answers } };

    ghost invariant = { λ g. length (boxed_slice_items g.answers) ≡ length (boxed_slice_items g.spaces) };
}

impl Generations {
    /// The generations of a ticket, with no row and no answer. All their memory is taken here.
    pub(crate) fn new(alloc: Global, ticket: &Ticket) -> Result<Generations, Alloc>
        ensures { IfOk result (λ generations. AreSpanned ticket.now generations.spaces []) }
    {
        let count = ticket.generations() as usize;
        let width = ticket.code().width();
        let mut spaces = Vec::with_capacity(alloc, count)?;
        let mut answers = Vec::with_capacity(alloc, count)?;
        for _ in 0..count {
            spaces.push_reserved(RowSpace::new(width));
            answers.push_reserved(None);
        }
        Ok(Generations {
            spaces: spaces.into_boxed_slice(),
            answers: answers.into_boxed_slice(),
        })
    }

    /// The row spaces.
    pub(crate) fn spaces(&self) -> &[RowSpace]
        ensures { result.now ≡ self.now.spaces }
    {
        &self.spaces
    }

    /// The answers, one for each space.
    pub(crate) fn answers(&self) -> &[Option<Message>]
        ensures answers { result.now ≡ self.now.answers }
        ensures one_each { length result.now ≡ length self.now.spaces }
    {
        &self.answers
    }

    /// Takes the frames of a source up to END, to piece number `most` or to its end, and answers what it counted.
    pub(crate) fn receive<S: Source>(
        &mut self,
        ticket: &Ticket,
        most: u32,
        source: &mut S,
    ) -> Result<GateCount, Failed>
        requires most { 1 ≤ most }
        requires spaces { AreSpanned ticket.now self.old.spaces [] }
        ensures received { IfOk result (λ counted. AreReceived ticket.now most (change (S.told source.old) (S.told source.new)) counted self.new.spaces) }
        ensures failed { OnErr result (FailsBeforeStop ticket.now most (change (S.told source.old) (S.told source.new))) }
        ensures cause { HasCause (S.told source.old).faults (S.told source.new).faults result }
    {
        take_frames(source, ticket, most, &mut self.spaces)
    }

    /// Decodes each generation.
    pub(crate) fn decode(&mut self, ticket: &Ticket)
        requires { (vectors : List (ℕ × ℕ)) × AreSpanned ticket.now self.old.spaces vectors }
        ensures answers { (vectors : List (ℕ × ℕ)) → AreSpanned ticket.now self.old.spaces vectors → self.new.answers ≡ answers ticket.now vectors }
        ensures messages { All (λ a. IfSome a (IsMessage ticket.now.code)) self.new.answers }
        ensures spaces { self.new.spaces ≡ self.old.spaces }
    {
        answer_each(&ticket.code(), &self.spaces, &mut self.answers);
    }
}

/// Gives each space its answer, with one storage for all.
fn answer_each(code: &Code, spaces: &[RowSpace], answers: &mut [Option<Message>])
    requires wide { All (λ space. space.width ≡ width code.now) spaces.now }
    requires one_each { length answers.old ≡ length spaces.now }
    ensures answers { answers.new ≡ map (λ space. answer code.now space.rows) spaces.now }
    ensures messages { All (λ a. IfSome a (IsMessage code.now)) answers.new }
{
    let mut scratch = Scratch::new();
    for (number, space) in spaces.iter().enumerate() {
        answers[number] = decode_uncounted(code, space, &mut scratch);
    }
}
