//! A pass at work: it inserts, and with a goal it freezes and decodes.
ghost use Rattle.std.specs.Prelude.{◌≡◌, ◌<◌, ◌≤◌, ◌+◌, ◌^◌, [], ◌∷◌, All, IfSome};
ghost use Rattle.kk_code.specs.Ticket.{generations};
ghost use Rattle.kk_frame.specs.Asking.{frames_of};
ghost use Rattle.kk_frame.specs.Frame.{IsFrame, Vector};
ghost use Rattle.kk_table.specs.Table.{shape_of};
ghost use Rattle.kk_workers.specs.WorkerCalls.{SamePass, reaches as reaches_goal};
ghost use Rattle.kk_workers.specs.WorkerLoop.{InsertsInOrder, Freezes, IsInserter};

use crate::Totals;
use crate::decoding::decode_seen;
use crate::worker::Answers;
use kk_code::Ticket;
use kk_decode::Scratch;
use kk_frame::Batch;
use kk_rows::Row;
use kk_table::{Freeze, GenTable, Inserted, Pass};

/// A pass, how its inserts were answered, and by generation the answer, where the pass froze it.
#[derive(Drop)]
pub(crate) struct Inserter {
    /// The pass.
    pub(crate) pass: Pass,
    /// How its inserts were answered.
    pub(crate) totals: Totals,
    /// The answer of each generation that the pass froze.
    pub(crate) answers: Answers,
}

impl Inserter {
    /// Inserts the data frames of an answer of the gate, where that is a datagram.
    pub(crate) fn insert_frames(
        &mut self,
        table: &GenTable,
        ticket: &Ticket,
        goal: Option<u32>,
        frames: &Option<Batch>,
        scratch: &mut Scratch,
    )
        requires table { self.old.pass.table ≡ table.now }
        requires shape { table.now.shape ≡ shape_of ticket.now }
        requires frames { IfSome frames.now (λ batch. All (λ f. IsFrame ticket.now (Vector f.0 f.1)) batch) }
        requires inserter { IsInserter ticket.now self.old }
        requires few { self.old.totals.inserts ≤ 2 ^ 39 }
        ensures pass { SamePass self.old.pass self.new.pass }
        ensures brings { InsertsInOrder (generations ticket.now) goal self.old.pass.known.calls self.new.pass.known.calls (frames_of frames.now) }
        ensures inserter { IsInserter ticket.now self.new }
    {
        if let Some(batch) = frames {
            self.insert_all(table, ticket, goal, batch, scratch);
        }
    }

    /// Inserts the data frames of a datagram.
    fn insert_all(
        &mut self,
        table: &GenTable,
        ticket: &Ticket,
        goal: Option<u32>,
        batch: &Batch,
        scratch: &mut Scratch,
    )
        requires table { self.old.pass.table ≡ table.now }
        requires shape { table.now.shape ≡ shape_of ticket.now }
        requires frames { All (λ f. IsFrame ticket.now (Vector f.0 f.1)) batch.now }
        requires inserter { IsInserter ticket.now self.old }
        requires few { self.old.totals.inserts ≤ 2 ^ 39 }
        ensures pass { SamePass self.old.pass self.new.pass }
        ensures brings { InsertsInOrder (generations ticket.now) goal self.old.pass.known.calls self.new.pass.known.calls batch.now }
        ensures inserter { IsInserter ticket.now self.new }
    {
        for (generation, row) in batch.as_slice() {
            self.insert(table, ticket, goal, *generation, *row, scratch);
        }
    }

    /// Inserts a row, and counts the answer. Where this has the goal as rank, the generation is frozen at once.
    fn insert(
        &mut self,
        table: &GenTable,
        ticket: &Ticket,
        goal: Option<u32>,
        generation: u32,
        row: Row,
        scratch: &mut Scratch,
    )
        requires table { self.old.pass.table ≡ table.now }
        requires shape { table.now.shape ≡ shape_of ticket.now }
        requires generation { generation < table.now.shape.generations }
        requires row { row.0 < 2 ^ table.now.shape.width }
        requires inserter { IsInserter ticket.now self.old }
        requires few { self.old.totals.inserts ≤ 2 ^ 40 }
        ensures pass { SamePass self.old.pass self.new.pass }
        ensures brings { InsertsInOrder (generations ticket.now) goal self.old.pass.known.calls self.new.pass.known.calls ((generation, row.0) ∷ []) }
        ensures inserter { IsInserter ticket.now self.new }
        ensures one { self.new.totals.inserts ≡ self.old.totals.inserts + 1 }
    {
        let answer = table.insert(&mut self.pass, generation, row);
        self.totals.count(answer);
        if reaches(goal, answer) {
            self.freeze(table, ticket, generation, scratch);
        }
    }

    /// Freezes the generation. Where no other did before, its rows are decoded, and the answer is kept.
    fn freeze(&mut self, table: &GenTable, ticket: &Ticket, generation: u32, scratch: &mut Scratch)
        requires table { self.old.pass.table ≡ table.now }
        requires shape { table.now.shape ≡ shape_of ticket.now }
        requires generation { generation < table.now.shape.generations }
        requires inserter { IsInserter ticket.now self.old }
        ensures pass { SamePass self.old.pass self.new.pass }
        ensures freezes { Freezes generation self.old.pass.known self.new.pass.known }
        ensures inserter { IsInserter ticket.now self.new }
        ensures totals { self.new.totals ≡ self.old.totals }
    {
        if let Freeze::Frozen { .. } = table.freeze(&mut self.pass, generation) {
            let answer = decode_seen(&ticket.code(), &self.pass, generation, scratch);
            self.answers[generation as usize] = Some(answer);
        }
    }
}

/// Whether the answer to an insert has the goal as rank.
fn reaches(goal: Option<u32>, answer: Inserted) -> bool
    ensures { result ≡ reaches_goal goal answer }
{
    match (goal, answer) {
        (Some(goal), Inserted::Innovative { rank }) => rank == goal,
        _ => false,
    }
}
