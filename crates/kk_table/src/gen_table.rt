//! The table, and the calls that threads make on it.
ghost use Rattle.std.specs.Prelude.{◌≡◌, ◌+◌, ◌<◌, ◌≤◌, ◌^◌, [], ◌∷◌, ◌++◌, length, IfOk};
ghost use Rattle.kk_machine.specs.declared.log.TheConstants.{MAX_WIDTH};
ghost use Rattle.kk_machine.specs.Spaces.{generation_of, IsInWidth};
ghost use Rattle.kk_machine.specs.History.{entry};
ghost use Rattle.kk_machine.specs.declared.call.Call.TheVariants as calls;
ghost use Rattle.kk_machine.specs.declared.call.Reply.TheVariants.{Rank};
ghost use Rattle.kk_table.specs.Rule.{sight};
ghost use Rattle.kk_table.specs.Table.{shape_of};
ghost use Rattle.kk_table.specs.Founder.{new_founder};
ghost use Rattle.kk_table.specs.Pass.{GoesOn, AccessesAtMost, Told, StepsOn};
ghost use Rattle.kk_table.specs.Answers.{insert_reply, freeze_reply, InsertTold, FreezeTold};

use super::founder::storage;
use super::spares::Spares;
use super::words::Words;
use super::{Founder, Freeze, Inserted, Pass, Shape};
use kk_code::Ticket;
use kk_machine::{Call, Reply, Sight};
use kk_rows::{Alloc, Row};
use std::alloc::Global;
use std::boxed::BoxedSlice;
use std::marker::Model;

/// A table of row spaces that threads share, one for each generation.
///
/// Each generation has a log: rows that are independent, in the order in which they were added, which may be closed.
/// Many threads call at once, each through a [`Pass`] of its own. No call waits for another thread: a call makes one
/// atomic step on the first word that its pass hasn't seen, and a step that loses shows a row that another one added.
#[derive(Drop)]
pub struct GenTable {
    pub(crate) words: Words,
    pub(crate) shape: Shape,
    pub(crate) logs: BoxedSlice<Sight>,
}

impl Model for GenTable {
    ghost use Rattle.std.specs.Box.{boxed_slice_items};
    ghost use Rattle.kk_table.specs.Table.{TableView, IsTable};
    ghost use Rattle.kk_table.specs.Founder.{IsSpare};

    ghost Value = { TableView };

    ghost view = { λ t. record { id = t.words.table.shared.table_id; shape = t.shape } };

    ghost invariant = { λ t. IsTable t.shape t.words.table.shared.key t.words.table.shared.table_id × IsSpare t.shape (boxed_slice_items t.logs) };
}

impl GenTable {
    /// The table of a transmission, with its founder, who may give this many passes. All logs are empty and open. The
    /// storage in which [`GenTable::finish`] leaves the logs is taken here too.
    pub fn new(alloc: Global, ticket: &Ticket, passes: u32) -> Result<(GenTable, Founder), Alloc>
        ensures table { IfOk result (λ t. t.0.shape ≡ shape_of ticket.now) }
        ensures founder { IfOk result (λ t. t.1 ≡ new_founder t.0 passes) }
    {
        let shape = Shape {
            generations: ticket.generations(),
            width: ticket.code().width(),
        };
        GenTable::with_shape(alloc, shape, passes)
    }

    /// The same for rows of any kind: a table of this size. The width is from 1 to [`kk_machine::MAX_WIDTH`].
    pub fn with_shape(
        alloc: Global,
        shape: Shape,
        passes: u32,
    ) -> Result<(GenTable, Founder), Alloc>
        requires width { (0 < shape.width) × (shape.width ≤ MAX_WIDTH) }
        ensures table { IfOk result (λ t. t.0.shape ≡ shape) }
        ensures founder { IfOk result (λ t. t.1 ≡ new_founder t.0 passes) }
    {
        let logs = storage(alloc, shape)?;
        let (words, seat) = Words::new(alloc, shape)?;
        let founder = Founder {
            seat,
            shape,
            passes,
            given: 0,
            taken: 0,
            spare: Spares::new(alloc),
        };
        Ok((GenTable { words, shape, logs }, founder))
    }

    /// How many generations the table has, and how wide its rows are.
    pub fn shape(&self) -> Shape
        ensures shape { result ≡ self.now.shape }
        ensures some { 0 < self.now.shape.width }
        ensures fits { self.now.shape.width ≤ MAX_WIDTH }
    {
        let _ = &self.words;
        self.shape
    }

    /// Its words.
    pub(crate) fn words(&self) -> &Words
        ensures id { (result.now.table.shared.table_id ≡ self.now.id) × (0 < self.now.id.words) }
        ensures key { result.now.table.shared.key ≡ self.now.shape }
    {
        &self.words
    }

    /// One atomic step of the pass for the call, on the first word of its generation that the pass hasn't seen: an
    /// exchange of 0 for the call's word where that would change the log seen, and else a load. The reply, where the step
    /// decides the call.
    fn step(&self, pass: &mut Pass, call: Call) -> Option<Reply>
        requires table { pass.old.table ≡ self.now }
        requires in_range { generation_of call < self.now.shape.generations }
        requires inside { IsInWidth self.now.shape.width call }
        ensures table { pass.new.table ≡ pass.old.table }
        ensures goes_on { GoesOn (generation_of call) pass.old.known pass.new.known }
        ensures accesses { pass.new.known.accesses ≡ pass.old.known.accesses + 1 }
        ensures room { length (sight pass.new.known (generation_of call)).rows ≤ self.now.shape.width }
        ensures step { StepsOn call pass.old.known pass.new.known result }
    {
        let generation = call.generation();
        let sight = &mut pass.seen[generation as usize];
        let word = self.shape.first_word(generation) + sight.len() as usize;
        let changing = sight.changes(&call);
        let found = self
            .words
            .probe(&mut pass.seat, word, changing, call, self.shape.width);
        let reply = sight.decide(changing, changing, found, &call);
        sight.tell(call.leaves(changing, found));
        reply
    }

    /// Makes steps until one decides the call. Each that doesn't shows one row more, so there are at most as many as
    /// rows that the pass hadn't seen, and one more.
    fn decide(&self, pass: &mut Pass, call: Call) -> Reply
        requires table { pass.old.table ≡ self.now }
        requires in_range { generation_of call < self.now.shape.generations }
        requires inside { IsInWidth self.now.shape.width call }
        ensures table { pass.new.table ≡ pass.old.table }
        ensures goes_on { GoesOn (generation_of call) pass.old.known pass.new.known }
        ensures accesses { AccessesAtMost (generation_of call) pass.old.known pass.new.known }
        ensures call { pass.new.known.calls ≡ pass.old.known.calls ++ entry pass.old.known.number call result ∷ [] }
        ensures told { Told call (sight pass.new.known (generation_of call)) result }
    {
        loop {
            if let Some(reply) = self.step(pass, call) {
                return reply;
            }
        }
    }

    /// Adds `row`, which is below 2^width, to the log of its generation, unless that is closed or the row is in its
    /// span.
    pub fn insert(&self, pass: &mut Pass, generation: u32, row: Row) -> Inserted
        requires table { pass.old.table ≡ self.now }
        requires generation { generation < self.now.shape.generations }
        requires row { row.0 < 2 ^ self.now.shape.width }
        ensures table { pass.new.table ≡ pass.old.table }
        ensures goes_on { GoesOn generation pass.old.known pass.new.known }
        ensures accesses { AccessesAtMost generation pass.old.known pass.new.known }
        ensures call { pass.new.known.calls ≡ pass.old.known.calls ++ entry pass.old.known.number (calls.Insert generation row) (insert_reply result) ∷ [] }
        ensures told { InsertTold row.0 (sight pass.new.known generation) result }
    {
        match self.decide(pass, Call::Insert { generation, row }) {
            Reply::Innovative { rank } => Inserted::Innovative { rank },
            Reply::Redundant => Inserted::Redundant,
            Reply::Late => Inserted::Late,
            _ => unreachable!(),
        }
    }

    /// Closes the log of the generation, if it is open. The pass has then seen the whole of it.
    pub fn freeze(&self, pass: &mut Pass, generation: u32) -> Freeze
        requires table { pass.old.table ≡ self.now }
        requires generation { generation < self.now.shape.generations }
        ensures table { pass.new.table ≡ pass.old.table }
        ensures goes_on { GoesOn generation pass.old.known pass.new.known }
        ensures accesses { AccessesAtMost generation pass.old.known pass.new.known }
        ensures call { pass.new.known.calls ≡ pass.old.known.calls ++ entry pass.old.known.number (calls.Freeze generation) (freeze_reply result) ∷ [] }
        ensures told { FreezeTold (sight pass.new.known generation) result }
    {
        match self.decide(pass, Call::Freeze { generation }) {
            Reply::Frozen { rank } => Freeze::Frozen { rank },
            Reply::Already => Freeze::Already,
            _ => unreachable!(),
        }
    }

    /// How many rows the log of the generation has. The pass has then seen them all.
    pub fn peek(&self, pass: &mut Pass, generation: u32) -> u32
        requires table { pass.old.table ≡ self.now }
        requires generation { generation < self.now.shape.generations }
        ensures table { pass.new.table ≡ pass.old.table }
        ensures goes_on { GoesOn generation pass.old.known pass.new.known }
        ensures accesses { AccessesAtMost generation pass.old.known pass.new.known }
        ensures call { pass.new.known.calls ≡ pass.old.known.calls ++ entry pass.old.known.number (calls.Peek generation) (Rank result) ∷ [] }
        ensures rank { result ≡ length (sight pass.new.known generation).rows }
    {
        match self.decide(pass, Call::Peek { generation }) {
            Reply::Rank { rank } => rank,
            _ => unreachable!(),
        }
    }
}
