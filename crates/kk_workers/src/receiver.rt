//! A receiver with several gates: opened with all its memory, and then at work.
ghost use Rattle.std.specs.Prelude.{◌≡◌, ◌+◌, ◌≤◌, length, replicate, All, None, IfOk, OnOk};
ghost use Rattle.kk_code.specs.Ticket.{generations};
ghost use Rattle.kk_workers.specs.Received.{changes, HasOneHistory, AddUp};
ghost use Rattle.kk_workers.specs.Receiving.{IsReceived};
ghost use Rattle.kk_workers.specs.declared.running.TheConstants.{MAX_GATES};

use crate::closing::{close_all, decode_all};
use crate::running::{dismiss, hire, run_all};
use crate::worker::{Answers, no_answers};
use crate::{Plan, Received, Worker};
use kk_code::{Message, Ticket};
use kk_frame::GateCount;
use kk_outside::Gate;
use kk_rows::Alloc;
use kk_table::{Founder, GenTable};
use std::alloc::Global;
use std::marker::Model;
use std::thread::Threads;

/// A receiver that has asked no gate yet, with all the memory that it needs: a table with its founder, storage for the passes
/// and the workers of so many gates and for a closing pass, and room for what becomes known.
///
/// Clauses see its ticket, and for how many gates it is.
#[derive(Drop)]
pub struct Receiver<G> {
    ticket: Ticket,
    table: GenTable,
    /// The founder of the table, which has reserved the storage of all passes.
    founder: Founder,
    /// The room of each worker's answers.
    rooms: Vec<Answers>,
    /// Room for the workers.
    workers: Vec<Worker<G>>,
    /// Room for the counts of the gates.
    counts: Vec<GateCount>,
    /// Room for the answer of each generation.
    answers: Vec<Option<Message>>,
}

impl<G> Model for Receiver<G> {
    ghost use Rattle.std.specs.Prelude.{length};
    ghost use Rattle.kk_workers.specs.Runs.{ReceiverView, HasAllRoom};

    ghost Value = { ReceiverView };

    ghost view = { λ r. record { ticket = r.ticket; gates = length r.rooms.items } };

    ghost invariant = { λ r. HasAllRoom r.ticket (length r.rooms.items) r.table r.founder r.rooms.items r.workers r.counts r.answers };
}

impl<G: Gate + Send> Receiver<G> {
    /// A receiver for so many gates. It takes all its memory here.
    ///
    /// # Errors
    ///
    /// [`Alloc`] where there is no memory.
    pub fn new(alloc: Global, ticket: &Ticket, gates: usize) -> Result<Receiver<G>, Alloc>
        requires few { gates ≤ MAX_GATES }
        ensures ticket { IfOk result (λ receiver. receiver.ticket ≡ ticket.now) }
        ensures gates { IfOk result (λ receiver. receiver.gates ≡ gates) }
    {
        let (table, mut founder) = GenTable::new(alloc, ticket, gates as u32 + 1)?;
        reserve(alloc, &mut founder, &table, gates + 1)?;
        Ok(Receiver {
            ticket: *ticket,
            table,
            founder,
            rooms: rooms_of(alloc, ticket, gates)?,
            workers: Vec::with_capacity(alloc, gates)?,
            counts: Vec::with_capacity(alloc, gates)?,
            answers: Vec::with_capacity(alloc, ticket.generations() as usize)?,
        })
    }

    /// Receives from all gates, each with a worker in a thread of its own, closes what is then open, and decodes each generation.
    /// The gates stand in the vector as before.
    ///
    /// With a goal the worker whose insert is told it as rank freezes the generation at once, and decodes it.
    pub fn receive<R: Threads + Sync>(self, rt: &R, gates: &mut Vec<G>, plan: &Plan) -> Received
        requires gates { length gates.old.items ≡ self.gates }
        requires idle { 1 ≤ plan.now.limits.idle }
        requires most { 1 ≤ plan.now.limits.most }
        ensures same_gates { length gates.new.items ≡ length gates.old.items }
        ensures one_count_each { length result.gates ≡ length gates.old.items }
        ensures one_answer_each { length result.answers ≡ generations self.ticket }
        ensures one_history { HasOneHistory self.ticket plan.now (changes G.told gates.old.items gates.new.items) result }
        ensures add_up { AddUp self.ticket plan.now (changes G.told gates.old.items gates.new.items) result }
    {
        let received = self.gather(rt, gates, plan);
        received.logs.history();
        received
    }

    /// The same, where the history is not yet known.
    fn gather<R: Threads + Sync>(self, rt: &R, gates: &mut Vec<G>, plan: &Plan) -> Received
        requires gates { length gates.old.items ≡ self.gates }
        requires idle { 1 ≤ plan.now.limits.idle }
        requires most { 1 ≤ plan.now.limits.most }
        ensures { IsReceived G.told self.ticket plan.now gates.old.items gates.new.items result }
    {
        let Receiver {
            ticket,
            table,
            mut founder,
            mut rooms,
            mut workers,
            mut counts,
            mut answers,
        } = self;
        let generations = ticket.generations();
        hire(
            &mut founder,
            &table,
            gates,
            &mut rooms,
            &mut workers,
            generations,
        );
        run_all(rt, &mut workers, &table, &ticket, plan);
        let totals = dismiss(
            &mut founder,
            &table,
            &mut workers,
            gates,
            &mut counts,
            &mut rooms,
        );
        let Ok(mut closing) = founder.pass_reserved(&table) else {
            unreachable!()
        };
        close_all(&table, &mut closing, generations, &rooms);
        decode_all(&ticket.code(), &closing, generations, &rooms, &mut answers);
        founder.take_back(&table, closing);
        let Ok(logs) = table.finish(founder) else {
            unreachable!()
        };
        Received {
            logs,
            answers,
            gates: counts,
            totals,
        }
    }
}

/// Reserves the storage of so many passes.
fn reserve(
    alloc: Global,
    founder: &mut Founder,
    table: &GenTable,
    passes: usize,
) -> Result<(), Alloc>
    requires table { founder.old.table ≡ table.now }
    ensures table { OnOk result (founder.new.table ≡ founder.old.table) }
    ensures given { OnOk result ((founder.new.passes ≡ founder.old.passes) × (founder.new.given ≡ founder.old.given) × (founder.new.records ≡ founder.old.records)) }
    ensures spare { OnOk result (founder.new.spare ≡ founder.old.spare + passes) }
{
    for i in 0..passes {
        founder.reserve(alloc, table)?;
    }
    Ok(())
}

/// The room of each worker's answers.
fn rooms_of(alloc: Global, ticket: &Ticket, gates: usize) -> Result<Vec<Answers>, Alloc>
    ensures all { IfOk result (λ rooms. length rooms.items ≡ gates) }
    ensures empty { IfOk result (λ rooms. All (λ room. room.items ≡ replicate (generations ticket.now) None) rooms.items) }
{
    let mut rooms = Vec::with_capacity(alloc, gates)?;
    for i in 0..gates {
        rooms.push_reserved(no_answers(alloc, ticket.generations())?);
    }
    Ok(rooms)
}
