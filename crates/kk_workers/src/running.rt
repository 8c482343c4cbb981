//! The workers of a receiver: hired, at work, and dismissed.
ghost use Rattle.std.specs.Prelude.{◌≡◌, ℕ, ◌+◌, ◌<◌, ◌≤◌, ◌^◌, All, [], length, map, replicate, vec_capacity, slice_index_or, None};
ghost use Rattle.kk_code.specs.Ticket.{TicketFields, generations};
ghost use Rattle.kk_table.specs.Founder.{FounderView};
ghost use Rattle.kk_table.specs.Table.{shape_of};
ghost use Rattle.kk_workers.specs.Totals.{AreWithin, sum_of_totals};
ghost use Rattle.kk_workers.specs.Worker.{WorkerView};
ghost use Rattle.kk_workers.specs.Runs.{IsReady, Did, hired, founder_of, lists_in};

use crate::worker::Answers;
use crate::{Plan, Totals, Worker, work};
use kk_code::Ticket;
use kk_frame::GateCount;
use kk_outside::Gate;
use kk_table::{Founder, GenTable};
use std::thread;
use std::thread::Threads;

/// The most gates of a receiver, each with a worker in a thread of its own.
pub const MAX_GATES: usize = 16;

/// Lets each worker work, each in a thread of its own.
pub(crate) fn run_all<R: Threads + Sync, G: Gate + Send>(
    rt: &R,
    workers: &mut Vec<Worker<G>>,
    table: &GenTable,
    ticket: &Ticket,
    plan: &Plan,
)
    requires shape { table.now.shape ≡ shape_of ticket.now }
    requires idle { 1 ≤ plan.now.limits.idle }
    requires most { 1 ≤ plan.now.limits.most }
    requires ready { All (λ w. IsReady table.now ticket.now w) workers.old.items }
    ensures len { length workers.new.items ≡ length workers.old.items }
    ensures room { vec_capacity workers.new ≡ vec_capacity workers.old }
    ensures each { (i : ℕ) (d : WorkerView G) → i < length workers.old.items → Did G.told ticket.now plan.now (slice_index_or workers.old.items i d) (slice_index_or workers.new.items i d) }
{
    let one = |_: usize, worker: &mut Worker<G>|
        requires { (table.now.shape ≡ shape_of ticket.now) × (1 ≤ plan.now.limits.idle) × (1 ≤ plan.now.limits.most) × IsReady table.now ticket.now worker.old }
        ensures { Did G.told ticket.entry.now plan.entry.now worker.old worker.new }
    { work(worker, table, ticket, plan) };
    thread::for_each_mut(rt, workers.as_mut_slice(), MAX_GATES, &one);
}

/// Gives each gate a worker with a pass, in order.
pub(crate) fn hire<G: Gate + Send>(
    founder: &mut Founder,
    table: &GenTable,
    gates: &mut Vec<G>,
    rooms: &mut Vec<Answers>,
    workers: &mut Vec<Worker<G>>,
    generations: u32,
)
    requires founder { founder.old ≡ founder_of table.now (length gates.old.items + 1) 0 [] (length gates.old.items + 1) }
    requires few { length gates.old.items ≤ MAX_GATES }
    requires rooms { length rooms.old.items ≡ length gates.old.items }
    requires empty { All (λ room. room.items ≡ replicate generations None) rooms.old.items }
    requires workers { workers.old.items ≡ [] }
    requires room { length gates.old.items ≤ vec_capacity workers.old }
    ensures gates { gates.new.items ≡ [] }
    ensures gates_room { vec_capacity gates.new ≡ vec_capacity gates.old }
    ensures rooms { rooms.new.items ≡ [] }
    ensures rooms_room { vec_capacity rooms.new ≡ vec_capacity rooms.old }
    ensures workers { workers.new.items ≡ hired table.now generations 0 gates.old.items }
    ensures founder { founder.new ≡ founder_of table.now (length gates.old.items + 1) (length gates.old.items) [] 1 }
{
    for i in 0..gates.len() {
        let gate = gates.remove(0);
        let answers = rooms.remove(0);
        let Ok(pass) = founder.pass_reserved(table) else {
            unreachable!()
        };
        workers.push_reserved(Worker::of(pass, gate, answers));
    }
}

/// Takes the passes back, and gives back the gates, both in order, with the counts of each gate, the answers that its worker
/// kept, and the totals of all.
pub(crate) fn dismiss<G: Gate + Send>(
    founder: &mut Founder,
    table: &GenTable,
    workers: &mut Vec<Worker<G>>,
    gates: &mut Vec<G>,
    counts: &mut Vec<GateCount>,
    kept: &mut Vec<Answers>,
) -> Totals
    requires founder { founder.old.table ≡ table.now }
    requires passes { All (λ w. w.pass.table ≡ table.now) workers.old.items }
    requires few { length workers.old.items ≤ MAX_GATES }
    requires few_inserts { All (λ w. (w.totals.inserts ≤ 2 ^ 39) × AreWithin w.totals) workers.old.items }
    requires empty { (gates.old.items ≡ []) × (counts.old.items ≡ []) × (kept.old.items ≡ []) × (founder.old.records ≡ []) }
    requires room { (length workers.old.items ≤ vec_capacity gates.old) × (length workers.old.items ≤ vec_capacity counts.old) × (length workers.old.items ≤ vec_capacity kept.old) }
    ensures workers { workers.new.items ≡ [] }
    ensures gates { gates.new.items ≡ map (λ w. w.gate) workers.old.items }
    ensures counts { counts.new.items ≡ map (λ w. w.counts) workers.old.items }
    ensures kept { lists_in kept.new.items ≡ map (λ w. w.answers) workers.old.items }
    ensures totals { result ≡ sum_of_totals (map (λ w. w.totals) workers.old.items) }
    ensures founder { founder.new ≡ founder_of table.now founder.old.passes founder.old.given (map (λ w. w.pass.known) workers.old.items) founder.old.spare }
{
    let mut totals = Totals::new();
    for i in 0..workers.len() {
        let worker = workers.remove(0);
        totals.add(&worker.inserter.totals);
        counts.push_reserved(worker.counts);
        let (pass, gate, answers) = worker.into_all();
        founder.take_back(table, pass);
        gates.push_reserved(gate);
        kept.push_reserved(answers);
    }
    totals
}
