//! What a worker does: it asks its gate until that ends, and inserts what it gives.
ghost use Rattle.std.specs.Prelude.{◌≡◌, ◌^◌, ◌≤◌, ◌↔◌, [], length, replicate, None, Some};
ghost use Rattle.kk_outside.specs.Causes.{CanCount};
ghost use Rattle.kk_outside.specs.Change.{change};
ghost use Rattle.kk_outside.specs.Gate.{GateFailed};
ghost use Rattle.kk_code.specs.Ticket.{generations};
ghost use Rattle.kk_frame.specs.declared.gate_count.Ended.TheVariants.{Fault};
ghost use Rattle.kk_frame.specs.Asking.{FaultCause};
ghost use Rattle.kk_table.specs.Table.{shape_of};
ghost use Rattle.kk_workers.specs.Totals.{no_totals};
ghost use Rattle.kk_workers.specs.WorkerCalls.{SamePass, AreAnswers, WasWorkedOff};
ghost use Rattle.kk_workers.specs.WorkerLoop.{AreTotals};

use crate::{Plan, Worker};
use kk_code::Ticket;
use kk_decode::Scratch;
use kk_frame::Intake;
use kk_outside::{GATE_BYTES, Gate};
use kk_table::GenTable;

/// Asks the gate of a worker until it has ended, and inserts what it gives through the pass of the worker, datagram by
/// datagram. With a goal it freezes a generation as soon as one of its inserts is told the goal as rank, and decodes it. It
/// takes no memory, and waits for nobody but the gate.
pub fn work<G: Gate + Send>(worker: &mut Worker<G>, table: &GenTable, ticket: &Ticket, plan: &Plan)
    requires table { worker.old.pass.table ≡ table.now }
    requires shape { table.now.shape ≡ shape_of ticket.now }
    requires no_calls { worker.old.pass.known.calls ≡ [] }
    requires no_inserts { worker.old.totals ≡ no_totals }
    requires no_answers { worker.old.answers ≡ replicate (generations ticket.now) None }
    requires idle { 1 ≤ plan.now.limits.idle }
    requires most { 1 ≤ plan.now.limits.most }
    ensures pass { SamePass worker.old.pass worker.new.pass }
    ensures worked { WasWorkedOff ticket.now plan.now (change (G.told worker.old.gate) (G.told worker.new.gate)) worker.new.counts worker.new.pass.known.calls }
    ensures totals { AreTotals worker.new.totals worker.new.pass.known.calls }
    ensures few { worker.new.totals.inserts ≤ 2 ^ 39 }
    ensures answers { AreAnswers ticket.now.code worker.new.pass.known worker.new.answers }
    ensures all_answers { length worker.new.answers ≡ generations ticket.now }
    ensures cause { FaultCause (change (G.told worker.old.gate) (G.told worker.new.gate)) worker.new.counts }
    ensures fault { CanCount (G.told worker.old.gate).faults
        → ((worker.new.counts.ended ≡ Some Fault) ↔ GateFailed (change (G.told worker.old.gate) (G.told worker.new.gate))) }
{
    let mut buf = [0; GATE_BYTES];
    let mut scratch = Scratch::new();
    let mut intake = Intake::new(plan.limits);
    while intake.runs() {
        let frames = intake.ask(&mut worker.gate, &mut buf, ticket);
        worker
            .inserter
            .insert_frames(table, ticket, plan.goal, &frames, &mut scratch);
    }
    worker.counts = intake.counts();
}
