//! A receiving: opened by its words, with all its memory, and then run.
ghost use Rattle.std.specs.Prelude.{◌≡◌, ◌≤◌, [], Ok, Some, IfOk, IfErr, IfSome, length};
ghost use Rattle.kk_outside.specs.Change.{change};
ghost use Rattle.kk_frame.specs.Events.{ended_by_fault};
ghost use Rattle.kk_workers.specs.Received.{changes};
ghost use Rattle.kk_report.specs.Command.{texts, IsRefusalOfWords, RanThrough};
ghost use Rattle.kk_order.specs.declared.bound.Limit.TheVariants.{Tolerated};
ghost use Rattle.kk_order.specs.Order.{FitsLine, IsRefusedFor, cause_of, limit_of, order_of};
ghost use Rattle.kk_run_recv.specs.Receiver.{some_fault, after_gates, received, IsReceiver};
ghost use Rattle.kk_run_recv.specs.Recv.{goal_of, limits_of, plan_of, recv_form};
ghost use Rattle.kk_report.specs.Status.{code_of};
ghost use Rattle.kk_workers.specs.declared.running.TheConstants.{MAX_GATES};

use crate::recv::RECV;
use crate::report::report_gates;
use kk_code::Ticket;
use kk_frame::{Ended, Limits};
use kk_order::{Order, OrderFault};
use kk_outcome::{deliver, room_of};
use kk_outside::{Gate, Room, Sink};
use kk_report::Status;
use kk_table::Logs;
use kk_workers::{Plan, Received, Receiver};
use std::alloc::Global;
use std::marker::Model;
use std::thread::Threads;

/// A receiving that is to be run: its order, and all memory that a run with so many gates needs.
#[derive(Drop)]
pub struct Receiving<G> {
    order: Order,
    plan: Plan,
    receiver: Receiver<G>,
    /// Room for the file.
    bytes: Room,
    /// Room for the logs that are left.
    left: Vec<Logs>,
}

// Clauses see its order, and for how many gates it is.
impl<G> Model for Receiving<G> {
    ghost use Rattle.kk_run_recv.specs.Recv.{ReceivingView, IsSetUp};

    ghost Value = { ReceivingView };

    ghost view = { λ r. record { order = r.order; gates = r.receiver.gates } };

    ghost invariant = { λ r. IsSetUp r.order r.plan r.receiver r.bytes r.left };
}

impl<G: Gate + Send> Receiving<G> {
    /// A receiving by these words, from so many gates: `recv`, the ticket, the addresses of the gates, `--idle N` and `--most N` where
    /// the limits of a gate are given, and `--tolerate N` where each generation is to be closed at rank k + 2·N, since at most N
    /// dimensions are injected into it. It takes all the memory that a run needs, and calls nothing outside.
    ///
    /// # Errors
    ///
    /// Why the words are refused, or `Memory`.
    pub fn open(alloc: Global, words: &[String], gates: usize) -> Result<Receiving<G>, OrderFault>
        requires few { gates ≤ MAX_GATES }
        ensures ordered { IfOk result (λ receiving. order_of recv_form (texts words.now) ≡ Ok receiving.order) }
        ensures gates { IfOk result (λ receiving. receiving.gates ≡ gates) }
        ensures refused { IfErr result (λ fault. IsRefusedFor (order_of recv_form (texts words.now)) (cause_of fault)) }
        ensures line { IfErr result (λ fault. FitsLine (cause_of fault)) }
    {
        let order = match RECV.read(alloc, words) {
            Ok(order) => order,
            Err(fault) => return Err(fault),
        };
        let limits = Limits {
            idle: order.number("idle").unwrap() as u32,
            most: order.number("most").unwrap() as u32,
        };
        let goal = goal_of(order.ticket(), order.number("tolerate"));
        let Ok(receiver) = Receiver::new(alloc, order.ticket(), gates) else {
            return Err(OrderFault::Memory);
        };
        let Ok(bytes) = room_of(alloc, order.ticket()) else {
            return Err(OrderFault::Memory);
        };
        let left = Vec::with_capacity(alloc, 1)?;
        Ok(Receiving {
            order,
            plan: Plan { limits, goal },
            receiver,
            bytes,
            left,
        })
    }

    /// Receives from all gates, writes the file where every generation decodes, reports what became of gates and generations, and
    /// leaves the logs, in place of what `logs` held. The answer is the status, which is that of no refusal.
    pub fn run<R: Threads + Sync, K: Sink, P: Sink>(
        self,
        rt: &R,
        file: &mut K,
        report: &mut P,
        gates: &mut Vec<G>,
        logs: &mut Vec<Logs>,
    ) -> u8
        requires gates { length gates.old.items ≡ self.gates }
        ensures receiver { IsReceiver self.order.ticket (plan_of self.order) (changes G.told gates.old.items gates.new.items)
            (change (K.told file.old) (K.told file.new)) (change (P.told report.old) (P.told report.new)) logs.new.items result }
        ensures accepted { IsRefusalOfWords result → ⊥ }
        ensures same_gates { length gates.new.items ≡ length gates.old.items }

        // Only a file that has bytes makes a call on its sink.
        ensures unwritten { (RanThrough result → ⊥) → file.new ≡ file.old }
        ensures no_bytes { received self.order.ticket (limits_of self.order) (changes G.told gates.old.items gates.new.items) ≡ Some []
            → file.new ≡ file.old }
    {
        let Receiving {
            order,
            plan,
            receiver,
            mut bytes,
            mut left,
        } = self;
        let received = receiver.receive(rt, gates, &plan);
        let delivered = deliver(
            received.answers(),
            order.ticket(),
            bytes.as_mut_slice(),
            file,
        );
        let status = status_after(delivered, &received);
        let code = report_gates(status, &received, report);
        left.push_reserved(received.into_logs());
        *logs = left;
        code
    }
}

/// The status, where the file was delivered so: a generation that doesn't decode has another one where a gate failed.
fn status_after(delivered: Status, received: &Received) -> Status
    ensures { code_of result ≡ after_gates (code_of delivered) (some_fault received.now.gates) }
{
    match delivered {
        Status::NotDecoded if has_fault(received) => Status::GateFailed,
        _ => delivered,
    }
}

/// Whether some gate ended by a fault.
fn has_fault(received: &Received) -> bool
    ensures { result ≡ some_fault received.now.gates }
{
    for i in 0..received.gates().len() {
        if is_fault(received.gate(i).ended) {
            return true;
        }
    }
    false
}

/// Whether a gate that ended so failed.
fn is_fault(ended: Option<Ended>) -> bool
    ensures { result ≡ ended_by_fault ended }
{
    match ended {
        Some(ended) => ended.is_fault(),
        None => false,
    }
}

/// The rank at which a generation is closed, where so many injected dimensions are tolerated. It is at most l.
fn goal_of(ticket: &Ticket, tolerated: Option<u64>) -> Option<u32>
    requires within { IfSome tolerated (λ number. number ≤ limit_of ticket.now Tolerated) }
    ensures { result ≡ goal_of ticket.now tolerated }
{
    let number = tolerated?;
    let code = ticket.code();
    Some(code.k() + 2 * number as u32)
}
