//! A simulation: opened by its words, with all its memory, and then run.
ghost use Rattle.std.specs.Prelude.{◌≡◌, [], Ok, IfOk, IfErr};
ghost use Rattle.kk_outside.specs.Change.{change};
ghost use Rattle.kk_report.specs.Command.{texts, IsRefusalOfWords};
ghost use Rattle.kk_order.specs.Order.{FitsLine, IsRefusedFor, cause_of, order_of};
ghost use Rattle.kk_order.specs.Seed.{words_of};
ghost use Rattle.kk_run_sim.specs.Sim.{gates_of, loss_of, sim_form};
ghost use Rattle.kk_run_sim.specs.Simulation.{IsSimulation};

use crate::sim::SIM;
use crate::simulation::{decoded, fate_of, summary_lines};
use kk_frame::Limits;
use kk_order::{Order, OrderFault};
use kk_outcome::room_of;
use kk_outside::{MemoryGate, Room, Sink};
use kk_report::conclude;
use kk_table::Logs;
use kk_trial::{OperatorChannel, Trial, make_trial};
use kk_workers::{Plan, Receiver};
use rand_chacha::ChaCha20Rng;
use rand_core::SeedableRng;
use std::alloc::Global;
use std::marker::Model;
use std::thread::Threads;

/// What the receiver of a trial is to do.
const PLAN: Plan = Plan {
    limits: Limits {
        idle: 300,
        most: 10_000_000,
    },
    goal: None,
};

/// A simulation that is to be run: its order, the trial, and all memory that its receiver needs.
#[derive(Drop)]
pub struct Simulating {
    order: Order,
    trial: Trial,
    receiver: Receiver<MemoryGate>,
    /// Room for the file that is put together.
    bytes: Room,
    /// Room for the logs that are left.
    left: Vec<Logs>,
}

// Clauses see its order.
impl Model for Simulating {
    ghost use Rattle.kk_order.specs.Order.{Order as Ordered};
    ghost use Rattle.kk_run_sim.specs.Sim.{IsSetUp};

    ghost Value = { Ordered };

    ghost view = { λ s. s.order };

    ghost invariant = { λ s. IsSetUp s.order s.trial.file.items s.trial.gates.items s.receiver s.bytes s.left };
}

impl Simulating {
    /// A simulation by these words: `sim`, the ticket, how many dimensions of each generation the channel erases and how many it
    /// injects, how many gates there are, and `--seed`. It makes the trial, takes all the memory that a run needs, and calls nothing
    /// outside.
    ///
    /// # Errors
    ///
    /// Why the words are refused, or `Memory`.
    pub fn open(alloc: Global, words: &[String]) -> Result<Simulating, OrderFault>
        ensures ordered { IfOk result (λ order. order_of sim_form (texts words.now) ≡ Ok order) }
        ensures refused { IfErr result (λ fault. IsRefusedFor (order_of sim_form (texts words.now)) (cause_of fault)) }
        ensures line { IfErr result (λ fault. FitsLine (cause_of fault)) }
    {
        let order = match SIM.read(alloc, words) {
            Ok(order) => order,
            Err(fault) => return Err(fault),
        };
        let loss = OperatorChannel {
            erase: order.number("erase").unwrap() as u32,
            inject: order.number("inject").unwrap() as u32,
        };
        let gates = order.number("gates").unwrap() as u32;
        let mut rng = ChaCha20Rng::from_seed(order.seed().unwrap());
        let Ok(trial) = make_trial(alloc, order.ticket(), loss, gates, &mut rng) else {
            return Err(OrderFault::Memory);
        };
        let Ok(receiver) = Receiver::new(alloc, order.ticket(), gates as usize) else {
            return Err(OrderFault::Memory);
        };
        let Ok(bytes) = room_of(alloc, order.ticket()) else {
            return Err(OrderFault::Memory);
        };
        let left = Vec::with_capacity(alloc, 1)?;
        Ok(Simulating {
            order,
            trial,
            receiver,
            bytes,
            left,
        })
    }

    /// Receives from the gates of the trial with a worker each, reports a summary, and leaves the logs, in place of what `logs` held.
    /// The answer is the status, which is that of no refusal.
    pub fn run<R: Threads + Sync, P: Sink>(self, rt: &R, report: &mut P, logs: &mut Vec<Logs>) -> u8
        ensures simulation { IsSimulation self.ticket (loss_of self) (gates_of self) (words_of self.seed)
            (change (P.told report.old) (P.told report.new)) logs.new.items result }
        ensures accepted { IsRefusalOfWords result → ⊥ }
    {
        let Simulating {
            order,
            mut trial,
            receiver,
            mut bytes,
            mut left,
        } = self;
        let ticket = order.ticket();
        let received = receiver.receive(rt, &mut trial.gates, &PLAN);
        let fate = fate_of(
            received.answers(),
            ticket,
            bytes.as_mut_slice(),
            &trial.file,
        );
        let lines = summary_lines(
            ticket.generations(),
            decoded(received.answers()),
            &received.totals(),
            fate,
        );
        let code = conclude(fate.status(), lines.as_str(), report);
        left.push_reserved(received.into_logs());
        *logs = left;
        code
    }
}
