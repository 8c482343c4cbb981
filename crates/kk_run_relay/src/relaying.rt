//! A relay that was opened, and its run.
ghost use Rattle.std.specs.Prelude.{◌≡◌, ◌<◌, ◌≤◌, ◌++◌, codes, decimal, IfOk, IfErr};
ghost use Rattle.arrayvec.specs.ArrayString.{array_string_len};
ghost use Rattle.kk_outside.specs.Change.{change};
ghost use Rattle.kk_report.specs.Command.{texts};
ghost use Rattle.kk_report.specs.Report.{gate_line};
ghost use Rattle.kk_order.specs.Order.{FitsLine, IsRefusedFor, cause_of};
ghost use Rattle.kk_run_relay.specs.Relay.{AsksFor, RelaysBy, answer_of, refusal_of};

use crate::RELAY;
use kk_code::Ticket;
use kk_frame::Limits;
use kk_order::OrderFault;
use kk_outside::{Gate, Outlet, Sink};
use kk_relay::{Relay, RelayFault, Relayed};
use kk_report::{Lines, LongLine, Refusal, Status, conclude, gate_line, push_count, refuse};
use rand_chacha::ChaCha20Rng;
use rand_core::SeedableRng;
use std::alloc::Global;
use std::marker::Model;

/// A relay that was opened: what it goes by, and all the memory that its run needs. It holds nothing that lends an
/// allocator, so its run takes none.
#[derive(Drop)]
pub struct Relaying {
    ticket: Ticket,
    seed: [u8; 32],
    /// How many combinations for each data frame.
    rate: u32,
    limits: Limits,
    relay: Relay,
}

// Clauses see what it goes by.
impl Model for Relaying {
    ghost use Rattle.std.specs.Prelude.{◌≡◌, ◌≤◌, [], Some};
    ghost use Rattle.kk_relay.specs.declared.relay.TheConstants.{MAX_RATE};
    ghost use Rattle.kk_relay.specs.RelayState.{relay_after};
    ghost use Rattle.kk_run_relay.specs.Relay.{Relaying as GoesBy};

    ghost Value = { GoesBy };

    ghost view = { λ r. record { ticket = r.ticket; seed = Some r.seed; rate = r.rate; limits = r.limits } };

    ghost invariant = { λ r. (r.relay ≡ relay_after r.ticket []) × (r.rate ≤ MAX_RATE) × (1 ≤ r.limits.idle) × (1 ≤ r.limits.most) };
}

impl Relaying {
    /// Opens a relay by the order in the words, where so many gates are handed to it. All memory is taken here.
    ///
    /// # Errors
    ///
    /// Why the words are refused: the first cause of [`OrderForm::read`](kk_order::OrderForm::read), or `Listen` where there
    /// is no gate. And `Memory`, to any words.
    pub fn open(alloc: Global, words: &[String], gates: usize) -> Result<Relaying, OrderFault>
        ensures asked { IfOk result (AsksFor (texts words.now) gates) }
        ensures heard { IfOk result (λ _. 0 < gates) }
        ensures refused { IfErr result (λ fault. IsRefusedFor (answer_of (texts words.now) gates) (cause_of fault)) }
        ensures line { IfErr result (λ fault. FitsLine (cause_of fault)) }
    {
        let order = match RELAY.read(alloc, words) {
            Ok(order) => order,
            Err(fault) => return Err(fault),
        };
        if gates == 0 {
            return Err(OrderFault::Listen);
        }
        let Ok(relay) = Relay::new(alloc, order.ticket()) else {
            return Err(OrderFault::Memory);
        };
        Ok(Relaying {
            ticket: *order.ticket(),
            seed: order.seed().unwrap(),
            rate: order.number("rate").unwrap() as u32,
            limits: Limits {
                idle: order.number("idle").unwrap() as u32,
                most: order.number("most").unwrap() as u32,
            },
            relay,
        })
    }

    /// Relays what the gate gives: takes its data frames up to its stop, sends combinations of the rows of their
    /// generations, and END. The answer is the status, which the report tells too.
    pub fn run<P: Sink, G: Gate, O: Outlet>(
        self,
        gate: &mut G,
        report: &mut P,
        outlet: &mut O,
    ) -> u8
        ensures relays { RelaysBy self (change (G.told gate.old) (G.told gate.new)) (change (P.told report.old) (P.told report.new))
            (change (O.told outlet.old) (O.told outlet.new)) result }
    {
        let Relaying {
            ticket,
            seed,
            rate,
            limits,
            mut relay,
        } = self;
        let mut rng = ChaCha20Rng::from_seed(seed);
        let relayed = relay.relay_all(&ticket, gate, outlet, &mut rng, rate, &limits);
        match relayed {
            Ok(relayed) => conclude(Status::Done, relay_lines(&relayed).as_str(), report),
            Err(fault) => refuse(refusal_of(fault), report),
        }
    }
}

/// The lines that tell what a relay took and sent.
fn relay_lines(relayed: &Relayed) -> Lines
    ensures text { result.bytes ≡ gate_line 0 relayed.now.gate ++ codes "relayed frames " ++ decimal relayed.now.gate.frames
        ++ codes " innovative " ++ decimal relayed.now.innovative ++ codes " sent " ++ decimal relayed.now.sent ++ codes "\n" }
    ensures short { array_string_len result ≤ 480 }
{
    let mut lines = Lines::new();
    lines.push_str(gate_line(0, &relayed.gate).as_str());
    lines.push_str(relay_line(relayed).as_str());
    lines
}

/// The line that tells how much a relay took and sent.
fn relay_line(relayed: &Relayed) -> LongLine
    ensures text { result.bytes ≡ codes "relayed frames " ++ decimal relayed.now.gate.frames
        ++ codes " innovative " ++ decimal relayed.now.innovative ++ codes " sent " ++ decimal relayed.now.sent ++ codes "\n" }
    ensures short { array_string_len result ≤ 100 }
{
    let mut line = LongLine::new();
    push_count(&mut line, "relayed frames ", relayed.gate.frames);
    push_count(&mut line, " innovative ", relayed.innovative);
    push_count(&mut line, " sent ", relayed.sent);
    line.push_str("\n");
    line
}

/// Why a run is refused whose relay has stopped before its end.
fn refusal_of(fault: RelayFault) -> Refusal
    ensures { result ≡ refusal_of fault }
{
    match fault {
        RelayFault::Gate => Refusal::Input,
        RelayFault::Outlet => Refusal::Outlet,
    }
}
