//! A sending that was opened, and its run.
ghost use Rattle.std.specs.Prelude.{◌≡◌, ◌++◌, ℕ, List, codes, decimal, IfOk, IfErr};
ghost use Rattle.kk_outside.specs.Change.{change};
ghost use Rattle.kk_report.specs.Command.{texts, IsRefusalOfWords, RanThrough};
ghost use Rattle.kk_order.specs.Order.{FitsLine, IsRefusedFor, cause_of, order_of};
ghost use Rattle.kk_run_send.specs.Send.{AsksFor, Sends, refusal_of, send_form};

use crate::SEND;
use kk_order::OrderFault;
use kk_outside::{Outlet, Sink, Source};
use kk_report::{LongLine, Refusal, Status, conclude, push_count, refuse};
use kk_sender::{SendFault, Sender, Sent};
use rand_chacha::ChaCha20Rng;
use rand_core::SeedableRng;
use std::alloc::Global;
use std::marker::Model;

/// A sending that was opened: what it goes by, and a sender with all the memory that its run needs. It holds nothing that
/// lends an allocator, so its run takes none.
#[derive(Drop)]
pub struct Sending {
    sender: Sender,
    seed: [u8; 32],
    /// How many combinations of each generation.
    extra: u32,
    frames_per_datagram: u32,
}

// Clauses see what it goes by.
impl Model for Sending {
    ghost use Rattle.std.specs.Prelude.{◌≤◌, Some};
    ghost use Rattle.kk_frame.specs.declared.datagram.TheConstants.{MAX_DATAGRAM_FRAMES};
    ghost use Rattle.kk_sender.specs.declared.rows.TheConstants.{MAX_EXTRA};
    ghost use Rattle.kk_run_send.specs.Send.{Sending as GoesBy};

    ghost Value = { GoesBy };

    ghost view = { λ s. record { ticket = s.sender; seed = Some s.seed; extra = s.extra; frames_per_datagram = s.frames_per_datagram } };

    ghost invariant = { λ s. (s.extra ≤ MAX_EXTRA) × (1 ≤ s.frames_per_datagram) × (s.frames_per_datagram ≤ MAX_DATAGRAM_FRAMES) };
}

impl Sending {
    /// Opens a sending by the order in the words. All memory is taken here.
    ///
    /// # Errors
    ///
    /// Why the words are refused: the first cause of [`OrderForm::read`](kk_order::OrderForm::read). And `Memory`, to any
    /// words.
    pub fn open(alloc: Global, words: &[String]) -> Result<Sending, OrderFault>
        ensures asked { IfOk result (AsksFor (texts words.now)) }
        ensures refused { IfErr result (λ fault. IsRefusedFor (order_of send_form (texts words.now)) (cause_of fault)) }
        ensures line { IfErr result (λ fault. FitsLine (cause_of fault)) }
    {
        let order = match SEND.read(alloc, words) {
            Ok(order) => order,
            Err(fault) => return Err(fault),
        };
        let Ok(sender) = Sender::new(alloc, order.ticket()) else {
            return Err(OrderFault::Memory);
        };
        let seed = order.seed().unwrap();
        let extra = order.number("extra").unwrap() as u32;
        let frames_per_datagram = order.number("pack").unwrap() as u32;
        Ok(Sending {
            sender,
            seed,
            extra,
            frames_per_datagram,
        })
    }

    /// Reads the file by the ticket's length, and sends the rows of all its codewords, with combinations of them, as frames
    /// in datagrams, and END. The answer is the status, which the report tells too.
    pub fn run<S: Source, P: Sink, O: Outlet>(
        self,
        source: &mut S,
        report: &mut P,
        outlet: &mut O,
    ) -> u8
        ensures sends { (words : List (List ℕ)) → AsksFor words self → Sends words (change (S.told source.old) (S.told source.new))
            (change (P.told report.old) (P.told report.new)) (change (O.told outlet.old) (O.told outlet.new)) result }
        ensures accepted { IsRefusalOfWords result → ⊥ }
        ensures unsent { (RanThrough result → ⊥) → (result ≡ 7 → ⊥) → outlet.new ≡ outlet.old }
    {
        let Sending {
            mut sender,
            seed,
            extra,
            frames_per_datagram,
        } = self;
        let mut rng = ChaCha20Rng::from_seed(seed);
        let sent = sender.send_all(source, &mut rng, extra, frames_per_datagram, outlet);
        match sent {
            Ok(sent) => conclude(Status::Done, sent_line(&sent).as_str(), report),
            Err(fault) => refuse(refusal_of(fault), report),
        }
    }
}

/// The line that tells how much was sent.
fn sent_line(sent: &Sent) -> LongLine
    ensures { result.bytes ≡ codes "datagrams " ++ decimal sent.now.datagrams ++ codes " frames " ++ decimal sent.now.frames ++ codes "\n" }
{
    let mut line = LongLine::new();
    push_count(&mut line, "datagrams ", sent.datagrams);
    push_count(&mut line, " frames ", sent.frames);
    line.push_str("\n");
    line
}

/// Why a run is refused whose file isn't sent.
fn refusal_of(fault: SendFault) -> Refusal
    ensures { result ≡ refusal_of fault }
{
    match fault {
        SendFault::Read => Refusal::Input,
        SendFault::Length { got, more } => Refusal::Length { got, more },
        SendFault::Outlet => Refusal::Outlet,
    }
}
