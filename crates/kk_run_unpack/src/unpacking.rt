//! An unpacking: opened by its words, with all its memory, and then run.
ghost use Rattle.std.specs.Prelude.{◌≡◌, ℕ, List, [], Ok, Some, IfOk, IfErr};
ghost use Rattle.kk_outside.specs.Change.{change};
ghost use Rattle.kk_outside.specs.Source.{bytes_read};
ghost use Rattle.kk_report.specs.Command.{texts, IsRefusalOfWords, RanThrough};
ghost use Rattle.kk_order.specs.Order.{FitsLine, IsRefusedFor, cause_of, order_of};
ghost use Rattle.kk_run_unpack.specs.Unpack.{Unpacks, max_pieces, unpack_form, unpacked};

use crate::generations::Generations;
use crate::report::report_capture;
use crate::unpack::UNPACK;
use kk_order::{Order, OrderFault};
use kk_outcome::{deliver, room_of};
use kk_outside::{Room, Sink, Source};
use kk_report::{Refusal, refuse};
use std::alloc::Global;
use std::marker::Model;

/// An unpacking that is to be run: its order, and all its memory. Nothing of it can grow, and it lends no allocator, so a run
/// takes no memory.
#[derive(Drop)]
pub struct Unpacking {
    order: Order,
    /// How many pieces are taken at most.
    most: u32,
    generations: Generations,
    /// Room for the file.
    bytes: Room,
}

// Clauses see its order.
impl Model for Unpacking {
    ghost use Rattle.std.specs.Prelude.{◌≡◌, ◌≤◌, [], length};
    ghost use Rattle.kk_order.specs.Order.{Order as Ordered};
    ghost use Rattle.kk_run_unpack.specs.Spaces.{AreSpanned};
    ghost use Rattle.kk_run_unpack.specs.Unpack.{max_pieces};

    ghost Value = { Ordered };

    ghost view = { λ u. u.order };

    ghost invariant = { λ u. (u.most ≡ max_pieces u.order) × (1 ≤ u.most) × AreSpanned u.order.ticket u.generations.spaces [] × (length u.bytes ≡ u.order.ticket.length) };
}

impl Unpacking {
    /// An unpacking by these words: `unpack`, the ticket, and `--most N` where the number of pieces is given. It takes all the memory
    /// that a run needs, and calls nothing outside.
    ///
    /// # Errors
    ///
    /// Why the words are refused, or `Memory`.
    pub fn open(alloc: Global, words: &[String]) -> Result<Unpacking, OrderFault>
        ensures ordered { IfOk result (λ order. order_of unpack_form (texts words.now) ≡ Ok order) }
        ensures refused { IfErr result (λ fault. IsRefusedFor (order_of unpack_form (texts words.now)) (cause_of fault)) }
        ensures line { IfErr result (λ fault. FitsLine (cause_of fault)) }
    {
        let order = match UNPACK.read(alloc, words) {
            Ok(order) => order,
            Err(fault) => return Err(fault),
        };
        let most = order.number("most").unwrap() as u32;
        let Ok(generations) = Generations::new(alloc, order.ticket()) else {
            return Err(OrderFault::Memory);
        };
        let Ok(bytes) = room_of(alloc, order.ticket()) else {
            return Err(OrderFault::Memory);
        };
        Ok(Unpacking {
            order,
            most,
            generations,
            bytes,
        })
    }

    /// Reads the frames of the source up to END, decodes each generation, writes the file, and reports what became of each
    /// generation. The answer is the status, which is that of no refusal.
    pub fn run<S: Source, K: Sink, P: Sink>(
        self,
        source: &mut S,
        file: &mut K,
        report: &mut P,
    ) -> u8
        ensures unpacks { (words : List (List ℕ)) → order_of unpack_form words ≡ Ok self → Unpacks words (change (S.told source.old) (S.told source.new))
            (change (K.told file.old) (K.told file.new)) (change (P.told report.old) (P.told report.new)) result }
        ensures accepted { IsRefusalOfWords result → ⊥ }

        // Only a file that has bytes makes a call on its sink.
        ensures unwritten { (RanThrough result → ⊥) → file.new ≡ file.old }
        ensures no_bytes { unpacked self.ticket (max_pieces self) (bytes_read (change (S.told source.old) (S.told source.new))) ≡ Some []
            → file.new ≡ file.old }
    {
        let Unpacking {
            order,
            most,
            mut generations,
            mut bytes,
        } = self;
        let ticket = order.ticket();
        let Ok(counts) = generations.receive(ticket, most, source) else {
            return refuse(Refusal::Input, report);
        };
        generations.decode(ticket);
        let status = deliver(generations.answers(), ticket, bytes.as_mut_slice(), file);
        report_capture(
            status,
            &counts,
            generations.spaces(),
            generations.answers(),
            report,
        )
    }
}
