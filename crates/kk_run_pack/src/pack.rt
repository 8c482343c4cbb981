//! `pack`: a file comes in, and its capture goes out.
ghost use Rattle.std.specs.Prelude.{◌≡◌};
ghost use Rattle.kk_outside.specs.Change.{change};
ghost use Rattle.kk_report.specs.Command.{texts, IsRefusalOfWords, RanThrough};
ghost use Rattle.kk_run_pack.specs.Pack.{Packs};

use crate::Packing;
use kk_forms::{Argument, Form};
use kk_order::{OrderForm, TicketPlace, refuse_words};
use kk_outside::{Sink, Source};
use std::alloc::Global;

/// The words of `pack`: the ticket.
pub const PACK: OrderForm = OrderForm {
    words: Form {
        name: "pack",
        arguments: &[Argument::Word("TICKET")],
    },
    ticket: TicketPlace::First,
    bounds: &[],
    listeners: None,
};

/// Packs a file: reads it by the ticket's length, and writes the rows of all its codewords as frames, and END.
///
/// `words` are `pack` and the ticket. The answer is the status, which the report tells too. All memory is taken by
/// [`Packing::open`], which is handed neither source nor sink.
pub fn run_pack<S: Source, K: Sink, P: Sink>(
    alloc: Global,
    words: &[String],
    source: &mut S,
    file: &mut K,
    report: &mut P,
) -> u8
    ensures packs { Packs (texts words.now) (change (S.told source.old) (S.told source.new))
        (change (K.told file.old) (K.told file.new)) (change (P.told report.old) (P.told report.new)) result }

    // Nothing is read where the words are refused or there is no memory, and nothing is written on a refusal.
    ensures unread { IsRefusalOfWords result → source.new ≡ source.old }
    ensures unwritten { (RanThrough result → ⊥) → file.new ≡ file.old }
{
    match Packing::open(alloc, words) {
        Ok(packing) => packing.run(source, file, report),
        Err(fault) => refuse_words(fault, report),
    }
}
