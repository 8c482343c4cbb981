//! `unpack`: a capture of frames comes in, and the file goes out.
ghost use Rattle.std.specs.Prelude.{◌≡◌, [], Some};
ghost use Rattle.kk_outside.specs.Change.{change};
ghost use Rattle.kk_outside.specs.Source.{bytes_read};
ghost use Rattle.kk_report.specs.Command.{texts, IsRefusalOfWords, RanThrough};
ghost use Rattle.kk_order.specs.Order.{Order};
ghost use Rattle.kk_run_unpack.specs.Unpack.{UnpacksBy, Unpacks, max_pieces, unpacked};

use crate::unpacking::Unpacking;
use kk_forms::{Argument, Form};
use kk_order::{Bound, DATAGRAMS_LIMIT, Limit, OrderForm, TicketPlace, refuse_words};
use kk_outside::{Sink, Source};
use std::alloc::Global;

/// The words of `unpack`: the ticket, and how many pieces are taken at most.
pub const UNPACK: OrderForm = OrderForm {
    words: Form {
        name: "unpack",
        arguments: &[
            Argument::Word("TICKET"),
            Argument::NumberOption {
                name: "most",
                default: Some(10_000_000),
            },
        ],
    },
    ticket: TicketPlace::First,
    bounds: &[Bound {
        name: "most",
        least: 1,
        most: Limit::Exactly(DATAGRAMS_LIMIT),
    }],
    listeners: None,
};

/// Unpacks a capture: reads the frames of the source up to END, decodes each generation, writes the file, and reports
/// what became of each generation.
///
/// `words` are `unpack`, the ticket, and `--most N` where the number of pieces is given. The answer is the status, which
/// the report tells too. All memory is taken before the first call on the source or a sink.
pub fn run_unpack<S: Source, K: Sink, P: Sink>(
    alloc: Global,
    words: &[String],
    source: &mut S,
    file: &mut K,
    report: &mut P,
) -> u8
    ensures unpacks { Unpacks (texts words.now) (change (S.told source.old) (S.told source.new))
        (change (K.told file.old) (K.told file.new)) (change (P.told report.old) (P.told report.new)) result }

    // A refusal reads nothing, and only a file that has bytes makes a call on its sink.
    ensures unread { IsRefusalOfWords result → source.new ≡ source.old }
    ensures unwritten { (RanThrough result → ⊥) → file.new ≡ file.old }
    ensures no_bytes { (order : Order) → UnpacksBy order (texts words.now) result
        → unpacked order.ticket (max_pieces order) (bytes_read (change (S.told source.old) (S.told source.new))) ≡ Some [] → file.new ≡ file.old }
{
    match Unpacking::open(alloc, words) {
        Ok(unpacking) => unpacking.run(source, file, report),
        Err(fault) => refuse_words(fault, report),
    }
}
