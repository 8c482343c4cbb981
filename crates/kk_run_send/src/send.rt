//! `send`: a file comes in, and goes out in datagrams.
ghost use Rattle.std.specs.Prelude.{◌≡◌};
ghost use Rattle.kk_outside.specs.Change.{change};
ghost use Rattle.kk_report.specs.Command.{texts, IsRefusalOfWords, RanThrough};
ghost use Rattle.kk_run_send.specs.Send.{Sends};

use crate::Sending;
use kk_forms::{Argument, Form};
use kk_frame::MAX_DATAGRAM_FRAMES;
use kk_order::{Bound, Limit, OrderForm, TicketPlace, refuse_words};
use kk_outside::{Outlet, Sink, Source};
use kk_sender::MAX_EXTRA;
use std::alloc::Global;

/// The words of `send`: the ticket, the target, the seed, how many combinations of each generation are sent, and how many
/// frames a datagram has.
pub const SEND: OrderForm = OrderForm {
    words: Form {
        name: "send",
        arguments: &[
            Argument::Word("TICKET"),
            Argument::Word("TARGET"),
            Argument::TextOption("seed"),
            Argument::NumberOption {
                name: "extra",
                default: Some(0),
            },
            Argument::NumberOption {
                name: "pack",
                default: Some(32),
            },
        ],
    },
    ticket: TicketPlace::First,
    bounds: &[
        Bound {
            name: "extra",
            least: 0,
            most: Limit::Exactly(MAX_EXTRA as u64),
        },
        Bound {
            name: "pack",
            least: 1,
            most: Limit::Exactly(MAX_DATAGRAM_FRAMES as u64),
        },
    ],
    listeners: None,
};

/// Sends a file: reads it by the ticket's length, and sends the rows of all its codewords, with combinations of them, as
/// frames in datagrams, and END.
///
/// `words` are `send`, the ticket, the target, which whoever made the outlet has read, and the options `--seed`, `--extra`
/// and `--pack`. The answer is the status, which the report tells too. All memory is taken by [`Sending::open`], which is
/// handed neither source nor report nor outlet.
pub fn run_send<S: Source, P: Sink, O: Outlet>(
    alloc: Global,
    words: &[String],
    source: &mut S,
    report: &mut P,
    outlet: &mut O,
) -> u8
    ensures sends { Sends (texts words.now) (change (S.told source.old) (S.told source.new))
        (change (P.told report.old) (P.told report.new)) (change (O.told outlet.old) (O.told outlet.new)) result }

    // Nothing is read where the words are refused or there is no memory, and nothing is sent on a refusal but 7.
    ensures unread { IsRefusalOfWords result → source.new ≡ source.old }
    ensures unsent { (RanThrough result → ⊥) → (result ≡ 7 → ⊥) → outlet.new ≡ outlet.old }
{
    match Sending::open(alloc, words) {
        Ok(sending) => sending.run(source, report, outlet),
        Err(fault) => refuse_words(fault, report),
    }
}
