//! `relay`: the data frames of a gate come in, and combinations of their rows go out.
ghost use Rattle.std.specs.Prelude.{◌≡◌, drop, map};
ghost use Rattle.kk_outside.specs.Change.{change};
ghost use Rattle.kk_report.specs.Command.{texts, IsRefusalOfWords};
ghost use Rattle.kk_run_relay.specs.Relay.{Relays};

use crate::Relaying;
use kk_forms::{Argument, Form};
use kk_order::{Bound, DATAGRAMS_LIMIT, Limit, OrderForm, QUIETS_LIMIT, TicketPlace, refuse_words};
use kk_outside::{Gate, Outlet, Sink};
use kk_relay::MAX_RATE;
use std::alloc::Global;

/// The words of `relay`: the ticket, the address to send to and the one to listen at, the seed, how many combinations are sent
/// for each data frame, and when the gate is given up.
pub const RELAY: OrderForm = OrderForm {
    words: Form {
        name: "relay",
        arguments: &[
            Argument::Word("TICKET"),
            Argument::Word("TARGET"),
            Argument::Word("LISTEN"),
            Argument::TextOption("seed"),
            Argument::NumberOption {
                name: "rate",
                default: Some(1),
            },
            Argument::NumberOption {
                name: "idle",
                default: Some(300),
            },
            Argument::NumberOption {
                name: "most",
                default: Some(10_000_000),
            },
        ],
    },
    ticket: TicketPlace::First,
    bounds: &[
        Bound {
            name: "rate",
            least: 0,
            most: Limit::Exactly(MAX_RATE as u64),
        },
        Bound {
            name: "idle",
            least: 1,
            most: Limit::Exactly(QUIETS_LIMIT),
        },
        Bound {
            name: "most",
            least: 1,
            most: Limit::Exactly(DATAGRAMS_LIMIT),
        },
    ],
    listeners: None,
};

/// Relays what the first gate gives: takes its data frames up to its stop, sends combinations of the rows of their
/// generations, and END.
///
/// `words` are `relay`, the ticket, the target and the address to listen at, which whoever made outlet and gate has read, and
/// the options `--seed`, `--rate`, `--idle` and `--most`. The answer is the status, which the report tells too. All memory
/// is taken by [`Relaying::open`], which is handed neither gate nor report nor outlet.
pub fn run_relay<P: Sink, G: Gate + Send, O: Outlet>(
    alloc: Global,
    words: &[String],
    report: &mut P,
    gates: &mut Vec<G>,
    outlet: &mut O,
) -> u8
    ensures relays { Relays (texts words.now) (change (map G.told gates.old.items) (map G.told gates.new.items))
        (change (P.told report.old) (P.told report.new)) (change (O.told outlet.old) (O.told outlet.new)) result }

    // Nothing is asked or sent where the run is refused before, and only the first gate is asked.
    ensures unasked { IsRefusalOfWords result → gates.new ≡ gates.old }
    ensures unsent { IsRefusalOfWords result → outlet.new ≡ outlet.old }
    ensures others { drop 1 gates.new.items ≡ drop 1 gates.old.items }
{
    let relaying = match Relaying::open(alloc, words, gates.len()) {
        Ok(relaying) => relaying,
        Err(fault) => return refuse_words(fault, report),
    };
    relaying.run(&mut gates[0], report, outlet)
}
