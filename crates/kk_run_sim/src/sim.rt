//! `sim`: a file from a seed goes through an operator channel to a receiver, and a summary comes out.
ghost use Rattle.std.specs.Prelude.{◌≡◌, []};
ghost use Rattle.kk_outside.specs.Change.{change};
ghost use Rattle.kk_report.specs.Command.{texts, IsRefusalOfWords};
ghost use Rattle.kk_run_sim.specs.Sim.{Simulates};

use crate::Simulating;
use kk_forms::{Argument, Form};
use kk_order::{Bound, Limit, OrderForm, TicketPlace, refuse_words};
use kk_outside::Sink;
use kk_table::Logs;
use kk_workers::MAX_GATES;
use std::alloc::Global;
use std::thread::Threads;

/// The words of `sim`: the ticket, what a channel does to each generation, how many gates hear it, and the seed.
pub const SIM: OrderForm = OrderForm {
    words: Form {
        name: "sim",
        arguments: &[
            Argument::Word("TICKET"),
            Argument::NumberWord("erase"),
            Argument::NumberWord("inject"),
            Argument::NumberWord("gates"),
            Argument::TextOption("seed"),
        ],
    },
    ticket: TicketPlace::First,
    bounds: &[
        Bound {
            name: "erase",
            least: 0,
            most: Limit::Points,
        },
        Bound {
            name: "inject",
            least: 0,
            most: Limit::Degree,
        },
        Bound {
            name: "gates",
            least: 1,
            most: Limit::Exactly(MAX_GATES as u64),
        },
    ],
    listeners: None,
};

/// Makes a file from a seed, passes each of its generations through an operator channel, deals the frames over gates in memory,
/// receives from them with a worker each, and reports a summary, which is the same for each number of gates.
///
/// `words` are `sim`, the ticket, how many dimensions of each generation the channel erases and how many it injects, how many
/// gates there are, and `--seed`. The answer is the status. All memory is taken before the first call on the report's sink.
/// `logs` is empty before, and holds the logs of this run after 0, 3 and 5.
pub fn run_sim<R: Threads + Sync, P: Sink>(
    rt: &R,
    alloc: Global,
    words: &[String],
    report: &mut P,
    logs: &mut Vec<Logs>,
) -> u8
    requires no_logs { logs.old.items ≡ [] }
    ensures simulates { Simulates (texts words.now) (change (P.told report.old) (P.told report.new)) logs.new.items result }
    ensures none_left { IsRefusalOfWords result → logs.new.items ≡ [] }
{
    match Simulating::open(alloc, words) {
        Ok(simulating) => simulating.run(rt, report, logs),
        Err(fault) => refuse_words(fault, report),
    }
}
