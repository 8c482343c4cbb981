//! `recv`: all gates are received from at once, and the file goes out.
ghost use Rattle.std.specs.Prelude.{◌≡◌, ◌≤◌, [], Ok, Some, length};
ghost use Rattle.kk_outside.specs.Change.{change};
ghost use Rattle.kk_workers.specs.Received.{changes};
ghost use Rattle.kk_report.specs.Command.{texts, IsRefusalOfWords, RanThrough};
ghost use Rattle.kk_run_recv.specs.Receiver.{received};
ghost use Rattle.kk_order.specs.Order.{Order, order_of};
ghost use Rattle.kk_run_recv.specs.Recv.{Receives, limits_of, recv_form};
ghost use Rattle.kk_workers.specs.declared.running.TheConstants.{MAX_GATES};

use crate::Receiving;
use kk_forms::{Argument, Form};
use kk_order::{Bound, DATAGRAMS_LIMIT, Limit, OrderForm, QUIETS_LIMIT, TicketPlace, refuse_words};
use kk_outside::{Gate, Sink};
use kk_table::Logs;
use kk_workers::MAX_GATES;
use std::alloc::Global;
use std::thread::Threads;

/// The words of `recv`: the ticket, the addresses of the gates, when a gate is given up, and how many injected dimensions are
/// tolerated.
pub const RECV: OrderForm = OrderForm {
    words: Form {
        name: "recv",
        arguments: &[
            Argument::Word("TICKET"),
            Argument::Words("LISTEN"),
            Argument::NumberOption {
                name: "idle",
                default: Some(300),
            },
            Argument::NumberOption {
                name: "most",
                default: Some(10_000_000),
            },
            Argument::NumberOption {
                name: "tolerate",
                default: None,
            },
        ],
    },
    ticket: TicketPlace::First,
    bounds: &[
        Bound {
            name: "idle",
            least: 1,
            most: Limit::Exactly(QUIETS_LIMIT),
        },
        Bound {
            name: "most",
            least: 1,
            most: Limit::Exactly(DATAGRAMS_LIMIT),
        },
        Bound {
            name: "tolerate",
            least: 0,
            most: Limit::Tolerated,
        },
    ],
    listeners: Some(MAX_GATES as u32),
};

/// Receives from all gates, each with a worker in a thread of its own, decodes each generation, writes the file, and reports
/// what became of gates and generations.
///
/// `words` are `recv`, the ticket, the addresses of the gates, `--idle N` and `--most N` where the limits of a gate are given,
/// and `--tolerate N` where each generation is to be closed at rank k + 2·N, since at most N dimensions are injected into it.
/// The answer is the status, which the report tells too. All memory is taken before the first call on a gate or a sink. `logs` is empty before, and holds the logs of this run after 0, 3, 5 and 6.
pub fn run_recv<R: Threads + Sync, K: Sink, P: Sink, G: Gate + Send>(
    rt: &R,
    alloc: Global,
    words: &[String],
    file: &mut K,
    report: &mut P,
    gates: &mut Vec<G>,
    logs: &mut Vec<Logs>,
) -> u8
    requires few { length gates.old.items ≤ MAX_GATES }
    requires no_logs { logs.old.items ≡ [] }
    ensures receives { Receives (texts words.now) (changes G.told gates.old.items gates.new.items)
        (change (K.told file.old) (K.told file.new)) (change (P.told report.old) (P.told report.new)) logs.new.items result }
    ensures same_gates { length gates.new.items ≡ length gates.old.items }

    // A refusal asks no gate and leaves no logs, and only a file that has bytes makes a call on its sink.
    ensures unasked { IsRefusalOfWords result → gates.new.items ≡ gates.old.items }
    ensures none_left { IsRefusalOfWords result → logs.new.items ≡ [] }
    ensures unwritten { (RanThrough result → ⊥) → file.new ≡ file.old }
    ensures no_bytes { (order : Order) → order_of recv_form (texts words.now) ≡ Ok order → (IsRefusalOfWords result → ⊥)
        → received order.ticket (limits_of order) (changes G.told gates.old.items gates.new.items) ≡ Some [] → file.new ≡ file.old }
{
    match Receiving::open(alloc, words, gates.len()) {
        Ok(receiving) => receiving.run(rt, file, report, gates, logs),
        Err(fault) => refuse_words(fault, report),
    }
}
