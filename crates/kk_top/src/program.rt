//! The whole program, over the objects that it is handed.
ghost use Rattle.std.specs.Prelude.{◌≡◌, ◌⊎◌, ◌≤◌, ℕ, [], Some, None, Ok, false, length, drop, map};
ghost use Rattle.kk_outside.specs.Change.{change};
ghost use Rattle.kk_outside.specs.Source.{bytes_read};
ghost use Rattle.kk_workers.specs.Received.{changes};
ghost use Rattle.kk_report.specs.Command.{texts, IsRefusalOfWords, RanThrough};
ghost use Rattle.kk_run_recv.specs.Receiver.{received};
ghost use Rattle.kk_run_pack.specs.Pack.{Packs};
ghost use Rattle.kk_run_plan.specs.Plan.{Plans, plan_form};
ghost use Rattle.kk_run_relay.specs.Relay.{Relays};
ghost use Rattle.kk_run_recv.specs.Recv.{Receives, limits_of, recv_form};
ghost use Rattle.kk_run_send.specs.Send.{Sends};
ghost use Rattle.kk_run_sim.specs.Sim.{Simulates};
ghost use Rattle.kk_order.specs.Order.{Order, Words, order_of};
ghost use Rattle.kk_order.specs.Refuses.{TellsCause};
ghost use Rattle.kk_run_unpack.specs.Unpack.{Unpacks, UnpacksBy, max_pieces, unpacked};
ghost use Rattle.kk_words.specs.Commands.{named_in};
ghost use Rattle.kk_workers.specs.declared.running.TheConstants.{MAX_GATES};
ghost use Rattle.kk_top.specs.Ends.{uses};

use kk_order::{OrderFault, refuse_words};
use kk_outside::{Gate, Outlet, Sink, Source};
use kk_run_pack::run_pack;
use kk_run_plan::run_plan;
use kk_run_recv::run_recv;
use kk_run_relay::run_relay;
use kk_run_send::run_send;
use kk_run_sim::run_sim;
use kk_run_unpack::run_unpack;
use kk_table::Logs;
use kk_words::{Command, command_in};
use std::alloc::Global;
use std::thread::Threads;

/// Runs the command that the words name, and answers its status.
///
/// `words` are those of the command line, without the program's name. The commands are `plan`, `pack`,
/// `unpack`, `send`, `relay`, `recv` and `sim`. `rt` starts threads, and nothing can be printed or opened by it. `logs` is empty
/// before, and `recv` and `sim` leave their logs there.
pub fn run<R: Threads + Sync, S: Source, K: Sink, P: Sink, G: Gate + Send, O: Outlet>(
    rt: &R,
    alloc: Global,
    words: &[String],
    source: &mut S,
    file: &mut K,
    report: &mut P,
    gates: &mut Vec<G>,
    outlet: &mut O,
    logs: &mut Vec<Logs>,
) -> u8
    requires few { length gates.old.items ≤ MAX_GATES }
    requires no_logs { logs.old.items ≡ [] }

    // No command is named.
    ensures unnamed { named_in (texts words.now) ≡ None → TellsCause Words result (change (P.told report.old) (P.told report.new)) }

    // What each command promises.
    ensures plans { named_in (texts words.now) ≡ Some Command.Plan
        → Plans (texts words.now) (change (S.told source.old) (S.told source.new))
        (change (K.told file.old) (K.told file.new)) (change (P.told report.old) (P.told report.new)) result }
    ensures packs { named_in (texts words.now) ≡ Some Command.Pack
        → Packs (texts words.now) (change (S.told source.old) (S.told source.new))
        (change (K.told file.old) (K.told file.new)) (change (P.told report.old) (P.told report.new)) result }
    ensures unpacks { named_in (texts words.now) ≡ Some Command.Unpack
        → Unpacks (texts words.now) (change (S.told source.old) (S.told source.new))
        (change (K.told file.old) (K.told file.new)) (change (P.told report.old) (P.told report.new)) result }

    ensures sends { named_in (texts words.now) ≡ Some Command.Send
        → Sends (texts words.now) (change (S.told source.old) (S.told source.new))
        (change (P.told report.old) (P.told report.new)) (change (O.told outlet.old) (O.told outlet.new)) result }
    ensures relays { named_in (texts words.now) ≡ Some Command.Relay
        → Relays (texts words.now) (change (map G.told gates.old.items) (map G.told gates.new.items))
        (change (P.told report.old) (P.told report.new)) (change (O.told outlet.old) (O.told outlet.new)) result }
    ensures receives { named_in (texts words.now) ≡ Some Command.Recv
        → Receives (texts words.now) (changes G.told gates.old.items gates.new.items)
        (change (K.told file.old) (K.told file.new)) (change (P.told report.old) (P.told report.new)) logs.new.items result }
    ensures simulates { named_in (texts words.now) ≡ Some Command.Sim
        → Simulates (texts words.now) (change (P.told report.old) (P.told report.new)) logs.new.items result }

    // What the command doesn't use stays as it was.
    ensures source { (uses (texts words.now)).source ≡ false → source.new ≡ source.old }
    ensures file { (uses (texts words.now)).file ≡ false → file.new ≡ file.old }
    ensures gates { (uses (texts words.now)).gates ≡ false → gates.new ≡ gates.old }
    ensures outlet { (uses (texts words.now)).outlet ≡ false → outlet.new ≡ outlet.old }
    ensures logs { (uses (texts words.now)).logs ≡ false → logs.new ≡ logs.old }

    // A run that ended at once read nothing; of `plan` that is one whose words have no order, or that had no memory.
    ensures unread { (named_in (texts words.now) ≡ Some Command.Plan → ⊥) → IsRefusalOfWords result → source.new ≡ source.old }
    ensures unread_by_plan { named_in (texts words.now) ≡ Some Command.Plan
        → (result ≡ 1) ⊎ ((result ≡ 8) ⊎ ((order : Order) → order_of plan_form (texts words.now) ≡ Ok order → ⊥)) → source.new ≡ source.old }

    // The file's sink is called only by a run that came to its end, and only for a file that has bytes.
    ensures unwritten { (RanThrough result → ⊥) → file.new ≡ file.old }
    ensures no_bytes_unpacked { (order : Order) → UnpacksBy order (texts words.now) result
        → unpacked order.ticket (max_pieces order) (bytes_read (change (S.told source.old) (S.told source.new))) ≡ Some [] → file.new ≡ file.old }
    ensures no_bytes_received { (order : Order) → order_of recv_form (texts words.now) ≡ Ok order → (IsRefusalOfWords result → ⊥)
        → received order.ticket (limits_of order) (changes G.told gates.old.items gates.new.items) ≡ Some [] → file.new ≡ file.old }

    // `relay` receives from the first gate alone, and no gate is asked by a run that ended at once.
    ensures others { named_in (texts words.now) ≡ Some Command.Relay → drop 1 gates.new.items ≡ drop 1 gates.old.items }
    ensures unasked { named_in (texts words.now) ≡ Some Command.Relay → IsRefusalOfWords result → gates.new ≡ gates.old }
    ensures none_asked { named_in (texts words.now) ≡ Some Command.Recv → IsRefusalOfWords result → gates.new.items ≡ gates.old.items }
    ensures same_gates { named_in (texts words.now) ≡ Some Command.Recv → length gates.new.items ≡ length gates.old.items }

    // Nothing is sent by a run that ended at once, and by `send` not where its file wasn't read.
    ensures unsent { IsRefusalOfWords result → outlet.new ≡ outlet.old }
    ensures no_file_sent { named_in (texts words.now) ≡ Some Command.Send → (RanThrough result → ⊥) → (result ≡ 7 → ⊥) → outlet.new ≡ outlet.old }

    // A run that ended at once leaves no log.
    ensures none_left { IsRefusalOfWords result → logs.new.items ≡ [] }
{
    let Some(command) = command_in(words) else {
        return refuse_words(OrderFault::Words, report);
    };
    match command {
        Command::Plan => run_plan(alloc, words, source, file, report),
        Command::Pack => run_pack(alloc, words, source, file, report),
        Command::Unpack => run_unpack(alloc, words, source, file, report),
        Command::Send => run_send(alloc, words, source, report, outlet),
        Command::Relay => run_relay(alloc, words, report, gates, outlet),
        Command::Recv => run_recv(rt, alloc, words, file, report, gates, logs),
        Command::Sim => run_sim(rt, alloc, words, report, logs),
    }
}
