//! `plan`: the ticket of a file, from how many bytes the source has.
ghost use Rattle.std.specs.Prelude.{◌≡◌, ◌⊎◌, Ok};
ghost use Rattle.kk_outside.specs.Change.{change};
ghost use Rattle.kk_report.specs.Command.{texts, RanThrough};
ghost use Rattle.kk_order.specs.Order.{Order, order_of};
ghost use Rattle.kk_run_plan.specs.Plan.{Plans, plan_form};

use crate::Planning;
use kk_forms::{Argument, Form};
use kk_order::{OrderForm, TicketPlace, refuse_words};
use kk_outside::{Sink, Source};
use std::alloc::Global;

/// The words of `plan`: a session, the code's parameters, and nothing on the file, whose length the source tells.
pub const PLAN: OrderForm = OrderForm {
    words: Form {
        name: "plan",
        arguments: &[
            Argument::Word("SESSION"),
            Argument::Word("M"),
            Argument::Word("MOD"),
            Argument::Word("L"),
            Argument::Word("K"),
        ],
    },
    ticket: TicketPlace::Parts,
    bounds: &[],
    listeners: None,
};

/// Reads the source to its end, and writes the ticket of a file of that length and a line feed.
///
/// `words` are `plan` and the ticket's SESSION, M, MOD, L and K. At the first byte that makes more generations than a
/// ticket has it stops. The answer is the status, which the report tells too. All memory, at most 2 MB, is taken by
/// [`Planning::open`], which is handed neither source nor sink.
pub fn run_plan<S: Source, K: Sink, P: Sink>(
    alloc: Global,
    words: &[String],
    source: &mut S,
    file: &mut K,
    report: &mut P,
) -> u8
    ensures plans { Plans (texts words.now) (change (S.told source.old) (S.told source.new))
        (change (K.told file.old) (K.told file.new)) (change (P.told report.old) (P.told report.new)) result }

    // Nothing is read where the words are refused or there is no memory, and nothing is written on a refusal.
    ensures unread { (result ≡ 1) ⊎ ((result ≡ 8) ⊎ ((order : Order) → order_of plan_form (texts words.now) ≡ Ok order → ⊥)) → source.new ≡ source.old }
    ensures unwritten { (RanThrough result → ⊥) → file.new ≡ file.old }
{
    match Planning::open(alloc, words) {
        Ok(planning) => planning.run(source, file, report),
        Err(fault) => refuse_words(fault, report),
    }
}
