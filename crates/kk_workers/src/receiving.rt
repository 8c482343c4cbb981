//! What a receiver does as one call, from its opening on.
ghost use Rattle.std.specs.Prelude.{◌≡◌, ◌≤◌, length, IfOk, OnOk, OnErr};
ghost use Rattle.kk_code.specs.Ticket.{generations};
ghost use Rattle.kk_workers.specs.Received.{changes, HasOneHistory, AddUp};
ghost use Rattle.kk_workers.specs.declared.running.TheConstants.{MAX_GATES};

use crate::{Plan, Received, Receiver};
use kk_code::Ticket;
use kk_outside::Gate;
use kk_rows::Alloc;
use std::alloc::Global;
use std::thread::Threads;

/// Receives from all gates, each with a worker in a thread of its own, closes what is then open, and decodes each generation:
/// [`Receiver::new`], and then [`Receiver::receive`].
///
/// # Errors
///
/// [`Alloc`] where there is no memory, before the first call on a gate. After either answer the gates stand in the vector as
/// before.
pub fn receive<R: Threads + Sync, G: Gate + Send>(
    rt: &R,
    alloc: Global,
    ticket: &Ticket,
    gates: &mut Vec<G>,
    plan: &Plan,
) -> Result<Received, Alloc>
    requires few { length gates.old.items ≤ MAX_GATES }
    requires idle { 1 ≤ plan.now.limits.idle }
    requires most { 1 ≤ plan.now.limits.most }
    ensures err { OnErr result (gates.new.items ≡ gates.old.items) }
    ensures same_gates { OnOk result (length gates.new.items ≡ length gates.old.items) }
    ensures one_count_each { IfOk result (λ received. length received.gates ≡ length gates.old.items) }
    ensures one_answer_each { IfOk result (λ received. length received.answers ≡ generations ticket.now) }
    ensures one_history { IfOk result (HasOneHistory ticket.now plan.now (changes G.told gates.old.items gates.new.items)) }
    ensures add_up { IfOk result (AddUp ticket.now plan.now (changes G.told gates.old.items gates.new.items)) }
{
    let receiver = Receiver::new(alloc, ticket, gates.len())?;
    Ok(receiver.receive(rt, gates, plan))
}
