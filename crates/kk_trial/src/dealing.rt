//! Frames, dealt over gates.
ghost use Rattle.std.specs.Prelude.{◌≡◌, ◌≤◌, map, All, IfOk};
ghost use Rattle.std.specs.List.{range_with_len};
ghost use Rattle.kk_outside.specs.declared.event.Event.TheVariants.{Datagram};
ghost use Rattle.kk_outside.specs.GateState.{unasked};
ghost use Rattle.kk_frame.specs.Frame.{Vector, IsFrame, frame_text};
ghost use Rattle.kk_frame.specs.FrameView.{value, pairs};
ghost use Rattle.kk_trial.specs.Trial.{dealt, trial_events};

use kk_code::Ticket;
use kk_frame::{Frame, frame_bytes};
use kk_outside::{Alloc, Bytes, Event, MemoryGate};
use kk_rows::Row;
use std::alloc::Global;

/// So many gates, over which the frames of these generations and rows are dealt: number i is one datagram of gate i modulo the
/// number of gates.
pub(crate) fn deal(
    alloc: Global,
    ticket: &Ticket,
    frames: &[(u32, Row)],
    gates: u32,
) -> Result<Vec<MemoryGate>, Alloc>
    requires frames { All (λ f. IsFrame ticket.now (Vector f.0 f.1)) (pairs frames.now) }
    requires some { 1 ≤ gates }
    ensures { IfOk result (λ all. all.items ≡ map (λ i. unasked (trial_events ticket.now (dealt gates i (pairs frames.now)))) (range_with_len 0 gates)) }
{
    let mut all = Vec::new(alloc);
    for i in 0..gates {
        all.push(gate_of(alloc, ticket, frames, gates, i)?)?;
    }
    Ok(all)
}

/// Gate number i of so many.
fn gate_of(
    alloc: Global,
    ticket: &Ticket,
    frames: &[(u32, Row)],
    gates: u32,
    i: u32,
) -> Result<MemoryGate, Alloc>
    requires frames { All (λ f. IsFrame ticket.now (Vector f.0 f.1)) (pairs frames.now) }
    requires some { 1 ≤ gates }
    ensures { IfOk result (λ gate. gate ≡ unasked (trial_events ticket.now (dealt gates i (pairs frames.now)))) }
{
    let mut events = Vec::new(alloc);
    for (number, (generation, row)) in frames.iter().enumerate() {
        if number % gates as usize == i as usize {
            events.push(datagram(alloc, ticket, *generation, *row)?)?;
        }
    }
    Ok(MemoryGate::new(events))
}

/// A data frame as a datagram of its own.
fn datagram(alloc: Global, ticket: &Ticket, generation: u32, row: Row) -> Result<Event, Alloc>
    requires { IsFrame ticket.now (Vector generation row.0) }
    ensures { IfOk result (λ event. event ≡ Datagram (frame_text ticket.now (Vector generation row.0))) }
{
    let bytes = frame_bytes(&Frame::Vector { generation, row }, ticket);
    Ok(Event::Datagram(Bytes::new(bytes.to_vec(alloc)?)))
}
