//! Relays under the ticket of a file of one byte.
ghost use Rattle.std.specs.Prelude.{◌≡◌, ◌≤◌, length, IfOk, IfSome};
ghost use Rattle.kk_code.specs.Ticket.{generations};
ghost use Rattle.kk_outside.specs.Change.{change};
ghost use Rattle.kk_outside.specs.Gate.{FitsGate, events_told};
ghost use Rattle.kk_outside.specs.Outlet.{append_datagrams};
ghost use Rattle.kk_relay.specs.Relaying.{relay_list};
ghost use Rattle.kk_outside.specs.Generator.{word_at};

use crate::words::Words;
use kk_code::Ticket;
use kk_frame::{Ended, Limits};
use kk_outside::{Bytes, Event, Gate, MemoryGate, MemoryOutlet, Outlet};
use kk_relay::{Relay, RelayFault, Relayed};
use kk_rows::Row;
use kk_worked::{ONE_BYTE, frame};
use rand_core::Rng;
use std::alloc::{AllocError, Global};
use std::process::Abort;
use std::test::*;

/// Relays what a gate gives, with one combination for each data frame, and answers how many these were, where nothing failed.
fn relay_gate<G: Gate, O: Outlet, R: Rng>(
    alloc: Global,
    ticket: &Ticket,
    gate: &mut G,
    outlet: &mut O,
    rng: &mut R,
) -> Option<u64>
    ensures { IfSome result (λ _. (O.told outlet.new).sends ≡ append_datagrams (O.told outlet.old).sends
        (relay_list ticket.now (record { idle = 300; most = 1000 }) 1 (word_at (R.stream rng.old)) (events_told (change (G.told gate.old) (G.told gate.new))))) }
{
    let limits = Limits {
        idle: 300,
        most: 1000,
    };
    let mut relay = Relay::new(alloc, ticket).ok()?;
    let relayed = relay.relay_all(ticket, gate, outlet, rng, 1, &limits).ok()?;
    Some(relayed.sent)
}

/// Words by which the first row is sent and then the sum of both, and by which the row 0 is sent and then the second.
const ONE_AND_THREES: [u64; 11] = [1, 3, 3, 0, 0, 0, 0, 0, 0, 0, 0];

const ZERO_AND_TWO: [u64; 11] = [0, 2, 0, 0, 0, 0, 0, 0, 0, 0, 0];

const LIMITS: Limits = Limits { idle: 2, most: 10 };

/// The ticket of a file of one byte: three generations of three rows, each of six bits.
fn one_byte(rt: &impl Abort) -> Result<Ticket, Fail>
    ensures { IfOk result (λ t. generations t ≡ 3) }
{
    let ticket = Ticket::read(ONE_BYTE)?;
    assert_eq!(rt; ticket.generations(), 3);
    Ok(ticket)
}

/// A datagram of one frame.
fn datagram(alloc: Global, kind: u8, row: u8) -> Result<Event, AllocError>
    ensures { IfOk result FitsGate }
{
    Ok(Event::Datagram(Bytes::new(frame(kind, 0, row).to_vec(alloc)?)))
}

/// A gate that gives the rows 13 and 17 of generation 0, and then the last event.
fn two_rows(alloc: Global, last: Event) -> Result<MemoryGate, Fail>
    requires { FitsGate last }
{
    let mut events = Vec::new(alloc);
    events.push(datagram(alloc, 0, 13)?)?;
    events.push(datagram(alloc, 0, 17)?)?;
    events.push(last)?;
    Ok(MemoryGate::new(events))
}

/// How two rows are relayed: which sends fail, and how many combinations are sent for a data frame.
#[derive(Clone, Copy, Drop)]
struct Setting<'a> {
    fails: &'a [u64],
    rate: u32,
}

/// One combination for each data frame, and no send that fails.
const PLAIN: Setting<'static> = Setting {
    fails: &[],
    rate: 1,
};

/// What a relaying told, what was sent, and what the relay holds.
#[derive(Drop)]
struct Outcome {
    told: Result<Relayed, RelayFault>,
    outlet: MemoryOutlet,
    relay: Relay,
    next_word: u64,
}

/// Relays the rows 13 and 17, and then the last event.
fn relay_rows(
    rt: &impl Abort,
    alloc: Global,
    last: Event,
    setting: &Setting,
) -> Result<Outcome, Fail>
    requires last { FitsGate last }
    requires rate { setting.now.rate ≤ 16 }
    ensures { IfOk result (λ o. length o.relay ≡ 3) }
{
    let ticket = one_byte(rt)?;
    let mut gate = two_rows(alloc, last)?;
    let mut outlet = MemoryOutlet::new(alloc, 100, setting.fails.to_vec(alloc)?)?;
    let mut rng = Words::new(ONE_AND_THREES);
    let mut relay = Relay::new(alloc, &ticket)?;
    let told = relay.relay_all(
        &ticket,
        &mut gate,
        &mut outlet,
        &mut rng,
        setting.rate,
        &LIMITS,
    );
    Ok(Outcome {
        told,
        outlet,
        relay,
        next_word: rng.next_u64(),
    })
}

/// Whether exactly these kinds and rows of generation 0 were sent, each as a datagram of its own.
fn has_sent(outlet: &MemoryOutlet, frames: &[(u8, u8)]) -> bool {
    if outlet.sent() != frames.len() {
        return false;
    }
    for (i, (kind, row)) in frames.iter().enumerate() {
        if outlet.datagram(i) != frame(*kind, 0, *row).as_slice() {
            return false;
        }
    }
    true
}

/// Whether the relay told this end, so many innovative rows, and so many data frames that were sent, of two that came.
fn has_told(told: &Result<Relayed, RelayFault>, ended: Ended, innovative: u64, sent: u64) -> bool {
    match told {
        Ok(told) => {
            told.gate.ended == Some(ended)
                && told.gate.frames == 2
                && told.innovative == innovative
                && told.sent == sent
        }
        Err(_) => false,
    }
}

#[test]
fn two_rows_and_the_end(rt: HostRuntime) -> Result<(), Fail> {
    let alloc = rt.alloc();
    let outcome = relay_rows(&rt, alloc, datagram(alloc, 1, 0)?, &PLAIN)?;
    assert!(rt; has_told(&outcome.told, Ended::End, 2, 2));
    assert!(rt; has_sent(&outcome.outlet, &[(0, 13), (0, 28), (1, 0)]));
    assert_eq!(rt; outcome.relay.rows(0), [Row(13), Row(17)].as_slice());
    assert_eq!(rt; outcome.relay.rows(1).len(), 0);
    Ok(())
}

#[test]
fn no_end_after_a_fault(rt: HostRuntime) -> Result<(), Fail> {
    let outcome = relay_rows(&rt, rt.alloc(), Event::Fault, &PLAIN)?;
    assert_eq!(rt; outcome.told, Err(RelayFault::Gate));
    assert!(rt; has_sent(&outcome.outlet, &[(0, 13), (0, 28)]));
    assert_eq!(rt; outcome.relay.rows(0), [Row(13), Row(17)].as_slice());
    Ok(())
}

#[test]
fn nothing_is_sent_after_a_send_that_failed(rt: HostRuntime) -> Result<(), Fail> {
    let alloc = rt.alloc();
    let setting = Setting {
        fails: &[1],
        ..PLAIN
    };
    let outcome = relay_rows(&rt, alloc, datagram(alloc, 1, 0)?, &setting)?;
    assert_eq!(rt; outcome.told, Err(RelayFault::Outlet));
    assert!(rt; has_sent(&outcome.outlet, &[(0, 13)]));
    assert_eq!(rt; outcome.relay.rows(0), [Row(13), Row(17)].as_slice());
    Ok(())
}

#[test]
fn a_rate_of_0_sends_the_end_alone(rt: HostRuntime) -> Result<(), Fail> {
    let outcome = relay_rows(&rt, rt.alloc(), Event::Quiet, &Setting { rate: 0, ..PLAIN })?;
    assert!(rt; has_told(&outcome.told, Ended::Over, 2, 0));
    assert!(rt; has_sent(&outcome.outlet, &[(1, 0)]));
    assert_eq!(rt; outcome.next_word, 1);
    Ok(())
}

#[test]
fn a_combination_that_is_the_row_0_is_sent(rt: HostRuntime) -> Result<(), Fail> {
    let alloc = rt.alloc();
    let ticket = one_byte(&rt)?;
    let mut gate = two_rows(alloc, datagram(alloc, 1, 0)?)?;
    let mut outlet = MemoryOutlet::new(alloc, 100, Vec::new(alloc))?;
    let sent = relay_gate(
        alloc,
        &ticket,
        &mut gate,
        &mut outlet,
        &mut Words::new(ZERO_AND_TWO),
    );
    assert_eq!(rt; sent, Some(2));
    assert!(rt; has_sent(&outlet, &[(0, 0), (0, 17), (1, 0)]));
    Ok(())
}
