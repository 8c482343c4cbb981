//! An outlet into memory, of so much room, which fails where it is told to.
ghost use Rattle.std.specs.Prelude.{◌≡◌, ◌↔◌, ◌<◌, ◌≤◌, Some, length, slice_get, IsErr, IfOk, OnOk, OnErr};
ghost use Rattle.kk_outside.specs.Causes.{HasCause};
ghost use Rattle.kk_outside.specs.Change.{change};
ghost use Rattle.kk_outside.specs.Outlet.{SendsTo, datagrams_sent};
ghost use Rattle.kk_outside.specs.Packed.{start_of};
ghost use Rattle.kk_outside.specs.OutletState.{told, unsent, IsRefused, after_send, after_failed_send};

use crate::fault_plan::FaultPlan;
use crate::send_log::SendLog;
use crate::{Alloc, Failed, Outlet};
use std::alloc::Global;
use std::marker::Model;

/// Keeps the datagrams that are sent, up to its room. A datagram that doesn't fit fails, and so do the calls whose
/// numbers, counted from 0, are in `fails`; no others do.
/// The count of calls stops at 2^64 - 1, as that of the faults does.
#[derive(Drop)]
pub struct MemoryOutlet {
    /// All datagrams, each next to the one before.
    bytes: Vec<u8>,
    /// Where each datagram ends.
    ends: Vec<usize>,
    room: usize,
    plan: FaultPlan,
    log: SendLog,
}

impl Model for MemoryOutlet {
    ghost use Rattle.std.specs.Prelude.{◌≡◌, ◌≤◌, length, vec_capacity};
    ghost use Rattle.kk_outside.specs.Outlet.{datagrams_sent};
    ghost use Rattle.kk_outside.specs.OutletState.{OutletState};
    ghost use Rattle.kk_outside.specs.Packed.{pieces, AreEnds};

    ghost Value = { OutletState };

    ghost view = { λ o. record {
      sends = o.log;
      room = o.room;
      fails = o.plan.fails.items;
      calls = o.plan.calls;
      faults = o.plan.faults;
    } };

    ghost invariant = { λ o.
        AreEnds 0 o.ends.items (length o.bytes.items)
        × (pieces 0 o.ends.items o.bytes.items ≡ datagrams_sent o.log)
        × (length o.bytes.items ≤ o.room)
        × (o.room ≤ vec_capacity o.bytes)
        × (o.room ≤ vec_capacity o.ends) };
}

impl MemoryOutlet {
    /// An empty outlet with room for `room` bytes of datagrams in all, which it takes at once.
    pub fn new(alloc: Global, room: usize, fails: Vec<u64>) -> Result<MemoryOutlet, Alloc>
        ensures { IfOk result (λ o. o ≡ unsent room fails.items) }
    {
        Ok(MemoryOutlet {
            bytes: Vec::with_capacity(alloc, room)?,
            ends: Vec::with_capacity(alloc, room)?,
            room,
            plan: FaultPlan::new(fails),
            log: SendLog::new(),
        })
    }

    /// How many calls failed.
    pub fn faults(&self) -> u64
        ensures { result ≡ self.now.faults }
    {
        self.plan.faults
    }

    /// How many datagrams were sent.
    pub fn sent(&self) -> usize
        ensures { result ≡ length (datagrams_sent self.now.sends) }
    {
        self.ends.len()
    }

    /// The datagram that was sent after `i` others.
    pub fn datagram(&self, i: usize) -> &[u8]
        requires { i < length (datagrams_sent self.now.sends) }
        ensures { slice_get (datagrams_sent self.now.sends) i ≡ Some result.now }
    {
        &self.bytes[start_of(&self.ends, i)..self.ends[i]]
    }
}

impl Outlet for MemoryOutlet {
    ghost told = { told };

    fn send(&mut self, datagram: &[u8]) -> Result<(), Failed>
        requires { 0 < length datagram.now }
        ensures fails { IsErr result ↔ IsRefused self.old datagram.now }
        ensures after { OnOk result (self.new ≡ after_send self.old datagram.now) }
        ensures failed { OnErr result (self.new ≡ after_failed_send self.old) }

        // what every outlet says
        ensures sends { SendsTo (change (told self.old) (told self.new)) result datagram.now }
        ensures cause { HasCause self.old.faults self.new.faults result }
    {
        if self.plan.call().is_err() {
            self.log.add(Err(Failed), datagram);
            return Err(Failed);
        }
        if datagram.len() > self.room - self.bytes.len() {
            self.log.add(Err(Failed), datagram);
            return Err(self.plan.fault());
        }
        self.bytes.extend_from_slice(datagram).unwrap();
        self.ends.push(self.bytes.len()).unwrap();
        self.log.add(Ok(()), datagram);
        Ok(())
    }
}

/// Where the piece after `i` others starts.
fn start_of(ends: &[usize], i: usize) -> usize
    requires { i ≤ length ends.now }
    ensures { result ≡ start_of 0 ends.now i }
{
    if i == 0 { 0 } else { ends[i - 1] }
}
