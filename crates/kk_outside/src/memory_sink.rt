//! A sink into memory, of so much room, which fails where it is told to.
ghost use Rattle.std.specs.Prelude.{◌≡◌, ◌↔◌, ◌≤◌, length, IsErr, IfOk, OnErr};
ghost use Rattle.kk_outside.specs.Causes.{HasCause};
ghost use Rattle.kk_outside.specs.Change.{change};
ghost use Rattle.kk_outside.specs.Sink.{WritesTo, bytes_written};
ghost use Rattle.kk_outside.specs.SinkState.{told, unwritten, IsRefused, taken_count, after_write, after_failed_write};

use crate::fault_plan::FaultPlan;
use crate::write_log::WriteLog;
use crate::{Alloc, Failed, Sink};
use std::alloc::Global;
use std::marker::Model;

/// Keeps the bytes that are written, in pieces, up to its room. A write of a byte with no room left fails, and so do
/// the calls whose numbers, counted from 0, are in `fails`; no others do.
/// The count of calls stops at 2^64 - 1, as that of the faults does.
#[derive(Drop)]
pub struct MemorySink {
    bytes: Vec<u8>,
    room: usize,
    piece: usize,
    plan: FaultPlan,
    log: WriteLog,
}

impl Model for MemorySink {
    ghost use Rattle.std.specs.Prelude.{◌≡◌, ◌≤◌, length, vec_capacity};
    ghost use Rattle.kk_outside.specs.Sink.{bytes_written};
    ghost use Rattle.kk_outside.specs.SinkState.{SinkState};

    ghost Value = { SinkState };

    ghost view = { λ s. record {
      written = s.log;
      room = s.room;
      piece = s.piece;
      fails = s.plan.fails.items;
      calls = s.plan.calls;
      faults = s.plan.faults;
    } };

    ghost invariant = { λ s.
        (s.bytes.items ≡ bytes_written s.log)
        × (length s.bytes.items ≤ s.room)
        × (s.room ≤ vec_capacity s.bytes)
        × (1 ≤ s.piece) };
}

impl MemorySink {
    /// An empty sink with room for `room` bytes, which it takes at once. A write takes at most `piece`.
    pub fn new(
        alloc: Global,
        room: usize,
        piece: usize,
        fails: Vec<u64>,
    ) -> Result<MemorySink, Alloc>
        requires { 1 ≤ piece }
        ensures { IfOk result (λ s. s ≡ unwritten room piece fails.items) }
    {
        Ok(MemorySink {
            bytes: Vec::with_capacity(alloc, room)?,
            room,
            piece,
            plan: FaultPlan::new(fails),
            log: WriteLog::new(),
        })
    }

    /// How many calls failed.
    pub fn faults(&self) -> u64
        ensures { result ≡ self.now.faults }
    {
        self.plan.faults
    }

    /// What it holds.
    pub fn bytes(&self) -> &[u8]
        ensures held { result.now ≡ bytes_written self.now.written }
        ensures within { length result.now ≤ self.now.room }
    {
        &self.bytes
    }
}

impl Sink for MemorySink {
    ghost told = { told };

    fn write(&mut self, piece: &[u8]) -> Result<usize, Failed>
        ensures fails { IsErr result ↔ IsRefused self.old piece.now }
        ensures count { IfOk result (λ n. n ≡ taken_count self.old piece.now) }
        ensures after { IfOk result (λ n. self.new ≡ after_write self.old piece.now n) }
        ensures failed { OnErr result (self.new ≡ after_failed_write self.old) }

        // what every sink says
        ensures writes { WritesTo (change (told self.old) (told self.new)) result piece.now }
        ensures cause { HasCause self.old.faults self.new.faults result }
    {
        if self.plan.call().is_err() {
            self.log.add(Err(Failed), piece);
            return Err(Failed);
        }
        let room = self.room - self.bytes.len();
        if room == 0 && !piece.is_empty() {
            self.log.add(Err(Failed), piece);
            return Err(self.plan.fault());
        }
        let n = self.piece.min(piece.len()).min(room);
        self.bytes.extend_from_slice(&piece[..n]).unwrap();
        self.log.add(Ok(n), piece);
        Ok(n)
    }
}
