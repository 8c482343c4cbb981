//! A source over bytes in memory, which fails where it is told to.
ghost use Rattle.std.specs.Prelude.{◌≡◌, ◌↔◌, ◌≤◌, ◌++◌, length, take, drop, Contains, IsErr, IfOk, OnErr};
ghost use Rattle.kk_outside.specs.Causes.{HasCause};
ghost use Rattle.kk_outside.specs.Change.{change};
ghost use Rattle.kk_outside.specs.Source.{ReadsFrom, read_of};
ghost use Rattle.kk_outside.specs.SourceState.{told, unread, given_count, after_read, after_failed_read};

use crate::fault_plan::FaultPlan;
use crate::read_log::ReadLog;
use crate::{Failed, Source};
use std::marker::Model;

/// Gives bytes that it holds, in pieces. The calls whose numbers, counted from 0, are in `fails` fail, and no others.
/// The count of calls stops at 2^64 - 1, as that of the faults does.
#[derive(Drop)]
pub struct MemorySource {
    bytes: Vec<u8>,
    start: usize,
    piece: usize,
    plan: FaultPlan,
    log: ReadLog,
}

impl Model for MemorySource {
    ghost use Rattle.std.specs.Prelude.{◌≤◌, drop, length};
    ghost use Rattle.kk_outside.specs.SourceState.{SourceState};

    ghost Value = { SourceState };

    ghost view = { λ s. record {
      left = drop s.start s.bytes.items;
      piece = s.piece;
      fails = s.plan.fails.items;
      calls = s.plan.calls;
      faults = s.plan.faults;
      reads = s.log;
    } };

    ghost invariant = { λ s. (s.start ≤ length s.bytes.items) × (1 ≤ s.piece) };
}

impl MemorySource {
    /// A source of these bytes, of which a read gives at most `piece`.
    pub fn new(bytes: Vec<u8>, piece: usize, fails: Vec<u64>) -> MemorySource
        requires { 1 ≤ piece }
        ensures { result ≡ unread bytes.items piece fails.items }
    {
        MemorySource {
            bytes,
            start: 0,
            piece,
            plan: FaultPlan::new(fails),
            log: ReadLog::new(),
        }
    }

    /// How many calls failed.
    pub fn faults(&self) -> u64
        ensures { result ≡ self.now.faults }
    {
        self.plan.faults
    }
}

impl Source for MemorySource {
    ghost told = { told };

    fn read(&mut self, buf: &mut [u8]) -> Result<usize, Failed>
        ensures fails { IsErr result ↔ Contains self.old.fails self.old.calls }
        ensures count { IfOk result (λ n. n ≡ given_count self.old (length buf.old)) }
        ensures bytes { IfOk result (λ n. buf.new ≡ take n self.old.left ++ drop n buf.old) }
        ensures after { IfOk result (λ n. self.new ≡ after_read self.old n (read_of result buf.new)) }
        ensures untouched { OnErr result (buf.new ≡ buf.old) }
        ensures failed { OnErr result (self.new ≡ after_failed_read self.old) }

        // what every source says
        ensures reads { ReadsFrom (change (told self.old) (told self.new)) result buf.new }
        ensures cause { HasCause self.old.faults self.new.faults result }
    {
        if self.plan.call().is_err() {
            self.log.add(Err(Failed), buf);
            return Err(Failed);
        }
        let left = &self.bytes[self.start..];
        let n = self.piece.min(buf.len()).min(left.len());
        buf[..n].copy_from_slice(&left[..n]);
        self.start += n;
        self.log.add(Ok(n), buf);
        Ok(n)
    }
}
