//! A source over any reader of std.
ghost use Rattle.std.specs.Prelude.{◌≡◌, ◌↔◌, ◌++◌, ◌∷◌, [], None, Ok, IfOk, IsErr, OnErr};
ghost use Rattle.std.specs.Io.KnownBytes.{ReadConsumes};
ghost use Rattle.kk_outside.specs.Causes.{HasCause, one_more};
ghost use Rattle.kk_outside.specs.Change.{change};
ghost use Rattle.kk_outside.specs.Source.{ReadsFrom};
ghost use Rattle.kk_outside.specs.StdState.{source_told};

use crate::read_log::ReadLog;
use crate::{Failed, Source};
use std::io;
use std::io::Read;
use std::marker::Model;

/// Reads from a reader of std, and tells what the reads gave, but not which bytes are left. Each error of the reader is a fault, one that says
/// `Interrupted` too: nothing is tried again.
#[derive(Drop)]
pub struct StdSource<R: Read> {
    reader: R,
    log: ReadLog,
    faults: u64,
}

impl<R: Read> Model for StdSource<R> {
    ghost use Rattle.kk_outside.specs.StdState.{StdSourceState};

    ghost Value = { StdSourceState };

    ghost view = { λ s. record { known = R.remaining s.reader; reads = s.log; faults = s.faults } };
}

impl<R: Read> StdSource<R> {
    /// A source over this reader, with no fault so far.
    pub fn new(reader: R) -> StdSource<R>
        ensures known { result.known ≡ R.remaining reader }
        ensures reads { result.reads ≡ [] }
        ensures faults { result.faults ≡ 0 }
    {
        StdSource {
            reader,
            log: ReadLog::new(),
            faults: 0,
        }
    }

    /// How many reads failed; the count stops at 2^64 - 1.
    pub fn faults(&self) -> u64
        ensures { result ≡ self.now.faults }
    {
        self.faults
    }
}

impl<R: Read> Source for StdSource<R> {
    ghost told = { source_told };

    fn read(&mut self, buf: &mut [u8]) -> Result<usize, Failed>
        ensures reader { ReadConsumes self.old.known self.new.known result buf.new }
        ensures failed { OnErr result (self.new.faults ≡ one_more self.old.faults) }

        // what every source says
        ensures reads { ReadsFrom (change (source_told self.old) (source_told self.new)) result buf.new }
        ensures cause { HasCause self.old.faults self.new.faults result }
    {
        let outcome = self.reader.read(buf);
        let answer = answer(outcome, &mut self.faults);
        self.log.add(answer, buf);
        answer
    }
}

/// The answer to a read that came out so: an error is a fault, and nothing else is.
fn answer(outcome: io::Result<usize>, faults: &mut u64) -> Result<usize, Failed>
    ensures fails { IsErr result ↔ IsErr outcome }
    ensures same { IfOk result (λ n. outcome ≡ Ok n) }
    ensures counted { OnErr result (faults.new ≡ one_more faults.old) }
    ensures cause { HasCause faults.old faults.new result }
{
    match outcome {
        Ok(n) => Ok(n),
        Err(_) => {
            *faults = faults.saturating_add(1);
            Err(Failed)
        }
    }
}
