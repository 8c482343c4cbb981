//! A sink over any writer of std.
ghost use Rattle.std.specs.Prelude.{◌≡◌, ◌↔◌, ◌⊎◌, ◌<◌, [], Ok, length, IfOk, IsErr, OnErr};
ghost use Rattle.std.specs.Io.KnownBytes.{WriteAppends};
ghost use Rattle.kk_outside.specs.Causes.{HasCause, one_more};
ghost use Rattle.kk_outside.specs.Change.{change};
ghost use Rattle.kk_outside.specs.Sink.{WritesTo};
ghost use Rattle.kk_outside.specs.StdState.{sink_told};

use crate::write_log::WriteLog;
use crate::{Failed, Sink};
use std::io;
use std::io::Write;
use std::marker::Model;

/// Writes to a writer of std, and tells what the writes came to, but not what the writer made of the bytes that it took. Each error of the writer is a fault, and so is
/// a write that takes none of the bytes that it is given. It never flushes: give it a writer that holds nothing back.
#[derive(Drop)]
pub struct StdSink<W: Write> {
    writer: W,
    log: WriteLog,
    faults: u64,
}

impl<W: Write> Model for StdSink<W> {
    ghost use Rattle.kk_outside.specs.StdState.{StdSinkState};

    ghost Value = { StdSinkState };

    ghost view = { λ s. record { known = W.contents s.writer; written = s.log; faults = s.faults } };
}

impl<W: Write> StdSink<W> {
    /// A sink over this writer, with no fault so far.
    pub fn new(writer: W) -> StdSink<W>
        ensures known { result.known ≡ W.contents writer }
        ensures written { result.written ≡ [] }
        ensures faults { result.faults ≡ 0 }
    {
        StdSink {
            writer,
            log: WriteLog::new(),
            faults: 0,
        }
    }

    /// How many writes failed; the count stops at 2^64 - 1.
    pub fn faults(&self) -> u64
        ensures { result ≡ self.now.faults }
    {
        self.faults
    }
}

impl<W: Write> Sink for StdSink<W> {
    ghost told = { sink_told };

    fn write(&mut self, piece: &[u8]) -> Result<usize, Failed>
        ensures writer { WriteAppends self.old.known self.new.known result piece.now }
        ensures failed { OnErr result (self.new.faults ≡ one_more self.old.faults) }

        // what every sink says
        ensures writes { WritesTo (change (sink_told self.old) (sink_told self.new)) result piece.now }
        ensures cause { HasCause self.old.faults self.new.faults result }
    {
        let outcome = self.writer.write(piece);
        let answer = answer(outcome, piece, &mut self.faults);
        self.log.add(answer, piece);
        answer
    }
}

/// The answer to a write that came out so: an error is a fault, and so is a write that took nothing of a piece that
/// isn't empty; nothing else is.
fn answer(outcome: io::Result<usize>, piece: &[u8], faults: &mut u64) -> Result<usize, Failed>
    ensures fails { IsErr result ↔ (IsErr outcome ⊎ ((outcome ≡ Ok 0) × (0 < length piece.now))) }
    ensures same { IfOk result (λ n. outcome ≡ Ok n) }
    ensures counted { OnErr result (faults.new ≡ one_more faults.old) }
    ensures cause { HasCause faults.old faults.new result }
{
    match outcome {
        Ok(n) if n > 0 || piece.is_empty() => Ok(n),
        _ => {
            *faults = faults.saturating_add(1);
            Err(Failed)
        }
    }
}
