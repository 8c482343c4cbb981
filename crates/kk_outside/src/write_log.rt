//! What the writes of a sink came to, for contracts alone.
ghost use Rattle.std.specs.Prelude.{◌≡◌, ◌∷◌, ◌++◌, ◌≤◌, [], length, map, IfOk};
ghost use Rattle.kk_outside.specs.Sink.{Byte, write_of};

use crate::Failed;
use std::marker::Model;
use std::snapshot::Snapshot;

/// The writes of a sink so far, byte for byte. Clauses see the whole list; at run time there are two bytes, since what came
/// before the last one is kept as a snapshot, which has none.
#[cycle(write_log)]
#[derive(Drop)]
pub(crate) struct WriteLog {
    last: LastWritten,
}

#[cycle(write_log)]
#[derive(Drop)]
enum LastWritten {
    NoWrite,
    TookByte(u8, Snapshot<WriteLog>),
    TookNothing(Snapshot<WriteLog>),
    HasFailed(Snapshot<WriteLog>),
}

impl Model for WriteLog {
    ghost use Rattle.std.specs.Prelude.{List, length};
    ghost use Rattle.kk_outside.specs.Sink.{Written};

    ghost Value = { List Written };

    ghost use Rattle.kk_outside.specs.WriteLog.{written_logged};

    ghost view = { λ log. written_logged log.last };

    ghost size = { length };

    ghost use Rattle.std.proofs.Common.{arith, length-append};

    ghost size_decreases = { λ log h. Prim.grind (arith, length-append) };
}

impl WriteLog {
    /// No write so far.
    pub(crate) fn new() -> WriteLog
        ensures { result ≡ [] }
    {
        WriteLog {
            last: LastWritten::NoWrite,
        }
    }

    /// One write more, of this piece, with this answer.
    pub(crate) fn add(&mut self, answer: Result<usize, Failed>, piece: &[u8])
        requires { IfOk answer (λ n. n ≤ length piece.now) }
        ensures { self.new ≡ self.old ++ write_of answer piece.now }
    {
        match answer {
            Ok(0) => {
                let before = Snapshot::of(self);
                self.last = LastWritten::TookNothing(before);
            }
            Ok(n) => self.add_bytes(&piece[..n]),
            Err(_) => {
                let before = Snapshot::of(self);
                self.last = LastWritten::HasFailed(before);
            }
        }
    }

    /// These bytes more.
    fn add_bytes(&mut self, bytes: &[u8])
        ensures { self.new ≡ self.old ++ map Byte bytes.now }
    {
        for byte in bytes {
            self.add_byte(*byte);
        }
    }

    /// One byte more.
    fn add_byte(&mut self, byte: u8)
        ensures { self.new ≡ self.old ++ Byte byte ∷ [] }
    {
        let before = Snapshot::of(self);
        self.last = LastWritten::TookByte(byte, before);
    }
}
