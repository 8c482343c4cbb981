//! What the reads of a source gave, for contracts alone.
ghost use Rattle.std.specs.Prelude.{◌≡◌, ◌≤◌, [], ◌∷◌, ◌++◌, length, IfOk};
ghost use Rattle.kk_outside.specs.Source.{read_of};

use crate::Failed;
use std::marker::Model;
use std::snapshot::Snapshot;

/// The reads of a source so far, in order, with the bytes that each gave. Clauses see the whole list; at run time there
/// are two bytes, since what came before the last read is kept as a snapshot, which has none.
#[cycle(read_log)]
#[derive(Drop)]
pub(crate) struct ReadLog {
    last: LastRead,
}

#[cycle(read_log)]
#[derive(Drop)]
enum LastRead {
    NoRead,
    GaveBytes(Snapshot<ByteLog>, Snapshot<ReadLog>),
    FoundEnd(Snapshot<ReadLog>),
    HasFailed(Snapshot<ReadLog>),
}

impl Model for ReadLog {
    ghost use Rattle.std.specs.Prelude.{List, ℕ, length};
    ghost use Rattle.kk_outside.specs.Source.{Read};

    ghost Value = { List Read };

    ghost use Rattle.kk_outside.specs.ReadLog.{reads_of};

    ghost view = { λ log. reads_of log.last };

    ghost size = { length };

    ghost use Rattle.std.proofs.Common.{arith, length-append};

    ghost size_decreases = { λ log h. Prim.grind (arith, length-append) };
}

impl ReadLog {
    /// No read so far.
    pub(crate) fn new() -> ReadLog
        ensures { result ≡ [] }
    {
        ReadLog {
            last: LastRead::NoRead,
        }
    }

    /// One read more, into this buffer, with this answer.
    pub(crate) fn add(&mut self, answer: Result<usize, Failed>, buf: &[u8])
        requires { IfOk answer (λ n. n ≤ length buf.now) }
        ensures { self.new ≡ self.old ++ read_of answer buf.now ∷ [] }
    {
        let before = Snapshot::of(self);
        self.last = match answer {
            Ok(0) if !buf.is_empty() => LastRead::FoundEnd(before),
            Ok(n) => LastRead::GaveBytes(Snapshot::of(&ByteLog::of(&buf[..n])), before),
            Err(_) => LastRead::HasFailed(before),
        };
    }
}

/// Bytes, of which only the last is kept at run time.
#[cycle(bytes)]
#[derive(Drop)]
pub(crate) struct ByteLog {
    last: LastByte,
}

#[cycle(bytes)]
#[derive(Drop)]
enum LastByte {
    NoByte,
    Byte(u8, Snapshot<ByteLog>),
}

impl Model for ByteLog {
    ghost use Rattle.std.specs.Prelude.{List, ℕ, length};

    ghost Value = { List ℕ };

    ghost use Rattle.kk_outside.specs.ReadLog.{bytes_of};

    ghost view = { λ bytes. bytes_of bytes.last };

    ghost size = { length };

    ghost use Rattle.std.proofs.Common.{arith, length-append};

    ghost size_decreases = { λ bytes h. Prim.grind (arith, length-append) };
}

impl ByteLog {
    /// These bytes.
    pub(crate) fn of(bytes: &[u8]) -> ByteLog
        ensures { result ≡ bytes.now }
    {
        let mut all = ByteLog {
            last: LastByte::NoByte,
        };
        for byte in bytes {
            all.push(*byte);
        }
        all
    }

    /// One byte more.
    fn push(&mut self, byte: u8)
        ensures { self.new ≡ self.old ++ byte ∷ [] }
    {
        let before = Snapshot::of(self);
        self.last = LastByte::Byte(byte, before);
    }
}
