//! A block of text, which collects pieces so that a sink is called once for many of them.
ghost use Rattle.std.specs.Prelude.{◌≡◌, ◌+◌, ◌≤◌, [], length, OnOk};
ghost use Rattle.kk_outside.specs.Causes.{HasCause};
ghost use Rattle.kk_report.specs.Block.{Adds};

use arrayvec::ArrayVec;
use kk_outside::{Failed, Sink, write_all};
use std::marker::Model;

/// The most bytes that wait for a sink.
pub const BLOCK_BYTES: usize = 4096;

/// The end of a text for a sink, which isn't out yet. Clauses see its bytes.
#[derive(Drop)]
pub struct Block {
    bytes: ArrayVec<u8, BLOCK_BYTES>,
}

impl Model for Block {
    ghost use Rattle.std.specs.Prelude.{ℕ, List};

    ghost Value = { List ℕ };

    ghost view = { λ b. b.bytes.items };
}

impl Block {
    /// Nothing waits.
    pub fn new() -> Block
        ensures { result ≡ [] }
    {
        Block {
            bytes: ArrayVec::new(),
        }
    }

    /// Adds a piece to the text. After `Failed` nothing more is to be written.
    pub fn push<K: Sink>(&mut self, sink: &mut K, piece: &[u8]) -> Result<(), Failed>
        requires { length piece.now ≤ BLOCK_BYTES }
        ensures adds { Adds (K.told sink.old) (K.told sink.new) self.old self.new result piece.now }
        ensures cause { HasCause (K.told sink.old).faults (K.told sink.new).faults result }
    {
        self.make_room(sink, piece.len())?;
        self.bytes.try_extend_from_slice(piece).unwrap();
        Ok(())
    }

    /// Writes what waits.
    pub fn flush<K: Sink>(&mut self, sink: &mut K) -> Result<(), Failed>
        ensures adds { Adds (K.told sink.old) (K.told sink.new) self.old self.new result [] }
        ensures empty { OnOk result (self.new ≡ []) }
        ensures cause { HasCause (K.told sink.old).faults (K.told sink.new).faults result }
    {
        write_all(sink, self.bytes.as_slice())?;
        self.bytes.clear();
        Ok(())
    }

    /// Writes what waits, unless there is room for so many bytes more.
    fn make_room<K: Sink>(&mut self, sink: &mut K, len: usize) -> Result<(), Failed>
        requires { len ≤ BLOCK_BYTES }
        ensures adds { Adds (K.told sink.old) (K.told sink.new) self.old self.new result [] }
        ensures room { OnOk result (length self.new + len ≤ BLOCK_BYTES) }
        ensures cause { HasCause (K.told sink.old).faults (K.told sink.new).faults result }
    {
        if len <= self.bytes.remaining_capacity() {
            return Ok(());
        }
        self.flush(sink)
    }
}
