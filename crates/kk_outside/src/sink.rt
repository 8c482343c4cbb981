//! A sink of bytes, and writes until a text is out.
ghost use Rattle.std.specs.Prelude.{◌≡◌, []};
ghost use Rattle.kk_outside.specs.Causes.{HasCause};
ghost use Rattle.kk_outside.specs.Change.{change};
ghost use Rattle.kk_outside.specs.Sink.{SinkTold, WritesTo, WritesAllTo};

use crate::Failed;

/// Where bytes go.
pub trait Sink {
    /// What its writes so far came to; and how often it failed, a count that stops at 2^64 - 1.
    ghost told: { Self → SinkTold };

    /// Takes bytes from the front of `piece`, at least one unless it is empty, and answers how many.
    fn write(&mut self, piece: &[u8]) -> Result<usize, Failed>
        ensures writes { WritesTo (change (told self.old) (told self.new)) result piece.now }
        ensures cause { HasCause (told self.old).faults (told self.new).faults result };
}

/// Writes all of `text`, with no call on the sink where it is empty. After `Failed` the sink has less than all of it, and
/// the write that failed was the last.
pub fn write_all<K: Sink>(sink: &mut K, text: &[u8]) -> Result<(), Failed>
    ensures writes { WritesAllTo (change (K.told sink.old) (K.told sink.new)) result text.now }
    ensures cause { HasCause (K.told sink.old).faults (K.told sink.new).faults result }
    ensures nothing { text.now ≡ [] → sink.new ≡ sink.old }
{
    let mut done = 0;
    while done < text.len() {
        done += sink.write(&text[done..])?;
    }
    Ok(())
}
