//! A source of bytes, and reads until a buffer is full.
ghost use Rattle.std.specs.Prelude.{◌≡◌};
ghost use Rattle.kk_outside.specs.Causes.{HasCause};
ghost use Rattle.kk_outside.specs.Change.{change};
ghost use Rattle.kk_outside.specs.Source.{SourceTold, ReadsFrom, FillsFrom};

use crate::Failed;

/// Where bytes come from.
pub trait Source {
    /// The bytes that are left, or `None` where it doesn't tell them; what each read so far gave; and how often it
    /// failed, a count that stops at 2^64 - 1.
    ghost told: { Self → SourceTold };

    /// Reads into the front of `buf`, and answers how many bytes. 0 into a buffer that isn't empty is the end.
    /// What stands in `buf` after those bytes is left open, and all of it after `Failed`.
    fn read(&mut self, buf: &mut [u8]) -> Result<usize, Failed>
        ensures reads { ReadsFrom (change (told self.old) (told self.new)) result buf.new }
        ensures cause { HasCause (told self.old).faults (told self.new).faults result };
}

/// Reads until `buf` is full or the source is at its end, and answers how many bytes it read.
///
/// A read of 0 bytes is the last, even where the source would have bytes again, as a terminal has after an end.
/// After `Failed` the bytes read so far are gone from the source.
pub fn fill<S: Source>(source: &mut S, buf: &mut [u8]) -> Result<usize, Failed>
    ensures fills { FillsFrom (change (S.told source.old) (S.told source.new)) result buf.new }
    ensures cause { HasCause (S.told source.old).faults (S.told source.new).faults result }
{
    let mut have = 0;
    while have < buf.len() {
        let n = source.read(&mut buf[have..])?;
        if n == 0 {
            return Ok(have);
        }
        have += n;
    }
    Ok(have)
}
