//! The file, from its source into memory.
ghost use Rattle.std.specs.Prelude.{◌≡◌, ◌↔◌, ◌-◌, ◌<◌, ℕ, Bool, Some, None, Ok, Err, length, take, OnOk, IfSome, IsOk};
ghost use Rattle.kk_outside.specs.Causes.{CanCount};
ghost use Rattle.kk_outside.specs.Change.{change};
ghost use Rattle.kk_outside.specs.Source.{SourceFailed, bytes_read};
ghost use Rattle.kk_sender.specs.LengthRule.{wrong_length, ReadsToLength, FailsWithinLength, LeavesAfterLength};

use crate::FileFault;
use kk_outside::{Source, fill};

/// Reads a file into all of `room` but its last byte, which is there to see whether the source has more.
///
/// It reads until the room is full or the source is at its end, and takes no byte more.
///
/// # Errors
///
/// `Length` exactly where the source didn't fail and gave another number of bytes than the file has.
pub fn read_file<S: Source>(source: &mut S, room: &mut [u8]) -> Result<(), FileFault>
    requires { 0 < length room.old }

    // Which answer comes.
    ensures whole { (result ≡ Err FileFault.Read → ⊥)
        → (IsOk result ↔ (length (bytes_read (change (S.told source.old) (S.told source.new))) ≡ length room.old - 1)) }
    ensures wrong_length { (got : ℕ) (more : Bool) → (result ≡ Err FileFault.Read → ⊥)
        → ((result ≡ Err (FileFault.Length got more)) ↔ (wrong_length (length room.old - 1) (length (bytes_read (change (S.told source.old) (S.told source.new)))) ≡ Some (got, more))) }
    ensures failed { CanCount (S.told source.old).faults
        → ((result ≡ Err FileFault.Read) ↔ SourceFailed (change (S.told source.old) (S.told source.new))) }

    // What was read, and where it stands.
    ensures file { OnOk result (take (length room.old - 1) room.new ≡ bytes_read (change (S.told source.old) (S.told source.new))) }
    ensures read { (result ≡ Err FileFault.Read → ⊥) → ReadsToLength (length room.old - 1) (change (S.told source.old) (S.told source.new)) }
    ensures failed_before { result ≡ Err FileFault.Read → FailsWithinLength (length room.old - 1) (change (S.told source.old) (S.told source.new)) }
    ensures remainder { (result ≡ Err FileFault.Read → ⊥)
        → IfSome (S.told source.old).left (λ bytes. LeavesAfterLength (length room.old - 1) bytes (change (S.told source.old) (S.told source.new))) }
{
    let len = room.len() - 1;
    let Ok(got) = fill(source, room) else {
        return Err(FileFault::Read);
    };
    if got != len {
        return Err(FileFault::Length {
            got: got as u64,
            more: got > len,
        });
    }
    Ok(())
}
