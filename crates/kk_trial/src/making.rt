//! The file of a trial.
ghost use Rattle.std.specs.Prelude.{◌≡◌, IfOk, OnOk};
ghost use Rattle.kk_outside.specs.Generator.{after_words, word_at};
ghost use Rattle.kk_trial.specs.Trial.{file_words, made_file};

use byteorder::{BigEndian, ByteOrder};
use kk_outside::Alloc;
use rand_core::Rng;
use std::alloc::Global;

/// A file of so many bytes, by the next words of the generator.
///
/// Each word gives eight bytes, the most significant first. Those of the last word beyond the length are dropped.
pub(crate) fn make_file<R: Rng>(alloc: Global, length: usize, rng: &mut R) -> Result<Vec<u8>, Alloc>
    ensures file { IfOk result (λ file. file.items ≡ made_file length (word_at (R.stream rng.old))) }
    ensures words { OnOk result (R.stream rng.new ≡ after_words (file_words length) (R.stream rng.old)) }
{
    let mut file = Vec::new(alloc);
    for _ in 0..length.div_ceil(8) {
        let mut bytes = [0; 8];
        BigEndian::write_u64(&mut bytes, rng.next_u64());
        file.extend_from_slice(&bytes)?;
    }
    file.truncate(length);
    Ok(file)
}
