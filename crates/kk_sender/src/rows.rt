//! The rows that are sent of a generation.
ghost use Rattle.std.specs.Prelude.{◌≡◌, ◌+◌, ◌≤◌, ℕ, length};
ghost use Rattle.rand_core.specs.Stream.{Stream};
ghost use Rattle.kk_outside.specs.Generator.{after_words, word_at};
ghost use Rattle.kk_sender.specs.SentFrames.{with_combinations};

use kk_code::{CodeRows, MAX_POINTS};
use kk_rows::{RowList, combination};
use rand_core::Rng;

/// The most combinations of a generation.
pub const MAX_EXTRA: u32 = 1024;

/// The most rows that are sent of a generation.
const MAX_SENT_ROWS: usize = MAX_POINTS + MAX_EXTRA as usize;

/// The rows that are sent of a generation, in order. A clause sees their numbers.
pub(crate) type SentRows = RowList<MAX_SENT_ROWS>;

/// The rows of a codeword, and after them `extra` combinations of these rows, each by the next word of the generator.
pub(crate) fn sent_rows<R: Rng>(codeword: &CodeRows, extra: u32, rng: &mut R) -> SentRows
    requires { extra ≤ MAX_EXTRA }
    ensures rows { (start : Stream) (first : ℕ) → R.stream rng.old ≡ after_words first start
        → result ≡ with_combinations (word_at start) codeword.now first extra }
    ensures stream { (start : Stream) (first : ℕ) → R.stream rng.old ≡ after_words first start
        → R.stream rng.new ≡ after_words (first + extra) start }
{
    let mut rows = plain_rows(codeword);
    for _ in 0..extra {
        rows.push(combination(codeword.as_slice(), rng.next_u64()));
    }
    rows
}

/// The rows of a codeword, with room for combinations after them.
fn plain_rows(codeword: &CodeRows) -> SentRows
    ensures rows { result ≡ codeword.now }
    ensures few { length result ≤ MAX_POINTS }
{
    let mut rows = SentRows::new();
    for row in codeword.as_slice() {
        rows.push(*row);
    }
    rows
}
