//! A codeword on its way through an operator channel.
ghost use Rattle.std.specs.Prelude.{◌≡◌, ◌+◌, ◌-◌, ◌*◌, ◌^◌, ◌<◌, ◌≤◌, ℕ, List, ◌++◌, All, length, drop};
ghost use Rattle.rand_core.specs.Stream.{Stream};
ghost use Rattle.kk_rows.specs.Rows.{numbers};
ghost use Rattle.kk_outside.specs.Generator.{after_words, word_at};
ghost use Rattle.kk_code.specs.Codeword.{codeword, width};
ghost use Rattle.kk_code.specs.Decoding.{erased, injected};
ghost use Rattle.kk_channel.specs.Channel.{IsCodeword, mixed_rows, foreign_row, injected_rows, channel_rows, words_drawn};
ghost use Rattle.kk_channel.specs.declared.rows.TheConstants.{MAX_CHANNEL_ROWS};

use crate::ChannelRows;
use kk_code::{Code, CodeRows};
use kk_rows::{Row, combination};
use rand_core::Rng;

/// Passes a codeword of the code through a channel that erases `erase` of its dimensions and injects `inject` foreign ones, by the
/// words of the generator.
///
/// A word for each row of the codeword mixes it with the rows before it, and the first `erase` of the mixed rows are lost. Two
/// words make each row that is injected: one its lower bits, and the other the combination of the codeword that hides it.
/// It takes no memory, and refuses nothing.
pub fn pass_through<R: Rng>(
    code: &Code,
    rows: &CodeRows,
    erase: u32,
    inject: u32,
    rng: &mut R,
) -> ChannelRows
    requires codeword { IsCodeword code.now rows.now }
    requires erase { erase ≤ code.now.l }
    requires inject { inject ≤ code.now.field.degree }
    ensures rows { result ≡ channel_rows (word_at (R.stream rng.old)) rows.now erase inject }
    ensures words { R.stream rng.new ≡ after_words (words_drawn code.now.l inject) (R.stream rng.old) }
    ensures count { length result ≡ code.now.l - erase + inject }
    ensures below { All (λ r. r < 2 ^ width code.now) result }
    ensures erased { (u : List ℕ) → rows.now ≡ codeword code.now u → erased code.now result u ≡ erase }
    ensures injected { (u : List ℕ) → rows.now ≡ codeword code.now u → injected code.now result u ≡ inject }
{
    // the ranges of the code, by which there is room for all rows
    let _l = code.l();
    let codeword = rows.as_slice();
    let mut passed = kept_rows(codeword, erase, rng);
    inject_rows(codeword, inject, &mut passed, rng);
    passed
}

/// The rows, each with a combination of those before it by the next word, from row number `erase` on.
fn kept_rows<R: Rng>(rows: &[Row], erase: u32, rng: &mut R) -> ChannelRows
    requires some { erase ≤ length rows.now }
    requires few { length rows.now ≤ MAX_CHANNEL_ROWS }
    ensures rows { result ≡ drop erase (mixed_rows (word_at (R.stream rng.old)) (numbers rows.now)) }
    ensures words { R.stream rng.new ≡ after_words (length rows.now) (R.stream rng.old) }
{
    skip_words(erase, rng);
    let mut kept = ChannelRows::new();
    for i in erase as usize..rows.len() {
        let sum = combination(&rows[..i], rng.next_u64());
        kept.push(Row(rows[i].0 ^ sum.0));
    }
    kept
}

/// Draws words that no row needs, since those that they mix are erased.
fn skip_words<R: Rng>(count: u32, rng: &mut R)
    ensures { R.stream rng.new ≡ after_words count (R.stream rng.old) }
{
    for _ in 0..count {
        let _ = rng.next_u64();
    }
}

/// Appends rows that aren't of the codeword, each by the next two words.
fn inject_rows<R: Rng>(rows: &[Row], inject: u32, passed: &mut ChannelRows, rng: &mut R)
    requires room { length passed.old + inject ≤ MAX_CHANNEL_ROWS }
    requires few { inject ≤ 64 }
    ensures rows { (start : Stream) → R.stream rng.old ≡ after_words (length rows.now) start
        → passed.new ≡ passed.old ++ injected_rows (word_at start) (numbers rows.now) inject }
    ensures words { (start : Stream) → R.stream rng.old ≡ after_words (length rows.now) start
        → R.stream rng.new ≡ after_words (words_drawn (length rows.now) inject) start }
{
    for j in 0..inject {
        let lower = rng.next_u64();
        let word = rng.next_u64();
        passed.push(foreign_row(rows, j, lower, word));
    }
}

/// The row 2^j with lower bits, and a combination of the rows of the codeword.
fn foreign_row(rows: &[Row], j: u32, lower: u64, word: u64) -> Row
    requires { j < 64 }
    ensures { result.0 ≡ foreign_row (numbers rows.now) j lower word }
{
    let top = 1u64 << j;
    Row(u128::from(top ^ (lower % top)) ^ combination(rows, word).0)
}
