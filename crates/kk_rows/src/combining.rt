//! Combinations of rows.
ghost use Rattle.std.specs.Prelude.{◌≡◌};
ghost use Rattle.kk_rows.specs.Combination.{combination};
ghost use Rattle.kk_rows.specs.Rows.{numbers};

use crate::Row;

/// The combination of rows by a word: the sum of the rows at whose places the word has a 1.
///
/// Bits of the word from the number of rows on don't matter, and rows from the 65th on aren't taken. Where no row is
/// taken, the combination is the row 0.
pub fn combination(rows: &[Row], word: u64) -> Row
    ensures { result.0 ≡ combination (numbers rows.now) word }
{
    let mut sum = 0;
    let mut bits = word;
    for row in rows {
        sum ^= u128::from(bits % 2) * row.0;
        bits /= 2;
    }
    Row(sum)
}
