//! Inserts of rows into spaces.
ghost use Rattle.std.specs.Prelude.{◌≡◌};

use crate::draws::{Draws, mixed};
use kk_rows::{Row, RowSpace};

/// How many generations are received in turn.
pub(crate) const RECEPTIONS: usize = 8;

/// The rows of a generation, 24 of 55 bits. Each stands in the upper bits of its word.
pub(crate) type Rows = [u64; 24];

/// The space that 24 rows of 55 bits span.
pub(crate) fn spanned(rows: &Rows) -> RowSpace
    ensures { result.width ≡ 55 }
{
    let mut space = RowSpace::new(55);
    for row in rows {
        let _ = space.insert(Row(u128::from(row >> 9)));
    }
    space
}

/// The space that 63 drawn rows of 63 bits span.
fn spanned_by_drawn(draws: &mut Draws) -> RowSpace {
    let mut space = RowSpace::new(63);
    for _ in 0..63 {
        let _ = space.insert(Row(u128::from(draws.bits(63))));
    }
    space
}

/// The lowest 64 bits of a row.
pub(crate) fn word_of(row: Row) -> u64 {
    (row.0 % 0x1_0000_0000_0000_0000) as u64
}

/// The sum of the reduced rows and the rank.
fn seen(space: &RowSpace) -> u64 {
    let mut sum = u64::from(space.rank());
    for row in space.rows() {
        sum ^= word_of(*row);
    }
    sum
}

/// Rows as a sender has them: row i has bit i of x alone, and any y.
fn as_sent(draws: &mut Draws) -> Rows {
    let mut rows = [0; 24];
    for i in 0..24 {
        rows[i] = (1 << (40 + i)) | (draws.bits(31) << 9);
    }
    rows
}

/// Spaces of 63 drawn rows.
pub(crate) fn dense(rounds: u64) -> u64 {
    let mut draws = Draws::new();
    let mut sum = 0;
    for _ in 0..rounds {
        sum = mixed(sum, seen(&spanned_by_drawn(&mut draws)));
    }
    sum
}

/// Spaces of 24 rows as sent.
pub(crate) fn sent(rounds: u64) -> u64 {
    let mut draws = Draws::new();
    let mut sum = 0;
    for _ in 0..rounds {
        sum = mixed(sum, seen(&spanned(&as_sent(&mut draws))));
    }
    sum
}

/// Spaces of 24 rows as relays make them.
pub(crate) fn recoded(receptions: &[Rows; RECEPTIONS], rounds: u64) -> u64 {
    let mut sum = 0;
    for round in 0..rounds {
        sum = mixed(sum, seen(&spanned(&receptions[(round % 8) as usize])));
    }
    sum
}
