//! The machine words that rows are computed in: a narrow space takes one register a row.
ghost use Rattle.std.specs.Prelude.{◌≡◌, ℕ, ◌^◌, ◌<◌, nat_lt};
ghost use Rattle.kk_rows.specs.Echelon.{IsLeadingBit, cleared};

use super::Row;

/// A word that holds each row of a space whose width is at most its bits.
pub(crate) trait Word: Copy {
    // the row as a number
    ghost number: { Self → ℕ };

    // how many bits a word has
    ghost bits: { ℕ };

    /// The row in a word.
    fn of(row: Row) -> Self
        requires fits { row.0 < 2 ^ bits }
        ensures { number result ≡ row.0 };

    /// The row of the word.
    fn row(self) -> Row
        ensures { result.0 ≡ number self };

    /// Whether the row is below `other`, both as numbers.
    fn is_below(self, other: Self) -> bool
        ensures { result ≡ nat_lt (number self) (number other) };

    /// The row with `lead`'s leading bit made 0 by the addition of `lead`, where it is not 0 already.
    fn cleared_by(self, lead: Self) -> Self
        ensures { number result ≡ cleared (number self) (number lead) };

    /// The row's leading bit alone.
    fn leading_bit(self) -> u128
        requires some { 0 < number self }
        ensures { (p : ℕ) → IsLeadingBit (number self) p → result ≡ 2 ^ p };
}

impl Word for u64 {
    ghost number = { λ x. x };

    ghost bits = { 64 };

    fn of(row: Row) -> u64 {
        row.0 as u64
    }

    fn row(self) -> Row {
        Row(u128::from(self))
    }

    fn is_below(self, other: u64) -> bool {
        self < other
    }

    fn cleared_by(self, lead: u64) -> u64 {
        self.min(self ^ lead)
    }

    fn leading_bit(self) -> u128 {
        u128::from(1u64 << self.ilog2())
    }
}

impl Word for u128 {
    ghost number = { λ x. x };

    ghost bits = { 128 };

    fn of(row: Row) -> u128 {
        row.0
    }

    fn row(self) -> Row {
        Row(self)
    }

    fn is_below(self, other: u128) -> bool {
        self < other
    }

    fn cleared_by(self, lead: u128) -> u128 {
        self.min(self ^ lead)
    }

    fn leading_bit(self) -> u128 {
        1 << self.ilog2()
    }
}
