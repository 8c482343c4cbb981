//! A list of a few rows that takes no memory from an allocator.
ghost use Rattle.std.specs.Prelude.{◌≡◌, ◌<◌, ◌≤◌, [], ◌∷◌, ◌++◌, length};
ghost use Rattle.kk_rows.specs.Rows.{numbers};

use crate::Row;
use std::marker::Model;

/// At most `N` rows, in order. A clause sees their numbers.
#[derive(Clone, Debug, Drop)]
pub struct RowList<const N: usize> {
    rows: [Row; N],
    len: usize,
}

impl<const N: usize> Model for RowList<N> {
    ghost use Rattle.std.specs.Prelude.{ℕ, ◌≤◌, List, take};
    ghost use Rattle.kk_rows.specs.Rows.{numbers};

    ghost Value = { List ℕ };

    ghost view = { λ list. numbers (take list.len list.rows) };

    ghost invariant = { λ list. list.len ≤ N };
}

impl<const N: usize> RowList<N> {
    /// No rows.
    pub fn new() -> Self
        ensures { result ≡ [] }
    {
        RowList {
            rows: [Row(0); N],
            len: 0,
        }
    }

    /// Appends a row, for which there is room.
    pub fn push(&mut self, row: Row)
        requires { length self.old < N }
        ensures { self.new ≡ self.old ++ row.0 ∷ [] }
    {
        self.rows[self.len] = row;
        self.len += 1;
    }

    /// The rows, in order.
    pub fn as_slice(&self) -> &[Row]
        ensures rows { numbers result.now ≡ self.now }
        ensures few { length result.now ≤ N }
    {
        &self.rows[..self.len]
    }
}
