//! The innovative rows of one generation.
ghost use Rattle.std.specs.Prelude.{◌≡◌, ◌^◌, ◌<◌, ◌≤◌, All, length};
ghost use Rattle.kk_rows.specs.Rows.{numbers};
ghost use Rattle.kk_rows.specs.declared.row_space.TheConstants.{MAX_WIDTH};
ghost use Rattle.kk_relay.specs.RelayState.{no_rows, with_row, rank};

use kk_rows::{MAX_WIDTH, Row, RowList, RowSpace};
use std::marker::Model;

/// The most innovative rows of a generation: as many as a row has bits.
const MAX_RANK: usize = MAX_WIDTH as usize;

/// The innovative rows of a generation, in the order in which they came: those that weren't in the span of the rows before
/// them. They are kept as they came, since combinations are made of them, and in reduced form, by which the next one is
/// tested.
#[derive(Drop)]
pub(crate) struct Basis {
    space: RowSpace,
    rows: RowList<MAX_RANK>,
}

impl Model for Basis {
    ghost use Rattle.std.specs.Prelude.{◌≡◌, ℕ};
    ghost use Rattle.kk_rows.specs.Span.{in_span};
    ghost use Rattle.kk_relay.specs.RelayState.{BasisState, IsBasis};

    ghost Value = { BasisState };

    ghost view = { λ b. record { width = b.space.width; rows = b.rows } };

    ghost invariant = { λ b.
        IsBasis (record { width = b.space.width; rows = b.rows })
        × ((x : ℕ) → in_span b.space.rows x ≡ in_span b.rows x) };
}

impl Basis {
    /// No row yet; each that comes is below 2^width.
    pub(crate) fn new(width: u32) -> Basis
        requires some { 1 ≤ width }
        requires fits { width ≤ MAX_WIDTH }
        ensures { result ≡ no_rows width }
    {
        Basis {
            space: RowSpace::new(width),
            rows: RowList::new(),
        }
    }

    /// Adds a row, where it is innovative.
    pub(crate) fn insert(&mut self, row: Row)
        requires { row.0 < 2 ^ self.old.width }
        ensures { self.new ≡ with_row self.old row.0 }
    {
        if self.space.insert(row).is_some() {
            self.rows.push(row);
        }
    }

    /// The rows, in the order in which they came.
    pub(crate) fn rows(&self) -> &[Row]
        ensures rows { numbers result.now ≡ self.now.rows }
        ensures below { All (λ row. row < 2 ^ self.now.width) (numbers result.now) }
    {
        self.rows.as_slice()
    }

    /// How many rows there are, which is the dimension of their span.
    pub(crate) fn rank(&self) -> u32
        ensures rank { result ≡ rank self.now }
        ensures few { result ≤ MAX_WIDTH }
    {
        self.rows.as_slice().len() as u32
    }
}
