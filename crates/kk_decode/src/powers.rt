//! The powers of a point that a linearised polynomial has.
ghost use Rattle.std.specs.Prelude.{◌≡◌, ℕ, ◌+◌, ◌^◌, ◌<◌, ◌≤◌, slice_index};
ghost use Rattle.kk_field.specs.Field.{frobenius};
ghost use Rattle.kk_linpoly.specs.LinPoly.{IsOver};
ghost use Rattle.kk_linpoly.specs.declared.matrix.TheConstants.{MAX_COLUMNS};

use kk_field::Steps;
use kk_linpoly::MAX_COLUMNS;
use kk_tables::FieldTables;
use std::sync::ledger::Ledger;

/// The powers x^(2^j) for each j below k, and zeros after them.
pub(crate) fn powers_of<L: Ledger>(
    field: &FieldTables,
    x: u64,
    k: usize,
    steps: &mut Steps<L>,
) -> [u64; MAX_COLUMNS]
    requires columns { k ≤ MAX_COLUMNS }
    requires x_below { x < 2 ^ field.now.degree }
    ensures powers { (j : ℕ) → j < k → slice_index result j ≡ frobenius field.now j x }
    ensures below { IsOver field.now.degree result }
    ensures cost { steps.new ≤ steps.old + k }
{
    let mut powers = [0; MAX_COLUMNS];
    let mut power = x;
    for j in 0..k {
        powers[j] = power;
        power = field.square(power, steps);
    }
    powers
}
