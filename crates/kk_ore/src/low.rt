//! Left division from the lowest coefficient up.
ghost use Rattle.std.specs.Prelude.{◌≡◌, ◌≢◌, ℕ, List, ◌+◌, ◌*◌, ◌<◌, ◌≤◌, length, slice_index};
ghost use Rattle.kk_linpoly.specs.LinPoly.{IsOver, SamePolynomial, trimmed, composition};

use crate::left::add_term;
use crate::places::inverse_of;
use kk_field::Steps;
use kk_linpoly::{LinPoly, MAX_COEFFICIENTS};
use kk_tables::FieldTables;
use std::sync::ledger::Ledger;

/// The polynomial u of at most `places` coefficients for which `a` is b∘u, where there is one; else any polynomial. The
/// lowest coefficient of `b` isn't 0, and the coefficients of u are found from the lowest up, with one inverse and no root.
pub fn exact_left<L: Ledger>(
    field: &FieldTables,
    a: &LinPoly,
    b: &LinPoly,
    places: usize,
    steps: &mut Steps<L>,
) -> LinPoly
    requires of_field { IsOver field.now.degree a.now }
    requires b_of_field { IsOver field.now.degree b.now }
    requires starts { slice_index b.now 0 ≢ 0 }
    requires fits { places + length b.now ≤ 128 }
    ensures of_field { IsOver field.now.degree result }
    ensures only { (u : List ℕ) → IsOver field.now.degree u → length u ≤ places → SamePolynomial a.now (composition field.now b.now u)
        → result ≡ trimmed u }
    ensures cost { steps.new ≤ steps.old + 2 * field.now.degree + places * (1 + 2 * length b.now) }
{
    let a = a.coeffs();
    let mut coefficients = [0; MAX_COEFFICIENTS];
    coefficients[..a.len()].copy_from_slice(a);
    cancel(field, b.coeffs(), places, &mut coefficients, steps);
    LinPoly::from_slice(&coefficients[..places])
}

/// Puts the coefficients of u into the first `places` places of `remainder`, the lowest first. The composition of `b` and the
/// term of each cancels the coefficient that stood there.
fn cancel<L: Ledger>(
    field: &FieldTables,
    b: &[u64],
    places: usize,
    remainder: &mut [u64; MAX_COEFFICIENTS],
    steps: &mut Steps<L>,
)
    requires of_field { IsOver field.now.degree b.now }
    requires starts { slice_index b.now 0 ≢ 0 }
    requires remainder_of_field { IsOver field.now.degree remainder.old }
    requires fits { places + length b.now ≤ 128 }
    ensures of_field { IsOver field.now.degree remainder.new }
    ensures only { (u : List ℕ) → IsOver field.now.degree u → SamePolynomial remainder.old (composition field.now b.now u)
        → (i : ℕ) → i < places → slice_index remainder.new i ≡ slice_index u i }
    ensures cost { steps.new ≤ steps.old + 2 * field.now.degree + places * (1 + 2 * length b.now) }
{
    let ring = field.ring();
    let inverse = inverse_of(field, b[0], steps);
    for s in 0..places {
        let c = ring.mul(remainder[s], inverse, steps);
        add_term(ring, b, c, remainder, s, steps);
        remainder[s] = c;
    }
}
