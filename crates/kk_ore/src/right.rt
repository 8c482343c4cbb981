//! Division on the right.
ghost use Rattle.std.specs.Prelude.{◌≡◌, ℕ, ◌+◌, ◌-◌, ◌*◌, ◌^◌, ◌<◌, ◌≤◌, length, slice_index, bit_xor, IsSome};
ghost use Rattle.kk_field.specs.Field.{field_product, frobenius};
ghost use Rattle.kk_field.specs.Laws.{IsFieldModulus, IsModulus};
ghost use Rattle.kk_linpoly.specs.LinPoly.{IsOver, degree, composed};
ghost use Rattle.kk_ore.specs.Division.{IsRightQuotient};

use crate::places::{inverse_of, padded};
use kk_field::Steps;
use kk_linpoly::{LinPoly, MAX_COEFFICIENTS};
use kk_tables::FieldTables;
use std::sync::ledger::Ledger;

/// The right quotient q and the remainder r of a division of `a` by `b`, which isn't zero: `a` is q∘b + r, and r is zero or of a
/// degree below that of `b`.
///
/// Coefficient s of q is a leading coefficient over the 2^s-th power of that of `b`.
pub fn div_right<L: Ledger>(
    field: &FieldTables,
    a: &LinPoly,
    b: &LinPoly,
    steps: &mut Steps<L>,
) -> (LinPoly, LinPoly)
    requires of_field { IsOver field.now.degree a.now }
    requires b_of_field { IsOver field.now.degree b.now }
    requires b_not_zero { IsSome (degree b.now) }
    ensures value { IsRightQuotient field.now a.now b.now result.0 result.1 }
    ensures quotient_of_field { IsOver field.now.degree result.0 }
    ensures remainder_of_field { IsOver field.now.degree result.1 }
    ensures quotient_len { length result.0 ≡ length a.now + 1 - length b.now }
    ensures remainder_len { length result.1 < length b.now }
    ensures cost { steps.new ≤ steps.old + length a.now * (4 * field.now.degree + 4 * length a.now * length b.now) }
{
    let (a, b) = (a.coeffs(), b.coeffs());
    let mut remainder = padded(a);
    let places = (a.len() + 1).saturating_sub(b.len());
    let quotient = cancel(field, b, places, &mut remainder, steps);
    (
        LinPoly::from_slice(&quotient),
        LinPoly::from_slice(&remainder),
    )
}

/// The first `places` coefficients of the quotient, the highest first. The composition of the term of each and `b` cancels a
/// coefficient of `remainder`.
fn cancel<L: Ledger>(
    field: &FieldTables,
    b: &[u64],
    places: usize,
    remainder: &mut [u64; MAX_COEFFICIENTS],
    steps: &mut Steps<L>,
) -> [u64; MAX_COEFFICIENTS]
    requires of_field { IsOver field.now.degree b.now }
    requires some { 0 < length b.now }
    requires leads { 0 < slice_index b.now (length b.now - 1) }
    requires remainder_of_field { IsOver field.now.degree remainder.old }
    requires fits { places + length b.now ≤ 129 }
    requires ends { (n : ℕ) → places + length b.now ≤ n + 1 → slice_index remainder.old n ≡ 0 }
    ensures sum { (n : ℕ) → slice_index remainder.old n
        ≡ bit_xor (composed field.now (slice_index result) (slice_index b.now) n) (slice_index remainder.new n) }
    ensures ends { (n : ℕ) → length b.now ≤ n + 1 → slice_index remainder.new n ≡ 0 }
    ensures quotient_of_field { IsOver field.now.degree result }
    ensures remainder_of_field { IsOver field.now.degree remainder.new }
    ensures cost { steps.new ≤ steps.old + places * (2 * field.now.degree + places * (length b.now + 1)) }
    ensures field { IsFieldModulus field.now }
{
    let ring = field.ring();
    let mut quotient = [0; MAX_COEFFICIENTS];
    if places == 0 {
        return quotient;
    }
    let top = b.len() - 1;
    let inverse = inverse_of(field, b[top], steps);
    for s in (0..places).rev() {
        let power = ring.pow2(inverse, s as u32, steps);
        let c = ring.mul(remainder[s + top], power, steps);
        quotient[s] = c;
        add_term(ring, b, c, remainder, s, steps);
    }
    quotient
}

/// Adds to `remainder` the composition of c·X^(2^s) and `b`.
fn add_term<L: Ledger>(
    ring: &FieldTables,
    b: &[u64],
    c: u64,
    remainder: &mut [u64; MAX_COEFFICIENTS],
    s: usize,
    steps: &mut Steps<L>,
)
    requires modulus { IsModulus ring.now }
    requires of_field { IsOver ring.now.degree b.now }
    requires c_below { c < 2 ^ ring.now.degree }
    requires fits { s + length b.now ≤ 128 }
    ensures before { (n : ℕ) → n < s → slice_index remainder.new n ≡ slice_index remainder.old n }
    ensures added { (j : ℕ) → slice_index remainder.new (s + j)
        ≡ bit_xor (slice_index remainder.old (s + j)) (field_product ring.now c (frobenius ring.now s (slice_index b.now j))) }
    ensures cost { steps.new ≤ steps.old + length b.now * (s + 1) }
{
    for (j, x) in b.iter().enumerate() {
        let power = ring.pow2(*x, s as u32, steps);
        remainder[s + j] ^= ring.mul(c, power, steps);
    }
}
