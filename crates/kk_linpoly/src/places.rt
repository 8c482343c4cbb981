//! Coefficients in a slice.
ghost use Rattle.std.specs.Prelude.{◌≡◌, ℕ, ◌+◌, ◌*◌, ◌≤◌, ◌<◌, ◌^◌, length, map, take, slice_index};
ghost use Rattle.kk_field.specs.Field.{field_product};
ghost use Rattle.kk_linpoly.specs.LinPoly.{IsOver, trimmed, sum_of, scaled, raised};

use kk_field::Steps;
use kk_tables::FieldTables;
use std::sync::ledger::Ledger;

/// How many coefficients are left without the zeros at the end.
pub(crate) fn trimmed_len(coefficients: &[u64]) -> usize
    ensures within { result ≤ length coefficients.now }
    ensures front { take result coefficients.now ≡ trimmed coefficients.now }
{
    let mut len = coefficients.len();
    while len > 0 && coefficients[len - 1] == 0 {
        len -= 1;
    }
    len
}

/// Adds the coefficients, place by place.
pub(crate) fn add_to(sum: &mut [u64], coefficients: &[u64])
    requires { length coefficients.now ≤ length sum.old }
    ensures { sum.new ≡ sum_of sum.old coefficients.now }
{
    for (i, c) in coefficients.iter().enumerate() {
        sum[i] ^= *c;
    }
}

/// Adds `a` times the coefficients, place by place.
pub(crate) fn add_multiple<L: Ledger>(
    sum: &mut [u64],
    ring: &FieldTables,
    a: u64,
    coefficients: &[u64],
    steps: &mut Steps<L>,
)
    requires fits { length coefficients.now ≤ length sum.old }
    requires a_below { a < 2 ^ ring.now.degree }
    requires of_field { IsOver ring.now.degree coefficients.now }
    ensures value { sum.new ≡ sum_of sum.old (scaled ring.now a coefficients.now) }
    ensures cost { steps.new ≤ steps.old + length coefficients.now }
{
    for (i, c) in coefficients.iter().enumerate() {
        sum[i] ^= ring.mul(a, *c, steps);
    }
}

/// Squares each coefficient.
pub(crate) fn square_each<L: Ledger>(
    coefficients: &mut [u64],
    ring: &FieldTables,
    steps: &mut Steps<L>,
)
    requires { IsOver ring.now.degree coefficients.old }
    ensures value { coefficients.new ≡ map (λ c. field_product ring.now c c) coefficients.old }
    ensures cost { steps.new ≤ steps.old + length coefficients.old }
{
    for c in coefficients.iter_mut() {
        *c = ring.square(*c, steps);
    }
}

/// Multiplies each coefficient by `a`.
pub(crate) fn scale_each<L: Ledger>(
    coefficients: &mut [u64],
    ring: &FieldTables,
    a: u64,
    steps: &mut Steps<L>,
)
    requires a_below { a < 2 ^ ring.now.degree }
    requires of_field { IsOver ring.now.degree coefficients.old }
    ensures value { coefficients.new ≡ scaled ring.now a coefficients.old }
    ensures cost { steps.new ≤ steps.old + length coefficients.old }
{
    for c in coefficients.iter_mut() {
        *c = ring.mul(a, *c, steps);
    }
}

/// Puts in place of the coefficients those of the square plus `d` times the polynomial. It answers the last of them, one
/// place past the end.
pub(crate) fn raise_each<L: Ledger>(
    coefficients: &mut [u64],
    ring: &FieldTables,
    d: u64,
    steps: &mut Steps<L>,
) -> u64
    requires of_field { IsOver ring.now.degree coefficients.old }
    requires d_below { d < 2 ^ ring.now.degree }
    ensures within { (k : ℕ) → k < length coefficients.old
        → slice_index coefficients.new k ≡ slice_index (raised ring.now d coefficients.old) k }
    ensures last { result ≡ slice_index (raised ring.now d coefficients.old) (length coefficients.old) }
    ensures cost { steps.new ≤ steps.old + 2 * length coefficients.old }
{
    // the square of the coefficient before
    let mut square = 0;
    for c in coefficients.iter_mut() {
        let next = ring.square(*c, steps);
        *c = square ^ ring.mul(d, *c, steps);
        square = next;
    }
    square
}
