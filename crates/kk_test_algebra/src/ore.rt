//! Divisions over GF(8) with the modulus X^3 + X + 1.
ghost use Rattle.std.specs.Prelude.{◌≡◌, ◌<◌, ◌≤◌, All, IfSome, length};
ghost use Rattle.kk_linpoly.specs.LinPoly.{IsOver};
ghost use Rattle.kk_ore.specs.Division.{IsBelow};

use kk_field::{Field, Ring, Steps};
use kk_linpoly::LinPoly;
use kk_ore::{div_left, div_right, exact_left};
use kk_tables::FieldTables;
use std::marker::Brand;
use std::sync::ledger::{Blank, Ledger};

// What a division on the right leaves of `a`, or `None` where `b` is zero.
fn right_remainder<L: Ledger>(
    field: &FieldTables,
    a: &LinPoly,
    b: &LinPoly,
    steps: &mut Steps<L>,
) -> Option<LinPoly>
    requires of_field { IsOver field.now.degree a.now }
    requires b_of_field { IsOver field.now.degree b.now }
    ensures { IfSome result (λ r. IsBelow r b.now) }
{
    if b.degree().is_none() {
        return None;
    }
    let (_, remainder) = div_right(field, a, b, steps);
    Some(remainder)
}

// q and r of a division on the left and of one on the right; the second polynomial isn't zero.
fn both<L: Ledger>(
    blank: Blank,
    a: &[u64],
    b: &[u64],
) -> Option<(LinPoly, LinPoly, LinPoly, LinPoly)>
    requires name { blank.name ≡ L.name }
    requires parts { blank.parts ≡ L.parts }
    requires some { 0 < blank.parts }
    requires a_fits { length a.now ≤ 128 }
    requires b_fits { length b.now ≤ 128 }
    requires a_of_field { All (λ c. c < 8) a.now }
    requires b_of_field { All (λ c. c < 8) b.now }
{
    let ring = Ring::new(3, 3);
    if !ring.is_irreducible() {
        return None;
    }
    let field = FieldTables::new(Field::of(ring));
    let mut steps: Steps<L> = Steps::new(blank);
    let (a, b) = (LinPoly::from_slice(a), LinPoly::from_slice(b));
    if b.degree().is_none() {
        return None;
    }
    let (q, r) = div_left(&field, &a, &b, &mut steps);
    let (p, _) = div_right(&field, &a, &b, &mut steps);
    let s = right_remainder(&field, &a, &b, &mut steps)?;
    Some((q, r, p, s))
}

#[test]
fn a_monomial_by_the_square(rt: HostRuntime) {
    let parts = both::<Brand>(Blank::new(1), &[0, 5], &[0, 1]);
    assert!(rt; parts.is_some());
    if let Some((q, r, p, s)) = parts {
        assert!(rt; q.coeffs() == [3].as_slice() && r.coeffs() == [].as_slice());
        assert!(rt; p.coeffs() == [5].as_slice() && s.coeffs() == [].as_slice());
    }
}

#[test]
fn a_remainder_on_the_left_alone(rt: HostRuntime) {
    let parts = both::<Brand>(Blank::new(1), &[6, 7, 1], &[1, 1]);
    assert!(rt; parts.is_some());
    if let Some((q, r, p, s)) = parts {
        assert!(rt; q.coeffs() == [4, 1].as_slice() && r.coeffs() == [2].as_slice());
        assert!(rt; p.coeffs() == [6, 1].as_slice() && s.coeffs() == [].as_slice());
    }
}

// The polynomial u of at most two coefficients for which 4·X + 7·X^2 + X^4 is (X + X^2)∘u.
fn exact<L: Ledger>(blank: Blank) -> Option<LinPoly>
    requires name { blank.name ≡ L.name }
    requires parts { blank.parts ≡ L.parts }
    requires some { 0 < blank.parts }
{
    let ring = Ring::new(3, 3);
    if !ring.is_irreducible() {
        return None;
    }
    let field = FieldTables::new(Field::of(ring));
    let mut steps: Steps<L> = Steps::new(blank);
    let (a, b) = (
        LinPoly::from_slice(&[4, 7, 1]),
        LinPoly::from_slice(&[1, 1]),
    );
    Some(exact_left(&field, &a, &b, 2, &mut steps))
}

#[test]
fn an_exact_quotient_from_the_low_end(rt: HostRuntime) {
    let u = exact::<Brand>(Blank::new(1));
    assert!(rt; u.is_some_and(|u| u.coeffs() == [4, 1].as_slice()));
}
