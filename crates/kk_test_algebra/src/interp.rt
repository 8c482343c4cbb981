//! Interpolation over GF(8) with the modulus X^3 + X + 1.
ghost use Rattle.std.specs.Prelude.{◌≡◌, ◌≢◌, ◌⊎◌, ◌+◌, ◌-◌, ◌/◌, ◌^◌, ◌<◌, ◌≤◌, [], ◌∷◌};
ghost use Rattle.kk_interp.specs.BiPoly.{IsOfField, IsZeroAt, weight};

use kk_field::{Field, Ring, Steps};
use kk_interp::{BiPoly, Interp};
use kk_tables::FieldTables;
use std::marker::Brand;
use std::sync::ledger::{Blank, Ledger};
use std::test::Fail;

// The value of a polynomial at (x, y).
fn value<L: Ledger>(field: &FieldTables, q: &BiPoly, x: u64, y: u64, steps: &mut Steps<L>) -> u64
    requires of_field { IsOfField field.now q.now.qx q.now.qy }
    requires x_below { x < 2 ^ field.now.degree }
    requires y_below { y < 2 ^ field.now.degree }
{
    q.qx.eval(field, x, steps) ^ q.qy.eval(field, y, steps)
}

// The number of points, the weight, and the bits of the values at (1, 5), (2, 1) and (4, 2), at which 5·x + y is 0.
fn through_three_points<L: Ledger>(blank: Blank) -> Option<(u32, u32, u64)>
    requires name { blank.name ≡ L.name }
    requires parts { blank.parts ≡ L.parts }
    requires some { 0 < blank.parts }
{
    let ring = Ring::new(3, 3);
    if !ring.is_irreducible() {
        return None;
    }
    let field = Field::of(ring);
    let mut steps: Steps<L> = Steps::new(blank);
    let tables = FieldTables::new(field);
    let mut interp = Interp::new(field, 1);
    interp.point(&tables, 1, 5, &mut steps);
    interp.point(&tables, 2, 1, &mut steps);
    interp.point(&tables, 4, 2, &mut steps);
    let q = interp.least();
    let first = value(&tables, &q, 1, 5, &mut steps);
    let second = value(&tables, &q, 2, 1, &mut steps);
    let third = value(&tables, &q, 4, 2, &mut steps);
    Some((interp.points(), interp.weight(), first | second | third))
}

#[test]
fn a_polynomial_is_zero_at_three_points_of_a_line(rt: HostRuntime) -> Result<(), Fail> {
    let answer = through_three_points::<Brand>(Blank::new(1));
    let (points, weight, values) = answer.ok_or("the modulus has factors")?;
    assert_eq!(rt; points, 3);
    assert!(rt; weight <= 1);
    assert_eq!(rt; values, 0);
    Ok(())
}

// The contract of a caller: a polynomial except 0 through both points, of weight at most half of k + 1, rounded down.
fn through_two_points<L: Ledger>(
    field: Field,
    k: u32,
    first: (u64, u64),
    second: (u64, u64),
    steps: &mut Steps<L>,
) -> BiPoly
    requires k_at_least { 1 ≤ k }
    requires k_at_most { k ≤ 64 }
    requires first_below { (first.0 < 2 ^ field.degree) × (first.1 < 2 ^ field.degree) }
    requires second_below { (second.0 < 2 ^ field.degree) × (second.1 < 2 ^ field.degree) }
    ensures not_zero { (result.qx ≢ []) ⊎ (result.qy ≢ []) }
    ensures zeros { IsZeroAt field result.qx result.qy (first ∷ second ∷ []) }
    ensures weight { weight k result.qx result.qy ≤ (2 + k - 1) / 2 }
{
    let tables = FieldTables::new(field);
    let mut interp = Interp::new(field, k);
    interp.point(&tables, first.0, first.1, steps);
    interp.point(&tables, second.0, second.1, steps);
    interp.least()
}

#[test]
fn without_points_x_alone_is_least(rt: HostRuntime) {
    let ring = Ring::new(3, 3);
    assert!(rt; ring.is_irreducible());
    let interp = Interp::new(Field::of(ring), 3);
    let q = interp.least();
    assert_eq!(rt; q.qx.degree(), Some(0));
    assert_eq!(rt; q.qy.degree(), None);
    assert_eq!(rt; interp.weight(), 0);
    assert_eq!(rt; interp.points(), 0);
}
