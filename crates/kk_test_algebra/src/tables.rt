//! GF(8) with the modulus X^3 + X + 1, and values at each of the three ways of a product.
ghost use Rattle.std.specs.Prelude.{◌≡◌, ◌<◌, ◌≤◌, ◌^◌, IfSome};

use kk_field::{Field, Ring, Steps};
use kk_tables::FieldTables;
use std::marker::Brand;
use std::sync::ledger::{Blank, Ledger};

/// The tables of GF(2^m), or `None` if X^m + low has factors.
fn tables_of(m: u32, low: u64) -> Option<FieldTables>
    requires one_or_more { 1 ≤ m }
    requires at_most_64 { m ≤ 64 }
    requires below { low < 2 ^ m }
    ensures { IfSome result (λ t. t ≡ record { degree = m; low = low }) }
{
    let ring = Ring::new(m, low);
    if !ring.is_irreducible() {
        return None;
    }
    Some(FieldTables::new(Field::of(ring)))
}

/// X^3 to X^7 modulo X^3 + X + 1, with tables that were first those of another field.
fn powers_of_x<L: Ledger>(blank: Blank) -> Option<[u64; 5]>
    requires name { blank.name ≡ L.name }
    requires parts { blank.parts ≡ L.parts }
    requires some { 0 < blank.parts }
{
    let ring = Ring::new(3, 3);
    if !ring.is_irreducible() {
        return None;
    }
    let mut field = tables_of(31, 9)?;
    field.renew(Field::of(ring));
    let mut steps: Steps<L> = Steps::new(blank);
    let third = field.mul(4, 2, &mut steps);
    let fourth = field.mul(third, 2, &mut steps);
    let fifth = field.mul(fourth, 2, &mut steps);
    let sixth = field.mul(fifth, 2, &mut steps);
    Some([third, fourth, fifth, sixth, field.mul(sixth, 2, &mut steps)])
}

#[test]
fn powers_of_x_run_through_gf8(rt: HostRuntime) {
    assert_eq!(rt; powers_of_x::<Brand>(Blank::new(1)), Some([3, 6, 7, 5, 1]));
}

/// The inverses of 5 and 0, and the square root of 5, in GF(8).
fn gf8<L: Ledger>(blank: Blank) -> Option<(Option<u64>, Option<u64>, u64)>
    requires name { blank.name ≡ L.name }
    requires parts { blank.parts ≡ L.parts }
    requires some { 0 < blank.parts }
{
    let field = tables_of(3, 3)?;
    let mut steps: Steps<L> = Steps::new(blank);
    let of_five = field.inverse(5, &mut steps);
    let of_zero = field.inverse(0, &mut steps);
    Some((of_five, of_zero, field.root2(5, 1, &mut steps)))
}

#[test]
fn inverses_and_a_root_in_gf8(rt: HostRuntime) {
    assert_eq!(rt; gf8::<Brand>(Blank::new(1)), Some((Some(2), None, 3)));
}

/// X^31 and X^32 modulo X^31 + X^3 + 1, X^64 and X^128 modulo X^64 + X^4 + X^3 + X + 1, and the inverse of 1 modulo X + 1.
fn at_other_degrees<L: Ledger>(blank: Blank) -> Option<([u64; 4], Option<u64>)>
    requires name { blank.name ≡ L.name }
    requires parts { blank.parts ≡ L.parts }
    requires some { 0 < blank.parts }
{
    let middle = tables_of(31, 9)?;
    let wide = tables_of(64, 0x1b)?;
    let narrow = tables_of(1, 1)?;
    let mut steps: Steps<L> = Steps::new(blank);
    let powers = [
        middle.mul(1 << 30, 2, &mut steps),
        middle.square(1 << 16, &mut steps),
        wide.mul(1 << 63, 2, &mut steps),
        wide.pow2(1 << 32, 2, &mut steps),
    ];
    Some((powers, narrow.inverse(narrow.one(), &mut steps)))
}

#[test]
fn products_at_other_degrees(rt: HostRuntime) {
    assert_eq!(rt;
        at_other_degrees::<Brand>(Blank::new(1)),
        Some(([9, 18, 0x1b, 0x145], Some(1)))
    );
}
