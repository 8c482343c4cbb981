//! GF(8) with the modulus X^3 + X + 1, and the two ends of the range of degrees.
ghost use Rattle.std.specs.Prelude.{◌≡◌, ◌<◌};

use kk_field::{Field, Ring, Steps};
use std::marker::Brand;
use std::sync::ledger::{Blank, Ledger};

/// X^3 to X^7 modulo X^3 + X + 1.
fn powers_of_x<L: Ledger>(blank: Blank) -> [u64; 5]
    requires name { blank.name ≡ L.name }
    requires parts { blank.parts ≡ L.parts }
    requires some { 0 < blank.parts }
{
    let ring = Ring::new(3, 3);
    let mut steps: Steps<L> = Steps::new(blank);
    let third = ring.mul(4, 2, &mut steps);
    let fourth = ring.mul(third, 2, &mut steps);
    let fifth = ring.mul(fourth, 2, &mut steps);
    let sixth = ring.mul(fifth, 2, &mut steps);
    [third, fourth, fifth, sixth, ring.mul(sixth, 2, &mut steps)]
}

#[test]
fn powers_of_x_run_through_gf8(rt: HostRuntime) {
    assert_eq!(rt; powers_of_x::<Brand>(Blank::new(1)), [3, 6, 7, 5, 1]);
}

/// X^64 and X^128 modulo X^64 + X^4 + X^3 + X + 1, and 1 modulo X + 1.
fn squares<L: Ledger>(blank: Blank) -> (u64, u64, u64)
    requires name { blank.name ≡ L.name }
    requires parts { blank.parts ≡ L.parts }
    requires some { 0 < blank.parts }
{
    let wide = Ring::new(64, 0x1b);
    let narrow = Ring::new(1, 1);
    let mut steps: Steps<L> = Steps::new(blank);
    (
        wide.square(1 << 32, &mut steps),
        wide.pow2(1 << 32, 2, &mut steps),
        narrow.square(1, &mut steps),
    )
}

#[test]
fn squares_at_both_ends_of_the_degrees(rt: HostRuntime) {
    assert_eq!(rt; squares::<Brand>(Blank::new(1)), (0x1b, 0x145, 1));
    let wide = Ring::new(64, 0x1b);
    assert_eq!(rt; (wide.m(), wide.low()), (64, 0x1b));
}

/// The inverses of 5 and 0 and the square root of 5 in GF(8), or `None` if X^3 + X + 1 had factors.
fn gf8<L: Ledger>(blank: Blank) -> Option<(Option<u64>, Option<u64>, u64)>
    requires name { blank.name ≡ L.name }
    requires parts { blank.parts ≡ L.parts }
    requires some { 0 < blank.parts }
{
    let ring = Ring::new(3, 3);
    if !ring.is_irreducible() {
        return None;
    }
    let field = Field::of(ring);
    let mut steps: Steps<L> = Steps::new(blank);
    let of_five = field.inverse(5, &mut steps);
    let of_zero = field.inverse(0, &mut steps);
    Some((of_five, of_zero, field.root2(5, 1, &mut steps)))
}

#[test]
fn inverses_and_a_root_in_gf8(rt: HostRuntime) {
    assert_eq!(rt; gf8::<Brand>(Blank::new(1)), Some((Some(2), None, 3)));
}

#[test]
fn irreducible_polynomials(rt: HostRuntime) {
    assert!(rt; Ring::new(1, 0).is_irreducible());
    let ring = Ring::new(1, 1);
    assert!(rt; ring.is_irreducible());
    assert_eq!(rt; Field::of(ring).one(), 1);
    assert!(rt; Ring::new(2, 3).is_irreducible());
    assert!(rt; Ring::new(3, 3).is_irreducible());
    assert!(rt; Ring::new(4, 3).is_irreducible());
    assert!(rt; Ring::new(4, 15).is_irreducible());
    assert!(rt; Ring::new(5, 5).is_irreducible());
    assert!(rt; Ring::new(7, 3).is_irreducible());
    assert!(rt; Ring::new(8, 0x1b).is_irreducible());
    assert!(rt; Ring::new(15, 3).is_irreducible());
    assert!(rt; Ring::new(31, 9).is_irreducible());
    assert!(rt; Ring::new(64, 0x1b).is_irreducible());
}

// X^2 and (X + 1)^2; (X^2 + X + 1)^2, (X + 1)^4 and X·(X + 1)·(X^2 + X + 1), modulo which X^16 is X.
#[test]
fn reducible_polynomials(rt: HostRuntime) {
    assert!(rt; !Ring::new(2, 0).is_irreducible());
    assert!(rt; !Ring::new(2, 1).is_irreducible());
    assert!(rt; !Ring::new(4, 5).is_irreducible());
    assert!(rt; !Ring::new(4, 1).is_irreducible());
    assert!(rt; !Ring::new(4, 2).is_irreducible());
    assert!(rt; !Ring::new(64, 0).is_irreducible());
}
