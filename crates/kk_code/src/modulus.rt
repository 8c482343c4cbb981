//! The test of a modulus.
ghost use Rattle.std.specs.Prelude.{◌≡◌, ◌↔◌, ◌^◌, ◌<◌, ◌≤◌, Some, IsOk, IfOk, codes};
ghost use Rattle.kk_field.specs.Field.{polynomial};
ghost use Rattle.kk_field.specs.Polynomial.{IsIrreducible};

use kk_field::{Field, Ring};
use std::error::Error;
use std::fmt;

/// The modulus is a product of two polynomials of degree at least 1.
#[derive(Clone, Copy, Debug, PartialEq, Eq)]
pub struct NotIrreducible;

impl fmt::Display for NotIrreducible {
    ghost output = { λ _. Some (codes "the modulus is not irreducible") };

    fn fmt<W: fmt::Write>(&self, f: &mut fmt::Formatter<W>) -> fmt::Result {
        write!(f, "the modulus is not irreducible")
    }
}

impl Error for NotIrreducible {}

/// The field with the modulus X^m + low, where that polynomial over GF(2) is irreducible; m is 1 to 64.
pub fn check_modulus(m: u32, low: u64) -> Result<Field, NotIrreducible>
    requires some { 1 ≤ m }
    requires fits { m ≤ 64 }
    requires below { low < 2 ^ m }
    ensures irreducible { IsOk result ↔ IsIrreducible (polynomial (record { degree = m; low = low })) }
    ensures field { IfOk result (λ field. field ≡ record { degree = m; low = low }) }
{
    let ring = Ring::new(m, low);
    if ring.is_irreducible() {
        Ok(Field::of(ring))
    } else {
        Err(NotIrreducible)
    }
}
