//! The field of the residues modulo an irreducible polynomial.
ghost use Rattle.std.specs.Prelude.{◌≡◌, ◌+◌, ◌*◌, ◌^◌, ◌<◌, ◌≤◌, ◌↔◌, IsNone, IfSome};
ghost use Rattle.kk_field.specs.Polynomial.{IsIrreducible};
ghost use Rattle.kk_field.specs.Field.{polynomial, frobenius};
ghost use Rattle.kk_field.specs.Laws.{IsFieldModulus, IsInverse};

use crate::ring::Ring;
use crate::steps::Steps;
use std::marker::Model;
use std::sync::ledger::Ledger;

/// The field GF(2^m), for m from 1 to 64: a `Ring` whose modulus is irreducible.
#[derive(Clone, Copy, Debug, PartialEq, Eq)]
pub struct Field {
    ring: Ring,
}

// Clauses see the modulus.
impl Model for Field {
    ghost use Rattle.kk_field.specs.Field.{Modulus};
    ghost use Rattle.kk_field.specs.Laws.{IsFieldModulus};

    ghost Value = { Modulus };

    ghost view = { λ a. a.ring };

    ghost invariant = { λ a. IsFieldModulus a.ring };

    ghost inverse = { λ f. record { ring = f } };
}

impl Field {
    /// The field of the residues of `ring`.
    pub fn of(ring: Ring) -> Self
        requires { IsIrreducible (polynomial ring) }
        ensures { result ≡ ring }
    {
        // Made anew, from a degree and a low part that tell their ranges.
        Field {
            ring: Ring::new(ring.m(), ring.low()),
        }
    }

    /// The ring of the field's elements.
    pub fn ring(&self) -> Ring
        ensures value { result ≡ self.now }
        ensures irreducible { IsFieldModulus result }
    {
        self.ring
    }

    /// The one of the field.
    pub fn one(&self) -> u64
        ensures value { result ≡ 1 }
        ensures below { result < 2 ^ self.now.degree }
        ensures irreducible { IsFieldModulus self.now }
    {
        let _ = &self.ring;
        1
    }

    /// The inverse of `a`, its power a^(2^m - 2), or `None` at 0.
    pub fn inverse<L: Ledger>(&self, a: u64, steps: &mut Steps<L>) -> Option<u64>
        requires { a < 2 ^ self.now.degree }
        ensures zero { IsNone result ↔ (a ≡ 0) }
        ensures inverse { IfSome result (IsInverse self.now a) }
        ensures cost { steps.new ≤ steps.old + 2 * self.now.degree }
    {
        if a == 0 {
            return None;
        }
        let ring = self.ring();
        let mut inverse = 1;
        let mut power = ring.square(a, steps);
        for _ in 1..ring.m() {
            inverse = ring.mul(inverse, power, steps);
            power = ring.square(power, steps);
        }
        Some(inverse)
    }

    /// The 2^i-th root of `a`, which the Frobenius map applied i times takes to `a`.
    ///
    /// The map has order m, so the root is `a` squared m - i mod m times.
    pub fn root2<L: Ledger>(&self, a: u64, i: u32, steps: &mut Steps<L>) -> u64
        requires { a < 2 ^ self.now.degree }
        ensures root { frobenius self.now i result ≡ a }
        ensures below { result < 2 ^ self.now.degree }
        ensures cost { steps.new ≤ steps.old + self.now.degree }
    {
        let ring = self.ring();
        let m = ring.m();
        ring.pow2(a, (m - i % m) % m, steps)
    }
}
