//! The ring of residues modulo X^m + low, and the test whether it is a field.
ghost use Rattle.std.specs.Prelude.{◌≡◌, ◌+◌, ◌^◌, ◌<◌, ◌≤◌, ◌↔◌, IsTrue};
ghost use Rattle.kk_field.specs.Polynomial.{IsIrreducible, irreducible};
ghost use Rattle.kk_field.specs.Field.{polynomial, field_product, frobenius};
ghost use Rattle.kk_field.specs.Laws.{IsModulus, FrobeniusFixesX, OnlyTrivialIdempotents};

use crate::echelon::Echelon;
use crate::steps::Steps;
use std::marker::Model;
use std::sync::ledger::Ledger;

/// Arithmetic on residues modulo X^m + low, for m from 1 to 64.
///
/// It is the field GF(2^m) where that polynomial is irreducible, and a ring with zero divisors where it is not.
#[derive(Clone, Copy, Debug, PartialEq, Eq)]
pub struct Ring {
    m: u32,
    low: u64,
}

// Clauses see the modulus.
impl Model for Ring {
    ghost use Rattle.std.specs.Prelude.{◌^◌, ◌<◌, ◌≤◌};
    ghost use Rattle.kk_field.specs.Field.{Modulus};

    ghost Value = { Modulus };

    ghost view = { λ r. record { degree = r.m; low = r.low } };

    ghost invariant = { λ r. (1 ≤ r.m) × (r.m ≤ 64) × (r.low < 2 ^ r.m) };

    ghost inverse = { λ f. record { m = f.degree; low = f.low } };
}

impl Ring {
    /// The residues modulo X^m + low.
    pub fn new(m: u32, low: u64) -> Self
        requires one_or_more { 1 ≤ m }
        requires at_most_64 { m ≤ 64 }
        requires below { low < 2 ^ m }
        ensures { result ≡ record { degree = m; low = low } }
    {
        Ring { m, low }
    }

    /// The degree of the modulus, the number of bits of a residue.
    pub fn m(&self) -> u32
        ensures value { result ≡ self.now.degree }
        ensures one_or_more { 1 ≤ result }
        ensures at_most_64 { result ≤ 64 }
    {
        self.m
    }

    /// The modulus without its term X^m.
    pub fn low(&self) -> u64
        ensures value { result ≡ self.now.low }
        ensures below { result < 2 ^ self.now.degree }
    {
        self.low
    }

    /// The product of a residue and X: doubled, and reduced where that gives it a term X^m.
    fn doubled(&self, a: u64) -> u64
        requires { a < 2 ^ self.now.degree }
        ensures value { result ≡ field_product self.now a 2 }
        ensures below { result < 2 ^ self.now.degree }
    {
        let top = 1 << (self.m - 1);
        if a < top {
            a << 1
        } else {
            ((a - top) << 1) ^ self.low
        }
    }

    /// The product of two residues, the carry-less product reduced, by shift and add.
    fn product(&self, a: u64, b: u64) -> u64
        requires a_below { a < 2 ^ self.now.degree }
        requires b_below { b < 2 ^ self.now.degree }
        ensures value { result ≡ field_product self.now a b }
        ensures below { result < 2 ^ self.now.degree }
    {
        let mut sum = 0;
        let mut shifted = a;
        for i in 0..self.m {
            if (b >> i) & 1 == 1 {
                sum ^= shifted;
            }
            shifted = self.doubled(shifted);
        }
        sum
    }

    /// The product of two residues.
    pub fn mul<L: Ledger>(&self, a: u64, b: u64, steps: &mut Steps<L>) -> u64
        requires a_below { a < 2 ^ self.now.degree }
        requires b_below { b < 2 ^ self.now.degree }
        ensures value { result ≡ field_product self.now a b }
        ensures below { result < 2 ^ self.now.degree }
        ensures cost { steps.new ≡ steps.old + 1 }
    {
        steps.tick();
        self.product(a, b)
    }

    /// The square of a residue.
    pub fn square<L: Ledger>(&self, a: u64, steps: &mut Steps<L>) -> u64
        requires { a < 2 ^ self.now.degree }
        ensures value { result ≡ field_product self.now a a }
        ensures below { result < 2 ^ self.now.degree }
        ensures cost { steps.new ≡ steps.old + 1 }
    {
        self.mul(a, a, steps)
    }

    /// The Frobenius map applied i times, that is a^(2^i).
    pub fn pow2<L: Ledger>(&self, a: u64, i: u32, steps: &mut Steps<L>) -> u64
        requires a_below { a < 2 ^ self.now.degree }
        requires at_most_128 { i ≤ 128 }
        ensures value { result ≡ frobenius self.now i a }
        ensures below { result < 2 ^ self.now.degree }
        ensures cost { steps.new ≤ steps.old + i }
    {
        let mut power = a;
        for _ in 0..i {
            power = self.square(power, steps);
        }
        power
    }

    /// Whether X^(2^m) is X modulo the polynomial of the modulus.
    fn frobenius_fixes_x(&self) -> bool
        ensures fixed { IsTrue result ↔ FrobeniusFixesX self.now }
        ensures modulus { IsModulus self.now }
    {
        let m = self.m;
        // X itself is no residue where m is 1.
        let x = self.doubled(1);
        let mut power = x;
        for _ in 0..m {
            power = self.product(power, power);
        }
        power == x
    }

    /// Whether 0 and 1 are the only residues a with a·a = a.
    ///
    /// This holds exactly where the images of X, X^2, .., X^(m - 1) under the linear map from a to a·a + a are independent,
    /// since 1 goes to 0.
    fn only_trivial_idempotents(&self) -> bool
        ensures { IsTrue result ↔ OnlyTrivialIdempotents self.now }
    {
        let mut basis = Echelon::new();
        for i in 1..self.m {
            let a = 1 << i;
            if !basis.insert(self.product(a, a) ^ a) {
                return false;
            }
        }
        true
    }

    /// Whether the polynomial of the modulus is irreducible, so that the residues are the field GF(2^m).
    ///
    /// It is exactly where X^(2^m) is X, which rules out a square factor, and 0 and 1 are the only residues with a·a = a,
    /// which rules out two factors with no common factor. That factors show in these residues is from E. R. Berlekamp,
    /// "Factoring polynomials over finite fields", 1967.
    pub fn is_irreducible(&self) -> bool
        ensures exact { IsTrue result ↔ IsIrreducible (polynomial self.now) }
        ensures value { result ≡ irreducible (polynomial self.now) }
    {
        self.frobenius_fixes_x() && self.only_trivial_idempotents()
    }
}
