//! The field GF(2^m) with its tables.
ghost use Rattle.std.specs.Prelude.{◌≡◌, ◌+◌, ◌*◌, ◌^◌, ◌<◌, ◌≤◌, ◌↔◌, IsNone, IfSome};
ghost use Rattle.kk_field.specs.Field.{residue, field_product, frobenius};
ghost use Rattle.kk_field.specs.Laws.{IsFieldModulus, IsInverse};

use crate::bytes::{ENTRIES, image_of, make_table};
use crate::windows::{middle_product, narrow_product, wide_product};
use kk_field::{Field, Ring, Steps};
use std::marker::Model;
use std::sync::ledger::Ledger;

/// The field GF(2^m), for m from 1 to 64, with two tables of 16 KB. It is made once for a modulus and passed by reference.
///
/// `high` reduces a product: it is the table of the remainders of h·X^m. `squares` is the table of the squares.
#[derive(Drop)]
pub struct FieldTables {
    m: u32,
    low: u64,
    high: [u64; ENTRIES],
    squares: [u64; ENTRIES],
}

// Clauses see the modulus.
impl Model for FieldTables {
    ghost use Rattle.std.specs.Prelude.{◌≤◌};
    ghost use Rattle.kk_field.specs.Field.{Modulus};
    ghost use Rattle.kk_field.specs.Laws.{IsFieldModulus};
    ghost use Rattle.kk_tables.specs.Tables.{IsTableOf, reduction, squared};

    ghost Value = { Modulus };

    ghost view = { λ a. record { degree = a.m; low = a.low } };

    ghost invariant = { λ a. (a.m ≤ 64) × IsFieldModulus (record { degree = a.m; low = a.low })
        × IsTableOf (reduction (record { degree = a.m; low = a.low })) a.high
        × IsTableOf (squared (record { degree = a.m; low = a.low })) a.squares };
}

impl FieldTables {
    /// The tables of `field`.
    pub fn new(field: Field) -> Self
        ensures { result ≡ field }
    {
        let ring = field.ring();
        let mut high = [0; ENTRIES];
        let mut squares = [0; ENTRIES];
        make_table(&mut high, &ring, ring.low(), 1);
        make_table(&mut squares, &ring, 1, 2);
        FieldTables {
            m: ring.m(),
            low: ring.low(),
            high,
            squares,
        }
    }

    /// Makes the tables of `field` in place of the old ones.
    pub fn renew(&mut self, field: Field)
        ensures { self.new ≡ field }
    {
        let ring = field.ring();
        self.m = ring.m();
        self.low = ring.low();
        make_table(&mut self.high, &ring, ring.low(), 1);
        make_table(&mut self.squares, &ring, 1, 2);
    }

    /// The degree of the modulus, the number of bits of an element.
    pub fn m(&self) -> u32
        ensures value { result ≡ self.now.degree }
        ensures one_or_more { 1 ≤ result }
        ensures at_most_64 { result ≤ 64 }
    {
        self.m
    }

    /// The ring of the field's elements, with these tables.
    pub fn ring(&self) -> &Self
        ensures value { result.now ≡ self.now }
        ensures irreducible { IsFieldModulus result.now }
    {
        let _ = &self.m;
        self
    }

    /// The one of the field.
    pub fn one(&self) -> u64
        ensures value { result ≡ 1 }
        ensures below { result < 2 ^ self.now.degree }
        ensures irreducible { IsFieldModulus self.now }
    {
        let _ = &self.m;
        1
    }

    /// The field without its tables.
    pub fn field(&self) -> Field
        ensures value { result ≡ self.now }
        ensures irreducible { IsFieldModulus result }
    {
        Field::of(Ring::new(self.m, self.low))
    }

    /// The residue of `p`, whose part above m has at most `bytes` bytes.
    #[inline(always)]
    fn reduced(&self, p: u64, bytes: u32) -> u64
        requires narrow { self.now.degree < 64 }
        requires few { bytes ≤ 8 }
        requires p_below { p < 2 ^ (self.now.degree + 8 * bytes) }
        ensures value { result ≡ residue self.now p }
        ensures below { result < 2 ^ self.now.degree }
        ensures irreducible { IsFieldModulus self.now }
    {
        (p % (1 << self.m)) ^ image_of(&self.high, p >> self.m, bytes as usize)
    }

    /// The residue of a word in a field of degree at most 32: its lowest m bits plus the residue of those above.
    #[inline(always)]
    pub fn reduce_narrow(&self, p: u64) -> u64
        requires narrow { self.now.degree ≤ 32 }
        requires p_below { p < 2 ^ (self.now.degree + 32) }
        ensures value { result ≡ residue self.now p }
        ensures below { result < 2 ^ self.now.degree }
        ensures irreducible { IsFieldModulus self.now }
    {
        self.reduced(p, 4)
    }

    /// The residue of a word of 128 bits: its lowest m bits plus the residue of those above.
    #[inline(always)]
    pub fn reduce_wide(&self, p: u128) -> u64
        requires { p < 2 ^ (self.now.degree + 64) }
        ensures value { result ≡ residue self.now p }
        ensures below { result < 2 ^ self.now.degree }
        ensures irreducible { IsFieldModulus self.now }
    {
        (p % (1 << self.m)) as u64 ^ image_of(&self.high, (p >> self.m) as u64, 8)
    }

    /// The product of two elements of at most `bytes` bytes, in words of 64 bits.
    #[inline(always)]
    fn narrow(&self, a: u64, b: u64, bytes: u32) -> u64
        requires a_below { a < 2 ^ self.now.degree }
        requires b_below { b < 2 ^ self.now.degree }
        requires enough { self.now.degree ≤ 8 * bytes }
        requires at_most_4 { bytes ≤ 4 }
        ensures value { result ≡ field_product self.now a b }
        ensures below { result < 2 ^ self.now.degree }
    {
        self.reduced(narrow_product(a, b, 2 * bytes), bytes)
    }

    /// The product of two elements of at most 60 bits, by windows of words of 64 bits.
    #[inline(never)]
    fn middle(&self, a: u64, b: u64) -> u64
        requires a_below { a < 2 ^ self.now.degree }
        requires b_below { b < 2 ^ self.now.degree }
        requires at_most_60 { self.now.degree ≤ 60 }
        ensures value { result ≡ field_product self.now a b }
        ensures below { result < 2 ^ self.now.degree }
    {
        let _ = &self.m;
        self.reduce_wide(middle_product(a, b))
    }

    /// The product of two elements, in words of 128 bits.
    #[inline(never)]
    fn wide(&self, a: u64, b: u64) -> u64
        requires a_below { a < 2 ^ self.now.degree }
        requires b_below { b < 2 ^ self.now.degree }
        ensures value { result ≡ field_product self.now a b }
        ensures below { result < 2 ^ self.now.degree }
    {
        let _ = &self.m;
        self.reduce_wide(wide_product(a, b))
    }

    /// The product of two elements: their carry-less product, whose places from m on are reduced by the table.
    #[inline(always)]
    fn product(&self, a: u64, b: u64) -> u64
        requires a_below { a < 2 ^ self.now.degree }
        requires b_below { b < 2 ^ self.now.degree }
        ensures value { result ≡ field_product self.now a b }
        ensures below { result < 2 ^ self.now.degree }
    {
        let m = self.m();
        if m <= 8 {
            self.narrow(a, b, 1)
        } else if m <= 32 {
            self.narrow(a, b, 4)
        } else if m <= 60 {
            self.middle(a, b)
        } else {
            self.wide(a, b)
        }
    }

    /// The square of an element, the sum of the squares of its bytes.
    #[inline(always)]
    fn squared(&self, a: u64) -> u64
        requires { a < 2 ^ self.now.degree }
        ensures value { result ≡ field_product self.now a a }
        ensures below { result < 2 ^ self.now.degree }
    {
        if self.m <= 8 {
            image_of(&self.squares, a, 1)
        } else if self.m <= 32 {
            image_of(&self.squares, a, 4)
        } else {
            image_of(&self.squares, a, 8)
        }
    }

    /// The product of two elements.
    #[inline(always)]
    pub fn mul<L: Ledger>(&self, a: u64, b: u64, steps: &mut Steps<L>) -> u64
        requires a_below { a < 2 ^ self.now.degree }
        requires b_below { b < 2 ^ self.now.degree }
        ensures value { result ≡ field_product self.now a b }
        ensures below { result < 2 ^ self.now.degree }
        ensures cost { steps.new ≡ steps.old + 1 }
    {
        steps.tick();
        self.product(a, b)
    }

    /// The square of an element.
    #[inline(always)]
    pub fn square<L: Ledger>(&self, a: u64, steps: &mut Steps<L>) -> u64
        requires { a < 2 ^ self.now.degree }
        ensures value { result ≡ field_product self.now a a }
        ensures below { result < 2 ^ self.now.degree }
        ensures cost { steps.new ≡ steps.old + 1 }
    {
        steps.tick();
        self.squared(a)
    }

    /// The Frobenius map applied i times, that is a^(2^i).
    pub fn pow2<L: Ledger>(&self, a: u64, i: u32, steps: &mut Steps<L>) -> u64
        requires a_below { a < 2 ^ self.now.degree }
        requires at_most_128 { i ≤ 128 }
        ensures value { result ≡ frobenius self.now i a }
        ensures below { result < 2 ^ self.now.degree }
        ensures cost { steps.new ≤ steps.old + i }
    {
        let mut power = a;
        for _ in 0..i {
            power = self.square(power, steps);
        }
        power
    }

    /// The inverse of `a`, or `None` at 0.
    ///
    /// It is the square of a^(2^n - 1) for n = m - 1. That power is made from n = 1 on by the binary digits of m - 1 after
    /// the highest: each doubles n, and adds 1 where it is 1 (T. Itoh and S. Tsujii, "A fast algorithm for computing
    /// multiplicative inverses in GF(2^m) using normal bases", 1988).
    pub fn inverse<L: Ledger>(&self, a: u64, steps: &mut Steps<L>) -> Option<u64>
        requires { a < 2 ^ self.now.degree }
        ensures zero { IsNone result ↔ (a ≡ 0) }
        ensures inverse { IfSome result (IsInverse self.now a) }
        ensures cost { steps.new ≤ steps.old + 2 * self.now.degree }
    {
        if a == 0 {
            return None;
        }
        let last = self.m - 1;
        if last == 0 {
            // 1 is the only element except 0.
            return Some(a);
        }
        let top = last.ilog2();
        let mut power = a;
        for i in 0..top {
            let n = last >> (top - i);
            power = self.mul(self.pow2(power, n, steps), power, steps);
            if (last >> (top - i - 1)) % 2 == 1 {
                power = self.mul(self.square(power, steps), a, steps);
            }
        }
        Some(self.square(power, steps))
    }

    /// The 2^i-th root of `a`, which the Frobenius map applied i times takes to `a`.
    ///
    /// The map has order m, so the root is `a` squared m - i mod m times.
    pub fn root2<L: Ledger>(&self, a: u64, i: u32, steps: &mut Steps<L>) -> u64
        requires { a < 2 ^ self.now.degree }
        ensures root { frobenius self.now i result ≡ a }
        ensures below { result < 2 ^ self.now.degree }
        ensures cost { steps.new ≤ steps.old + self.now.degree }
    {
        let m = self.m;
        self.pow2(a, (m - i % m) % m, steps)
    }
}
