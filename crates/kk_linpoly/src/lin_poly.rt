//! A linearised polynomial: values, sums, multiples, compositions, vanishing polynomials.
ghost use Rattle.std.specs.Prelude.{◌≡◌, ℕ, ◌+◌, ◌-◌, ◌*◌, ◌^◌, ◌<◌, ◌≤◌, ◌↔◌, length, slice_index, max, IsTrue, All};
ghost use Rattle.kk_rows.specs.Span.{in_span, IsIndependent};
ghost use Rattle.kk_linpoly.specs.declared.lin_poly.TheConstants.{MAX_COEFFICIENTS};
ghost use Rattle.kk_linpoly.specs.LinPoly.{IsOver, IsMonic, value, trimmed, degree, sum_of, scaled, composition, squared_up, raised};

use crate::places::{add_multiple, add_to, raise_each, scale_each, square_each, trimmed_len};
use kk_field::Steps;
use kk_tables::FieldTables;
use std::marker::Model;
use std::sync::ledger::Ledger;

/// How many coefficients a polynomial can have.
pub const MAX_COEFFICIENTS: usize = 128;

/// A linearised polynomial of degree at most 127: the sum of c_i·X^(2^i) over its coefficients c_i.
///
/// Clauses see the list of the coefficients, from c_0 up, without zeros at its end.
#[derive(Clone, Debug, Drop)]
pub struct LinPoly {
    // 0 from place `len` on
    coefficients: [u64; MAX_COEFFICIENTS],
    len: usize,
}

impl Model for LinPoly {
    ghost use Rattle.std.specs.Prelude.{List, ℕ, take};
    ghost use Rattle.kk_linpoly.specs.Storage.{IsStored};

    ghost Value = { List ℕ };

    ghost view = { λ p. take p.len p.coefficients };

    ghost invariant = { λ p. IsStored p.len p.coefficients };
}

impl PartialEq for LinPoly {
    ghost use Rattle.std.specs.Str.{bytes_eq};
    ghost use Rattle.std.specs.Cmp.{partial_equiv_from_equiv};
    ghost use Rattle.std.proofs.lemmas.Cmp.{nat_list_eq_equiv};

    ghost eq = { bytes_eq };

    ghost laws = { partial_equiv_from_equiv nat_list_eq_equiv };

    fn eq(&self, other: &LinPoly) -> bool {
        self.coeffs() == other.coeffs()
    }
}

impl Eq for LinPoly {
    ghost use Rattle.std.proofs.lemmas.Cmp.{nat_list_eq_equiv};

    ghost laws = { nat_list_eq_equiv };
}

impl LinPoly {
    /// The polynomial with these coefficients, at most 128. Zeros at the end are dropped.
    pub fn from_slice(c: &[u64]) -> LinPoly
        requires { length c.now ≤ MAX_COEFFICIENTS }
        ensures value { result ≡ trimmed c.now }
        ensures len { length result ≤ length c.now }
        ensures of_field { (m : ℕ) → IsOver m c.now → IsOver m result }
    {
        let len = trimmed_len(c);
        let mut coefficients = [0; MAX_COEFFICIENTS];
        coefficients[..len].copy_from_slice(&c[..len]);
        LinPoly { coefficients, len }
    }

    /// The polynomial with these coefficients, which are 0 from place `end` on.
    fn from_places(coefficients: [u64; MAX_COEFFICIENTS], end: usize) -> LinPoly
        requires fits { end ≤ MAX_COEFFICIENTS }
        requires ends { (i : ℕ) → end ≤ i → slice_index coefficients i ≡ 0 }
        ensures { result ≡ trimmed coefficients }
    {
        let len = trimmed_len(&coefficients[..end]);
        LinPoly { coefficients, len }
    }

    /// The coefficients, from that of X up. The last one isn't 0.
    pub fn coeffs(&self) -> &[u64]
        ensures value { result.now ≡ self.now }
        ensures fits { length self.now ≤ MAX_COEFFICIENTS }
        ensures no_zero_at_end { trimmed self.now ≡ self.now }
    {
        &self.coefficients[..self.len]
    }

    /// The last place whose coefficient isn't 0, or `None` for the zero polynomial.
    pub fn degree(&self) -> Option<u32>
        ensures { result ≡ degree self.now }
    {
        if self.len == 0 {
            None
        } else {
            Some(self.len as u32 - 1)
        }
    }

    /// The value at `x`.
    pub fn eval<L: Ledger>(&self, field: &FieldTables, x: u64, steps: &mut Steps<L>) -> u64
        requires of_field { IsOver field.now.degree self.now }
        requires x_below { x < 2 ^ field.now.degree }
        ensures value { result ≡ value field.now self.now x }
        ensures below { result < 2 ^ field.now.degree }
        ensures cost { steps.new ≤ steps.old + 2 * length self.now }
    {
        let ring = field.ring();
        let mut sum = 0;
        let mut power = x;
        for c in self.coeffs() {
            sum ^= ring.mul(*c, power, steps);
            power = ring.square(power, steps);
        }
        sum
    }

    /// The sum.
    pub fn add(&self, g: &LinPoly) -> LinPoly
        ensures value { result ≡ trimmed (sum_of self.now g.now) }
        ensures len { length result ≤ max (length self.now) (length g.now) }
        ensures of_field { (m : ℕ) → IsOver m self.now → IsOver m g.now → IsOver m result }
    {
        let mut sum = self.coefficients;
        add_to(&mut sum, g.coeffs());
        LinPoly::from_places(sum, self.len.max(g.len))
    }

    /// `c` times the polynomial.
    pub fn scale<L: Ledger>(&self, field: &FieldTables, c: u64, steps: &mut Steps<L>) -> LinPoly
        requires of_field { IsOver field.now.degree self.now }
        requires c_below { c < 2 ^ field.now.degree }
        ensures value { result ≡ trimmed (scaled field.now c self.now) }
        ensures len { length result ≤ length self.now }
        ensures of_field { IsOver field.now.degree result }
        ensures cost { steps.new ≤ steps.old + length self.now }
    {
        let mut product = [0; MAX_COEFFICIENTS];
        add_multiple(&mut product, field.ring(), c, self.coeffs(), steps);
        LinPoly::from_places(product, self.len)
    }

    /// The square, which is the composition of X^2 and the polynomial. Its degree is one more, so at most 127 coefficients
    /// have room for it.
    pub fn square_up<L: Ledger>(&self, field: &FieldTables, steps: &mut Steps<L>) -> LinPoly
        requires of_field { IsOver field.now.degree self.now }
        requires fits { length self.now ≤ 127 }
        ensures value { result ≡ trimmed (squared_up field.now self.now) }
        ensures len { length result ≤ length self.now + 1 }
        ensures of_field { IsOver field.now.degree result }
        ensures cost { steps.new ≤ steps.old + length self.now }
    {
        let mut square = [0; MAX_COEFFICIENTS];
        let places = &mut square[1..self.len + 1];
        places.copy_from_slice(self.coeffs());
        square_each(places, field.ring(), steps);
        LinPoly::from_places(square, self.len + 1)
    }

    /// Makes of the polynomial its square plus `d` times it: v^2 + d·v where its value was v, so 0 exactly where that was 0
    /// or `d`. Its degree becomes one more, so at most 127 coefficients have room for it.
    pub fn raise<L: Ledger>(&mut self, field: &FieldTables, d: u64, steps: &mut Steps<L>)
        requires of_field { IsOver field.now.degree self.old }
        requires fits { length self.old ≤ 127 }
        requires d_below { d < 2 ^ field.now.degree }
        ensures value { self.new ≡ trimmed (raised field.now d self.old) }
        ensures len { length self.new ≤ length self.old + 1 }
        ensures of_field { IsOver field.now.degree self.new }
        ensures cost { steps.new ≤ steps.old + 2 * length self.old }
    {
        let top = raise_each(&mut self.coefficients[..self.len], field.ring(), d, steps);
        self.coefficients[self.len] = top;
        self.len = trimmed_len(&self.coefficients[..self.len + 1]);
    }

    /// Makes of the polynomial `a` times it plus `b` times `other`.
    pub fn combine<L: Ledger>(
        &mut self,
        field: &FieldTables,
        a: u64,
        other: &LinPoly,
        b: u64,
        steps: &mut Steps<L>,
    )
        requires of_field { IsOver field.now.degree self.old }
        requires other_of_field { IsOver field.now.degree other.now }
        requires a_below { a < 2 ^ field.now.degree }
        requires b_below { b < 2 ^ field.now.degree }
        ensures value { self.new ≡ trimmed (sum_of (scaled field.now a self.old) (scaled field.now b other.now)) }
        ensures len { length self.new ≤ max (length self.old) (length other.now) }
        ensures of_field { IsOver field.now.degree self.new }
        ensures cost { steps.new ≤ steps.old + (length self.old + length other.now) }
    {
        let ring = field.ring();
        scale_each(&mut self.coefficients[..self.len], ring, a, steps);
        add_multiple(&mut self.coefficients, ring, b, other.coeffs(), steps);
        self.len = trimmed_len(&self.coefficients[..self.len.max(other.len)]);
    }

    /// The composition, whose value at x is the value of the polynomial at the value of `g` at x.
    ///
    /// Its degree is the sum of the degrees, so together the two have at most 129 coefficients.
    pub fn compose<L: Ledger>(
        &self,
        field: &FieldTables,
        g: &LinPoly,
        steps: &mut Steps<L>,
    ) -> LinPoly
        requires of_field { IsOver field.now.degree self.now }
        requires g_of_field { IsOver field.now.degree g.now }
        requires fits { length self.now + length g.now ≤ 129 }
        ensures value { result ≡ trimmed (composition field.now self.now g.now) }
        ensures len { length result ≤ length self.now + length g.now - 1 }
        ensures of_field { IsOver field.now.degree result }
        ensures cost { steps.new ≤ steps.old + length self.now * length g.now * (length self.now + 1) }
    {
        let ring = field.ring();
        let mut sum = [0; MAX_COEFFICIENTS];
        // g^(2^i), in round i
        let mut powers = g.coefficients;
        for (i, c) in self.coeffs().iter().enumerate() {
            add_multiple(&mut sum[i..], ring, *c, &powers[..g.len], steps);
            square_each(&mut powers[..g.len], ring, steps);
        }
        LinPoly::from_places(sum, (self.len + g.len).saturating_sub(1))
    }

    /// The monic polynomial whose degree is the number of points and which is 0 at each of them: at most 127 points below
    /// 2^m. Where they are independent over GF(2) there is one such polynomial ([`crate::laws::one_vanishing`]), the
    /// minimal polynomial of their span, which is 0 nowhere else.
    ///
    /// With one point p more, V becomes V^2 + V(p)·V (O. Ore, "On a special class of polynomials", 1933).
    pub fn vanishing<L: Ledger>(
        field: &FieldTables,
        points: &[u64],
        steps: &mut Steps<L>,
    ) -> LinPoly
        requires few { length points.now ≤ 127 }
        requires points_below { All (λ p. p < 2 ^ field.now.degree) points.now }
        ensures monic { IsMonic result (length points.now) }
        ensures len { length result ≡ length points.now + 1 }
        ensures zeros { All (λ p. value field.now result p ≡ 0) points.now }
        ensures no_others { IsIndependent points.now → (x : ℕ) → x < 2 ^ field.now.degree
            → (value field.now result x ≡ 0) ↔ IsTrue (in_span points.now x) }
        ensures of_field { IsOver field.now.degree result }
        ensures cost { steps.new ≤ steps.old + 2 * length points.now * (length points.now + 1) }
    {
        let mut v = LinPoly::from_slice(&[field.one()]);
        for p in points {
            let at = v.eval(field, *p, steps);
            v.raise(field, at, steps);
        }
        v
    }
}
