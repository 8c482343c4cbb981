//! The interpolation.
//!
//! It is Kötter's interpolation, here over linearised polynomials in two variables, one point at a time (R. Kötter and
//! F. R. Kschischang, "Coding for errors and erasures in random network coding", IEEE Trans. Inf. Theory 54(8), 2008, section V).
//! Two polynomials that are 0 at all points so far are kept: one whose leading term is in x, and one whose leading term is
//! in y. At a further point there are three cases.
//!
//! 1. A polynomial that is 0 there stays.
//! 2. Where one of them alone has a value d other than 0, it becomes its square plus d times itself.
//! 3. Where both have one, the lesser becomes that too, and the sum of multiples of both that is 0 at the point replaces the
//!    greater, whose leading term it keeps.
//!
//! The weights of both sum to k - 1 at first, and with each point to at most one more. So the lesser weighs at most half
//! of k - 1 and the number of points.
ghost use Rattle.std.specs.Prelude.{◌≡◌, ◌≢◌, ◌⊎◌, ◌↔◌, ◌+◌, ◌-◌, ◌*◌, ◌/◌, ◌^◌, ◌<◌, ◌≤◌, [], ◌∷◌, ◌++◌, IsTrue, length, slice_index};
ghost use Rattle.kk_linpoly.specs.declared.lin_poly.TheConstants.{MAX_COEFFICIENTS};

use crate::bi_poly::BiPoly;
use kk_field::{Field, Steps};
use kk_linpoly::{LinPoly, MAX_COEFFICIENTS};
use kk_tables::FieldTables;
use std::marker::Model;
use std::sync::ledger::Ledger;

/// The interpolation of a polynomial qx(x) + qy(y) of small weight through points that are given one by one.
///
/// Clauses see an `Interpolation`: the modulus, k, the points that were given, and `least`.
#[derive(Drop)]
pub struct Interp {
    field: Field,
    k: u32,
    points: [(u64, u64); MAX_COEFFICIENTS],
    count: usize,
    x_leading: BiPoly,
    y_leading: BiPoly,
}

impl Model for Interp {
    ghost use Rattle.kk_interp.specs.Interpolation.{Interpolation};
    ghost use Rattle.kk_interp.specs.State.{seen, IsKept};
    ghost use Rattle.kk_linpoly.specs.declared.lin_poly.TheConstants.{MAX_COEFFICIENTS};
    ghost use Rattle.std.specs.Prelude.{◌≡◌, take, length};

    ghost Value = { Interpolation };

    ghost view = { λ a. seen (record {
      modulus = a.field;
      k = a.k;
      points = take a.count a.points;
      count = a.count;
      x_leading = a.x_leading;
      y_leading = a.y_leading;
    }) };

    ghost invariant = { λ a. (length a.points ≡ MAX_COEFFICIENTS) × IsKept (record {
      modulus = a.field;
      k = a.k;
      points = take a.count a.points;
      count = a.count;
      x_leading = a.x_leading;
      y_leading = a.y_leading;
    }) };
}

/// Whether the polynomial that is led by a term in x weighs no more than the one that is led by a term in y.
fn x_is_least(x_leading: &BiPoly, y_leading: &BiPoly, k: u32) -> bool
    requires { k ≤ 64 }
    ensures { IsTrue result ↔ (length x_leading.now.qx < length y_leading.now.qy + k) }
{
    x_leading.qx.coeffs().len() < y_leading.qy.coeffs().len() + k as usize
}

impl Interp {
    ghost use Rattle.kk_interp.specs.BiPoly.{IsOfField, IsZeroAt, weight};

    /// No points so far. The first polynomials are x and y.
    pub fn new(field: Field, k: u32) -> Interp
        requires k_at_least { 1 ≤ k }
        requires k_at_most { k ≤ 64 }
        ensures field { result.modulus ≡ field }
        ensures k { result.k ≡ k }
        ensures no_points { result.points ≡ [] }
    {
        let one = field.one();
        Interp {
            field,
            k,
            points: [(0, 0); MAX_COEFFICIENTS],
            count: 0,
            x_leading: BiPoly {
                qx: LinPoly::from_slice(&[one]),
                qy: LinPoly::from_slice(&[]),
            },
            y_leading: BiPoly {
                qx: LinPoly::from_slice(&[]),
                qy: LinPoly::from_slice(&[one]),
            },
        }
    }

    /// Gives the point (x, y) too, with the tables of the field. The points and k together are at most [`MAX_COEFFICIENTS`].
    pub fn point<L: Ledger>(&mut self, field: &FieldTables, x: u64, y: u64, steps: &mut Steps<L>)
        requires same_field { field.now ≡ self.old.modulus }
        requires x_below { x < 2 ^ self.old.modulus.degree }
        requires y_below { y < 2 ^ self.old.modulus.degree }
        requires room { length self.old.points + 1 + self.old.k ≤ MAX_COEFFICIENTS }
        ensures field { self.new.modulus ≡ self.old.modulus }
        ensures k { self.new.k ≡ self.old.k }
        ensures points { self.new.points ≡ self.old.points ++ (x, y) ∷ [] }
        ensures cost { steps.new ≤ steps.old + 32 * (self.old.k + length self.old.points + 1) }
    {
        let v = self.x_leading.eval(field, x, y, steps);
        let w = self.y_leading.eval(field, x, y, steps);
        self.points[self.count] = (x, y);
        self.count += 1;
        match (v, w) {
            (0, 0) => {}
            (_, 0) => self.x_leading.raise(field, v, steps),
            (0, _) => self.y_leading.raise(field, w, steps),
            (_, _) => {
                if x_is_least(&self.x_leading, &self.y_leading, self.k) {
                    self.y_leading.combine(field, v, &self.x_leading, w, steps);
                    self.x_leading.raise(field, v, steps);
                } else {
                    self.x_leading.combine(field, w, &self.y_leading, v, steps);
                    self.y_leading.raise(field, w, steps);
                }
            }
        }
    }

    /// How many points were given.
    pub fn points(&self) -> u32
        ensures { result ≡ length self.now.points }
    {
        self.count as u32
    }

    /// A polynomial that isn't zero and is 0 at each point that was given. Its weight is at most half of r + k - 1, rounded
    /// down, for r points.
    pub fn least(&self) -> BiPoly
        ensures value { result ≡ self.now.least }
        ensures of_field { IsOfField self.now.modulus result.qx result.qy }
        ensures not_zero { (result.qx ≢ []) ⊎ (result.qy ≢ []) }
        ensures starts { (slice_index result.qx 0 ≢ 0) ⊎ (slice_index result.qy 0 ≢ 0) }
        ensures zero_at_points { IsZeroAt self.now.modulus result.qx result.qy self.now.points }
        ensures weight_at_most { weight self.now.k result.qx result.qy ≤ (length self.now.points + self.now.k - 1) / 2 }
    {
        if x_is_least(&self.x_leading, &self.y_leading, self.k) {
            self.x_leading.copy()
        } else {
            self.y_leading.copy()
        }
    }

    /// The weight of [`Interp::least`].
    pub fn weight(&self) -> u32
        ensures { result ≡ weight self.now.k self.now.least.qx self.now.least.qy }
    {
        if x_is_least(&self.x_leading, &self.y_leading, self.k) {
            self.x_leading.qx.coeffs().len() as u32 - 1
        } else {
            self.y_leading.qy.coeffs().len() as u32 + self.k - 2
        }
    }
}
