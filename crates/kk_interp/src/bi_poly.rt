//! The polynomial in two variables.
ghost use Rattle.std.specs.Prelude.{◌≡◌, ◌≢◌, ◌+◌, ◌*◌, ◌^◌, ◌<◌, ◌≤◌};
ghost use Rattle.kk_field.specs.Laws.{IsFieldModulus};

use kk_field::Steps;
use kk_linpoly::LinPoly;
use kk_tables::FieldTables;
use std::sync::ledger::Ledger;

/// The polynomial qx(x) + qy(y) in two variables, whose parts are linearised polynomials.
///
/// Its weight is the greater of the degree of qx and the degree of qy plus k - 1, over the parts that aren't zero.
#[derive(Clone, Debug, Drop)]
pub struct BiPoly {
    pub qx: LinPoly,
    pub qy: LinPoly,
}

impl BiPoly {
    ghost use Rattle.kk_interp.specs.BiPoly.{IsOfField, value_at};
    ghost use Rattle.kk_interp.specs.Steps.{IsShort, IsRaised, IsCombined, size};

    /// The same polynomial once more. It takes no memory, and so can't fail, as `clone` could.
    pub(crate) fn copy(&self) -> BiPoly
        ensures { result ≡ self.now }
    {
        BiPoly {
            qx: LinPoly::from_slice(self.qx.coeffs()),
            qy: LinPoly::from_slice(self.qy.coeffs()),
        }
    }

    /// The value at (x, y).
    pub(crate) fn eval<L: Ledger>(
        &self,
        field: &FieldTables,
        x: u64,
        y: u64,
        steps: &mut Steps<L>,
    ) -> u64
        requires of_field { IsOfField field.now self.now.qx self.now.qy }
        requires x_below { x < 2 ^ field.now.degree }
        requires y_below { y < 2 ^ field.now.degree }
        ensures value { result ≡ value_at field.now self.now.qx self.now.qy x y }
        ensures below { result < 2 ^ field.now.degree }
        ensures cost { steps.new ≤ steps.old + 2 * size self.now }
    {
        self.qx.eval(field, x, steps) ^ self.qy.eval(field, y, steps)
    }

    /// Makes of the polynomial its square plus `d` times it, whose value is 0 where that of the polynomial was `d`.
    pub(crate) fn raise<L: Ledger>(&mut self, field: &FieldTables, d: u64, steps: &mut Steps<L>)
        requires field { IsFieldModulus field.now }
        requires of_field { IsOfField field.now self.old.qx self.old.qy }
        requires fits { IsShort 127 self.old }
        requires d_below { d < 2 ^ field.now.degree }
        ensures raised { IsRaised field.now d self.old self.new }
        ensures cost { steps.new ≤ steps.old + 2 * size self.old }
    {
        self.qx.raise(field, d, steps);
        self.qy.raise(field, d, steps);
    }

    /// Makes of the polynomial `a` times it plus `b` times `other`.
    pub(crate) fn combine<L: Ledger>(
        &mut self,
        field: &FieldTables,
        a: u64,
        other: &BiPoly,
        b: u64,
        steps: &mut Steps<L>,
    )
        requires field { IsFieldModulus field.now }
        requires of_field { IsOfField field.now self.old.qx self.old.qy }
        requires other_of_field { IsOfField field.now other.now.qx other.now.qy }
        requires a_below { a < 2 ^ field.now.degree }
        requires b_below { b < 2 ^ field.now.degree }
        requires a_some { a ≢ 0 }
        requires b_some { b ≢ 0 }
        ensures combined { IsCombined field.now a self.old b other.now self.new }
        ensures cost { steps.new ≤ steps.old + (size self.old + size other.now) }
    {
        self.qx.combine(field, a, &other.qx, b, steps);
        self.qy.combine(field, a, &other.qy, b, steps);
    }
}
