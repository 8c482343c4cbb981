//! The map of a linearised polynomial, by tables.
ghost use Rattle.std.specs.Prelude.{◌≡◌, ℕ, ◌+◌, ◌*◌, ◌^◌, ◌%◌, ◌<◌, ◌≤◌, length};
ghost use Rattle.kk_field.specs.Laws.{IsModulus};
ghost use Rattle.kk_tables.specs.Tables.{HasUnits};
ghost use Rattle.kk_linpoly.specs.LinPoly.{IsOver, value};
ghost use Rattle.kk_linpoly.specs.LinMap.{image};

use crate::LinPoly;
use kk_field::Steps;
use kk_tables::FieldTables;
use kk_tables::bytes::{ENTRIES, image_of, make_table_of};
use std::marker::Model;
use std::sync::ledger::Ledger;

/// The map that takes x to the value of a linearised polynomial at x, by 8 tables of 256 words: for who needs the values of
/// one polynomial at many points. It takes 16 KB, and is passed by reference.
///
/// The map is additive, so the value at x is the sum of the values at the bytes of x, each at its place.
#[derive(Drop)]
pub struct LinMap {
    table: [u64; ENTRIES],
}

// Clauses see the words of the tables.
impl Model for LinMap {
    ghost use Rattle.std.specs.Prelude.{List, ℕ};

    ghost Value = { List ℕ };

    ghost view = { λ a. a.table };
}

impl LinMap {
    /// The map of the zero polynomial.
    pub fn new() -> LinMap
        ensures { (x : ℕ) → image result x ≡ 0 }
    {
        LinMap {
            table: [0; ENTRIES],
        }
    }

    /// Makes it the map of `f` on the elements of the field.
    pub fn load<L: Ledger>(&mut self, field: &FieldTables, f: &LinPoly, steps: &mut Steps<L>)
        requires { IsOver field.now.degree f.now }
        ensures value { (x : ℕ) → x < 2 ^ field.now.degree → image self.new x ≡ value field.now f.now x }
        ensures cost { steps.new ≤ steps.old + 2 * field.now.degree * length f.now }
    {
        make_table_of(&mut self.table, &values_at_units(field, f, steps));
    }

    /// The value at `x` of the polynomial that was loaded, where `x` is an element of its field. Where none was loaded, 0.
    pub fn at(&self, x: u64) -> u64
        ensures { result ≡ image self.now x }
    {
        image_of(&self.table, x, 8)
    }
}

/// The values of `f` at the elements 2^0, 2^1, .. 2^(m-1), with zeros after them.
fn values_at_units<L: Ledger>(field: &FieldTables, f: &LinPoly, steps: &mut Steps<L>) -> [u64; 64]
    requires { IsOver field.now.degree f.now }
    ensures value { HasUnits (λ x. value field.now f.now (x % 2 ^ field.now.degree)) result }
    ensures cost { steps.new ≤ steps.old + 2 * field.now.degree * length f.now }
    ensures modulus { IsModulus field.now }
    ensures fits { field.now.degree ≤ 64 }
{
    let one = field.one();
    let mut values = [0; 64];
    for i in 0..field.m() as usize {
        values[i] = f.eval(field, one << i, steps);
    }
    values
}
