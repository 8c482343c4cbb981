//! The products of an element and the powers of another, several to a word.
ghost use Rattle.std.specs.Prelude.{◌≡◌, ◌*◌, ◌^◌, ◌<◌, ◌≤◌};
ghost use Rattle.kk_field.specs.Laws.{IsModulus};
ghost use Rattle.kk_tables.specs.Tables.{HasUnits, IsTableOf};
ghost use Rattle.kk_code.specs.Encoder.{multiples};

use kk_field::Steps;
use kk_tables::FieldTables;
use kk_tables::bytes::{ENTRIES, make_table_of};
use std::sync::ledger::Ledger;

/// The products of `x` and the first `n` powers of `base`, each in m bits, the next above the last.
fn multiples<L: Ledger>(field: &FieldTables, base: u64, n: u32, x: u64, steps: &mut Steps<L>) -> u64
    requires modulus { IsModulus field.now }
    requires base_below { base < 2 ^ field.now.degree }
    requires room { field.now.degree * n ≤ 64 }
    requires x_below { x < 2 ^ field.now.degree }
    ensures { result ≡ multiples field.now base n x }
{
    let m = field.m();
    let mut word = 0;
    let mut product = x;
    for i in 0..n {
        product = field.mul(product, base, steps);
        word ^= product << (m * i);
    }
    word
}

/// The same of the numbers 2^0, 2^1, .. 2^63, each taken as an element of the field.
fn units<L: Ledger>(field: &FieldTables, base: u64, n: u32, steps: &mut Steps<L>) -> [u64; 64]
    requires modulus { IsModulus field.now }
    requires some { 2 ≤ field.now.degree }
    requires base_below { base < 2 ^ field.now.degree }
    requires room { field.now.degree * n ≤ 64 }
    ensures { HasUnits (multiples field.now base n) result }
{
    let mut units = [0; 64];
    let mut x = 1;
    for j in 0..64 {
        units[j] = multiples(field, base, n, x, steps);
        x = field.mul(x, 2, steps);
    }
    units
}

/// Makes the table of the products of a number, taken as an element, and the first `n` powers of `base`.
pub(crate) fn make_table<L: Ledger>(
    table: &mut [u64; ENTRIES],
    field: &FieldTables,
    base: u64,
    n: u32,
    steps: &mut Steps<L>,
)
    requires modulus { IsModulus field.now }
    requires some { 2 ≤ field.now.degree }
    requires base_below { base < 2 ^ field.now.degree }
    requires room { field.now.degree * n ≤ 64 }
    ensures { IsTableOf (multiples field.now base n) table.new }
{
    make_table_of(table, &units(field, base, n, steps));
}
