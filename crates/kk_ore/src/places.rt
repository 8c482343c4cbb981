//! What both divisions do to coefficients.
ghost use Rattle.std.specs.Prelude.{◌≡◌, ◌+◌, ◌-◌, ◌*◌, ◌^◌, ◌<◌, ◌≤◌, ◌++◌, length, replicate};
ghost use Rattle.kk_field.specs.Field.{field_product};

use kk_field::Steps;
use kk_linpoly::MAX_COEFFICIENTS;
use kk_tables::FieldTables;
use std::sync::ledger::Ledger;

/// The coefficients with zeros after them.
pub(crate) fn padded(coefficients: &[u64]) -> [u64; MAX_COEFFICIENTS]
    requires { length coefficients.now ≤ 128 }
    ensures { result ≡ coefficients.now ++ replicate (128 - length coefficients.now) 0 }
{
    let mut places = [0; MAX_COEFFICIENTS];
    places[..coefficients.len()].copy_from_slice(coefficients);
    places
}

/// The inverse of a residue other than 0.
pub(crate) fn inverse_of<L: Ledger>(field: &FieldTables, a: u64, steps: &mut Steps<L>) -> u64
    requires below { a < 2 ^ field.now.degree }
    requires not_zero { 0 < a }
    ensures product_is_one { field_product field.now a result ≡ 1 }
    ensures below { result < 2 ^ field.now.degree }
    ensures cost { steps.new ≤ steps.old + 2 * field.now.degree }
{
    match field.inverse(a, steps) {
        Some(inverse) => inverse,
        None => unreachable!(),
    }
}
