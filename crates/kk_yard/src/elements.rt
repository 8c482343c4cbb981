//! Products, squares and inverses. Each product and each square depends on the one before it.
use crate::draws::{Draws, mixed};
use kk_field::Steps;
use kk_tables::FieldTables;
use std::sync::ledger::Ledger;

/// Each product is that of the two before it.
pub(crate) fn products<L: Ledger>(field: &FieldTables, rounds: u64, steps: &mut Steps<L>) -> u64 {
    let mut draws = Draws::new();
    let mut a = draws.bits(field.m());
    let mut b = draws.bits(field.m());
    for _ in 0..rounds {
        let c = field.mul(a, b, steps);
        a = b;
        b = c;
    }
    b
}

/// Each square is that of the one before it.
pub(crate) fn squares<L: Ledger>(field: &FieldTables, rounds: u64, steps: &mut Steps<L>) -> u64 {
    let mut a = Draws::new().bits(field.m());
    for _ in 0..rounds {
        a = field.square(a, steps);
    }
    a
}

/// Inverses of drawn elements.
pub(crate) fn inverses<L: Ledger>(field: &FieldTables, rounds: u64, steps: &mut Steps<L>) -> u64 {
    let mut draws = Draws::new();
    let mut sum = 0;
    for _ in 0..rounds {
        let a = draws.bits(field.m());
        sum = mixed(sum, field.inverse(a, steps).unwrap_or(0));
    }
    sum
}
