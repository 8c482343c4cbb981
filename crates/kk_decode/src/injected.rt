//! The offsets of a space from a codeword.
ghost use Rattle.std.specs.Prelude.{◌≡◌, ◌+◌, ◌*◌, ◌^◌, ◌<◌, ◌≤◌, length};
ghost use Rattle.kk_linpoly.specs.LinPoly.{IsOver, value};
ghost use Rattle.kk_code.specs.Codeword.{IsMessage, width};
ghost use Rattle.kk_code.specs.Decoding.{injected};

use kk_code::{Code, Message};
use kk_field::Steps;
use kk_linpoly::LinPoly;
use kk_rows::{Row, RowSpace};
use kk_tables::FieldTables;
use std::sync::ledger::Ledger;

/// How many dimensions of the space are foreign to the codeword of the message: the rank of the offsets of its rows, each
/// the sum of y and the value at x ([`crate::laws::meet_by_offsets`]). At most l rows of its reduced form have an x-part
/// other than 0.
pub(crate) fn injected_by_offsets<L: Ledger>(
    code: &Code,
    tables: &FieldTables,
    space: &RowSpace,
    u: &Message,
    steps: &mut Steps<L>,
) -> u32
    requires tables { tables.now ≡ code.now.field }
    requires width { space.now.width ≡ width code.now }
    requires message { IsMessage code.now u.now }
    ensures injected { result ≡ injected code.now space.now.rows u.now }
    ensures cost { steps.new ≤ steps.old + code.now.l * (2 * code.now.k) }
{
    let f = LinPoly::from_slice(u.symbols());
    let mut offsets = RowSpace::new(code.m());
    for row in space.rows() {
        let (x, y) = code.parts(*row);
        let value = value_at(&f, tables, x, steps);
        let _ = offsets.insert(Row(u128::from(y ^ value)));
    }
    offsets.rank()
}

/// The value of the polynomial at `x`. At 0 it takes no step.
fn value_at<L: Ledger>(f: &LinPoly, tables: &FieldTables, x: u64, steps: &mut Steps<L>) -> u64
    requires of_field { IsOver tables.now.degree f.now }
    requires x_below { x < 2 ^ tables.now.degree }
    ensures value { result ≡ value tables.now f.now x }
    ensures free { x ≡ 0 → steps.new ≡ steps.old }
    ensures cost { steps.new ≤ steps.old + 2 * length f.now }
{
    let field = tables.ring();
    if x == 0 {
        return 0;
    }
    f.eval(field, x, steps)
}
