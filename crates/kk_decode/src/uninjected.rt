//! A space into which nothing was injected.
ghost use Rattle.std.specs.Prelude.{◌≡◌, ◌+◌, ◌-◌, ◌*◌, ◌≤◌, IsTrue, IfSome, length};
ghost use Rattle.kk_rows.specs.Span.{dimension};
ghost use Rattle.kk_rows.specs.Distance.{distance};
ghost use Rattle.kk_code.specs.Codeword.{IsMessage, codeword, width};
ghost use Rattle.kk_code.specs.Decoding.{Decodes};

use crate::candidate::candidate;
use kk_code::{Code, Message};
use kk_field::Steps;
use kk_interp::Interp;
use kk_linpoly::LinPoly;
use kk_rows::RowSpace;
use kk_tables::FieldTables;
use std::sync::ledger::Ledger;

/// Whether each row of the space is of the codeword. Where the space has at least k dimensions, it then decodes to the
/// message, however that was found.
pub(crate) fn is_within_codeword<L: Ledger>(
    code: &Code,
    tables: &FieldTables,
    space: &RowSpace,
    u: &Message,
    steps: &mut Steps<L>,
) -> bool
    requires tables { tables.now ≡ code.now.field }
    requires width { space.now.width ≡ width code.now }
    requires message { IsMessage code.now u.now }
    requires enough { code.now.k ≤ dimension space.now.rows }
    ensures within { IsTrue result → distance (codeword code.now u.now) space.now.rows ≤ code.now.l - code.now.k }
    ensures cost { steps.new ≤ steps.old + dimension space.now.rows * (2 * code.now.k) }
{
    // its parameters are in range
    let _k = code.k();
    let f = LinPoly::from_slice(u.symbols());
    for row in space.rows() {
        let (x, y) = code.parts(*row);
        if f.eval(tables, x, steps) != y {
            return false;
        }
    }
    true
}

/// The message of the points so far, where each row of the space is of its codeword.
pub(crate) fn decode_uninjected<L: Ledger>(
    code: &Code,
    tables: &FieldTables,
    space: &RowSpace,
    interp: &Interp,
    steps: &mut Steps<L>,
) -> Option<Message>
    requires tables { tables.now ≡ code.now.field }
    requires width { space.now.width ≡ width code.now }
    requires enough { code.now.k ≤ dimension space.now.rows }
    requires field { interp.now.modulus ≡ code.now.field }
    requires k { interp.now.k ≡ code.now.k }
    requires few { length interp.now.points + code.now.k ≤ 128 }
    ensures decodes { IfSome result (Decodes code.now space.now.rows) }
    ensures cost { steps.new ≤ steps.old + (2 * code.now.field.degree + code.now.k * (length interp.now.points + 3) + dimension space.now.rows * (2 * code.now.k)) }
{
    let u = candidate(code, tables, interp, steps)?;
    if is_within_codeword(code, tables, space, &u, steps) {
        Some(u)
    } else {
        None
    }
}
