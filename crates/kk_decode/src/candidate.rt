//! The only message that can decode a space.
ghost use Rattle.std.specs.Prelude.{◌≡◌, ℕ, ◌+◌, ◌*◌, ◌≤◌, List, Some, IfSome, length, map};
ghost use Rattle.kk_rows.specs.Span.{dimension};
ghost use Rattle.kk_code.specs.Codeword.{IsMessage};
ghost use Rattle.kk_code.specs.Decoding.{Decodes};
ghost use Rattle.kk_decode.specs.Solving.{point_of};

use crate::divide::{message_of, quotient};
use kk_code::{Code, Message};
use kk_field::Steps;
use kk_interp::Interp;
use kk_tables::FieldTables;
use std::sync::ledger::Ledger;

/// The message that decodes the span of the rows whose points were given, where there is one and the rows are independent;
/// else any message, or none.
pub(crate) fn candidate<L: Ledger>(
    code: &Code,
    tables: &FieldTables,
    interp: &Interp,
    steps: &mut Steps<L>,
) -> Option<Message>
    requires tables { tables.now ≡ code.now.field }
    requires field { interp.now.modulus ≡ code.now.field }
    requires k { interp.now.k ≡ code.now.k }
    requires few { length interp.now.points + code.now.k ≤ 128 }
    ensures message { IfSome result (IsMessage code.now) }
    ensures only { (rows u : List ℕ) → interp.now.points ≡ map (point_of code.now.field) rows → length rows ≤ dimension rows
        → Decodes code.now rows u → result ≡ Some u }
    ensures cost { steps.new ≤ steps.old + (2 * code.now.field.degree + code.now.k * (length interp.now.points + 3)) }
{
    let g = quotient(tables, &interp.least(), code.k(), steps)?;
    message_of(code, &g)
}
