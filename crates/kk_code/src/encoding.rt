//! The codeword of a message, by the values of its polynomial.
ghost use Rattle.std.specs.Prelude.{◌≡◌, ◌+◌, ◌*◌, ◌^◌, ◌<◌, ◌≤◌, All, length};
ghost use Rattle.kk_code.specs.Codeword.{IsMessage, codeword, width};

use crate::{Code, CodeRows, Message};
use kk_field::Steps;
use kk_linpoly::LinPoly;
use kk_tables::FieldTables;
use std::sync::ledger::Ledger;

/// The codeword of a message: for each evaluation point `a` of the code the row `(a, f(a))`, where `f` is the
/// linearised polynomial with the symbols of the message as coefficients.
///
/// It makes the tables of the field first. [`encode_with`] takes those of a caller that encodes many messages.
pub fn encode<L: Ledger>(code: &Code, u: &Message, steps: &mut Steps<L>) -> CodeRows
    requires { IsMessage code.now u.now }
    ensures rows { result ≡ codeword code.now u.now }
    ensures count { length result ≡ code.now.l }
    ensures below { All (λ r. r < 2 ^ width code.now) result }
    ensures cost { steps.new ≤ steps.old + 2 * code.now.field.degree * code.now.k }
{
    encode_with(&FieldTables::new(code.field()), code, u, steps)
}

/// The codeword of a message, as [`encode`] gives it, by the tables of the code's field.
pub fn encode_with<L: Ledger>(
    tables: &FieldTables,
    code: &Code,
    u: &Message,
    steps: &mut Steps<L>,
) -> CodeRows
    requires field { tables.now ≡ code.now.field }
    requires message { IsMessage code.now u.now }
    ensures rows { result ≡ codeword code.now u.now }
    ensures count { length result ≡ code.now.l }
    ensures below { All (λ r. r < 2 ^ width code.now) result }
    ensures cost { steps.new ≤ steps.old + 2 * code.now.field.degree * code.now.k }
{
    let f = LinPoly::from_slice(u.symbols());
    let mut rows = CodeRows::new();
    for i in 0..code.l() {
        let x = 1 << i;
        let y = f.eval(tables, x, steps);
        rows.push(code.row(x, y));
    }
    rows
}
