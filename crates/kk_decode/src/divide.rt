//! The message that a polynomial gives.
ghost use Rattle.std.specs.Prelude.{◌≡◌, ◌≢◌, ◌⊎◌, ℕ, ◌+◌, ◌-◌, ◌*◌, ◌≤◌, List, slice_index, [], ◌++◌, length, replicate, Some, IfSome};
ghost use Rattle.kk_field.specs.Laws.{IsFieldModulus};
ghost use Rattle.kk_linpoly.specs.LinPoly.{IsOver, trimmed};
ghost use Rattle.kk_interp.specs.BiPoly.{IsOfField};
ghost use Rattle.kk_code.specs.Codeword.{IsMessage};
ghost use Rattle.kk_code.specs.declared.code.TheConstants.{MAX_POINTS};
ghost use Rattle.kk_decode.specs.Solving.{Solves};

use kk_code::{Code, MAX_POINTS, Message};
use kk_field::Steps;
use kk_interp::BiPoly;
use kk_linpoly::LinPoly;
use kk_ore::exact_left;
use kk_tables::FieldTables;
use std::sync::ledger::Ledger;

/// The left quotient of the part in x by that in y, of at most k coefficients, or `None` where the latter has no term at y:
/// then the former has one at x, and there is no quotient without remainder.
pub(crate) fn quotient<L: Ledger>(
    field: &FieldTables,
    q: &BiPoly,
    k: u32,
    steps: &mut Steps<L>,
) -> Option<LinPoly>
    requires field { IsFieldModulus field.now }
    requires of_field { IsOfField field.now q.now.qx q.now.qy }
    requires starts { (slice_index q.now.qx 0 ≢ 0) ⊎ (slice_index q.now.qy 0 ≢ 0) }
    requires short { length q.now.qy + k ≤ 128 }
    ensures of_field { IfSome result (IsOver field.now.degree) }
    ensures only { (u : List ℕ) → IsOver field.now.degree u → length u ≤ k → Solves field.now q.now u → result ≡ Some (trimmed u) }
    ensures cost { steps.new ≤ steps.old + (2 * field.now.degree + k * (1 + 2 * length q.now.qy)) }
{
    if lowest(&q.qy) == 0 {
        return None;
    }
    Some(exact_left(field, &q.qx, &q.qy, k as usize, steps))
}

/// The coefficient of X.
fn lowest(p: &LinPoly) -> u64
    ensures { result ≡ slice_index p.now 0 }
{
    match p.coeffs() {
        [c, ..] => *c,
        [] => 0,
    }
}

/// The message with these coefficients, or `None` where there are more than k.
pub(crate) fn message_of(code: &Code, g: &LinPoly) -> Option<Message>
    requires { IsOver code.now.field.degree g.now }
    ensures message { IfSome result (IsMessage code.now) }
    ensures only { (u : List ℕ) → IsMessage code.now u → g.now ≡ trimmed u → result ≡ Some u }
{
    let k = code.k() as usize;
    let coefficients = g.coeffs();
    if coefficients.len() > k {
        return None;
    }
    Some(Message::from_slice(&padded(coefficients)[..k]))
}

/// The coefficients with zeros after them.
fn padded(coefficients: &[u64]) -> [u64; MAX_POINTS]
    requires { length coefficients.now ≤ MAX_POINTS }
    ensures { result ≡ coefficients.now ++ replicate (MAX_POINTS - length coefficients.now) 0 }
{
    let mut symbols = [0; MAX_POINTS];
    symbols[..coefficients.len()].copy_from_slice(coefficients);
    symbols
}
