//! The decoder.
ghost use Rattle.std.specs.Prelude.{◌≡◌, ℕ, ◌+◌, ◌*◌, ◌^◌, ◌<◌, ◌≤◌, List, All, IfSome, IfNone};
ghost use Rattle.kk_rows.specs.Rows.{numbers};
ghost use Rattle.kk_rows.specs.Span.{dimension};
ghost use Rattle.kk_code.specs.Codeword.{width};
ghost use Rattle.kk_code.specs.Decoding.{Decodes, answer};

use crate::Scratch;
use crate::by_map::decode_by_map;
use crate::candidate::candidate;
use crate::distance::is_within_radius;
use crate::interpolate::give;
use crate::spaces::spanned;
use crate::uninjected::decode_uninjected;
use kk_code::{Code, Message};
use kk_field::Steps;
use kk_interp::Interp;
use kk_rows::{Row, RowSpace};
use kk_tables::FieldTables;
use std::sync::ledger::Ledger;

/// The message whose codeword lies within distance l - k of the span of the rows, or `None` where there is none.
pub fn decode<L: Ledger>(
    code: &Code,
    rows: &[Row],
    scratch: &mut Scratch,
    steps: &mut Steps<L>,
) -> Option<Message>
    requires below { All (λ r. r < 2 ^ width code.now) (numbers rows.now) }
    ensures some { IfSome result (Decodes code.now (numbers rows.now)) }
    ensures none { IfNone result ((u : List ℕ) → Decodes code.now (numbers rows.now) u → ⊥) }
    ensures answer { result ≡ answer code.now (numbers rows.now) }
    ensures cost { steps.new ≤ steps.old + 64 * width code.now ^ 3 }
{
    decode_space(code, &spanned(code, rows), scratch, steps)
}

/// The message whose codeword lies within distance l - k of the space, or `None` where there is none.
///
/// A space decodes only where its rank is k to 2·l - k. Where it has one row at each evaluation point, the code's fixed map
/// takes k of the y-parts to the message, and that it has the others too is the only test. Else its rows are interpolated.
pub fn decode_space<L: Ledger>(
    code: &Code,
    space: &RowSpace,
    scratch: &mut Scratch,
    steps: &mut Steps<L>,
) -> Option<Message>
    requires width { space.now.width ≡ width code.now }
    ensures some { IfSome result (Decodes code.now space.now.rows) }
    ensures none { IfNone result ((u : List ℕ) → Decodes code.now space.now.rows u → ⊥) }
    ensures answer { result ≡ answer code.now space.now.rows }
    ensures cost { steps.new ≤ steps.old + 64 * width code.now ^ 3 }
{
    let k = code.k();
    let rank = space.rank();
    if rank < k || rank > 2 * code.l() - k {
        return None;
    }
    scratch.renew(code, steps);
    let tables = &scratch.tables;
    if let Some(u) = decode_by_map(code, tables, &scratch.map, space) {
        return Some(u);
    }
    interpolated(code, tables, space, steps)
}

/// [`decode_space`] for a space of k to 2·l - k dimensions, by interpolation.
///
/// The first k rows are tried first: where nothing was injected, they give the message, and that all rows are of its codeword
/// shows it. Else all rows are interpolated, and the message that they give is the only one that can decode the space; its
/// distance decides.
// It stands alone so that a space that needs no interpolation clears no room for one.
#[inline(never)]
fn interpolated<L: Ledger>(
    code: &Code,
    tables: &FieldTables,
    space: &RowSpace,
    steps: &mut Steps<L>,
) -> Option<Message>
    requires tables { tables.now ≡ code.now.field }
    requires width { space.now.width ≡ width code.now }
    requires enough { code.now.k ≤ dimension space.now.rows }
    requires few { dimension space.now.rows + code.now.k ≤ 2 * code.now.l }
    ensures some { IfSome result (Decodes code.now space.now.rows) }
    ensures none { IfNone result ((u : List ℕ) → Decodes code.now space.now.rows u → ⊥) }
    ensures answer { result ≡ answer code.now space.now.rows }
    ensures cost { steps.new ≤ steps.old + 74 * (width code.now * width code.now) }
{
    let k = code.k();
    let (first, others) = space.rows().split_at(k as usize);
    let mut interp = Interp::new(code.field(), k);
    give(code, tables, first, &mut interp, steps);
    if let Some(u) = decode_uninjected(code, tables, space, &interp, steps) {
        return Some(u);
    }
    give(code, tables, others, &mut interp, steps);
    let u = candidate(code, tables, &interp, steps)?;
    if is_within_radius(code, tables, space, &u, steps) {
        Some(u)
    } else {
        None
    }
}
