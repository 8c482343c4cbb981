//! What a channel did to a codeword.
ghost use Rattle.std.specs.Prelude.{◌≡◌, ◌+◌, ◌*◌, ◌^◌, ◌<◌, ◌≤◌, All};
ghost use Rattle.kk_rows.specs.Rows.{numbers};
ghost use Rattle.kk_code.specs.Codeword.{IsInRange, IsMessage, width};
ghost use Rattle.kk_code.specs.Decoding.{erased, injected};

use crate::injected::injected_by_offsets;
use crate::spaces::spanned;
use kk_code::{Code, Message};
use kk_field::Steps;
use kk_rows::{Row, RowSpace};
use kk_tables::FieldTables;
use std::sync::ledger::Ledger;

/// The loss of a received space against the codeword that was sent.
#[derive(Clone, Copy, Debug, PartialEq, Eq)]
pub struct Loss {
    /// How many dimensions of the codeword the space lacks.
    pub erased: u32,
    /// How many dimensions of the space are foreign to the codeword.
    pub injected: u32,
}

/// The dimensions that were erased from the codeword of `u` and injected into it on the way to the span of the rows.
pub fn channel_loss<L: Ledger>(code: &Code, u: &Message, rows: &[Row], steps: &mut Steps<L>) -> Loss
    requires message { IsMessage code.now u.now }
    requires below { All (λ r. r < 2 ^ width code.now) (numbers rows.now) }
    ensures erased { result.erased ≡ erased code.now (numbers rows.now) u.now }
    ensures injected { result.injected ≡ injected code.now (numbers rows.now) u.now }
    ensures cost { steps.new ≤ steps.old + 2 * code.now.field.degree * code.now.k }
{
    let received = spanned(code, rows);
    let tables = FieldTables::new(code.field());
    loss_of(code, &tables, &received, u, steps)
}

/// The same on the way to the space, with the tables of the code's field.
pub(crate) fn loss_of<L: Ledger>(
    code: &Code,
    tables: &FieldTables,
    space: &RowSpace,
    u: &Message,
    steps: &mut Steps<L>,
) -> Loss
    requires tables { tables.now ≡ code.now.field }
    requires width { space.now.width ≡ width code.now }
    requires message { IsMessage code.now u.now }
    ensures erased { result.erased ≡ erased code.now space.now.rows u.now }
    ensures injected { result.injected ≡ injected code.now space.now.rows u.now }
    ensures within { result.injected ≤ space.now.width }
    ensures in_range { IsInRange code.now }
    ensures cost { steps.new ≤ steps.old + code.now.l * (2 * code.now.k) }
{
    let injected = injected_by_offsets(code, tables, space, u, steps);
    Loss {
        erased: code.l() - (space.rank() - injected),
        injected,
    }
}
