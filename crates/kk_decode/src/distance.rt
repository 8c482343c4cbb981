//! The distance test.
ghost use Rattle.std.specs.Prelude.{◌≡◌, ◌+◌, ◌-◌, ◌*◌, ◌≤◌, ◌↔◌, IsTrue};
ghost use Rattle.kk_rows.specs.Distance.{distance};
ghost use Rattle.kk_code.specs.Codeword.{IsMessage, codeword, width};

use crate::loss::loss_of;
use kk_code::{Code, Message};
use kk_field::Steps;
use kk_rows::RowSpace;
use kk_tables::FieldTables;
use std::sync::ledger::Ledger;

/// Whether the codeword of the message lies within distance l - k of the space. The distance is erased plus injected.
pub(crate) fn is_within_radius<L: Ledger>(
    code: &Code,
    tables: &FieldTables,
    space: &RowSpace,
    u: &Message,
    steps: &mut Steps<L>,
) -> bool
    requires tables { tables.now ≡ code.now.field }
    requires width { space.now.width ≡ width code.now }
    requires message { IsMessage code.now u.now }
    ensures within { IsTrue result ↔ (distance (codeword code.now u.now) space.now.rows ≤ code.now.l - code.now.k) }
    ensures cost { steps.new ≤ steps.old + code.now.l * (2 * code.now.k) }
{
    let loss = loss_of(code, tables, space, u, steps);
    loss.erased + loss.injected <= code.l() - code.k()
}
