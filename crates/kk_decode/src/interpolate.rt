//! The rows of a space as points of an interpolation.
ghost use Rattle.std.specs.Prelude.{◌≡◌, ◌+◌, ◌*◌, ◌^◌, ◌<◌, ◌≤◌, ◌++◌, length, map, All};
ghost use Rattle.kk_rows.specs.Rows.{numbers};
ghost use Rattle.kk_code.specs.Codeword.{width};
ghost use Rattle.kk_decode.specs.Solving.{point_of};

use kk_code::Code;
use kk_field::Steps;
use kk_interp::Interp;
use kk_rows::Row;
use kk_tables::FieldTables;
use std::sync::ledger::Ledger;

/// Gives the rows too, each as the point of its x-part and its y-part.
pub(crate) fn give<L: Ledger>(
    code: &Code,
    tables: &FieldTables,
    rows: &[Row],
    interp: &mut Interp,
    steps: &mut Steps<L>,
)
    requires tables { tables.now ≡ code.now.field }
    requires field { interp.old.modulus ≡ code.now.field }
    requires below { All (λ r. r < 2 ^ width code.now) (numbers rows.now) }
    requires room { length interp.old.points + length rows.now + interp.old.k ≤ 128 }
    ensures field { interp.new.modulus ≡ interp.old.modulus }
    ensures k { interp.new.k ≡ interp.old.k }
    ensures points { interp.new.points ≡ interp.old.points ++ map (point_of code.now.field) (numbers rows.now) }
    ensures cost { steps.new ≤ steps.old + length rows.now * (32 * (interp.old.k + length interp.old.points + length rows.now)) }
{
    for row in rows {
        let (x, y) = code.parts(*row);
        interp.point(tables, x, y, steps);
    }
}
