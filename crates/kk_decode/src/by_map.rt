//! A space with one row at each evaluation point.
ghost use Rattle.std.specs.Prelude.{◌≡◌, ◌<◌, IfSome, All};
ghost use Rattle.kk_code.specs.Codeword.{IsMessage, width};
ghost use Rattle.kk_decode.specs.FixedMap.{AreValues};
ghost use Rattle.kk_decode.specs.Solving.{IsOnGraph};

use crate::fixed_map::FixedMap;
use kk_code::{Code, MAX_POINTS, Message};
use kk_rows::RowSpace;
use kk_tables::FieldTables;

/// The y-parts of the rows, by evaluation point, where the space has one row at each of these and no other.
fn values_of(code: &Code, space: &RowSpace) -> Option<[u64; MAX_POINTS]>
    requires { space.now.width ≡ width code.now }
    ensures { IfSome result (AreValues code.now space.now.rows) }
{
    let rows = space.rows();
    let l = code.l() as usize;
    if rows.len() != l {
        return None;
    }
    let mut values = [0; MAX_POINTS];
    for (t, row) in rows.iter().enumerate() {
        let (x, y) = code.parts(*row);
        let i = l - 1 - t;
        if x != 1 << i {
            return None;
        }
        values[i] = y;
    }
    Some(values)
}

/// The message of whose codeword the rows are, where there is one at each evaluation point: by the fixed map, without a
/// product of the field that the map doesn't have. Where the rows are none of a codeword, or not one a point, there is none.
pub(crate) fn decode_by_map(
    code: &Code,
    field: &FieldTables,
    map: &FixedMap,
    space: &RowSpace,
) -> Option<Message>
    requires field { field.now ≡ code.now.field }
    requires width { space.now.width ≡ width code.now }
    ensures message { IfSome result (IsMessage code.now) }
    ensures rows { IfSome result (λ u. All (IsOnGraph code.now u) space.now.rows) }
{
    let values = values_of(code, space)?;
    map.message(code, field, &values)
}
