//! The spaces of rows and codewords.
ghost use Rattle.std.specs.Prelude.{◌≡◌, ℕ, ◌^◌, ◌<◌, All};
ghost use Rattle.kk_rows.specs.Span.{in_span};
ghost use Rattle.kk_rows.specs.Rows.{numbers};
ghost use Rattle.kk_code.specs.Codeword.{IsInRange, width};

use kk_code::Code;
use kk_rows::{Row, RowSpace};

/// The space that the rows span.
pub(crate) fn spanned(code: &Code, rows: &[Row]) -> RowSpace
    requires { All (λ r. r < 2 ^ width code.now) (numbers rows.now) }
    ensures width { result.width ≡ width code.now }
    ensures span { (x : ℕ) → in_span result.rows x ≡ in_span (numbers rows.now) x }
    ensures in_range { IsInRange code.now }
{
    let mut space = RowSpace::new(code.width());
    for row in rows {
        let _ = space.insert(*row);
    }
    space
}
