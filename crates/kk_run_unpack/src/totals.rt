//! How the inserts of a run were answered.
ghost use Rattle.std.specs.Prelude.{◌≡◌, ◌≤◌, sum_by};
ghost use Rattle.kk_rows.specs.Span.{dimension};
ghost use Rattle.kk_outcome.specs.Outcome.{unfrozen_totals};

use kk_rows::RowSpace;
use kk_workers::Totals;

/// The totals of so many inserts into these spaces, none of which was frozen before the last.
pub(crate) fn unfrozen(inserts: u64, spaces: &[RowSpace]) -> Totals
    requires { sum_by (λ space. dimension space.rows) spaces.now ≤ inserts }
    ensures { result ≡ unfrozen_totals inserts (sum_by (λ space. dimension space.rows) spaces.now) }
{
    let innovative = spaces.iter().map(|space| u64::from(space.rank())).sum();
    Totals {
        inserts,
        innovative,
        redundant: inserts - innovative,
        late: 0,
    }
}
