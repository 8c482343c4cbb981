//! The subspace distance.
ghost use Rattle.std.specs.Prelude.{◌≡◌, ◌^◌, ◌<◌};
ghost use Rattle.kk_rows.specs.Distance.{distance};

use kk_rows::RowSpace;

/// The subspace distance d(A, B) = dim(A + B) - dim(A ∩ B) of two spaces of the same width, by one elimination: dim(A ∩ B)
/// is dim A less the dimensions that A + B has beyond B.
pub fn distance(a: &RowSpace, b: &RowSpace) -> u32
    requires { a.now.width ≡ b.now.width }
    ensures { result ≡ distance a.now.rows b.now.rows }
{
    let sum = RowSpace::sum_dim(a, b);
    let meet = a.rank() - (sum - b.rank());
    sum - meet
}
