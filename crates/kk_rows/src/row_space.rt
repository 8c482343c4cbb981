//! The span of the rows inserted so far: membership, rank, sum and meet.
ghost use Rattle.std.specs.Prelude.{◌≡◌, ℕ, ◌+◌, ◌^◌, ◌<◌, ◌≤◌, ◌↔◌, [], ◌∷◌, ◌++◌, ◌&&◌, false, bit_xor, IsTrue, IsSome, IfSome, IfNone, All};
ghost use Rattle.kk_rows.specs.Span.{in_span, dimension};
ghost use Rattle.kk_rows.specs.Distance.{sum_dimension, meet_dimension};
ghost use Rattle.kk_rows.specs.Echelon.{IsClear, IsReduced};
ghost use Rattle.kk_rows.specs.Rows.{numbers};
ghost use Rattle.kk_rows.specs.declared.row_space.TheConstants.{MAX_WIDTH};

use super::Row;
use super::echelon::{insert_row, remainder};
use super::traced::Traced;
use super::word::Word;
use std::marker::Model;

/// The width of the widest rows, and so the largest rank.
pub const MAX_WIDTH: u32 = 128;

/// The span of the rows inserted so far, in the space of the rows below 2^width.
///
/// It keeps the reduced row echelon form of the span, by Gauss-Jordan elimination, one row at a time. No row is searched for
/// its leading bit: that is 1 in `v` exactly where the sum of `v` and the row is less than `v`. So
/// [`RowSpace::reduce`] takes one exclusive or and one comparison a row, and [`RowSpace::insert`] as much again for each row
/// above the new one. The rows stand at the end of their array: those above move one place to the front as they are cleared,
/// and those below stay as they are. So rows of a codeword, each of which leads above the last, move none, and as each has a
/// leading bit that the others don't have, a look at all leading bits at once shows that nothing is to be cleared.
#[derive(Clone, Debug, Drop)]
pub struct RowSpace {
    width: u32,
    rank: u32,
    // 1 at the leading bit of each row
    leads: u128,
    rows: [Row; MAX_WIDTH as usize],
}

impl Model for RowSpace {
    ghost use Rattle.std.specs.Prelude.{◌-◌, drop};
    ghost use Rattle.kk_rows.specs.Rows.{numbers};
    ghost use Rattle.kk_rows.specs.Space.{Space, IsRowSpace};

    ghost Value = { Space };

    ghost view = { λ s. record { width = s.width; rows = numbers (drop (128 - s.rank) s.rows) } };

    ghost invariant = { λ s. IsRowSpace s.width s.rank s.leads (numbers (drop (128 - s.rank) s.rows)) };
}

impl RowSpace {
    /// The span of no row, 0 alone, in the space of the rows below 2^n, where n is from 1 to 128.
    pub fn new(n: u32) -> RowSpace
        requires some { 1 ≤ n }
        requires fits { n ≤ MAX_WIDTH }
        ensures width { result.width ≡ n }
        ensures rows { result.rows ≡ [] }
    {
        RowSpace {
            width: n,
            rank: 0,
            leads: 0,
            rows: [Row(0); MAX_WIDTH as usize],
        }
    }

    /// The n of [`RowSpace::new`]: each row of the space is below 2^n.
    pub fn width(&self) -> u32
        ensures width { result ≡ self.now.width }
        ensures some { 1 ≤ result }
        ensures fits { result ≤ MAX_WIDTH }
    {
        self.width
    }

    /// The dimension of the span.
    pub fn rank(&self) -> u32
        ensures dimension { result ≡ dimension self.now.rows }
        ensures within { result ≤ self.now.width }
    {
        self.rank
    }

    /// The reduced row echelon form of the span, from the highest leading bit down. A span has exactly one
    /// ([`crate::laws::reduced_form_is_unique`]).
    pub fn rows(&self) -> &[Row]
        ensures rows { numbers result.now ≡ self.now.rows }
        ensures reduced { IsReduced self.now.rows }
        ensures below { All (λ row. row < 2 ^ self.now.width) self.now.rows }
    {
        &self.rows[(MAX_WIDTH - self.rank) as usize..]
    }

    /// What the span leaves of `v`, which is below 2^width: `v` with each leading bit of [`RowSpace::rows`] made 0 by
    /// the addition of its row.
    pub fn reduce(&self, v: Row) -> Row
        requires { v.0 < 2 ^ self.now.width }
        ensures difference { IsTrue (in_span self.now.rows (bit_xor v.0 result.0)) }
        ensures clear { IsClear self.now.rows result.0 }
        ensures zero { result.0 ≡ 0 ↔ IsTrue (in_span self.now.rows v.0) }
        ensures below { result.0 < 2 ^ self.now.width }
    {
        if self.width <= u64::BITS {
            self.reduce_in::<u64>(v)
        } else {
            self.reduce_in::<u128>(v)
        }
    }

    /// [`RowSpace::reduce`] in words that hold the rows.
    fn reduce_in<W: Word>(&self, v: Row) -> Row
        requires word { self.now.width ≤ W.bits }
        requires v_fits { v.0 < 2 ^ self.now.width }
        ensures difference { IsTrue (in_span self.now.rows (bit_xor v.0 result.0)) }
        ensures clear { IsClear self.now.rows result.0 }
        ensures zero { result.0 ≡ 0 ↔ IsTrue (in_span self.now.rows v.0) }
        ensures below { result.0 < 2 ^ self.now.width }
    {
        if v.0 & self.leads == 0 {
            return v;
        }
        remainder::<W>(&self.rows[(MAX_WIDTH - self.rank) as usize..], v)
    }

    /// Whether `v`, which is below 2^width, is a sum of rows of the space.
    pub fn contains(&self, v: Row) -> bool
        requires { v.0 < 2 ^ self.now.width }
        ensures { result ≡ in_span self.now.rows v.0 }
    {
        self.reduce(v).0 == 0
    }

    /// Adds `v`, which is below 2^width, to the rows that span the space. `Some` of the new rank where `v` was outside
    /// the span. `None`, with nothing changed, where it was in it.
    pub fn insert(&mut self, v: Row) -> Option<u32>
        requires { v.0 < 2 ^ self.old.width }
        ensures outside { IsSome result ↔ (in_span self.old.rows v.0 ≡ false) }
        ensures rank { IfSome result (λ n. n ≡ dimension self.old.rows + 1) }
        ensures new_rank { IfSome result (λ n. n ≡ dimension self.new.rows) }
        ensures same { IfNone result (self.new ≡ self.old) }
        ensures span { (x : ℕ) → in_span self.new.rows x ≡ in_span (self.old.rows ++ v.0 ∷ []) x }
        ensures width { self.new.width ≡ self.old.width }
    {
        if self.width <= u64::BITS {
            self.insert_in::<u64>(v)
        } else {
            self.insert_in::<u128>(v)
        }
    }

    /// [`RowSpace::insert`] in words that hold the rows.
    fn insert_in<W: Word>(&mut self, v: Row) -> Option<u32>
        requires word { self.old.width ≤ W.bits }
        requires v_fits { v.0 < 2 ^ self.old.width }
        ensures outside { IsSome result ↔ (in_span self.old.rows v.0 ≡ false) }
        ensures rank { IfSome result (λ n. n ≡ dimension self.old.rows + 1) }
        ensures new_rank { IfSome result (λ n. n ≡ dimension self.new.rows) }
        ensures same { IfNone result (self.new ≡ self.old) }
        ensures span { (x : ℕ) → in_span self.new.rows x ≡ in_span (self.old.rows ++ v.0 ∷ []) x }
        ensures width { self.new.width ≡ self.old.width }
    {
        let remainder = self.reduce_in::<W>(v);
        if remainder.0 == 0 {
            return None;
        }
        let start = (MAX_WIDTH - self.rank) as usize;
        insert_row::<W>(&mut self.rows[start - 1..], remainder);
        self.leads |= W::of(remainder).leading_bit();
        self.rank += 1;
        Some(self.rank)
    }

    /// The space of the sums of a row of `a` and a row of `b`, which have the same width.
    pub fn sum(a: &RowSpace, b: &RowSpace) -> RowSpace
        requires { a.now.width ≡ b.now.width }
        ensures width { result.width ≡ a.now.width }
        ensures span { (x : ℕ) → in_span result.rows x ≡ in_span (a.now.rows ++ b.now.rows) x }
        ensures dimension { dimension result.rows ≡ sum_dimension a.now.rows b.now.rows }
    {
        let mut sum = RowSpace {
            width: a.width,
            rank: a.rank,
            leads: a.leads,
            rows: a.rows,
        };
        for row in b.rows() {
            let _ = sum.insert(*row);
        }
        sum
    }

    /// The dimension of the sum of `a` and `b`, which have the same width.
    pub fn sum_dim(a: &RowSpace, b: &RowSpace) -> u32
        requires { a.now.width ≡ b.now.width }
        ensures dimension { result ≡ sum_dimension a.now.rows b.now.rows }
        ensures within { result ≤ a.now.width }
    {
        RowSpace::sum(a, b).rank()
    }

    /// The space of the rows that `a` and `b`, which have the same width, have in common.
    ///
    /// It is the elimination of Zassenhaus's algorithm for the sum and the intersection of two spaces: each row of `a`
    /// is paired with what `b` leaves of it, and the pairs are eliminated by the second part. The first parts of those
    /// whose second part comes to 0 span the intersection.
    pub fn meet(a: &RowSpace, b: &RowSpace) -> RowSpace
        requires { a.now.width ≡ b.now.width }
        ensures width { result.width ≡ a.now.width }
        ensures span { (x : ℕ) → in_span result.rows x ≡ (in_span a.now.rows x && in_span b.now.rows x) }
        ensures dimension { dimension result.rows ≡ meet_dimension a.now.rows b.now.rows }
    {
        let mut common = RowSpace::new(b.width);
        let mut traces = [Traced::ZERO; MAX_WIDTH as usize];
        let mut len = 0;
        for row in a.rows() {
            let start = Traced {
                source: *row,
                image: b.reduce(*row),
            };
            let cleared = start.cleared_by_all(&traces[..len]);
            if cleared.image.0 == 0 {
                let _ = common.insert(cleared.source);
            } else {
                traces[len] = cleared;
                len += 1;
            }
        }
        common
    }
}
