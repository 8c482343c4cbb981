//! Rows in reduced row echelon form, in a slice.
ghost use Rattle.std.specs.Prelude.{◌≡◌, ℕ, ◌+◌, ◌^◌, ◌<◌, ◌≤◌, [], ◌∷◌, ◌++◌, length, take, drop, map, fold, All};
ghost use Rattle.kk_rows.specs.Span.{in_span};
ghost use Rattle.kk_rows.specs.Echelon.{IsClear, IsReduced, HasLeads, cleared};
ghost use Rattle.kk_rows.specs.Rows.{numbers};

use super::Row;
use super::word::Word;

/// What the rows leave of `v`, each used where it makes the number less.
pub(crate) fn remainder<W: Word>(rows: &[Row], v: Row) -> Row
    requires rows_fit { All (λ row. row < 2 ^ W.bits) (numbers rows.now) }
    requires v_fits { v.0 < 2 ^ W.bits }
    ensures { result.0 ≡ fold cleared v.0 (numbers rows.now) }
{
    let mut remainder = W::of(v);
    for row in rows {
        remainder = remainder.cleared_by(W::of(*row));
    }
    remainder.row()
}

/// Moves the rows above `v`, which begin at the second place, to the place before theirs, and makes `v`'s leading bit 0 in
/// each. The rows below it have a 0 there, and stay. It answers the place that is left between them.
fn move_above<W: Word>(rows: &mut [Row], v: Row) -> usize
    requires room { 0 < length rows.old }
    requires rows_fit { All (λ row. row < 2 ^ W.bits) (numbers (drop 1 rows.old)) }
    requires v_fits { v.0 < 2 ^ W.bits }
    requires reduced { IsReduced (numbers (drop 1 rows.old)) }
    ensures within { result < length rows.old }
    ensures front { numbers (take result rows.new) ≡ map (λ row. cleared row v.0) (take result (numbers (drop 1 rows.old))) }
    ensures back { drop (result + 1) rows.new ≡ drop (result + 1) rows.old }
    ensures above { All (λ row. v.0 ≤ row) (take result (numbers (drop 1 rows.old))) }
    ensures below { All (λ row. row ≤ v.0) (drop result (numbers (drop 1 rows.old))) }
{
    let lead = W::of(v);
    let last = rows.len() - 1;
    for place in 0..last {
        let row = W::of(rows[place + 1]);
        if row.is_below(lead) {
            return place;
        }
        rows[place] = row.cleared_by(lead).row();
    }
    last
}

/// Adds `v` to reduced rows that leave it as it is. They begin at the second place, and the first holds nothing yet.
pub(crate) fn insert_row<W: Word>(rows: &mut [Row], v: Row)
    requires room { 0 < length rows.old }
    requires rows_fit { All (λ row. row < 2 ^ W.bits) (numbers (drop 1 rows.old)) }
    requires v_fits { v.0 < 2 ^ W.bits }
    requires reduced { IsReduced (numbers (drop 1 rows.old)) }
    requires clear { IsClear (numbers (drop 1 rows.old)) v.0 }
    requires some { 0 < v.0 }
    ensures reduced { IsReduced (numbers rows.new) }
    ensures below { (n : ℕ) → All (λ row. row < 2 ^ n) (numbers (drop 1 rows.old)) → v.0 < 2 ^ n
        → All (λ row. row < 2 ^ n) (numbers rows.new) }
    ensures leads { (leads : ℕ) → HasLeads leads (numbers (drop 1 rows.old)) → HasLeads leads (v.0 ∷ [])
        → HasLeads leads (numbers rows.new) }
    ensures span { (x : ℕ) → in_span (numbers rows.new) x
        ≡ in_span (numbers (drop 1 rows.old) ++ v.0 ∷ []) x }
{
    let place = move_above::<W>(rows, v);
    rows[place] = v;
}
