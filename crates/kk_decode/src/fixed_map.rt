//! The fixed map of a code: from the values of a message's polynomial at k evaluation points to its symbols, and to its
//! values at the other points.
ghost use Rattle.std.specs.Prelude.{◌≡◌, ◌≢◌, ℕ, ◌+◌, ◌-◌, ◌*◌, ◌^◌, ◌<◌, ◌≤◌, ◌↔◌, [], true, Some, None, IfSome, IsTrue, slice_index, get_or, length};
ghost use Rattle.kk_field.specs.Field.{field_product};
ghost use Rattle.kk_linpoly.specs.LinPoly.{IsOver, value, xor_sum};
ghost use Rattle.kk_linpoly.specs.declared.matrix.TheConstants.{MAX_COLUMNS};
ghost use Rattle.kk_code.specs.Codeword.{IsMessage, width};
ghost use Rattle.kk_decode.specs.FixedMap.{IsFixedMap, column_value, element};
ghost use Rattle.kk_code.specs.declared.code.TheConstants.{MAX_POINTS};

use crate::powers::powers_of;
use crate::weights::weights;
use kk_code::{Code, MAX_POINTS, Message};
use kk_field::Steps;
use kk_linpoly::{MAX_COLUMNS, MatrixRow, transform};
use kk_tables::FieldTables;
use std::marker::Model;
use std::sync::ledger::Ledger;

/// The rows of the map of one code, or of none.
///
/// Its column c is the message whose polynomial is 1 at 2^c and 0 at the others of the first k evaluation points: its k
/// symbols, and its values at the other l - k points. So the sum of the columns, each times a value, has the values. The
/// columns are tested by evaluation when they are made, so no decoding has to trust how they were found.
#[derive(Drop)]
pub(crate) struct FixedMap {
    code: Option<Code>,
    tested: bool,
    rows: [MatrixRow; MAX_POINTS],
}

// Clauses see the parameters of the code, whether the columns passed their test, and the rows.
impl Model for FixedMap {
    ghost use Rattle.std.specs.Prelude.{◌≡◌, true, IfSome};
    ghost use Rattle.kk_decode.specs.FixedMap.{IsFixedMap, KeptMap};

    ghost Value = { KeptMap };

    ghost view = { λ map. record { code = map.code; tested = map.tested; rows = map.rows } };

    ghost invariant = { λ map. map.tested ≡ true → IfSome map.code (λ p. IsFixedMap p map.rows) };
}

impl FixedMap {
    /// The map of no code.
    pub(crate) fn none() -> FixedMap
        ensures { result.code ≡ None }
    {
        FixedMap {
            code: None,
            tested: false,
            rows: [MatrixRow::zero(); MAX_POINTS],
        }
    }

    /// Whether the map is of this code.
    fn is_of(&self, code: &Code) -> bool
        ensures { IsTrue result ↔ self.now.code ≡ Some code.now }
    {
        self.code == Some(*code)
    }

    /// Whether the map is of this code, and its columns passed their test.
    fn serves(&self, code: &Code) -> bool
        ensures { IsTrue result → (self.now.code ≡ Some code.now) × (self.now.tested ≡ true) }
    {
        self.is_of(code) && self.tested
    }

    /// Makes it the map of the code, in place, where it is that of another one. Where it is of the code already it stays as
    /// it is, and no step is taken.
    pub(crate) fn renew<L: Ledger>(
        &mut self,
        code: &Code,
        field: &FieldTables,
        steps: &mut Steps<L>,
    )
        requires { field.now ≡ code.now.field }
        ensures of_code { self.new.code ≡ Some code.now }
        ensures kept { self.old.code ≡ Some code.now → self.new ≡ self.old }
        ensures free { self.old.code ≡ Some code.now → steps.new ≡ steps.old }
        ensures cost { steps.new ≤ steps.old + (code.now.k + code.now.k * (4 * code.now.k + 2 * code.now.field.degree + 1)
            + code.now.l * (code.now.k * (code.now.k + 1))) }
    {
        if self.is_of(code) {
            return;
        }
        self.code = Some(*code);
        self.tested = fill(&mut self.rows, code, field, steps);
    }

    /// The message whose polynomial has these values at the evaluation points, where the map is of this code and there is
    /// such a message; else none.
    pub(crate) fn message(
        &self,
        code: &Code,
        field: &FieldTables,
        values: &[u64; MAX_POINTS],
    ) -> Option<Message>
        requires field { field.now ≡ code.now.field }
        requires below { IsOver code.now.field.degree values.now }
        ensures message { IfSome result (IsMessage code.now) }
        ensures values { IfSome result (λ u. (i : ℕ) → i < code.now.l → value code.now.field u (2 ^ i) ≡ slice_index values.now i) }
    {
        if !self.serves(code) {
            return None;
        }
        let (l, k) = (code.l() as usize, code.k() as usize);
        let mut image = [0; MAX_POINTS];
        transform(field, &self.rows[..l], &values[..k], &mut image);
        if !agree(&image, values, k, l) {
            return None;
        }
        Some(Message::from_slice(&image[..k]))
    }
}

/// Whether the map's values at the points from `from` on, below `to`, are those given.
fn agree(image: &[u64; MAX_POINTS], values: &[u64; MAX_POINTS], from: usize, to: usize) -> bool
    requires order { from ≤ to }
    requires within { to ≤ MAX_POINTS }
    ensures { IsTrue result → (i : ℕ) → from ≤ i → i < to → slice_index image.now i ≡ slice_index values.now i }
{
    for i in from..to {
        if image[i] != values[i] {
            return false;
        }
    }
    true
}

/// Makes the rows of the code's map. Whether its columns are as they should be is tested.
fn fill<L: Ledger>(
    rows: &mut [MatrixRow; MAX_POINTS],
    code: &Code,
    field: &FieldTables,
    steps: &mut Steps<L>,
) -> bool
    requires { field.now ≡ code.now.field }
    ensures fixed_map { IsTrue result → IsFixedMap code.now rows.new }
    ensures cost { steps.new ≤ steps.old + (code.now.k + code.now.k * (4 * code.now.k + 2 * code.now.field.degree + 1)
        + code.now.l * (code.now.k * (code.now.k + 1))) }
{
    let k = code.k() as usize;
    put_weights(rows, field, k, steps);
    if !are_units(rows, field, k, steps) {
        return false;
    }
    put_others(rows, field, k, code.l() as usize, steps);
    true
}

/// Writes the first k rows: the weights of the values in the symbols.
fn put_weights<L: Ledger>(
    rows: &mut [MatrixRow; MAX_POINTS],
    field: &FieldTables,
    k: usize,
    steps: &mut Steps<L>,
)
    requires { k ≤ MAX_POINTS }
    ensures count { length rows.new ≡ length rows.old }
    ensures of_field { (j : ℕ) → j < k → IsOver field.now.degree (get_or rows.new j []) }
    ensures cost { steps.new ≤ steps.old + (k + k * (4 * k + 2 * field.now.degree + 1)) }
{
    let weights = weights(field, k, steps);
    for j in 0..k {
        rows[j] = MatrixRow::of(&weights[j][..k]);
    }
}

/// Whether column c has the value 1 at 2^c and 0 at the others of the first k evaluation points, for each c below k.
fn are_units<L: Ledger>(
    rows: &[MatrixRow],
    field: &FieldTables,
    k: usize,
    steps: &mut Steps<L>,
) -> bool
    requires count { k ≤ length rows.now }
    requires columns { k ≤ MAX_COLUMNS }
    requires points { k ≤ field.now.degree }
    requires of_field { (j : ℕ) → j < k → IsOver field.now.degree (get_or rows.now j []) }
    ensures one { IsTrue result → (c : ℕ) → c < k → column_value field.now rows.now k c (2 ^ c) ≡ 1 }
    ensures zeros { IsTrue result → (c i : ℕ) → c < k → i < k → c ≢ i → column_value field.now rows.now k c (2 ^ i) ≡ 0 }
    ensures cost { steps.new ≤ steps.old + k * (k * (k + 1)) }
{
    for i in 0..k {
        let values = column_values(rows, field, k, 1 << i, steps);
        if !is_unit(&values, k, i) {
            return false;
        }
    }
    true
}

/// Whether of the first k values number `i` is 1 and the others are 0.
fn is_unit(values: &[u64; MAX_COLUMNS], k: usize, i: usize) -> bool
    requires columns { k ≤ MAX_COLUMNS }
    ensures one { IsTrue result → i < k → slice_index values.now i ≡ 1 }
    ensures zeros { IsTrue result → (c : ℕ) → c < k → c ≢ i → slice_index values.now c ≡ 0 }
{
    for c in 0..k {
        if values[c] != u64::from(c == i) {
            return false;
        }
    }
    true
}

/// Writes row i, for each evaluation point 2^i past the first k: the values of the columns there.
fn put_others<L: Ledger>(
    rows: &mut [MatrixRow; MAX_POINTS],
    field: &FieldTables,
    k: usize,
    l: usize,
    steps: &mut Steps<L>,
)
    requires order { k ≤ l }
    requires within { l ≤ MAX_POINTS }
    requires points { l ≤ field.now.degree }
    requires of_field { (j : ℕ) → j < k → IsOver field.now.degree (get_or rows.old j []) }
    ensures count { length rows.new ≡ length rows.old }
    ensures first { (j : ℕ) → j < k → get_or rows.new j [] ≡ get_or rows.old j [] }
    ensures of_field { (j : ℕ) → j < l → IsOver field.now.degree (get_or rows.new j []) }
    ensures others { (c i : ℕ) → c < k → k ≤ i → i < l → element rows.new i c ≡ column_value field.now rows.old k c (2 ^ i) }
    ensures cost { steps.new ≤ steps.old + (l - k) * (k * (k + 1)) }
{
    for i in k..l {
        let values = column_values(rows, field, k, 1 << i, steps);
        rows[i] = MatrixRow::of(&values[..k]);
    }
}

/// The values of the first k columns at `x`.
fn column_values<L: Ledger>(
    rows: &[MatrixRow],
    field: &FieldTables,
    k: usize,
    x: u64,
    steps: &mut Steps<L>,
) -> [u64; MAX_COLUMNS]
    requires count { k ≤ length rows.now }
    requires columns { k ≤ MAX_COLUMNS }
    requires of_field { (j : ℕ) → j < k → IsOver field.now.degree (get_or rows.now j []) }
    requires x_below { x < 2 ^ field.now.degree }
    ensures values { (c : ℕ) → c < k → slice_index result c ≡ column_value field.now rows.now k c x }
    ensures below { IsOver field.now.degree result }
    ensures cost { steps.new ≤ steps.old + k * (k + 1) }
{
    let powers = powers_of(field, x, k, steps);
    let mut values = [0; MAX_COLUMNS];
    for c in 0..k {
        values[c] = column_sum(rows, field, &powers[..k], c, steps);
    }
    values
}

/// The sum of the powers, each times element c of its row.
fn column_sum<L: Ledger>(
    rows: &[MatrixRow],
    field: &FieldTables,
    powers: &[u64],
    c: usize,
    steps: &mut Steps<L>,
) -> u64
    requires count { length powers.now ≤ length rows.now }
    requires column { c < MAX_COLUMNS }
    requires of_field { (j : ℕ) → j < length powers.now → IsOver field.now.degree (get_or rows.now j []) }
    requires powers_below { IsOver field.now.degree powers.now }
    ensures sum { result ≡ xor_sum (λ j. field_product field.now (element rows.now j c) (slice_index powers.now j)) (length powers.now) }
    ensures below { result < 2 ^ field.now.degree }
    ensures cost { steps.new ≤ steps.old + length powers.now }
{
    let mut sum = 0;
    for (j, power) in powers.iter().enumerate() {
        sum ^= field.mul(rows[j].elements()[c], *power, steps);
    }
    sum
}

#[cfg(test)]
mod tests {
    use super::*;
    use crate::by_map::decode_by_map;
    use kk_code::Ticket;
    use kk_rows::{Row, RowSpace};
    use std::marker::Brand;
    use std::sync::ledger::Blank;
    use std::test::Fail;

    /// The map of the code.
    fn map_of<L: Ledger>(code: &Code, field: &FieldTables, blank: Blank) -> FixedMap
        requires name { blank.name ≡ L.name }
        requires parts { blank.parts ≡ L.parts }
        requires some { 0 < blank.parts }
        requires field { field.now ≡ code.now.field }
    {
        let mut steps: Steps<L> = Steps::new(blank);
        let mut map = FixedMap::none();
        map.renew(code, field, &mut steps);
        map
    }

    // Each of their columns passes its test.
    #[test]
    fn codes_have_maps(rt: HostRuntime) -> Result<(), Fail> {
        for ticket in [
            "kk1:00000001:2:0000000000000003:1:1:1",
            "kk1:00000001:3:0000000000000003:3:3:1",
            "kk1:00000001:8:000000000000001b:8:4:1",
            "kk1:00000001:8:000000000000001b:8:8:1",
            "kk1:00000001:31:0000000000000009:24:16:1",
            "kk1:00000001:31:0000000000000009:31:31:1",
            "kk1:00000001:32:000000000000008d:31:31:1",
            "kk1:00000001:62:0000000020000001:1:1:1",
        ] {
            let code = Ticket::read(ticket)?.code();
            let field = FieldTables::new(code.field());
            let map = map_of::<Brand>(&code, &field, Blank::new(1));
            assert!(rt; map.serves(&code), "{ticket}");
        }
        Ok(())
    }

    /// What the map gives for the codeword of 5 over GF(8).
    fn mapped<L: Ledger>(code: &Code, blank: Blank) -> Option<Message>
        requires name { blank.name ≡ L.name }
        requires parts { blank.parts ≡ L.parts }
        requires some { 0 < blank.parts }
        requires width { width code.now ≡ 6 }
    {
        let field = FieldTables::new(code.field());
        let map = map_of::<L>(code, &field, blank);
        let mut space = RowSpace::new(6);
        let _ = space.insert(Row(13));
        let _ = space.insert(Row(17));
        let _ = space.insert(Row(34));
        decode_by_map(code, &field, &map, &space)
    }

    #[test]
    fn the_map_gives_back_five(rt: HostRuntime) -> Result<(), Fail> {
        let code = Ticket::read("kk1:00000001:3:0000000000000003:3:1:1")?.code();
        assert_eq!(rt; code.width(), 6);
        let u = mapped::<Brand>(&code, Blank::new(1)).ok_or("no message")?;
        assert_eq!(rt; u.symbols(), [5].as_slice());
        Ok(())
    }
}
