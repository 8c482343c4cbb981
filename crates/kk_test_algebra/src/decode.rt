//! Worked spaces over small fields, with what a channel did to the codeword that was sent.
ghost use Rattle.std.specs.Prelude.{◌≡◌, ◌+◌, ◌^◌, ◌<◌, ◌≤◌, IsTrue, IfSome, All};
ghost use Rattle.kk_rows.specs.Rows.{numbers};
ghost use Rattle.kk_code.specs.Codeword.{IsMessage, width};
ghost use Rattle.kk_code.specs.Decoding.{answer};

use kk_code::{Code, Message, Ticket, check_modulus};
use kk_decode::{Loss, Scratch, channel_loss, decode, decode_space};
use kk_field::Steps;
use kk_rows::{Alloc, Row, RowSpace};
use std::alloc::Global;
use std::marker::Brand;
use std::sync::ledger::{Blank, Ledger};
use std::test::Fail;

/// What two received spaces decode to under one code.
fn decoded<L: Ledger>(
    code: &Code,
    first: &RowSpace,
    second: &RowSpace,
    steps: &mut Steps<L>,
) -> (Option<Message>, Option<Message>)
    requires first_width { first.now.width ≡ width code.now }
    requires second_width { second.now.width ≡ width code.now }
    ensures first { result.0 ≡ answer code.now first.now.rows }
    ensures second { result.1 ≡ answer code.now second.now.rows }
{
    let mut scratch = Scratch::new();
    let one = decode_space(code, first, &mut scratch, steps);
    let other = decode_space(code, second, &mut scratch, steps);
    (one, other)
}

// Whether each row has at most l + m bits.
fn are_rows_of(code: &Code, rows: &[Row]) -> bool
    ensures { IsTrue result → All (λ r. r < 2 ^ width code.now) (numbers rows.now) }
{
    let top = code.width() - 1;
    for row in rows {
        if row.0 >> top > 1 {
            return false;
        }
    }
    true
}

// The message with these symbols, where they are one of the code.
pub(crate) fn message(code: &Code, symbols: &[u64]) -> Option<Message>
    ensures { IfSome result (IsMessage code.now) }
{
    let top = code.m() - 1;
    for symbol in symbols {
        if *symbol >> top > 1 {
            return None;
        }
    }
    if symbols.len() != code.k() as usize {
        return None;
    }
    Some(Message::from_slice(symbols))
}

// Whether the rows decode to the message with these symbols, or to none where there are no symbols.
pub(crate) fn decodes_to<L: Ledger>(
    code: &Code,
    rows: &[Row],
    symbols: &[u64],
    scratch: &mut Scratch,
    blank: Blank,
) -> bool
    requires name { blank.name ≡ L.name }
    requires parts { blank.parts ≡ L.parts }
    requires some { 0 < blank.parts }
{
    if !are_rows_of(code, rows) {
        return false;
    }
    let mut steps: Steps<L> = Steps::new(blank);
    match decode(code, rows, scratch, &mut steps) {
        Some(u) => u.symbols() == symbols,
        None => symbols.is_empty(),
    }
}

fn loss_of<L: Ledger>(code: &Code, symbols: &[u64], rows: &[Row], blank: Blank) -> Option<Loss>
    requires name { blank.name ≡ L.name }
    requires parts { blank.parts ≡ L.parts }
    requires some { 0 < blank.parts }
{
    let u = message(code, symbols)?;
    if !are_rows_of(code, rows) {
        return None;
    }
    let mut steps: Steps<L> = Steps::new(blank);
    Some(channel_loss(code, &u, rows, &mut steps))
}

// Without loss, with losses, on the radius and one beyond it, few rows, an x-part of 0, no rows, all rows, radius 0: the
// rows, the symbols that they decode to, those that were sent, and the erased and injected dimensions.
#[test]
fn worked_spaces_are_decoded(rt: HostRuntime) -> Result<(), Fail> {
    let small = Ticket::read("kk1:00000001:3:0000000000000003:3:1:1")?.code();
    let long = Ticket::read("kk1:00000001:4:0000000000000003:4:2:1")?.code();
    let tight = Ticket::read("kk1:00000001:3:0000000000000003:2:2:1")?.code();
    let mut scratch = Scratch::new();
    for (code, rows, symbols, sent, erased, injected) in [
        (
            &small,
            [Row(34), Row(17), Row(13), Row(13)].as_slice(),
            [5].as_slice(),
            [5].as_slice(),
            0,
            0,
        ),
        (
            &small,
            [Row(13), Row(17), Row(34)].as_slice(),
            [5].as_slice(),
            [5].as_slice(),
            0,
            0,
        ),
        (
            &small,
            [Row(9), Row(18), Row(8)].as_slice(),
            [1].as_slice(),
            [1].as_slice(),
            1,
            1,
        ),
        (
            &small,
            [Row(9), Row(8), Row(4)].as_slice(),
            [].as_slice(),
            [1].as_slice(),
            2,
            2,
        ),
        (
            &small,
            [Row(8)].as_slice(),
            [0].as_slice(),
            [0].as_slice(),
            2,
            0,
        ),
        (
            &small,
            [Row(1)].as_slice(),
            [].as_slice(),
            [0].as_slice(),
            3,
            1,
        ),
        (&small, [].as_slice(), [].as_slice(), [0].as_slice(), 3, 0),
        (
            &long,
            [Row(16), Row(38), Row(71), Row(1)].as_slice(),
            [1, 1].as_slice(),
            [1, 1].as_slice(),
            1,
            1,
        ),
        (
            &tight,
            [Row(8), Row(22)].as_slice(),
            [1, 1].as_slice(),
            [1, 1].as_slice(),
            0,
            0,
        ),
        (
            &tight,
            [Row(8)].as_slice(),
            [].as_slice(),
            [1, 1].as_slice(),
            1,
            0,
        ),
        (
            &small,
            [Row(1), Row(2), Row(4), Row(8), Row(16), Row(32)].as_slice(),
            [].as_slice(),
            [1].as_slice(),
            0,
            3,
        ),
        (
            &small,
            [Row(9), Row(18), Row(36), Row(1), Row(2)].as_slice(),
            [1].as_slice(),
            [1].as_slice(),
            0,
            2,
        ),
    ] {
        assert!(rt; decodes_to::<Brand>(code, rows, symbols, &mut scratch, Blank::new(1)));
        assert_eq!(rt;
            loss_of::<Brand>(code, sent, rows, Blank::new(1)),
            Some(Loss { erased, injected })
        );
    }
    Ok(())
}

// The code over GF(2^64) of 64 points and one symbol.
fn widest() -> Option<Code> {
    Code::new(check_modulus(64, 0x1b).ok()?, 64, 1).ok()
}

// The rows x = y = 2^i for i below 32, and x = 0, y = 2^j for j below `foreign`.
fn half_foreign(alloc: Global, foreign: u32) -> Result<Vec<Row>, Alloc>
    requires { foreign ≤ 32 }
{
    let mut rows = Vec::with_capacity(alloc, 64)?;
    for i in 0..32u32 {
        rows.push(Row((1 << (64 + i)) | (1 << i)))?;
    }
    for j in 0..foreign {
        rows.push(Row(1 << j))?;
    }
    Ok(rows)
}

// What the rows decode to under the widest code.
fn widest_answer<L: Ledger>(rows: &[Row], blank: Blank) -> Option<Message>
    requires name { blank.name ≡ L.name }
    requires parts { blank.parts ≡ L.parts }
    requires some { 0 < blank.parts }
{
    let code = widest()?;
    if !are_rows_of(&code, rows) {
        return None;
    }
    let mut steps: Steps<L> = Steps::new(blank);
    decode(&code, rows, &mut Scratch::new(), &mut steps)
}

#[test]
fn the_widest_code_decodes_on_its_radius_alone(rt: HostRuntime) -> Result<(), Fail> {
    let on_radius = half_foreign(rt.alloc(), 31)?;
    let far = half_foreign(rt.alloc(), 32)?;
    let u = widest_answer::<Brand>(&on_radius, Blank::new(1)).ok_or("no answer")?;
    assert_eq!(rt; u.symbols(), [1].as_slice());
    assert!(rt; widest_answer::<Brand>(&far, Blank::new(1)).is_none());
    Ok(())
}

// What the rows decode to. Rows of 8 bits take at most 64·8^3 steps, and rows of 6 bits at most 64·6^3.
fn decoded_in_few_steps<L: Ledger>(
    code: &Code,
    rows: &[Row],
    scratch: &mut Scratch,
    steps: &mut Steps<L>,
) -> Option<Message>
    requires below { All (λ r. r < 2 ^ width code.now) (numbers rows.now) }
    ensures answer { result ≡ answer code.now (numbers rows.now) }
    ensures eight_bits { width code.now ≡ 8 → steps.new ≤ steps.old + 32768 }
    ensures six_bits { width code.now ≡ 6 → steps.new ≤ steps.old + 13824 }
{
    decode(code, rows, scratch, steps)
}

// Whether the code has rows of so many bits, and the rows decode to the message with these symbols.
fn decodes_at_width<L: Ledger>(
    code: &Code,
    rows: &[Row],
    width: u32,
    symbols: &[u64],
    blank: Blank,
) -> bool
    requires name { blank.name ≡ L.name }
    requires parts { blank.parts ≡ L.parts }
    requires some { 0 < blank.parts }
{
    if code.width() != width || !are_rows_of(code, rows) {
        return false;
    }
    let mut steps: Steps<L> = Steps::new(blank);
    match decoded_in_few_steps(code, rows, &mut Scratch::new(), &mut steps) {
        Some(u) => u.symbols() == symbols,
        None => false,
    }
}

#[test]
fn spaces_on_the_radius_take_few_steps(rt: HostRuntime) -> Result<(), Fail> {
    let small = Ticket::read("kk1:00000001:3:0000000000000003:3:1:1")?.code();
    let long = Ticket::read("kk1:00000001:4:0000000000000003:4:2:1")?.code();
    let of_six = [Row(9), Row(18), Row(8)];
    let of_eight = [Row(16), Row(38), Row(71), Row(1)];
    assert!(rt; decodes_at_width::<Brand>(&small, &of_six, 6, &[1], Blank::new(1)));
    assert!(rt; decodes_at_width::<Brand>(&long, &of_eight, 8, &[1, 1], Blank::new(1)));
    Ok(())
}
