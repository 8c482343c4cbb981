//! Values, interpolations, encodings and decodings, with the code over GF(2^31) of 24 points and 16 symbols.
ghost use Rattle.std.specs.Prelude.{◌≡◌, ◌+◌, ◌≤◌};
ghost use Rattle.kk_code.specs.Codeword.{Parameters, width};

use crate::draws::{Draws, mixed, mixed_all};
use crate::spaces::{RECEPTIONS, Rows, spanned, word_of};
use kk_code::{Code, Encoder, Message, encode_with};
use kk_decode::{Scratch, decode_space};
use kk_field::Steps;
use kk_interp::Interp;
use kk_linpoly::LinPoly;
use kk_rows::Row;
use kk_tables::FieldTables;
use std::alloc::Global;
use std::sync::ledger::Ledger;

/// Values of a polynomial of 16 coefficients at drawn points.
pub(crate) fn values<L: Ledger>(field: &FieldTables, rounds: u64, steps: &mut Steps<L>) -> u64
    requires { field.now.degree ≡ 31 }
{
    let mut draws = Draws::new();
    let f = LinPoly::from_slice(&draws.symbols());
    let mut sum = 0;
    for _ in 0..rounds {
        sum = mixed(sum, f.eval(field, draws.bits(31), steps));
    }
    sum
}

/// The coefficients of a polynomial of least weight through 24 drawn points.
fn interpolation<L: Ledger>(field: &FieldTables, draws: &mut Draws, steps: &mut Steps<L>) -> u64
    requires { field.now.degree ≡ 31 }
{
    let mut interp = Interp::new(field.field(), 16);
    for _ in 0..24u32 {
        let x = draws.bits(31);
        interp.point(field, x, draws.bits(31), steps);
    }
    let least = interp.least();
    mixed_all(mixed_all(0, least.qx.coeffs()), least.qy.coeffs())
}

/// Polynomials of least weight through 24 drawn points each, for messages of 16 symbols.
pub(crate) fn interpolations<L: Ledger>(
    field: &FieldTables,
    rounds: u64,
    steps: &mut Steps<L>,
) -> u64
    requires { field.now.degree ≡ 31 }
{
    let mut draws = Draws::new();
    let mut sum = 0;
    for _ in 0..rounds {
        sum = mixed(sum, interpolation(field, &mut draws, steps));
    }
    sum
}

/// The sum of the rows.
fn seen(rows: &[Row]) -> u64 {
    let mut sum = 0;
    for row in rows {
        sum ^= word_of(*row);
    }
    sum
}

/// Codewords of drawn messages, by tables.
pub(crate) fn encodings(alloc: Global, code: &Code, rounds: u64) -> Option<u64>
    requires k { code.now.k ≡ 16 }
    requires m { code.now.field.degree ≡ 31 }
{
    let encoder = Encoder::new(alloc, code).ok()?;
    let mut draws = Draws::new();
    let mut sum = 0;
    for _ in 0..rounds {
        let u = Message::from_slice(&draws.symbols());
        sum = mixed(sum, seen(encoder.encode(&u).as_slice()));
    }
    Some(sum)
}

/// The same by products in the field.
pub(crate) fn encodings_by_products<L: Ledger>(
    code: &Code,
    rounds: u64,
    steps: &mut Steps<L>,
) -> u64
    requires k { code.now.k ≡ 16 }
    requires m { code.now.field.degree ≡ 31 }
{
    let tables = FieldTables::new(code.field());
    let mut draws = Draws::new();
    let mut sum = 0;
    for _ in 0..rounds {
        let u = Message::from_slice(&draws.symbols());
        sum = mixed(sum, seen(encode_with(&tables, code, &u, steps).as_slice()));
    }
    sum
}

/// The codeword of a drawn message.
fn sent(encoder: &Encoder, draws: &mut Draws) -> Rows
    requires k { encoder.now.k ≡ 16 }
    requires m { encoder.now.field.degree ≡ 31 }
{
    let codeword = encoder.encode(&Message::from_slice(&draws.symbols()));
    let mut rows = [0; 24];
    for (word, row) in rows.iter_mut().zip(codeword.as_slice()) {
        *word = word_of(*row) << 9;
    }
    rows
}

/// The sum of the rows that are chosen by the bits of a number.
fn combination(rows: &Rows, chosen: u64) -> u64 {
    let mut sum = 0;
    for (i, row) in rows.iter().enumerate() {
        if (chosen >> i) % 2 == 1 {
            sum ^= *row;
        }
    }
    sum
}

/// So many independent combinations of the rows, and drawn rows after them.
fn recoded(rows: &Rows, combinations: usize, draws: &mut Draws) -> Rows {
    let mut received = [0; 24];
    for i in 0..24 {
        let others = (draws.bits(24) >> i) << i;
        received[i] = if i < combinations {
            combination(rows, others | (1 << i))
        } else {
            draws.bits(55) << 9
        };
    }
    received
}

/// What comes of several codewords: so many dimensions of each, and as many injected ones as make 24.
pub(crate) fn receptions(
    alloc: Global,
    code: &Code,
    combinations: usize,
) -> Option<[Rows; RECEPTIONS]>
    requires k { code.now.k ≡ 16 }
    requires m { code.now.field.degree ≡ 31 }
{
    let encoder = Encoder::new(alloc, code).ok()?;
    let mut draws = Draws::new();
    let mut receptions = [[0; 24]; RECEPTIONS];
    for reception in receptions.iter_mut() {
        *reception = recoded(&sent(&encoder, &mut draws), combinations, &mut draws);
    }
    Some(receptions)
}

/// The messages of the receptions in turn.
pub(crate) fn decodings<L: Ledger>(
    code: &Code,
    receptions: &[Rows; RECEPTIONS],
    rounds: u64,
    steps: &mut Steps<L>,
) -> u64
    requires { width code.now ≡ 55 }
{
    let mut scratch = Scratch::new();
    let mut sum = 0;
    for round in 0..rounds {
        let space = spanned(&receptions[(round % 8) as usize]);
        if let Some(u) = decode_space(code, &space, &mut scratch, steps) {
            sum = mixed_all(sum, u.symbols());
        }
    }
    sum
}
