//! Does a piece of work by the calls of kk so many times, for `bench/ground.py`, which counts the instructions.
//!
//! `kk_yard WORK ROUNDS` prints a sum over the results. `bench/yardstick.c` does the same works, and prints the same sums.
#![tactic(auto)]

ghost use Rattle.std.specs.Prelude.{◌≡◌, ◌^◌, ◌<◌, ◌≤◌};

mod coding;
mod draws;
mod elements;
mod spaces;

use kk_code::{Code, check_modulus};
use kk_field::{Field, Steps};
use kk_tables::FieldTables;
use std::alloc::Global;
use std::env;
use std::marker::Brand;
use std::process::ExitCode;
use std::sync::ledger::{Blank, Ledger};

/// The tables of the field with the modulus X^m + low.
fn tables(m: u32, low: u64) -> Option<FieldTables>
    requires some { 1 ≤ m }
    requires fits { m ≤ 64 }
    requires below { low < 2 ^ m }
{
    Some(FieldTables::new(check_modulus(m, low).ok()?))
}

/// The work on elements, in each field that is measured.
fn in_fields<L: Ledger>(work: &[u8], rounds: u64, steps: &mut Steps<L>) -> Option<u64> {
    let (small, middle) = (tables(8, 0x1b)?, tables(31, 9)?);
    let (long, large) = (tables(40, 0x39)?, tables(62, (1 << 29) + 1)?);
    Some(match work {
        b"product8" => elements::products(&small, rounds, steps),
        b"product31" => elements::products(&middle, rounds, steps),
        b"product40" => elements::products(&long, rounds, steps),
        b"product62" => elements::products(&large, rounds, steps),
        b"square8" => elements::squares(&small, rounds, steps),
        b"square31" => elements::squares(&middle, rounds, steps),
        b"square40" => elements::squares(&long, rounds, steps),
        b"square62" => elements::squares(&large, rounds, steps),
        b"inverse8" => elements::inverses(&small, rounds, steps),
        b"inverse31" => elements::inverses(&middle, rounds, steps),
        b"inverse40" => elements::inverses(&long, rounds, steps),
        b"inverse62" => elements::inverses(&large, rounds, steps),
        _ => return None,
    })
}

/// The other works, with the code over GF(2^31) of 24 points and 16 symbols.
fn with_code<L: Ledger>(
    alloc: Global,
    work: &[u8],
    rounds: u64,
    steps: &mut Steps<L>,
) -> Option<u64> {
    let field: Field = check_modulus(31, 9).ok()?;
    let code = Code::new(field, 24, 16).ok()?;
    Some(match work {
        b"dense" => spaces::dense(rounds),
        b"sent" => spaces::sent(rounds),
        b"recoded" => spaces::recoded(&coding::receptions(alloc, &code, 24)?, rounds),
        b"values" => coding::values(&FieldTables::new(field), rounds, steps),
        b"interpolate" => coding::interpolations(&FieldTables::new(field), rounds, steps),
        b"encode" => coding::encodings(alloc, &code, rounds)?,
        b"products" => coding::encodings_by_products(&code, rounds, steps),
        b"decode" => coding::decodings(
            &code,
            &coding::receptions(alloc, &code, 24)?,
            rounds,
            steps,
        ),
        b"errors" => coding::decodings(
            &code,
            &coding::receptions(alloc, &code, 20)?,
            rounds,
            steps,
        ),
        _ => return None,
    })
}

/// The sum over the results of a work, with a step counter of its own, whose steps count for nobody.
fn counted<L: Ledger>(alloc: Global, work: &[u8], rounds: u64, blank: Blank) -> Option<u64>
    requires name { blank.name ≡ L.name }
    requires parts { blank.parts ≡ L.parts }
    requires some { 0 < blank.parts }
{
    let mut steps = Steps::<L>::new(blank);
    match in_fields(work, rounds, &mut steps) {
        Some(sum) => Some(sum),
        None => with_code(alloc, work, rounds, &mut steps),
    }
}

/// The sum over the results of a work, or `None` where there is no such work or no memory.
fn result_of(alloc: Global, work: &[u8], rounds: u64) -> Option<u64> {
    counted::<Brand>(alloc, work, rounds, Blank::new(1))
}

fn main(rt: HostRuntime) -> ExitCode {
    let Ok(mut words) = env::args(&rt) else {
        return ExitCode::FAILURE;
    };
    let (Some(work), Some(rounds)) = (words.nth(1), words.next()) else {
        return ExitCode::FAILURE;
    };
    let Ok(rounds) = rounds.parse() else {
        return ExitCode::FAILURE;
    };
    let Some(sum) = result_of(rt.alloc(), work.as_bytes(), rounds) else {
        return ExitCode::FAILURE;
    };
    ExitCode::from(u8::from(println!(rt; "{sum}").is_err()))
}
