//! Fields of degree 33 to 64 and codes over them: values that were computed apart from the program.
ghost use Rattle.std.specs.Prelude.{◌≡◌, ◌<◌, ◌≤◌, ◌^◌, IsTrue};
ghost use Rattle.kk_linpoly.specs.LinPoly.{IsOver};

use crate::decode::{decodes_to, message};
use kk_code::{Code, Encoder, check_modulus};
use kk_decode::Scratch;
use kk_field::Steps;
use kk_linpoly::{MatrixRow, transform};
use kk_rows::{Alloc, Row};
use kk_tables::FieldTables;
use std::alloc::Global;
use std::marker::Brand;
use std::sync::ledger::{Blank, Ledger};
use std::test::Fail;

/// The tables of GF(2^m), or `None` where X^m + low is no modulus.
fn tables_of(m: u32, low: u64) -> Option<FieldTables> {
    if !(1..=64).contains(&m) || (m < 64 && low >> m != 0) {
        return None;
    }
    Some(FieldTables::new(check_modulus(m, low).ok()?))
}

/// Whether it is an element of the field.
fn is_element(field: &FieldTables, a: u64) -> bool
    ensures { IsTrue result → a < 2 ^ field.now.degree }
{
    let top = field.m() - 1;
    if a >> top > 1 {
        return false;
    }
    true
}

/// The product of two elements, and the first to the power 2^5.
fn product_and_power<L: Ledger>(
    field: &FieldTables,
    a: u64,
    b: u64,
    blank: Blank,
) -> Option<(u64, u64)>
    requires name { blank.name ≡ L.name }
    requires parts { blank.parts ≡ L.parts }
    requires some { 0 < blank.parts }
{
    if !is_element(field, a) || !is_element(field, b) {
        return None;
    }
    let mut steps: Steps<L> = Steps::new(blank);
    let product = field.mul(a, b, &mut steps);
    Some((product, field.pow2(a, 5, &mut steps)))
}

#[test]
fn products_and_powers_above_degree_32(rt: HostRuntime) -> Result<(), Fail> {
    for (m, low, a, b, product, power) in [
        (
            33,
            0x4b,
            0x1_52e6_b438,
            0x1_269e_0d37,
            0x9239_c624,
            0x6901_cf41,
        ),
        (
            40,
            0x39,
            0x8c_a6a3_a450,
            0xd2_128b_2f33,
            0x8a_bf00_bbad,
            0x23_f8d3_8d8b,
        ),
        (
            41,
            0x9,
            0x130_892f_902b,
            0x12a_5d9d_c9f8,
            0xf6_99d5_8d18,
            0x93_8cbf_8ab3,
        ),
        (
            60,
            0x3,
            0xe8e_25d9_0ed9_0475,
            0xb6f_675c_81e7_4ef5,
            0xb12_1bbe_9d31_657e,
            0x978_3e1a_bf3e_086a,
        ),
        (
            61,
            0x27,
            0x12c0_146b_0999_50d8,
            0x1d61_aa93_6f03_675a,
            0x614_947a_16b9_c3ca,
            0x197c_bd12_992c_707b,
        ),
        (
            62,
            0x69,
            0x2f67_05c9_11e2_0b8f,
            0x2344_5bb3_1738_f7d9,
            0x3b98_156e_5af0_8133,
            0x1e21_e070_f173_0a69,
        ),
        (
            64,
            0x1b,
            0x8f21_ddb6_6cad_4a26,
            0x90c1_92cf_d3ac_94af,
            0xeed8_88b6_8ccf_2f8d,
            0x69b7_08fc_b3cf_9202,
        ),
    ] {
        let field = tables_of(m, low).ok_or("no field")?;
        let found = product_and_power::<Brand>(&field, a, b, Blank::new(1));
        assert_eq!(rt; found, Some((product, power)), "degree {m}");
    }
    Ok(())
}

#[test]
fn the_highest_power_times_x_is_the_rest_of_the_modulus(rt: HostRuntime) -> Result<(), Fail> {
    let field = tables_of(40, 0x39).ok_or("no field")?;
    let (product, _) = product_and_power::<Brand>(&field, 1 << 39, 2, Blank::new(1)).ok_or(
        "no element",
    )?;
    assert_eq!(rt; product, 0x39);
    Ok(())
}

/// Whether each is an element of the field.
fn are_elements(field: &FieldTables, xs: &[u64]) -> bool
    ensures { IsTrue result → IsOver field.now.degree xs.now }
{
    for x in xs {
        if !is_element(field, *x) {
            return false;
        }
    }
    true
}

/// The product of a row of ten columns and a vector.
fn row_times(field: &FieldTables, row: &[u64; 10], vector: &[u64; 10]) -> Option<u64> {
    if !are_elements(field, row) {
        return None;
    }
    if !are_elements(field, vector) {
        return None;
    }
    let matrix = [MatrixRow::of(row)];
    let mut image = [0];
    transform(field, &matrix, vector, &mut image);
    Some(image[0])
}

#[test]
fn rows_of_ten_columns_above_degree_32(rt: HostRuntime) -> Result<(), Fail> {
    for (m, low, row, vector, product) in [
        (
            40,
            0x39,
            [
                0xf2_1fb1_7c23,
                0xa1_3926_3059,
                0x95_a09f_76b5,
                0xf_f29d_0da9,
                0x95_93bd_04cf,
                0xc_658c_da14,
                0x38_f9eb_dacc,
                0x8e_0bec_d7b0,
                0x22_dbc4_96cb,
                0x6b_4a23_d596,
            ],
            [
                0x8a_24ed_e6a4,
                0x92_1e27_a1c0,
                0x8f_4ef8_aa38,
                0xae_d0ed_a82f,
                0x1a_2e44_158b,
                0x92_94e3_bf91,
                0x30_a38f_d547,
                0x18_5f55_7203,
                0xb6_8c38_fb29,
                0x90_1012_f037,
            ],
            0x6b_d9ca_9829,
        ),
        (
            60,
            0x3,
            [
                0x9e7_769b_0f42_05b4,
                0x7f1_5052_34b9_b5df,
                0x881_ed16_ae2e_b154,
                0xc6f_8771_6d76_b07e,
                0x773_1af1_506b_f2ef,
                0xec6_6a78_95e7_61d1,
                0x5c9_0a95_7403_e430,
                0x3f9_8e27_4cbd_87ad,
                0x2e0_5319_cb5c_7427,
                0xc7a_2ea2_b2f1_4c94,
            ],
            [
                0x14f_4733_3e7d_1bfb,
                0x4cd_d205_930d_6eaf,
                0x7eb_ff20_8673_4721,
                0x57e_e05c_e009_02c7,
                0x72e_6cc3_babc_ed20,
                0x9be_4bcf_49b6_4a08,
                0x12b_d4ac_faec_bd38,
                0x830_e07b_1e39_8f10,
                0x2a3_af4d_6b0a_18e8,
                0x579_0f82_c1d3_fcff,
            ],
            0xf83_e40b_afea_b508,
        ),
        (
            61,
            0x27,
            [
                0x1ddd_597c_26e8_7555,
                0xd7e_8d8d_7d2c_af82,
                0x1ec8_dc3e_0a09_7c97,
                0x27b_ddf0_ab10_31d0,
                0x11db_c1af_c3ba_ea9e,
                0x1940_426b_92b1_d3f2,
                0x1a2f_f359_e01f_5057,
                0xae2_4848_5051_c1cc,
                0xb34_a94f_b1fe_e08f,
                0xfe4_c289_9828_9fcd,
            ],
            [
                0x1980_239b_9474_031b,
                0x233_4e5a_74c9_df6a,
                0x2fe_bd06_d708_20fe,
                0x8a3_57b0_f1d6_9ed6,
                0x164e_2b28_795e_8229,
                0x214_7ad6_aa05_e11a,
                0x1765_a841_0f88_080b,
                0x9e8_4db9_b394_fb36,
                0x127e_8916_a5aa_3c81,
                0x15cc_b1e6_fe3b_890b,
            ],
            0x159e_80c6_d15e_049d,
        ),
    ] {
        let field = tables_of(m, low).ok_or("no field")?;
        assert_eq!(rt;
            row_times(&field, &row, &vector),
            Some(product),
            "degree {m}"
        );
    }
    Ok(())
}

/// The code over GF(2^m) with the modulus X^m + low.
fn code_of(m: u32, low: u64, l: u32, k: u32) -> Option<Code> {
    if !(1..=64).contains(&m) || (m < 64 && low >> m != 0) {
        return None;
    }
    Code::new(check_modulus(m, low).ok()?, l, k).ok()
}

/// The symbols of a message: the highest m bits of the multiples of an odd word.
fn symbols_of(alloc: Global, code: &Code) -> Result<Vec<u64>, Alloc> {
    let mut symbols = Vec::new(alloc);
    for i in 0..u64::from(code.k()) {
        symbols.push(0x9e37_79b9_7f4a_7c15u64.wrapping_mul(i + 1) >> (64 - code.m()))?;
    }
    Ok(symbols)
}

/// The codeword of the message of these symbols, by tables.
fn rows_of(alloc: Global, code: &Code, symbols: &[u64]) -> Result<Option<Vec<Row>>, Alloc> {
    let Some(u) = message(code, symbols) else {
        return Ok(None);
    };
    let encoder = Encoder::new(alloc, code)?;
    let mut rows = Vec::new(alloc);
    for row in encoder.encode(&u).as_slice() {
        rows.push(*row)?;
    }
    Ok(Some(rows))
}

/// Puts the rows x = 0, y = 2^j in place of the first so many.
fn put_foreign(rows: &mut [Row], count: u32)
    requires { count ≤ 64 }
{
    for j in 0..count {
        if let Some(row) = rows.get_mut(j as usize) {
            *row = Row(1 << j);
        }
    }
}

// The first row and the last. As many rows are lost as foreign ones come: on the radius, and one more.
#[test]
fn codes_above_degree_32_give_back_their_messages(rt: HostRuntime) -> Result<(), Fail> {
    let mut scratch = Scratch::new();
    for (m, low, l, k, first, last) in [
        (33, 0x4b, 11, 5, 0x2_2e6e_c33a, 0x800_33f6_5dfd),
        (40, 0x39, 20, 10, 0x1a1_9da4_a786, 0x800_005e_2fef_14d0),
        (41, 0x9, 9, 3, 0x2f1_ffcf_cff8, 0x2_0175_191b_213c),
        (
            60,
            0x3,
            30,
            12,
            0x1076_62ae_e098_0000,
            0x200_0000_0b5c_1b17_6065_155d,
        ),
        (
            61,
            0x27,
            20,
            7,
            0x3e3f_fdfa_ffbd_7c1a,
            0x1_0000_1a92_4c5a_b39e_eae6,
        ),
        (62, 0x69, 1, 1, 0x678d_de6e_5fd2_9f05, 0x678d_de6e_5fd2_9f05),
        (
            64,
            0x1b,
            64,
            16,
            0x1_0e88_16e8_08a0_0050,
            0x8000_0000_0000_0000_6a15_eea1_0f2c_f93d,
        ),
        (
            64,
            0x1b,
            64,
            64,
            0x1_f32f_c520_3ef0_4040,
            0x8000_0000_0000_0000_165f_c5a8_4a80_4a35,
        ),
    ] {
        let code = code_of(m, low, l, k).ok_or("no code")?;
        let symbols = symbols_of(rt.alloc(), &code)?;
        let mut rows = rows_of(rt.alloc(), &code, &symbols)?.ok_or("no message")?;
        assert_eq!(rt; rows.first(), Some(&Row(first)), "{m} {l} {k}");
        assert_eq!(rt; rows.last(), Some(&Row(last)), "{m} {l} {k}");
        assert!(rt; decodes_to::<Brand>(&code, &rows, &symbols, &mut scratch, Blank::new(1)));
        let radius = (code.l() - code.k()) / 2;
        put_foreign(&mut rows, radius);
        assert!(rt; decodes_to::<Brand>(&code, &rows, &symbols, &mut scratch, Blank::new(1)));
        put_foreign(&mut rows, radius + 1);
        assert!(rt; decodes_to::<Brand>(&code, &rows, &[], &mut scratch, Blank::new(1)));
    }
    Ok(())
}
