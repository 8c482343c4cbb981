//! Sums of carry-less products by the comb method with windows of four bits (D. Hankerson, A. Menezes and S. Vanstone,
//! "Guide to Elliptic Curve Cryptography", 2004, section 2.3).
//!
//! The products of the entries of a vector and the elements of a row share their shifts: a window for each entry, and for
//! each place of the digits of four bits, from the highest down, the sum of one entry of each window. Columns are taken by 8.
ghost use Rattle.std.specs.Prelude.{◌≡◌, ℕ, ◌+◌, ◌*◌, ◌^◌, ◌<◌, ◌≤◌, All, List, [], bit_xor, length, map, get_or, slice_index};
ghost use Rattle.kk_field.specs.Polynomial.{product};
ghost use Rattle.kk_linpoly.specs.LinPoly.{IsOver, xor_sum};
ghost use Rattle.kk_linpoly.specs.Matrix.{AreWindows, block_product, digit, digits_of};
ghost use Rattle.kk_linpoly.specs.declared.comb.TheConstants.{BLOCK};
ghost use Rattle.kk_linpoly.specs.declared.matrix.TheConstants.{MAX_COLUMNS};

use crate::{MAX_COLUMNS, MatrixRow};
use kk_tables::FieldTables;
use kk_tables::windows::{narrow_window, wide_window};

/// How many columns are taken together.
pub(crate) const BLOCK: usize = 8;

/// Digit d of each element.
fn digits_at(elements: &[u64; MAX_COLUMNS], d: u32) -> [u8; MAX_COLUMNS]
    requires { d < 16 }
    ensures { result ≡ map (digit d) elements.now }
{
    let mut digits = [0; MAX_COLUMNS];
    for i in 0..MAX_COLUMNS {
        digits[i] = ((elements[i] >> (4 * d)) % 16) as u8;
    }
    digits
}

/// The digits of four bits of the elements, by their places from the lowest up.
pub(crate) fn digits_of(elements: &[u64; MAX_COLUMNS]) -> [[u8; MAX_COLUMNS]; 16]
    ensures { result ≡ digits_of elements.now }
{
    let mut digits = [[0; MAX_COLUMNS]; 16];
    for d in 0..16u32 {
        digits[d as usize] = digits_at(elements, d);
    }
    digits
}

/// Entry i of the vector, and 0 past its end.
#[inline(always)]
fn entry(vector: &[u64], i: usize) -> u64
    ensures { result ≡ slice_index vector.now i }
{
    if i < vector.len() { vector[i] } else { 0 }
}

/// The windows of the vector's entries in the columns from `first` on, and of 0 past its end.
fn narrow_windows(vector: &[u64], first: usize) -> [[u64; 16]; BLOCK]
    requires within { first + BLOCK ≤ MAX_COLUMNS }
    requires small { IsOver 60 vector.now }
    ensures { AreWindows vector.now first result }
{
    let mut windows = [[0; 16]; BLOCK];
    for i in 0..BLOCK {
        windows[i] = narrow_window(entry(vector, first + i));
    }
    windows
}

/// The sum over the columns from `first` on of one entry of each window.
#[inline(always)]
fn narrow_digit_sum(windows: &[[u64; 16]; BLOCK], digits: &[u8; MAX_COLUMNS], first: usize) -> u64
    requires within { first + BLOCK ≤ MAX_COLUMNS }
    requires digits { All (λ d. d < 16) digits.now }
    ensures { result ≡ xor_sum (λ i. slice_index (get_or windows.now i []) (slice_index digits.now (first + i))) BLOCK }
{
    let mut sum = 0;
    for i in 0..BLOCK {
        sum ^= windows[i][digits[first + i] as usize];
    }
    sum
}

/// The sum of the carry-less products of the row's elements and the vector's entries in the columns from `first` on, where
/// the elements have no digit past the first `places`.
#[inline(always)]
fn narrow_row_sum(windows: &[[u64; 16]; BLOCK], row: &MatrixRow, first: usize, places: usize) -> u64
    requires within { first + BLOCK ≤ MAX_COLUMNS }
    requires few { places ≤ 8 }
    requires small { IsOver (4 * places) row.now }
    ensures { (vector : List ℕ) → AreWindows vector first windows.now → IsOver 32 vector
        → result ≡ xor_sum (λ i. product (slice_index vector (first + i)) (slice_index row.now (first + i))) BLOCK }
{
    let digits = row.digits();
    let mut sum = 0;
    for d in 0..places {
        sum = (sum << 4) ^ narrow_digit_sum(windows, &digits[places - 1 - d], first);
    }
    sum
}

/// The same where the sum of the products has up to 128 bits.
#[inline(always)]
fn middle_row_sum(
    windows: &[[u64; 16]; BLOCK],
    row: &MatrixRow,
    first: usize,
    places: usize,
) -> u128
    requires within { first + BLOCK ≤ MAX_COLUMNS }
    requires few { places ≤ 16 }
    requires small { IsOver (4 * places) row.now }
    ensures { (vector : List ℕ) → AreWindows vector first windows.now → IsOver 64 vector
        → result ≡ xor_sum (λ i. product (slice_index vector (first + i)) (slice_index row.now (first + i))) BLOCK }
{
    let digits = row.digits();
    let mut sum = 0;
    for d in 0..places {
        let low = u128::from(narrow_digit_sum(windows, &digits[places - 1 - d], first));
        sum = (sum << 4) ^ low;
    }
    sum
}

/// Adds the columns from `first` on to the products of the rows and the vector, in words of 64 bits, where an element has at
/// most `places` digits, and these are at most 8.
#[inline(always)]
fn narrow_add(
    field: &FieldTables,
    matrix: &[MatrixRow],
    vector: &[u64],
    first: usize,
    places: usize,
    image: &mut [u64],
)
    requires narrow { field.now.degree ≤ 4 * places }
    requires few { places ≤ 8 }
    requires within { first + BLOCK ≤ MAX_COLUMNS }
    requires room { length matrix.now ≤ length image.old }
    requires matrix_of_field { All (IsOver field.now.degree) matrix.now }
    requires vector_of_field { IsOver field.now.degree vector.now }
    ensures len { length image.new ≡ length image.old }
    ensures values { (j : ℕ) → j < length matrix.now → slice_index image.new j
        ≡ bit_xor (slice_index image.old j) (block_product field.now vector.now first (get_or matrix.now j [])) }
    ensures below { (j : ℕ) → j < length matrix.now → slice_index image.old j < 2 ^ field.now.degree
        → slice_index image.new j < 2 ^ field.now.degree }
    ensures others { (j : ℕ) → length matrix.now ≤ j → slice_index image.new j ≡ slice_index image.old j }
{
    let windows = narrow_windows(vector, first);
    for (j, row) in matrix.iter().enumerate() {
        image[j] ^= field.reduce_narrow(narrow_row_sum(&windows, row, first, places));
    }
}

/// The same where an element has at most `places` digits, and these are at most 15: the windows are in words of 64 bits, and
/// only the sums take 128.
#[inline(always)]
fn middle_add(
    field: &FieldTables,
    matrix: &[MatrixRow],
    vector: &[u64],
    first: usize,
    places: usize,
    image: &mut [u64],
)
    requires middle { field.now.degree ≤ 4 * places }
    requires few { places ≤ 15 }
    requires within { first + BLOCK ≤ MAX_COLUMNS }
    requires room { length matrix.now ≤ length image.old }
    requires matrix_of_field { All (IsOver field.now.degree) matrix.now }
    requires vector_of_field { IsOver field.now.degree vector.now }
    ensures len { length image.new ≡ length image.old }
    ensures values { (j : ℕ) → j < length matrix.now → slice_index image.new j
        ≡ bit_xor (slice_index image.old j) (block_product field.now vector.now first (get_or matrix.now j [])) }
    ensures below { (j : ℕ) → j < length matrix.now → slice_index image.old j < 2 ^ field.now.degree
        → slice_index image.new j < 2 ^ field.now.degree }
    ensures others { (j : ℕ) → length matrix.now ≤ j → slice_index image.new j ≡ slice_index image.old j }
{
    let windows = narrow_windows(vector, first);
    for (j, row) in matrix.iter().enumerate() {
        image[j] ^= field.reduce_wide(middle_row_sum(&windows, row, first, places));
    }
}

/// The windows of the vector's entries in the columns from `first` on, and of 0 past its end.
fn wide_windows(vector: &[u64], first: usize) -> [[u128; 16]; BLOCK]
    requires within { first + BLOCK ≤ MAX_COLUMNS }
    ensures { AreWindows vector.now first result }
{
    let mut windows = [[0; 16]; BLOCK];
    for i in 0..BLOCK {
        windows[i] = wide_window(entry(vector, first + i));
    }
    windows
}

/// The sum over the columns from `first` on of one entry of each window.
#[inline(always)]
fn wide_digit_sum(windows: &[[u128; 16]; BLOCK], digits: &[u8; MAX_COLUMNS], first: usize) -> u128
    requires within { first + BLOCK ≤ MAX_COLUMNS }
    requires digits { All (λ d. d < 16) digits.now }
    ensures { result ≡ xor_sum (λ i. slice_index (get_or windows.now i []) (slice_index digits.now (first + i))) BLOCK }
{
    let mut sum = 0;
    for i in 0..BLOCK {
        sum ^= windows[i][digits[first + i] as usize];
    }
    sum
}

/// The sum of the carry-less products of the row's elements and the vector's entries in the columns from `first` on.
#[inline(always)]
fn wide_row_sum(windows: &[[u128; 16]; BLOCK], row: &MatrixRow, first: usize) -> u128
    requires within { first + BLOCK ≤ MAX_COLUMNS }
    requires small { IsOver 64 row.now }
    ensures { (vector : List ℕ) → AreWindows vector first windows.now → IsOver 64 vector
        → result ≡ xor_sum (λ i. product (slice_index vector (first + i)) (slice_index row.now (first + i))) BLOCK }
{
    let digits = row.digits();
    let mut sum = 0;
    for d in 0..16usize {
        sum = (sum << 4) ^ wide_digit_sum(windows, &digits[15 - d], first);
    }
    sum
}

/// The same in words of 128 bits, for every field.
fn wide_add(
    field: &FieldTables,
    matrix: &[MatrixRow],
    vector: &[u64],
    first: usize,
    image: &mut [u64],
)
    requires wide { field.now.degree ≤ 64 }
    requires within { first + BLOCK ≤ MAX_COLUMNS }
    requires room { length matrix.now ≤ length image.old }
    requires matrix_of_field { All (IsOver field.now.degree) matrix.now }
    requires vector_of_field { IsOver field.now.degree vector.now }
    ensures len { length image.new ≡ length image.old }
    ensures values { (j : ℕ) → j < length matrix.now → slice_index image.new j
        ≡ bit_xor (slice_index image.old j) (block_product field.now vector.now first (get_or matrix.now j [])) }
    ensures below { (j : ℕ) → j < length matrix.now → slice_index image.old j < 2 ^ field.now.degree
        → slice_index image.new j < 2 ^ field.now.degree }
    ensures others { (j : ℕ) → length matrix.now ≤ j → slice_index image.new j ≡ slice_index image.old j }
{
    let windows = wide_windows(vector, first);
    for (j, row) in matrix.iter().enumerate() {
        image[j] ^= field.reduce_wide(wide_row_sum(&windows, row, first));
    }
}

/// Adds the columns from `first` on to the products of the rows and the vector, by no more digits than the field's elements
/// have: 2, 8, 10, 15 or 16.
pub(crate) fn add_columns(
    field: &FieldTables,
    matrix: &[MatrixRow],
    vector: &[u64],
    first: usize,
    image: &mut [u64],
)
    requires within { first + BLOCK ≤ MAX_COLUMNS }
    requires room { length matrix.now ≤ length image.old }
    requires matrix_of_field { All (IsOver field.now.degree) matrix.now }
    requires vector_of_field { IsOver field.now.degree vector.now }
    ensures len { length image.new ≡ length image.old }
    ensures values { (j : ℕ) → j < length matrix.now → slice_index image.new j
        ≡ bit_xor (slice_index image.old j) (block_product field.now vector.now first (get_or matrix.now j [])) }
    ensures below { (j : ℕ) → j < length matrix.now → slice_index image.old j < 2 ^ field.now.degree
        → slice_index image.new j < 2 ^ field.now.degree }
    ensures others { (j : ℕ) → length matrix.now ≤ j → slice_index image.new j ≡ slice_index image.old j }
{
    // Each count of digits is a constant, so that the loops over them are unrolled.
    match field.m() {
        0..=8 => narrow_add(field, matrix, vector, first, 2, image),
        9..=32 => narrow_add(field, matrix, vector, first, 8, image),
        33..=40 => middle_add(field, matrix, vector, first, 10, image),
        41..=60 => middle_add(field, matrix, vector, first, 15, image),
        _ => wide_add(field, matrix, vector, first, image),
    }
}
