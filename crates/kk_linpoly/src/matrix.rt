//! Matrices over GF(2^m), and their products with vectors.
ghost use Rattle.std.specs.Prelude.{◌≡◌, ℕ, ◌-◌, ◌^◌, ◌<◌, ◌≤◌, ◌++◌, All, length, get_or, replicate, slice_index, []};
ghost use Rattle.kk_linpoly.specs.LinPoly.{IsOver};
ghost use Rattle.kk_linpoly.specs.Matrix.{digits_of, row_product};
ghost use Rattle.kk_linpoly.specs.declared.matrix.TheConstants.{MAX_COLUMNS};

use crate::comb::{BLOCK, add_columns, digits_of};
use kk_tables::FieldTables;
use std::marker::Model;

/// How many columns a matrix can have.
pub const MAX_COLUMNS: usize = 64;

/// A row of a matrix over a field of characteristic 2, with the digits of four bits of its elements by their places.
///
/// Clauses see the list of the elements, [`MAX_COLUMNS`] of them: zeros stand after those that were given.
#[derive(Clone, Copy)]
pub struct MatrixRow {
    elements: [u64; MAX_COLUMNS],
    digits: [[u8; MAX_COLUMNS]; 16],
}

impl Model for MatrixRow {
    ghost use Rattle.std.specs.Prelude.{List, ℕ};
    ghost use Rattle.std.proofs.Common.{sym, ap};
    ghost use Rattle.kk_linpoly.specs.Matrix.{IsRow, digits_of};

    ghost Value = { List ℕ };

    ghost view = { λ r. r.elements };

    ghost invariant = { λ r. IsRow r.elements r.digits };

    ghost inverse = { λ elements. record { elements = elements; digits = digits_of elements } };

    ghost inverse_ok = { λ r h. ap (λ digits. record { elements = r.elements; digits = digits }) (sym h.digits_are) };
}

impl MatrixRow {
    /// The row of zeros.
    pub fn zero() -> MatrixRow
        ensures { result ≡ replicate MAX_COLUMNS 0 }
    {
        MatrixRow {
            elements: [0; MAX_COLUMNS],
            digits: [[0; MAX_COLUMNS]; 16],
        }
    }

    /// The row of these elements, at most [`MAX_COLUMNS`], with zeros after them.
    pub fn of(elements: &[u64]) -> MatrixRow
        requires { length elements.now ≤ MAX_COLUMNS }
        ensures value { result ≡ elements.now ++ replicate (MAX_COLUMNS - length elements.now) 0 }
    {
        let mut row = [0; MAX_COLUMNS];
        row[..elements.len()].copy_from_slice(elements);
        MatrixRow {
            elements: row,
            digits: digits_of(&row),
        }
    }

    /// The elements, with the zeros after those that were given.
    pub fn elements(&self) -> &[u64]
        ensures value { result.now ≡ self.now }
        ensures count { length self.now ≡ MAX_COLUMNS }
    {
        &self.elements
    }

    /// The digits of four bits of the elements, by their places from the lowest up.
    pub(crate) fn digits(&self) -> &[[u8; MAX_COLUMNS]; 16]
        ensures value { result.now ≡ digits_of self.now }
        ensures count { length self.now ≡ MAX_COLUMNS }
    {
        &self.digits
    }
}

/// The product of the matrix and the vector: entry j of `image` becomes row j times the vector.
///
/// Each row takes one reduction for 8 columns: the sum of their products is carry-less.
pub fn transform(field: &FieldTables, matrix: &[MatrixRow], vector: &[u64], image: &mut [u64])
    requires columns { length vector.now ≤ MAX_COLUMNS }
    requires room { length matrix.now ≤ length image.old }
    requires matrix_of_field { All (IsOver field.now.degree) matrix.now }
    requires vector_of_field { IsOver field.now.degree vector.now }
    ensures len { length image.new ≡ length image.old }
    ensures values { (j : ℕ) → j < length matrix.now
        → slice_index image.new j ≡ row_product field.now vector.now (get_or matrix.now j []) }
    ensures below { (j : ℕ) → j < length matrix.now → slice_index image.new j < 2 ^ field.now.degree }
    ensures others { (j : ℕ) → length matrix.now ≤ j → slice_index image.new j ≡ slice_index image.old j }
{
    image[..matrix.len()].fill(0);
    for b in 0..vector.len().div_ceil(BLOCK) {
        add_columns(field, matrix, vector, BLOCK * b, image);
    }
}
