//! The weights that take the values of a polynomial to its coefficients.
ghost use Rattle.std.specs.Prelude.{◌≡◌, ◌+◌, ◌-◌, ◌*◌, ◌^◌, ◌<◌, ◌≤◌, length, All};
ghost use Rattle.kk_linpoly.specs.LinPoly.{IsOver};
ghost use Rattle.kk_code.specs.declared.code.TheConstants.{MAX_POINTS};
ghost use Rattle.kk_decode.specs.declared.weights.TheConstants.{MAX_TERMS};

use crate::powers::powers_of;
use kk_code::MAX_POINTS;
use kk_field::Steps;
use kk_tables::FieldTables;
use std::sync::ledger::Ledger;

/// The most coefficients of the polynomial whose zeros are the nodes: one more than there are nodes.
const MAX_TERMS: usize = MAX_POINTS + 1;

/// The weights by which the values of a linearised polynomial of at most k coefficients, at 2^0, 2^1, .. 2^(k-1), give its
/// coefficients: coefficient j is the sum of the values, each times the element of row j at its place. Its other elements are 0.
///
/// The value at 2^i is the sum of c_j·x_j^i, where node x_j is 2^(2^j). So c_j is the sum of the values, each times a
/// coefficient of the polynomial of degree k - 1 that is 1 at node j and 0 at the other nodes (Lagrange): row j.
pub(crate) fn weights<L: Ledger>(
    field: &FieldTables,
    k: usize,
    steps: &mut Steps<L>,
) -> [[u64; MAX_TERMS]; MAX_POINTS]
    requires { k ≤ MAX_POINTS }
    ensures below { All (IsOver field.now.degree) result }
    ensures cost { steps.new ≤ steps.old + (k + k * (4 * k + 2 * field.now.degree + 1)) }
{
    let nodes = powers_of(field, two(field), k, steps);
    let zeros_at = vanishing(field, &nodes[..k], steps);
    let mut rows = [[0; MAX_TERMS]; MAX_POINTS];
    for j in 0..k {
        rows[j] = row(field, &zeros_at[..k + 1], nodes[j], steps);
    }
    rows
}

/// The residue of X, at which the nodes begin. Over GF(2), where 2 is no element, it is 1.
fn two(field: &FieldTables) -> u64
    ensures { result < 2 ^ field.now.degree }
{
    if field.m() > 1 { 2 } else { 1 }
}

/// The coefficients, from the constant up, of the monic polynomial whose zeros are the nodes, with zeros after them.
fn vanishing<L: Ledger>(
    field: &FieldTables,
    nodes: &[u64],
    steps: &mut Steps<L>,
) -> [u64; MAX_TERMS]
    requires few { length nodes.now ≤ MAX_POINTS }
    requires of_field { IsOver field.now.degree nodes.now }
    ensures below { IsOver field.now.degree result }
    ensures cost { steps.new ≤ steps.old + length nodes.now * (length nodes.now + 1) }
{
    let mut product = [0; MAX_TERMS];
    product[0] = field.one();
    for node in nodes {
        multiply(field, &mut product[..nodes.len() + 1], *node, steps);
    }
    product
}

/// Multiplies the polynomial by Z + x. Its last coefficient has to be 0, and makes room.
fn multiply<L: Ledger>(field: &FieldTables, coefficients: &mut [u64], x: u64, steps: &mut Steps<L>)
    requires of_field { IsOver field.now.degree coefficients.old }
    requires x_below { x < 2 ^ field.now.degree }
    ensures below { IsOver field.now.degree coefficients.new }
    ensures len { length coefficients.new ≡ length coefficients.old }
    ensures cost { steps.new ≤ steps.old + length coefficients.old }
{
    let mut lower = 0;
    for c in coefficients.iter_mut() {
        let here = *c;
        *c = field.mul(here, x, steps) ^ lower;
        lower = here;
    }
}

/// The row of node x: the polynomial divided by Z + x, over the value of the quotient at x.
fn row<L: Ledger>(
    field: &FieldTables,
    polynomial: &[u64],
    x: u64,
    steps: &mut Steps<L>,
) -> [u64; MAX_TERMS]
    requires some { 1 ≤ length polynomial.now }
    requires few { length polynomial.now ≤ MAX_TERMS }
    requires of_field { IsOver field.now.degree polynomial.now }
    requires x_below { x < 2 ^ field.now.degree }
    ensures below { IsOver field.now.degree result }
    ensures cost { steps.new ≤ steps.old + (3 * (length polynomial.now - 1) + 2 * field.now.degree) }
{
    let k = polynomial.len() - 1;
    let mut row = quotient(field, polynomial, x, steps);
    let at_node = value(field, &row[..k], x, steps);
    // It is 0 only where a node comes twice.
    if let Some(inverse) = field.inverse(at_node, steps) {
        scale(field, &mut row[..k], inverse, steps);
    }
    row
}

/// The quotient of the polynomial by Z + x, with zeros after it.
fn quotient<L: Ledger>(
    field: &FieldTables,
    polynomial: &[u64],
    x: u64,
    steps: &mut Steps<L>,
) -> [u64; MAX_TERMS]
    requires some { 1 ≤ length polynomial.now }
    requires few { length polynomial.now ≤ MAX_TERMS }
    requires of_field { IsOver field.now.degree polynomial.now }
    requires x_below { x < 2 ^ field.now.degree }
    ensures below { IsOver field.now.degree result }
    ensures cost { steps.new ≤ steps.old + (length polynomial.now - 1) }
{
    let mut quotient = [0; MAX_TERMS];
    let mut higher = 0;
    for i in (0..polynomial.len() - 1).rev() {
        higher = field.mul(higher, x, steps) ^ polynomial[i + 1];
        quotient[i] = higher;
    }
    quotient
}

/// The value of the polynomial at x (Horner).
fn value<L: Ledger>(field: &FieldTables, polynomial: &[u64], x: u64, steps: &mut Steps<L>) -> u64
    requires of_field { IsOver field.now.degree polynomial.now }
    requires x_below { x < 2 ^ field.now.degree }
    ensures below { result < 2 ^ field.now.degree }
    ensures cost { steps.new ≤ steps.old + length polynomial.now }
{
    let mut value = 0;
    for i in (0..polynomial.len()).rev() {
        value = field.mul(value, x, steps) ^ polynomial[i];
    }
    value
}

/// Multiplies each coefficient by `a`.
fn scale<L: Ledger>(field: &FieldTables, coefficients: &mut [u64], a: u64, steps: &mut Steps<L>)
    requires of_field { IsOver field.now.degree coefficients.old }
    requires a_below { a < 2 ^ field.now.degree }
    ensures below { IsOver field.now.degree coefficients.new }
    ensures len { length coefficients.new ≡ length coefficients.old }
    ensures cost { steps.new ≤ steps.old + length coefficients.old }
{
    for c in coefficients.iter_mut() {
        *c = field.mul(*c, a, steps);
    }
}
