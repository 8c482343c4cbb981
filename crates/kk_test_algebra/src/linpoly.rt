//! Worked values over GF(8) with the modulus X^3 + X + 1, where the powers of 2 are 1, 2, 4, 3, 6, 7, 5.
ghost use Rattle.std.specs.Prelude.{◌≡◌, ◌<◌, IfSome};

use kk_field::{Field, Ring, Steps};
use kk_linpoly::{LinMap, LinPoly, MatrixRow, transform};
use kk_tables::FieldTables;
use std::marker::Brand;
use std::sync::ledger::{Blank, Ledger};
use std::test::Fail;

/// The tables of GF(8), or `None` if X^3 + X + 1 had factors.
fn gf8() -> Option<FieldTables>
    ensures { IfSome result (λ f. f ≡ record { degree = 3; low = 3 }) }
{
    let ring = Ring::new(3, 3);
    if !ring.is_irreducible() {
        return None;
    }
    Some(FieldTables::new(Field::of(ring)))
}

/// The vanishing polynomial of 1 and 2, and its values at 3, their sum, and at 4, where it is 5 + 4 + 2.
fn of_one_and_two<L: Ledger>(blank: Blank) -> Option<(LinPoly, u64, u64)>
    requires name { blank.name ≡ L.name }
    requires parts { blank.parts ≡ L.parts }
    requires some { 0 < blank.parts }
{
    let field = gf8()?;
    let mut steps: Steps<L> = Steps::new(blank);
    let v = LinPoly::vanishing(&field, &[1, 2], &mut steps);
    let at_three = v.eval(&field, 3, &mut steps);
    let at_four = v.eval(&field, 4, &mut steps);
    Some((v, at_three, at_four))
}

#[test]
fn vanishing_polynomial_of_two_points(rt: HostRuntime) -> Result<(), Fail> {
    let (v, at_three, at_four) = of_one_and_two::<Brand>(Blank::new(1)).ok_or("reducible")?;
    assert_eq!(rt; v.coeffs(), [6, 7, 1].as_slice());
    assert_eq!(rt; v.degree(), Some(2));
    assert_eq!(rt; (at_three, at_four), (0, 3));
    Ok(())
}

/// X^2 after 3·X, and 3·X after X^2.
fn both_compositions<L: Ledger>(blank: Blank) -> Option<(LinPoly, LinPoly)>
    requires name { blank.name ≡ L.name }
    requires parts { blank.parts ≡ L.parts }
    requires some { 0 < blank.parts }
{
    let field = gf8()?;
    let mut steps: Steps<L> = Steps::new(blank);
    let square = LinPoly::from_slice(&[0, 1]);
    let three = LinPoly::from_slice(&[3]);
    let of_three = square.compose(&field, &three, &mut steps);
    let of_square = three.compose(&field, &square, &mut steps);
    Some((of_three, of_square))
}

#[test]
fn composition_does_not_commute(rt: HostRuntime) -> Result<(), Fail> {
    let (of_three, of_square) = both_compositions::<Brand>(Blank::new(1)).ok_or("reducible")?;
    assert_eq!(rt; of_three.coeffs(), [0, 5].as_slice());
    assert_eq!(rt; of_square.coeffs(), [0, 3].as_slice());
    Ok(())
}

/// 2 times a polynomial, the square of another, and the square of X + X^2 plus 6 times it.
fn multiple_and_squares<L: Ledger>(blank: Blank) -> Option<(LinPoly, LinPoly, LinPoly)>
    requires name { blank.name ≡ L.name }
    requires parts { blank.parts ≡ L.parts }
    requires some { 0 < blank.parts }
{
    let field = gf8()?;
    let mut steps: Steps<L> = Steps::new(blank);
    let multiple = LinPoly::from_slice(&[1, 2, 4]).scale(&field, 2, &mut steps);
    let square = LinPoly::from_slice(&[3]).square_up(&field, &mut steps);
    let mut raised = LinPoly::from_slice(&[1, 1]);
    raised.raise(&field, 6, &mut steps);
    Some((multiple, square, raised))
}

#[test]
fn a_multiple_and_two_squares(rt: HostRuntime) -> Result<(), Fail> {
    let (multiple, square, raised) = multiple_and_squares::<Brand>(Blank::new(1)).ok_or(
        "reducible",
    )?;
    assert_eq!(rt; multiple.coeffs(), [2, 4, 3].as_slice());
    assert_eq!(rt; square.coeffs(), [0, 5].as_slice());
    assert_eq!(rt; raised.coeffs(), [6, 7, 1].as_slice());
    Ok(())
}

#[test]
fn zeros_at_the_end_are_dropped(rt: HostRuntime) -> Result<(), Fail> {
    let f = LinPoly::from_slice(&[6, 7, 1, 0]);
    assert_eq!(rt; f.coeffs(), [6, 7, 1].as_slice());
    let g = LinPoly::from_slice(&[1, 7, 1]);
    assert_eq!(rt; f.add(&g).coeffs(), [7].as_slice());
    assert_eq!(rt; f.add(&f.clone()?).degree(), None);
    assert!(rt; f == LinPoly::from_slice(&[6, 7, 1]));
    assert!(rt; f != g);
    Ok(())
}

#[test]
fn the_highest_degree_is_127(rt: HostRuntime) {
    let f = LinPoly::from_slice(&[1; 128]);
    assert_eq!(rt; f.degree(), Some(127));
}

/// What a new map takes 5 to, and the map of 6·X + 7·X^2 + X^4 the elements 1 to 4.
fn of_the_map<L: Ledger>(blank: Blank) -> Option<(u64, [u64; 4])>
    requires name { blank.name ≡ L.name }
    requires parts { blank.parts ≡ L.parts }
    requires some { 0 < blank.parts }
{
    let field = gf8()?;
    let mut steps: Steps<L> = Steps::new(blank);
    let mut map = LinMap::new();
    let of_five = map.at(5);
    map.load(&field, &LinPoly::from_slice(&[6, 7, 1]), &mut steps);
    Some((of_five, [map.at(1), map.at(2), map.at(3), map.at(4)]))
}

#[test]
fn the_map_is_zero_on_the_roots(rt: HostRuntime) -> Result<(), Fail> {
    let (of_five, values) = of_the_map::<Brand>(Blank::new(1)).ok_or("reducible")?;
    assert_eq!(rt; of_five, 0);
    assert_eq!(rt; values, [0, 0, 0, 3]);
    Ok(())
}

/// What the map of X takes `x` to in the field of degree 64, loaded after that of another field.
fn of_the_identity<L: Ledger>(x: u64, blank: Blank) -> Option<u64>
    requires name { blank.name ≡ L.name }
    requires parts { blank.parts ≡ L.parts }
    requires some { 0 < blank.parts }
{
    let small = gf8()?;
    let ring = Ring::new(64, 0x1b);
    if !ring.is_irreducible() {
        return None;
    }
    let mut steps: Steps<L> = Steps::new(blank);
    let mut map = LinMap::new();
    map.load(&small, &LinPoly::from_slice(&[6, 7, 1]), &mut steps);
    map.load(
        &FieldTables::new(Field::of(ring)),
        &LinPoly::from_slice(&[1]),
        &mut steps,
    );
    Some(map.at(x))
}

#[test]
fn the_map_takes_all_bytes(rt: HostRuntime) -> Result<(), Fail> {
    for x in [1 << 63, 0xfedc_ba98_7654_3210, u64::MAX] {
        assert_eq!(rt; of_the_identity::<Brand>(x, Blank::new(1)), Some(x));
    }
    Ok(())
}

/// The product of the matrix with the rows (1, 2) and (4, 7) and the vector (3, 5): 3 + 1 and 7 + 6. An entry of the image
/// that has no row stays.
fn of_the_matrix() -> Option<[u64; 3]> {
    let field = gf8()?;
    let matrix = [MatrixRow::of(&[1, 2]), MatrixRow::of(&[4, 7])];
    let mut image = [0, 0, 6];
    transform(&field, &matrix, &[3, 5], &mut image);
    Some(image)
}

#[test]
fn a_matrix_times_a_vector(rt: HostRuntime) {
    assert_eq!(rt; of_the_matrix(), Some([2, 1, 6]));
}

/// The sum of the elements of the field, which is 0, and of 1, 2 and 4, as a product with 10 columns.
fn of_ten_columns() -> Option<[u64; 1]> {
    let field = gf8()?;
    let matrix = [MatrixRow::of(&[1, 2, 4, 3, 6, 7, 5, 1, 2, 4])];
    let mut image = [0];
    transform(&field, &matrix, &[1; 10], &mut image);
    Some(image)
}

#[test]
fn a_row_of_ten_columns(rt: HostRuntime) {
    assert_eq!(rt; of_ten_columns(), Some([7]));
}

/// Products modulo X^64 + X^4 + X^3 + X + 1: X^63·X + (X + 1)·X^63, and the sum of all powers below X^64 times X.
fn of_the_widest_field() -> Option<[u64; 2]> {
    let ring = Ring::new(64, 0x1b);
    if !ring.is_irreducible() {
        return None;
    }
    let matrix = [MatrixRow::of(&[1 << 63, 3]), MatrixRow::of(&[u64::MAX])];
    let mut image = [0; 2];
    transform(
        &FieldTables::new(Field::of(ring)),
        &matrix,
        &[2, 1 << 63],
        &mut image,
    );
    Some(image)
}

#[test]
fn a_matrix_over_the_widest_field(rt: HostRuntime) {
    assert_eq!(rt;
        of_the_widest_field(),
        Some([1 << 63, 0xffff_ffff_ffff_ffe5])
    );
}
