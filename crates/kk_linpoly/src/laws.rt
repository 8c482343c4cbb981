//! Laws of linearised polynomials, each the contract of a function that does nothing.
//!
//! A proof in another crate cites such a law by the function's contract, or the lemmas of its proof.
ghost use Rattle.kk_linpoly.specs.Laws.{
  OneTrimmedForm,
  DegreeIsTheLast,
  NoDegreeIsZero,
  ValuesAreLinear,
  ValueOfComposition,
  CompositionIsARing,
  DegreeOfComposition,
  FewRoots,
  OneVanishing,
};

/// Two lists have the same coefficients, 0 past their ends, exactly where they are equal without the zeros at their ends.
pub fn one_trimmed_form()
    ensures { OneTrimmedForm }
{}

/// The degree is e exactly where coefficient e isn't 0 and all after it are.
pub fn degree_is_the_last()
    ensures { DegreeIsTheLast }
{}

/// The degree is `None` exactly for the zero polynomial.
pub fn no_degree_is_zero()
    ensures { NoDegreeIsZero }
{}

/// The value at a point is linear in the polynomial and additive in the point, and a square has the square of the value.
pub fn values_are_linear()
    ensures { ValuesAreLinear }
{}

/// The value of a composition at x is the value of the first at the value of the second at x.
pub fn value_of_composition()
    ensures { ValueOfComposition }
{}

/// Composition is associative and distributes over sums on both sides, with the one X: the ring of O. Ore, "On a special
/// class of polynomials", 1933. The equations are of coefficients, so lists may differ in zeros at their ends.
pub fn composition_is_a_ring()
    ensures { CompositionIsARing }
{}

/// Over a field the degree of a composition is the sum of the degrees, where neither polynomial is 0.
pub fn degree_of_composition()
    ensures { DegreeOfComposition }
{}

/// Over a field a polynomial of degree e is 0 at e independent points at most.
pub fn few_roots()
    ensures { FewRoots }
{}

/// Over a field one monic polynomial alone has the degree s and is 0 at each of s independent points.
pub fn one_vanishing()
    ensures { OneVanishing }
{}
