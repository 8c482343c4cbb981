//! Laws of the definitions in `specs/`, each the contract of a function that does nothing.
//!
//! A proof in another crate cites such a law by the function's contract, or the lemmas of its proof.
ghost use Rattle.kk_field.specs.Laws.{
  RemainderIsUnique,
  ResiduesAreARing,
  FrobeniusIsAdditive,
  FrobeniusIsMultiplicative,
  FrobeniusIsAPower,
  NoZeroDivisors,
  OneInverse,
  FrobeniusIsInjective,
  FrobeniusOfDegree,
  PowerOfOrder,
  IrreducibleIsDecided,
  IrreducibilityCriterion,
};

/// A division by X^m + low leaves one remainder, and `remainder` is it.
pub fn remainder_is_unique()
    ensures { RemainderIsUnique }
{}

/// Residues are a commutative ring: closed, associative, commutative, distributive over sums, with 1.
pub fn residues_are_a_ring()
    ensures { ResiduesAreARing }
{}

/// The Frobenius map of a sum is the sum of the Frobenius maps.
pub fn frobenius_is_additive()
    ensures { FrobeniusIsAdditive }
{}

/// The Frobenius map of a product is the product of the Frobenius maps.
pub fn frobenius_is_multiplicative()
    ensures { FrobeniusIsMultiplicative }
{}

/// The Frobenius map applied i times is the power 2^i.
pub fn frobenius_is_a_power()
    ensures { FrobeniusIsAPower }
{}

/// Modulo an irreducible polynomial a product is 0 only where a factor is.
pub fn no_zero_divisors()
    ensures { NoZeroDivisors }
{}

/// Modulo an irreducible polynomial each residue except 0 has one inverse.
pub fn one_inverse()
    ensures { OneInverse }
{}

/// Modulo an irreducible polynomial the Frobenius map is injective; applied once it is squaring.
pub fn frobenius_is_injective()
    ensures { FrobeniusIsInjective }
{}

/// Modulo an irreducible polynomial of degree m, a^(2^m) is a.
pub fn frobenius_of_degree()
    ensures { FrobeniusOfDegree }
{}

/// Fermat's theorem: modulo an irreducible polynomial of degree m, a^(2^m - 1) is 1 for each a except 0.
pub fn power_of_order()
    ensures { PowerOfOrder }
{}

/// `irreducible`, which tries all products, is true exactly where a polynomial is irreducible.
pub fn irreducible_is_decided()
    ensures { IrreducibleIsDecided }
{}

/// What tells an irreducible modulus: X^(2^m) is X, and only 0 and 1 are their own squares.
pub fn irreducibility_criterion()
    ensures { IrreducibilityCriterion }
{}
