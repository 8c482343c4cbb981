//! Laws of the definitions in `specs/`, each the contract of a function that does nothing.
ghost use Rattle.kk_ore.specs.Laws.{LeftQuotientIsUnique, RightQuotientIsUnique};

/// Over a field, a division on the left by b, which isn't zero, has one quotient and one remainder.
pub fn left_quotient_is_unique()
    ensures { LeftQuotientIsUnique }
{}

/// Over a field, a division on the right by b, which isn't zero, has one quotient and one remainder.
pub fn right_quotient_is_unique()
    ensures { RightQuotientIsUnique }
{}
