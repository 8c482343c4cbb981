//! Laws of operator channels, each the contract of a function that does nothing.
ghost use Rattle.kk_channel.specs.Laws.{MixedRowsAreABasis, LossIsExact};

/// The mixed rows of a codeword are independent, and span what its rows span.
pub fn mixed_rows_are_a_basis()
    ensures { MixedRowsAreABasis }
{}

/// Of a codeword that passes through a channel exactly `erase` dimensions are erased, and exactly `inject` are injected. The rows
/// that come out are independent.
pub fn loss_is_exact()
    ensures { LossIsExact }
{}
