//! Laws of relays. Each function here does nothing: its contract is the law.
ghost use Rattle.kk_relay.specs.Laws.{RelayedRowsAreSpanned};

/// What is sent for a data frame lies in the span of the rows of its generation that were taken up to it.
pub fn relayed_rows_are_spanned()
    ensures { RelayedRowsAreSpanned }
{}
