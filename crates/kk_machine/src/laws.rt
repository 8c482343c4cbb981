//! The laws of worlds and of histories. Each function's contract is the law.
ghost use Rattle.kk_machine.specs.Laws.{EveryRunIsLegal, RepliesAreCounted, TimelyRowsAreSpanned, ClosedLastIsInTime, LogsAreFrozenSpaces, FreezesWaitForTheGoal, TalliesAddUp, RepliesAddUp, InsertsAreOfThreeKinds};

/// Whatever moves are made in a new world, each allowed when it comes: the calls that they decide are a legal history;
/// the words of a generation are the rows after this history, then [`crate::CLOSED`] exactly where it is closed, then
/// zeros; the rows are independent; what a live actor has seen is a prefix of them, and all of them where it knows the
/// generation closed; a word that isn't 0 never changes.
pub fn every_run_is_legal()
    ensures { EveryRunIsLegal }
{}

/// In a legal history the innovative replies of a generation are as many as its rows, no two of them have the same
/// rank, and exactly one freeze is told that it froze, once the generation is closed.
pub fn replies_are_counted()
    ensures { RepliesAreCounted }
{}

/// Where no row comes to a generation after a freeze of it, its log spans all rows that came, and no insert is late.
pub fn timely_rows_are_spanned()
    ensures { TimelyRowsAreSpanned }
{}

/// Where one number alone freezes a generation, after all calls of the others, no row comes after a freeze of it.
pub fn closed_last_is_in_time()
    ensures { ClosedLastIsInTime }
{}

/// A log is a frozen space of the rows that came, where no row came after a freeze, or where some insert was told the
/// goal as its rank.
pub fn logs_are_frozen_spaces()
    ensures { LogsAreFrozenSpaces }
{}

/// Who freezes at a goal alone freezes a generation only where an insert of its own was told the goal as its rank.
pub fn freezes_wait_for_the_goal()
    ensures { FreezesWaitForTheGoal }
{}

/// A count over a history is the sum of the counts over the calls of each number.
pub fn tallies_add_up()
    ensures { TalliesAddUp }
{}

/// A count over the replies of a history is the sum of the counts in each generation.
pub fn replies_add_up()
    ensures { RepliesAddUp }
{}

/// Each insert of a legal history is innovative, redundant or late, and no other call is.
pub fn inserts_are_of_three_kinds()
    ensures { InsertsAreOfThreeKinds }
{}
