//! How the inserts of a run were answered.
ghost use Rattle.std.specs.Prelude.{◌≡◌, ◌+◌, ◌^◌, ◌≤◌};
ghost use Rattle.kk_workers.specs.Totals.{no_totals, counted, both, AreWithin};

use kk_table::Inserted;

/// How many inserts there were, and how many of them were answered in each way.
#[derive(Clone, Copy, Debug, PartialEq, Eq)]
pub struct Totals {
    /// All of them.
    pub inserts: u64,
    /// Those that raised the rank of a generation.
    pub innovative: u64,
    /// Those whose row was in the span of its generation's rows.
    pub redundant: u64,
    /// Those that came after their generation was closed.
    pub late: u64,
}

impl Totals {
    /// No insert.
    pub(crate) fn new() -> Totals
        ensures { result ≡ no_totals }
    {
        Totals {
            inserts: 0,
            innovative: 0,
            redundant: 0,
            late: 0,
        }
    }

    /// Counts the answer to one insert more.
    pub(crate) fn count(&mut self, answer: Inserted)
        requires few { self.old.inserts ≤ 2 ^ 40 }
        requires within { AreWithin self.old }
        ensures counted { self.new ≡ counted answer self.old }
        ensures within { AreWithin self.new }
    {
        self.inserts += 1;
        match answer {
            Inserted::Innovative { .. } => self.innovative += 1,
            Inserted::Redundant => self.redundant += 1,
            Inserted::Late => self.late += 1,
        }
    }

    /// Counts all inserts that these totals count.
    pub(crate) fn add(&mut self, more: &Totals)
        requires few { self.old.inserts ≤ 2 ^ 60 }
        requires few_more { more.now.inserts ≤ 2 ^ 60 }
        requires within { AreWithin self.old }
        requires more_within { AreWithin more.now }
        ensures sum { self.new ≡ both self.old more.now }
        ensures within { AreWithin self.new }
    {
        self.inserts += more.inserts;
        self.innovative += more.innovative;
        self.redundant += more.redundant;
        self.late += more.late;
    }
}
