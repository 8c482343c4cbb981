//! The faults of an object in memory.
ghost use Rattle.std.specs.Prelude.{◌≡◌, ◌↔◌, Contains, IsErr, OnOk, OnErr};
ghost use Rattle.kk_outside.specs.Causes.{one_more};

use crate::Failed;

/// Which calls of an object in memory are to fail, by their numbers, and how many calls and faults there were.
#[derive(Drop)]
pub(crate) struct FaultPlan {
    pub(crate) fails: Vec<u64>,
    pub(crate) calls: u64,
    pub(crate) faults: u64,
}

impl FaultPlan {
    /// A plan before any call, by which the calls with these numbers fail.
    pub(crate) fn new(fails: Vec<u64>) -> FaultPlan
        ensures fails { result.fails ≡ fails }
        ensures calls { result.calls ≡ 0 }
        ensures faults { result.faults ≡ 0 }
    {
        FaultPlan {
            fails,
            calls: 0,
            faults: 0,
        }
    }

    /// Counts a call, which fails if its number is in the plan.
    pub(crate) fn call(&mut self) -> Result<(), Failed>
        ensures fails { IsErr result ↔ Contains self.old.fails.items self.old.calls }
        ensures ok { OnOk result (self.new ≡ record self.old { calls = one_more self.old.calls }) }
        ensures err { OnErr result (self.new ≡ record self.old {
          calls = one_more self.old.calls;
          faults = one_more self.old.faults;
        }) }
    {
        let number = self.calls;
        self.calls = number.saturating_add(1);
        if self.fails.contains(&number) {
            return Err(self.fault());
        }
        Ok(())
    }

    /// Counts a fault.
    pub(crate) fn fault(&mut self) -> Failed
        ensures { self.new ≡ record self.old { faults = one_more self.old.faults } }
    {
        self.faults = self.faults.saturating_add(1);
        Failed
    }
}
