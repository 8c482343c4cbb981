//! The rule of the table, and the kinds of step that keep it.
ghost use Rattle.std.specs.Prelude.{ℕ};

use super::{Shape, View};
use atomic_table::{Join, Play, Split, TableRule};
use std::marker::{Brand, PhantomData};

/// The rule of the table.
pub(crate) struct Kept;

impl TableRule<(), View, Shape> for Kept {
    ghost use Rattle.kk_table.specs.Rule.{Holds, founder_first};

    ghost holds = { Holds };

    ghost first = { founder_first };
}

/// The call that a step is made for, and the width of the table. Each step picks its own.
pub(crate) trait Aim {
    ghost use Rattle.kk_machine.specs.declared.call.Call.{Call};

    ghost call: { Call };

    ghost width: { ℕ };
}

impl Aim for Brand {
    ghost use Rattle.kk_machine.specs.declared.call.Call.TheVariants.{Peek};

    ghost call = { Peek 0 };

    ghost width = { 0 };
}

/// A load for the call.
pub(crate) struct Look<A: Aim> {
    aim: PhantomData<A>,
}

impl<A: Aim> Play<(), View> for Look<A> {
    ghost use Rattle.std.specs.Prelude.{◌≡◌, false, []};
    ghost use Rattle.kk_table.specs.Rule.{Tried};

    ghost then = { λ st me found after. Tried A.width false A.call me.0 found after.0 × (after.1 ≡ []) };
}

/// An exchange of 0 for the word that makes the call's change.
pub(crate) struct Change<A: Aim> {
    aim: PhantomData<A>,
}

impl<A: Aim> Play<(), View> for Change<A> {
    ghost use Rattle.std.specs.Prelude.{◌≡◌, true, []};
    ghost use Rattle.kk_table.specs.Rule.{Tried};

    ghost then = { λ st me found after. Tried A.width true A.call me.0 found after.0 × (after.1 ≡ []) };
}

/// The founder gives a pass.
pub(crate) struct Given;

impl Split<View> for Given {
    ghost use Rattle.kk_table.specs.Rule.{founder_after, given_by};

    ghost left = { founder_after };

    ghost right = { given_by };
}

/// The founder takes a pass back.
pub(crate) struct Taken;

impl Join<View> for Taken {
    ghost use Rattle.kk_table.specs.declared.view.View.TheVariants.{Spent};
    ghost use Rattle.kk_table.specs.Rule.{founder_with};

    ghost both = { founder_with };

    ghost spent = { Spent };
}

/// The founder counts: at most as many passes were taken back as were given. A load that changes no view.
pub(crate) struct Count;

impl Play<(), View> for Count {
    ghost use Rattle.std.specs.Prelude.{◌≡◌};
    ghost use Rattle.kk_table.specs.Rule.{IsCounted};

    ghost then = { λ st me found after. (after ≡ me) × IsCounted me.0 };
}
