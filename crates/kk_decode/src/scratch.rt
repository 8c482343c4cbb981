//! The storage that a receiver keeps from one decoding to the next.
ghost use Rattle.std.specs.Prelude.{◌≡◌, ◌+◌, ◌*◌, ◌≤◌, Some};

use crate::fixed_map::FixedMap;
use kk_code::Code;
use kk_field::{Field, Ring, Steps};
use kk_tables::FieldTables;
use std::sync::ledger::Ledger;

/// The tables of the code's field and the fixed map of the code, made once for many generations: 128 KB.
///
/// It serves codes of any parameters one after another, and its content never changes an answer.
#[derive(Drop)]
pub struct Scratch {
    pub(crate) tables: FieldTables,
    pub(crate) map: FixedMap,
}

impl Scratch {
    /// The tables of the smallest field of a code, GF(4), and no map, until a decoding needs others.
    pub fn new() -> Scratch {
        Scratch {
            tables: FieldTables::new(Field::of(Ring::new(2, 3))),
            map: FixedMap::none(),
        }
    }

    /// Makes the tables of the code's field and the code's map, in place, where they are those of another one. What is of the
    /// code already stays as it is.
    pub(crate) fn renew<L: Ledger>(&mut self, code: &Code, steps: &mut Steps<L>)
        ensures tables { self.new.tables ≡ code.now.field }
        ensures map { self.new.map.code ≡ Some code.now }
        ensures kept { self.old.map.code ≡ Some code.now → self.new.map ≡ self.old.map }
        ensures free { self.old.map.code ≡ Some code.now → steps.new ≡ steps.old }
        ensures cost { steps.new ≤ steps.old + (code.now.k + code.now.k * (4 * code.now.k + 2 * code.now.field.degree + 1)
            + code.now.l * (code.now.k * (code.now.k + 1))) }
    {
        if self.tables.field() != code.field() {
            self.tables.renew(code.field());
        }
        self.map.renew(code, &self.tables, steps);
    }
}
