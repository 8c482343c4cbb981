//! The storages that a founder has reserved.
ghost use Rattle.std.specs.Prelude.{◌≡◌, ◌∷◌, ◌++◌, [], length, MatchOption, OnOk, OnErr};
ghost use Rattle.std.specs.Box.{boxed_slice_items};

use kk_machine::Sight;
use kk_rows::Alloc;
use std::alloc::Global;
use std::boxed::BoxedSlice;
use std::marker::Model;
use std::mem;

/// Storages for passes that are still to be given, in the order in which they were reserved.
///
/// They lie in the first slots. Nothing here grows or lends an allocator behind a `&mut`, so whoever takes a storage takes no
/// memory by it.
#[derive(Drop)]
pub(crate) struct Spares {
    slots: BoxedSlice<Option<BoxedSlice<Sight>>>,
    count: usize,
}

impl Model for Spares {
    ghost use Rattle.std.specs.Prelude.{List};
    ghost use Rattle.std.specs.Box.{boxed_slice_items};
    ghost use Rattle.kk_machine.specs.Sights.{Seen};
    ghost use Rattle.kk_table.specs.Spares.{storages_in, AreSpares};

    ghost Value = { List (List Seen) };

    ghost view = { λ s. storages_in s.count (boxed_slice_items s.slots) };

    ghost invariant = { λ s. AreSpares s.count (boxed_slice_items s.slots) };
}

impl Spares {
    /// No storage.
    pub(crate) fn new(alloc: Global) -> Spares
        ensures { result ≡ [] }
    {
        Spares {
            slots: Vec::new(alloc).into_boxed_slice(),
            count: 0,
        }
    }

    /// How many storages there are.
    pub(crate) fn len(&self) -> usize
        ensures { result ≡ length self.now }
    {
        self.count
    }

    /// Adds a storage as the last. After [`Alloc`] the others are as before.
    pub(crate) fn add(&mut self, alloc: Global, storage: BoxedSlice<Sight>) -> Result<(), Alloc>
        ensures ok { OnOk result (self.new ≡ self.old ++ boxed_slice_items storage ∷ []) }
        ensures err { OnErr result (self.new ≡ self.old) }
    {
        let none = Vec::new(alloc).into_boxed_slice();
        let mut slots = mem::replace(&mut self.slots, none).into_vec();
        slots.truncate(self.count);
        let added = slots.push(Some(storage));
        self.count = slots.len();
        self.slots = slots.into_boxed_slice();
        added?;
        Ok(())
    }

    /// Takes the last storage.
    pub(crate) fn take(&mut self) -> Option<BoxedSlice<Sight>>
        ensures { MatchOption result ((self.old ≡ []) × (self.new ≡ [])) (λ storage. self.old ≡ self.new ++ boxed_slice_items storage ∷ []) }
    {
        if self.count == 0 {
            return None;
        }
        self.count -= 1;
        self.slots[self.count].take()
    }
}
