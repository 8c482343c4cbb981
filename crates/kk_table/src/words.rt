//! The words of a table: every access to one is made here.
ghost use Rattle.std.specs.Prelude.{◌≡◌, ◌+◌, ◌<◌, ◌≤◌, true, false, [], IfOk};
ghost use Rattle.std.specs.Mem.Slots.{slots_items, slots_len, IsFull};
ghost use Rattle.atomic_table.specs.Table.{Final, Seen};
ghost use Rattle.kk_machine.specs.declared.log.TheConstants.{MAX_WIDTH};
ghost use Rattle.kk_machine.specs.Steps.{stored};
ghost use Rattle.kk_table.specs.Places.{place_of};
ghost use Rattle.kk_table.specs.Rule.{Holds, Tried, founder_first, founder_after, given_by, founder_with, IsCounted};
ghost use Rattle.kk_table.specs.Pass.{IsAimed, known_in, IsPassing};
ghost use Rattle.kk_table.specs.Founder.{IsFounding, MayGive};

use super::rule::{Aim, Change, Count, Given, Kept, Look, Taken};
use super::{Shape, View};
use atomic_table::{Closed, Seat, Table};
use kk_machine::Call;
use kk_rows::Alloc;
use std::alloc::Global;
use std::marker::Brand;

/// The words of a table. Nothing else reaches one, since the field is private to this file.
///
/// Each call but [`Words::new`] and [`Words::close`] is one access, an atomic step of the seat that it is passed, and a pass
/// counts it among what it knows.
#[derive(Drop)]
pub(crate) struct Words {
    table: Table<(), View, Shape, Kept, Global>,
}

impl Words {
    /// The words of a table of this size, all 0, and the seat of its founder.
    pub(crate) fn new(alloc: Global, shape: Shape) -> Result<(Words, Seat<(), View>), Alloc>
        requires fits { shape.width ≤ MAX_WIDTH }
        ensures key { IfOk result (λ w. w.0.table.shared.key ≡ shape) }
        ensures sized { IfOk result (λ w. (w.0.table.shared.table_id.words ≡ place_of shape.width shape.generations 0) × (w.0.table.shared.table_id.slots ≡ 0)) }
        ensures founder { IfOk result (λ w. (w.1.table_id ≡ w.0.table.shared.table_id) × (w.1.me ≡ (founder_first shape, []))) }
    {
        let zeros = vec![in alloc; 0u64; shape.first_word(shape.generations)]?;
        let (table, founder) = Table::of_words(alloc, zeros.as_slice(), &shape)?;
        Ok((Words { table }, founder))
    }

    /// Loads the word for the call. The aim names the call for the proof.
    fn look<A: Aim>(&self, seat: &mut Seat<(), View>, word: usize, call: Call, width: u32) -> u64
        requires aim { (A.call ≡ call) × (A.width ≡ width) }
        requires table { seat.old.table_id ≡ self.now.table.shared.table_id }
        requires aimed { IsAimed self.now.table.shared.key width false call seat.old.me word self.now.table.shared.table_id.words }
        ensures table { (seat.new.table_id ≡ seat.old.table_id) × (seat.new.me.1 ≡ []) }
        ensures tried { Tried width false call seat.old.me.0 result seat.new.me.0 }
        ensures counted { (known_in seat.new.me.0).accesses ≡ (known_in seat.old.me.0).accesses + 1 }
    {
        self.table.shared.load::<Look<A>>(seat, word)
    }

    /// Exchanges the word for `new`, which makes the call's change, if it is 0. The word that it finds. The aim names the
    /// call for the proof.
    fn change<A: Aim>(
        &self,
        seat: &mut Seat<(), View>,
        word: usize,
        new: u64,
        call: Call,
        width: u32,
    ) -> u64
        requires aim { (A.call ≡ call) × (A.width ≡ width) }
        requires table { seat.old.table_id ≡ self.now.table.shared.table_id }
        requires new { new ≡ stored true call }
        requires aimed { IsAimed self.now.table.shared.key width true call seat.old.me word self.now.table.shared.table_id.words }
        ensures table { (seat.new.table_id ≡ seat.old.table_id) × (seat.new.me.1 ≡ []) }
        ensures tried { Tried width true call seat.old.me.0 result seat.new.me.0 }
        ensures counted { (known_in seat.new.me.0).accesses ≡ (known_in seat.old.me.0).accesses + 1 }
    {
        self.table
            .shared
            .compare_exchange::<Change<A>>(seat, word, 0, new)
    }

    /// One step of a pass for the call, an exchange where `changing`, else a load. The word that it finds.
    pub(crate) fn probe(
        &self,
        seat: &mut Seat<(), View>,
        word: usize,
        changing: bool,
        call: Call,
        width: u32,
    ) -> u128
        requires table { seat.old.table_id ≡ self.now.table.shared.table_id }
        requires narrow { width ≤ MAX_WIDTH }
        requires aimed { IsAimed self.now.table.shared.key width changing call seat.old.me word self.now.table.shared.table_id.words }
        ensures table { (seat.new.table_id ≡ seat.old.table_id) × (seat.new.me.1 ≡ []) }
        ensures tried { Tried width changing call seat.old.me.0 result seat.new.me.0 }
        ensures counted { (known_in seat.new.me.0).accesses ≡ (known_in seat.old.me.0).accesses + 1 }
    {
        if changing {
            let new = call.word() as u64;
            u128::from(self.change::<Brand>(seat, word, new, call, width))
        } else {
            u128::from(self.look::<Brand>(seat, word, call, width))
        }
    }

    /// The founder gives a pass, whose seat this is.
    pub(crate) fn give(&self, founder: &mut Seat<(), View>) -> Seat<(), View>
        requires table { (founder.old.table_id ≡ self.now.table.shared.table_id) × (0 < self.now.table.shared.table_id.words) }
        requires founder { MayGive founder.old.me }
        ensures founder { (founder.new.table_id ≡ founder.old.table_id) × (founder.new.me ≡ (founder_after founder.old.me.0, [])) }
        ensures pass { (result.table_id ≡ founder.old.table_id) × (result.me ≡ (given_by founder.old.me.0, [])) }
    {
        self.table.shared.split_seat::<Given>(founder)
    }

    /// The founder takes a pass back. This tells its seat nothing.
    pub(crate) fn take(&self, founder: &mut Seat<(), View>, pass: Seat<(), View>)
        requires table { (founder.old.table_id ≡ self.now.table.shared.table_id) × (pass.table_id ≡ self.now.table.shared.table_id) × (0 < self.now.table.shared.table_id.words) }
        requires founder { IsFounding founder.old.me }
        requires pass { IsPassing pass.me }
        ensures { (founder.new.table_id ≡ founder.old.table_id) × (founder.new.me ≡ (founder_with founder.old.me.0 pass.me.0, [])) }
    {
        self.table.shared.join_seat::<Taken>(founder, pass);
    }

    /// The founder counts: at most as many passes were taken back as were given.
    pub(crate) fn count(&self, founder: &mut Seat<(), View>)
        requires table { (founder.old.table_id ≡ self.now.table.shared.table_id) × (0 < self.now.table.shared.table_id.words) }
        requires founder { IsFounding founder.old.me }
        ensures founder { (founder.new.table_id ≡ founder.old.table_id) × (founder.new.me ≡ founder.old.me) }
        ensures counted { IsCounted founder.old.me.0 }
    {
        self.table.shared.load::<Count>(founder, 0);
    }

    /// The words when no thread shares them any more, as the founder's seat knows them.
    pub(crate) fn close(self, founder: Seat<(), View>) -> Closed<(), Global>
        requires table { founder.table_id ≡ self.table.shared.table_id }
        ensures counts { (slots_len result.words ≡ self.table.shared.table_id.words) × (slots_len result.slots ≡ self.table.shared.table_id.slots) }
        ensures full { IsFull result.words × IsFull result.slots }
        ensures last { Final (Seen (Holds self.table.shared.key) founder.id founder.me.0) (slots_items result.words) (slots_items result.slots) }
    {
        self.table.close_with(founder)
    }
}
