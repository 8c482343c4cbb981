//! Who gives the passes of a table, and takes them back.
ghost use Rattle.std.specs.Prelude.{◌≡◌, ◌+◌, ◌-◌, ◌<◌, ◌≤◌, ◌↔◌, length, Err, IfOk, OnOk, OnErr};
ghost use Rattle.std.specs.Box.{boxed_slice_items};
ghost use Rattle.kk_machine.specs.declared.log.TheConstants.{MAX_WIDTH};
ghost use Rattle.kk_table.specs.Rule.{newcomer};
ghost use Rattle.kk_table.specs.Founder.{IsSpare, founder_reserved, founder_gave, founder_took};

use super::spares::Spares;
use super::{GenTable, NoPass, Pass, Shape, View};
use atomic_table::Seat;
use kk_machine::Sight;
use kk_rows::Alloc;
use std::alloc::Global;
use std::boxed::BoxedSlice;
use std::marker::Model;

/// Who gives the passes of a table, and takes them back.
///
/// Clauses see its table, how many passes it may give and has given, for how many storage is reserved, and the records
/// of the passes that were taken back: all that each of them knew.
#[derive(Drop)]
pub struct Founder {
    pub(crate) seat: Seat<(), View>,
    pub(crate) shape: Shape,
    pub(crate) passes: u32,
    pub(crate) given: u32,
    pub(crate) taken: u32,
    pub(crate) spare: Spares,
}

impl Model for Founder {
    ghost use Rattle.std.specs.Prelude.{length};
    ghost use Rattle.kk_table.specs.Founder.{FounderView, records_in, IsFounder};

    ghost Value = { FounderView };

    ghost view = { λ f. record { table = record { id = f.seat.table_id; shape = f.shape }; passes = f.passes; given = f.given; records = records_in f.seat.me.0; spare = length f.spare } };

    ghost invariant = { λ f. IsFounder f.shape f.seat.me f.passes f.given f.taken f.spare };
}

/// The storage of a pass that has seen nothing.
pub(crate) fn storage(alloc: Global, shape: Shape) -> Result<BoxedSlice<Sight>, Alloc>
    requires width { (0 < shape.width) × (shape.width ≤ MAX_WIDTH) }
    ensures { IfOk result (λ s. IsSpare shape (boxed_slice_items s)) }
{
    let mut seen = Vec::with_capacity(alloc, shape.generations as usize)?;
    for _ in 0..shape.generations {
        seen.push(Sight::new(shape.width))?;
    }
    Ok(seen.into_boxed_slice())
}

impl Founder {
    /// How many passes are out: given, and not taken back.
    pub fn out(&self) -> u32
        ensures { result + length self.now.records ≡ self.now.given }
    {
        self.given - self.taken
    }

    /// Reserves the storage of one more pass.
    pub fn reserve(&mut self, alloc: Global, table: &GenTable) -> Result<(), Alloc>
        requires table { self.old.table ≡ table.now }
        ensures ok { OnOk result (self.new ≡ founder_reserved self.old) }
        ensures err { OnErr result (self.new ≡ self.old) }
    {
        let storage = storage(alloc, table.shape())?;
        self.spare.add(alloc, storage)
    }

    /// Gives a pass, with a storage that is reserved where there is one, and else with a new one.
    ///
    /// # Errors
    ///
    /// [`NoPass::AllGiven`] where all passes were given that the table was made for, whether or not some were taken
    /// back. [`NoPass::Alloc`] only where no storage is reserved; no number is used up then.
    pub fn pass(&mut self, alloc: Global, table: &GenTable) -> Result<Pass, NoPass>
        requires table { self.old.table ≡ table.now }
        ensures pass { IfOk result (λ p. (p.table ≡ table.now) × (p.known ≡ newcomer table.now.shape.generations self.old.given self.old.records)) }
        ensures founder { OnOk result (self.new ≡ founder_gave self.old) }
        ensures all_given { (result ≡ Err NoPass.AllGiven) ↔ (self.old.given ≡ self.old.passes) }
        ensures alloc { result ≡ Err NoPass.Alloc → self.old.spare ≡ 0 }
        ensures err { OnErr result (self.new ≡ self.old) }
    {
        if self.given < self.passes
            && self.spare.len() == 0
            && self.reserve(alloc, table).is_err()
        {
            return Err(NoPass::Alloc);
        }
        self.pass_reserved(table)
    }

    /// Gives a pass with a storage that is reserved. It takes no memory: nothing in its reach gives any.
    ///
    /// # Errors
    ///
    /// [`NoPass::AllGiven`] as [`Founder::pass`], and else [`NoPass::Alloc`] exactly where no storage is reserved. No
    /// number is used up then.
    pub fn pass_reserved(&mut self, table: &GenTable) -> Result<Pass, NoPass>
        requires table { self.old.table ≡ table.now }
        ensures pass { IfOk result (λ p. (p.table ≡ table.now) × (p.known ≡ newcomer table.now.shape.generations self.old.given self.old.records)) }
        ensures founder { OnOk result (self.new ≡ founder_gave self.old) }
        ensures all_given { (result ≡ Err NoPass.AllGiven) ↔ (self.old.given ≡ self.old.passes) }
        ensures unreserved { (result ≡ Err NoPass.Alloc) ↔ ((self.old.given < self.old.passes) × (self.old.spare ≡ 0)) }
        ensures err { OnErr result (self.new ≡ self.old) }
    {
        if self.given == self.passes {
            return Err(NoPass::AllGiven);
        }
        let Some(seen) = self.spare.take() else {
            return Err(NoPass::Alloc);
        };
        let seat = table.words().give(&mut self.seat);
        self.given += 1;
        Ok(Pass {
            seat,
            shape: self.shape,
            number: self.given,
            seen,
        })
    }

    /// Takes a pass back, and keeps the record of it.
    pub fn take_back(&mut self, table: &GenTable, pass: Pass)
        requires table { self.old.table ≡ table.now }
        requires pass { pass.table ≡ table.now }
        ensures { self.new ≡ founder_took self.old pass.known }
    {
        let Pass { seat, .. } = pass;
        let words = table.words();
        words.take(&mut self.seat, seat);
        // What this tells is what the count of passes that are out rests on.
        words.count(&mut self.seat);
        self.taken += 1;
    }
}
