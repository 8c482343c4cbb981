//! What a finished table leaves.
ghost use Rattle.std.specs.Prelude.{◌≡◌, ◌+◌, ◌<◌, ◌↔◌, length, IfOk, IfErr, IsErr};
ghost use Rattle.std.specs.Mem.Slots.{slots_items, IsFull};
ghost use Rattle.kk_rows.specs.Rows.{numbers};
ghost use Rattle.kk_machine.specs.declared.log.Log.{Log};
ghost use Rattle.kk_machine.specs.Spaces.{unseen};
ghost use Rattle.kk_machine.specs.Steps.{IsLog};
ghost use Rattle.kk_table.specs.Logs.{Shows, IsLogs, log_at};

use super::{Founder, GenTable, Shape};
use atomic_table::Closed;
use kk_machine::{CLOSED, Sight};
use kk_rows::Row;
use std::alloc::Global;
use std::boxed::BoxedSlice;
use std::marker::Model;
use std::snapshot::Snapshot;

/// The logs of a finished table. Only [`GenTable::finish`] makes one.
///
/// Clauses see beside them the records of the table's passes. That one legal history has the calls of these and leaves
/// these logs is an invariant of the type, which [`Logs::history`] opens.
#[derive(Drop)]
pub struct Logs {
    shape: Shape,
    logs: BoxedSlice<Sight>,
    founder: Snapshot<Founder>,
}

impl Model for Logs {
    ghost use Rattle.std.specs.Box.{boxed_slice_items};
    ghost use Rattle.kk_machine.specs.Sights.{logs_of};
    ghost use Rattle.kk_table.specs.Logs.{LogsView, IsLogs};

    ghost Value = { LogsView };

    ghost view = { λ l. record { shape = l.shape; records = l.founder.value.records; logs = logs_of (boxed_slice_items l.logs) } };

    ghost invariant = { λ l. IsLogs l.shape l.founder.value.records (logs_of (boxed_slice_items l.logs)) };
}

/// Some passes weren't taken back, so the table isn't finished.
#[derive(Drop)]
pub struct Held {
    /// The table, as it was.
    pub table: GenTable,
    /// Its founder, as it was.
    pub founder: Founder,
    /// How many passes are out.
    pub out: u32,
}

/// Reads the log of the generation off the words of a closed table, into storage in which nothing is seen.
fn read_log(closed: &Closed<(), Global>, shape: Shape, generation: u32, sight: &mut Sight)
    requires words { IsFull closed.now.words }
    requires shows { (l : Log) × Shows shape (slots_items closed.now.words) generation l }
    requires fresh { (sight.old.log ≡ unseen) × (sight.old.width ≡ shape.width) }
    ensures width { sight.new.width ≡ shape.width }
    ensures log { (l : Log) → Shows shape (slots_items closed.now.words) generation l → sight.new.log ≡ l }
{
    let start = shape.first_word(generation);
    loop {
        let word = u128::from(closed.word(start + sight.len() as usize));
        sight.tell(word);
        if word == 0 || word == CLOSED {
            return;
        }
    }
}

impl Logs {
    /// One legal history has the calls of the records, each record's in its order, and leaves these logs.
    pub fn history(&self)
        ensures { IsLogs self.now.shape self.now.records self.now.logs }
    {
        let _ = &self.logs;
    }

    /// How many generations there are. They are numbered from 0.
    pub fn generations(&self) -> u32
        ensures { result ≡ self.now.shape.generations }
    {
        self.shape.generations
    }

    /// The rows of the generation, in the order in which they were added. They are independent.
    pub fn rows(&self, generation: u32) -> &[Row]
        requires { generation < self.now.shape.generations }
        ensures rows { numbers result.now ≡ (log_at self.now.logs generation).rows }
        ensures log { IsLog self.now.shape.width (log_at self.now.logs generation) }
    {
        self.logs[generation as usize].rows()
    }

    /// Whether the log of the generation was closed.
    pub fn is_closed(&self, generation: u32) -> bool
        requires { generation < self.now.shape.generations }
        ensures { result ≡ (log_at self.now.logs generation).closed }
    {
        self.logs[generation as usize].is_closed()
    }
}

impl GenTable {
    /// Ends the table, where all its passes were taken back. It takes no memory.
    ///
    /// # Errors
    ///
    /// [`Held`] exactly where some pass is out. It hands table and founder back.
    pub fn finish(self, founder: Founder) -> Result<Logs, Held>
        requires founder { founder.table ≡ self }
        ensures logs { IfOk result (λ l. (l.shape ≡ self.shape) × (l.records ≡ founder.records)) }
        ensures held { IfErr result (λ h. (h.table ≡ self) × (h.founder ≡ founder) × (h.out + length founder.records ≡ founder.given)) }
        ensures held_if_out { IsErr result ↔ (length founder.records < founder.given) }
    {
        let out = founder.out();
        if out > 0 {
            return Err(Held {
                table: self,
                founder,
                out,
            });
        }
        let kept = Snapshot::of(&founder);
        let GenTable {
            words,
            shape,
            mut logs,
        } = self;
        let Founder { seat, .. } = founder;
        let closed = words.close(seat);
        for generation in 0..shape.generations {
            read_log(&closed, shape, generation, &mut logs[generation as usize]);
        }
        closed.free();
        Ok(Logs {
            shape,
            logs,
            founder: kept,
        })
    }
}
