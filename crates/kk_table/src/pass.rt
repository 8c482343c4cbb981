//! A thread's way into a table.
ghost use Rattle.std.specs.Prelude.{◌≡◌, ℕ, ◌<◌};
ghost use Rattle.kk_rows.specs.Rows.{numbers};
ghost use Rattle.kk_rows.specs.Span.{in_span};
ghost use Rattle.kk_machine.specs.Steps.{IsLog};
ghost use Rattle.kk_table.specs.Rule.{sight};

use super::{Shape, View};
use atomic_table::Seat;
use kk_machine::Sight;
use kk_rows::{Row, RowSpace};
use std::boxed::BoxedSlice;
use std::marker::Model;

/// A thread's way into a table: the calls of [`crate::GenTable`] are made through one.
///
/// It keeps what it has seen of each generation, so that a call reads on from there. Clauses see its table, its number
/// and its note, all its calls with their replies, what it has seen, and how many accesses to words it has made.
#[derive(Drop)]
pub struct Pass {
    pub(crate) seat: Seat<(), View>,
    pub(crate) shape: Shape,
    pub(crate) number: u32,
    pub(crate) seen: BoxedSlice<Sight>,
}

impl Model for Pass {
    ghost use Rattle.std.specs.Box.{boxed_slice_items};
    ghost use Rattle.kk_table.specs.Pass.{PassView, known_in, IsPass};

    ghost Value = { PassView };

    ghost view = { λ p. record { table = record { id = p.seat.table_id; shape = p.shape }; known = known_in p.seat.me.0 } };

    ghost invariant = { λ p. IsPass p.shape p.number p.seat.me (boxed_slice_items p.seen) };
}

impl Pass {
    /// Its number: the passes of a table are numbered 1, 2, .. in the order in which they were given.
    pub fn number(&self) -> u32
        ensures { result ≡ self.now.known.number }
    {
        self.number
    }

    /// The rows that it has seen of the generation, in the order of the log. They are independent.
    pub fn rows_seen(&self, generation: u32) -> &[Row]
        requires { generation < self.now.table.shape.generations }
        ensures rows { numbers result.now ≡ (sight self.now.known generation).rows }
        ensures log { IsLog self.now.table.shape.width (sight self.now.known generation) }
    {
        self.seen[generation as usize].rows()
    }

    /// The span of the rows that it has seen of the generation. It has grown with them, and isn't made anew.
    pub fn space(&self, generation: u32) -> &RowSpace
        requires { generation < self.now.table.shape.generations }
        ensures width { result.now.width ≡ self.now.table.shape.width }
        ensures span { (x : ℕ) → in_span result.now.rows x ≡ in_span (sight self.now.known generation).rows x }
    {
        self.seen[generation as usize].space()
    }

    /// Whether it knows that the log of the generation is closed.
    pub fn known_closed(&self, generation: u32) -> bool
        requires { generation < self.now.table.shape.generations }
        ensures { result ≡ (sight self.now.known generation).closed }
    {
        self.seen[generation as usize].is_closed()
    }
}
