//! What clauses see of a table: its shape, and what its seats know.
ghost use Rattle.std.specs.Prelude.{◌≡◌};
ghost use Rattle.kk_table.specs.Places.{place_of};

use kk_machine::{Entry, Log};
use std::collections::LinkedList;

/// The size of a table.
#[derive(Clone, Copy)]
pub struct Shape {
    /// How many generations there are. They are numbered from 0.
    pub generations: u32,
    /// The rows are below 2^width.
    pub width: u32,
}

impl Shape {
    /// The place of the generation's first word. Where the generation is their number, how many words there are.
    pub(crate) fn first_word(self, generation: u32) -> usize
        ensures { result ≡ place_of self.width generation 0 }
    {
        1 + generation as usize * (self.width as usize + 1)
    }
}

/// What a pass knows. Clauses speak of it, and no value of it is made.
pub struct Known {
    /// The number of the pass.
    pub number: u32,
    /// The numbers of the passes that had been taken back when it was given.
    pub note: LinkedList<u32>,
    /// Its calls with their replies, in order.
    pub calls: LinkedList<Entry>,
    /// What it has seen of each generation.
    pub seen: LinkedList<Log>,
    /// How many loads and exchanges of words it has made.
    pub accesses: u64,
}

/// What a seat at the table knows. Clauses speak of it, and no value of it is made.
pub enum View {
    /// The founder: how many generations there are, how many passes were given, and what those knew that were taken back.
    Founder(u32, u32, LinkedList<Known>),
    /// A pass that is out.
    Pass(Known),
    /// A pass that was taken back.
    Spent,
}
