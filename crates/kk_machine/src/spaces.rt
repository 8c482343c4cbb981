//! The sequential object: what one thread answers.
ghost use Rattle.std.specs.Prelude.{◌≡◌, ◌≤◌, ◌<◌, length, IfOk};
ghost use Rattle.kk_rows.specs.Rows.{numbers};
ghost use Rattle.kk_machine.specs.declared.log.TheConstants.{MAX_WIDTH};
ghost use Rattle.kk_machine.specs.Sights.{seen};
ghost use Rattle.kk_machine.specs.Spaces.{log_in, with_log, new_spaces, generation_of, reply_to, log_after, IsInWidth};
ghost use Rattle.kk_machine.specs.Steps.{IsLog, sight_after};

use super::{Call, Reply, Sight};
use kk_rows::{Alloc, Row};
use std::alloc::Global;
use std::marker::Model;

/// A log for each generation. Alone it is the sequential object, which answers calls in turn. What an actor of the
/// [`crate::World`] has seen is one too: its logs are then prefixes of the real ones.
#[derive(Drop)]
pub struct Spaces {
    width: u32,
    logs: Vec<Sight>,
}

impl Model for Spaces {
    ghost use Rattle.kk_machine.specs.Spaces.{Spaces as SpacesValue};
    ghost use Rattle.kk_machine.specs.Sights.{logs_of, HaveWidth};

    ghost Value = { SpacesValue };

    ghost view = { λ s. record { width = s.width; logs = logs_of s.logs.items } };

    ghost invariant = { λ s. HaveWidth s.width s.logs.items };
}

impl Spaces {
    /// All logs are empty and open. The width is from 1 to 63.
    pub fn new(alloc: Global, generations: u32, width: u32) -> Result<Spaces, Alloc>
        requires some { 1 ≤ width }
        requires fits { width ≤ MAX_WIDTH }
        ensures { IfOk result (λ s. s ≡ new_spaces generations width) }
    {
        let mut logs = Vec::with_capacity(alloc, generations as usize)?;
        for _ in 0..generations {
            logs.push(Sight::new(width))?;
        }
        Ok(Spaces { width, logs })
    }

    /// Answers `call`, whose generation is in range and whose row is below 2^width. No other log changes.
    pub fn apply(&mut self, call: &Call) -> Reply
        requires generation { generation_of call.now < length self.old.logs }
        requires row { IsInWidth self.old.width call.now }
        ensures reply { result ≡ reply_to (log_in self.old (generation_of call.now)) call.now }
        ensures after { self.new ≡ with_log self.old (generation_of call.now) (log_after (log_in self.old (generation_of call.now)) call.now) }
    {
        self.logs[call.generation() as usize].apply(call)
    }

    /// The rows of a generation that is in range, in the order in which they came.
    pub fn log(&self, generation: u32) -> &[Row]
        requires { generation < length self.now.logs }
        ensures { numbers result.now ≡ (log_in self.now generation).rows }
    {
        self.sight(generation).rows()
    }

    /// Whether the log of a generation that is in range is closed.
    pub fn is_closed(&self, generation: u32) -> bool
        requires { generation < length self.now.logs }
        ensures { result ≡ (log_in self.now generation).closed }
    {
        self.sight(generation).is_closed()
    }

    /// The log of a generation that is in range, with the space that its rows span.
    pub fn sight(&self, generation: u32) -> &Sight
        requires { generation < length self.now.logs }
        ensures { result.now ≡ seen self.now.width (log_in self.now generation) }
    {
        &self.logs[generation as usize]
    }

    /// Takes in the word after the rows of a generation that is in range: 0, [`crate::CLOSED`], or a row that goes on
    /// with the log.
    pub fn tell(&mut self, generation: u32, word: u128)
        requires generation { generation < length self.old.logs }
        requires word { IsLog self.old.width (sight_after (log_in self.old generation) word) }
        ensures { self.new ≡ with_log self.old generation (sight_after (log_in self.old generation) word) }
    {
        self.logs[generation as usize].tell(word);
    }
}
