//! A generator whose words are known.
ghost use Rattle.std.specs.Prelude.{drop, slice_index};
ghost use Rattle.rand_core.specs.Steps.{stream_of, steps_u64_low};

use rand_core::utils::NextWord;
use rand_core::{Rng, utils};
use std::marker::Model;

/// A generator of these words, and then of zeros. A clause sees those that are left.
#[derive(Drop)]
pub struct Words {
    words: [u64; 11],
    at: usize,
}

impl Model for Words {
    ghost use Rattle.std.specs.Prelude.{ℕ, List, drop};

    ghost Value = { List ℕ };

    ghost view = { λ w. drop w.at w.words };
}

impl NextWord<u64> for Words {
    ghost step = { λ words. (slice_index words 0, drop 1 words) };

    fn next_word(&mut self) -> u64 {
        match self.words.get(self.at) {
            Some(&word) => {
                self.at += 1;
                word
            }
            None => 0,
        }
    }
}

impl Rng for Words {
    ghost stream = { stream_of (steps_u64_low (λ words. (slice_index words 0, drop 1 words))) };

    fn next_u32(&mut self) -> u32 {
        (self.next_word() % (1 << 32)) as u32
    }

    fn next_u64(&mut self) -> u64 {
        self.next_word()
    }

    fn fill_bytes(&mut self, dst: &mut [u8]) {
        utils::fill_bytes_via_u64(self, dst)
    }
}

impl Words {
    /// These words, from the first on.
    pub fn new(words: [u64; 11]) -> Words {
        Words { words, at: 0 }
    }
}
