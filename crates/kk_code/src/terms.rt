//! The values of a message's polynomial at the evaluation points, one after another.
ghost use Rattle.std.specs.Prelude.{◌≡◌, ℕ, List, ◌+◌, ◌^◌, ◌<◌, ◌≤◌, length};
ghost use Rattle.kk_code.specs.Codeword.{IsInRange, IsMessage, Parameters};
ghost use Rattle.kk_code.specs.Encoder.{AreElements, AreValuesFrom, value_at};
ghost use Rattle.kk_code.specs.declared.code.TheConstants.{MAX_POINTS};

use crate::code::mask;
use crate::encoder::Encoder;
use crate::{MAX_POINTS, Message};

/// The next values of a message's polynomial, `left` of them in a word, and the terms at the point of the last of these.
#[derive(Drop)]
pub(crate) struct Terms {
    at_last: [u64; MAX_POINTS],
    word: u64,
    left: u32,
}

impl Terms {
    /// The values of a message's polynomial, from that at 1 on.
    pub(crate) fn of(u: &Message) -> Terms
        requires { length u.now ≤ MAX_POINTS }
        ensures { (p : Parameters) → IsInRange p → IsMessage p u.now → AreElements p result.at_last × AreValuesFrom p u.now 0 result }
    {
        let symbols = u.symbols();
        let mut at_last = [0; MAX_POINTS];
        let mut word = 0;
        for j in 0..symbols.len() {
            at_last[j] = symbols[j];
            word ^= symbols[j];
        }
        Terms {
            at_last,
            word,
            left: 1,
        }
    }

    /// Takes the next value.
    pub(crate) fn next(&mut self, encoder: &Encoder) -> u64
        requires { AreElements encoder.now self.old.at_last }
        ensures below { result < 2 ^ encoder.now.field.degree }
        ensures elements { AreElements encoder.now self.new.at_last }
        ensures value { (u : List ℕ) (i : ℕ) → AreValuesFrom encoder.now u i self.old → result ≡ value_at encoder.now u i }
        ensures after { (u : List ℕ) (i : ℕ) → AreValuesFrom encoder.now u i self.old → AreValuesFrom encoder.now u (i + 1) self.new }
    {
        let (_, m) = encoder.layout();
        self.refill(encoder);
        let value = self.word & mask(m);
        // in two steps, since m can be all bits of the word
        self.word = (self.word >> (m - 1)) >> 1;
        self.left -= 1;
        value
    }

    /// Makes further values where none is left.
    fn refill(&mut self, encoder: &Encoder)
        requires { AreElements encoder.now self.old.at_last }
        ensures some { 1 ≤ self.new.left }
        ensures elements { AreElements encoder.now self.new.at_last }
        ensures same { (u : List ℕ) (i : ℕ) → AreValuesFrom encoder.now u i self.old → AreValuesFrom encoder.now u i self.new }
    {
        if self.left == 0 {
            let (per_word, _) = encoder.layout();
            self.word = encoder.advance(&mut self.at_last);
            self.left = per_word;
        }
    }
}
