//! A queue of bits that is kept as one number.
ghost use Rattle.std.specs.Prelude.{◌≡◌, ◌+◌, ◌<◌, ◌≤◌, ◌^◌, [], ◌++◌, length};
ghost use Rattle.kk_assemble.specs.Bits.{bits_of};

use std::marker::Model;

/// Fewer than 128 bits, in the order in which they were put in. A clause sees them as a list.
#[derive(Drop)]
pub(crate) struct BitQueue {
    bits: u128,
    len: u32,
}

impl Model for BitQueue {
    ghost use Rattle.std.specs.Prelude.{ℕ, ◌<◌, ◌^◌, List};
    ghost use Rattle.kk_assemble.specs.Bits.{bits_of};

    ghost Value = { List ℕ };

    ghost view = { λ q. bits_of q.len q.bits };

    ghost invariant = { λ q. (q.bits < 2 ^ q.len) × (q.len < 128) };
}

impl BitQueue {
    /// A queue with no bits.
    pub(crate) fn new() -> Self
        ensures { result ≡ [] }
    {
        BitQueue { bits: 0, len: 0 }
    }

    /// How many bits there are.
    pub(crate) fn len(&self) -> u32
        ensures count { result ≡ length self.now }
        ensures few { result < 128 }
    {
        self.len
    }

    /// Puts the `n` bits of a number in, the most significant first.
    pub(crate) fn push(&mut self, number: u64, n: u32)
        requires room { length self.old + n < 128 }
        requires below { number < 2 ^ n }
        ensures { self.new ≡ self.old ++ bits_of n number }
    {
        self.bits = (self.bits << n) + u128::from(number);
        self.len += n;
    }

    /// Takes the first `n` bits out, as a number.
    pub(crate) fn take(&mut self, n: u32) -> u64
        requires enough { n ≤ length self.old }
        requires fits { n ≤ 64 }
        ensures below { result < 2 ^ n }
        ensures bits { self.old ≡ bits_of n result ++ self.new }
    {
        self.len -= n;
        let taken = (self.bits >> self.len) as u64;
        self.bits %= 1 << self.len;
        taken
    }
}
