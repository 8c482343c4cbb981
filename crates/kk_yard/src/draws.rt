//! Numbers that look drawn, the same in each run.
ghost use Rattle.std.specs.Prelude.{◌≡◌, ◌^◌, ◌<◌, ◌≤◌};
ghost use Rattle.kk_linpoly.specs.LinPoly.{IsOver};

/// A sequence of numbers: the upper bits of the linear congruential generator of D. E. Knuth's MMIX.
#[derive(Drop)]
pub(crate) struct Draws {
    state: u64,
}

impl Draws {
    /// The sequence from its start.
    pub(crate) fn new() -> Draws {
        Draws { state: 1 }
    }

    /// The next number of 64 bits.
    fn next(&mut self) -> u64 {
        self.state = self
            .state
            .wrapping_mul(6_364_136_223_846_793_005)
            .wrapping_add(1_442_695_040_888_963_407);
        self.state
    }

    /// The next number, of so many bits.
    pub(crate) fn bits(&mut self, n: u32) -> u64
        requires some { 1 ≤ n }
        requires fits { n ≤ 64 }
        ensures { result < 2 ^ n }
    {
        self.next() >> (64 - n)
    }

    /// The next 16 elements of GF(2^31).
    pub(crate) fn symbols(&mut self) -> [u64; 16]
        ensures { IsOver 31 result }
    {
        let mut symbols = [0; 16];
        for i in 0..16 {
            symbols[i] = self.bits(31);
        }
        symbols
    }
}

/// The sum with one number more, which has its place.
pub(crate) fn mixed(sum: u64, number: u64) -> u64 {
    sum.wrapping_mul(31).wrapping_add(number)
}

/// The same with several, one after the other.
pub(crate) fn mixed_all(sum: u64, numbers: &[u64]) -> u64 {
    let mut mix = sum;
    for number in numbers {
        mix = mixed(mix, *number);
    }
    mix
}
