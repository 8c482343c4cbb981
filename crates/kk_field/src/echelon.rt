//! The elimination of the irreducibility test.
ghost use Rattle.std.specs.Prelude.{◌≡◌, ℕ, slice_index, replicate, bit_xor};
ghost use Rattle.std.specs.Bool.{OnTrue, OnFalse};
ghost use Rattle.kk_field.specs.Polynomial.{HasDegree};
ghost use Rattle.kk_field.specs.Echelon.{IsEchelon, InSpan, Inserts};

/// A basis of numbers under exclusive or: entry t is 0, or a number whose highest bit is bit t.
///
/// It is used only inside the irreducibility test, and no public contract names it.
#[derive(Drop)]
pub(crate) struct Echelon {
    pivots: [u64; 64],
    ghost echelon: { IsEchelon pivots },
}

impl Echelon {
    /// No number.
    pub(crate) fn new() -> Self
        ensures { result.pivots ≡ replicate 64 0 }
    {
        Echelon { pivots: [0; 64] }
    }

    /// What is left of `v` when its highest bits are cancelled: 0, or a number whose highest bit no entry has.
    fn reduced(&self, v: u64) -> u64
        ensures sum { InSpan self.now.pivots (bit_xor v result) }
        ensures free { (t : ℕ) → HasDegree result t → slice_index self.now.pivots t ≡ 0 }
    {
        let mut left = v;
        while left != 0 {
            let top = left.ilog2() as usize;
            let pivot = self.pivots[top];
            if pivot == 0 {
                return left;
            }
            left ^= pivot;
        }
        0
    }

    /// Adds `v`, or returns false where it is a sum of the numbers added before.
    pub(crate) fn insert(&mut self, v: u64) -> bool
        ensures added { OnTrue result (Inserts self.old.pivots self.new.pivots v) }
        ensures sum { OnFalse result (InSpan self.old.pivots v) }
        ensures same { OnFalse result (self.new ≡ self.old) }
    {
        let left = self.reduced(v);
        if left == 0 {
            return false;
        }
        let top = left.ilog2() as usize;
        self.pivots[top] = left;
        true
    }
}
