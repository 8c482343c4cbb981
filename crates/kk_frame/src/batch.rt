//! The data frames of one datagram.
ghost use Rattle.std.specs.Prelude.{◌≡◌, ◌<◌, ◌≤◌, [], ◌∷◌, ◌++◌, length};
ghost use Rattle.kk_frame.specs.FrameView.{pairs};

use crate::datagram::MAX_DATAGRAM_FRAMES;
use kk_rows::Row;
use std::marker::Model;

/// Generation and row of at most [`MAX_DATAGRAM_FRAMES`] data frames, in order. A clause sees them as pairs of numbers.
#[derive(Debug, Drop)]
pub struct Batch {
    frames: [(u32, Row); MAX_DATAGRAM_FRAMES],
    len: usize,
}

impl Model for Batch {
    ghost use Rattle.std.specs.Prelude.{ℕ, ◌≤◌, List, take};
    ghost use Rattle.kk_frame.specs.FrameView.{pairs};
    ghost use Rattle.kk_frame.specs.declared.datagram.TheConstants.{MAX_DATAGRAM_FRAMES};

    ghost Value = { List (ℕ × ℕ) };

    ghost view = { λ b. pairs (take b.len b.frames) };

    ghost invariant = { λ b. b.len ≤ MAX_DATAGRAM_FRAMES };
}

impl Batch {
    /// No frames.
    pub(crate) fn new() -> Batch
        ensures { result ≡ [] }
    {
        Batch {
            frames: [(0, Row(0)); MAX_DATAGRAM_FRAMES],
            len: 0,
        }
    }

    /// Appends a frame.
    pub(crate) fn push(&mut self, generation: u32, row: Row)
        requires { length self.old < MAX_DATAGRAM_FRAMES }
        ensures { self.new ≡ self.old ++ (generation, row.0) ∷ [] }
    {
        self.frames[self.len] = (generation, row);
        self.len += 1;
    }

    /// How many frames there are.
    pub(crate) fn len(&self) -> usize
        ensures len { result ≡ length self.now }
        ensures few { result ≤ MAX_DATAGRAM_FRAMES }
    {
        self.as_slice().len()
    }

    /// Generation and row of each frame, in order.
    pub fn as_slice(&self) -> &[(u32, Row)]
        ensures frames { pairs result.now ≡ self.now }
        ensures few { length result.now ≤ MAX_DATAGRAM_FRAMES }
    {
        &self.frames[..self.len]
    }
}
