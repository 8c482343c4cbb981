//! Datagrams: 1 to 32 frames, one after another.
ghost use Rattle.std.specs.Prelude.{◌≡◌, ◌<◌, ◌≤◌, ◌↔◌, IsTrue, IsOk, IfOk, Some, length, slice_get};
ghost use Rattle.kk_frame.specs.Datagram.{has_datagram_length, pieces};

use crate::frame::FRAME_BYTES;
use kk_outside::MAX_DATAGRAM_BYTES;
use std::error::Error;
use std::fmt;
use std::marker::Model;

/// The most frames of a datagram.
pub const MAX_DATAGRAM_FRAMES: usize = 32;

// So many frames are the longest datagram that a sender makes.
const _: () = prove!(MAX_DATAGRAM_FRAMES * FRAME_BYTES == MAX_DATAGRAM_BYTES);

/// The length is 0, no multiple of the length of a frame, or that of more than [`MAX_DATAGRAM_FRAMES`] frames.
#[derive(Clone, Copy, Debug, PartialEq, Eq)]
pub struct BadLength;

impl fmt::Display for BadLength {
    ghost use Rattle.std.specs.Prelude.{codes};

    ghost output = { λ _. Some (codes "the datagram isn't 1 to 32 whole frames") };

    fn fmt<W: fmt::Write>(&self, f: &mut fmt::Formatter<W>) -> fmt::Result {
        write!(f, "the datagram isn't 1 to 32 whole frames")
    }
}

impl Error for BadLength {}

/// The pieces of a datagram, each of the length of a frame. A clause sees them as a list.
#[derive(Debug, Drop)]
pub struct Frames<'a> {
    pieces: &'a [[u8; FRAME_BYTES]],
}

impl<'a> Model for Frames<'a> {
    ghost use Rattle.std.specs.Prelude.{ℕ, ◌≤◌, List, length};
    ghost use Rattle.kk_frame.specs.declared.datagram.TheConstants.{MAX_DATAGRAM_FRAMES};

    ghost Value = { List (List ℕ) };

    ghost view = { λ f. f.pieces.now };

    ghost invariant = { λ f. length f.pieces.now ≤ MAX_DATAGRAM_FRAMES };
}

impl<'a> Frames<'a> {
    /// How many there are.
    pub fn len(&self) -> usize
        ensures { result ≡ length self.now }
    {
        self.pieces.len()
    }

    /// Piece number `i`, counted from 0.
    pub fn at(&self, i: usize) -> &[u8; FRAME_BYTES]
        requires { i < length self.now }
        ensures { slice_get self.now i ≡ Some result.now }
    {
        let pieces = self.pieces;
        &pieces[i]
    }
}

/// The pieces that the datagram is cut into.
///
/// # Errors
///
/// [`BadLength`] exactly where its length isn't that of 1 to [`MAX_DATAGRAM_FRAMES`] frames.
pub fn frames_of(datagram: &[u8]) -> Result<Frames<'_>, BadLength>
    ensures length { IsOk result ↔ IsTrue (has_datagram_length FRAME_BYTES datagram.now) }
    ensures pieces { IfOk result (λ frames. frames ≡ pieces FRAME_BYTES datagram.now) }
    ensures few { IfOk result (λ frames. length frames ≤ MAX_DATAGRAM_FRAMES) }
{
    let (pieces, remainder) = datagram.as_chunks::<FRAME_BYTES>();
    if pieces.is_empty() || pieces.len() > MAX_DATAGRAM_FRAMES || !remainder.is_empty() {
        return Err(BadLength);
    }
    Ok(Frames { pieces })
}
