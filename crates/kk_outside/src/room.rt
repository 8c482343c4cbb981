//! Room for bytes.
ghost use Rattle.std.specs.Prelude.{◌≡◌, IfOk, length, replicate, vec_len};
ghost use Rattle.std.specs.Borrow.{Array, Lends, sem, u8 as byte};
ghost use Rattle.kk_outside.specs.Room.{written_over};
ghost use Rattle.kk_outside.specs.contracts.room.Room.{the_row};

use crate::Alloc;
use std::alloc::Global;
use std::boxed::BoxedSlice;
use std::marker::Model;

/// Room for bytes, taken once. It can't grow or be cloned, and it lends no allocator, so nobody takes memory by it.
#[derive(Drop)]
pub struct Room {
    bytes: BoxedSlice<u8>,
}

// Clauses see its bytes.
impl Model for Room {
    ghost use Rattle.std.specs.Prelude.{ℕ, List};
    ghost use Rattle.std.specs.Box.{boxed_slice_items};

    ghost Value = { List ℕ };

    ghost view = { λ r. boxed_slice_items r.bytes };
}

impl Room {
    /// Room for so many bytes, which are 0.
    pub fn new(alloc: Global, len: usize) -> Result<Room, Alloc>
        ensures bytes { IfOk result (λ room. room ≡ replicate len 0) }
        ensures len { IfOk result (λ room. length room ≡ len) }
    {
        let bytes = zeroed(alloc, len)?;
        Ok(Room {
            bytes: bytes.into_boxed_slice(),
        })
    }

    /// The bytes.
    pub fn as_slice(&self) -> &[u8]
        ensures { result.now ≡ self.now }
    {
        self.bytes.as_slice()
    }

    /// The bytes, to be written over.
    pub fn as_mut_slice(&mut self) -> &mut [u8]
        ensures* writes_back { sem 𝓛 (Lends the_row (Array byte 0) self.entry result (written_over self.old)) }
        ensures value { result.now ≡ self.old }
    {
        self.bytes.as_mut_slice()
    }
}

/// So many bytes that are 0.
fn zeroed(alloc: Global, len: usize) -> Result<Vec<u8>, Alloc>
    ensures bytes { IfOk result (λ bytes. bytes.items ≡ replicate len 0) }
    ensures len { IfOk result (λ bytes. vec_len bytes ≡ len) }
{
    let mut bytes = Vec::new(alloc);
    bytes.resize(len, 0)?;
    Ok(bytes)
}
