//! The bits of a file, read one after another.
ghost use Rattle.std.specs.Prelude.{◌≡◌, ◌+◌, ◌*◌, ◌<◌, ◌≤◌, ◌^◌, slice_index};
ghost use Rattle.kk_assemble.specs.FileBits.{file_bit, number_from};

use crate::bit_queue::BitQueue;
use std::marker::Model;

/// A place in a file, with the bits from there on. After the file's end they are zeros.
#[derive(Drop)]
pub(crate) struct FileBits<'a> {
    file: &'a [u8],
    next: usize,
    queue: BitQueue,
}

impl<'a> Model for FileBits<'a> {
    ghost use Rattle.std.specs.Prelude.{◌-◌, ◌*◌, length};
    ghost use Rattle.kk_assemble.specs.Bits.{FilePlace, IsReadAhead};

    ghost Value = { FilePlace };

    ghost view = { λ b. record { file = b.file.now; at = 8 * b.next - length b.queue } };

    ghost invariant = { λ b. IsReadAhead b.file.now b.next b.queue };
}

impl<'a> FileBits<'a> {
    /// The bits from bit `at` on.
    pub(crate) fn new(file: &'a [u8], at: u64) -> Self
        requires { at < 2 ^ 60 }
        ensures { result ≡ record { file = file.now; at = at } }
    {
        let byte = (at / 8) as usize;
        let mut queue = BitQueue::new();
        queue.push(word_at(file, byte), 64);
        queue.take((at % 8) as u32);
        FileBits {
            file,
            next: byte + 8,
            queue,
        }
    }

    /// The number that the next `n` bits make.
    pub(crate) fn take(&mut self, n: u32) -> u64
        requires few { n ≤ 62 }
        requires fits { self.old.at < 2 ^ 60 }
        ensures number { result ≡ number_from (file_bit self.old.file) self.old.at n }
        ensures place { self.new ≡ record { file = self.old.file; at = self.old.at + n } }
    {
        while self.queue.len() < n {
            self.queue.push(word_at(self.file, self.next), 64);
            self.next += 8;
        }
        self.queue.take(n)
    }
}

/// Byte `i` of a file, and 0 after its end.
fn byte_at(file: &[u8], i: usize) -> u8
    ensures { result ≡ slice_index file.now i }
{
    match file.get(i) {
        Some(&byte) => byte,
        None => 0,
    }
}

/// The number that the eight bytes from byte `at` on make, the first the most significant.
fn word_at(file: &[u8], at: usize) -> u64
    requires { at < 2 ^ 60 }
    ensures { result ≡ number_from (file_bit file.now) (8 * at) 64 }
{
    let mut word = 0;
    for n in 0..8 {
        word = 256 * word + u64::from(byte_at(file, at + n));
    }
    word
}
