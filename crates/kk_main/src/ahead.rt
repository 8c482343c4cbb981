//! Standard input, read in blocks where it can be gone back over.
use std::io;
use std::io::{BufRead, Read};

/// Reads ahead where its reader shows more than a byte, and else reads directly.
///
/// A lock on standard input shows a block of a file, and goes back over the bytes that were not taken when it is dropped;
/// of a pipe it shows a byte at a time. So the next reader finds every byte that wasn't asked for, and a pipe costs a call
/// of the system for each read.
#[derive(Drop)]
pub(crate) struct Ahead<R: BufRead> {
    reader: R,
    is_direct: bool,
}

impl<R: BufRead> Ahead<R> {
    /// Reads ahead, as far as this reader shows what comes.
    pub(crate) fn new(reader: R) -> Ahead<R> {
        Ahead {
            reader,
            is_direct: false,
        }
    }
}

impl<R: BufRead> Read for Ahead<R> {
    fn read(&mut self, buf: &mut [u8]) -> io::Result<usize> {
        if self.is_direct {
            return self.reader.read(buf);
        }
        let front = self.reader.fill_buf()?;
        let shown = front.len();
        let n = shown.min(buf.len());
        buf[..n].copy_from_slice(&front[..n]);
        self.is_direct = shown == 1;
        self.reader.consume(n);
        Ok(n)
    }
}
