//! The messages of a file.
ghost use Rattle.std.specs.Prelude.{◌≡◌, ◌<◌, length};
ghost use Rattle.kk_code.specs.Codeword.{IsMessage};
ghost use Rattle.kk_code.specs.Ticket.{generations};
ghost use Rattle.kk_assemble.specs.FileBits.{cut};

use crate::file_bits::FileBits;
use kk_code::{MAX_POINTS, Message, Ticket};

/// The message of a generation of a file. The bits after the file's end are zeros.
pub fn cut(file: &[u8], ticket: &Ticket, generation: u32) -> Message
    requires whole { length file.now ≡ ticket.now.length }
    requires in_range { generation < generations ticket.now }

    ensures exact { result ≡ cut ticket.now.code file.now generation }
    ensures message { IsMessage ticket.now.code result }
{
    let code = ticket.code();
    let bits_of_message = u64::from(code.message_bits());
    let mut bits = FileBits::new(file, u64::from(generation) * bits_of_message);
    let mut symbols = [0; MAX_POINTS];
    let symbols = &mut symbols[..code.k() as usize];
    for symbol in symbols.iter_mut() {
        *symbol = bits.take(code.m());
    }
    Message::from_slice(symbols)
}
