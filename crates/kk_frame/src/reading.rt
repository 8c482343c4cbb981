//! Reads a frame.
ghost use Rattle.std.specs.Prelude.{◌≡◌, ◌<◌, ◌^◌, IfOk};
ghost use Rattle.kk_code.specs.Ticket.{generations};
ghost use Rattle.kk_code.specs.Codeword.{width};
ghost use Rattle.kk_frame.specs.Frame.{IsFrame, session_in, generation_in, row_in, frame_read};
ghost use Rattle.kk_frame.specs.FrameView.{value, values};

use crate::frame::{DATA, END, VERSION};
use crate::{FRAME_BYTES, Frame, FrameFault};
use kk_code::Ticket;
use kk_rows::Row;

/// The session in the bytes.
fn session_of(bytes: &[u8; FRAME_BYTES]) -> u32
    ensures { result ≡ session_in bytes.now }
{
    u32::from_be_bytes([bytes[4], bytes[5], bytes[6], bytes[7]])
}

/// The generation in the bytes.
fn generation_of(bytes: &[u8; FRAME_BYTES]) -> u32
    ensures { result ≡ generation_in bytes.now }
{
    u32::from_be_bytes([bytes[8], bytes[9], bytes[10], bytes[11]])
}

/// The row in the bytes.
fn row_of(bytes: &[u8; FRAME_BYTES]) -> u64
    ensures { result ≡ row_in bytes.now }
{
    u64::from_be_bytes([
        bytes[12], bytes[13], bytes[14], bytes[15], bytes[16], bytes[17], bytes[18], bytes[19],
    ])
}

/// The frame of the ticket that the bytes are.
///
/// An END has only zeros after its session.
///
/// # Errors
///
/// The first rule, from the front, that the bytes break.
#[tactic(auto, unfolding(crate::specs::Frame::frame_read, crate::specs::Frame::frame_fault))]
pub fn read_frame(bytes: &[u8; FRAME_BYTES], ticket: &Ticket) -> Result<Frame, FrameFault>
    ensures exact { frame_read ticket.now bytes.now ≡ values result }
    ensures in_range { IfOk result (λ frame. IsFrame ticket.now (value frame)) }
{
    if bytes[0] != b'K' || bytes[1] != b'K' {
        return Err(FrameFault::Magic);
    }
    if bytes[2] != VERSION {
        return Err(FrameFault::Version);
    }
    let kind = bytes[3];
    if kind != DATA && kind != END {
        return Err(FrameFault::Kind);
    }
    if session_of(bytes) != ticket.session() {
        return Err(FrameFault::Session);
    }
    let generation = generation_of(bytes);
    let row = row_of(bytes);
    if kind == END {
        if generation != 0 || row != 0 {
            return Err(FrameFault::EndRow);
        }
        return Ok(Frame::End);
    }
    if generation >= ticket.generations() {
        return Err(FrameFault::Generation);
    }
    if row >= 1 << ticket.code().width() {
        return Err(FrameFault::Row);
    }
    Ok(Frame::Vector {
        generation,
        row: Row(u128::from(row)),
    })
}
