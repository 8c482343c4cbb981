//! Frames, written and sent.
ghost use Rattle.std.specs.Prelude.{◌≡◌, ◌∷◌, ◌++◌};
ghost use Rattle.std.specs.Int.{w32, w64, to_be_bytes};
ghost use Rattle.kk_outside.specs.Causes.{HasCause};
ghost use Rattle.kk_outside.specs.Change.{change};
ghost use Rattle.kk_outside.specs.Outlet.{SendsTo};
ghost use Rattle.kk_frame.specs.Frame.{IsFrame, frame_text};
ghost use Rattle.kk_frame.specs.FrameView.{value};

use crate::frame::{DATA, END, VERSION};
use crate::{FRAME_BYTES, Frame};
use kk_code::Ticket;
use kk_outside::{Failed, Outlet};

/// Writes a frame with these numbers.
fn write_numbers(kind: u8, session: u32, generation: u32, row: u64, bytes: &mut [u8; FRAME_BYTES])
    ensures { bytes.new ≡ (75 ∷ 75 ∷ 1 ∷ kind ∷ to_be_bytes w32 session) ++ to_be_bytes w32 generation ++ to_be_bytes w64 row }
{
    bytes[..4].copy_from_slice(&[b'K', b'K', VERSION, kind]);
    bytes[4..8].copy_from_slice(&session.to_be_bytes());
    bytes[8..12].copy_from_slice(&generation.to_be_bytes());
    bytes[12..].copy_from_slice(&row.to_be_bytes());
}

/// Writes the bytes of a frame, whose generation and row are in the ticket's range.
#[tactic(auto, unfolding(crate::specs::Frame::frame_text))]
pub fn write_frame(frame: &Frame, ticket: &Ticket, bytes: &mut [u8; FRAME_BYTES])
    requires { IsFrame ticket.now (value frame.now) }
    ensures { bytes.new ≡ frame_text ticket.now (value frame.now) }
{
    let session = ticket.session();
    match *frame {
        Frame::Vector { generation, row } => {
            write_numbers(DATA, session, generation, row.0 as u64, bytes)
        }
        Frame::End => write_numbers(END, session, 0, 0, bytes),
    }
}

/// The bytes of a frame, whose generation and row are in the ticket's range.
pub fn frame_bytes(frame: &Frame, ticket: &Ticket) -> [u8; FRAME_BYTES]
    requires { IsFrame ticket.now (value frame.now) }
    ensures { result ≡ frame_text ticket.now (value frame.now) }
{
    let mut bytes = [0; FRAME_BYTES];
    write_frame(frame, ticket, &mut bytes);
    bytes
}

/// Sends a frame, whose generation and row are in the ticket's range, as a datagram of its own.
pub fn send_frame<O: Outlet>(frame: &Frame, ticket: &Ticket, outlet: &mut O) -> Result<(), Failed>
    requires { IsFrame ticket.now (value frame.now) }
    ensures sends { SendsTo (change (O.told outlet.old) (O.told outlet.new)) result (frame_text ticket.now (value frame.now)) }
    ensures cause { HasCause (O.told outlet.old).faults (O.told outlet.new).faults result }
{
    outlet.send(&frame_bytes(frame, ticket))
}
