//! What is read of one datagram.
ghost use Rattle.std.specs.Prelude.{◌≡◌, ◌≤◌, ◌^◌, Some, length, not, if◌then◌else◌};
ghost use Rattle.kk_frame.specs.Datagram.{has_datagram_length, readings};
ghost use Rattle.kk_frame.specs.Counting.{HasReadings};

use crate::batch::Batch;
use crate::gate_count::Refused;
use crate::{FRAME_BYTES, Frame, frames_of, read_frame};
use kk_code::Ticket;

/// The data frames of a datagram, what was refused of it, and whether an END was read.
#[derive(Drop)]
pub(crate) struct Received {
    pub(crate) batch: Batch,
    pub(crate) refused: Refused,
    pub(crate) has_end: bool,
}

impl Received {
    /// Reads the datagram up to its first END.
    pub(crate) fn of(bytes: &[u8], ticket: &Ticket) -> Received
        ensures { HasReadings (if has_datagram_length FRAME_BYTES bytes.now then 0 else 1) (readings FRAME_BYTES ticket.now bytes.now) result }
    {
        let mut received = Received {
            batch: Batch::new(),
            refused: Refused::NONE,
            has_end: false,
        };
        let Ok(frames) = frames_of(bytes) else {
            received.refused.badlength = 1;
            return received;
        };
        for i in 0..frames.len() {
            match read_frame(frames.at(i), ticket) {
                Ok(Frame::Vector { generation, row }) => received.batch.push(generation, row),
                Ok(Frame::End) => {
                    return Received {
                        has_end: true,
                        ..received
                    };
                }
                Err(fault) => received.refused.count(fault),
            }
        }
        received
    }
}
