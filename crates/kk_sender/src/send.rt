//! The datagrams of a file that is in memory, to their outlet.
ghost use Rattle.std.specs.Prelude.{◌≡◌, ◌+◌, ◌*◌, ◌<◌, ◌≤◌, ◌^◌, ℕ, List, ◌++◌, All, length, OnOk, OnErr};
ghost use Rattle.std.specs.Int.{div_ceil};
ghost use Rattle.kk_rows.specs.Rows.{numbers};
ghost use Rattle.kk_outside.specs.Causes.{HasCause};
ghost use Rattle.kk_outside.specs.Change.{change};
ghost use Rattle.kk_outside.specs.Outlet.{IsCutShort, OutletTold, append_datagrams};
ghost use Rattle.kk_code.specs.Codeword.{width};
ghost use Rattle.kk_code.specs.Ticket.{generations};
ghost use Rattle.kk_frame.specs.Frame.{FrameValue};
ghost use Rattle.kk_outside.specs.Generator.{after_words, word_at};
ghost use Rattle.kk_sender.specs.SentFrames.{vectors, capture_frames, sent_datagrams};
ghost use Rattle.kk_sender.specs.Sending.{IsPending, IsCut};

use crate::datagram::Datagram;
use crate::rows::{MAX_EXTRA, sent_rows};
use kk_assemble::cut;
use kk_code::{Encoder, Ticket};
use kk_frame::{Frame, MAX_DATAGRAM_FRAMES, send_frame};
use kk_outside::{Failed, Outlet};
use kk_rows::Row;
use rand_core::Rng;

/// How much was sent.
#[derive(Clone, Copy, Debug, PartialEq, Eq)]
pub struct Sent {
    /// The frames, END among them.
    pub frames: u64,
    /// The datagrams, that of END among them.
    pub datagrams: u64,
}

impl Sent {
    /// How much is sent of a file.
    pub(crate) fn of(ticket: &Ticket, extra: u32, frames_per_datagram: u32) -> Sent
        requires extra { extra ≤ MAX_EXTRA }
        requires some { 1 ≤ frames_per_datagram }
        ensures frames { result.frames ≡ generations ticket.now * (ticket.now.code.l + extra) + 1 }
        ensures datagrams { result.datagrams ≡ div_ceil (generations ticket.now * (ticket.now.code.l + extra)) frames_per_datagram + 1 }
    {
        let frames = data_frames(ticket, extra);
        Sent {
            frames: frames + 1,
            datagrams: frames.div_ceil(u64::from(frames_per_datagram)) + 1,
        }
    }
}

/// How many frames the capture of a file has, END among them.
pub fn capture_frames(ticket: &Ticket) -> u64
    ensures { (file : List ℕ) → result ≡ length (capture_frames ticket.now file) }
{
    data_frames(ticket, 0) + 1
}

/// How many data frames are sent of a file, with so many combinations a generation.
fn data_frames(ticket: &Ticket, extra: u32) -> u64
    requires { extra ≤ MAX_EXTRA }
    ensures count { result ≡ generations ticket.now * (ticket.now.code.l + extra) }
    ensures few { result < 2 ^ 63 }
{
    let rows = u64::from(ticket.code().l()) + u64::from(extra);
    u64::from(ticket.generations()) * rows
}

/// Sends a file that is in memory, encoded by the encoder of the ticket's code.
pub(crate) fn send_file<R: Rng, O: Outlet>(
    ticket: &Ticket,
    encoder: &Encoder,
    file: &[u8],
    rng: &mut R,
    extra: u32,
    frames_per_datagram: u32,
    outlet: &mut O,
) -> Result<(), Failed>
    requires encoder { encoder.now ≡ ticket.now.code }
    requires whole { length file.now ≡ ticket.now.length }
    requires extra { extra ≤ MAX_EXTRA }
    requires some { 1 ≤ frames_per_datagram }
    requires few { frames_per_datagram ≤ MAX_DATAGRAM_FRAMES }
    ensures sent { OnOk result ((O.told outlet.new).sends ≡ append_datagrams (O.told outlet.old).sends
        (sent_datagrams ticket.now file.now extra frames_per_datagram (word_at (R.stream rng.old)))) }
    ensures prefix { OnErr result (IsCutShort (change (O.told outlet.old) (O.told outlet.new))
        (sent_datagrams ticket.now file.now extra frames_per_datagram (word_at (R.stream rng.old)))) }
    ensures cause { HasCause (O.told outlet.old).faults (O.told outlet.new).faults result }
    ensures words { OnOk result (R.stream rng.new ≡ after_words (generations ticket.now * extra) (R.stream rng.old)) }
{
    let mut datagram = Datagram::new(frames_per_datagram);
    for generation in 0..ticket.generations() {
        let message = cut(file, ticket, generation);
        let codeword = encoder.encode(&message);
        let rows = sent_rows(&codeword, extra, rng);
        push_rows(rows.as_slice(), generation, ticket, &mut datagram, outlet)?;
    }
    datagram.finish(outlet)?;
    send_frame(&Frame::End, ticket, outlet)
}

/// Adds the data frames of a generation with these rows to the datagrams.
fn push_rows<O: Outlet>(
    rows: &[Row],
    generation: u32,
    ticket: &Ticket,
    datagram: &mut Datagram,
    outlet: &mut O,
) -> Result<(), Failed>
    requires in_range { generation < generations ticket.now }
    requires below { All (λ r. r < 2 ^ width ticket.now.code) (numbers rows.now) }
    ensures pending { OnOk result ((start : OutletTold) (frames : List FrameValue)
        → IsPending ticket.now (change start (O.told outlet.old)) datagram.old frames
        → IsPending ticket.now (change start (O.told outlet.new)) datagram.new (frames ++ vectors generation (numbers rows.now))) }
    ensures cut { OnErr result ((start : OutletTold) (frames : List FrameValue)
        → IsPending ticket.now (change start (O.told outlet.old)) datagram.old frames
        → IsCut ticket.now datagram.old.frames_per_datagram (change start (O.told outlet.new)) (frames ++ vectors generation (numbers rows.now))) }
    ensures cause { HasCause (O.told outlet.old).faults (O.told outlet.new).faults result }
    ensures frames_per_datagram { datagram.new.frames_per_datagram ≡ datagram.old.frames_per_datagram }
{
    for row in rows {
        let frame = Frame::Vector {
            generation,
            row: *row,
        };
        datagram.push(&frame, ticket, outlet)?;
    }
    Ok(())
}
