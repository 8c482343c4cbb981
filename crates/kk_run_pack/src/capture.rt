//! The capture of a file, to its sink.
ghost use Rattle.std.specs.Prelude.{◌≡◌, ◌^◌, ◌<◌, [], ◌∷◌, All, length};
ghost use Rattle.kk_rows.specs.Rows.{numbers};
ghost use Rattle.kk_outside.specs.Causes.{HasCause};
ghost use Rattle.kk_outside.specs.Change.{change};
ghost use Rattle.kk_outside.specs.Sink.{WritesAllTo};
ghost use Rattle.kk_code.specs.Codeword.{width};
ghost use Rattle.kk_code.specs.Ticket.{generations};
ghost use Rattle.kk_frame.specs.Frame.{IsFrame, frame_text};
ghost use Rattle.kk_frame.specs.FrameView.{value};
ghost use Rattle.kk_sender.specs.SentFrames.{vectors, text_of, packed};
ghost use Rattle.kk_report.specs.Block.{Adds};

use kk_assemble::cut;
use kk_code::{Encoder, Ticket};
use kk_frame::{Frame, frame_bytes};
use kk_outside::{Failed, Sink};
use kk_report::Block;
use kk_rows::Row;

/// Writes the capture of a file that is in memory: the rows of all its codewords as frames, and END. After `Failed` nothing
/// more is written.
pub(crate) fn write_capture<K: Sink>(
    ticket: &Ticket,
    encoder: &Encoder,
    file: &[u8],
    sink: &mut K,
) -> Result<(), Failed>
    requires encoder { encoder.now ≡ ticket.now.code }
    requires whole { length file.now ≡ ticket.now.length }
    ensures writes { WritesAllTo (change (K.told sink.old) (K.told sink.new)) result (packed ticket.now file.now) }
    ensures cause { HasCause (K.told sink.old).faults (K.told sink.new).faults result }
{
    let mut block = Block::new();
    for generation in 0..ticket.generations() {
        let message = cut(file, ticket, generation);
        let codeword = encoder.encode(&message);
        add_rows(codeword.as_slice(), generation, ticket, &mut block, sink)?;
    }
    add_frame(&Frame::End, ticket, &mut block, sink)?;
    block.flush(sink)
}

/// Adds the data frames of a generation with these rows.
fn add_rows<K: Sink>(
    rows: &[Row],
    generation: u32,
    ticket: &Ticket,
    block: &mut Block,
    sink: &mut K,
) -> Result<(), Failed>
    requires in_range { generation < generations ticket.now }
    requires below { All (λ r. r < 2 ^ width ticket.now.code) (numbers rows.now) }
    ensures adds { Adds (K.told sink.old) (K.told sink.new) block.old block.new result (text_of ticket.now (vectors generation (numbers rows.now))) }
    ensures cause { HasCause (K.told sink.old).faults (K.told sink.new).faults result }
{
    for row in rows {
        let frame = Frame::Vector {
            generation,
            row: *row,
        };
        add_frame(&frame, ticket, block, sink)?;
    }
    Ok(())
}

/// Adds a frame.
fn add_frame<K: Sink>(
    frame: &Frame,
    ticket: &Ticket,
    block: &mut Block,
    sink: &mut K,
) -> Result<(), Failed>
    requires { IsFrame ticket.now (value frame.now) }
    ensures adds { Adds (K.told sink.old) (K.told sink.new) block.old block.new result (frame_text ticket.now (value frame.now)) }
    ensures cause { HasCause (K.told sink.old).faults (K.told sink.new).faults result }
{
    block.push(sink, &frame_bytes(frame, ticket))
}
