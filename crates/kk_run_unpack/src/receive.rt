//! The frames of a source, into one row space for each generation.
ghost use Rattle.std.specs.Prelude.{◌≡◌, ◌<◌, ◌≤◌, List, [], ◌∷◌, ◌++◌, true, length, IfOk, OnErr};
ghost use Rattle.kk_outside.specs.Causes.{HasCause};
ghost use Rattle.kk_outside.specs.Change.{change};
ghost use Rattle.kk_outside.specs.declared.event.Event.{Event};
ghost use Rattle.kk_outside.specs.declared.event.Event.TheVariants.{Datagram};
ghost use Rattle.kk_frame.specs.Capture.{capture_events};
ghost use Rattle.kk_frame.specs.Events.{counts};
ghost use Rattle.kk_frame.specs.Intake.{IsAfter, is_running, calls_left};
ghost use Rattle.kk_run_unpack.specs.Unpack.{FailsBeforeStop};
ghost use Rattle.kk_run_unpack.specs.Spaces.{AreSpanned, HasTaken, AreReceived};

use kk_code::Ticket;
use kk_frame::{FRAME_BYTES, GateCount, Intake, Limits};
use kk_outside::{Failed, Source, fill};
use kk_rows::RowSpace;

/// Takes the frames of a source up to END, to piece number `most` or to its end, and answers what it counted: its bytes are
/// cut into pieces of the length of a frame, of which each is a datagram, and so is a shorter remainder. Each data frame's
/// row goes into the space of its generation.
pub(crate) fn take_frames<S: Source>(
    source: &mut S,
    ticket: &Ticket,
    most: u32,
    spaces: &mut [RowSpace],
) -> Result<GateCount, Failed>
    requires most { 1 ≤ most }
    requires spaces { AreSpanned ticket.now spaces.old [] }
    ensures received { IfOk result (λ counted. AreReceived ticket.now most (change (S.told source.old) (S.told source.new)) counted spaces.new) }
    ensures failed { OnErr result (FailsBeforeStop ticket.now most (change (S.told source.old) (S.told source.new))) }
    ensures cause { HasCause (S.told source.old).faults (S.told source.new).faults result }
{
    let mut intake = Intake::new(Limits { idle: 1, most });
    while intake.runs() {
        let mut piece = [0; FRAME_BYTES];
        let len = fill(source, &mut piece)?;
        if len < FRAME_BYTES {
            return Ok(counts_at_end(intake, &piece[..len], ticket));
        }
        take_datagram(&mut intake, &piece, ticket, spaces);
    }
    Ok(intake.counts())
}

/// Takes the data frame of a piece, where it is one.
fn take_datagram(
    intake: &mut Intake,
    bytes: &[u8; FRAME_BYTES],
    ticket: &Ticket,
    spaces: &mut [RowSpace],
)
    requires running { is_running intake.old ≡ true }
    requires spaces { (events : List Event) × HasTaken ticket.now events intake.old spaces.old }
    ensures taken { (events : List Event) → HasTaken ticket.now events intake.old spaces.old → HasTaken ticket.now (events ++ Datagram bytes.now ∷ []) intake.new spaces.new }
    ensures limits { intake.new.limits ≡ intake.old.limits }
    ensures sooner { calls_left intake.new < calls_left intake.old }
{
    let Some((generation, row)) = intake.piece(bytes, ticket) else {
        return;
    };
    spaces[generation as usize].insert(row);
}

/// The counts of a gate whose source has ended, where these bytes remain, fewer than those of a piece.
fn counts_at_end(mut intake: Intake, remainder: &[u8], ticket: &Ticket) -> GateCount
    requires running { is_running intake ≡ true }
    requires short { length remainder.now < FRAME_BYTES }
    ensures { (events : List Event) → IsAfter ticket.now events intake
        → result ≡ counts FRAME_BYTES ticket.now intake.limits (events ++ capture_events FRAME_BYTES remainder.now) }
{
    if !remainder.is_empty() {
        let _ = intake.datagram(remainder, ticket);
    }
    if intake.runs() {
        intake.over();
    }
    intake.counts()
}
