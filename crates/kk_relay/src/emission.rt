//! Data frames on their way to the outlet.
ghost use Rattle.std.specs.Prelude.{◌≡◌, ◌+◌, ◌<◌, ◌^◌, ℕ, All, OnOk, OnErr};
ghost use Rattle.rand_core.specs.Stream.{Stream};
ghost use Rattle.kk_rows.specs.Rows.{numbers};
ghost use Rattle.kk_outside.specs.Causes.{HasCause};
ghost use Rattle.kk_outside.specs.Change.{change};
ghost use Rattle.kk_code.specs.Codeword.{width};
ghost use Rattle.kk_code.specs.Ticket.{generations};
ghost use Rattle.kk_relay.specs.Progress.{AreSent, AreCut};
ghost use Rattle.kk_relay.specs.Relaying.{combinations};
ghost use Rattle.kk_outside.specs.Generator.{after_words, word_at};

use kk_code::Ticket;
use kk_frame::{Frame, send_frame};
use kk_outside::{Failed, Outlet};
use kk_rows::{Row, combination};
use rand_core::Rng;

/// Sends `rate` combinations of the rows of a generation, each by the next word of the generator.
pub(crate) fn send_combinations<O: Outlet, R: Rng>(
    rows: &[Row],
    generation: u32,
    rate: u32,
    ticket: &Ticket,
    outlet: &mut O,
    rng: &mut R,
) -> Result<(), Failed>
    requires generation { generation < generations ticket.now }
    requires rows { All (λ row. row < 2 ^ width ticket.now.code) (numbers rows.now) }
    ensures sent { (start : Stream) (first : ℕ) → R.stream rng.old ≡ after_words first start
        → OnOk result (AreSent ticket.now start first (combinations (word_at start) generation (numbers rows.now) first rate)
        (change (O.told outlet.old) (O.told outlet.new)) (R.stream rng.new)) }
    ensures cut { (start : Stream) (first : ℕ) → R.stream rng.old ≡ after_words first start
        → OnErr result ((n : ℕ) × AreCut ticket.now start first n (combinations (word_at start) generation (numbers rows.now) first rate)
        (change (O.told outlet.old) (O.told outlet.new)) (R.stream rng.new)) }
    ensures cause { HasCause (O.told outlet.old).faults (O.told outlet.new).faults result }
{
    for _ in 0..rate {
        let row = combination(rows, rng.next_u64());
        send_frame(&Frame::Vector { generation, row }, ticket, outlet)?;
    }
    Ok(())
}
