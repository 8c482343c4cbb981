//! A relay.
ghost use Rattle.std.specs.Prelude.{◌≡◌, ◌↔◌, ◌+◌, ◌*◌, ◌<◌, ◌≤◌, ◌^◌, ℕ, List, All, Some, Err, IfOk, IfSome, IsSome, OnOk, OnErr, [], ◌∷◌, ◌++◌, length, slice_index_or, slice_set, sum_by};
ghost use Rattle.rand_core.specs.Stream.{Stream};
ghost use Rattle.kk_rows.specs.Rows.{numbers};
ghost use Rattle.kk_outside.specs.Causes.{HasCause, RoseWhere};
ghost use Rattle.kk_outside.specs.Change.{change};
ghost use Rattle.kk_outside.specs.Gate.{events_told};
ghost use Rattle.kk_outside.specs.Outlet.{OutletTold, IsCutShort, append_datagrams};
ghost use Rattle.kk_code.specs.Ticket.{generations};
ghost use Rattle.kk_frame.specs.declared.datagram.TheConstants.{MAX_DATAGRAM_FRAMES};
ghost use Rattle.kk_frame.specs.declared.frame.TheConstants.{FRAME_BYTES};
ghost use Rattle.kk_frame.specs.Asking.{AsksUpToStop, StopsThere, frames_of};
ghost use Rattle.kk_frame.specs.Events.{taken, counts};
ghost use Rattle.kk_frame.specs.Frame.{Vector, IsFrame};
ghost use Rattle.kk_relay.specs.Progress.{HasRelayed, BreaksOff, EndsShort};
ghost use Rattle.kk_relay.specs.Relaying.{relayed, relay_list};
ghost use Rattle.kk_relay.specs.RelayState.{no_rows, with_row, relay_after, rank};
ghost use Rattle.kk_outside.specs.Generator.{after_words, word_at};

use crate::basis::Basis;
use crate::emission::send_combinations;
use crate::{RelayFault, Relayed};
use kk_code::Ticket;
use kk_frame::{Batch, Ended, Frame, Intake, Limits, send_frame};
use kk_outside::{Alloc, Failed, GATE_BYTES, Gate, Outlet};
use kk_rows::Row;
use rand_core::Rng;
use std::alloc::Global;
use std::boxed::BoxedSlice;
use std::marker::Model;

/// The most combinations that are sent for a data frame.
pub const MAX_RATE: u32 = 16;

/// What a relay holds: of each generation the innovative rows, in the order in which they came. Nothing of it can grow, and
/// it lends no allocator, so behind a `&mut` no call can take memory by it.
#[derive(Drop)]
pub struct Relay {
    generations: BoxedSlice<Basis>,
}

impl Model for Relay {
    ghost use Rattle.std.specs.Prelude.{◌≤◌, List, length};
    ghost use Rattle.std.specs.Box.{boxed_slice_items};
    ghost use Rattle.kk_code.specs.declared.ticket.TheConstants.{MAX_GENERATIONS};
    ghost use Rattle.kk_relay.specs.RelayState.{BasisState};

    ghost Value = { List BasisState };

    ghost view = { λ r. boxed_slice_items r.generations };

    ghost invariant = { λ r. length (boxed_slice_items r.generations) ≤ MAX_GENERATIONS };
}

impl Relay {
    /// A relay under this ticket that holds no row. It takes all the memory that it needs.
    pub fn new(alloc: Global, ticket: &Ticket) -> Result<Relay, Alloc>
        ensures empty { IfOk result (λ relay. relay ≡ relay_after ticket.now []) }
        ensures count { IfOk result (λ relay. length relay ≡ generations ticket.now) }
    {
        let count = ticket.generations() as usize;
        let width = ticket.code().width();
        let mut generations = Vec::with_capacity(alloc, count)?;
        for _ in 0..count {
            generations.push_reserved(Basis::new(width));
        }
        Ok(Relay {
            generations: generations.into_boxed_slice(),
        })
    }

    /// The innovative rows of a generation, in the order in which they came.
    pub fn rows(&self, generation: u32) -> &[Row]
        requires { generation < length self.now }
        ensures rows { numbers result.now ≡ (slice_index_or self.now generation (no_rows 0)).rows }
        ensures below { All (λ row. row < 2 ^ (slice_index_or self.now generation (no_rows 0)).width) (numbers result.now) }
    {
        self.generations[generation as usize].rows()
    }

    /// Takes the data frames of the gate up to its stop. After each, `rate` combinations of the rows that are held of its
    /// generation are sent, where there are some, each by the next word of the generator and as a datagram of its own. END
    /// comes at last, unless the gate failed.
    ///
    /// The relay holds no rows before, and the ticket is that of [`Relay::new`]. It takes no memory.
    ///
    /// # Errors
    ///
    /// [`RelayFault::Gate`] exactly where the gate's count of faults rose, and [`RelayFault::Outlet`] exactly where the
    /// outlet's did. The rows that were taken stay.
    pub fn relay_all<G: Gate, O: Outlet, R: Rng>(
        &mut self,
        ticket: &Ticket,
        gate: &mut G,
        outlet: &mut O,
        rng: &mut R,
        rate: u32,
        limits: &Limits,
    ) -> Result<Relayed, RelayFault>
        requires empty { self.old ≡ relay_after ticket.now [] }
        requires rate { rate ≤ MAX_RATE }
        requires idle { 1 ≤ limits.now.idle }
        requires most { 1 ≤ limits.now.most }

        // Which answer comes.
        ensures gate_fault { RoseWhere (result ≡ Err RelayFault.Gate) (G.told gate.old).faults (G.told gate.new).faults }
        ensures outlet_fault { RoseWhere (result ≡ Err RelayFault.Outlet) (O.told outlet.old).faults (O.told outlet.new).faults }
        ensures at_fault { (result ≡ Err RelayFault.Outlet → ⊥) → ((result ≡ Err RelayFault.Gate)
            ↔ ((counts FRAME_BYTES ticket.now limits.now (events_told (change (G.told gate.old) (G.told gate.new)))).ended ≡ Some Ended.Fault)) }

        // What was asked of the gate: all events up to its stop, and after a fault of the outlet no more than these.
        ensures asked { AsksUpToStop ticket.now limits.now (change (G.told gate.old) (G.told gate.new)) }
        ensures stop { (result ≡ Err RelayFault.Outlet → ⊥) → StopsThere ticket.now limits.now (change (G.told gate.old) (G.told gate.new)) }

        // What was sent: the relay's list, and after a fault of the outlet less, from its front.
        ensures sent { (result ≡ Err RelayFault.Outlet → ⊥) → (O.told outlet.new).sends ≡ append_datagrams (O.told outlet.old).sends
            (relay_list ticket.now limits.now rate (word_at (R.stream rng.old)) (events_told (change (G.told gate.old) (G.told gate.new)))) }
        ensures cut_short { result ≡ Err RelayFault.Outlet → IsCutShort (change (O.told outlet.old) (O.told outlet.new))
            (relay_list ticket.now limits.now rate (word_at (R.stream rng.old)) (events_told (change (G.told gate.old) (G.told gate.new)))) }
        ensures cut_short_of_all { result ≡ Err RelayFault.Outlet → IfSome (G.told gate.old).left (λ events. IsCutShort (change (O.told outlet.old) (O.told outlet.new))
            (relay_list ticket.now limits.now rate (word_at (R.stream rng.old)) events)) }

        // What the relay holds, and the words that were drawn.
        ensures rows { (result ≡ Err RelayFault.Outlet → ⊥)
            → self.new ≡ relay_after ticket.now (taken FRAME_BYTES ticket.now limits.now (events_told (change (G.told gate.old) (G.told gate.new)))) }
        ensures drawn { (result ≡ Err RelayFault.Outlet → ⊥) → R.stream rng.new ≡ after_words (length (relayed rate (word_at (R.stream rng.old))
            (taken FRAME_BYTES ticket.now limits.now (events_told (change (G.told gate.old) (G.told gate.new)))))) (R.stream rng.old) }
        ensures generations { length self.new ≡ length self.old }
        ensures broken_off { result ≡ Err RelayFault.Outlet
            → EndsShort ticket.now rate (R.stream rng.old) (taken FRAME_BYTES ticket.now limits.now (events_told (change (G.told gate.old) (G.told gate.new))))
            (change (O.told outlet.old) (O.told outlet.new)) self.new (R.stream rng.new) }

        // What is told.
        ensures counts { IfOk result (λ relayed. relayed.gate ≡ counts FRAME_BYTES ticket.now limits.now (events_told (change (G.told gate.old) (G.told gate.new)))) }
        ensures innovative { IfOk result (λ relayed. relayed.innovative ≡ sum_by rank self.new) }
        ensures number { IfOk result (λ told. told.sent ≡ length (relayed rate (word_at (R.stream rng.old))
            (taken FRAME_BYTES ticket.now limits.now (events_told (change (G.told gate.old) (G.told gate.new)))))) }
    {
        let Limits { idle, most } = *limits;
        let mut intake = Intake::new(Limits { idle, most });
        let mut buf = [0; GATE_BYTES];
        let mut sent = 0;
        while intake.runs() {
            let frames = intake.ask(gate, &mut buf, ticket);
            let Ok(more) = self.relay_frames(&frames, rate, ticket, outlet, rng) else {
                return Err(RelayFault::Outlet);
            };
            sent += more;
        }
        let counts = intake.counts();
        if counts.ended.is_some_and(Ended::is_fault) {
            return Err(RelayFault::Gate);
        }
        let Ok(()) = send_frame(&Frame::End, ticket, outlet) else {
            return Err(RelayFault::Outlet);
        };
        Ok(Relayed {
            gate: counts,
            innovative: self.innovative(),
            sent,
        })
    }

    /// The sum of the ranks of all generations.
    fn innovative(&self) -> u64
        ensures { result ≡ sum_by rank self.now }
    {
        self.generations
            .iter()
            .map(|basis| u64::from(basis.rank()))
            .sum()
    }

    /// Adds a row to its generation, where it is innovative.
    fn insert(&mut self, generation: u32, row: Row)
        requires generation { generation < length self.old }
        requires row { row.0 < 2 ^ (slice_index_or self.old generation (no_rows 0)).width }
        ensures { self.new ≡ slice_set self.old generation (with_row (slice_index_or self.old generation (no_rows 0)) row.0) }
    {
        self.generations[generation as usize].insert(row);
    }

    /// Takes a data frame, and sends the combinations that are sent for it. The answer is how many these are.
    fn relay_frame<O: Outlet, R: Rng>(
        &mut self,
        frame: &(u32, Row),
        rate: u32,
        ticket: &Ticket,
        outlet: &mut O,
        rng: &mut R,
    ) -> Result<u32, Failed>
        requires frame { IsFrame ticket.now (Vector frame.now.0 frame.now.1.0) }
        requires progress { (start : Stream) × (before : List (ℕ × ℕ)) × (origin : OutletTold)
            × HasRelayed ticket.now rate start before (change origin (O.told outlet.old)) self.old (R.stream rng.old) }
        ensures relayed { (start : Stream) (before : List (ℕ × ℕ)) (origin : OutletTold)
            → HasRelayed ticket.now rate start before (change origin (O.told outlet.old)) self.old (R.stream rng.old)
            → OnOk result (HasRelayed ticket.now rate start (before ++ (frame.now.0, frame.now.1.0) ∷ []) (change origin (O.told outlet.new)) self.new (R.stream rng.new)) }
        ensures breaks_off { (start : Stream) (before : List (ℕ × ℕ)) (origin : OutletTold)
            → HasRelayed ticket.now rate start before (change origin (O.told outlet.old)) self.old (R.stream rng.old)
            → OnErr result (BreaksOff ticket.now rate start (before ++ (frame.now.0, frame.now.1.0) ∷ []) (change origin (O.told outlet.new)) self.new (R.stream rng.new)) }
        ensures count { (start : Stream) (before : List (ℕ × ℕ)) (origin : OutletTold)
            → HasRelayed ticket.now rate start before (change origin (O.told outlet.old)) self.old (R.stream rng.old)
            → IfOk result (λ n. length (relayed rate (word_at start) (before ++ (frame.now.0, frame.now.1.0) ∷ [])) ≡ length (relayed rate (word_at start) before) + n) }
        ensures few { IfOk result (λ n. n ≤ rate) }
        ensures cause { HasCause (O.told outlet.old).faults (O.told outlet.new).faults result }
    {
        let (generation, row) = *frame;
        self.insert(generation, row);
        let rows = self.rows(generation);
        if rows.is_empty() {
            return Ok(0);
        }
        send_combinations(rows, generation, rate, ticket, outlet, rng)?;
        Ok(rate)
    }

    /// Takes the data frames of an event, and sends the combinations that are sent for them. The answer is how many these are.
    fn relay_frames<O: Outlet, R: Rng>(
        &mut self,
        batch: &Option<Batch>,
        rate: u32,
        ticket: &Ticket,
        outlet: &mut O,
        rng: &mut R,
    ) -> Result<u64, Failed>
        requires rate { rate ≤ MAX_RATE }
        requires frames { All (λ f. IsFrame ticket.now (Vector f.0 f.1)) (frames_of batch.now) }
        requires progress { (start : Stream) × (before : List (ℕ × ℕ)) × (origin : OutletTold)
            × HasRelayed ticket.now rate start before (change origin (O.told outlet.old)) self.old (R.stream rng.old) }
        ensures relayed { (start : Stream) (before : List (ℕ × ℕ)) (origin : OutletTold)
            → HasRelayed ticket.now rate start before (change origin (O.told outlet.old)) self.old (R.stream rng.old)
            → OnOk result (HasRelayed ticket.now rate start (before ++ frames_of batch.now) (change origin (O.told outlet.new)) self.new (R.stream rng.new)) }
        ensures breaks_off { (start : Stream) (before : List (ℕ × ℕ)) (origin : OutletTold)
            → HasRelayed ticket.now rate start before (change origin (O.told outlet.old)) self.old (R.stream rng.old)
            → OnErr result (BreaksOff ticket.now rate start (before ++ frames_of batch.now) (change origin (O.told outlet.new)) self.new (R.stream rng.new)) }
        ensures count { (start : Stream) (before : List (ℕ × ℕ)) (origin : OutletTold)
            → HasRelayed ticket.now rate start before (change origin (O.told outlet.old)) self.old (R.stream rng.old)
            → IfOk result (λ n. length (relayed rate (word_at start) (before ++ frames_of batch.now)) ≡ length (relayed rate (word_at start) before) + n) }
        ensures few { IfOk result (λ n. n ≤ MAX_RATE * MAX_DATAGRAM_FRAMES) }
        ensures some { OnErr result (IsSome batch.now) }
        ensures cause { HasCause (O.told outlet.old).faults (O.told outlet.new).faults result }
    {
        let Some(batch) = batch else {
            return Ok(0);
        };
        let mut sent = 0;
        for frame in batch.as_slice() {
            sent += u64::from(self.relay_frame(frame, rate, ticket, outlet, rng)?);
        }
        Ok(sent)
    }
}
