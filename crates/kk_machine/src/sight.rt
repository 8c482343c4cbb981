//! What is known of one generation: its rows in order, their span, and whether its log is closed.
ghost use Rattle.std.specs.Prelude.{◌≡◌, ℕ, ◌≤◌, ◌<◌, ◌^◌, length, not, false, true};
ghost use Rattle.kk_rows.specs.Span.{in_span};
ghost use Rattle.kk_rows.specs.Rows.{numbers};
ghost use Rattle.kk_machine.specs.declared.log.TheConstants.{MAX_WIDTH};
ghost use Rattle.kk_machine.specs.Sights.{seen};
ghost use Rattle.kk_machine.specs.Spaces.{log, unseen, reply_to, log_after, with_row, IsInWidth};
ghost use Rattle.kk_machine.specs.Steps.{IsLog, sight_after, changes as changes_of, decided};

use super::{CLOSED, Call, MAX_WIDTH, Reply};
use kk_rows::{Row, RowSpace};
use std::marker::Model;

/// A log as far as it is known: the rows in the order in which they came, beside the [`RowSpace`] that they span.
///
/// The rows are independent. A row is tested against the space, which takes one reduction ([`RowSpace::reduce`]).
#[derive(Drop)]
pub struct Sight {
    space: RowSpace,
    len: u32,
    rows: [Row; MAX_WIDTH as usize],
    closed: bool,
}

impl Model for Sight {
    ghost use Rattle.kk_machine.specs.Sights.{Seen, IsSight, kept};
    ghost use Rattle.kk_machine.specs.Spaces.{log};

    ghost Value = { Seen };

    ghost view = { λ s. record { width = s.space.width; log = log (kept s.len s.rows) s.closed } };

    ghost invariant = { λ s. IsSight s.space.width s.len s.rows s.space.rows };
}

impl Sight {
    /// Nothing is known yet. The width is from 1 to 63.
    pub fn new(width: u32) -> Sight
        requires some { 1 ≤ width }
        requires fits { width ≤ MAX_WIDTH }
        ensures { result ≡ seen width unseen }
    {
        Sight {
            space: RowSpace::new(width),
            len: 0,
            rows: [Row(0); MAX_WIDTH as usize],
            closed: false,
        }
    }

    /// How many rows are known.
    pub fn len(&self) -> u32
        ensures length { result ≡ length self.now.log.rows }
        ensures within { result ≤ self.now.width }
    {
        self.len
    }

    /// The rows, in the order in which they came.
    pub fn rows(&self) -> &[Row]
        ensures rows { numbers result.now ≡ self.now.log.rows }
        ensures log { IsLog self.now.width self.now.log }
    {
        &self.rows[..self.len as usize]
    }

    /// The span of the rows.
    pub fn space(&self) -> &RowSpace
        ensures width { result.now.width ≡ self.now.width }
        ensures span { (x : ℕ) → in_span result.now.rows x ≡ in_span self.now.log.rows x }
    {
        &self.space
    }

    /// Whether the log is known to be closed.
    pub fn is_closed(&self) -> bool
        ensures { result ≡ self.now.log.closed }
    {
        self.closed
    }

    /// Whether `call`, whose row is below 2^width, would change the log if it is open.
    pub fn changes(&self, call: &Call) -> bool
        requires { IsInWidth self.now.width call.now }
        ensures { result ≡ changes_of self.now.log call.now }
    {
        match *call {
            Call::Insert { row, .. } => !self.space.contains(row),
            Call::Freeze { .. } => true,
            Call::Peek { .. } => false,
        }
    }

    /// Answers `call`, whose row is below 2^width, as the sequential object does.
    pub fn apply(&mut self, call: &Call) -> Reply
        requires { IsInWidth self.old.width call.now }
        ensures reply { result ≡ reply_to self.old.log call.now }
        ensures after { self.new ≡ seen self.old.width (log_after self.old.log call.now) }
    {
        let closed = self.closed;
        match *call {
            Call::Insert { .. } if closed => Reply::Late,
            Call::Insert { row, .. } => {
                if self.add(row) {
                    Reply::Innovative { rank: self.len }
                } else {
                    Reply::Redundant
                }
            }
            Call::Freeze { .. } => {
                self.closed = true;
                if closed {
                    Reply::Already
                } else {
                    Reply::Frozen { rank: self.len }
                }
            }
            Call::Peek { .. } => Reply::Rank { rank: self.len },
        }
    }

    /// Takes in the word after the rows that are known: 0, [`CLOSED`], or a row that goes on with the log.
    pub fn tell(&mut self, word: u128)
        requires { IsLog self.old.width (sight_after self.old.log word) }
        ensures { self.new ≡ seen self.old.width (sight_after self.old.log word) }
    {
        if word == CLOSED {
            self.closed = true;
        } else if word != 0 {
            let _ = self.add(Row(word));
        }
    }

    /// What a step for `call` decides that found the word `found` after the rows that are known, where `changing` says
    /// whether the step was an exchange of 0 for the word of the call. `changes` is [`Sight::changes`] of the call.
    pub fn decide(&self, changing: bool, changes: bool, found: u128, call: &Call) -> Option<Reply>
        requires { changes ≡ changes_of self.now.log call.now }
        ensures { result ≡ decided changing self.now.log found call.now }
    {
        match found {
            CLOSED => Some(self.reply(true, changes, call)),
            0 if changing || !changes => Some(self.reply(false, changes, call)),
            _ => None,
        }
    }

    /// The reply to `call`, had the log this mark. `changes` is [`Sight::changes`] of the call.
    fn reply(&self, closed: bool, changes: bool, call: &Call) -> Reply
        requires { changes ≡ changes_of self.now.log call.now }
        ensures { result ≡ reply_to (log self.now.log.rows closed) call.now }
    {
        let rank = self.len;
        match call {
            Call::Insert { .. } if closed => Reply::Late,
            Call::Insert { .. } if changes => Reply::Innovative { rank: rank + 1 },
            Call::Insert { .. } => Reply::Redundant,
            Call::Freeze { .. } if closed => Reply::Already,
            Call::Freeze { .. } => Reply::Frozen { rank },
            Call::Peek { .. } => Reply::Rank { rank },
        }
    }

    /// Adds `row`, which is below 2^width, after the others. Whether it was outside their span; else nothing changes.
    fn add(&mut self, row: Row) -> bool
        requires { row.0 < 2 ^ self.old.width }
        ensures outside { result ≡ not (in_span self.old.log.rows row.0) }
        ensures added { self.new ≡ seen self.old.width (with_row self.old.log row.0) }
    {
        let Some(_) = self.space.insert(row) else {
            return false;
        };
        self.rows[self.len as usize] = row;
        self.len += 1;
        true
    }
}
