//! What a receiver leaves.
ghost use Rattle.std.specs.Prelude.{◌≡◌, ◌<◌, length, slice_get, Some};
ghost use Rattle.kk_rows.specs.Rows.{numbers};
ghost use Rattle.kk_machine.specs.Steps.{IsLog};
ghost use Rattle.kk_table.specs.Logs.{log_at};

use crate::Totals;
use kk_code::Message;
use kk_frame::GateCount;
use kk_rows::Row;
use kk_table::Logs;
use std::marker::Model;

/// The logs of all generations, what they decode to, and what is counted. [`crate::receive`] makes it.
#[derive(Drop)]
pub struct Received {
    pub(crate) logs: Logs,
    pub(crate) answers: Vec<Option<Message>>,
    pub(crate) gates: Vec<GateCount>,
    pub(crate) totals: Totals,
}

impl Model for Received {
    ghost use Rattle.std.specs.Prelude.{◌≡◌, length};
    ghost use Rattle.kk_workers.specs.Received.{ReceivedView};

    ghost Value = { ReceivedView };

    ghost view = { λ r. record { logs = r.logs; answers = r.answers.items; gates = r.gates.items; totals = r.totals } };

    ghost invariant = { λ r. length r.answers.items ≡ r.logs.shape.generations };
}

impl Received {
    /// The logs of the table, with the records of its passes.
    pub fn logs(&self) -> &Logs
        ensures { result.now ≡ self.now.logs }
    {
        &self.logs
    }

    /// The same, handed out.
    pub fn into_logs(self) -> Logs
        ensures { result ≡ self.logs }
    {
        self.logs
    }

    /// The frozen rows of the generation, in the order in which they were added. They are independent.
    pub fn log(&self, generation: u32) -> &[Row]
        requires { generation < self.now.logs.shape.generations }
        ensures rows { numbers result.now ≡ (log_at self.now.logs.logs generation).rows }
        ensures log { IsLog self.now.logs.shape.width (log_at self.now.logs.logs generation) }
    {
        self.logs.rows(generation)
    }

    /// How many generations there are, numbered from 0. Each has a log and an answer.
    pub fn generations(&self) -> u32
        ensures count { result ≡ self.now.logs.shape.generations }
        ensures one_answer_each { length self.now.answers ≡ result }
    {
        self.logs.generations()
    }

    /// The answer of each generation: the message that its rows decode to, if there is one.
    pub fn answers(&self) -> &[Option<Message>]
        ensures { result.now ≡ self.now.answers }
    {
        &self.answers
    }

    /// The counts of all gates, in their order.
    pub fn gates(&self) -> &[GateCount]
        ensures { result.now ≡ self.now.gates }
    {
        &self.gates
    }

    /// The counts of gate number `i`, counted from 0.
    pub fn gate(&self, i: usize) -> GateCount
        requires { i < length self.now.gates }
        ensures { slice_get self.now.gates i ≡ Some result }
    {
        self.gates[i]
    }

    /// How the inserts of all gates were answered.
    pub fn totals(&self) -> Totals
        ensures { result ≡ self.now.totals }
    {
        self.totals
    }
}
