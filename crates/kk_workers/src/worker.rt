//! A gate with the pass through which its rows enter the table.
ghost use Rattle.std.specs.Prelude.{◌≡◌, ℕ, ◌<◌, length, replicate, slice_index_or, None, IfOk, IfErr};
ghost use Rattle.kk_code.specs.Ticket.{generations};
ghost use Rattle.kk_workers.specs.Worker.{new_worker};

use crate::Totals;
use crate::inserter::Inserter;
use kk_code::{Message, Ticket};
use kk_frame::GateCount;
use kk_outside::Gate;
use kk_rows::Alloc;
use kk_table::Pass;
use std::alloc::Global;
use std::marker::Model;

/// By generation the answer, where a worker froze it.
pub(crate) type Answers = Vec<Option<Option<Message>>>;

/// A gate, the pass for its rows, and what became of them.
///
/// Clauses see pass and gate, the counts of the gate, how the inserts were answered, and by generation the answer where
/// this worker froze it.
#[derive(Drop)]
pub struct Worker<G> {
    pub(crate) inserter: Inserter,
    pub(crate) gate: G,
    pub(crate) counts: GateCount,
}

impl<G> Model for Worker<G> {
    ghost use Rattle.kk_workers.specs.Worker.{WorkerView};

    ghost Value = { WorkerView G };

    ghost view = { λ w. record { pass = w.inserter.pass; gate = w.gate; counts = w.counts; totals = w.inserter.totals; answers = w.inserter.answers.items } };
}

/// There is no memory for a worker. Pass and gate are handed back.
#[derive(Drop)]
pub struct Unmade<G> {
    /// The pass.
    pub pass: Pass,
    /// The gate.
    pub gate: G,
}

/// Room for an answer of each generation, of which none was frozen.
pub(crate) fn no_answers(alloc: Global, generations: u32) -> Result<Answers, Alloc>
    ensures { IfOk result (λ answers. answers.items ≡ replicate generations None) }
{
    let mut answers = Vec::with_capacity(alloc, generations as usize)?;
    for i in 0..generations {
        answers.push_reserved(None);
    }
    Ok(answers)
}

/// A copy of the answer of the generation, where it was frozen.
pub(crate) fn answer_at(answers: &Answers, generation: u32) -> Option<Option<Message>>
    requires { generation < length answers.now.items }
    ensures { result ≡ slice_index_or answers.now.items generation None }
{
    match &answers[generation as usize] {
        None => None,
        Some(None) => Some(None),
        Some(Some(message)) => Some(Some(Message::from_slice(message.symbols()))),
    }
}

impl<G: Gate + Send> Worker<G> {
    /// A worker for the generations of a ticket, which hasn't worked. It takes all its memory here.
    ///
    /// # Errors
    ///
    /// [`Unmade`] where there is no memory.
    pub fn new(alloc: Global, pass: Pass, gate: G, ticket: &Ticket) -> Result<Worker<G>, Unmade<G>>
        ensures made { IfOk result (λ w. w ≡ new_worker (generations ticket.now) pass gate) }
        ensures unmade { IfErr result (λ u. (u.pass ≡ pass) × (u.gate ≡ gate)) }
    {
        match no_answers(alloc, ticket.generations()) {
            Ok(answers) => Ok(Worker::of(pass, gate, answers)),
            Err(_) => Err(Unmade { pass, gate }),
        }
    }

    /// A worker with room for its answers.
    pub(crate) fn of(pass: Pass, gate: G, answers: Answers) -> Worker<G>
        ensures { (n : ℕ) → answers.items ≡ replicate n None → result ≡ new_worker n pass gate }
    {
        Worker {
            inserter: Inserter {
                pass,
                totals: Totals::new(),
                answers,
            },
            gate,
            counts: GateCount::NONE,
        }
    }

    /// The counts of its gate. Before it has worked, nothing is counted, and the gate hasn't ended.
    pub fn counts(&self) -> GateCount
        ensures { result ≡ self.now.counts }
    {
        self.counts
    }

    /// The answer of the generation, where this worker froze it: `None` where it did not, and `Some(None)` where no message
    /// decodes the rows.
    pub fn answer(&self, generation: u32) -> Option<Option<Message>>
        requires { generation < length self.now.answers }
        ensures { result ≡ slice_index_or self.now.answers generation None }
    {
        answer_at(&self.inserter.answers, generation)
    }

    /// Its pass and its gate.
    pub fn into_parts(self) -> (Pass, G)
        ensures pass { result.0 ≡ self.pass }
        ensures gate { result.1 ≡ self.gate }
    {
        let inserter = self.inserter;
        (inserter.pass, self.gate)
    }

    /// The same, with the answers of the generations that it froze.
    pub(crate) fn into_all(self) -> (Pass, G, Answers)
        ensures pass { result.0 ≡ self.pass }
        ensures gate { result.1 ≡ self.gate }
        ensures answers { result.2.items ≡ self.answers }
    {
        let inserter = self.inserter;
        (inserter.pass, self.gate, inserter.answers)
    }
}
