//! What is closed and decoded once all gates have ended.
ghost use Rattle.std.specs.Prelude.{◌≡◌, ◌+◌, ◌<◌, ◌≤◌, [], length, map, vec_capacity, All};
ghost use Rattle.std.specs.List.{range_with_len};
ghost use Rattle.kk_code.specs.Codeword.{width};
ghost use Rattle.kk_code.specs.Decoding.{answer};
ghost use Rattle.kk_table.specs.Rule.{sight};
ghost use Rattle.kk_workers.specs.WorkerCalls.{SamePass};
ghost use Rattle.kk_workers.specs.Runs.{Closes, lists_in, kept_answer as answer_in, closing_answer};

use crate::decoding::decode_seen;
use crate::worker::{Answers, answer_at};
use kk_code::{Code, Message};
use kk_decode::Scratch;
use kk_table::{GenTable, Pass};

/// Closes each generation that no worker has an answer of, in order. The pass has then seen the whole log of each of these.
pub(crate) fn close_all(table: &GenTable, pass: &mut Pass, generations: u32, kept: &[Answers])
    requires table { pass.old.table ≡ table.now }
    requires generations { generations ≡ table.now.shape.generations }
    requires kept { All (λ room. length room.items ≡ generations) kept.now }
    requires first { pass.old.known.calls ≡ [] }
    ensures pass { SamePass pass.old pass.new }
    ensures closes { Closes (lists_in kept.now) generations pass.new.known }
{
    for generation in 0..generations {
        close_open(table, pass, generation, kept);
    }
}

/// Closes the generation where no worker has an answer of it.
fn close_open(table: &GenTable, pass: &mut Pass, generation: u32, kept: &[Answers])
    requires table { pass.old.table ≡ table.now }
    requires generation { generation < table.now.shape.generations }
    requires kept { All (λ room. generation < length room.items) kept.now }
    ensures pass { SamePass pass.old pass.new }
    ensures closes { Closes (lists_in kept.now) generation pass.old.known → Closes (lists_in kept.now) (generation + 1) pass.new.known }
{
    if kept_answer(kept, generation).is_none() {
        let _ = table.freeze(pass, generation);
    }
}

/// Gives each generation its answer: that of the worker that froze it, or else that of what the pass has seen.
pub(crate) fn decode_all(
    code: &Code,
    pass: &Pass,
    generations: u32,
    kept: &[Answers],
    answers: &mut Vec<Option<Message>>,
)
    requires generations { generations ≡ pass.now.table.shape.generations }
    requires wide { pass.now.table.shape.width ≡ width code.now }
    requires kept { All (λ room. length room.items ≡ generations) kept.now }
    requires empty { answers.old.items ≡ [] }
    requires room { generations ≤ vec_capacity answers.old }
    ensures { answers.new.items ≡ map (closing_answer code.now (lists_in kept.now) pass.now.known) (range_with_len 0 generations) }
{
    let mut scratch = Scratch::new();
    for generation in 0..generations {
        answers.push_reserved(answer_of(code, pass, generation, kept, &mut scratch));
    }
}

/// The answer of a generation.
fn answer_of(
    code: &Code,
    pass: &Pass,
    generation: u32,
    kept: &[Answers],
    scratch: &mut Scratch,
) -> Option<Message>
    requires generation { generation < pass.now.table.shape.generations }
    requires wide { pass.now.table.shape.width ≡ width code.now }
    requires kept { All (λ room. generation < length room.items) kept.now }
    ensures { result ≡ closing_answer code.now (lists_in kept.now) pass.now.known generation }
{
    match kept_answer(kept, generation) {
        Some(answer) => answer,
        None => decode_seen(code, pass, generation, scratch),
    }
}

/// The answer of the generation that a worker has, if one has it.
fn kept_answer(kept: &[Answers], generation: u32) -> Option<Option<Message>>
    requires { All (λ room. generation < length room.items) kept.now }
    ensures { result ≡ answer_in (lists_in kept.now) generation }
{
    for room in kept {
        if let Some(answer) = answer_at(room, generation) {
            return Some(answer);
        }
    }
    None
}
