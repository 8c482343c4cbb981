//! Decoding where nobody counts the steps, and the answer of what a pass has seen.
ghost use Rattle.std.specs.Prelude.{◌≡◌, ℕ, ◌<◌, List, IfSome, IfNone};
ghost use Rattle.kk_code.specs.Codeword.{width};
ghost use Rattle.kk_code.specs.Decoding.{Decodes, answer};
ghost use Rattle.kk_table.specs.Rule.{sight};

use kk_code::{Code, Message};
use kk_decode::{Scratch, decode_space};
use kk_field::Steps;
use kk_rows::RowSpace;
use kk_table::Pass;
use std::marker::Brand;
use std::sync::ledger::{Blank, Ledger};

/// [`kk_decode::decode_space`] for who counts no steps: they count for nobody.
pub fn decode_uncounted(code: &Code, space: &RowSpace, scratch: &mut Scratch) -> Option<Message>
    requires width { space.now.width ≡ width code.now }
    ensures some { IfSome result (Decodes code.now space.now.rows) }
    ensures none { IfNone result ((u : List ℕ) → Decodes code.now space.now.rows u → ⊥) }
    ensures answer { result ≡ answer code.now space.now.rows }
{
    decode_named::<Brand>(code, space, scratch, Blank::new(1))
}

/// The same with a name for the step counter.
fn decode_named<L: Ledger>(
    code: &Code,
    space: &RowSpace,
    scratch: &mut Scratch,
    blank: Blank,
) -> Option<Message>
    requires name { blank.name ≡ L.name }
    requires parts { blank.parts ≡ L.parts }
    requires one_or_more { 0 < blank.parts }
    requires width { space.now.width ≡ width code.now }
    ensures some { IfSome result (Decodes code.now space.now.rows) }
    ensures none { IfNone result ((u : List ℕ) → Decodes code.now space.now.rows u → ⊥) }
    ensures answer { result ≡ answer code.now space.now.rows }
{
    let mut steps = Steps::<L>::new(blank);
    decode_space(code, space, scratch, &mut steps)
}

/// What the rows decode to that the pass has seen of the generation.
pub(crate) fn decode_seen(
    code: &Code,
    pass: &Pass,
    generation: u32,
    scratch: &mut Scratch,
) -> Option<Message>
    requires generation { generation < pass.now.table.shape.generations }
    requires wide { pass.now.table.shape.width ≡ width code.now }
    ensures { result ≡ answer code.now (sight pass.now.known generation).rows }
{
    decode_uncounted(code, pass.space(generation), scratch)
}
