//! The encoder by tables.
ghost use Rattle.std.specs.Prelude.{◌≡◌, ℕ, ◌*◌, ◌/◌, ◌^◌, ◌<◌, ◌≤◌, All, length, slice_index, IfOk};
ghost use Rattle.kk_code.specs.Codeword.{IsInRange, IsMessage, codeword, width};
ghost use Rattle.kk_code.specs.Encoder.{AreElements, AreTables, next_term, per_word, word_of};
ghost use Rattle.kk_tables.specs.declared.bytes.TheConstants.{ENTRIES};

use crate::multiples::make_table;
use crate::terms::Terms;
use crate::{Code, CodeRows, MAX_POINTS, Message};
use kk_field::Steps;
use kk_rows::Alloc;
use kk_tables::FieldTables;
use kk_tables::bytes::{ENTRIES, image_of};
use std::alloc::Global;
use std::marker::{Brand, Model};
use std::sync::ledger::{Blank, Ledger};

/// The encoder of a code, by tables that are made once: for who encodes many messages. It takes 16 KB for each symbol.
///
/// The value of a message's polynomial at 2^i is the sum of its symbols, symbol j times the i-th power of X^(2^j). So each
/// symbol is multiplied by X^(2^j) from one row to the next. These products are an additive map of the symbol, and a word
/// has room for the products by several powers: one look-up gives the terms of as many rows.
#[derive(Drop)]
pub struct Encoder {
    code: Code,
    per_word: u32,
    tables: Vec<[u64; ENTRIES]>,
}

// Clauses see the parameters of the code.
impl Model for Encoder {
    ghost use Rattle.kk_code.specs.Codeword.{Parameters};
    ghost use Rattle.kk_code.specs.Encoder.{IsEncoder};

    ghost Value = { Parameters };

    ghost view = { λ e. e.code };

    ghost invariant = { λ e. IsEncoder e.code e.per_word e.tables.items };
}

/// The tables of a code's symbols, with a step counter of their own, whose steps count for nobody.
fn tables_of<L: Ledger>(
    alloc: Global,
    code: &Code,
    blank: Blank,
) -> Result<Vec<[u64; ENTRIES]>, Alloc>
    requires name { blank.name ≡ L.name }
    requires parts { blank.parts ≡ L.parts }
    requires some { 0 < blank.parts }
    ensures { IfOk result (λ tables. AreTables code.now (per_word code.now) tables.items) }
{
    let k = code.k() as usize;
    let mut tables = Vec::with_capacity(alloc, k)?;
    let field = FieldTables::new(code.field());
    let mut steps = Steps::<L>::new(blank);
    let mut base = 2;
    for j in 0..k {
        tables.push_reserved([0; ENTRIES]);
        make_table(&mut tables[j], &field, base, 64 / code.m(), &mut steps);
        base = field.square(base, &mut steps);
    }
    Ok(tables)
}

impl Encoder {
    /// The encoder of the code. It takes all its memory here.
    ///
    /// # Errors
    ///
    /// [`Alloc`] where there is no memory.
    pub fn new(alloc: Global, code: &Code) -> Result<Self, Alloc>
        ensures { IfOk result (λ encoder. encoder ≡ code.now) }
    {
        Ok(Encoder {
            code: *code,
            per_word: 64 / code.m(),
            tables: tables_of::<Brand>(alloc, code, Blank::new(1))?,
        })
    }

    /// The codeword of a message, as [`crate::encode`] gives it, without a product of the field.
    pub fn encode(&self, u: &Message) -> CodeRows
        requires { IsMessage self.now u.now }
        ensures rows { result ≡ codeword self.now u.now }
        ensures count { length result ≡ self.now.l }
        ensures below { All (λ r. r < 2 ^ width self.now) result }
    {
        let l = self.code.l();
        let mut terms = Terms::of(u);
        let mut rows = CodeRows::new();
        for i in 0..l {
            let x = 1 << i;
            let y = terms.next(self);
            rows.push(self.code.row(x, y));
        }
        rows
    }

    /// How many values a word has, and how many bits each.
    pub(crate) fn layout(&self) -> (u32, u32)
        ensures count { result.0 ≡ 64 / self.now.field.degree }
        ensures bits { result.1 ≡ self.now.field.degree }
        ensures in_range { IsInRange self.now }
    {
        (self.per_word, self.code.m())
    }

    /// The next values of the terms, one word of the sums of all, and the terms themselves as they stand after these.
    pub(crate) fn advance(&self, terms: &mut [u64; MAX_POINTS]) -> u64
        requires below { AreElements self.now terms.old }
        ensures below { AreElements self.now terms.new }
        ensures word { result ≡ word_of self.now terms.old }
        ensures terms { (j : ℕ) → j < self.now.k → slice_index terms.new j ≡ next_term self.now (slice_index terms.old j) j }
    {
        let m = self.code.m();
        if m <= 8 {
            self.advance_by(terms, 1)
        } else if m <= 32 {
            self.advance_by(terms, 4)
        } else if m <= 40 {
            self.advance_by(terms, 5)
        } else {
            self.advance_by(terms, 8)
        }
    }

    /// The same for elements of at most `bytes` bytes.
    #[inline(always)]
    fn advance_by(&self, terms: &mut [u64; MAX_POINTS], bytes: usize) -> u64
        requires below { AreElements self.now terms.old }
        requires enough { self.now.field.degree ≤ 8 * bytes }
        requires few { bytes ≤ 8 }
        ensures below { AreElements self.now terms.new }
        ensures word { result ≡ word_of self.now terms.old }
        ensures terms { (j : ℕ) → j < self.now.k → slice_index terms.new j ≡ next_term self.now (slice_index terms.old j) j }
    {
        let m = self.code.m();
        let last = (self.per_word - 1) * m;
        let mut word = 0;
        for j in 0..self.code.k() as usize {
            let table = &self.tables[j];
            let products = image_of(table, terms[j], bytes);
            word ^= products;
            terms[j] = products >> last;
        }
        word
    }
}
