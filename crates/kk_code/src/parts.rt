//! The parts of a ticket's text.
ghost use Rattle.std.specs.Prelude.{◌≡◌, ◌^◌, ◌<◌, ◌≤◌, if◌then◌else◌, Some, None, Ok, Err, IfSome, IfNone, IfOk, MatchResult, slice_get, option_map};
ghost use Rattle.std.specs.Char.{is_ascii_digit};
ghost use Rattle.std.specs.List.{list_all};
ghost use Rattle.std.specs.Str.Parse.{digits_value};
ghost use Rattle.kk_code.specs.Codeword.{IsInRange, IsNarrow};
ghost use Rattle.kk_code.specs.TicketText.{parts, part_at, has_form, is_mark, is_hex, is_hex_digit, is_decimal, shape_fault, range_fault, spelled};

use crate::Code;
use kk_field::Field;
use std::marker::Model;

/// The numbers that the parts of a text spell.
#[derive(Clone, Copy)]
pub(crate) struct Parts {
    pub(crate) session: u32,
    pub(crate) m: u64,
    pub(crate) low: u64,
    pub(crate) l: u64,
    pub(crate) k: u64,
    pub(crate) length: u64,
}

impl Model for Parts {
    ghost use Rattle.kk_code.specs.Ticket.{TicketFields};

    ghost Value = { TicketFields };

    ghost view = { λ p. record {
      session = p.session;
      code = record { field = record { degree = p.m; low = p.low }; l = p.l; k = p.k };
      length = p.length;
    } };

    ghost inverse = { λ t. record {
      session = t.session;
      m = t.code.field.degree;
      low = t.code.field.low;
      l = t.code.l;
      k = t.code.k;
      length = t.length;
    } };
}

/// Part number `at` of the text, counted from 0.
fn part(word: &str, at: u32) -> Option<&str>
    ensures { option_map (λ p. p.now) result ≡ slice_get (parts word.now) at }
{
    word.split(':').nth(at as usize)
}

/// Whether the text has no other characters than 0-9 and a-f.
fn are_hex_digits(text: &[u8]) -> bool
    ensures { result ≡ list_all is_hex_digit text.now }
{
    text.iter().all(|c| matches!(c, b'0'..=b'9' | b'a'..=b'f'))
}

/// Whether the text has no other characters than 0-9.
fn are_digits(text: &[u8]) -> bool
    ensures { result ≡ list_all is_ascii_digit text.now }
{
    text.iter().all(|c| c.is_ascii_digit())
}

/// Whether the text is `width` characters of 0-9 and a-f.
#[tactic(auto, unfolding(crate::specs::TicketText::is_hex))]
fn is_hex(text: &[u8], width: usize) -> bool
    ensures { result ≡ is_hex width text.now }
{
    text.len() == width && are_hex_digits(text)
}

/// Whether the text is 1 to 10 digits with no leading zero.
#[tactic(auto, unfolding(crate::specs::TicketText::is_decimal))]
fn is_decimal(text: &[u8]) -> bool
    ensures { result ≡ is_decimal text.now }
{
    if text.is_empty() || text.len() > 10 {
        return false;
    }
    if text[0] == b'0' && text.len() > 1 {
        return false;
    }
    are_digits(text)
}

/// The number that exactly `width` characters of 0-9 and a-f spell.
fn hex(text: &str, width: usize) -> Option<u64>
    requires positive { 0 < width }
    requires wide { width ≤ 16 }
    ensures value { result ≡ (if is_hex width text.now then Some (digits_value 16 text.now) else None) }
    ensures below { IfSome result (λ n. n < 16 ^ width) }
{
    if is_hex(text.as_bytes(), width) {
        u64::from_str_radix(text, 16).ok()
    } else {
        None
    }
}

/// The number that a decimal spells.
fn decimal(text: &str) -> Option<u64>
    ensures value { result ≡ (if is_decimal text.now then Some (digits_value 10 text.now) else None) }
    ensures below { IfSome result (λ n. n < 10 ^ 10) }
{
    if is_decimal(text.as_bytes()) {
        text.parse().ok()
    } else {
        None
    }
}

/// Whether the text begins with the mark of this version.
fn has_mark(word: &str) -> bool
    ensures { result ≡ has_form is_mark word.now 0 }
{
    part(word, 0).is_some_and(|mark| mark == "kk1")
}

/// The number in part number `at`, which is the error where the part is missing or has another form.
fn hex_part(word: &str, at: u32, width: usize) -> Result<u64, u32>
    requires positive { 0 < width }
    requires wide { width ≤ 16 }
    ensures value { result ≡ (if has_form (is_hex width) word.now at then Ok (digits_value 16 (part_at word.now at)) else Err at) }
    ensures below { IfOk result (λ n. n < 16 ^ width) }
{
    match part(word, at) {
        Some(text) => hex(text, width).ok_or(at),
        None => Err(at),
    }
}

/// The number in part number `at`, which is the error where the part is missing or has another form.
fn decimal_part(word: &str, at: u32) -> Result<u64, u32>
    ensures value { result ≡ (if has_form is_decimal word.now at then Ok (digits_value 10 (part_at word.now at)) else Err at) }
    ensures below { IfOk result (λ n. n < 10 ^ 10) }
{
    match part(word, at) {
        Some(text) => decimal(text).ok_or(at),
        None => Err(at),
    }
}

impl Parts {
    /// The numbers that the text spells, or the number of the part at which its shape is wrong.
    pub(crate) fn read(word: &str) -> Result<Self, u32>
        ensures value { MatchResult result
            (λ p. (shape_fault word.now ≡ None) × (spelled word.now ≡ p))
            (λ at. shape_fault word.now ≡ Some at) }
        ensures length { IfOk result (λ p. p.length < 10 ^ 10) }
    {
        if !has_mark(word) {
            return Err(0);
        }
        let session = hex_part(word, 1, 8)?;
        let m = decimal_part(word, 2)?;
        let low = hex_part(word, 3, 16)?;
        let l = decimal_part(word, 4)?;
        let k = decimal_part(word, 5)?;
        let length = decimal_part(word, 6)?;
        if part(word, 7).is_some() {
            return Err(7);
        }
        Ok(Parts {
            session: session as u32,
            m,
            low,
            l,
            k,
            length,
        })
    }

    /// The number of the first part that is out of its range.
    #[tactic(auto, unfolding(crate::specs::TicketText::range_fault))]
    pub(crate) fn range_fault(&self) -> Option<u32>
        ensures fault { result ≡ range_fault self.now.code }
        ensures in_range { IfNone result (IsInRange self.now.code) }
        ensures narrow { IfNone result (IsNarrow self.now.code) }
    {
        if self.m < 2 || self.m > 62 {
            return Some(2);
        }
        if self.low >> self.m != 0 {
            return Some(3);
        }
        if self.l < 1 || self.l > self.m || self.l + self.m > 63 {
            return Some(4);
        }
        if self.k < 1 || self.k > self.l {
            return Some(5);
        }
        None
    }

    /// The code, over the field of its modulus.
    pub(crate) fn code(&self, field: Field) -> Code
        requires in_range { IsInRange self.now.code }
        requires same { field ≡ self.now.code.field }
        ensures { result ≡ self.now.code }
    {
        Code::from_parts(field, self.l as u32, self.k as u32)
    }
}
