//! The parameters of a code.
ghost use Rattle.std.specs.Prelude.{◌≡◌, ◌-◌, ◌/◌, ◌%◌, ◌^◌, ◌<◌, ◌≤◌, IfOk, IfErr};
ghost use Rattle.kk_code.specs.Codeword.{Parameters, IsInRange, IsCode, row_of, width};
ghost use Rattle.kk_code.specs.Limits.{IsFirstBroken};
ghost use Rattle.kk_code.specs.Ticket.{message_bits};

use crate::BadParams;
use kk_field::Field;
use kk_rows::Row;
use std::marker::Model;

/// The most evaluation points of a code, and so the most rows of a codeword and the most symbols of a message.
pub const MAX_POINTS: usize = 64;

/// The code of Kötter and Kschischang (IEEE Trans. Inf. Theory 54(8), 2008, section IV) over GF(2^m), with `l`
/// evaluation points and messages of `k` symbols.
///
/// `m` is 2 to 64, `l` is 1 to `m`, and `k` is 1 to `l`.
#[derive(Clone, Copy, Debug, PartialEq, Eq)]
pub struct Code {
    field: Field,
    l: u32,
    k: u32,
}

// Clauses see the parameters.
impl Model for Code {
    ghost use Rattle.kk_code.specs.Codeword.{Parameters, IsInRange, IsCode};

    ghost Value = { Parameters };

    ghost view = { λ c. record { field = c.field; l = c.l; k = c.k } };

    ghost invariant = { λ c. IsInRange (record { field = c.field; l = c.l; k = c.k }) × IsCode (record { field = c.field; l = c.l; k = c.k }) };

    ghost inverse = { λ p. record { field = p.field; l = p.l; k = p.k } };
}

impl Code {
    /// The code over the field with `l` evaluation points and messages of `k` symbols.
    ///
    /// # Errors
    ///
    /// The first limit that is broken: `M`, `L` or `K`.
    pub fn new(field: Field, l: u32, k: u32) -> Result<Self, BadParams>
        ensures code { IfOk result (λ code. code ≡ record { field = field; l = l; k = k }) }
        ensures in_range { IfOk result IsInRange }
        ensures broken { IfErr result (IsFirstBroken (record { field = field; l = l; k = k })) }
    {
        let m = field.ring().m();
        if m < 2 || m > 64 {
            return Err(BadParams::M);
        }
        if l < 1 || l > m {
            return Err(BadParams::L);
        }
        if k < 1 || k > l {
            return Err(BadParams::K);
        }
        Ok(Code::from_parts(field, l, k))
    }

    /// The code of parameters that are known to be in range.
    pub(crate) fn from_parts(field: Field, l: u32, k: u32) -> Self
        requires { IsInRange (record { field = field; l = l; k = k }) }
        ensures { result ≡ record { field = field; l = l; k = k } }
    {
        // its modulus is irreducible, which a code asks of its field
        let _ring = field.ring();
        Code { field, l, k }
    }

    /// The field of the symbols.
    pub fn field(&self) -> Field
        ensures field { result ≡ self.now.field }
        ensures in_range { IsInRange self.now }
        ensures code { IsCode self.now }
    {
        self.field
    }

    /// The degree of the field: a symbol has `m` bits.
    pub fn m(&self) -> u32
        ensures degree { result ≡ self.now.field.degree }
        ensures in_range { IsInRange self.now }
    {
        self.field.ring().m()
    }

    /// How many evaluation points it has, and so how many rows a codeword.
    pub fn l(&self) -> u32
        ensures points { result ≡ self.now.l }
        ensures in_range { IsInRange self.now }
        ensures code { IsCode self.now }
    {
        self.l
    }

    /// How many symbols a message has.
    pub fn k(&self) -> u32
        ensures symbols { result ≡ self.now.k }
        ensures in_range { IsInRange self.now }
        ensures code { IsCode self.now }
    {
        self.k
    }

    /// How many bits a message has: `k` symbols of `m`.
    pub fn message_bits(&self) -> u32
        ensures bits { result ≡ message_bits self.now }
        ensures in_range { IsInRange self.now }
    {
        self.k * self.m()
    }

    /// How many bits a row has, `l + m`.
    pub fn width(&self) -> u32
        ensures bits { result ≡ width self.now }
        ensures in_range { IsInRange self.now }
    {
        self.l + self.m()
    }

    /// The row of an x-part and a y-part, which are elements of the field.
    pub(crate) fn row(&self, x: u64, y: u64) -> Row
        requires x_below { x < 2 ^ self.now.field.degree }
        requires y_below { y < 2 ^ self.now.field.degree }
        ensures { result.0 ≡ row_of self.now x y }
    {
        let (high, low) = (u128::from(x), u128::from(y));
        Row((high << self.m()) + low)
    }

    /// The x-part and the y-part of a row, which has `l + m` bits: both are elements of the field.
    pub fn parts(&self, row: Row) -> (u64, u64)
        requires { row.0 < 2 ^ width self.now }
        ensures x { result.0 ≡ row.0 / 2 ^ self.now.field.degree }
        ensures y { result.1 ≡ row.0 % 2 ^ self.now.field.degree }
        ensures x_below { result.0 < 2 ^ self.now.field.degree }
        ensures y_below { result.1 < 2 ^ self.now.field.degree }
    {
        let m = self.m();
        let y = row.0 & u128::from(mask(m));
        ((row.0 >> m) as u64, y as u64)
    }
}

/// The lowest `m` ones of a word.
pub(crate) fn mask(m: u32) -> u64
    requires fits { m ≤ 64 }
    requires some { 1 ≤ m }
    ensures { result ≡ 2 ^ m - 1 }
{
    u64::MAX >> (64 - m)
}
