//! Messages: what a codeword is made from.
ghost use Rattle.std.specs.Prelude.{◌≡◌, ◌≤◌, List, ℕ, length};
ghost use Rattle.kk_code.specs.declared.code.TheConstants.{MAX_POINTS};

use crate::MAX_POINTS;
use arrayvec::ArrayVec;
use std::marker::Model;

/// At most [`MAX_POINTS`] symbols of a field, in order. It takes no memory from an allocator.
#[derive(Debug, PartialEq, Eq, Drop)]
pub struct Message {
    symbols: ArrayVec<u64, MAX_POINTS>,
}

impl Model for Message {
    ghost Value = { List ℕ };

    ghost view = { λ u. u.symbols.items };

    ghost inverse = { λ s. record { symbols = record { items = s } } };
}

impl Message {
    /// The message with these symbols.
    pub fn from_slice(symbols: &[u64]) -> Self
        requires { length symbols.now ≤ MAX_POINTS }
        ensures { result ≡ symbols.now }
    {
        let mut message = ArrayVec::new();
        message.try_extend_from_slice(symbols).unwrap();
        Message { symbols: message }
    }

    /// The symbols, in order.
    pub fn symbols(&self) -> &[u64]
        ensures symbols { result.now ≡ self.now }
        ensures few { length result.now ≤ MAX_POINTS }
    {
        self.symbols.as_slice()
    }
}
