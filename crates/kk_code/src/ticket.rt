//! Tickets: what sender, relays and receiver agree on before a transmission.
ghost use Rattle.std.specs.Prelude.{◌≡◌, ℕ, ◌^◌, ◌*◌, ◌/◌, ◌<◌, ◌≤◌, ◌↔◌, Ok, Err, IfOk, IfErr, IsErr};
ghost use Rattle.kk_code.specs.Codeword.{IsNarrow};
ghost use Rattle.kk_code.specs.Ticket.{TicketFields, message_bits, generations, for_length, ticket_text};
ghost use Rattle.kk_code.specs.TicketText.{IsTicket, IsTicketText, IsFirstFault, ticket_of};
ghost use Rattle.kk_code.specs.Reading.{IsRefused, IsAnswer};

use crate::parts::Parts;
use crate::writing::{push_decimal, push_hex};
use crate::{Code, TicketFault, check_modulus};
use arrayvec::ArrayString;
use std::marker::Model;

/// The most generations, and so the most messages of a file, that a ticket has.
pub const MAX_GENERATIONS: u32 = 16_384;

/// A session, the code of its frames and the length of its file.
#[derive(Clone, Copy)]
pub struct Ticket {
    session: u32,
    code: Code,
    length: u64,
    generation_count: u32,
}

impl Model for Ticket {
    ghost use Rattle.std.specs.Prelude.{◌≡◌};
    ghost use Rattle.kk_code.specs.Ticket.{TicketFields, generations};
    ghost use Rattle.kk_code.specs.TicketText.{IsTicket};

    ghost Value = { TicketFields };

    ghost view = { λ t. record { session = t.session; code = t.code; length = t.length } };

    ghost invariant = { λ t. IsTicket (record { session = t.session; code = t.code; length = t.length }) × (t.generation_count ≡ generations (record { session = t.session; code = t.code; length = t.length })) };

    ghost inverse = { λ t. record { session = t.session; code = t.code; length = t.length; generation_count = generations t } };
}

impl Ticket {
    /// The number that the frames of the transmission carry.
    pub fn session(&self) -> u32
        ensures session { result ≡ self.now.session }
        ensures ticket { IsTicket self.now }
    {
        self.session
    }

    /// The code of the transmission.
    pub fn code(&self) -> Code
        ensures code { result ≡ self.now.code }
        ensures ticket { IsTicket self.now }
    {
        self.code
    }

    /// How many bytes the file has.
    pub fn length(&self) -> u64
        ensures length { result ≡ self.now.length }
        ensures short { result < 2 ^ 22 }
        ensures ticket { IsTicket self.now }
    {
        self.length
    }

    /// How many messages the file takes.
    pub fn generations(&self) -> u32
        ensures count { result ≡ generations self.now }
        ensures ticket { IsTicket self.now }
    {
        self.generation_count
    }

    /// How many bytes a file has at most for a ticket with this session and code.
    pub fn max_length(&self) -> u64
        ensures value { result ≡ MAX_GENERATIONS * message_bits self.now.code / 8 }
        ensures fits { (length : ℕ) → (length ≤ result) ↔ (generations (for_length self.now length) ≤ MAX_GENERATIONS) }
        ensures short { result < 2 ^ 22 }
    {
        let code = self.code();
        u64::from(MAX_GENERATIONS * (code.k() * code.m())) / 8
    }

    /// The ticket with this session and code for a file of `length` bytes, which is below 10^10.
    ///
    /// # Errors
    ///
    /// `TooMany`, exactly where the file takes more than [`MAX_GENERATIONS`] generations.
    pub fn with_length(&self, length: u64) -> Result<Self, TicketFault>
        requires { length < 10 ^ 10 }
        ensures ticket { IfOk result (λ t. t ≡ for_length self.now length) }
        ensures too_many { IfErr result (λ fault. fault ≡ TicketFault.TooMany (generations (for_length self.now length))) }
        ensures refused { IsErr result ↔ (MAX_GENERATIONS < generations (for_length self.now length)) }
    {
        Self::of(self.session(), self.code(), length)
    }

    /// The ticket that the text is, one word `kk1:SESSION:M:MOD:L:K:LENGTH`.
    ///
    /// SESSION is 8 and MOD 16 characters of 0-9 and a-f, the session and the low part of the modulus. M, L, K and
    /// LENGTH are decimals of at most 10 digits with no leading zero: the degree, the evaluation points, the symbols
    /// of a message and the bytes of the file.
    ///
    /// # Errors
    ///
    /// The first fault of a text that is no ticket.
    pub fn read(word: &str) -> Result<Self, TicketFault>
        ensures value { result ≡ ticket_of word.now }
        ensures ticket { IfOk result (IsTicketText word.now) }
        ensures every { (t : TicketFields) → IsTicketText word.now t → result ≡ Ok t }
        ensures refused { IsErr result ↔ IsRefused word.now }
        ensures fault { (fault : TicketFault) → (result ≡ Err fault) ↔ IsFirstFault word.now fault }
    {
        Self::answer(word)
    }

    /// The one text of the ticket, which [`Ticket::read`] takes to it. It has at most 46 characters.
    pub fn write(&self) -> ArrayString<64>
        ensures text { result.bytes ≡ ticket_text self.now }
        ensures read { IsTicketText result.bytes self.now }
    {
        let code = self.code();
        let mut text = ArrayString::new();
        text.push_str("kk1");
        push_hex(&mut text, u64::from(self.session()), 8);
        push_decimal(&mut text, code.m());
        push_hex(&mut text, code.field().ring().low(), 16);
        push_decimal(&mut text, code.l());
        push_decimal(&mut text, code.k());
        push_decimal(&mut text, self.length() as u32);
        text
    }

    /// What the text is read as.
    fn answer(word: &str) -> Result<Self, TicketFault>
        ensures { IsAnswer word.now result }
    {
        let parts = match Parts::read(word) {
            Ok(parts) => parts,
            Err(at) => return Err(TicketFault::Shape { at }),
        };
        if let Some(field) = parts.range_fault() {
            return Err(TicketFault::Range { field });
        }
        let Ok(field) = check_modulus(parts.m as u32, parts.low) else {
            return Err(TicketFault::NotIrreducible);
        };
        Self::of(parts.session, parts.code(field), parts.length)
    }

    /// The ticket of these parts, unless the file takes too many generations.
    fn of(session: u32, code: Code, length: u64) -> Result<Self, TicketFault>
        requires short { length < 10 ^ 10 }
        requires narrow { IsNarrow code }
        ensures ticket { IfOk result (λ t. t ≡ record { session = session; code = code; length = length }) }
        ensures too_many { IfErr result (λ fault. fault ≡ TicketFault.TooMany (generations (record { session = session; code = code; length = length }))) }
        ensures refused { IsErr result ↔ (MAX_GENERATIONS < generations (record { session = session; code = code; length = length })) }
    {
        let bits = u64::from(code.k() * code.m());
        let generations = (8 * length + (bits - 1)) / bits;
        if generations > u64::from(MAX_GENERATIONS) {
            return Err(TicketFault::TooMany { generations });
        }
        Ok(Ticket {
            session,
            code,
            length,
            generation_count: generations as u32,
        })
    }
}
