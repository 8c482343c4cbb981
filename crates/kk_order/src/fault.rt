//! Why words give no order.
ghost use Rattle.std.specs.Prelude.{◌≡◌};
ghost use Rattle.kk_order.specs.declared.fault.OrderFault.TheVariants.{Memory};

use kk_code::TicketFault;
use std::alloc::AllocError;

/// Why words give no order.
#[derive(Clone, Copy, Debug)]
pub enum OrderFault {
    /// The words are not of the form.
    Words,
    /// The text that should be a ticket is none.
    Ticket(TicketFault),
    /// The seed is not 64 hexadecimal digits.
    Seed,
    /// The number of this name is out of its range.
    Range(&'static str),
    /// There are more addresses than the form has listeners.
    Listen,
    /// There is no memory. It is answered only where the first word is the form's name.
    Memory,
}

impl From<AllocError> for OrderFault {
    ghost from_gives = { λ _ why. why ≡ Memory };

    fn from(_: AllocError) -> OrderFault {
        OrderFault::Memory
    }
}
