//! The range of a number of an order.
ghost use Rattle.std.specs.Prelude.{◌≡◌, find, option_map};
ghost use Rattle.kk_order.specs.Order.{bound_of, is_outside, limit_of};

use crate::Order;
use kk_code::Ticket;

/// The most bytes of a number's name, for which a line of a report has room.
pub const MAX_NAME_BYTES: usize = 40;

/// The most that a number may be.
#[derive(Clone, Copy, Debug, PartialEq, Eq)]
pub enum Limit {
    /// This number.
    Exactly(u64),
    /// The degree m of the ticket's code.
    Degree,
    /// The points l of the ticket's code.
    Points,
    /// Half of l - k, rounded down: the numbers n with k + 2 n at most l.
    Tolerated,
}

impl Limit {
    /// The number that this is under a ticket.
    fn under(self, ticket: &Ticket) -> u64
        ensures { result ≡ limit_of ticket.now self }
    {
        let code = ticket.code();
        match self {
            Limit::Exactly(number) => number,
            Limit::Degree => u64::from(code.m()),
            Limit::Points => u64::from(code.l()),
            Limit::Tolerated => u64::from((code.l() - code.k()) / 2),
        }
    }
}

/// The range of a number. A number that is absent breaks nothing.
#[derive(Clone, Copy, Debug)]
pub struct Bound {
    /// The number's name.
    pub name: &'static str,
    /// The least that it may be.
    pub least: u64,
    /// The most that it may be.
    pub most: Limit,
}

impl Bound {
    /// Whether the order has this number, out of this range.
    fn is_broken_by(&self, order: &Order) -> bool
        ensures { result ≡ is_outside order.now (bound_of self.now) }
    {
        match order.number(self.name) {
            Some(number) => number < self.least || number > self.most.under(order.ticket()),
            None => false,
        }
    }
}

/// The first range that the order breaks.
pub(crate) fn first_broken_bound<'b>(bounds: &'b [Bound], order: &Order) -> Option<&'b Bound>
    ensures { option_map (λ bound. bound.now) result ≡ find (λ bound. is_outside order.now (bound_of bound)) bounds.now }
{
    bounds.iter().find(
        |bound|
            ensures { result ≡ is_outside order.entry.now (bound_of bound.now.now) }
        { bound.is_broken_by(order) },
    )
}
