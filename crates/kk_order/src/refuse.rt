//! The report of words that are refused.
ghost use Rattle.std.specs.Prelude.{◌≡◌, ◌≤◌, ◌++◌, codes, length};
ghost use Rattle.arrayvec.specs.ArrayString.{array_string_len};
ghost use Rattle.kk_outside.specs.Change.{change};
ghost use Rattle.kk_outside.specs.Sink.{WasGiven};
ghost use Rattle.kk_order.specs.declared.bound.TheConstants.{MAX_NAME_BYTES};
ghost use Rattle.kk_order.specs.Order.{FitsLine, cause_of};
ghost use Rattle.kk_order.specs.Refuses.{cause_text, refused_text, status_of, ticket_text};

use crate::OrderFault;
use kk_code::TicketFault;
use kk_outside::{Sink, write_all};
use kk_report::{Line, line_of, numbered, status_line};

/// Writes the report of words that are refused, and answers its status, whether or not the report can be written.
pub fn refuse_words<P: Sink>(fault: OrderFault, report: &mut P) -> u8
    requires line { FitsLine (cause_of fault) }
    ensures status { result ≡ status_of (cause_of fault) }
    ensures given { WasGiven (refused_text (cause_of fault)) (change (P.told report.old) (P.told report.new)) }
{
    let _ = write_all(report, refused_text(fault).as_str().as_bytes());
    status_of(fault)
}

/// The number that the process ends with.
fn status_of(fault: OrderFault) -> u8
    ensures { result ≡ status_of (cause_of fault) }
{
    match fault {
        OrderFault::Words => 1,
        OrderFault::Ticket(_) => 2,
        OrderFault::Seed | OrderFault::Range(_) | OrderFault::Listen => 11,
        OrderFault::Memory => 8,
    }
}

/// The whole report.
fn refused_text(fault: OrderFault) -> Line
    requires line { FitsLine (cause_of fault) }
    ensures { result.bytes ≡ refused_text (cause_of fault) }
{
    let mut text = cause_text(fault);
    text.push_str("\n");
    text.push_str(status_line(status_of(fault)).as_str());
    text
}

/// The cause, without a line feed.
fn cause_text(fault: OrderFault) -> Line
    requires line { FitsLine (cause_of fault) }
    ensures text { result.bytes ≡ cause_text (cause_of fault) }
    ensures short { array_string_len result ≤ 48 }
{
    match fault {
        OrderFault::Words => line_of("words"),
        OrderFault::Ticket(wrong) => ticket_text(wrong),
        OrderFault::Seed => line_of("range seed"),
        OrderFault::Range(name) => range_text(name),
        OrderFault::Listen => line_of("range listen"),
        OrderFault::Memory => line_of("memory"),
    }
}

/// Which number is out of its range, without a line feed.
fn range_text(name: &str) -> Line
    requires short { length name.now ≤ MAX_NAME_BYTES }
    ensures text { result.bytes ≡ codes "range " ++ name.now }
    ensures short { array_string_len result ≤ 48 }
{
    let mut text = line_of("range ");
    text.push_str(name);
    text
}

/// Why a text is no ticket, without a line feed.
fn ticket_text(fault: TicketFault) -> Line
    ensures text { result.bytes ≡ ticket_text fault }
    ensures short { array_string_len result ≤ 48 }
{
    match fault {
        TicketFault::Shape { at } => numbered("ticket shape ", u64::from(at)),
        TicketFault::Range { field } => numbered("ticket range ", u64::from(field)),
        TicketFault::NotIrreducible => line_of("ticket not irreducible"),
        TicketFault::TooMany { generations } => {
            numbered("ticket too many generations ", generations)
        }
    }
}
