//! Worked tickets, codewords, distances and moduli.
ghost use Rattle.std.specs.Prelude.{◌≡◌, ◌^◌, ◌<◌, length};
ghost use Rattle.kk_code.specs.Codeword.{IsMessage, codeword};

use kk_code::{
    BadParams, Code, CodeRows, Encoder, Message, Ticket, TicketFault, check_modulus, distance,
    encode,
};
use kk_field::Steps;
use kk_rows::{Alloc, Row, RowSpace};
use std::alloc::Global;
use std::marker::Brand;
use std::sync::ledger::{Blank, Ledger};
use std::test::Fail;

const ONE_BYTE: &str = "kk1:00000001:3:0000000000000003:3:1:1";

/// The codeword of u under the code of the ticket.
fn sent_rows<L: Ledger>(ticket: &Ticket, u: &Message, steps: &mut Steps<L>) -> CodeRows
    requires { IsMessage ticket.now.code u.now }
    ensures { result ≡ codeword ticket.now.code u.now }
{
    encode(&ticket.code(), u, steps)
}

/// The codeword of a message of one symbol.
fn rows_of_symbol<L: Ledger>(ticket: &Ticket, symbol: u64, blank: Blank) -> Option<CodeRows>
    requires name { blank.name ≡ L.name }
    requires parts { blank.parts ≡ L.parts }
    requires some { 0 < blank.parts }
{
    let code = ticket.code();
    if code.k() != 1 || symbol >> code.m() != 0 {
        return None;
    }
    let mut steps: Steps<L> = Steps::new(blank);
    Some(sent_rows(ticket, &Message::from_slice(&[symbol]), &mut steps))
}

#[test]
fn the_codeword_of_five_has_rows_13_17_34(rt: HostRuntime) -> Result<(), Fail> {
    let ticket = Ticket::read(ONE_BYTE)?;
    let rows = rows_of_symbol::<Brand>(&ticket, 5, Blank::new(1)).ok_or("no message")?;
    assert_eq!(rt; rows.as_slice(), [Row(13), Row(17), Row(34)].as_slice());
    Ok(())
}

/// The codeword of a message of one symbol over GF(2^64) at all evaluation points, by tables.
fn widest_rows(alloc: Global, symbol: u64) -> Result<Option<CodeRows>, Alloc> {
    let Ok(field) = check_modulus(64, 0x1b) else {
        return Ok(None);
    };
    let Ok(code) = Code::new(field, 64, 1) else {
        return Ok(None);
    };
    if u128::from(symbol) >> code.m() != 0 {
        return Ok(None);
    }
    let encoder = Encoder::new(alloc, &code)?;
    Ok(Some(encoder.encode(&Message::from_slice(&[symbol]))))
}

#[test]
fn the_widest_codeword_has_rows_of_128_bits(rt: HostRuntime) -> Result<(), Fail> {
    let rows = widest_rows(rt.alloc(), 1)?.ok_or("no code")?;
    let rows = rows.as_slice();
    assert_eq!(rt; rows.len(), 64);
    assert_eq!(rt; rows.first(), Some(&Row((1 << 64) + 1)));
    assert_eq!(rt; rows.last(), Some(&Row((1 << 127) + (1 << 63))));
    Ok(())
}

/// The codeword of a message of two symbols, by tables.
fn rows_by_tables(
    alloc: Global,
    ticket: &Ticket,
    symbols: (u64, u64),
) -> Result<Option<CodeRows>, Alloc> {
    let code = ticket.code();
    let m = code.m();
    if code.k() != 2 || symbols.0 >> m != 0 || symbols.1 >> m != 0 {
        return Ok(None);
    }
    let encoder = Encoder::new(alloc, &code)?;
    Ok(Some(encoder.encode(&Message::from_slice(&[symbols.0, symbols.1]))))
}

#[test]
fn tables_give_the_codeword_of_five_and_one(rt: HostRuntime) -> Result<(), Fail> {
    let ticket = Ticket::read("kk1:00000001:3:0000000000000003:3:2:1")?;
    let rows = rows_by_tables(rt.alloc(), &ticket, (5, 1))?.ok_or("no message")?;
    assert_eq!(rt; rows.as_slice(), [Row(12), Row(21), Row(36)].as_slice());
    Ok(())
}

#[test]
fn a_message_keeps_its_symbols(rt: HostRuntime) -> Result<(), Fail> {
    let message = Message::from_slice(&[5, 0, 7]);
    assert_eq!(rt; message.symbols(), [5, 0, 7].as_slice());
    Ok(())
}

fn generations(word: &str) -> Result<u32, TicketFault> {
    Ok(Ticket::read(word)?.generations())
}

#[test]
fn a_ticket_tells_what_its_text_spells(rt: HostRuntime) -> Result<(), Fail> {
    let word = "kk1:00c0ffee:4:0000000000000003:4:3:4096";
    let ticket = Ticket::read(word)?;
    assert_eq!(rt; ticket.session(), 0xc0ffee);
    assert_eq!(rt; ticket.length(), 4096);
    assert_eq!(rt; ticket.generations(), 2731);
    let code = ticket.code();
    assert_eq!(rt; [code.m(), code.l(), code.k(), code.width()], [4, 4, 3, 8]);
    assert_eq!(rt; ticket.write().as_str(), word);
    Ok(())
}

#[test]
fn texts_are_tickets_or_have_a_first_fault(rt: HostRuntime) {
    let shape = |at| Err(TicketFault::Shape { at });
    let range = |field| Err(TicketFault::Range { field });
    for (word, answer) in [
        ("kk1:00000001:3:0000000000000003:3:1:0", Ok(0)),
        (ONE_BYTE, Ok(3)),
        ("kk1:00000001:8:000000000000001b:4:2:1", Ok(1)),
        ("kk1:00000001:2:0000000000000003:1:1:4096", Ok(16384)),
        ("kk1:00000001:3:0000000000000003:3:01:1", shape(5)),
        ("kk1:00000001:8:000000000000001B:4:2:1", shape(3)),
        ("kk1:00000001", shape(2)),
        ("kk1:00000001:3:0000000000000003:3:1:1:", shape(7)),
        ("", shape(0)),
        ("kk1:00000001:99:0000000000000003:3:+1:1", shape(5)),
        ("kk1:00000001:63:0000000000000003:3:1:1", range(2)),
        ("kk1:00000001:3:0000000000000008:3:1:1", range(3)),
        ("kk1:00000001:32:0000000000000009:32:16:1", range(4)),
        ("kk1:00000001:4:0000000000000005:3:4:1", range(5)),
        (
            "kk1:00000001:4:0000000000000005:3:1:1",
            Err(TicketFault::NotIrreducible),
        ),
        (
            "kk1:00000001:2:0000000000000003:1:1:4097",
            Err(TicketFault::TooMany { generations: 16388 }),
        ),
    ] {
        assert_eq!(rt; generations(word), answer, "{word}");
    }
}

fn is_good(m: u32, low: u64) -> bool {
    (1..=64).contains(&m) && (m == 64 || low >> m == 0) && check_modulus(m, low).is_ok()
}

#[test]
fn the_moduli_for_users_are_irreducible(rt: HostRuntime) {
    for (m, low) in [
        (2, 3),
        (3, 3),
        (4, 3),
        (5, 5),
        (7, 3),
        (8, 0x1b),
        (15, 3),
        (31, 9),
        (64, 0x1b),
        (4, 15),
    ] {
        assert!(rt; is_good(m, low), "X^{m} + {low}");
    }
}

// A square, a fourth power, and a product modulo which X^16 is X all the same.
#[test]
fn products_of_degree_four_are_refused(rt: HostRuntime) {
    for low in [5, 1, 2] {
        assert!(rt; !is_good(4, low), "X^4 + {low}");
    }
}

#[test]
fn a_ticket_is_made_for_another_length(rt: HostRuntime) -> Result<(), Fail> {
    let ticket = Ticket::read("kk1:00000001:2:0000000000000003:1:1:0")?;
    assert_eq!(rt; ticket.max_length(), 4096);
    let full = ticket.with_length(4096)?;
    assert_eq!(rt;
        full.write().as_str(),
        "kk1:00000001:2:0000000000000003:1:1:4096"
    );
    assert_eq!(rt; full.generations(), 16_384);
    let refused = ticket.with_length(4097).err();
    assert_eq!(rt;
        refused,
        Some(TicketFault::TooMany {
            generations: 16_388
        })
    );
    Ok(())
}

/// The limit that is broken first, where the modulus X^m + low is irreducible.
fn broken(m: u32, low: u64, l: u32, k: u32) -> Option<BadParams> {
    if !(1..=64).contains(&m) || (m < 64 && low >> m != 0) {
        return None;
    }
    let field = check_modulus(m, low).ok()?;
    Code::new(field, l, k).err()
}

#[test]
fn the_first_broken_limit_is_named(rt: HostRuntime) {
    for (m, low, l, k, limit) in [
        (3, 3, 3, 1, None),
        (1, 1, 0, 0, Some(BadParams::M)),
        (64, 0x1b, 64, 64, None),
        (64, 0x1b, 65, 65, Some(BadParams::L)),
        (3, 3, 0, 0, Some(BadParams::L)),
        (3, 3, 4, 5, Some(BadParams::L)),
        (40, 0x39, 40, 40, None),
        (3, 3, 3, 0, Some(BadParams::K)),
        (3, 3, 3, 4, Some(BadParams::K)),
    ] {
        assert_eq!(rt; broken(m, low, l, k), limit);
    }
}

/// The span of 9, 18 and `last`, of six bits.
fn spanned(last: Row) -> RowSpace
    requires { last.0 < 2 ^ 6 }
    ensures { result.width ≡ 6 }
{
    let mut space = RowSpace::new(6);
    let _ = space.insert(Row(9));
    let _ = space.insert(Row(18));
    let _ = space.insert(last);
    space
}

#[test]
fn spaces_of_three_dimensions_with_two_in_common(rt: HostRuntime) {
    let (a, b) = (spanned(Row(8)), spanned(Row(36)));
    assert_eq!(rt; distance(&a, &b), 2);
    assert_eq!(rt; distance(&a, &a), 0);
}
