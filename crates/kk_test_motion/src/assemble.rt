//! Files of one and of eleven bytes, in messages worked out apart from the program.
ghost use Rattle.std.specs.Prelude.{◌≡◌, ◌<◌, length, All, IfSome, IfOk};
ghost use Rattle.kk_code.specs.Codeword.{IsMessage};
ghost use Rattle.kk_code.specs.Ticket.{generations};

use kk_assemble::{cut, join};
use kk_code::{Message, Ticket};
use std::process::Abort;
use std::test::*;

/// Writes what the one message of a short file says of it.
fn through(file: &[u8], ticket: &Ticket, out: &mut [u8]) -> bool
    requires whole { length file.now ≡ ticket.now.length }
    requires room { length out.old ≡ ticket.now.length }
    requires one { generations ticket.now ≡ 1 }
{
    let message = cut(file, ticket, 0);
    join(&[Some(message)], ticket, out)
}

/// The ticket of a file of one byte: three messages of one symbol of three bits.
fn one_byte(rt: &impl Abort) -> Result<Ticket, Fail>
    ensures { IfOk result (λ t. (t.length ≡ 1) × (generations t ≡ 3) × (t.code.k ≡ 1) × (t.code.field.degree ≡ 3)) }
{
    let ticket = Ticket::read("kk1:00000001:3:0000000000000003:3:1:1")?;
    assert_eq!(rt; ticket.length(), 1);
    assert_eq!(rt; ticket.generations(), 3);
    assert_eq!(rt; ticket.code().k(), 1);
    assert_eq!(rt; ticket.code().m(), 3);
    Ok(ticket)
}

/// The ticket of a file of eleven bytes: six messages of three symbols of five bits.
fn eleven_bytes(rt: &impl Abort) -> Result<Ticket, Fail>
    ensures { IfOk result (λ t. (t.length ≡ 11) × (generations t ≡ 6)) }
{
    let ticket = Ticket::read("kk1:00000001:5:0000000000000005:3:3:11")?;
    assert_eq!(rt; ticket.length(), 11);
    assert_eq!(rt; ticket.generations(), 6);
    Ok(ticket)
}

/// A message of one symbol.
fn message(symbol: u64, ticket: &Ticket) -> Message
    requires below { symbol < 8 }
    requires one { ticket.now.code.k ≡ 1 }
    requires bits { ticket.now.code.field.degree ≡ 3 }
    ensures { IsMessage ticket.now.code result }
{
    Message::from_slice(&[symbol])
}

/// Joins the messages of these symbols, with the second one missing where it is `None`.
fn join_symbols(
    first: u64,
    second: Option<u64>,
    third: u64,
    ticket: &Ticket,
    file: &mut [u8],
) -> bool
    requires below { (first < 8) × IfSome second (λ symbol. symbol < 8) × (third < 8) }
    requires one_byte { (length file.old ≡ 1) × (ticket.now.length ≡ 1) }
    requires three { generations ticket.now ≡ 3 }
    requires one { ticket.now.code.k ≡ 1 }
    requires bits { ticket.now.code.field.degree ≡ 3 }
{
    let first = message(first, ticket);
    let third = message(third, ticket);
    let second = match second {
        Some(symbol) => Some(message(symbol, ticket)),
        None => None,
    };
    join(&[Some(first), second, Some(third)], ticket, file)
}

#[test]
fn one_byte_in_three_messages(rt: HostRuntime) -> Result<(), Fail> {
    let ticket = one_byte(&rt)?;
    for (generation, symbol) in [(0, 5), (1, 0), (2, 0)] {
        let message = cut(&[0xA0], &ticket, generation);
        assert_eq!(rt;
            message.symbols(),
            [symbol].as_slice(),
            "generation {generation}"
        );
    }
    // The last of its nine bits lies after the file.
    for (generation, symbol) in [(0, 7), (1, 7), (2, 6)] {
        let message = cut(&[0xFF], &ticket, generation);
        assert_eq!(rt;
            message.symbols(),
            [symbol].as_slice(),
            "generation {generation}"
        );
    }
    Ok(())
}

#[test]
fn three_messages_in_one_byte(rt: HostRuntime) -> Result<(), Fail> {
    let ticket = one_byte(&rt)?;
    let mut file = [0];
    assert!(rt; join_symbols(5, Some(0), 0, &ticket, &mut file));
    assert_eq!(rt; file, [0xA0]);
    assert!(rt; join_symbols(1, Some(2), 3, &ticket, &mut file));
    assert_eq!(rt; file, [0b0010_1001]);
    Ok(())
}

#[test]
fn a_missing_message_leaves_the_file(rt: HostRuntime) -> Result<(), Fail> {
    let ticket = one_byte(&rt)?;
    let mut file = [9];
    assert!(rt; !join_symbols(5, None, 0, &ticket, &mut file));
    assert_eq!(rt; file, [9]);
    Ok(())
}

#[test]
fn one_message_is_its_file(rt: HostRuntime) -> Result<(), Fail> {
    let ticket = Ticket::read("kk1:00000001:8:000000000000001b:4:1:1")?;
    assert_eq!(rt; ticket.length(), 1);
    assert_eq!(rt; ticket.generations(), 1);
    let mut file = [0];
    assert!(rt; through(&[0x51], &ticket, &mut file));
    assert_eq!(rt; file, [0x51]);
    Ok(())
}

/// Eight bytes that are written at once, and three more.
const ELEVEN_BYTES: [u8; 11] = [
    0x6B, 0x6B, 0x01, 0xFF, 0x00, 0x80, 0x7E, 0x3C, 0xC5, 0x12, 0xD9,
];

#[test]
fn eleven_bytes_in_six_messages(rt: HostRuntime) -> Result<(), Fail> {
    let ticket = eleven_bytes(&rt)?;
    let messages = [
        (0, [13, 13, 21]),
        (1, [16, 3, 31]),
        (2, [24, 0, 16]),
        (3, [1, 31, 3]),
        (4, [25, 17, 8]),
        (5, [18, 27, 4]),
    ];
    for (generation, symbols) in messages {
        let message = cut(&ELEVEN_BYTES, &ticket, generation);
        assert_eq!(rt;
            message.symbols(),
            symbols.as_slice(),
            "generation {generation}"
        );
    }
    Ok(())
}

#[test]
fn six_messages_in_eleven_bytes(rt: HostRuntime) -> Result<(), Fail> {
    let ticket = eleven_bytes(&rt)?;
    let answers = [
        Some(cut(&ELEVEN_BYTES, &ticket, 0)),
        Some(cut(&ELEVEN_BYTES, &ticket, 1)),
        Some(cut(&ELEVEN_BYTES, &ticket, 2)),
        Some(cut(&ELEVEN_BYTES, &ticket, 3)),
        Some(cut(&ELEVEN_BYTES, &ticket, 4)),
        Some(cut(&ELEVEN_BYTES, &ticket, 5)),
    ];
    let mut file = [0; 11];
    assert!(rt; join(&answers, &ticket, &mut file));
    assert_eq!(rt; file, ELEVEN_BYTES);
    Ok(())
}
