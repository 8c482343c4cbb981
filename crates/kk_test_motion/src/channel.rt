//! The codeword of 5 over GF(8), with the rows 13, 17 and 34, through channels.
ghost use Rattle.std.specs.Prelude.{◌≡◌, ◌<◌, Some, IfSome};
ghost use Rattle.kk_code.specs.Codeword.{IsMessage};

use crate::words::Words;
use kk_channel::{ChannelRows, pass_through};
use kk_code::{Code, Message, Ticket, encode};
use kk_decode::{Loss, Scratch, channel_loss, decode};
use kk_field::Steps;
use kk_rows::Row;
use rand_core::Rng;
use std::marker::Brand;
use std::sync::ledger::{Blank, Ledger};
use std::test::Fail;

/// Sends a message through a channel that erases and injects half as many dimensions as the radius, and answers what the rows
/// that come out decode to: the message.
fn received<L: Ledger, R: Rng>(
    code: &Code,
    u: &Message,
    rng: &mut R,
    steps: &mut Steps<L>,
) -> Option<Message>
    requires { IsMessage code.now u.now }
    ensures { result ≡ Some u.now }
{
    let half = (code.l() - code.k()) / 2;
    let codeword = encode(code, u, steps);
    let passed = pass_through(code, &codeword, half, half, rng);
    decode(code, passed.as_slice(), &mut Scratch::new(), steps)
}

/// The message of one symbol, where the code has it.
fn message(code: &Code, symbol: u64) -> Option<Message>
    ensures { IfSome result (IsMessage code.now) }
{
    if code.k() != 1 || u128::from(symbol) >> code.m() != 0 {
        return None;
    }
    Some(Message::from_slice(&[symbol]))
}

/// What comes out of a channel for the message of one symbol, with what was lost and added.
fn passed<L: Ledger>(
    code: &Code,
    symbol: u64,
    erase: u32,
    inject: u32,
    rng: &mut Words,
    blank: Blank,
) -> Option<(ChannelRows, Loss)>
    requires name { blank.name ≡ L.name }
    requires parts { blank.parts ≡ L.parts }
    requires some { 0 < blank.parts }
{
    let u = message(code, symbol)?;
    if erase > code.l() || inject > code.m() {
        return None;
    }
    let mut steps: Steps<L> = Steps::new(blank);
    let codeword = encode(code, &u, &mut steps);
    let rows = pass_through(code, &codeword, erase, inject, rng);
    let loss = channel_loss(code, &u, rows.as_slice(), &mut steps);
    Some((rows, loss))
}

/// What the message of one symbol is decoded to on the radius.
fn decoded<L: Ledger>(code: &Code, symbol: u64, rng: &mut Words, blank: Blank) -> Option<Message>
    requires name { blank.name ≡ L.name }
    requires parts { blank.parts ≡ L.parts }
    requires some { 0 < blank.parts }
{
    let u = message(code, symbol)?;
    let mut steps: Steps<L> = Steps::new(blank);
    received(code, &u, rng, &mut steps)
}

const SMALL: &str = "kk1:00000001:3:0000000000000003:3:1:1";

// One of each, two of each, none, and all of them; and no word too many.
#[test]
fn so_many_dimensions_are_erased_and_injected(rt: HostRuntime) -> Result<(), Fail> {
    let code = Ticket::read(SMALL)?.code();
    for (words, erase, inject, rows, next) in [
        (
            [0, 1, 3, 0, 1, 2, 0, 0, 0, 0, 0],
            1,
            1,
            [Row(28), Row(62), Row(12)].as_slice(),
            2,
        ),
        (
            [7, 1, 3, 5, 1, 7, 2, 4, 0, 0, 0],
            2,
            2,
            [Row(62), Row(12), Row(18)].as_slice(),
            4,
        ),
        (
            [0, 1, 3, 5, 0, 0, 0, 0, 0, 0, 0],
            0,
            0,
            [Row(13), Row(28), Row(62)].as_slice(),
            5,
        ),
        (
            [0, 0, 0, 0, 0, 0, 0, 0, 0, 6, 0],
            3,
            3,
            [Row(1), Row(2), Row(4)].as_slice(),
            6,
        ),
    ] {
        let mut rng = Words::new(words);
        let (out, loss) = passed::<Brand>(&code, 5, erase, inject, &mut rng, Blank::new(1)).ok_or(
            "no such message or channel",
        )?;
        assert_eq!(rt; out.as_slice(), rows);
        assert_eq!(rt; [loss.erased, loss.injected], [erase, inject]);
        assert_eq!(rt; rng.next_u64(), next);
    }
    Ok(())
}

#[test]
fn the_message_is_decoded_on_the_radius(rt: HostRuntime) -> Result<(), Fail> {
    let code = Ticket::read(SMALL)?.code();
    let mut rng = Words::new([0, 1, 3, 0, 1, 0, 0, 0, 0, 0, 0]);
    let answer = decoded::<Brand>(&code, 5, &mut rng, Blank::new(1)).ok_or("no answer")?;
    assert_eq!(rt; answer.symbols(), [5].as_slice());
    Ok(())
}
