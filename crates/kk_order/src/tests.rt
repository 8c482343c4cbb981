//! The orders of lines, by the forms of the commands.
use super::*;
use kk_forms::{Argument, Form};
use std::alloc::{AllocError, Global};
use std::test::*;

/// The form of a command that unpacks a capture.
const UNPACK: OrderForm = OrderForm {
    words: Form {
        name: "unpack",
        arguments: &[
            Argument::Word("TICKET"),
            Argument::NumberOption {
                name: "most",
                default: Some(10_000_000),
            },
        ],
    },
    ticket: TicketPlace::First,
    bounds: &[Bound {
        name: "most",
        least: 1,
        most: Limit::Exactly(DATAGRAMS_LIMIT),
    }],
    listeners: None,
};

/// How many bytes the file has that is asked for, and how many pieces are taken at most.
fn asked(alloc: Global, words: &[String]) -> Result<(u64, u32), OrderFault> {
    let order = match UNPACK.read(alloc, words) {
        Ok(order) => order,
        Err(fault) => return Err(fault),
    };
    let most = order.number("most").unwrap();
    Ok((order.ticket().length(), most as u32))
}

/// The form of a command with texts, a seed, and a number that may be absent.
const MIX: OrderForm = OrderForm {
    words: Form {
        name: "mix",
        arguments: &[
            Argument::Word("TICKET"),
            Argument::NumberWord("erase"),
            Argument::Words("LISTEN"),
            Argument::TextOption("seed"),
            Argument::NumberOption {
                name: "tolerate",
                default: None,
            },
        ],
    },
    ticket: TicketPlace::First,
    bounds: &[
        Bound {
            name: "tolerate",
            least: 0,
            most: Limit::Tolerated,
        },
        Bound {
            name: "erase",
            least: 1,
            most: Limit::Points,
        },
    ],
    listeners: Some(2),
};

/// What the words of a line ask for by `MIX`: the generations, the numbers, the first byte of the seed, and the texts.
fn told(alloc: Global, line: &str) -> Result<String, Fail> {
    let words = words_of(alloc, line)?;
    let order = match MIX.read(alloc, &words) {
        Ok(order) => order,
        Err(fault) => return Ok(format!(in alloc; "{fault:?}")?),
    };
    let mut text = format!(in alloc;
        "{} {:?} {:?} {}",
        order.ticket().generations(),
        order.number("tolerate"),
        order.number("erase"),
        order.seed().unwrap()[0]
    )?;
    for i in 0..order.texts() {
        text.push_str(" ")?;
        text.push_str(order.text(i))?;
    }
    Ok(text)
}

/// The words of a line, parted by single spaces.
fn words_of(alloc: Global, line: &str) -> Result<Vec<String>, AllocError> {
    let mut words = Vec::new(alloc);
    for word in line.split(' ') {
        words.push(String::from_str(alloc, word)?)?;
    }
    Ok(words)
}

#[test]
fn pieces_of_a_capture(rt: HostRuntime) -> Result<(), Fail> {
    let line = "unpack kk1:00000001:3:0000000000000003:3:1:1 --most 7";
    let words = words_of(rt.alloc(), line)?;
    assert!(rt; matches!(asked(rt.alloc(), &words), Ok((1, 7))));
    Ok(())
}

/// A ticket of three generations, and a seed, with which the lines are completed.
const TICKET: &str =
    "mix kk1:00000001:3:0000000000000003:3:1:1 --seed 0700000000000000000000000000000000000000000000000000000000000000";

/// What follows a ticket and a seed, with what is asked for.
const LINES: [(&str, &str); 6] = [
    (
        " 3 A B --tolerate 1",
        "3 Some(1) Some(3) 7 kk1:00000001:3:0000000000000003:3:1:1 A B",
    ),
    (
        " 1 A",
        "3 None Some(1) 7 kk1:00000001:3:0000000000000003:3:1:1 A",
    ),
    (" 0 A --tolerate 2", "Range(\"tolerate\")"),
    (" 0 A B C", "Range(\"erase\")"),
    (" 1 A B C", "Listen"),
    (" 1", "Words"),
];

#[test]
fn lines(rt: HostRuntime) -> Result<(), Fail> {
    for (end, asked) in LINES {
        let mut line = String::from_str(rt.alloc(), TICKET)?;
        line.push_str(end)?;
        let told = told(rt.alloc(), line.as_str())?;
        assert_eq!(rt; told.as_str(), asked, "{end}");
    }
    Ok(())
}
