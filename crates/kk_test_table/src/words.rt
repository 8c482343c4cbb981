//! Lines, and what they ask for.
use kk_words::{Asked, Command, Name, WordsFault, read_words};
use kk_worked::words_of;
use std::alloc::{AllocError, Global};
use std::process::Abort;
use std::test::*;

/// What was asked for: the command, its numbers of these names, the seed, and the texts, with `-` for what isn't there.
fn text_of(alloc: Global, asked: &Asked, names: &[Name]) -> Result<String, AllocError> {
    let mut text = format!(in alloc; "{:?}", asked.command())?;
    for name in names {
        match asked.number(*name) {
            Some(number) => text.push_str(format!(in alloc; " {number}")?.as_str())?,
            None => text.push_str(" -")?,
        }
    }
    text.push_str(" ")?;
    text.push_str(asked.seed().unwrap_or("-"))?;
    for i in 0..asked.texts() {
        text.push_str(" ")?;
        text.push_str(asked.text(i))?;
    }
    Ok(text)
}

/// What the words of a line ask for.
fn told(alloc: Global, line: &str, names: &[Name]) -> Result<String, AllocError> {
    let words = words_of(alloc, line)?;
    match read_words(alloc, &words) {
        Ok(asked) => text_of(alloc, &asked, names),
        Err(fault) => format!(in alloc; "{fault:?}"),
    }
}

/// Each line asks for what stands beside it.
fn told_as(
    rt: &impl Abort,
    alloc: Global,
    names: &[Name],
    lines: &[(&str, &str)],
) -> Result<(), AllocError> {
    for (line, asked) in lines {
        let told = told(alloc, line, names)?;
        assert_eq!(rt; told.as_str(), *asked, "{line}");
    }
    Ok(())
}

/// Lines with what they ask for, and the number of `--most`.
const LINES: &[(&str, &str)] = &[
    (
        "plan 00000001 3 0000000000000003 3 1",
        "Plan - - 00000001 3 0000000000000003 3 1",
    ),
    ("pack T", "Pack - - T"),
    ("unpack T", "Unpack 10000000 - T"),
    // An option stands before, between or after the words, with its number in its own word or in the next.
    ("unpack T --most 5", "Unpack 5 - T"),
    ("unpack --most=5 T", "Unpack 5 - T"),
    ("plan 1 2 3 4 5 6", "Words"),
    ("plan 1 2 3 4", "Words"),
    ("pack", "Words"),
    ("pack T T", "Words"),
    ("pack T --most 5", "Words"),
    // Each option once, by its whole name.
    ("unpack T --most 5 --most 5", "Words"),
    ("unpack T --mos 5", "Words"),
    ("unpack T --Most 5", "Words"),
    ("unpack T -m 5", "Words"),
    // What the reader of an unsigned 64-bit number takes.
    ("unpack T --most +5", "Unpack 5 - T"),
    ("unpack T --most 005", "Unpack 5 - T"),
    ("unpack T --most +0", "Unpack 0 - T"),
    (
        "unpack T --most 18446744073709551615",
        "Unpack 18446744073709551615 - T",
    ),
    ("unpack T --most 18446744073709551616", "Words"),
    ("unpack T --most=", "Words"),
    ("unpack T --most", "Words"),
    ("unpack T --most ", "Words"),
    ("unpack T --most + ", "Words"),
    ("unpack T --most ++5", "Words"),
    ("unpack T --most 5.0", "Words"),
    ("unpack T --most 0x5", "Words"),
    ("unpack T --most -5", "Words"),
    ("unpack T --most=-5", "Words"),
    ("unpack T --most 5 ", "Words"),
    // An empty word and `-` are words like others, and so is any word after `--`.
    ("unpack ", "Unpack 10000000 - "),
    ("unpack -", "Unpack 10000000 - -"),
    ("unpack -- --most", "Unpack 10000000 - --most"),
    ("unpack --most 5 -- -x", "Unpack 5 - -x"),
    ("unpack -- T --most 5", "Words"),
    ("plan 1 -- -2 3 -- 5", "Plan - - 1 -2 3 -- 5"),
    ("unpack -x", "Words"),
    ("unpack help", "Unpack 10000000 - help"),
    ("unpack --help", "Words"),
    ("unpack --version", "Words"),
    ("unpack -h", "Words"),
    // The first word names the command, whatever it is.
    ("--most 5 unpack T", "Words"),
    ("-- unpack T", "Words"),
    ("Unpack T", "Words"),
    ("frob T", "Words"),
    ("help", "Words"),
    ("--help", "Words"),
    ("--version", "Words"),
    ("", "Words"),
];

#[test]
fn lines(rt: HostRuntime) -> Result<(), Fail> {
    told_as(&rt, rt.alloc(), &[Name::Most], LINES)?;
    Ok(())
}

/// The numbers of `send`, `relay` and `recv`.
const OF_THREE: &[Name] = &[
    Name::Extra,
    Name::Pack,
    Name::Rate,
    Name::Idle,
    Name::Most,
    Name::Tolerate,
];

const SEND: &[(&str, &str)] = &[
    ("send T A --seed 00", "Send 0 32 - - - - 00 T A"),
    ("send --seed=00 T A", "Send 0 32 - - - - 00 T A"),
    (
        "send T --pack 1 A --extra=5 --seed 00",
        "Send 5 1 - - - - 00 T A",
    ),
    ("send T A --seed 00 --extra +5", "Send 5 32 - - - - 00 T A"),
    ("send T A --seed 00 --extra -5", "Words"),
    ("send T A --seed 00 --extra=-5", "Words"),
    // A seed is any text that is no option of its own, and is given once.
    ("send T A --seed ", "Send 0 32 - - - -  T A"),
    ("send T A --seed=-1", "Send 0 32 - - - - -1 T A"),
    ("send T A --seed -1", "Words"),
    ("send T A --seed", "Words"),
    ("send T A", "Words"),
    ("send T A --seed 00 --seed 00", "Words"),
    ("send T --seed 00", "Words"),
    ("send T A B --seed 00", "Words"),
    ("send T A --seed 00 --most 5", "Words"),
    (
        "send --seed 00 -- T --extra",
        "Send 0 32 - - - - 00 T --extra",
    ),
    ("send help A --seed 00", "Send 0 32 - - - - 00 help A"),
    ("send --help", "Words"),
];

#[test]
fn send(rt: HostRuntime) -> Result<(), Fail> {
    told_as(&rt, rt.alloc(), OF_THREE, SEND)?;
    Ok(())
}

const RELAY: &[(&str, &str)] = &[
    (
        "relay T A B --seed 00",
        "Relay - - 1 300 10000000 - 00 T A B",
    ),
    (
        "relay --rate 0 T --idle=7 A --most 5 B --seed 00",
        "Relay - - 0 7 5 - 00 T A B",
    ),
    // A relay listens at one address.
    ("relay T A --seed 00", "Words"),
    ("relay T A B C --seed 00", "Words"),
    ("relay T A B", "Words"),
    ("relay T A B --seed 00 --extra 1", "Words"),
    (
        "relay --seed 00 T -- A --rate",
        "Relay - - 1 300 10000000 - 00 T A --rate",
    ),
];

#[test]
fn relay(rt: HostRuntime) -> Result<(), Fail> {
    told_as(&rt, rt.alloc(), OF_THREE, RELAY)?;
    Ok(())
}

const RECV: &[(&str, &str)] = &[
    ("recv T A", "Recv - - - 300 10000000 - - T A"),
    ("recv T A B C", "Recv - - - 300 10000000 - - T A B C"),
    // An option may part the addresses.
    ("recv T A --idle 3 B", "Recv - - - 3 10000000 - - T A B"),
    (
        "recv --most=5 T A B --idle 3 C",
        "Recv - - - 3 5 - - T A B C",
    ),
    (
        "recv T A --idle 3 -- B --most",
        "Recv - - - 3 10000000 - - T A B --most",
    ),
    ("recv -- T A", "Recv - - - 300 10000000 - - T A"),
    ("recv T  A ", "Recv - - - 300 10000000 - - T  A "),
    ("recv T", "Words"),
    ("recv T --idle 3", "Words"),
    ("recv", "Words"),
    ("recv T A --idle 3 --idle 3", "Words"),
    ("recv T A --seed 00", "Words"),
    ("recv T A -h", "Words"),
    ("recv T help", "Recv - - - 300 10000000 - - T help"),
    // A number of tolerated dimensions has no default.
    ("recv T A --tolerate 1", "Recv - - - 300 10000000 1 - T A"),
    (
        "recv --tolerate=+05 T A --most 5 B",
        "Recv - - - 300 5 5 - T A B",
    ),
    (
        "recv T A --tolerate 18446744073709551615",
        "Recv - - - 300 10000000 18446744073709551615 - T A",
    ),
    ("recv T A --tolerate 18446744073709551616", "Words"),
    ("recv T A --tolerate", "Words"),
    ("recv T A --tolerate=", "Words"),
    ("recv T A --tolerate -1", "Words"),
    ("recv T A --tolerate 1 --tolerate 1", "Words"),
    ("unpack T --tolerate 1", "Words"),
    ("relay T A B --seed 00 --tolerate 1", "Words"),
];

#[test]
fn recv(rt: HostRuntime) -> Result<(), Fail> {
    told_as(&rt, rt.alloc(), OF_THREE, RECV)?;
    Ok(())
}

const SIM: &[(&str, &str)] = &[
    ("sim T 4 0 16 --seed 00", "Sim 4 0 16 00 T"),
    (
        "sim --seed=00 T +4 -- 005 18446744073709551615",
        "Sim 4 5 18446744073709551615 00 T",
    ),
    // Each of the last three words is a number, and none may be missing.
    ("sim T 4 x 16 --seed 00", "Words"),
    ("sim T 4 4 18446744073709551616 --seed 00", "Words"),
    ("sim T  4 4 --seed 00", "Words"),
    ("sim T 4 4 -- -1 --seed 00", "Words"),
    ("sim T 4 4 --seed 00", "Words"),
    ("sim T 4 4 4 4 --seed 00", "Words"),
    ("sim T 4 4 4", "Words"),
    ("sim T 4 4 4 --seed 00 --most 5", "Words"),
    ("sim T 4 4 --gates 4 --seed 00", "Words"),
    // The ticket's word is any text.
    ("sim 1 2 3 4 --seed 00", "Sim 2 3 4 00 1"),
];

#[test]
fn sim(rt: HostRuntime) -> Result<(), Fail> {
    let names = &[Name::Erase, Name::Inject, Name::Gates];
    told_as(&rt, rt.alloc(), names, SIM)?;
    Ok(())
}

#[test]
fn no_words(rt: HostRuntime) -> Result<(), Fail> {
    let none = Vec::new(rt.alloc());
    assert!(rt; matches!(read_words(rt.alloc(), &none), Err(WordsFault::Words)));
    let fault = format!(in rt.alloc(); "{}; {}", WordsFault::Words, WordsFault::Alloc)?;
    assert_eq!(rt;
        fault.as_str(),
        "the words are not of a command's form; out of memory"
    );
    Ok(())
}

/// How many datagrams `unpack` takes at most, where the words ask for it, and with it the text of the ticket.
fn most_of_unpack(alloc: Global, words: &[String]) -> Result<Option<(String, u64)>, WordsFault> {
    let asked = read_words(alloc, words)?;
    if asked.command() != Command::Unpack {
        return Ok(None);
    }
    let ticket = String::from_str(alloc, asked.text(0))?;
    let most = asked.number(Name::Most).unwrap();
    Ok(Some((ticket, most)))
}

#[test]
fn unpack_has_a_ticket_and_a_most(rt: HostRuntime) -> Result<(), Fail> {
    let words = words_of(rt.alloc(), "unpack T --most 5")?;
    let asked = most_of_unpack(rt.alloc(), &words)?;
    assert!(rt; matches!(asked, Some((_, 5))));
    Ok(())
}
