//! Lines by the forms of two commands.
use kk_forms::{Argument, Form, WordsFault};
use kk_worked::words_of;
use std::alloc::Global;
use std::test::*;

/// The form of a command that copies a text to files, some times.
const COPY: Form = Form {
    name: "copy",
    arguments: &[
        Argument::Word("TEXT"),
        Argument::Words("FILE"),
        Argument::NumberOption {
            name: "times",
            default: Some(1),
        },
    ],
};

/// What `copy` is to write, and how many times.
fn copied(alloc: Global, words: &[String]) -> Result<(String, u64), WordsFault> {
    let request = COPY.read(alloc, words)?;
    let text = String::from_str(alloc, request.text(0))?;
    let times = request.number("times").unwrap();
    Ok((text, times))
}

#[test]
fn copy_has_a_text_and_a_number(rt: HostRuntime) -> Result<(), Fail> {
    let words = words_of(rt.alloc(), "copy hi --times 3 a b")?;
    let (text, times) = copied(rt.alloc(), &words)?;
    assert_eq!(rt; text.as_str(), "hi");
    assert_eq!(rt; times, 3);
    Ok(())
}

/// A form with each kind of argument, options and words mixed.
const MIX: Form = Form {
    name: "mix",
    arguments: &[
        Argument::TextOption("key"),
        Argument::Word("A"),
        Argument::NumberWord("count"),
        Argument::NumberOption {
            name: "rate",
            default: Some(7),
        },
        Argument::NumberOption {
            name: "limit",
            default: None,
        },
        Argument::TextOption("label"),
        Argument::Words("REST"),
    ],
};

/// What the words of a line ask for by `MIX`: its numbers, its options, and the texts.
fn told(alloc: Global, line: &str) -> Result<String, Fail> {
    let words = words_of(alloc, line)?;
    let request = match MIX.read(alloc, &words) {
        Ok(request) => request,
        Err(fault) => return Ok(format!(in alloc; "{fault:?}")?),
    };
    let mut text = format!(in alloc;
        "{:?} {:?} {:?} {:?} {:?}",
        request.number("count"),
        request.number("rate"),
        request.number("limit"),
        request.option("key"),
        request.option("label")
    )?;
    for i in 0..request.texts() {
        text.push_str(" ")?;
        text.push_str(request.text(i))?;
    }
    Ok(text)
}

/// Lines with what they ask for.
const LINES: [(&str, &str); 10] = [
    (
        "mix a 3 b --key k --label l",
        "Some(3) Some(7) None Some(\"k\") Some(\"l\") a b",
    ),
    (
        "mix --rate 5 a --limit=9 3 b --label l c --key=",
        "Some(3) Some(5) Some(9) Some(\"\") Some(\"l\") a b c",
    ),
    // The first word is the form's name.
    ("mixed a 3 b --key k --label l", "Words"),
    ("mi a 3 b --key k --label l", "Words"),
    ("", "Words"),
    // Each required option is there, each word, and a number at its place.
    ("mix a 3 b --key k", "Words"),
    ("mix a 3 --key k --label l", "Words"),
    ("mix a x b --key k --label l", "Words"),
    // What is a word is no option, and an option no word.
    ("mix a b --count 3 --key k --label l", "Words"),
    ("mix k a 3 b --label l", "Words"),
];

#[test]
fn lines(rt: HostRuntime) -> Result<(), Fail> {
    for (line, asked) in LINES {
        let told = told(rt.alloc(), line)?;
        assert_eq!(rt; told.as_str(), asked, "{line}");
    }
    Ok(())
}

#[test]
fn other_names_have_nothing(rt: HostRuntime) -> Result<(), Fail> {
    let words = words_of(rt.alloc(), "mix a 3 b --key k --label l")?;
    let request = MIX.read(rt.alloc(), &words)?;
    assert!(rt; request.number("key").is_none());
    assert!(rt; request.option("count").is_none());
    assert!(rt; request.option("A").is_none());
    Ok(())
}
