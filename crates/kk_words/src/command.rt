//! The commands, and the form of each.
ghost use Rattle.std.specs.Prelude.{◌≡◌, IsTrue, map, string_bytes};
ghost use Rattle.kk_forms.specs.Form.{form_of as seen_form, is_sound};
ghost use Rattle.kk_words.specs.Commands.{command_named, form_of, named_in};

use crate::argument::{
    ERASE, EXTRA, GATES, IDLE, INJECT, LISTEN, MOST, PACK, RATE, SEED, TARGET, TICKET, TOLERATE,
};
use kk_forms::{Argument, Form};

/// A command of the program.
#[derive(Clone, Copy, Debug, PartialEq, Eq)]
pub enum Command {
    Plan,
    Pack,
    Unpack,
    Send,
    Relay,
    Recv,
    Sim,
}

impl Command {
    /// The command that a first word names.
    pub fn named(name: &str) -> Option<Command>
        ensures { result ≡ command_named name.now }
    {
        match name {
            "plan" => Some(Command::Plan),
            "pack" => Some(Command::Pack),
            "unpack" => Some(Command::Unpack),
            "send" => Some(Command::Send),
            "relay" => Some(Command::Relay),
            "recv" => Some(Command::Recv),
            "sim" => Some(Command::Sim),
            _ => None,
        }
    }

    /// The form of the command: its first word, and its arguments, the words in the order in which they are given.
    pub(crate) fn form(self) -> Form
        ensures form { seen_form result ≡ form_of self }
        ensures sound { IsTrue (is_sound (seen_form result)) }
    {
        match self {
            // A session, the code's parameters, and nothing on the file, whose length the source tells.
            Command::Plan => Form {
                name: "plan",
                arguments: &[
                    Argument::Word("SESSION"),
                    Argument::Word("M"),
                    Argument::Word("MOD"),
                    Argument::Word("L"),
                    Argument::Word("K"),
                ],
            },
            Command::Pack => Form {
                name: "pack",
                arguments: &[TICKET],
            },
            Command::Unpack => Form {
                name: "unpack",
                arguments: &[TICKET, MOST],
            },
            Command::Send => Form {
                name: "send",
                arguments: &[TICKET, TARGET, SEED, EXTRA, PACK],
            },
            Command::Relay => Form {
                name: "relay",
                arguments: &[TICKET, TARGET, LISTEN, SEED, RATE, IDLE, MOST],
            },
            // A receiver listens at one address or more.
            Command::Recv => Form {
                name: "recv",
                arguments: &[TICKET, Argument::Words("LISTEN"), IDLE, MOST, TOLERATE],
            },
            // What a channel does to each generation, and how many gates hear it.
            Command::Sim => Form {
                name: "sim",
                arguments: &[TICKET, ERASE, INJECT, GATES, SEED],
            },
        }
    }
}

/// The command that the first of these words names.
pub fn command_in(words: &[String]) -> Option<Command>
    ensures { result ≡ named_in (map string_bytes words.now) }
{
    Command::named(words.first()?.as_str())
}
