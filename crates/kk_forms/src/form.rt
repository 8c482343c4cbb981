//! The form of a command.
ghost use Rattle.std.specs.Prelude.{◌≡◌, false};
ghost use Rattle.clap.specs.Walk.{rule_of};
ghost use Rattle.kk_forms.specs.Form.{argument_of, name_of, rule_of_argument};

use clap::{Arg, ArgAction, value_parser};
use std::alloc::Global;

/// An argument of a command, with its name.
#[derive(Clone, Copy, Debug)]
pub enum Argument {
    /// A required word, of any text.
    Word(&'static str),
    /// One word or more, each of any text, after all other words.
    Words(&'static str),
    /// The option `--name TEXT`, which is required.
    TextOption(&'static str),
    /// The option `--name N`, which may be left out.
    NumberOption {
        /// The long name.
        name: &'static str,
        /// The number where none is given, if there is one then.
        default: Option<u64>,
    },
    /// A required word that is a number.
    NumberWord(&'static str),
}

impl Argument {
    /// What the argument is called. An option has this long name.
    pub(crate) fn name(&self) -> &'static str
        ensures { result.now ≡ name_of (argument_of self.now) }
    {
        match self {
            Argument::Word(name)
            | Argument::Words(name)
            | Argument::TextOption(name)
            | Argument::NumberOption { name, .. }
            | Argument::NumberWord(name) => *name,
        }
    }

    /// The argument as clap knows it.
    pub(crate) fn clap_arg<'a>(&self, alloc: Global) -> Arg<'a>
        ensures rule { rule_of result ≡ rule_of_argument (argument_of self.now) }
        ensures local { result.global ≡ false }
    {
        let name: &'a str = self.name();
        let argument = Arg::new(alloc, name);
        match self {
            Argument::Word(_) => argument.required(true),
            Argument::Words(_) => argument.required(true).num_args(1..),
            Argument::TextOption(_) => argument.long(name).action(ArgAction::Set).required(true),
            Argument::NumberOption { .. } => argument
                .long(name)
                .action(ArgAction::Set)
                .value_parser(value_parser!(u64)),
            Argument::NumberWord(_) => argument.required(true).value_parser(value_parser!(u64)),
        }
    }
}

/// The form of a command: which words it takes.
#[derive(Clone, Copy, Debug)]
pub struct Form {
    /// The first word.
    pub name: &'static str,
    /// The arguments. Words are given in this order.
    pub arguments: &'static [Argument],
}
