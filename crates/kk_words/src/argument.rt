//! What a command may be given.
ghost use Rattle.std.specs.Prelude.{◌≡◌};
ghost use Rattle.kk_words.specs.Arguments.{text_of_name};

use kk_forms::Argument;

/// The long name of the option of a seed.
pub(crate) const SEED_NAME: &str = "seed";

pub(crate) const TICKET: Argument = Argument::Word("TICKET");

pub(crate) const TARGET: Argument = Argument::Word("TARGET");

pub(crate) const LISTEN: Argument = Argument::Word("LISTEN");

pub(crate) const SEED: Argument = Argument::TextOption("seed");

pub(crate) const EXTRA: Argument = Argument::NumberOption {
    name: "extra",
    default: Some(0),
};

pub(crate) const PACK: Argument = Argument::NumberOption {
    name: "pack",
    default: Some(32),
};

pub(crate) const RATE: Argument = Argument::NumberOption {
    name: "rate",
    default: Some(1),
};

pub(crate) const IDLE: Argument = Argument::NumberOption {
    name: "idle",
    default: Some(300),
};

pub(crate) const MOST: Argument = Argument::NumberOption {
    name: "most",
    default: Some(10_000_000),
};

pub(crate) const TOLERATE: Argument = Argument::NumberOption {
    name: "tolerate",
    default: None,
};

pub(crate) const ERASE: Argument = Argument::NumberWord("erase");

pub(crate) const INJECT: Argument = Argument::NumberWord("inject");

pub(crate) const GATES: Argument = Argument::NumberWord("gates");

/// A number that a command may be given: by the option `--name N`, or as a word at a place of its own.
#[derive(Clone, Copy, Debug, PartialEq, Eq)]
pub enum Name {
    /// How many combinations of a generation's rows are sent after the rows themselves.
    Extra,
    /// How many frames a datagram has.
    Pack,
    /// How many combinations are sent for each data frame that comes.
    Rate,
    /// How many times in a row a gate may tell that nothing came, before it ends.
    Idle,
    /// How many datagrams are taken of a gate.
    Most,
    /// How many injected dimensions of each generation are tolerated.
    Tolerate,
    /// How many dimensions of each codeword a channel erases.
    Erase,
    /// How many dimensions a channel injects into each codeword.
    Inject,
    /// How many gates the frames are dealt over.
    Gates,
}

impl Name {
    /// The long name of the option, or the name of the word.
    pub(crate) fn text(self) -> &'static str
        ensures { result.now ≡ text_of_name self }
    {
        match self {
            Name::Extra => "extra",
            Name::Pack => "pack",
            Name::Rate => "rate",
            Name::Idle => "idle",
            Name::Most => "most",
            Name::Tolerate => "tolerate",
            Name::Erase => "erase",
            Name::Inject => "inject",
            Name::Gates => "gates",
        }
    }
}
