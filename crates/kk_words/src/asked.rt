//! What words ask for.
ghost use Rattle.std.specs.Prelude.{◌≡◌, ◌<◌, length, option_map, slice_get, Some};
ghost use Rattle.kk_words.specs.Request.{number_of, request_with};

use crate::argument::SEED_NAME;
use crate::{Command, Name};
use std::marker::Model;

/// What the words of a command line ask for. It owns its texts.
#[derive(Debug, Drop)]
pub struct Asked {
    command: Command,
    /// What was found by the command's form.
    request: kk_forms::Request,
}

impl Model for Asked {
    ghost use Rattle.kk_words.specs.Request.{Request, request_with};

    ghost Value = { Request };

    ghost view = { λ a. request_with a.command a.request };
}

impl Asked {
    pub(crate) fn new(command: Command, request: kk_forms::Request) -> Asked
        ensures { result ≡ request_with command request }
    {
        Asked { command, request }
    }

    /// The command that the first word names.
    pub fn command(&self) -> Command
        ensures { result ≡ self.now.command }
    {
        self.command
    }

    /// How many texts there are.
    pub fn texts(&self) -> usize
        ensures { result ≡ length self.now.texts }
    {
        self.request.texts()
    }

    /// Text `i`: of the words after the first that stand at places of their own and are no numbers, the one at place `i`.
    pub fn text(&self, i: usize) -> &str
        requires { i < length self.now.texts }
        ensures { slice_get self.now.texts i ≡ Some result.now }
    {
        self.request.text(i)
    }

    /// The word of `--seed`, where it was given.
    pub fn seed(&self) -> Option<&str>
        ensures { option_map (λ s. s.now) result ≡ self.now.seed }
    {
        self.request.option(SEED_NAME)
    }

    /// The number under this name: the one that was given, or its default.
    ///
    /// There is none where the command has no such number, or where it was not given and has no default.
    pub fn number(&self, name: Name) -> Option<u64>
        ensures { result ≡ number_of self.now.numbers name }
    {
        self.request.number(name.text())
    }
}
