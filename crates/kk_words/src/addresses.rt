//! The addresses that words name.
ghost use Rattle.std.specs.Prelude.{◌≡◌, None, Some, IfOk, IsSome, drop, length, map, option_map, string_bytes};
ghost use Rattle.kk_words.specs.Commands.{named_in};
ghost use Rattle.kk_words.specs.Places.{listen_in, places_of, target_in};
ghost use Rattle.kk_words.specs.Request.{HasTexts};

use crate::{Asked, Command, WordsFault, read_words};
use std::alloc::{AllocError, Global};
use std::marker::Model;

/// The addresses that the words of a command name, as they stand there.
#[derive(Debug, Drop)]
pub struct Addresses {
    listen: Vec<String>,
    target: Option<String>,
}

impl Model for Addresses {
    ghost use Rattle.std.specs.Prelude.{map, option_map, string_bytes};
    ghost use Rattle.kk_words.specs.Places.{Places};

    ghost Value = { Places };

    ghost view = { λ a. record {
      listen = map string_bytes a.listen.items;
      target = option_map string_bytes a.target;
    } };
}

impl Addresses {
    ghost use Rattle.std.specs.Prelude.{map, option_map, string_bytes};

    /// The addresses at which the command listens, in order.
    pub fn listen(&self) -> &[String]
        ensures { map string_bytes result.now ≡ self.now.listen }
    {
        self.listen.as_slice()
    }

    /// The address to which the command sends.
    pub fn target(&self) -> Option<&str>
        ensures { option_map (λ s. s.now) result ≡ self.now.target }
    {
        match &self.target {
            Some(target) => Some(target.as_str()),
            None => None,
        }
    }
}

/// The addresses that the words name. `words` are those of the command line, without the program's name.
pub fn places(alloc: Global, words: &[String]) -> Result<Addresses, WordsFault>
    ensures named { IfOk result (λ places. places_of (map string_bytes words.now) ≡ Some places) }
    ensures refused { result ≡ Err WordsFault.Words → places_of (map string_bytes words.now) ≡ None }
    ensures memory { result ≡ Err WordsFault.Alloc → IsSome (named_in (map string_bytes words.now)) }
{
    let asked = match read_words(alloc, words) {
        Ok(asked) => asked,
        Err(fault) => return Err(fault),
    };
    let listen = listen_in(alloc, &asked)?;
    let target = target_in(alloc, &asked)?;
    Ok(Addresses { listen, target })
}

/// The texts of the words LISTEN.
fn listen_in(alloc: Global, asked: &Asked) -> Result<Vec<String>, AllocError>
    ensures { IfOk result (λ listen. map string_bytes listen.items ≡ listen_in asked.now.command asked.now.texts) }
{
    match asked.command() {
        Command::Relay => texts_from(alloc, asked, 2),
        Command::Recv => texts_from(alloc, asked, 1),
        _ => Ok(Vec::new(alloc)),
    }
}

/// The text of the word TARGET.
fn target_in(alloc: Global, asked: &Asked) -> Result<Option<String>, AllocError>
    requires { HasTexts asked.now.command (length asked.now.texts) }
    ensures { IfOk result (λ target. option_map string_bytes target ≡ target_in asked.now.command asked.now.texts) }
{
    match asked.command() {
        Command::Send | Command::Relay => Ok(Some(String::from_str(alloc, asked.text(1))?)),
        _ => Ok(None),
    }
}

/// The texts from place `first` on.
fn texts_from(alloc: Global, asked: &Asked, first: usize) -> Result<Vec<String>, AllocError>
    ensures { IfOk result (λ texts. map string_bytes texts.items ≡ drop first asked.now.texts) }
{
    let mut texts = Vec::new(alloc);
    for i in first..asked.texts() {
        texts.push(String::from_str(alloc, asked.text(i))?)?;
    }
    Ok(texts)
}
