//! From words to what they ask for.
ghost use Rattle.std.specs.Prelude.{◌≡◌, None, Some, IfOk, IsSome, IsTrue, is_some, length, map, string_bytes};
ghost use Rattle.kk_words.specs.Arguments.{default_of};
ghost use Rattle.kk_words.specs.Commands.{named_in};
ghost use Rattle.kk_words.specs.Request.{HasTexts, has_number, has_place, has_seed, number_of, request_of};

use crate::{Asked, Name, WordsFault, command_in};
use std::alloc::Global;

/// What the words ask for. `words` are those of the command line, without the program's name.
///
/// The first word names a command, and clap reads the others as those of a simple command with this command's form.
pub fn read_words(alloc: Global, words: &[String]) -> Result<Asked, WordsFault>
    ensures given { IfOk result (λ given. request_of (map string_bytes words.now) ≡ Some given) }
    ensures refused { result ≡ Err WordsFault.Words → request_of (map string_bytes words.now) ≡ None }
    ensures memory { result ≡ Err WordsFault.Alloc → IsSome (named_in (map string_bytes words.now)) }

    // Each word of the command's form has a text; its seed is there, and so is each of its numbers that has a default or a
    // place of its own.
    ensures texts { IfOk result (λ given. HasTexts given.command (length given.texts)) }
    ensures seed { IfOk result (λ given. IsTrue (has_seed given.command) → IsSome given.seed) }
    ensures numbers { IfOk result (λ given. (name : Name) → IsTrue (is_some (default_of name)) → IsTrue (has_number given.command name) → IsSome (number_of given.numbers name)) }
    ensures placed { IfOk result (λ given. (name : Name) → IsTrue (has_place given.command name) → IsSome (number_of given.numbers name)) }
{
    let Some(command) = command_in(words) else {
        return Err(WordsFault::Words);
    };
    let request = match command.form().read(alloc, words) {
        Ok(request) => request,
        Err(fault) => return Err(fault),
    };
    Ok(Asked::new(command, request))
}
