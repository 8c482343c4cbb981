//! From words to what they ask for by a form.
ghost use Rattle.std.specs.Prelude.{◌≡◌, ◌++◌, None, Some, IfOk, IsSome, IsTrue, length, map, option_map, string_bytes};
ghost use Rattle.clap.specs.Matches.{found_of};
ghost use Rattle.clap.specs.Simple.{app_of};
ghost use Rattle.clap.specs.Walk.{Text, rows_of};
ghost use Rattle.kk_forms.specs.Form.{app_of_form, argument_of, form_of, is_sound, name_of};
ghost use Rattle.kk_forms.specs.Request.{HasTexts, all_texts_at, has_option, has_sure_number, number_at, number_given, is_named, numbers_in, options_in, request_by, text_at, texts_in, under};

use crate::fault::fault_of;
use crate::{Argument, Form, Request, WordsFault};
use clap::ArgMatches;
use std::alloc::{AllocError, Global};

impl Form {
    /// What the words ask for by this form. `words` are those of the command line, without the program's name.
    ///
    /// The first word is the form's name, and clap reads the others as those of a simple command with the form's arguments.
    pub fn read(&self, alloc: Global, words: &[String]) -> Result<Request, WordsFault>
        requires { IsTrue (is_sound (form_of self.now)) }
        ensures given { IfOk result (λ given. request_by (form_of self.now) (map string_bytes words.now) ≡ Some given) }
        ensures refused { result ≡ Err WordsFault.Words → request_by (form_of self.now) (map string_bytes words.now) ≡ None }
        ensures memory { result ≡ Err WordsFault.Alloc → IsTrue (is_named (form_of self.now) (map string_bytes words.now)) }

        // Each word has a text; each required option is there, and so is each number that has a default or is a word.
        ensures texts { IfOk result (λ given. HasTexts (form_of self.now) (length given.texts)) }
        ensures options { IfOk result (λ given. (name : Text) → IsTrue (has_option (form_of self.now) name) → IsSome (under given.options name)) }
        ensures numbers { IfOk result (λ given. (name : Text) → IsTrue (has_sure_number (form_of self.now) name) → IsSome (under given.numbers name)) }
    {
        if !self.is_named(words) {
            return Err(WordsFault::Words);
        }
        self.read_named(alloc, words)
    }

    /// Whether the first word is the form's name.
    fn is_named(&self, words: &[String]) -> bool
        ensures { result ≡ is_named (form_of self.now) (map string_bytes words.now) }
    {
        match words.first() {
            Some(first) => self.name == first.as_str(),
            None => false,
        }
    }

    /// What the words ask for by this form, whose name the first one is.
    fn read_named(&self, alloc: Global, words: &[String]) -> Result<Request, WordsFault>
        requires sound { IsTrue (is_sound (form_of self.now)) }
        requires named { IsTrue (is_named (form_of self.now) (map string_bytes words.now)) }
        ensures given { IfOk result (λ given. request_by (form_of self.now) (map string_bytes words.now) ≡ Some given) }
        ensures refused { result ≡ Err WordsFault.Words → request_by (form_of self.now) (map string_bytes words.now) ≡ None }
        ensures texts { IfOk result (λ given. HasTexts (form_of self.now) (length given.texts)) }
        ensures options { IfOk result (λ given. (name : Text) → IsTrue (has_option (form_of self.now) name) → IsSome (under given.options name)) }
        ensures numbers { IfOk result (λ given. (name : Text) → IsTrue (has_sure_number (form_of self.now) name) → IsSome (under given.numbers name)) }
    {
        let app = self.clap_command(alloc)?;
        let matches = match app.try_get_matches_from(words) {
            Ok(matches) => matches,
            Err(error) => return Err(fault_of(&error)),
        };
        let texts = texts_in(alloc, self.arguments, &matches)?;
        let options = options_in(alloc, self.arguments, &matches)?;
        let numbers = numbers_in(alloc, self.arguments, &matches)?;
        Ok(Request::new(texts, options, numbers))
    }

    /// The command as clap knows it: it has the arguments of the form and nothing more.
    fn clap_command<'a>(&self, alloc: Global) -> Result<clap::Command<'a>, AllocError>
        ensures { IfOk result (λ app. app_of app ≡ app_of_form (form_of self.now)) }
    {
        let name: &'a str = self.name;
        let mut app = clap::Command::new(alloc, name)
            .disable_help_flag(true)
            .disable_version_flag(true);
        for argument in self.arguments {
            app = app.arg(argument.clap_arg(alloc))?;
        }
        Ok(app)
    }
}

/// The texts that were given for the words among the arguments.
fn texts_in(
    alloc: Global,
    arguments: &[Argument],
    matches: &ArgMatches<'_>,
) -> Result<Vec<String>, AllocError>
    ensures { IfOk result (λ texts. map string_bytes texts.items ≡ texts_in (map argument_of arguments.now) (rows_of (found_of matches.now))) }
{
    let mut texts = Vec::new(alloc);
    for argument in arguments {
        match argument {
            Argument::Word(name) => texts.push(text_at(alloc, name, matches)?)?,
            Argument::Words(name) => push_texts(alloc, name, matches, &mut texts)?,
            _ => {}
        }
    }
    Ok(texts)
}

/// Adds the texts that were given for words that may be several.
fn push_texts(
    alloc: Global,
    name: &str,
    matches: &ArgMatches<'_>,
    texts: &mut Vec<String>,
) -> Result<(), AllocError>
    ensures { IfOk result (λ _. map string_bytes texts.new.items ≡ map string_bytes texts.old.items ++ all_texts_at (rows_of (found_of matches.now)) name.now) }
{
    let Some(given) = matches.get_raw(name) else {
        return Ok(());
    };
    for text in given {
        texts.push(String::from_str(alloc, text)?)?;
    }
    Ok(())
}

/// The text that was given for a word.
fn text_at(alloc: Global, name: &str, matches: &ArgMatches<'_>) -> Result<String, AllocError>
    ensures { IfOk result (λ text. string_bytes text ≡ text_at (rows_of (found_of matches.now)) name.now) }
{
    String::from_str(alloc, matches.get_str(name).unwrap_or(""))
}

/// The texts that were given for the options among the arguments, each under its name.
fn options_in(
    alloc: Global,
    arguments: &[Argument],
    matches: &ArgMatches<'_>,
) -> Result<Vec<(&'static str, String)>, AllocError>
    ensures { IfOk result (λ options. map (λ option. (option.0.now, string_bytes option.1)) options.items ≡ options_in (map argument_of arguments.now) (rows_of (found_of matches.now))) }
{
    let mut options = Vec::new(alloc);
    for argument in arguments {
        if let Argument::TextOption(name) = argument {
            if let Some(text) = matches.get_str(name) {
                options.push((*name, String::from_str(alloc, text)?))?;
            }
        }
    }
    Ok(options)
}

/// The numbers of the arguments, each under its name.
fn numbers_in(
    alloc: Global,
    arguments: &[Argument],
    matches: &ArgMatches<'_>,
) -> Result<Vec<(&'static str, u64)>, AllocError>
    ensures { IfOk result (λ numbers. map (λ number. (number.0.now, number.1)) numbers.items ≡ numbers_in (map argument_of arguments.now) (rows_of (found_of matches.now))) }
{
    let mut numbers = Vec::new(alloc);
    for argument in arguments {
        if let Some(number) = number_at(argument, matches) {
            numbers.push((argument.name(), number))?;
        }
    }
    Ok(numbers)
}

/// The number of an argument: the one that was given, else its default.
fn number_at(argument: &Argument, matches: &ArgMatches<'_>) -> Option<u64>
    ensures { option_map (λ n. (name_of (argument_of argument.now), n)) result ≡ number_at (rows_of (found_of matches.now)) (argument_of argument.now) }
{
    match argument {
        Argument::NumberOption { name, default } => number_given(name, matches).or(*default),
        Argument::NumberWord(name) => number_given(name, matches),
        _ => None,
    }
}

/// The number that was given under a name.
fn number_given(name: &str, matches: &ArgMatches<'_>) -> Option<u64>
    ensures { result ≡ number_given (rows_of (found_of matches.now)) name.now }
{
    matches.get_str(name)?.parse::<u64>().ok()
}
