//! What words ask for by a form.
ghost use Rattle.std.specs.Prelude.{◌≡◌, ◌<◌, find, length, map, option_map, slice_get, string_bytes, Some};
ghost use Rattle.std.specs.Str.{bytes_eq};
ghost use Rattle.kk_forms.specs.Request.{under};

use std::marker::Model;

/// What words ask for by a form. It owns its texts.
#[derive(Debug, Drop)]
pub struct Request {
    texts: Vec<String>,
    /// The texts of the options, each under its name.
    options: Vec<(&'static str, String)>,
    /// The numbers, each under its name: those that were given, and the others by their defaults.
    numbers: Vec<(&'static str, u64)>,
}

impl Model for Request {
    ghost use Rattle.std.specs.Prelude.{map, string_bytes};
    ghost use Rattle.kk_forms.specs.Request.{Request as Asked};

    ghost Value = { Asked };

    ghost view = { λ r. record {
      texts = map string_bytes r.texts.items;
      options = map (λ option. (option.0.now, string_bytes option.1)) r.options.items;
      numbers = map (λ number. (number.0.now, number.1)) r.numbers.items;
    } };
}

impl Request {
    pub(crate) fn new(
        texts: Vec<String>,
        options: Vec<(&'static str, String)>,
        numbers: Vec<(&'static str, u64)>,
    ) -> Request
        ensures texts { result.texts ≡ map string_bytes texts.items }
        ensures options { result.options ≡ map (λ option. (option.0.now, string_bytes option.1)) options.entry.items }
        ensures numbers { result.numbers ≡ map (λ number. (number.0.now, number.1)) numbers.entry.items }
    {
        Request {
            texts,
            options,
            numbers,
        }
    }

    /// How many texts there are.
    pub fn texts(&self) -> usize
        ensures { result ≡ length self.now.texts }
    {
        self.texts.len()
    }

    /// Text `i`: of the words after the first that are no numbers, the one at place `i`.
    pub fn text(&self, i: usize) -> &str
        requires { i < length self.now.texts }
        ensures { slice_get self.now.texts i ≡ Some result.now }
    {
        self.texts[i].as_str()
    }

    /// The text of the option of this name.
    pub fn option(&self, name: &str) -> Option<&str>
        ensures { option_map (λ s. s.now) result ≡ under self.now.options name.now }
    {
        let (_, text) = entry(&self.options, name)?;
        Some(text.as_str())
    }

    /// The number of this name: the one that was given, or its default.
    ///
    /// There is none where the form has no such number, or where it was not given and has no default.
    pub fn number(&self, name: &str) -> Option<u64>
        ensures { result ≡ under self.now.numbers name.now }
    {
        let (_, number) = entry(&self.numbers, name)?;
        Some(*number)
    }
}

/// The first entry under a name.
fn entry<'e, T>(entries: &'e [(&'static str, T)], name: &str) -> Option<&'e (&'static str, T)>
    ensures { option_map (λ entry. entry.now) result ≡ find (λ entry. bytes_eq entry.0.now name.now) entries.now }
{
    entries.iter().find(
        |entry|
            ensures { result ≡ bytes_eq entry.now.now.0.now name.entry.now }
        { entry.0 == name },
    )
}
