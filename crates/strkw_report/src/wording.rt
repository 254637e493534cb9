//! What is said of a text, part by part: the one way from words to bytes, to a formatter and to a `String`.

ghost use Rattle.std.specs.Prelude.{◌≡◌, ℕ, List, ◌++◌, OnOk, OnErr, IfOk, Some, codes, string_bytes};
ghost use Rattle.strkw_report.specs.Nouns.{characters};
ghost use Rattle.strkw_report.specs.Quoting.{quoted_text};
ghost use Rattle.strkw_report.specs.Wordings.{rest_text, wording_text};

use crate::json_text::push_json_string;
use crate::quoted::Quoted;
use itoa::Buffer;
use std::alloc::{AllocError, Global};
use std::fmt;

/// What is said: a text as a JSON string, where one is spoken of, and then words and the rest.
#[derive(Clone, Copy)]
pub(crate) struct Wording<'t, 'n> {
    text: Option<&'t str>,
    before: &'static str,
    rest: Rest<'n>,
}

/// What stands behind the first words.
#[derive(Clone, Copy)]
pub(crate) enum Rest<'n> {
    /// A name as it stands, and words; both are empty where nothing more is said.
    Name(&'n str, &'static str),
    /// So many characters.
    Characters(u64),
}

impl<'t, 'n> Wording<'t, 'n> {
    /// A name between words; words alone have an empty name.
    pub(crate) fn name_between(
        before: &'static str,
        name: &'n str,
        after: &'static str,
    ) -> Wording<'t, 'n>
        ensures { wording_text result ≡ before.now ++ name.now ++ after.now }
    {
        Wording {
            text: None,
            before,
            rest: Rest::Name(name, after),
        }
    }

    /// A text as a JSON string, and then words and the rest.
    pub(crate) fn text_before(
        text: &'t str,
        before: &'static str,
        rest: Rest<'n>,
    ) -> Wording<'t, 'n>
        ensures { wording_text result ≡ quoted_text text.now ++ before.now ++ rest_text rest.entry }
    {
        Wording {
            text: Some(text),
            before,
            rest,
        }
    }

    /// Appends what is said. Out of memory, a beginning of it may have been appended.
    pub(crate) fn push(&self, out: &mut Vec<u8>) -> Result<(), AllocError>
        ensures ok { OnOk result (out.new.items ≡ out.old.items ++ wording_text self.now) }
        ensures err { OnErr result ((more : List ℕ) × (out.new.items ≡ out.old.items ++ more)) }
    {
        if let Some(text) = self.text {
            push_json_string(text, out)?;
        }
        out.extend_from_slice(self.before.as_bytes())?;
        match self.rest {
            Rest::Name(name, after) => {
                out.extend_from_slice(name.as_bytes())?;
                out.extend_from_slice(after.as_bytes())
            }
            Rest::Characters(count) => {
                let mut digits = Buffer::new();
                out.extend_from_slice(digits.format(count).as_bytes())?;
                out.extend_from_slice(characters(count).as_bytes())
            }
        }
    }

    /// What is said, as a text of its own.
    pub(crate) fn text(&self, alloc: Global) -> Result<String, AllocError>
        ensures { IfOk result (λ s. string_bytes s ≡ wording_text self.now) }
    {
        let wording = *self;
        format!(in alloc; "{wording}")
    }
}

// What stands behind a number of characters.
fn characters(n: u64) -> &'static str
    ensures { result.now ≡ codes " " ++ characters n }
{
    if n == 1 { " character" } else { " characters" }
}

impl fmt::Display for Rest<'_> {
    ghost output = { λ rest. Some (rest_text rest) };

    fn fmt<W: fmt::Write>(&self, f: &mut fmt::Formatter<W>) -> fmt::Result {
        match self {
            Rest::Name(name, after) => write!(f, "{name}{after}"),
            Rest::Characters(count) => {
                let noun = characters(*count);
                write!(f, "{count}{noun}")
            }
        }
    }
}

impl fmt::Display for Wording<'_, '_> {
    ghost output = { λ wording. Some (wording_text wording) };

    fn fmt<W: fmt::Write>(&self, f: &mut fmt::Formatter<W>) -> fmt::Result {
        let Wording { before, rest, .. } = *self;
        match self.text {
            Some(text) => {
                let text = Quoted(text);
                write!(f, "{text}{before}{rest}")
            }
            None => write!(f, "{before}{rest}"),
        }
    }
}
