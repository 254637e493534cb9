//! What a text failed at, by names that are borrowed, and what is said of it: all words of errors stand here.

ghost use Rattle.std.specs.Prelude.{◌≡◌, ℕ, List, ◌++◌, IfOk, OnOk, OnErr, string_bytes};
ghost use Rattle.serde_json.specs.Data.{string};
ghost use Rattle.serde_json.specs.Written.{compact_text};
ghost use Rattle.strkw_report.specs.Kinds.{message};
ghost use Rattle.strkw_report.specs.Failures.{kind_failed};
ghost use Rattle.strkw_report.specs.KindOf.{kind_of};
ghost use Rattle.strkw_report.specs.Wordings.{wording_text};

use crate::error::ErrorKind;
use crate::wording::{Rest, Wording};
use std::alloc::{AllocError, Global};

/// What a text failed at: an `ErrorKind` whose names are borrowed.
#[derive(Clone, Copy, Debug)]
pub enum Failure<'a> {
    /// It has fewer characters than this.
    MinLength(u64),
    /// It has more characters than this.
    MaxLength(u64),
    /// This pattern does not match it.
    Pattern(&'a str),
    /// The engine of this pattern gave up on it at its limit of backtracking.
    BacktrackLimitExceeded(&'a str),
    /// The engine of this pattern failed on it.
    RegexEngineFailure(&'a str),
    /// It is not of the format of this name.
    Format(&'a str),
    /// It is no encoding of the codec of this name.
    ContentEncoding(&'a str),
    /// It, or what it encodes, is not of this media type.
    ContentMediaType(&'a str),
    /// What it encodes is not UTF-8.
    FromUtf8,
}

impl<'a> Failure<'a> {
    /// The same, with a copy of its name. It is refused only where it is out of memory.
    pub fn kind(&self, alloc: Global) -> Result<ErrorKind, AllocError>
        ensures { IfOk result (λ kind. kind_of kind ≡ kind_failed self.now) }
    {
        match self {
            Failure::MinLength(limit) => Ok(ErrorKind::MinLength { limit: *limit }),
            Failure::MaxLength(limit) => Ok(ErrorKind::MaxLength { limit: *limit }),
            Failure::Pattern(pattern) => Ok(ErrorKind::Pattern {
                pattern: String::from_str(alloc, pattern)?,
            }),
            Failure::BacktrackLimitExceeded(pattern) => Ok(ErrorKind::BacktrackLimitExceeded {
                pattern: String::from_str(alloc, pattern)?,
            }),
            Failure::RegexEngineFailure(pattern) => Ok(ErrorKind::RegexEngineFailure {
                pattern: String::from_str(alloc, pattern)?,
            }),
            Failure::Format(format) => Ok(ErrorKind::Format {
                format: String::from_str(alloc, format)?,
            }),
            Failure::ContentEncoding(name) => Ok(ErrorKind::ContentEncoding {
                name: String::from_str(alloc, name)?,
            }),
            Failure::ContentMediaType(name) => Ok(ErrorKind::ContentMediaType {
                name: String::from_str(alloc, name)?,
            }),
            Failure::FromUtf8 => Ok(ErrorKind::FromUtf8),
        }
    }

    /// What is said of a text that failed so, as `ValidationError::text` gives it. It is refused only where it is out
    /// of memory.
    pub fn text(&self, alloc: Global, text: &str) -> Result<String, AllocError>
        ensures { IfOk result (λ s. string_bytes s
            ≡ message (kind_failed self.now) (compact_text (string text.now))) }
    {
        self.wording(text).text(alloc)
    }

    /// Appends what `text` gives. Out of memory, a beginning of it may have been appended.
    pub fn push_text(&self, text: &str, out: &mut Vec<u8>) -> Result<(), AllocError>
        ensures ok { OnOk result (out.new.items
            ≡ out.old.items ++ message (kind_failed self.now) (compact_text (string text.now))) }
        ensures err { OnErr result ((more : List ℕ) × (out.new.items ≡ out.old.items ++ more)) }
    {
        self.wording(text).push(out)
    }

    /// What is said of a text that failed so. These are all words of errors.
    pub(crate) fn wording<'t>(&self, text: &'t str) -> Wording<'t, 'a>
        ensures { wording_text result ≡ message (kind_failed self.now)
            (compact_text (string text.now)) }
    {
        match *self {
            Failure::MinLength(limit) => {
                Wording::text_before(text, " is shorter than ", Rest::Characters(limit))
            }
            Failure::MaxLength(limit) => {
                Wording::text_before(text, " is longer than ", Rest::Characters(limit))
            }
            Failure::Pattern(pattern) => {
                Wording::text_before(text, " does not match \"", Rest::Name(pattern, "\""))
            }
            Failure::BacktrackLimitExceeded(_) => Wording::name_between(
                "Error executing regex: Max limit for backtracking count exceeded",
                "",
                "",
            ),
            Failure::RegexEngineFailure(pattern) => {
                Wording::name_between("Regex engine failed to evaluate pattern '", pattern, "'")
            }
            Failure::Format(name) => {
                Wording::text_before(text, " is not a \"", Rest::Name(name, "\""))
            }
            Failure::ContentEncoding(name) => Wording::text_before(
                text,
                " is not compliant with \"",
                Rest::Name(name, "\" content encoding"),
            ),
            Failure::ContentMediaType(name) => Wording::text_before(
                text,
                " is not compliant with \"",
                Rest::Name(name, "\" media type"),
            ),
            Failure::FromUtf8 => {
                Wording::text_before(text, " does not decode to UTF-8 text", Rest::Name("", ""))
            }
        }
    }
}
