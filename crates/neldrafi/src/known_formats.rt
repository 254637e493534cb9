//! The formats that the command knows: those of the drafts' tables, and those of `strkw_companions`.

use std::alloc::{AllocError, Global};
use strkw_companions::{Companion, companions_of};
use strkw_formats::{BuiltinFormat, builtin_format};
use strkw_keywords::{Checks, Format, NamedFormat};
use strkw_report::Draft;

/// A format that the command knows.
#[derive(Debug, Clone, Copy)]
pub(crate) enum KnownFormat {
    /// One of the library's own.
    Builtin(BuiltinFormat),
    /// One of `strkw_companions`.
    Companion(Companion),
}

impl KnownFormat {
    /// All of them: first the library's own, in the order of their enum.
    pub(crate) fn all_formats(alloc: Global) -> Result<Vec<KnownFormat>, AllocError> {
        let mut formats = Vec::new(alloc);
        for format in BuiltinFormat::VARIANTS {
            formats.push(KnownFormat::Builtin(*format))?;
        }
        for companion in companions_of(Draft::Draft202012) {
            formats.push(KnownFormat::Companion(*companion))?;
        }
        Ok(formats)
    }

    /// The format of a name in a draft, where it has one.
    pub(crate) fn by_name(draft: Draft, name: &str) -> Option<KnownFormat> {
        match builtin_format(draft, name) {
            Some(format) => Some(KnownFormat::Builtin(format)),
            None => KnownFormat::companion_named(draft, name),
        }
    }

    fn companion_named(draft: Draft, name: &str) -> Option<KnownFormat> {
        for companion in companions_of(draft) {
            if companion.as_str() == name {
                return Some(KnownFormat::Companion(*companion));
            }
        }
        None
    }

    /// Its name in a schema.
    pub(crate) fn as_str(self) -> &'static str {
        match self {
            KnownFormat::Builtin(format) => format.as_str(),
            KnownFormat::Companion(companion) => companion.as_str(),
        }
    }

    /// Whether a draft has the format under its name.
    pub(crate) fn is_of(self, draft: Draft) -> bool {
        match self {
            KnownFormat::Builtin(format) => builtin_format(draft, format.as_str()) == Some(format),
            KnownFormat::Companion(companion) => companions_of(draft).contains(&companion),
        }
    }

    /// A text of the format.
    pub(crate) fn example(self) -> &'static str {
        match self {
            KnownFormat::Builtin(format) => format.example(),
            KnownFormat::Companion(Companion::Email) => "user@example.org",
            KnownFormat::Companion(Companion::Regex) => "^[a-z]+$",
            KnownFormat::Companion(Companion::IdnEmail) => "j\u{FC}rgen@b\u{FC}cher.example",
            KnownFormat::Companion(Companion::IdnHostname) => "b\u{FC}cher.example",
        }
    }

    /// The least and the greatest number of characters of its texts, where they are known.
    pub(crate) fn length_window(self) -> Option<(u64, u64)> {
        match self {
            KnownFormat::Builtin(format) => format.length_window(),
            KnownFormat::Companion(_) => None,
        }
    }

    /// Whether a text is of the format. The only error is out of memory.
    pub(crate) fn is_valid(self, alloc: Global, text: &str) -> Result<bool, AllocError> {
        match self {
            KnownFormat::Builtin(format) => Ok(format.is_valid(text)),
            KnownFormat::Companion(companion) => companion.is_valid(alloc, text),
        }
    }
}

/// The checks of these formats alone. It takes no memory.
pub(crate) fn checks_of(formats: &[NamedFormat]) -> Checks<'_> {
    Checks {
        formats,
        media_types: &[],
        codecs: &[],
    }
}
