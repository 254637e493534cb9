//! The seven keywords.

ghost use Rattle.std.specs.Prelude.{◌≡◌, ◌↔◌, Some};
ghost use Rattle.strkw_keywords.specs.Findings.{keyword_failed};
ghost use Rattle.strkw_keywords.specs.Keywords.{keyword_name, keyword_place};

use strkw_report::Failure;

/// A string keyword of JSON Schema Validation. The order of the variants is that in which the entries of a schema
/// object are looked at.
#[derive(Debug, Clone, Copy, PartialEq, Eq)]
pub enum Keyword {
    /// `contentMediaType`, from draft 6 on, as the Rust crate has it (the drafts have it from draft 7 on).
    ContentMediaType,
    /// `contentEncoding`, from draft 6 on, as the Rust crate has it (the drafts have it from draft 7 on).
    ContentEncoding,
    /// `contentSchema`, from draft 2019-09 on.
    ContentSchema,
    /// `format`.
    Format,
    /// `minLength`.
    MinLength,
    /// `maxLength`.
    MaxLength,
    /// `pattern`.
    Pattern,
}

impl Keyword {
    /// Each keyword once, in that order.
    pub const VARIANTS: &'static [Keyword] = &[
        Keyword::ContentMediaType,
        Keyword::ContentEncoding,
        Keyword::ContentSchema,
        Keyword::Format,
        Keyword::MinLength,
        Keyword::MaxLength,
        Keyword::Pattern,
    ];

    /// Its key in a schema object.
    pub fn as_str(self) -> &'static str
        ensures { result.now ≡ keyword_name self }
    {
        match self {
            Keyword::ContentMediaType => "contentMediaType",
            Keyword::ContentEncoding => "contentEncoding",
            Keyword::ContentSchema => "contentSchema",
            Keyword::Format => "format",
            Keyword::MinLength => "minLength",
            Keyword::MaxLength => "maxLength",
            Keyword::Pattern => "pattern",
        }
    }

    /// The keyword of this key, or `None` where it is that of none.
    pub fn by_name(name: &str) -> Option<Keyword>
        ensures { (k : Keyword) → (result ≡ Some k) ↔ (name.now ≡ keyword_name k) }
    {
        Some(match name {
            "contentMediaType" => Keyword::ContentMediaType,
            "contentEncoding" => Keyword::ContentEncoding,
            "contentSchema" => Keyword::ContentSchema,
            "format" => Keyword::Format,
            "minLength" => Keyword::MinLength,
            "maxLength" => Keyword::MaxLength,
            "pattern" => Keyword::Pattern,
            _ => return None,
        })
    }

    /// Its place in that order, counted from 0: where `Options::overridden` tells whether it is left out.
    pub fn place(self) -> usize
        ensures { result ≡ keyword_place self }
    {
        self as usize
    }

    /// The keyword of the error of a text that failed so.
    pub fn of_failure(failure: &Failure) -> Keyword
        ensures { result ≡ keyword_failed failure.now }
    {
        match failure {
            Failure::MinLength(_) => Keyword::MinLength,
            Failure::MaxLength(_) => Keyword::MaxLength,
            Failure::Pattern(_) => Keyword::Pattern,
            Failure::BacktrackLimitExceeded(_) => Keyword::Pattern,
            Failure::RegexEngineFailure(_) => Keyword::Pattern,
            Failure::Format(_) => Keyword::Format,
            Failure::ContentEncoding(_) => Keyword::ContentEncoding,
            Failure::ContentMediaType(_) => Keyword::ContentMediaType,
            Failure::FromUtf8 => Keyword::ContentEncoding,
        }
    }
}
