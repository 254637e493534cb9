//! What a schema is compiled under.

ghost use Rattle.std.specs.Prelude.{◌≡◌, IfOk};
ghost use Rattle.strkw_keywords.specs.Handed.{settings_of};
ghost use Rattle.neldrafi_schema.specs.Paths.{Path, location_of};
ghost use Rattle.neldrafi_schema.specs.Settings.{config_settings, keyword_settings};

use serde_json::Value;
use std::alloc::{AllocError, Global};
use strkw_keywords::{Checks, Context, Keyword, Options};
use strkw_pattern::EngineBuilder;
use strkw_report::{Draft, Location};

/// A document to which references may lead, and the URI by which it is known, without a fragment.
#[derive(Clone, Copy)]
pub struct Document<'a> {
    /// Its URI, without a fragment (RFC 3986, section 4.3).
    pub uri: &'a str,
    /// Its value.
    pub value: &'a Value,
}

/// What a schema is compiled under.
#[derive(Drop)]
pub struct Config<'a, B> {
    /// The draft of documents that have no `$schema`. `None` is draft 2020-12.
    pub draft: Option<Draft>,
    /// Whether formats are checked. `None` leaves it to the draft: drafts 4, 6 and 7 check them.
    pub validate_formats: Option<bool>,
    /// Whether a checked format that is not known adds nothing. If not, it is refused.
    pub ignore_unknown_formats: bool,
    /// The caller's own checks.
    pub checks: Checks<'a>,
    /// Further documents. A reference leads to no others.
    pub documents: &'a [Document<'a>],
    /// What builds the engines of patterns that are not literal.
    pub builder: &'a B,
}

impl<'a, B> Config<'a, B> {
    /// Draft 2020-12, formats as the draft has them, unknown ones ignored, no checks but the built-in ones, and no further
    /// documents. Its fields change this. It does not allocate.
    pub fn new(builder: &'a B) -> Config<'a, B> {
        Config {
            draft: None,
            validate_formats: None,
            ignore_unknown_formats: true,
            checks: Checks {
                formats: &[],
                media_types: &[],
                codecs: &[],
            },
            documents: &[],
            builder,
        }
    }
}

impl<'a, B: EngineBuilder> Config<'a, B> {
    // What one string keyword of the schema at a location is compiled under: every other is left out.
    pub(crate) fn context(
        &self,
        draft: Draft,
        location: &Location,
        keyword: Keyword,
    ) -> Result<Context<'a, B>, AllocError>
        ensures settings { (path : Path) → location.now ≡ location_of path
            → IfOk result (λ ctx. settings_of B.takes B.outcome admits accepts is_encoding decoding
            ctx ≡ keyword_settings (record (config_settings B.takes B.outcome admits accepts
            is_encoding decoding self.now) { draft = draft }) path keyword) }
    {
        let mut options = Options::default();
        options.validate_formats = self.validate_formats;
        options.ignore_unknown_formats = self.ignore_unknown_formats;
        let mut overridden = [true; 7];
        overridden[keyword.place()] = false;
        options.overridden = overridden;
        Ok(Context {
            draft,
            location: location.clone()?,
            absolute: None,
            options,
            checks: Checks {
                formats: self.checks.formats,
                media_types: self.checks.media_types,
                codecs: self.checks.codecs,
            },
            builder: self.builder,
        })
    }
}
