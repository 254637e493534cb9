//! What a schema object is compiled under.

ghost use Rattle.std.specs.Prelude.{◌≡◌, None, []};
ghost use Rattle.strkw_keywords.specs.Lists.{lists_of};
ghost use Rattle.strkw_keywords.specs.Meanings.{no_lists};
ghost use Rattle.strkw_keywords.specs.Object.{default_options, has_codec, is_overridden};

use crate::checks::{Checks, ContentCodec, Format, MediaTypeCheck};
use crate::keyword::Keyword;
use std::alloc::Global;
use strkw_coding::Codec;
use strkw_report::{Draft, Location};

/// What a caller may set.
#[derive(Clone, Copy)]
pub struct Options {
    /// Whether formats are checked. `None` leaves it to the draft and to `formats_by_dialect`: drafts 4, 6 and 7
    /// check formats, the later ones do so where the dialect asks for it.
    pub validate_formats: Option<bool>,
    /// Whether a checked format that is not known adds nothing. If not, it is refused.
    pub ignore_unknown_formats: bool,
    /// Whether the dialect of the schema asserts formats. Then no unknown format is ignored.
    pub formats_by_dialect: bool,
    /// Whether the media type `application/json` is built in.
    pub json_media_type: bool,
    /// Which encodings are built in, in the order of `Codec`: base64, base64url, base32, base32hex, base16.
    pub codecs: [bool; 5],
    /// Which keywords are left out, in the order of `Keyword`: `contentMediaType`, `contentEncoding`,
    /// `contentSchema`, `format`, `minLength`, `maxLength`, `pattern`.
    pub overridden: [bool; 7],
}

/// Formats as the draft checks them, unknown ones ignored, everything built in, nothing left out.
impl Default for Options {
    ghost is_default = { λ options. options ≡ default_options };

    fn default() -> Options {
        Options {
            validate_formats: None,
            ignore_unknown_formats: true,
            formats_by_dialect: false,
            json_media_type: true,
            codecs: [true; 5],
            overridden: [false; 7],
        }
    }
}

/// What a schema object is compiled under. Compiling borrows it.
#[derive(Drop)]
pub struct Context<'a, B> {
    /// The draft by which its keywords are read.
    pub draft: Draft,
    /// Where it stands in its document.
    pub location: Location,
    /// What stands before the `#` in the absolute location of an error, if errors have one.
    pub absolute: Option<String>,
    /// What the caller has set.
    pub options: Options,
    /// The caller's own checks. Names are looked up in them here, and their rows are asked at validation.
    pub checks: Checks<'a>,
    /// What builds the engines of patterns that are not literal.
    pub builder: &'a B,
}

impl Checks<'static> {
    /// No rows: nothing is known but what is built in.
    pub fn none() -> Checks<'static>
        ensures { lists_of admits accepts is_encoding decoding result ≡ no_lists }
    {
        Checks {
            formats: &[],
            media_types: &[],
            codecs: &[],
        }
    }
}

impl<'a, B> Context<'a, B> {
    /// A schema object of this draft that is a whole document: it stands at the root, its errors have no absolute
    /// location, the options are `Options::default()`, and there are no checks but the built-in ones. What is to be
    /// otherwise is set in its fields. It takes no memory, and keeps the allocator.
    pub fn new(alloc: Global, draft: Draft, builder: &'a B) -> Context<'a, B>
        ensures draft { result.draft ≡ draft }
        ensures location { result.location ≡ [] }
        ensures absolute { result.absolute ≡ None }
        ensures options { result.options ≡ default_options }
        ensures checks { lists_of admits accepts is_encoding decoding result.checks ≡ no_lists }
        ensures builder { result.builder.now ≡ builder.now }
    {
        Context {
            draft,
            location: Location::root(alloc),
            absolute: None,
            options: Options::default(),
            checks: Checks::none(),
            builder,
        }
    }
}

impl Options {
    /// Whether a keyword is left out.
    pub fn is_overridden(&self, keyword: Keyword) -> bool
        ensures { result ≡ is_overridden self.now keyword }
    {
        self.overridden
            .get(keyword as usize)
            .copied()
            .unwrap_or(false)
    }

    /// Whether a codec is built in.
    pub(crate) fn has_codec(&self, codec: Codec) -> bool
        ensures { result ≡ has_codec self.now codec }
    {
        self.codecs.get(codec as usize).copied().unwrap_or(false)
    }
}
