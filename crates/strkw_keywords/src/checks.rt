//! The caller's own checks: the traits that they implement, their rows, and the first row of a name.

ghost use Rattle.std.specs.Prelude.{◌↔◌, ◌≡◌, ℕ, Bool, IfErr, IfOk, IsErrOf, IsTrue, List, MatchOption, slice_get, string_bytes};
ghost use Rattle.std.specs.List.{position_from};
ghost use Rattle.std.specs.Str.{bytes_eq, chars};
ghost use Rattle.strkw_keywords.specs.Choices.{choice_of};
ghost use Rattle.strkw_keywords.specs.Decodings.{decoded_of};
ghost use Rattle.strkw_keywords.specs.Demands.{KeepsFirst};
ghost use Rattle.strkw_keywords.specs.Lists.{lists_of};
ghost use Rattle.strkw_keywords.specs.Meanings.{codec_names, decoded, first_named, no_encoding, no_text, row, row_names};
ghost use Rattle.strkw_keywords.specs.Parts.{IsFirst};

use crate::parts::RowRef;
use std::alloc::{AllocError, Global};
use strkw_coding::DecodeError;

// What a check says of a text, or that it was out of memory.
pub(crate) type Asked = Result<bool, AllocError>;

/// A check of a format that the caller registers. It says by `admits` which texts it admits, a text being the list of
/// its characters.
pub trait Format: Drop {
    /// Whether it admits a text.
    ghost admits: { Self → List ℕ → Bool };

    /// Whether it admits the text. The only error is out of memory.
    fn is_valid(&self, alloc: Global, value: &str) -> Result<bool, AllocError>
        ensures { IfOk result (λ b. b ≡ admits self.now (chars value.now)) };
}

/// A check of a media type that the caller registers. It says by `accepts` which texts are of the media type.
pub trait MediaTypeCheck: Drop {
    /// Which texts are of the media type.
    ghost accepts: { Self → List ℕ → Bool };

    /// Whether the text is of the media type. The only error is out of memory.
    fn accepts(&self, alloc: Global, value: &str) -> Result<bool, AllocError>
        ensures { IfOk result (λ b. b ≡ accepts self.now (chars value.now)) };
}

/// A codec that the caller registers. It has two meanings, one for each call: `is_encoding` serves an entry
/// `contentEncoding` alone, and `decoding` one beside `contentMediaType`. No law ties them together.
pub trait ContentCodec: Drop {
    ghost use Rattle.strkw_keywords.specs.Meanings.{Decoded, no_encoding, no_text, decoded};

    /// Whether a text is an encoding.
    ghost is_encoding: { Self → List ℕ → Bool };

    /// What a text decodes to.
    ghost decoding: { Self → List ℕ → Decoded };

    /// Whether the text is an encoding. The only error is out of memory.
    fn is_encoded(&self, alloc: Global, value: &str) -> Result<bool, AllocError>
        ensures { IfOk result (λ b. b ≡ is_encoding self.now (chars value.now)) };

    /// The text that the text encodes, or `None` where it is no encoding.
    ///
    /// Errors: `NotUtf8` where it encodes bytes that are not UTF-8, and `Memory`.
    fn decode(&self, alloc: Global, value: &str) -> Result<Option<String>, DecodeError>
        ensures text { IfOk result (λ o. MatchOption o
            (decoding self.now (chars value.now) ≡ no_encoding)
            (λ s. decoding self.now (chars value.now) ≡ decoded (string_bytes s))) }
        ensures not_utf8 { IfErr result (λ e. e ≡ DecodeError.NotUtf8
            → decoding self.now (chars value.now) ≡ no_text) };
}

/// A row of the caller's formats.
#[derive(Drop)]
pub struct NamedFormat {
    /// The name by which schemas know it. Names are compared exactly.
    pub name: String,
    /// What it admits.
    pub check: Box<dyn Format>,
}

/// A row of the caller's media types.
#[derive(Drop)]
pub struct NamedMediaType {
    /// The name by which schemas know it. Names are compared exactly.
    pub name: String,
    /// Which texts are of it.
    pub check: Box<dyn MediaTypeCheck>,
}

/// A row of the caller's codecs.
#[derive(Drop)]
pub struct NamedCodec {
    /// The name by which schemas know it. Names are compared exactly.
    pub name: String,
    /// How it encodes.
    pub codec: Box<dyn ContentCodec>,
}

/// The caller's own checks, as three lists of rows. The first row of a name counts, and it counts before a built-in of
/// that name.
#[derive(Drop)]
pub struct Checks<'a> {
    /// For `format`.
    pub formats: &'a [NamedFormat],
    /// For `contentMediaType`.
    pub media_types: &'a [NamedMediaType],
    /// For `contentEncoding`.
    pub codecs: &'a [NamedCodec],
}

/// A built-in, or the row at a position and the name that it had at compile.
#[derive(Drop)]
pub(crate) enum Choice<A> {
    Builtin(A),
    Row { position: usize, name: String },
}

impl<A> Choice<A> {
    // The row at a position, by its name.
    pub(crate) fn of_row(alloc: Global, position: usize, name: &str) -> Result<Self, AllocError>
        ensures { IfOk result (λ c. choice_of c ≡ row position name.now) }
    {
        let name = String::from_str(alloc, name)?;
        Ok(Choice::Row { position, name })
    }

    // The row that it names, if it names one.
    pub(crate) fn row(&self) -> Option<RowRef<'_>>
        ensures { (names : List (List ℕ))
            → IsFirst result names ↔ KeepsFirst names (choice_of self.now) }
    {
        match self {
            Choice::Builtin(_) => None,
            Choice::Row { position, name } => Some(RowRef {
                position: *position,
                name: name.as_str(),
            }),
        }
    }
}

impl NamedCodec {
    pub(crate) fn decode(&self, alloc: Global, text: &str) -> Result<Option<String>, DecodeError>
        ensures text { IfOk result (λ o. decoded_of o ≡ decoding self.now.codec (chars text.now)) }
        ensures not_utf8 { IsErrOf result DecodeError.NotUtf8
            → no_text ≡ decoding self.now.codec (chars text.now) }
    {
        self.codec.decode(alloc, text)
    }
}

// ---- a row of any list

// A row of the caller: a name, and a test of texts.
pub(crate) trait Row {
    ghost name_of: { Self → List ℕ };

    ghost admits: { Self → List ℕ → Bool };

    fn name(&self) -> &str
        ensures { result.now ≡ name_of self.now };

    fn ask(&self, alloc: Global, text: &str) -> Asked
        ensures { IfOk result (λ b. b ≡ admits self.now (chars text.now)) };
}

impl Row for NamedFormat {
    ghost name_of = { λ r. string_bytes r.name };

    ghost admits = { λ r. (Format-box r.check).admits r.check.value };

    fn name(&self) -> &str {
        self.name.as_str()
    }

    fn ask(&self, alloc: Global, text: &str) -> Asked {
        self.check.is_valid(alloc, text)
    }
}

impl Row for NamedMediaType {
    ghost name_of = { λ r. string_bytes r.name };

    ghost admits = { λ r. (MediaTypeCheck-box r.check).accepts r.check.value };

    fn name(&self) -> &str {
        self.name.as_str()
    }

    fn ask(&self, alloc: Global, text: &str) -> Asked {
        self.check.accepts(alloc, text)
    }
}

impl Row for NamedCodec {
    ghost name_of = { λ r. string_bytes r.name };

    ghost admits = { λ r. (ContentCodec-box r.codec).is_encoding r.codec.value };

    fn name(&self) -> &str {
        self.name.as_str()
    }

    fn ask(&self, alloc: Global, text: &str) -> Asked {
        self.codec.is_encoded(alloc, text)
    }
}

// Where the first row of a name stands.
fn first_named<R: Row>(rows: &[R], name: &str) -> Option<usize>
    ensures { result ≡ position_from (λ r. bytes_eq (R.name_of r) name.now) 0 rows.now }
{
    for (i, row) in rows.iter().enumerate() {
        if row.name() == name {
            return Some(i);
        }
    }
    None
}

// What the row at a position says of a text; where there is none, nothing is admitted.
pub(crate) fn ask_row<R: Row>(alloc: Global, rows: &[R], position: usize, text: &str) -> Asked
    ensures { IfOk result (λ b. IsTrue b
        ↔ MatchOption (slice_get rows.now position) ⊥
        (λ r. IsTrue (R.admits r (chars text.now)))) }
{
    match rows.get(position) {
        Some(row) => row.ask(alloc, text),
        None => Ok(false),
    }
}

impl Checks<'_> {
    pub(crate) fn format_named(&self, name: &str) -> Option<usize>
        ensures { result ≡ first_named name.now
            (row_names (lists_of admits accepts is_encoding decoding self.now).formats) }
    {
        first_named(self.formats, name)
    }

    pub(crate) fn media_type_named(&self, name: &str) -> Option<usize>
        ensures { result ≡ first_named name.now
            (row_names (lists_of admits accepts is_encoding decoding self.now).media_types) }
    {
        first_named(self.media_types, name)
    }

    pub(crate) fn codec_named(&self, name: &str) -> Option<usize>
        ensures { result ≡ first_named name.now
            (codec_names (lists_of admits accepts is_encoding decoding self.now).codecs) }
    {
        first_named(self.codecs, name)
    }
}
