//! What a validator is beside its test of a text: where its schema object stands, what it notes, which rows it keeps.

ghost use Rattle.std.specs.Prelude.{◌↔◌, ◌≡◌, IfOk, IsTrue, None, Some, false, option_map, string_bytes, true};
ghost use Rattle.strkw_keywords.specs.Lists.{lists_of};
ghost use Rattle.strkw_keywords.specs.Parts.{RowsAreFirst, noted_remark, quiet_parts};
ghost use Rattle.strkw_keywords.specs.Places.{Place};
ghost use Rattle.strkw_keywords.specs.Remarks.{remark_of};

use crate::checks::{Checks, ContentCodec, Format, MediaTypeCheck};
use crate::keyword::Keyword;
use serde_json::Value;
use std::alloc::{AllocError, Global};
use std::marker::Model;
use strkw_report::Location;

/// Where a schema object stands.
#[derive(Drop)]
pub struct Origin {
    /// Its location in its document.
    pub location: Location,
    /// What stands before the `#` in the absolute locations of that document, if it has any.
    pub absolute: Option<String>,
}

impl Model for Origin {
    ghost use Rattle.std.specs.Prelude.{option_map, string_bytes};
    ghost use Rattle.strkw_keywords.specs.Places.{Place};

    ghost Value = { Place };

    ghost view = { λ o. record {
      schema = o.location;
      prefix = option_map string_bytes o.absolute;
    } };
}

/// What is noted of a text.
#[derive(Drop)]
pub struct Note {
    /// The place of the keyword that notes it, in its document.
    pub schema_path: Location,
    /// The value that it notes.
    pub value: Value,
}

/// What a validator is, beside its test of a text.
#[derive(Clone, Copy)]
pub struct Parts<'a> {
    /// Where its schema object stands.
    pub origin: &'a Origin,
    /// What it notes of every text, if it notes anything.
    pub noted: Option<Noted<'a>>,
    /// The row of the caller's formats on which it rests, if it rests on one.
    pub format: Option<RowRef<'a>>,
    /// The row of the caller's media types, if there is one.
    pub media_type: Option<RowRef<'a>>,
    /// The row of the caller's codecs, if there is one.
    pub codec: Option<RowRef<'a>>,
    /// Whether its test of a text takes no memory.
    pub is_quiet: bool,
}

/// What is noted, and the keyword that notes it.
#[derive(Clone, Copy)]
pub enum Noted<'a> {
    /// A name.
    Text(Keyword, &'a str),
    /// A value.
    Value(Keyword, &'a Value),
}

/// The position of a row, and the name that it had at compile.
#[derive(Clone, Copy)]
pub struct RowRef<'a> {
    /// Its position.
    pub position: usize,
    /// Its name.
    pub name: &'a str,
}

impl Parts<'_> {
    // Whether the rows on which the validator rests are the first of their names.
    pub(crate) fn rows_are_first(&self, checks: &Checks) -> bool
        ensures { IsTrue result ↔ RowsAreFirst self.now
            (lists_of admits accepts is_encoding decoding checks.now) }
    {
        let is_format_first = match self.format {
            None => true,
            Some(row) => checks.format_named(row.name) == Some(row.position),
        };
        let is_media_type_first = match self.media_type {
            None => true,
            Some(row) => checks.media_type_named(row.name) == Some(row.position),
        };
        let is_codec_first = match self.codec {
            None => true,
            Some(row) => checks.codec_named(row.name) == Some(row.position),
        };
        is_format_first && is_media_type_first && is_codec_first
    }
}

impl<'a> Parts<'a> {
    // Those of a validator that rests on no row and takes no memory.
    pub(crate) fn of_quiet(origin: &'a Origin, noted: Option<Noted<'a>>) -> Parts<'a>
        ensures { result ≡ quiet_parts origin.entry noted.entry }
    {
        Parts {
            origin,
            noted,
            format: None,
            media_type: None,
            codec: None,
            is_quiet: true,
        }
    }

    // Those of a validator that may need memory and rests on these rows of content.
    pub(crate) fn of_content(
        origin: &'a Origin,
        media_type: Option<RowRef<'a>>,
        codec: Option<RowRef<'a>>,
    ) -> Parts<'a>
        ensures { result ≡ record {
          origin = origin.entry;
          noted = None;
          format = None;
          media_type = media_type.entry;
          codec = codec.entry;
          is_quiet = false;
        } }
    {
        Parts {
            media_type,
            codec,
            is_quiet: false,
            ..Parts::of_quiet(origin, None)
        }
    }
}

impl Origin {
    /// The place with this location and this prefix.
    pub fn new(location: Location, absolute: Option<String>) -> Origin
        ensures { result ≡ record { schema = location; prefix = option_map string_bytes absolute } }
    {
        Origin { location, absolute }
    }
}

impl Noted<'_> {
    pub(crate) fn note(self, alloc: Global, location: &Location) -> Result<Note, AllocError>
        ensures { IfOk result (λ n. Some (remark_of n)
            ≡ noted_remark location.now (Some self.entry)) }
    {
        let (keyword, value) = match self {
            Noted::Text(keyword, text) => (keyword, Value::try_from_str(alloc, text)?),
            Noted::Value(keyword, value) => (keyword, value.clone()?),
        };
        Ok(Note {
            schema_path: location.join(keyword.as_str())?,
            value,
        })
    }
}
