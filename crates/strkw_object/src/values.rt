//! The values of a schema object at the seven keywords, owned.

ghost use Rattle.std.specs.Prelude.{◌≡◌, None, Some, option_map};
ghost use Rattle.serde_json.specs.View.{view};
ghost use Rattle.strkw_keywords.specs.Values.{held_value};
ghost use Rattle.strkw_object.specs.Values.{owned_value};

use serde_json::Value;
use strkw_keywords::{Keyword, Values};

/// The values of a schema object at the seven keywords, owned: what `compile_values` compiles. Who reads an object
/// member by member puts them in, and passes over any other member.
#[derive(Drop)]
pub struct OwnedValues {
    content_media_type: Option<Value>,
    content_encoding: Option<Value>,
    content_schema: Option<Value>,
    format: Option<Value>,
    min_length: Option<Value>,
    max_length: Option<Value>,
    pattern: Option<Value>,
}

impl OwnedValues {
    /// Those of an object that has no such key.
    pub fn none() -> OwnedValues
        ensures { (keyword : Keyword) → owned_value result keyword ≡ None }
    {
        OwnedValues {
            content_media_type: None,
            content_encoding: None,
            content_schema: None,
            format: None,
            min_length: None,
            max_length: None,
            pattern: None,
        }
    }

    /// Drops them all: what is left is as of `none`.
    pub fn clear(&mut self)
        ensures { (keyword : Keyword) → owned_value self.new keyword ≡ None }
    {
        self.content_media_type = None;
        self.content_encoding = None;
        self.content_schema = None;
        self.format = None;
        self.min_length = None;
        self.max_length = None;
        self.pattern = None;
    }

    /// Puts in the value at a keyword. One that was there before is dropped.
    pub fn set(&mut self, keyword: Keyword, value: Value)
        ensures put { owned_value self.new keyword ≡ Some (view value) }
        ensures others { (other : Keyword) → (other ≡ keyword → ⊥)
            → owned_value self.new other ≡ owned_value self.old other }
    {
        match keyword {
            Keyword::ContentMediaType => self.content_media_type = Some(value),
            Keyword::ContentEncoding => self.content_encoding = Some(value),
            Keyword::ContentSchema => self.content_schema = Some(value),
            Keyword::Format => self.format = Some(value),
            Keyword::MinLength => self.min_length = Some(value),
            Keyword::MaxLength => self.max_length = Some(value),
            Keyword::Pattern => self.pattern = Some(value),
        }
    }

    /// The same values, borrowed.
    pub fn as_values(&self) -> Values<'_>
        ensures { (keyword : Keyword) → held_value result keyword ≡ owned_value self.now keyword }
    {
        Values {
            content_media_type: self.content_media_type.as_ref(),
            content_encoding: self.content_encoding.as_ref(),
            content_schema: self.content_schema.as_ref(),
            format: self.format.as_ref(),
            min_length: self.min_length.as_ref(),
            max_length: self.max_length.as_ref(),
            pattern: self.pattern.as_ref(),
        }
    }

    // Takes out the value at `contentSchema`.
    pub(crate) fn take_schema(&mut self) -> Option<Value>
        ensures taken { option_map view result ≡ owned_value self.old Keyword.ContentSchema }
        ensures gone { owned_value self.new Keyword.ContentSchema ≡ None }
        ensures others { (other : Keyword) → (other ≡ Keyword.ContentSchema → ⊥)
            → owned_value self.new other ≡ owned_value self.old other }
    {
        self.content_schema.take()
    }
}
