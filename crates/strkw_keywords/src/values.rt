//! The values of a schema object at the seven keywords, each looked up once.

ghost use Rattle.std.specs.Prelude.{◌≡◌, option_map};
ghost use Rattle.serde_json.specs.Data.{Members};
ghost use Rattle.serde_json.specs.Find.{get_member};
ghost use Rattle.serde_json.specs.View.{members_view, view};
ghost use Rattle.strkw_keywords.specs.Keywords.{keyword_name};
ghost use Rattle.strkw_keywords.specs.Values.{AreValuesOf, held_value, members_of};

use crate::compile::member;
use crate::keyword::Keyword;
use serde_json::{Map, Value};

/// The values of a schema object at the seven keywords, each `None` where the object has no such key.
#[derive(Clone, Copy)]
pub struct Values<'v> {
    /// The value at `contentMediaType`.
    pub content_media_type: Option<&'v Value>,
    /// The value at `contentEncoding`.
    pub content_encoding: Option<&'v Value>,
    /// The value at `contentSchema`.
    pub content_schema: Option<&'v Value>,
    /// The value at `format`.
    pub format: Option<&'v Value>,
    /// The value at `minLength`.
    pub min_length: Option<&'v Value>,
    /// The value at `maxLength`.
    pub max_length: Option<&'v Value>,
    /// The value at `pattern`.
    pub pattern: Option<&'v Value>,
}

impl<'v> Values<'v> {
    /// Those of an object: one lookup a keyword.
    pub fn of(object: &'v Map<String, Value>) -> Values<'v>
        ensures { AreValuesOf (members_view object.now.entries) result }
    {
        Values {
            content_media_type: member(object, Keyword::ContentMediaType.as_str()),
            content_encoding: member(object, Keyword::ContentEncoding.as_str()),
            content_schema: member(object, Keyword::ContentSchema.as_str()),
            format: member(object, Keyword::Format.as_str()),
            min_length: member(object, Keyword::MinLength.as_str()),
            max_length: member(object, Keyword::MaxLength.as_str()),
            pattern: member(object, Keyword::Pattern.as_str()),
        }
    }

    /// The value at a keyword, or `None` where there is none.
    pub fn at(&self, keyword: Keyword) -> Option<&'v Value>
        ensures { option_map (λ v. view v.now) result ≡ held_value self.now keyword }
    {
        match keyword {
            Keyword::ContentMediaType => self.content_media_type,
            Keyword::ContentEncoding => self.content_encoding,
            Keyword::ContentSchema => self.content_schema,
            Keyword::Format => self.format,
            Keyword::MinLength => self.min_length,
            Keyword::MaxLength => self.max_length,
            Keyword::Pattern => self.pattern,
        }
    }
}

// A schema object, as entries are compiled of it: the object, or its values.
pub(crate) trait Object {
    // What it has at the keywords, as an object has it.
    ghost members: { Self → Members };

    // The value at a keyword, or `None` where there is none.
    fn value(&self, keyword: Keyword) -> Option<&Value>
        ensures { option_map (λ v. view v.now) result
            ≡ get_member (keyword_name keyword) (members self.now) };
}

impl Object for Map<String, Value> {
    ghost members = { λ m. members_view m.entries };

    fn value(&self, keyword: Keyword) -> Option<&Value> {
        member(self, keyword.as_str())
    }
}

impl Object for Values<'_> {
    ghost members = { members_of };

    fn value(&self, keyword: Keyword) -> Option<&Value> {
        self.at(keyword)
    }
}
