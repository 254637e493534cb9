//! The keywords that are known, by name and by draft.

ghost use Rattle.std.specs.Prelude.{◌≡◌, ◌++◌, codes, option_map};
ghost use Rattle.serde_json.specs.View.{members_view, view};
ghost use Rattle.neldrafi_schema.specs.Resources.{holding};
ghost use Rattle.neldrafi_schema.specs.Drafts.{anchor_in, applicator_named, begins_anchor, core_named, counts, draft_named, draft_number, draft_of, dynamic_anchor_in, goes_on_in_anchor, has_keyword, has_lone_reference, has_unevaluated, identifier_in, ignores_siblings, is_anchor, is_annotation, is_draft_4, is_keyword, is_of_texts, is_recursive, is_uri, known_named, name_in, named, since, stays_beside_reference, until};

use crate::limits::{Limit, Size};
use crate::node::Part;
use serde_json::{Map, Value};
use strkw_keywords::{Keyword as TextKeyword, member};
use strkw_report::Draft;

/// The keywords that are known.
#[derive(Clone, Copy)]
pub(crate) enum Known {
    Dialect,
    Reference,
    Draft4Identifier,
    Identifier,
    Anchor,
    DynamicReference,
    DynamicAnchor,
    RecursiveReference,
    RecursiveAnchor,
    Types,
    Enumeration,
    Constant,
    MultipleOf,
    Limited(Limit),
    Sized(Size),
    UniqueItems,
    Required,
    Dependencies,
    DependentRequired,
    DependentSchemas,
    Properties,
    PatternProperties,
    AdditionalProperties,
    PropertyNames,
    PrefixItems,
    Items,
    AdditionalItems,
    Contains,
    ContainsCount,
    AllOf,
    AnyOf,
    OneOf,
    Not,
    If,
    Then,
    Else,
    Definitions,
    Defs,
    Unevaluated(Part),
    Text(TextKeyword),
    /// `title` or `description`.
    Description,
    Default,
    Examples,
    Comment,
    /// `readOnly` or `writeOnly`.
    Access,
    Deprecated,
    /// `contentEncoding` or `contentMediaType`.
    Content,
    ContentSchema,
    Vocabulary,
    Unknown,
}

/// How the value of a keyword has schemas.
#[derive(Clone, Copy)]
pub(crate) enum Holding {
    Nothing,
    /// It is a schema, or a list of them.
    OneOrSeveral,
    /// Its members are schemas.
    ByKey,
}

impl Known {
    /// The keyword of a name among the members of a schema object.
    pub fn among(draft: Draft, object: &Map<String, Value>, name: &str) -> Known
        ensures { result ≡ known_named draft (members_view object.now.entries) name.now }
    {
        let known = Known::named(name);
        if known.counts(draft, object) {
            known
        } else {
            Known::Unknown
        }
    }

    // Whether it says something among the members of a schema object.
    fn counts(self, draft: Draft, object: &Map<String, Value>) -> bool
        ensures { result ≡ counts draft (members_view object.now.entries) self }
    {
        self.is_of(draft) && (self.stays_beside_reference() || !has_lone_reference(draft, object))
    }

    // The keyword of a name, in whichever draft. These are of Validation.
    fn named(name: &str) -> Known
        ensures { result ≡ named name.now }
    {
        match name {
            "type" => Known::Types,
            "enum" => Known::Enumeration,
            "const" => Known::Constant,
            "multipleOf" => Known::MultipleOf,
            "minimum" => Known::Limited(Limit::Minimum),
            "exclusiveMinimum" => Known::Limited(Limit::ExclusiveMinimum),
            "maximum" => Known::Limited(Limit::Maximum),
            "exclusiveMaximum" => Known::Limited(Limit::ExclusiveMaximum),
            "minItems" => Known::Sized(Size::MinItems),
            "maxItems" => Known::Sized(Size::MaxItems),
            "minProperties" => Known::Sized(Size::MinProperties),
            "maxProperties" => Known::Sized(Size::MaxProperties),
            "uniqueItems" => Known::UniqueItems,
            "required" => Known::Required,
            "minContains" | "maxContains" => Known::ContainsCount,
            "dependentRequired" => Known::DependentRequired,
            "format" => Known::Text(TextKeyword::Format),
            "minLength" => Known::Text(TextKeyword::MinLength),
            "maxLength" => Known::Text(TextKeyword::MaxLength),
            "pattern" => Known::Text(TextKeyword::Pattern),
            "title" | "description" => Known::Description,
            "default" => Known::Default,
            "examples" => Known::Examples,
            "readOnly" | "writeOnly" => Known::Access,
            "deprecated" => Known::Deprecated,
            "contentEncoding" | "contentMediaType" => Known::Content,
            "contentSchema" => Known::ContentSchema,
            _ => Known::applicator_named(name),
        }
    }

    // Of Core, sections 10 and 11.
    #[tactic(auto, unfolding(crate::specs::Drafts::applicator_named))]
    fn applicator_named(name: &str) -> Known
        ensures { result ≡ applicator_named name.now }
    {
        match name {
            "dependencies" => Known::Dependencies,
            "properties" => Known::Properties,
            "patternProperties" => Known::PatternProperties,
            "additionalProperties" => Known::AdditionalProperties,
            "propertyNames" => Known::PropertyNames,
            "items" => Known::Items,
            "additionalItems" => Known::AdditionalItems,
            "contains" => Known::Contains,
            "prefixItems" => Known::PrefixItems,
            "dependentSchemas" => Known::DependentSchemas,
            "allOf" => Known::AllOf,
            "anyOf" => Known::AnyOf,
            "oneOf" => Known::OneOf,
            "not" => Known::Not,
            "if" => Known::If,
            "then" => Known::Then,
            "else" => Known::Else,
            "unevaluatedProperties" => Known::Unevaluated(Part::Members),
            "unevaluatedItems" => Known::Unevaluated(Part::Items),
            _ => Known::core_named(name),
        }
    }

    // Of Core, section 8.
    #[tactic(auto, unfolding(crate::specs::Drafts::core_named))]
    fn core_named(name: &str) -> Known
        ensures { result ≡ core_named name.now }
    {
        match name {
            "$schema" => Known::Dialect,
            "$ref" => Known::Reference,
            "id" => Known::Draft4Identifier,
            "$id" => Known::Identifier,
            "$anchor" => Known::Anchor,
            "$dynamicRef" => Known::DynamicReference,
            "$dynamicAnchor" => Known::DynamicAnchor,
            "$recursiveRef" => Known::RecursiveReference,
            "$recursiveAnchor" => Known::RecursiveAnchor,
            "definitions" => Known::Definitions,
            "$defs" => Known::Defs,
            "$comment" => Known::Comment,
            "$vocabulary" => Known::Vocabulary,
            _ => Known::Unknown,
        }
    }

    // Whether a draft has it.
    pub fn is_of(self, draft: Draft) -> bool
        ensures { result ≡ has_keyword draft self }
    {
        let draft = draft_number(draft);
        draft_number(self.since()) <= draft && draft <= draft_number(self.until())
    }

    // The first draft that has it.
    fn since(self) -> Draft
        ensures { result ≡ since self }
    {
        match self {
            Known::Identifier
            | Known::Constant
            | Known::PropertyNames
            | Known::Contains
            | Known::Examples => Draft::Draft6,
            Known::If
            | Known::Then
            | Known::Else
            | Known::Comment
            | Known::Access
            | Known::Content => Draft::Draft7,
            Known::Anchor
            | Known::RecursiveReference
            | Known::RecursiveAnchor
            | Known::ContainsCount
            | Known::DependentRequired
            | Known::DependentSchemas
            | Known::Defs
            | Known::Unevaluated(_)
            | Known::Deprecated
            | Known::ContentSchema
            | Known::Vocabulary => Draft::Draft201909,
            Known::PrefixItems | Known::DynamicReference | Known::DynamicAnchor => {
                Draft::Draft202012
            }
            _ => Draft::Draft4,
        }
    }

    // The last draft that has it.
    fn until(self) -> Draft
        ensures { result ≡ until self }
    {
        match self {
            Known::Draft4Identifier => Draft::Draft4,
            Known::Dependencies => Draft::Draft7,
            Known::AdditionalItems | Known::RecursiveReference | Known::RecursiveAnchor => {
                Draft::Draft201909
            }
            _ => Draft::Draft202012,
        }
    }

    /// How its value has schemas.
    pub fn holding(self) -> Holding
        ensures { result ≡ holding self }
    {
        match self {
            Known::Properties
            | Known::PatternProperties
            | Known::Dependencies
            | Known::DependentSchemas
            | Known::Definitions
            | Known::Defs => Holding::ByKey,
            Known::AdditionalProperties
            | Known::PropertyNames
            | Known::PrefixItems
            | Known::Items
            | Known::AdditionalItems
            | Known::Contains
            | Known::AllOf
            | Known::AnyOf
            | Known::OneOf
            | Known::Not
            | Known::If
            | Known::Then
            | Known::Else
            | Known::Unevaluated(_)
            | Known::ContentSchema => Holding::OneOrSeveral,
            _ => Holding::Nothing,
        }
    }

    fn stays_beside_reference(self) -> bool
        ensures { result ≡ stays_beside_reference self }
    {
        matches!(self, Known::Dialect | Known::Reference)
    }

    /// Whether its value annotates instances.
    pub fn is_annotation(self) -> bool
        ensures { result ≡ is_annotation self }
    {
        match self {
            Known::Description
            | Known::Default
            | Known::Examples
            | Known::Access
            | Known::Deprecated
            | Known::ContentSchema => true,
            _ => self.is_of_texts(),
        }
    }

    /// Whether it is an annotation of strings alone.
    pub fn is_of_texts(self) -> bool
        ensures { result ≡ is_of_texts self }
    {
        matches!(
            self,
            Known::Text(TextKeyword::Format) | Known::Content | Known::ContentSchema
        )
    }
}

/// Whether a draft has a keyword of a name.
pub(crate) fn is_keyword(draft: Draft, name: &str) -> bool
    ensures { result ≡ is_keyword draft name.now }
{
    let known = Known::named(name);
    !matches!(known, Known::Unknown) && known.is_of(draft)
}

/// Whether a draft has keywords that speak of what is evaluated.
pub(crate) fn has_unevaluated(draft: Draft) -> bool
    ensures { result ≡ has_unevaluated draft }
{
    draft_number(draft) >= draft_number(Draft::Draft201909)
}

// Drafts in their order.
fn draft_number(draft: Draft) -> u64
    ensures { result ≡ draft_number draft }
{
    match draft {
        Draft::Draft4 => 4,
        Draft::Draft6 => 6,
        Draft::Draft7 => 7,
        Draft::Draft201909 => 8,
        Draft::Draft202012 => 9,
    }
}

// Whether a draft ignores what stands beside a reference.
fn ignores_siblings(draft: Draft) -> bool
    ensures { result ≡ ignores_siblings draft }
{
    matches!(draft, Draft::Draft4 | Draft::Draft6 | Draft::Draft7)
}

// Whether an object has a reference beside which others are ignored.
fn has_lone_reference(draft: Draft, object: &Map<String, Value>) -> bool
    ensures { result ≡ has_lone_reference draft (members_view object.now.entries) }
{
    ignores_siblings(draft) && member(object, "$ref").is_some()
}

/// `$id` of a schema object, or `id` in draft 4.
pub(crate) fn identifier_in(draft: Draft, object: &Map<String, Value>) -> Option<&str>
    ensures { option_map (λ t. t.now) result
        ≡ identifier_in draft (members_view object.now.entries) }
{
    if has_lone_reference(draft, object) {
        return None;
    }
    let name = if is_draft_4(draft) { "id" } else { "$id" };
    member(object, name)?.as_str()
}

/// `$anchor` of a schema object.
pub(crate) fn anchor_in(draft: Draft, object: &Map<String, Value>) -> Option<&str>
    ensures { option_map (λ t. t.now) result ≡ anchor_in draft (members_view object.now.entries) }
{
    name_in(draft, Known::Anchor, "$anchor", object)
}

/// `$dynamicAnchor` of a schema object.
pub(crate) fn dynamic_anchor_in(draft: Draft, object: &Map<String, Value>) -> Option<&str>
    ensures { option_map (λ t. t.now) result
        ≡ dynamic_anchor_in draft (members_view object.now.entries) }
{
    name_in(draft, Known::DynamicAnchor, "$dynamicAnchor", object)
}

// The text of a keyword, in the drafts that have it.
fn name_in<'v>(
    draft: Draft,
    keyword: Known,
    name: &str,
    object: &'v Map<String, Value>,
) -> Option<&'v str>
    ensures { option_map (λ t. t.now) result
        ≡ name_in draft keyword name.now (members_view object.now.entries) }
{
    if keyword.is_of(draft) {
        member(object, name)?.as_str()
    } else {
        None
    }
}

/// Whether `$recursiveAnchor` of a schema object is `true`.
pub(crate) fn is_recursive(draft: Draft, object: &Map<String, Value>) -> bool
    ensures { result ≡ is_recursive draft (members_view object.now.entries) }
{
    if !Known::RecursiveAnchor.is_of(draft) {
        return false;
    }
    match member(object, "$recursiveAnchor") {
        Some(value) => value.as_bool().unwrap_or(false),
        None => false,
    }
}

/// Whether `$anchor` takes a text.
pub(crate) fn is_anchor(draft: Draft, text: &str) -> bool
    ensures { result ≡ is_anchor draft text.now }
{
    match text.as_bytes() {
        [first, others @ ..] => {
            begins_anchor(draft, *first) && others.iter().all(|c| goes_on_in_anchor(draft, *c))
        }
        [] => false,
    }
}

fn begins_anchor(draft: Draft, c: u8) -> bool
    ensures { result ≡ begins_anchor draft c }
{
    c.is_ascii_alphabetic() || (c == b'_' && !matches!(draft, Draft::Draft201909))
}

fn goes_on_in_anchor(draft: Draft, c: u8) -> bool
    ensures { result ≡ goes_on_in_anchor draft c }
{
    c.is_ascii_alphanumeric()
        || matches!(c, b'-' | b'_' | b'.')
        || (c == b':' && matches!(draft, Draft::Draft201909))
}

pub(crate) fn is_draft_4(draft: Draft) -> bool
    ensures { result ≡ is_draft_4 draft }
{
    matches!(draft, Draft::Draft4)
}

/// The draft of a document: that of its `$schema`, or else this one.
pub(crate) fn draft_of(otherwise: Draft, document: &Value) -> Draft
    ensures { result ≡ draft_of otherwise (view document.now) }
{
    match document.get("$schema") {
        Some(Value::String(uri)) => draft_named(uri).unwrap_or(otherwise),
        _ => otherwise,
    }
}

/// The draft that a text of `$schema` names.
pub(crate) fn draft_named(text: &str) -> Option<Draft>
    ensures { result ≡ draft_named text.now }
{
    if is_uri(
        "http://json-schema.org/draft-04/schema",
        "http://json-schema.org/draft-04/schema#",
        text,
    ) {
        Some(Draft::Draft4)
    } else if is_uri(
        "http://json-schema.org/draft-06/schema",
        "http://json-schema.org/draft-06/schema#",
        text,
    ) {
        Some(Draft::Draft6)
    } else if is_uri(
        "http://json-schema.org/draft-07/schema",
        "http://json-schema.org/draft-07/schema#",
        text,
    ) {
        Some(Draft::Draft7)
    } else if is_uri(
        "https://json-schema.org/draft/2019-09/schema",
        "https://json-schema.org/draft/2019-09/schema#",
        text,
    ) {
        Some(Draft::Draft201909)
    } else if is_uri(
        "https://json-schema.org/draft/2020-12/schema",
        "https://json-schema.org/draft/2020-12/schema#",
        text,
    ) {
        Some(Draft::Draft202012)
    } else {
        None
    }
}

// Whether a text is a URI, or the URI with an empty fragment.
fn is_uri(uri: &str, with_fragment: &str, text: &str) -> bool
    ensures { with_fragment.now ≡ uri.now ++ codes "#" → result ≡ is_uri uri.now text.now }
{
    text == uri || text == with_fragment
}
