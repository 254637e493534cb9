//! The names in schema objects that are no keywords.

ghost use Rattle.std.specs.Prelude.{◌≡◌, ◌++◌, IfOk, OnOk, map, option_map};
ghost use Rattle.serde_json.specs.View.{view};
ghost use Rattle.neldrafi_schema.specs.Unknown.{first_near, keyword_names, nearest_keyword, unknown_in, unknown_keywords};
ghost use Rattle.neldrafi_schema.specs.machine.Objects.{object_of};
ghost use Rattle.neldrafi_schema.specs.machine.Unknown.{unknown_of};

use crate::known::{draft_of, is_keyword};
use crate::objects::{SchemaObject, schema_objects};
use crate::places::location_of;
use serde_json::Value;
use std::alloc::{AllocError, Global};
use strkw_report::{Draft, Location};
use strsim::osa_distance;

/// A member of a schema object whose name is no keyword.
#[derive(Debug, Drop)]
pub struct UnknownKeyword {
    /// The location of the schema object in its document, as a JSON pointer.
    pub location: Location,
    /// The name.
    pub name: String,
    /// The keyword of the draft that was perhaps meant: one or two edits lead to it from the name, which has at least
    /// three bytes for each. An edit is a character more or less, another one, or two neighbours changed over.
    pub nearest: Option<&'static str>,
}

/// The members of the schema objects of a document whose names are no keywords of its draft, in the order of the
/// document. The standard has them ignored (Core 2020-12, section 6.5), so they may be misspelled keywords, keywords of
/// another draft, or annotations of the caller's own.
///
/// The draft is that of the document's `$schema`, or else `draft`, or else 2020-12. Schema objects are the document and
/// its subschemas: what is in the value of `enum`, `const`, `default`, `examples`, or of an unknown name is none, and
/// neither is what drafts 4 to 7 ignore beside `$ref`. References are not followed. It fails only if out of memory.
pub fn unknown_keywords(
    alloc: Global,
    document: &Value,
    draft: Option<Draft>,
) -> Result<Vec<UnknownKeyword>, AllocError>
    ensures { IfOk result (λ found. map unknown_of found.items
        ≡ unknown_keywords draft (view document.now)) }
{
    let draft = draft_of(draft.unwrap_or(Draft::Draft202012), document);
    let schemas = schema_objects(alloc, draft, &[], document)?;
    let mut found = Vec::new(alloc);
    for schema in &schemas {
        push_unknown(alloc, draft, schema, &mut found)?;
    }
    Ok(found)
}

// Those of one schema object.
fn push_unknown(
    alloc: Global,
    draft: Draft,
    schema: &SchemaObject<'_>,
    found: &mut Vec<UnknownKeyword>,
) -> Result<(), AllocError>
    ensures { OnOk result (map unknown_of found.new.items ≡ map unknown_of found.old.items
        ++ unknown_in draft (object_of schema.now)) }
{
    for (name, _) in schema.object.iter() {
        if !is_keyword(draft, name.as_str()) {
            let nearest = nearest_keyword(alloc, draft, name.as_str())?;
            found.push(UnknownKeyword {
                location: location_of(alloc, &schema.path)?,
                name: name.clone()?,
                nearest,
            })?;
        }
    }
    Ok(())
}

// The keyword of a draft to which one edit leads from a name, or else two.
fn nearest_keyword(
    alloc: Global,
    draft: Draft,
    name: &str,
) -> Result<Option<&'static str>, AllocError>
    ensures { IfOk result (λ near. option_map (λ it. it.now) near
        ≡ nearest_keyword draft name.now) }
{
    match first_near(alloc, draft, name, 1, keyword_names())? {
        Some(near) => Ok(Some(near)),
        None => first_near(alloc, draft, name, 2, keyword_names()),
    }
}

// The first that is a keyword of the draft, and that many edits from a name, which has at least three bytes for each.
fn first_near(
    alloc: Global,
    draft: Draft,
    name: &str,
    edits: usize,
    names: &[&'static str],
) -> Result<Option<&'static str>, AllocError>
    ensures { IfOk result (λ near. option_map (λ it. it.now) near
        ≡ first_near draft name.now edits (map (λ other. other.now) names.now)) }
{
    if name.len() / 3 < edits {
        return Ok(None);
    }
    for other in names {
        if is_keyword(draft, other) && osa_distance(alloc, name, other)? == edits {
            return Ok(Some(*other));
        }
    }
    Ok(None)
}

// Those of all drafts: Core, sections 8, 10 and 11, and then Validation.
#[tactic(auto, unfolding(crate::specs::Unknown::keyword_names))]
fn keyword_names() -> &'static [&'static str]
    ensures { map (λ name. name.now) result.now ≡ keyword_names }
{
    &[
        "$schema",
        "$vocabulary",
        "$id",
        "id",
        "$ref",
        "$anchor",
        "$dynamicRef",
        "$dynamicAnchor",
        "$recursiveRef",
        "$recursiveAnchor",
        "$defs",
        "definitions",
        "$comment",
        "allOf",
        "anyOf",
        "oneOf",
        "not",
        "if",
        "then",
        "else",
        "dependentSchemas",
        "dependencies",
        "prefixItems",
        "items",
        "additionalItems",
        "contains",
        "properties",
        "patternProperties",
        "additionalProperties",
        "propertyNames",
        "unevaluatedItems",
        "unevaluatedProperties",
        "type",
        "enum",
        "const",
        "multipleOf",
        "maximum",
        "exclusiveMaximum",
        "minimum",
        "exclusiveMinimum",
        "maxLength",
        "minLength",
        "pattern",
        "maxItems",
        "minItems",
        "uniqueItems",
        "maxContains",
        "minContains",
        "maxProperties",
        "minProperties",
        "required",
        "dependentRequired",
        "title",
        "description",
        "default",
        "deprecated",
        "readOnly",
        "writeOnly",
        "examples",
        "format",
        "contentEncoding",
        "contentMediaType",
        "contentSchema",
    ]
}
