//! Keywords of a schema and of the schemas to which its references lead.

ghost use Rattle.std.specs.Prelude.{◌≡◌, option_map};
ghost use Rattle.serde_json.specs.View.{view};
ghost use Rattle.neldrafi_table.specs.Keywords.{fragment, keyword_of, referenced};

use serde_json::Value;

/// No more references than so many, one after the other, are followed.
pub(crate) const MOST_REFERENCES: usize = 64;

/// The value of a keyword in the schema to which the `$ref` of a schema leads within the document, or else in the schema
/// itself.
pub(crate) fn keyword<'a>(document: &'a Value, schema: &'a Value, name: &str) -> Option<&'a Value>
    ensures { option_map (λ v. view v.now) result
        ≡ keyword_of 64 (view document.now) name.now (view schema.now) }
{
    keyword_within(MOST_REFERENCES, document, schema, name)
}

// The same, if so many references may be followed.
fn keyword_within<'a>(
    references: usize,
    document: &'a Value,
    schema: &'a Value,
    name: &str,
) -> Option<&'a Value>
    ensures { option_map (λ v. view v.now) result
        ≡ keyword_of references (view document.now) name.now (view schema.now) }
{
    if references == 0 {
        return schema.get(name);
    }
    let found = match referenced(document, schema) {
        Some(other) => keyword_within(references - 1, document, other, name),
        None => None,
    };
    match found {
        Some(value) => Some(value),
        None => schema.get(name),
    }
}

// The schema to which `$ref` leads within the document.
fn referenced<'a>(document: &'a Value, schema: &Value) -> Option<&'a Value>
    ensures { option_map (λ v. view v.now) result
        ≡ referenced (view document.now) (view schema.now) }
{
    document.pointer(fragment(schema.get("$ref")?.as_str()?)?)
}

// The fragment of a reference that is nothing else.
fn fragment(reference: &str) -> Option<&str>
    ensures { option_map (λ s. s.now) result ≡ fragment reference.now }
{
    reference.strip_prefix('#')
}
