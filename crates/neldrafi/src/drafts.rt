//! The drafts by the names that the command line has for them.

use serde_json::Value;
use strkw_report::Draft;

/// The drafts, from the first to the last.
pub(crate) const DRAFTS: &[Draft] = &[
    Draft::Draft4,
    Draft::Draft6,
    Draft::Draft7,
    Draft::Draft201909,
    Draft::Draft202012,
];

/// Their names, in the same order.
pub(crate) const DRAFT_NAMES: &[&str] = &["4", "6", "7", "2019-09", "2020-12"];

// The URIs of their meta-schemas, in the same order (JSON Schema Core 2020-12, section 8.1.1).
const META_SCHEMAS: &[&str] = &[
    "http://json-schema.org/draft-04/schema",
    "http://json-schema.org/draft-06/schema",
    "http://json-schema.org/draft-07/schema",
    "https://json-schema.org/draft/2019-09/schema",
    "https://json-schema.org/draft/2020-12/schema",
];

/// The name of the draft that is taken where none is named.
pub(crate) const DEFAULT_DRAFT_NAME: &str = "2020-12";

// The draft that is taken where none is named.
const DEFAULT_DRAFT: Draft = Draft::Draft202012;

/// The name of a draft.
pub(crate) fn draft_name(draft: Draft) -> &'static str {
    match draft {
        Draft::Draft4 => "4",
        Draft::Draft6 => "6",
        Draft::Draft7 => "7",
        Draft::Draft201909 => "2019-09",
        Draft::Draft202012 => DEFAULT_DRAFT_NAME,
    }
}

/// The draft of a name. It is the last one where no name is given, or one that no draft has.
pub(crate) fn draft_named(name: Option<&str>) -> Draft {
    for draft in DRAFTS {
        if name == Some(draft_name(*draft)) {
            return *draft;
        }
    }
    DEFAULT_DRAFT
}

/// The draft whose meta-schema the `$schema` of a schema names, or else this one.
pub(crate) fn draft_of_schema(schema: &Value, otherwise: Draft) -> Draft {
    let Some(uri) = schema.get("$schema").and_then(Value::as_str) else {
        return otherwise;
    };
    let uri = uri.strip_suffix("#").unwrap_or(uri);
    for (draft, other) in DRAFTS.iter().zip(META_SCHEMAS) {
        if uri == *other {
            return *draft;
        }
    }
    otherwise
}
