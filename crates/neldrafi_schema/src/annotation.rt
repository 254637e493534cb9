//! The annotations of an instance.

use crate::error::ValidationError;
use serde_json::Value;
use strkw_report::Location;

/// What a keyword of a schema says of an instance, with no bearing on whether it is valid (Core 2020-12, section 7.7).
#[derive(Drop)]
pub struct Annotation {
    /// The keyword: `title`, `description`, `default`, `deprecated`, `readOnly`, `writeOnly`, `examples`, `format`,
    /// `contentEncoding`, `contentMediaType` or `contentSchema`.
    pub keyword: String,
    /// Its value in the schema.
    pub value: Value,
    /// The place of the keyword in the document.
    pub schema_path: Location,
    /// The place of the keyword on the way that evaluation took, through references.
    pub evaluation_path: Location,
    /// The place of the instance.
    pub instance_path: Location,
    /// The absolute location of the keyword, a URI.
    pub absolute: String,
}

/// What an instance has by a schema.
#[derive(Drop)]
pub struct Evaluation {
    /// Its errors.
    pub errors: Vec<ValidationError>,
    /// Its annotations, if it has no errors.
    pub annotations: Vec<Annotation>,
}
