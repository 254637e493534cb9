use crate::error::ValidationError;
use serde_json::Value;

/// What one keyword answers of an instance: its errors, and the value that it annotates the instance with.
#[derive(Drop)]
pub struct EvaluationResult {
    /// The errors, in the order of the keyword's entries. It is empty where the instance is valid.
    pub errors: Vec<ValidationError>,
    /// The annotation, where the keyword makes one of this instance. Errors do not take it away.
    pub annotation: Option<Value>,
}
