//! Why a schema document is refused, and where.

ghost use Rattle.std.specs.Prelude.{◌≡◌, ◌++◌, IfOk, codes, false, string_bytes};
ghost use Rattle.neldrafi_schema.specs.Explanations.{explanation, prints_float, refusal_text};
ghost use Rattle.neldrafi_schema.specs.machine.Problems.{reason_of};

use std::alloc::{AllocError, Global};
use strkw_report::{CompileError, Location};

/// Why a schema document is refused.
#[derive(Debug, Drop)]
pub enum SchemaErrorKind {
    /// A value is not of the kind that its keyword takes, or is no schema where one is to stand.
    WrongType,
    /// A reference leads to no schema.
    UnresolvedReference,
    /// A reference leads back to itself, and does not enter the instance on the way.
    CircularReference,
    /// `$schema` names a dialect that is not known.
    UnknownDialect,
    /// A string keyword is refused.
    Text(CompileError),
    /// Out of memory.
    Memory,
}

/// The refusal of a schema document.
#[derive(Debug, Drop)]
pub struct SchemaError {
    /// Why it is refused.
    pub kind: SchemaErrorKind,
    /// The URI of the document that has the refused value, which is empty for the schema itself.
    pub uri: String,
    /// The location of the refused value in this document, as a JSON pointer; the root if out of memory.
    pub location: Location,
}

impl SchemaError {
    // Out of memory, at the root.
    pub(crate) fn memory(alloc: Global) -> SchemaError
        ensures { result.kind ≡ SchemaErrorKind.Memory }
    {
        SchemaError {
            kind: SchemaErrorKind::Memory,
            uri: String::new(alloc),
            location: Location::root(alloc),
        }
    }

    /// Why and where: the document's URI, `#` and the JSON pointer, and the reason. It fails only if out of memory.
    pub fn text(&self, alloc: Global) -> Result<String, AllocError>
        ensures { IfOk result (λ s. prints_float (reason_of self.now.kind) ≡ false
            → string_bytes s ≡ refusal_text (reason_of self.now.kind) (string_bytes self.now.uri)
            self.now.location) }
    {
        let why = self.kind.text(alloc)?;
        match &self.kind {
            SchemaErrorKind::Memory => Ok(why),
            _ => placed(alloc, &self.uri, self.location.as_str(), &why),
        }
    }
}

// What is said of a place.
fn placed(alloc: Global, uri: &str, location: &str, text: &str) -> Result<String, AllocError>
    ensures { IfOk result (λ s. string_bytes s
        ≡ codes "at " ++ uri.now ++ codes "#" ++ location.now ++ codes ": " ++ text.now) }
{
    format!(in alloc; "at {uri}#{location}: {text}")
}

impl SchemaErrorKind {
    fn text(&self, alloc: Global) -> Result<String, AllocError>
        ensures { IfOk result (λ s. prints_float (reason_of self.now) ≡ false
            → string_bytes s ≡ explanation (reason_of self.now)) }
    {
        match self {
            SchemaErrorKind::WrongType => String::from_str(
                alloc,
                "the value is not of the kind required here",
            ),
            SchemaErrorKind::UnresolvedReference => {
                String::from_str(
                    alloc,
                    "the reference leads to no schema of the given documents",
                )
            }
            SchemaErrorKind::CircularReference => String::from_str(
                alloc,
                "the reference leads back to itself, and does not enter the instance on the way",
            ),
            SchemaErrorKind::UnknownDialect => String::from_str(
                alloc,
                "the value is none of http://json-schema.org/draft-04/schema, http://json-schema.org/draft-06/schema, http://json-schema.org/draft-07/schema, https://json-schema.org/draft/2019-09/schema and https://json-schema.org/draft/2020-12/schema",
            ),
            SchemaErrorKind::Text(refusal) => refusal.text(alloc),
            SchemaErrorKind::Memory => String::from_str(alloc, "out of memory"),
        }
    }
}
