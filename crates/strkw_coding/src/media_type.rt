//! The media type that is known without the caller's help.

ghost use Rattle.std.specs.Prelude.{◌≡◌, ◌↔◌, IfOk, IsTrue};
ghost use Rattle.strkw_coding.specs.MediaTypes.{IsOfMediaType};
ghost use Rattle.strkw_coding.specs.Names.{media_type_name};

use std::alloc::{AllocError, Global};
use strkw_json::is_json;

/// A media type that is known without the caller's help.
#[derive(Debug, Clone, Copy, PartialEq, Eq)]
pub enum BuiltinMediaType {
    /// `application/json`, RFC 8259.
    Json,
}

impl BuiltinMediaType {
    /// The media type of a name: `application/json`, exactly so written. `None` for every other name.
    pub fn by_name(name: &str) -> Option<BuiltinMediaType>
        ensures { (m : BuiltinMediaType) → (result ≡ Some m) ↔ (name.now ≡ media_type_name m) }
    {
        match name {
            "application/json" => Some(BuiltinMediaType::Json),
            _ => None,
        }
    }

    /// The name by which `by_name` knows the media type.
    pub fn as_str(self) -> &'static str
        ensures { result.now ≡ media_type_name self }
    {
        match self {
            BuiltinMediaType::Json => "application/json",
        }
    }

    /// Whether a text is of the media type. `Err` is out of memory.
    pub fn accepts(self, alloc: Global, text: &str) -> Result<bool, AllocError>
        ensures { IfOk result (λ b. IsTrue b ↔ IsOfMediaType self text.now) }
    {
        match self {
            BuiltinMediaType::Json => is_json(alloc, text),
        }
    }
}
