//! The JSON value that bytes are.

ghost use Rattle.std.specs.Prelude.{IfOk, option_map};
ghost use Rattle.serde_json.specs.View.{view};
ghost use Rattle.strkw_json.specs.Json.{IsReading};

use serde_json::Value;
use std::alloc::{AllocError, Global};

/// The JSON value that bytes are, or `None` where they are none. The only error is out of memory.
pub fn read_value(alloc: Global, bytes: &[u8]) -> Result<Option<Value>, AllocError>
    ensures { IfOk result (λ value. IsReading bytes.now (option_map view value)) }
{
    match Value::from_slice(alloc, bytes) {
        Ok(value) => Ok(Some(value)),
        Err(e) if e.is_memory() => Err(AllocError),
        Err(_) => Ok(None),
    }
}
