ghost use Rattle.std.specs.Prelude.{◌≡◌};
ghost use Rattle.serde_json.specs.View.{view};
ghost use Rattle.strkw_report.specs.Drafts.{draft_in, draft_numbered};

use serde_json::Value;

/// The drafts of JSON Schema, ordered as they appeared.
#[derive(Debug, Clone, Copy, PartialEq, Eq, PartialOrd, Ord, Hash)]
pub enum Draft {
    /// `http://json-schema.org/draft-04/schema#`.
    Draft4,
    /// `http://json-schema.org/draft-06/schema#`.
    Draft6,
    /// `http://json-schema.org/draft-07/schema#`.
    Draft7,
    /// `https://json-schema.org/draft/2019-09/schema`.
    Draft201909,
    /// `https://json-schema.org/draft/2020-12/schema`.
    Draft202012,
}

/// The draft of a number: 4, 6, 7, 201909 or 202012.
pub fn draft_numbered(number: u64) -> Option<Draft>
    ensures { result ≡ draft_numbered number }
{
    draft_in(&Value::from(number))
}

/// The draft whose number a value is.
pub fn draft_in(value: &Value) -> Option<Draft>
    ensures { result ≡ draft_in (view value.now) }
{
    match value.as_u64()? {
        4 => Some(Draft::Draft4),
        6 => Some(Draft::Draft6),
        7 => Some(Draft::Draft7),
        201909 => Some(Draft::Draft201909),
        202012 => Some(Draft::Draft202012),
        _ => None,
    }
}
