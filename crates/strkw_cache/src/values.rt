//! The values of a schema object at the seven keywords, read of the tokens of a line.

ghost use Rattle.std.specs.Bool.{MatchBool};
ghost use Rattle.std.specs.Prelude.{◌<◌, ◌≡◌, IfOk, IsErrOf, None, OnOk, Some, length};
ghost use Rattle.serde_json.specs.Data.{Data, Members, object};
ghost use Rattle.serde_json.specs.Find.{as_object};
ghost use Rattle.strkw_json.specs.Passing.{members_read, value_read};
ghost use Rattle.strkw_object.specs.Values.{AreOwnedOf};
ghost use Rattle.strkw_cache.specs.Depths.{member_depth, value_depth};

use json::{Invalid, Reader, Token};
use std::alloc::Global;
use strkw_json::{JsonError, build_json, json_text, passes_json};
use strkw_keywords::Keyword;
use strkw_object::OwnedValues;

/// How deep the value of a member of a request may nest: one less than the line.
pub const MEMBER_DEPTH: usize = 126;

// How deep a value of its schema object may nest: one less.
const VALUE_DEPTH: usize = 125;

/// Whether the JSON value that comes first of these tokens is an object, of which then the values are read. Its other
/// members, and another value, are passed over, and not built.
///
/// Errors: as `build_json`.
pub fn read_values(
    alloc: Global,
    tokens: &mut Reader<'_>,
    values: &mut OwnedValues,
) -> Result<bool, JsonError>
    ensures ok { IfOk result (λ is_object. (d : Data)
        × (value_read member_depth tokens.old ≡ Some (d, tokens.new))
        × MatchBool is_object ((ms : Members) × (d ≡ object ms) × AreOwnedOf ms values.new)
        (as_object d ≡ None)) }
    ensures none { IsErrOf result JsonError.NotJson → value_read member_depth tokens.old ≡ None }
    ensures shorter { OnOk result (length tokens.new < length tokens.old) }
{
    let token = tokens.next().ok_or(JsonError::NotJson)?;
    match token {
        Token::BeginObject => {}
        _ if passes_json(token, tokens, MEMBER_DEPTH) => return Ok(false),
        _ => return Err(JsonError::NotJson),
    }
    values.clear();
    'members: while let Some(name) = tokens.next_key()? {
        match Keyword::by_name(name) {
            Some(keyword) => values.set(keyword, build_json(alloc, tokens, VALUE_DEPTH)?),
            None => {
                json_text(tokens, VALUE_DEPTH)?;
            }
        }
    }
    Ok(true)
}
