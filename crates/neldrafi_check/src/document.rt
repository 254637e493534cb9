//! A JSON document, checked.

ghost use Rattle.std.specs.Prelude.{◌≡◌, ◌⊎◌, ℕ, List, IfErr, IfOk, Some};
ghost use Rattle.std.specs.Io.KnownBytes.{Appends};
ghost use Rattle.serde_json.specs.Read.{read};
ghost use Rattle.serde_json.specs.View.{view};
ghost use Rattle.neldrafi_schema.specs.Meaning.{HasErrors};
ghost use Rattle.neldrafi_schema.specs.machine.Words.{IsCompiled, lists_in, schemas_in};
ghost use Rattle.neldrafi_check.specs.Files.{DocumentTold};
ghost use Rattle.neldrafi_check.specs.Faults.{IsWhyNoValue, IsWhyUnread};

use crate::faults::CheckFault;
use crate::forms::ErrorForm;
use crate::origin::Origin;
use crate::values::push_errors;
use neldrafi_position::Positions;
use neldrafi_schema::Schema;
use serde_json::Value;
use std::alloc::Global;
use std::io::{Read, Write};
use strkw_pattern::RegexEngine;

/// Writes the errors of the JSON document that a file has, and answers how many there are.
///
/// Errors: `Unread` if the file cannot be read, `NotUtf8` and `NotJson` if it has no JSON text (RFC 8259) that
/// `serde_json` reads, `Write`, and `Memory`. After any but `Write`, nothing was written.
pub fn check_document<E: RegexEngine, R: Read + Drop, W: Write, F: ErrorForm>(
    alloc: Global,
    schema: &Schema<'_, E>,
    mut file: R,
    form: &F,
    writer: &mut W,
) -> Result<u64, CheckFault>
    requires { IsCompiled E.outcome
        (lists_in admits accepts is_encoding decoding schema.now) schema.now }
    ensures messages { let lists = lists_in admits accepts is_encoding decoding schema.now in
        (text : List ℕ) → R.remaining file ≡ Some text → IfOk result (λ count. (made : List ℕ)
        × DocumentTold (HasErrors (schemas_in E.outcome schema.now) lists)
        (F.writes form.now) text count made
        × Appends (W.contents writer.old) (W.contents writer.new) made) }
    ensures why { (text : List ℕ) → R.remaining file ≡ Some text
        → IfErr result (IsWhyUnread text) }
    ensures unwritten { IfErr result (λ why. (why ≡ CheckFault.Write)
        ⊎ (W.contents writer.new ≡ W.contents writer.old)) }
{
    let mut bytes = Vec::new(alloc);
    file.read_to_end(&mut bytes)?;
    let Ok(text) = simdutf8::basic::from_utf8(&bytes) else {
        return Err(CheckFault::NotUtf8);
    };
    let value = read_value(alloc, text)?;
    let mut out = String::new(alloc);
    let mut origin = Origin::Document(Positions::new(alloc, text));
    let count = push_errors(alloc, schema, &mut origin, &value, form, &mut out)?;
    if writer.write_all(out.as_bytes()).is_err() {
        return Err(CheckFault::Write);
    }
    Ok(count)
}

// The value of a JSON text. The only errors are `NotJson` and `Memory`.
fn read_value(alloc: Global, text: &str) -> Result<Value, CheckFault>
    ensures value { IfOk result (λ value. read text.now ≡ Some (view value)) }
    ensures why { IfErr result (IsWhyNoValue text.now) }
{
    match Value::from_str(alloc, text) {
        Ok(value) => Ok(value),
        Err(e) if e.is_memory() => Err(CheckFault::Memory),
        Err(e) => Err(CheckFault::NotJson(e)),
    }
}
