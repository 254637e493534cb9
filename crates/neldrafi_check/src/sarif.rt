//! Errors as results of SARIF.

ghost use Rattle.std.specs.Prelude.{◌≡◌, ◌++◌, ℕ, List, IfOk, OnOk, false, string_bytes};
ghost use Rattle.serde_json.specs.View.{view};
ghost use Rattle.neldrafi_schema.specs.Errors.{prints_float, text_of};
ghost use Rattle.neldrafi_schema.specs.machine.Found.{error_seen};
ghost use Rattle.neldrafi_check.specs.Forms.{line_of};
ghost use Rattle.neldrafi_check.specs.Sarif.{artifact_location, error_result, line_location, location_of, logical_location, message_object, physical_location, physical_of, region, result_of, sarif_form, value_location};

use crate::escapes::{Syntax, push_escaped};
use crate::forms::ErrorForm;
use crate::kinds::error_kind_name;
use crate::objects::{Datum, object, push_line};
use crate::uris::push_uri;
use neldrafi_position::Position;
use neldrafi_schema::ValidationError;
use serde_json::Value;
use std::alloc::{AllocError, Global};

/// Results of SARIF 2.1.0, one on a line. The `ruleId` is the name of the keyword, the `fullyQualifiedName` of the
/// logical location is a JSON pointer to the value, and columns are those of `unicodeCodePoints`.
#[derive(Clone, Copy)]
pub struct SarifResults<'a> {
    /// The name of the file.
    pub file: &'a str,
}

// Which file something is in.
fn artifact_location(alloc: Global, file: &str) -> Result<Value, AllocError>
    ensures { IfOk result (λ value. view value ≡ artifact_location file.now) }
{
    let mut uri = String::new(alloc);
    push_uri(file, &mut uri)?;
    object(alloc, &[("uri", Datum::Text(&uri))])
}

// Where something begins.
fn region(alloc: Global, at: Position) -> Result<Value, AllocError>
    ensures { IfOk result (λ value. view value ≡ region at) }
{
    let members = [
        ("startColumn", Datum::Number(at.column)),
        ("startLine", Datum::Number(at.line)),
    ];
    object(alloc, &members)
}

// Where something is in a file, by what is at its members.
fn physical_of<'x>(
    alloc: Global,
    artifact: &'x Value,
    region: &'x Value,
) -> Result<Value, AllocError>
    ensures { IfOk result (λ value. view value
        ≡ physical_of (view artifact.now) (view region.now)) }
{
    let members = [
        ("artifactLocation", Datum::Value(artifact)),
        ("region", Datum::Value(region)),
    ];
    object(alloc, &members)
}

// Where something is in a file.
fn physical_location(alloc: Global, file: &str, at: Position) -> Result<Value, AllocError>
    ensures { IfOk result (λ value. view value ≡ physical_location file.now at) }
{
    physical_of(alloc, &artifact_location(alloc, file)?, &region(alloc, at)?)
}

// Where a value is in its document.
fn logical_location(alloc: Global, location: &str) -> Result<Value, AllocError>
    ensures { IfOk result (λ value. view value ≡ logical_location location.now) }
{
    object(alloc, &[("fullyQualifiedName", Datum::Text(location))])
}

// The message with this text.
fn message_object(alloc: Global, text: &str) -> Result<Value, AllocError>
    ensures { IfOk result (λ value. view value ≡ message_object text.now) }
{
    let mut escaped = String::new(alloc);
    push_escaped(Syntax::SarifMessage, text, &mut escaped)?;
    object(alloc, &[("text", Datum::Text(&escaped))])
}

// A result, by what is at its members.
fn result_of<'x>(
    alloc: Global,
    place: &'x Value,
    rule: &'x str,
    message: &'x Value,
) -> Result<Value, AllocError>
    ensures { IfOk result (λ value. view value
        ≡ result_of (view place.now) rule.now (view message.now)) }
{
    let members = [
        ("level", Datum::Text("error")),
        ("locations", Datum::Single(place)),
        ("message", Datum::Value(message)),
        ("ruleId", Datum::Text(rule)),
    ];
    object(alloc, &members)
}

// A location of a value, by what is at its members.
fn location_of<'x>(
    alloc: Global,
    logical: &'x Value,
    physical: &'x Value,
) -> Result<Value, AllocError>
    ensures { IfOk result (λ value. view value
        ≡ location_of (view logical.now) (view physical.now)) }
{
    let members = [
        ("logicalLocations", Datum::Single(logical)),
        ("physicalLocation", Datum::Value(physical)),
    ];
    object(alloc, &members)
}

// The location of a value in a file.
fn value_location(
    alloc: Global,
    file: &str,
    at: Position,
    location: &str,
) -> Result<Value, AllocError>
    ensures { IfOk result (λ value. view value
        ≡ value_location file.now at location.now) }
{
    let logical = logical_location(alloc, location)?;
    let physical = physical_location(alloc, file, at)?;
    location_of(alloc, &logical, &physical)
}

// The location of a line without a value.
fn line_location(alloc: Global, file: &str, at: Position) -> Result<Value, AllocError>
    ensures { IfOk result (λ value. view value ≡ line_location file.now at) }
{
    let physical = physical_location(alloc, file, at)?;
    object(alloc, &[("physicalLocation", Datum::Value(&physical))])
}

// Appends the result of an error that says this.
fn push_error(
    alloc: Global,
    file: &str,
    at: Position,
    error: &ValidationError,
    text: &str,
    out: &mut String,
) -> Result<(), AllocError>
    requires { prints_float (error_seen error.now) ≡ false
        → text.now ≡ text_of (error_seen error.now) }
    ensures { let e = error_seen error.now in OnOk result ((made : List ℕ)
        × (string_bytes out.new ≡ string_bytes out.old ++ made)
        × (prints_float e ≡ false → made ≡ line_of (error_result file.now at e))) }
{
    let place = value_location(alloc, file, at, error.instance_path().as_str())?;
    let message = message_object(alloc, text)?;
    let result = result_of(alloc, &place, error_kind_name(error), &message)?;
    push_line(alloc, &result, out)
}

impl ErrorForm for SarifResults<'_> {
    ghost writes = { λ form. sarif_form form.file.now };

    fn push(
        &self,
        alloc: Global,
        at: Position,
        error: &ValidationError,
        out: &mut String,
    ) -> Result<(), AllocError> {
        let text = error.text(alloc)?;
        push_error(alloc, self.file, at, error, &text, out)
    }

    fn push_unread(
        &self,
        alloc: Global,
        at: Position,
        why: &str,
        out: &mut String,
    ) -> Result<(), AllocError> {
        let place = line_location(alloc, self.file, at)?;
        let message = message_object(alloc, why)?;
        let result = result_of(alloc, &place, "unread", &message)?;
        push_line(alloc, &result, out)
    }
}
