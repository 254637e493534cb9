//! The messages about one value.

ghost use Rattle.std.specs.Prelude.{◌≡◌, IfOk, OnOk, string_bytes};
ghost use Rattle.serde_json.specs.View.{view};
ghost use Rattle.neldrafi_schema.specs.Meaning.{HasErrors};
ghost use Rattle.neldrafi_schema.specs.machine.Found.{error_seen, errors_of};
ghost use Rattle.neldrafi_schema.specs.machine.Words.{IsCompiled, lists_in, schemas_in};
ghost use Rattle.neldrafi_check.specs.Files.{ValueTold};
ghost use Rattle.neldrafi_check.specs.Messages.{Adds, AreSaid, Says, Told};
ghost use Rattle.neldrafi_check.specs.machine.Origins.{positions_of};

use crate::counts::Counts;
use crate::forms::ErrorForm;
use crate::origin::Origin;
use neldrafi_schema::{Schema, ValidationError};
use serde_json::Value;
use std::alloc::{AllocError, Global};
use strkw_pattern::RegexEngine;

/// Appends the message about each error of a value, and answers how many errors there are. The only error is out of
/// memory; a beginning of the messages may then have been appended.
pub(crate) fn push_errors<E: RegexEngine, F: ErrorForm>(
    alloc: Global,
    schema: &Schema<'_, E>,
    origin: &mut Origin<'_>,
    value: &Value,
    form: &F,
    out: &mut String,
) -> Result<u64, AllocError>
    requires { IsCompiled E.outcome
        (lists_in admits accepts is_encoding decoding schema.now) schema.now }
    ensures { let lists = lists_in admits accepts is_encoding decoding schema.now in
        IfOk result (λ count. Adds (Told
        (HasErrors (schemas_in E.outcome schema.now) lists (view value.now))
        (F.writes form.now) (positions_of origin.old) count)
        (string_bytes out.old) (string_bytes out.new)) }
{
    // Most values have no error, and are found valid without a list.
    if schema.is_valid(alloc, value)? {
        return Ok(0);
    }
    let mut errors = Vec::new(alloc);
    schema.collect_errors(alloc, value, &mut errors)?;
    push_all(alloc, origin, &errors, form, out)?;
    Ok(errors.len() as u64)
}

/// The same, and counts the value too.
pub(crate) fn push_value<E: RegexEngine, F: ErrorForm>(
    alloc: Global,
    schema: &Schema<'_, E>,
    origin: &mut Origin<'_>,
    value: &Value,
    form: &F,
    out: &mut String,
) -> Result<Counts, AllocError>
    requires { IsCompiled E.outcome
        (lists_in admits accepts is_encoding decoding schema.now) schema.now }
    ensures { let lists = lists_in admits accepts is_encoding decoding schema.now in
        IfOk result (λ counts. Adds (ValueTold
        (HasErrors (schemas_in E.outcome schema.now) lists (view value.now))
        (F.writes form.now) (positions_of origin.old) counts)
        (string_bytes out.old) (string_bytes out.new)) }
{
    let errors = push_errors(alloc, schema, origin, value, form, out)?;
    Ok(Counts::of_value(errors))
}

// Appends the message about each of these errors.
fn push_all<F: ErrorForm>(
    alloc: Global,
    origin: &mut Origin<'_>,
    errors: &[ValidationError],
    form: &F,
    out: &mut String,
) -> Result<(), AllocError>
    ensures { OnOk result (Adds
        (AreSaid (F.writes form.now) (positions_of origin.old) (errors_of errors.now))
        (string_bytes out.old) (string_bytes out.new)) }
{
    for error in errors {
        push_one(alloc, origin, error, form, out)?;
    }
    Ok(())
}

// Appends the message about an error.
fn push_one<F: ErrorForm>(
    alloc: Global,
    origin: &mut Origin<'_>,
    error: &ValidationError,
    form: &F,
    out: &mut String,
) -> Result<(), AllocError>
    ensures same { origin.new ≡ origin.old }
    ensures said { OnOk result (Adds
        (Says (F.writes form.now) (positions_of origin.old) (error_seen error.now))
        (string_bytes out.old) (string_bytes out.new)) }
{
    let at = origin.position(alloc, error.instance_path().as_str())?;
    form.push(alloc, at, error, out)
}
