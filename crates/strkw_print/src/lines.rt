//! The lines of a schema object, written where they are found: no error is built, and no note.

ghost use Rattle.std.specs.Prelude.{◌++◌, ◌≡◌, ◌≢◌, ℕ, List, OnErr, OnOk, Some, codes, false, option_map};
ghost use Rattle.serde_json.specs.View.{view};
ghost use Rattle.serde_json.specs.Written.{compact_text, has_float};
ghost use Rattle.strkw_report.specs.Failures.{kind_failed};
ghost use Rattle.strkw_report.specs.Kinds.{Report, message};
ghost use Rattle.strkw_report.specs.Paths.{path_below};
ghost use Rattle.strkw_report.specs.Refusals.{out_of_memory, prints_float, reason_of, refusal_of};
ghost use Rattle.strkw_keywords.specs.Demands.{IsInUse};
ghost use Rattle.strkw_keywords.specs.Errors.{NodeReports, reports_of};
ghost use Rattle.strkw_keywords.specs.Findings.{finding_of};
ghost use Rattle.strkw_keywords.specs.Handed.{lists_of};
ghost use Rattle.strkw_keywords.specs.Keywords.{keyword_name};
ghost use Rattle.strkw_keywords.specs.Parts.{noted_remark};
ghost use Rattle.strkw_keywords.specs.Places.{standing};
ghost use Rattle.strkw_keywords.specs.Validators.{listed_remark, place_of, remark_made};
ghost use Rattle.strkw_report.specs.Standings.{root_site};
ghost use Rattle.strkw_object.specs.Compiled.{keywords_assertions, keywords_demands, keywords_remarks};
ghost use Rattle.strkw_object.specs.Printable.{ArePrintable};
ghost use Rattle.strkw_print.specs.Printed.{error_lines, note_lines, printed_text, refused_line};

use super::text::print_behind;
use serde_json::Value;
use std::alloc::{AllocError, Global};
use strkw_keywords::{Checks, Keyword, Noted, Origin, Uses, Validate, Validator};
use strkw_object::StringKeywords;
use strkw_pattern::RegexEngine;
use strkw_report::{
    CompileError, CompileErrorKind, Failure, Location, Node, TextNode, push_json_string,
};

// ---- one line

// Appends what stands before the text of a line.
fn push_start(
    word: &str,
    location: &Location,
    keyword: Keyword,
    out: &mut Vec<u8>,
) -> Result<(), AllocError>
    ensures ok { OnOk result (out.new.items
        ≡ out.old.items ++ (word.now ++ codes " " ++ path_below location.now (keyword_name keyword)
        ++ codes ": ")) }
    ensures err { OnErr result ((more : List ℕ) × (out.new.items ≡ out.old.items ++ more)) }
{
    out.extend_from_slice(word.as_bytes())?;
    out.extend_from_slice(b" ")?;
    location.push_below(keyword.as_str(), out)?;
    out.extend_from_slice(b": ")
}

// Appends the line of the error of a text that failed so at a validator, if it failed.
fn push_found_line<E: RegexEngine>(
    alloc: Global,
    validator: &Validator<E>,
    text: &str,
    failure: &Option<Failure>,
    out: &mut Vec<u8>,
) -> Result<(), AllocError>
    ensures ok { OnOk result (out.new.items ≡ out.old.items
        ++ error_lines (reports_of (standing (place_of validator.now) root_site) text.now
        (option_map finding_of failure.now))) }
    ensures err { OnErr result ((more : List ℕ) × (out.new.items ≡ out.old.items ++ more)) }
{
    let Some(failure) = failure else {
        return Ok(());
    };
    let origin = validator.parts().origin;
    push_start("error", &origin.location, Keyword::of_failure(failure), out)?;
    let before = out.len();
    failure.push_text(text, out)?;
    print_behind(alloc, before, out)?;
    out.extend_from_slice(b"\n")
}

// Appends the line of what is noted at this place, if anything is.
fn push_note_line(
    alloc: Global,
    origin: &Origin,
    noted: Option<Noted<'_>>,
    out: &mut Vec<u8>,
) -> Result<(), AllocError>
    requires { ArePrintable (listed_remark (noted_remark origin.now.schema noted)) }
    ensures ok { OnOk result (out.new.items ≡ out.old.items
        ++ note_lines (listed_remark (noted_remark origin.now.schema noted.entry))) }
    ensures err { OnErr result ((more : List ℕ) × (out.new.items ≡ out.old.items ++ more)) }
{
    let Some(noted) = noted else {
        return Ok(());
    };
    match noted {
        Noted::Text(keyword, text) => {
            push_start("note", &origin.location, keyword, out)?;
            push_json_string(text, out)?;
            out.extend_from_slice(b"\n")
        }
        Noted::Value(keyword, value) => {
            push_start("note", &origin.location, keyword, out)?;
            push_value(alloc, value, out)?;
            out.extend_from_slice(b"\n")
        }
    }
}

// Appends a value as compact JSON text.
fn push_value(alloc: Global, value: &Value, out: &mut Vec<u8>) -> Result<(), AllocError>
    requires { has_float (view value.now) ≡ false }
    ensures ok { OnOk result (out.new.items ≡ out.old.items ++ compact_text (view value.now)) }
    ensures err { OnErr result ((more : List ℕ) × (out.new.items ≡ out.old.items ++ more)) }
{
    let text = value.to_string(alloc)?;
    out.extend_from_slice(text.as_bytes())
}

/// Appends the line of a refusal: `refused L: T`, at the location L and with the text T. Out of memory is the refusal
/// of no entry, and is passed on.
pub fn push_refusal(
    alloc: Global,
    refusal: &CompileError,
    out: &mut Vec<u8>,
) -> Result<(), AllocError>
    requires { prints_float (reason_of refusal.now.kind) ≡ false }
    ensures ok { OnOk result (out.new.items
        ≡ out.old.items ++ refused_line (refusal_of refusal.now)) }
    ensures out_of_memory { OnOk result (reason_of refusal.now.kind ≢ out_of_memory) }
    ensures err { OnErr result ((more : List ℕ) × (out.new.items ≡ out.old.items ++ more)) }
{
    if matches!(refusal.kind, CompileErrorKind::Memory) {
        return Err(AllocError);
    }
    out.extend_from_slice(b"refused ")?;
    out.extend_from_slice(refusal.location.as_str().as_bytes())?;
    out.extend_from_slice(b": ")?;
    let before = out.len();
    refusal.push_text(alloc, out)?;
    print_behind(alloc, before, out)?;
    out.extend_from_slice(b"\n")
}

// ---- all validators

/// Appends a line for each error of a text, `error L: T`, in the order of the entries, under lists of which `uses` is
/// true.
pub fn push_errors<E: RegexEngine, N: Node>(
    alloc: Global,
    keywords: &StringKeywords<E>,
    text: &TextNode<'_, N>,
    checks: &Checks,
    out: &mut Vec<u8>,
) -> Result<(), AllocError>
    requires { IsInUse (keywords_demands E.outcome keywords.now)
        (lists_of admits accepts is_encoding decoding checks.now) }
    ensures ok { OnOk result ((errors : List Report)
        × (out.new.items ≡ out.old.items ++ error_lines errors)
        × NodeReports (keywords_assertions E.outcome keywords.now)
        (lists_of admits accepts is_encoding decoding checks.now) root_site
        (Some text.now) errors) }
    ensures err { OnErr result ((more : List ℕ) × (out.new.items ≡ out.old.items ++ more)) }
{
    for validator in keywords.validators() {
        let found = validator.findings(alloc, text, checks)?;
        let text = text.as_str();
        push_found_line(alloc, validator, text, &found.first, out)?;
        push_found_line(alloc, validator, text, &found.second, out)?;
    }
    Ok(())
}

/// Appends a line for each note of texts, `note L: V`, with its value V as compact JSON, in the order of the entries.
pub fn push_notes<E: RegexEngine>(
    alloc: Global,
    keywords: &StringKeywords<E>,
    out: &mut Vec<u8>,
) -> Result<(), AllocError>
    requires { ArePrintable (keywords_remarks keywords.now) }
    ensures ok { OnOk result (out.new.items
        ≡ out.old.items ++ note_lines (keywords_remarks keywords.now)) }
    ensures err { OnErr result ((more : List ℕ) × (out.new.items ≡ out.old.items ++ more)) }
{
    for validator in keywords.validators() {
        let parts = validator.parts();
        push_note_line(alloc, parts.origin, parts.noted, out)?;
    }
    Ok(())
}
