//! What each grammar and each encoding says of a text.

use crate::ecma::repeat_parts;
use crate::row::{elements, items, text};
use crate::tally::Tally;
use crate::{coding, ecma, label, report};
use serde_json::Value;
use std::alloc::{AllocError, Global};
use strkw_ecma::is_valid_regex;
use strkw_label::{is_valid_hostname, is_valid_idn_hostname, is_valid_u_label};
use strkw_mail::{is_valid_email, is_valid_idn_email};
use strkw_net::{is_valid_hostname_rfc1034, is_valid_ipv4, is_valid_ipv6, is_valid_uuid};
use strkw_pattern::{BuildRefusal, EngineBuilder, NoPatterns, contains_ecma_whitespace};
use strkw_time::{is_valid_date, is_valid_datetime, is_valid_duration, is_valid_time};
use strkw_uri::{
    is_valid_iri, is_valid_iri_reference, is_valid_json_pointer, is_valid_relative_json_pointer,
    is_valid_uri, is_valid_uri_reference, is_valid_uri_template,
};

fn is_built_without_engine(alloc: Global, pattern: &str) -> bool {
    !matches!(NoPatterns.build(alloc, pattern), Err(BuildRefusal::Pattern))
}

// By the grammars of formats, and by two predicates on patterns.
fn by_grammar(alloc: Global, of: &str, text: &str) -> Option<bool> {
    let says = match of {
        "date" => is_valid_date(text),
        "time" => is_valid_time(text),
        "date-time" => is_valid_datetime(text),
        "duration" => is_valid_duration(text),
        "ipv4" => is_valid_ipv4(text),
        "ipv6" => is_valid_ipv6(text),
        "hostname of RFC 1034" => is_valid_hostname_rfc1034(text),
        "uuid" => is_valid_uuid(text),
        "email" => is_valid_email(text),
        "hostname" => is_valid_hostname(text),
        "uri" => is_valid_uri(text),
        "uri-reference" => is_valid_uri_reference(text),
        "iri" => is_valid_iri(text),
        "iri-reference" => is_valid_iri_reference(text),
        "uri-template" => is_valid_uri_template(text),
        "json-pointer" => is_valid_json_pointer(text),
        "relative-json-pointer" => is_valid_relative_json_pointer(text),
        "texts with white space" => contains_ecma_whitespace(text),
        "patterns without an engine" => is_built_without_engine(alloc, text),
        _ => return None,
    };
    Some(says)
}

/// Whether a text is one of these; `None` where the name is unknown, or two calls disagree.
pub fn accepts(alloc: Global, of: &str, text: &str) -> Result<Option<bool>, AllocError> {
    match of {
        "label" => label::admits(alloc, text).map(Some),
        "idn-hostname" => is_valid_idn_hostname(alloc, text).map(Some),
        "u-label" => is_valid_u_label(alloc, text).map(Some),
        "idn-email" => is_valid_idn_email(alloc, text).map(Some),
        "json" => coding::is_media(alloc, text),
        "one character" | "33 characters" => Ok(report::has_characters(of, text)),
        "texts that stand in errors" => report::stands_in_errors(alloc, text).map(Some),
        "texts that stand in places" => report::stands_in_places(alloc, text).map(Some),
        "patterns of ECMA-262" => Ok(ecma::is_taken(alloc, text)),
        "patterns of the whole of ECMA-262" => is_valid_regex(alloc, text).map(Some),
        "base64" | "base64url" | "base32" | "base32hex" | "base16" => {
            coding::is_encoded(alloc, of, text)
        }
        _ => Ok(by_grammar(alloc, of, text)),
    }
}

/// Asks whether a text is one of these, and counts the answer.
pub fn ask_one(
    alloc: Global,
    of: &str,
    text: &str,
    expected: bool,
    tally: &mut Tally,
) -> Result<(), AllocError> {
    let answer = match accepts(alloc, of, text)? {
        Some(true) => "yes",
        Some(false) => "no",
        None => "no answer",
    };
    let wanted = if expected { "yes" } else { "no" };
    tally.count(answer == wanted, text, answer)
}

/// The same of a text that is made for it.
pub fn ask_made(
    alloc: Global,
    of: &str,
    text: Result<String, AllocError>,
    expected: bool,
    tally: &mut Tally,
) -> Result<(), AllocError> {
    ask_one(alloc, of, &text?, expected, tally)
}

/// The texts of a row.
pub fn ask(alloc: Global, row: &Value, tally: &mut Tally) -> Result<(), AllocError> {
    let of = text(row, "of");
    for item in items(row, "yes") {
        ask_one(alloc, of, item.as_str().unwrap_or(""), true, tally)?;
    }
    for item in items(row, "no") {
        ask_one(alloc, of, item.as_str().unwrap_or(""), false, tally)?;
    }
    Ok(())
}

/// The texts of a row that are said by their parts.
pub fn ask_long(alloc: Global, row: &Value, tally: &mut Tally) -> Result<(), AllocError> {
    let of = text(row, "of");
    for item in items(row, "yes") {
        ask_made(alloc, of, repeat_parts(alloc, elements(item)), true, tally)?;
    }
    for item in items(row, "no") {
        ask_made(alloc, of, repeat_parts(alloc, elements(item)), false, tally)?;
    }
    Ok(())
}
