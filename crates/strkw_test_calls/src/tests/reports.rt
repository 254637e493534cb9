//! Errors, refusals and places: their texts, with each growth refused too. A refused call is asked again, once it has
//! shown that what it was lent is as it was.

use super::context::{error_at_root, json, place_below_root};
use serde_json::Value;
use std::alloc::{AllocError, Global};
use std::test::Fail;
use strkw_report::{
    CompileError, CompileErrorKind, ErrorKind, EvaluationResult, Failure, Location, Site,
    ValidationError, error_at,
};

fn to_owned(alloc: Global, text: &str) -> Result<String, AllocError> {
    String::from_str(alloc, text)
}

// What a text fails at, the text, and what is said.
struct Said {
    failure: Failure<'static>,
    text: &'static str,
    said: &'static str,
}

const ERRORS: &[Said] = &[
    Said {
        failure: Failure::MinLength(5),
        text: "abcd",
        said: "\"abcd\" is shorter than 5 characters",
    },
    Said {
        failure: Failure::MinLength(1),
        text: "",
        said: "\"\" is shorter than 1 character",
    },
    Said {
        failure: Failure::MaxLength(3),
        text: "abcd",
        said: "\"abcd\" is longer than 3 characters",
    },
    Said {
        failure: Failure::MaxLength(1),
        text: "a\"b",
        said: "\"a\\\"b\" is longer than 1 character",
    },
    Said {
        failure: Failure::MaxLength(0),
        text: "é",
        said: "\"é\" is longer than 0 characters",
    },
    Said {
        failure: Failure::MinLength(u64::MAX),
        text: "\n",
        said: "\"\\n\" is shorter than 18446744073709551615 characters",
    },
    Said {
        failure: Failure::Pattern("^foo"),
        text: "barfoo",
        said: "\"barfoo\" does not match \"^foo\"",
    },
    Said {
        failure: Failure::Pattern("^\"\\"),
        text: "x",
        said: "\"x\" does not match \"^\"\\\"",
    },
    Said {
        failure: Failure::BacktrackLimitExceeded("a+"),
        text: "x",
        said: "Error executing regex: Max limit for backtracking count exceeded",
    },
    Said {
        failure: Failure::RegexEngineFailure("a+"),
        text: "x",
        said: "Regex engine failed to evaluate pattern 'a+'",
    },
    Said {
        failure: Failure::Format("date"),
        text: "abcd",
        said: "\"abcd\" is not a \"date\"",
    },
    Said {
        failure: Failure::ContentEncoding("base64"),
        text: "{}",
        said: "\"{}\" is not compliant with \"base64\" content encoding",
    },
    Said {
        failure: Failure::ContentMediaType("application/json"),
        text: "ezp9Cg==",
        said: "\"ezp9Cg==\" is not compliant with \"application/json\" media type",
    },
    Said {
        failure: Failure::FromUtf8,
        text: "//4=",
        said: "\"//4=\" does not decode to UTF-8 text",
    },
];

// An error at the root.
fn error_of(alloc: Global, failure: Failure, text: &str) -> Result<ValidationError, AllocError> {
    error_at_root(alloc, failure.kind(alloc)?, text)
}

// Whether an error says so.
fn says(alloc: Global, error: &ValidationError, want: &str) -> Result<bool, AllocError> {
    Ok(error.text(alloc)?.as_str() == want)
}

// Whether an error of a text says so. Where it was out of memory to say it, it is as it was, and out of memory is an
// error here.
fn is_said(
    alloc: Global,
    error: &ValidationError,
    text: &str,
    want: &str,
) -> Result<bool, AllocError> {
    let said = says(alloc, error, want);
    if said.is_ok() {
        return said;
    }
    let is_as_it_was = says(alloc, error, want)?
        && error.instance.as_str() == Some(text)
        && error.schema_path.as_str() == "/k";
    if is_as_it_was {
        Err(AllocError)
    } else {
        Ok(false)
    }
}

// Whether the failure and the error of a text say so.
fn is_failed_so(alloc: Global, row: &Said) -> Result<bool, AllocError> {
    if row.failure.text(alloc, row.text)?.as_str() != row.said {
        return Ok(false);
    }
    let error = error_of(alloc, row.failure, row.text)?;
    let is_so = is_said(alloc, &error, row.text, row.said);
    drop(error);
    is_so
}

// A row whose name ends in `_under_refusal` is run with ample memory, when it has to pass, and by `tools/refusals.py`
// with each growth refused in turn: then it ends with the error of the call that was refused, once it has shown that
// what that call was lent is as it was.
#[test]
fn texts_of_errors_under_refusal(rt: HostRuntime) -> Result<(), Fail> {
    for row in ERRORS {
        if !is_failed_so(rt.alloc(), row)? {
            return Err(Fail::new(row.said));
        }
    }
    Ok(())
}

// A refusal's kind, with a borrowed name, or the JSON text of a value that is to be a string.
#[derive(Clone, Copy)]
enum Why {
    NotString(&'static str),
    Size,
    UnknownFormat(&'static str, bool),
    Regex(&'static str),
    FractionalNumber,
    Memory,
}

// A refusal at the root.
fn refusal_of(alloc: Global, why: Why) -> Result<CompileError, AllocError> {
    let kind = match why {
        Why::NotString(text) => CompileErrorKind::NotString {
            value: json(alloc, text)?,
        },
        Why::Size => CompileErrorKind::Size,
        Why::UnknownFormat(it, by_dialect) => CompileErrorKind::UnknownFormat {
            name: to_owned(alloc, it)?,
            by_dialect,
        },
        Why::Regex(it) => CompileErrorKind::Regex {
            pattern: to_owned(alloc, it)?,
        },
        Why::FractionalNumber => CompileErrorKind::FractionalNumber,
        Why::Memory => CompileErrorKind::Memory,
    };
    let location = Location::root(alloc);
    Ok(CompileError { kind, location })
}

// Why something is refused, and what is told of it.
struct Refused {
    why: Why,
    told: &'static str,
}

const REFUSALS: &[Refused] = &[
    Refused {
        why: Why::NotString("5"),
        told: "5 is not of type \"string\"",
    },
    Refused {
        why: Why::NotString("18446744073709551615"),
        told: "18446744073709551615 is not of type \"string\"",
    },
    Refused {
        why: Why::NotString("-9223372036854775808"),
        told: "-9223372036854775808 is not of type \"string\"",
    },
    Refused {
        why: Why::NotString("null"),
        told: "null is not of type \"string\"",
    },
    Refused {
        why: Why::NotString("[ true, \"é\" ]"),
        told: "[true,\"é\"] is not of type \"string\"",
    },
    Refused {
        why: Why::NotString("{ \"b\": 1, \"a\": {} }"),
        told: "{\"a\":{},\"b\":1} is not of type \"string\"",
    },
    Refused {
        why: Why::Size,
        told: "the limit is not a non-negative whole number of 64 bits",
    },
    Refused {
        why: Why::UnknownFormat("custom", false),
        told: "Unknown format: 'custom'. Adjust configuration to ignore unrecognized formats",
    },
    Refused {
        why: Why::UnknownFormat("custom", true),
        told: "Unknown format: 'custom'. The meta-schema asserts formats, so unrecognized ones cannot be ignored. Register a check for it or disable format validation",
    },
    Refused {
        why: Why::Regex("a+"),
        told: "\"a+\" is not a \"regex\"",
    },
    Refused {
        why: Why::Regex("\"\\"),
        told: "\"\\\"\\\\\" is not a \"regex\"",
    },
    Refused {
        why: Why::FractionalNumber,
        told: "the value holds a number that is no whole number of 64 bits",
    },
    Refused {
        why: Why::Memory,
        told: "out of memory",
    },
];

// Whether a refusal says so. Where it was out of memory to say it, it says so when it is asked again, and out of memory
// is an error here.
fn is_told(alloc: Global, refusal: &CompileError, want: &str) -> Result<bool, AllocError> {
    if let Ok(said) = refusal.text(alloc) {
        return Ok(said.as_str() == want);
    }
    if refusal.text(alloc)?.as_str() == want {
        Err(AllocError)
    } else {
        Ok(false)
    }
}

// Whether what is refused for this says so.
fn is_refused_so(alloc: Global, row: &Refused) -> Result<bool, AllocError> {
    let refusal = refusal_of(alloc, row.why)?;
    let is_so = is_told(alloc, &refusal, row.told);
    drop(refusal);
    is_so
}

#[test]
fn texts_of_refusals_under_refusal(rt: HostRuntime) -> Result<(), Fail> {
    for row in REFUSALS {
        if !is_refused_so(rt.alloc(), row)? {
            return Err(Fail::new(row.told));
        }
    }
    Ok(())
}

// The segments of a place, and its pointer.
struct Joined {
    segments: &'static [&'static str],
    pointer: &'static str,
}

// The first ten are those of RFC 6901, section 5.
const PLACES: &[Joined] = &[
    Joined {
        segments: &[],
        pointer: "",
    },
    Joined {
        segments: &["foo"],
        pointer: "/foo",
    },
    Joined {
        segments: &["foo", "0"],
        pointer: "/foo/0",
    },
    Joined {
        segments: &[""],
        pointer: "/",
    },
    Joined {
        segments: &["a/b"],
        pointer: "/a~1b",
    },
    Joined {
        segments: &["c%d"],
        pointer: "/c%d",
    },
    Joined {
        segments: &["i\\j"],
        pointer: "/i\\j",
    },
    Joined {
        segments: &["k\"l"],
        pointer: "/k\"l",
    },
    Joined {
        segments: &[" "],
        pointer: "/ ",
    },
    Joined {
        segments: &["m~n"],
        pointer: "/m~0n",
    },
    Joined {
        segments: &["foo", "", "bar"],
        pointer: "/foo//bar",
    },
    Joined {
        segments: &["f~o", "b/r"],
        pointer: "/f~0o/b~1r",
    },
    Joined {
        segments: &["~1"],
        pointer: "/~01",
    },
    Joined {
        segments: &["~/~/"],
        pointer: "/~0~1~0~1",
    },
    Joined {
        segments: &["é", "𝄞"],
        pointer: "/é/𝄞",
    },
    Joined {
        segments: &["é/~𝄞"],
        pointer: "/é~1~0𝄞",
    },
];

// The place of these segments. `None` where a place was changed by a join that was out of memory.
fn place_of(alloc: Global, segments: &[&str]) -> Result<Option<Location>, AllocError> {
    let mut place = Location::root(alloc);
    for segment in segments {
        match joined_to(&place, segment)? {
            Some(joined) => place = joined,
            None => return Ok(None),
        }
    }
    Ok(Some(place))
}

// The place of a segment below a place. `None` where that one was changed by a join that was out of memory.
fn joined_to(place: &Location, segment: &str) -> Result<Option<Location>, AllocError> {
    let before: Location = place.clone()?;
    let joined = place.join(segment);
    let is_changed = joined.is_err() && place.as_str() != before.as_str();
    drop(before);
    if is_changed {
        Ok(None)
    } else {
        Ok(Some(joined?))
    }
}

// Whether a copy of a place is this pointer.
fn is_copied(place: &Location, want: &str) -> Result<bool, AllocError> {
    Ok(place.clone()?.as_str() == want)
}

// Whether a place, its copy and its text are this pointer; the place is, whether or not there was memory for a copy.
fn is_pointer(alloc: Global, place: &Location, want: &str) -> Result<bool, AllocError> {
    let is_copied = is_copied(place, want);
    if place.as_str() != want {
        return Ok(false);
    }
    Ok(place.to_string(alloc)?.as_str() == want && is_copied?)
}

// Whether the place of these segments is this pointer.
fn are_joined_to(alloc: Global, segments: &[&str], want: &str) -> Result<bool, AllocError> {
    let place = place_of(alloc, segments)?;
    let is_so = match &place {
        Some(place) => is_pointer(alloc, place, want),
        None => Ok(false),
    };
    drop(place);
    is_so
}

#[test]
fn pointers_of_places_under_refusal(rt: HostRuntime) -> Result<(), Fail> {
    for row in PLACES {
        if !are_joined_to(rt.alloc(), row.segments, row.pointer)? {
            return Err(Fail::new(row.pointer));
        }
    }
    Ok(())
}

// The first item of an array, on a way of evaluation through a name with a slash.
fn site_of_an_item(alloc: Global) -> Result<Site, AllocError> {
    let evaluation = place_below_root(alloc, "a/b")?;
    let instance = place_below_root(alloc, "0")?;
    Ok(Site {
        evaluation,
        instance,
    })
}

// An error of an item of an array, with an absolute prefix.
fn error_of_an_item(alloc: Global) -> Result<ValidationError, AllocError> {
    let prefix = Some(to_owned(alloc, "https://example.com/s.json")?);
    let site = site_of_an_item(alloc)?;
    let (kind, root) = (ErrorKind::MinLength { limit: 20 }, Location::root(alloc));
    let error = error_at(
        alloc,
        kind,
        "minLength",
        "secretvalue",
        &root,
        &prefix,
        &site,
    );
    drop(root);
    drop(site);
    drop(prefix);
    error
}

// Whether each field of that error is as it is to be.
fn is_error_of_the_item(error: &ValidationError) -> bool {
    matches!(error.kind, ErrorKind::MinLength { limit: 20 })
        && error.instance.as_str() == Some("secretvalue")
        && error.schema_path.as_str() == "/minLength"
        && error.evaluation_path.as_str() == "/a~1b/minLength"
        && error.instance_path.as_str() == "/0"
        && error.absolute.as_deref() == Some("https://example.com/s.json#/minLength")
}

// A result with a note alone.
fn noted_result(alloc: Global) -> Result<EvaluationResult, AllocError> {
    Ok(EvaluationResult {
        errors: Vec::new(alloc),
        annotation: Some(Value::try_from_str(alloc, "date")?),
    })
}

fn is_noted_alone(found: &EvaluationResult) -> bool {
    found.errors.is_empty() && found.annotation.as_ref().and_then(Value::as_str) == Some("date")
}

#[test]
fn fields_of_an_error_under_refusal(rt: HostRuntime) -> Result<(), Fail> {
    let error = error_of_an_item(rt.alloc())?;
    let is_so = is_error_of_the_item(&error);
    drop(error);
    if is_so {
        Ok(())
    } else {
        Err(Fail::new("another error"))
    }
}

#[test]
fn fields_of_a_result_under_refusal(rt: HostRuntime) -> Result<(), Fail> {
    let found = noted_result(rt.alloc())?;
    let is_so = is_noted_alone(&found);
    drop(found);
    if is_so {
        Ok(())
    } else {
        Err(Fail::new("another result"))
    }
}
