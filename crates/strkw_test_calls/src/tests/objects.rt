//! Each call on a whole schema object that allocates, and `run`. With ample memory a row has to pass.
//! `tools/refusals.py` runs it with each growth refused in turn too: then it ends as out of memory, once it has shown
//! that what the refused call was lent is as it was.

use super::context::{
    Answer, Asked, Call, Given, Lent, are_lent, are_lines, collects, gives_the_first, is_answered,
    is_at, lent_errors, only_if, root_site,
};
use super::devices::{answers, ends, script};
use crate::ScriptedEngine;
use serde_json::{Map, Value};
use std::alloc::{AllocError, Global};
use std::test::Fail;
use strkw_cli::{BoundedRunFault, MemorySink, MemorySource, RunFault, Sink, run, run_bounded};
use strkw_keywords::Checks;
use strkw_object::{Note, ObjectEvaluation, StringKeywords, compile_strings};
use strkw_print::push_errors;
use strkw_report::{CompileError, Draft, Site, TextNode};

type Keywords = StringKeywords<ScriptedEngine<'static>>;

// What is asked of what a schema object is compiled to.
#[derive(Clone, Copy)]
enum Question {
    // Where it is refused with ample memory.
    Place(Option<&'static str>),
    // Whether a text is valid, tested with no memory.
    Quietly(&'static str, bool),
    // What a call answers.
    Call(Call, &'static Told),
    // What the errors of a text are printed as.
    Printed(&'static str, &'static str),
}

#[derive(Clone, Copy)]
struct Asking {
    draft: Draft,
    schema: &'static str,
    question: Question,
}

impl Asked for Asking {
    fn subject(&self) -> Given {
        Given {
            draft: self.draft,
            schema: self.schema,
        }
    }

    fn is_answered(&self, alloc: Global, ctx: &Lent<'_>, schema: &Map<String, Value>) -> Answer {
        let made = compile_strings(alloc, ctx, schema);
        is_told_so(alloc, self.question, made, &ctx.checks)
    }
}

// Whether what was compiled answers a question as it is to.
fn is_told_so(
    alloc: Global,
    question: Question,
    made: Result<Keywords, CompileError>,
    checks: &Checks,
) -> Result<bool, AllocError> {
    let is_so = match &made {
        Ok(keywords) => is_answered_so(alloc, question, keywords, checks),
        Err(refusal) => match question {
            Question::Place(place) => is_at(refusal, place),
            Question::Quietly(..) | Question::Call(..) | Question::Printed(..) => {
                is_at(refusal, None)
            }
        },
    };
    drop(made);
    is_so
}

// The same of keywords.
fn is_answered_so(
    alloc: Global,
    question: Question,
    keywords: &Keywords,
    checks: &Checks,
) -> Result<bool, AllocError> {
    match question {
        Question::Place(place) => Ok(place.is_none()),
        Question::Quietly(text, valid) => {
            answers_quietly(alloc, keywords, checks, (text, valid))
        }
        Question::Call(call, row) => is_call_answered(alloc, call, keywords, checks, row),
        Question::Printed(text, lines) => prints_so(alloc, keywords, checks, (&text, lines)),
    }
}

// Schema objects, and where each is refused with ample memory.
const PLACES: &[(&str, Option<&str>)] = &[
    (
        r#"{"minLength":1,"maxLength":2,"format":"date","pattern":"^(a|b)$"}"#,
        None,
    ),
    (
        r#"{"contentMediaType":"application/json","contentEncoding":"base64"}"#,
        None,
    ),
    (r#"{"contentEncoding":["a"]}"#, Some("/a/contentEncoding")),
    (r#"{"format":["a"]}"#, Some("/a/format")),
    (r#"{"format":1.5}"#, Some("/a/format")),
    (r#"{"format":"custom"}"#, Some("/a/format")),
    (r#"{"minLength":1,"maxLength":-1}"#, Some("/a/maxLength")),
    (r#"{"pattern":5}"#, Some("/a/pattern")),
    (r#"{"pattern":"b+"}"#, Some("/a/pattern")),
];

#[test]
fn compile_strings_under_refusal(rt: HostRuntime) -> Result<(), Fail> {
    for &(schema, place) in PLACES {
        let asking = Asking {
            draft: Draft::Draft7,
            schema,
            question: Question::Place(place),
        };
        if !is_answered(rt.alloc(), &asking)? {
            return Err(Fail::new(schema));
        }
    }
    Ok(())
}

// Whether a text is tested with no memory, and found valid or not.
fn answers_quietly(
    alloc: Global,
    keywords: &Keywords,
    checks: &Checks,
    (text, valid): (&str, bool),
) -> Result<bool, AllocError> {
    let node = Value::try_from_str(alloc, text)?;
    let is_so = finds_quietly(alloc, keywords, checks, &node, valid);
    drop(node);
    Ok(is_so)
}

fn finds_quietly(
    alloc: Global,
    keywords: &Keywords,
    checks: &Checks,
    node: &Value,
    valid: bool,
) -> bool {
    keywords.uses(checks)
        && keywords.takes_no_memory()
        && keywords.is_valid(alloc, node, checks) == Ok(valid)
}

// Testing a text by these takes no memory: wherever the compilation had enough, there is an answer.
const QUIET: &str = r#"{"format":"uri","minLength":1,"pattern":"^a"}"#;

#[test]
fn is_valid_without_memory_under_refusal(rt: HostRuntime) -> Result<(), Fail> {
    for (text, valid) in [("a:", true), ("b:", false), ("", false)] {
        let asking = Asking {
            draft: Draft::Draft7,
            schema: QUIET,
            question: Question::Quietly(text, valid),
        };
        if !is_answered(rt.alloc(), &asking)? {
            return Err(Fail::new(text));
        }
    }
    Ok(())
}

const JSON_IN_BASE64: &str =
    r#"{"contentMediaType":"application/json","contentEncoding":"base64","minLength":2}"#;

const FOUR_ERRORS: &str = r#"{"minLength":5,"maxLength":3,"format":"date","pattern":"^x"}"#;

const FOUR_NOTES: &str =
    r#"{"minLength":5,"contentMediaType":"a","contentEncoding":"b","contentSchema":[1],"format":"c"}"#;

// A schema object, a text, and the lines of its errors and of its notes.
struct Told {
    draft: Draft,
    schema: &'static str,
    text: &'static str,
    errors: &'static str,
    notes: &'static str,
}

const OBJECTS: &[Told] = &[
    Told {
        draft: Draft::Draft7,
        schema: JSON_IN_BASE64,
        text: "e30=",
        errors: "",
        notes: "",
    },
    Told {
        draft: Draft::Draft7,
        schema: JSON_IN_BASE64,
        text: "ezp9Cg==",
        errors: "/a/contentMediaType: \"ezp9Cg==\" is not compliant with \"application/json\" media type\n",
        notes: "",
    },
    Told {
        draft: Draft::Draft7,
        schema: JSON_IN_BASE64,
        text: "//4=",
        errors: "/a/contentEncoding: \"//4=\" does not decode to UTF-8 text\n",
        notes: "",
    },
    Told {
        draft: Draft::Draft7,
        schema: JSON_IN_BASE64,
        text: "x",
        errors: "/a/contentEncoding: \"x\" is not compliant with \"base64\" content encoding\n/a/minLength: \"x\" is shorter than 2 characters\n",
        notes: "",
    },
    Told {
        draft: Draft::Draft7,
        schema: FOUR_ERRORS,
        text: "abcd",
        errors: "/a/format: \"abcd\" is not a \"date\"\n/a/minLength: \"abcd\" is shorter than 5 characters\n/a/maxLength: \"abcd\" is longer than 3 characters\n/a/pattern: \"abcd\" does not match \"^x\"\n",
        notes: "/a/format: \"date\"\n",
    },
    Told {
        draft: Draft::Draft7,
        schema: r#"{"format":"even"}"#,
        text: "abc",
        errors: "/a/format: \"abc\" is not a \"even\"\n",
        notes: "/a/format: \"even\"\n",
    },
    Told {
        draft: Draft::Draft201909,
        schema: FOUR_NOTES,
        text: "abcd",
        errors: "/a/minLength: \"abcd\" is shorter than 5 characters\n",
        notes: "/a/contentMediaType: \"a\"\n/a/contentEncoding: \"b\"\n/a/contentSchema: [1]\n/a/format: \"c\"\n",
    },
];

/// Whether these are the lines of the notes.
pub(super) fn are_notes(alloc: Global, notes: &[Note], wanted: &str) -> Answer {
    Ok(note_lines(alloc, notes)?.as_str() == wanted)
}

// The place and the value of each note.
fn note_lines(alloc: Global, notes: &[Note]) -> Result<String, AllocError> {
    let mut lines = String::new(alloc);
    for note in notes {
        push_note(alloc, note, &mut lines)?;
    }
    Ok(lines)
}

fn push_note(alloc: Global, note: &Note, lines: &mut String) -> Result<(), AllocError> {
    lines.push_str(note.schema_path.as_str())?;
    lines.push_str(": ")?;
    lines.push_str(&note.value.to_string(alloc)?)?;
    lines.push_str("\n")
}

// Whether a call answers as it is to; out of memory, by its own name, is an error here.
fn answers_so(
    alloc: Global,
    call: Call,
    keywords: &Keywords,
    checks: &Checks,
    (node, site): (&Value, &Site),
    row: &Told,
) -> Result<bool, AllocError> {
    if !keywords.uses(checks) {
        return Ok(false);
    }
    match call {
        Call::IsValid => Ok(keywords.is_valid(alloc, node, checks)? == row.errors.is_empty()),
        Call::Validate => {
            gives_the_first(
                alloc,
                keywords.validate(alloc, node, site, checks),
                row.errors,
            )
        }
        Call::CollectErrors => {
            let mut errors = lent_errors(alloc)?;
            let collected = keywords.collect_errors(alloc, node, site, checks, &mut errors);
            let is_so = collects(alloc, collected, &errors, row.errors);
            drop(errors);
            is_so
        }
        Call::Evaluate => {
            let found = keywords.evaluate(alloc, node, site, checks)?;
            let is_so = is_told(alloc, &found, row);
            drop(found);
            is_so
        }
    }
}

// Whether an evaluation tells of the errors and of the notes that it is to.
fn is_told(alloc: Global, found: &ObjectEvaluation, row: &Told) -> Answer {
    Ok(are_lines(alloc, &found.errors, row.errors)? && are_notes(alloc, &found.notes, row.notes)?)
}

// Whether a call answers of a text as it is to. The text and the place are as they were, whatever it answered.
fn is_call_answered(
    alloc: Global,
    call: Call,
    keywords: &Keywords,
    checks: &Checks,
    row: &Told,
) -> Result<bool, AllocError> {
    let (node, site) = (Value::try_from_str(alloc, row.text)?, root_site(alloc));
    let answer = answers_so(alloc, call, keywords, checks, (&node, &site), row);
    let is_as_lent = are_lent(&node, row.text, &site);
    drop((node, site));
    only_if(is_as_lent, answer)
}

fn asked_of_objects(alloc: Global, call: Call) -> Result<(), Fail> {
    for row in OBJECTS {
        let asking = Asking {
            draft: row.draft,
            schema: row.schema,
            question: Question::Call(call, row),
        };
        if !is_answered(alloc, &asking)? {
            return Err(Fail::new(row.schema));
        }
    }
    Ok(())
}

#[test]
fn is_valid_of_objects_under_refusal(rt: HostRuntime) -> Result<(), Fail> {
    asked_of_objects(rt.alloc(), Call::IsValid)
}

#[test]
fn validate_of_objects_under_refusal(rt: HostRuntime) -> Result<(), Fail> {
    asked_of_objects(rt.alloc(), Call::Validate)
}

#[test]
fn collect_errors_of_objects_under_refusal(rt: HostRuntime) -> Result<(), Fail> {
    asked_of_objects(rt.alloc(), Call::CollectErrors)
}

#[test]
fn evaluate_of_objects_under_refusal(rt: HostRuntime) -> Result<(), Fail> {
    asked_of_objects(rt.alloc(), Call::Evaluate)
}

// Whether the errors of a text are printed as these lines.
fn prints_so(
    alloc: Global,
    keywords: &Keywords,
    checks: &Checks,
    (text, wanted): (&&str, &str),
) -> Answer {
    if !keywords.uses(checks) {
        return Ok(false);
    }
    let Some(text) = TextNode::of(text) else {
        return Ok(false);
    };
    let mut lines = Vec::new(alloc);
    push_errors(alloc, keywords, &text, checks, &mut lines)?;
    Ok(lines.as_slice() == wanted.as_bytes())
}

// Schema objects, each at `/a` of a schema, a text, and the lines of its errors, which have the places of the schema.
const PRINTED: &[(&str, &str, &str)] = &[
    (
        FOUR_ERRORS,
        "abcd",
        "error /a/format: \"abcd\" is not a \"date\"\n\
            error /a/minLength: \"abcd\" is shorter than 5 characters\n\
            error /a/maxLength: \"abcd\" is longer than 3 characters\n\
            error /a/pattern: \"abcd\" does not match \"^x\"\n",
    ),
    (
        JSON_IN_BASE64,
        "//4=",
        "error /a/contentEncoding: \"//4=\" does not decode to UTF-8 text\n",
    ),
];

#[test]
fn push_errors_of_objects_under_refusal(rt: HostRuntime) -> Result<(), Fail> {
    for &(schema, text, lines) in PRINTED {
        let asking = Asking {
            draft: Draft::Draft7,
            schema,
            question: Question::Printed(text, lines),
        };
        if !is_answered(rt.alloc(), &asking)? {
            return Err(Fail::new(text));
        }
    }
    Ok(())
}

// Whether a run ended as it is to: what was written is a beginning of the answers, all of them where it ended well, and
// whole ones where it was out of memory for the next. The fault is one of writing only where the sink itself was
// refused its growth. Out of memory is an error here.
fn wrote_so(ended: Result<(), RunFault>, sink: &MemorySink) -> Result<bool, AllocError> {
    let bytes = sink.bytes();
    let is_as_faulted = match ended {
        Ok(()) => return Ok(bytes == answers()),
        // The last request has no line feed: it is not answered before a fault.
        Err(RunFault::Memory) => {
            !sink.has_failed() && ends()[..5].iter().any(|end| *end == bytes.len())
        }
        Err(RunFault::Write) => sink.has_failed(),
        Err(_) => false,
    };
    if is_as_faulted && answers().starts_with(bytes) {
        Err(AllocError)
    } else {
        Ok(false)
    }
}

#[test]
fn run_under_refusal(rt: HostRuntime) -> Result<(), Fail> {
    let mut source = MemorySource::new(script().to_vec(rt.alloc())?);
    let mut sink = MemorySink::new(rt.alloc());
    let ended = run(rt.alloc(), &mut source, &mut sink);
    if wrote_so(ended, &sink)? {
        Ok(())
    } else {
        Err(Fail::new("another ending"))
    }
}

#[test]
fn run_bounded_under_refusal(rt: HostRuntime) -> Result<(), Fail> {
    let mut source = MemorySource::new(script().to_vec(rt.alloc())?);
    let mut sink = MemorySink::new(rt.alloc());
    let ended = match run_bounded(rt.alloc(), 68, &mut source, &mut sink) {
        Ok(()) => Ok(()),
        Err(BoundedRunFault::Run(fault)) => Err(fault),
        Err(BoundedRunFault::LongLine(_)) => return Err(Fail::new("no line is longer")),
    };
    if wrote_so(ended, &sink)? {
        Ok(())
    } else {
        Err(Fail::new("another ending"))
    }
}
