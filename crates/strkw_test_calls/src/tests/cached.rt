//! The schema object of a request: its lines, and when it is cached. With ample memory a row has to pass.
//! `tools/refusals.py` runs it with each growth refused in turn too: then it ends as out of memory.

ghost use Rattle.strkw_cache.specs.Told.{CanAnswer};

use json::{Reader, Scratch};
use std::alloc::{AllocError, Global};
use std::test::Fail;
use strkw_cache::{
    Asked, Cache, CachedObject, Compiled, Occurrence, Terms, compile, push_told, read_asked,
    read_values,
};
use strkw_json::JsonError;
use strkw_keywords::Checks;
use strkw_object::OwnedValues;
use strkw_print::{push_errors, push_notes, push_refusal};
use strkw_report::{Draft, TextNode};

const TERMS: Terms = Terms {
    draft: Draft::Draft7,
    validate_formats: None,
    ignore_unknown_formats: true,
};

const OTHER_TERMS: Terms = Terms {
    draft: Draft::Draft6,
    validate_formats: None,
    ignore_unknown_formats: true,
};

// A schema object, the lines of a text by it, and what is told of every text.
struct Row {
    schema: &'static str,
    lines: &'static str,
    told: &'static str,
}

const TEXT: &str = "a\nb";

const ROWS: &[Row] = &[
    Row {
        schema: r#"{"format":"ipv4","maxLength":1,"minLength":1}"#,
        lines: "error /format: \"a\\nb\" is not a \"ipv4\"\n\
            error /maxLength: \"a\\nb\" is longer than 1 character\n\
            note /format: \"ipv4\"\n",
        told: "note /format: \"ipv4\"\nend\n",
    },
    Row {
        schema: r#"{"minLength":1}"#,
        lines: "",
        told: "end\n",
    },
    Row {
        schema: r#"{"minLength":-1}"#,
        lines: "refused /minLength: the limit is not a non-negative whole number of 64 bits\n",
        told: "refused /minLength: the limit is not a non-negative whole number of 64 bits\nend\n",
    },
];

// Reads the values of a schema object, or none where a text is no object.
fn read_schema(alloc: Global, schema: &str, values: &mut OwnedValues) -> Result<(), AllocError> {
    let mut scratch = Scratch::new(alloc);
    let mut tokens = Reader::new(schema, &mut scratch)?;
    match read_values(alloc, &mut tokens, values) {
        Ok(_) | Err(JsonError::NotJson) => Ok(()),
        Err(JsonError::Memory) => Err(AllocError),
    }
}

// Appends the lines of the text by what a schema object is compiled to, or those of its refusal.
fn push_lines(alloc: Global, compiled: &Compiled, lines: &mut Vec<u8>) -> Result<(), AllocError>
    requires { CanAnswer compiled.now }
{
    let Some(text) = TextNode::of(&TEXT) else {
        return Ok(());
    };
    match compiled {
        Ok(keywords) => {
            push_errors(alloc, keywords, &text, &Checks::none(), lines)?;
            push_notes(alloc, keywords, lines)
        }
        Err(refusal) => push_refusal(alloc, refusal, lines),
    }
}

// Whether what a schema object is compiled to has the lines of its row and tells what it is to.
fn is_told_so(alloc: Global, row: &Row, compiled: &Compiled) -> Result<bool, AllocError>
    requires { CanAnswer compiled.now }
{
    let (mut lines, mut told) = (Vec::new(alloc), Vec::new(alloc));
    push_lines(alloc, compiled, &mut lines)?;
    push_told(alloc, compiled, None, &mut told)?;
    Ok(lines.as_slice() == row.lines.as_bytes() && told.as_slice() == row.told.as_bytes())
}

// The same of a row, whose values are read into these.
fn is_read_so(alloc: Global, row: &Row, values: &mut OwnedValues) -> Result<bool, AllocError> {
    read_schema(alloc, row.schema, values)?;
    let compiled = compile(alloc, TERMS, values);
    let is_so = is_told_so(alloc, row, &compiled);
    drop(compiled);
    is_so
}

// Whether a row has the lines and tells what it is to.
fn is_printed_so(alloc: Global, row: &Row) -> Result<bool, AllocError> {
    let mut values = OwnedValues::none();
    let is_so = is_read_so(alloc, row, &mut values);
    drop(values);
    is_so
}

#[test]
fn lines_under_refusal(rt: HostRuntime) -> Result<(), Fail> {
    for row in ROWS {
        if !is_printed_so(rt.alloc(), row)? {
            return Err(Fail::new(row.schema));
        }
    }
    Ok(())
}

// A line, and the place of its object.
const LINE: &str = r#"{"schema":{"maxLength":1}}"#;

const START: usize = 10;

const END: usize = 25;

// As many lines as it takes until an object is cached, at most so many.
fn lines_before(alloc: Global, cache: &mut Cache, most: usize) -> Result<usize, AllocError> {
    let (mut scratch, mut values) = (Scratch::new(alloc), OwnedValues::none());
    let lines = lines_seen(alloc, cache, &mut scratch, &mut values, most);
    drop(values);
    drop(scratch);
    lines
}

// The same, with what is reused from line to line.
fn lines_seen(
    alloc: Global,
    cache: &mut Cache,
    scratch: &mut Scratch,
    values: &mut OwnedValues,
    most: usize,
) -> Result<usize, AllocError> {
    let seen = Occurrence {
        terms: TERMS,
        start: START,
        end: END,
    };
    for lines in 0..most {
        if cache.object.is_some() {
            return Ok(lines);
        }
        cache.see(alloc, scratch, values, LINE.as_bytes(), Some(seen))?;
    }
    Ok(most)
}

// Whether the object stands in the line at its place alone, and is compiled under its terms alone.
fn is_that_of_the_line(object: &CachedObject) -> bool {
    let line = LINE.as_bytes();
    object.stands_at(line, START)
        && !object.stands_at(line, START + 1)
        && object.is_compiled_under(TERMS)
        && !object.is_compiled_under(OTHER_TERMS)
}

// A cache with no object takes that of the line behind 16 lines, and behind 32 more once it has forgotten it.
fn caches_the_object(alloc: Global, cache: &mut Cache) -> Result<(), Fail> {
    if lines_before(alloc, cache, 100)? != 16 {
        return Err(Fail::new("16 lines"));
    }
    match &cache.object {
        Some(object) if is_that_of_the_line(object) => {}
        _ => return Err(Fail::new("the object")),
    }
    cache.forget();
    if lines_before(alloc, cache, 100)? != 32 {
        return Err(Fail::new("32 lines after the first"));
    }
    Ok(())
}

// A cache of shorter objects never takes it.
fn passes_over_the_object(alloc: Global) -> Result<(), Fail> {
    let mut short = Cache::new(alloc, END - START - 1);
    let lines = lines_before(alloc, &mut short, 100);
    drop(short);
    if lines? == 100 {
        Ok(())
    } else {
        Err(Fail::new("too long an object"))
    }
}

#[test]
fn cached_object_under_refusal(rt: HostRuntime) -> Result<(), Fail> {
    let alloc = rt.alloc();
    let mut cache = Cache::new(alloc, END - START);
    let cached = caches_the_object(alloc, &mut cache);
    drop(cache);
    cached?;
    passes_over_the_object(alloc)
}

// A line, and what it asks where its ends tell it: the text, and the place of the object and the one behind it.
struct AskingRow {
    line: &'static str,
    asked: Option<(&'static str, usize, usize)>,
}

const ASKING: &[AskingRow] = &[
    AskingRow {
        line: r#"{"draft":7,"schema":{"maxLength":1},"instance":"xy"}"#,
        asked: Some(("xy", 20, 35)),
    },
    AskingRow {
        line: r#"{"draft":7,"schema":{"maxLength":1},"instance":"xy","fold":true}"#,
        asked: None,
    },
    AskingRow {
        line: r#"{"draft":7,"schema":["maxLength"],"instance":"xy"}"#,
        asked: None,
    },
];

// Whether this was found that a row tells, under its terms.
fn is_found(row: &AskingRow, found: Option<Asked<'_>>) -> bool {
    let Some(asked) = found else {
        return row.asked.is_none();
    };
    let Occurrence { terms, start, end } = asked.occurrence;
    terms == TERMS && row.asked == Some((asked.text, start, end))
}

#[test]
fn asked_under_refusal(rt: HostRuntime) -> Result<(), Fail> {
    let alloc = rt.alloc();
    let mut scratch = Scratch::new(alloc);
    let mut values = OwnedValues::none();
    for row in ASKING {
        let found = read_asked(alloc, &mut scratch, None, &mut values, row.line)?;
        if !is_found(row, found) {
            return Err(Fail::new(row.line));
        }
    }
    drop(values);
    Ok(())
}
