//! The calls to which an object or its values are given up. With ample memory a row has to pass. `tools/refusals.py`
//! runs it with each growth refused in turn too: then it ends as out of memory, once it has shown that the context is
//! as it was, and that an object has lost its value at `contentSchema` alone.

use super::context::{
    Answer, Asked, Given, Lent, is_answered, is_at, is_json, json, only_if, root_site,
};
use super::objects::are_notes;
use crate::ScriptedEngine;
use serde_json::{Map, Value};
use std::alloc::{AllocError, Global};
use std::test::Fail;
use strkw_keywords::{Checks, Context, Keyword, Options, Uses, take_content_schema};
use strkw_object::{Note, OwnedValues, StringKeywords, compile_owned, compile_values};
use strkw_pattern::NoPatterns;
use strkw_report::{CompileError, Draft};

type Keywords = StringKeywords<ScriptedEngine<'static>>;

// The schema object of a row, to be given up. `is_answered` has already refused a text that is none.
fn object(alloc: Global, text: &str) -> Result<Map<String, Value>, AllocError> {
    match json(alloc, text)? {
        Value::Object(object) => Ok(object),
        _ => Ok(Map::new(alloc)),
    }
}

// A schema object, the lines of its notes, and where it is refused with ample memory.
struct Noted {
    schema: &'static str,
    lines: &'static str,
    place: Option<&'static str>,
}

const OBJECTS: &[Noted] = &[
    Noted {
        schema: r#"{"contentMediaType":"m","contentSchema":{"b":[1]}}"#,
        lines: "/a/contentMediaType: \"m\"\n/a/contentSchema: {\"b\":[1]}\n",
        place: None,
    },
    Noted {
        schema: r#"{"contentSchema":[1]}"#,
        lines: "",
        place: None,
    },
    Noted {
        schema: r#"{"contentMediaType":"m","contentSchema":1.5}"#,
        lines: "",
        place: Some("/a/contentSchema"),
    },
    Noted {
        schema: r#"{"contentMediaType":"m","contentSchema":[1],"minLength":-1}"#,
        lines: "",
        place: Some("/a/minLength"),
    },
];

impl Asked for Noted {
    fn subject(&self) -> Given {
        Given {
            draft: Draft::Draft202012,
            schema: self.schema,
        }
    }

    fn is_answered(&self, alloc: Global, ctx: &Lent<'_>, _schema: &Map<String, Value>) -> Answer {
        let given = object(alloc, self.schema)?;
        is_compiled_so(alloc, self, compile_owned(alloc, ctx, given), &ctx.checks)
    }
}

// Whether an object was compiled to what notes its lines, or refused at its place.
fn is_compiled_so(
    alloc: Global,
    row: &Noted,
    made: Result<Keywords, CompileError>,
    checks: &Checks,
) -> Result<bool, AllocError> {
    let is_so = match &made {
        Ok(keywords) if row.place.is_none() => notes(alloc, keywords, checks, row.lines),
        Ok(_) => Ok(false),
        Err(refusal) => is_at(refusal, row.place),
    };
    drop(made);
    is_so
}

// Whether these lines are noted of a text, one by each validator.
fn notes(
    alloc: Global,
    keywords: &Keywords,
    checks: &Checks,
    lines: &str,
) -> Result<bool, AllocError> {
    if !keywords.uses(checks) {
        return Ok(false);
    }
    let site = root_site(alloc);
    let found = keywords.evaluate(alloc, &"x", &site, checks);
    drop(site);
    let are_noted = match &found {
        Ok(found) => are_one_each(alloc, keywords, &found.notes, lines),
        Err(AllocError) => Err(AllocError),
    };
    drop(found);
    are_noted
}

// Whether the lines of the notes are these, and there is a note for each validator.
fn are_one_each(alloc: Global, keywords: &Keywords, notes: &[Note], lines: &str) -> Answer {
    only_if(
        keywords.validators().len() == notes.len(),
        are_notes(alloc, notes, lines),
    )
}

#[test]
fn compile_owned_under_refusal(rt: HostRuntime) -> Result<(), Fail> {
    for row in OBJECTS {
        if !is_answered(rt.alloc(), row)? {
            return Err(Fail::new(row.schema));
        }
    }
    Ok(())
}

// A row, of whose object the values are given up.
#[derive(Drop)]
struct ByValues<'a> {
    row: &'a Noted,
}

impl Asked for ByValues<'_> {
    fn subject(&self) -> Given {
        self.row.subject()
    }

    fn is_answered(&self, alloc: Global, ctx: &Lent<'_>, _schema: &Map<String, Value>) -> Answer {
        let mut given = values(alloc, self.row.schema)?;
        let made = compile_values(alloc, ctx, &mut given);
        let is_taken = given.as_values().content_schema.is_none();
        only_if(is_taken, is_compiled_so(alloc, self.row, made, &ctx.checks))
    }
}

// The values of the schema object of a row.
fn values(alloc: Global, text: &str) -> Result<OwnedValues, AllocError> {
    let mut given = object(alloc, text)?;
    let mut values = OwnedValues::none();
    for keyword in Keyword::VARIANTS {
        let name = keyword.as_str();
        if let (Some(keyword), Some(value)) = (Keyword::by_name(name), given.remove(name)) {
            values.set(keyword, value);
        }
    }
    Ok(values)
}

#[test]
fn compile_values_under_refusal(rt: HostRuntime) -> Result<(), Fail> {
    for row in OBJECTS {
        if !is_answered(rt.alloc(), &ByValues { row })? {
            return Err(Fail::new(row.schema));
        }
    }
    Ok(())
}

// A draft and a schema object, what is left of it, the value that is noted, and where it is refused with ample memory.
struct TakenFrom {
    draft: Draft,
    schema: &'static str,
    left: &'static str,
    value: Option<&'static str>,
    place: Option<&'static str>,
}

const SCHEMAS: &[TakenFrom] = &[
    TakenFrom {
        draft: Draft::Draft202012,
        schema: r#"{"contentMediaType":"m","contentSchema":{"b":[1]}}"#,
        left: r#"{"contentMediaType":"m"}"#,
        value: Some("{\"b\":[1]}"),
        place: None,
    },
    TakenFrom {
        draft: Draft::Draft202012,
        schema: r#"{"contentSchema":[1]}"#,
        left: "{}",
        value: None,
        place: None,
    },
    TakenFrom {
        draft: Draft::Draft202012,
        schema: r#"{"contentMediaType":"m"}"#,
        left: r#"{"contentMediaType":"m"}"#,
        value: None,
        place: None,
    },
    TakenFrom {
        draft: Draft::Draft202012,
        schema: r#"{"contentMediaType":"m","contentSchema":1.5}"#,
        left: r#"{"contentMediaType":"m"}"#,
        value: None,
        place: Some("/a/contentSchema"),
    },
    // A draft without the keyword notes nothing, and refuses nothing.
    TakenFrom {
        draft: Draft::Draft7,
        schema: r#"{"contentMediaType":"m","contentSchema":1.5}"#,
        left: r#"{"contentMediaType":"m"}"#,
        value: None,
        place: None,
    },
    TakenFrom {
        draft: Draft::Draft4,
        schema: r#"{"contentMediaType":"m","contentSchema":{"b":[1]}}"#,
        left: r#"{"contentMediaType":"m"}"#,
        value: None,
        place: None,
    },
];

impl Asked for TakenFrom {
    fn subject(&self) -> Given {
        Given {
            draft: self.draft,
            schema: self.schema,
        }
    }

    // Whether a call takes the value at `contentSchema` of an object so, and leaves the rest of it.
    fn is_answered(&self, alloc: Global, ctx: &Lent<'_>, _schema: &Map<String, Value>) -> Answer {
        let mut given = object(alloc, self.schema)?;
        let taken = take_content_schema(alloc, ctx, &mut given);
        let is_taken = is_taken_so(alloc, self, taken);
        only_if(is_left(alloc, given, self.left)?, is_taken)
    }
}

// Whether an object is that of a JSON text.
fn is_left(alloc: Global, object: Map<String, Value>, text: &str) -> Answer {
    let left = Value::Object(object);
    let is_so = is_json(alloc, &left, text);
    drop(left);
    is_so
}

// Whether what was taken notes its value, or was refused at its place.
fn is_taken_so<V: Uses + Drop>(
    alloc: Global,
    row: &TakenFrom,
    taken: Option<Result<V, CompileError>>,
) -> Result<bool, AllocError> {
    let is_so = match &taken {
        None => Ok(row.value.is_none() && row.place.is_none()),
        Some(Ok(_)) if row.place.is_some() => Ok(false),
        Some(Ok(validator)) => is_noted_by(alloc, validator, row.value),
        Some(Err(refusal)) => is_at(refusal, row.place),
    };
    drop(taken);
    is_so
}

// Whether a validator notes this value, or nothing.
fn is_noted_by<V: Uses>(
    alloc: Global,
    validator: &V,
    value: Option<&str>,
) -> Result<bool, AllocError> {
    let noted = validator.note(alloc);
    let is_so = match &noted {
        Ok(Some(note)) => is_written_so(alloc, &note.value, value),
        Ok(None) => Ok(value.is_none()),
        Err(AllocError) => Err(AllocError),
    };
    drop(noted);
    is_so
}

// Whether the JSON text of a value is this one.
fn is_written_so(alloc: Global, value: &Value, text: Option<&str>) -> Answer {
    Ok(text == Some(value.to_string(alloc)?.as_str()))
}

#[test]
fn take_content_schema_under_refusal(rt: HostRuntime) -> Result<(), Fail> {
    for row in SCHEMAS {
        if !is_answered(rt.alloc(), row)? {
            return Err(Fail::new(row.schema));
        }
    }
    Ok(())
}

// Where the keyword is left out nothing is noted and nothing is refused. Its value is taken out of the object too.
#[test]
fn content_schema_left_out_is_taken_out(rt: HostRuntime) -> Result<(), Fail> {
    let alloc = rt.alloc();
    let mut options = Options::default();
    options.overridden = [true; 7];
    let mut ctx = Context::new(alloc, Draft::Draft202012, &NoPatterns);
    ctx.options = options;
    let mut given = object(alloc, r#"{"contentMediaType":"m","contentSchema":1.5}"#)?;
    let taken = take_content_schema(alloc, &ctx, &mut given);
    let adds_nothing = taken.is_none();
    drop((taken, ctx));
    if adds_nothing && is_left(alloc, given, r#"{"contentMediaType":"m"}"#)? {
        return Ok(());
    }
    Err(Fail::new("contentSchema"))
}
