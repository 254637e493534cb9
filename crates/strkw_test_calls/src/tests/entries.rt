//! Each call on one entry that allocates. With ample memory a row has to pass. `tools/refusals.py` runs it with each
//! growth refused in turn too: then it ends as out of memory, once it has shown that what the refused call was lent is
//! as it was.

use super::context::{
    Answer, Asked, Call, Given, Lent, are_lent, are_lines, collects, gives_the_first, is_answered,
    is_at, lent_errors, only_if, root_site,
};
use crate::compile_entry;
use serde_json::{Map, Value};
use std::alloc::{AllocError, Global};
use std::test::Fail;
use strkw_keywords::{Checks, Keyword, Uses, Validate, Values, compile_among};
use strkw_report::{CompileError, Draft, Site};

// What a call makes of an entry; nothing where the entry adds nothing. The functions below take any validator, and take
// it over: where a function lets go of a `Validator` by itself, its many variants cost a proof of a minute and more.
type Made<V> = Option<Result<V, CompileError>>;

// An entry of a schema object, and where it is refused with ample memory.
struct Placed {
    draft: Draft,
    keyword: Keyword,
    schema: &'static str,
    place: Option<&'static str>,
}

const PLACES: &[Placed] = &[
    Placed {
        draft: Draft::Draft7,
        keyword: Keyword::ContentMediaType,
        schema: r#"{"contentMediaType":"application/json","contentEncoding":"base64"}"#,
        place: None,
    },
    Placed {
        draft: Draft::Draft7,
        keyword: Keyword::ContentMediaType,
        schema: r#"{"contentMediaType":["a"]}"#,
        place: Some("/a/contentMediaType"),
    },
    Placed {
        draft: Draft::Draft7,
        keyword: Keyword::ContentEncoding,
        schema: r#"{"contentEncoding":"base64"}"#,
        place: None,
    },
    Placed {
        draft: Draft::Draft202012,
        keyword: Keyword::ContentMediaType,
        schema: r#"{"contentMediaType":"a/b"}"#,
        place: None,
    },
    Placed {
        draft: Draft::Draft202012,
        keyword: Keyword::ContentEncoding,
        schema: r#"{"contentEncoding":"x"}"#,
        place: None,
    },
    Placed {
        draft: Draft::Draft202012,
        keyword: Keyword::ContentSchema,
        schema: r#"{"contentMediaType":"a/b","contentSchema":{"a":["b"]}}"#,
        place: None,
    },
    Placed {
        draft: Draft::Draft202012,
        keyword: Keyword::ContentSchema,
        schema: r#"{"contentMediaType":"a/b","contentSchema":1.5}"#,
        place: Some("/a/contentSchema"),
    },
    Placed {
        draft: Draft::Draft7,
        keyword: Keyword::Format,
        schema: r#"{"format":"date"}"#,
        place: None,
    },
    Placed {
        draft: Draft::Draft7,
        keyword: Keyword::Format,
        schema: r#"{"format":"custom"}"#,
        place: Some("/a/format"),
    },
    Placed {
        draft: Draft::Draft202012,
        keyword: Keyword::Format,
        schema: r#"{"format":"custom"}"#,
        place: None,
    },
    Placed {
        draft: Draft::Draft7,
        keyword: Keyword::MinLength,
        schema: r#"{"minLength":1,"maxLength":2}"#,
        place: None,
    },
    Placed {
        draft: Draft::Draft7,
        keyword: Keyword::MaxLength,
        schema: r#"{"maxLength":-1}"#,
        place: Some("/a/maxLength"),
    },
    Placed {
        draft: Draft::Draft7,
        keyword: Keyword::Pattern,
        schema: r#"{"pattern":"^(c|b|a)$"}"#,
        place: None,
    },
    Placed {
        draft: Draft::Draft7,
        keyword: Keyword::Pattern,
        schema: r#"{"pattern":"a+"}"#,
        place: None,
    },
    Placed {
        draft: Draft::Draft7,
        keyword: Keyword::Pattern,
        schema: r#"{"pattern":"b+"}"#,
        place: Some("/a/pattern"),
    },
];

// By which call an entry is compiled.
#[derive(Clone, Copy)]
enum Compile {
    // That of its keyword.
    OfKeyword,
    // The one for all keywords.
    Among,
}

#[derive(Clone, Copy)]
struct Compiling {
    row: &'static Placed,
    by: Compile,
}

// Whether an entry was compiled, or refused at its place.
fn is_made_so<V: Drop>(made: Made<V>, place: Option<&str>) -> Result<bool, AllocError> {
    let is_so = match &made {
        Some(Ok(_validator)) => Ok(place.is_none()),
        Some(Err(refusal)) => is_at(refusal, place),
        None => Ok(false),
    };
    drop(made);
    is_so
}

impl Asked for Compiling {
    fn subject(&self) -> Given {
        Given {
            draft: self.row.draft,
            schema: self.row.schema,
        }
    }

    fn is_answered(&self, alloc: Global, ctx: &Lent<'_>, schema: &Map<String, Value>) -> Answer {
        let (keyword, place) = (self.row.keyword, self.row.place);
        match self.by {
            Compile::OfKeyword => is_made_so(compile_entry(alloc, ctx, keyword, schema), place),
            Compile::Among => {
                let values = Values::of(schema);
                is_made_so(compile_among(alloc, ctx, &values, keyword), place)
            }
        }
    }
}

fn ask_places(alloc: Global, by: Compile) -> Result<(), Fail> {
    for row in PLACES {
        if !is_answered(alloc, &Compiling { row, by })? {
            return Err(Fail::new(row.schema));
        }
    }
    Ok(())
}

#[test]
fn compile_functions_under_refusal(rt: HostRuntime) -> Result<(), Fail> {
    ask_places(rt.alloc(), Compile::OfKeyword)
}

#[test]
fn compile_among_under_refusal(rt: HostRuntime) -> Result<(), Fail> {
    ask_places(rt.alloc(), Compile::Among)
}

// An entry of a schema object, a text, the lines of its errors, and whether a test of it takes no memory.
struct Told {
    draft: Draft,
    keyword: Keyword,
    schema: &'static str,
    text: &'static str,
    lines: &'static str,
    is_quiet: bool,
}

const LINES: &[Told] = &[
    Told {
        draft: Draft::Draft7,
        keyword: Keyword::ContentMediaType,
        schema: r#"{"contentMediaType":"application/json"}"#,
        text: "[{}]",
        lines: "",
        is_quiet: false,
    },
    Told {
        draft: Draft::Draft7,
        keyword: Keyword::ContentMediaType,
        schema: r#"{"contentMediaType":"application/json","contentEncoding":"base64"}"#,
        text: "ezp9Cg==",
        lines: "/a/contentMediaType: \"ezp9Cg==\" is not compliant with \"application/json\" media type\n",
        is_quiet: false,
    },
    Told {
        draft: Draft::Draft7,
        keyword: Keyword::ContentEncoding,
        schema: r#"{"contentEncoding":"base32"}"#,
        text: "MZXW6YQ=",
        lines: "",
        is_quiet: false,
    },
    Told {
        draft: Draft::Draft202012,
        keyword: Keyword::ContentSchema,
        schema: r#"{"contentMediaType":"a/b","contentSchema":{"a":["b"]}}"#,
        text: "x",
        lines: "",
        is_quiet: true,
    },
    Told {
        draft: Draft::Draft7,
        keyword: Keyword::Format,
        schema: r#"{"format":"date"}"#,
        text: "x",
        lines: "/a/format: \"x\" is not a \"date\"\n",
        is_quiet: true,
    },
    Told {
        draft: Draft::Draft7,
        keyword: Keyword::Format,
        schema: r#"{"format":"even"}"#,
        text: "abc",
        lines: "/a/format: \"abc\" is not a \"even\"\n",
        is_quiet: false,
    },
    Told {
        draft: Draft::Draft7,
        keyword: Keyword::MinLength,
        schema: r#"{"minLength":5,"maxLength":3}"#,
        text: "abcd",
        lines: "/a/minLength: \"abcd\" is shorter than 5 characters\n/a/maxLength: \"abcd\" is longer than 3 characters\n",
        is_quiet: true,
    },
    Told {
        draft: Draft::Draft7,
        keyword: Keyword::MaxLength,
        schema: r#"{"maxLength":3}"#,
        text: "abcd",
        lines: "/a/maxLength: \"abcd\" is longer than 3 characters\n",
        is_quiet: true,
    },
    Told {
        draft: Draft::Draft7,
        keyword: Keyword::Pattern,
        schema: r#"{"pattern":"^(c|b|a)$"}"#,
        text: "d",
        lines: "/a/pattern: \"d\" does not match \"^(c|b|a)$\"\n",
        is_quiet: true,
    },
    Told {
        draft: Draft::Draft7,
        keyword: Keyword::Pattern,
        schema: r#"{"pattern":"a+"}"#,
        text: "x",
        lines: "/a/pattern: \"x\" does not match \"a+\"\n",
        is_quiet: false,
    },
    Told {
        draft: Draft::Draft7,
        keyword: Keyword::Pattern,
        schema: r#"{"pattern":"a+"}"#,
        text: "aa",
        lines: "",
        is_quiet: false,
    },
];

// Whether a call answers as it is to; out of memory, by its own name, is an error here where the call may be refused.
fn answers<V: Validate<Value>>(
    alloc: Global,
    call: Call,
    validator: &V,
    checks: &Checks,
    (node, site): (&Value, &Site),
    wanted: &str,
) -> Result<bool, AllocError> {
    if !validator.uses(checks) {
        return Ok(false);
    }
    match call {
        Call::IsValid => match validator.is_valid(alloc, node, checks) {
            Ok(is_valid) => Ok(is_valid == wanted.is_empty()),
            Err(AllocError) if validator.takes_no_memory() => Ok(false),
            Err(AllocError) => Err(AllocError),
        },
        Call::Validate => {
            gives_the_first(alloc, validator.validate(alloc, node, site, checks), wanted)
        }
        Call::CollectErrors => {
            let mut errors = lent_errors(alloc)?;
            let collected = validator.collect_errors(alloc, node, site, checks, &mut errors);
            let is_so = collects(alloc, collected, &errors, wanted);
            drop(errors);
            is_so
        }
        Call::Evaluate => {
            let found = validator.evaluate(alloc, node, site, checks)?;
            let is_so = are_lines(alloc, &found.errors, wanted);
            drop(found);
            is_so
        }
    }
}

#[derive(Clone, Copy)]
struct Asking {
    row: &'static Told,
    call: Call,
}

// Whether a call answers of a text as it is to. The text and the place are as they were, whatever it answered.
fn is_answered_so<V: Validate<Value>>(
    alloc: Global,
    asking: &Asking,
    validator: &V,
    checks: &Checks,
) -> Result<bool, AllocError> {
    let row = asking.row;
    let (node, site) = (Value::try_from_str(alloc, row.text)?, root_site(alloc));
    let lent = (&node, &site);
    let answer = answers(alloc, asking.call, validator, checks, lent, row.lines);
    let is_as_told = validator.takes_no_memory() == row.is_quiet;
    let is_as_lent = are_lent(&node, row.text, &site);
    drop((node, site));
    only_if(is_as_told && is_as_lent, answer)
}

// The same of what was made of an entry.
fn is_told_so<V: Validate<Value> + Drop>(
    alloc: Global,
    asking: &Asking,
    made: Made<V>,
    checks: &Checks,
) -> Result<bool, AllocError> {
    let is_so = match &made {
        Some(Ok(validator)) => is_answered_so(alloc, asking, validator, checks),
        Some(Err(refusal)) => is_at(refusal, None),
        None => Ok(false),
    };
    drop(made);
    is_so
}

impl Asked for Asking {
    fn subject(&self) -> Given {
        Given {
            draft: self.row.draft,
            schema: self.row.schema,
        }
    }

    fn is_answered(&self, alloc: Global, ctx: &Lent<'_>, schema: &Map<String, Value>) -> Answer {
        let made = compile_entry(alloc, ctx, self.row.keyword, schema);
        is_told_so(alloc, self, made, &ctx.checks)
    }
}

fn asked_of_entries(alloc: Global, call: Call) -> Result<(), Fail> {
    for row in LINES {
        if !is_answered(alloc, &Asking { row, call })? {
            return Err(Fail::new(row.schema));
        }
    }
    Ok(())
}

#[test]
fn is_valid_of_entries_under_refusal(rt: HostRuntime) -> Result<(), Fail> {
    asked_of_entries(rt.alloc(), Call::IsValid)
}

#[test]
fn validate_of_entries_under_refusal(rt: HostRuntime) -> Result<(), Fail> {
    asked_of_entries(rt.alloc(), Call::Validate)
}

#[test]
fn collect_errors_of_entries_under_refusal(rt: HostRuntime) -> Result<(), Fail> {
    asked_of_entries(rt.alloc(), Call::CollectErrors)
}

#[test]
fn evaluate_of_entries_under_refusal(rt: HostRuntime) -> Result<(), Fail> {
    asked_of_entries(rt.alloc(), Call::Evaluate)
}
