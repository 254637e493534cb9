//! `neldrafi explain`: what a schema checks, in words.

use crate::building::{Argument, Takes, subcommand};
use crate::documents::{FurtherDocument, borrowed, fault_of, read_documents, require_known};
use crate::drafts::draft_of_schema;
use crate::explanations::{Explanation, explain_keyword};
use crate::faults::Fault;
use crate::known_formats::checks_of;
use crate::options::{ALLOW_UNKNOWN, DOCUMENT, DRAFT, OUTPUT, OutputForm, draft_of};
use crate::outcome::Outcome;
use crate::output::write_text;
use crate::schemas::read_schema;
use clap::{ArgMatches, Command};
use neldrafi_check::{Datum, Shown, push_object};
use neldrafi_schema::{Config, Schema};
use serde_json::{Map, Value};
use std::alloc::{AllocError, Global};
use std::fmt::Write;
use strkw_ecma::LenientPatterns;
use strkw_keywords::{Context, Options};
use strkw_object::compile_strings;
use strkw_report::{CompileErrorKind, Draft, Location};

/// The name of the subcommand.
pub(crate) const NAME: &str = "explain";

// The argument for the file of the schema.
const SCHEMA: &str = "SCHEMA";

// What it does.
const ABOUT: &str = "Says in words what a JSON Schema checks";

// What its help ends with.
const AFTER_HELP: &str = "\
The schema is of the draft that its `$schema` names, or else of `--draft`, and is refused as
`check` refuses it. It writes a line `LOCATION: WORDS` for each keyword that checks values.
LOCATION is the JSON pointer of the keyword in the schema, and WORDS say which values are
valid: `a string has at most 20 characters` says nothing of other values. A schema that any
value is valid by has a line that says so, and so has one whose string keywords leave no valid
string. With `--output json` a line is an object with `location`, `keyword`, `kind` and
`message`.

Examples:
  neldrafi explain schema.json
  neldrafi explain --draft 7 schema.json";

// What it takes.
const ARGUMENTS: &[Argument] = &[
    Argument {
        name: SCHEMA,
        takes: Takes::Word,
        conflicts: &[],
        help: "The file of the schema",
    },
    ALLOW_UNKNOWN,
    DOCUMENT,
    DRAFT,
    OUTPUT,
];

/// The subcommand.
pub(crate) fn command<'a>(alloc: Global) -> Result<Command<'a>, AllocError> {
    subcommand(alloc, NAME, ABOUT, AFTER_HELP, ARGUMENTS)
}

// A line: what is said of a keyword, or of a schema, where the keyword is empty.
#[derive(Clone, Copy)]
struct Line<'a> {
    location: &'a Location,
    keyword: &'a str,
    kind: &'static str,
    message: &'a str,
}

// Explains the schemas of a document.
#[derive(Clone, Copy)]
struct Explainer {
    alloc: Global,
    draft: Draft,
    form: OutputForm,
}

impl Explainer {
    // Appends a line.
    fn push_line(&self, line: &Line<'_>, out: &mut String) -> Result<(), AllocError> {
        match self.form {
            OutputForm::Text => {
                let (location, message) = (Shown(line.location.as_str()), line.message);
                writeln!(out, "#{location}: {message}")
            }
            OutputForm::Json => {
                let members = [
                    ("location", Datum::Text(line.location.as_str())),
                    ("keyword", Datum::Text(line.keyword)),
                    ("kind", Datum::Text(line.kind)),
                    ("message", Datum::Text(line.message)),
                ];
                push_object(self.alloc, &members, out)
            }
        }
    }

    // Appends a line about a schema.
    fn push_remark(
        &self,
        location: &Location,
        kind: &'static str,
        message: &str,
        out: &mut String,
    ) -> Result<(), AllocError> {
        let line = Line {
            location,
            keyword: "",
            kind,
            message,
        };
        self.push_line(&line, out)
    }

    // Appends what is said of a keyword, which is explained as another is.
    fn push_explanation(
        &self,
        location: &Location,
        keyword: &str,
        explained: &str,
        value: &Value,
        out: &mut String,
    ) -> Result<(), AllocError> {
        let (kind, message) = match explain_keyword(self.alloc, self.draft, explained, value)? {
            Explanation::Checked(words) => ("checked", words),
            Explanation::Annotation => {
                let words = String::from_str(self.alloc, "an annotation: nothing is checked")?;
                ("annotation", words)
            }
            Explanation::Nothing => return Ok(()),
        };
        let line = Line {
            location,
            keyword,
            kind,
            message: &message,
        };
        self.push_line(&line, out)
    }

    // Appends what is said of a schema, and of the schemas in it.
    #[cycle(push_schema)]
    fn push_schema(
        &self,
        location: &Location,
        schema: &Value,
        out: &mut String,
    ) -> Result<(), AllocError> {
        match schema {
            Value::Bool(true) => self.push_remark(location, "checked", "any value", out),
            Value::Bool(false) => self.push_remark(location, "checked", "no value", out),
            Value::Object(members) => self.push_members(location, members, out),
            _ => Ok(()),
        }
    }

    #[cycle(push_schema)]
    fn push_members(
        &self,
        location: &Location,
        members: &Map<String, Value>,
        out: &mut String,
    ) -> Result<(), AllocError> {
        let before = out.len();
        for (keyword, value) in members.iter() {
            if !self.is_ignored(members, keyword) {
                let explained = explained_as(members, keyword);
                self.push_keyword(location, keyword, explained, value, out)?;
            }
        }
        if self.is_folded(members)? {
            self.push_remark(location, "folded", "no string is valid", out)?;
        }
        if out.len() == before {
            self.push_remark(location, "checked", "any value", out)?;
        }
        Ok(())
    }

    #[cycle(push_schema)]
    fn push_keyword(
        &self,
        location: &Location,
        keyword: &str,
        explained: &str,
        value: &Value,
        out: &mut String,
    ) -> Result<(), AllocError> {
        let place = location.join(keyword)?;
        self.push_explanation(&place, keyword, explained, value, out)?;
        match value {
            Value::Object(inner) => match holding_of(keyword) {
                Holding::OneOrSeveral => self.push_members(&place, inner, out),
                Holding::ByKey => self.push_by_key(&place, inner, out),
                Holding::Nothing => Ok(()),
            },
            Value::Array(schemas) => match holding_of(keyword) {
                Holding::OneOrSeveral => self.push_several(&place, schemas, out),
                Holding::ByKey | Holding::Nothing => Ok(()),
            },
            _ => Ok(()),
        }
    }

    // Appends what is said of each schema of a list.
    #[cycle(push_schema)]
    fn push_several(
        &self,
        location: &Location,
        schemas: &[Value],
        out: &mut String,
    ) -> Result<(), AllocError> {
        for (number, schema) in schemas.iter().enumerate() {
            let segment = format!(in self.alloc; "{number}")?;
            self.push_schema(&location.join(&segment)?, schema, out)?;
        }
        Ok(())
    }

    // Appends what is said of each schema of an object.
    #[cycle(push_schema)]
    fn push_by_key(
        &self,
        location: &Location,
        schemas: &Map<String, Value>,
        out: &mut String,
    ) -> Result<(), AllocError> {
        for (key, schema) in schemas.iter() {
            self.push_schema(&location.join(key)?, schema, out)?;
        }
        Ok(())
    }

    // Whether a keyword has no meaning beside `$ref` (drafts 4, 6 and 7, Core, section 8.3).
    fn is_ignored(&self, members: &Map<String, Value>, keyword: &str) -> bool {
        matches!(self.draft, Draft::Draft4 | Draft::Draft6 | Draft::Draft7)
            && members.contains_key("$ref")
            && !matches!(keyword, "$ref" | "definitions")
    }

    // Whether no string can be valid by the string keywords of a schema. One that `compile_strings` refuses has a limit
    // such as `2.0`, which it does not take.
    fn is_folded(&self, members: &Map<String, Value>) -> Result<bool, AllocError> {
        let mut options = Options::default();
        options.validate_formats = Some(true);
        options.ignore_unknown_formats = true;
        let context = Context {
            draft: self.draft,
            location: Location::root(self.alloc),
            absolute: None,
            options,
            checks: checks_of(&[]),
            builder: &LenientPatterns,
        };
        match compile_strings(self.alloc, &context, members) {
            Ok(keywords) => Ok(keywords.folds_to_false()),
            Err(refusal) if matches!(refusal.kind, CompileErrorKind::Memory) => Err(AllocError),
            Err(_) => Ok(false),
        }
    }
}

// The keyword as which another is explained: `items` beside `prefixItems` is what `additionalItems` was in earlier
// drafts.
fn explained_as<'a>(members: &Map<String, Value>, keyword: &'a str) -> &'a str {
    if keyword == "items" && members.contains_key("prefixItems") {
        "additionalItems"
    } else {
        keyword
    }
}

// How the value of a keyword has schemas.
#[derive(Clone, Copy)]
enum Holding {
    // It is a schema, or a list of them.
    OneOrSeveral,
    // Its members are schemas.
    ByKey,
    Nothing,
}

fn holding_of(keyword: &str) -> Holding {
    match keyword {
        "additionalItems"
        | "additionalProperties"
        | "allOf"
        | "anyOf"
        | "contains"
        | "else"
        | "if"
        | "items"
        | "not"
        | "oneOf"
        | "prefixItems"
        | "propertyNames"
        | "then"
        | "unevaluatedItems"
        | "unevaluatedProperties" => Holding::OneOrSeveral,
        "$defs"
        | "definitions"
        | "dependencies"
        | "dependentSchemas"
        | "patternProperties"
        | "properties" => Holding::ByKey,
        _ => Holding::Nothing,
    }
}

// Refuses a schema as `check` does, but for unknown formats, of which a line tells.
fn require_compiled(
    alloc: Global,
    draft: Draft,
    schema: &Value,
    further: &[FurtherDocument],
) -> Result<(), Fault> {
    let documents = borrowed(alloc, further)?;
    let config = Config {
        draft: Some(draft),
        validate_formats: Some(true),
        ignore_unknown_formats: true,
        checks: checks_of(&[]),
        documents: &documents,
        builder: &LenientPatterns,
    };
    match Schema::compile(alloc, schema, &config) {
        Ok(_) => Ok(()),
        Err(refusal) => Err(fault_of(alloc, refusal)),
    }
}

/// Runs the subcommand.
pub(crate) fn run(rt: &HostRuntime, matches: &ArgMatches<'_>) -> Result<Outcome, Fault> {
    let alloc = rt.alloc();
    let schema = read_schema(rt, matches.get_str(SCHEMA).unwrap_or(""))?;
    let draft = draft_of_schema(&schema, draft_of(matches));
    if !matches.get_flag(ALLOW_UNKNOWN.name) {
        require_known(alloc, draft, &schema)?;
    }
    let further = read_documents(rt, matches.get_strs(DOCUMENT.name).unwrap_or(&[]))?;
    require_compiled(alloc, draft, &schema, &further)?;
    let explainer = Explainer {
        alloc,
        draft,
        form: OutputForm::of(matches),
    };
    let mut lines = String::new(alloc);
    explainer.push_schema(&Location::root(alloc), &schema, &mut lines)?;
    write_text(rt, &lines)?;
    Ok(Outcome::AllValid)
}
