//! `neldrafi check`: checks files by a JSON Schema.

ghost use Rattle.neldrafi_schema.specs.machine.Words.{IsCompiled, lists_in};

use crate::building::{Argument, Takes, subcommand};
use crate::documents::{
    FurtherDocument, borrowed, fault_of as refusal_fault, read_documents, require_checks,
    require_known,
};
use crate::faults::{Fault, Reach};
use crate::file_kinds::{FILE_KIND_NAMES, FileKind};
use crate::files::outcome_of_fault;
use crate::inputs::{InputFault, InputFile, STANDARD_INPUT};
use crate::known_formats::checks_of;
use crate::message_form::{MESSAGE_OUTPUT, MessageForm};
use crate::options::{
    ALLOW_UNKNOWN, COLOR, DOCUMENT, DRAFT, FILES, MAX_ERRORS, QUIET, Wanted, draft_of,
};
use crate::outcome::Outcome;
use crate::output::{FaultyWrite, Output};
use crate::report::Report;
use crate::schemas::read_schema;
use crate::summary::Summary;
use crate::tables::{
    DELIMITER, EMPTY, NO_HEADER, TableOptions, columns_by, fault_of as table_fault, warn,
};
use crate::telling::Subject;
use clap::{ArgMatches, Command};
use neldrafi_check::{
    CheckFault, Counts, ErrorForm, GithubAnnotations, JsonObjects, JunitSuite, LineKind,
    SarifResults, Shown, TextLines, check_document, check_lines, check_table,
};
use neldrafi_schema::{Config, Schema};
use neldrafi_table::open_table;
use serde_json::Value;
use std::alloc::{AllocError, Global};
use strkw_companions::companions_of;
use strkw_ecma::LenientPatterns;
use strkw_keywords::NamedFormat;
use strkw_pattern::RegexEngine;
use strkw_report::Draft;

/// The name of the subcommand.
pub(crate) const NAME: &str = "check";

// The argument for the file of the schema.
const SCHEMA: &str = "SCHEMA";

// The option for what files are.
const AS: &str = "as";

// The option for the name of standard input.
const STDIN_NAME: &str = "name";

// The option for which formats are checked, and its words.
const FORMATS: &str = "formats";

const CHECK: &str = "check";

const ANNOTATE: &str = "annotate";

const FORMAT_WORDS: &[&str] = &[CHECK, ANNOTATE];

// The option for the counts of values and errors.
const SUMMARY: &str = "summary";

// What it does.
const ABOUT: &str = "Checks files by a JSON Schema";

// What its help ends with.
const AFTER_HELP: &str = "\
The schema is of the draft that its `$schema` names, or else of `--draft`. A file is JSON;
if its name ends in `.jsonl` or `.ndjson`, each of its lines is; if it ends in `.csv` or
`.tsv`, each record is an object of its columns, and a field is null, a boolean or a number
if the `type` of its column has these; if it ends in `.txt`, each line is a string. An error
is a line `FILE:LINE:COLUMN: LOCATION: TEXT`, of a record with the position at which the
record begins. LOCATION is a JSON pointer, and is left out for the root. With `--output json`
it is an object with `file`, `line`, `position`, `location`, `keyword`, `kind`, `message` and
`instance`, and with `--output github` an annotation `::error file=FILE,line=LINE,col=COLUMN::..`.
With `--output junit` all errors are one document, in which each file is a test suite, and with
`--output sarif` they are the results of one.

Examples:
  neldrafi check schema.json server.json
  neldrafi check --output json schema.json events.jsonl
  neldrafi check --as jsonl schema.json < events
  neldrafi check --delimiter ';' person.json people.csv
  neldrafi check --document https://example.com/port=port.json schema.json server.json";

// What it takes.
const ARGUMENTS: &[Argument] = &[
    Argument {
        name: SCHEMA,
        takes: Takes::Word,
        conflicts: &[],
        help: "The file of the schema",
    },
    FILES,
    ALLOW_UNKNOWN,
    Argument {
        name: AS,
        takes: Takes::OneOfSome {
            value: "KIND",
            words: FILE_KIND_NAMES,
        },
        conflicts: &[],
        help: "What each file is, whatever its name",
    },
    COLOR,
    DELIMITER,
    DOCUMENT,
    DRAFT,
    EMPTY,
    Argument {
        name: FORMATS,
        takes: Takes::OneOf {
            value: "HOW",
            words: FORMAT_WORDS,
            default: CHECK,
        },
        conflicts: &[],
        help: "Whether `format` is checked in every draft, or as the draft has it",
    },
    MAX_ERRORS,
    Argument {
        name: STDIN_NAME,
        takes: Takes::Value("NAME"),
        conflicts: &[],
        help: "The name of standard input, in messages and for what it is",
    },
    NO_HEADER,
    MESSAGE_OUTPUT,
    QUIET,
    Argument {
        name: SUMMARY,
        takes: Takes::Nothing,
        conflicts: &[],
        help: "Write to standard error how many values and errors each file has, and all together",
    },
];

/// The subcommand.
pub(crate) fn command<'a>(alloc: Global) -> Result<Command<'a>, AllocError> {
    subcommand(alloc, NAME, ABOUT, AFTER_HELP, ARGUMENTS)
}

// A file to check.
#[derive(Drop)]
struct OpenedFile<'a> {
    kind: FileKind,
    file: InputFile,
    subject: Subject<'a>,
}

// What files are checked by, and how.
#[derive(Drop)]
struct SchemaCheck<'a, E: RegexEngine> {
    schema: &'a Schema<'a, E>,
    // The schema as it is written.
    document: &'a Value,
    tables: TableOptions,
    // What each file is, if its name does not tell.
    kind: Option<FileKind>,
    // The name of standard input.
    stdin_name: &'a str,
    has_summary: bool,
    wanted: Wanted,
}

impl<E: RegexEngine> SchemaCheck<'_, E> {
    // The name of the file of a path in messages.
    fn name_of<'x>(&'x self, path: &'x str) -> &'x str {
        if path == STANDARD_INPUT {
            self.stdin_name
        } else {
            path
        }
    }

    // Writes the errors of a file in a form.
    fn check_as<F: ErrorForm>(
        &self,
        rt: &HostRuntime,
        opened: OpenedFile<'_>,
        form: &F,
        output: &mut Output<'_>,
    ) -> Result<Counts, Fault>
        requires { IsCompiled E.outcome (lists_in admits accepts is_encoding decoding
            self.now.schema.now) self.now.schema.now }
    {
        let (alloc, file) = (rt.alloc(), opened.file);
        let checked = match opened.kind {
            FileKind::Json => match check_document(alloc, self.schema, file, form, output) {
                Ok(errors) => Ok(Counts::of_value(errors)),
                Err(fault) => Err(fault),
            },
            FileKind::JsonLines => {
                check_lines(alloc, self.schema, LineKind::Json, file, form, output)
            }
            FileKind::Text => check_lines(alloc, self.schema, LineKind::Text, file, form, output),
            FileKind::Csv | FileKind::Tsv => {
                return self.check_records(rt, OpenedFile { file, ..opened }, form, output);
            }
        };
        match checked {
            Ok(counts) => Ok(counts),
            Err(fault) => Err(fault_of(alloc, fault, output)),
        }
    }

    // Writes the errors of the records of a table in a form.
    fn check_records<F: ErrorForm>(
        &self,
        rt: &HostRuntime,
        opened: OpenedFile<'_>,
        form: &F,
        output: &mut Output<'_>,
    ) -> Result<Counts, Fault>
        requires { IsCompiled E.outcome (lists_in admits accepts is_encoding decoding
            self.now.schema.now) self.now.schema.now }
    {
        let alloc = rt.alloc();
        let table_form = self.tables.form(opened.kind);
        let mut table = match open_table(alloc, opened.file, table_form) {
            Ok(table) => table,
            Err(fault) => return Err(table_fault(alloc, fault)),
        };
        let columns = columns_by(alloc, self.document, &table.names)?;
        warn(
            rt,
            self.wanted.form,
            opened.subject,
            self.document,
            &columns,
        );
        match check_table(alloc, self.schema, &columns, &mut table.rows, form, output) {
            Ok(counts) => Ok(counts),
            Err(fault) => Err(fault_of(alloc, fault, output)),
        }
    }

    // Opens a file, writes its errors, and counts its values and errors.
    fn check_file(
        &self,
        rt: &HostRuntime,
        path: &str,
        subject: Subject<'_>,
        output: &mut Output<'_>,
    ) -> Result<Counts, Fault>
        requires { IsCompiled E.outcome (lists_in admits accepts is_encoding decoding
            self.now.schema.now) self.now.schema.now }
    {
        let mut file = InputFile::open(rt, path)?;
        let name = self.name_of(path);
        let kind = self.kind.unwrap_or(FileKind::of_name(name));
        if matches!(kind, FileKind::Json | FileKind::JsonLines) {
            file.skip_mark();
        }
        let opened = OpenedFile {
            kind,
            file,
            subject,
        };
        match self.wanted.form {
            MessageForm::Text => self.check_as(rt, opened, &TextLines { file: name }, output),
            MessageForm::Json => self.check_as(rt, opened, &JsonObjects { file: name }, output),
            MessageForm::Github => {
                self.check_as(rt, opened, &GithubAnnotations { file: name }, output)
            }
            MessageForm::Junit => self.check_as(rt, opened, &JunitSuite { file: name }, output),
            MessageForm::Sarif => self.check_as(rt, opened, &SarifResults { file: name }, output),
        }
    }

    // Checks a file, reports its fault, and returns its outcome, or `None` if standard output is closed. The errors are
    // the faults that also prevent the check of later files.
    fn check_and_tell(
        &self,
        rt: &HostRuntime,
        path: &str,
        report: &mut Report<'_>,
        summary: &mut Summary<'_>,
    ) -> Result<Option<Outcome>, Fault>
        requires { IsCompiled E.outcome (lists_in admits accepts is_encoding decoding
            self.now.schema.now) self.now.schema.now }
    {
        let name = self.name_of(path);
        let shown = Shown(name);
        let label = format!(in rt.alloc(); "{shown}: ")?;
        let subject = Subject {
            file: Some(name),
            label: &label,
        };
        let mut output = report.begin_file(name)?;
        let checked = self.check_file(rt, path, subject, &mut output);
        report.end_file(name, &output, &checked)?;
        match checked {
            Ok(counts) => {
                summary.add(subject, counts)?;
                Ok(Some(Outcome::of_errors(counts.errors)))
            }
            Err(fault) => outcome_of_fault(rt, subject, self.wanted, fault),
        }
    }

    // Checks each of the files, reports their faults, and returns the worst outcome.
    fn check_each(&self, rt: &HostRuntime, paths: &[&str]) -> Result<Outcome, Fault>
        requires { IsCompiled E.outcome (lists_in admits accepts is_encoding decoding
            self.now.schema.now) self.now.schema.now }
    {
        let mut report = Report::begin(rt, self.wanted)?;
        let mut summary = Summary::new(rt, self.has_summary.then_some(self.wanted.form));
        let mut outcome = Outcome::AllValid;
        for path in paths {
            let Some(one) = self.check_and_tell(rt, path, &mut report, &mut summary)? else {
                // A line was to be written, so there is an error.
                return Ok(outcome.max(Outcome::Errors));
            };
            outcome = outcome.max(one);
        }
        report.end()?;
        summary.end();
        Ok(outcome)
    }
}

// The fault of a check that wrote to this output.
fn fault_of(alloc: Global, fault: CheckFault, output: &Output<'_>) -> Fault {
    match fault {
        CheckFault::Write => output.fault(),
        CheckFault::Memory => Fault::Memory,
        CheckFault::Unread(error) => Fault::Input(InputFault::Unread(error)),
        _ => Fault::with_words(Reach::File, format!(in alloc; "{fault}")),
    }
}

/// Runs the subcommand.
pub(crate) fn run(rt: &HostRuntime, matches: &ArgMatches<'_>) -> Result<Outcome, Fault> {
    let path = matches.get_str(SCHEMA).unwrap_or("");
    let schema = read_schema(rt, path)?;
    let draft = draft_of(matches);
    if !matches.get_flag(ALLOW_UNKNOWN.name) {
        require_known(rt.alloc(), draft, &schema)?;
    }
    let further = read_documents(rt, matches.get_strs(DOCUMENT.name).unwrap_or(&[]))?;
    run_by(rt, matches, draft, &schema, &further)
}

// Checks the files by a schema, with further documents.
fn run_by(
    rt: &HostRuntime,
    matches: &ArgMatches<'_>,
    draft: Draft,
    schema: &Value,
    further: &[FurtherDocument],
) -> Result<Outcome, Fault> {
    let mut formats = Vec::new(rt.alloc());
    for companion in companions_of(Draft::Draft202012) {
        let name = String::from_str(rt.alloc(), companion.as_str())?;
        let check = Box::new(rt.alloc(), *companion)?;
        formats.push(NamedFormat { name, check })?;
    }
    let documents = borrowed(rt.alloc(), further)?;
    let config = Config {
        draft: Some(draft),
        validate_formats: match matches.get_str(FORMATS) {
            Some(ANNOTATE) => None,
            _ => Some(true),
        },
        ignore_unknown_formats: matches.get_flag(ALLOW_UNKNOWN.name),
        checks: checks_of(&formats),
        documents: &documents,
        builder: &LenientPatterns,
    };
    check_by(rt, matches, schema, &config)
}

// Checks the files by a schema that is compiled under this.
fn check_by(
    rt: &HostRuntime,
    matches: &ArgMatches<'_>,
    schema: &Value,
    config: &Config<'_, LenientPatterns>,
) -> Result<Outcome, Fault> {
    let compiled = match Schema::compile(rt.alloc(), schema, config) {
        Ok(compiled) => compiled,
        Err(refusal) => return Err(refusal_fault(rt.alloc(), refusal)),
    };
    require_checks(rt.alloc(), schema)?;
    let check = SchemaCheck {
        schema: &compiled,
        document: schema,
        tables: TableOptions::of(rt.alloc(), matches)?,
        kind: matches.get_str(AS).and_then(FileKind::named),
        stdin_name: matches.get_str(STDIN_NAME).unwrap_or(STANDARD_INPUT),
        has_summary: matches.get_flag(SUMMARY),
        wanted: Wanted::of(rt, matches),
    };
    check.check_each(
        rt,
        matches.get_strs(FILES.name).unwrap_or(&[STANDARD_INPUT]),
    )
}
