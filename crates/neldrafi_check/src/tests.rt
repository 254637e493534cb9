//! What is written about files. A test whose name ends in `_under_refusal` may also end as out of memory where an
//! allocation is refused.

use super::{
    AnnotationLevel, CheckFault, Counts, ErrorForm, GithubAnnotations, JsonObjects, JunitSuite,
    LineKind, SarifResults, TextLines, check_document, check_lines, check_table, push_annotation,
};
use neldrafi_csv::{Delimiter, ReadFault};
use neldrafi_schema::{Config, Schema, SchemaErrorKind};
use neldrafi_table::{EmptyField, Header, TableFault, TableForm, columns_of, open_table};
use serde_json::Value;
use std::alloc::{AllocError, Global};
use std::io::Cursor;
use std::test::Fail;
use strkw_pattern::NoPatterns;

// The value of a JSON text. The failure names a text that is none.
fn value_of(alloc: Global, text: &'static str) -> Result<Value, Fail> {
    match Value::from_str(alloc, text) {
        Ok(value) => Ok(value),
        Err(error) if error.is_memory() => Err(Fail::from(AllocError)),
        Err(_) => Err(Fail::new(text)),
    }
}

// The failure of a check that ended early. A vector refuses what is written to it only if out of memory.
fn failure_of(fault: CheckFault) -> Fail {
    match fault {
        CheckFault::Memory | CheckFault::Write => Fail::from(AllocError),
        CheckFault::Table(_) => Fail::new("a table"),
        CheckFault::NotJson(_) => Fail::new("not JSON"),
        CheckFault::NotUtf8 => Fail::new("not UTF-8"),
        _ => Fail::new("a device"),
    }
}

// A file, and what is written about it: a document, or lines of a kind.
#[derive(Clone, Copy)]
struct Row {
    kind: Option<LineKind>,
    file: &'static [u8],
    written: &'static str,
    values: u64,
    errors: u64,
}

// Whether what a file is found to have is written as a row says, in a form. The failure names what a row says.
fn is_written<F: ErrorForm>(
    alloc: Global,
    schema: &'static str,
    row: Row,
    form: &F,
) -> Result<(), Fail> {
    let document = value_of(alloc, schema)?;
    let config = Config::new(&NoPatterns);
    let schema = match Schema::compile(alloc, &document, &config) {
        Ok(schema) => schema,
        Err(refusal) if matches!(refusal.kind, SchemaErrorKind::Memory) => {
            return Err(Fail::from(AllocError));
        }
        Err(_) => return Err(Fail::new(schema)),
    };
    let mut bytes = Vec::new(alloc);
    bytes.extend_from_slice(row.file)?;
    let file = Cursor::new(bytes);
    let mut out = Vec::new(alloc);
    let checked = match row.kind {
        None => match check_document(alloc, &schema, file, form, &mut out) {
            Ok(errors) => Ok(Counts::of_value(errors)),
            Err(fault) => Err(fault),
        },
        Some(kind) => check_lines(alloc, &schema, kind, file, form, &mut out),
    };
    let (values, errors) = (row.values, row.errors);
    match checked {
        Ok(counts)
            if counts == Counts { values, errors } && out.as_slice() == row.written.as_bytes() => {
            Ok(())
        }
        Ok(_) => Err(Fail::new(row.written)),
        Err(fault) => Err(failure_of(fault)),
    }
}

// The form of text, of this file.
const LINES: TextLines<'static> = TextLines { file: "f" };

// Members whose values are texts, and no other than these.
const SCHEMA: &str =
    r#"{"properties":{"a":{"type":"string"},"b/":{"maxLength":1}},"required":["a"]}"#;

#[test]
fn documents_under_refusal(rt: HostRuntime) -> Result<(), Fail> {
    let row = Row {
        kind: None,
        file: b"{\n \"b/\": \"xy\",\n \"a\" : 5}",
        written: "f:3:8: /a: 5 is not of type \"string\"\nf:2:8: /b~1: \"xy\" is longer than 1 character\n",
        values: 1,
        errors: 2,
    };
    is_written(rt.alloc(), SCHEMA, row, &LINES)
}

#[test]
fn valid_documents_under_refusal(rt: HostRuntime) -> Result<(), Fail> {
    let row = Row {
        kind: None,
        file: b"{\"a\":\"\"}",
        written: "",
        values: 1,
        errors: 0,
    };
    is_written(rt.alloc(), SCHEMA, row, &LINES)
}

#[test]
fn json_lines_under_refusal(rt: HostRuntime) -> Result<(), Fail> {
    let row = Row {
        kind: Some(LineKind::Json),
        file: b"{\"a\":\"\"}\n\n {}\r\n\"\xFF\"\n{",
        written: "f:3:2: \"a\" is a required property\nf:4:1: not UTF-8\nf:5:1: not JSON: EOF while parsing\n",
        values: 2,
        errors: 3,
    };
    is_written(rt.alloc(), SCHEMA, row, &LINES)
}

#[test]
fn lines_of_text_under_refusal(rt: HostRuntime) -> Result<(), Fail> {
    let row = Row {
        kind: Some(LineKind::Text),
        file: b"ab\r\n\n\xFF\nabc",
        written: "f:1:1: \"ab\" is longer than 1 character\nf:3:1: not UTF-8\nf:4:1: \"abc\" is longer than 1 character\n",
        values: 3,
        errors: 3,
    };
    is_written(rt.alloc(), r#"{"maxLength":1}"#, row, &LINES)
}

#[test]
fn objects_under_refusal(rt: HostRuntime) -> Result<(), Fail> {
    let row = Row {
        kind: Some(LineKind::Json),
        file: b"{\"a\":[1]}\n}",
        written: "{\"file\":\"f\",\"instance\":[1],\"keyword\":\"/properties/a/type\",\"kind\":\"type\",\"line\":1,\"location\":\"/a\",\"message\":\"[1] is not of type \\\"string\\\"\",\"position\":6}\n{\"file\":\"f\",\"kind\":\"unread\",\"line\":2,\"message\":\"not JSON: invalid JSON\",\"position\":1}\n",
        values: 1,
        errors: 2,
    };
    is_written(rt.alloc(), SCHEMA, row, &JsonObjects { file: "f" })
}

#[test]
fn annotations_under_refusal(rt: HostRuntime) -> Result<(), Fail> {
    let row = Row {
        kind: Some(LineKind::Json),
        file: b"{\"a\":\"\",\"b/\":\"10%:\"}\n}",
        written: "::error file=a%3Ab%2Cc%25,line=1,col=14::/b~1: \"10%25:\" is longer than 1 character\n::error file=a%3Ab%2Cc%25,line=2,col=1::not JSON: invalid JSON\n",
        values: 1,
        errors: 2,
    };
    is_written(
        rt.alloc(),
        SCHEMA,
        row,
        &GithubAnnotations { file: "a:b,c%" },
    )
}

#[test]
fn annotations_of_files_under_refusal(rt: HostRuntime) -> Result<(), Fail> {
    let mut out = String::new(rt.alloc());
    push_annotation(AnnotationLevel::Warning, Some("a\r\nb"), "c\r\nd", &mut out)?;
    push_annotation(AnnotationLevel::Notice, None, "", &mut out)?;
    if out.as_str() == "::warning file=a%0D%0Ab::c%0D%0Ad\n::notice::\n" {
        Ok(())
    } else {
        Err(Fail::new("annotations of files"))
    }
}

#[test]
fn test_cases_under_refusal(rt: HostRuntime) -> Result<(), Fail> {
    let row = Row {
        kind: Some(LineKind::Json),
        file: b"{\"a\":\"\",\"b/\":\"<&>\"}\n}",
        written: concat!(
            "<testcase name=\"a&quot;:1:14\" classname=\"a&quot;\"><failure message=\"/b~1: &quot;&lt;&amp;&gt;&quot; is longer than 1 character\" type=\"maxLength\">",
            "a&quot;:1:14: /b~1: &quot;&lt;&amp;&gt;&quot; is longer than 1 character</failure></testcase>\n",
            "<testcase name=\"a&quot;:2:1\" classname=\"a&quot;\"><failure message=\"not JSON: invalid JSON\" type=\"unread\">a&quot;:2:1: not JSON: invalid JSON</failure></testcase>\n",
        ),
        values: 1,
        errors: 2,
    };
    is_written(rt.alloc(), SCHEMA, row, &JunitSuite { file: "a\"" })
}

#[test]
fn results_under_refusal(rt: HostRuntime) -> Result<(), Fail> {
    let row = Row {
        kind: Some(LineKind::Json),
        file: b"{\"a\":{}}\n}",
        written: concat!(
            "{\"level\":\"error\",\"locations\":[{\"logicalLocations\":[{\"fullyQualifiedName\":\"/a\"}],\"physicalLocation\":{\"artifactLocation\":{\"uri\":\"f/%25z\"},\"region\":{\"startColumn\":6,\"startLine\":1}}}],",
            "\"message\":{\"text\":\"{{}} is not of type \\\"string\\\"\"},\"ruleId\":\"type\"}\n",
            "{\"level\":\"error\",\"locations\":[{\"physicalLocation\":{\"artifactLocation\":{\"uri\":\"f/%25z\"},\"region\":{\"startColumn\":1,\"startLine\":2}}}],\"message\":{\"text\":\"not JSON: invalid JSON\"},\"ruleId\":\"unread\"}\n",
        ),
        values: 1,
        errors: 2,
    };
    is_written(rt.alloc(), SCHEMA, row, &SarifResults { file: "f/%z" })
}

#[test]
fn suites_under_refusal(rt: HostRuntime) -> Result<(), Fail> {
    let suite = JunitSuite {
        file: "\t\n\r\u{1}",
    };
    let mut out = String::new(rt.alloc());
    suite.push_start(&mut out)?;
    suite.push_passed(&mut out)?;
    suite.push_fault("<", &mut out)?;
    let written = concat!(
        "<testsuite name=\"&#9;&#10;&#13;\u{FFFD}\">\n",
        "<testcase name=\"&#9;&#10;&#13;\u{FFFD}\" classname=\"&#9;&#10;&#13;\u{FFFD}\"></testcase>\n",
        "<testcase name=\"&#9;&#10;&#13;\u{FFFD}\" classname=\"&#9;&#10;&#13;\u{FFFD}\"><error message=\"&lt;\"/></testcase>\n",
    );
    if out.as_str() == written {
        Ok(())
    } else {
        Err(Fail::new("suites"))
    }
}

// Whether what a table is found to have is written so, and counted so.
fn table_is_written(
    alloc: Global,
    schema: &'static str,
    file: &'static [u8],
    written: &'static str,
    counts: Counts,
) -> Result<(), Fail> {
    let document = value_of(alloc, schema)?;
    let config = Config::new(&NoPatterns);
    let compiled = match Schema::compile(alloc, &document, &config) {
        Ok(compiled) => compiled,
        Err(refusal) if matches!(refusal.kind, SchemaErrorKind::Memory) => {
            return Err(Fail::from(AllocError));
        }
        Err(_) => return Err(Fail::new(schema)),
    };
    let mut bytes = Vec::new(alloc);
    bytes.extend_from_slice(file)?;
    let form = TableForm {
        delimiter: Delimiter::comma(),
        header: Header::First,
        empty: EmptyField::Absent,
    };
    let mut table = match open_table(alloc, Cursor::new(bytes), form) {
        Ok(table) => table,
        Err(TableFault::Memory | TableFault::Record(ReadFault::Memory)) => {
            return Err(Fail::from(AllocError));
        }
        Err(_) => return Err(Fail::new("no table")),
    };
    let columns = columns_of(alloc, &document, &table.names)?;
    let mut out = Vec::new(alloc);
    match check_table(
        alloc,
        &compiled,
        &columns,
        &mut table.rows,
        &LINES,
        &mut out,
    ) {
        Ok(found) if found == counts && out.as_slice() == written.as_bytes() => Ok(()),
        Ok(_) => Err(Fail::new(written)),
        Err(fault) => Err(failure_of(fault)),
    }
}

#[test]
fn tables_under_refusal(rt: HostRuntime) -> Result<(), Fail> {
    let schema = r#"{"properties":{"n":{"type":"integer","maximum":5},"t":{"maxLength":1}}}"#;
    let written = concat!(
        "f:2:1: /n: 7 is greater than the maximum of 5\n",
        "f:2:1: /t: \"ab\" is longer than 1 character\n",
        "f:4:1: expected 2 fields, found 1\n",
        "f:5:1: field 1 is not UTF-8\n",
    );
    let file = b"n,t\n7,ab\n\n1\n\xFF,x\n5,\n";
    let counts = Counts {
        values: 2,
        errors: 4,
    };
    table_is_written(rt.alloc(), schema, file, written, counts)
}
