//! Errors as test cases in the XML of JUnit.

ghost use Rattle.std.specs.Prelude.{◌≡◌, ◌++◌, OnOk, [], codes, string_bytes};
ghost use Rattle.neldrafi_check.specs.Junit.{attribute, case_start, error_element, failed_case, failure_element, file_case, junit_form, place_in_xml, suite_start, xml};

use crate::cutting::push_cut;
use crate::escapes::{Syntax, push_escaped};
use crate::forms::{ErrorForm, push_location};
use crate::kinds::error_kind_name;
use crate::shown::push_shown;
use neldrafi_position::Position;
use neldrafi_schema::ValidationError;
use std::alloc::{AllocError, Global};
use std::fmt::Write;

/// What a document of test suites begins with.
pub const SUITES_START: &str = "<?xml version=\"1.0\" encoding=\"UTF-8\"?>\n<testsuites>\n";

/// What a test suite ends with.
pub const SUITE_END: &str = "</testsuite>\n";

/// What a document of test suites ends with.
pub const SUITES_END: &str = "</testsuites>\n";

/// A file as a test suite in the XML of JUnit. As a form of errors it writes a test case for each, on a line: its name
/// is `FILE:LINE:COLUMN`, and its failure has the name of the keyword and the message `LOCATION: TEXT` of `TextLines`.
/// Each call appends to a text. The only error is out of memory; a beginning may then have been appended.
#[derive(Clone, Copy)]
pub struct JunitSuite<'a> {
    /// The name of the file.
    pub file: &'a str,
}

// Appends an attribute.
#[tactic(auto, unfolding(crate::specs::Junit::attribute))]
fn push_attribute(name: &str, value: &str, out: &mut String) -> Result<(), AllocError>
    ensures { OnOk result (string_bytes out.new
        ≡ string_bytes out.old ++ attribute name.now (xml value.now)) }
{
    out.push_str(" ")?;
    out.push_str(name)?;
    out.push_str("=\"")?;
    push_escaped(Syntax::Xml, value, out)?;
    out.push_str("\"")
}

// Appends the element of a file that could not be checked.
fn push_error_element(message: &str, out: &mut String) -> Result<(), AllocError>
    ensures { OnOk result (string_bytes out.new
        ≡ string_bytes out.old ++ error_element message.now) }
{
    out.push_str("<error")?;
    push_attribute("message", message, out)?;
    out.push_str("/>")
}

// Appends what a test case ends with.
fn push_case_end(out: &mut String) -> Result<(), AllocError>
    ensures { OnOk result (string_bytes out.new
        ≡ string_bytes out.old ++ codes "</testcase>\n") }
{
    out.push_str("</testcase>\n")
}

// Appends what a failure of this kind begins with.
fn push_failure_start(kind: &str, message: &str, out: &mut String) -> Result<(), AllocError>
    ensures { OnOk result (string_bytes out.new ≡ string_bytes out.old ++ codes "<failure"
        ++ attribute (codes "message") (xml message.now) ++ attribute (codes "type") (xml kind.now)
        ++ codes ">") }
{
    out.push_str("<failure")?;
    push_attribute("message", message, out)?;
    push_attribute("type", kind, out)?;
    out.push_str(">")
}

impl JunitSuite<'_> {
    /// Appends what the suite begins with.
    pub fn push_start(&self, out: &mut String) -> Result<(), AllocError>
        ensures { OnOk result (string_bytes out.new
            ≡ string_bytes out.old ++ suite_start self.now.file.now) }
    {
        out.push_str("<testsuite")?;
        push_attribute("name", self.file, out)?;
        out.push_str(">\n")
    }

    /// Appends the test case of a file without an error.
    pub fn push_passed(&self, out: &mut String) -> Result<(), AllocError>
        ensures { OnOk result (string_bytes out.new
            ≡ string_bytes out.old ++ file_case self.now.file.now []) }
    {
        self.push_case_start(out)?;
        push_case_end(out)
    }

    /// Appends the test case of a file that could not be checked, for this reason.
    pub fn push_fault(&self, message: &str, out: &mut String) -> Result<(), AllocError>
        ensures { OnOk result (string_bytes out.new ≡ string_bytes out.old
            ++ file_case self.now.file.now (error_element message.now)) }
    {
        self.push_case_start(out)?;
        push_error_element(message, out)?;
        push_case_end(out)
    }

    // Appends what the test case of the file begins with.
    fn push_case_start(&self, out: &mut String) -> Result<(), AllocError>
        ensures { OnOk result (string_bytes out.new ≡ string_bytes out.old
            ++ case_start (xml self.now.file.now) self.now.file.now) }
    {
        out.push_str("<testcase")?;
        push_attribute("name", self.file, out)?;
        push_attribute("classname", self.file, out)?;
        out.push_str(">")
    }

    // Appends where something is.
    fn push_place(&self, at: Position, out: &mut String) -> Result<(), AllocError>
        ensures { OnOk result (string_bytes out.new
            ≡ string_bytes out.old ++ place_in_xml self.now.file.now at) }
    {
        let (line, column) = (at.line, at.column);
        push_escaped(Syntax::Xml, self.file, out)?;
        write!(out, ":{line}:{column}")?;
        Ok(())
    }

    // Appends the name of the test case at a position.
    #[tactic(auto, unfolding(crate::specs::Junit::attribute))]
    fn push_place_name(&self, at: Position, out: &mut String) -> Result<(), AllocError>
        ensures { OnOk result (string_bytes out.new ≡ string_bytes out.old
            ++ attribute (codes "name") (place_in_xml self.now.file.now at)) }
    {
        out.push_str(" name=\"")?;
        self.push_place(at, out)?;
        out.push_str("\"")
    }

    // Appends what the test case at a position begins with.
    fn push_failed_start(&self, at: Position, out: &mut String) -> Result<(), AllocError>
        ensures { OnOk result (string_bytes out.new ≡ string_bytes out.old
            ++ case_start (place_in_xml self.now.file.now at) self.now.file.now) }
    {
        out.push_str("<testcase")?;
        self.push_place_name(at, out)?;
        push_attribute("classname", self.file, out)?;
        out.push_str(">")
    }

    // Appends that a value at a position fails.
    fn push_failure(
        &self,
        at: Position,
        kind: &str,
        message: &str,
        out: &mut String,
    ) -> Result<(), AllocError>
        ensures { OnOk result (string_bytes out.new ≡ string_bytes out.old
            ++ failure_element self.now.file.now at kind.now message.now) }
    {
        push_failure_start(kind, message, out)?;
        self.push_place(at, out)?;
        out.push_str(": ")?;
        push_escaped(Syntax::Xml, message, out)?;
        out.push_str("</failure>")
    }

    // Appends the test case that fails at a position.
    #[tactic(auto, unfolding(crate::specs::Junit::failed_case))]
    fn push_failed(
        &self,
        at: Position,
        kind: &str,
        message: &str,
        out: &mut String,
    ) -> Result<(), AllocError>
        ensures { OnOk result (string_bytes out.new ≡ string_bytes out.old
            ++ failed_case self.now.file.now at kind.now message.now) }
    {
        self.push_failed_start(at, out)?;
        self.push_failure(at, kind, message, out)?;
        push_case_end(out)
    }
}

impl ErrorForm for JunitSuite<'_> {
    ghost writes = { λ form. junit_form form.file.now };

    fn push(
        &self,
        alloc: Global,
        at: Position,
        error: &ValidationError,
        out: &mut String,
    ) -> Result<(), AllocError> {
        let text = error.text(alloc)?;
        let mut message = String::new(alloc);
        push_location(error.instance_path().as_str(), &mut message)?;
        push_cut(&text, &mut message)?;
        self.push_failed(at, error_kind_name(error), &message, out)
    }

    fn push_unread(
        &self,
        alloc: Global,
        at: Position,
        why: &str,
        out: &mut String,
    ) -> Result<(), AllocError> {
        let mut message = String::new(alloc);
        push_shown(why, &mut message)?;
        self.push_failed(at, "unread", &message, out)
    }
}
