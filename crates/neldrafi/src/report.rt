//! What stands around the messages of files, in a form that is one document of all files.

use crate::commands::VERSION;
use crate::faults::Fault;
use crate::message_form::MessageForm;
use crate::options::Wanted;
use crate::output::{Output, write_text};
use neldrafi_check::{Counts, JunitSuite, SUITE_END, SUITES_END, SUITES_START};
use std::alloc::{AllocError, Global};

// What a document of SARIF ends with.
const RESULTS_END: &str = "]}]}\n";

// What a document of SARIF 2.1.0 begins with, up to its results.
fn results_start(alloc: Global) -> Result<String, AllocError> {
    format!(in alloc;
        "{{\"$schema\":\"https://json.schemastore.org/sarif-2.1.0.json\",\"version\":\"2.1.0\",\"runs\":[{{\"tool\":{{\"driver\":{{\"name\":\"neldrafi\",\"version\":\"{VERSION}\"}}}},\"columnKind\":\"unicodeCodePoints\",\"results\":[\n"
    )
}

// The end of the test suite of a file, by the result of its check.
fn suite_end(
    alloc: Global,
    suite: JunitSuite<'_>,
    checked: &Result<Counts, Fault>,
) -> Result<String, AllocError> {
    let mut text = String::new(alloc);
    match checked {
        Ok(Counts { errors: 0, .. }) => suite.push_passed(&mut text)?,
        Ok(_) | Err(Fault::Stopped(_)) => {}
        Err(fault) => {
            let message = format!(in alloc; "{fault}")?;
            suite.push_fault(&message, &mut text)?;
        }
    }
    text.push_str(SUITE_END)?;
    Ok(text)
}

/// The messages of all files. In a form that is one document, what stands around them is written too.
#[derive(Drop)]
pub(crate) struct Report<'a> {
    rt: &'a HostRuntime,
    wanted: Wanted,
    // The document has a message already.
    has_lines: bool,
}

impl<'a> Report<'a> {
    /// Writes the beginning of the document, before all files.
    pub(crate) fn begin(rt: &'a HostRuntime, wanted: Wanted) -> Result<Report<'a>, Fault> {
        let report = Report {
            rt,
            wanted,
            has_lines: false,
        };
        match wanted.form {
            MessageForm::Junit => report.write(SUITES_START)?,
            MessageForm::Sarif => report.write(&results_start(rt.alloc())?)?,
            MessageForm::Text | MessageForm::Json | MessageForm::Github => {}
        }
        Ok(report)
    }

    // Writes a part of the document, unless none is wanted.
    fn write(&self, text: &str) -> Result<(), Fault> {
        if self.wanted.is_quiet {
            return Ok(());
        }
        write_text(self.rt, text)
    }

    /// Writes the beginning of a file's messages, and returns where these are written to.
    pub(crate) fn begin_file(&self, name: &str) -> Result<Output<'a>, Fault> {
        if self.wanted.form == MessageForm::Junit {
            let mut text = String::new(self.rt.alloc());
            JunitSuite { file: name }.push_start(&mut text)?;
            self.write(&text)?;
        }
        Ok(Output::after(self.rt, self.wanted, self.has_lines))
    }

    /// Writes the end of the messages about a file, by the result of its check. After a fault that prevents the
    /// check of later files it writes nothing.
    pub(crate) fn end_file(
        &mut self,
        name: &str,
        output: &Output<'_>,
        checked: &Result<Counts, Fault>,
    ) -> Result<(), Fault> {
        self.has_lines = output.has_lines();
        let is_cut_off = match checked {
            Ok(_) => false,
            Err(fault) => fault.ends_all(),
        };
        if self.wanted.form == MessageForm::Junit && !is_cut_off {
            let suite = JunitSuite { file: name };
            return self.write(&suite_end(self.rt.alloc(), suite, checked)?);
        }
        Ok(())
    }

    /// Writes the end of the document, after all files.
    pub(crate) fn end(&self) -> Result<(), Fault> {
        match self.wanted.form {
            MessageForm::Junit => self.write(SUITES_END),
            MessageForm::Sarif => self.write(RESULTS_END),
            MessageForm::Text | MessageForm::Json | MessageForm::Github => Ok(()),
        }
    }
}
