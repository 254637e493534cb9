//! Errors as annotations of GitHub: workflow commands on standard output or standard error.

ghost use Rattle.std.specs.Prelude.{◌≡◌, ◌++◌, OnOk, codes, string_bytes};
ghost use Rattle.neldrafi_check.specs.declared.github.AnnotationLevel.TheVariants.{Error};
ghost use Rattle.neldrafi_check.specs.declared.escapes.Syntax.TheVariants.{CommandMessage};
ghost use Rattle.neldrafi_check.specs.Escapes.{escaped_text};
ghost use Rattle.neldrafi_check.specs.Github.{annotation_text, file_properties, file_property, github_form, level_name, position_properties};

use crate::cutting::push_cut;
use crate::escapes::{Syntax, push_escaped};
use crate::forms::{ErrorForm, push_location};
use crate::shown::push_shown;
use neldrafi_position::Position;
use neldrafi_schema::ValidationError;
use std::alloc::{AllocError, Global};
use std::fmt::Write;

/// How severe an annotation is.
#[derive(Clone, Copy, Debug, PartialEq, Eq)]
pub enum AnnotationLevel {
    /// An error.
    Error,
    /// A warning.
    Warning,
    /// A notice.
    Notice,
}

impl AnnotationLevel {
    // The name of its command.
    fn as_str(self) -> &'static str
        ensures { result.now ≡ level_name self }
    {
        match self {
            AnnotationLevel::Error => "error",
            AnnotationLevel::Warning => "warning",
            AnnotationLevel::Notice => "notice",
        }
    }

    // Appends what a command of it begins with.
    fn push(self, out: &mut String) -> Result<(), AllocError>
        ensures { OnOk result (string_bytes out.new
            ≡ string_bytes out.old ++ codes "::" ++ level_name self) }
    {
        out.push_str("::")?;
        out.push_str(self.as_str())
    }
}

// Appends the property that names a file.
fn push_file(file: &str, out: &mut String) -> Result<(), AllocError>
    ensures { OnOk result (string_bytes out.new
        ≡ string_bytes out.old ++ file_property file.now) }
{
    out.push_str(" file=")?;
    push_escaped(Syntax::CommandProperty, file, out)
}

// Appends the message of a command, with the end of the line.
fn push_message(message: &str, out: &mut String) -> Result<(), AllocError>
    ensures { OnOk result (string_bytes out.new
        ≡ string_bytes out.old ++ codes "::"
        ++ escaped_text CommandMessage message.now ++ codes "\n") }
{
    out.push_str("::")?;
    push_escaped(Syntax::CommandMessage, message, out)?;
    out.push_str("\n")
}

/// Appends an annotation of a file as a whole, or of none, on a line: `::LEVEL file=FILE::MESSAGE`, escaped. The only
/// error is out of memory; a beginning of it may then have been appended.
pub fn push_annotation(
    level: AnnotationLevel,
    file: Option<&str>,
    message: &str,
    out: &mut String,
) -> Result<(), AllocError>
    ensures { OnOk result (string_bytes out.new ≡ string_bytes out.old
        ++ annotation_text level (file_properties file.entry) message.now) }
{
    level.push(out)?;
    if let Some(file) = file {
        push_file(file, out)?;
    }
    push_message(message, out)
}

/// Annotations of GitHub, `::error file=FILE,line=LINE,col=COLUMN::LOCATION: TEXT`, one on a line. The message is that
/// of `TextLines`. The name of the file is a path from the top of the repository.
#[derive(Clone, Copy)]
pub struct GithubAnnotations<'a> {
    /// The name of the file.
    pub file: &'a str,
}

impl GithubAnnotations<'_> {
    // Appends the properties of a position.
    fn push_position(&self, at: Position, out: &mut String) -> Result<(), AllocError>
        ensures { OnOk result (string_bytes out.new
            ≡ string_bytes out.old ++ position_properties self.now.file.now at) }
    {
        let (line, column) = (at.line, at.column);
        push_file(self.file, out)?;
        write!(out, ",line={line},col={column}")?;
        Ok(())
    }

    // Appends an error at a position.
    fn push_error(&self, at: Position, message: &str, out: &mut String) -> Result<(), AllocError>
        ensures { OnOk result (string_bytes out.new ≡ string_bytes out.old
            ++ annotation_text Error (position_properties self.now.file.now at) message.now) }
    {
        AnnotationLevel::Error.push(out)?;
        self.push_position(at, out)?;
        push_message(message, out)
    }
}

impl ErrorForm for GithubAnnotations<'_> {
    ghost writes = { λ form. github_form form.file.now };

    fn push(
        &self,
        alloc: Global,
        at: Position,
        error: &ValidationError,
        out: &mut String,
    ) -> Result<(), AllocError> {
        let text = error.text(alloc)?;
        let mut message = String::new(alloc);
        push_location(error.instance_path().as_str(), &mut message)?;
        push_cut(&text, &mut message)?;
        self.push_error(at, &message, out)
    }

    fn push_unread(
        &self,
        alloc: Global,
        at: Position,
        why: &str,
        out: &mut String,
    ) -> Result<(), AllocError> {
        let mut message = String::new(alloc);
        push_shown(why, &mut message)?;
        self.push_error(at, &message, out)
    }
}
