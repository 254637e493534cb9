//! Rows with what is expected of them. A row is a line; below it stand the lines of its answer, each behind `> `. A
//! line that begins with `#` and an empty one are passed over.

use std::alloc::{AllocError, Global};
use std::io;

/// A row, and the lines that are expected below it, if any stand there.
#[derive(Drop)]
pub struct Question {
    row: String,
    expected: Option<String>,
}

impl Question {
    fn new(alloc: Global, row: &str) -> Result<Question, AllocError> {
        Ok(Question {
            row: String::from_str(alloc, row)?,
            expected: None,
        })
    }

    /// The row itself.
    pub fn row(&self) -> &str {
        &self.row
    }

    fn expect(&mut self, alloc: Global, line: &str) -> Result<(), AllocError> {
        match &mut self.expected {
            Some(lines) => write!(lines, "\n{line}"),
            None => {
                self.expected = Some(String::from_str(alloc, line)?);
                Ok(())
            }
        }
    }

    fn print(&self, rt: HostRuntime, answer: &str) -> io::Result<()> {
        println!(rt; "{}", self.row)?;
        if let Some(lines) = &self.expected {
            print_lines(rt, "expected", lines)?;
        }
        print_lines(rt, "got", answer)
    }
}

fn print_lines(rt: HostRuntime, head: &str, lines: &str) -> io::Result<()> {
    for line in lines.split('\n') {
        println!(rt; "{head}: {line}")?;
    }
    Ok(())
}

/// The rows of an input: the one that is being read, and how many were answered, and otherwise than is expected.
#[derive(Drop)]
pub struct Rows {
    question: Option<Question>,
    answered: u64,
    failed: u64,
}

impl Rows {
    /// Nothing is read yet.
    pub fn new() -> Rows {
        Rows {
            question: None,
            answered: 0,
            failed: 0,
        }
    }

    /// Reads a line. Where it begins a row, the one before it is whole.
    pub fn read(&mut self, alloc: Global, line: &str) -> Result<Option<Question>, AllocError> {
        if line.is_empty() || line.starts_with('#') {
            return Ok(None);
        }
        match (line.strip_prefix('>'), &mut self.question) {
            (Some(rest), Some(question)) => {
                question.expect(alloc, rest.strip_prefix(' ').unwrap_or(rest))?;
                Ok(None)
            }
            _ => Ok(self.question.replace(Question::new(alloc, line)?)),
        }
    }

    /// The last row, which is whole at the end of the input.
    pub fn last(&mut self) -> Option<Question> {
        self.question.take()
    }

    /// Counts an answer, and prints it where another is expected.
    pub fn compare(
        &mut self,
        rt: HostRuntime,
        question: &Question,
        answer: &str,
    ) -> io::Result<()> {
        self.answered = self.answered.wrapping_add(1);
        let answer = answer.strip_suffix('\n').unwrap_or(answer);
        if question.expected.as_deref() == Some(answer) {
            return Ok(());
        }
        self.failed = self.failed.wrapping_add(1);
        question.print(rt, answer)
    }

    /// Prints how many rows failed, and aside how many there are.
    pub fn print_counts(&self, rt: HostRuntime) -> io::Result<()> {
        println!(rt; "failed: {}", self.failed)?;
        eprintln!(rt; "{} rows", self.answered)
    }
}
