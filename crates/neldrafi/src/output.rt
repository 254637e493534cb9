//! Standard output: messages, up to so many, and none where none are wanted.

use crate::colours::push_line;
use crate::faults::Fault;
use crate::message_form::MessageForm;
use crate::options::Wanted;
use std::alloc::{AllocError, Global};
use std::io;
use std::io::{ErrorKind, Write};

// So many bytes are gathered before they are written.
const GATHERED: usize = 65536;

// Why nothing more can be written.
#[derive(Clone, Copy)]
enum Failure {
    // Nobody reads it.
    Closed,
    // More lines than so many were to be written.
    Stopped(u64),
    // Out of memory.
    Memory,
    // The system says so.
    Refused,
}

impl Failure {
    // The failure of which an error tells.
    fn of(error: &io::Error) -> Failure {
        match error.kind() {
            ErrorKind::BrokenPipe => Failure::Closed,
            ErrorKind::OutOfMemory => Failure::Memory,
            _ => Failure::Refused,
        }
    }
}

/// Standard output, as the lines about one file go to it. After a failure it takes nothing more.
#[derive(Drop)]
pub(crate) struct Output<'a> {
    rt: &'a HostRuntime,
    wanted: Wanted,
    lines: u64,
    // A line came before, about this file or another.
    has_lines: bool,
    is_in_line: bool,
    failure: Option<Failure>,
}

impl<'a> Output<'a> {
    /// Of each line, what is wanted of it is written.
    pub(crate) fn new(rt: &'a HostRuntime, wanted: Wanted) -> Output<'a> {
        Output::after(rt, wanted, false)
    }

    /// The same, after lines about other files, if there were any.
    pub(crate) fn after(rt: &'a HostRuntime, wanted: Wanted, has_lines: bool) -> Output<'a> {
        Output {
            rt,
            wanted,
            lines: 0,
            has_lines,
            is_in_line: false,
            failure: None,
        }
    }

    /// Whether a line came, about this file or another.
    pub(crate) fn has_lines(&self) -> bool {
        self.has_lines
    }

    // Whether a line may begin. Counts it.
    fn may_begin(&mut self) -> bool {
        let Some(most) = self.wanted.most_messages else {
            return true;
        };
        match self.lines.checked_add(1) {
            Some(lines) if lines <= most => {
                self.lines = lines;
                true
            }
            _ => {
                self.failure = Some(Failure::Stopped(most));
                false
            }
        }
    }

    // Whether lines are the elements of an array.
    fn is_array(&self) -> bool {
        self.wanted.form == MessageForm::Sarif
    }

    // Appends the front of a line, or the whole line, in colours where these are wanted. In an array it is behind a
    // comma, unless it is the first.
    fn push_front(&mut self, line: &[u8], out: &mut Vec<u8>) -> Result<(), AllocError> {
        if self.wanted.is_coloured {
            return push_line(line, out);
        }
        if self.is_array() && self.has_lines {
            out.extend_from_slice(b",")?;
        }
        self.has_lines = true;
        out.extend_from_slice(line)
    }

    // Appends these bytes to those that are to be written. It ends before a line that may not begin.
    fn push_lines(&mut self, bytes: &[u8], out: &mut Vec<u8>) -> Result<(), AllocError> {
        for line in bytes.split_inclusive(|byte| *byte == b'\n') {
            if self.is_in_line {
                out.extend_from_slice(line)?;
            } else {
                if !self.may_begin() {
                    return Ok(());
                }
                self.push_front(line, out)?;
            }
            self.is_in_line = line.last() != Some(&b'\n');
        }
        Ok(())
    }

    // Writes bytes as they are, unless none are wanted.
    fn put(&self, bytes: &[u8]) -> io::Result<()> {
        if self.wanted.is_quiet {
            return Ok(());
        }
        self.rt.write_all(bytes)
    }

    // Whether lines are written as they are, and all of them.
    fn is_plain(&self) -> bool {
        self.wanted.most_messages.is_none() && !self.wanted.is_coloured && !self.is_array()
    }

    // Writes bytes, up to so many lines, and in colours where these are wanted.
    fn put_lines(&mut self, bytes: &[u8]) -> io::Result<()> {
        if self.is_plain() {
            return self.put(bytes);
        }
        let mut out = Vec::new(self.rt.alloc());
        self.push_lines(bytes, &mut out)?;
        self.put(&out)
    }
}

impl Write for Output<'_> {
    fn write(&mut self, bytes: &[u8]) -> io::Result<usize> {
        if self.failure.is_none() {
            if let Err(e) = self.put_lines(bytes) {
                self.failure = Some(Failure::of(&e));
            }
        }
        match self.failure {
            None => Ok(bytes.len()),
            Some(_) => Err(io::Error::other("nothing more is written")),
        }
    }

    fn flush(&mut self) -> io::Result<()> {
        Ok(())
    }
}

/// What lines are written to, and that knows why a write of it failed.
pub(crate) trait FaultyWrite: Write {
    /// The fault that tells why a write failed.
    fn fault(&self) -> Fault;
}

impl FaultyWrite for Output<'_> {
    fn fault(&self) -> Fault {
        match self.failure {
            Some(Failure::Closed) => Fault::Closed,
            Some(Failure::Stopped(most)) => Fault::Stopped(most),
            Some(Failure::Memory) => Fault::Memory,
            Some(Failure::Refused) | None => Fault::Write,
        }
    }
}

/// Writes a text to standard output. That nobody reads it is no fault.
pub(crate) fn write_text(rt: &HostRuntime, text: &str) -> Result<(), Fault> {
    let mut output = Output::new(rt, Wanted::all_lines());
    if output.write_all(text.as_bytes()).is_ok() {
        return Ok(());
    }
    match output.fault() {
        Fault::Closed => Ok(()),
        fault => Err(fault),
    }
}

/// Lines that are gathered, and written together.
#[derive(Drop)]
pub(crate) struct Gathered<'o, 'a> {
    output: &'o mut Output<'a>,
    /// The lines that are not yet written.
    pub text: String,
}

impl<'o, 'a> Gathered<'o, 'a> {
    /// No lines, to be written to this output.
    pub(crate) fn new(alloc: Global, output: &'o mut Output<'a>) -> Gathered<'o, 'a> {
        Gathered {
            output,
            text: String::new(alloc),
        }
    }

    /// Writes the lines, where they are many, or where the next one has to be waited for.
    pub(crate) fn write_some(&mut self, is_drained: bool) -> Result<(), Fault> {
        if is_drained || GATHERED <= self.text.len() {
            return self.write();
        }
        Ok(())
    }

    /// Writes the lines.
    pub(crate) fn write(&mut self) -> Result<(), Fault> {
        if self.output.write_all(self.text.as_bytes()).is_err() {
            return Err(self.output.fault());
        }
        self.text.clear();
        Ok(())
    }

    /// Writes what is left, and answers what the work came to. The lines before a fault of the work stay written.
    pub(crate) fn end<T: Copy>(&mut self, worked: Result<T, Fault>) -> Result<T, Fault> {
        if let Err(Fault::Closed | Fault::Stopped(_) | Fault::Write) = &worked {
            return worked;
        }
        self.write()?;
        worked
    }
}
