//! What is read: standard input or a file, whole or by lines.

use crate::encodings::{Encoding, MARK};
use crate::faults::{Fault, Reach};
use neldrafi_check::Shown;
use std::alloc::{AllocError, Global};
use std::fs::File;
use std::io::{BufRead, BufReader, Chain, Cursor, ErrorKind, Read, StdinLock};
use std::{fmt, io};

/// The name of standard input among files.
pub(crate) const STANDARD_INPUT: &str = "-";

// So many bytes are read at once where a file is read by lines.
const PIECE: usize = 65536;

/// Why a file that is open cannot be read to its end, or a line of it.
#[derive(Clone, Copy, Debug)]
pub(crate) enum InputFault {
    /// The file cannot be read.
    Unread(io::Error),
    /// The file is no text in UTF-8, as its first bytes tell.
    Encoded(Encoding),
    /// The line of this number is not UTF-8.
    NotUtf8(u64),
    /// There are more lines than a `u64` counts.
    TooLong,
}

impl fmt::Display for InputFault {
    fn fmt<W: fmt::Write>(&self, f: &mut fmt::Formatter<W>) -> fmt::Result {
        match self {
            InputFault::Unread(error) => write!(f, "read failed: {error}"),
            InputFault::Encoded(encoding) => write!(f, "{encoding}"),
            InputFault::NotUtf8(line) => write!(f, "{line}: the line is not UTF-8"),
            InputFault::TooLong => f.write_str("the file has too many lines"),
        }
    }
}

// Where the bytes of a file come from.
#[derive(Drop)]
enum Source {
    // Standard input.
    Standard(StdinLock<'static>),
    // A file.
    Named(File),
}

impl Source {
    // Opens the file of a path. `-` is standard input.
    fn open(rt: &HostRuntime, path: &str) -> Result<Source, Fault> {
        if path == STANDARD_INPUT {
            return Ok(Source::Standard(rt.reader()));
        }
        match File::open(rt, path) {
            Ok(file) => Ok(Source::Named(file)),
            Err(error) => {
                let path = Shown(path);
                let words = format!(in rt.alloc(); "`{path}` cannot be read: {error}");
                Err(Fault::with_words(Reach::NamedFile, words))
            }
        }
    }
}

impl Read for Source {
    fn read(&mut self, buffer: &mut [u8]) -> io::Result<usize> {
        match self {
            Source::Standard(reader) => reader.read(buffer),
            Source::Named(file) => file.read(buffer),
        }
    }
}

// The next byte of a source, or `None` at its end.
fn next_byte(source: &mut Source) -> io::Result<Option<u8>> {
    let mut byte = [0u8];
    match source.read(&mut byte)? {
        0 => Ok(None),
        _ => Ok(Some(byte[0])),
    }
}

/// Standard input, or a file that is open. Its first bytes were read, and come before the others.
#[derive(Drop)]
pub(crate) struct InputFile {
    bytes: Chain<Cursor<Vec<u8>>, Source>,
    // Why the first bytes were not read. It is told by the next read.
    failure: Option<io::Error>,
}

impl InputFile {
    /// Opens the file of a path. `-` is standard input. A file that is no text in UTF-8, as its first bytes tell, is a
    /// fault.
    pub(crate) fn open(rt: &HostRuntime, path: &str) -> Result<InputFile, Fault> {
        let file = InputFile::of_source(rt.alloc(), Source::open(rt, path)?)?;
        match Encoding::of(file.head()) {
            Some(encoding) => Err(Fault::Input(InputFault::Encoded(encoding))),
            None => Ok(file),
        }
    }

    // The file whose bytes come from a source. So many bytes are read as may tell what it is, so that none is waited
    // for that is not wanted.
    fn of_source(alloc: Global, mut source: Source) -> Result<InputFile, AllocError> {
        let mut head = Vec::new(alloc);
        let mut failure = None;
        for _ in 0..u64::MAX {
            if !Encoding::is_open(&head) {
                break;
            }
            match next_byte(&mut source) {
                Ok(Some(byte)) => head.push(byte)?,
                Ok(None) => break,
                Err(error) if error.kind() == ErrorKind::Interrupted => {}
                Err(error) => {
                    failure = Some(error);
                    break;
                }
            }
        }
        let bytes = Cursor::new(head).chain(source);
        Ok(InputFile { bytes, failure })
    }

    // The bytes that were read first.
    fn head(&self) -> &[u8] {
        self.bytes.get_ref().0.get_ref().as_slice()
    }

    /// Goes past a byte order mark in front, where nothing else was read yet.
    pub(crate) fn skip_mark(&mut self) {
        if self.head().starts_with(MARK) {
            self.bytes.get_mut().0.set_position(MARK.len() as u64);
        }
    }
}

impl Read for InputFile {
    fn read(&mut self, buffer: &mut [u8]) -> io::Result<usize> {
        match self.failure.take() {
            Some(error) => Err(error),
            None => self.bytes.read(buffer),
        }
    }
}

/// A line of a file, without its end.
#[derive(Clone, Copy)]
pub(crate) struct Line<'a> {
    /// Its number, from 1.
    pub number: u64,
    /// Its text.
    pub text: &'a str,
}

/// The lines of a file. LF ends a line, and so does CR LF. The last line needs no end.
#[derive(Drop)]
pub(crate) struct Lines {
    reader: BufReader<InputFile>,
    bytes: Vec<u8>,
    number: u64,
}

impl Lines {
    /// The lines of a file, from its first.
    pub(crate) fn new(alloc: Global, file: InputFile) -> Result<Lines, Fault> {
        match BufReader::with_capacity(alloc, PIECE, file) {
            Ok(reader) => Ok(Lines {
                reader,
                bytes: Vec::new(alloc),
                number: 0,
            }),
            Err(_) => Err(Fault::Memory),
        }
    }

    // Reads the next line, and says whether there is one.
    fn advance(&mut self) -> Result<bool, Fault> {
        self.bytes.clear();
        match self.reader.read_until(b'\n', &mut self.bytes) {
            Ok(0) => return Ok(false),
            Ok(_) => {}
            Err(e) if e.kind() == ErrorKind::OutOfMemory => return Err(Fault::Memory),
            Err(e) => return Err(Fault::Input(InputFault::Unread(e))),
        }
        self.number = self.number.checked_add(1).ok_or(InputFault::TooLong)?;
        Ok(true)
    }

    /// The next line, or `None` at the end of the file.
    pub(crate) fn next_line(&mut self) -> Result<Option<Line<'_>>, Fault> {
        if !self.advance()? {
            return Ok(None);
        }
        match str::from_utf8(without_end(&self.bytes)) {
            Ok(text) => Ok(Some(Line {
                number: self.number,
                text,
            })),
            Err(_) => Err(Fault::Input(InputFault::NotUtf8(self.number))),
        }
    }

    /// Whether the next line has to be waited for: the bytes that are at hand end none.
    pub(crate) fn is_drained(&self) -> bool {
        !self.reader.buffer().contains(&b'\n')
    }
}

// A line without its end.
fn without_end(line: &[u8]) -> &[u8] {
    match line.strip_suffix(b"\n") {
        Some(line) => line.strip_suffix(b"\r").unwrap_or(line),
        None => line,
    }
}
