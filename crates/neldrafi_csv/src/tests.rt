//! What records are read. A test whose name ends in `_under_refusal` may also end as out of memory where an allocation
//! is refused.

use super::{Delimiter, ReadFault, RecordReader};
use std::alloc::{AllocError, Global};
use std::fmt::Write;
use std::io::{self, Cursor, Read};
use std::test::Fail;

// A source that gives one byte at a time.
#[derive(Drop)]
struct Drops {
    bytes: Cursor<Vec<u8>>,
}

impl Read for Drops {
    fn read(&mut self, buf: &mut [u8]) -> io::Result<usize> {
        if buf.is_empty() {
            return Ok(0);
        }
        self.bytes.read(&mut buf[..1])
    }
}

// The failure of a text that is not read.
fn failure_of(fault: ReadFault) -> Fail {
    match fault {
        ReadFault::Memory => Fail::from(AllocError),
        _ => Fail::new("a fault"),
    }
}

// Appends the value of a field behind `|`, or a question mark if it has a misplaced quote.
fn push_field(value: Option<&[u8]>, line: &mut String) -> Result<(), AllocError> {
    match value {
        Some(bytes) => match str::from_utf8(bytes) {
            Ok(text) => write!(line, "|{text}"),
            Err(_) => line.push_str("|not UTF-8"),
        },
        None => line.push_str("|?"),
    }
}

// A line for each record of a source: the line on which it begins, the number of its first field with a misplaced
// quote, and its fields between `|`; and a line for the fault that ends it.
fn read_all<R: Read + Drop>(alloc: Global, source: R) -> Result<String, Fail> {
    let mut reader = RecordReader::new(alloc, source, Delimiter::comma())?;
    let mut lines = String::new(alloc);
    for _ in 0..100 {
        let record = match reader.read() {
            Ok(Some(record)) => record,
            Ok(None) => return Ok(lines),
            Err(ReadFault::Memory) => return Err(failure_of(ReadFault::Memory)),
            Err(fault) => {
                write!(lines, "{fault}\n")?;
                return Ok(lines);
            }
        };
        write!(lines, "{}", record.line)?;
        if let Some(number) = record.misplaced {
            write!(lines, " misplaced in {number}")?;
        }
        for at in 0..reader.len() {
            push_field(reader.field(at), &mut lines)?;
        }
        lines.push('\n')?;
    }
    Ok(lines)
}

// Whether these are the records of a text, in one piece and byte by byte.
fn reads(alloc: Global, text: &'static [u8], lines: &'static str) -> Result<(), Fail> {
    let mut bytes = Vec::new(alloc);
    bytes.extend_from_slice(text)?;
    let mut more = Vec::new(alloc);
    more.extend_from_slice(text)?;
    let whole = read_all(alloc, Cursor::new(bytes))?;
    let slow = read_all(
        alloc,
        Drops {
            bytes: Cursor::new(more),
        },
    )?;
    if whole.as_str() == lines && slow.as_str() == lines {
        return Ok(());
    }
    Err(Fail::new(lines))
}

#[test]
fn records_under_refusal(rt: HostRuntime) -> Result<(), Fail> {
    let alloc = rt.alloc();
    reads(
        alloc,
        b"aaa,bbb,ccc\r\nzzz,yyy,xxx",
        "1|aaa|bbb|ccc\n2|zzz|yyy|xxx\n",
    )?;
    reads(
        alloc,
        b"\"aaa\",\"b \r\nbb\",\"ccc\"\r\nzzz,,\"\"\r\n",
        "1|aaa|b \r\nbb|ccc\n3|zzz||\n",
    )?;
    reads(
        alloc,
        b"\"aaa\",\"b\"\"bb\",\"\"\"\"\"\"\n",
        "1|aaa|b\"bb|\"\"\n",
    )
}

#[test]
fn line_ends_under_refusal(rt: HostRuntime) -> Result<(), Fail> {
    let alloc = rt.alloc();
    reads(alloc, b"", "")?;
    reads(alloc, b"\n\r\n", "")?;
    reads(
        alloc,
        b"\xEF\xBB\xBF\n\ra\rb\r\nc\n\n\nd,",
        "3|a\n4|b\n5|c\n8|d|\n",
    )?;
    reads(alloc, b"\xEF\xBB", "1|not UTF-8\n")
}

#[test]
fn misplaced_quotes_under_refusal(rt: HostRuntime) -> Result<(), Fail> {
    let alloc = rt.alloc();
    reads(
        alloc,
        b"12\" Main,b\n\"x\"y,z\nd,\"\"\"\",5\"\nf\n",
        "1 misplaced in 1|?|b\n2 misplaced in 1|?|z\n3 misplaced in 3|d|\"|?\n4|f\n",
    )?;
    reads(
        alloc,
        b"a,\"b\"\"c\" \"d,e\n f\"\"",
        "1 misplaced in 2|a|?|e\n2 misplaced in 1|?\n",
    )
}

#[test]
fn open_quotes_under_refusal(rt: HostRuntime) -> Result<(), Fail> {
    let alloc = rt.alloc();
    reads(
        alloc,
        b"a\n\"b\nc\",\"d\n\"\"",
        "1|a\n3: a quote that begins here is not closed\n",
    )
}

#[test]
fn delimiters(_rt: HostRuntime) -> Result<(), Fail> {
    let refused = b"\"\r\n\x80";
    for byte in refused {
        if Delimiter::new(*byte).is_some() {
            return Err(Fail::new("a delimiter"));
        }
    }
    match Delimiter::new(b'\t') {
        Some(delimiter) if delimiter.byte == b'\t' => Ok(()),
        _ => Err(Fail::new("tab")),
    }
}

// A source that cannot be read once, between two pieces of a record.
#[derive(Drop)]
struct Broken {
    reads: u8,
}

impl Read for Broken {
    fn read(&mut self, buf: &mut [u8]) -> io::Result<usize> {
        self.reads = self.reads.saturating_add(1);
        if buf.is_empty() {
            return Ok(0);
        }
        match self.reads {
            1 => {
                buf[0] = b'a';
                Ok(1)
            }
            2 => Err(io::Error::from(io::ErrorKind::BrokenPipe)),
            3 => {
                buf[0] = b'b';
                Ok(1)
            }
            _ => Ok(0),
        }
    }
}

#[test]
fn reads_go_on_behind_a_fault_under_refusal(rt: HostRuntime) -> Result<(), Fail> {
    let alloc = rt.alloc();
    let mut reader = RecordReader::new(alloc, Broken { reads: 0 }, Delimiter::comma())?;
    match reader.read() {
        Err(ReadFault::Read(_)) => {}
        Err(fault) => return Err(failure_of(fault)),
        Ok(_) => return Err(Fail::new("no fault")),
    }
    match reader.read() {
        Ok(Some(_)) if reader.field(0) == Some(b"ab") => Ok(()),
        Ok(_) => Err(Fail::new("ab")),
        Err(fault) => Err(failure_of(fault)),
    }
}
