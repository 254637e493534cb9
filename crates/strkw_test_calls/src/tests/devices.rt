//! Sources that fail at a read, sinks that fail in an answer, and the devices of a host.

ghost use Rattle.std.specs.Prelude.{◌≡◌, ◌<◌, ◌≤◌, Some, length, vec_len, drop, false, IfOk};

use std::alloc::{AllocError, Global};
use std::io;
use std::io::{ErrorKind, Read, Write};
use std::test::Fail;
use strkw_cli::{
    BoundedRunFault, DeviceFailed, HostSink, HostSource, MemorySink, MemorySource, RunFault, Sink,
    Source, run, run_bounded,
};

/// Five requests, the last without a line feed.
pub(super) fn script() -> &'static [u8] {
    b"{\"draft\":7,\"schema\":{\"minLength\":5,\"maxLength\":3},\"instance\":\"abcd\"}\n{\"draft\":5}\n{\"draft\":7,\"schema\":{\"format\":\"date\"},\"instance\":\"2020-02-30\"}\n{\"draft\":7,\"schema\":{\"minLength\":2.0},\"instance\":1}\n{\"draft\":202012,\"schema\":{\"format\":\"date\"},\"instance\":\"x\"}"
}

/// Their answers.
pub(super) fn answers() -> &'static [u8] {
    b"error /minLength: \"abcd\" is shorter than 5 characters\nerror /maxLength: \"abcd\" is longer than 3 characters\nend\nbad request\nend\nerror /format: \"2020-02-30\" is not a \"date\"\nnote /format: \"date\"\nend\nrefused /minLength: the limit is not a non-negative whole number of 64 bits\nend\nvalid\nnote /format: \"date\"\nend\n"
}

/// How many bytes of the answers stand before each answer, and how many there are.
pub(super) fn ends() -> [usize; 6] {
    [0, 111, 127, 196, 276, 307]
}

// The length of the first line, with its line feed.
fn line_len(bytes: &[u8]) -> usize
    ensures within { result ≤ length bytes.now }
    ensures some { 0 < length bytes.now → 0 < result }
{
    match bytes.iter().position(|byte| *byte == b'\n') {
        Some(offset) => offset + 1,
        None => bytes.len(),
    }
}

// A source that hands out one line a read, fails after so many reads, and notes the least room that it was asked to
// fill.
#[derive(Drop)]
struct LineByLine {
    bytes: Vec<u8>,
    passed: usize,
    reads: usize,
    least: usize,
    failed: bool,
    ghost passed_bound: { passed ≤ vec_len bytes },
}

impl Source for LineByLine {
    ghost bytes_left = { λ source. Some (drop source.passed source.bytes.items) };

    ghost has_failed = { λ source. source.failed };

    fn read(&mut self, buffer: &mut [u8]) -> Result<usize, DeviceFailed> {
        self.least = self.least.min(buffer.len());
        if self.reads == 0 {
            self.failed = true;
            return Err(DeviceFailed);
        }
        self.reads -= 1;
        let line = line_len(&self.bytes[self.passed..]);
        let count = buffer.len().min(line);
        let end = self.passed + count;
        buffer[..count].copy_from_slice(&self.bytes[self.passed..end]);
        self.passed = end;
        Ok(count)
    }

    fn has_failed(&self) -> bool {
        self.failed
    }
}

impl LineByLine {
    // The script, and a failure behind so many reads.
    fn of_script(alloc: Global, reads: usize) -> Result<LineByLine, AllocError>
        ensures { IfOk result (λ source. source.failed ≡ false) }
    {
        Ok(LineByLine {
            bytes: script().to_vec(alloc)?,
            passed: 0,
            reads,
            least: usize::MAX,
            failed: false,
        })
    }
}

// Whether a run over a source that fails behind so many reads answers the lines that it has read, and fails there. The
// sixth read finds the end. Each read is for 16 KiB at least.
fn ends_at_the_read(alloc: Global, reads: usize) -> Result<bool, AllocError> {
    let mut source = LineByLine::of_script(alloc, reads)?;
    let mut sink = MemorySink::new(alloc);
    let ended = run(alloc, &mut source, &mut sink);
    let (wanted, end) = if reads > 5 {
        (Ok(()), ends()[5])
    } else {
        (Err(RunFault::Read), ends()[reads.min(4)])
    };
    Ok(
        ended == wanted
            && Some(sink.bytes()) == answers().get(..end)
            && source.has_failed() == (reads <= 5)
            && source.least >= 16384,
    )
}

// The source fails at its k-th read, for each k: the lines whose line feed was read are answered, and an
// unfinished line is not.
#[test]
fn a_read_fails(rt: HostRuntime) -> Result<(), Fail> {
    for reads in 0..8usize {
        assert!(rt; ends_at_the_read(rt.alloc(), reads)?, "{reads}");
    }
    Ok(())
}

// The lengths of the requests, without their line feeds.
const LENGTHS: [usize; 5] = [68, 11, 62, 51, 58];

// Whether a run whose lines have a bound ends with this fault or none, and has written this.
fn ends_so(
    alloc: Global,
    longest: usize,
    lines: Vec<u8>,
    fault: Option<BoundedRunFault>,
    written: &[u8],
) -> bool {
    let mut source = MemorySource::new(lines);
    let mut sink = MemorySink::new(alloc);
    let ended = run_bounded(alloc, longest, &mut source, &mut sink);
    ended.err() == fault && sink.bytes() == written
}

// Whether a run whose lines have this bound answers the lines before the first that is longer, and ends there.
fn ends_at_the_long_line(alloc: Global, longest: usize) -> Result<bool, AllocError> {
    let (fault, end) = match LENGTHS.iter().position(|length| *length > longest) {
        Some(line) => (Some(BoundedRunFault::LongLine(longest)), ends()[line]),
        None => (None, ends()[5]),
    };
    let Some(written) = answers().get(..end) else {
        return Ok(false);
    };
    Ok(ends_so(alloc, longest, script().to_vec(alloc)?, fault, written))
}

#[test]
fn lines_have_a_bound(rt: HostRuntime) -> Result<(), Fail> {
    for longest in 0..70usize {
        assert!(rt; ends_at_the_long_line(rt.alloc(), longest)?, "{longest}");
    }
    Ok(())
}

// A bound of lines, whether a line is longer, and what is written then.
struct Bound {
    longest: usize,
    is_passed: bool,
    written: &'static [u8],
}

// The second line of `ends_at_the_long_piece` has 150,000 bytes.
const BOUNDS: &[Bound] = &[
    Bound {
        longest: 150_000,
        is_passed: false,
        written: b"bad request\nend\nbad request\nend\n",
    },
    Bound {
        longest: 149_999,
        is_passed: true,
        written: b"bad request\nend\n",
    },
];

// Whether a run with this bound ends so, over an empty line and a line of three pieces of the input.
fn ends_at_the_long_piece(alloc: Global, row: &Bound) -> Result<bool, AllocError> {
    let mut lines = vec![in alloc; b' '; 150_001]?;
    lines[0] = b'\n';
    let fault = BoundedRunFault::LongLine(row.longest);
    let wanted = row.is_passed.then_some(fault);
    Ok(ends_so(alloc, row.longest, lines, wanted, row.written))
}

#[test]
fn a_line_of_several_pieces_has_a_bound(rt: HostRuntime) -> Result<(), Fail> {
    for row in BOUNDS {
        if !ends_at_the_long_piece(rt.alloc(), row)? {
            return Err(Fail::new(row.longest));
        }
    }
    Ok(())
}

// Whether a failing source ends a run with a bound too.
fn ends_at_the_read_within_a_bound(alloc: Global) -> Result<bool, AllocError> {
    let mut source = LineByLine::of_script(alloc, 2)?;
    let mut sink = MemorySink::new(alloc);
    let ended = run_bounded(alloc, 68, &mut source, &mut sink);
    Ok(
        ended == Err(BoundedRunFault::Run(RunFault::Read))
            && Some(sink.bytes()) == answers().get(..ends()[2]),
    )
}

#[test]
fn a_read_of_a_bounded_run_fails(rt: HostRuntime) -> Result<(), Fail> {
    if ends_at_the_read_within_a_bound(rt.alloc())? {
        Ok(())
    } else {
        Err(Fail::new("another ending"))
    }
}

// A sink that takes at most seven bytes a write, and fails once it has taken so many.
#[derive(Drop)]
struct ShortSink {
    bytes: Vec<u8>,
    room: usize,
    failed: bool,
}

impl Sink for ShortSink {
    ghost bytes_taken = { λ sink. Some sink.bytes.items };

    ghost has_failed = { λ sink. sink.failed };

    fn write(&mut self, bytes: &[u8]) -> Result<usize, DeviceFailed> {
        let count = bytes.len().min(7).min(self.room);
        if count == 0 && !bytes.is_empty() {
            self.failed = true;
            return Err(DeviceFailed);
        }
        match self.bytes.extend_from_slice(&bytes[..count]) {
            Ok(()) => {
                self.room -= count;
                Ok(count)
            }
            Err(_) => {
                self.failed = true;
                Err(DeviceFailed)
            }
        }
    }

    fn has_failed(&self) -> bool {
        self.failed
    }
}

// Whether a run over a sink with so much room fills it, and fails there where it has not room for all.
fn ends_at_the_write(alloc: Global, room: usize) -> Result<bool, AllocError> {
    let mut source = MemorySource::new(script().to_vec(alloc)?);
    let mut sink = ShortSink {
        bytes: Vec::new(alloc),
        room,
        failed: false,
    };
    let ended = run(alloc, &mut source, &mut sink);
    let wanted = if room < 307 {
        Err(RunFault::Write)
    } else {
        Ok(())
    };
    Ok(ended == wanted && Some(sink.bytes.as_slice()) == answers().get(..room))
}

// The sink fails at each byte of each answer: the answers before are whole, and a beginning of that one follows.
#[test]
fn a_write_fails(rt: HostRuntime) -> Result<(), Fail> {
    for room in 0..308usize {
        assert!(rt; ends_at_the_write(rt.alloc(), room)?, "{room}");
    }
    Ok(())
}

// A reader of a host that hands out one line a read. One of its reads fails, once: the next one would work.
#[derive(Drop)]
struct FailsOnceReader {
    rest: &'static [u8],
    reads: usize,
    fails_at: usize,
    kind: ErrorKind,
}

impl Read for FailsOnceReader {
    fn read(&mut self, buf: &mut [u8]) -> io::Result<usize> {
        let number = self.reads;
        self.reads = number.wrapping_add(1);
        if number == self.fails_at {
            return Err(self.kind.into());
        }
        let count = buf.len().min(line_len(self.rest));
        buf[..count].copy_from_slice(&self.rest[..count]);
        self.rest = &self.rest[count..];
        Ok(count)
    }
}

// Whether a run over a reader of a host whose read fails once answers the lines before, fails there, and reads no more.
fn ends_at_the_read_of_a_host(alloc: Global, kind: ErrorKind, fails_at: usize) -> bool {
    let mut reader = FailsOnceReader {
        rest: script(),
        reads: 0,
        fails_at,
        kind,
    };
    let mut source = HostSource::new(&mut reader);
    let mut sink = MemorySink::new(alloc);
    let ended = run(alloc, &mut source, &mut sink);
    let has_failed = source.has_failed();
    let (wanted, end) = if fails_at > 5 {
        (Ok(()), ends()[5])
    } else {
        (Err(RunFault::Read), ends()[fails_at.min(4)])
    };
    ended == wanted
        && has_failed == (fails_at <= 5)
        && reader.reads == fails_at.min(5) + 1
        && Some(sink.bytes()) == answers().get(..end)
}

// The first error of a reader ends the run, an interrupted read too: it is not asked again. The sixth read finds the
// end.
#[test]
fn a_read_of_a_host_fails_once(rt: HostRuntime) {
    for kind in [ErrorKind::Interrupted, ErrorKind::Other] {
        for fails_at in 0..8usize {
            assert!(rt;
                ends_at_the_read_of_a_host(rt.alloc(), kind, fails_at),
                "{fails_at}"
            );
        }
    }
}

// What goes wrong with a writer.
#[derive(Clone, Copy)]
enum Trouble {
    Write(ErrorKind),
    TakesNothing,
    Flush(ErrorKind),
}

// A writer of a host that takes seven bytes a write. One of its writes or flushes goes wrong, once.
#[derive(Drop)]
struct FailsOnceWriter {
    taken: Vec<u8>,
    writes: usize,
    flushes: usize,
    fails_at: usize,
    trouble: Trouble,
}

impl Write for FailsOnceWriter {
    fn write(&mut self, buf: &[u8]) -> io::Result<usize> {
        let number = self.writes;
        self.writes = number.wrapping_add(1);
        match self.trouble {
            Trouble::Write(kind) if number == self.fails_at => return Err(kind.into()),
            Trouble::TakesNothing if number == self.fails_at => return Ok(0),
            _ => {}
        }
        let count = buf.len().min(7);
        match self.taken.extend_from_slice(&buf[..count]) {
            Ok(()) => Ok(count),
            Err(_) => Err(ErrorKind::OutOfMemory.into()),
        }
    }

    fn flush(&mut self) -> io::Result<()> {
        let number = self.flushes;
        self.flushes = number.wrapping_add(1);
        match self.trouble {
            Trouble::Flush(kind) if number == self.fails_at => Err(kind.into()),
            _ => Ok(()),
        }
    }
}

// The writes of seven bytes: 40 for the answers to the ended lines, and 5 for the last.
const WRITES: usize = 45;

// Whether a run over a writer of a host, one of whose writes or flushes goes wrong, ends there.
fn ends_at_the_write_of_a_host(
    alloc: Global,
    trouble: Trouble,
    fails_at: usize,
) -> Result<bool, AllocError> {
    let mut source = MemorySource::new(script().to_vec(alloc)?);
    let mut writer = FailsOnceWriter {
        taken: Vec::new(alloc),
        writes: 0,
        flushes: 0,
        fails_at,
        trouble,
    };
    let mut sink = HostSink::new(&mut writer);
    let ended = run(alloc, &mut source, &mut sink);
    let is_told = sink.has_failed() == (fails_at < WRITES);
    Ok(is_told && is_written_so(ended, &writer))
}

// Whether a run that ended so wrote what comes before the trouble of its writer, and no more, or wrote all.
fn is_written_so(ended: Result<(), RunFault>, writer: &FailsOnceWriter) -> bool {
    let (taken, fails_at) = (writer.taken.as_slice(), writer.fails_at);
    if fails_at < WRITES {
        let flushes = fails_at + usize::from(matches!(writer.trouble, Trouble::Flush(_)));
        ended == Err(RunFault::Write)
            && answers().starts_with(taken)
            && writer.writes == fails_at + 1
            && writer.flushes == flushes
    } else {
        ended == Ok(()) && taken == answers() && writer.writes == WRITES && writer.flushes == WRITES
    }
}

// The first write or flush that goes wrong ends the run, an interrupted one too: neither is tried again. Each write is
// flushed. What a write took whose flush failed stays taken.
#[test]
fn a_write_of_a_host_fails_once(rt: HostRuntime) -> Result<(), Fail> {
    for trouble in [
        Trouble::Write(ErrorKind::Interrupted),
        Trouble::Write(ErrorKind::Other),
        Trouble::TakesNothing,
        Trouble::Flush(ErrorKind::Interrupted),
        Trouble::Flush(ErrorKind::Other),
    ] {
        for fails_at in 0..WRITES + 2 {
            assert!(rt;
                ends_at_the_write_of_a_host(rt.alloc(), trouble, fails_at)?,
                "{fails_at}"
            );
        }
    }
    Ok(())
}
