//! Devices of the host. They tell none of their bytes.

ghost use Rattle.std.specs.Prelude.{◌≡◌, ◌<◌, ◌≤◌, None, IfSome, IfOk, OnOk, OnErr, true, false, not, length, take};
ghost use Rattle.std.specs.Io.KnownBytes.{Appends, ReadConsumes, WriteAppends};
ghost use Rattle.strkw_devices.specs.HostDevices.{reader_of, writer_of, AppendsSome};

use crate::devices::{DeviceFailed, Sink, Source};
use std::io::{Read, Write};

/// A reader of the host. It tells none of its bytes. Any error of the reader is a failure, an interrupted read too, and
/// the reader is not asked again.
#[derive(Drop)]
pub struct HostSource<R: Read> {
    reader: R,
    reader_works: bool,
}

impl<R: Read> HostSource<R> {
    /// A source over a reader, which it keeps. It has not failed.
    pub fn new(reader: R) -> Self
        ensures reader { reader_of result ≡ reader }
        ensures works { ⟦<HostSource<R> as Source>⟧.has_failed result ≡ false }
    {
        HostSource {
            reader,
            reader_works: true,
        }
    }
}

impl<R: Read> Source for HostSource<R> {
    ghost bytes_left = { λ _. None };

    ghost has_failed = { λ source. not source.reader_works };

    fn read(&mut self, buffer: &mut [u8]) -> Result<usize, DeviceFailed>
        ensures count { IfOk result (λ count. count ≤ length buffer.new) }
        ensures moved { ReadConsumes None None result buffer.new }
        ensures ok { OnOk result (⟦<HostSource<R> as Source>⟧.has_failed self.new
            ≡ ⟦<HostSource<R> as Source>⟧.has_failed self.old) }
        ensures err { OnErr result (⟦<HostSource<R> as Source>⟧.has_failed self.new ≡ true) }
        // Where the reader tells its bytes, they are the ones that were read.
        ensures reader { ReadConsumes (R.remaining (reader_of self.old))
            (R.remaining (reader_of self.new)) result buffer.new }
    {
        match self.reader.read(buffer) {
            Ok(count) => Ok(count),
            Err(_) => {
                self.reader_works = false;
                Err(DeviceFailed)
            }
        }
    }

    fn has_failed(&self) -> bool {
        !self.reader_works
    }
}

/// A writer of the host, flushed after each write. It tells none of its bytes. A failure is an error of the writer, an
/// interrupted write too, a write that takes none of some bytes, or a flush that fails; neither is tried again. A write
/// that fails has appended no byte to the writer, or, where the flush failed, those that the writer took before it.
#[derive(Drop)]
pub struct HostSink<W: Write> {
    writer: W,
    writer_works: bool,
}

impl<W: Write> HostSink<W> {
    /// A sink over a writer, which it keeps. It has not failed.
    pub fn new(writer: W) -> Self
        ensures writer { writer_of result ≡ writer }
        ensures works { ⟦<HostSink<W> as Sink>⟧.has_failed result ≡ false }
    {
        HostSink {
            writer,
            writer_works: true,
        }
    }

    // Writes and flushes. A write that takes no byte of some is refused.
    fn write_through(&mut self, bytes: &[u8]) -> Option<usize>
        ensures count { IfSome result (λ count. count ≤ length bytes.now) }
        ensures some { IfSome result (λ count. 0 < length bytes.now → 0 < count) }
        ensures works { self.new.writer_works ≡ self.old.writer_works }
        ensures writer { IfSome result (λ count. Appends (W.contents (writer_of self.old))
            (W.contents (writer_of self.new)) (take count bytes.now)) }
        ensures begun { result ≡ None → AppendsSome (W.contents (writer_of self.old))
            (W.contents (writer_of self.new)) bytes.now }
    {
        let count = self.writer.write(bytes).ok()?;
        if count == 0 && !bytes.is_empty() {
            return None;
        }
        self.writer.flush().ok()?;
        Some(count)
    }
}

impl<W: Write> Sink for HostSink<W> {
    ghost bytes_taken = { λ _. None };

    ghost has_failed = { λ sink. not sink.writer_works };

    fn write(&mut self, bytes: &[u8]) -> Result<usize, DeviceFailed>
        ensures count { IfOk result (λ count. count ≤ length bytes.now) }
        ensures some { IfOk result (λ count. 0 < length bytes.now → 0 < count) }
        ensures moved { WriteAppends None None result bytes.now }
        ensures ok { OnOk result (⟦<HostSink<W> as Sink>⟧.has_failed self.new
            ≡ ⟦<HostSink<W> as Sink>⟧.has_failed self.old) }
        ensures err { OnErr result (⟦<HostSink<W> as Sink>⟧.has_failed self.new ≡ true) }
        // Where the writer tells its bytes, the ones taken were appended.
        ensures writer { IfOk result (λ count. Appends (W.contents (writer_of self.old))
            (W.contents (writer_of self.new)) (take count bytes.now)) }
        // A failure leaves no byte behind but those of a beginning, which a failed flush may have kept back.
        ensures begun { OnErr result (AppendsSome (W.contents (writer_of self.old))
            (W.contents (writer_of self.new)) bytes.now) }
    {
        let count = self.write_through(bytes);
        match count {
            Some(count) => Ok(count),
            None => {
                self.writer_works = false;
                Err(DeviceFailed)
            }
        }
    }

    fn has_failed(&self) -> bool {
        !self.writer_works
    }
}
