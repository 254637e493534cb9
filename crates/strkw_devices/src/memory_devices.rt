//! Devices in memory. They tell their bytes.

ghost use Rattle.std.specs.Prelude.{◌≡◌, ◌≤◌, Some, [], false, not, vec_len, drop};

use crate::devices::{DeviceFailed, Sink, Source};
use std::alloc::Global;

/// Bytes in memory to be read. It never fails.
#[derive(Drop)]
pub struct MemorySource {
    bytes: Vec<u8>,
    passed: usize,
    ghost passed_bound: { passed ≤ vec_len bytes },
}

impl MemorySource {
    /// A source that has these bytes left.
    pub fn new(bytes: Vec<u8>) -> Self
        ensures left { ⟦<MemorySource as Source>⟧.bytes_left result ≡ Some bytes.items }
        ensures failed { ⟦<MemorySource as Source>⟧.has_failed result ≡ false }
    {
        MemorySource { bytes, passed: 0 }
    }
}

impl Source for MemorySource {
    ghost bytes_left = { λ source. Some (drop source.passed source.bytes.items) };

    ghost has_failed = { λ _. false };

    fn read(&mut self, buffer: &mut [u8]) -> Result<usize, DeviceFailed> {
        let count = buffer.len().min(self.bytes.len() - self.passed);
        let end = self.passed + count;
        buffer[..count].copy_from_slice(&self.bytes[self.passed..end]);
        self.passed = end;
        Ok(count)
    }

    fn has_failed(&self) -> bool {
        false
    }
}

/// A growing vector that takes bytes. Out of memory is its failure.
#[derive(Drop)]
pub struct MemorySink {
    bytes: Vec<u8>,
    works: bool,
}

impl MemorySink {
    /// A sink that has taken nothing.
    pub fn new(alloc: Global) -> Self
        ensures taken { ⟦<MemorySink as Sink>⟧.bytes_taken result ≡ Some [] }
        ensures failed { ⟦<MemorySink as Sink>⟧.has_failed result ≡ false }
    {
        MemorySink {
            bytes: Vec::new(alloc),
            works: true,
        }
    }

    /// The bytes taken, in the order of the writes.
    pub fn bytes(&self) -> &[u8]
        ensures { ⟦<MemorySink as Sink>⟧.bytes_taken self.now ≡ Some result.now }
    {
        &self.bytes
    }
}

impl Sink for MemorySink {
    ghost bytes_taken = { λ sink. Some sink.bytes.items };

    ghost has_failed = { λ sink. not sink.works };

    fn write(&mut self, bytes: &[u8]) -> Result<usize, DeviceFailed> {
        match self.bytes.extend_from_slice(bytes) {
            Ok(()) => Ok(bytes.len()),
            Err(_) => {
                self.works = false;
                Err(DeviceFailed)
            }
        }
    }

    fn has_failed(&self) -> bool {
        !self.works
    }
}
