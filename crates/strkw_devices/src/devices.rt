//! What bytes are read from, and what they are written to.

ghost use Rattle.std.specs.Prelude.{◌≡◌, ℕ, ◌<◌, ◌≤◌, List, Bool, Option, true, length, take, IfOk, OnOk, OnErr};
ghost use Rattle.std.specs.Io.KnownBytes.{Appends, ReadConsumes, WriteAppends};

/// A source or a sink has failed. A `read` or `write` that answers it moved none of the bytes that the device tells. A
/// `write_all` has moved the bytes that it took before the failure. A device that tells no bytes may have moved some:
/// so a `HostSink` whose writer took bytes that it could not flush.
#[derive(Clone, Copy, Debug, PartialEq, Eq)]
pub struct DeviceFailed;

/// What bytes are read from.
pub trait Source {
    /// The bytes that are left, where the source tells them.
    ghost bytes_left: { Self → Option (List ℕ) };

    /// Whether a read has failed.
    ghost has_failed: { Self → Bool };

    /// Moves bytes to the front of the buffer and answers their number: for a buffer with room, none only
    /// at the end. An `Err` moves none of the bytes that are told.
    fn read(&mut self, buffer: &mut [u8]) -> Result<usize, DeviceFailed>
        ensures count { IfOk result (λ count. count ≤ length buffer.new) }
        ensures moved { ReadConsumes (bytes_left self.old) (bytes_left self.new) result buffer.new }
        ensures ok { OnOk result (has_failed self.new ≡ has_failed self.old) }
        ensures err { OnErr result (has_failed self.new ≡ true) };

    /// Whether a read has failed.
    fn has_failed(&self) -> bool
        ensures { result ≡ has_failed self.now };
}

/// What bytes are written to.
pub trait Sink {
    /// The bytes that were taken, where the sink tells them.
    ghost bytes_taken: { Self → Option (List ℕ) };

    /// Whether a write has failed.
    ghost has_failed: { Self → Bool };

    /// Takes bytes from the front, at least one where there is one, and answers their number. An `Err`
    /// takes none, as far as the sink tells its bytes.
    fn write(&mut self, bytes: &[u8]) -> Result<usize, DeviceFailed>
        ensures count { IfOk result (λ count. count ≤ length bytes.now) }
        ensures some { IfOk result (λ count. 0 < length bytes.now → 0 < count) }
        ensures moved { WriteAppends (bytes_taken self.old) (bytes_taken self.new)
            result bytes.now }
        ensures ok { OnOk result (has_failed self.new ≡ has_failed self.old) }
        ensures err { OnErr result (has_failed self.new ≡ true) };

    /// Whether a write has failed.
    fn has_failed(&self) -> bool
        ensures { result ≡ has_failed self.now };

    /// Takes all the bytes, write by write. An `Err` comes where a write fails; the bytes taken before it are a front
    /// of them, less than all.
    final fn write_all(&mut self, bytes: &[u8]) -> Result<(), DeviceFailed>
        ensures ok { OnOk result (Appends (bytes_taken self.old) (bytes_taken self.new) bytes.now) }
        ensures short { OnErr result ((count : ℕ) × (count < length bytes.now)
            × Appends (bytes_taken self.old) (bytes_taken self.new) (take count bytes.now)) }
        ensures works { OnOk result (has_failed self.new ≡ has_failed self.old) }
        ensures failed { OnErr result (has_failed self.new ≡ true) }
    {
        let mut at = 0;
        while at < bytes.len() {
            at += self.write(&bytes[at..])?;
        }
        Ok(())
    }
}
