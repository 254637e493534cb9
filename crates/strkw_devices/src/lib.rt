//! Where bytes are read from, and where they are written to: sources and sinks that tell whether they have failed, and,
//! where they can, which bytes are left or were taken; over the host's readers and writers, and in memory.
#![tactic(auto)]

mod devices;
mod host_devices;
mod memory_devices;

pub use devices::{DeviceFailed, Sink, Source};
pub use host_devices::{HostSink, HostSource};
pub use memory_devices::{MemorySink, MemorySource};
