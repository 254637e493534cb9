//! Requests and their answers: `answer` answers one line of JSON, and `run` each line of any source of bytes to any
//! sink. What compiles a schema object and asks it of an instance stands in `strkw_object`, and is handed on.
#![tactic(auto)]

mod answering;
mod faults;
mod held;
pub mod laws;
mod request;
mod running;
mod unread;

pub use answering::answer;
pub use faults::{BoundedRunFault, RunFault};
pub use running::{run, run_bounded};
pub use strkw_devices::{
    DeviceFailed, HostSink, HostSource, MemorySink, MemorySource, Sink, Source,
};
pub use strkw_json::read_value;
pub use strkw_object::{Note, ObjectEvaluation, StringKeywords, compile_owned, compile_strings};
pub use strkw_report::{draft_in, draft_numbered};
