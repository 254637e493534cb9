//! The fault that ended the check of a file: how it is told, and what the check comes to.

use crate::faults::Fault;
use crate::options::Wanted;
use crate::outcome::Outcome;
use crate::telling::{Notice, Subject, tell};

// Tells why the check of a file ended early, and answers what that comes to.
fn tell_fault(rt: &HostRuntime, subject: Subject<'_>, wanted: Wanted, fault: &Fault) -> Outcome {
    match fault {
        Fault::Stopped(_) if wanted.is_quiet => Outcome::Errors,
        Fault::Stopped(_) => {
            tell(rt, wanted.form, subject, Notice::Stopped, fault);
            Outcome::Errors
        }
        _ => {
            let label = if fault.names_file() {
                ""
            } else {
                subject.label
            };
            let subject = Subject { label, ..subject };
            tell(rt, wanted.form, subject, Notice::Fault, fault);
            Outcome::Faults
        }
    }
}

/// Reports the fault that ended the check of a file, and returns its outcome, or `None` if standard output is closed.
/// The errors are the faults that also prevent the check of later files.
pub(crate) fn outcome_of_fault(
    rt: &HostRuntime,
    subject: Subject<'_>,
    wanted: Wanted,
    fault: Fault,
) -> Result<Option<Outcome>, Fault> {
    if fault.is_closed() {
        return Ok(None);
    }
    if fault.ends_all() {
        return Err(fault);
    }
    Ok(Some(tell_fault(rt, subject, wanted, &fault)))
}
