//! Files, checked by a JSON Schema: the errors of their values, each with its line and column, as text, as JSON, as
//! annotations of GitHub, in the XML of JUnit or as results of SARIF.
#![tactic(auto)]

mod counts;
mod cutting;
mod document;
mod escapes;
mod faults;
mod forms;
mod gathering;
mod github;
mod junit;
mod kinds;
mod lines;
mod objects;
mod origin;
mod sarif;
mod shown;
mod tables;
mod texts;
mod uris;
mod values;

pub use counts::Counts;
pub use document::check_document;
pub use faults::CheckFault;
pub use forms::{ErrorForm, JsonObjects, TextLines};
pub use github::{AnnotationLevel, GithubAnnotations, push_annotation};
pub use junit::{JunitSuite, SUITE_END, SUITES_END, SUITES_START};
pub use lines::{LineKind, check_lines};
pub use objects::{Datum, object, push_line, push_object};
pub use sarif::SarifResults;
pub use shown::{Shown, push_shown};
pub use tables::check_table;

#[cfg(test)]
mod tests;
