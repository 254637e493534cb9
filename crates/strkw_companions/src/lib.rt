//! Formats of other standards, as checks that a caller registers: `email`, `regex`, `idn-email` and
//! `idn-hostname`. The definitions of what they admit are those of `strkw_mail`, `strkw_regex_grammar` and `strkw_label`.
#![tactic(auto)]

mod companion;
pub mod laws;

pub use companion::{Companion, companions_of};
