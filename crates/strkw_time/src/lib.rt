//! Dates, times, date-times and durations of RFC 3339, and the digits that they are read by.
//! Each predicate is true exactly where its grammar derives the characters of the text, and takes no memory.
//! The grammars stand in `specs/Time.antt` and `specs/Duration.antt`, laws about them in [`laws`].
#![tactic(auto)]

mod date;
mod date_time;
mod digits;
mod duration;
pub mod laws;
mod readers;
mod time;

pub use date::is_valid_date;
pub use date_time::is_valid_datetime;
pub use digits::{parse_four_digits, parse_two_digits};
pub use duration::is_valid_duration;
pub use time::is_valid_time;
