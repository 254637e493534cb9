//! The reasons for which a pattern is not taken.

use crate::builder::{MAX_COUNT, MAX_NESTING};
use crate::reader::MAX_LENGTH;
use std::error::Error;
use std::fmt;
use strkw_regex_core::size::{MAX_STEPS, MAX_TERM_STEPS};

/// Why a pattern is not taken. The last two are told where no other reason is seen.
#[derive(Clone, Copy, Debug, PartialEq, Eq)]
pub enum PatternRefusal {
    /// `\` and one of `1` to `9`, or `\k`, stands where a term may.
    BackReference,
    /// `\` and this character, one of ``!"#%&',-:;<=>@_`~``, stands where a term may. Without the flag `u` it stands
    /// for the character itself (ECMA-262, 22.2.1 and B.1.2, IdentityEscape); in Unicode mode the character is written
    /// alone.
    IdentityEscape(char),
    /// `\p{ }` or `\P{ }` has a property that is not known here.
    Property,
    /// There are more than 2,000 characters.
    TooLong,
    /// A group, a look-behind or a look-ahead opens within 250 others.
    TooDeep,
    /// A count is above 5,000.
    CountTooGreat,
    /// A counted term takes more than 5,200 steps.
    TermTooLarge,
    /// The pattern as a whole takes more than 5,200 steps.
    TooLarge,
    /// It is no pattern of ECMA-262 in Unicode mode, as `is_valid_regex` tells.
    NotAPattern,
    /// It is a pattern of ECMA-262, of which a part is not taken here, as an escape of a surrogate alone.
    NotTaken,
}

// Whether what comes next is taken, or else why not, where a reason is told.
#[derive(Clone, Copy)]
pub enum Taken {
    Takes,
    Refuses(Option<PatternRefusal>),
}

/// In words that fit behind "the pattern is not taken: ", as `it has a back reference`.
impl fmt::Display for PatternRefusal {
    fn fmt<W: fmt::Write>(&self, f: &mut fmt::Formatter<W>) -> fmt::Result {
        match self {
            PatternRefusal::BackReference => f.write_str("it has a back reference"),
            PatternRefusal::IdentityEscape(c) => {
                write!(
                    f,
                    "\\{c} is valid only without the flag u: write {c} for it"
                )
            }
            PatternRefusal::Property => f.write_str("it has a property that is not known here"),
            PatternRefusal::TooLong => write!(f, "it has more than {MAX_LENGTH} characters"),
            PatternRefusal::TooDeep => write!(f, "its groups are more than {MAX_NESTING} deep"),
            PatternRefusal::CountTooGreat => write!(f, "it has a count above {MAX_COUNT}"),
            PatternRefusal::TermTooLarge => {
                write!(f, "a counted term takes more than {MAX_TERM_STEPS} steps")
            }
            PatternRefusal::TooLarge => write!(f, "it takes more than {MAX_STEPS} steps"),
            PatternRefusal::NotAPattern => f.write_str(
                "it is no pattern of ECMA-262 in Unicode mode",
            ),
            PatternRefusal::NotTaken => f.write_str(
                "it has a part of ECMA-262 that is not taken here",
            ),
        }
    }
}

impl Error for PatternRefusal {}
