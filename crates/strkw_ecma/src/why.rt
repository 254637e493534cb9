//! Why a pattern is not taken.

ghost use Rattle.std.specs.Prelude.{◌≡◌, ◌↔◌, ◌≤◌, IsTrue, Some, IfOk, IfSome, is_none, length};
ghost use Rattle.std.specs.Str.{chars};
ghost use Rattle.strkw_regex_reader.specs.Limits.{max_length};
ghost use Rattle.strkw_regex_reader.specs.machine.Taken.{takes_pattern};
ghost use Rattle.strkw_regex_reader.specs.Refusals.{IsTooLong, IsReason};

use crate::taking::read_passes;
use std::alloc::{AllocError, Global};
use strkw_regex_grammar::regex::is_valid_regex;
use strkw_regex_reader::reader::{MAX_LENGTH, refusal_of};
use strkw_regex_reader::refusals::PatternRefusal;
use strkw_regex_search::along::char_count;

// Whether it has no more characters than may be.
fn is_short(pattern: &str) -> bool
    ensures { IsTrue result ↔ (length (chars pattern.now) ≤ max_length) }
{
    char_count(pattern) as u64 <= MAX_LENGTH
}

/// Why `EcmaPatterns` does not take a pattern, and `None` exactly where it takes it. Where more than one reason could
/// be told, it is the length, else what stands first in the pattern, then that it is no pattern, then its size, and
/// last that a part is not taken. `IsReason` of `specs/Refusals.antt` says what each reason means over the text. The
/// only error is out of memory. A pattern that is not taken is read twice, and once more where no other reason is seen.
#[tactic(auto, using(crate::proofs::Taken::comes_some))]
pub fn why_refused(alloc: Global, pattern: &str) -> Result<Option<PatternRefusal>, AllocError>
    ensures taken { IfOk result (λ why. is_none why ≡ takes_pattern (chars pattern.now)) }
    ensures too_long { IfOk result (λ why.
        (why ≡ Some PatternRefusal.TooLong) ↔ IsTooLong (chars pattern.now)) }
    ensures reason { IfOk result (λ why. IfSome why (IsReason (chars pattern.now))) }
{
    if read_passes(alloc, pattern)?.is_some() {
        return Ok(None);
    }
    if !is_short(pattern) {
        return Ok(Some(PatternRefusal::TooLong));
    }
    if let Some(reason) = refusal_of(alloc, pattern)? {
        return Ok(Some(reason));
    }
    if is_valid_regex(alloc, pattern)? {
        Ok(Some(PatternRefusal::NotTaken))
    } else {
        Ok(Some(PatternRefusal::NotAPattern))
    }
}
