//! The engine of patterns that are written for regular expressions without the flag `u`.

ghost use Rattle.std.specs.Prelude.{◌≡◌, ◌≢◌, ◌↔◌, ℕ, Some, IfOk, IfSome, is_none};
ghost use Rattle.std.specs.Str.{chars};
ghost use Rattle.strkw_regex_reader.specs.Refusals.{IsTooLong, IsReason};
ghost use Rattle.strkw_ecma.specs.Lenient.{strict_form as spec_strict_form};
ghost use Rattle.strkw_ecma.specs.machine.Lenient.{takes_leniently, lenient_outcome};

use crate::engine::{EcmaMatcher, EcmaPatterns};
use crate::strict_form::strict_form;
use crate::why::why_refused;
use std::alloc::{AllocError, Global};
use strkw_pattern::{BuildRefusal, EngineBuilder};
use strkw_regex_reader::refusals::PatternRefusal;

/// Builds engines of patterns as `EcmaPatterns` does, and of patterns that need not be of Unicode mode: a backslash may
/// also stand before a character of ASCII that is no letter and no digit, and gives that character, as it does without
/// the flag `u` (`IdentityEscape`, ECMA-262 2024, section B.1.2). So `\-`, `\_`, `\@`, `\"`, `\#` and a backslash
/// before a space are taken, in classes and outside. In a class `\-` is no sign of a range.
///
/// Everything else is that of Unicode mode: what is taken and found is what `EcmaPatterns` takes and finds of the
/// pattern's strict form (`strict_form` of `specs/Lenient.antt`), which has `\x` and two digits in place of each such
/// escape. A pattern that `EcmaPatterns` takes is its own strict form (`strict_patterns_stay`). The limits are those of
/// the strict form, whose escapes are two characters longer.
#[derive(Clone, Copy)]
pub struct LenientPatterns;

impl EcmaPatterns {
    /// The builder that also takes the escapes of regular expressions without the flag `u`.
    pub fn lenient() -> LenientPatterns {
        LenientPatterns
    }
}

impl EngineBuilder for LenientPatterns {
    type Engine = EcmaMatcher;

    ghost takes = { λ _ source. takes_leniently source };

    ghost outcome = { λ _ source. lenient_outcome source };

    /// The engine of a pattern, `BuildRefusal::Pattern` exactly if the text is not taken, and `BuildRefusal::Memory` if
    /// it is out of memory.
    fn build(&self, alloc: Global, pattern: &str) -> Result<EcmaMatcher, BuildRefusal> {
        match strict_form(alloc, pattern) {
            Ok(form) => EcmaPatterns.build(alloc, &form),
            Err(AllocError) => Err(BuildRefusal::Memory),
        }
    }
}

/// Why `LenientPatterns` does not take a pattern, and `None` exactly if it takes it: the reason that `why_refused`
/// tells of the strict form. It is never `PatternRefusal::IdentityEscape`. The only error is out of memory.
pub fn why_refused_leniently(
    alloc: Global,
    pattern: &str,
) -> Result<Option<PatternRefusal>, AllocError>
    ensures taken { IfOk result (λ why. is_none why ≡ takes_leniently (chars pattern.now)) }
    ensures too_long { IfOk result (λ why. (why ≡ Some PatternRefusal.TooLong)
        ↔ IsTooLong (spec_strict_form (chars pattern.now))) }
    ensures reason { IfOk result (λ why.
        IfSome why (IsReason (spec_strict_form (chars pattern.now)))) }
    ensures no_escape { IfOk result (λ why. (c : ℕ)
        → why ≢ Some (PatternRefusal.IdentityEscape c)) }
{
    let form = strict_form(alloc, pattern)?;
    why_refused(alloc, &form)
}
