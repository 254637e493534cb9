//! Whether a text is a pattern of ECMA-262, of the whole grammar in Unicode mode.

ghost use Rattle.std.specs.Prelude.{◌↔◌, IsTrue, IfOk};
ghost use Rattle.std.specs.Str.{chars};
ghost use Rattle.strkw_regex_grammar.specs.Regex.{IsRegex};

use crate::null_escape::is_apart;
use crate::recogniser::is_read;
use std::alloc::{AllocError, Global};

/// Whether a text is a pattern of ECMA-262 in Unicode mode: a tree of the grammar `Pattern` (ECMA-262 2024, section
/// 22.2.1) is spelled so, and it has none of the early errors of section 22.2.1.1. The flag `v` and Annex B are left
/// out. Nothing limits its length or the depth of its groups, and `EcmaPatterns` may still not take it: `why_refused`
/// tells why. The only error is out of memory.
#[tactic(auto, using(crate::proofs::RegexExact::not_apart, crate::proofs::RegexExact::apart))]
pub fn is_valid_regex(alloc: Global, text: &str) -> Result<bool, AllocError>
    ensures { IfOk result (λ valid. IsTrue valid ↔ IsRegex (chars text.now)) }
{
    if !is_apart(text) {
        return Ok(false);
    }
    is_read(alloc, text)
}
