//! What each answer by a compiled schema object tells, whatever the text is.

ghost use Rattle.std.specs.Prelude.{◌++◌, ◌≡◌, ℕ, IfSome, List, OnErr, OnOk};
ghost use Rattle.strkw_cache.specs.Told.{CanAnswer, IsTold};

use super::terms::Compiled;
use std::alloc::{AllocError, Global};
use strkw_print::{push_notes, push_refusal};

/// Appends what each answer by what a schema object is compiled to tells behind the errors of a text: the lines of the
/// notes, and `end`. A refusal is the whole answer. Out of memory is no answer, and is passed on. What is told may be
/// at hand.
pub fn push_told(
    alloc: Global,
    compiled: &Compiled,
    told: Option<&[u8]>,
    out: &mut Vec<u8>,
) -> Result<(), AllocError>
    requires can_answer { CanAnswer compiled.now }
    requires is_told { IfSome told (λ bytes. IsTold compiled.now bytes.now) }
    ensures ok { OnOk result ((told : List ℕ) × (out.new.items ≡ out.old.items ++ told)
        × IsTold compiled.now told) }
    ensures err { OnErr result ((more : List ℕ) × (out.new.items ≡ out.old.items ++ more)) }
{
    match (told, compiled) {
        (Some(told), _) => out.extend_from_slice(told),
        (None, Ok(keywords)) => {
            push_notes(alloc, keywords, out)?;
            out.extend_from_slice(b"end\n")
        }
        (None, Err(refusal)) => {
            push_refusal(alloc, refusal, out)?;
            out.extend_from_slice(b"end\n")
        }
    }
}
