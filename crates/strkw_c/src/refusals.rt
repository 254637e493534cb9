//! Why a schema object is refused.

ghost use Rattle.std.specs.Prelude.{◌≡◌, ◌≢◌, ◌⊎◌, ◌↔◌, ◌≤◌, ◌++◌, [], codes, ℕ, List, Some, None, IsSome, IfOk, false, string_bytes};
ghost use Rattle.strkw_report.specs.Refusals.{Refusal, prints_float, reason_of, refusal_of, regex};
ghost use Rattle.strkw_keywords.specs.Object.{Settings};
ghost use Rattle.strkw_report.specs.Drafts.{draft_numbered};
ghost use Rattle.strkw_c.specs.Buffers.{IsPut, IsTooLong};
ghost use Rattle.strkw_c.specs.Refusals.{reason_text, refusal_text};
ghost use Rattle.strkw_c.specs.Settings.{choices_of, settings_of};
ghost use Rattle.strkw_c.specs.Verdicts.{HasFirstRefusal, IsSchema};
ghost use Rattle.strkw_c.specs.declared.statuses.TheConstants.{DONE, NO_DRAFT, NO_OPTION, NO_ROOM, NO_SCHEMA, OUT_OF_MEMORY, REFUSED};

use crate::buffers::put;
use crate::questions::{Question, answer_to};
use crate::schemas::Failure;
use crate::settings::choices_of;
use crate::statuses::{DONE, NO_DRAFT, NO_OPTION, NO_ROOM, NO_SCHEMA, OUT_OF_MEMORY, REFUSED};
use serde_json::Value;
use std::alloc::{AllocError, Global};
use strkw_ecma::{EcmaMatcher, why_refused_leniently};
use strkw_keywords::Checks;
use strkw_object::StringKeywords;
use strkw_report::{CompileError, CompileErrorKind, draft_numbered};

/// Tells why a schema object is refused, under a draft and options as `strkw_nonnull_check` has them. `REFUSED`: it is
/// refused, and the text of its first refusal is at the head of `out`, with its count of bytes in `written`: the JSON
/// pointer of the keyword, a colon with a space, and the reason, as `/maxLength: the limit is ..`. The text is UTF-8;
/// the name of an unknown format stands in it as it is, with a zero byte or a line feed if it has one. `DONE`: it is
/// not refused, and `written` is 0.
///
/// `NO_ROOM`: it is refused, `out` has too little room for the text and is as it was, and `written` is the room that is
/// needed. The others, after which `out` and `written` are as they were, are `NO_DRAFT`, `NO_OPTION`, `NO_SCHEMA`, and
/// `OUT_OF_MEMORY` where neither the draft nor an option is wrong.
#[unsafe(no_mangle)]
pub extern "C" fn strkw_nonnull_refusal(
    alloc: Global,
    draft: u32,
    options: u32,
    schema: &[u8],
    out: &mut [u8],
    written: &mut usize,
) -> u8
    ensures status { result ≤ NO_OPTION }
    ensures no_draft { (result ≡ NO_DRAFT) ↔ (draft_numbered draft ≡ None) }
    ensures no_option { (result ≡ NO_OPTION)
        ↔ (IsSome (draft_numbered draft) × (choices_of options ≡ None)) }
    ensures no_schema { result ≡ NO_SCHEMA → IsSchema schema.now None }
    ensures taken { result ≡ DONE → (s : Settings) × (settings_of draft options ≡ Some s)
        × HasFirstRefusal s schema.now None × IsPut [] out.old out.new written.new }
    ensures told { result ≡ REFUSED → (s : Settings) × (why : Refusal) × (words : List ℕ)
        × (settings_of draft options ≡ Some s) × HasFirstRefusal s schema.now (Some why)
        × IsPut (refusal_text words why) out.old out.new written.new }
    ensures short { result ≡ NO_ROOM → (s : Settings) × (why : Refusal) × (words : List ℕ)
        × (settings_of draft options ≡ Some s) × HasFirstRefusal s schema.now (Some why)
        × IsTooLong (refusal_text words why) out.old out.new written.new }
    ensures kept { result ≢ DONE → result ≢ NO_ROOM → result ≢ REFUSED
        → (out.new ≡ out.old) × (written.new ≡ written.old) }
{
    let Some(draft) = draft_numbered(u64::from(draft)) else {
        return NO_DRAFT;
    };
    let Some(choices) = choices_of(options) else {
        return NO_OPTION;
    };
    match answer_to(alloc, draft, choices, schema, &NothingMore) {
        Ok(_) => {
            *written = 0;
            DONE
        }
        Err(Failure::Refused(refusal)) => tell(alloc, &refusal, out, written),
        Err(Failure::NoSchema) => NO_SCHEMA,
        Err(Failure::Memory) => OUT_OF_MEMORY,
    }
}

// What is asked: nothing but whether the object is refused.
#[derive(Clone, Copy)]
struct NothingMore;

impl Question for NothingMore {
    ghost use Rattle.std.specs.Prelude.{⊤};

    ghost can_be_asked = { λ _. ⊤ };

    ghost is_answered_by = { λ _ _ _ _. ⊤ };

    fn ask(
        &self,
        alloc: Global,
        _keywords: &StringKeywords<EcmaMatcher>,
        _checks: &Checks,
    ) -> Result<Vec<u8>, AllocError> {
        Ok(Vec::new(alloc))
    }
}

// Puts the text of a refusal.
fn tell(alloc: Global, refusal: &CompileError, out: &mut [u8], written: &mut usize) -> u8
    requires { prints_float (reason_of refusal.now.kind) ≡ false }
    ensures status { (result ≡ OUT_OF_MEMORY) ⊎ (result ≡ NO_ROOM) ⊎ (result ≡ REFUSED) }
    ensures told { result ≡ REFUSED → (words : List ℕ)
        × IsPut (refusal_text words (refusal_of refusal.now)) out.old out.new written.new }
    ensures short { result ≡ NO_ROOM → (words : List ℕ)
        × IsTooLong (refusal_text words (refusal_of refusal.now)) out.old out.new written.new }
    ensures kept { result ≡ OUT_OF_MEMORY → (out.new ≡ out.old) × (written.new ≡ written.old) }
{
    let Ok(text) = refusal_text(alloc, refusal) else {
        return OUT_OF_MEMORY;
    };
    if put(text.as_bytes(), out, written) {
        REFUSED
    } else {
        NO_ROOM
    }
}

// The text of a refusal: the place of the keyword, and the reason.
fn refusal_text(alloc: Global, refusal: &CompileError) -> Result<String, AllocError>
    requires { prints_float (reason_of refusal.now.kind) ≡ false }
    ensures { IfOk result (λ text. (words : List ℕ)
        × (string_bytes text ≡ refusal_text words (refusal_of refusal.now))) }
{
    let reason = reason_text(alloc, refusal)?;
    placed_text(alloc, refusal.location.as_str(), &reason)
}

// A place, and a reason.
fn placed_text(alloc: Global, place: &str, reason: &str) -> Result<String, AllocError>
    ensures { IfOk result (λ text. string_bytes text ≡ place.now ++ codes ": " ++ reason.now) }
{
    format!(in alloc; "{place}: {reason}")
}

// The reason of a refusal.
fn reason_text(alloc: Global, refusal: &CompileError) -> Result<String, AllocError>
    requires { prints_float (reason_of refusal.now.kind) ≡ false }
    ensures { IfOk result (λ text. (words : List ℕ)
        × (string_bytes text ≡ reason_text words (reason_of refusal.now.kind))) }
{
    let CompileErrorKind::Regex { pattern } = &refusal.kind else {
        return refusal.text(alloc);
    };
    let words = words_about(alloc, pattern)?;
    pattern_text(alloc, pattern, &words)
}

// The reason of a pattern that is refused, with the words that say why.
fn pattern_text(alloc: Global, pattern: &str, words: &str) -> Result<String, AllocError>
    ensures { IfOk result (λ text. string_bytes text ≡ reason_text words.now (regex pattern.now)) }
{
    let shown = Value::try_from_str(alloc, pattern)?.to_string(alloc)?;
    shown_text(alloc, &shown, words)
}

// The same of a pattern that is written as JSON.
fn shown_text(alloc: Global, shown: &str, words: &str) -> Result<String, AllocError>
    ensures { IfOk result (λ text. string_bytes text
        ≡ codes "the pattern " ++ shown.now ++ codes " is not taken: " ++ words.now) }
{
    let mut text = String::from_str(alloc, "the pattern ")?;
    text.push_str(shown)?;
    text.push_str(" is not taken: ")?;
    text.push_str(words)?;
    Ok(text)
}

// Why a pattern is not taken, in words.
fn words_about(alloc: Global, pattern: &str) -> Result<String, AllocError> {
    match why_refused_leniently(alloc, pattern)? {
        Some(why) => format!(in alloc; "{why}"),
        None => Ok(String::new(alloc)),
    }
}
