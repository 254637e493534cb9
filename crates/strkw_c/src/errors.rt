//! The errors of one text by a schema object, and what is noted of it.

ghost use Rattle.std.specs.Prelude.{◌≡◌, ◌≢◌, ◌⊎◌, ◌↔◌, ◌≤◌, ℕ, List, Some, None, IsSome};
ghost use Rattle.std.specs.Str.{IsUtf8};
ghost use Rattle.strkw_report.specs.Drafts.{draft_numbered};
ghost use Rattle.strkw_report.specs.Refusals.{Refusal};
ghost use Rattle.strkw_keywords.specs.Object.{Settings};
ghost use Rattle.strkw_c.specs.Buffers.{IsPut, IsTooLong};
ghost use Rattle.strkw_c.specs.Errors.{HasLines};
ghost use Rattle.strkw_c.specs.Settings.{choices_of, settings_of};
ghost use Rattle.strkw_c.specs.Verdicts.{IsSchema, HasFirstRefusal};
ghost use Rattle.strkw_c.specs.declared.statuses.TheConstants.{DONE, NO_DRAFT, NO_OPTION, NO_ROOM, NO_SCHEMA, NOT_UTF8, REFUSED};

use crate::buffers::put;
use crate::lines::lines_on;
use crate::questions::{Question, answer_to};
use crate::schemas::Failure;
use crate::settings::choices_of;
use crate::statuses::{
    DONE, NO_DRAFT, NO_OPTION, NO_ROOM, NO_SCHEMA, NOT_UTF8, OUT_OF_MEMORY, REFUSED,
};
use std::alloc::{AllocError, Global};
use strkw_ecma::EcmaMatcher;
use strkw_keywords::Checks;
use strkw_object::StringKeywords;
use strkw_object::laws::{
    compiled_errors_are_those_of_the_object, compiled_notes_are_those_of_the_object,
    notes_have_texts,
};
use strkw_report::draft_numbered;

/// Writes the errors of one text by a schema object, and then what the object notes of it, under a draft and options as
/// `strkw_nonnull_check` has them. `DONE`: at the head of `out` stands a line for each, and the count of bytes is in
/// `written`. A line of an error is as `error /format: "2023-02-29" is not a "date"`, with a space for each control
/// character. A line of a note is as `note /format: "date"`, with the value as compact JSON. Each ends with a line
/// feed. A text that is valid has no line of an error.
///
/// `NO_ROOM`: `out` is as it was, and `written` is the room that is needed. The others, after which both are as they
/// were, are `NO_DRAFT`, `NO_OPTION`, `NOT_UTF8`, `NO_SCHEMA`, `REFUSED`, and `OUT_OF_MEMORY` where neither the draft,
/// an option nor the text is wrong.
#[unsafe(no_mangle)]
pub extern "C" fn strkw_nonnull_errors(
    alloc: Global,
    draft: u32,
    options: u32,
    schema: &[u8],
    text: &[u8],
    out: &mut [u8],
    written: &mut usize,
) -> u8
    ensures status { (result ≤ NO_OPTION) ⊎ (result ≡ NOT_UTF8) }
    ensures no_draft { (result ≡ NO_DRAFT) ↔ (draft_numbered draft ≡ None) }
    ensures no_option { (result ≡ NO_OPTION)
        ↔ (IsSome (draft_numbered draft) × (choices_of options ≡ None)) }
    ensures not_utf8 { (result ≡ NOT_UTF8) ↔ (IsSome (draft_numbered draft)
        × IsSome (choices_of options) × (IsUtf8 text.now → ⊥)) }
    ensures no_schema { result ≡ NO_SCHEMA → IsSchema schema.now None }
    ensures refused { result ≡ REFUSED → (s : Settings) × (why : Refusal)
        × (settings_of draft options ≡ Some s) × HasFirstRefusal s schema.now (Some why) }
    ensures done { result ≡ DONE → (s : Settings) × (lines : List ℕ)
        × (settings_of draft options ≡ Some s) × HasLines s schema.now text.now lines
        × IsPut lines out.old out.new written.new }
    ensures short { result ≡ NO_ROOM → (s : Settings) × (lines : List ℕ)
        × (settings_of draft options ≡ Some s) × HasLines s schema.now text.now lines
        × IsTooLong lines out.old out.new written.new }
    ensures kept { result ≢ DONE → result ≢ NO_ROOM
        → (out.new ≡ out.old) × (written.new ≡ written.old) }
{
    let Some(draft) = draft_numbered(u64::from(draft)) else {
        return NO_DRAFT;
    };
    let Some(choices) = choices_of(options) else {
        return NO_OPTION;
    };
    let Ok(text) = str::from_utf8(text) else {
        return NOT_UTF8;
    };
    match answer_to(alloc, draft, choices, schema, &LinesOf { text }) {
        Ok(lines) => {
            if put(&lines, out, written) {
                DONE
            } else {
                NO_ROOM
            }
        }
        Err(Failure::Memory) => OUT_OF_MEMORY,
        Err(Failure::NoSchema) => NO_SCHEMA,
        Err(Failure::Refused(_)) => REFUSED,
    }
}

/// What is asked: the lines of a text.
#[derive(Clone, Copy)]
pub(crate) struct LinesOf<'a> {
    pub(crate) text: &'a str,
}

impl Question for LinesOf<'_> {
    ghost use Rattle.std.specs.Prelude.{⊤};
    ghost use Rattle.strkw_c.specs.Errors.{AreLines};

    ghost can_be_asked = { λ _. ⊤ };

    ghost is_answered_by = { λ asked s object made. AreLines s object asked.text.now made };

    fn ask(
        &self,
        alloc: Global,
        keywords: &StringKeywords<EcmaMatcher>,
        checks: &Checks,
    ) -> Result<Vec<u8>, AllocError> {
        compiled_errors_are_those_of_the_object::<EcmaMatcher>();
        compiled_notes_are_those_of_the_object::<EcmaMatcher>();
        notes_have_texts();
        lines_on(alloc, keywords, checks, self.text)
    }
}
