//! One schema object that a caller keeps, compiled once, and asked by more calls.

ghost use Rattle.std.specs.Prelude.{◌≡◌, ◌≢◌, ◌⊎◌, ◌↔◌, ◌≤◌, ℕ, List, Some, None, IsSome, length};
ghost use Rattle.std.specs.Str.{IsUtf8};
ghost use Rattle.serde_json.specs.Data.{Members};
ghost use Rattle.strkw_report.specs.Drafts.{draft_numbered};
ghost use Rattle.strkw_report.specs.Refusals.{Refusal};
ghost use Rattle.strkw_keywords.specs.Object.{Settings, FirstRefusal};
ghost use Rattle.strkw_c.specs.Buffers.{IsPut, IsTooLong};
ghost use Rattle.strkw_c.specs.Errors.{AreLines};
ghost use Rattle.strkw_c.specs.Kept.{IsKeptOf, Keeps, MayBeAsked};
ghost use Rattle.strkw_c.specs.Settings.{choices_of, settings_of};
ghost use Rattle.strkw_c.specs.Texts.{AreTexts, HaveRoom};
ghost use Rattle.strkw_c.specs.Verdicts.{IsSchema, HasFirstRefusal, IsValid, AreVerdicts};
ghost use Rattle.strkw_c.specs.declared.kept.Kept.{Kept};
ghost use Rattle.strkw_c.specs.declared.statuses.TheConstants.{DONE, NO_DRAFT, NO_OPTION, NO_ROOM, NO_SCHEMA, NO_TEXTS, NOT_UTF8, REFUSED};

use crate::buffers::put;
use crate::errors::LinesOf;
use crate::handle::Handle;
use crate::kept::Kept;
use crate::schemas::Failure;
use crate::settings::choices_of;
use crate::statuses::{
    DONE, NO_DRAFT, NO_OPTION, NO_ROOM, NO_SCHEMA, NO_TEXTS, NOT_UTF8, OUT_OF_MEMORY, REFUSED,
};
use crate::texts::{Ends, are_ends};
use crate::verdicts::VerdictsOn;
use std::alloc::Global;
use strkw_report::draft_numbered;

/// Compiles a schema object under a draft and options, as `strkw_nonnull_check` has them, and keeps it in a handle. One
/// of zeroed memory keeps nothing. `DONE`: the handle keeps the object, and what it kept before is freed.
///
/// The others are `NO_DRAFT`, `NO_OPTION`, `NO_SCHEMA`, `REFUSED`, and `OUT_OF_MEMORY` where neither the draft nor an
/// option is wrong. The handle is then as it was.
#[unsafe(no_mangle)]
pub extern "C" fn strkw_nonnull_schema_compile(
    alloc: Global,
    draft: u32,
    options: u32,
    schema: &[u8],
    handle: &mut Handle,
) -> u8
    ensures status { result ≤ NO_OPTION }
    ensures no_draft { (result ≡ NO_DRAFT) ↔ (draft_numbered draft ≡ None) }
    ensures no_option { (result ≡ NO_OPTION)
        ↔ (IsSome (draft_numbered draft) × (choices_of options ≡ None)) }
    ensures no_schema { result ≡ NO_SCHEMA → IsSchema schema.now None }
    ensures refused { result ≡ REFUSED → (s : Settings) × (why : Refusal)
        × (settings_of draft options ≡ Some s) × HasFirstRefusal s schema.now (Some why) }
    ensures done { result ≡ DONE → (s : Settings) × (object : Members)
        × (settings_of draft options ≡ Some s)
        × IsSchema schema.now (Some object) × FirstRefusal s object None
        × Keeps handle.new.place.kept_object s object }
    ensures kept { result ≢ DONE → handle.new.place.kept_object ≡ handle.old.place.kept_object }
{
    let Some(draft) = draft_numbered(u64::from(draft)) else {
        return NO_DRAFT;
    };
    let Some(choices) = choices_of(options) else {
        return NO_OPTION;
    };
    match Kept::of(alloc, draft, choices, schema) {
        Ok(kept) => {
            handle.put(alloc, kept);
            DONE
        }
        Err(Failure::Memory) => OUT_OF_MEMORY,
        Err(Failure::NoSchema) => NO_SCHEMA,
        Err(Failure::Refused(_)) => REFUSED,
    }
}

/// Checks many texts, as `strkw_nonnull_check` does, by the schema object that a handle keeps. `DONE`: `verdicts` has a
/// verdict on each text. After any other it is as it was.
///
/// The others, of which the first that holds is told: `NO_TEXTS`, an end is less than the one before it or past
/// `texts`, or there are more or fewer verdicts than ends; `NO_SCHEMA`, the handle keeps nothing. `OUT_OF_MEMORY` comes
/// where neither holds.
#[unsafe(no_mangle)]
pub extern "C" fn strkw_nonnull_schema_check(
    alloc: Global,
    handle: &mut Handle,
    texts: &[u8],
    ends: &[usize],
    verdicts: &mut [u8],
) -> u8
    requires { MayBeAsked handle.old.place.kept_object }
    ensures status { (result ≤ NO_TEXTS) ⊎ (result ≡ NO_SCHEMA) }
    ensures same { handle.new.place.kept_object ≡ handle.old.place.kept_object }
    ensures kept { result ≢ DONE → verdicts.new ≡ verdicts.old }
    ensures no_texts { (result ≡ NO_TEXTS)
        ↔ (HaveRoom texts.now ends.now (length verdicts.old) → ⊥) }
    ensures no_schema { (result ≡ NO_SCHEMA)
        ↔ (HaveRoom texts.now ends.now (length verdicts.old)
        × (handle.old.place.kept_object ≡ None)) }
    ensures done { result ≡ DONE → (s : Settings) (object : Members)
        → Keeps handle.old.place.kept_object s object → (list : List (List ℕ))
        × AreTexts texts.now ends.now list × AreVerdicts (IsValid s object) list verdicts.new }
{
    let ends = Ends::Wide(ends);
    if ends.len() != verdicts.len() || !are_ends(texts, 0, &ends) {
        return NO_TEXTS;
    }
    let Some(kept) = handle.take(alloc) else {
        return NO_SCHEMA;
    };
    let asked = VerdictsOn {
        texts,
        start: 0,
        ends: &ends,
    };
    let answer = kept.answer_to(alloc, &asked);
    handle.put(alloc, kept);
    match answer {
        Ok(made) => {
            verdicts.copy_from_slice(&made);
            DONE
        }
        Err(_) => OUT_OF_MEMORY,
    }
}

/// Writes the errors of one text by the schema object that a handle keeps, and then what the object notes of it, as
/// `strkw_nonnull_errors` does.
///
/// `DONE`: they are written. `NO_ROOM`: `out` is as it was, and `written` is the room that is needed. The others, after
/// which `out` and `written` are as they were: `NOT_UTF8`; `NO_SCHEMA`, the handle keeps nothing, and the text is
/// UTF-8; `OUT_OF_MEMORY`, where neither holds.
#[unsafe(no_mangle)]
pub extern "C" fn strkw_nonnull_schema_errors(
    alloc: Global,
    handle: &mut Handle,
    text: &[u8],
    out: &mut [u8],
    written: &mut usize,
) -> u8
    requires { MayBeAsked handle.old.place.kept_object }
    ensures status { (result ≤ NO_ROOM) ⊎ (result ≡ NO_SCHEMA) ⊎ (result ≡ NOT_UTF8) }
    ensures same { handle.new.place.kept_object ≡ handle.old.place.kept_object }
    ensures not_utf8 { (result ≡ NOT_UTF8) ↔ (IsUtf8 text.now → ⊥) }
    ensures no_schema { (result ≡ NO_SCHEMA)
        ↔ (IsUtf8 text.now × (handle.old.place.kept_object ≡ None)) }
    ensures done { result ≡ DONE → (lines : List ℕ)
        × ((s : Settings) (object : Members) → Keeps handle.old.place.kept_object s object
        → AreLines s object text.now lines)
        × IsPut lines out.old out.new written.new }
    ensures short { result ≡ NO_ROOM → (lines : List ℕ)
        × ((s : Settings) (object : Members) → Keeps handle.old.place.kept_object s object
        → AreLines s object text.now lines)
        × IsTooLong lines out.old out.new written.new }
    ensures kept { result ≢ DONE → result ≢ NO_ROOM
        → (out.new ≡ out.old) × (written.new ≡ written.old) }
{
    let Ok(text) = str::from_utf8(text) else {
        return NOT_UTF8;
    };
    let Some(kept) = handle.take(alloc) else {
        return NO_SCHEMA;
    };
    let answer = kept.answer_to(alloc, &LinesOf { text });
    handle.put(alloc, kept);
    match answer {
        Ok(lines) => {
            if put(&lines, out, written) {
                DONE
            } else {
                NO_ROOM
            }
        }
        Err(_) => OUT_OF_MEMORY,
    }
}

/// Frees the schema object that a handle keeps. The handle then keeps nothing.
#[unsafe(no_mangle)]
pub extern "C" fn strkw_nonnull_schema_free(alloc: Global, handle: &mut Handle)
    ensures { handle.new.place.kept_object ≡ None }
{
    drop(handle.take(alloc));
}
