//! One schema object, asked of many texts.

ghost use Rattle.std.specs.Prelude.{◌≡◌, ◌≢◌, ◌↔◌, ◌≤◌, ℕ, List, Some, None, IsSome, IfOk, IfErr, length};
ghost use Rattle.serde_json.specs.Data.{Members};
ghost use Rattle.strkw_report.specs.Refusals.{Refusal};
ghost use Rattle.strkw_keywords.specs.Handed.{lists_of};
ghost use Rattle.strkw_keywords.specs.Demands.{IsInUse};
ghost use Rattle.strkw_keywords.specs.Object.{Settings, FirstRefusal};
ghost use Rattle.strkw_report.specs.Drafts.{draft_numbered};
ghost use Rattle.strkw_object.specs.Compiled.{keywords_demands};
ghost use Rattle.strkw_c.specs.Settings.{choices_of, settings_of};
ghost use Rattle.strkw_c.specs.Texts.{AreTexts, AreTextsFrom, HaveRoom, HaveRoomFrom, numbers};
ghost use Rattle.strkw_c.specs.Verdicts.{IsSchema, HasFirstRefusal, IsValid, Passes, IsVerdict, AreVerdicts};
ghost use Rattle.strkw_c.specs.declared.statuses.TheConstants.{DONE, NO_DRAFT, NO_OPTION, NO_SCHEMA, NO_TEXTS, REFUSED};

use crate::questions::{Question, answer_to};
use crate::schemas::Failure;
use crate::settings::choices_of;
use crate::statuses::{DONE, NO_DRAFT, NO_OPTION, NO_SCHEMA, NO_TEXTS, OUT_OF_MEMORY, REFUSED};
use crate::texts::{Ends, are_ends};
use crate::utf8::text_of;
use std::alloc::{AllocError, Global};
use strkw_ecma::EcmaMatcher;
use strkw_keywords::Checks;
use strkw_object::StringKeywords;
use strkw_object::laws::compiled_errors_are_those_of_the_object;
use strkw_pattern::RegexEngine;
use strkw_report::draft_numbered;

const INVALID: u8 = 0;

const VALID: u8 = 1;

const NOT_UTF8: u8 = 2;

/// Checks many texts by one schema object, compiled once, of a draft: 4, 6, 7, 201909 or 202012. By the options 0
/// formats are checked in every draft, and an unknown one is refused; bit 1 leaves it to the draft whether they are
/// checked, bit 2 lets unknown ones pass, and by bit 4 the companions of the draft are checked, `email`, `regex` and
/// from draft 7 on `idn-email` and `idn-hostname`. Patterns are those of ECMA-262 that `strkw_ecma` takes. The texts
/// stand one after the other at the head of `texts`, and `ends` has the end of each. `DONE`: `verdicts` has a verdict
/// on each text in its order, 1 where it is valid, 0 where it is not, 2 where its bytes are not UTF-8. After any other
/// status it is as it was.
///
/// The others, of which the first that holds is told: `NO_TEXTS`, an end is less than the one before it or past
/// `texts`, or there are more or fewer verdicts than ends; `NO_DRAFT`; `NO_OPTION`; `NO_SCHEMA`; `REFUSED`.
/// `OUT_OF_MEMORY` comes where none of the first three holds.
#[unsafe(no_mangle)]
pub extern "C" fn strkw_nonnull_check(
    alloc: Global,
    draft: u32,
    options: u32,
    schema: &[u8],
    texts: &[u8],
    ends: &[usize],
    verdicts: &mut [u8],
) -> u8
    ensures status { result ≤ NO_OPTION }
    ensures kept { result ≢ DONE → verdicts.new ≡ verdicts.old }
    ensures no_texts { (result ≡ NO_TEXTS)
        ↔ (HaveRoom texts.now ends.now (length verdicts.old) → ⊥) }
    ensures no_draft { (result ≡ NO_DRAFT) ↔ (HaveRoom texts.now ends.now (length verdicts.old)
        × (draft_numbered draft ≡ None)) }
    ensures no_option { (result ≡ NO_OPTION) ↔ (HaveRoom texts.now ends.now (length verdicts.old)
        × IsSome (draft_numbered draft) × (choices_of options ≡ None)) }
    ensures no_schema { result ≡ NO_SCHEMA → IsSchema schema.now None }
    ensures refused { result ≡ REFUSED → (s : Settings) × (why : Refusal)
        × (settings_of draft options ≡ Some s) × HasFirstRefusal s schema.now (Some why) }
    ensures done { result ≡ DONE → (s : Settings) × (object : Members) × (list : List (List ℕ))
        × (settings_of draft options ≡ Some s)
        × IsSchema schema.now (Some object) × FirstRefusal s object None
        × AreTexts texts.now ends.now list × AreVerdicts (IsValid s object) list verdicts.new }
{
    let ends = Ends::Wide(ends);
    check_from(alloc, draft, options, schema, texts, 0, &ends, verdicts)
}

/// The same of texts from a start on, with these ends.
pub(crate) fn check_from(
    alloc: Global,
    draft: u32,
    options: u32,
    schema: &[u8],
    texts: &[u8],
    start: usize,
    ends: &Ends,
    verdicts: &mut [u8],
) -> u8
    ensures status { result ≤ NO_OPTION }
    ensures kept { result ≢ DONE → verdicts.new ≡ verdicts.old }
    ensures no_texts { (result ≡ NO_TEXTS)
        ↔ (HaveRoomFrom start texts.now (numbers ends.now) (length verdicts.old) → ⊥) }
    ensures no_draft { (result ≡ NO_DRAFT)
        ↔ (HaveRoomFrom start texts.now (numbers ends.now) (length verdicts.old)
        × (draft_numbered draft ≡ None)) }
    ensures no_option { (result ≡ NO_OPTION)
        ↔ (HaveRoomFrom start texts.now (numbers ends.now) (length verdicts.old)
        × IsSome (draft_numbered draft) × (choices_of options ≡ None)) }
    ensures no_schema { result ≡ NO_SCHEMA → IsSchema schema.now None }
    ensures refused { result ≡ REFUSED → (s : Settings) × (why : Refusal)
        × (settings_of draft options ≡ Some s) × HasFirstRefusal s schema.now (Some why) }
    ensures done { result ≡ DONE → (s : Settings) × (object : Members) × (list : List (List ℕ))
        × (settings_of draft options ≡ Some s)
        × IsSchema schema.now (Some object) × FirstRefusal s object None
        × AreTextsFrom start texts.now (numbers ends.now) list
        × AreVerdicts (IsValid s object) list verdicts.new }
{
    if ends.len() != verdicts.len() || !are_ends(texts, start, ends) {
        return NO_TEXTS;
    }
    let Some(draft) = draft_numbered(u64::from(draft)) else {
        return NO_DRAFT;
    };
    let Some(choices) = choices_of(options) else {
        return NO_OPTION;
    };
    let asked = VerdictsOn { texts, start, ends };
    match answer_to(alloc, draft, choices, schema, &asked) {
        Ok(made) => {
            verdicts.copy_from_slice(&made);
            DONE
        }
        Err(Failure::Memory) => OUT_OF_MEMORY,
        Err(Failure::NoSchema) => NO_SCHEMA,
        Err(Failure::Refused(_)) => REFUSED,
    }
}

/// What is asked: a verdict on each of the texts from a start on that have these ends.
#[derive(Clone, Copy)]
pub(crate) struct VerdictsOn<'a> {
    pub(crate) texts: &'a [u8],
    pub(crate) start: usize,
    pub(crate) ends: &'a Ends<'a>,
}

impl Question for VerdictsOn<'_> {
    ghost use Rattle.strkw_c.specs.Texts.{AreTextsFrom, numbers};
    ghost use Rattle.strkw_c.specs.Verdicts.{AreVerdicts, IsValid};

    ghost can_be_asked = { λ asked. (list : List (List ℕ))
        × AreTextsFrom asked.start asked.texts.now (numbers asked.ends.now) list };

    ghost is_answered_by = { λ asked s object made. (length made ≡ length (numbers asked.ends.now))
        × ((list : List (List ℕ))
        × AreTextsFrom asked.start asked.texts.now (numbers asked.ends.now) list
        × AreVerdicts (IsValid s object) list made) };

    fn ask(
        &self,
        alloc: Global,
        keywords: &StringKeywords<EcmaMatcher>,
        checks: &Checks,
    ) -> Result<Vec<u8>, AllocError> {
        compiled_errors_are_those_of_the_object::<EcmaMatcher>();
        verdicts_on(alloc, keywords, checks, self.texts, self.start, self.ends)
    }
}

// The verdicts on texts by a compiled object.
fn verdicts_on<E: RegexEngine>(
    alloc: Global,
    keywords: &StringKeywords<E>,
    checks: &Checks,
    texts: &[u8],
    start: usize,
    ends: &Ends,
) -> Result<Vec<u8>, AllocError>
    requires in_use { IsInUse (keywords_demands E.outcome keywords.now)
        (lists_of admits accepts is_encoding decoding checks.now) }
    requires texts { (list : List (List ℕ))
        × AreTextsFrom start texts.now (numbers ends.now) list }
    ensures count { IfOk result (λ made. length made.items ≡ length (numbers ends.now)) }
    ensures verdicts { IfOk result (λ made. (list : List (List ℕ))
        × AreTextsFrom start texts.now (numbers ends.now) list
        × AreVerdicts (Passes E.outcome keywords.now
        (lists_of admits accepts is_encoding decoding checks.now)) list made.items) }
{
    let mut made = Vec::with_capacity(alloc, ends.len())?;
    let mut from = start;
    for place in 0..ends.len() {
        let end = ends.at(place);
        made.push(verdict_on(alloc, keywords, checks, &texts[from..end])?)?;
        from = end;
    }
    Ok(made)
}

// The verdict on one text.
fn verdict_on<E: RegexEngine>(
    alloc: Global,
    keywords: &StringKeywords<E>,
    checks: &Checks,
    text: &[u8],
) -> Result<u8, AllocError>
    requires { IsInUse (keywords_demands E.outcome keywords.now)
        (lists_of admits accepts is_encoding decoding checks.now) }
    ensures { IfOk result (λ verdict. IsVerdict (Passes E.outcome keywords.now
        (lists_of admits accepts is_encoding decoding checks.now)) text.now verdict) }
{
    let Some(text) = text_of(text) else {
        return Ok(NOT_UTF8);
    };
    if keywords.is_valid(alloc, &text, checks)? {
        Ok(VALID)
    } else {
        Ok(INVALID)
    }
}
