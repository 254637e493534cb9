//! Laws of the definitions. Each is a fact that a caller gains by the call; the calls do nothing.

ghost use Rattle.std.specs.Prelude.{◌↔◌, ◌≡◌, ℕ, List, None, Option, Some, [], false};
ghost use Rattle.serde_json.specs.Data.{Members};
ghost use Rattle.strkw_report.specs.Kinds.{Report};
ghost use Rattle.strkw_report.specs.Refusals.{Refusal, prints_float};
ghost use Rattle.strkw_report.specs.declared.error.Site.{Site};
ghost use Rattle.strkw_formats.specs.FormatLaws.{IsInside};
ghost use Rattle.strkw_keywords.specs.Demands.{IsInUse};
ghost use Rattle.strkw_keywords.specs.Errors.{NodeReports};
ghost use Rattle.strkw_keywords.specs.Folding.{AcceptAlike, FoldsToFalse, IsInInterval, RefusesTexts};
ghost use Rattle.strkw_keywords.specs.Lengths.{IsEmpty};
ghost use Rattle.strkw_keywords.specs.Meanings.{Lists};
ghost use Rattle.strkw_keywords.specs.Object.{Errors, FirstRefusal, Notes, Settings, remarks_on};
ghost use Rattle.strkw_keywords.specs.Remarks.{Remark};
ghost use Rattle.strkw_object.specs.Compiled.{IsCompiledFrom, keywords_assertions, keywords_demands, keywords_interval, keywords_remarks};
ghost use Rattle.strkw_object.specs.Printable.{ArePrintable};
ghost use Rattle.strkw_object.specs.declared.strings.StringKeywords.{StringKeywords};

use strkw_keywords::laws::{
    compiled_is_in_use, interval_is_what_demands_leave, lengths_outside_are_errors,
};
pub use strkw_keywords::laws::{
    entries_are_determined, entries_exist, errors_are_determined, errors_are_there,
    first_refusal_exists, first_refusal_is_determined, folded_objects_refuse_texts,
    no_text_has_no_errors, no_text_has_no_notes, notes_are_determined, notes_exist,
    other_objects_accept_some_text,
};
use strkw_pattern::RegexEngine;
use strkw_report::Node;

/// What a compiled object reports of an instance are the errors that its schema object means, entry by entry.
pub fn compiled_errors_are_those_of_the_object<E: RegexEngine>()
    ensures { (s : Settings) (ms : Members) (k : StringKeywords E) (lists : Lists) (site : Site)
        (instance : Option (List ℕ)) (rs : List Report)
        → IsCompiledFrom E.outcome s ms k
        → NodeReports (keywords_assertions E.outcome k) lists site instance rs
        ↔ Errors s ms lists site instance rs }
{}

/// The interval of a compiled object is that of its schema object: `folds_to_false` is true exactly where the schema
/// object folds to false.
pub fn compiled_interval_is_that_of_the_object<E: RegexEngine>()
    ensures lengths { (s : Settings) (ms : Members) (k : StringKeywords E) (n : ℕ)
        → IsCompiledFrom E.outcome s ms k
        → IsInside (keywords_interval E.outcome k) n ↔ IsInInterval s ms n }
    ensures empty { (s : Settings) (ms : Members) (k : StringKeywords E)
        → IsCompiledFrom E.outcome s ms k
        → IsEmpty (keywords_interval E.outcome k) ↔ FoldsToFalse s ms }
{
    interval_is_what_demands_leave();
}

/// Every node that is a text, of whatever type, has an error by a compiled object of which `folds_to_false` is true.
pub fn folded_texts_have_errors<E: RegexEngine, N: Node>()
    ensures { (k : StringKeywords E) (lists : Lists) (site : Site) (node : N) (text : List ℕ)
        → IsEmpty (keywords_interval E.outcome k) → N.text node ≡ Some text
        → NodeReports (keywords_assertions E.outcome k) lists site (N.text node) [] → ⊥ }
{
    lengths_outside_are_errors();
}

/// A schema object that folds to false may be replaced by any that refuses every text: both accept the same nodes.
pub fn folded_objects_may_be_replaced()
    ensures { (s t : Settings) (ms others : Members) → FoldsToFalse s ms → RefusesTexts t others
        → AcceptAlike s ms t others }
{
    folded_objects_refuse_texts();
}

/// What a compiled object notes of an instance are the notes that its schema object means, entry by entry.
pub fn compiled_notes_are_those_of_the_object<E: RegexEngine>()
    ensures { (s : Settings) (ms : Members) (k : StringKeywords E) (instance : Option (List ℕ))
        (remarks : List Remark)
        → IsCompiledFrom E.outcome s ms k
        → (remarks ≡ remarks_on instance (keywords_remarks k)) ↔ Notes s ms instance remarks }
{}

/// A compiled object may be used with the lists that it was compiled with.
pub fn lists_of_compile_are_in_use<E: RegexEngine>()
    ensures { (s : Settings) (ms : Members) (k : StringKeywords E) → IsCompiledFrom E.outcome s ms k
        → IsInUse (keywords_demands E.outcome k) s.lists }
{
    compiled_is_in_use();
}

/// A schema object that is compiled is not refused: its entries have no first refusal.
pub fn compiled_object_has_no_refusal<E: RegexEngine>()
    ensures { (s : Settings) (ms : Members) (k : StringKeywords E) (first : Option Refusal)
        → IsCompiledFrom E.outcome s ms k
        → FirstRefusal s ms first → first ≡ None }
{}

/// A first refusal prints no number but whole ones of 64 bits: `CompileError::text` gives its text.
pub fn refusals_have_texts()
    ensures { (s : Settings) (ms : Members) (why : Refusal) → FirstRefusal s ms (Some why)
        → prints_float why.reason ≡ false }
{}

/// The value of a note holds no number but whole ones of 64 bits, so that its compact JSON text is defined.
pub fn notes_have_texts()
    ensures { (s : Settings) (ms : Members) (instance : Option (List ℕ)) (remarks : List Remark)
        → Notes s ms instance remarks → ArePrintable remarks }
{}
