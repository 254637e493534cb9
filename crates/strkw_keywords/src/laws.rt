//! Laws over the definitions that the calls of this crate name. A function here does nothing, and its clauses are the
//! law.
ghost use Rattle.std.specs.Prelude.{◌≡◌, ℕ, List, None, Option, []};
ghost use Rattle.serde_json.specs.Data.{Members};
ghost use Rattle.strkw_report.specs.Kinds.{Report};
ghost use Rattle.strkw_report.specs.Refusals.{Refusal};
ghost use Rattle.strkw_report.specs.declared.error.Site.{Site};
ghost use Rattle.strkw_keywords.specs.FirstLaws.{FirstErrorIsHead};
ghost use Rattle.strkw_keywords.specs.Folding.{FoldedRefuseTexts, IntervalIsLeft, OthersAcceptSomeText};
ghost use Rattle.strkw_keywords.specs.Laws.{AssertionsReportInTurn, CompiledIsInUse, EngineFailuresAreErrors, ErrorsAreDetermined, ErrorsAreThere, FirstRowCounts, FusedLengthsReportBoth, OthersHaveNone, ReportsAreDetermined, ReportsAreThere};
ghost use Rattle.strkw_keywords.specs.Lengths.{CommonIsInBoth, EmptyByItsEnds, OutsideIsAnError};
ghost use Rattle.strkw_keywords.specs.Meanings.{Lists};
ghost use Rattle.strkw_keywords.specs.Object.{AreEntries, Errors, FirstRefusal, Keyed, Notes, Settings, keywords};
ghost use Rattle.strkw_keywords.specs.Remarks.{Remark};

use crate::keyword::Keyword;
use strkw_coding::laws::encodes_once;
pub use strkw_formats::laws::{
    builtin_format_of_name, examples_are_of_their_formats, formats_compared_as_listed,
    formats_equal_by_variant, formats_hashed_by_place, formats_ordered_as_listed,
    texts_are_inside_their_windows, variants_are_listed, window_texts_are_at_the_ends,
};

/// `Keyword::VARIANTS` has each keyword once, in the order of entries.
pub fn keywords_are_listed()
    ensures { Keyword.VARIANTS.now ≡ keywords }
{}

/// A length is inside what two windows have in common exactly where it is inside each.
pub fn common_windows_are_in_both()
    ensures { CommonIsInBoth }
{}

/// A window is empty exactly where its upper end is closed, below the lower one: an open end bounds nothing.
pub fn windows_are_empty_by_their_ends()
    ensures { EmptyByItsEnds }
{}

/// A text whose length is outside the interval of some assertions has an error by them.
pub fn lengths_outside_are_errors()
    ensures { OutsideIsAnError }
{
    texts_are_inside_their_windows();
}

/// The interval of a schema object, which is said of `minLength`, `maxLength` and `format`, is what the demands of its
/// entries leave.
pub fn interval_is_what_demands_leave()
    ensures { IntervalIsLeft }
{}

/// Every text has an error by a schema object that folds to false.
pub fn folded_objects_refuse_texts()
    ensures { FoldedRefuseTexts }
{
    lengths_outside_are_errors();
}

/// A schema object that does not fold to false accepts some text, where only lengths can make errors: where there is no
/// checked format, no pattern and no content check.
pub fn other_objects_accept_some_text()
    ensures { OthersAcceptSomeText }
{}

/// The errors of several assertions are those of the first, and then those of the others.
pub fn assertions_report_in_turn()
    ensures { AssertionsReportInTurn }
{}

/// Both limits of a length at once report what each reports alone, `minLength` first.
pub fn fused_lengths_report_both()
    ensures { FusedLengthsReportBoth }
{}

/// An instance that is no text has no errors and no annotation.
pub fn others_have_none()
    ensures { OthersHaveNone }
{}

/// An engine that fails on a text, or gives up, makes it invalid: there is one error of its own kind, at `pattern`.
pub fn engine_failures_are_errors()
    ensures { EngineFailuresAreErrors }
{}

/// A node has at most one list of errors by some assertions.
pub fn reports_are_determined()
    ensures { ReportsAreDetermined }
{
    encodes_once();
}

/// It cannot be that a node has no list of errors by some assertions; so with `reports_are_determined` it has exactly
/// one.
pub fn reports_are_there()
    ensures { ReportsAreThere }
{}

/// The error that `validate` answers is the first of those that `collect_errors` appends.
pub fn first_error_is_the_head()
    ensures { FirstErrorIsHead }
{
    encodes_once();
}

/// A schema object has a list of entries.
pub fn entries_exist()
    ensures { (s : Settings) (ms : Members) → (es : List Keyed) × AreEntries s ms es }
{}

/// A schema object has at most one list of entries.
pub fn entries_are_determined()
    ensures { (s : Settings) (ms : Members) (a b : List Keyed) → AreEntries s ms a
        → AreEntries s ms b → a ≡ b }
{}

/// A schema object has a first refusal, or it is settled that it has none.
pub fn first_refusal_exists()
    ensures { (s : Settings) (ms : Members) → (first : Option Refusal) × FirstRefusal s ms first }
{}

/// What the first refusal of a schema object is, or that it has none, has at most one answer.
pub fn first_refusal_is_determined()
    ensures { (s : Settings) (ms : Members) (a b : Option Refusal) → FirstRefusal s ms a
        → FirstRefusal s ms b → a ≡ b }
{}

/// An instance has a list of notes by a schema object.
pub fn notes_exist()
    ensures { (s : Settings) (ms : Members) (instance : Option (List ℕ)) → (remarks : List Remark)
        × Notes s ms instance remarks }
{}

/// An instance has at most one list of notes by a schema object.
pub fn notes_are_determined()
    ensures { (s : Settings) (ms : Members) (instance : Option (List ℕ)) (a b : List Remark)
        → Notes s ms instance a → Notes s ms instance b → a ≡ b }
{}

/// An instance has at most one list of errors by a schema object.
pub fn errors_are_determined()
    ensures { ErrorsAreDetermined }
{
    encodes_once();
}

/// It cannot be that an instance has no list of errors by a schema object; so it has exactly one.
pub fn errors_are_there()
    ensures { ErrorsAreThere }
{}

/// An instance that is no text has no errors.
pub fn no_text_has_no_errors()
    ensures { (s : Settings) (ms : Members) (lists : Lists) (site : Site) (rs : List Report)
        → Errors s ms lists site None rs → rs ≡ [] }
{}

/// An instance that is no text has no notes.
pub fn no_text_has_no_notes()
    ensures { (s : Settings) (ms : Members) (remarks : List Remark) → Notes s ms None remarks
        → remarks ≡ [] }
{}

/// What is compiled with some lists of checks is in use with them.
pub fn compiled_is_in_use()
    ensures { CompiledIsInUse }
{}

/// The row that counts is the first of its name.
pub fn first_row_counts()
    ensures { FirstRowCounts }
{}
