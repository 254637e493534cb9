//! The terms of a request, and what a schema object is compiled to under them.

ghost use Rattle.serde_json.specs.Data.{Members};
ghost use Rattle.strkw_keywords.specs.Handed.{settings_of};
ghost use Rattle.strkw_object.specs.Values.{AreOwnedOf};
ghost use Rattle.strkw_cache.specs.Cached.{IsCompiledTo, settings_under};
ghost use Rattle.strkw_cache.specs.Told.{CanAnswer};

use std::alloc::Global;
use strkw_keywords::{Checks, ContentCodec, Context, Format, MediaTypeCheck, Options};
use strkw_object::{OwnedValues, StringKeywords, compile_values};
use strkw_pattern::{EngineBuilder, LiteralMatcher, NoPatterns};
use strkw_report::{CompileError, Draft, Location};

/// What a request has its schema object compiled under: the draft, and two of the options.
#[derive(Clone, Copy, PartialEq, Eq)]
pub struct Terms {
    /// The draft.
    pub draft: Draft,
    /// Whether formats are checked; `None` leaves it to the draft.
    pub validate_formats: Option<bool>,
    /// Whether a format that is not known lets every text pass; else it is refused.
    pub ignore_unknown_formats: bool,
}

/// The keywords of a schema object, or why it is refused.
pub type Compiled = Result<StringKeywords<LiteralMatcher>, CompileError>;

/// What a schema object of these values is compiled to under the terms of a request. It stands at the root, no check is
/// registered, and no pattern is taken that is not literal.
///
/// Refusals: those of `compile_values`.
#[inline(always)]
pub fn compile(alloc: Global, terms: Terms, values: &mut OwnedValues) -> Compiled
    ensures compiled { (ms : Members) → AreOwnedOf ms values.old
        → IsCompiledTo (settings_under terms) ms result }
    ensures can_answer { CanAnswer result }
{
    let options = Options {
        validate_formats: terms.validate_formats,
        ignore_unknown_formats: terms.ignore_unknown_formats,
        ..Options::default()
    };
    let ctx = Context {
        draft: terms.draft,
        location: Location::root(alloc),
        absolute: None,
        options,
        checks: Checks::none(),
        builder: &NoPatterns,
    };
    compile_values(alloc, &ctx, values)
}
