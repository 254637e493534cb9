//! Hands in the engine of `strkw_ecma`, which takes a part of ECMA-262's patterns and answers their meaning.

ghost use Rattle.std.specs.Prelude.{◌≡◌, ℕ, List, IfOk};
ghost use Rattle.std.specs.Str.{chars};
ghost use Rattle.serde_json.specs.View.{members_view};
ghost use Rattle.strkw_report.specs.declared.draft.Draft.{Draft};
ghost use Rattle.strkw_report.specs.declared.draft.Draft.TheVariants.{Draft7};
ghost use Rattle.strkw_pattern.specs.Literal.{IsLiteral};
ghost use Rattle.strkw_keywords.specs.Meanings.{Lists, no_lists};
ghost use Rattle.strkw_keywords.specs.Places.{Place};
ghost use Rattle.strkw_report.specs.Standings.{root_site};
ghost use Rattle.strkw_regex_grammar.specs.Regex.{Disjunction};
ghost use Rattle.strkw_ecma.specs.Laws.{IsPattern};
ghost use Rattle.strkw_uses.specs.Patterns.{pattern_alone, root_place, AreErrors, SaysItsPattern};

use anyhow::Result;
use serde_json::{Map, Value};
use std::alloc::Global;
use strkw_ecma::EcmaPatterns;
use strkw_ecma::laws::patterns_are_exact;
use strkw_keywords::Context;
use strkw_object::compile_strings;
use strkw_object::laws::entries_are_determined;
use strkw_report::{Draft, Location, Site, ValidationError};

/// The errors of a text by a schema object of draft 7. By `{"pattern": p}`, where p is a pattern that is not literal, a
/// text has one error where the pattern is not found in it, and else none.
pub fn errors_by(
    alloc: Global,
    object: &Map<String, Value>,
    text: &str,
) -> Result<Vec<ValidationError>>
    ensures { IfOk result (λ errors. (p : List ℕ) (d : Disjunction)
        → members_view object.now.entries ≡ pattern_alone p → (IsLiteral (chars p) → ⊥)
        → IsPattern (chars p) d
        → AreErrors root_place root_site p d text.now errors.items) }
{
    object_says_its_pattern();
    let ctx = Context::new(alloc, Draft::Draft7, &EcmaPatterns);
    let keywords = compile_strings(alloc, &ctx, object)?;
    let site = Site {
        evaluation: Location::root(alloc),
        instance: Location::root(alloc),
    };
    let mut errors = Vec::new(alloc);
    keywords.collect_errors(alloc, &text, &site, &ctx.checks, &mut errors)?;
    Ok(errors)
}

/// What `{"pattern": p}` says, where p is not literal: it is refused unless p is a pattern of ECMA-262, and a text has
/// no error where the pattern is found in it, and one error where it is not.
pub fn object_says_its_pattern()
    ensures { (draft : Draft) (place : Place) (lists : Lists) (p : List ℕ)
        → (IsLiteral (chars p) → ⊥) → SaysItsPattern draft place lists p }
{
    entries_are_determined();
    patterns_are_exact();
}
