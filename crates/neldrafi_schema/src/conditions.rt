//! What `then` and `else` lead to, by the verdict on `if`, which is then found once for both.

ghost use Rattle.std.specs.Prelude.{◌≡◌, ℕ, Bool, IfSome, List, true};
ghost use Rattle.std.specs.List.{list_all};
ghost use Rattle.serde_json.specs.Data.{Data};
ghost use Rattle.strkw_report.specs.declared.error.Site.{Site};
ghost use Rattle.strkw_keywords.specs.Meanings.{Lists};
ghost use Rattle.strkw_pattern.specs.declared.engine.Outcome.{Outcome};
ghost use Rattle.neldrafi_schema.specs.Meaning.{Reports};
ghost use Rattle.neldrafi_schema.specs.Refusals.{in_place, schemas_in};
ghost use Rattle.neldrafi_schema.specs.Schemas.{Keyword as Said, Header, Schema};
ghost use Rattle.neldrafi_schema.specs.machine.Compiled.{branches_of, keyword_of};
ghost use Rattle.neldrafi_schema.specs.machine.Conditions.{Chooses, ChoosesAlone, Ends, IsKnown, Means};

use crate::node::{Branch, Keyword, Rule};

/// A keyword, and what is known of the `if` beside it: the number of its schema, and whether the instance has no errors
/// by it.
#[derive(Clone, Copy)]
pub(crate) struct Conditional<'k, E> {
    pub keyword: &'k Keyword<E>,
    pub condition: Option<(usize, bool)>,
}

/// What `then` or `else` leads to: it is not known, nothing, or the schema of a number.
pub(crate) enum Choice {
    Unknown,
    Passes,
    Leads(usize),
}

/// The number of the schema of `if`, where the keyword is `then` or `else`.
pub(crate) fn condition_of<E>(keyword: &Keyword<E>) -> Option<usize>
    ensures { (outcome : E → List ℕ → Outcome) (end : ℕ → Bool)
        → list_all end (in_place (keyword_of outcome keyword.now)) ≡ true
        → IfSome result (λ n. end n ≡ true) }
{
    let Keyword::Rule(ruled) = keyword else {
        return None;
    };
    match &ruled.rule {
        Rule::WhereValid | Rule::WhereNotValid => second_of(&ruled.branches),
        _ => None,
    }
}

fn second_of(branches: &[Branch]) -> Option<usize>
    ensures { (end : ℕ → Bool) → list_all end (schemas_in (branches_of branches.now)) ≡ true
        → IfSome result (λ n. end n ≡ true) }
{
    match branches {
        [_, test] => Some(test.schema),
        _ => None,
    }
}

/// What a keyword leads to, by what is known of `if`.
pub(crate) fn choice_of<E>(conditional: &Conditional<'_, E>) -> Choice
    ensures means { (outcome : E → List ℕ → Outcome) (schemas : List Schema) (lists : Lists) (k : ℕ)
        (header : Header) (beside : List Said) (d : Data) (site : Site)
        → IsKnown (Reports schemas lists k) d conditional.now.condition
        → Means schemas (Reports schemas lists k) lists header beside
        (keyword_of outcome conditional.now.keyword.now) d site result }
    ensures end { (outcome : E → List ℕ → Outcome) (end : ℕ → Bool)
        → list_all end (in_place (keyword_of outcome conditional.now.keyword.now)) ≡ true
        → Ends end result }
{
    let (Keyword::Rule(ruled), Some((number, valid))) = (conditional.keyword, conditional.condition)
    else {
        return Choice::Unknown;
    };
    match &ruled.rule {
        Rule::WhereValid => choice_among(&ruled.branches, number, valid),
        Rule::WhereNotValid => choice_among(&ruled.branches, number, !valid),
        Rule::Condition => choice_alone(&ruled.branches, number),
        _ => Choice::Unknown,
    }
}

// Nothing counts, if the schema is the condition.
fn choice_alone(branches: &[Branch], number: usize) -> Choice
    ensures { ChoosesAlone (branches_of branches.now) number result }
{
    match branches {
        [test] => {
            if test.schema == number {
                Choice::Passes
            } else {
                Choice::Unknown
            }
        }
        _ => Choice::Unknown,
    }
}

// The first schema where it counts, if the second one is the condition.
fn choice_among(branches: &[Branch], number: usize, counts: bool) -> Choice
    ensures { Chooses (branches_of branches.now) number counts result }
{
    match branches {
        [first, test] if test.schema == number => {
            if counts {
                Choice::Leads(first.schema)
            } else {
                Choice::Passes
            }
        }
        _ => Choice::Unknown,
    }
}
