//! What keywords report themselves.

ghost use Rattle.std.specs.Prelude.{◌↔◌, ◌≡◌, ◌++◌, ◌∷◌, ℕ, IfOk, IfSome, IsTrue, List, OnOk, Some, [], false, map, option_map, string_bytes, true};
ghost use Rattle.std.specs.List.{flat_map, list_all, list_any};
ghost use Rattle.serde_json.specs.Data.{Data};
ghost use Rattle.serde_json.specs.View.{number_view, view};
ghost use Rattle.strkw_pattern.specs.declared.engine.Outcome.{Outcome};
ghost use Rattle.neldrafi_schema.specs.Equality.{same};
ghost use Rattle.neldrafi_schema.specs.Errors.{valid_by_none};
ghost use Rattle.neldrafi_schema.specs.Numbers.{is_multiple};
ghost use Rattle.neldrafi_schema.specs.Paths.{segment_text};
ghost use Rattle.neldrafi_schema.specs.Rules.{count_of, if_number, is_between, is_distinct, is_within, kinds, left_kinds, missing_beside, missing_in, option_list};
ghost use Rattle.neldrafi_schema.specs.Schemas.{Keyword};
ghost use Rattle.neldrafi_schema.specs.Types.{counts_as};
ghost use Rattle.neldrafi_schema.specs.machine.Compiled.{branches_of, children_of, dependency_of, rule_of};
ghost use Rattle.neldrafi_schema.specs.machine.Found.{kind_of, kinds_of};
ghost use Rattle.neldrafi_schema.specs.machine.Single.{IsPlainVerdict, is_single, looks_beside};

use crate::distinct::are_distinct;
use crate::equality::same;
use crate::error::ErrorKind;
use crate::json_type::JsonType;
use crate::limits::Limit;
use crate::node::{Branch, Dependency, Part, Rule};
use crate::numbers::is_multiple;
use crate::segment::Step;
use crate::targets::Child;
use serde_json::{Number, Value};
use std::alloc::{AllocError, Global};

/// What a rule reports of an instance, by the verdicts on what it tests; but for those rules that look at the rules
/// beside.
pub(crate) fn own_kinds<E>(
    alloc: Global,
    rule: &Rule<E>,
    name: &str,
    instance: &Value,
    verdicts: &[bool],
) -> Result<Vec<ErrorKind>, AllocError>
    ensures { (outcome : E → List ℕ → Outcome) (beside : List Keyword)
        → looks_beside (rule_of outcome rule.now) ≡ false
        → IfOk result (λ found. kinds_of found.items
        ≡ kinds beside name.now (rule_of outcome rule.now) (view instance.now) verdicts.now) }
{
    match rule {
        Rule::Required(names) => missing_in(alloc, names, instance),
        Rule::Dependent(dependencies) => missing_beside(alloc, dependencies, instance),
        other => one_kind(alloc, other, name, instance, verdicts),
    }
}

// What a rule reports that reports one error at most.
fn one_kind<E>(
    alloc: Global,
    rule: &Rule<E>,
    name: &str,
    instance: &Value,
    verdicts: &[bool],
) -> Result<Vec<ErrorKind>, AllocError>
    ensures { (outcome : E → List ℕ → Outcome) (beside : List Keyword)
        → is_single (rule_of outcome rule.now) ≡ true
        → IfOk result (λ found. kinds_of found.items
        ≡ kinds beside name.now (rule_of outcome rule.now) (view instance.now) verdicts.now) }
{
    if holds(rule, instance, verdicts) {
        return Ok(Vec::new(alloc));
    }
    match failure(alloc, rule, name, verdicts)? {
        Some(kind) => only(alloc, kind),
        None => Ok(Vec::new(alloc)),
    }
}

/// One kind of error.
pub(crate) fn only(alloc: Global, kind: ErrorKind) -> Result<Vec<ErrorKind>, AllocError>
    ensures { IfOk result (λ found. kinds_of found.items ≡ kind_of kind ∷ []) }
{
    let mut kinds = Vec::new(alloc);
    kinds.push(kind)?;
    Ok(kinds)
}

// What such a rule reports of an instance that is not as it wants it.
fn failure<E>(
    alloc: Global,
    rule: &Rule<E>,
    name: &str,
    verdicts: &[bool],
) -> Result<Option<ErrorKind>, AllocError>
    ensures { (outcome : E → List ℕ → Outcome) (beside : List Keyword) (d : Data)
        → is_single (rule_of outcome rule.now) ≡ true
        → (kinds beside name.now (rule_of outcome rule.now) d verdicts.now ≡ [] → ⊥)
        → IfOk result (λ o. option_list (option_map kind_of o)
        ≡ kinds beside name.now (rule_of outcome rule.now) d verdicts.now) }
{
    match rule {
        Rule::Types(_, types) => {
            let types = types.clone()?;
            Ok(Some(ErrorKind::Type { types }))
        }
        Rule::Among(options) => {
            let options = options.clone()?;
            Ok(Some(ErrorKind::Enum { options }))
        }
        Rule::EqualTo(expected) => {
            let expected = expected.clone()?;
            Ok(Some(ErrorKind::Constant { expected }))
        }
        Rule::Limited(limit, number) => Ok(Some(ErrorKind::Limit {
            limit: *limit,
            number: *number,
        })),
        Rule::MultipleOf(number) => Ok(Some(ErrorKind::MultipleOf { number: *number })),
        Rule::Sized(size, limit) => Ok(Some(ErrorKind::Size {
            size: *size,
            limit: *limit,
        })),
        Rule::Distinct => Ok(Some(ErrorKind::UniqueItems)),
        Rule::Negation(schema) => {
            let schema = schema.clone()?;
            Ok(Some(ErrorKind::Not { schema }))
        }
        Rule::AnyOf => none_of(alloc, name),
        Rule::OneOf if any_is_valid(verdicts) => Ok(Some(ErrorKind::OneOfSeveral)),
        Rule::OneOf => none_of(alloc, name),
        Rule::Contains(_, _, _) => Ok(Some(ErrorKind::Contains)),
        _ => Ok(None),
    }
}

/// Whether an instance is as a rule wants it that leads to no schema and looks at no rule beside; of other rules nothing.
pub(crate) fn plain_verdict<E>(rule: &Rule<E>, instance: &Value) -> Option<bool>
    ensures { (outcome : E → List ℕ → Outcome) → IfSome result
        (λ b. IsPlainVerdict (rule_of outcome rule.now) (view instance.now) b) }
{
    match rule {
        Rule::Types(_, _)
        | Rule::Among(_)
        | Rule::EqualTo(_)
        | Rule::Limited(_, _)
        | Rule::MultipleOf(_)
        | Rule::Sized(_, _)
        | Rule::Distinct => Some(holds(rule, instance, &[])),
        Rule::Required(names) => Some(has_all(names, instance)),
        _ => None,
    }
}

// Whether an object has all of these names; any other value lacks none.
fn has_all(names: &[String], instance: &Value) -> bool
    ensures { IsTrue result ↔ (missing_in (view instance.now) (map string_bytes names.now) ≡ []) }
{
    if !instance.is_object() {
        return true;
    }
    for name in names {
        if instance.get(name.as_str()).is_none() {
            return false;
        }
    }
    true
}

fn none_of(alloc: Global, name: &str) -> Result<Option<ErrorKind>, AllocError>
    ensures { IfOk result (λ o. option_list (option_map kind_of o) ≡ valid_by_none name.now ∷ []) }
{
    let keyword = String::from_str(alloc, name)?;
    Ok(Some(ErrorKind::NoneOf { keyword }))
}

// Whether an instance is as such a rule wants it.
fn holds<E>(rule: &Rule<E>, instance: &Value, verdicts: &[bool]) -> bool
    ensures { (outcome : E → List ℕ → Outcome) (beside : List Keyword) (word : List ℕ)
        → is_single (rule_of outcome rule.now) ≡ true → IsTrue result
        ↔ (kinds beside word (rule_of outcome rule.now) (view instance.now) verdicts.now ≡ []) }
{
    match rule {
        Rule::Types(floats, types) => is_of_some(types, *floats, instance),
        Rule::Among(options) => is_among(options, instance),
        Rule::EqualTo(expected) => same(instance, expected),
        Rule::Limited(limit, number) => is_within(*limit, *number, instance),
        Rule::MultipleOf(number) => is_multiple_of(*number, instance),
        Rule::Sized(size, limit) => size.admits(*limit, instance),
        Rule::Distinct => is_distinct(instance),
        Rule::Negation(_) => !any_is_valid(verdicts),
        Rule::AnyOf => any_is_valid(verdicts),
        Rule::OneOf => count_of(verdicts) == 1,
        Rule::Contains(least, most, _) => {
            !instance.is_array() || is_between(*least, *most, count_of(verdicts) as u64)
        }
        _ => true,
    }
}

/// An error where there are children, of which there are to be none.
pub(crate) fn left_kinds(
    alloc: Global,
    part: Part,
    branches: &[Branch],
    left: &[Child<'_>],
) -> Result<Vec<ErrorKind>, AllocError>
    ensures { IfOk result (λ found. kinds_of found.items
        ≡ left_kinds (Some part) (branches_of branches.now) (children_of left.now)) }
{
    if left.is_empty() || !branches.is_empty() {
        return Ok(Vec::new(alloc));
    }
    match part {
        Part::Members => {
            let unexpected = names_of(alloc, left)?;
            only(alloc, ErrorKind::UnevaluatedProperties { unexpected })
        }
        Part::Items => {
            let unexpected = values_of(alloc, left)?;
            only(alloc, ErrorKind::UnevaluatedItems { unexpected })
        }
    }
}

fn names_of(alloc: Global, children: &[Child<'_>]) -> Result<Vec<String>, AllocError>
    ensures { IfOk result (λ names. map string_bytes names.items
        ≡ map (λ c. segment_text c.0) (children_of children.now)) }
{
    let mut names = Vec::new(alloc);
    for child in children {
        names.push(child.step.to_text(alloc)?)?;
    }
    Ok(names)
}

fn values_of(alloc: Global, children: &[Child<'_>]) -> Result<Vec<Value>, AllocError>
    ensures { IfOk result (λ values. map view values.items
        ≡ map (λ c. c.1) (children_of children.now)) }
{
    let mut values = Vec::new(alloc);
    for child in children {
        values.push(child.value.clone()?)?;
    }
    Ok(values)
}

fn is_of_some(types: &[JsonType], floats: bool, instance: &Value) -> bool
    ensures { result ≡ list_any (λ t. counts_as floats t (view instance.now)) types.now }
{
    for kind in types {
        if kind.counts(floats, instance) {
            return true;
        }
    }
    false
}

fn is_among(options: &[Value], instance: &Value) -> bool
    ensures { result ≡ list_any (same (view instance.now)) (map view options.now) }
{
    for option in options {
        if same(instance, option) {
            return true;
        }
    }
    false
}

fn is_within(limit: Limit, number: Number, instance: &Value) -> bool
    ensures { result ≡ if_number (view instance.now) (is_within limit (number_view number)) }
{
    match instance.as_number() {
        Some(x) => limit.admits(number, *x),
        None => true,
    }
}

fn is_multiple_of(number: Number, instance: &Value) -> bool
    ensures { result ≡ if_number (view instance.now) (is_multiple (number_view number)) }
{
    match instance.as_number() {
        Some(x) => is_multiple(number, *x),
        None => true,
    }
}

fn is_distinct(instance: &Value) -> bool
    ensures { result ≡ is_distinct (view instance.now) }
{
    match instance.as_array() {
        Some(items) => are_distinct(items),
        None => true,
    }
}

fn any_is_valid(verdicts: &[bool]) -> bool
    ensures { result ≡ list_any (λ v. v) verdicts.now }
{
    for verdict in verdicts {
        if *verdict {
            return true;
        }
    }
    false
}

/// Whether all of them are true.
pub(crate) fn all_are_valid(verdicts: &[bool]) -> bool
    ensures { result ≡ list_all (λ v. v) verdicts.now }
{
    for verdict in verdicts {
        if !*verdict {
            return false;
        }
    }
    true
}

/// Whether a number is within bounds.
pub(crate) fn is_between(least: u64, most: Option<u64>, count: u64) -> bool
    ensures { result ≡ is_between least most count }
{
    least <= count
        && match most {
            Some(most) => count <= most,
            None => true,
        }
}

fn count_of(verdicts: &[bool]) -> usize
    ensures { result ≡ count_of verdicts.now }
{
    let mut count = 0;
    for verdict in verdicts {
        if *verdict {
            count += 1;
        }
    }
    count
}

/// Whether an instance has all names that are required by those it has.
pub(crate) fn has_all_dependents(dependencies: &[Dependency], instance: &Value) -> bool
    ensures { IsTrue result ↔ (flat_map (missing_beside (view instance.now))
        (map dependency_of dependencies.now) ≡ []) }
{
    for dependency in dependencies {
        if !has_dependents(dependency, instance) {
            return false;
        }
    }
    true
}

fn has_dependents(dependency: &Dependency, instance: &Value) -> bool
    ensures { IsTrue result
        ↔ (missing_beside (view instance.now) (dependency_of dependency.now) ≡ []) }
{
    if instance.get(dependency.name.as_str()).is_none() {
        return true;
    }
    has_all(&dependency.required, instance)
}

// Each name that an object has not; any other value lacks none.
fn missing_in(
    alloc: Global,
    names: &[String],
    instance: &Value,
) -> Result<Vec<ErrorKind>, AllocError>
    ensures { IfOk result (λ found. kinds_of found.items
        ≡ missing_in (view instance.now) (map string_bytes names.now)) }
{
    let mut kinds = Vec::new(alloc);
    push_missing(names, instance, &mut kinds)?;
    Ok(kinds)
}

// The same, of each name that is there, of those that it requires.
fn missing_beside(
    alloc: Global,
    dependencies: &[Dependency],
    instance: &Value,
) -> Result<Vec<ErrorKind>, AllocError>
    ensures { IfOk result (λ found. kinds_of found.items
        ≡ flat_map (missing_beside (view instance.now)) (map dependency_of dependencies.now)) }
{
    let mut kinds = Vec::new(alloc);
    for dependency in dependencies {
        push_missing_beside(dependency, instance, &mut kinds)?;
    }
    Ok(kinds)
}

fn push_missing(
    names: &[String],
    instance: &Value,
    kinds: &mut Vec<ErrorKind>,
) -> Result<(), AllocError>
    ensures { OnOk result (kinds_of kinds.new.items ≡ kinds_of kinds.old.items
        ++ missing_in (view instance.now) (map string_bytes names.now)) }
{
    if !instance.is_object() {
        return Ok(());
    }
    for name in names {
        if instance.get(name.as_str()).is_none() {
            let property = name.clone()?;
            kinds.push(ErrorKind::Required { property })?;
        }
    }
    Ok(())
}

fn push_missing_beside(
    dependency: &Dependency,
    instance: &Value,
    kinds: &mut Vec<ErrorKind>,
) -> Result<(), AllocError>
    ensures { OnOk result (kinds_of kinds.new.items ≡ kinds_of kinds.old.items
        ++ missing_beside (view instance.now) (dependency_of dependency.now)) }
{
    if instance.get(dependency.name.as_str()).is_some() {
        push_missing(&dependency.required, instance, kinds)?;
    }
    Ok(())
}
