//! What the values of keywords without schemas come to.

ghost use Rattle.std.specs.Prelude.{◌≡◌, ℕ, IfOk, List, length, map, option_and_then, option_map, string_bytes, true};
ghost use Rattle.serde_json.specs.Find.{as_bool, as_object, as_str};
ghost use Rattle.serde_json.specs.View.{items_view, members_view, number_view, view};
ghost use Rattle.strkw_pattern.specs.declared.engine.Outcome.{Outcome};
ghost use Rattle.neldrafi_schema.specs.Documents.{Documents};
ghost use Rattle.neldrafi_schema.specs.Paths.{Path};
ghost use Rattle.neldrafi_schema.specs.Values.{all_items, dependencies_in, dependent_names, distinct_sense, draft_4_sense, flag_sense, greatest_of, has_flags, is_true_at, kind_sense, least_of, limit_sense, names_in, needs_values, number_sense, of_kind, positive_in, sense, type_in, types_in, values_in};
ghost use Rattle.neldrafi_schema.specs.machine.Compiled.{dependency_of};
ghost use Rattle.neldrafi_schema.specs.machine.Leads.{AreLeads, is_assertion, is_lacking};
ghost use Rattle.neldrafi_schema.specs.machine.Said.{sense_of};

use crate::json_type::JsonType;
use crate::known::{Known, is_draft_4};
use crate::limits::Limit;
use crate::node::{Dependency, Rule};
use crate::numbers::{is_less, size_in};
use crate::senses::{Member, Sense, assertion, wrong_type};
use serde_json::{Map, Number, Value};
use std::alloc::{AllocError, Global};
use strkw_keywords::member as member_at;
use strkw_report::Draft;

/// What the value of a keyword without schemas comes to.
pub(crate) fn assertion_sense<'v, E: Drop>(
    alloc: Global,
    draft: Draft,
    member: &Member<'_, 'v>,
    known: Known,
) -> Result<Sense<'v, E>, AllocError>
    ensures leads { (documents : Documents) → IfOk result (AreLeads documents) }
    ensures sense { (outcome : E → List ℕ → Outcome) (path at : Path)
        → is_assertion known ≡ true → IfOk result (λ s. sense_of outcome s
        ≡ sense draft (members_view member.now.object.now.entries) path at known
        (view member.now.value.now)) }
{
    let value = member.value;
    match known {
        Known::Limited(limit) => Ok(limit_sense(alloc, draft, member, limit)),
        Known::UniqueItems => Ok(distinct_sense(alloc, value)),
        Known::Constant => Ok(assertion(alloc, Rule::EqualTo(value.clone()?))),
        Known::Types => match types_in(alloc, value)? {
            Some(types) => Ok(assertion(alloc, Rule::Types(!is_draft_4(draft), types))),
            None => Ok(wrong_type()),
        },
        Known::Enumeration => match values_in(alloc, draft, value)? {
            Some(options) => Ok(assertion(alloc, Rule::Among(options))),
            None => Ok(wrong_type()),
        },
        Known::Required => match names_in(alloc, draft, value)? {
            Some(names) => Ok(assertion(alloc, Rule::Required(names))),
            None => Ok(wrong_type()),
        },
        Known::DependentRequired => match dependent_names(alloc, draft, value)? {
            Some(dependencies) => Ok(assertion(alloc, Rule::Dependent(dependencies))),
            None => Ok(wrong_type()),
        },
        Known::MultipleOf => match positive_in(value) {
            Some(number) => Ok(assertion(alloc, Rule::MultipleOf(number))),
            None => Ok(wrong_type()),
        },
        Known::Sized(size) => match size_in(value) {
            Some(limit) => Ok(assertion(alloc, Rule::Sized(size, limit))),
            None => Ok(wrong_type()),
        },
        Known::ContainsCount => Ok(kind_sense(size_in(value).is_some())),
        Known::Description | Known::Comment | Known::Content => Ok(kind_sense(value.is_string())),
        Known::Examples => Ok(kind_sense(value.is_array())),
        Known::Access | Known::Deprecated => Ok(kind_sense(value.is_boolean())),
        Known::Vocabulary => Ok(kind_sense(has_flags(value))),
        _ => Ok(Sense::Nothing),
    }
}

// What a value that says nothing by itself comes to, if it is of its keyword's kind or is not.
fn kind_sense<'v, E: Drop>(is_right: bool) -> Sense<'v, E>
    ensures leads { (documents : Documents) → AreLeads documents result }
    ensures sense { (outcome : E → List ℕ → Outcome) → sense_of outcome result
        ≡ kind_sense is_right }
{
    if is_right {
        Sense::Nothing
    } else {
        wrong_type()
    }
}

// Whether it is an object, and each member is a Boolean.
fn has_flags(value: &Value) -> bool
    ensures { result ≡ has_flags (as_object (view value.now)) }
{
    match value.as_object() {
        Some(members) => members.iter().all(|(_, flag)| flag.is_boolean()),
        None => false,
    }
}

// ---- numbers

fn limit_sense<'v, E: Drop>(
    alloc: Global,
    draft: Draft,
    member: &Member<'_, 'v>,
    limit: Limit,
) -> Sense<'v, E>
    ensures leads { (documents : Documents) → AreLeads documents result }
    ensures sense { (outcome : E → List ℕ → Outcome) → sense_of outcome result
        ≡ limit_sense draft (members_view member.now.object.now.entries) limit
        (view member.now.value.now) }
{
    if is_draft_4(draft) {
        draft_4_sense(alloc, member, limit)
    } else {
        number_sense(alloc, limit, member.value)
    }
}

// In draft 4 a boolean beside makes a limit exclusive, and says nothing by itself.
fn draft_4_sense<'v, E: Drop>(alloc: Global, member: &Member<'_, 'v>, limit: Limit) -> Sense<'v, E>
    ensures leads { (documents : Documents) → AreLeads documents result }
    ensures sense { (outcome : E → List ℕ → Outcome) → sense_of outcome result
        ≡ draft_4_sense (members_view member.now.object.now.entries) limit
        (view member.now.value.now) }
{
    let (object, value) = (member.object, member.value);
    match limit {
        Limit::Minimum => number_sense(alloc, least_of(object), value),
        Limit::Maximum => number_sense(alloc, greatest_of(object), value),
        Limit::ExclusiveMinimum => flag_sense("minimum", object, value),
        Limit::ExclusiveMaximum => flag_sense("maximum", object, value),
    }
}

fn least_of(object: &Map<String, Value>) -> Limit
    ensures { result ≡ least_of (members_view object.now.entries) }
{
    if is_true_at(object, "exclusiveMinimum") {
        Limit::ExclusiveMinimum
    } else {
        Limit::Minimum
    }
}

fn greatest_of(object: &Map<String, Value>) -> Limit
    ensures { result ≡ greatest_of (members_view object.now.entries) }
{
    if is_true_at(object, "exclusiveMaximum") {
        Limit::ExclusiveMaximum
    } else {
        Limit::Maximum
    }
}

fn number_sense<'v, E: Drop>(alloc: Global, limit: Limit, value: &Value) -> Sense<'v, E>
    ensures leads { (documents : Documents) → AreLeads documents result }
    ensures sense { (outcome : E → List ℕ → Outcome) → sense_of outcome result
        ≡ number_sense limit (view value.now) }
{
    match value.as_number() {
        Some(number) => assertion(alloc, Rule::Limited(limit, *number)),
        None => wrong_type(),
    }
}

// A boolean that makes the limit of a name exclusive, which has to be there.
fn flag_sense<'v, E: Drop>(name: &str, object: &Map<String, Value>, value: &Value) -> Sense<'v, E>
    ensures leads { (documents : Documents) → AreLeads documents result }
    ensures sense { (outcome : E → List ℕ → Outcome) → sense_of outcome result
        ≡ flag_sense name.now (members_view object.now.entries) (view value.now) }
{
    if member_at(object, name).is_some() && value.is_boolean() {
        Sense::Nothing
    } else {
        wrong_type()
    }
}

fn is_true_at(object: &Map<String, Value>, name: &str) -> bool
    ensures { result ≡ is_true_at name.now (members_view object.now.entries) }
{
    match member_at(object, name) {
        Some(value) => value.as_bool().unwrap_or(false),
        None => false,
    }
}

fn positive_in(value: &Value) -> Option<Number>
    ensures { option_map number_view result ≡ positive_in (view value.now) }
{
    let number = value.as_number()?;
    is_less(Number::from(0u64), *number).then_some(*number)
}

fn distinct_sense<'v, E: Drop>(alloc: Global, value: &Value) -> Sense<'v, E>
    ensures leads { (documents : Documents) → AreLeads documents result }
    ensures sense { (outcome : E → List ℕ → Outcome) → sense_of outcome result
        ≡ of_kind distinct_sense (as_bool (view value.now)) }
{
    match value.as_bool() {
        Some(true) => assertion(alloc, Rule::Distinct),
        Some(false) => Sense::Nothing,
        None => wrong_type(),
    }
}

// ---- values, names and types

// The values of an array, which is not empty in drafts 4 and 6.
fn values_in(alloc: Global, draft: Draft, value: &Value) -> Result<Option<Vec<Value>>, AllocError>
    ensures { IfOk result (λ o. option_map (λ values. map view values.items) o
        ≡ values_in draft (view value.now)) }
{
    let Some(values) = value.as_array() else {
        return Ok(None);
    };
    if is_lacking(values, needs_values(draft)) {
        return Ok(None);
    }
    Ok(Some(copies_of(alloc, values)?))
}

fn copies_of(alloc: Global, values: &[Value]) -> Result<Vec<Value>, AllocError>
    ensures { IfOk result (λ copies. map view copies.items ≡ map view values.now) }
{
    let mut copies = Vec::new(alloc);
    for value in values {
        copies.push(value.clone()?)?;
    }
    Ok(copies)
}

// Whether some are needed, and there are none.
fn is_lacking(items: &[Value], needed: bool) -> bool
    ensures { result ≡ is_lacking needed (length items.now) }
{
    needed && items.is_empty()
}

fn needs_values(draft: Draft) -> bool
    ensures { result ≡ needs_values draft }
{
    matches!(draft, Draft::Draft4 | Draft::Draft6)
}

// The strings of an array, which is not empty in draft 4.
fn names_in(alloc: Global, draft: Draft, value: &Value) -> Result<Option<Vec<String>>, AllocError>
    ensures { IfOk result (λ o. option_map (λ names. map string_bytes names.items) o
        ≡ names_in draft (view value.now)) }
{
    let Some(items) = value.as_array() else {
        return Ok(None);
    };
    if is_lacking(items, is_draft_4(draft)) {
        return Ok(None);
    }
    names_of(alloc, items)
}

fn names_of(alloc: Global, items: &[Value]) -> Result<Option<Vec<String>>, AllocError>
    ensures { IfOk result (λ o. option_map (λ names. map string_bytes names.items) o
        ≡ all_items as_str (items_view items.now)) }
{
    let mut names = Vec::new(alloc);
    for item in items {
        let Some(name) = item.as_str() else {
            return Ok(None);
        };
        names.push(String::from_str(alloc, name)?)?;
    }
    Ok(Some(names))
}

// The strings of the arrays of an object.
fn dependent_names(
    alloc: Global,
    draft: Draft,
    value: &Value,
) -> Result<Option<Vec<Dependency>>, AllocError>
    ensures { IfOk result (λ o. option_map (λ ds. map dependency_of ds.items) o
        ≡ option_and_then (dependent_names draft) (as_object (view value.now))) }
{
    let Some(members) = value.as_object() else {
        return Ok(None);
    };
    let mut dependencies = Vec::new(alloc);
    for (name, value) in members.iter() {
        let Some(required) = names_in(alloc, draft, value)? else {
            return Ok(None);
        };
        let name = name.clone()?;
        dependencies.push(Dependency { name, required })?;
    }
    Ok(Some(dependencies))
}

/// The names that are required where one is there.
pub(crate) fn dependencies_in(
    alloc: Global,
    draft: Draft,
    members: &Map<String, Value>,
) -> Result<Option<Vec<Dependency>>, AllocError>
    ensures { IfOk result (λ o. option_map (λ ds. map dependency_of ds.items) o
        ≡ dependencies_in draft (members_view members.now.entries)) }
{
    let mut dependencies = Vec::new(alloc);
    for (name, value) in members.iter() {
        if value.is_array() {
            let Some(required) = names_in(alloc, draft, value)? else {
                return Ok(None);
            };
            let name = name.clone()?;
            dependencies.push(Dependency { name, required })?;
        }
    }
    Ok(Some(dependencies))
}

// The types of a name, or of an array of names that has some.
fn types_in(alloc: Global, value: &Value) -> Result<Option<Vec<JsonType>>, AllocError>
    ensures { IfOk result (λ o. option_map (λ types. types.items) o ≡ types_in (view value.now)) }
{
    let mut types = Vec::new(alloc);
    match value {
        Value::Array(items) => {
            for item in items {
                let Some(named) = type_in(item) else {
                    return Ok(None);
                };
                types.push(named)?;
            }
            if types.is_empty() {
                return Ok(None);
            }
        }
        name => {
            let Some(named) = type_in(name) else {
                return Ok(None);
            };
            types.push(named)?;
        }
    }
    Ok(Some(types))
}

fn type_in(value: &Value) -> Option<JsonType>
    ensures { result ≡ type_in (view value.now) }
{
    JsonType::by_name(value.as_str()?)
}
