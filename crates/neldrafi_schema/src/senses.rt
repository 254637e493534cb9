//! What the values of keywords come to, before the schemas in them are numbered.

ghost use Rattle.std.specs.Prelude.{◌≡◌, ◌++◌, ◌∷◌, ℕ, IfOk, List, []};
ghost use Rattle.serde_json.specs.Find.{as_array, as_bool, as_object, as_str};
ghost use Rattle.serde_json.specs.View.{members_view, view};
ghost use Rattle.strkw_pattern.specs.declared.engine.Outcome.{Outcome};
ghost use Rattle.neldrafi_uri.specs.Components.{fragment_of};
ghost use Rattle.neldrafi_schema.specs.Documents.{Documents};
ghost use Rattle.neldrafi_schema.specs.Paths.{key};
ghost use Rattle.neldrafi_schema.specs.References.{schema_referred};
ghost use Rattle.neldrafi_schema.specs.Values.{additional_sense, anchor_sense, branch_sense, contains_rule, count_beside, dependencies_sense, dialect_sense, has_placed_items, has_some, identifier_sense, items_sense, lead_to, list_sense, map_sense, nothing, of_kind, others_sense, reference_sense, says, sense};
ghost use Rattle.neldrafi_schema.specs.machine.Compiled.{path_of, rule_of};
ghost use Rattle.neldrafi_schema.specs.machine.Identifiers.{IsLibrary};
ghost use Rattle.neldrafi_schema.specs.machine.Leads.{AreLeads, IsThere};
ghost use Rattle.neldrafi_schema.specs.machine.Places.{documents_of, scope_of};
ghost use Rattle.neldrafi_schema.specs.machine.Said.{sense_of};

use crate::assertions::{assertion_sense, dependencies_in};
use crate::known::{Known, draft_named, has_unevaluated, is_anchor};
use crate::leads::{Lead, dependency_leads, item_leads, lead_to, member_leads};
use crate::node::Rule;
use crate::numbers::size_in;
use crate::places::{Place, path_below};
use crate::references::Library;
use crate::refusal::SchemaErrorKind;
use crate::segment::{Segment, Step};
use neldrafi_uri::split_fragment;
use serde_json::{Map, Value};
use std::alloc::{AllocError, Global};
use strkw_keywords::member as member_at;
use strkw_report::Draft;

/// What a keyword comes to.
#[derive(Drop)]
pub(crate) enum Sense<'v, E> {
    Nothing,
    Says(Rule<E>, Vec<Lead<'v>>),
    Refused(SchemaErrorKind),
}

/// A member of the schema object at a path, in a dynamic scope, and the path to its value.
#[derive(Clone, Copy)]
pub(crate) struct Member<'r, 'v> {
    pub scope: &'r [String],
    pub path: &'r [Segment],
    pub object: &'v Map<String, Value>,
    pub name: &'r str,
    pub at: &'r [Segment],
    pub value: &'v Value,
}

pub(crate) fn wrong_type<'v, E: Drop>() -> Sense<'v, E>
    ensures { result ≡ Sense.Refused SchemaErrorKind.WrongType }
{
    Sense::Refused(SchemaErrorKind::WrongType)
}

/// A rule without schemas.
pub(crate) fn assertion<'v, E: Drop>(alloc: Global, rule: Rule<E>) -> Sense<'v, E>
    ensures leads { (documents : Documents) → AreLeads documents result }
    ensures sense { (outcome : E → List ℕ → Outcome) → sense_of outcome result
        ≡ says (rule_of outcome rule) [] }
{
    Sense::Says(rule, Vec::new(alloc))
}

/// What the value of a keyword means, unless it is a string keyword, `patternProperties` or a reference.
pub(crate) fn sense_of<'v, E: Drop>(
    alloc: Global,
    draft: Draft,
    member: &Member<'_, 'v>,
    known: Known,
) -> Result<Sense<'v, E>, AllocError>
    requires at { path_of member.now.at.now
        ≡ path_of member.now.path.now ++ key member.now.name.now ∷ [] }
    ensures sense { (outcome : E → List ℕ → Outcome) → IfOk result (λ s. sense_of outcome s
        ≡ sense draft (members_view member.now.object.now.entries)
        (path_of member.now.path.now) (path_of member.now.at.now) known
        (view member.now.value.now)) }
    ensures leads { (documents : Documents) → IsThere documents member.now
        → IfOk result (AreLeads documents) }
{
    let value = member.value;
    match known {
        Known::Dialect => Ok(dialect_sense(value)),
        Known::Draft4Identifier | Known::Identifier => Ok(identifier_sense(draft, value)),
        Known::Anchor | Known::DynamicAnchor => Ok(anchor_sense(draft, value)),
        Known::RecursiveAnchor => Ok(flag_sense(value)),
        Known::AllOf => list_sense(alloc, Rule::AllOf, member),
        Known::AnyOf => list_sense(alloc, Rule::AnyOf, member),
        Known::OneOf => list_sense(alloc, Rule::OneOf, member),
        Known::Properties => map_sense(alloc, Rule::Properties, member),
        Known::Definitions | Known::Defs => map_sense(alloc, Rule::Held, member),
        Known::Dependencies => dependencies_sense(alloc, draft, member),
        Known::PropertyNames => one_sense(alloc, Rule::MemberNames, member),
        Known::ContentSchema => one_sense(alloc, Rule::Held, member),
        Known::Contains => one_sense(alloc, contains_rule(draft, member.object), member),
        Known::DependentSchemas => map_sense(alloc, Rule::Dependent(Vec::new(alloc)), member),
        Known::PrefixItems => list_sense(alloc, Rule::Placed, member),
        Known::Unevaluated(part) => {
            let (none, some) = (Rule::Unevaluated(part), Rule::Unevaluated(part));
            others_sense(alloc, draft, none, some, member)
        }
        Known::If => one_sense(alloc, Rule::Condition, member),
        Known::Not => one_sense(alloc, Rule::Negation(value.clone()?), member),
        Known::Then => branch_sense(alloc, Rule::WhereValid, member),
        Known::Else => branch_sense(alloc, Rule::WhereNotValid, member),
        Known::AdditionalProperties => {
            others_sense(
                alloc,
                draft,
                Rule::NoOtherMembers,
                Rule::OtherMembers,
                member,
            )
        }
        Known::Items => items_sense(alloc, draft, member),
        Known::AdditionalItems => additional_sense(alloc, draft, member),
        Known::PatternProperties
        | Known::Reference
        | Known::DynamicReference
        | Known::RecursiveReference
        | Known::Text(_)
        | Known::Unknown => Ok(Sense::Nothing),
        assertion => assertion_sense(alloc, draft, member, assertion),
    }
}

fn dialect_sense<'v, E: Drop>(value: &Value) -> Sense<'v, E>
    ensures leads { (documents : Documents) → AreLeads documents result }
    ensures sense { (outcome : E → List ℕ → Outcome) → sense_of outcome result
        ≡ of_kind dialect_sense (as_str (view value.now)) }
{
    match value.as_str() {
        None => wrong_type(),
        Some(text) if draft_named(text).is_some() => Sense::Nothing,
        Some(_) => Sense::Refused(SchemaErrorKind::UnknownDialect),
    }
}

/// A reference in the schema at a path, in this scope.
pub(crate) fn reference_sense<'v, E: Drop>(
    alloc: Global,
    library: &Library<'v>,
    scope: &[String],
    path: &[Segment],
    value: &Value,
) -> Result<Sense<'v, E>, AllocError>
    requires library { IsLibrary library.now }
    ensures sense { let referred = schema_referred library.now.draft
        (documents_of library.now.documents) (scope_of scope.now) (path_of path.now) in
        (outcome : E → List ℕ → Outcome) → IfOk result (λ s. sense_of outcome s
        ≡ reference_sense referred (view value.now)) }
    ensures leads { IfOk result (AreLeads (documents_of library.now.documents)) }
{
    let Some(text) = value.as_str() else {
        return Ok(wrong_type());
    };
    let Some(place) = library.referred(alloc, scope, path, text)? else {
        return Ok(Sense::Refused(SchemaErrorKind::UnresolvedReference));
    };
    let mut leads = Vec::new(alloc);
    leads.push(Lead { key: None, place })?;
    Ok(Sense::Says(Rule::Reference, leads))
}

// `$id`, or `id` in draft 4.
fn identifier_sense<'v, E: Drop>(draft: Draft, value: &Value) -> Sense<'v, E>
    ensures leads { (documents : Documents) → AreLeads documents result }
    ensures sense { (outcome : E → List ℕ → Outcome) → sense_of outcome result
        ≡ of_kind (identifier_sense draft) (as_str (view value.now)) }
{
    match value.as_str() {
        None => wrong_type(),
        Some(text) if Known::Anchor.is_of(draft) && has_fragment(text) => wrong_type(),
        Some(_) => Sense::Nothing,
    }
}

// Whether a reference has a fragment that is not empty.
fn has_fragment(reference: &str) -> bool
    ensures { result ≡ has_some (fragment_of reference.now) }
{
    match split_fragment(reference) {
        (_, Some(fragment)) => !fragment.is_empty(),
        (_, None) => false,
    }
}

fn anchor_sense<'v, E: Drop>(draft: Draft, value: &Value) -> Sense<'v, E>
    ensures leads { (documents : Documents) → AreLeads documents result }
    ensures sense { (outcome : E → List ℕ → Outcome) → sense_of outcome result
        ≡ of_kind (anchor_sense draft) (as_str (view value.now)) }
{
    match value.as_str() {
        Some(text) if is_anchor(draft, text) => Sense::Nothing,
        _ => wrong_type(),
    }
}

fn flag_sense<'v, E: Drop>(value: &Value) -> Sense<'v, E>
    ensures leads { (documents : Documents) → AreLeads documents result }
    ensures sense { (outcome : E → List ℕ → Outcome) → sense_of outcome result
        ≡ of_kind (λ b. nothing) (as_bool (view value.now)) }
{
    if value.is_boolean() {
        Sense::Nothing
    } else {
        wrong_type()
    }
}

// ---- schemas in values

fn one_sense<'v, E: Drop>(
    alloc: Global,
    rule: Rule<E>,
    member: &Member<'_, 'v>,
) -> Result<Sense<'v, E>, AllocError>
    ensures sense { (outcome : E → List ℕ → Outcome) → IfOk result (λ s. sense_of outcome s
        ≡ says (rule_of outcome rule) (lead_to (path_of member.now.at.now))) }
    ensures leads { (documents : Documents) → IsThere documents member.now
        → IfOk result (AreLeads documents) }
{
    let mut leads = Vec::new(alloc);
    leads.push(lead_to(alloc, member)?)?;
    Ok(Sense::Says(rule, leads))
}

// Of an array that has some.
fn list_sense<'v, E: Drop>(
    alloc: Global,
    rule: Rule<E>,
    member: &Member<'_, 'v>,
) -> Result<Sense<'v, E>, AllocError>
    ensures sense { (outcome : E → List ℕ → Outcome) → IfOk result (λ s. sense_of outcome s
        ≡ list_sense (rule_of outcome rule) (path_of member.now.at.now)
        (as_array (view member.now.value.now))) }
    ensures leads { (documents : Documents) → IsThere documents member.now
        → IfOk result (AreLeads documents) }
{
    match member.value.as_array() {
        Some(items) if !items.is_empty() => {
            Ok(Sense::Says(rule, item_leads(alloc, member.at, items)?))
        }
        _ => Ok(wrong_type()),
    }
}

fn map_sense<'v, E: Drop>(
    alloc: Global,
    rule: Rule<E>,
    member: &Member<'_, 'v>,
) -> Result<Sense<'v, E>, AllocError>
    ensures sense { (outcome : E → List ℕ → Outcome) → IfOk result (λ s. sense_of outcome s
        ≡ map_sense (rule_of outcome rule) (path_of member.now.at.now)
        (as_object (view member.now.value.now))) }
    ensures leads { (documents : Documents) → IsThere documents member.now
        → IfOk result (AreLeads documents) }
{
    match member.value.as_object() {
        Some(members) => Ok(Sense::Says(rule, member_leads(alloc, member.at, members)?)),
        None => Ok(wrong_type()),
    }
}

// Of what else an object or an array has: `true` allows it, and counts where it matters what is evaluated; `false` is a
// rule of its own.
fn others_sense<'v, E: Drop>(
    alloc: Global,
    draft: Draft,
    none: Rule<E>,
    some: Rule<E>,
    member: &Member<'_, 'v>,
) -> Result<Sense<'v, E>, AllocError>
    ensures sense { (outcome : E → List ℕ → Outcome) → IfOk result (λ s. sense_of outcome s
        ≡ others_sense draft (rule_of outcome none) (rule_of outcome some)
        (path_of member.now.at.now) (as_bool (view member.now.value.now))) }
    ensures leads { (documents : Documents) → IsThere documents member.now
        → IfOk result (AreLeads documents) }
{
    match member.value.as_bool() {
        Some(true) if has_unevaluated(draft) => one_sense(alloc, some, member),
        Some(true) => Ok(Sense::Nothing),
        Some(false) => Ok(assertion(alloc, none)),
        None => one_sense(alloc, some, member),
    }
}

// Of an array, the schemas of its items by place, but in 2020-12; of any other value, the schema of all.
fn items_sense<'v, E: Drop>(
    alloc: Global,
    draft: Draft,
    member: &Member<'_, 'v>,
) -> Result<Sense<'v, E>, AllocError>
    ensures sense { (outcome : E → List ℕ → Outcome) → IfOk result (λ s. sense_of outcome s
        ≡ items_sense draft (path_of member.now.at.now) (as_array (view member.now.value.now))) }
    ensures leads { (documents : Documents) → IsThere documents member.now
        → IfOk result (AreLeads documents) }
{
    match draft {
        Draft::Draft202012 => one_sense(alloc, Rule::OtherItems, member),
        _ if member.value.is_array() => list_sense(alloc, Rule::Placed, member),
        _ => one_sense(alloc, Rule::OtherItems, member),
    }
}

// Of the items behind those that `items` has by place.
fn additional_sense<'v, E: Drop>(
    alloc: Global,
    draft: Draft,
    member: &Member<'_, 'v>,
) -> Result<Sense<'v, E>, AllocError>
    ensures sense { (outcome : E → List ℕ → Outcome) → IfOk result (λ s. sense_of outcome s
        ≡ additional_sense draft (members_view member.now.object.now.entries)
        (path_of member.now.at.now) (view member.now.value.now)) }
    ensures leads { (documents : Documents) → IsThere documents member.now
        → IfOk result (AreLeads documents) }
{
    if has_placed_items(member.object) {
        others_sense(alloc, draft, Rule::NoOtherItems, Rule::OtherItems, member)
    } else if member.value.is_boolean() {
        Ok(Sense::Nothing)
    } else {
        one_sense(alloc, Rule::Held, member)
    }
}

fn has_placed_items(object: &Map<String, Value>) -> bool
    ensures { result ≡ has_placed_items (members_view object.now.entries) }
{
    match member_at(object, "items") {
        Some(value) => value.is_array(),
        None => false,
    }
}

// `then` or `else`, which rest on the `if` beside.
fn branch_sense<'v, E: Drop>(
    alloc: Global,
    rule: Rule<E>,
    member: &Member<'_, 'v>,
) -> Result<Sense<'v, E>, AllocError>
    ensures sense { (outcome : E → List ℕ → Outcome) → IfOk result (λ s. sense_of outcome s
        ≡ branch_sense (rule_of outcome rule) (members_view member.now.object.now.entries)
        (path_of member.now.path.now) (path_of member.now.at.now)) }
    ensures leads { (documents : Documents) → IsThere documents member.now
        → IfOk result (AreLeads documents) }
{
    let mut leads = Vec::new(alloc);
    leads.push(lead_to(alloc, member)?)?;
    let Some(value) = member_at(member.object, "if") else {
        return Ok(Sense::Says(Rule::Held, leads));
    };
    let path = path_below(alloc, member.path, Step::Key("if"))?;
    leads.push(Lead {
        key: None,
        place: Place { path, value },
    })?;
    Ok(Sense::Says(rule, leads))
}

// How many items have to be valid, and whether they count as evaluated.
fn contains_rule<E: Drop>(draft: Draft, object: &Map<String, Value>) -> Rule<E>
    ensures { (outcome : E → List ℕ → Outcome) → rule_of outcome result
        ≡ contains_rule draft (members_view object.now.entries) }
{
    Rule::Contains(
        count_beside(draft, object, "minContains").unwrap_or(1),
        count_beside(draft, object, "maxContains"),
        Known::PrefixItems.is_of(draft),
    )
}

fn count_beside(draft: Draft, object: &Map<String, Value>, name: &str) -> Option<u64>
    ensures { result ≡ count_beside draft (members_view object.now.entries) name.now }
{
    if Known::ContainsCount.is_of(draft) {
        size_in(member_at(object, name)?)
    } else {
        None
    }
}

// By key, names, or a schema.
fn dependencies_sense<'v, E: Drop>(
    alloc: Global,
    draft: Draft,
    member: &Member<'_, 'v>,
) -> Result<Sense<'v, E>, AllocError>
    ensures sense { (outcome : E → List ℕ → Outcome) → IfOk result (λ s. sense_of outcome s
        ≡ of_kind (dependencies_sense draft (path_of member.now.at.now))
        (as_object (view member.now.value.now))) }
    ensures leads { (documents : Documents) → IsThere documents member.now
        → IfOk result (AreLeads documents) }
{
    let Some(members) = member.value.as_object() else {
        return Ok(wrong_type());
    };
    let Some(dependencies) = dependencies_in(alloc, draft, members)? else {
        return Ok(wrong_type());
    };
    let leads = dependency_leads(alloc, member.at, members)?;
    Ok(Sense::Says(Rule::Dependent(dependencies), leads))
}
