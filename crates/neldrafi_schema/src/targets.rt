//! The values that are to be valid by the schemas to which a keyword leads.

ghost use Rattle.std.specs.Prelude.{◌≡◌, ◌++◌, ◌∷◌, ℕ, IfOk, List, OnOk, [], drop, option_map, true, unwrap_or};
ghost use Rattle.std.specs.List.{filter, flat_map};
ghost use Rattle.serde_json.specs.View.{view};
ghost use Rattle.strkw_pattern.specs.declared.engine.Outcome.{Outcome};
ghost use Rattle.neldrafi_schema.specs.Paths.{key};
ghost use Rattle.neldrafi_schema.specs.Rules.{child_at, children, is_of_part, is_present, on_child, on_each, on_items, on_itself, on_names, path_of, placed_count, placed_items, target, tested, valid_of};
ghost use Rattle.neldrafi_schema.specs.Schemas.{Keyword as Said};
ghost use Rattle.neldrafi_schema.specs.machine.Compiled.{branch_of, branches_of, children_of, keyword_of, keywords_of, rule_of, seen_data, step_of, target_of, targets_of};
ghost use Rattle.neldrafi_schema.specs.machine.Left.{Takes};

use crate::node::{Branch, Keyword, Part, Rule};
use crate::segment::Step;
use serde_json::Value;
use std::alloc::{AllocError, Global};

/// The value of a target: one of the instance's, or a key as a value of its own.
#[derive(Drop)]
pub(crate) enum Seen<'a> {
    Within(&'a Value),
    Name(Value),
}

impl Seen<'_> {
    pub fn as_value(&self) -> &Value
        ensures { view result.now ≡ seen_data self.now }
    {
        match self {
            Seen::Within(value) => value,
            Seen::Name(value) => value,
        }
    }
}

/// A value that is to be valid by a schema; the step below the keyword to the schema, and that into the instance to
/// the value, where there are such.
#[derive(Drop)]
pub(crate) struct Target<'a> {
    pub schema: usize,
    pub value: Seen<'a>,
    pub way: Option<Step<'a>>,
    pub inside: Option<Step<'a>>,
}

impl<'a> Target<'a> {
    fn of(branch: &'a Branch, value: &'a Value, inside: Option<Step<'a>>) -> Target<'a>
        ensures { target_of result ≡ target (branch_of branch.now) (view value.now)
            (path_of (option_map step_of inside.entry)) }
    {
        Target {
            schema: branch.schema,
            value: Seen::Within(value),
            way: step_of(branch),
            inside,
        }
    }
}

fn step_of(branch: &Branch) -> Option<Step<'_>>
    ensures { option_map step_of result ≡ (branch_of branch.now).key }
{
    match &branch.key {
        Some(segment) => Some(segment.as_step()),
        None => None,
    }
}

/// What an instance is tested by, where only the verdicts count.
pub(crate) fn tested<'a, E>(
    alloc: Global,
    rule: &Rule<E>,
    branches: &'a [Branch],
    instance: &'a Value,
) -> Result<Vec<Target<'a>>, AllocError>
    ensures { (outcome : E → List ℕ → Outcome) → IfOk result (λ ts. targets_of ts.items
        ≡ tested (rule_of outcome rule.now) (branches_of branches.now) (view instance.now)) }
{
    match rule {
        Rule::Negation(_) | Rule::AnyOf | Rule::OneOf | Rule::Condition => {
            on_itself(alloc, branches, instance)
        }
        Rule::Contains(_, _, _) => on_items(alloc, branches, instance, 0),
        Rule::WhereValid | Rule::WhereNotValid => match branches {
            [_, others @ ..] => on_itself(alloc, others, instance),
            [] => Ok(Vec::new(alloc)),
        },
        _ => Ok(Vec::new(alloc)),
    }
}

/// Each schema of the instance itself.
pub(crate) fn on_itself<'a>(
    alloc: Global,
    branches: &'a [Branch],
    instance: &'a Value,
) -> Result<Vec<Target<'a>>, AllocError>
    ensures { IfOk result (λ ts. targets_of ts.items
        ≡ on_itself (view instance.now) (branches_of branches.now)) }
{
    let mut targets = Vec::new(alloc);
    for branch in branches {
        targets.push(Target::of(branch, instance, None))?;
    }
    Ok(targets)
}

/// The schemas whose keys the instance has, of the instance itself.
pub(crate) fn where_present<'a>(
    alloc: Global,
    branches: &'a [Branch],
    instance: &'a Value,
) -> Result<Vec<Target<'a>>, AllocError>
    ensures { IfOk result (λ ts. targets_of ts.items ≡ on_itself (view instance.now)
        (filter (is_present (view instance.now)) (branches_of branches.now))) }
{
    let mut targets = Vec::new(alloc);
    for branch in branches {
        if child_of(branch, instance).is_some() {
            targets.push(Target::of(branch, instance, None))?;
        }
    }
    Ok(targets)
}

/// Each schema of the value at its own segment.
pub(crate) fn on_children<'a>(
    alloc: Global,
    branches: &'a [Branch],
    instance: &'a Value,
) -> Result<Vec<Target<'a>>, AllocError>
    ensures { IfOk result (λ ts. targets_of ts.items
        ≡ flat_map (on_child (view instance.now)) (branches_of branches.now)) }
{
    let mut targets = Vec::new(alloc);
    for branch in branches {
        if let Some(value) = child_of(branch, instance) {
            targets.push(Target::of(branch, value, step_of(branch)))?;
        }
    }
    Ok(targets)
}

/// The value at a schema's own segment.
pub(crate) fn child_of<'a>(branch: &Branch, instance: &'a Value) -> Option<&'a Value>
    ensures { option_map (λ v. view v.now) result
        ≡ child_at (view instance.now) (branch_of branch.now) }
{
    step_of(branch)?.child(instance)
}

/// Each schema of the items from a place on.
pub(crate) fn on_items<'a>(
    alloc: Global,
    branches: &'a [Branch],
    instance: &'a Value,
    from: usize,
) -> Result<Vec<Target<'a>>, AllocError>
    ensures { IfOk result (λ ts. targets_of ts.items ≡ flat_map
        (on_items (drop from (placed_items (view instance.now)))) (branches_of branches.now)) }
{
    let mut targets = Vec::new(alloc);
    for branch in branches {
        push_items(branch, instance, from, &mut targets)?;
    }
    Ok(targets)
}

#[tactic(auto, using(crate::proofs::Items::array_items, crate::proofs::Items::no_array_items))]
fn push_items<'a>(
    branch: &'a Branch,
    instance: &'a Value,
    from: usize,
    targets: &mut Vec<Target<'a>>,
) -> Result<(), AllocError>
    ensures { OnOk result (targets_of targets.new.items ≡ targets_of targets.old.items
        ++ on_items (drop from (placed_items (view instance.now))) (branch_of branch.now)) }
{
    let Some(items) = instance.as_array() else {
        return Ok(());
    };
    for (place, item) in items.iter().enumerate() {
        if place >= from {
            targets.push(Target::of(branch, item, Some(Step::Place(place))))?;
        }
    }
    Ok(())
}

/// A member or an item of an instance, and the step that leads to it.
#[derive(Clone, Copy)]
pub(crate) struct Child<'a> {
    pub step: Step<'a>,
    pub value: &'a Value,
}

/// The members or the items of an instance.
pub(crate) fn children<'a>(
    alloc: Global,
    part: Part,
    instance: &'a Value,
) -> Result<Vec<Child<'a>>, AllocError>
    ensures { IfOk result (λ cs. children_of cs.items ≡ children part (view instance.now)) }
{
    match part {
        Part::Members => member_children(alloc, instance),
        Part::Items => item_children(alloc, instance),
    }
}

#[tactic(auto, using(crate::proofs::Items::object_members, crate::proofs::Items::no_object_members))]
fn member_children<'a>(alloc: Global, instance: &'a Value) -> Result<Vec<Child<'a>>, AllocError>
    ensures { IfOk result (λ cs. children_of cs.items ≡ children Part.Members (view instance.now)) }
{
    let mut children = Vec::new(alloc);
    let Some(members) = instance.as_object() else {
        return Ok(children);
    };
    for (name, value) in members.iter() {
        let step = Step::Key(name.as_str());
        children.push(Child { step, value })?;
    }
    Ok(children)
}

#[tactic(auto, using(crate::proofs::Items::array_items, crate::proofs::Items::no_array_items))]
fn item_children<'a>(alloc: Global, instance: &'a Value) -> Result<Vec<Child<'a>>, AllocError>
    ensures { IfOk result (λ cs. children_of cs.items ≡ children Part.Items (view instance.now)) }
{
    let mut children = Vec::new(alloc);
    let Some(items) = instance.as_array() else {
        return Ok(children);
    };
    for value in items {
        let step = Step::Place(children.len());
        children.push(Child { step, value })?;
    }
    Ok(children)
}

/// Each schema of each of some children.
pub(crate) fn on_each<'a>(
    alloc: Global,
    branches: &'a [Branch],
    children: &[Child<'a>],
) -> Result<Vec<Target<'a>>, AllocError>
    ensures { IfOk result (λ ts. targets_of ts.items
        ≡ flat_map (on_each (children_of children.now)) (branches_of branches.now)) }
{
    let mut targets = Vec::new(alloc);
    for branch in branches {
        push_each(branch, children, &mut targets)?;
    }
    Ok(targets)
}

fn push_each<'a>(
    branch: &'a Branch,
    children: &[Child<'a>],
    targets: &mut Vec<Target<'a>>,
) -> Result<(), AllocError>
    ensures { OnOk result (targets_of targets.new.items ≡ targets_of targets.old.items
        ++ on_each (children_of children.now) (branch_of branch.now)) }
{
    for child in children {
        targets.push(Target::of(branch, child.value, Some(child.step)))?;
    }
    Ok(())
}

/// Takes the child to which a step leads from those that are left.
pub(crate) fn take_at(step: Step<'_>, left: &mut Vec<Child<'_>>)
    ensures { Takes (λ s. step_of step.entry ≡ s) left.old.items left.new.items }
{
    left.retain(|child| !child.step.is(step));
}

/// Takes the members, or the items.
pub(crate) fn take_part(part: Part, left: &mut Vec<Child<'_>>)
    ensures { Takes (λ s. is_of_part part s ≡ true) left.old.items left.new.items }
{
    left.retain(|child| !child.step.is_of(part));
}

/// Those of some targets that are valid.
pub(crate) fn valid_of<'a>(
    alloc: Global,
    targets: Vec<Target<'a>>,
    verdicts: &[bool],
) -> Result<Vec<Target<'a>>, AllocError>
    ensures { IfOk result (λ ts. targets_of ts.items
        ≡ valid_of (targets_of targets.entry.items) verdicts.now) }
{
    let mut valid = Vec::new(alloc);
    for (target, verdict) in targets.into_iter().zip(verdicts) {
        if *verdict {
            valid.push(target)?;
        }
    }
    Ok(valid)
}

/// Each schema of the keys.
pub(crate) fn on_names<'a>(
    alloc: Global,
    branches: &'a [Branch],
    instance: &'a Value,
) -> Result<Vec<Target<'a>>, AllocError>
    ensures { IfOk result (λ ts. targets_of ts.items
        ≡ flat_map (on_names (view instance.now)) (branches_of branches.now)) }
{
    let mut targets = Vec::new(alloc);
    for branch in branches {
        push_names(alloc, branch, instance, &mut targets)?;
    }
    Ok(targets)
}

#[tactic(auto, using(crate::proofs::Items::object_members, crate::proofs::Items::no_object_members))]
fn push_names<'a>(
    alloc: Global,
    branch: &'a Branch,
    instance: &'a Value,
    targets: &mut Vec<Target<'a>>,
) -> Result<(), AllocError>
    ensures { OnOk result (targets_of targets.new.items ≡ targets_of targets.old.items
        ++ on_names (view instance.now) (branch_of branch.now)) }
{
    let Some(members) = instance.as_object() else {
        return Ok(());
    };
    for (name, _) in members.iter() {
        targets.push(Target {
            schema: branch.schema,
            value: Seen::Name(Value::try_from_str(alloc, name.as_str())?),
            way: step_of(branch),
            inside: None,
        })?;
    }
    Ok(())
}

/// How many items have a schema of their own.
pub(crate) fn placed_count<E>(beside: &[Keyword<E>]) -> usize
    ensures { (outcome : E → List ℕ → Outcome)
        → result ≡ placed_count (keywords_of outcome beside.now) }
{
    for keyword in beside {
        if let Some(count) = placed_by(keyword) {
            return count;
        }
    }
    0
}

fn placed_by<E>(keyword: &Keyword<E>) -> Option<usize>
    ensures { (outcome : E → List ℕ → Outcome) (others : List Said)
        → placed_count (keyword_of outcome keyword.now ∷ others)
        ≡ unwrap_or result (placed_count others) }
{
    let Keyword::Rule(ruled) = keyword else {
        return None;
    };
    match &ruled.rule {
        Rule::Placed => Some(ruled.branches.len()),
        _ => None,
    }
}

/// Appends a schema of the member of a name.
pub(crate) fn push_member<'a>(
    branch: &'a Branch,
    name: &'a str,
    value: &'a Value,
    targets: &mut Vec<Target<'a>>,
) -> Result<(), AllocError>
    ensures { OnOk result (targets_of targets.new.items ≡ targets_of targets.old.items
        ++ target (branch_of branch.now) (view value.now) (key name.now ∷ []) ∷ []) }
{
    targets.push(Target::of(branch, value, Some(Step::Key(name))))?;
    Ok(())
}
