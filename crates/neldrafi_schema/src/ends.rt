//! References that lead back to themselves, and do not enter the instance on the way.

ghost use Rattle.std.specs.Prelude.{◌≡◌, ℕ, IfOk, OnOk, length, map, option_map, slice_get};
ghost use Rattle.neldrafi_schema.specs.Paths.{Path};
ghost use Rattle.neldrafi_schema.specs.machine.Compiled.{body_of, branches_of, keyword_of, schemas_of};
ghost use Rattle.neldrafi_schema.specs.machine.Compiled.{path_of};
ghost use Rattle.neldrafi_schema.specs.machine.Places.{paths_of};
ghost use Rattle.neldrafi_schema.specs.machine.Problems.{Notes, endless_at};
ghost use Rattle.neldrafi_schema.specs.Refusals.{body_ends, ends, in_place, keyword_endless, keywords_endless, schema_ends, schemas_endless, schemas_in};
ghost use Rattle.neldrafi_schema.specs.machine.Said.{flag_at};
ghost use Rattle.std.specs.List.{list_all};

use crate::node::{Body, Branch, Keyword, Node, Rule};
use crate::places::{ScopedPlace, path_below};
use crate::problem::Problem;
use crate::refusal::SchemaErrorKind;
use crate::segment::{Segment, Step};
use std::alloc::{AllocError, Global};
use strkw_pattern::RegexEngine;

/// For each node, whether each way from it that does not enter the instance ends.
pub(crate) fn ending<E: RegexEngine>(
    alloc: Global,
    nodes: &[Node<E>],
) -> Result<Vec<bool>, AllocError>
    ensures { IfOk result (λ end. (n : ℕ) → flag_at end.items n
        ≡ ends (schemas_of E.outcome nodes.now) (length nodes.now) n) }
{
    let mut end = vec![in alloc; false; nodes.len()]?;
    for step in 0..nodes.len() {
        let next = ending_next(alloc, nodes, &end)?;
        if next == end {
            return Ok(end);
        }
        end = next;
    }
    Ok(end)
}

// The same with one step more, given whether it ends with fewer.
fn ending_next<E: RegexEngine>(
    alloc: Global,
    nodes: &[Node<E>],
    end: &[bool],
) -> Result<Vec<bool>, AllocError>
    ensures { IfOk result (λ next. (n : ℕ) → flag_at next.items n
        ≡ schema_ends (flag_at end.now) (slice_get (schemas_of E.outcome nodes.now) n)) }
{
    let mut next = Vec::new(alloc);
    for node in nodes {
        next.push(body_ends(&node.body, end))?;
    }
    Ok(next)
}

fn body_ends<E: RegexEngine>(body: &Body<E>, end: &[bool]) -> bool
    ensures { result ≡ body_ends (flag_at end.now) (body_of E.outcome body.now) }
{
    let Body::Keywords(keywords) = body else {
        return true;
    };
    for keyword in keywords {
        if !keyword_ends(keyword, end) {
            return false;
        }
    }
    true
}

fn keyword_ends<E: RegexEngine>(keyword: &Keyword<E>, end: &[bool]) -> bool
    ensures { result ≡ list_all (flag_at end.now) (in_place (keyword_of E.outcome keyword.now)) }
{
    match keyword {
        Keyword::Rule(ruled) if ruled.rule.is_in_place() => branches_end(&ruled.branches, end),
        _ => true,
    }
}

fn branches_end(branches: &[Branch], end: &[bool]) -> bool
    ensures { result ≡ list_all (flag_at end.now) (schemas_in (branches_of branches.now)) }
{
    for branch in branches {
        if !is_set(end, branch.schema) {
            return false;
        }
    }
    true
}

fn is_set(flags: &[bool], number: usize) -> bool
    ensures { result ≡ flag_at flags.now number }
{
    flags.get(number).copied().unwrap_or(false)
}

/// Notes the references to nodes that come to no end.
pub(crate) fn note_endless_references<E: RegexEngine>(
    alloc: Global,
    places: &[ScopedPlace<'_>],
    nodes: &[Node<E>],
    end: &[bool],
    first: &mut Option<Problem>,
) -> Result<(), AllocError>
    requires { length nodes.now ≡ length places.now }
    ensures { OnOk result (Notes (schemas_endless (flag_at end.now) (paths_of places.now)
        (schemas_of E.outcome nodes.now)) first.old first.new) }
{
    for number in 0..nodes.len() {
        if let Body::Keywords(keywords) = &nodes[number].body {
            note_endless(alloc, &places[number].place.path, keywords, end, first)?;
        }
    }
    Ok(())
}

// Notes those of the keywords of the schema at a path.
fn note_endless<E: RegexEngine>(
    alloc: Global,
    path: &[Segment],
    keywords: &[Keyword<E>],
    end: &[bool],
    first: &mut Option<Problem>,
) -> Result<(), AllocError>
    ensures { OnOk result (Notes (keywords_endless (flag_at end.now) (path_of path.now)
        (map (keyword_of E.outcome) keywords.now)) first.old first.new) }
{
    for keyword in keywords {
        if let Some(name) = endless_reference(keyword, end) {
            let at = path_below(alloc, path, Step::Key(name))?;
            Problem::note(alloc, &at, SchemaErrorKind::CircularReference, first)?;
        }
    }
    Ok(())
}

// The name of a keyword that is a reference to a node from which a way has no end.
fn endless_reference<'k, E: RegexEngine>(keyword: &'k Keyword<E>, end: &[bool]) -> Option<&'k str>
    ensures { (path : Path) → keyword_endless (flag_at end.now) path
        (keyword_of E.outcome keyword.now)
        ≡ endless_at path (option_map (λ name. name.now) result) }
{
    match keyword {
        Keyword::Rule(ruled) if matches!(ruled.rule, Rule::Reference) => {
            if branches_end(&ruled.branches, end) {
                None
            } else {
                Some(ruled.name.as_str())
            }
        }
        _ => None,
    }
}
