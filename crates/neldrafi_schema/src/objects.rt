//! The schema objects of a document.

ghost use Rattle.std.specs.Prelude.{◌≡◌, ◌++◌, IfOk, OnOk};
ghost use Rattle.serde_json.specs.View.{items_view, members_view, view};
ghost use Rattle.neldrafi_schema.specs.Resources.{of_items, of_keyed, of_members, schema_objects};
ghost use Rattle.neldrafi_schema.specs.machine.Compiled.{path_of};
ghost use Rattle.neldrafi_schema.specs.machine.Objects.{objects_of};

use crate::known::{Holding, Known};
use crate::places::{path_below, path_copy};
use crate::segment::{Segment, Step};
use serde_json::{Map, Value};
use std::alloc::{AllocError, Global};
use strkw_report::Draft;

/// A schema object, and the path to it.
#[derive(Drop)]
pub(crate) struct SchemaObject<'v> {
    pub path: Vec<Segment>,
    pub object: &'v Map<String, Value>,
}

/// Those of the schema at a path: itself, and those below it, in the order of the document.
pub(crate) fn schema_objects<'v>(
    alloc: Global,
    draft: Draft,
    path: &[Segment],
    value: &'v Value,
) -> Result<Vec<SchemaObject<'v>>, AllocError>
    ensures { IfOk result (λ found. objects_of found.items
        ≡ schema_objects draft (path_of path.now) (view value.now)) }
{
    let mut found = Vec::new(alloc);
    push_objects(alloc, draft, path, value, &mut found)?;
    Ok(found)
}

// Those of the schema at a path, or of the list of schemas there.
#[cycle(push_objects)]
fn push_objects<'v>(
    alloc: Global,
    draft: Draft,
    path: &[Segment],
    value: &'v Value,
    found: &mut Vec<SchemaObject<'v>>,
) -> Result<(), AllocError>
    ensures { OnOk result (objects_of found.new.items ≡ objects_of found.old.items
        ++ schema_objects draft (path_of path.now) (view value.now)) }
{
    match value {
        Value::Object(object) => {
            let own = path_copy(alloc, path)?;
            found.push(SchemaObject { path: own, object })?;
            push_of_members(alloc, draft, path, object, found)
        }
        Value::Array(items) => push_of_items(alloc, draft, path, items, found),
        _ => Ok(()),
    }
}

#[cycle(push_objects)]
fn push_of_items<'v>(
    alloc: Global,
    draft: Draft,
    path: &[Segment],
    items: &'v [Value],
    found: &mut Vec<SchemaObject<'v>>,
) -> Result<(), AllocError>
    ensures { OnOk result (objects_of found.new.items ≡ objects_of found.old.items
        ++ of_items draft (path_of path.now) 0 (items_view items.now)) }
{
    for (place, item) in items.iter().enumerate() {
        let below = path_below(alloc, path, Step::Place(place))?;
        push_objects(alloc, draft, &below, item, found)?;
    }
    Ok(())
}

#[cycle(push_objects)]
fn push_of_members<'v>(
    alloc: Global,
    draft: Draft,
    path: &[Segment],
    object: &'v Map<String, Value>,
    found: &mut Vec<SchemaObject<'v>>,
) -> Result<(), AllocError>
    ensures { let ms = members_view object.now.entries in
        OnOk result (objects_of found.new.items ≡ objects_of found.old.items
        ++ of_members draft (path_of path.now) ms ms) }
{
    for (name, value) in object.iter() {
        let below = path_below(alloc, path, Step::Key(name.as_str()))?;
        match Known::among(draft, object, name.as_str()).holding() {
            Holding::Nothing => {}
            Holding::OneOrSeveral => push_objects(alloc, draft, &below, value, found)?,
            Holding::ByKey => push_of_keyed(alloc, draft, &below, value, found)?,
        }
    }
    Ok(())
}

// Those of an object whose members are schemas.
#[cycle(push_objects)]
fn push_of_keyed<'v>(
    alloc: Global,
    draft: Draft,
    path: &[Segment],
    value: &'v Value,
    found: &mut Vec<SchemaObject<'v>>,
) -> Result<(), AllocError>
    ensures { OnOk result (objects_of found.new.items ≡ objects_of found.old.items
        ++ of_keyed draft (path_of path.now) (view value.now)) }
{
    let Value::Object(schemas) = value else {
        return Ok(());
    };
    for (name, schema) in schemas.iter() {
        let below = path_below(alloc, path, Step::Key(name.as_str()))?;
        push_objects(alloc, draft, &below, schema, found)?;
    }
    Ok(())
}
