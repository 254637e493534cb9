//! Whether the items of an array are distinct, without a comparison of each two.

ghost use Rattle.std.specs.Prelude.{◌≡◌, IfOk};
ghost use Rattle.serde_json.specs.View.{items_view};
ghost use Rattle.neldrafi_schema.specs.Equality.{are_distinct};

use crate::equality::{are_distinct_in_pairs, has_same};
use crate::keys::key_of;
use serde_json::Value;
use std::alloc::{AllocError, Global};
use std::collections::BTreeSet;

// Up to this many items are compared in pairs, which takes no memory.
const FEW: usize = 16;

/// Whether no two items are the same: at most in the time of sorting their keys. If memory for the keys is refused,
/// the items are compared in pairs.
pub(crate) fn are_distinct(items: &Vec<Value>) -> bool
    ensures { result ≡ are_distinct (items_view items.now.items) }
{
    if items.len() <= FEW {
        return are_distinct_in_pairs(items);
    }
    match are_distinct_by_keys(*items.allocator(), items) {
        Ok(answer) => answer,
        Err(AllocError) => are_distinct_in_pairs(items),
    }
}

// From the last item to the first, an item whose key is new is like none behind it.
fn are_distinct_by_keys(alloc: Global, items: &[Value]) -> Result<bool, AllocError>
    ensures { IfOk result (λ answer. answer ≡ are_distinct (items_view items.now)) }
{
    let mut keys = BTreeSet::new(alloc);
    for done in 0..items.len() {
        let place = items.len() - 1 - done;
        let is_new = keys.insert(key_of(alloc, &items[place])?)?;
        if !is_new && has_same(&items[place], &items[place + 1..]) {
            return Ok(false);
        }
    }
    Ok(true)
}
