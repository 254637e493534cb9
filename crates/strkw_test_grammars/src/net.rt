//! The label at the front of a host name.

use crate::row::{found_at, items, text_at};
use crate::tally::Tally;
use serde_json::Value;
use std::alloc::AllocError;
use strkw_net::first_label;

fn is_first(text: &str, label: Option<&str>) -> bool {
    match (first_label(text.as_bytes()), label) {
        (Some(found), Some(label)) => found == label.as_bytes(),
        (None, None) => true,
        _ => false,
    }
}

/// The labels of a row.
pub fn ask_first_labels(row: &Value, tally: &mut Tally) -> Result<(), AllocError> {
    for pair in items(row, "rows") {
        let (text, label) = (text_at(pair, 0), found_at(pair, 1));
        tally.count(is_first(text, label), text, "another label")?;
    }
    Ok(())
}
