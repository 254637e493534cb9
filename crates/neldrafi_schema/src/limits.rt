//! The limits of numbers and of sizes.

ghost use Rattle.std.specs.Prelude.{◌≡◌};
ghost use Rattle.serde_json.specs.View.{number_view, view};
ghost use Rattle.neldrafi_schema.specs.Errors.{limit_text};
ghost use Rattle.neldrafi_schema.specs.Rules.{has_size, is_within};

use crate::numbers::is_less;
use serde_json::{Number, Value};

/// A keyword that limits numbers (Validation, draft 7, sections 6.2.2 to 6.2.5).
#[derive(Debug, Clone, Copy, PartialEq, Eq)]
pub enum Limit {
    /// `minimum`.
    Minimum,
    /// `exclusiveMinimum`, or `minimum` where draft 4 makes it exclusive.
    ExclusiveMinimum,
    /// `maximum`.
    Maximum,
    /// `exclusiveMaximum`, or `maximum` where draft 4 makes it exclusive.
    ExclusiveMaximum,
}

/// A keyword that limits how many items or properties there are (Validation, draft 7, sections 6.4 and 6.5).
#[derive(Debug, Clone, Copy, PartialEq, Eq)]
pub enum Size {
    /// `minItems`.
    MinItems,
    /// `maxItems`.
    MaxItems,
    /// `minProperties`.
    MinProperties,
    /// `maxProperties`.
    MaxProperties,
}

impl Limit {
    // Whether a number is within the limit.
    pub(crate) fn admits(self, limit: Number, number: Number) -> bool
        ensures { result ≡ is_within self (number_view limit) (number_view number) }
    {
        match self {
            Limit::Minimum => !is_less(number, limit),
            Limit::ExclusiveMinimum => is_less(limit, number),
            Limit::Maximum => !is_less(limit, number),
            Limit::ExclusiveMaximum => is_less(number, limit),
        }
    }

    // What is said of a number that is not.
    pub(crate) fn words(self) -> &'static str
        ensures { result.now ≡ limit_text self }
    {
        match self {
            Limit::Minimum => " is less than the minimum of ",
            Limit::ExclusiveMinimum => " is less than or equal to the minimum of ",
            Limit::Maximum => " is greater than the maximum of ",
            Limit::ExclusiveMaximum => " is greater than or equal to the maximum of ",
        }
    }
}

impl Size {
    // Whether a value has so many items or properties. One that has neither is admitted.
    #[tactic(auto, using(crate::proofs::Items::item_count, crate::proofs::Items::member_count))]
    pub(crate) fn admits(self, limit: u64, value: &Value) -> bool
        ensures { result ≡ has_size self limit (view value.now) }
    {
        match self {
            Size::MinItems => match value.as_array() {
                Some(items) => items.len() as u64 >= limit,
                None => true,
            },
            Size::MaxItems => match value.as_array() {
                Some(items) => items.len() as u64 <= limit,
                None => true,
            },
            Size::MinProperties => match value.as_object() {
                Some(members) => members.len() as u64 >= limit,
                None => true,
            },
            Size::MaxProperties => match value.as_object() {
                Some(members) => members.len() as u64 <= limit,
                None => true,
            },
        }
    }
}
