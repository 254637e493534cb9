//! What is read of a group, or of the whole pattern.

ghost use Rattle.std.specs.Prelude.{◌≡◌, true};
ghost use Rattle.strkw_regex_core.specs.machine.Shape.{is_plain};

use strkw_regex_core::counted_regex::CountedRegex;

/// The alternatives before the one that is read, and the terms of that one.
#[derive(Drop)]
pub struct Level {
    pub(super) earlier: Option<CountedRegex>,
    pub(super) current: CountedRegex,
    ghost plain: { is_plain current ≡ true },
}
