//! The search: one pass over the text, with marks at the classes that have just read a character.

ghost use Rattle.std.specs.Prelude.{◌≡◌, ◌↔◌, true, IsTrue, None};
ghost use Rattle.std.specs.Str.{chars};
ghost use Rattle.strkw_regex_core.specs.machine.MarkedMeaning.{Found};
ghost use Rattle.strkw_regex_core.specs.machine.Mirror.{along};
ghost use Rattle.strkw_regex_core.specs.machine.OneCharLookahead.{are_told};
ghost use Rattle.strkw_regex_core.specs.machine.Positions.{is_clean};
ghost use Rattle.strkw_regex_search.specs.machine.Search.{search_from};
ghost use Rattle.strkw_regex_search.specs.machine.Machine.{pattern_of};

use crate::along::Along;
use crate::program::{MOST_INSTRUCTIONS, Program, Room};

/// Whether the pattern is found in the text, or where it is looked for backward, in the text turned round. No memory is
/// taken.
pub fn is_found(program: &Program, text: &str, is_backward: bool) -> bool
    requires clean { is_clean (pattern_of program.now) ≡ true }
    requires told { are_told (pattern_of program.now) ≡ true }
    ensures meaning { IsTrue result
        ↔ Found (pattern_of program.now) (along is_backward (chars text.now)) }
    ensures search { result
        ≡ search_from (pattern_of program.now) None (along is_backward (chars text.now)) }
{
    let mut room = Room::new();
    let mut marks = [false; MOST_INSTRUCTIONS];
    let mut last = None;
    let mut left = Along::new(text, is_backward);
    'characters: while let Some(c) = left.next() {
        if program.step(&mut room, &mut marks, last, Some(c)) {
            return true;
        }
        last = Some(c);
    }
    program.step(&mut room, &mut marks, last, None)
}
