//! What a search asks between two characters.

ghost use Rattle.std.specs.Prelude.{◌≡◌};
ghost use Rattle.strkw_regex_core.specs.Tree.{boundary};
ghost use Rattle.strkw_regex_core.specs.Meaning.{is_edge as spec_is_edge, is_word as spec_is_word, holds};
ghost use Rattle.strkw_regex_core.specs.machine.Positions.{reads};

use strkw_charset::tree::{CharSet, contains};

/// Whether there is a character, and the class has it.
pub fn reads_class(next: Option<char>, negated: bool, sets: &[CharSet]) -> bool
    ensures { result ≡ reads next negated sets.now }
{
    match next {
        Some(c) => {
            let inside = contains(sets, c);
            if negated { !inside } else { inside }
        }
        None => false,
    }
}

pub fn is_word(c: Option<char>) -> bool
    ensures { result ≡ spec_is_word c }
{
    matches!(c, Some('0'..='9' | 'A'..='Z' | '_' | 'a'..='z'))
}

pub fn is_boundary(last: Option<char>, next: Option<char>) -> bool
    ensures { result ≡ holds boundary last next }
{
    let behind = is_word(last);
    let ahead = is_word(next);
    if behind { !ahead } else { ahead }
}

/// Whether no character stands there: before the text, or behind it.
pub fn is_edge(c: Option<char>) -> bool
    ensures { result ≡ spec_is_edge c }
{
    c.is_none()
}
