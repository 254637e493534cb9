//! Whether behind no `\0` of a pattern a decimal digit stands.

ghost use Rattle.std.specs.Prelude.{◌≡◌};
ghost use Rattle.std.specs.Str.{chars};
ghost use Rattle.strkw_regex_grammar.specs.NullEscape.{after as spec_after, may_precede as spec_may_precede, is_apart as spec_is_apart};

// What stands before a character: a backslash that begins an escape, `\0`, or neither.
#[derive(Clone, Copy)]
enum Front {
    Neither,
    Backslash,
    Null,
}

impl Front {
    fn next(self, c: char) -> Front
        ensures { result ≡ spec_after self c }
    {
        match self {
            Front::Backslash if c == '0' => Front::Null,
            Front::Backslash => Front::Neither,
            _ if c == '\\' => Front::Backslash,
            _ => Front::Neither,
        }
    }

    fn may_precede(self, c: char) -> bool
        ensures { result ≡ spec_may_precede self c }
    {
        match self {
            Front::Null => !matches!(c, '0'..='9'),
            _ => true,
        }
    }
}

pub fn is_apart(source: &str) -> bool
    ensures { result ≡ spec_is_apart (chars source.now) }
{
    let mut front = Front::Neither;
    for c in source.chars() {
        if !front.may_precede(c) {
            return false;
        }
        front = front.next(c);
    }
    true
}
