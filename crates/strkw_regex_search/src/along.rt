//! The characters of a text, from its beginning on or from its end.

ghost use Rattle.std.specs.Prelude.{◌≡◌, true, [], ◌∷◌, length, MatchOption};
ghost use Rattle.std.specs.Str.{chars, is_utf8};
ghost use Rattle.std.specs.Str.Iter.{chars_rest};
ghost use Rattle.strkw_regex_core.specs.machine.Mirror.{along};

use std::str::Chars;

/// How many characters a text has.
pub fn char_count(text: &str) -> usize
    ensures { result ≡ length (chars text.now) }
{
    text.chars().count()
}

/// The characters of a text that are left, the next first.
#[derive(Drop)]
pub struct Along<'a> {
    rest: Chars<'a>,
    is_backward: bool,
    ghost utf8: { is_utf8 (chars_rest rest) ≡ true },
}

impl<'a> Along<'a> {
    ghost use Rattle.strkw_regex_search.specs.machine.Along.{left_of};

    /// Those of a text, from its beginning on, or where it is backward, from its end.
    #[inline(always)]
    pub fn new(text: &'a str, is_backward: bool) -> Along<'a>
        ensures { left_of result ≡ along is_backward (chars text.now) }
    {
        Along {
            rest: text.chars(),
            is_backward,
        }
    }

    /// The next of them. Inlined, a loop whose direction is known asks for it no more.
    #[inline(always)]
    pub fn next(&mut self) -> Option<char>
        ensures { MatchOption result (left_of self.old ≡ [])
            (λ c. left_of self.old ≡ c ∷ left_of self.new) }
    {
        if self.is_backward {
            self.rest.next_back()
        } else {
            self.rest.next()
        }
    }
}
