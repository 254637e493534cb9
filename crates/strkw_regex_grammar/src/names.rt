//! Names of groups.

ghost use Rattle.std.specs.Prelude.{◌≡◌, map};
ghost use Rattle.strkw_regex_grammar.specs.Names.{is_name_start as spec_is_name_start, is_name_part as spec_is_name_part, may_follow as spec_may_follow, are_distinct as spec_are_distinct};

use ucd_derived::{is_id_continue, is_id_start};

fn is_name_start(c: char) -> bool
    ensures { result ≡ spec_is_name_start c }
{
    is_id_start(c) || c == '$' || c == '_'
}

fn is_name_part(c: char) -> bool
    ensures { result ≡ spec_is_name_part c }
{
    is_id_continue(c) || c == '$' || c == '\u{200C}' || c == '\u{200D}'
}

// Whether the character may follow this much of a name.
pub fn may_follow(name: &[char], c: char) -> bool
    ensures { result ≡ spec_may_follow name.now c }
{
    if name.is_empty() {
        is_name_start(c)
    } else {
        is_name_part(c)
    }
}

// Whether none is there twice.
pub fn are_distinct(names: &[Vec<char>]) -> bool
    ensures { result ≡ spec_are_distinct (map (λ n. n.items) names.now) }
{
    let mut rest = names;
    while let Some((name, others)) = rest.split_first() {
        if others.contains(name) {
            return false;
        }
        rest = others;
    }
    true
}
