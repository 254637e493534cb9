//! Which patterns are taken, and what is looked for of them.

ghost use Rattle.std.specs.Prelude.{◌≡◌, true, IfOk, IfSome, option_map};
ghost use Rattle.std.specs.Str.{chars};
ghost use Rattle.strkw_regex_search.specs.machine.Passes.{ComesTo};
ghost use Rattle.strkw_regex_reader.specs.machine.Reading.{keep_small, read_pattern};
ghost use Rattle.strkw_regex_core.specs.machine.Shape.{is_plain, outline_pattern};

use std::alloc::{AllocError, Global};
use strkw_regex_core::counted_regex::CountedRegex;
use strkw_regex_core::size::MAX_STEPS;
use strkw_regex_grammar::null_escape::is_apart;
use strkw_regex_reader::reader::read_short;
use strkw_regex_search::passes::{Pass, passes_for, steps_of};

/// What is looked for of a pattern, and `None` where the text is none. No term is copied, so it is known here what is
/// too large, and which lookaheads look for too much.
pub(crate) fn read_passes(alloc: Global, source: &str) -> Result<Option<Vec<Pass>>, AllocError>
    ensures { IfOk result (λ made. ComesTo made (read_pattern (chars source.now))) }
{
    if !is_apart(source) {
        return Ok(None);
    }
    passes_if_taken(alloc, read_short(alloc, source)?)
}

// The parts of a pattern, where a search for them takes no more steps than may be.
fn passes_if_taken(
    alloc: Global,
    outline: Option<CountedRegex>,
) -> Result<Option<Vec<Pass>>, AllocError>
    requires { IfSome outline (λ o. is_plain o ≡ true) }
    ensures { IfOk result (λ made.
        ComesTo made (keep_small (option_map outline_pattern outline))) }
{
    let Some(outline) = outline else {
        return Ok(None);
    };
    let passes = passes_for(alloc, outline)?;
    if steps_of(&passes) > MAX_STEPS {
        return Ok(None);
    }
    Ok(Some(passes))
}
