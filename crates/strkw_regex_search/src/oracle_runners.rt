//! What looks for patterns that are put aside, one after the other.

ghost use Rattle.std.specs.Prelude.{◌≡◌, [], IfOk};
ghost use Rattle.std.specs.Str.{chars};
ghost use Rattle.strkw_regex_search.specs.machine.Bits.{rows_of as spec_rows_of};
ghost use Rattle.strkw_regex_search.specs.machine.OracleRunners.{AreFit, quests, seekings};
ghost use Rattle.strkw_regex_search.specs.machine.Seeking.{rows_behind};

use crate::bits::Bits;
use crate::oracle_passes::OraclePass;
use crate::oracle_runner::OracleRunner;
use std::alloc::{AllocError, Global};

/// What looks for each of these.
pub fn seekers_of(alloc: Global, asides: Vec<OraclePass>) -> Result<Vec<OracleRunner>, AllocError>
    requires { AreFit asides.items }
    ensures { IfOk result (λ made. seekings made.items ≡ quests asides.items) }
{
    let mut seekers = Vec::new(alloc);
    for aside in asides {
        let seeker = OracleRunner::of(alloc, aside)?;
        seekers.push(seeker)?;
    }
    Ok(seekers)
}

/// The rows of bits of these, one behind another.
pub fn rows_of(alloc: Global, seekers: &[OracleRunner], text: &str) -> Result<Vec<Bits>, AllocError>
    ensures { IfOk result (λ rows. spec_rows_of rows.items
        ≡ rows_behind [] (chars text.now) (seekings seekers.now)) }
{
    let mut rows = Vec::new(alloc);
    for seeker in seekers {
        let bits = seeker.ends(alloc, text, &rows)?;
        rows.push(bits)?;
    }
    Ok(rows)
}
