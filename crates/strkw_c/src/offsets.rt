//! One schema object, asked of many texts that lie between offsets, as those of Apache Arrow do.

ghost use Rattle.strkw_c.specs.Judged.{IsJudgedBetween};
ghost use Rattle.strkw_c.specs.Texts.{numbers};

use crate::statuses::NO_TEXTS;
use crate::texts::Ends;
use crate::verdicts::check_from;
use std::alloc::Global;

/// `strkw_nonnull_check` of texts that lie between offsets, as those of Apache Arrow do (Columnar Format,
/// "Variable-size Binary Layout"): the first begins at the first offset, and each ends at the next one. `NO_TEXTS`:
/// there is no offset, one is less than the one before it or past `texts`, or there is not one verdict less than
/// offsets.
#[unsafe(no_mangle)]
pub extern "C" fn strkw_nonnull_check_offsets(
    alloc: Global,
    draft: u32,
    options: u32,
    schema: &[u8],
    texts: &[u8],
    offsets: &[usize],
    verdicts: &mut [u8],
) -> u8
    ensures { IsJudgedBetween draft options schema.now texts.now offsets.now
        verdicts.old verdicts.new result }
{
    let offsets = Ends::Wide(offsets);
    check_between(alloc, draft, options, schema, texts, &offsets, verdicts)
}

/// `strkw_nonnull_check_offsets` with offsets of 32 bits.
#[unsafe(no_mangle)]
pub extern "C" fn strkw_nonnull_check_offsets32(
    alloc: Global,
    draft: u32,
    options: u32,
    schema: &[u8],
    texts: &[u8],
    offsets: &[u32],
    verdicts: &mut [u8],
) -> u8
    ensures { IsJudgedBetween draft options schema.now texts.now offsets.now
        verdicts.old verdicts.new result }
{
    let offsets = Ends::Narrow(offsets);
    check_between(alloc, draft, options, schema, texts, &offsets, verdicts)
}

// The same of offsets of either width.
fn check_between(
    alloc: Global,
    draft: u32,
    options: u32,
    schema: &[u8],
    texts: &[u8],
    offsets: &Ends,
    verdicts: &mut [u8],
) -> u8
    ensures { IsJudgedBetween draft options schema.now texts.now (numbers offsets.now) verdicts.old
        verdicts.new result }
{
    let Some((start, ends)) = offsets.split_first() else {
        return NO_TEXTS;
    };
    check_from(alloc, draft, options, schema, texts, start, &ends, verdicts)
}
