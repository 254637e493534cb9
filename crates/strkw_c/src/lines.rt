//! The lines of a text by a compiled object.

ghost use Rattle.std.specs.Prelude.{IfOk};
ghost use Rattle.strkw_keywords.specs.Demands.{IsInUse};
ghost use Rattle.strkw_keywords.specs.Handed.{lists_of};
ghost use Rattle.strkw_object.specs.Compiled.{keywords_demands, keywords_remarks};
ghost use Rattle.strkw_object.specs.Printable.{ArePrintable};
ghost use Rattle.strkw_c.specs.Errors.{AreLinesOf};

use std::alloc::{AllocError, Global};
use strkw_keywords::Checks;
use strkw_object::StringKeywords;
use strkw_pattern::RegexEngine;
use strkw_print::{push_errors, push_notes};
use strkw_report::TextNode;

/// The lines of a text by a compiled object: of its errors, and then of what is noted of it.
pub(crate) fn lines_on<E: RegexEngine>(
    alloc: Global,
    keywords: &StringKeywords<E>,
    checks: &Checks,
    text: &str,
) -> Result<Vec<u8>, AllocError>
    requires in_use { IsInUse (keywords_demands E.outcome keywords.now)
        (lists_of admits accepts is_encoding decoding checks.now) }
    requires printable { ArePrintable (keywords_remarks keywords.now) }
    ensures { IfOk result (λ lines. AreLinesOf E.outcome keywords.now
        (lists_of admits accepts is_encoding decoding checks.now) text.now lines.items) }
{
    let Some(text) = TextNode::of(&text) else {
        unreachable!()
    };
    let mut lines = Vec::new(alloc);
    push_errors(alloc, keywords, &text, checks, &mut lines)?;
    push_notes(alloc, keywords, &mut lines)?;
    Ok(lines)
}
