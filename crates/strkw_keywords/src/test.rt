//! What a validator is, beside the place of its schema object: a test of texts.

ghost use Rattle.std.specs.Prelude.{◌↔◌, ◌≡◌, IfOk, IsOk, List, None, Option, [], true, ℕ};
ghost use Rattle.strkw_keywords.specs.Demands.{Demand, Finds, IsInUse, all_quiet};
ghost use Rattle.strkw_keywords.specs.Findings.{findings_of};
ghost use Rattle.strkw_keywords.specs.Lists.{lists_of};
ghost use Rattle.strkw_keywords.specs.Meanings.{Lists};
ghost use Rattle.strkw_keywords.specs.Parts.{RowsAreFirst, noted_remark};
ghost use Rattle.strkw_keywords.specs.Remarks.{Remark};

use crate::checks::{Checks, ContentCodec, Format, MediaTypeCheck};
use crate::findings::Found;
use crate::parts::{Origin, Parts};
use std::alloc::Global;
use strkw_report::{Node, TextNode};

/// What a validator is, beside the place of its schema object. `Keyed` makes a validator of it.
pub trait Test {
    /// What it demands of a text, in the order of its errors: nothing, unless an implementor says more.
    ghost demands: { Self → List Demand } = { λ _. [] };

    /// What it notes of every text, for a schema object at a location: nothing, unless an implementor says so.
    ghost remark: { Self → List ℕ → Option Remark } = { λ _ _. None };

    /// What a validator with this test is, beside its test of a text, where its schema object stands at this place.
    fn parts<'a>(&'a self, origin: &'a Origin) -> Parts<'a>
        ensures origin { result.origin.now ≡ origin.now }
        ensures noted { noted_remark origin.now.schema result.noted
            ≡ remark self.now origin.now.schema }
        ensures quiet { result.is_quiet ≡ all_quiet (demands self.now) }
        ensures rows { (lists : Lists) → RowsAreFirst result lists
            ↔ IsInUse (demands self.now) lists };

    /// What a text fails at, in the order of the errors. The only error is out of memory, and none where `is_quiet` of
    /// its parts is true.
    fn findings<N: Node>(&self, alloc: Global, text: &TextNode<'_, N>, checks: &Checks) -> Found<'_>
        ensures found { IfOk result (λ fs. Finds (demands self.now)
            (lists_of admits accepts is_encoding decoding checks.now) text.now (findings_of fs)) }
        ensures answers { all_quiet (demands self.now) ≡ true → IsOk result };
}
