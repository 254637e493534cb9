//! Laws of what this crate defines: how drafts compare and hash, and that a segment is escaped character by character.
ghost use Rattle.std.specs.Prelude.{◌≡◌, ◌↔◌, ℕ, List, Some, IsTrue, encode_utf8_all};
ghost use Rattle.std.specs.Ordering.{nat_cmp};
ghost use Rattle.std.specs.Hash as fed;
ghost use Rattle.strkw_report.specs.Drafts.{number_of};
ghost use Rattle.strkw_report.specs.Paths.{escaped_segment};
ghost use Rattle.strkw_report.specs.declared.draft.Draft.{Draft};

use crate::draft::Draft;
use std::hash::Hash;

/// Two drafts are equal by `==` exactly where they are the same draft.
pub fn drafts_equal_by_variant()
    ensures { (a b : Draft) → IsTrue (⟦<Draft as PartialEq>⟧.eq a b) ↔ (a ≡ b) }
{}

/// Drafts are ordered by their places in the list of drafts.
pub fn drafts_ordered_as_listed()
    ensures { (a b : Draft) → ⟦<Draft as Ord>⟧.cmp a b ≡ nat_cmp (number_of a) (number_of b) }
{}

/// `<`, `<=`, `>` and `>=` go by the same order.
pub fn drafts_compared_as_listed()
    ensures { (a b : Draft) →
        ⟦<Draft as PartialOrd>⟧.partial_cmp a b ≡ Some (nat_cmp (number_of a) (number_of b)) }
{}

/// A draft is hashed as its place in the list of drafts, fed as a `u64`.
pub fn drafts_hashed_by_place()
    ensures { (d : Draft) → ⟦<Draft as Hash>⟧.hash_input d ≡ fed.u64 (number_of d) }
{}

/// A segment's bytes, escaped one by one, are the bytes of its escaped characters.
pub fn segments_escaped_by_characters()
    ensures { (segment : List ℕ) → encode_utf8_all (escaped_segment segment)
        ≡ escaped_segment (encode_utf8_all segment) }
{}
