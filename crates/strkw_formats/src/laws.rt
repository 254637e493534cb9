//! Laws over the definitions that the calls of this crate name. A function here does nothing, and its clauses are the
//! law.
ghost use Rattle.std.specs.Prelude.{◌≡◌, ◌↔◌, ℕ, List, IsTrue, IfSome, Some, length};
ghost use Rattle.std.specs.Str.{chars};
ghost use Rattle.std.specs.Ordering.{nat_cmp};
ghost use Rattle.std.specs.Hash as fed;
ghost use Rattle.strkw_formats.specs.declared.builtin.BuiltinFormat.{BuiltinFormat};
ghost use Rattle.strkw_formats.specs.Formats.{IsOfBuiltin, format_place, formats, window_of, example_of, window_texts_of};
ghost use Rattle.strkw_formats.specs.FormatLaws.{IsInside, AreBoth, AreTextsAtEnds, BuiltinFormatOfName};

use crate::builtin::BuiltinFormat;
use std::hash::Hash;

/// `VARIANTS` has each format once, in order.
pub fn variants_are_listed()
    ensures { BuiltinFormat.VARIANTS.now ≡ formats }
{}

/// Two formats are equal by `==` exactly where they are the same variant.
pub fn formats_equal_by_variant()
    ensures { (a b : BuiltinFormat) → IsTrue (⟦<BuiltinFormat as PartialEq>⟧.eq a b) ↔ (a ≡ b) }
{}

/// Formats are ordered by their places in the list.
pub fn formats_ordered_as_listed()
    ensures { (a b : BuiltinFormat) → ⟦<BuiltinFormat as Ord>⟧.cmp a b
        ≡ nat_cmp (format_place a) (format_place b) }
{}

/// `<`, `<=`, `>` and `>=` go by the same order.
pub fn formats_compared_as_listed()
    ensures { (a b : BuiltinFormat) →
        ⟦<BuiltinFormat as PartialOrd>⟧.partial_cmp a b
        ≡ Some (nat_cmp (format_place a) (format_place b)) }
{}

/// A format is hashed as its place in the list, fed as a `u64`.
pub fn formats_hashed_by_place()
    ensures { (f : BuiltinFormat) → ⟦<BuiltinFormat as Hash>⟧.hash_input f
        ≡ fed.u64 (format_place f) }
{}

/// A text of a format with a window of lengths has its number of characters inside it.
pub fn texts_are_inside_their_windows()
    ensures { (f : BuiltinFormat) (text : List ℕ) → IsOfBuiltin f text →
        IfSome (window_of f) (λ w. IsInside w (length text)) }
{
    strkw_time::laws::date_length();
    strkw_time::laws::time_length();
    strkw_time::laws::datetime_length();
    strkw_time::laws::duration_length();
    strkw_net::laws::ipv4_length();
    strkw_net::laws::ipv6_length();
    strkw_net::laws::hostname_length();
    strkw_net::laws::uuid_length();
    strkw_label::laws::host_name_length();
}

/// The example of a format is derived by its grammar.
pub fn examples_are_of_their_formats()
    ensures { (f : BuiltinFormat) → IsOfBuiltin f (chars (example_of f)) }
{
    strkw_time::laws::date_example();
    strkw_time::laws::time_example();
    strkw_time::laws::datetime_example();
    strkw_time::laws::duration_example();
    strkw_net::laws::ipv4_texts();
    strkw_net::laws::ipv6_texts();
    strkw_net::laws::hostname_texts();
    strkw_net::laws::uuid_example();
    strkw_label::laws::example_is_a_host_name();
    strkw_uri::laws::example_uri();
    strkw_uri::laws::example_uri_template();
    strkw_uri::laws::example_json_pointer();
    strkw_uri::laws::example_relative_json_pointer();
}

/// The formats with a window have texts at its closed ends: derived by their grammar, and as long as the end says.
pub fn window_texts_are_at_the_ends()
    ensures { (f : BuiltinFormat) → AreBoth (AreTextsAtEnds f) (window_of f) (window_texts_of f) }
{
    examples_are_of_their_formats();
    strkw_net::laws::ipv4_texts();
    strkw_net::laws::ipv6_texts();
    strkw_net::laws::hostname_texts();
    strkw_label::laws::ends_of_the_length_window_are_host_names();
}

/// A name has a built-in format in a draft exactly where that format has the name and the draft has the format,
/// whatever the order of the list.
pub fn builtin_format_of_name()
    ensures { BuiltinFormatOfName }
{}
