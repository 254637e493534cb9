//! U-labels (RFC 5890, section 2.3.2.1), by RFC 5891, section 4.2.
ghost use Rattle.std.specs.Prelude.{◌≡◌, ◌≢◌, ◌-◌, ◌↔◌, All, IfOk, IsTrue, false, length};
ghost use Rattle.std.specs.Prelude.{slice_index};
ghost use Rattle.std.specs.Str.{byte};
ghost use Rattle.unicode_normalization.specs.Forms.{IsInForm, Nfc, nfc};
ghost use Rattle.ucd_category.specs.GeneralCategory.{general_category};
ghost use Rattle.strkw_label.specs.DerivedProperty.{derived_property, is_permitted};
ghost use Rattle.strkw_label.specs.LabelRules.{is_mark};
ghost use Rattle.strkw_label.specs.IdnHostName as spec;

use crate::characters::{are_same, is_mark};
use crate::context_rules::fits_context;
use crate::properties::derived_property;
use std::alloc::{AllocError, Global};
use ucd_category::GeneralCategory;
use unicode_normalization::{IsNormalized, slice};

/// Whether the characters are a U-label; its length in encoded form and the Bidi rule are not judged here.
///
/// The only error is out of memory.
pub(crate) fn is_unicode_label(alloc: Global, label: &[char]) -> Result<bool, AllocError>
    ensures { IfOk result (λ valid. IsTrue valid ↔ spec.IsUnicodeLabel label.now) }
{
    if is_all_ascii(label) || !has_hyphens_inside(label) || has_reserved_hyphens(label) {
        return Ok(false);
    }
    if begins_with_mark(label) || !fits_context(label) || !is_composed(alloc, label)? {
        return Ok(false);
    }
    has_permitted_characters(alloc, label)
}

/// Whether all characters are ASCII.
pub(crate) fn is_all_ascii(label: &[char]) -> bool
    ensures { result ≡ spec.is_all_ascii label.now }
{
    label.iter().all(|c| c.is_ascii())
}

/// Whether hyphens stand in third and fourth place (RFC 5891, section 4.2.3.1).
pub(crate) fn has_reserved_hyphens(label: &[char]) -> bool
    ensures { IsTrue result ↔ spec.HasReservedHyphens label.now }
{
    label.len() > 3 && label[2] == '-' && label[3] == '-'
}

/// Whether no hyphen is first or last (RFC 5891, section 4.2.3.1).
pub(crate) fn has_hyphens_inside(label: &[char]) -> bool
    ensures { IsTrue result ↔ ((slice_index label.now 0 ≢ byte "-")
        × (slice_index label.now (length label.now - 1) ≢ byte "-")) }
{
    label.is_empty() || (label[0] != '-' && label[label.len() - 1] != '-')
}

/// Whether the first character is a combining mark (RFC 5891, section 4.2.3.2).
fn begins_with_mark(label: &[char]) -> bool
    ensures { result ≡ is_mark (general_category (slice_index label.now 0)) }
{
    !label.is_empty() && is_mark(GeneralCategory::for_char(label[0]))
}

/// Whether the characters are in the normal form NFC. Memory is taken only where the quick check does not tell.
fn is_composed(alloc: Global, label: &[char]) -> Result<bool, AllocError>
    ensures { IfOk result (λ composed. IsTrue composed ↔ IsInForm Nfc label.now) }
{
    match slice::is_nfc_quick(label) {
        IsNormalized::Yes => Ok(true),
        IsNormalized::No => Ok(false),
        IsNormalized::Maybe => {
            let composed = compose(alloc, label)?;
            Ok(are_same(&composed, label))
        }
    }
}

/// The characters in the normal form NFC.
fn compose(alloc: Global, text: &[char]) -> Result<Vec<char>, AllocError>
    ensures { IfOk result (λ composed. composed.items ≡ nfc text.now) }
{
    let mut composed = Vec::new(alloc);
    slice::extend_nfc(&mut composed, text)?;
    Ok(composed)
}

/// Whether no character is DISALLOWED or UNASSIGNED (RFC 5891, section 4.2.2).
fn has_permitted_characters(alloc: Global, label: &[char]) -> Result<bool, AllocError>
    ensures { IfOk result (λ permitted. IsTrue permitted
        ↔ All (λ c. IsTrue (is_permitted (derived_property c))) label.now) }
{
    for &c in label {
        if !derived_property(alloc, c)?.is_permitted() {
            return Ok(false);
        }
    }
    Ok(true)
}
