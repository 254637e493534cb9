//! One U-label (RFC 5890, section 2.3.2.1), whatever name it stands in.
ghost use Rattle.std.specs.Prelude.{◌↔◌, All, IfOk, IsTrue};
ghost use Rattle.std.specs.Char.{IsScalar};
ghost use Rattle.std.specs.Str.{chars};
ghost use Rattle.strkw_label.specs.IdnHostName.{IsULabel};

use crate::bidi_rule::{is_right_to_left_label, keeps_bidi_rule};
use crate::idn_host_name::{LONGEST_LABEL, a_label_length};
use crate::unicode_label::is_unicode_label;
use std::alloc::{AllocError, Global};

/// Whether `label` is a U-label (RFC 5890, section 2.3.2.1), as in `münchen`.
///
/// It has a character past ASCII, is in the normal form NFC, has no hyphen first or last, not two in third and fourth
/// place, no combining mark first, and only characters that are PVALID, or CONTEXTJ or CONTEXTO with their rule
/// satisfied (RFC 5891, section 4.2, and RFC 5892), over the tables of Unicode 18.0. Where a character runs from right
/// to left, it keeps the Bidi rule (RFC 5893, section 2). Its A-label has at most 63 characters.
///
/// The only error is out of memory.
pub fn is_valid_u_label(alloc: Global, label: &str) -> Result<bool, AllocError>
    ensures { IfOk result (λ valid. IsTrue valid ↔ IsULabel (chars label.now)) }
{
    let characters: Vec<char> = label.chars().collect(alloc)?;
    is_u_label(alloc, &characters)
}

fn is_u_label(alloc: Global, label: &[char]) -> Result<bool, AllocError>
    requires { All IsScalar label.now }
    ensures { IfOk result (λ valid. IsTrue valid ↔ IsULabel label.now) }
{
    if label.len() > LONGEST_LABEL {
        return Ok(false);
    }
    if !is_unicode_label(alloc, label)? {
        return Ok(false);
    }
    let encoded_length = a_label_length(alloc, label)?;
    if encoded_length > LONGEST_LABEL {
        return Ok(false);
    }
    if !is_right_to_left_label(label) {
        return Ok(true);
    }
    Ok(keeps_bidi_rule(label))
}
