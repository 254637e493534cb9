//! The derived property of a character (RFC 5892), over the tables of Unicode 18.0.
ghost use Rattle.std.specs.Prelude.{◌≡◌, ◌++◌, IfOk, IfSome, OnOk};
ghost use Rattle.caseless.specs.Caseless.{default_case_fold};
ghost use Rattle.ucd_case.specs.CaseFolding.{full_fold};
ghost use Rattle.unicode_normalization.specs.Forms.{nfkc};
ghost use Rattle.strkw_label.specs.DerivedProperty as spec;

use crate::characters::{are_same, is_within};
use std::alloc::{AllocError, Global};
use ucd_case::full_folding;
use ucd_category::GeneralCategory;
use ucd_derived::is_default_ignorable_code_point;
use ucd_east_asian::HangulSyllableType;
use ucd_props::{is_join_control, is_noncharacter_code_point, is_white_space};
use unicode_normalization::{IsNormalized, slice};

/// What RFC 5892, section 3, derives for a code point.
#[derive(Clone, Copy, Debug, PartialEq, Eq)]
pub enum DerivedProperty {
    /// PVALID: it may stand in a label.
    ProtocolValid,
    /// CONTEXTJ: a joiner, which may stand where its contextual rule is satisfied.
    ContextJ,
    /// CONTEXTO: another character that may stand where its contextual rule is satisfied.
    ContextO,
    /// DISALLOWED: it stands in no label.
    Disallowed,
    /// UNASSIGNED: Unicode 18.0 has no such character.
    Unassigned,
}

impl DerivedProperty {
    /// Whether a character with this property may stand in a label: where its contextual rule is satisfied, if it has
    /// one.
    pub(crate) fn is_permitted(self) -> bool
        ensures { result ≡ spec.is_permitted self }
    {
        matches!(
            self,
            DerivedProperty::ProtocolValid | DerivedProperty::ContextJ | DerivedProperty::ContextO
        )
    }
}

/// The derived property of `c`, by the algorithm of RFC 5892, section 3, over the tables of Unicode 18.0.
///
/// The only error is out of memory. Memory is taken only for a character that folds to others, or of which the quick
/// check does not tell whether it is in the normal form NFKC.
#[tactic(auto, unfolding(crate::specs::DerivedProperty::derived_property))]
pub fn derived_property(alloc: Global, c: char) -> Result<DerivedProperty, AllocError>
    ensures { IfOk result (λ property. property ≡ spec.derived_property c) }
{
    if is_valid_exception(c) {
        return Ok(DerivedProperty::ProtocolValid);
    }
    if is_context_exception(c) {
        return Ok(DerivedProperty::ContextO);
    }
    if is_disallowed_exception(c) {
        return Ok(DerivedProperty::Disallowed);
    }
    if is_unassigned(c) {
        return Ok(DerivedProperty::Unassigned);
    }
    if is_ldh(c) {
        return Ok(DerivedProperty::ProtocolValid);
    }
    if is_join_control(c) {
        return Ok(DerivedProperty::ContextJ);
    }
    if is_disallowed_class(alloc, c)? {
        return Ok(DerivedProperty::Disallowed);
    }
    if is_letter_digit_category(GeneralCategory::for_char(c)) {
        return Ok(DerivedProperty::ProtocolValid);
    }
    Ok(DerivedProperty::Disallowed)
}

/// Whether `c` is an exception that is PVALID (RFC 5892, section 2.6).
fn is_valid_exception(c: char) -> bool
    ensures { result ≡ spec.is_valid_exception c }
{
    matches!(
        c,
        '\u{DF}' | '\u{3C2}' | '\u{6FD}' | '\u{6FE}' | '\u{F0B}' | '\u{3007}'
    )
}

/// Whether `c` is an exception that is CONTEXTO (RFC 5892, section 2.6).
fn is_context_exception(c: char) -> bool
    ensures { result ≡ spec.is_context_exception c }
{
    c == '\u{B7}'
        || c == '\u{375}'
        || c == '\u{5F3}'
        || c == '\u{5F4}'
        || c == '\u{30FB}'
        || is_within(c, '\u{660}', '\u{669}')
        || is_within(c, '\u{6F0}', '\u{6F9}')
}

/// Whether `c` is an exception that is DISALLOWED (RFC 5892, section 2.6).
fn is_disallowed_exception(c: char) -> bool
    ensures { result ≡ spec.is_disallowed_exception c }
{
    c == '\u{640}'
        || c == '\u{7FA}'
        || c == '\u{302E}'
        || c == '\u{302F}'
        || is_within(c, '\u{3031}', '\u{3035}')
        || c == '\u{303B}'
}

/// Whether Unicode has no character `c`, and `c` is no noncharacter (RFC 5892, section 2.10).
fn is_unassigned(c: char) -> bool
    ensures { result ≡ spec.is_unassigned c }
{
    is_unassigned_category(GeneralCategory::for_char(c)) && !is_noncharacter_code_point(c)
}

fn is_unassigned_category(category: GeneralCategory) -> bool
    ensures { result ≡ spec.is_unassigned_category category }
{
    matches!(category, GeneralCategory::Unassigned)
}

/// Whether `c` is the hyphen, a digit or a small letter of ASCII (RFC 5892, section 2.5).
fn is_ldh(c: char) -> bool
    ensures { result ≡ spec.is_ldh c }
{
    c == '-' || is_within(c, '0', '9') || is_within(c, 'a', 'z')
}

/// Whether a class disallows `c`: Unstable, IgnorableProperties, IgnorableBlocks or OldHangulJamo (RFC 5892, sections
/// 2.2 to 2.4 and 2.9).
fn is_disallowed_class(alloc: Global, c: char) -> Result<bool, AllocError>
    ensures { IfOk result (λ disallowed. disallowed ≡ spec.is_disallowed_class c) }
{
    Ok(
        is_unstable(alloc, c)?
            || has_ignorable_property(c)
            || is_in_ignorable_block(c)
            || is_old_jamo_type(HangulSyllableType::for_char(c)),
    )
}

/// Whether `c` changes by NFKC, case folding and NFKC again (RFC 5892, section 2.2).
fn is_unstable(alloc: Global, c: char) -> Result<bool, AllocError>
    ensures { IfOk result (λ unstable. unstable ≡ spec.is_unstable c) }
{
    match quick_instability(c) {
        Some(unstable) => Ok(unstable),
        None => is_changed(alloc, c),
    }
}

/// Whether `c` is unstable, where the quick check and the table of foldings tell.
fn quick_instability(c: char) -> Option<bool>
    ensures { IfSome result (λ unstable. unstable ≡ spec.is_unstable c) }
{
    match slice::is_nfkc_quick(&[c]) {
        IsNormalized::No => Some(true),
        IsNormalized::Yes => {
            if full_folding(c).is_empty() {
                Some(false)
            } else {
                None
            }
        }
        IsNormalized::Maybe => None,
    }
}

/// Whether `c` is unstable, by the three steps.
fn is_changed(alloc: Global, c: char) -> Result<bool, AllocError>
    ensures { IfOk result (λ unstable. unstable ≡ spec.is_unstable c) }
{
    let alone = [c];
    let normal = compatibility_composed(alloc, &alone)?;
    let folded = case_folded(alloc, &normal)?;
    let stable = compatibility_composed(alloc, &folded)?;
    Ok(!are_same(&stable, &alone))
}

/// The characters in the normal form NFKC.
fn compatibility_composed(alloc: Global, text: &[char]) -> Result<Vec<char>, AllocError>
    ensures { IfOk result (λ normal. normal.items ≡ nfkc text.now) }
{
    let mut normal = Vec::new(alloc);
    slice::extend_nfkc(&mut normal, text)?;
    Ok(normal)
}

/// The characters in full case folding.
fn case_folded(alloc: Global, text: &[char]) -> Result<Vec<char>, AllocError>
    ensures { IfOk result (λ folded. folded.items ≡ default_case_fold text.now) }
{
    let mut folded = Vec::new(alloc);
    for &c in text {
        push_folded(&mut folded, c)?;
    }
    Ok(folded)
}

/// Appends the full case folding of `c`.
fn push_folded(folded: &mut Vec<char>, c: char) -> Result<(), AllocError>
    ensures { OnOk result (folded.new.items ≡ folded.old.items ++ full_fold c) }
{
    let folding = full_folding(c);
    if folding.is_empty() {
        folded.push(c)?;
        return Ok(());
    }
    folded.extend_from_slice(folding)
}

/// Whether `c` has one of three properties: Default_Ignorable_Code_Point, White_Space or Noncharacter_Code_Point (RFC
/// 5892, section 2.3).
fn has_ignorable_property(c: char) -> bool
    ensures { result ≡ spec.has_ignorable_property c }
{
    is_default_ignorable_code_point(c) || is_white_space(c) || is_noncharacter_code_point(c)
}

/// Whether `c` stands in one of three blocks of symbols and of musical notation (RFC 5892, section 2.4).
fn is_in_ignorable_block(c: char) -> bool
    ensures { result ≡ spec.is_in_ignorable_block c }
{
    is_within(c, '\u{20D0}', '\u{20FF}')
        || is_within(c, '\u{1D100}', '\u{1D1FF}')
        || is_within(c, '\u{1D200}', '\u{1D24F}')
}

/// Whether the type is that of a conjoining jamo (RFC 5892, section 2.9).
fn is_old_jamo_type(kind: HangulSyllableType) -> bool
    ensures { result ≡ spec.is_old_jamo_type kind }
{
    matches!(
        kind,
        HangulSyllableType::LeadingJamo
            | HangulSyllableType::VowelJamo
            | HangulSyllableType::TrailingJamo
    )
}

/// Whether characters of the category are LetterDigits (RFC 5892, section 2.1).
fn is_letter_digit_category(category: GeneralCategory) -> bool
    ensures { result ≡ spec.is_letter_digit_category category }
{
    matches!(
        category,
        GeneralCategory::LowercaseLetter
            | GeneralCategory::UppercaseLetter
            | GeneralCategory::OtherLetter
            | GeneralCategory::DecimalNumber
            | GeneralCategory::ModifierLetter
            | GeneralCategory::NonspacingMark
            | GeneralCategory::SpacingMark
    )
}
