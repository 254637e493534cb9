//! Internationalised host names (RFC 5890, section 2.3.2.3).
ghost use Rattle.std.specs.Prelude.{◌≡◌, ◌+◌, ◌<◌, ◌≤◌, ◌↔◌, ◌++◌, List, ℕ, [], ◌∷◌, All, IfOk, IfSome};
ghost use Rattle.std.specs.Prelude.{IfNone, IsTrue, length, map, false, true, option_map};
ghost use Rattle.std.specs.Prelude.{slice_index, string_bytes};
ghost use Rattle.std.specs.Char.{IsScalar, to_ascii_lowercase};
ghost use Rattle.std.specs.List.{slice_split};
ghost use Rattle.std.specs.Option.{option_map_or};
ghost use Rattle.std.specs.Str.{byte, chars};
ghost use Rattle.idna.specs.Punycode.{encode, decode};
ghost use Rattle.strkw_net.specs.HostName.{IsLabel, is_letter_digit_hyphen};
ghost use Rattle.strkw_label.specs.LabelFacts.{AreFactsOf, AreFactsOfAll};
ghost use Rattle.strkw_label.specs.IdnHostName as spec;
ghost use Rattle.strkw_label.specs.IdnHostName.{IsIdnHostName, StandsFor, is_label_separator};

use crate::bidi_rule::{is_right_to_left_label, keeps_bidi_rule};
use crate::plain_labels::{LONGEST_HOST_NAME, after_plain_labels};
use crate::unicode_label::{
    has_hyphens_inside, has_reserved_hyphens, is_all_ascii, is_unicode_label,
};
use idna::{Errors, punycode};
use std::alloc::{AllocError, Global};

/// The most characters of a label in encoded form.
pub(crate) const LONGEST_LABEL: usize = 63;

/// The most bytes of a host name: it has at most 253 characters, and a character four bytes.
const MOST_BYTES: usize = 4 * LONGEST_HOST_NAME;

/// The length of `xn--`.
const PREFIX_LENGTH: usize = 4;

/// The most that the encoded labels of a host name and a separator for each have together.
const LONGEST_NAME: usize = 254;

/// Whether `hostname` is an internationalised host name (RFC 5890, section 2.3.2.3).
///
/// It is labels with separators between them, and has at most 253 characters in encoded form. A label is an NR-LDH
/// label, an A-label in any letter case, or a U-label (RFC 5890, section 2.3), of at most 63 characters in encoded
/// form. The separators are U+002E, U+3002, U+FF0E and U+FF61 (RFC 3490, section 3.1). If a label has characters that
/// run from right to left, each label keeps the Bidi rule (RFC 5893, section 2).
///
/// A U-label is in the normal form NFC, has a character past ASCII, no hyphen first or last, not two in third and
/// fourth place, no combining mark first, and only characters that are PVALID, or CONTEXTJ or CONTEXTO with their rule
/// satisfied (RFC 5891, section 4.2, and RFC 5892), over the tables of Unicode 18.0. An A-label is `xn--` and the
/// Punycode of a U-label.
///
/// The only error is out of memory. A name of NR-LDH labels and full stops alone takes no memory, nor does a text of
/// more than 1012 bytes or of more than 253 in ASCII.
pub fn is_valid_idn_hostname(alloc: Global, hostname: &str) -> Result<bool, AllocError>
    ensures { IfOk result (λ valid. IsTrue valid ↔ IsIdnHostName (chars hostname.now)) }
{
    if let Some([]) = after_plain_labels(hostname.as_bytes()) {
        return Ok(true);
    }
    is_decoded_host_name(alloc, hostname)
}

/// The same of any text. It stands apart, so that the quick way has no frame for it.
#[inline(never)]
fn is_decoded_host_name(alloc: Global, hostname: &str) -> Result<bool, AllocError>
    ensures { IfOk result (λ valid. IsTrue valid ↔ IsIdnHostName (chars hostname.now)) }
{
    if is_too_long(hostname) {
        return Ok(false);
    }
    let text: Vec<char> = hostname.chars().collect(alloc)?;
    is_idn_host_name(alloc, &text)
}

/// Whether a text has too many bytes for a host name, which is known before it is decoded.
fn is_too_long(text: &str) -> bool
    ensures { IsTrue result → 253 < length (chars text.now) }
{
    MOST_BYTES < text.len() || LONGEST_HOST_NAME < text.len() && text.is_ascii()
}

fn is_idn_host_name(alloc: Global, text: &[char]) -> Result<bool, AllocError>
    requires { All IsScalar text.now }
    ensures { IfOk result (λ valid. IsTrue valid ↔ IsIdnHostName text.now) }
{
    let mut facts = NameFacts::nothing();
    let mut left = Some(text);
    while let Some(rest) = left {
        let (label, after) = split_label(rest);
        let Some(more) = label_facts(alloc, label)? else {
            return Ok(false);
        };
        facts = facts.and(more);
        left = after;
    }
    Ok(facts.make_a_name())
}

/// The label in front, and what follows the separator behind it, if there is one.
fn split_label(text: &[char]) -> (&[char], Option<&[char]>)
    ensures parts { slice_split is_label_separator text.now
        ≡ result.0.now
        ∷ option_map_or (λ rest. slice_split is_label_separator rest.now) result.1 [] }
    ensures shorter { IfSome result.1 (λ rest. length rest.now + 1 ≤ length text.now) }
    ensures scalar { All IsScalar text.now
        → All IsScalar result.0.now × IfSome result.1 (λ rest. All IsScalar rest.now) }
{
    for at in 0..text.len() {
        if is_label_separator(text[at]) {
            return (&text[..at], Some(&text[at + 1..]));
        }
    }
    (text, None)
}

/// Whether `c` is one of the dots of RFC 3490, section 3.1.
fn is_label_separator(c: char) -> bool
    ensures { result ≡ is_label_separator c }
{
    matches!(c, '.' | '\u{3002}' | '\u{FF0E}' | '\u{FF61}')
}

/// What a host name asks of one of its labels: its length in encoded form, whether it has characters that run from
/// right to left, and whether it keeps the Bidi rule.
#[derive(Clone, Copy)]
struct LabelFacts {
    encoded_length: usize,
    is_right_to_left: bool,
    keeps_bidi_rule: bool,
}

impl LabelFacts {
    /// The facts of a label with this Unicode form and this length in encoded form.
    fn of(form: &[char], encoded_length: usize) -> LabelFacts
        requires { encoded_length ≡ length (spec.encoded_form form.now) }
        ensures facts { AreFactsOf result form.now }
        ensures length { result.encoded_length ≡ encoded_length }
    {
        LabelFacts {
            encoded_length,
            is_right_to_left: is_right_to_left_label(form),
            keeps_bidi_rule: keeps_bidi_rule(form),
        }
    }
}

/// What is known of labels in a row: the length of all in encoded form, with a separator for each and up to 255, and
/// whether some is from right to left, and all keep the Bidi rule.
#[derive(Clone, Copy)]
struct NameFacts {
    encoded_length: usize,
    is_bidi: bool,
    keeps_bidi_rule: bool,
}

impl NameFacts {
    fn nothing() -> NameFacts
        ensures { AreFactsOfAll result [] }
    {
        NameFacts {
            encoded_length: 0,
            is_bidi: false,
            keeps_bidi_rule: true,
        }
    }

    /// What is known with one label more.
    fn and(self, label: LabelFacts) -> NameFacts
        requires small { label.encoded_length ≤ 63 }
        requires capped { self.encoded_length ≤ 255 }
        ensures facts { (forms : List (List ℕ)) (form : List ℕ) → AreFactsOfAll self forms
            → AreFactsOf label form → AreFactsOfAll result (forms ++ form ∷ []) }
        ensures capped { result.encoded_length ≤ 255 }
    {
        NameFacts {
            encoded_length: (self.encoded_length + label.encoded_length + 1).min(LONGEST_NAME + 1),
            is_bidi: self.is_bidi | label.is_right_to_left,
            keeps_bidi_rule: self.keeps_bidi_rule & label.keeps_bidi_rule,
        }
    }

    /// Whether the labels make a host name.
    fn make_a_name(self) -> bool
        ensures { IsTrue result ↔ ((self.encoded_length ≤ 254)
            × (IsTrue self.is_bidi → IsTrue self.keeps_bidi_rule)) }
    {
        self.encoded_length <= LONGEST_NAME && (!self.is_bidi || self.keeps_bidi_rule)
    }
}

/// The facts of a label, and `None` where `label` is none.
fn label_facts(alloc: Global, label: &[char]) -> Result<Option<LabelFacts>, AllocError>
    requires { All IsScalar label.now }
    ensures some { IfOk result (λ found. IfSome found (λ facts.
        (form : List ℕ) × StandsFor label.now form × AreFactsOf facts form)) }
    ensures none { IfOk result (λ found. IfNone found
        ((form : List ℕ) → StandsFor label.now form → ⊥)) }
    ensures small { IfOk result (λ found. IfSome found (λ facts. facts.encoded_length ≤ 63)) }
{
    if label.len() > LONGEST_LABEL {
        return Ok(None);
    }
    if !is_all_ascii(label) {
        return unicode_label_facts(alloc, label);
    }
    if has_reserved_hyphens(label) {
        return a_label_facts(alloc, label);
    }
    if !is_ascii_label(label) {
        return Ok(None);
    }
    Ok(Some(LabelFacts::of(label, label.len())))
}

/// Whether the characters are a label in ASCII: 1 to 63 letters, digits and hyphens, and no hyphen first or last.
fn is_ascii_label(label: &[char]) -> bool
    ensures { IsTrue result ↔ IsLabel label.now }
{
    !label.is_empty()
        && label.len() <= LONGEST_LABEL
        && has_hyphens_inside(label)
        && label.iter().all(|&c| is_letter_digit_hyphen(c))
}

fn is_letter_digit_hyphen(c: char) -> bool
    ensures { result ≡ is_letter_digit_hyphen c }
{
    c.is_ascii_alphanumeric() || c == '-'
}

/// The facts of a U-label, and `None` where `label` is none, or is too long in encoded form.
fn unicode_label_facts(alloc: Global, label: &[char]) -> Result<Option<LabelFacts>, AllocError>
    requires small { length label.now ≤ 63 }
    requires scalar { All IsScalar label.now }
    requires beyond_ascii { spec.is_all_ascii label.now ≡ false }
    ensures some { IfOk result (λ found. IfSome found (λ facts.
        (form : List ℕ) × StandsFor label.now form × AreFactsOf facts form)) }
    ensures none { IfOk result (λ found. IfNone found
        ((form : List ℕ) → StandsFor label.now form → ⊥)) }
    ensures small { IfOk result (λ found. IfSome found (λ facts. facts.encoded_length ≤ 63)) }
{
    if !is_unicode_label(alloc, label)? {
        return Ok(None);
    }
    let encoded_length = a_label_length(alloc, label)?;
    if encoded_length > LONGEST_LABEL {
        return Ok(None);
    }
    Ok(Some(LabelFacts::of(label, encoded_length)))
}

/// How long the A-label of a text is.
pub(crate) fn a_label_length(alloc: Global, label: &[char]) -> Result<usize, AllocError>
    requires { length label.now ≤ 63 }
    ensures { IfOk result (λ count. count ≡ 4 + length (encode label.now)) }
{
    match punycode::encode(alloc, label) {
        Ok(payload) => Ok(payload.len() + PREFIX_LENGTH),
        Err(_) => Err(AllocError),
    }
}

/// The facts of an A-label, and `None` where `label` is none.
fn a_label_facts(alloc: Global, label: &[char]) -> Result<Option<LabelFacts>, AllocError>
    requires small { length label.now ≤ 63 }
    requires ascii { spec.is_all_ascii label.now ≡ true }
    requires reserved { spec.HasReservedHyphens label.now }
    ensures some { IfOk result (λ found. IfSome found (λ facts.
        (form : List ℕ) × StandsFor label.now form × AreFactsOf facts form)) }
    ensures none { IfOk result (λ found. IfNone found
        ((form : List ℕ) → StandsFor label.now form → ⊥)) }
    ensures small { IfOk result (λ found. IfSome found (λ facts. facts.encoded_length ≤ 63)) }
{
    if !is_xn(label) {
        return Ok(None);
    }
    let payload = lowercase(alloc, &label[PREFIX_LENGTH..])?;
    let Some(form) = payload_text(alloc, payload.as_str())? else {
        return Ok(None);
    };
    if !is_unicode_label(alloc, &form)? {
        return Ok(None);
    }
    Ok(Some(LabelFacts::of(&form, label.len())))
}

/// Whether the first two characters are those of `xn--`, in any letter case.
fn is_xn(label: &[char]) -> bool
    requires { spec.HasReservedHyphens label.now }
    ensures { IsTrue result ↔ ((to_ascii_lowercase (slice_index label.now 0) ≡ byte "x")
        × (to_ascii_lowercase (slice_index label.now 1) ≡ byte "n")) }
{
    label[0].to_ascii_lowercase() == 'x' && label[1].to_ascii_lowercase() == 'n'
}

/// ASCII characters in small letters.
fn lowercase(alloc: Global, text: &[char]) -> Result<String, AllocError>
    requires { spec.is_all_ascii text.now ≡ true }
    ensures { IfOk result (λ small. string_bytes small ≡ map to_ascii_lowercase text.now) }
{
    let mut small = String::with_capacity(alloc, text.len())?;
    for c in text {
        small.push(c.to_ascii_lowercase())?;
    }
    Ok(small)
}

/// The text that a payload encodes, if it encodes one (RFC 3492, section 6.2).
fn payload_text(alloc: Global, payload: &str) -> Result<Option<Vec<char>>, AllocError>
    requires { length payload.now ≤ 63 }
    ensures { IfOk result (λ found. option_map (λ text. text.items) found ≡ decode payload.now) }
{
    match punycode::decode(alloc, payload) {
        Ok(text) => Ok(Some(text)),
        Err(Errors::Invalid) => Ok(None),
        Err(Errors::OutOfMemory) => Err(AllocError),
    }
}
