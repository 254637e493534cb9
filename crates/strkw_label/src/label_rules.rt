//! The rules for the characters of a label (RFC 5891 section 4.2.3.2, RFC 5892).
ghost use Rattle.std.specs.Prelude.{◌≡◌, ◌==◌, ◌<◌, ◌↔◌, ◌||◌, false, length, IsTrue, slice_index};
ghost use Rattle.std.specs.Int.{is_in_range};
ghost use Rattle.unicode.specs.GeneralCategory.{general_category};
ghost use Rattle.strkw_label.specs.LabelRules as spec;

use crate::characters::{
    is_admitted_character, is_excluded, is_kana_or_han, is_mark, is_virama, is_within,
};
use unicode::properties::GeneralCategory;

/// Whether the characters may stand as a label. Nine conditions (RFC 5891 section 4.2.3.2, RFC 5892
/// appendices A.1 to A.9): no mark is first; U+200C and U+200D stand after a virama, U+00B7 between
/// two `l`, U+0375 before a Greek character, U+05F3 and U+05F4 after a Hebrew one; no character is
/// one that RFC 5892 section 2.6 disallows; each is ASCII, a joiner, an exception of that section,
/// kana, Han, or of category Lu, Ll, Lt, Lm, Lo, Mn, Mc or Nd; U+30FB stands only in a label with
/// kana or Han; and no label has both Arabic-Indic digits and extended ones.
///
/// Greek, Hebrew, kana and Han are the blocks Greek and Coptic, Hebrew, Hiragana and Katakana, and
/// CJK Unified Ideographs, where RFC 5892 speaks of scripts; the viramas are a fixed list of 50. The
/// label is any list of characters. Its length, hyphens, direction and normal form are not judged.
pub fn validate_unicode_label(label: &[char]) -> bool
    ensures { IsTrue result ↔ spec.IsAdmittedLabel label.now }
{
    if begins_with_mark(label) {
        return false;
    }
    let mut seen = Seen::nothing();
    for place in 0..label.len() {
        if !stands_well(label, place) {
            return false;
        }
        seen = seen.and(label[place]);
    }
    seen.may_stand_together()
}

/// Whether a mark is the first character; no ASCII character is a mark.
fn begins_with_mark(label: &[char]) -> bool
    ensures { IsTrue result ↔ ((0 < length label.now)
        × IsTrue (spec.is_mark (general_category (slice_index label.now 0)))) }
{
    if label.is_empty() {
        return false;
    }
    if label[0].is_ascii() {
        return false;
    }
    is_mark(GeneralCategory::for_char(label[0]))
}

/// Whether the character at `place` stands as its own rule and its neighbours allow.
fn stands_well(label: &[char], place: usize) -> bool
    requires { place < length label.now }
    ensures { IsTrue result ↔ spec.StandsWell label.now place }
{
    if label[place].is_ascii() {
        return true;
    }
    if !joiner_stands(label, place) {
        return false;
    }
    if !middle_dot_stands(label, place) {
        return false;
    }
    if !keraia_stands(label, place) {
        return false;
    }
    if !geresh_stands(label, place) {
        return false;
    }
    if is_excluded(label[place]) {
        return false;
    }
    is_admitted_character(label[place])
}

/// Zero width non-joiner and joiner: only after a virama (RFC 5892 appendix A.2, and the first case
/// of A.1).
fn joiner_stands(label: &[char], place: usize) -> bool
    requires { place < length label.now }
    ensures { IsTrue result ↔ spec.JoinerStands label.now place }
{
    !is_within(label[place], '\u{200C}', '\u{200D}') || (place > 0 && is_virama(label[place - 1]))
}

/// Middle dot: only between two `l` (RFC 5892 appendix A.3).
pub(crate) fn middle_dot_stands(label: &[char], place: usize) -> bool
    requires { place < length label.now }
    ensures { IsTrue result ↔ spec.MiddleDotStands label.now place }
{
    label[place] != '\u{B7}'
        || (place > 0
            && label[place - 1] == 'l'
            && place + 1 < label.len()
            && label[place + 1] == 'l')
}

/// Greek keraia: only before a Greek character (RFC 5892 appendix A.4).
fn keraia_stands(label: &[char], place: usize) -> bool
    requires { place < length label.now }
    ensures { IsTrue result ↔ spec.KeraiaStands label.now place }
{
    label[place] != '\u{375}'
        || (place + 1 < label.len() && is_within(label[place + 1], '\u{370}', '\u{3FF}'))
}

/// Hebrew geresh and gershayim: only after a Hebrew character (RFC 5892 appendices A.5, A.6).
fn geresh_stands(label: &[char], place: usize) -> bool
    requires { place < length label.now }
    ensures { IsTrue result ↔ spec.GereshStands label.now place }
{
    !is_within(label[place], '\u{5F3}', '\u{5F4}')
        || (place > 0 && is_within(label[place - 1], '\u{590}', '\u{5FF}'))
}

/// Which characters that rules on a whole label ask for have been seen in it (RFC 5892 appendices
/// A.7 to A.9).
#[derive(Clone, Copy)]
struct Seen {
    katakana_dot: bool,
    kana_or_han: bool,
    arabic_indic_digit: bool,
    extended_digit: bool,
}

impl Seen {
    fn nothing() -> Seen
        ensures katakana_dot { result.katakana_dot ≡ false }
        ensures kana_or_han { result.kana_or_han ≡ false }
        ensures arabic_indic_digit { result.arabic_indic_digit ≡ false }
        ensures extended_digit { result.extended_digit ≡ false }
    {
        Seen {
            katakana_dot: false,
            kana_or_han: false,
            arabic_indic_digit: false,
            extended_digit: false,
        }
    }

    /// What has been seen with `c` as the next character; nothing below U+0660 counts.
    fn and(self, c: char) -> Seen
        ensures katakana_dot { result.katakana_dot ≡ (self.katakana_dot || (c == 0x30FB)) }
        ensures kana_or_han { result.kana_or_han ≡ (self.kana_or_han || spec.is_kana_or_han c) }
        ensures arabic_indic_digit { result.arabic_indic_digit
            ≡ (self.arabic_indic_digit || is_in_range 0x660 0x669 c) }
        ensures extended_digit { result.extended_digit
            ≡ (self.extended_digit || is_in_range 0x6F0 0x6F9 c) }
    {
        if c < '\u{660}' {
            return self;
        }
        Seen {
            katakana_dot: self.katakana_dot || c == '\u{30FB}',
            kana_or_han: self.kana_or_han || is_kana_or_han(c),
            arabic_indic_digit: self.arabic_indic_digit || is_within(c, '\u{660}', '\u{669}'),
            extended_digit: self.extended_digit || is_within(c, '\u{6F0}', '\u{6F9}'),
        }
    }

    /// Whether these may stand in one label: a katakana middle dot beside kana or han, and not both
    /// sets of digits.
    fn may_stand_together(self) -> bool
        ensures katakana_dots { IsTrue result → IsTrue self.katakana_dot → IsTrue self.kana_or_han }
        ensures one_digit_set { IsTrue result → IsTrue self.arabic_indic_digit
            → IsTrue self.extended_digit → ⊥ }
        ensures both { (IsTrue self.katakana_dot → IsTrue self.kana_or_han)
            → (IsTrue self.arabic_indic_digit → IsTrue self.extended_digit → ⊥) → IsTrue result }
    {
        (!self.katakana_dot || self.kana_or_han)
            && !(self.arabic_indic_digit && self.extended_digit)
    }
}
