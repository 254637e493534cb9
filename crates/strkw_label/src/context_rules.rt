//! The contextual rules for characters of a label (RFC 5892, appendix A), over the tables of Unicode 18.0.
ghost use Rattle.std.specs.Prelude.{◌≡◌, ◌+◌, ◌==◌, ◌<◌, ◌≤◌, ◌↔◌, length, IsTrue};
ghost use Rattle.std.specs.Int.{is_in_range};
ghost use Rattle.std.specs.List.{list_any};
ghost use Rattle.ucd_script.specs.Script.{script};
ghost use Rattle.strkw_label.specs.ContextRules as spec;

use crate::characters::is_within;
use crate::label_rules::middle_dot_stands;
use ucd_bidi::JoiningType;
use ucd_normal::canonical_combining_class;
use ucd_script::Script;

/// Whether each character stands where its contextual rule allows it.
pub(crate) fn fits_context(label: &[char]) -> bool
    ensures { IsTrue result ↔ spec.FitsContext label.now }
{
    for place in 0..label.len() {
        if !fits_neighbours(label, place) {
            return false;
        }
    }
    katakana_dot_fits(label) && has_one_digit_set(label)
}

/// Whether the character at `place` stands as its neighbours allow (RFC 5892, appendices A.1 to A.6).
fn fits_neighbours(label: &[char], place: usize) -> bool
    requires { place < length label.now }
    ensures { IsTrue result ↔ spec.FitsNeighbours label.now place }
{
    non_joiner_fits(label, place)
        && joiner_fits(label, place)
        && middle_dot_stands(label, place)
        && keraia_fits(label, place)
        && geresh_fits(label, place)
}

/// Zero width non-joiner: after a virama, or where its neighbours join (RFC 5892, appendix A.1).
fn non_joiner_fits(label: &[char], place: usize) -> bool
    requires { place < length label.now }
    ensures { IsTrue result ↔ spec.NonJoinerFits label.now place }
{
    label[place] != '\u{200C}'
        || follows_virama(label, place)
        || (joins_before(label, place) && joins_from(label, place + 1))
}

/// Zero width joiner: after a virama (RFC 5892, appendix A.2).
fn joiner_fits(label: &[char], place: usize) -> bool
    requires { place < length label.now }
    ensures { IsTrue result ↔ spec.JoinerFits label.now place }
{
    label[place] != '\u{200D}' || follows_virama(label, place)
}

/// Whether the character before `place` has the combining class Virama.
fn follows_virama(label: &[char], place: usize) -> bool
    requires { place < length label.now }
    ensures { IsTrue result ↔ spec.FollowsVirama label.now place }
{
    place > 0 && is_virama_class(canonical_combining_class(label[place - 1]))
}

fn is_virama_class(class: u8) -> bool
    ensures { result ≡ spec.is_virama_class class }
{
    class == 9
}

/// Whether the last character before `place` that is not transparent joins to what follows it.
fn joins_before(label: &[char], place: usize) -> bool
    requires { place ≤ length label.now }
    ensures { IsTrue result ↔ spec.JoinsBefore label.now place }
{
    let mut end = place;
    while end > 0 {
        let kind = JoiningType::for_char(label[end - 1]);
        if !is_transparent(kind) {
            return joins_to_the_left(kind);
        }
        end -= 1;
    }
    false
}

/// Whether the first character from `place` on that is not transparent joins to what stands before it.
fn joins_from(label: &[char], place: usize) -> bool
    requires { place ≤ length label.now }
    ensures { IsTrue result ↔ spec.JoinsFrom label.now place }
{
    for at in place..label.len() {
        let kind = JoiningType::for_char(label[at]);
        if !is_transparent(kind) {
            return joins_to_the_right(kind);
        }
    }
    false
}

fn is_transparent(kind: JoiningType) -> bool
    ensures { IsTrue result ↔ (kind ≡ JoiningType.Transparent) }
{
    matches!(kind, JoiningType::Transparent)
}

fn joins_to_the_left(kind: JoiningType) -> bool
    ensures { result ≡ spec.joins_to_the_left kind }
{
    matches!(kind, JoiningType::LeftJoining | JoiningType::DualJoining)
}

fn joins_to_the_right(kind: JoiningType) -> bool
    ensures { result ≡ spec.joins_to_the_right kind }
{
    matches!(kind, JoiningType::RightJoining | JoiningType::DualJoining)
}

/// Greek keraia: before a Greek character (RFC 5892, appendix A.4).
fn keraia_fits(label: &[char], place: usize) -> bool
    requires { place < length label.now }
    ensures { IsTrue result ↔ spec.KeraiaFits label.now place }
{
    label[place] != '\u{375}'
        || (place + 1 < label.len() && matches!(Script::for_char(label[place + 1]), Script::Greek))
}

/// Hebrew geresh and gershayim: after a Hebrew character (RFC 5892, appendices A.5 and A.6).
fn geresh_fits(label: &[char], place: usize) -> bool
    requires { place < length label.now }
    ensures { IsTrue result ↔ spec.GereshFits label.now place }
{
    !is_within(label[place], '\u{5F3}', '\u{5F4}')
        || (place > 0 && matches!(Script::for_char(label[place - 1]), Script::Hebrew))
}

/// Katakana middle dot: in a label with Hiragana, Katakana or Han (RFC 5892, appendix A.7).
fn katakana_dot_fits(label: &[char]) -> bool
    ensures { IsTrue result ↔ (IsTrue (list_any (λ c. c == 0x30FB) label.now)
        → IsTrue (list_any (λ c. spec.is_japanese (script c)) label.now)) }
{
    !has_katakana_dot(label) || has_japanese(label)
}

fn has_katakana_dot(label: &[char]) -> bool
    ensures { result ≡ list_any (λ c. c == 0x30FB) label.now }
{
    label.iter().any(|&c| c == '\u{30FB}')
}

fn has_japanese(label: &[char]) -> bool
    ensures { result ≡ list_any (λ c. spec.is_japanese (script c)) label.now }
{
    label.iter().any(|&c| is_japanese(Script::for_char(c)))
}

fn is_japanese(script: Script) -> bool
    ensures { result ≡ spec.is_japanese script }
{
    matches!(script, Script::Hiragana | Script::Katakana | Script::Han)
}

/// Arabic-Indic digits and extended ones: not both in one label (RFC 5892, appendices A.8 and A.9).
fn has_one_digit_set(label: &[char]) -> bool
    ensures { IsTrue result ↔ (IsTrue (list_any (λ c. is_in_range 0x660 0x669 c) label.now)
        → IsTrue (list_any (λ c. is_in_range 0x6F0 0x6F9 c) label.now) → ⊥) }
{
    !has_arabic_indic_digit(label) || !has_extended_digit(label)
}

fn has_arabic_indic_digit(label: &[char]) -> bool
    ensures { result ≡ list_any (λ c. is_in_range 0x660 0x669 c) label.now }
{
    label.iter().any(|&c| is_within(c, '\u{660}', '\u{669}'))
}

fn has_extended_digit(label: &[char]) -> bool
    ensures { result ≡ list_any (λ c. is_in_range 0x6F0 0x6F9 c) label.now }
{
    label.iter().any(|&c| is_within(c, '\u{6F0}', '\u{6F9}'))
}
