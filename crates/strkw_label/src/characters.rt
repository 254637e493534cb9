//! The classes of characters that the label rules speak of (RFC 5892, RFC 5891 section 4.2.3.2).
ghost use Rattle.std.specs.Prelude.{◌≡◌, ◌↔◌, IsTrue};
ghost use Rattle.std.specs.Int.{is_in_range};
ghost use Rattle.strkw_label.specs.LabelRules as spec;

use unicode::properties::GeneralCategory;

/// The characters after which a zero width joiner or non-joiner may stand: 50 of canonical combining
/// class virama, a fixed list (RFC 5892 appendices A.1 and A.2 speak of the whole class).
const VIRAMAS: [char; 50] = [
    '\u{94D}',
    '\u{9CD}',
    '\u{A4D}',
    '\u{ACD}',
    '\u{B4D}',
    '\u{BCD}',
    '\u{C4D}',
    '\u{CCD}',
    '\u{D4D}',
    '\u{DCA}',
    '\u{E3A}',
    '\u{F84}',
    '\u{1039}',
    '\u{1714}',
    '\u{1734}',
    '\u{17D2}',
    '\u{1A60}',
    '\u{1B44}',
    '\u{1BAA}',
    '\u{1BF2}',
    '\u{1BF3}',
    '\u{2D7F}',
    '\u{A806}',
    '\u{A8C4}',
    '\u{A953}',
    '\u{ABED}',
    '\u{10A3F}',
    '\u{11046}',
    '\u{1107F}',
    '\u{110B9}',
    '\u{11133}',
    '\u{111C0}',
    '\u{11235}',
    '\u{112EA}',
    '\u{1134D}',
    '\u{11442}',
    '\u{114C2}',
    '\u{115BF}',
    '\u{1163F}',
    '\u{116B6}',
    '\u{1172B}',
    '\u{11839}',
    '\u{119E0}',
    '\u{11A34}',
    '\u{11A47}',
    '\u{11A99}',
    '\u{11C3F}',
    '\u{11D44}',
    '\u{11D45}',
    '\u{11D97}',
];

/// Whether a zero width joiner or non-joiner may stand after `c`.
pub(crate) fn is_virama(c: char) -> bool
    ensures { result ≡ spec.is_virama c }
{
    VIRAMAS.contains(&c)
}

/// Whether the category is one of the three of marks.
pub(crate) fn is_mark(category: GeneralCategory) -> bool
    ensures { result ≡ spec.is_mark category }
{
    matches!(
        category,
        GeneralCategory::NonspacingMark
            | GeneralCategory::SpacingMark
            | GeneralCategory::EnclosingMark
    )
}

/// Whether characters of the category are admitted.
fn is_letter_mark_or_digit(category: GeneralCategory) -> bool
    ensures { result ≡ spec.is_letter_mark_or_digit category }
{
    matches!(
        category,
        GeneralCategory::UppercaseLetter
            | GeneralCategory::LowercaseLetter
            | GeneralCategory::TitlecaseLetter
            | GeneralCategory::ModifierLetter
            | GeneralCategory::OtherLetter
            | GeneralCategory::NonspacingMark
            | GeneralCategory::SpacingMark
            | GeneralCategory::DecimalNumber
    )
}

/// Whether `c` lies from `low` to `high`, both included.
pub(crate) fn is_within(c: char, low: char, high: char) -> bool
    ensures { result ≡ is_in_range low high c }
{
    low <= c && c <= high
}

/// Whether two texts are one.
pub(crate) fn are_same(a: &[char], b: &[char]) -> bool
    ensures { IsTrue result ↔ (a.now ≡ b.now) }
{
    a == b
}

/// Whether `c` stands in no label.
pub(crate) fn is_excluded(c: char) -> bool
    ensures { result ≡ spec.is_excluded c }
{
    c == '\u{640}'
        || c == '\u{7FA}'
        || is_within(c, '\u{302E}', '\u{302F}')
        || is_within(c, '\u{3031}', '\u{3035}')
        || c == '\u{303B}'
}

/// Whether `c` is ASCII, an exception, or of an admitted category.
pub(crate) fn is_admitted_character(c: char) -> bool
    ensures { IsTrue result ↔ spec.IsAdmittedCharacter c }
{
    c.is_ascii() || is_exception(c) || is_letter_mark_or_digit(GeneralCategory::for_char(c))
}

/// Whether `c` is admitted whatever its category.
fn is_exception(c: char) -> bool
    ensures { result ≡ spec.is_exception c }
{
    c == '\u{200C}'
        || c == '\u{200D}'
        || c == '\u{B7}'
        || c == '\u{375}'
        || is_within(c, '\u{5F3}', '\u{5F4}')
        || is_within(c, '\u{6FD}', '\u{6FE}')
        || c == '\u{F0B}'
        || c == '\u{3007}'
        || is_within(c, '\u{3040}', '\u{30FF}')
        || is_within(c, '\u{4E00}', '\u{9FFF}')
}

/// Whether `c` gives a label the Japanese context that a katakana middle dot needs.
pub(crate) fn is_kana_or_han(c: char) -> bool
    ensures { result ≡ spec.is_kana_or_han c }
{
    is_within(c, '\u{3040}', '\u{30FA}')
        || is_within(c, '\u{30FC}', '\u{30FF}')
        || is_within(c, '\u{4E00}', '\u{9FFF}')
}
