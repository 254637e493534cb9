//! The Bidi rule (RFC 5893, section 2), over the tables of Unicode 18.0.
ghost use Rattle.std.specs.Prelude.{◌≡◌, ◌↔◌, ◌||◌, Bool, IsTrue, false};
ghost use Rattle.std.specs.List.{AllPass, list_any};
ghost use Rattle.ucd_bidi.specs.BidiClass.{bidi_class};
ghost use Rattle.strkw_label.specs.BidiRule as spec;

use ucd_bidi::BidiClass;

/// Whether a label has a character that runs from right to left: one of Bidi_Class R, AL or AN (RFC 5893, section 1.4).
pub(crate) fn is_right_to_left_label(label: &[char]) -> bool
    ensures { result ≡ spec.is_right_to_left_label label.now }
{
    label
        .iter()
        .any(|&c| is_right_to_left(BidiClass::for_char(c)))
}

/// Whether a label of a Bidi domain name keeps the Bidi rule. The first character tells the direction (condition 1).
pub(crate) fn keeps_bidi_rule(label: &[char]) -> bool
    ensures { IsTrue result ↔ spec.KeepsBidiRule label.now }
{
    let [first, ..] = label else {
        return false;
    };
    let class = BidiClass::for_char(*first);
    if is_left_to_right(class) {
        keeps_left_to_right(label)
    } else {
        begins_right_to_left(class) && keeps_right_to_left(label)
    }
}

/// Conditions 2, 3 and 4.
fn keeps_right_to_left(label: &[char]) -> bool
    ensures { IsTrue result ↔ spec.KeepsRightToLeft label.now }
{
    has_right_to_left_classes(label) && ends_right_to_left(label) && has_one_kind_of_number(label)
}

/// Condition 2.
fn has_right_to_left_classes(label: &[char]) -> bool
    ensures { IsTrue result ↔ AllPass (λ c. spec.is_right_to_left (bidi_class c)
        || spec.is_of_both_directions (bidi_class c)) label.now }
{
    label.iter().all(|&c| {
        let class = BidiClass::for_char(c);
        is_right_to_left(class) || is_of_both_directions(class)
    })
}

/// Condition 3.
fn ends_right_to_left(label: &[char]) -> bool
    ensures { IsTrue result
        ↔ spec.EndsIn (λ class. spec.is_right_to_left class || spec.is_european_number class)
        label.now }
{
    is_right_to_left_end(end_class(label))
}

/// Whether the class is one of R, AL, EN and AN.
fn is_right_to_left_end(class: BidiClass) -> bool
    ensures { result ≡ (spec.is_right_to_left class || spec.is_european_number class) }
{
    is_right_to_left(class) || is_european_number(class)
}

/// Condition 4.
fn has_one_kind_of_number(label: &[char]) -> bool
    ensures { IsTrue result
        ↔ (IsTrue (list_any (λ c. spec.is_european_number (bidi_class c)) label.now)
        → IsTrue (list_any (λ c. spec.is_arabic_number (bidi_class c)) label.now) → ⊥) }
{
    !has_european_number(label) || !has_arabic_number(label)
}

fn has_european_number(label: &[char]) -> bool
    ensures { result ≡ list_any (λ c. spec.is_european_number (bidi_class c)) label.now }
{
    label
        .iter()
        .any(|&c| is_european_number(BidiClass::for_char(c)))
}

fn has_arabic_number(label: &[char]) -> bool
    ensures { result ≡ list_any (λ c. spec.is_arabic_number (bidi_class c)) label.now }
{
    label
        .iter()
        .any(|&c| is_arabic_number(BidiClass::for_char(c)))
}

/// Conditions 5 and 6.
fn keeps_left_to_right(label: &[char]) -> bool
    ensures { IsTrue result ↔ spec.KeepsLeftToRight label.now }
{
    has_left_to_right_classes(label) && ends_left_to_right(label)
}

/// Condition 5.
fn has_left_to_right_classes(label: &[char]) -> bool
    ensures { IsTrue result ↔ AllPass (λ c. spec.is_left_to_right (bidi_class c)
        || spec.is_of_both_directions (bidi_class c)) label.now }
{
    label.iter().all(|&c| {
        let class = BidiClass::for_char(c);
        is_left_to_right(class) || is_of_both_directions(class)
    })
}

/// Condition 6.
fn ends_left_to_right(label: &[char]) -> bool
    ensures { IsTrue result
        ↔ spec.EndsIn (λ class. spec.is_left_to_right class || spec.is_european_number class)
        label.now }
{
    is_left_to_right_end(end_class(label))
}

/// Whether the class is L or EN.
fn is_left_to_right_end(class: BidiClass) -> bool
    ensures { result ≡ (spec.is_left_to_right class || spec.is_european_number class) }
{
    is_left_to_right(class) || is_european_number(class)
}

/// The class of the last character that is no nonspacing mark, and NSM where there is none.
fn end_class(label: &[char]) -> BidiClass
    ensures { (ends : BidiClass → Bool) → ends BidiClass.NonspacingMark ≡ false
        → IsTrue (ends result) ↔ spec.EndsIn ends label.now }
{
    let mut end = label.len();
    while end > 0 {
        let class = BidiClass::for_char(label[end - 1]);
        if !is_nonspacing_mark(class) {
            return class;
        }
        end -= 1;
    }
    BidiClass::NonspacingMark
}

fn is_nonspacing_mark(class: BidiClass) -> bool
    ensures { IsTrue result ↔ (class ≡ BidiClass.NonspacingMark) }
{
    matches!(class, BidiClass::NonspacingMark)
}

fn is_left_to_right(class: BidiClass) -> bool
    ensures { result ≡ spec.is_left_to_right class }
{
    matches!(class, BidiClass::LeftToRight)
}

fn begins_right_to_left(class: BidiClass) -> bool
    ensures { result ≡ spec.begins_right_to_left class }
{
    matches!(class, BidiClass::RightToLeft | BidiClass::ArabicLetter)
}

fn is_right_to_left(class: BidiClass) -> bool
    ensures { result ≡ spec.is_right_to_left class }
{
    matches!(
        class,
        BidiClass::RightToLeft | BidiClass::ArabicLetter | BidiClass::ArabicNumber
    )
}

fn is_european_number(class: BidiClass) -> bool
    ensures { result ≡ spec.is_european_number class }
{
    matches!(class, BidiClass::EuropeanNumber)
}

fn is_arabic_number(class: BidiClass) -> bool
    ensures { result ≡ spec.is_arabic_number class }
{
    matches!(class, BidiClass::ArabicNumber)
}

/// Whether the class is one of EN, ES, CS, ET, ON, BN and NSM.
fn is_of_both_directions(class: BidiClass) -> bool
    ensures { result ≡ spec.is_of_both_directions class }
{
    matches!(
        class,
        BidiClass::EuropeanNumber
            | BidiClass::EuropeanSeparator
            | BidiClass::CommonSeparator
            | BidiClass::EuropeanTerminator
            | BidiClass::OtherNeutral
            | BidiClass::BoundaryNeutral
            | BidiClass::NonspacingMark
    )
}
