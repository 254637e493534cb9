//! Escapes that give a code point by a number, which may be a surrogate, read character by character behind their
//! letter.

ghost use Rattle.std.specs.Prelude.{◌≡◌};
ghost use Rattle.strkw_regex_grammar.specs.machine.CodeMakers.{hex_with};
ghost use Rattle.strkw_regex_grammar.specs.machine.CodeReading.{value_or};
ghost use Rattle.strkw_regex_grammar.specs.machine.NumberReading.{read_digit as spec_read_digit, digit_or_none, point_digit, number_next};

use crate::codes::{Wanted, with_hex_digit};

// `\u` with four digits, where a surrogate may be one of two, or another escape.
#[derive(Clone, Copy)]
pub enum Form {
    Unit,
    Other,
}

// What has been read: `\c`; `\u`; digits, as the number that they make; `\u{` and digits.
#[derive(Clone, Copy)]
pub enum NumberPart {
    Letter,
    UnitOpened,
    Digits(Form, Wanted, u32),
    PointOpened(Option<u32>),
}

// What comes of one more character.
#[derive(Clone, Copy)]
pub enum NumberRead {
    Fails,
    Goes(NumberPart),
    Makes(Form, u32),
}

impl Form {
    // Behind one more digit.
    fn read_digit(self, wanted: Wanted, number: u32) -> NumberRead
        ensures { result ≡ spec_read_digit self wanted number }
    {
        match wanted {
            Wanted::One => NumberRead::Makes(self, number),
            Wanted::Two => NumberRead::Goes(NumberPart::Digits(self, Wanted::One, number)),
            Wanted::Three => NumberRead::Goes(NumberPart::Digits(self, Wanted::Two, number)),
            Wanted::Four => NumberRead::Goes(NumberPart::Digits(self, Wanted::Three, number)),
        }
    }

    fn take_digit(self, wanted: Wanted, number: u32, c: char) -> NumberRead
        ensures { result ≡ digit_or_none self wanted (hex_with number c) }
    {
        match with_hex_digit(number, c) {
            Some(longer) => self.read_digit(wanted, longer),
            None => NumberRead::Fails,
        }
    }
}

fn take_point_digit(number: Option<u32>, c: char) -> NumberRead
    ensures { result ≡ point_digit (hex_with (value_or 0 number) c) }
{
    match with_hex_digit(number.unwrap_or(0), c) {
        Some(longer) => NumberRead::Goes(NumberPart::PointOpened(Some(longer))),
        None => NumberRead::Fails,
    }
}

impl NumberPart {
    // After one more character.
    pub(super) fn next(self, c: char) -> NumberRead
        ensures { result ≡ number_next self c }
    {
        match self {
            NumberPart::Letter if c.is_ascii_alphabetic() => {
                NumberRead::Makes(Form::Other, u32::from(c) % 32)
            }
            NumberPart::Letter => NumberRead::Fails,
            NumberPart::UnitOpened if c == '{' => NumberRead::Goes(NumberPart::PointOpened(None)),
            NumberPart::UnitOpened => Form::Unit.take_digit(Wanted::Four, 0, c),
            NumberPart::Digits(form, wanted, number) => form.take_digit(wanted, number, c),
            NumberPart::PointOpened(number) if c != '}' => take_point_digit(number, c),
            NumberPart::PointOpened(Some(number)) => NumberRead::Makes(Form::Other, number),
            NumberPart::PointOpened(None) => NumberRead::Fails,
        }
    }
}
