//! Escapes with `\u` in a name, read character by character behind their letter, and digits of any escape by a number.

ghost use Rattle.std.specs.Prelude.{◌≡◌};
ghost use Rattle.strkw_regex_grammar.specs.machine.CodeMakers.{pair_value as spec_pair_value, hex_with};
ghost use Rattle.strkw_regex_grammar.specs.machine.CodeReading.{make as spec_make, read_all as spec_read_all, read_digit as spec_read_digit, on_digit as spec_on_digit, point_digit, value_or};
ghost use Rattle.strkw_regex_grammar.specs.machine.CodeReading.{coding_next};
ghost use Rattle.strkw_regex_grammar.specs.machine.CodeParts.{width_of, coding_of, coded_of};

const MAX_CODE_POINT: u32 = 0x10FFFF;

// What a number of four digits is: that of `\u`, or of `\u` behind a leading surrogate.
#[derive(Clone, Copy)]
pub enum Width {
    Unit,
    Trail(u16),
}

// How many digits are still to come.
#[derive(Clone, Copy)]
pub enum Wanted {
    One,
    Two,
    Three,
    Four,
}

// What has been read: `\u`; digits, as the number that they make; a leading surrogate; that and a backslash; `\u{` and
// digits.
#[derive(Clone, Copy)]
pub enum Coding {
    UnitOpened,
    Digits(Width, Wanted, u32),
    Lead(u16),
    LeadEscaped(u16),
    PointOpened(Option<u32>),
}

// What comes of one more character.
#[derive(Clone, Copy)]
pub enum Coded {
    Fails,
    Goes(Coding),
    Makes(char),
}

// The character with this number, where a text can have it.
fn make(number: u32) -> Coded
    ensures { coded_of result ≡ spec_make number }
{
    match char::from_u32(number) {
        Some(c) => Coded::Makes(c),
        None => Coded::Fails,
    }
}

// Of a leading and a trailing surrogate.
pub fn pair(lead: u16, trail: u16) -> u32
    ensures { result ≡ spec_pair_value lead trail }
{
    u32::from(lead.saturating_sub(0xD800)) * 0x400
        + u32::from(trail.saturating_sub(0xDC00))
        + 0x10000
}

// The number with one more digit, where that is none above the greatest.
pub(crate) fn with_hex_digit(number: u32, c: char) -> Option<u32>
    ensures { result ≡ hex_with number c }
{
    let digit = c.to_digit(16)?;
    if number > MAX_CODE_POINT {
        return None;
    }
    let longer = number * 16 + digit;
    if longer <= MAX_CODE_POINT {
        Some(longer)
    } else {
        None
    }
}

impl Width {
    // Where no digit is still to come.
    fn read_all(self, number: u32) -> Coded
        ensures { coded_of result ≡ spec_read_all (width_of self) number }
    {
        match self {
            Width::Unit => {
                if 0xD800 <= number && number <= 0xDBFF {
                    Coded::Goes(Coding::Lead(number as u16))
                } else {
                    make(number)
                }
            }
            Width::Trail(lead) => {
                if 0xDC00 <= number && number <= 0xDFFF {
                    make(pair(lead, number as u16))
                } else {
                    Coded::Fails
                }
            }
        }
    }

    // Behind one more digit.
    fn read_digit(self, wanted: Wanted, number: u32) -> Coded
        ensures { coded_of result ≡ spec_read_digit (width_of self) wanted number }
    {
        match wanted {
            Wanted::One => self.read_all(number),
            Wanted::Two => Coded::Goes(Coding::Digits(self, Wanted::One, number)),
            Wanted::Three => Coded::Goes(Coding::Digits(self, Wanted::Two, number)),
            Wanted::Four => Coded::Goes(Coding::Digits(self, Wanted::Three, number)),
        }
    }

    fn take_digit(self, wanted: Wanted, number: u32, c: char) -> Coded
        ensures { coded_of result ≡ spec_on_digit (width_of self) wanted number c }
    {
        match with_hex_digit(number, c) {
            Some(longer) => self.read_digit(wanted, longer),
            None => Coded::Fails,
        }
    }
}

fn take_point_digit(number: Option<u32>, c: char) -> Coded
    ensures { coded_of result ≡ point_digit (hex_with (value_or 0 number) c) }
{
    match with_hex_digit(number.unwrap_or(0), c) {
        Some(longer) => Coded::Goes(Coding::PointOpened(Some(longer))),
        None => Coded::Fails,
    }
}

impl Coding {
    // After one more character.
    pub fn next(self, c: char) -> Coded
        ensures { coded_of result ≡ coding_next (coding_of self) c }
    {
        match self {
            Coding::UnitOpened if c == '{' => Coded::Goes(Coding::PointOpened(None)),
            Coding::UnitOpened => Width::Unit.take_digit(Wanted::Four, 0, c),
            Coding::Digits(width, wanted, number) => width.take_digit(wanted, number, c),
            Coding::Lead(lead) if c == '\\' => Coded::Goes(Coding::LeadEscaped(lead)),
            Coding::LeadEscaped(lead) if c == 'u' => Coded::Goes(Coding::Digits(
                Width::Trail(lead),
                Wanted::Four,
                0,
            )),
            Coding::PointOpened(number) if c != '}' => take_point_digit(number, c),
            Coding::PointOpened(Some(number)) => make(number),
            _ => Coded::Fails,
        }
    }
}
