//! Decimal digits, all bytes tested at once in one word.
//!
//! A byte is an ASCII digit exactly where its upper half is 3 and stays 3 when 6 is added. The bytes are tested less
//! 0x30, which leaves the value of a digit: then the upper half is 0 and stays 0.
ghost use Rattle.std.specs.Prelude.{◌≡◌, length, SomeIff};
ghost use Rattle.std.specs.Str.Parse.{AllDigits, digits_value};

/// The number that two bytes spell in decimal, from 0 to 99: `Some` exactly where both are ASCII digits.
///
/// `bytes` has to be two bytes long. These are the two digits of RFC 3339, section 5.6, as in `date-month = 2DIGIT`.
pub fn parse_two_digits(bytes: &[u8]) -> Option<u8>
    requires { length bytes.now ≡ 2 }
    ensures { SomeIff result (AllDigits 10 bytes.now) (digits_value 10 bytes.now) }
{
    let word = u16::from_le_bytes([bytes[0], bytes[1]]);
    let digits = word.wrapping_sub(0x3030);
    let halves = digits & 0xF0F0;
    let halves_with_six = digits.wrapping_add(0x0606) & 0xF0F0;
    // One comparison for both: each further branch would show in the time of a date.
    if (halves | halves_with_six) != 0 {
        return None;
    }

    // The upper byte of the product is ten times the first digit and the second.
    Some((digits.wrapping_mul(10 * 256 + 1) >> 8) as u8)
}

/// The number that four bytes spell in decimal, from 0 to 9999: `Some` exactly where all are ASCII digits.
///
/// `bytes` has to be four bytes long. These are the four digits of RFC 3339, section 5.6, `date-fullyear = 4DIGIT`.
pub fn parse_four_digits(bytes: &[u8]) -> Option<u16>
    requires { length bytes.now ≡ 4 }
    ensures { SomeIff result (AllDigits 10 bytes.now) (digits_value 10 bytes.now) }
{
    let word = u32::from_le_bytes([bytes[0], bytes[1], bytes[2], bytes[3]]);
    let digits = word.wrapping_sub(0x3030_3030);
    let halves = digits & 0xF0F0_F0F0;
    let halves_with_six = digits.wrapping_add(0x0606_0606) & 0xF0F0_F0F0;
    if (halves | halves_with_six) != 0 {
        return None;
    }

    // Digits are multiplied into pairs, as above, and pairs into the number.
    let pairs = (digits.wrapping_mul(10 * 256 + 1) >> 8) & 0x00FF_00FF;
    Some((pairs.wrapping_mul(100 * 65_536 + 1) >> 16) as u16)
}
