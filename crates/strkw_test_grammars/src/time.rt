//! Leap years, and the parsers of digits.

use crate::row::items;
use crate::tally::Tally;
use crate::texts::ask_made;
use serde_json::Value;
use std::alloc::{AllocError, Global};
use strkw_time::{parse_four_digits, parse_two_digits};

fn is_among(number: u64, numbers: &[Value]) -> bool {
    for other in numbers {
        if other.as_u64() == Some(number) {
            return true;
        }
    }
    false
}

/// RFC 3339, appendix C: where four divides the last two digits of a year it is leap; where they are 00, where four
/// divides the first.
pub fn ask_leap_years(alloc: Global, row: &Value, tally: &mut Tally) -> Result<(), AllocError> {
    for century in 0..100u64 {
        for year in 0..100u64 {
            let telling = if year == 0 { century } else { year };
            let expected = is_among(telling, items(row, "fourths"));
            let text = format!(in alloc; "{century:02}{year:02}-02-29");
            ask_made(alloc, "date", text, expected, tally)?;
        }
    }
    Ok(())
}

// The number that the bytes spell in decimal, read byte by byte.
fn plain_number(bytes: &[u8]) -> Option<u16> {
    let mut number = 0u16;
    for byte in bytes {
        if *byte < b'0' || b'9' < *byte {
            return None;
        }
        number = number
            .wrapping_mul(10)
            .wrapping_add(u16::from(*byte - b'0'));
    }
    Some(number)
}

// What the parser of two or of four digits answers. It takes no other number of bytes.
fn parse_number(bytes: &[u8]) -> Option<u16> {
    match bytes.len() {
        2 => match parse_two_digits(bytes) {
            Some(number) => Some(u16::from(number)),
            None => None,
        },
        4 => parse_four_digits(bytes),
        _ => None,
    }
}

/// Each byte in the place of each digit of each text.
pub fn ask_digits(alloc: Global, row: &Value, tally: &mut Tally) -> Result<(), AllocError> {
    for item in items(row, "texts") {
        let digits = item.as_str().unwrap_or("");
        for place in 0..digits.len() {
            for byte in 0..=255u8 {
                let mut bytes = Vec::new(alloc);
                bytes.extend_from_slice(digits.as_bytes())?;
                if let Some(hole) = bytes.get_mut(place) {
                    *hole = byte;
                }
                let is_expected = parse_number(&bytes) == plain_number(&bytes);
                tally.count(is_expected, digits, "another number")?;
            }
        }
    }
    Ok(())
}
