//! Dates: `full-date` of RFC 3339.
ghost use Rattle.std.specs.Prelude.{◌≡◌, ◌↔◌, IsTrue};
ghost use Rattle.std.specs.Str.{chars};
ghost use Rattle.strkw_time.specs.Readers.{IsDay};
ghost use Rattle.strkw_time.specs.Time.{is_leap_year, IsFullDate};

use crate::digits::{parse_four_digits, parse_two_digits};

/// Whether the text is a date, `full-date` of RFC 3339, section 5.6, as in `2020-02-29`.
///
/// The month is from 01 to 12 and the day one of the month, by the Gregorian calendar for each year from 0000 to 9999.
pub fn is_valid_date(date: &str) -> bool
    ensures { IsTrue result ↔ IsFullDate (chars date.now) }
{
    is_full_date(date.as_bytes())
}

// A call would cost a tenth of it.
#[inline(always)]
pub(crate) fn is_full_date(bytes: &[u8]) -> bool
    ensures { IsTrue result ↔ IsFullDate bytes.now }
{
    if bytes.len() != 10 || bytes[4] != b'-' || bytes[7] != b'-' {
        return false;
    }
    let Some(year) = parse_four_digits(&bytes[..4]) else {
        return false;
    };
    let Some(month) = parse_two_digits(&bytes[5..7]) else {
        return false;
    };
    let Some(day) = parse_two_digits(&bytes[8..10]) else {
        return false;
    };
    is_day(year, month, day)
}

// A call would cost as much as the tests.
#[inline(always)]
fn is_day(year: u16, month: u8, day: u8) -> bool
    ensures { IsTrue result ↔ IsDay year month day }
{
    if day < 1 {
        return false;
    }
    match month {
        1 | 3 | 5 | 7 | 8 | 10 | 12 => day <= 31,
        4 | 6 | 9 | 11 => day <= 30,
        2 => {
            if is_leap_year(year) {
                day <= 29
            } else {
                day <= 28
            }
        }
        _ => false,
    }
}

fn is_leap_year(year: u16) -> bool
    ensures { result ≡ is_leap_year year }
{
    year % 4 == 0 && (year % 100 != 0 || year % 400 == 0)
}
