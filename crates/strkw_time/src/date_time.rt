//! Date-times of RFC 3339.
ghost use Rattle.std.specs.Prelude.{◌≡◌, ◌↔◌, ◌⊎◌, IsTrue};
ghost use Rattle.std.specs.Str.{chars, byte};
ghost use Rattle.strkw_time.specs.Time.{IsDateTime};

use crate::date::is_full_date;
use crate::time::is_full_time;

/// Whether the text is a date, `T` and a time: `date-time` of RFC 3339, section 5.6, as in `2020-01-01T00:00:00Z`.
///
/// `t` may stand for `T`, and no other separator. A leap second may end any day of UTC, as in `2021-02-15T23:59:60Z`,
/// where section 5.7 has second 60 only at the end of months for which one was announced.
pub fn is_valid_datetime(datetime: &str) -> bool
    ensures { IsTrue result ↔ IsDateTime (chars datetime.now) }
{
    is_date_time(datetime.as_bytes())
}

fn is_date_time(bytes: &[u8]) -> bool
    ensures { IsTrue result ↔ IsDateTime bytes.now }
{
    if bytes.len() < 11 {
        return false;
    }
    if !is_separator(bytes[10]) {
        return false;
    }
    is_full_date(&bytes[..10]) && is_full_time(&bytes[11..])
}

fn is_separator(separator: u8) -> bool
    ensures { IsTrue result ↔ (separator ≡ byte "T") ⊎ (separator ≡ byte "t") }
{
    separator == b'T' || separator == b't'
}
