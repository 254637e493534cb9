//! Times of day: `full-time` of RFC 3339.
ghost use Rattle.std.specs.Prelude.{◌≡◌, ◌↔◌, ℕ, List, IsTrue, IfSome, IfNone, IsSomeAnd, ℤ, pos, neg_ℤ, ◌-ℤ◌, ◌<ℤ◌, ◌+◌, ◌*◌};
ghost use Rattle.std.specs.Int.{int_rem_euclid};
ghost use Rattle.std.specs.Str.{chars};
ghost use Rattle.strkw_text.specs.Abnf.{Optional};
ghost use Rattle.strkw_text.specs.Fronts.{StartsWith};
ghost use Rattle.strkw_time.specs.Readers.{EndsSecfrac};
ghost use Rattle.strkw_time.specs.Time.{TimeSecfrac, IsTimeOffset, IsFullTime};

use crate::digits::parse_two_digits;
use crate::readers::{after_byte, split_digits};

/// Whether the text is a time of day with its offset, `full-time` of RFC 3339, section 5.6, as in `12:30:45.123Z`.
///
/// Hours are 00 to 23, minutes 00 to 59, seconds 00 to 60, with any fraction of one digit or more; the offset is `Z`,
/// `z`, or a sign with 00:00 to 23:59 (`-00:00` too). Second 60 is a leap second, and stands only in the last minute of
/// a day of UTC (`00:29:60+00:30`). It may be any day: section 5.7 has leap seconds only at the end of months for which
/// one was announced, and no list of those is kept here.
pub fn is_valid_time(time: &str) -> bool
    ensures { IsTrue result ↔ IsFullTime (chars time.now) }
{
    is_full_time(time.as_bytes())
}

pub(crate) fn is_full_time(bytes: &[u8]) -> bool
    ensures { IsTrue result ↔ IsFullTime bytes.now }
{
    if bytes.len() < 9 || bytes[2] != b':' || bytes[5] != b':' {
        return false;
    }
    let Some(hour) = parse_two_digits(&bytes[..2]) else {
        return false;
    };
    let Some(minute) = parse_two_digits(&bytes[3..5]) else {
        return false;
    };
    let Some(second) = parse_two_digits(&bytes[6..8]) else {
        return false;
    };
    if 23 < hour {
        return false;
    }
    if 59 < minute {
        return false;
    }
    if 60 < second {
        return false;
    }
    let Some(zone) = after_fraction(&bytes[8..]) else {
        return false;
    };
    let Some(offset) = read_offset(zone) else {
        return false;
    };
    second < 60 || is_last_minute(hour, minute, offset)
}

/// Whether the minute is the last of a day of UTC. The offset is in minutes east of UTC.
fn is_last_minute(hour: u8, minute: u8, offset: i32) -> bool
    requires { (neg_ℤ (pos 1440) <ℤ offset) × (offset <ℤ pos 1440) }
    ensures { IsTrue result
        ↔ (int_rem_euclid (pos (60 * hour + minute) -ℤ offset) (pos 1440) ≡ pos 1439) }
{
    let minutes = u16::from(hour) * 60 + u16::from(minute);
    (i32::from(minutes) - offset).rem_euclid(1440) == 1439
}

/// What follows the fraction of a second, if there is one: `None` for a point without digits.
fn after_fraction(bytes: &[u8]) -> Option<&[u8]>
    ensures some { IfSome result (λ rest. StartsWith (Optional TimeSecfrac) bytes.now rest.now) }
    ensures ends { (rest : List ℕ) → StartsWith (Optional TimeSecfrac) bytes.now rest
        → EndsSecfrac rest
        → IsSomeAnd result (λ r. r.now ≡ rest) }
{
    let Some(after) = after_byte(bytes, b'.') else {
        return Some(bytes);
    };
    let (digits, rest) = split_digits(after);
    if digits.len() == 0 {
        return None;
    }
    Some(rest)
}

/// The offset that is the whole of the bytes, in minutes east of UTC.
// A call would cost as much as the tests.
#[inline(always)]
fn read_offset(bytes: &[u8]) -> Option<i32>
    ensures some { IfSome result (λ offset. IsTimeOffset offset bytes.now) }
    ensures none { IfNone result ((offset : ℤ) → IsTimeOffset offset bytes.now → ⊥) }
    ensures within { IfSome result (λ offset. (neg_ℤ (pos 1440) <ℤ offset) × (offset <ℤ pos 1440)) }
{
    if bytes.len() == 1 && (bytes[0] == b'Z' || bytes[0] == b'z') {
        return Some(0);
    }
    if bytes.len() != 6 || bytes[3] != b':' {
        return None;
    }
    let hour = parse_two_digits(&bytes[1..3])?;
    let minute = parse_two_digits(&bytes[4..6])?;
    if 23 < hour {
        return None;
    }
    if 59 < minute {
        return None;
    }
    let offset = i32::from(hour) * 60 + i32::from(minute);
    match bytes[0] {
        b'+' => Some(offset),
        b'-' => Some(-offset),
        _ => None,
    }
}
