//! Durations of RFC 3339.
ghost use Rattle.std.specs.Prelude.{◌↔◌, ℕ, List, IsTrue, IfSome, IfNone};
ghost use Rattle.std.specs.Str.{chars};
ghost use Rattle.strkw_text.specs.Abnf.{◌⨾◌, Optional};
ghost use Rattle.strkw_time.specs.Duration.{DurSecond, DurMinute, DurTime, DurDay, DurMonth, IsDuration};
ghost use Rattle.strkw_time.specs.Readers.{AmountThen};

use crate::readers::{after_byte, split_digits};

/// Whether the text is a duration of RFC 3339, appendix A, as in `P1Y2M3DT4H5M6S` or `P2W`.
///
/// Behind `P` stands a date of years, months and days, behind `T` a time of hours, minutes and seconds, or weeks alone;
/// at least one amount is there, each of one digit or more. Units stand in falling order and none is left out between
/// two of a date or of a time that stand. The letters are upper case.
pub fn is_valid_duration(duration: &str) -> bool
    ensures { IsTrue result ↔ IsDuration (chars duration.now) }
{
    is_duration(duration.as_bytes())
}

fn is_duration(bytes: &[u8]) -> bool
    ensures { IsTrue result ↔ IsDuration bytes.now }
{
    let Some(bytes) = after_byte(bytes, b'P') else {
        return false;
    };
    let Some((unit, rest)) = split_amount(bytes) else {
        return is_dur_time(bytes);
    };
    match unit {
        b'D' => is_optional_time(rest),
        b'M' => is_after_months(rest),
        b'Y' => is_after_years(rest),
        b'W' => rest.len() == 0,
        _ => false,
    }
}

/// Whether the bytes may follow the years of a date.
fn is_after_years(bytes: &[u8]) -> bool
    ensures { IsTrue result ↔ (Optional DurMonth ⨾ Optional DurTime) bytes.now }
{
    let Some((unit, rest)) = split_amount(bytes) else {
        return is_optional_time(bytes);
    };
    match unit {
        b'M' => is_after_months(rest),
        _ => false,
    }
}

/// Whether the bytes may follow the months of a date.
fn is_after_months(bytes: &[u8]) -> bool
    ensures { IsTrue result ↔ (Optional DurDay ⨾ Optional DurTime) bytes.now }
{
    let Some((unit, rest)) = split_amount(bytes) else {
        return is_optional_time(bytes);
    };
    match unit {
        b'D' => is_optional_time(rest),
        _ => false,
    }
}

fn is_optional_time(bytes: &[u8]) -> bool
    ensures { IsTrue result ↔ Optional DurTime bytes.now }
{
    bytes.len() == 0 || is_dur_time(bytes)
}

fn is_dur_time(bytes: &[u8]) -> bool
    ensures { IsTrue result ↔ DurTime bytes.now }
{
    let Some(bytes) = after_byte(bytes, b'T') else {
        return false;
    };
    let Some((unit, rest)) = split_amount(bytes) else {
        return false;
    };
    match unit {
        b'H' => rest.len() == 0 || is_dur_minute(rest),
        b'M' => rest.len() == 0 || is_dur_second(rest),
        b'S' => rest.len() == 0,
        _ => false,
    }
}

fn is_dur_minute(bytes: &[u8]) -> bool
    ensures { IsTrue result ↔ DurMinute bytes.now }
{
    let Some((unit, rest)) = split_amount(bytes) else {
        return false;
    };
    match unit {
        b'M' => rest.len() == 0 || is_dur_second(rest),
        _ => false,
    }
}

fn is_dur_second(bytes: &[u8]) -> bool
    ensures { IsTrue result ↔ DurSecond bytes.now }
{
    let Some((unit, rest)) = split_amount(bytes) else {
        return false;
    };
    match unit {
        b'S' => rest.len() == 0,
        _ => false,
    }
}

/// The letter of the unit of the amount at the front, and what follows it.
fn split_amount(bytes: &[u8]) -> Option<(u8, &[u8])>
    ensures some { IfSome result (λ amount. AmountThen amount.0 bytes.now amount.1.now) }
    ensures none { IfNone result ((unit : ℕ) → (rest : List ℕ) → AmountThen unit bytes.now rest
        → ⊥) }
{
    let (digits, rest) = split_digits(bytes);
    if digits.len() == 0 {
        return None;
    }
    if rest.len() == 0 {
        return None;
    }
    Some((rest[0], &rest[1..]))
}
