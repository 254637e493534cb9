//! Numbers: their order, equality, multiples, and sizes.

ghost use Rattle.std.specs.Prelude.{◌≡◌, ℤ, int_lt, pos, if◌then◌else◌};
ghost use Rattle.serde_json.specs.Find.{to_float};
ghost use Rattle.serde_json.specs.View.{number_view, view};
ghost use Rattle.neldrafi_schema.specs.Numbers.{has_whole_quotient, is_between, is_float_of, is_less, is_multiple, is_whole, is_whole_float, same_number, size_in, size_of};

use serde_json::{Number, Value};
use std::num::{saturating_f64_to_i64, saturating_f64_to_u64};

/// Whether one number is less than another.
pub(crate) fn is_less(a: Number, b: Number) -> bool
    ensures { result ≡ is_less (number_view a) (number_view b) }
{
    match (a.as_i128(), b.as_i128()) {
        (Some(a), Some(b)) => a < b,
        _ => float_of(a) < float_of(b),
    }
}

/// Whether two numbers are equal, however they are written.
pub(crate) fn same_number(a: Number, b: Number) -> bool
    ensures { result ≡ same_number (number_view a) (number_view b) }
{
    match (a.as_i128(), b.as_i128()) {
        (Some(a), Some(b)) => a == b,
        (Some(a), None) => is_float_of(a, float_of(b)),
        (None, Some(b)) => is_float_of(b, float_of(a)),
        (None, None) => float_of(a) == float_of(b),
    }
}

// Whether a float is a whole number of 64 bits.
fn is_float_of(whole: i128, x: f64) -> bool
    ensures { result ≡ is_float_of whole x }
{
    if !is_whole_float(x) {
        false
    } else if whole < 0 {
        is_between(-9223372036854775808.0, x, 0.0)
            && u128::from(saturating_f64_to_i64(x).unsigned_abs()) == whole.unsigned_abs()
    } else {
        is_between(0.0, x, 18446744073709551616.0)
            && u128::from(saturating_f64_to_u64(x)) == whole.unsigned_abs()
    }
}

pub(crate) fn is_between(low: f64, x: f64, high: f64) -> bool
    ensures { result ≡ is_between low x high }
{
    low <= x && x < high
}

/// Whether a number is a multiple of another. Where one is a float, their quotient has to be a whole number.
pub(crate) fn is_multiple(of: Number, number: Number) -> bool
    ensures { result ≡ is_multiple (number_view of) (number_view number) }
{
    match (number.as_i128(), of.as_i128()) {
        (Some(number), Some(of)) => { of != 0 && number.unsigned_abs() % of.unsigned_abs() == 0 }
        _ => has_whole_quotient(float_of(number), float_of(of)),
    }
}

fn has_whole_quotient(x: f64, y: f64) -> bool
    ensures { result ≡ has_whole_quotient x y }
{
    let quotient = x / y;
    quotient.is_finite() && is_whole_float(quotient)
}

/// Whether a number has no fractional part.
pub(crate) fn is_whole(number: Number) -> bool
    ensures { result ≡ is_whole (number_view number) }
{
    !number.is_f64() || is_whole_float(float_of(number))
}

pub(crate) fn is_whole_float(x: f64) -> bool
    ensures { result ≡ is_whole_float x }
{
    x.trunc() == x
}

/// The size that a value says, which may be written as a float.
pub(crate) fn size_in(value: &Value) -> Option<u64>
    ensures { result ≡ size_in (view value.now) }
{
    size_of(*value.as_number()?)
}

fn size_of(number: Number) -> Option<u64>
    ensures { result ≡ size_of (number_view number) }
{
    let x = float_of(number);
    if number.is_f64() && is_whole_float(x) && 0.0 <= x {
        Some(saturating_f64_to_u64(x))
    } else {
        number.as_u64()
    }
}

pub(crate) fn float_of(number: Number) -> f64
    ensures { result ≡ to_float (number_view number) }
{
    number.as_f64().unwrap_or(0.0)
}
