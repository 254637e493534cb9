//! The decoder of Punycode (RFC 3492).
//!
//! Punycode writes the ASCII characters of a text, and for each other character, in order of code
//! point and then of place, the distance from the one before it, a delta. The decoder reads delta
//! after delta, divides by the number of places for the code point and the place, and keeps both in
//! fixed lists; at the end of the encoded part it puts the characters in, in that order.
//!
//! This is right because under a bias a number has one list of digits, because a delta and its code
//! point and place settle each other, and because a character is put among those that are not above
//! it, so the places read are those of the text. No 32-bit test refuses an encoding of at most 59
//! bytes: it places fewer than 60 characters below 0x110000, so each running sum stays below
//! 60 * 0x110000, and a digit's weight below 35 times that, which is below 2^32.
ghost use Rattle.std.specs.Prelude.{[], ◌≡◌, ◌≢◌, ◌+◌, ◌<◌, ◌≤◌, ◌++◌};
ghost use Rattle.std.specs.Prelude.{ℕ, List, IfSome, IsSomeAnd, MatchOption, map, length, All, ⊤};
ghost use Rattle.std.specs.Char.{to_ascii_lowercase, IsScalar};
ghost use Rattle.std.specs.Str.{chars};
ghost use Rattle.strkw_label.specs.Punycode.{Insertion, SameUpToCase};
ghost use Rattle.strkw_label.specs.Encoded.{IsEncoded, InOrder, index_bound, pair_up};
ghost use Rattle.strkw_label.specs.Placement.{place_all};
ghost use Rattle.strkw_label.specs.Punycode as spec;

use arrayvec::ArrayVec;

// The parameters of RFC 3492 section 5.
const BASE: u32 = 36;

const T_MIN: u32 = 1;

const T_MAX: u32 = 26;

const SKEW: u32 = 38;

const DAMP: u32 = 700;

const INITIAL_BIAS: u32 = 72;

const INITIAL_POINT: u32 = 128;

/// The text whose Punycode (RFC 3492 section 6.3) `input` is, up to the case of the letters of its
/// encoded part, what follows the last hyphen that is not first, or all. `CAP` is the most
/// characters the answer can hold, and at least the length of `input` in bytes.
///
/// A text is given only where `input` encodes it. Where `input` has at most 59 bytes, None says
/// that it encodes no text of Unicode scalar values; beyond, None can also mean that a number of
/// the encoding does not fit 32 bits.
pub fn decode_punycode<const CAP: usize>(input: &str) -> Option<ArrayVec<char, CAP>>
    requires { length input.now ≤ CAP }
    ensures scalar { IfSome result (λ text. All IsScalar text.items) }
    ensures sound { IfSome result (λ text. SameUpToCase (chars input.now)
        (spec.punycode text.items)) }
    ensures complete { (text : List ℕ) → All IsScalar text → length input.now ≤ 59
        → SameUpToCase (chars input.now) (spec.punycode text)
        → IsSomeAnd result (λ t. t.items ≡ text) }
{
    decode_payload(input.as_bytes())
}

/// The same over bytes, of which an encoding has none past ASCII.
pub(crate) fn decode_payload<const CAP: usize>(input: &[u8]) -> Option<ArrayVec<char, CAP>>
    requires { length input.now ≤ CAP }
    ensures scalar { IfSome result (λ text. All IsScalar text.items) }
    ensures sound { IfSome result (λ text. SameUpToCase input.now (spec.punycode text.items)) }
    ensures complete { (text : List ℕ) → All IsScalar text → length input.now ≤ 59
        → SameUpToCase input.now (spec.punycode text) → IsSomeAnd result (λ t. t.items ≡ text) }
{
    let (basic, encoded) = split_at_delimiter(input);
    if !basic.is_ascii() {
        return None;
    }
    let mut points: ArrayVec<char, CAP> = ArrayVec::new();
    let mut places: ArrayVec<u32, CAP> = ArrayVec::new();
    read_insertions(encoded, basic.len(), &mut points, &mut places)?;
    Some(place_insertions(basic, points.as_slice(), places.as_slice()))
}

/// The basic characters and the encoded part: what stands before and after the last hyphen, unless
/// that is first or missing.
fn split_at_delimiter(input: &[u8]) -> (&[u8], &[u8])
    ensures basic { result.0.now ≡ spec.basic_part input.now }
    ensures encoded { result.1.now ≡ spec.encoded_part input.now }
    ensures len { length result.0.now + length result.1.now ≤ length input.now }
{
    let mut after = input.len();
    while after > 0 && input[after - 1] != b'-' {
        after -= 1;
    }
    if after <= 1 {
        (&[], input)
    } else {
        (&input[..after - 1], &input[after..])
    }
}

/// The threshold at `k` (RFC 3492 section 6.2): a digit below it is the last of its delta.
fn threshold(bias: u32, k: u32) -> u32
    ensures { result ≡ spec.threshold bias k }
{
    k.saturating_sub(bias).min(T_MAX).max(T_MIN)
}

/// The value of a digit in either case (RFC 3492 section 5): letters are 0 to 25, digits 26 to 35.
fn digit_value(byte: u8) -> Option<u32>
    ensures fits { IfSome result (λ digit. digit < 36) }
    ensures value { IfSome result (λ digit. to_ascii_lowercase byte ≡ spec.digit_char digit) }
    ensures none { MatchOption result ((digit : ℕ) → digit < 36
        → to_ascii_lowercase byte ≢ spec.digit_char digit) (λ _. ⊤) }
{
    if byte.is_ascii_lowercase() {
        Some(u32::from(byte - b'a'))
    } else if byte.is_ascii_digit() {
        Some(u32::from(byte - b'0' + 26))
    } else if byte.is_ascii_uppercase() {
        Some(u32::from(byte - b'A'))
    } else {
        None
    }
}

/// The bias for the next delta (RFC 3492 section 6.1).
fn adapt(delta: u32, count: u32, first: bool) -> u32
    requires { 0 < count }
    ensures { result ≡ spec.adapt delta count first }
{
    let damped = if first { delta / DAMP } else { delta / 2 };
    let mut delta = damped + damped / count;
    let mut k = 0;
    while delta > (BASE - T_MIN) * T_MAX / 2 {
        delta /= BASE - T_MIN;
        k += BASE;
    }
    k + (BASE - T_MIN + 1) * delta / (delta + SKEW)
}

/// The delta that `digits` begin with and what follows it (RFC 3492 section 3.3); None where there
/// is none, or where it or a weight passes 32 bits.
fn read_delta(digits: &[u8], bias: u32) -> Option<(u32, &[u8])>
    ensures sound { IfSome result (λ r. map to_ascii_lowercase digits.now
        ≡ map spec.digit_char (spec.digits_of bias r.0) ++ map to_ascii_lowercase r.1.now) }
    ensures complete { (delta : ℕ) (rest : List ℕ) → delta < index_bound
        → map to_ascii_lowercase digits.now ≡ map spec.digit_char (spec.digits_of bias delta)
        ++ rest
        → IsSomeAnd result (λ r. (r.0 ≡ delta) × (map to_ascii_lowercase r.1.now ≡ rest)) }
    ensures shorter { IfSome result (λ r. length r.1.now < length digits.now) }
{
    let mut delta: u32 = 0;
    let mut weight: u32 = 1;
    let mut k = BASE;
    for (at, &byte) in digits.iter().enumerate() {
        let digit = digit_value(byte)?;
        let worth = digit.checked_mul(weight)?;
        delta = delta.checked_add(worth)?;
        let t = threshold(bias, k);
        if digit < t {
            return Some((delta, &digits[at + 1..]));
        }
        weight = weight.checked_mul(BASE - t)?;
        k += BASE;
    }
    None
}

/// Reads the insertions that `encoded` stands for, over `basic_length` basic characters: the code
/// points into `points` and the places into `places`, in order (RFC 3492 section 6.2).
fn read_insertions<const CAP: usize>(
    encoded: &[u8],
    basic_length: usize,
    points: &mut ArrayVec<char, CAP>,
    places: &mut ArrayVec<u32, CAP>,
) -> Option<()>
    requires no_points { points.old.items ≡ [] }
    requires no_places { places.old.items ≡ [] }
    requires room { basic_length + length encoded.now ≤ CAP }
    ensures paired { length places.new.items ≡ length points.new.items }
    ensures sound { IfSome result (λ _. IsEncoded basic_length encoded.now
        (pair_up points.new.items places.new.items)) }
    ensures fits { basic_length + length points.new.items ≤ CAP }
    ensures complete { (xs : List Insertion) → IsEncoded basic_length encoded.now xs
        → basic_length + length xs < 60
        → IsSomeAnd result (λ _. pair_up points.new.items places.new.items ≡ xs) }
{
    let mut rest = encoded;
    let mut bias = INITIAL_BIAS;
    let mut point = INITIAL_POINT;
    let mut index: u32 = 0;
    while !rest.is_empty() {
        let (delta, tail) = read_delta(rest, bias)?;
        let count = u32::try_from(basic_length + points.len() + 1).ok()?;
        bias = adapt(delta, count, index == 0);
        index = index.checked_add(delta)?;
        point = point.checked_add(index / count)?;
        index %= count;
        let character = char::from_u32(point)?;
        points.push(character);
        places.push(index);
        rest = tail;
        index += 1;
    }
    Some(())
}

/// The text that the insertions make of the basic characters.
fn place_insertions<const CAP: usize>(
    basic: &[u8],
    points: &[char],
    places: &[u32],
) -> ArrayVec<char, CAP>
    requires paired { length places.now ≡ length points.now }
    requires room { length basic.now + length points.now ≤ CAP }
    requires ordered { InOrder 128 0 (length basic.now) (pair_up points.now places.now) }
    ensures { result.items ≡ place_all basic.now (pair_up points.now places.now) }
{
    let mut text = ArrayVec::new();
    for &byte in basic {
        text.push(char::from(byte));
    }
    for at in 0..points.len() {
        text.insert(places[at] as usize, points[at]);
    }
    text
}
