//! JSON passed over, token by token, and not kept: what `serde_json` reads.

ghost use Rattle.std.specs.Bool.{MatchBool};
ghost use Rattle.std.specs.Prelude.{◌≡◌, ◌↔◌, ◌<◌, ◌≤◌, ◌∷◌};
ghost use Rattle.std.specs.Prelude.{IfOk, IsTrue, None, Some, length, option_map, true};
ghost use Rattle.json.specs.Reads.{token_of};
ghost use Rattle.serde_json.specs.Read.{number_of, number_from};
ghost use Rattle.serde_json.specs.View.{number_view};
ghost use Rattle.strkw_json.specs.Json.{IsJson};
ghost use Rattle.strkw_json.specs.Passing.{after_items, after_members, after_value};

use fast_float::Numeral;
use json::{Reader, Scratch, Token};
use serde_json::Number;
use std::alloc::{AllocError, Global};

// How deep arrays and objects may nest.
const MAX_DEPTH: usize = 127;

/// Whether a text is JSON, as `serde_json` reads it (arrays and objects nested 127 deep at most, each number within
/// the range of an `f64`). No value is built: it takes 16 KiB, and a byte for each byte of the text.
///
/// `Err` is out of memory.
#[tactic(auto, using(crate::proofs::Passing::whole_text))]
pub fn is_json(alloc: Global, text: &str) -> Result<bool, AllocError>
    ensures { IfOk result (λ b. IsTrue b ↔ IsJson text.now) }
{
    let mut scratch = Scratch::new(alloc);
    let mut tokens = Reader::new(text, &mut scratch)?;
    Ok(passes_value(&mut tokens, MAX_DEPTH) && tokens.next().is_none())
}

// Passes over the value that comes first, if one does that nests no deeper than `depth`.
#[cycle(pass)]
#[inline(always)]
#[tactic(auto, using(crate::proofs::Reading::by_first_token, crate::proofs::Passing::behind_map))]
fn passes_value(tokens: &mut Reader<'_>, depth: usize) -> bool
    ensures passed { MatchBool result (after_value depth tokens.old ≡ Some tokens.new)
        (after_value depth tokens.old ≡ None) }
    ensures shorter { IsTrue result → length tokens.new < length tokens.old }
{
    match tokens.next() {
        Some(token) => passes_json(token, tokens, depth),
        None => false,
    }
}

/// Passes over the JSON value that begins with this token and goes on with these: whether one does that nests no deeper
/// than `depth`, each number within the range of an `f64`, as `serde_json` reads it. No value is built, and it takes no
/// memory.
#[cycle(pass)]
#[tactic(auto, using(crate::proofs::Reading::by_first_token, crate::proofs::Passing::behind_map))]
pub fn passes_json(token: Token<'_>, tokens: &mut Reader<'_>, depth: usize) -> bool
    ensures passed { MatchBool result (after_value depth (token_of token.entry ∷ tokens.old)
        ≡ Some tokens.new)
        (after_value depth (token_of token.entry ∷ tokens.old) ≡ None) }
    ensures no_longer { IsTrue result → length tokens.new ≤ length tokens.old }
{
    match token {
        Token::String(_) | Token::Bool(_) | Token::Null => true,
        Token::Number(text) => json_number(text).is_some(),
        Token::BeginArray => depth > 0 && passes_items(tokens, depth - 1),
        Token::BeginObject => depth > 0 && passes_members(tokens, depth - 1),
        Token::EndArray | Token::EndObject | Token::Key(_) | Token::Bad => false,
    }
}

// Passes over the items that are left of an array, and its end.
#[cycle(pass)]
#[inline(never)]
fn passes_items(tokens: &mut Reader<'_>, depth: usize) -> bool
    ensures passed { MatchBool result (after_items depth tokens.old ≡ Some tokens.new)
        (after_items depth tokens.old ≡ None) }
    ensures shorter { IsTrue result → length tokens.new < length tokens.old }
{
    while !tokens.take_end_array() {
        if !passes_value(tokens, depth) {
            return false;
        }
    }
    true
}

// Passes over the members that are left of an object, and its end.
#[cycle(pass)]
#[inline(never)]
fn passes_members(tokens: &mut Reader<'_>, depth: usize) -> bool
    ensures passed { MatchBool result (after_members depth tokens.old ≡ Some tokens.new)
        (after_members depth tokens.old ≡ None) }
    ensures shorter { IsTrue result → length tokens.new < length tokens.old }
{
    while let Ok(key) = tokens.next_key() {
        let Some(_name) = key else {
            return true;
        };
        if !passes_value(tokens, depth) {
            return false;
        }
    }
    false
}

/// The number that a token of JSON writes, as `serde_json` reads it: one of 64 bits, or else the nearest `f64`, where
/// that is finite.
#[tactic(auto, unfolding(serde_json::specs::Read::number_of))]
pub fn json_number(text: &str) -> Option<Number>
    ensures { option_map number_view result ≡ number_of text.now }
{
    let bytes = text.as_bytes();
    if !bytes.is_empty() && bytes[0] == b'-' {
        return negative_number(&Numeral::scan(&bytes[1..]));
    }
    let numeral = Numeral::scan(bytes);
    match numeral.to_u64() {
        Some(whole) => Some(Number::from(whole)),
        None => Number::from_f64(numeral.to_float::<f64>(false)),
    }
}

// The number behind a minus.
#[inline(always)]
fn negative_number(numeral: &Numeral<'_>) -> Option<Number>
    ensures { option_map number_view result ≡ number_from true numeral.now }
{
    match numeral.to_i64(true) {
        Some(whole) if whole < 0 => Some(Number::from(whole)),
        _ => Number::from_f64(numeral.to_float::<f64>(true)),
    }
}
