//! Which patterns are literal, and the kind and the text of each.

ghost use Rattle.std.specs.Prelude.{◌≡◌, IfOk, MatchOption, [], ◌∷◌, map};
ghost use Rattle.std.specs.Str.{chars};
ghost use Rattle.std.specs.String.{string_bytes};
ghost use Rattle.strkw_pattern.specs.Literal.{is_plain, is_escapable, IsLiteral};
ghost use Rattle.strkw_pattern.specs.Reading.{NoItem, BeginsWithItem, ReadsItems, IsNoRun, IsRun, IsNoGroup, IsGroup};
ghost use Rattle.strkw_pattern.specs.Analysis.{IsAnalysis};

use std::alloc::{AllocError, Global};

/// How a literal pattern is decided: its kind and its text, no longer escaped.
#[derive(Debug, PartialEq, Drop)]
pub enum PatternOptimization {
    /// Texts that begin with this one.
    Prefix(String),
    /// This text alone.
    Exact(String),
    /// Each of these texts alone, sorted by their bytes.
    Alternation(Vec<String>),
    /// Texts without white space of ECMA-262.
    NoWhitespace,
}

/// The kind and the text of a literal pattern, and `None` for any other pattern. The only error is out of memory.
///
/// A literal pattern is one of these, where an item is an ASCII letter, a digit, a space, one of
/// `- _ / : @ # % & = , ; ~ ! ' " < >`, or a `\` before one of `^ $ \ . * + ? ( ) [ ] { } | /`:
/// - `^` and items: the texts that begin with the items' characters;
/// - `^`, items and `$`: that text alone;
/// - `^(`, alternatives of items with a `|` between them, and `)$`: each alternative alone, sorted by their bytes, each
///   as often as it is written;
/// - `^\S*$`: the texts without white space of ECMA-262.
///
/// An escaped character stands for itself. At least one item stands in each place.
pub fn analyze_pattern(
    alloc: Global,
    pattern: &str,
) -> Result<Option<PatternOptimization>, AllocError>
    ensures { IfOk result (λ o. MatchOption o (IsLiteral (chars pattern.now) → ⊥)
        (IsAnalysis (chars pattern.now))) }
{
    analyze(alloc, pattern.as_bytes())
}

// Whether a character stands for itself.
#[tactic(auto, unfolding(crate::specs::Literal::is_plain))]
fn is_plain(c: u8) -> bool
    ensures { result ≡ is_plain c }
{
    matches!(c, b'0'..=b'9' | b'A'..=b'Z' | b'a'..=b'z' | b' ' | b'-' | b'_' | b'/' | b':' | b'@' | b'#' | b'%' | b'&' | b'=' | b',' | b';' | b'~' | b'!' | b'\'' | b'"' | b'<' | b'>')
}

// Whether a character may stand after a backslash.
#[tactic(auto, unfolding(crate::specs::Literal::is_escapable))]
fn is_escapable(c: u8) -> bool
    ensures { result ≡ is_escapable c }
{
    matches!(
        c,
        b'^' | b'$'
            | b'\\'
            | b'.'
            | b'*'
            | b'+'
            | b'?'
            | b'('
            | b')'
            | b'['
            | b']'
            | b'{'
            | b'}'
            | b'|'
            | b'/'
    )
}

// The first byte, and the others.
fn split_front(bytes: &[u8]) -> Option<(u8, &[u8])>
    ensures { MatchOption result (bytes.now ≡ []) (λ r. bytes.now ≡ r.0 ∷ r.1.now) }
{
    let (first, rest) = bytes.split_first()?;
    Some((*first, rest))
}

// The character that the item at the front stands for, and what follows the item.
fn first_item(pattern: &[u8]) -> Option<(u8, &[u8])>
    ensures { MatchOption result (NoItem pattern.now)
        (λ r. BeginsWithItem pattern.now r.0 r.1.now) }
{
    let (first, after) = split_front(pattern)?;
    if first != b'\\' {
        return if is_plain(first) {
            Some((first, after))
        } else {
            None
        };
    }
    let (second, rest) = split_front(after)?;
    if is_escapable(second) {
        Some((second, rest))
    } else {
        None
    }
}

// The text that the items at the front stand for, and what follows the last of them.
fn read_items(alloc: Global, pattern: &[u8]) -> Result<(String, &[u8]), AllocError>
    ensures { IfOk result (λ r. ReadsItems pattern.now (string_bytes r.0) r.1.now) }
{
    let mut text = String::new(alloc);
    let mut rest = pattern;
    while let Some((c, after)) = first_item(rest) {
        text.push(char::from(c))?;
        rest = after;
    }
    Ok((text, rest))
}

// The literal that is one run of items, after the `^`.
fn analyze_run(alloc: Global, pattern: &[u8]) -> Result<Option<PatternOptimization>, AllocError>
    ensures { IfOk result (λ o. MatchOption o (IsNoRun pattern.now) (IsRun pattern.now)) }
{
    let (text, rest) = read_items(alloc, pattern)?;
    if text.as_bytes().is_empty() {
        return Ok(None);
    }
    if rest.is_empty() {
        return Ok(Some(PatternOptimization::Prefix(text)));
    }
    if rest == b"$".as_slice() {
        return Ok(Some(PatternOptimization::Exact(text)));
    }
    Ok(None)
}

// The alternatives after the `^(`, in the order in which they are written.
fn read_alternatives(alloc: Global, pattern: &[u8]) -> Result<Option<Vec<String>>, AllocError>
    ensures { IfOk result (λ o. MatchOption o (IsNoGroup pattern.now)
        (λ v. IsGroup pattern.now (map string_bytes v.items))) }
{
    let mut alternatives = Vec::new(alloc);
    let mut rest = pattern;
    loop {
        let (text, after) = read_items(alloc, rest)?;
        if text.as_bytes().is_empty() {
            return Ok(None);
        }
        alternatives.push(text)?;
        let Some((separator, next)) = split_front(after) else {
            return Ok(None);
        };
        if separator == b')' {
            return if next == b"$".as_slice() {
                Ok(Some(alternatives))
            } else {
                Ok(None)
            };
        }
        if separator != b'|' {
            return Ok(None);
        }
        rest = next;
    }
}

// The literal that the bytes of a pattern spell.
fn analyze(alloc: Global, pattern: &[u8]) -> Result<Option<PatternOptimization>, AllocError>
    ensures { IfOk result (λ o. MatchOption o (IsLiteral pattern.now → ⊥)
        (IsAnalysis pattern.now)) }
{
    if pattern == b"^\\S*$".as_slice() {
        return Ok(Some(PatternOptimization::NoWhitespace));
    }
    let Some((start, rest)) = split_front(pattern) else {
        return Ok(None);
    };
    if start != b'^' {
        return Ok(None);
    }
    let Some((first, group)) = split_front(rest) else {
        return Ok(None);
    };
    if first != b'(' {
        return analyze_run(alloc, rest);
    }
    let Some(mut alternatives) = read_alternatives(alloc, group)? else {
        return Ok(None);
    };
    alternatives.sort_unstable();
    Ok(Some(PatternOptimization::Alternation(alternatives)))
}
