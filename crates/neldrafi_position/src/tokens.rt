//! The reference tokens of a JSON pointer (RFC 6901, section 4).

ghost use Rattle.std.specs.Prelude.{◌≡◌, ◌∷◌, ◌<◌, [], IfOk, IfSome, MatchOption, length};
ghost use Rattle.serde_json.specs.Find.{unescape};
ghost use Rattle.neldrafi_position.specs.machine.Tokens.{begins_oddly, index_in_word};

use std::alloc::{AllocError, Global};

/// The index that a token is, if it fits 64 bits.
pub(crate) fn index_of(token: &str) -> Option<usize>
    ensures { result ≡ index_in_word token.now }
{
    if begins_oddly(token.as_bytes()) {
        return None;
    }
    token.parse::<usize>().ok()
}

/// The name for which a token stands.
pub(crate) fn unescaped(alloc: Global, token: &str) -> Result<Vec<u8>, AllocError>
    ensures { IfOk result (λ name. name.items ≡ unescape token.now) }
{
    let mut name = Vec::new(alloc);
    let mut rest = token.as_bytes();
    while let Some((byte, behind)) = first_of(rest) {
        name.push(byte)?;
        rest = behind;
    }
    Ok(name)
}

// The first character that a token stands for, and the token behind it.
fn first_of(token: &[u8]) -> Option<(u8, &[u8])>
    ensures name { MatchOption result (unescape token.now ≡ [])
        (λ f. unescape token.now ≡ f.0 ∷ unescape f.1.now) }
    ensures shorter { IfSome result (λ f. length f.1.now < length token.now) }
{
    let [first, behind @ ..] = token else {
        return None;
    };
    let [second, rest @ ..] = behind else {
        return Some((*first, behind));
    };
    if *first != b'~' {
        return Some((*first, behind));
    }
    if *second == b'1' {
        return Some((b'/', rest));
    }
    if *second == b'0' {
        return Some((b'~', rest));
    }
    Some((*first, behind))
}

// With a plus, or with a 0 before more.
fn begins_oddly(token: &[u8]) -> bool
    ensures { result ≡ begins_oddly token.now }
{
    match token {
        [first] => *first == b'+',
        [first, _, ..] => *first == b'+' || *first == b'0',
        [] => false,
    }
}
