//! White space of ECMA-262.

ghost use Rattle.std.specs.Prelude.{◌≡◌, ◌∷◌, ◌<◌, ◌≤◌, ◌-◌, [], length, slice_index, take, true, false, IfSome, IsTrue, IsUtf8, MatchOption};
ghost use Rattle.std.specs.List.{list_all, list_any};
ghost use Rattle.std.specs.Str.{chars};
ghost use Rattle.strkw_pattern.specs.Whitespace.{is_ecma_whitespace, is_solid, may_begin};

// So many bytes are judged at once.
const BLOCK: usize = 32;

// So many bytes are read by characters, before blocks are tried again.
const SOME: usize = 32;

/// Whether a character of the text is white space of ECMA-262, as `\s` of its regular expressions has it (ECMA-262,
/// WhiteSpace and LineTerminator). U+0085 and U+180E are none, U+FEFF is. It takes no memory.
pub fn contains_ecma_whitespace(text: &str) -> bool
    ensures { result ≡ list_any is_ecma_whitespace (chars text.now) }
{
    let mut rest = text;
    while !rest.is_empty() {
        match after_some(after_clear(rest)) {
            Some(after) => rest = after,
            None => return true,
        }
    }
    false
}

// What follows some characters at the front, and `None` where one of them is white space.
fn after_some(text: &str) -> Option<&str>
    ensures cases { MatchOption result (list_any is_ecma_whitespace (chars text.now) ≡ true)
        (λ rest. list_any is_ecma_whitespace (chars text.now)
        ≡ list_any is_ecma_whitespace (chars rest.now)) }
    ensures shorter { IfSome result (λ rest. length rest.now ≤ length text.now - 1) }
    ensures utf8 { IfSome result (λ rest. IsUtf8 rest.now) }
{
    let mut rest = text;
    while let Some((c, after)) = first_char(rest) {
        if is_ecma_whitespace(c) {
            return None;
        }
        if text.len() - after.len() >= SOME {
            return Some(after);
        }
        rest = after;
    }
    Some(rest)
}

// The first character, and what follows it.
#[inline(always)]
fn first_char(text: &str) -> Option<(char, &str)>
    ensures cases { MatchOption result (chars text.now ≡ [])
        (λ r. chars text.now ≡ r.0 ∷ chars r.1.now) }
    ensures shorter { IfSome result (λ r. length r.1.now < length text.now) }
    ensures utf8 { IfSome result (λ r. IsUtf8 r.1.now) }
{
    let mut characters = text.chars();
    let first = characters.next()?;
    Some((first, characters.as_str()))
}

// What follows the bytes at the front by which no white space begins.
fn after_clear(text: &str) -> &str
    ensures same { list_any is_ecma_whitespace (chars text.now)
        ≡ list_any is_ecma_whitespace (chars result.now) }
    ensures bound { length result.now ≤ length text.now }
{
    let run = clear_run(text.as_bytes());
    &text[run..]
}

// How many bytes at the front begin no white space: by blocks, and then one at a time.
fn clear_run(bytes: &[u8]) -> usize
    ensures within { result ≤ length bytes.now }
    ensures clear { list_any may_begin (take result bytes.now) ≡ false }
    ensures stops { result < length bytes.now
        → IsTrue (may_begin (slice_index bytes.now result)) }
{
    for i in clear_blocks(bytes)..bytes.len() {
        if may_begin(bytes[i]) {
            return i;
        }
    }
    bytes.len()
}

// How many bytes the blocks at the front have, by none of which white space begins: those that are solid are
// passed over first, by fewer questions.
fn clear_blocks(bytes: &[u8]) -> usize
    ensures within { result ≤ length bytes.now }
    ensures clear { list_any may_begin (take result bytes.now) ≡ false }
{
    let mut run = solid_blocks(bytes);
    while run + BLOCK <= bytes.len() && !any_begins(&bytes[run..run + BLOCK]) {
        run += BLOCK;
    }
    run
}

// How many bytes the blocks at the front have in which each byte is solid.
#[inline(always)]
fn solid_blocks(bytes: &[u8]) -> usize
    ensures within { result ≤ length bytes.now }
    ensures clear { list_any may_begin (take result bytes.now) ≡ false }
{
    let mut run = 0;
    while run + BLOCK <= bytes.len() && are_solid(&bytes[run..run + BLOCK]) {
        run += BLOCK;
    }
    run
}

// Whether each byte is solid. It reads all of them, so that many are read at once.
#[inline(always)]
fn are_solid(bytes: &[u8]) -> bool
    ensures { result ≡ list_all is_solid bytes.now }
{
    let mut solid = true;
    for byte in bytes {
        solid &= is_solid(*byte);
    }
    solid
}

// Whether the byte is an ASCII character past the space, none of which is white space.
#[inline(always)]
fn is_solid(byte: u8) -> bool
    ensures { result ≡ is_solid byte }
{
    b' ' < byte && byte < 0x80
}

// Whether white space may begin with one of the bytes. It reads all of them, so that many are read at once.
#[inline(always)]
fn any_begins(bytes: &[u8]) -> bool
    ensures { result ≡ list_any may_begin bytes.now }
{
    let mut begins = false;
    for byte in bytes {
        begins |= may_begin(*byte);
    }
    begins
}

// Whether white space may begin with the byte: an ASCII character up to the space, or the first byte of U+00A0, of
// U+1680, of one from U+2000 to U+205F, of U+3000 or of U+FEFF. (By `|`, so that no branch stands between the
// tests.)
#[inline(always)]
fn may_begin(byte: u8) -> bool
    ensures { result ≡ may_begin byte }
{
    (byte <= b' ') | (byte == 0xC2) | matches!(byte, 0xE1..=0xE3) | (byte == 0xEF)
}

// Past U+3000 there is one alone.
#[inline(always)]
fn is_ecma_whitespace(c: char) -> bool
    ensures { result ≡ is_ecma_whitespace c }
{
    if c > '\u{3000}' {
        c == '\u{FEFF}'
    } else {
        is_near_whitespace(c)
    }
}

// Whether a character up to U+3000 is white space.
fn is_near_whitespace(c: char) -> bool
    requires { c ≤ 0x3000 }
    ensures { result ≡ is_ecma_whitespace c }
{
    matches!(
        c,
        '\u{9}'..='\u{D}'
            | '\u{20}'
            | '\u{A0}'
            | '\u{1680}'
            | '\u{2000}'..='\u{200A}'
            | '\u{2028}'
            | '\u{2029}'
            | '\u{202F}'
            | '\u{205F}'
            | '\u{3000}'
    )
}
