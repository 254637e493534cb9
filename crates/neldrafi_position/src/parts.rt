//! The parts of arrays and objects in a JSON text (RFC 8259, sections 2, 4, 5 and 7).

ghost use Rattle.std.specs.Prelude.{◌≡◌, ◌+◌, ◌<◌, [], MatchOption, drop, length, slice_index};
ghost use Rattle.neldrafi_position.specs.Parts.{begins_with_closing, behind_separators, behind_space, closes, is_space, opens, parts, separates};
ghost use Rattle.neldrafi_position.specs.machine.Walks.{Cut, EndOf};

/// A text without the white space in front of it (RFC 8259, section 2).
pub(crate) fn behind_space(text: &str) -> &str
    ensures space { result.now ≡ behind_space text.now }
    ensures end { EndOf text.now result.now }
{
    for (index, byte) in text.as_bytes().iter().enumerate() {
        if !is_space(*byte) {
            return &text[index..];
        }
    }
    ""
}

/// The first part of an array or object, and what follows the comma or colon behind it.
pub(crate) fn first_part(text: &str) -> Option<(&str, &str)>
    ensures { MatchOption result (behind_separators 0 text.now ≡ [])
        (λ cut. Cut text.now cut.0.now cut.1.now) }
{
    let end = first_end(text.as_bytes())?;
    Some((&text[..end], &text[end + 1..]))
}

/// Whether a text begins with a bracket or brace that closes.
pub(crate) fn begins_with_closing(text: &str) -> bool
    ensures { result ≡ begins_with_closing text.now }
{
    match text.as_bytes() {
        [first, ..] => closes(*first),
        [] => false,
    }
}

// What a character belongs to.
#[derive(Clone, Copy)]
enum Within {
    Parts,
    String,
    Escape,
}

// Where the first comma or colon of an array or object is, if it has one.
fn first_end(bytes: &[u8]) -> Option<usize>
    ensures { MatchOption result (behind_separators 0 bytes.now ≡ []) (λ end.
        (end < length bytes.now) × (slice_index bytes.now end < 128)
        × (behind_separators 0 bytes.now ≡ parts (drop (end + 1) bytes.now))) }
{
    let mut within = Within::Parts;
    let mut depth = 0usize;
    for (index, byte) in bytes.iter().enumerate() {
        match within {
            Within::Escape => within = Within::String,
            Within::String if *byte == b'"' => within = Within::Parts,
            Within::String if *byte == b'\\' => within = Within::Escape,
            Within::String => {}
            Within::Parts if *byte == b'"' => within = Within::String,
            Within::Parts if opens(*byte) => depth += 1,
            Within::Parts if closes(*byte) => {
                if depth == 0 {
                    return None;
                }
                depth -= 1;
            }
            Within::Parts if separates(*byte) && depth == 0 => return Some(index),
            Within::Parts => {}
        }
    }
    None
}

fn is_space(byte: u8) -> bool
    ensures { result ≡ is_space byte }
{
    byte == b' ' || byte == b'\t' || byte == b'\n' || byte == b'\r'
}

fn opens(byte: u8) -> bool
    ensures { result ≡ opens byte }
{
    byte == b'[' || byte == b'{'
}

fn closes(byte: u8) -> bool
    ensures { result ≡ closes byte }
{
    byte == b']' || byte == b'}'
}

fn separates(byte: u8) -> bool
    ensures { result ≡ separates byte }
{
    byte == b',' || byte == b':'
}
