//! Readers of the front of a text, by its bytes.
ghost use Rattle.std.specs.Prelude.{◌≡◌, ◌<◌, ◌≤◌, ◌++◌, ◌∷◌, length, MatchOption, IfSome};
ghost use Rattle.strkw_text.specs.Abnf.{OneOf};
ghost use Rattle.strkw_text.specs.Delimiters.{Without};
ghost use Rattle.strkw_text.specs.Fronts.{StartsWith, StartsWithNo, RunThen, NotFirst};
ghost use Rattle.strkw_mail.specs.Characters.{is_atext, is_qtext_smtp};
ghost use Rattle.strkw_mail.specs.Scan.{is_class_char};

/// Whose characters: those of RFC 5321, which are ASCII, or with the characters past ASCII of RFC 6531.
#[derive(Clone, Copy)]
pub(crate) enum Charset {
    Ascii,
    Utf8,
}

// One look-up says where a byte may stand: `a` in atoms and between quotes, `q` between quotes alone, a dot in neither.
static PLACES: [u8; 256] = *b"\
    ................................\
    qa.aaaaaqqaaqaqaaaaaaaaaaaqqqaqa\
    qaaaaaaaaaaaaaaaaaaaaaaaaaaq.qaa\
    aaaaaaaaaaaaaaaaaaaaaaaaaaaaaaa.\
    ................................\
    ................................\
    ................................\
    ................................";

/// A class of characters, read by their bytes: each byte of a character past ASCII is past ASCII.
#[derive(Clone, Copy)]
pub(crate) enum Class {
    Atext(Charset),
    QtextSmtp(Charset),
    Escaped,
    Dcontent,
    LetterDigitHyphen,
}

impl Class {
    #[inline]
    fn contains(self, byte: u8) -> bool
        ensures { result ≡ is_class_char self byte }
    {
        match self {
            Class::Atext(Charset::Ascii) => is_atext(byte),
            Class::Atext(Charset::Utf8) => is_atext(byte) || byte >= 128,
            Class::QtextSmtp(Charset::Ascii) => is_qtext_smtp(byte),
            Class::QtextSmtp(Charset::Utf8) => is_qtext_smtp(byte) || byte >= 128,
            Class::Escaped => matches!(byte, b' '..=b'~'),
            Class::Dcontent => matches!(byte, b'!'..=b'Z' | b'^'..=b'~'),
            Class::LetterDigitHyphen => byte.is_ascii_alphanumeric() || byte == b'-',
        }
    }
}

#[inline]
fn is_atext(byte: u8) -> bool
    ensures { result ≡ is_atext byte }
{
    PLACES[byte as usize] == b'a'
}

#[inline]
fn is_qtext_smtp(byte: u8) -> bool
    ensures { result ≡ is_qtext_smtp byte }
{
    PLACES[byte as usize] != b'.'
}

/// What follows the byte, where it is the first.
#[inline]
pub(crate) fn strip(bytes: &[u8], wanted: u8) -> Option<&[u8]>
    ensures cases { MatchOption result (NotFirst wanted bytes.now)
        (λ rest. bytes.now ≡ wanted ∷ rest.now) }
    ensures shorter { IfSome result (λ rest. length rest.now < length bytes.now) }
{
    match bytes {
        [first, rest @ ..] if *first == wanted => Some(rest),
        _ => None,
    }
}

/// What follows one character of the class.
#[inline]
pub(crate) fn after_one(bytes: &[u8], class: Class) -> Option<&[u8]>
    ensures cases { MatchOption result (StartsWithNo (OneOf (is_class_char class)) bytes.now)
        (λ rest. StartsWith (OneOf (is_class_char class)) bytes.now rest.now) }
    ensures shorter { IfSome result (λ rest. length rest.now < length bytes.now) }
{
    match bytes {
        [first, rest @ ..] if class.contains(*first) => Some(rest),
        _ => None,
    }
}

/// What follows the longest run of characters of the class.
#[inline]
pub(crate) fn skip(bytes: &[u8], class: Class) -> &[u8]
    ensures run { RunThen (OneOf (is_class_char class)) bytes.now result.now }
    ensures within { length result.now ≤ length bytes.now }
{
    let len = bytes
        .iter()
        .position(|byte| !class.contains(*byte))
        .unwrap_or(bytes.len());
    &bytes[len..]
}

/// What stands before the first such byte, and what follows it.
pub(crate) fn split_at(bytes: &[u8], wanted: u8) -> Option<(&[u8], &[u8])>
    ensures cases { MatchOption result (Without wanted bytes.now)
        (λ parts. Without wanted parts.0.now
        × (bytes.now ≡ parts.0.now ++ wanted ∷ parts.1.now)) }
    ensures shorter { IfSome result (λ parts. length parts.1.now < length bytes.now) }
{
    let at = bytes.iter().position(|byte| *byte == wanted)?;
    Some((&bytes[..at], &bytes[at + 1..]))
}
