//! The local part, read by its bytes.
ghost use Rattle.std.specs.Prelude.{◌<◌, length, MatchOption, IfSome};
ghost use Rattle.strkw_text.specs.Fronts.{StartsWith, StartsWithNo};
ghost use Rattle.strkw_mail.specs.Mailbox.{QcontentOf};
ghost use Rattle.strkw_mail.specs.Scan.{qtext, StartsOnly, DotStringAt, InQuotes, LocalPartAt};

use crate::scan::{Charset, Class, after_one, skip, strip};

/// What follows atoms with `.` between them, and the `@` behind the last.
fn after_dot_string(bytes: &[u8], charset: Charset) -> Option<&[u8]>
    ensures { MatchOption result (StartsWithNo (DotStringAt charset) bytes.now)
        (λ rest. StartsOnly (DotStringAt charset) bytes.now rest.now) }
{
    let mut rest = bytes;
    while let Some(more) = after_one(rest, Class::Atext(charset)) {
        let behind = skip(more, Class::Atext(charset));
        match strip(behind, b'.') {
            Some(next) => rest = next,
            None => return strip(behind, b'@'),
        }
    }
    None
}

/// What follows one character between quotes, or a backslash and the character behind it.
fn after_qcontent(bytes: &[u8], charset: Charset) -> Option<&[u8]>
    ensures cases { MatchOption result (StartsWithNo (QcontentOf (qtext charset)) bytes.now)
        (λ rest. StartsWith (QcontentOf (qtext charset)) bytes.now rest.now) }
    ensures shorter { IfSome result (λ rest. length rest.now < length bytes.now) }
{
    match after_one(bytes, Class::QtextSmtp(charset)) {
        Some(rest) => Some(rest),
        None => after_one(strip(bytes, b'\\')?, Class::Escaped),
    }
}

/// What follows the quote that closes, from behind the one that opens.
fn after_in_quotes(bytes: &[u8], charset: Charset) -> Option<&[u8]>
    ensures { MatchOption result (StartsWithNo (InQuotes charset) bytes.now)
        (λ rest. StartsOnly (InQuotes charset) bytes.now rest.now) }
{
    let mut rest = bytes;
    while let Some(after) = after_qcontent(rest, charset) {
        rest = after;
    }
    strip(rest, b'"')
}

/// What follows a local part and its `@`.
pub(crate) fn after_local_part(bytes: &[u8], charset: Charset) -> Option<&[u8]>
    ensures { MatchOption result (StartsWithNo (LocalPartAt charset) bytes.now)
        (λ rest. StartsOnly (LocalPartAt charset) bytes.now rest.now) }
{
    match strip(bytes, b'"') {
        Some(inside) => match after_in_quotes(inside, charset) {
            Some(behind) => strip(behind, b'@'),
            None => None,
        },
        None => after_dot_string(bytes, charset),
    }
}
