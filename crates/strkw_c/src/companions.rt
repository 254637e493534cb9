//! The companions that take memory: internationalised mail addresses and host names, and patterns. An answer is 0 for
//! no, 1 for yes, 2 for out of memory. Bytes that are not UTF-8 are none of them.

ghost use Rattle.std.specs.Str.{IsUtf8, chars};
ghost use Rattle.strkw_label.specs.IdnHostName.{IsIdnHostName};
ghost use Rattle.strkw_mail.specs.IdnMailbox.{IsIdnMailbox};
ghost use Rattle.strkw_regex_grammar.specs.Regex.{IsRegex};
ghost use Rattle.strkw_c.specs.Statuses.{Tells};

use crate::encodings::{NO, status_of};
use crate::utf8::text_of;
use std::alloc::Global;
use strkw_ecma::is_valid_regex;
use strkw_label::is_valid_idn_hostname;
use strkw_mail::is_valid_idn_email;

/// Whether the bytes are an internationalised mail address: `Mailbox` of RFC 5321, section 4.1.2, as RFC 6531, section
/// 3.3, extends it. A schema object knows it as a format by bit 4 of its options alone.
#[unsafe(no_mangle)]
pub extern "C" fn strkw_nonnull_is_idn_email(alloc: Global, text: &[u8]) -> u8
    ensures { Tells (IsUtf8 text.now × IsIdnMailbox (chars text.now)) result }
{
    match text_of(text) {
        Some(text) => status_of(is_valid_idn_email(alloc, text)),
        None => NO,
    }
}

/// Whether the bytes are an internationalised host name (RFC 5890, section 2.3.2.3). A schema object knows it as a
/// format by bit 4 of its options alone.
#[unsafe(no_mangle)]
pub extern "C" fn strkw_nonnull_is_idn_hostname(alloc: Global, text: &[u8]) -> u8
    ensures { Tells (IsUtf8 text.now × IsIdnHostName (chars text.now)) result }
{
    match text_of(text) {
        Some(text) => status_of(is_valid_idn_hostname(alloc, text)),
        None => NO,
    }
}

/// Whether the bytes are a pattern of the whole of ECMA-262 in Unicode mode (ECMA-262 2024, section 22.2.1, with the
/// early errors of section 22.2.1.1). The keyword `pattern` may still not take it. A schema object knows it as the
/// format `regex` by bit 4 of its options alone.
#[unsafe(no_mangle)]
pub extern "C" fn strkw_nonnull_is_regex(alloc: Global, text: &[u8]) -> u8
    ensures { Tells (IsUtf8 text.now × IsRegex (chars text.now)) result }
{
    match text_of(text) {
        Some(text) => status_of(is_valid_regex(alloc, text)),
        None => NO,
    }
}
