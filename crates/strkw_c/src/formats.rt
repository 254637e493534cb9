//! The sixteen formats, and mail addresses. Bytes that are not UTF-8 have no format.

ghost use Rattle.std.specs.Prelude.{◌↔◌, IsTrue};
ghost use Rattle.std.specs.Str.{IsUtf8, chars};
ghost use Rattle.strkw_time.specs.Time.{IsFullDate, IsFullTime, IsDateTime};
ghost use Rattle.strkw_time.specs.Duration.{IsDuration};
ghost use Rattle.strkw_net.specs.Addresses.{IsIpv4, IsIpv6};
ghost use Rattle.strkw_net.specs.HostName.{IsAsciiHostName};
ghost use Rattle.strkw_net.specs.Uuid.{IsUuid};
ghost use Rattle.strkw_label.specs.HostName.{IsHostName};
ghost use Rattle.strkw_uri.specs.Pointer.{IsJsonPointer, IsRelativeJsonPointer};
ghost use Rattle.strkw_uri.specs.Template.{IsUriTemplate};
ghost use Rattle.strkw_mail.specs.Mailbox.{IsMailbox};
ghost use Rattle.strkw_uri.specs.Uri.{IsUri, IsUriReference, IsIri, IsIriReference};

use crate::utf8::text_of;
use strkw_label::is_valid_hostname;
use strkw_mail::is_valid_email;
use strkw_net::{is_valid_hostname_rfc1034, is_valid_ipv4, is_valid_ipv6, is_valid_uuid};
use strkw_time::{is_valid_date, is_valid_datetime, is_valid_duration, is_valid_time};
use strkw_uri::{
    is_valid_iri, is_valid_iri_reference, is_valid_json_pointer, is_valid_relative_json_pointer,
    is_valid_uri, is_valid_uri_reference, is_valid_uri_template,
};

/// Whether the bytes are a date: `full-date` of RFC 3339, section 5.6.
#[unsafe(no_mangle)]
pub extern "C" fn strkw_nonnull_is_date(text: &[u8]) -> bool
    ensures { IsTrue result ↔ (IsUtf8 text.now × IsFullDate (chars text.now)) }
{
    match text_of(text) {
        Some(text) => is_valid_date(text),
        None => false,
    }
}

/// Whether the bytes are a time: `full-time` of RFC 3339, section 5.6.
#[unsafe(no_mangle)]
pub extern "C" fn strkw_nonnull_is_time(text: &[u8]) -> bool
    ensures { IsTrue result ↔ (IsUtf8 text.now × IsFullTime (chars text.now)) }
{
    match text_of(text) {
        Some(text) => is_valid_time(text),
        None => false,
    }
}

/// Whether the bytes are a `date-time` of RFC 3339, section 5.6.
#[unsafe(no_mangle)]
pub extern "C" fn strkw_nonnull_is_date_time(text: &[u8]) -> bool
    ensures { IsTrue result ↔ (IsUtf8 text.now × IsDateTime (chars text.now)) }
{
    match text_of(text) {
        Some(text) => is_valid_datetime(text),
        None => false,
    }
}

/// Whether the bytes are a duration of RFC 3339, appendix A, its letters in upper case.
#[unsafe(no_mangle)]
pub extern "C" fn strkw_nonnull_is_duration(text: &[u8]) -> bool
    ensures { IsTrue result ↔ (IsUtf8 text.now × IsDuration (chars text.now)) }
{
    match text_of(text) {
        Some(text) => is_valid_duration(text),
        None => false,
    }
}

/// Whether the bytes are an IPv4 address: `IPv4address` of RFC 3986, section 3.2.2.
#[unsafe(no_mangle)]
pub extern "C" fn strkw_nonnull_is_ipv4(text: &[u8]) -> bool
    ensures { IsTrue result ↔ (IsUtf8 text.now × IsIpv4 (chars text.now)) }
{
    match text_of(text) {
        Some(text) => is_valid_ipv4(text),
        None => false,
    }
}

/// Whether the bytes are an IPv6 address of RFC 4291, section 2.2.
#[unsafe(no_mangle)]
pub extern "C" fn strkw_nonnull_is_ipv6(text: &[u8]) -> bool
    ensures { IsTrue result ↔ (IsUtf8 text.now × IsIpv6 (chars text.now)) }
{
    match text_of(text) {
        Some(text) => is_valid_ipv6(text),
        None => false,
    }
}

/// Whether the bytes are a host name of drafts 7 and later: an ASCII one in which each label `xn--` encodes an admitted
/// text (RFC 3492).
#[unsafe(no_mangle)]
pub extern "C" fn strkw_nonnull_is_hostname(text: &[u8]) -> bool
    ensures { IsTrue result ↔ (IsUtf8 text.now × IsHostName (chars text.now)) }
{
    match text_of(text) {
        Some(text) => is_valid_hostname(text),
        None => false,
    }
}

/// Whether the bytes are a host name of drafts 4 and 6: RFC 1034, section 3.5, with RFC 1123, section 2.1.
#[unsafe(no_mangle)]
pub extern "C" fn strkw_nonnull_is_hostname_draft4(text: &[u8]) -> bool
    ensures { IsTrue result ↔ (IsUtf8 text.now × IsAsciiHostName (chars text.now)) }
{
    match text_of(text) {
        Some(text) => is_valid_hostname_rfc1034(text),
        None => false,
    }
}

/// Whether the bytes are a URI of RFC 3986.
#[unsafe(no_mangle)]
pub extern "C" fn strkw_nonnull_is_uri(text: &[u8]) -> bool
    ensures { IsTrue result ↔ (IsUtf8 text.now × IsUri (chars text.now)) }
{
    match text_of(text) {
        Some(text) => is_valid_uri(text),
        None => false,
    }
}

/// Whether the bytes are a URI reference of RFC 3986.
#[unsafe(no_mangle)]
pub extern "C" fn strkw_nonnull_is_uri_reference(text: &[u8]) -> bool
    ensures { IsTrue result ↔ (IsUtf8 text.now × IsUriReference (chars text.now)) }
{
    match text_of(text) {
        Some(text) => is_valid_uri_reference(text),
        None => false,
    }
}

/// Whether the bytes are an IRI of RFC 3987.
#[unsafe(no_mangle)]
pub extern "C" fn strkw_nonnull_is_iri(text: &[u8]) -> bool
    ensures { IsTrue result ↔ (IsUtf8 text.now × IsIri (chars text.now)) }
{
    match text_of(text) {
        Some(text) => is_valid_iri(text),
        None => false,
    }
}

/// Whether the bytes are an IRI reference of RFC 3987.
#[unsafe(no_mangle)]
pub extern "C" fn strkw_nonnull_is_iri_reference(text: &[u8]) -> bool
    ensures { IsTrue result ↔ (IsUtf8 text.now × IsIriReference (chars text.now)) }
{
    match text_of(text) {
        Some(text) => is_valid_iri_reference(text),
        None => false,
    }
}

/// Whether the bytes are a URI template of RFC 6570, with wider literals.
#[unsafe(no_mangle)]
pub extern "C" fn strkw_nonnull_is_uri_template(text: &[u8]) -> bool
    ensures { IsTrue result ↔ (IsUtf8 text.now × IsUriTemplate (chars text.now)) }
{
    match text_of(text) {
        Some(text) => is_valid_uri_template(text),
        None => false,
    }
}

/// Whether the bytes are a JSON pointer of RFC 6901.
#[unsafe(no_mangle)]
pub extern "C" fn strkw_nonnull_is_json_pointer(text: &[u8]) -> bool
    ensures { IsTrue result ↔ (IsUtf8 text.now × IsJsonPointer (chars text.now)) }
{
    match text_of(text) {
        Some(text) => is_valid_json_pointer(text),
        None => false,
    }
}

/// Whether the bytes are a relative JSON pointer.
#[unsafe(no_mangle)]
pub extern "C" fn strkw_nonnull_is_relative_json_pointer(text: &[u8]) -> bool
    ensures { IsTrue result ↔ (IsUtf8 text.now × IsRelativeJsonPointer (chars text.now)) }
{
    match text_of(text) {
        Some(text) => is_valid_relative_json_pointer(text),
        None => false,
    }
}

/// Whether the bytes are a UUID of RFC 9562, section 4.
#[unsafe(no_mangle)]
pub extern "C" fn strkw_nonnull_is_uuid(text: &[u8]) -> bool
    ensures { IsTrue result ↔ (IsUtf8 text.now × IsUuid (chars text.now)) }
{
    match text_of(text) {
        Some(text) => is_valid_uuid(text),
        None => false,
    }
}

/// Whether the bytes are a mail address: `Mailbox` of RFC 5321, section 4.1.2. A schema object knows it as a format
/// where its options say so.
#[unsafe(no_mangle)]
pub extern "C" fn strkw_nonnull_is_email(text: &[u8]) -> bool
    ensures { IsTrue result ↔ (IsUtf8 text.now × IsMailbox (chars text.now)) }
{
    match text_of(text) {
        Some(text) => is_valid_email(text),
        None => false,
    }
}
