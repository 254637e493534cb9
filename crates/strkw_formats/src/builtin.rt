//! The formats that are checked without a registered check.
ghost use Rattle.std.specs.Prelude.{◌≡◌, ◌↔◌, IsTrue, option_map};
ghost use Rattle.std.specs.Str.{chars};
ghost use Rattle.strkw_formats.specs.Formats.{IsOfBuiltin, format_name, is_known, window_of, bounds, example_of, window_texts_of, builtin_named};

use strkw_label::is_valid_hostname;
use strkw_net::{is_valid_hostname_rfc1034, is_valid_ipv4, is_valid_ipv6, is_valid_uuid};
use strkw_report::Draft;
use strkw_time::{is_valid_date, is_valid_datetime, is_valid_duration, is_valid_time};
use strkw_uri::{
    is_valid_iri, is_valid_iri_reference, is_valid_json_pointer, is_valid_relative_json_pointer,
    is_valid_uri, is_valid_uri_reference, is_valid_uri_template,
};

// A host name of 253 characters: labels of 63, 63, 63 and 61 letters.
const LONGEST_HOST_NAME: &str =
    "aaaaaaaaaaaaaaaaaaaaaaaaaaaaaaaaaaaaaaaaaaaaaaaaaaaaaaaaaaaaaaa.aaaaaaaaaaaaaaaaaaaaaaaaaaaaaaaaaaaaaaaaaaaaaaaaaaaaaaaaaaaaaaa.aaaaaaaaaaaaaaaaaaaaaaaaaaaaaaaaaaaaaaaaaaaaaaaaaaaaaaaaaaaaaaa.aaaaaaaaaaaaaaaaaaaaaaaaaaaaaaaaaaaaaaaaaaaaaaaaaaaaaaaaaaaaa";

/// The formats that have a grammar of their own here. They are compared and hashed by their places in this order.
#[derive(Debug, Clone, Copy, PartialEq, Eq, PartialOrd, Ord, Hash)]
pub enum BuiltinFormat {
    /// `date`: `full-date` of RFC 3339, section 5.6.
    Date,
    /// `date-time` of RFC 3339, section 5.6.
    DateTime,
    /// `duration` of RFC 3339, appendix A. Its letters are upper case.
    Duration,
    /// `hostname` from draft 7 on: ASCII host names in which only `xn--` labels have hyphens in third and fourth place,
    /// each payload being the Punycode (RFC 3492) of a text that `validate_unicode_label` admits. The prefix counts in
    /// any letter case.
    Hostname,
    /// `hostname` in drafts 4 and 6: ASCII host names of RFC 1034, section 3.5, and RFC 1123, section 2.1.
    HostnameDraft4,
    /// `ipv4`: `IPv4address` of RFC 3986, section 3.2.2.
    Ipv4,
    /// `ipv6`: RFC 4291, section 2.2.
    Ipv6,
    /// `iri` of RFC 3987, section 2.2.
    Iri,
    /// `iri-reference` of RFC 3987, section 2.2.
    IriReference,
    /// `json-pointer` of RFC 6901, section 3.
    JsonPointer,
    /// `relative-json-pointer` of draft-handrews-relative-json-pointer-02, section 3.
    RelativeJsonPointer,
    /// `time`: `full-time` of RFC 3339, section 5.6.
    Time,
    /// `uri` of RFC 3986, appendix A.
    Uri,
    /// `uri-reference` of RFC 3986, appendix A.
    UriReference,
    /// `uri-template` of RFC 6570, section 2. `'` and characters past ASCII stand in literals.
    UriTemplate,
    /// `uuid` of RFC 9562, section 4 (before it RFC 4122, section 3).
    Uuid,
}

impl BuiltinFormat {
    /// Each format once, in order.
    pub const VARIANTS: &'static [BuiltinFormat] = &[
        BuiltinFormat::Date,
        BuiltinFormat::DateTime,
        BuiltinFormat::Duration,
        BuiltinFormat::Hostname,
        BuiltinFormat::HostnameDraft4,
        BuiltinFormat::Ipv4,
        BuiltinFormat::Ipv6,
        BuiltinFormat::Iri,
        BuiltinFormat::IriReference,
        BuiltinFormat::JsonPointer,
        BuiltinFormat::RelativeJsonPointer,
        BuiltinFormat::Time,
        BuiltinFormat::Uri,
        BuiltinFormat::UriReference,
        BuiltinFormat::UriTemplate,
        BuiltinFormat::Uuid,
    ];

    /// The name of the format in a schema. Both formats of host names have the name `hostname`.
    pub fn as_str(self) -> &'static str
        ensures { result.now ≡ format_name self }
    {
        match self {
            Self::Date => "date",
            Self::DateTime => "date-time",
            Self::Duration => "duration",
            Self::Hostname | Self::HostnameDraft4 => "hostname",
            Self::Ipv4 => "ipv4",
            Self::Ipv6 => "ipv6",
            Self::Iri => "iri",
            Self::IriReference => "iri-reference",
            Self::JsonPointer => "json-pointer",
            Self::RelativeJsonPointer => "relative-json-pointer",
            Self::Time => "time",
            Self::Uri => "uri",
            Self::UriReference => "uri-reference",
            Self::UriTemplate => "uri-template",
            Self::Uuid => "uuid",
        }
    }

    /// The least and the greatest number of characters of a text of the format, both inclusive.
    ///
    /// An open end is `u64::MAX`. `None` for IRIs, URIs, references to either, URI templates and JSON pointers.
    pub fn length_window(self) -> Option<(u64, u64)>
        ensures { result ≡ option_map bounds (window_of self) }
    {
        match self {
            Self::Date => Some((10, 10)),
            Self::DateTime => Some((20, u64::MAX)),
            Self::Duration => Some((3, u64::MAX)),
            Self::Hostname | Self::HostnameDraft4 => Some((1, 253)),
            Self::Ipv4 => Some((7, 15)),
            Self::Ipv6 => Some((2, 45)),
            Self::Time => Some((9, u64::MAX)),
            Self::Uuid => Some((36, 36)),
            Self::Iri
            | Self::IriReference
            | Self::JsonPointer
            | Self::RelativeJsonPointer
            | Self::Uri
            | Self::UriReference
            | Self::UriTemplate => None,
        }
    }

    /// A text of the format.
    pub fn example(self) -> &'static str
        ensures { result.now ≡ example_of self }
    {
        match self {
            Self::Date => "2020-01-01",
            Self::DateTime => "2020-01-01T00:00:00Z",
            Self::Duration => "P1D",
            Self::Hostname | Self::HostnameDraft4 => "example.com",
            Self::Ipv4 => "127.0.0.1",
            Self::Ipv6 => "::1",
            Self::Iri | Self::IriReference | Self::Uri | Self::UriReference => "http://example.com",
            Self::JsonPointer => "/a",
            Self::RelativeJsonPointer => "0",
            Self::Time => "00:00:00Z",
            Self::UriTemplate => "http://example.com/{id}",
            Self::Uuid => "00000000-0000-4000-8000-000000000000",
        }
    }

    /// A text of the least length of `length_window`, and where its upper end is closed one of the greatest.
    ///
    /// `None` for the formats without such a window.
    pub fn window_texts(self) -> Option<(&'static str, Option<&'static str>)>
        ensures { option_map (λ (shortest, longest).
            (shortest.now, option_map (λ it. it.now) longest)) result
            ≡ window_texts_of self }
    {
        match self {
            Self::Date | Self::Uuid => Some((self.example(), Some(self.example()))),
            Self::DateTime | Self::Duration | Self::Time => Some((self.example(), None)),
            Self::Hostname | Self::HostnameDraft4 => Some(("a", Some(LONGEST_HOST_NAME))),
            Self::Ipv4 => Some(("0.0.0.0", Some("255.255.255.255"))),
            Self::Ipv6 => Some(("::", Some("0000:0000:0000:0000:0000:0000:255.255.255.255"))),
            Self::Iri
            | Self::IriReference
            | Self::JsonPointer
            | Self::RelativeJsonPointer
            | Self::Uri
            | Self::UriReference
            | Self::UriTemplate => None,
        }
    }

    /// Whether the format's grammar derives the text.
    pub fn is_valid(self, text: &str) -> bool
        ensures { IsTrue result ↔ IsOfBuiltin self (chars text.now) }
    {
        match self {
            Self::Date => is_valid_date(text),
            Self::DateTime => is_valid_datetime(text),
            Self::Duration => is_valid_duration(text),
            Self::Hostname => is_valid_hostname(text),
            Self::HostnameDraft4 => is_valid_hostname_rfc1034(text),
            Self::Ipv4 => is_valid_ipv4(text),
            Self::Ipv6 => is_valid_ipv6(text),
            Self::Iri => is_valid_iri(text),
            Self::IriReference => is_valid_iri_reference(text),
            Self::JsonPointer => is_valid_json_pointer(text),
            Self::RelativeJsonPointer => is_valid_relative_json_pointer(text),
            Self::Time => is_valid_time(text),
            Self::Uri => is_valid_uri(text),
            Self::UriReference => is_valid_uri_reference(text),
            Self::UriTemplate => is_valid_uri_template(text),
            Self::Uuid => is_valid_uuid(text),
        }
    }

    /// Whether the draft has the format.
    fn is_known_in(self, draft: Draft) -> bool
        ensures { result ≡ is_known self draft }
    {
        match self {
            Self::Date | Self::DateTime | Self::Ipv4 | Self::Ipv6 | Self::Time | Self::Uri => true,
            Self::JsonPointer | Self::UriReference | Self::UriTemplate => Draft::Draft6 <= draft,
            Self::Hostname | Self::Iri | Self::IriReference | Self::RelativeJsonPointer => {
                Draft::Draft7 <= draft
            }
            Self::Duration | Self::Uuid => Draft::Draft201909 <= draft,
            Self::HostnameDraft4 => draft <= Draft::Draft6,
        }
    }
}

/// The built-in format of a name in a draft, or `None` where the draft has none of that name.
///
/// Names are compared exactly. In drafts 4 and 6 `hostname` is `HostnameDraft4`, from draft 7 on `Hostname`.
#[tactic(auto, unfolding(crate::specs::Formats::builtin_named))]
pub fn builtin_format(draft: Draft, name: &str) -> Option<BuiltinFormat>
    ensures { result ≡ builtin_named draft name.now }
{
    BuiltinFormat::VARIANTS.iter().copied().find(|format| format.as_str() == name
        && format.is_known_in(draft))
}
