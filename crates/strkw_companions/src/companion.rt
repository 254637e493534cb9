//! The formats, each as a check.

ghost use Rattle.std.specs.Prelude.{◌↔◌, ◌≡◌, IsTrue};
ghost use Rattle.strkw_companions.specs.Companions as spec;
ghost use Rattle.strkw_companions.specs.Companions.{first_draft, name_of};

use std::alloc::{AllocError, Global};
use strkw_keywords::Format;
use strkw_label::is_valid_idn_hostname;
use strkw_mail::{is_valid_email, is_valid_idn_email};
use strkw_regex_grammar::is_valid_regex;
use strkw_report::Draft;

/// A format of another standard, which no table of the drafts checks here. A caller registers it under its name.
#[derive(Debug, Clone, Copy, PartialEq, Eq)]
pub enum Companion {
    /// `email`: a mail address, `Mailbox` of RFC 5321, section 4.1.2.
    Email,
    /// `regex`: a pattern of ECMA-262 in Unicode mode, ECMA-262 2024, section 22.2.1.
    Regex,
    /// `idn-email`: an internationalised mail address, RFC 6531, section 3.3.
    IdnEmail,
    /// `idn-hostname`: an internationalised host name, RFC 5890, section 2.3.2.3.
    IdnHostname,
}

impl Companion {
    /// The name of the format in a schema.
    pub fn as_str(self) -> &'static str
        ensures { result.now ≡ name_of self }
    {
        match self {
            Companion::Email => "email",
            Companion::Regex => "regex",
            Companion::IdnEmail => "idn-email",
            Companion::IdnHostname => "idn-hostname",
        }
    }

    /// The first draft that has the name.
    pub fn first_draft(self) -> Draft
        ensures { result ≡ first_draft self }
    {
        match self {
            Companion::Email => Draft::Draft4,
            Companion::Regex => Draft::Draft4,
            Companion::IdnEmail => Draft::Draft7,
            Companion::IdnHostname => Draft::Draft7,
        }
    }
}

impl Format for Companion {
    ghost admits = { λ companion text. spec.admits companion text };

    fn is_valid(&self, alloc: Global, value: &str) -> Result<bool, AllocError> {
        match self {
            Companion::Email => Ok(is_valid_email(value)),
            Companion::Regex => is_valid_regex(alloc, value),
            Companion::IdnEmail => is_valid_idn_email(alloc, value),
            Companion::IdnHostname => is_valid_idn_hostname(alloc, value),
        }
    }
}

/// The companions that a draft has, in order.
pub fn companions_of(draft: Draft) -> &'static [Companion]
    ensures { result.now ≡ spec.companions_of draft }
{
    match draft {
        Draft::Draft4 | Draft::Draft6 => &[Companion::Email, Companion::Regex],
        Draft::Draft7 | Draft::Draft201909 | Draft::Draft202012 => {
            &[
                Companion::Email,
                Companion::Regex,
                Companion::IdnEmail,
                Companion::IdnHostname,
            ]
        }
    }
}
