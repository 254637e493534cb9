//! What each draft does with the content keywords.

ghost use Rattle.std.specs.Prelude.{◌≡◌};
ghost use Rattle.strkw_keywords.specs.Object.{content_rule};

use strkw_report::Draft;

/// What a draft does with `contentMediaType`, `contentEncoding` and `contentSchema`.
#[derive(Debug, Clone, Copy, PartialEq, Eq)]
pub enum ContentRule {
    /// The entries add nothing, whatever their values are.
    Ignored,
    /// A text has to be of the media type and the encoding (JSON Schema Validation draft 7, section 8).
    /// `contentSchema` adds nothing.
    Checked,
    /// The values are annotations, and no text is checked (JSON Schema Validation 2019-09 and 2020-12, section 8).
    Noted,
}

impl ContentRule {
    /// The rule of a draft: draft 4 ignores content, drafts 6 and 7 check it, and the later drafts note it. Draft 6 has
    /// no content keywords; it checks them because the Rust crate does.
    pub fn of(draft: Draft) -> ContentRule
        ensures { result ≡ content_rule draft }
    {
        match draft {
            Draft::Draft4 => ContentRule::Ignored,
            Draft::Draft6 | Draft::Draft7 => ContentRule::Checked,
            Draft::Draft201909 | Draft::Draft202012 => ContentRule::Noted,
        }
    }
}
