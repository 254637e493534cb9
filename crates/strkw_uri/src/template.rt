//! URI templates.
ghost use Rattle.std.specs.Prelude.{◌≡◌, ◌↔◌, ◌<◌, ◌≤◌, ℕ, List, IsTrue, MatchOption, IfSome, IsUtf8, length};
ghost use Rattle.std.specs.Str.{chars};
ghost use Rattle.strkw_text.specs.Abnf.{◌⨾◌, Optional};
ghost use Rattle.strkw_text.specs.Fronts.{StartsWith, StartsWithNo, RunThen};
ghost use Rattle.strkw_uri.specs.Scan.{BehindVariable, LeavesBehind, BeginsNot};
ghost use Rattle.strkw_uri.specs.Uri.{Encoded};
ghost use Rattle.strkw_uri.specs.Template.{is_literal_char, Varchar, FurtherVarchar, MaxLength, ModifierLevel4, Varspec, InExpression, LiteralOrExpression, IsUriTemplate};

use crate::part::{Part, Syntax, after_ascii};
use crate::scan::{
    Class, after_one, after_optional, after_two_hexdigits, first_char, is_end, strip,
};

fn is_literal_char(c: char) -> bool
    ensures { result ≡ is_literal_char c }
{
    !matches!(
        c,
        '\0'..=' ' | '\u{7F}' | '"' | '<' | '>' | '%' | '\\' | '^' | '{' | '|' | '}' | '`'
    )
}

/// What follows a character of a literal, or a percent-encoding.
fn after_literal(text: &str) -> Option<&str>
    ensures cases { MatchOption result (StartsWithNo (Encoded is_literal_char) (chars text.now))
        (λ rest. StartsWith (Encoded is_literal_char) (chars text.now) (chars rest.now)) }
    ensures shorter { IfSome result (λ rest. length rest.now < length text.now) }
    ensures utf8 { IfSome result (λ rest. IsUtf8 rest.now) }
{
    match first_char(text) {
        Some((c, rest)) => {
            if is_literal_char(c) {
                Some(rest)
            } else if c == '%' {
                after_two_hexdigits(rest)
            } else {
                None
            }
        }
        None => None,
    }
}

/// What follows a character of a name, or a percent-encoding.
#[inline]
fn after_varchar(text: &str) -> Option<&str>
    ensures cases { MatchOption result (StartsWithNo Varchar (chars text.now))
        (λ rest. StartsWith Varchar (chars text.now) (chars rest.now)) }
    ensures shorter { IfSome result (λ rest. length rest.now < length text.now) }
    ensures utf8 { IfSome result (λ rest. IsUtf8 rest.now) }
{
    match after_one(text, Class::NameChar) {
        Some(rest) => Some(rest),
        None => match strip(text, b'%') {
            Some(rest) => after_two_hexdigits(rest),
            None => None,
        },
    }
}

/// What follows a further character of a name, which a dot may precede.
#[inline]
fn after_further_varchar(text: &str) -> Option<&str>
    ensures cases { MatchOption result (StartsWithNo FurtherVarchar (chars text.now))
        (λ rest. StartsWith FurtherVarchar (chars text.now) (chars rest.now)) }
    ensures shorter { IfSome result (λ rest. length rest.now < length text.now) }
    ensures utf8 { IfSome result (λ rest. IsUtf8 rest.now) }
{
    match after_varchar(text) {
        Some(rest) => Some(rest),
        None => match strip(text, b'.') {
            Some(rest) => after_varchar(rest),
            None => None,
        },
    }
}

/// What follows a length, before what follows a variable.
fn after_max_length(text: &str) -> Option<&str>
    ensures cases { MatchOption result (BeginsNot MaxLength (chars text.now))
        (λ rest. LeavesBehind MaxLength (chars text.now) (chars rest.now)) }
    ensures shorter { IfSome result (λ rest. length rest.now < length text.now) }
    ensures utf8 { IfSome result (λ rest. IsUtf8 rest.now) }
{
    match after_one(text, Class::NonzeroDecimal) {
        Some(rest) => {
            let rest = after_optional(rest, Class::Decimal);
            let rest = after_optional(rest, Class::Decimal);
            Some(after_optional(rest, Class::Decimal))
        }
        None => None,
    }
}

/// What follows a modifier or, where there is none, the text, before what follows a variable.
fn after_optional_modifier(text: &str) -> Option<&str>
    ensures cases { MatchOption result (BeginsNot (Optional ModifierLevel4) (chars text.now))
        (λ rest. LeavesBehind (Optional ModifierLevel4) (chars text.now) (chars rest.now)) }
    ensures bound { IfSome result (λ rest. length rest.now ≤ length text.now) }
    ensures utf8 { IfSome result (λ rest. IsUtf8 rest.now) }
{
    match strip(text, b':') {
        Some(rest) => after_max_length(rest),
        None => match strip(text, b'*') {
            Some(rest) => Some(rest),
            None => Some(text),
        },
    }
}

/// What follows the longest run of further characters of a name.
fn skip_name(text: &str) -> &str
    ensures run { RunThen FurtherVarchar (chars text.now) (chars result.now) }
    ensures bound { length result.now ≤ length text.now }
{
    let mut rest = text;
    while let Some(after) = after_further_varchar(rest) {
        rest = after;
    }
    rest
}

/// What follows a variable, before a comma or a closing brace.
fn after_varspec(text: &str) -> Option<&str>
    ensures cases { MatchOption result (BeginsNot Varspec (chars text.now))
        (λ rest. LeavesBehind Varspec (chars text.now) (chars rest.now)) }
    ensures shorter { IfSome result (λ rest. length rest.now < length text.now) }
    ensures utf8 { IfSome result (λ rest. IsUtf8 rest.now) }
{
    match after_varchar(text) {
        Some(rest) => after_optional_modifier(skip_name(rest)),
        None => None,
    }
}

/// What follows the list of variables, and the brace that closes their expression.
fn after_variables(text: &str) -> Option<&str>
    ensures cases { MatchOption result (BeginsNot Varspec (chars text.now))
        (λ rest. (tail : List ℕ) → (Varspec ⨾ BehindVariable tail) (chars text.now)
        ↔ (chars rest.now ≡ tail)) }
    ensures shorter { IfSome result (λ rest. length rest.now < length text.now) }
    ensures utf8 { IfSome result (λ rest. IsUtf8 rest.now) }
{
    let mut rest = text;
    while let Some(after) = after_varspec(rest) {
        match strip(after, b',') {
            Some(next) => rest = next,
            None => return strip(after, b'}'),
        }
    }
    None
}

/// What follows an expression, after the brace that opens it.
fn after_in_expression(text: &str) -> Option<&str>
    ensures cases { MatchOption result (StartsWithNo InExpression (chars text.now))
        (λ rest. StartsWith InExpression (chars text.now) (chars rest.now)) }
    ensures shorter { IfSome result (λ rest. length rest.now < length text.now) }
    ensures utf8 { IfSome result (λ rest. IsUtf8 rest.now) }
{
    after_variables(after_optional(text, Class::OperatorChar))
}

/// What follows a character of a literal or an expression.
fn after_literal_or_expression(text: &str) -> Option<&str>
    ensures cases { MatchOption result (StartsWithNo LiteralOrExpression (chars text.now))
        (λ rest. StartsWith LiteralOrExpression (chars text.now) (chars rest.now)) }
    ensures shorter { IfSome result (λ rest. length rest.now < length text.now) }
    ensures utf8 { IfSome result (λ rest. IsUtf8 rest.now) }
{
    if let Some(rest) = strip(text, b'{') {
        return after_in_expression(rest);
    }
    after_literal(text)
}

/// Whether the text is a URI template: literals and expressions in braces (RFC 6570, section 2). A literal may
/// hold an apostrophe (erratum 6937) and, which the RFC does not say, any character past ASCII.
pub fn is_valid_uri_template(text: &str) -> bool
    ensures { IsTrue result ↔ IsUriTemplate (chars text.now) }
{
    let mut rest = text;
    while let Some(after) = after_literal_or_expression(rest) {
        // Literals are mostly characters of a query, whose runs are read by blocks.
        rest = after_ascii(after, Syntax::Rfc3986, Part::QueryChar);
    }
    is_end(rest)
}
