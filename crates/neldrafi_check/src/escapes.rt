//! Texts, escaped for the syntax in which they stand.

ghost use Rattle.std.specs.Prelude.{◌≡◌, ◌++◌, OnOk, string_bytes};
ghost use Rattle.neldrafi_check.specs.Escapes.{escaped_char, escaped_in_xml, escaped_text, is_xml_char};

use std::alloc::AllocError;

/// Where a text stands.
#[derive(Clone, Copy)]
pub(crate) enum Syntax {
    /// In a property of a workflow command of GitHub.
    CommandProperty,
    /// In the message of one.
    CommandMessage,
    /// In XML, in the value of an attribute or in an element.
    Xml,
    /// In a message of SARIF.
    SarifMessage,
}

// Whether XML has a character.
fn is_xml_char(c: char) -> bool
    ensures { result ≡ is_xml_char c }
{
    matches!(
        c,
        '\t' | '\n' | '\r' | ' '..='\u{D7FF}' | '\u{E000}'..='\u{FFFD}' | '\u{10000}'..='\u{10FFFF}'
    )
}

// Appends a character, escaped in XML.
fn push_xml_char(c: char, out: &mut String) -> Result<(), AllocError>
    ensures { OnOk result (string_bytes out.new ≡ string_bytes out.old ++ escaped_in_xml c) }
{
    match c {
        '&' => out.push_str("&amp;"),
        '<' => out.push_str("&lt;"),
        '>' => out.push_str("&gt;"),
        '"' => out.push_str("&quot;"),
        '\t' => out.push_str("&#9;"),
        '\n' => out.push_str("&#10;"),
        '\r' => out.push_str("&#13;"),
        _ if is_xml_char(c) => out.push(c),
        _ => out.push(char::REPLACEMENT_CHARACTER),
    }
}

// Appends a character, escaped.
fn push_escaped_char(syntax: Syntax, c: char, out: &mut String) -> Result<(), AllocError>
    ensures { OnOk result (string_bytes out.new
        ≡ string_bytes out.old ++ escaped_char syntax c) }
{
    match (syntax, c) {
        (Syntax::Xml, c) => push_xml_char(c, out),
        (Syntax::SarifMessage, '{') => out.push_str("{{"),
        (Syntax::SarifMessage, '}') => out.push_str("}}"),
        (Syntax::SarifMessage, c) => out.push(c),
        (_, '%') => out.push_str("%25"),
        (_, '\r') => out.push_str("%0D"),
        (_, '\n') => out.push_str("%0A"),
        (Syntax::CommandProperty, ':') => out.push_str("%3A"),
        (Syntax::CommandProperty, ',') => out.push_str("%2C"),
        _ => out.push(c),
    }
}

/// Appends a text, escaped. The only error is out of memory; a beginning of it may then have been appended.
pub(crate) fn push_escaped(syntax: Syntax, text: &str, out: &mut String) -> Result<(), AllocError>
    ensures { OnOk result (string_bytes out.new
        ≡ string_bytes out.old ++ escaped_text syntax text.now) }
{
    for c in text.chars() {
        push_escaped_char(syntax, c, out)?;
    }
    Ok(())
}
