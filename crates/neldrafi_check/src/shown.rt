//! Texts as messages show them.

ghost use Rattle.std.specs.Prelude.{◌≡◌, ◌++◌, OnOk, string_bytes, Some};
ghost use Rattle.neldrafi_check.specs.Shown.{is_hidden, shown_text, shown_char};

use std::alloc::AllocError;
use std::fmt;
use std::fmt::Write;
use ucd_category::GeneralCategory;

// Whether a character does not show as itself: a control, a format character, the end of a line or of a paragraph.
fn is_hidden(c: char) -> bool
    ensures { result ≡ is_hidden c }
{
    matches!(
        GeneralCategory::for_char(c),
        GeneralCategory::Control
            | GeneralCategory::Format
            | GeneralCategory::LineSeparator
            | GeneralCategory::ParagraphSeparator
    )
}

// A character as it is shown.
#[derive(Clone, Copy)]
struct ShownChar(char);

impl fmt::Display for ShownChar {
    ghost output = { λ c. Some (shown_char c.0) };

    fn fmt<W: fmt::Write>(&self, f: &mut fmt::Formatter<W>) -> fmt::Result {
        let c = self.0;
        if is_hidden(c) {
            let code = u32::from(c);
            write!(f, "\\u{{{code:x}}}")
        } else {
            write!(f, "{c}")
        }
    }
}

/// A text as it is shown in a message: controls, format characters (those that turn the direction of a text among
/// them), and the ends of lines and paragraphs (the general categories Cc, Cf, Zl and Zp of Unicode 18) stand as
/// `\u{202e}`, the code in base 16. Any other character stands as it is.
#[derive(Clone, Copy)]
pub struct Shown<'a>(pub &'a str);

impl fmt::Display for Shown<'_> {
    fn fmt<W: fmt::Write>(&self, f: &mut fmt::Formatter<W>) -> fmt::Result {
        for c in self.0.chars() {
            let shown = ShownChar(c);
            write!(f, "{shown}")?;
        }
        Ok(())
    }
}

/// Appends a character as it is shown. The only error is out of memory; a beginning of it may then have been appended.
pub(crate) fn push_shown_char(c: char, out: &mut String) -> Result<(), AllocError>
    ensures { OnOk result (string_bytes out.new ≡ string_bytes out.old ++ shown_char c) }
{
    let shown = ShownChar(c);
    write!(out, "{shown}")?;
    Ok(())
}

/// Appends a text as it is shown. The only error is out of memory; a beginning of it may then have been appended.
pub fn push_shown(text: &str, out: &mut String) -> Result<(), AllocError>
    ensures { OnOk result (string_bytes out.new ≡ string_bytes out.old ++ shown_text text.now) }
{
    for c in text.chars() {
        push_shown_char(c, out)?;
    }
    Ok(())
}
