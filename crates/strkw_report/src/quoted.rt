//! A text as a JSON string, written with no memory.

ghost use Rattle.std.specs.Prelude.{Some};
ghost use Rattle.std.specs.Char.{encode_utf8};
ghost use Rattle.json.specs.Print.{escape};
ghost use Rattle.strkw_report.specs.Quoting.{quoted_text};

use crate::json_text::is_plain;
use std::fmt;

/// Writes a text as a JSON string, as `serde_json` does.
#[derive(Clone, Copy)]
pub(crate) struct Quoted<'a>(pub(crate) &'a str);

impl fmt::Display for Quoted<'_> {
    ghost output = { λ it. Some (quoted_text it.0.now) };

    fn fmt<W: fmt::Write>(&self, f: &mut fmt::Formatter<W>) -> fmt::Result {
        let escaped = EscapedText(self.0);
        write!(f, "\"{escaped}\"")
    }
}

// The inside of a JSON string.
#[derive(Clone, Copy)]
struct EscapedText<'a>(&'a str);

impl fmt::Display for EscapedText<'_> {
    ghost output = { λ it. Some (escape it.0.now) };

    fn fmt<W: fmt::Write>(&self, f: &mut fmt::Formatter<W>) -> fmt::Result {
        let text = self.0;
        if is_plain(text.as_bytes()) {
            return f.write_str(text);
        }
        for c in text.chars() {
            let escaped = Escaped(c);
            write!(f, "{escaped}")?;
        }
        Ok(())
    }
}

// A character as it stands in a JSON string (RFC 8259, section 7).
#[derive(Clone, Copy)]
struct Escaped(char);

impl fmt::Display for Escaped {
    ghost output = { λ c. Some (escape (encode_utf8 c.0)) };

    fn fmt<W: fmt::Write>(&self, f: &mut fmt::Formatter<W>) -> fmt::Result {
        match self.0 {
            '"' => f.write_str("\\\""),
            '\\' => f.write_str("\\\\"),
            '\u{8}' => f.write_str("\\b"),
            '\u{C}' => f.write_str("\\f"),
            '\n' => f.write_str("\\n"),
            '\r' => f.write_str("\\r"),
            '\t' => f.write_str("\\t"),
            c => {
                if c < ' ' {
                    let code = u32::from(c);
                    write!(f, "\\u00{code:02x}")
                } else {
                    write!(f, "{c}")
                }
            }
        }
    }
}
