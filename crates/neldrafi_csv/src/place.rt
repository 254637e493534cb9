//! Places in a text, by lines.

ghost use Rattle.std.specs.Prelude.{◌≡◌, ◌==◌, ◌^◌, ◌≤◌, ℕ, List, [], ◌∷◌, length, IfSome, IfNone};
ghost use Rattle.neldrafi_csv.specs.Lines.{HasNoLineByte, ends_line, first_place, place_after};

use crate::runs::line_free_run;

/// A place in a text.
#[derive(Clone, Copy, Debug, PartialEq, Eq)]
pub(crate) struct Place {
    /// The line, from 1.
    pub(crate) line: u64,
    /// It follows a carriage return.
    pub(crate) after_cr: bool,
}

impl Place {
    /// The start of a text.
    pub(crate) fn start() -> Place
        ensures { result ≡ first_place }
    {
        Place {
            line: 1,
            after_cr: false,
        }
    }

    // Whether one more line has ended with this byte.
    fn is_ended_by(self, byte: u8) -> bool
        ensures { result ≡ ends_line self.after_cr byte }
    {
        byte == b'\r' || (byte == b'\n' && !self.after_cr)
    }

    // The place behind one more byte, or `None` if its line is past a `u64`.
    fn place_behind(self, byte: u8) -> Option<Place>
        ensures some { IfSome result (λ place. place ≡ place_after self (byte ∷ [])) }
        ensures none { IfNone result (2 ^ 64 ≤ (place_after self (byte ∷ [])).line) }
    {
        let after_cr = byte == b'\r';
        if !self.is_ended_by(byte) {
            return Some(Place {
                line: self.line,
                after_cr,
            });
        }
        Some(Place {
            line: self.line.checked_add(1)?,
            after_cr,
        })
    }

    /// The place behind these bytes, or `None` if its line is past a `u64`.
    pub(crate) fn behind(self, bytes: &[u8]) -> Option<Place>
        ensures some { IfSome result (λ place. place ≡ place_after self bytes.now) }
        ensures none { IfNone result (2 ^ 64 ≤ (place_after self bytes.now).line) }
    {
        let mut place = self;
        let mut at = 0;
        'lines: while at < bytes.len() {
            let rest = &bytes[at..];
            let count = line_free_run(rest);
            place = place.behind_plain(count);
            if count == rest.len() {
                return Some(place);
            }
            place = place.place_behind(rest[count])?;
            at += count + 1;
        }
        Some(place)
    }

    // The place behind so many bytes in which no line ends.
    fn behind_plain(self, count: usize) -> Place
        ensures { (bytes : List ℕ) → HasNoLineByte bytes → count ≡ length bytes
            → result ≡ place_after self bytes }
    {
        Place {
            line: self.line,
            after_cr: self.after_cr && count == 0,
        }
    }
}
