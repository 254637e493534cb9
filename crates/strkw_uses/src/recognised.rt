//! Asks of one text whether it is of a format, with no schema.

ghost use Rattle.std.specs.Prelude.{◌≡◌, ◌↔◌, Some, IsTrue};
ghost use Rattle.std.specs.Str.{chars};
ghost use Rattle.strkw_time.specs.Time.{IsFullDate};

use strkw_keywords::builtin_format;
use strkw_report::Draft;
use strkw_time::is_valid_date;

/// Whether the text is a date.
pub fn is_birthday(text: &str) -> bool
    ensures { IsTrue result ↔ IsFullDate (chars text.now) }
{
    is_valid_date(text)
}

/// Whether the text is of the format that the draft knows by this name; `None` where it knows none.
pub fn is_of(draft: Draft, name: &str, text: &str) -> Option<bool> {
    let format = builtin_format(draft, name)?;
    Some(format.is_valid(text))
}
