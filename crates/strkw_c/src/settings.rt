//! What a caller sets by the bits of a number.

ghost use Rattle.std.specs.Prelude.{◌≡◌};
ghost use Rattle.strkw_c.specs.Settings.{choices_of, options_of};

use strkw_keywords::Options;

/// The draft decides whether formats are checked.
const FORMATS_AS_DRAFT: u32 = 1;

/// An unknown format adds nothing.
const IGNORE_UNKNOWN_FORMATS: u32 = 2;

const BOTH: u32 = 3;

/// The companions are formats that are checked.
const COMPANION_FORMATS: u32 = 4;

/// What the bits of a number set.
#[derive(Clone, Copy)]
pub(crate) struct Choices {
    /// What a schema object is compiled with.
    pub(crate) options: Options,
    /// Whether the companions of the draft are formats that are checked.
    pub(crate) companions: bool,
}

/// What the bits set, or `None` where there is another bit.
pub(crate) fn choices_of(bits: u32) -> Option<Choices>
    ensures { result ≡ choices_of bits }
{
    let companions = COMPANION_FORMATS <= bits;
    let rest = if companions {
        bits - COMPANION_FORMATS
    } else {
        bits
    };
    let options = options_of(rest)?;
    Some(Choices {
        options,
        companions,
    })
}

// The options that the first two bits set, or `None` where there is another bit.
fn options_of(bits: u32) -> Option<Options>
    ensures { result ≡ options_of bits }
{
    let (validate_formats, ignore_unknown_formats) = match bits {
        0 => (Some(true), false),
        FORMATS_AS_DRAFT => (None, false),
        IGNORE_UNKNOWN_FORMATS => (Some(true), true),
        BOTH => (None, true),
        _ => return None,
    };
    let mut options = Options::default();
    options.validate_formats = validate_formats;
    options.ignore_unknown_formats = ignore_unknown_formats;
    Some(options)
}
