//! What is said of a text that was not decoded.

ghost use Rattle.strkw_coding.specs.DecodeTexts.{decode_text};

use crate::codec::DecodeError;
use std::error::Error;
use std::fmt;

/// `the encoded bytes are not UTF-8`, or `out of memory`.
impl fmt::Display for DecodeError {
    ghost use Rattle.std.specs.Prelude.{Some};

    ghost output = { λ e. Some (decode_text e) };

    fn fmt<W: fmt::Write>(&self, f: &mut fmt::Formatter<W>) -> fmt::Result {
        match self {
            DecodeError::NotUtf8 => f.write_str("the encoded bytes are not UTF-8"),
            DecodeError::Memory => f.write_str("out of memory"),
        }
    }
}

impl Error for DecodeError {}
