//! A format, a media type and a codec of the caller's own. Each says by a ghost member which texts it admits; that its
//! call answers so is proved.

ghost use Rattle.std.specs.Prelude.{◌≡◌, ◌==◌, length, true, encode_utf8_all, nat_lt};
ghost use Rattle.std.specs.List.{list_all};

use std::alloc::{AllocError, Global};
use strkw_coding::DecodeError;
use strkw_keywords::{ContentCodec, Format, MediaTypeCheck};
use strkw_report::char_count;

/// `article`: numbers of articles, which have eight characters.
#[derive(Drop)]
pub struct ArticleNumber;

impl Format for ArticleNumber {
    ghost admits = { λ _ text. length text == 8 };

    fn is_valid(&self, _alloc: Global, value: &str) -> Result<bool, AllocError> {
        Ok(char_count(value) == 8)
    }
}

/// `text/plain;charset=us-ascii`: the texts of ASCII characters.
#[derive(Drop)]
pub struct AsciiText;

impl MediaTypeCheck for AsciiText {
    ghost accepts = { λ _ text. list_all (λ c. nat_lt c 128) text };

    fn accepts(&self, _alloc: Global, value: &str) -> Result<bool, AllocError> {
        Ok(value.chars().all(is_ascii))
    }
}

fn is_ascii(c: char) -> bool
    ensures { result ≡ nat_lt c 128 }
{
    c < '\u{80}'
}

/// `8bit`: a text that stands as it is (RFC 2045, section 6.2).
#[derive(Drop)]
pub struct EightBit;

impl ContentCodec for EightBit {
    ghost use Rattle.strkw_keywords.specs.Meanings.{decoded};

    ghost is_encoding = { λ _ _. true };

    ghost decoding = { λ _ text. decoded (encode_utf8_all text) };

    fn is_encoded(&self, _alloc: Global, _value: &str) -> Result<bool, AllocError> {
        Ok(true)
    }

    fn decode(&self, alloc: Global, value: &str) -> Result<Option<String>, DecodeError> {
        Ok(Some(String::from_str(alloc, value)?))
    }
}
