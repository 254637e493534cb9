//! One type over the seventeen validators.

ghost use Rattle.std.specs.Prelude.{◌≡◌};
ghost use Rattle.strkw_formats.specs.Formats.{bounds};
ghost use Rattle.strkw_keywords.specs.Lengths.{interval};
ghost use Rattle.strkw_keywords.specs.Validators.{demands_of, place_of, remark_made};

use crate::checks::Checks;
use crate::content::{
    ContentEncodingAnnotationValidator, ContentEncodingValidator,
    ContentMediaTypeAndEncodingValidator, ContentMediaTypeAnnotationValidator,
    ContentMediaTypeValidator, ContentSchemaAnnotationValidator,
};
use crate::findings::Found;
use crate::format::{AnnotationOnlyFormatValidator, CustomFormatValidator, FormatValidator};
use crate::lengths::{LengthRangeValidator, MaxLengthValidator, MinLengthValidator};
use crate::parts::Parts;
use crate::pattern::{
    AlternationPatternValidator, ExactPatternValidator, NoWhitespacePatternValidator,
    PatternValidator, PrefixPatternValidator,
};
use crate::test::Test;
use crate::validate::{Uses, Validate};
use std::alloc::Global;
use strkw_pattern::RegexEngine;
use strkw_report::{Node, TextNode};

/// The validator of a compiled entry, or of the entries `minLength` and `maxLength` together.
#[derive(Drop)]
pub enum Validator<E> {
    /// `contentMediaType` alone, in drafts 6 and 7.
    ContentMediaType(ContentMediaTypeValidator),
    /// `contentEncoding` alone, in drafts 6 and 7.
    ContentEncoding(ContentEncodingValidator),
    /// `contentMediaType` beside `contentEncoding`, in drafts 6 and 7.
    ContentMediaTypeAndEncoding(ContentMediaTypeAndEncodingValidator),
    /// `contentMediaType` from draft 2019-09 on.
    ContentMediaTypeAnnotation(ContentMediaTypeAnnotationValidator),
    /// `contentEncoding` from draft 2019-09 on.
    ContentEncodingAnnotation(ContentEncodingAnnotationValidator),
    /// `contentSchema` from draft 2019-09 on.
    ContentSchemaAnnotation(ContentSchemaAnnotationValidator),
    /// `format`, checked by a built-in format.
    Format(FormatValidator),
    /// `format`, checked by a row of the caller.
    CustomFormat(CustomFormatValidator),
    /// `format`, not checked.
    AnnotationOnlyFormat(AnnotationOnlyFormatValidator),
    /// `minLength` alone.
    MinLength(MinLengthValidator),
    /// `maxLength` alone.
    MaxLength(MaxLengthValidator),
    /// `minLength` and `maxLength`.
    LengthRange(LengthRangeValidator),
    /// `pattern`, where a literal begins the texts.
    PrefixPattern(PrefixPatternValidator),
    /// `pattern`, where a literal is the text.
    ExactPattern(ExactPatternValidator),
    /// `pattern`, where one of some literals is the text.
    AlternationPattern(AlternationPatternValidator),
    /// `pattern`, where texts have no white space.
    NoWhitespacePattern(NoWhitespacePatternValidator),
    /// `pattern`, matched by an engine.
    Pattern(PatternValidator<E>),
}

impl<E: RegexEngine> Validator<E> {
    /// The least and the greatest number of characters that it leaves to a text, both inclusive: by its limits, or by
    /// the window of its built-in format. An open end is `u64::MAX`, and a validator that bounds no length answers `(0,
    /// u64::MAX)`. The first is above the second where no length is left.
    #[tactic(auto, using(crate::proofs::Intervals::common_any, crate::proofs::Intervals::bounds_unwrapped))]
    pub fn interval(&self) -> (u64, u64)
        ensures { result ≡ bounds (interval (demands_of E.outcome self.now)) }
    {
        match self {
            Validator::Format(v) => v.test.format.length_window().unwrap_or((0, u64::MAX)),
            Validator::MinLength(v) => (v.test.limit, u64::MAX),
            Validator::MaxLength(v) => (0, v.test.limit),
            Validator::LengthRange(v) => (v.test.min, v.test.max),
            // A check of the caller says nothing of lengths, whatever its name.
            _ => (0, u64::MAX),
        }
    }
}

// The same call of each of the seventeen.
macro_rules! of_each {
    ($validator:expr, $v:ident => $call:expr) => {
        match $validator {
            Validator::ContentMediaType($v) => $call,
            Validator::ContentEncoding($v) => $call,
            Validator::ContentMediaTypeAndEncoding($v) => $call,
            Validator::ContentMediaTypeAnnotation($v) => $call,
            Validator::ContentEncodingAnnotation($v) => $call,
            Validator::ContentSchemaAnnotation($v) => $call,
            Validator::Format($v) => $call,
            Validator::CustomFormat($v) => $call,
            Validator::AnnotationOnlyFormat($v) => $call,
            Validator::MinLength($v) => $call,
            Validator::MaxLength($v) => $call,
            Validator::LengthRange($v) => $call,
            Validator::PrefixPattern($v) => $call,
            Validator::ExactPattern($v) => $call,
            Validator::AlternationPattern($v) => $call,
            Validator::NoWhitespacePattern($v) => $call,
            Validator::Pattern($v) => $call,
        }
    };
}

impl<E: RegexEngine> Uses for Validator<E> {
    ghost place = { place_of };

    ghost demands = { demands_of E.outcome };

    ghost remark = { remark_made };

    fn parts(&self) -> Parts<'_> {
        of_each!(self, v => v.test.parts(&v.origin))
    }
}

impl<E: RegexEngine, N: Node> Validate<N> for Validator<E> {
    fn findings(&self, alloc: Global, text: &TextNode<'_, N>, checks: &Checks) -> Found<'_> {
        of_each!(self, v => v.test.findings(alloc, text, checks))
    }
}
