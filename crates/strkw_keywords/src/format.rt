//! The keyword `format`: its validators, and its entry.

ghost use Rattle.std.specs.Prelude.{◌∷◌, ◌≡◌, Some, [], string_bytes};
ghost use Rattle.serde_json.specs.Data.{string};
ghost use Rattle.serde_json.specs.View.{view};
ghost use Rattle.strkw_formats.specs.Formats.{format_name};
ghost use Rattle.strkw_keywords.specs.Compiled.{IsBuilt, single_entry};
ghost use Rattle.strkw_keywords.specs.Demands.{is_format};
ghost use Rattle.strkw_keywords.specs.Meanings.{builtin, row};
ghost use Rattle.strkw_keywords.specs.Object.{checks_formats, format_entry, ignores_unknown};
ghost use Rattle.strkw_keywords.specs.Remarks.{remark_at};
ghost use Rattle.strkw_keywords.specs.Settings.{place_in, settings_of};
ghost use Rattle.strkw_keywords.specs.declared.keyword.Keyword.TheVariants as keyword;

pub use crate::by_keyword::compile_format as compile;
use crate::checks::{Checks, ContentCodec, Format, MediaTypeCheck, ask_row};
use crate::compile::{Refused, no_string, origin_of};
use crate::content::Untested;
use crate::findings::{Findings, Found};
use crate::keyed::Keyed;
use crate::keyword::Keyword;
use crate::options::{Context, Options};
use crate::parts::{Noted, Origin, Parts, RowRef};
use crate::test::Test;
use crate::validator::Validator;
use serde_json::Value;
use std::alloc::Global;
use strkw_formats::{BuiltinFormat, builtin_format};
use strkw_pattern::EngineBuilder;
use strkw_report::{CompileErrorKind, Draft, Failure, Node, TextNode};

/// Demands that a text is of a built-in format, and notes the name of the format (2020-12, section 7.3).
pub type FormatValidator = Keyed<OfBuiltin>;

/// The test of a text for a built-in format. It never answers that it is out of memory.
#[derive(Drop)]
pub struct OfBuiltin {
    pub(crate) format: BuiltinFormat,
}

impl Test for OfBuiltin {
    ghost demands = { λ t. is_format (builtin t.format) ∷ [] };

    ghost remark = { λ t location.
        Some (remark_at location keyword.Format (string (format_name t.format))) };

    fn parts<'a>(&'a self, origin: &'a Origin) -> Parts<'a> {
        Parts::of_quiet(
            origin,
            Some(Noted::Text(Keyword::Format, self.format.as_str())),
        )
    }

    fn findings<N: Node>(&self, _: Global, text: &TextNode<'_, N>, _checks: &Checks) -> Found<'_> {
        if self.format.is_valid(text.as_str()) {
            Ok(Findings {
                first: None,
                second: None,
            })
        } else {
            Ok(Findings {
                first: Some(Failure::Format(self.format.as_str())),
                second: None,
            })
        }
    }
}

/// Demands that a row of the caller admits a text, and notes the name of the row. The row is asked that stands at the
/// kept position in the list that is given at validation.
pub type CustomFormatValidator = Keyed<OfRow>;

/// The test of a text by the row at a position, and the name that the row had at compile. Its only error is out of
/// memory.
#[derive(Drop)]
pub struct OfRow {
    pub(crate) position: usize,
    pub(crate) name: String,
}

impl Test for OfRow {
    ghost demands = { λ t. is_format (row t.position (string_bytes t.name)) ∷ [] };

    ghost remark = { λ t location.
        Some (remark_at location keyword.Format (string (string_bytes t.name))) };

    fn parts<'a>(&'a self, origin: &'a Origin) -> Parts<'a> {
        Parts {
            noted: Some(Noted::Text(Keyword::Format, self.name.as_str())),
            format: Some(RowRef {
                position: self.position,
                name: self.name.as_str(),
            }),
            is_quiet: false,
            ..Parts::of_quiet(origin, None)
        }
    }

    fn findings<N: Node>(
        &self,
        alloc: Global,
        text: &TextNode<'_, N>,
        checks: &Checks,
    ) -> Found<'_> {
        let is_admitted = ask_row(alloc, checks.formats, self.position, text.as_str())?;
        let failure = Failure::Format(self.name.as_str());
        Ok(Findings {
            first: (!is_admitted).then_some(failure),
            second: None,
        })
    }
}

/// Notes the name of a format, and makes no errors (2020-12, section 7.2.1).
pub type AnnotationOnlyFormatValidator = Keyed<Untested>;

pub(crate) fn build_format<B: EngineBuilder>(
    alloc: Global,
    ctx: &Context<'_, B>,
    value: &Value,
) -> Result<Option<Validator<B::Engine>>, Refused>
    ensures { IsBuilt B.Engine.outcome (place_in ctx.now) (single_entry Keyword.Format
        (format_entry (settings_of B.takes B.outcome admits accepts is_encoding decoding ctx.now)
        (view value.now))) result }
{
    let Some(name) = value.as_str() else {
        return Err(no_string(value, Keyword::Format));
    };
    if !checks_formats(&ctx.options, ctx.draft) {
        let noting = Untested::keyed_validator(ctx, Keyword::Format, value.clone()?)?;
        return Ok(Some(Validator::AnnotationOnlyFormat(noting)));
    }
    if let Some(position) = ctx.checks.format_named(name) {
        let name = String::from_str(alloc, name)?;
        let origin = origin_of(ctx)?;
        let test = OfRow { position, name };
        return Ok(Some(Validator::CustomFormat(Keyed { origin, test })));
    }
    match builtin_format(ctx.draft, name) {
        Some(format) => {
            let origin = origin_of(ctx)?;
            let test = OfBuiltin { format };
            Ok(Some(Validator::Format(Keyed { origin, test })))
        }
        None if ignores_unknown(&ctx.options) => Ok(None),
        None => {
            let name = String::from_str(alloc, name)?;
            let by_dialect = ctx.options.formats_by_dialect;
            let kind = CompileErrorKind::UnknownFormat { name, by_dialect };
            Err(Refused::Malformed(Keyword::Format, kind))
        }
    }
}

// Whether formats are checked, or only noted.
fn checks_formats(options: &Options, draft: Draft) -> bool
    ensures { result ≡ checks_formats options.now draft }
{
    match options.validate_formats {
        Some(wanted) => wanted,
        None => {
            matches!(draft, Draft::Draft4 | Draft::Draft6 | Draft::Draft7)
                || options.formats_by_dialect
        }
    }
}

// Whether a format that is not known adds nothing.
fn ignores_unknown(options: &Options) -> bool
    ensures { result ≡ ignores_unknown options.now }
{
    options.ignore_unknown_formats && !options.formats_by_dialect
}
