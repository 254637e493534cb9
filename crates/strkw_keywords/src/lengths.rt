//! The keywords `minLength` and `maxLength`: the validators of each and of both at once, and their entries.

ghost use Rattle.std.specs.Prelude.{◌∷◌, ◌≡◌, MatchOption, None, Some, [], false};
ghost use Rattle.serde_json.specs.View.{view};
ghost use Rattle.strkw_keywords.specs.Compiled.{IsBuilt, max_share, min_share};
ghost use Rattle.strkw_keywords.specs.Demands.{at_least, at_most};
ghost use Rattle.strkw_keywords.specs.Object.{gives, greatest_entry, is_given, least_entry, value_at};
ghost use Rattle.strkw_keywords.specs.Settings.{place_in};

use crate::checks::Checks;
use crate::compile::{Refused, origin_of};
use crate::findings::{Findings, Found};
use crate::keyed::Keyed;
use crate::keyword::Keyword;
use crate::options::{Context, Options};
use crate::parts::{Origin, Parts};
use crate::test::Test;
use crate::validator::Validator;
use crate::values::Object;
use serde_json::Value;
use std::alloc::Global;
use strkw_pattern::EngineBuilder;
use strkw_report::{CompileErrorKind, Failure, Node, TextNode};

/// Demands that a text has so many characters or more (2020-12, section 6.3.2).
pub type MinLengthValidator = Keyed<AtLeast>;

/// Demands that a text has so many characters or fewer (2020-12, section 6.3.1).
pub type MaxLengthValidator = Keyed<AtMost>;

/// Demands that the number of characters of a text is from a least to a greatest one, both inclusive, and counts them
/// once. The error of `minLength` comes first.
pub type LengthRangeValidator = Keyed<Between>;

/// The test of `minLength`: a text has so many characters or more. It never answers that it is out of memory.
#[derive(Drop)]
pub struct AtLeast {
    pub(crate) limit: u64,
}

/// The test of `maxLength`: a text has so many characters or fewer. It never answers that it is out of memory.
#[derive(Drop)]
pub struct AtMost {
    pub(crate) limit: u64,
}

/// The test of both: the number of characters is from a least to a greatest one, both inclusive. It never answers that
/// it is out of memory.
#[derive(Drop)]
pub struct Between {
    pub(crate) min: u64,
    pub(crate) max: u64,
}

// ---- what each demands, and finds

impl Test for AtLeast {
    ghost demands = { λ t. at_least t.limit ∷ [] };

    fn parts<'a>(&'a self, origin: &'a Origin) -> Parts<'a> {
        Parts::of_quiet(origin, None)
    }

    fn findings<N: Node>(&self, _: Global, text: &TextNode<'_, N>, _: &Checks) -> Found<'_> {
        Ok(Findings {
            first: (text.length() < self.limit).then_some(Failure::MinLength(self.limit)),
            second: None,
        })
    }
}

impl Test for AtMost {
    ghost demands = { λ t. at_most t.limit ∷ [] };

    fn parts<'a>(&'a self, origin: &'a Origin) -> Parts<'a> {
        Parts::of_quiet(origin, None)
    }

    fn findings<N: Node>(&self, _: Global, text: &TextNode<'_, N>, _: &Checks) -> Found<'_> {
        Ok(Findings {
            first: (text.length() > self.limit).then_some(Failure::MaxLength(self.limit)),
            second: None,
        })
    }
}

impl Test for Between {
    ghost demands = { λ t. at_least t.min ∷ at_most t.max ∷ [] };

    fn parts<'a>(&'a self, origin: &'a Origin) -> Parts<'a> {
        Parts::of_quiet(origin, None)
    }

    fn findings<N: Node>(&self, _: Global, text: &TextNode<'_, N>, _: &Checks) -> Found<'_> {
        let length = text.length();
        Ok(Findings {
            first: (length < self.min).then_some(Failure::MinLength(self.min)),
            second: (length > self.max).then_some(Failure::MaxLength(self.max)),
        })
    }
}

// The limit of `minLength`, where its entry is good.
fn least_in<O: Object>(options: &Options, parent: &O) -> Option<u64>
    ensures { MatchOption result
        (is_given (least_entry options.now (O.members parent.now)) ≡ false)
        (λ n. (least_entry options.now (O.members parent.now)) ≡ gives (at_least n ∷ []) None) }
{
    if options.is_overridden(Keyword::MinLength) {
        return None;
    }
    parent.value(Keyword::MinLength)?.as_u64()
}

// The limit of `maxLength`, where its entry is good.
fn greatest_in<O: Object>(options: &Options, parent: &O) -> Option<u64>
    ensures { MatchOption result
        (is_given (greatest_entry options.now (O.members parent.now)) ≡ false)
        (λ n. (greatest_entry options.now (O.members parent.now)) ≡ gives (at_most n ∷ []) None) }
{
    if options.is_overridden(Keyword::MaxLength) {
        return None;
    }
    parent.value(Keyword::MaxLength)?.as_u64()
}

// The validator of `minLength` stands for `maxLength` too, where the limit of `maxLength` is there and good.
pub(crate) fn build_min<B: EngineBuilder, O: Object>(
    ctx: &Context<'_, B>,
    parent: &O,
    value: &Value,
) -> Result<Option<Validator<B::Engine>>, Refused>
    requires { value_at ctx.now.options Keyword.MinLength (O.members parent.now)
        ≡ Some (view value.now) }
    ensures { IsBuilt B.Engine.outcome (place_in ctx.now)
        (min_share ctx.now.options (O.members parent.now)) result }
{
    let Some(min) = value.as_u64() else {
        return Err(Refused::Malformed(Keyword::MinLength, CompileErrorKind::Size));
    };
    let origin = origin_of(ctx)?;
    if let Some(max) = greatest_in(&ctx.options, parent) {
        let test = Between { min, max };
        return Ok(Some(Validator::LengthRange(Keyed { origin, test })));
    }
    let test = AtLeast { limit: min };
    Ok(Some(Validator::MinLength(Keyed { origin, test })))
}

pub(crate) fn build_max<B: EngineBuilder, O: Object>(
    ctx: &Context<'_, B>,
    parent: &O,
    value: &Value,
) -> Result<Option<Validator<B::Engine>>, Refused>
    requires { value_at ctx.now.options Keyword.MaxLength (O.members parent.now)
        ≡ Some (view value.now) }
    ensures { IsBuilt B.Engine.outcome (place_in ctx.now)
        (max_share ctx.now.options (O.members parent.now)) result }
{
    let Some(limit) = value.as_u64() else {
        return Err(Refused::Malformed(Keyword::MaxLength, CompileErrorKind::Size));
    };
    if least_in(&ctx.options, parent).is_some() {
        return Ok(None);
    }
    let origin = origin_of(ctx)?;
    let test = AtMost { limit };
    Ok(Some(Validator::MaxLength(Keyed { origin, test })))
}
