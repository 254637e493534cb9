//! The validator of the entry `pattern`.

ghost use Rattle.std.specs.Prelude.{◌∷◌, ◌≡◌, None, [], string_bytes};
ghost use Rattle.serde_json.specs.View.{view};
ghost use Rattle.strkw_pattern.specs.Matcher.{literal_outcome, matcher_of};
ghost use Rattle.strkw_keywords.specs.Compiled.{IsPatternBuilt};
ghost use Rattle.strkw_keywords.specs.Demands.{compares};
ghost use Rattle.strkw_keywords.specs.Settings.{settings_of};
ghost use Rattle.strkw_keywords.specs.Validators.{demands_of, place_of, remark_made};

use crate::checks::{ContentCodec, Format, MediaTypeCheck};
use crate::compile::{Refused, no_string, origin_of};
use crate::keyed::Keyed;
use crate::keyword::Keyword;
use crate::options::Context;
use crate::parts::Origin;
use crate::pattern::{Literal, Matching};
use crate::validator::Validator;
use serde_json::Value;
use std::alloc::Global;
use strkw_pattern::laws::matcher_answers_search;
use strkw_pattern::{
    BuildRefusal, EngineBuilder, LiteralMatcher, PatternOptimization, RegexEngine, analyze_pattern,
};
use strkw_report::CompileErrorKind;

pub(crate) fn build_pattern<B: EngineBuilder>(
    alloc: Global,
    ctx: &Context<'_, B>,
    value: &Value,
) -> Result<Option<Validator<B::Engine>>, Refused>
    ensures { IsPatternBuilt B.Engine.outcome
        (settings_of B.takes B.outcome admits accepts is_encoding decoding ctx.now)
        (view value.now) result }
{
    matcher_answers_search();
    let Some(text) = value.as_str() else {
        return Err(no_string(value, Keyword::Pattern));
    };
    let pattern = String::from_str(alloc, text)?;
    if let Some(literal) = analyze_pattern(alloc, text)? {
        return Ok(Some(literal_validator(origin_of(ctx)?, pattern, literal)));
    }
    match ctx.builder.build(alloc, text) {
        Ok(engine) => {
            let origin = origin_of(ctx)?;
            let test = Matching { pattern, engine };
            Ok(Some(Validator::Pattern(Keyed { origin, test })))
        }
        Err(BuildRefusal::Pattern) => Err(Refused::Malformed(
            Keyword::Pattern,
            CompileErrorKind::Regex { pattern },
        )),
        Err(BuildRefusal::Memory) => Err(Refused::Memory),
    }
}

fn literal_validator<E: RegexEngine>(
    origin: Origin,
    pattern: String,
    literal: PatternOptimization,
) -> Validator<E>
    ensures place { place_of result ≡ origin }
    ensures demands { demands_of E.outcome result
        ≡ compares (string_bytes pattern) (literal_outcome (matcher_of literal)) ∷ [] }
    ensures remark { remark_made result ≡ None }
{
    match literal {
        PatternOptimization::Prefix(literal) => {
            let matcher = LiteralMatcher::Prefix { literal };
            Validator::PrefixPattern(Literal::keyed_validator(origin, pattern, matcher))
        }
        PatternOptimization::Exact(exact) => {
            let matcher = LiteralMatcher::Exact { exact };
            Validator::ExactPattern(Literal::keyed_validator(origin, pattern, matcher))
        }
        PatternOptimization::Alternation(alternatives) => {
            let matcher = LiteralMatcher::Alternation { alternatives };
            Validator::AlternationPattern(Literal::keyed_validator(origin, pattern, matcher))
        }
        PatternOptimization::NoWhitespace => {
            let matcher = LiteralMatcher::NoWhitespace;
            Validator::NoWhitespacePattern(Literal::keyed_validator(origin, pattern, matcher))
        }
    }
}
