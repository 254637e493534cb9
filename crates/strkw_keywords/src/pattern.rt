//! The validators of `pattern`: four of literals, and one of engines.

ghost use Rattle.std.specs.Prelude.{◌≡◌, [], ◌∷◌, None, option_map, string_bytes};
ghost use Rattle.strkw_pattern.specs.Matcher.{literal_outcome, outcome_of};
ghost use Rattle.strkw_keywords.specs.Meanings.{no_lists};
ghost use Rattle.strkw_keywords.specs.LiteralKinds.{kind_of, prefix, exact, alternation, no_whitespace};
ghost use Rattle.strkw_keywords.specs.Demands.{compares, matches, HasFinding};
ghost use Rattle.strkw_keywords.specs.Findings.{finding_of};
ghost use Rattle.std.specs.Str.{chars};

mod build;

pub use crate::by_keyword::compile_pattern as compile;
use crate::checks::Checks;
use crate::findings::{Findings, Found};
use crate::keyed::Keyed;
use crate::parts::{Origin, Parts};
use crate::test::Test;
pub(crate) use build::build_pattern;
use std::alloc::{AllocError, Global};
use std::marker::PhantomData;
use strkw_pattern::{EngineFailure, LiteralMatcher, RegexEngine};
use strkw_report::{Failure, Node, TextNode};

/// Demands that a text begins with a literal: patterns as `^items`.
pub type PrefixPatternValidator = Keyed<Literal<OfPrefix>>;

/// Demands that a text is a literal: patterns as `^items$`.
pub type ExactPatternValidator = Keyed<Literal<OfExact>>;

/// Demands that a text is one of some literals: patterns as `^(items|items)$`.
pub type AlternationPatternValidator = Keyed<Literal<OfAlternation>>;

/// Demands that a text has no white space of ECMA-262: the pattern `^\S*$`.
pub type NoWhitespacePatternValidator = Keyed<Literal<OfNoWhitespace>>;

/// How a literal is compared with texts: one of the four kinds below. It is told by its type alone.
pub trait Kind {
    ghost use Rattle.strkw_keywords.specs.LiteralKinds.{LiteralKind};

    ghost kind: { LiteralKind };
}

/// The kind of a literal with which texts begin.
#[derive(Drop)]
pub struct OfPrefix;

impl Kind for OfPrefix {
    ghost kind = { prefix };
}

/// The kind of a literal that is the text.
#[derive(Drop)]
pub struct OfExact;

impl Kind for OfExact {
    ghost kind = { exact };
}

/// The kind of some literals of which one is the text.
#[derive(Drop)]
pub struct OfAlternation;

impl Kind for OfAlternation {
    ghost kind = { alternation };
}

/// The kind of the pattern that refuses white space.
#[derive(Drop)]
pub struct OfNoWhitespace;

impl Kind for OfNoWhitespace {
    ghost kind = { no_whitespace };
}

/// The test of a text by a literal pattern, whose matcher is of the kind `K`. It never answers that it is out of
/// memory.
#[derive(Drop)]
pub struct Literal<K: Kind> {
    pub(crate) pattern: String,
    pub(crate) matcher: LiteralMatcher,
    pub(crate) of: PhantomData<K>,
    ghost is_kind: { kind_of matcher ≡ K.kind },
}

impl<K: Kind> Literal<K> {
    // The validator that compares texts by a matcher of its kind.
    fn keyed_validator(
        origin: Origin,
        pattern: String,
        matcher: LiteralMatcher,
    ) -> Keyed<Literal<K>>
        requires { kind_of matcher ≡ K.kind }
        ensures origin { result.origin ≡ origin }
        ensures pattern { result.test.pattern ≡ pattern }
        ensures matcher { result.test.matcher ≡ matcher }
    {
        let of = PhantomData;
        let test = Literal {
            pattern,
            matcher,
            of,
        };
        Keyed { origin, test }
    }
}

impl<K: Kind> Test for Literal<K> {
    ghost demands = { λ t. compares (string_bytes t.pattern) (literal_outcome t.matcher) ∷ [] };

    fn parts<'a>(&'a self, origin: &'a Origin) -> Parts<'a> {
        Parts::of_quiet(origin, None)
    }

    fn findings<N: Node>(&self, alloc: Global, text: &TextNode<'_, N>, _: &Checks) -> Found<'_> {
        let pattern = self.pattern.as_str();
        Ok(Findings {
            first: literal_finding(alloc, pattern, &self.matcher, text.as_str()),
            second: None,
        })
    }
}

// The finding on a text that a literal pattern does not match.
fn literal_finding<'a>(
    alloc: Global,
    pattern: &'a str,
    matcher: &LiteralMatcher,
    text: &str,
) -> Option<Failure<'a>>
    ensures { HasFinding (compares pattern.now (literal_outcome matcher.now)) no_lists text.now
        (option_map finding_of result) }
{
    let is_found = is_matched(alloc, matcher, text);
    (!is_found).then_some(Failure::Pattern(pattern))
}

fn is_matched(alloc: Global, matcher: &LiteralMatcher, text: &str) -> bool
    ensures { literal_outcome matcher.now (chars text.now) ≡ outcome_of result }
{
    match matcher.is_match(alloc, text) {
        Ok(found) => found,
        Err(_) => false,
    }
}

/// Demands that an engine finds its pattern in a text. An engine that fails, or gives up, makes an error of its own
/// kind.
pub type PatternValidator<E> = Keyed<Matching<E>>;

/// The test of a text by a pattern and its engine. Its only error is out of memory.
#[derive(Drop)]
pub struct Matching<E> {
    pub(crate) pattern: String,
    pub(crate) engine: E,
}

impl<E: RegexEngine> Test for Matching<E> {
    ghost demands = { λ t. matches (string_bytes t.pattern) (E.outcome t.engine) ∷ [] };

    fn parts<'a>(&'a self, origin: &'a Origin) -> Parts<'a> {
        Parts::of_content(origin, None, None)
    }

    fn findings<N: Node>(&self, alloc: Global, text: &TextNode<'_, N>, _: &Checks) -> Found<'_> {
        let pattern = self.pattern.as_str();
        let failure = match self.engine.is_match(alloc, text.as_str()) {
            Ok(true) => None,
            Ok(false) => Some(Failure::Pattern(pattern)),
            Err(EngineFailure::BacktrackLimit) => Some(Failure::BacktrackLimitExceeded(pattern)),
            Err(EngineFailure::Failed) => Some(Failure::RegexEngineFailure(pattern)),
            Err(EngineFailure::Memory) => return Err(AllocError),
        };
        Ok(Findings {
            first: failure,
            second: None,
        })
    }
}
