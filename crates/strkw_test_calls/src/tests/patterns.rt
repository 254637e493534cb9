//! The calls of patterns that allocate, and those of the engine of ECMA-262, as the tests of encodings beside them.

use std::alloc::{AllocError, Global};
use std::test::Fail;
use strkw_ecma::{
    EcmaPatterns, LenientPatterns, PatternRefusal, is_valid_regex, why_refused,
    why_refused_leniently,
};
use strkw_pattern::{
    BuildRefusal, EngineBuilder, LiteralMatcher, PatternOptimization, RegexEngine, analyze_pattern,
};

// The matcher of a literal pattern, as a caller makes it.
fn matcher_of(found: PatternOptimization) -> LiteralMatcher {
    match found {
        PatternOptimization::Prefix(literal) => LiteralMatcher::Prefix { literal },
        PatternOptimization::Exact(exact) => LiteralMatcher::Exact { exact },
        PatternOptimization::Alternation(alternatives) => LiteralMatcher::Alternation {
            alternatives,
        },
        PatternOptimization::NoWhitespace => LiteralMatcher::NoWhitespace,
    }
}

// A pattern, what it is analyzed as, a text that matches it if it is literal, and one that does not.
struct Analyzed {
    pattern: &'static str,
    shown: &'static str,
    matched: &'static str,
    unmatched: &'static str,
}

const PATTERNS: &[Analyzed] = &[
    Analyzed {
        pattern: "^(get|put|post)$",
        shown: r#"Some(Alternation(["get", "post", "put"]))"#,
        matched: "put",
        unmatched: "patch",
    },
    Analyzed {
        pattern: "^(b|a|b)$",
        shown: r#"Some(Alternation(["a", "b", "b"]))"#,
        matched: "a",
        unmatched: "ab",
    },
    Analyzed {
        pattern: "^\\$ref$",
        shown: r#"Some(Exact("$ref"))"#,
        matched: "$ref",
        unmatched: "$refs",
    },
    Analyzed {
        pattern: "^a long prefix, longer than what a short text takes",
        shown: r#"Some(Prefix("a long prefix, longer than what a short text takes"))"#,
        matched: "a long prefix, longer than what a short text takes and more",
        unmatched: "a long prefix",
    },
    Analyzed {
        pattern: "^\\S*$",
        shown: "Some(NoWhitespace)",
        matched: "",
        unmatched: " ",
    },
    Analyzed {
        pattern: "^(a|b|c^)$",
        shown: "None",
        matched: "",
        unmatched: "",
    },
    Analyzed {
        pattern: "^a+",
        shown: "None",
        matched: "",
        unmatched: "",
    },
];

// Whether the matcher of a literal pattern answers so on both texts. It takes no memory.
fn matches_so(alloc: Global, found: PatternOptimization, row: &Analyzed) -> bool {
    let matcher = matcher_of(found);
    matcher.is_match(alloc, row.matched) == Ok(true)
        && matcher.is_match(alloc, row.unmatched) == Ok(false)
}

fn is_shown_as(
    alloc: Global,
    found: &Option<PatternOptimization>,
    want: &str,
) -> Result<bool, AllocError> {
    Ok(format!(in alloc; "{found:?}")?.as_str() == want)
}

// Whether a pattern is analyzed so; where it is literal, its matcher answers so on both texts.
fn is_analyzed_so(alloc: Global, row: &Analyzed) -> Result<bool, AllocError> {
    let found = analyze_pattern(alloc, row.pattern)?;
    let is_shown = is_shown_as(alloc, &found, row.shown)?;
    match found {
        Some(found) => Ok(is_shown && matches_so(alloc, found, row)),
        None => Ok(is_shown),
    }
}

// Where the analysis had memory, its matcher answers.
#[test]
fn analyze_pattern_under_refusal(rt: HostRuntime) -> Result<(), Fail> {
    for row in PATTERNS {
        if !is_analyzed_so(rt.alloc(), row)? {
            return Err(Fail::new(row.pattern));
        }
    }
    Ok(())
}

// A pattern of ECMA-262, a text, and whether it is found there; nothing where the pattern is not taken.
struct Search {
    pattern: &'static str,
    text: &'static str,
    found: Option<bool>,
}

const SEARCHES: &[Search] = &[
    Search {
        pattern: "^(a|b)*\\x2Ec",
        text: "ab.c",
        found: Some(true),
    },
    Search {
        pattern: "(a+?|.)*$",
        text: "ab",
        found: Some(true),
    },
    Search {
        pattern: "(?<!b)\\S\\d?\\b(?<=1)",
        text: "a1",
        found: Some(true),
    },
    Search {
        pattern: "^\\P{Lu}[\\d\\p{sc=Grek}]$",
        text: "a\u{3B1}",
        found: Some(true),
    },
    Search {
        pattern: "",
        text: "",
        found: Some(true),
    },
    Search {
        pattern: "(a+|b?",
        text: "",
        found: None,
    },
    Search {
        pattern: "a**",
        text: "",
        found: None,
    },
    Search {
        pattern: "\\w[\\cA-\\cB\\s]{2",
        text: "",
        found: None,
    },
    Search {
        pattern: "[\\p{gc=Grek}]",
        text: "",
        found: None,
    },
    Search {
        pattern: "a{0,5000}a{0,201}",
        text: "",
        found: None,
    },
];

// Whether the engine of a pattern answers so; out of memory is an error here.
fn is_found_so<B: EngineBuilder>(alloc: Global, builder: &B, row: &Search) -> Result<bool, Fail> {
    match builder.build(alloc, row.pattern) {
        Ok(engine) => Ok(Some(engine.is_match(alloc, row.text)?) == row.found),
        Err(BuildRefusal::Pattern) => Ok(row.found.is_none()),
        Err(BuildRefusal::Memory) => Err(BuildRefusal::Memory.into()),
    }
}

#[test]
fn patterns_under_refusal(rt: HostRuntime) -> Result<(), Fail> {
    for row in SEARCHES {
        if !is_found_so(rt.alloc(), &EcmaPatterns, row)? {
            return Err(Fail::new(row.pattern));
        }
    }
    Ok(())
}

// Patterns with escapes that are taken without the flag `u` alone (ECMA-262, B.1.2, IdentityEscape).
const LENIENT_SEARCHES: &[Search] = &[
    Search {
        pattern: "^[\\w\\-\\.]+\\@\\_\\x41$",
        text: "a-b.c@_A",
        found: Some(true),
    },
    Search {
        pattern: "^[a\\-z]\\ \\\"$",
        text: "b \"",
        found: Some(false),
    },
    Search {
        pattern: "\\a\\-",
        text: "",
        found: None,
    },
];

#[test]
fn lenient_patterns_under_refusal(rt: HostRuntime) -> Result<(), Fail> {
    for row in LENIENT_SEARCHES {
        if !is_found_so(rt.alloc(), &LenientPatterns, row)? {
            return Err(Fail::new(row.pattern));
        }
    }
    Ok(())
}

// A pattern of ECMA-262, and why it is not taken; nothing where it is.
struct Refused {
    pattern: &'static str,
    why: Option<PatternRefusal>,
}

const REFUSALS: &[Refused] = &[
    Refused {
        pattern: "^\\P{Lu}[\\d\\p{sc=Grek}]$",
        why: None,
    },
    Refused {
        pattern: "^(a|b)*(?<=ab)(?=cd)",
        why: None,
    },
    Refused {
        pattern: "(?<n>a+?|.)\\k<n>",
        why: Some(PatternRefusal::BackReference),
    },
    Refused {
        pattern: "[\\p{gc=Grek}]",
        why: Some(PatternRefusal::Property),
    },
    Refused {
        pattern: "(?:abc){1734}",
        why: Some(PatternRefusal::TermTooLarge),
    },
    Refused {
        pattern: "(a+|b?",
        why: Some(PatternRefusal::NotAPattern),
    },
    Refused {
        pattern: "(\\uD83D|b?)",
        why: Some(PatternRefusal::NotTaken),
    },
];

#[test]
fn why_refused_under_refusal(rt: HostRuntime) -> Result<(), Fail> {
    for row in REFUSALS {
        if why_refused(rt.alloc(), row.pattern)? != row.why {
            return Err(Fail::new(row.pattern));
        }
    }
    Ok(())
}

const LENIENT_REFUSALS: &[Refused] = &[
    Refused {
        pattern: "^[\\w\\-]+\\@\\_$",
        why: None,
    },
    Refused {
        pattern: "(a)\\-\\1",
        why: Some(PatternRefusal::BackReference),
    },
    Refused {
        pattern: "\\a\\-",
        why: Some(PatternRefusal::NotAPattern),
    },
];

#[test]
fn why_refused_leniently_under_refusal(rt: HostRuntime) -> Result<(), Fail> {
    for row in LENIENT_REFUSALS {
        if why_refused_leniently(rt.alloc(), row.pattern)? != row.why {
            return Err(Fail::new(row.pattern));
        }
    }
    Ok(())
}

// A pattern of the whole of ECMA-262, and two texts that are none.
const REGEXES: &[(&str, bool)] = &[
    (
        "(?<n>\\p{scx=Grek}+)\\k<n>\\1[\\uD83D\\uDE00-\\u{1F602}]{01,2}?",
        true,
    ),
    ("(?<n>)|(?<n>)", false),
    ("a{100000000000000000000,99999999999999999999}", false),
];

#[test]
fn is_valid_regex_under_refusal(rt: HostRuntime) -> Result<(), Fail> {
    for (text, expected) in REGEXES {
        if is_valid_regex(rt.alloc(), text)? != *expected {
            return Err(Fail::new(text));
        }
    }
    Ok(())
}
