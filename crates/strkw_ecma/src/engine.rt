//! The engine, and what builds it.

ghost use Rattle.std.specs.Prelude.{◌≡◌, ◌≤◌, ℕ, List, true, false, IfOk, IfErr, IsOk};
ghost use Rattle.std.specs.Str.{chars};
ghost use Rattle.strkw_regex_core.specs.Size.{max_steps};
ghost use Rattle.strkw_ecma.specs.machine.Engine.{are_found_by, have_rows, have_tables as spec_have_tables};
ghost use Rattle.strkw_ecma.specs.machine.Engine.{have_chains as spec_have_chains};
ghost use Rattle.strkw_regex_reader.specs.machine.Taken.{takes_pattern};
ghost use Rattle.strkw_ecma.specs.machine.Outcomes.{pattern_outcome};
ghost use Rattle.strkw_regex_search.specs.machine.Passes.{are_passes_clean, are_passes_faced, are_passes_found, passes_of, steps_of_passes};

use crate::finder::PartFinder;
use crate::taking::read_passes;
use std::alloc::{AllocError, Global};
use strkw_pattern::{BuildRefusal, EngineBuilder, EngineFailure, RegexEngine};
use strkw_regex_search::passes::Pass;

/// A pattern that is ready to be matched. `EcmaPatterns` builds it.
#[derive(Drop)]
pub struct EcmaMatcher {
    parts: Vec<PartFinder>,
}

impl EcmaMatcher {
    ghost use Rattle.strkw_ecma.specs.machine.Engine.{has_table as spec_has_table, has_chain as spec_has_chain};
    ghost use Rattle.strkw_ecma.specs.machine.Engine.{takes_memory as spec_takes_memory};

    /// Whether matches are read off tables: one for each lookahead at the front that is looked for by itself, and one
    /// for the rest.
    pub fn has_table(&self) -> bool
        ensures { result ≡ spec_has_table self.now }
    {
        have_tables(&self.parts)
    }

    /// Whether each part is a row of classes between `^` and `$`, of which one may be repeated or counted and one more
    /// may be missing. Where the counted one has a maximum, the one that may be missing stands before it. Such a part
    /// is searched by the length of a text.
    pub fn has_chain(&self) -> bool
        ensures { result ≡ spec_has_chain self.now }
    {
        have_chains(&self.parts)
    }

    /// Whether a match takes memory: a bit for each place of the text and each look-around that another pass looks for.
    /// That is so only where look-aheads and look-behinds look far in one part of the pattern.
    pub fn takes_memory(&self) -> bool
        ensures { result ≡ spec_takes_memory self.now }
    {
        take_memory(&self.parts)
    }

    // The engine of what was read.
    fn of(alloc: Global, passes: Vec<Pass>) -> Result<EcmaMatcher, AllocError>
        requires clean { are_passes_clean (passes_of passes.items) ≡ true }
        requires faced { are_passes_faced (passes_of passes.items) ≡ true }
        requires small { steps_of_passes (passes_of passes.items) ≤ max_steps }
        ensures { IfOk result (λ e. (text : List ℕ)
            → are_found_by e.parts.items text ≡ are_passes_found (passes_of passes.items) text) }
    {
        Ok(EcmaMatcher {
            parts: finders_of(alloc, passes)?,
        })
    }
}

fn have_tables(parts: &[PartFinder]) -> bool
    ensures { result ≡ spec_have_tables parts.now }
{
    for part in parts {
        if !part.has_table() {
            return false;
        }
    }
    true
}

fn have_chains(parts: &[PartFinder]) -> bool
    ensures { result ≡ spec_have_chains parts.now }
{
    for part in parts {
        if !part.has_chain() {
            return false;
        }
    }
    true
}

fn take_memory(parts: &[PartFinder]) -> bool
    ensures { result ≡ have_rows parts.now }
{
    for part in parts {
        if part.takes_memory() {
            return true;
        }
    }
    false
}

// What looks for each of these parts.
fn finders_of(alloc: Global, passes: Vec<Pass>) -> Result<Vec<PartFinder>, AllocError>
    requires clean { are_passes_clean (passes_of passes.items) ≡ true }
    requires faced { are_passes_faced (passes_of passes.items) ≡ true }
    requires small { steps_of_passes (passes_of passes.items) ≤ max_steps }
    ensures { IfOk result (λ made. (text : List ℕ)
        → are_found_by made.items text ≡ are_passes_found (passes_of passes.items) text) }
{
    let mut finders = Vec::new(alloc);
    for pass in passes {
        let finder = PartFinder::of(alloc, pass)?;
        finders.push(finder)?;
    }
    Ok(finders)
}

// Whether each part is found in the text, or is not, as it is to be.
fn are_found(alloc: Global, parts: &[PartFinder], text: &str) -> Result<bool, AllocError>
    ensures found { IfOk result (λ found. found ≡ are_found_by parts.now (chars text.now)) }
    ensures out_of_memory { have_rows parts.now ≡ false → IsOk result }
{
    for part in parts {
        if part.is_found(alloc, text)? == part.negated {
            return Ok(false);
        }
    }
    Ok(true)
}

impl RegexEngine for EcmaMatcher {
    ghost use Rattle.strkw_pattern.specs.Engine.{IsAnswer};
    ghost use Rattle.strkw_ecma.specs.machine.Engine.{engine_outcome, takes_memory};

    ghost outcome = { engine_outcome };

    /// Whether the pattern is found in the text (RegExpBuiltinExec, ECMA-262 2024, section 22.2.7.2), in one pass, and
    /// one more for each look-ahead at its front that is looked for by itself. Where look-aheads look far, a pass goes
    /// from the end of the text on. Where both they and look-behinds do, each look-around has a pass at most, and the
    /// call takes memory: `EngineFailure::Memory` where it is out of that. Else there is no error.
    fn is_match(&self, alloc: Global, text: &str) -> Result<bool, EngineFailure>
        ensures answer { IsAnswer (engine_outcome self.now (chars text.now)) result }
        ensures never_fails { takes_memory self.now ≡ false → IsOk result }
        ensures out_of_memory { IfErr result (λ e. e ≡ EngineFailure.Memory) }
    {
        match are_found(alloc, &self.parts, text) {
            Ok(is_found) => Ok(is_found),
            Err(AllocError) => Err(EngineFailure::Memory),
        }
    }
}

/// Builds engines of patterns of ECMA-262 2024 in Unicode mode (`Pattern`, section 22.2.1), of this part of its syntax:
/// - alternatives with `|`, and groups with `( )`, `(?: )` and `(?<name> )`, whose names are read and told nowhere;
/// - the assertions `^`, `$`, `\b`, `\B`, look-behinds with `(?<= )` and `(?<! )`, and look-aheads with `(?= )` and
///   `(?! )`, for any pattern. No quantifier follows them;
/// - behind an atom `*`, `+`, `?`, `{n}`, `{n,}` or `{n,m}`, and a `?` behind that, which changes no answer;
/// - `.`; a character that is none of `^ $ \ . * + ? ( ) [ ] { } |`; `\` before one of those or `/`; `\f \n \r \t \v`;
///   `\d \D \s \S \w \W`;
/// - `\0` where no decimal digit follows; `\c` and a letter; `\x` and two digits of base 16; `\u` and four, or two of
///   these for a leading and a trailing surrogate; `\u{ }` with digits up to 10FFFF, of no surrogate;
/// - `\p{ }` and `\P{ }` with a value of General_Category, alone or behind `General_Category=` or `gc=`, of Script,
///   behind `Script=` or `sc=`, of Script_Extensions, behind `Script_Extensions=` or `scx=`, or a binary property of
///   the standard's table, alone, but for Changes_When_NFKC_Casefolded; each named as there or in Unicode's tables of
///   aliases, letter case and `_` included;
/// - classes with `[ ]` and `[^ ]`, of characters, ranges and those escapes, with `\-`, and `\b` for the backspace.
///
/// Any other text is not taken, nor is a pattern with groups and look-arounds more than 250 deep, with more than 2,000
/// characters, with a count above 5,000, with a counted term of more than 5,200 steps (its copies, each with the steps
/// of what is repeated), or one of more than 5,200 steps as a whole. A step is an instruction of the pattern's program:
/// one for each class, which may be repeated without end or be missing, and for each other assertion, two around a loop
/// or the pattern of a look-around, three around alternatives, and one between more of them; and of a class one more
/// for each 32 ranges, of which a property counts as eight. A look-around is counted one step more in a part where
/// look-aheads and look-behinds both look far. In a counted term, of what a look-ahead looks for, the last term of a
/// sequence is counted alone, three steps around each two alternatives, and nothing of a look-behind or of a term with
/// another quantifier than `?`. In the whole all of it is, for each copy. A quantifier counts by its bounds alone,
/// `{1,}` as `+`. Steps are counted before there is a program.
///
/// A match is a search for the pattern in the text (section 22.2.7.2), with no flag but `u`: characters are Unicode
/// scalar values; `^` and `$` stand for the two ends of the text, `.` for each character but U+000A, U+000D, U+2028
/// and U+2029, `\d` and `\w` for ASCII digits and word characters, `\s` for white space and ends of lines (sections
/// 12.2 and 12.3), and properties are those of Unicode 18.
pub struct EcmaPatterns;

impl EngineBuilder for EcmaPatterns {
    type Engine = EcmaMatcher;

    ghost takes = { λ _ source. takes_pattern source };

    ghost outcome = { λ _ source. pattern_outcome source };

    /// The engine of a pattern, `BuildRefusal::Pattern` exactly where the text is not taken, and
    /// `BuildRefusal::Memory` where it is out of memory.
    fn build(&self, alloc: Global, pattern: &str) -> Result<EcmaMatcher, BuildRefusal> {
        match read_passes(alloc, pattern) {
            Ok(Some(passes)) => match EcmaMatcher::of(alloc, passes) {
                Ok(engine) => Ok(engine),
                Err(AllocError) => Err(BuildRefusal::Memory),
            },
            Ok(None) => Err(BuildRefusal::Pattern),
            Err(AllocError) => Err(BuildRefusal::Memory),
        }
    }
}
