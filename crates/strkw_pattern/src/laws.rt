//! Laws over the definitions that the calls of this crate name. Each function has an empty body, and its clause is the
//! law.

ghost use Rattle.std.specs.Prelude.{◌≡◌, ◌↔◌, ◌⊎◌, ◌||◌, ◌&&◌, ◌==◌, not, ℕ, List, IsTrue};
ghost use Rattle.std.specs.Str.{byte};
ghost use Rattle.strkw_text.specs.Characters.{is_from_to};
ghost use Rattle.strkw_pattern.specs.Ecma.{is_white_space_code_point, is_line_terminator_code_point, is_syntax_character};
ghost use Rattle.strkw_pattern.specs.Literal.{Literal, IsWellFormed, spelling, IsLiteral, is_escapable, is_plain};
ghost use Rattle.strkw_pattern.specs.Analysis.{IsAnalysis, SameAnalysis};
ghost use Rattle.strkw_pattern.specs.Whitespace.{is_ecma_whitespace};
ghost use Rattle.strkw_pattern.specs.Matcher.{literal_outcome, matcher_of, IsSearch};
ghost use Rattle.strkw_pattern.specs.declared.engine.Outcome.{Outcome};
ghost use Rattle.strkw_pattern.specs.declared.engine.EngineFailure.{EngineFailure};
ghost use Rattle.strkw_pattern.specs.declared.engine.BuildRefusal.{BuildRefusal};
ghost use Rattle.strkw_pattern.specs.declared.literal.PatternOptimization.{PatternOptimization};

use crate::engine::{BuildRefusal, EngineFailure, Outcome};
use crate::literal::PatternOptimization;

/// A pattern is spelled by one literal at most: its meaning is determined.
pub fn literal_is_determined()
    ensures { (l m : Literal) → IsWellFormed l → IsWellFormed m → spelling l ≡ spelling m → l ≡ m }
{}

/// A pattern is literal, or it is not.
pub fn literal_or_not()
    ensures { (pattern : List ℕ) → IsLiteral pattern ⊎ (IsLiteral pattern → ⊥) }
{}

/// Each literal has an outcome, on every text, that tells whether it is found there.
pub fn outcome_exists()
    ensures { (l : Literal) → (o : List ℕ → Outcome) × IsSearch l o }
{}

/// An analysed pattern is spelled by a literal, and what is made of the analysis answers the search of that literal.
pub fn matcher_answers_search()
    ensures { (pattern : List ℕ) (o : PatternOptimization) → IsAnalysis pattern o
        → (l : Literal) × IsWellFormed l × (pattern ≡ spelling l)
        × IsSearch l (literal_outcome (matcher_of o)) }
{}

/// Two analyses are equal by `==` exactly where they are of one kind, with the same texts in the same order.
pub fn analyses_equal_by_texts()
    ensures { (a b : PatternOptimization)
        → IsTrue (⟦<PatternOptimization as PartialEq>⟧.eq a b) ↔ SameAnalysis a b }
{}

/// Two outcomes are equal by `==` exactly where they are the same outcome.
pub fn outcomes_equal_by_variant()
    ensures { (a b : Outcome) → IsTrue (⟦<Outcome as PartialEq>⟧.eq a b) ↔ (a ≡ b) }
{}

/// Two failures of an engine are equal by `==` exactly where they are the same failure.
pub fn failures_equal_by_variant()
    ensures { (a b : EngineFailure) → IsTrue (⟦<EngineFailure as PartialEq>⟧.eq a b) ↔ (a ≡ b) }
{}

/// Two refusals of a builder are equal by `==` exactly where they are the same refusal.
pub fn refusals_equal_by_variant()
    ensures { (a b : BuildRefusal) → IsTrue (⟦<BuildRefusal as PartialEq>⟧.eq a b) ↔ (a ≡ b) }
{}

/// White space is what the tables of ECMA-262 list: white space, with the category Zs of Unicode, and line terminators.
pub fn white_space_as_listed()
    ensures { (c : ℕ) → is_ecma_whitespace c
        ≡ (is_white_space_code_point c || is_line_terminator_code_point c) }
{}

/// What may stand after a backslash is what ECMA-262 lets stand there for itself in Unicode mode (`IdentityEscape`):
/// a `SyntaxCharacter`, or `/`.
pub fn escapes_as_listed()
    ensures { (c : ℕ) → is_escapable c ≡ (is_syntax_character c || c == byte "/") }
{}

/// What stands for itself are the printable characters of ASCII that are no `SyntaxCharacter` of ECMA-262, without the
/// grave accent.
pub fn plain_characters_as_listed()
    ensures { (c : ℕ) → is_plain c ≡ (is_from_to 0x20 0x7E c && not (is_syntax_character c)
        && not (c == 0x60)) }
{}
