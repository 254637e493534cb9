//! Laws of the definitions, as functions with empty bodies.

ghost use Rattle.std.specs.Prelude.{◌≡◌, ◌∷◌, ◌++◌, ℕ, ◌*◌, ◌<◌, ◌≤◌, ◌↔◌, true, false, List, IsTrue, length, reverse};
ghost use Rattle.std.specs.Str.{byte};
ghost use Rattle.strkw_ecma.specs.Laws.{AreComplements, any_character, IsExact, IsPattern};
ghost use Rattle.strkw_ecma.specs.Laws.{word_edge, no_word_edge};
ghost use Rattle.strkw_ecma.specs.Lenient.{byte_escape, is_lenient, strict_form};
ghost use Rattle.strkw_regex_core.specs.Tree.{Pattern, start, end, boundary, no_boundary, look, lookbehind, lookahead};
ghost use Rattle.strkw_regex_core.specs.machine.LeadingLookahead.{AreFound, parts};
ghost use Rattle.strkw_regex_core.specs.Matchers.{AreOrdered, backward, Continuation, forward, matcher};
ghost use Rattle.strkw_regex_core.specs.Meaning.{Found, Matches};
ghost use Rattle.strkw_regex_core.specs.Mirror.{mirror};
ghost use Rattle.strkw_regex_core.specs.Size.{max_steps};
ghost use Rattle.strkw_regex_core.specs.WholeSize.{whole_size};
ghost use Rattle.strkw_regex_core.specs.machine.Expansion.{expand};
ghost use Rattle.strkw_regex_core.specs.machine.MarkedMeaning.{Found as FoundMarked, Matches as MatchesMarked};
ghost use Rattle.strkw_regex_core.specs.machine.MarkedPattern.{MarkedPattern};
ghost use Rattle.strkw_regex_search.specs.machine.Counted.{AreSearchedWithin};
ghost use Rattle.strkw_regex_reader.specs.Patterns.{pattern};
ghost use Rattle.strkw_regex_reader.specs.machine.Taken.{takes_pattern};
ghost use Rattle.strkw_regex_grammar.specs.Codes.{code_spelling, code_value, IsCode};
ghost use Rattle.strkw_regex_grammar.specs.Regex.{Disjunction, IsRegex};
ghost use Rattle.strkw_charset.specs.Sets.{digits, non_digits, white_space, non_white_space, word_characters, non_word_characters};

/// What `takes` and `outcome` of `EcmaPatterns` come to, said by the grammar and the meaning: for every text, it is
/// taken exactly where some tree of the grammar is spelled so, it has one tree at most, its outcome on each text is a
/// match or no match, and it is a match exactly where the pattern of the tree is found there.
pub fn patterns_are_exact()
    ensures { (source : List ℕ) → IsExact source }
{}

/// In a class `\D`, `\S` and `\W` are the characters outside `\d`, `\s` and `\w`.
pub fn negative_sets_are_complements()
    ensures digits { AreComplements digits non_digits }
    ensures white_space { AreComplements white_space non_white_space }
    ensures words { AreComplements word_characters non_word_characters }
{}

/// The searches by the programs of the parts of each pattern, with their steps counted, come to the answers of the
/// definition, in at most twice as many steps together as the pattern is large, for each character of the text and for
/// its end. So they take at most 10,400 for a pattern that is taken. A step is an instruction that is asked, backwards
/// or forwards, and of a class one more for each 32 ranges, of which a property counts as eight.
pub fn searches_are_bounded()
    ensures by_size { (d : Disjunction) (text : List ℕ)
        → AreSearchedWithin (2 * whole_size (pattern d)) (parts (expand (pattern d))) text }
    ensures taken { (source : List ℕ) (d : Disjunction) → IsPattern source d
        → (text : List ℕ) → AreSearchedWithin (2 * max_steps) (parts (expand (pattern d))) text }
{}

/// `^` holds exactly where `(?<![^])` does: at a place before which no character stands.
pub fn start_is_a_lookbehind()
    ensures { (text : List ℕ) (i j : ℕ) → i ≤ length text
        → Matches text (look start) i j ↔ Matches text (lookbehind true any_character) i j }
{}

/// `$` holds exactly where `(?![^])` does: at a place behind which no character stands.
pub fn end_is_a_lookahead()
    ensures { (text : List ℕ) (i j : ℕ)
        → Matches text (look end) i j ↔ Matches text (lookahead true any_character) i j }
{}

/// `\b` holds exactly where `(?<=\w)(?!\w)|(?<!\w)(?=\w)` does, and `\B` where `(?<=\w)(?=\w)|(?<!\w)(?!\w)` does.
pub fn boundaries_are_lookarounds()
    ensures boundary { (text : List ℕ) (i j : ℕ)
        → Matches text (look boundary) i j ↔ Matches text word_edge i j }
    ensures no_boundary { (text : List ℕ) (i j : ℕ)
        → Matches text (look no_boundary) i j ↔ Matches text no_word_edge i j }
{}

/// A pattern as it is searched is found exactly where all its parts are, or where one is negated, is not: the
/// lookaheads at its front that look for more than the next character, each from the beginning of the text on, and the
/// rest.
pub fn patterns_have_parts()
    ensures { (p : MarkedPattern) (text : List ℕ) → FoundMarked p text ↔ AreFound (parts p) text }
{}

/// As it is searched, with what is counted written out in copies, a pattern matches what it means.
pub fn expansions_match()
    ensures { (p : Pattern) → AreOrdered p → (text : List ℕ) (i j : ℕ)
        → Matches text p i j ↔ MatchesMarked text (expand p) i j }
{}

/// What a pattern matches is what the matchers of ECMA-262 2024, section 22.2.2, answer: from a place the matcher
/// succeeds forward exactly where the pattern matches from there to a place at which the continuation succeeds, and
/// backward exactly where it does from such a place to there. So a pattern is found in a text exactly where its matcher
/// succeeds from some place of the text, with the continuation that always does.
pub fn matchers_agree()
    ensures forward { (text : List ℕ) (p : Pattern) (c : Continuation) (i : ℕ) → AreOrdered p
        → i ≤ length text
        → (matcher text forward p i c ≡ true)
        ↔ ((j : ℕ) × Matches text p i j × (c j ≡ true)) }
    ensures backward { (text : List ℕ) (p : Pattern) (c : Continuation) (j : ℕ) → AreOrdered p
        → j ≤ length text
        → (matcher text backward p j c ≡ true)
        ↔ ((i : ℕ) × Matches text p i j × (c i ≡ true)) }
    ensures ordered { (source : List ℕ) (d : Disjunction) → IsPattern source d
        → AreOrdered (pattern d) }
    ensures found { (source : List ℕ) (d : Disjunction) → IsPattern source d → (text : List ℕ)
        → Found (pattern d) text ↔ ((i : ℕ) × (i ≤ length text)
        × (matcher text forward (pattern d) i (λ y. true) ≡ true)) }
{}

/// A pattern is found in a text exactly where its mirror is found in the text turned round.
pub fn mirrors_are_found()
    ensures { (p : Pattern) (text : List ℕ) → Found p text ↔ Found (mirror p) (reverse text) }
{}

/// What the engine may take is a pattern of the whole grammar: a text that some tree of the engine's grammar spells,
/// within its limits, is one that `is_valid_regex` takes.
pub fn taken_patterns_are_valid()
    ensures { (source : List ℕ) (d : Disjunction) → IsPattern source d → IsRegex source }
{}

/// A pattern of Unicode mode is its own strict form. So `LenientPatterns` takes what `EcmaPatterns` takes, with the
/// same outcomes.
pub fn strict_patterns_stay()
    ensures valid { (source : List ℕ) → IsRegex source → strict_form source ≡ source }
    ensures taken { (source : List ℕ) → IsTrue (takes_pattern source)
        → strict_form source ≡ source }
{}

/// A strict form is its own strict form: no escape is left that Unicode mode does not have.
pub fn strict_forms_are_strict()
    ensures { (source : List ℕ) → strict_form (strict_form source) ≡ strict_form source }
{}

/// An escape that Unicode mode does not have is one by a number in the strict form, and that number is the one of the
/// character.
pub fn lenient_escapes_are_rewritten()
    ensures first { (c : ℕ) (rest : List ℕ) → is_lenient false c ≡ true
        → strict_form (byte "\\" ∷ c ∷ rest)
        ≡ byte "\\" ∷ (code_spelling (byte_escape c) ++ strict_form rest) }
    ensures escape { (c : ℕ) → c < 0x80 → IsCode (byte_escape c) }
    ensures character { (c : ℕ) → c < 0x80 → code_value (byte_escape c) ≡ c }
{}
