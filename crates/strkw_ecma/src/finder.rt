//! What looks for a pattern in a text: its program, and where it has one, its table or its chains.

ghost use Rattle.std.specs.Prelude.{◌≡◌, ◌≤◌, ◌||◌, not, ℕ, Bool, List, true, false, IsTrue, IsOk, IfOk, IfSome, None, Some};
ghost use Rattle.std.specs.Str.{chars};
ghost use Rattle.strkw_regex_core.specs.machine.OneCharLookahead.{are_told};
ghost use Rattle.strkw_regex_core.specs.machine.Mirror.{along};
ghost use Rattle.strkw_regex_core.specs.Size.{max_steps};
ghost use Rattle.strkw_regex_core.specs.machine.ProgramSteps.{steps, search_steps};
ghost use Rattle.strkw_ecma.specs.machine.Chains.{are_chained, AreTabled};
ghost use Rattle.strkw_regex_search.specs.machine.Machine.{pattern_of};
ghost use Rattle.strkw_regex_core.specs.machine.Positions.{is_clean, is_unmarked};
ghost use Rattle.strkw_ecma.specs.machine.RequiredByte.{needed_char as spec_needed};
ghost use Rattle.strkw_regex_search.specs.machine.Search.{search_from};
ghost use Rattle.strkw_ecma.specs.machine.Searches.{IsSearchedBy};
ghost use Rattle.strkw_regex_core.specs.machine.Shape.{outline_pattern};
ghost use Rattle.strkw_ecma.specs.declared.sequence_pair.SequencePair.{SequencePair};
ghost use Rattle.strkw_ecma.specs.declared.dfa.Dfa.{Dfa};

use crate::determinise::table_of;
use crate::dfa::Dfa;
use crate::required_byte::{LONG, lacks, needed_byte};
use crate::sequence_pair::SequencePair;
use std::alloc::{AllocError, Global};
use strkw_regex_core::counted_regex::CountedRegex;
use strkw_regex_search::finding::is_found;
use strkw_regex_search::oracle_passes::set_aside;
use strkw_regex_search::oracle_runner::OracleRunner;
use strkw_regex_search::oracle_runners::{rows_of, seekers_of};
use strkw_regex_search::passes::Pass;
use strkw_regex_search::program::Program;

/// How many bytes a text has, at least, that is searched by a chain where there is a table too. A table is quicker for
/// a shorter one.
const LEAST_CHAINED: usize = 8;

/// What looks for a pattern. Its lookaheads are told by the next character.
#[derive(Drop)]
pub(crate) struct Finder {
    pub(crate) program: Program,
    pub(crate) table: Option<Dfa>,
    chains: Option<SequencePair>,
    needed: Option<u8>,
    ghost clean: { is_clean (pattern_of program) ≡ true },
    ghost told: { are_told (pattern_of program) ≡ true },
    ghost exact: { (t : Dfa) → table ≡ Some t → IsSearchedBy t (pattern_of program) },
    ghost tabled: { (b : SequencePair) → chains ≡ Some b → AreTabled b program.code.classes.items },
    ghost chained: { (b : SequencePair) → chains ≡ Some b → (text : List ℕ)
        → are_chained program.code.classes.items b text
        ≡ search_from (pattern_of program) None text },
    ghost read: { needed ≡ spec_needed (pattern_of program) },
}

impl Finder {
    pub(crate) fn of(alloc: Global, outline: CountedRegex) -> Result<Finder, AllocError>
        requires small { steps (outline_pattern outline) ≤ max_steps }
        requires clean { is_clean (outline_pattern outline) ≡ true }
        requires told { are_told (outline_pattern outline) ≡ true }
        ensures { IfOk result (λ f. pattern_of f.program ≡ outline_pattern outline) }
    {
        let needed = needed_byte(&outline);
        let program = Program::of(alloc, outline)?;
        let chains = SequencePair::of(alloc, &program.code)?;
        let table = table_of(alloc, &program, chains.is_some())?;
        Ok(Finder {
            program,
            table,
            chains,
            needed,
        })
    }

    // Whether the text lacks a character that each match reads.
    fn is_ruled_out(&self, text: &str) -> bool
        ensures { IsTrue result → (b : Bool)
            → search_from (pattern_of self.now.program) None (along b (chars text.now)) ≡ false }
    {
        match self.needed {
            Some(byte) => lacks(text, byte),
            None => false,
        }
    }

    // Whether the pattern is found in the text, where it is quickly told by its chains.
    fn ask_chains(&self, text: &str, is_backward: bool) -> Option<bool>
        ensures { IfSome result (λ found. found
            ≡ search_from (pattern_of self.now.program) None (along is_backward (chars text.now))) }
    {
        let chains = self.chains.as_ref()?;
        if is_backward || (self.table.is_some() && text.len() < LEAST_CHAINED) {
            return None;
        }
        if text.is_ascii() {
            return Some(chains.is_found_in_ascii(text));
        }
        if self.table.is_some() {
            return None;
        }
        Some(chains.is_found(&self.program.code.classes, text))
    }

    /// Whether the pattern is found in the text, or where it is looked for backward, in the text turned round.
    pub(crate) fn is_found(&self, text: &str, is_backward: bool) -> bool
        ensures { result
            ≡ search_from (pattern_of self.now.program) None (along is_backward (chars text.now)) }
    {
        if let Some(found) = self.ask_chains(text, is_backward) {
            return found;
        }
        if text.len() >= LONG && self.is_ruled_out(text) {
            return false;
        }
        match &self.table {
            Some(table) => table.is_found_along(text, is_backward),
            None => is_found(&self.program, text, is_backward),
        }
    }
}

/// How a part of a pattern is looked for.
#[derive(Drop)]
pub(crate) enum Search {
    /// In one pass, along the text or backward.
    Plain {
        is_backward: bool,
        finder: Finder,
    },
    /// By the last, whose marks are told by those before it.
    Told {
        asides: Vec<OracleRunner>,
        last: OracleRunner,
    },
}

impl Search {
    ghost use Rattle.strkw_ecma.specs.machine.Engine.{has_rows, is_found_by};
    ghost use Rattle.strkw_regex_search.specs.machine.Search.{found_in};

    fn of(alloc: Global, pattern: CountedRegex, is_backward: bool) -> Result<Search, AllocError>
        requires bare { is_unmarked (outline_pattern pattern) ≡ true }
        requires faced { (not is_backward || are_told (outline_pattern pattern)) ≡ true }
        requires small { search_steps (outline_pattern pattern) ≤ max_steps }
        ensures { IfOk result (λ s. (text : List ℕ)
            → is_found_by s text ≡ found_in (outline_pattern pattern) (along is_backward text)) }
    {
        if pattern.is_told() {
            let finder = Finder::of(alloc, pattern)?;
            return Ok(Search::Plain {
                is_backward,
                finder,
            });
        }
        let mut asides = Vec::new(alloc);
        let last = set_aside(pattern, alloc, is_backward, &mut asides)?;
        Ok(Search::Told {
            asides: seekers_of(alloc, asides)?,
            last: OracleRunner::of(alloc, last)?,
        })
    }

    fn is_found(&self, alloc: Global, text: &str) -> Result<bool, AllocError>
        ensures found { IfOk result (λ found. found ≡ is_found_by self.now (chars text.now)) }
        ensures out_of_memory { has_rows self.now ≡ false → IsOk result }
    {
        match self {
            Search::Plain {
                is_backward,
                finder,
            } => Ok(finder.is_found(text, *is_backward)),
            Search::Told { asides, last } => {
                let rows = rows_of(alloc, asides, text)?;
                Ok(last.is_found(text, &rows))
            }
        }
    }
}

/// What looks for a part of a pattern. The part is to be found, or where it is negated, is not.
#[derive(Drop)]
pub(crate) struct PartFinder {
    pub(crate) negated: bool,
    search: Search,
}

impl PartFinder {
    ghost use Rattle.strkw_ecma.specs.machine.Engine.{has_rows, is_found_by, reads_chain, reads_table};
    ghost use Rattle.strkw_regex_search.specs.machine.Search.{found_in};

    pub(crate) fn of(alloc: Global, pass: Pass) -> Result<PartFinder, AllocError>
        requires bare { is_unmarked (outline_pattern pass.pattern) ≡ true }
        requires faced { (not pass.is_backward || are_told (outline_pattern pass.pattern)) ≡ true }
        requires small { search_steps (outline_pattern pass.pattern) ≤ max_steps }
        ensures negated { IfOk result (λ f. f.negated ≡ pass.negated) }
        ensures found { IfOk result (λ f. (text : List ℕ) → is_found_by f.search text
            ≡ found_in (outline_pattern pass.pattern) (along pass.is_backward text)) }
    {
        let Pass {
            negated,
            is_backward,
            pattern,
        } = pass;
        Ok(PartFinder {
            negated,
            search: Search::of(alloc, pattern, is_backward)?,
        })
    }

    /// Whether what it looks for is found in the text.
    pub(crate) fn is_found(&self, alloc: Global, text: &str) -> Result<bool, AllocError>
        ensures found { IfOk result (λ found.
            found ≡ is_found_by self.now.search (chars text.now)) }
        ensures out_of_memory { has_rows self.now.search ≡ false → IsOk result }
    {
        self.search.is_found(alloc, text)
    }

    /// Whether it is read off a table.
    pub(crate) fn has_table(&self) -> bool
        ensures { result ≡ reads_table self.now.search }
    {
        match &self.search {
            Search::Plain { finder, .. } => finder.table.is_some(),
            Search::Told { .. } => false,
        }
    }

    /// Whether it is looked for by a row of classes.
    pub(crate) fn has_chain(&self) -> bool
        ensures { result ≡ reads_chain self.now.search }
    {
        match &self.search {
            Search::Plain {
                is_backward,
                finder,
            } => !*is_backward && finder.chains.is_some(),
            Search::Told { .. } => false,
        }
    }

    /// Whether a search takes memory.
    pub(crate) fn takes_memory(&self) -> bool
        ensures { result ≡ has_rows self.now.search }
    {
        matches!(&self.search, Search::Told { .. })
    }
}
