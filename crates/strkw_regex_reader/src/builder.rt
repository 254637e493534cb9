//! How a pattern is built of lexemes, one after another.

ghost use Rattle.std.specs.Prelude.{◌≡◌, true, IfOk, IfSome, option_map};
ghost use Rattle.strkw_regex_core.specs.machine.Shape.{is_plain, outline_pattern};
ghost use Rattle.strkw_regex_grammar.specs.machine.LexerParts.{lexeme_of};
ghost use Rattle.strkw_regex_reader.specs.machine.BuilderParts.{built_of, builder_of};
ghost use Rattle.strkw_regex_reader.specs.machine.Building.{at_end, build, build_one, nothing_built, may_end, with_term};
ghost use Rattle.strkw_regex_reader.specs.Patterns.{edge_pattern};
ghost use Rattle.strkw_regex_core.specs.machine.Expansion.{expand};

mod counting;
mod level;
mod terms;

use crate::outlines::{dot, property, set};
use crate::refusals::{PatternRefusal, Taken};
pub(crate) use counting::is_great;
use level::Level;
use std::alloc::{AllocError, Global};
use std::mem;
use strkw_regex_core::counted_regex::CountedRegex;
use strkw_regex_grammar::lexemes::Lexeme;
use strkw_regex_grammar::lexer::numbers::Form;
use strkw_regex_grammar::names::are_distinct;
use strkw_regex_grammar::tokens::Edge;

// How many groups and lookarounds may lie in one another, and the greatest count.
pub(crate) const MAX_NESTING: usize = 250;

pub(crate) const MAX_COUNT: u32 = 5000;

// The last term, where more may follow it: an atom, where a quantifier may; the leading surrogate of one; or one with
// its quantifier, where a `?` may.
#[derive(Drop)]
pub enum Last {
    None,
    Atom(CountedRegex),
    Lead(u16),
    Counted(CountedRegex),
}

// What a parenthesis has opened: a group, or a lookbehind or a lookahead, which is negated or not.
#[derive(Clone, Copy)]
pub enum Enclosing {
    Group,
    Behind(bool),
    Ahead(bool),
}

// What is open, and the level around it.
#[derive(Drop)]
pub struct Open {
    enclosing: Enclosing,
    level: Level,
}

// The groups and lookarounds that are open, the innermost last; the names of all groups that there were; the level
// within; and its last term.
#[derive(Drop)]
pub struct Builder {
    pub(crate) groups: Vec<Open>,
    names: Vec<Vec<char>>,
    level: Level,
    pub(crate) last: Last,
}

impl Builder {
    pub(crate) fn new(alloc: Global) -> Builder
        ensures { builder_of result ≡ nothing_built }
    {
        Builder {
            groups: Vec::new(alloc),
            names: Vec::new(alloc),
            level: Level {
                earlier: None,
                current: CountedRegex::Empty,
            },
            last: Last::None,
        }
    }

    fn take_edge(&mut self, alloc: Global, edge: Edge) -> Result<(), AllocError>
        ensures { IfOk result (λ _. builder_of self.new
            ≡ with_term (builder_of self.old) (expand (edge_pattern edge))) }
    {
        let term = match edge {
            Edge::Start => CountedRegex::Start,
            Edge::End => CountedRegex::End,
            Edge::Boundary => CountedRegex::Boundary,
            Edge::NoBoundary => CountedRegex::NoBoundary,
        };
        self.add_term(alloc, term)
    }

    // Behind one more lexeme, where no leading surrogate stands before it.
    fn take_one(&mut self, alloc: Global, lexeme: Lexeme) -> Result<Taken, AllocError>
        ensures { IfOk result (λ taken. built_of taken (builder_of self.new)
            ≡ build_one (builder_of self.old) (lexeme_of lexeme)) }
    {
        match lexeme {
            Lexeme::Bar => self.add_alternative(alloc)?,
            Lexeme::Edge(edge) => self.take_edge(alloc, edge)?,
            Lexeme::Char(c) => self.add_char(alloc, c)?,
            Lexeme::Number(form, number) => return self.take_number(alloc, form, number),
            Lexeme::Dot => self.add_atom(alloc, dot(alloc)?)?,
            Lexeme::Set(letter) => self.add_atom(alloc, set(alloc, letter)?)?,
            Lexeme::Property(lacked, Some(found)) => {
                self.add_atom(alloc, property(alloc, lacked, found)?)?;
            }
            Lexeme::Class(negated, Some(sets)) => {
                self.add_atom(alloc, CountedRegex::Class { negated, sets })?;
            }
            Lexeme::Property(_, None) | Lexeme::Class(_, None) => return Ok(Taken::Refuses(None)),
            Lexeme::Reference(_) | Lexeme::Call(_) => {
                return Ok(Taken::Refuses(Some(PatternRefusal::BackReference)));
            }
            Lexeme::Begins(opening) => return self.begin(alloc, opening),
            Lexeme::Ends => return self.close(alloc),
            Lexeme::Repeats(bounds) => return self.repeat(alloc, bounds),
            Lexeme::Question => return self.take_question(alloc),
        }
        Ok(Taken::Takes)
    }

    // Behind one more lexeme.
    pub(crate) fn take(&mut self, alloc: Global, lexeme: Lexeme) -> Result<Taken, AllocError>
        ensures { IfOk result (λ taken. built_of taken (builder_of self.new)
            ≡ build (builder_of self.old) (lexeme_of lexeme)) }
    {
        match self.last {
            Last::Lead(lead) => match lexeme {
                Lexeme::Number(Form::Unit, number) => self.take_trail(alloc, lead, number),
                _ => Ok(Taken::Refuses(None)),
            },
            _ => self.take_one(alloc, lexeme),
        }
    }

    // Whether the pattern may end: no group is open, and no name is there twice.
    fn may_end(&self) -> bool
        ensures { result ≡ may_end (builder_of self.now) }
    {
        self.groups.is_empty() && !matches!(self.last, Last::Lead(_)) && are_distinct(&self.names)
    }

    // The pattern, where it may end. It is taken out of this builder.
    pub(crate) fn end(&mut self, alloc: Global) -> Result<Option<CountedRegex>, AllocError>
        ensures tree { IfOk result
            (λ t. option_map outline_pattern t ≡ at_end (builder_of self.old)) }
        ensures plain { IfOk result (λ o. IfSome o (λ t. is_plain t ≡ true)) }
    {
        if !self.may_end() {
            return Ok(None);
        }
        let last = mem::replace(&mut self.last, Last::None);
        Ok(Some(self.level.take(alloc, last)?))
    }
}
