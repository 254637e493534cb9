//! How a pattern of the whole grammar is recognised, lexeme by lexeme: no tree is made, and nothing recurses.

ghost use Rattle.std.specs.Prelude.{◌≡◌, false, Some, IfOk};
ghost use Rattle.std.specs.Str.{chars};
ghost use Rattle.strkw_regex_grammar.specs.machine.LexerParts.{lexed_of, mode_of};
ghost use Rattle.strkw_regex_grammar.specs.machine.Lexing.{at, between, take_lexed, read_next, read_end};
ghost use Rattle.strkw_regex_grammar.specs.machine.Recognising.{is_read as spec_is_read, nothing_read, reads_if, step, whole_of};
ghost use Rattle.strkw_regex_grammar.specs.machine.RecogniserParts.{standing_of, state_of};

mod ending;
mod parser_stack;

use crate::lexemes::{Last, Lexed, Lexeme};
use crate::lexer::Mode;
use parser_stack::ParserStack;
use std::alloc::{AllocError, Global};
use std::mem;

// What stands between parts, and what is under way.
#[derive(Drop)]
struct Recogniser {
    standing: ParserStack,
    mode: Mode,
}

impl Recogniser {
    fn new(alloc: Global) -> Recogniser
        ensures { state_of result ≡ at between nothing_read }
    {
        Recogniser {
            standing: ParserStack {
                groups: Vec::new(alloc),
                last: Last::None,
                captures: 0,
                greatest: 0,
                names: Vec::new(alloc),
                calls: Vec::new(alloc),
            },
            mode: Mode::Between,
        }
    }

    fn take(&mut self, lexed: Lexed) -> Result<bool, AllocError>
        ensures { IfOk result (λ taken. reads_if taken (state_of self.new)
            ≡ take_lexed step (standing_of self.old.standing)
            (lexed_of lexed (mode_of self.old.mode))) }
    {
        match lexed {
            Lexed::Fails => Ok(false),
            Lexed::Goes => Ok(true),
            Lexed::Makes(lexeme) => self.standing.take(lexeme),
            Lexed::MakesBoth(first, second) => {
                Ok(self.standing.take(first.lexeme())? && self.standing.take(second)?)
            }
        }
    }

    // Takes one more character, and tells whether it may stand there. Where it may not, or out of memory, this
    // recogniser is of no more use.
    fn next(&mut self, alloc: Global, c: char) -> Result<bool, AllocError>
        ensures { IfOk result (λ taken. reads_if taken (state_of self.new)
            ≡ read_next false step (state_of self.old) c) }
    {
        match self.mode.next(alloc, false, c)? {
            Lexed::Goes => Ok(true),
            lexed => self.take(lexed),
        }
    }

    // Whether the pattern may end here.
    fn may_end(&mut self, alloc: Global) -> Result<bool, AllocError>
        ensures { let s = state_of self.old in IfOk result (λ ends.
            ends ≡ whole_of (read_end step s.state s.mode)) }
    {
        match mem::replace(&mut self.mode, Mode::Between) {
            Mode::Between => self.standing.is_whole(alloc),
            Mode::Referring(number) => {
                Ok(self.standing.take(Lexeme::Reference(number))? && self.standing.is_whole(alloc)?)
            }
            _ => Ok(false),
        }
    }
}

// Whether a text is a pattern, but for the digits behind `\0`.
pub(crate) fn is_read(alloc: Global, source: &str) -> Result<bool, AllocError>
    ensures { IfOk result (λ read. read ≡ spec_is_read (chars source.now)) }
{
    let mut recogniser = Recogniser::new(alloc);
    for c in source.chars() {
        if !recogniser.next(alloc, c)? {
            return Ok(false);
        }
    }
    recogniser.may_end(alloc)
}
