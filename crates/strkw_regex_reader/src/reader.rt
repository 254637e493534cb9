//! How a pattern is read, character by character.

ghost use Rattle.std.specs.Prelude.{◌≡◌, true, IfOk, IfSome, option_map};
ghost use Rattle.std.specs.Str.{chars};
ghost use Rattle.strkw_regex_core.specs.machine.Shape.{is_plain, outline_pattern};
ghost use Rattle.strkw_regex_grammar.specs.machine.LexerParts.{lexed_of, mode_of};
ghost use Rattle.strkw_regex_grammar.specs.machine.Lexing.{between};
ghost use Rattle.strkw_regex_reader.specs.machine.BuilderParts.{builder_of, outcome_of, state_of};
ghost use Rattle.strkw_regex_reader.specs.machine.Building.{at_end};
ghost use Rattle.strkw_regex_reader.specs.machine.Reading.{initial, ends, next as spec_next, outcome_of_lexed, read_short as spec_read_short};

use crate::builder::Builder;
use crate::refusals::Taken;
pub use crate::refusing::refusal_of;
use std::alloc::{AllocError, Global};
use strkw_regex_core::counted_regex::CountedRegex;
use strkw_regex_grammar::lexemes::Lexed;
use strkw_regex_grammar::lexer::Mode;

// How many characters a pattern may have.
pub const MAX_LENGTH: u64 = 2000;

// What has been built, and what is under way.
#[derive(Drop)]
pub(crate) struct Reader {
    pub(crate) builder: Builder,
    pub(crate) mode: Mode,
}

impl Reader {
    pub(crate) fn new(alloc: Global) -> Reader
        ensures { state_of result ≡ initial }
    {
        Reader {
            builder: Builder::new(alloc),
            mode: Mode::Between,
        }
    }

    fn take(&mut self, alloc: Global, lexed: Lexed) -> Result<Taken, AllocError>
        ensures { IfOk result (λ taken. outcome_of taken (state_of self.new)
            ≡ outcome_of_lexed (builder_of self.old.builder)
            (lexed_of lexed (mode_of self.old.mode))) }
    {
        match lexed {
            Lexed::Fails => Ok(Taken::Refuses(None)),
            Lexed::Goes => Ok(Taken::Takes),
            Lexed::Makes(lexeme) => self.builder.take(alloc, lexeme),
            Lexed::MakesBoth(first, second) => match self.builder.take(alloc, first.lexeme())? {
                Taken::Takes => self.builder.take(alloc, second),
                Taken::Refuses(why) => Ok(Taken::Refuses(why)),
            },
        }
    }

    // Takes one more character, or tells why it may not stand there, if a reason is told. Where it may not, or out of
    // memory, this reader is of no more use.
    pub(crate) fn next(&mut self, alloc: Global, c: char) -> Result<Taken, AllocError>
        ensures { IfOk result (λ taken. outcome_of taken (state_of self.new)
            ≡ spec_next (state_of self.old) c) }
    {
        match self.mode.next(alloc, true, c)? {
            Lexed::Goes => Ok(Taken::Takes),
            lexed => self.take(alloc, lexed),
        }
    }

    // The pattern, where it may end. It is taken out of this reader. A back reference by a number is not taken.
    pub(crate) fn end(&mut self, alloc: Global) -> Result<Option<CountedRegex>, AllocError>
        ensures tree { let s = state_of self.old in IfOk result
            (λ t. option_map outline_pattern t ≡ ends s) }
        ensures plain { IfOk result (λ o. IfSome o (λ t. is_plain t ≡ true)) }
    {
        match self.mode {
            Mode::Between => self.builder.end(alloc),
            _ => Ok(None),
        }
    }

    // The pattern of a whole text, which this reader, a new one, reads.
    fn read(&mut self, alloc: Global, source: &str) -> Result<Option<CountedRegex>, AllocError>
        requires { state_of self.old ≡ initial }
        ensures tree { IfOk result (λ t. option_map outline_pattern t
            ≡ spec_read_short (chars source.now)) }
        ensures plain { IfOk result (λ o. IfSome o (λ t. is_plain t ≡ true)) }
    {
        let mut count = 0;
        for c in source.chars() {
            if count == MAX_LENGTH {
                return Ok(None);
            }
            count += 1;
            match self.next(alloc, c)? {
                Taken::Takes => {}
                Taken::Refuses(_) => return Ok(None),
            }
        }
        self.end(alloc)
    }
}

/// The pattern of a whole text, and `None` where the text is not one that is taken.
pub fn read_short(alloc: Global, source: &str) -> Result<Option<CountedRegex>, AllocError>
    ensures tree { IfOk result (λ t. option_map outline_pattern t
        ≡ spec_read_short (chars source.now)) }
    ensures plain { IfOk result (λ o. IfSome o (λ t. is_plain t ≡ true)) }
{
    let mut reader = Reader::new(alloc);
    reader.read(alloc, source)
}
