//! How a count is read, however many digits it has.

ghost use Rattle.std.specs.Prelude.{◌≡◌, IfOk};
ghost use Rattle.strkw_regex_grammar.specs.Numbers.{count_token as spec_count_token};
ghost use Rattle.strkw_regex_grammar.specs.machine.LexerParts.{lexed_of, mode_of};
ghost use Rattle.strkw_regex_grammar.specs.machine.Lexing.{on_low, on_high, range_read};

use super::Mode;
use super::digits::Digits;
use crate::lexemes::{Bounds, Lexed, Lexeme};
use crate::tokens::CountToken;
use std::alloc::{AllocError, Global};

// What has been read of a count: its first number, or both.
#[derive(Drop)]
pub enum Count {
    Low(Digits),
    High(Digits, Digits),
}

impl Mode {
    // In the first number of a count.
    pub(super) fn take_in_count(
        &mut self,
        alloc: Global,
        first: Digits,
        c: char,
    ) -> Result<Lexed, AllocError>
        ensures { IfOk result (λ lexed. lexed_of lexed (mode_of self.new)
            ≡ on_low first.digits.items c (spec_count_token c)) }
    {
        match CountToken::of(c) {
            CountToken::Digit => Ok(self.go(Mode::Counting(Count::Low(first.with_digit(c)?)))),
            CountToken::Comma if !first.is_empty() => {
                Ok(self.go(Mode::Counting(Count::High(first, Digits::new(alloc)))))
            }
            CountToken::Closing if !first.is_empty() => {
                Ok(self.make(Lexeme::Repeats(Bounds::Exactly(first.number))))
            }
            _ => Ok(Lexed::Fails),
        }
    }

    // Behind a count with a comma.
    fn close_range(&mut self, first: &Digits, second: &Digits) -> Lexed
        ensures { lexed_of result (mode_of self.new)
            ≡ range_read first.now.digits.items second.now.digits.items }
    {
        if second.is_empty() {
            self.make(Lexeme::Repeats(Bounds::AtLeast(first.number)))
        } else if first.is_within(second) {
            self.make(Lexeme::Repeats(Bounds::FromTo(first.number, second.number)))
        } else {
            Lexed::Fails
        }
    }

    // In the second number of a count.
    pub(super) fn take_in_range(
        &mut self,
        first: Digits,
        second: Digits,
        c: char,
    ) -> Result<Lexed, AllocError>
        ensures { IfOk result (λ lexed. lexed_of lexed (mode_of self.new)
            ≡ on_high first.digits.items second.digits.items c (spec_count_token c)) }
    {
        match CountToken::of(c) {
            CountToken::Digit => {
                Ok(self.go(Mode::Counting(Count::High(first, second.with_digit(c)?))))
            }
            CountToken::Closing => Ok(self.close_range(&first, &second)),
            _ => Ok(Lexed::Fails),
        }
    }
}
