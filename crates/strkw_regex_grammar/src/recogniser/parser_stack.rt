//! What is known between two terms of a pattern.

ghost use Rattle.std.specs.Prelude.{◌≡◌, Some, IfOk};
ghost use Rattle.strkw_regex_grammar.specs.machine.LexerParts.{lexeme_of, opening_of};
ghost use Rattle.strkw_regex_grammar.specs.machine.RecogniserParts.{standing_of};
ghost use Rattle.strkw_regex_grammar.specs.machine.Recognising.{with_last, open_group, open_capture_within, with_name, add_call, add_reference, open_step, step};
ghost use Rattle.strkw_regex_grammar.specs.machine.Recognising.{close_group, add_quantifier, add_question, when};

use crate::lexemes::{Last, Lexeme, Opening};
use std::alloc::{AllocError, Global};

// There are fewer capturing groups.
pub(super) const CAPTURE_LIMIT: u32 = 0xFFFF_FFFF;

// Whether a quantifier may follow the end of each group and lookaround that is open, the innermost last; the last term;
// how many groups capture; the greatest number that a back reference asks for; the names of the groups; and those that
// back references ask for.
#[derive(Drop)]
pub struct ParserStack {
    pub(super) groups: Vec<bool>,
    pub(super) last: Last,
    pub(super) captures: u32,
    pub(super) greatest: u32,
    pub(super) names: Vec<Vec<char>>,
    pub(super) calls: Vec<Vec<char>>,
}

impl ParserStack {
    pub(super) fn set_last(&mut self, last: Last)
        ensures { standing_of self.new ≡ with_last (standing_of self.old) last }
    {
        self.last = last;
    }

    // Opens a group that does not capture, or a lookaround, which no quantifier may follow.
    pub(super) fn open(&mut self, is_group: bool) -> Result<(), AllocError>
        ensures { IfOk result
            (λ _. standing_of self.new ≡ open_group (standing_of self.old) is_group) }
    {
        self.groups.push(is_group)?;
        self.last = Last::None;
        Ok(())
    }

    // Opens a group that captures, where there are not too many.
    pub(super) fn capture(&mut self) -> Result<bool, AllocError>
        ensures { IfOk result (λ taken. when taken (Some (standing_of self.new))
            ≡ open_capture_within (standing_of self.old)) }
    {
        if self.captures >= CAPTURE_LIMIT - 1 {
            return Ok(false);
        }
        self.captures += 1;
        self.open(true)?;
        Ok(true)
    }

    pub(super) fn add_name(&mut self, name: Vec<char>) -> Result<(), AllocError>
        ensures { IfOk result (λ _.
            standing_of self.new ≡ with_name (standing_of self.old) name.items) }
    {
        self.names.push(name)?;
        Ok(())
    }

    // Behind a back reference to a name.
    pub(super) fn call(&mut self, name: Vec<char>) -> Result<(), AllocError>
        ensures { IfOk result (λ _.
            standing_of self.new ≡ add_call (standing_of self.old) name.items) }
    {
        self.calls.push(name)?;
        self.last = Last::Atom;
        Ok(())
    }

    // Behind a back reference to a group by its number.
    pub(super) fn refer(&mut self, number: u32)
        ensures { standing_of self.new ≡ add_reference (standing_of self.old) number }
    {
        if self.greatest <= number {
            self.greatest = number;
        }
        self.last = Last::Atom;
    }

    // Whether something was open.
    pub(super) fn close(&mut self) -> bool
        ensures { when result (Some (standing_of self.new)) ≡ close_group (standing_of self.old) }
    {
        match self.groups.pop() {
            None => false,
            Some(is_group) => {
                self.last = if is_group { Last::Atom } else { Last::None };
                true
            }
        }
    }

    // Whether a quantifier may stand here.
    pub(super) fn quantify(&mut self) -> bool
        ensures { when result (Some (standing_of self.new))
            ≡ add_quantifier (standing_of self.old) }
    {
        match self.last {
            Last::Atom => {
                self.last = Last::Counted;
                true
            }
            Last::None | Last::Counted => false,
        }
    }

    // The same of a `?`, which behind a quantifier makes it lazy.
    pub(super) fn question(&mut self) -> bool
        ensures { when result (Some (standing_of self.new)) ≡ add_question (standing_of self.old) }
    {
        match self.last {
            Last::None => false,
            Last::Atom => {
                self.last = Last::Counted;
                true
            }
            Last::Counted => {
                self.last = Last::None;
                true
            }
        }
    }

    // Behind what opens a group or a lookaround.
    fn begin(&mut self, opening: Opening) -> Result<bool, AllocError>
        ensures { IfOk result (λ taken. when taken (Some (standing_of self.new))
            ≡ open_step (standing_of self.old) (opening_of opening)) }
    {
        match opening {
            Opening::Group => self.open(true)?,
            Opening::Capture => return self.capture(),
            Opening::Named(name) => {
                self.add_name(name)?;
                return self.capture();
            }
            Opening::Behind(_) | Opening::Ahead(_) => self.open(false)?,
        }
        Ok(true)
    }

    // Behind one more lexeme, where it may stand here.
    pub(super) fn take(&mut self, lexeme: Lexeme) -> Result<bool, AllocError>
        ensures { IfOk result (λ taken. when taken (Some (standing_of self.new))
            ≡ step (standing_of self.old) (lexeme_of lexeme)) }
    {
        match lexeme {
            Lexeme::Bar | Lexeme::Edge(_) => self.set_last(Last::None),
            Lexeme::Char(_)
            | Lexeme::Number(..)
            | Lexeme::Dot
            | Lexeme::Set(_)
            | Lexeme::Property(..)
            | Lexeme::Class(..) => self.set_last(Last::Atom),
            Lexeme::Reference(number) => self.refer(number),
            Lexeme::Call(name) => self.call(name)?,
            Lexeme::Begins(opening) => return self.begin(opening),
            Lexeme::Ends => return Ok(self.close()),
            Lexeme::Repeats(_) => return Ok(self.quantify()),
            Lexeme::Question => return Ok(self.question()),
        }
        Ok(true)
    }
}
