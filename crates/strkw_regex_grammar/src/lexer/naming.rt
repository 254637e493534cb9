//! How names are read: of a group, or of a back reference.

ghost use Rattle.std.specs.Prelude.{◌≡◌, ◌==◌, true, false, IfOk};
ghost use Rattle.std.specs.Str.{byte};
ghost use Rattle.strkw_regex_grammar.specs.Names.{name_token as spec_name_token};
ghost use Rattle.strkw_regex_grammar.specs.machine.CodeParts.{coded_of};
ghost use Rattle.strkw_regex_grammar.specs.machine.LexerParts.{lexed_of, mode_of};
ghost use Rattle.strkw_regex_grammar.specs.machine.Lexing.{with_name_char, name_read, look_read, on_naming, on_name_escape, on_name_coding};

use super::Mode;
use crate::codes::{Coded, Coding};
use crate::lexemes::{Lexed, Lexeme, Opening};
use crate::names::may_follow;
use crate::tokens::NameToken;
use std::alloc::AllocError;

// Whose name is read: that of a group, or of a back reference.
#[derive(Clone, Copy)]
pub enum Naming {
    Group,
    Reference,
}

impl Mode {
    fn add_name_char(
        &mut self,
        naming: Naming,
        name: Vec<char>,
        c: char,
    ) -> Result<Lexed, AllocError>
        ensures { IfOk result (λ lexed. lexed_of lexed (mode_of self.new)
            ≡ with_name_char naming name.items c) }
    {
        if !may_follow(&name, c) {
            return Ok(Lexed::Fails);
        }
        let mut longer = name;
        longer.push(c)?;
        Ok(self.go(Mode::Naming(naming, longer)))
    }

    // Behind the `>` of the name.
    fn take_name(&mut self, naming: Naming, name: Vec<char>) -> Lexed
        ensures { lexed_of result (mode_of self.new) ≡ name_read naming name.items }
    {
        if name.is_empty() {
            return Lexed::Fails;
        }
        match naming {
            Naming::Group => self.make(Lexeme::Begins(Opening::Named(name))),
            Naming::Reference => self.make(Lexeme::Call(name)),
        }
    }

    // Behind the `=` or `!` of a lookbehind, which no name may stand before.
    fn take_look(&mut self, naming: Naming, name: &[char], negated: bool) -> Lexed
        ensures { lexed_of result (mode_of self.new) ≡ look_read naming name.now negated }
    {
        match naming {
            Naming::Group if name.is_empty() => self.make(Lexeme::Begins(Opening::Behind(negated))),
            _ => Lexed::Fails,
        }
    }

    pub(super) fn take_in_name(
        &mut self,
        naming: Naming,
        name: Vec<char>,
        c: char,
    ) -> Result<Lexed, AllocError>
        ensures { IfOk result (λ lexed. lexed_of lexed (mode_of self.new)
            ≡ on_naming naming name.items c (spec_name_token c)) }
    {
        match NameToken::of(c) {
            NameToken::End => Ok(self.take_name(naming, name)),
            NameToken::Backslash => Ok(self.go(Mode::NameEscaping(naming, name))),
            NameToken::Equals => Ok(self.take_look(naming, &name, false)),
            NameToken::Exclamation => Ok(self.take_look(naming, &name, true)),
            NameToken::Character => self.add_name_char(naming, name, c),
        }
    }

    pub(super) fn take_name_escape(&mut self, naming: Naming, name: Vec<char>, c: char) -> Lexed
        ensures { lexed_of result (mode_of self.new)
            ≡ on_name_escape naming name.items (c == byte "u") }
    {
        if c == 'u' {
            self.go(Mode::NameCoding(naming, name, Coding::UnitOpened))
        } else {
            Lexed::Fails
        }
    }

    pub(super) fn take_name_code(
        &mut self,
        naming: Naming,
        name: Vec<char>,
        coded: Coded,
    ) -> Result<Lexed, AllocError>
        ensures { IfOk result (λ lexed. lexed_of lexed (mode_of self.new)
            ≡ on_name_coding naming name.items (coded_of coded)) }
    {
        match coded {
            Coded::Fails => Ok(Lexed::Fails),
            Coded::Goes(coding) => Ok(self.go(Mode::NameCoding(naming, name, coding))),
            Coded::Makes(c) => self.add_name_char(naming, name, c),
        }
    }
}
