//! Lexemes: what a reader of patterns sees of the parts that stand in one.

ghost use Rattle.std.specs.Prelude.{◌≡◌};
ghost use Rattle.strkw_regex_grammar.specs.machine.LexerParts.{before_of, lexeme_of, lexed_of};
ghost use Rattle.strkw_regex_grammar.specs.machine.Lexing.{Mode, lexed_behind};

use crate::lexer::numbers::Form;
use crate::tokens::Edge;
use strkw_charset::properties::Property;
use strkw_charset::tree::CharSet;

// The last term: none that a quantifier may follow, an atom, or an atom with its quantifier.
#[derive(Clone, Copy)]
pub enum Last {
    None,
    Atom,
    Counted,
}

// How often a quantifier repeats, but for `?`. No number is above `u32::MAX`: greater ones are held there.
#[derive(Clone, Copy)]
pub enum Bounds {
    ZeroOrMore,
    OneOrMore,
    Exactly(u32),
    AtLeast(u32),
    FromTo(u32, u32),
}

// What opens a group, or a lookbehind or a lookahead, which is negated where the value holds.
#[derive(Drop)]
pub enum Opening {
    Group,
    Capture,
    Named(Vec<char>),
    Behind(bool),
    Ahead(bool),
}

// A character that stands for itself, or is escaped by a letter; one by its number, which may be a surrogate's; the
// letter of a set; a property, or none where there is no table of it, which is to be missing where the first holds; a
// class, negated or not, with its sets where they are kept; a back reference by a number or by a name.
#[derive(Drop)]
pub enum Lexeme {
    Bar,
    Edge(Edge),
    Char(char),
    Number(Form, u32),
    Dot,
    Set(char),
    Property(bool, Option<Property>),
    Class(bool, Option<Vec<CharSet>>),
    Reference(u32),
    Call(Vec<char>),
    Begins(Opening),
    Ends,
    Repeats(Bounds),
    Question,
}

// What only the character behind it ends: the beginning of a group that captures, or a back reference by a number.
#[derive(Clone, Copy)]
pub enum Before {
    Capture,
    Reference(u32),
}

impl Before {
    pub fn lexeme(self) -> Lexeme
        ensures { lexeme_of result ≡ before_of self }
    {
        match self {
            Before::Capture => Lexeme::Begins(Opening::Capture),
            Before::Reference(number) => Lexeme::Reference(number),
        }
    }
}

// What comes of one more character: it may not stand there; it is of a part that is under way; it ends a part; or it
// ends what is before it, and is a part.
#[derive(Drop)]
pub enum Lexed {
    Fails,
    Goes,
    Makes(Lexeme),
    MakesBoth(Before, Lexeme),
}

impl Lexed {
    // Behind a part that the character ended.
    pub(crate) fn behind(self, part: Before) -> Lexed
        ensures { (m : Mode) → lexed_of result m ≡ lexed_behind (before_of part) (lexed_of self m) }
    {
        match self {
            Lexed::Goes => Lexed::Makes(part.lexeme()),
            Lexed::Makes(next) => Lexed::MakesBoth(part, next),
            Lexed::Fails | Lexed::MakesBoth(..) => Lexed::Fails,
        }
    }
}
