//! What a character is in a pattern, behind a backslash, and in a class.

ghost use Rattle.std.specs.Prelude.{◌≡◌};
ghost use Rattle.strkw_regex_grammar.specs.Syntax.{token as spec_token};
ghost use Rattle.strkw_regex_grammar.specs.Escapes.{escape as spec_escape};
ghost use Rattle.strkw_regex_grammar.specs.Names.{extension as spec_extension, name_token as spec_name_token};
ghost use Rattle.strkw_regex_grammar.specs.Classes.{class_token as spec_class_token, class_escape as spec_class_escape};
ghost use Rattle.strkw_regex_grammar.specs.Numbers.{count_token as spec_count_token};

// What a character is in a pattern.
#[derive(Clone, Copy)]
pub enum Token {
    Bar,
    Asterisk,
    Plus,
    Question,
    Caret,
    Dollar,
    Opening,
    Closing,
    Point,
    Backslash,
    Bracket,
    Brace,
    Character,
    Other,
}

impl Token {
    pub fn of(c: char) -> Token
        ensures { result ≡ spec_token c }
    {
        match c {
            '|' => Token::Bar,
            '*' => Token::Asterisk,
            '+' => Token::Plus,
            '?' => Token::Question,
            '^' => Token::Caret,
            '$' => Token::Dollar,
            '(' => Token::Opening,
            ')' => Token::Closing,
            '.' => Token::Point,
            '\\' => Token::Backslash,
            '[' => Token::Bracket,
            '{' => Token::Brace,
            ']' | '}' => Token::Other,
            _ => Token::Character,
        }
    }
}

// An assertion that looks at the characters beside it.
#[derive(Clone, Copy)]
pub enum Edge {
    Start,
    End,
    Boundary,
    NoBoundary,
}

// What a character is behind a backslash.
#[derive(Clone, Copy)]
pub enum Escape {
    Itself,
    Control,
    Set,
    Boundary,
    NoBoundary,
    Null,
    Letter,
    Hexadecimal,
    Unicode,
    Property,
    NoProperty,
    Unknown,
}

impl Escape {
    pub fn of(c: char) -> Escape
        ensures { result ≡ spec_escape c }
    {
        match c {
            'b' => Escape::Boundary,
            'B' => Escape::NoBoundary,
            '0' => Escape::Null,
            'c' => Escape::Letter,
            'x' => Escape::Hexadecimal,
            'u' => Escape::Unicode,
            'p' => Escape::Property,
            'P' => Escape::NoProperty,
            '^'
            | '$'
            | '\\'
            | '.'
            | '*'
            | '+'
            | '?'
            | '('
            | ')'
            | '['
            | ']'
            | '{'
            | '}'
            | '|'
            | '/' => Escape::Itself,
            'f' | 'n' | 'r' | 't' | 'v' => Escape::Control,
            'd' | 'D' | 's' | 'S' | 'w' | 'W' => Escape::Set,
            _ => Escape::Unknown,
        }
    }

    // The same in a class, where a `-` may stand there too.
    pub fn of_class(c: char) -> Escape
        ensures { result ≡ spec_class_escape c }
    {
        if c == '-' {
            Escape::Itself
        } else {
            Escape::of(c)
        }
    }
}

// What a character is in a class.
#[derive(Clone, Copy)]
pub enum ClassToken {
    Closing,
    Backslash,
    Dash,
    Character,
}

impl ClassToken {
    pub fn of(c: char) -> ClassToken
        ensures { result ≡ spec_class_token c }
    {
        match c {
            ']' => ClassToken::Closing,
            '\\' => ClassToken::Backslash,
            '-' => ClassToken::Dash,
            _ => ClassToken::Character,
        }
    }
}

// What a character is behind `(?`.
#[derive(Clone, Copy)]
pub enum Extension {
    Uncaptured,
    NameOpening,
    Equals,
    Exclamation,
    Unknown,
}

impl Extension {
    pub fn of(c: char) -> Extension
        ensures { result ≡ spec_extension c }
    {
        match c {
            ':' => Extension::Uncaptured,
            '<' => Extension::NameOpening,
            '=' => Extension::Equals,
            '!' => Extension::Exclamation,
            _ => Extension::Unknown,
        }
    }
}

// What a character is behind `(?<`, in a name or before it.
#[derive(Clone, Copy)]
pub enum NameToken {
    End,
    Backslash,
    Equals,
    Exclamation,
    Character,
}

impl NameToken {
    pub fn of(c: char) -> NameToken
        ensures { result ≡ spec_name_token c }
    {
        match c {
            '>' => NameToken::End,
            '\\' => NameToken::Backslash,
            '=' => NameToken::Equals,
            '!' => NameToken::Exclamation,
            _ => NameToken::Character,
        }
    }
}

// What a character is in a count.
#[derive(Clone, Copy)]
pub enum CountToken {
    Digit,
    Comma,
    Closing,
    Other,
}

impl CountToken {
    pub fn of(c: char) -> CountToken
        ensures { result ≡ spec_count_token c }
    {
        match c {
            '0'..='9' => CountToken::Digit,
            ',' => CountToken::Comma,
            '}' => CountToken::Closing,
            _ => CountToken::Other,
        }
    }
}
