//! The tokens of a text with texts of their own, and whether a reader comes to the same ones.

ghost use Rattle.std.specs.Prelude.{◌++◌, ◌≡◌, IfOk, IsTrue, true};
ghost use Rattle.json.specs.Align.{is_good};
ghost use Rattle.json.specs.Lex.{tokens as tokens_of_text};
ghost use Rattle.json.specs.Reads.{token_of};
ghost use Rattle.strkw_cache.specs.Fronts.{AreGood};
ghost use Rattle.strkw_cache.specs.Tokens.{token_owned, tokens_owned};

use json::{Reader, Scratch, Token};
use std::alloc::{AllocError, Global};

/// A token of JSON with a text of its own: what `json::Token` borrows.
#[derive(Drop)]
pub enum OwnedToken {
    /// `{`.
    BeginObject,
    /// `}`.
    EndObject,
    /// `[`.
    BeginArray,
    /// `]`.
    EndArray,
    /// The name of a member, unescaped.
    Key(String),
    /// A string, unescaped.
    String(String),
    /// A number, as it is written.
    Number(String),
    /// `true` or `false`.
    Bool(bool),
    /// `null`.
    Null,
    /// What is no token.
    Bad,
}

impl OwnedToken {
    // The token, with a copy of its text.
    fn of(alloc: Global, token: &Token<'_>) -> Result<Self, AllocError>
        ensures { IfOk result (λ kept. token_owned kept ≡ token_of token.now) }
    {
        Ok(match token {
            Token::BeginObject => OwnedToken::BeginObject,
            Token::EndObject => OwnedToken::EndObject,
            Token::BeginArray => OwnedToken::BeginArray,
            Token::EndArray => OwnedToken::EndArray,
            Token::Key(name) => OwnedToken::Key(String::from_str(alloc, name)?),
            Token::String(text) => OwnedToken::String(String::from_str(alloc, text)?),
            Token::Number(text) => OwnedToken::Number(String::from_str(alloc, text)?),
            Token::Bool(is_true) => OwnedToken::Bool(*is_true),
            Token::Null => OwnedToken::Null,
            Token::Bad => OwnedToken::Bad,
        })
    }

    // Whether this is the token.
    fn is(&self, token: &Token<'_>) -> bool
        ensures same { IsTrue result → token_of token.now ≡ token_owned self.now }
        ensures good { IsTrue result → is_good (token_owned self.now) ≡ true }
    {
        match (self, token) {
            (OwnedToken::BeginObject, Token::BeginObject)
            | (OwnedToken::EndObject, Token::EndObject)
            | (OwnedToken::BeginArray, Token::BeginArray)
            | (OwnedToken::EndArray, Token::EndArray)
            | (OwnedToken::Null, Token::Null) => true,
            (OwnedToken::Key(kept), Token::Key(text))
            | (OwnedToken::String(kept), Token::String(text))
            | (OwnedToken::Number(kept), Token::Number(text)) => kept.as_str() == *text,
            (OwnedToken::Bool(kept), Token::Bool(is_true)) => *kept == *is_true,
            _ => false,
        }
    }
}

/// The tokens of a text.
pub(super) fn tokens_in(
    alloc: Global,
    scratch: &mut Scratch,
    text: &str,
) -> Result<Vec<OwnedToken>, AllocError>
    ensures { IfOk result (λ kept. tokens_owned kept.items ≡ tokens_of_text text.now) }
{
    let mut tokens = Reader::new(text, scratch)?;
    let mut kept = Vec::new(alloc);
    'tokens: while let Some(token) = tokens.next() {
        kept.push(OwnedToken::of(alloc, &token)?)?;
    }
    Ok(kept)
}

/// Takes as many tokens as there are here, up to the first that is another one: whether there is none.
pub(super) fn take_same(kept: &[OwnedToken], tokens: &mut Reader<'_>) -> bool
    ensures same { IsTrue result → tokens.old ≡ tokens_owned kept.now ++ tokens.new }
    ensures good { IsTrue result → AreGood (tokens_owned kept.now) }
{
    for token in kept {
        match tokens.next() {
            Some(next) if token.is(&next) => {}
            _ => return false,
        }
    }
    true
}
