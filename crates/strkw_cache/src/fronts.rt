//! What the lines begin with that ask an object of a text, and have no option.

ghost use Rattle.std.specs.Prelude.{◌++◌, ◌∷◌, ◌≡◌, ℕ, IfOk, IfSome, IsTrue, List, codes, decimal, length, string_bytes};
ghost use Rattle.json.specs.Lex.{tokens as tokens_of_text};
ghost use Rattle.json.specs.Print.{escape};
ghost use Rattle.json.specs.Token.{key, number};
ghost use Rattle.json.specs.Written.{PlainBetween};
ghost use Rattle.strkw_cache.specs.Fronts.{AreFront, IsFront, Numbered, line_tokens};
ghost use Rattle.strkw_cache.specs.Tokens.{tokens_owned};

use super::terms::Terms;
use super::tokens::{OwnedToken, take_same};
use json::{Reader, Scratch, Token};
use memchr::memrchr;
use std::alloc::{AllocError, Global};
use strkw_report::Draft;

// The drafts, first those that requests name most.
const DRAFTS: [Draft; 5] = [
    Draft::Draft7,
    Draft::Draft202012,
    Draft::Draft201909,
    Draft::Draft6,
    Draft::Draft4,
];

// The number by which a request names a draft, as it is written most often.
fn number_of(draft: Draft) -> &'static str
    ensures { (named : Numbered draft) × (result.now ≡ decimal named.number) }
{
    match draft {
        Draft::Draft4 => "4",
        Draft::Draft6 => "6",
        Draft::Draft7 => "7",
        Draft::Draft201909 => "201909",
        Draft::Draft202012 => "202012",
    }
}

// Takes the key of this name, where it comes. Else another token is taken, or there is none.
fn take_key(tokens: &mut Reader<'_>, name: &str) -> Option<()>
    ensures { IfSome result (λ _. tokens.old ≡ key name.now ∷ tokens.new) }
{
    match tokens.next()? {
        Token::Key(found) if found == name => Some(()),
        _ => None,
    }
}

// Takes the number of the draft, where it comes as it is written most often.
fn take_number(tokens: &mut Reader<'_>, draft: Draft) -> Option<()>
    ensures { IfSome result (λ _. (named : Numbered draft)
        × (tokens.old ≡ number (decimal named.number) ∷ tokens.new)) }
{
    match tokens.next()? {
        Token::Number(found) if found == number_of(draft) => Some(()),
        _ => None,
    }
}

// Takes all tokens, where they are those of a line of this draft up to the text that it asks the object of.
fn take_front(tokens: &mut Reader<'_>, draft: Draft, object: &[OwnedToken]) -> Option<()>
    ensures { IfSome result (λ _. AreFront draft (tokens_owned object.now) tokens.old) }
{
    let Token::BeginObject = tokens.next()? else {
        return None;
    };
    take_key(tokens, "draft")?;
    take_number(tokens, draft)?;
    take_key(tokens, "schema")?;
    if !take_same(object, tokens) {
        return None;
    }
    take_key(tokens, "instance")?;
    if tokens.next().is_some() {
        return None;
    }
    Some(())
}

// What stands behind the key of the schema object in the front of a line, where this draft is all that stands before
// it, with nothing between the tokens.
fn behind_draft(front: &str, draft: Draft) -> Option<&str>
    ensures { IfSome result (λ behind. (named : Numbered draft) × ((rest : List ℕ)
        → tokens_of_text (front.now ++ rest)
        ≡ line_tokens named.number (tokens_of_text (behind.now ++ rest)))) }
{
    let numbered = front.strip_prefix("{\"draft\":")?;
    let behind = numbered.strip_prefix(number_of(draft))?;
    Some(behind.strip_prefix(",\"schema\":")?)
}

/// The draft of a line that begins with it, with nothing between the tokens before its schema object, and what stands
/// from that object on.
pub fn split_draft(line: &str) -> Option<(Draft, &str)>
    ensures { IfSome result (λ found. (named : Numbered found.0) × ((rest : List ℕ)
        → tokens_of_text (line.now ++ rest)
        ≡ line_tokens named.number (tokens_of_text (found.1.now ++ rest)))) }
{
    for draft in DRAFTS {
        if let Some(behind) = behind_draft(line, draft) {
            return Some((draft, behind));
        }
    }
    None
}

/// The draft and the text of the object in what stands in a line before the text that it asks the object of, where
/// these come in this order, no option stands beside them, and nothing between the tokens.
pub(super) fn split_front(before: &str) -> Option<(Draft, &str)>
    ensures { IfSome result (λ found. (named : Numbered found.0) × ((rest : List ℕ)
        → tokens_of_text (before.now ++ rest) ≡ line_tokens named.number
        (tokens_of_text (found.1.now ++ (codes ",\"instance\":" ++ rest))))) }
{
    let front = before.strip_suffix(",\"instance\":")?;
    let (draft, object) = split_draft(front)?;
    Some((draft, object))
}

/// What stands in a line before the string that ends it but for a brace, and that string, where it has no escape.
pub(super) fn split_text(line: &str) -> Option<(&str, &str)>
    ensures { IfSome result (λ found. (escape found.1.now ≡ found.1.now)
        × (line.now ≡ found.0.now ++ (codes "\"" ++ (found.1.now ++ codes "\"}")))) }
{
    let front = line.strip_suffix("\"}")?;
    let (before, quoted) = front.split_at_checked(memrchr(b'"', front.as_bytes())?)?;
    let text = quoted.strip_prefix("\"")?;
    if are_plain(text.as_bytes()) {
        Some((before, text))
    } else {
        None
    }
}

/// What stands in this line before the text that it asks the object of, with the quotation mark that begins the text.
/// It is none where the line has an option, has the members in another order, or does not end with a text without
/// escapes.
pub(super) fn front_in(
    alloc: Global,
    scratch: &mut Scratch,
    line: &[u8],
    terms: Terms,
    object: &[OwnedToken],
) -> Result<Option<String>, AllocError>
    ensures { IfOk result (λ front. IfSome front
        (λ made. IsFront terms (tokens_owned object.now) (string_bytes made))) }
{
    if terms.validate_formats.is_some() || !terms.ignore_unknown_formats {
        return Ok(None);
    }
    let Ok(line) = std::str::from_utf8(line) else {
        return Ok(None);
    };
    let Some((before, _)) = split_text(line) else {
        return Ok(None);
    };
    let mut tokens = Reader::new(before, scratch)?;
    let Some(()) = take_front(&mut tokens, terms.draft, object) else {
        return Ok(None);
    };
    let mut front = String::from_str(alloc, before)?;
    front.push('"')?;
    Ok(Some(front))
}

/// Whether each byte stands for itself in a string of JSON (RFC 8259, section 7). All are looked at, so that many are
/// at a time.
pub(super) fn are_plain(bytes: &[u8]) -> bool
    ensures { IsTrue result → PlainBetween bytes.now 0 (length bytes.now) }
{
    let mut plain = true;
    for byte in bytes {
        plain &= *byte >= b' ' && *byte != b'"' && *byte != b'\\';
    }
    plain
}
