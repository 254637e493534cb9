//! The request that a line is.

ghost use Rattle.std.specs.Prelude.{◌<◌, ◌≤◌, ◌∷◌, ◌≡◌, ℕ, Bool, IfOk, IfSome, IsErrOf, None, OnOk, Option, Some, false, is_some, length, option_and_then};
ghost use Rattle.std.specs.Bool.{MatchBool};
ghost use Rattle.json.specs.Token.{begin_object};
ghost use Rattle.serde_json.specs.Data.{Data, Members, no_members};
ghost use Rattle.serde_json.specs.Find.{as_object};
ghost use Rattle.serde_json.specs.Read.{read as read_text};
ghost use Rattle.serde_json.specs.View.{view};
ghost use Rattle.strkw_json.specs.Passing.{members_read, value_read};
ghost use Rattle.strkw_cache.specs.Cached.{IsCached};
ghost use Rattle.strkw_cache.specs.Depths.{member_depth};
ghost use Rattle.strkw_cli.specs.Borrowed.{IsObject, IsRequest, IsRight};
ghost use Rattle.strkw_cli.specs.Both.{AreBoth};
ghost use Rattle.strkw_cli.specs.Parts.{AreParts, Takes, members_behind, request_left};
ghost use Rattle.strkw_report.specs.Drafts.{draft_in, draft_numbered};
ghost use Rattle.strkw_cli.specs.Request.{flag_in, request_in, request_of_members};
ghost use Rattle.strkw_cli.specs.Tokens.{begins_object};

use super::unread::{Unanswered, Unread};
use json::{Reader, Scratch, Token};
use serde_json::Value;
use std::alloc::Global;
use strkw_cache::{
    CachedObject, MEMBER_DEPTH, Occurrence, Terms, read_asked, read_values, split_draft,
};
use strkw_json::{json_scalar, json_text};
use strkw_object::OwnedValues;
use strkw_report::{Draft, draft_in};

/// A request. The text of its instance stands in its line, or unescaped in the scratch that its line was read with.
#[derive(Drop)]
pub(super) struct Request<'a> {
    pub(super) terms: Terms,
    pub(super) schema: Schema<'a>,
    /// The text that the instance is, or `None` where it is another value.
    pub(super) instance: Option<&'a str>,
    pub(super) fold: bool,
}

/// The schema object of a request.
#[derive(Drop)]
pub(super) enum Schema<'a> {
    /// Its values were read of its line, where it stands from the first place on, and before the second.
    Read(usize, usize),
    /// It is the one that is cached.
    Cached(&'a CachedObject),
}

fn flag_in(value: &Value) -> Option<Option<bool>>
    ensures { result ≡ flag_in (Some (view value.now)) }
{
    Some(Some(value.as_bool()?))
}

// No text of a JSON object is shorter.
const SHORTEST_OBJECT: usize = 2;

// The draft whose number the value of a member is. Any other value is passed over, and not built.
fn read_draft(tokens: &mut Reader<'_>) -> Result<Option<Draft>, Unread>
    ensures ok { IfOk result (λ draft. (d : Data)
        × (value_read member_depth tokens.old ≡ Some (d, tokens.new)) × (draft ≡ draft_in d)) }
    ensures none { IsErrOf result Unread.NotJson → value_read member_depth tokens.old ≡ None }
    ensures same { IsErrOf result Unread.Differs → ⊥ }
    ensures shorter { OnOk result (length tokens.new < length tokens.old) }
{
    match json_scalar(tokens, MEMBER_DEPTH)? {
        Some(value) => Ok(draft_in(&value)),
        None => Ok(None),
    }
}

// The flag that the value of a member is. Any other value is passed over, and not built.
fn read_flag(tokens: &mut Reader<'_>) -> Result<Option<Option<bool>>, Unread>
    ensures ok { IfOk result (λ flag. (d : Data)
        × (value_read member_depth tokens.old ≡ Some (d, tokens.new)) × (flag ≡ flag_in (Some d))) }
    ensures none { IsErrOf result Unread.NotJson → value_read member_depth tokens.old ≡ None }
    ensures same { IsErrOf result Unread.Differs → ⊥ }
    ensures shorter { OnOk result (length tokens.new < length tokens.old) }
{
    match json_scalar(tokens, MEMBER_DEPTH)? {
        Some(value) => Ok(flag_in(&value)),
        None => Ok(None),
    }
}

/// The text of a line or its end, how many bytes stand before that, and the schema object that is cached.
#[derive(Clone, Copy)]
pub(super) struct Line<'a> {
    text: &'a str,
    before: usize,
    cached: Option<&'a CachedObject>,
}

// The schema object that the value of a member is: the one that is cached, where the line has its text here, or else
// one whose values are read. Any other value is passed over, and not built. It differs where the text is not that of
// the tokens.
fn read_schema<'a>(
    alloc: Global,
    line: Line<'a>,
    tokens: &mut Reader<'_>,
    values: &mut OwnedValues,
) -> Result<Option<Schema<'a>>, Unread>
    requires { IfSome line.cached (λ object. IsCached object.now) }
    ensures ok { IfOk result (λ schema. (d : Data)
        × (value_read member_depth tokens.old ≡ Some (d, tokens.new))
        × AreBoth (IsObject values.new) schema (as_object d)) }
    ensures right { IfOk result (λ schema. IfSome schema (IsRight (is_some line.entry.cached))) }
    ensures none { IsErrOf result Unread.NotJson → value_read member_depth tokens.old ≡ None }
    ensures same { line.entry.cached ≡ None → IsErrOf result Unread.Differs → ⊥ }
    ensures shorter { OnOk result (length tokens.new < length tokens.old) }
{
    let start = tokens.offset();
    match line.cached {
        Some(object) if object.stands_at(line.text.as_bytes(), start) => {
            if object.takes(tokens) {
                Ok(Some(Schema::Cached(object)))
            } else {
                Err(Unread::Differs)
            }
        }
        _ => {
            let is_object = read_values(alloc, tokens, values)?;
            let end = line.before.saturating_add(tokens.offset());
            Ok(is_object.then_some(Schema::Read(line.before.saturating_add(start), end)))
        }
    }
}

// What the members so far come to, each name by its last value: a part of the wanted kind, or none.
#[derive(Drop)]
struct Parts<'a> {
    draft: Option<Draft>,
    schema: Option<Schema<'a>>,
    instance: Option<Option<&'a str>>,
    validate_formats: Option<Option<bool>>,
    ignore_unknown_formats: Option<Option<bool>>,
    fold: Option<Option<bool>>,
    has_only_request_keys: bool,
}

impl<'a> Parts<'a> {
    // Those of no members.
    #[inline(always)]
    fn none() -> Self
        ensures { (cached : Bool) (values : OwnedValues)
            → AreParts cached values result no_members }
    {
        Parts {
            draft: None,
            schema: None,
            instance: None,
            validate_formats: Some(None),
            ignore_unknown_formats: Some(None),
            fold: Some(None),
            has_only_request_keys: true,
        }
    }

    // Takes the value of a member of this name.
    fn take_member(
        &mut self,
        alloc: Global,
        line: Line<'a>,
        name: &str,
        tokens: &mut Reader<'a>,
        values: &mut OwnedValues,
    ) -> Result<(), Unread>
        requires { IfSome line.cached (λ object. IsCached object.now) }
        ensures ok { OnOk result ((d : Data)
            × (value_read member_depth tokens.old ≡ Some (d, tokens.new))
            × Takes (is_some line.entry.cached) name.now d values.old values.new
            self.old self.new) }
        ensures none { IsErrOf result Unread.NotJson → value_read member_depth tokens.old ≡ None }
        ensures same { line.entry.cached ≡ None → IsErrOf result Unread.Differs → ⊥ }
        ensures shorter { OnOk result (length tokens.new < length tokens.old) }
    {
        match name {
            "draft" => self.draft = read_draft(tokens)?,
            "schema" => self.schema = read_schema(alloc, line, tokens, values)?,
            "instance" => self.instance = Some(json_text(tokens, MEMBER_DEPTH)?),
            "validate_formats" => self.validate_formats = read_flag(tokens)?,
            "ignore_unknown_formats" => self.ignore_unknown_formats = read_flag(tokens)?,
            "fold" => self.fold = read_flag(tokens)?,
            _ => {
                json_text(tokens, MEMBER_DEPTH)?;
                self.has_only_request_keys = false;
            }
        }
        Ok(())
    }

    // The request that these are the parts of.
    #[inline(always)]
    fn into_request(self) -> Option<Request<'a>>
        ensures request { (cached : Bool) (values : OwnedValues) (ms : Members)
            → AreParts cached values self.entry ms
            → AreBoth (IsRequest values) result (request_of_members ms) }
        ensures right { (cached : Bool) → IfSome self.entry.schema (IsRight cached)
            → IfSome result (λ request. IsRight cached request.schema) }
    {
        if !self.has_only_request_keys {
            return None;
        }
        let draft = self.draft?;
        let instance = self.instance?;
        let validate_formats = self.validate_formats?;
        let ignore_unknown_formats = self.ignore_unknown_formats?;
        let fold = self.fold?;
        Some(Request {
            terms: Terms {
                draft,
                validate_formats,
                ignore_unknown_formats: ignore_unknown_formats.unwrap_or(true),
            },
            schema: self.schema?,
            instance,
            fold: fold.unwrap_or(false),
        })
    }
}

// What the members that are left of an object come to, up to its end, behind those that came to these parts.
#[inline(always)]
fn parts_in<'a>(
    alloc: Global,
    line: Line<'a>,
    tokens: &mut Reader<'a>,
    values: &mut OwnedValues,
    mut parts: Parts<'a>,
) -> Result<Parts<'a>, Unread>
    requires { IfSome line.cached (λ object. IsCached object.now) }
    ensures ok { (found : Members) (turns : ℕ) → length tokens.old ≤ turns
        → AreParts (is_some line.entry.cached) values.old parts.entry found
        → IfOk result (λ whole. (ms : Members)
        × (members_behind turns found tokens.old ≡ Some (ms, tokens.new))
        × AreParts (is_some line.entry.cached) values.new whole ms) }
    ensures none { (found : Members) (turns : ℕ) → length tokens.old ≤ turns
        → AreParts (is_some line.entry.cached) values.old parts.entry found
        → IsErrOf result Unread.NotJson → members_behind turns found tokens.old ≡ None }
    ensures same { line.entry.cached ≡ None → IsErrOf result Unread.Differs → ⊥ }
{
    'members: while let Some(name) = tokens.next_key()? {
        parts.take_member(alloc, line, name, tokens, values)?;
    }
    Ok(parts)
}

// The request that the members that are left come to, behind those that came to these parts.
fn request_behind<'a>(
    alloc: Global,
    line: Line<'a>,
    mut tokens: Reader<'a>,
    values: &mut OwnedValues,
    parts: Parts<'a>,
) -> Result<Option<Request<'a>>, Unread>
    requires { IfSome line.cached (λ object. IsCached object.now) }
    ensures ok { (found : Members) (turns : ℕ) → length tokens.entry ≤ turns
        → AreParts (is_some line.entry.cached) values.old parts.entry found
        → IfOk result (λ request. AreBoth (IsRequest values.new) request
        (request_left (members_behind turns found tokens.entry))) }
    ensures right { (found : Members) (turns : ℕ) → length tokens.entry ≤ turns
        → AreParts (is_some line.entry.cached) values.old parts.entry found
        → IfOk result (λ request. IfSome request
        (λ r. IsRight (is_some line.entry.cached) r.schema)) }
    ensures none { (found : Members) (turns : ℕ) → length tokens.entry ≤ turns
        → AreParts (is_some line.entry.cached) values.old parts.entry found
        → IsErrOf result Unread.NotJson
        → request_left (members_behind turns found tokens.entry) ≡ None }
    ensures same { line.entry.cached ≡ None → IsErrOf result Unread.Differs → ⊥ }
{
    let whole = parts_in(alloc, line, &mut tokens, values, parts)?;
    match tokens.next() {
        None => Ok(whole.into_request()),
        Some(_) => Ok(None),
    }
}

// The request that a text is by its members, in whatever order they come. Where the draft and the schema object come
// first, with nothing between the tokens, the draft is told by the bytes.
fn request_in_text<'a>(
    alloc: Global,
    text: &'a str,
    scratch: &'a mut Scratch,
    cached: Option<&'a CachedObject>,
    values: &mut OwnedValues,
) -> Result<Option<Request<'a>>, Unread>
    requires { IfSome cached (λ object. IsCached object.now) }
    ensures ok { IfOk result (λ request. AreBoth (IsRequest values.new) request
        (option_and_then request_in (read_text text.now))) }
    ensures right { IfOk result (λ request. IfSome request
        (λ r. IsRight (is_some cached.entry) r.schema)) }
    ensures none { IsErrOf result Unread.NotJson
        → option_and_then request_in (read_text text.now) ≡ None }
    ensures same { cached.entry ≡ None → IsErrOf result Unread.Differs → ⊥ }
{
    let mut parts = Parts::none();
    let Some((draft, behind)) = split_draft(text) else {
        let mut tokens = Reader::new(text, scratch)?;
        let Some(Token::BeginObject) = tokens.next() else {
            return Ok(None);
        };
        let line = Line {
            text,
            before: 0,
            cached,
        };
        return request_behind(alloc, line, tokens, values, parts);
    };
    let line = Line {
        text: behind,
        before: text.len().saturating_sub(behind.len()),
        cached,
    };
    let mut tokens = Reader::new(behind, scratch)?;
    parts.draft = Some(draft);
    parts.schema = read_schema(alloc, line, &mut tokens, values)?;
    request_behind(alloc, line, tokens, values, parts)
}

// The same, where a text that is no JSON is no request.
fn read_members<'a>(
    alloc: Global,
    text: &'a str,
    scratch: &'a mut Scratch,
    cached: Option<&'a CachedObject>,
    values: &mut OwnedValues,
) -> Result<Option<Request<'a>>, Unanswered>
    requires { IfSome cached (λ object. IsCached object.now) }
    ensures ok { IfOk result (λ request. AreBoth (IsRequest values.new) request
        (option_and_then request_in (read_text text.now))) }
    ensures right { IfOk result (λ request. IfSome request
        (λ r. IsRight (is_some cached.entry) r.schema)) }
    ensures same { cached.entry ≡ None → IsErrOf result Unanswered.Differs → ⊥ }
{
    match request_in_text(alloc, text, scratch, cached, values) {
        Ok(request) => Ok(request),
        Err(Unread::NotJson) => Ok(None),
        Err(Unread::Memory) => Err(Unanswered::Memory),
        Err(Unread::Differs) => Err(Unanswered::Differs),
    }
}

/// The request that a line is, or `None` where it is none. The scratch is held from line to line, and a schema object
/// may be cached, which is then not read anew; of another one the values are read. A line that asks the cached object
/// of a text, and has no option, is told by its bytes, and one that asks another object so by the bytes around that. It
/// differs where the line has the text of the object that is cached, and other tokens.
pub(super) fn read_request<'a>(
    alloc: Global,
    text: &'a str,
    scratch: &'a mut Scratch,
    cached: Option<&'a CachedObject>,
    values: &mut OwnedValues,
) -> Result<Option<Request<'a>>, Unanswered>
    requires { IfSome cached (λ object. IsCached object.now) }
    ensures ok { IfOk result (λ request. AreBoth (IsRequest values.new) request
        (option_and_then request_in (read_text text.now))) }
    ensures right { IfOk result (λ request. IfSome request
        (λ r. IsRight (is_some cached.entry) r.schema)) }
    ensures same { cached.entry ≡ None → IsErrOf result Unanswered.Differs → ⊥ }
{
    if let Some(object) = cached {
        if let Some(asked) = object.text_asked(text) {
            return Ok(Some(Request {
                terms: object.terms,
                schema: Schema::Cached(object),
                instance: Some(asked),
                fold: false,
            }));
        }
    }
    if text.len() < SHORTEST_OBJECT {
        return Ok(None);
    }
    if let Some(asked) = read_asked(alloc, scratch, cached, values, text)? {
        let Occurrence { terms, start, end } = asked.occurrence;
        return Ok(Some(Request {
            terms,
            schema: Schema::Read(start, end),
            instance: Some(asked.text),
            fold: false,
        }));
    }
    read_members(alloc, text, scratch, cached, values)
}
