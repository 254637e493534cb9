//! The answer to one line.

ghost use Rattle.std.specs.Prelude.{◌++◌, ◌≡◌, ℕ, Bool, IfSome, IsErrOf, List, None, OnErr, OnOk, Some, codes, option_map, true};
ghost use Rattle.strkw_keywords.specs.Lengths.{IsEmpty};
ghost use Rattle.strkw_keywords.specs.Errors.{NodeReports};
ghost use Rattle.strkw_keywords.specs.Demands.{IsInUse};
ghost use Rattle.strkw_keywords.specs.Meanings.{no_lists};
ghost use Rattle.strkw_report.specs.Kinds.{Report};
ghost use Rattle.strkw_report.specs.Standings.{root_site};
ghost use Rattle.strkw_object.specs.Compiled.{keywords_assertions, keywords_demands, keywords_interval};
ghost use Rattle.strkw_cache.specs.Cached.{IsCached, IsCompiledTo};
ghost use Rattle.strkw_cache.specs.Told.{CanAnswer, IsTold};
ghost use Rattle.strkw_cli.specs.Answer.{Answers, IsAnswer, TellsFold, settings_for, verdict_lines};
ghost use Rattle.strkw_cli.specs.Held.{IsSound};
ghost use Rattle.strkw_cli.specs.Request as asked;

use super::held::Held;
use super::request::{Request, Schema, read_request};
use super::unread::Unanswered;
use json::Scratch;
use std::alloc::{AllocError, Global};
use strkw_cache::{CachedObject, Compiled, Occurrence, compile, push_told};
use strkw_keywords::Checks;
use strkw_object::{OwnedValues, StringKeywords};
use strkw_pattern::RegexEngine;
use strkw_print::push_errors;
use strkw_report::{Node, TextNode};

/// Appends the answer to a line. Out of memory, the vector is as it was.
pub fn answer(alloc: Global, line: &[u8], out: &mut Vec<u8>) -> Result<(), AllocError>
    ensures ok { OnOk result ((made : List ℕ) × (out.new.items ≡ out.old.items ++ made)
        × IsAnswer line.now made) }
    ensures err { OnErr result (out.new.items ≡ out.old.items) }
{
    answer_with(alloc, line, &mut Held::new(alloc, 0), out)
}

/// The same with what is held from line to line.
pub(super) fn answer_with(
    alloc: Global,
    line: &[u8],
    held: &mut Held,
    out: &mut Vec<u8>,
) -> Result<(), AllocError>
    requires { IsSound held.old }
    ensures ok { OnOk result ((made : List ℕ) × (out.new.items ≡ out.old.items ++ made)
        × IsAnswer line.now made) }
    ensures err { OnErr result (out.new.items ≡ out.old.items) }
    ensures sound { IsSound held.new }
{
    match simdutf8::basic::from_utf8(line) {
        Ok(text) => answer_text(alloc, text, held, out),
        Err(_) => push_bad_request(out),
    }
}

/// The same of a line that is known to be UTF-8.
pub(super) fn answer_text(
    alloc: Global,
    line: &str,
    held: &mut Held,
    out: &mut Vec<u8>,
) -> Result<(), AllocError>
    requires { IsSound held.old }
    ensures ok { OnOk result ((made : List ℕ) × (out.new.items ≡ out.old.items ++ made)
        × IsAnswer line.now made) }
    ensures err { OnErr result (out.new.items ≡ out.old.items) }
    ensures sound { IsSound held.new }
{
    if line.is_empty() {
        return push_bad_request(out);
    }
    let before = out.len();
    let values = &mut held.values;
    let object = held.cache.object.as_ref();
    let result = match answer_line(alloc, line, &mut held.scratch, object, values, out) {
        Ok(seen) => held
            .cache
            .see(alloc, &mut held.scratch, values, line.as_bytes(), seen),
        Err(Unanswered::Memory) => Err(AllocError),
        Err(Unanswered::Differs) => {
            held.cache.forget();
            answer_anew(alloc, line, &mut held.scratch, values, out)
        }
    };
    if result.is_err() {
        out.truncate(before);
    }
    result
}

// Appends the answer to a line, or a beginning of it where it is out of memory, and caches nothing.
fn answer_anew(
    alloc: Global,
    line: &str,
    scratch: &mut Scratch,
    values: &mut OwnedValues,
    out: &mut Vec<u8>,
) -> Result<(), AllocError>
    ensures ok { OnOk result ((made : List ℕ) × (out.new.items ≡ out.old.items ++ made)
        × IsAnswer line.now made) }
    ensures err { OnErr result ((more : List ℕ) × (out.new.items ≡ out.old.items ++ more)) }
{
    match answer_line(alloc, line, scratch, None, values, out) {
        Ok(_) => Ok(()),
        Err(Unanswered::Memory) => Err(AllocError),
        Err(Unanswered::Differs) => unreachable!(),
    }
}

// Appends the answer to a line, or a beginning of it where it is out of memory, and tells where its schema object
// stands, where that was compiled anew. It differs where the object is cached, and compiled under other terms.
fn answer_line(
    alloc: Global,
    line: &str,
    scratch: &mut Scratch,
    cached: Option<&CachedObject>,
    values: &mut OwnedValues,
    out: &mut Vec<u8>,
) -> Result<Option<Occurrence>, Unanswered>
    requires { IfSome cached (λ object. IsCached object.now) }
    ensures ok { OnOk result ((made : List ℕ) × (out.new.items ≡ out.old.items ++ made)
        × IsAnswer line.now made) }
    ensures err { OnErr result ((more : List ℕ) × (out.new.items ≡ out.old.items ++ more)) }
    ensures differs { IsErrOf result Unanswered.Differs → out.new.items ≡ out.old.items }
    ensures same { cached.entry ≡ None → IsErrOf result Unanswered.Differs → ⊥ }
{
    let Some(request) = read_request(alloc, line, scratch, cached, values)? else {
        push_bad_request(out)?;
        return Ok(None);
    };
    let terms = request.terms;
    match request.schema {
        Schema::Read(start, end) => {
            let compiled = compile(alloc, terms, values);
            push_answer(alloc, &request, &compiled, None, out)?;
            Ok(Some(Occurrence { terms, start, end }))
        }
        Schema::Cached(object) if object.is_compiled_under(terms) => {
            let told = Some(object.told.as_slice());
            push_answer(alloc, &request, &object.compiled, told, out)?;
            Ok(None)
        }
        Schema::Cached(_) => Err(Unanswered::Differs),
    }
}

// Appends the answer to a request by what its schema object is compiled to: its refusal, or whether it folds to false,
// where this is asked, with the errors and the notes of the instance. What it tells behind the errors of a text may be
// at hand.
fn push_answer(
    alloc: Global,
    request: &Request<'_>,
    compiled: &Compiled,
    told: Option<&[u8]>,
    out: &mut Vec<u8>,
) -> Result<(), AllocError>
    requires can_answer { CanAnswer compiled.now }
    requires is_told { IfSome told (λ bytes. IsTold compiled.now bytes.now) }
    ensures ok { (r : asked.Request) → r.fold ≡ request.now.fold
        → r.instance ≡ option_map (λ text. text.now) request.now.instance
        → IsCompiledTo (settings_for r) r.schema compiled.now
        → OnOk result ((made : List ℕ) × (out.new.items ≡ out.old.items ++ made)
        × Answers (Some r) made) }
    ensures err { OnErr result ((more : List ℕ) × (out.new.items ≡ out.old.items ++ more)) }
{
    match compiled {
        Ok(keywords) => {
            if request.fold {
                push_fold(keywords, out)?;
            }
            let Some(text) = TextNode::of(&request.instance) else {
                return out.extend_from_slice(b"valid\nend\n");
            };
            let before = out.len();
            push_errors(alloc, keywords, &text, &Checks::none(), out)?;
            if out.len() == before {
                out.extend_from_slice(b"valid\n")?;
            }
            push_told(alloc, compiled, told, out)
        }
        Err(_) => push_told(alloc, compiled, told, out),
    }
}

// Appends whether an object folds to false.
fn push_fold<E: RegexEngine>(
    keywords: &StringKeywords<E>,
    out: &mut Vec<u8>,
) -> Result<(), AllocError>
    ensures ok { OnOk result ((told : List ℕ) × (out.new.items ≡ out.old.items ++ told)
        × TellsFold true (IsEmpty (keywords_interval E.outcome keywords.now)) told) }
    ensures err { OnErr result ((more : List ℕ) × (out.new.items ≡ out.old.items ++ more)) }
{
    if keywords.folds_to_false() {
        out.extend_from_slice(b"fold true\n")
    } else {
        out.extend_from_slice(b"fold false\n")
    }
}

// Appends the answer to a line that is no request.
fn push_bad_request(out: &mut Vec<u8>) -> Result<(), AllocError>
    ensures ok { OnOk result (out.new.items ≡ out.old.items ++ codes "bad request\nend\n") }
    ensures err { OnErr result (out.new.items ≡ out.old.items) }
{
    out.extend_from_slice(b"bad request\nend\n")
}
