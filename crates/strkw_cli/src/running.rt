//! The loop over the pieces of the input.

ghost use Rattle.std.specs.Prelude.{◌++◌, ◌<◌, ◌↔◌, ◌≡◌, ◌≤◌, ℕ, IfOk, IfSome, IsErrOf, List, OnErr, OnOk, [], false, length, take, true, vec_len};
ghost use Rattle.std.specs.Io.KnownBytes.{Appends, Consumes, IsAtEnd};
ghost use Rattle.strkw_cli.specs.Answer.{AreAnswers, IsAnswer};
ghost use Rattle.strkw_cli.specs.Bounds.{HasShortLines, IsBoundedOutcome, IsOutcomeWithin, IsTaken};
ghost use Rattle.strkw_cli.specs.Held.{IsSound};
ghost use Rattle.strkw_cli.specs.declared.running.Ending.TheVariants.{AtEnd};
ghost use Rattle.strkw_cli.specs.Lines.{ended_lines, last_part, lines};
ghost use Rattle.strkw_cli.specs.Outcome.{AnswersSome, IsOutcome};
ghost use Rattle.strkw_cli.specs.Serving.{Serves};

use super::answering::{answer_text, answer_with};
use super::faults::{BoundedRunFault, RunFault};
use super::held::Held;
use memchr::{memchr, memrchr};
use std::alloc::{AllocError, Global};
use strkw_devices::{Sink, Source};

// The room for a piece of the input.
const PIECE_LEN: usize = 65536;

// The longest text of a schema object that is cached.
const LONGEST_CACHED: usize = 65536;

// Goes on from a line that has begun by a piece of the input, and appends the answers to the lines
// that end in it. An `Err` has appended the answers to some beginning of them.
fn answer_piece(
    alloc: Global,
    piece: &[u8],
    line: &mut Vec<u8>,
    held: &mut Held,
    out: &mut Vec<u8>,
) -> Result<(), AllocError>
    requires sound { IsSound held.old }
    requires begun { last_part line.old.items ≡ line.old.items }
    ensures answered { OnOk result ((made : List ℕ) × (out.new.items ≡ out.old.items ++ made)
        × AreAnswers (ended_lines (line.old.items ++ piece.now)) made) }
    ensures begun { OnOk result (line.new.items ≡ last_part (line.old.items ++ piece.now)) }
    ensures err { OnErr result ((written : List ℕ) × (out.new.items ≡ out.old.items ++ written)
        × AnswersSome (ended_lines (line.old.items ++ piece.now)) written) }
    ensures sound { IsSound held.new }
{
    let text = text_of_lines(piece);
    let mut at = 0;
    while let Some(offset) = memchr(b'\n', &piece[at..]) {
        let end = at + offset;
        answer_ending(alloc, &piece[at..end], text.get(at..end), line, held, out)?;
        at = end + 1;
    }
    line.extend_from_slice(&piece[at..])
}

// The text of a piece up to its last line feed, or nothing where that is not UTF-8.
fn text_of_lines(piece: &[u8]) -> &str
    ensures { (rest : List ℕ) × (piece.now ≡ result.now ++ rest) }
{
    let Some(end) = memrchr(b'\n', piece) else {
        return "";
    };
    match simdutf8::basic::from_utf8(&piece[..end]) {
        Ok(text) => text,
        Err(_) => "",
    }
}

// Answers the line that ends here, and keeps none of it. A line that lies whole in the piece is not copied, and not
// asked whether it is UTF-8 where its text is known.
fn answer_ending(
    alloc: Global,
    ending: &[u8],
    text: Option<&str>,
    line: &mut Vec<u8>,
    held: &mut Held,
    out: &mut Vec<u8>,
) -> Result<(), AllocError>
    requires sound { IsSound held.old }
    requires same { IfSome text (λ t. t.now ≡ ending.now) }
    ensures ok { OnOk result ((made : List ℕ) × (out.new.items ≡ out.old.items ++ made)
        × IsAnswer (line.old.items ++ ending.now) made) }
    ensures cleared { OnOk result (line.new.items ≡ []) }
    ensures err { OnErr result (out.new.items ≡ out.old.items) }
    ensures sound { IsSound held.new }
{
    if line.is_empty() {
        return match text {
            Some(text) => answer_text(alloc, text, held, out),
            None => answer_with(alloc, ending, held, out),
        };
    }
    line.extend_from_slice(ending)?;
    answer_with(alloc, line, held, out)?;
    line.clear();
    Ok(())
}

// Answers the lines that end in a piece of the input. The answers are whole before the first is written.
fn serve_piece<K: Sink>(
    alloc: Global,
    piece: &[u8],
    line: &mut Vec<u8>,
    held: &mut Held,
    out: &mut Vec<u8>,
    sink: &mut K,
) -> Result<(), RunFault>
    requires sound { IsSound held.old }
    requires begun { last_part line.old.items ≡ line.old.items }
    requires sink_works { K.has_failed sink.old ≡ false }
    ensures written { (written : List ℕ)
        × Appends (K.bytes_taken sink.old) (K.bytes_taken sink.new) written
        × Serves result (ended_lines (line.old.items ++ piece.now)) (line.old.items ++ piece.now)
        written }
    ensures begun { OnOk result (line.new.items ≡ last_part (line.old.items ++ piece.now)) }
    ensures write_fault { IsErrOf result RunFault.Write ↔ (K.has_failed sink.new ≡ true) }
    ensures sound { IsSound held.new }
{
    out.clear();
    let answered = answer_piece(alloc, piece, line, held, out);
    if sink.write_all(out).is_err() {
        return Err(RunFault::Write);
    }
    answered?;
    Ok(())
}

// Answers what follows the last line feed, unless it is empty.
fn serve_last<K: Sink>(
    alloc: Global,
    line: &[u8],
    held: &mut Held,
    out: &mut Vec<u8>,
    sink: &mut K,
) -> Result<(), RunFault>
    requires sound { IsSound held.old }
    requires begun { last_part line.now ≡ line.now }
    requires sink_works { K.has_failed sink.old ≡ false }
    ensures written { (written : List ℕ)
        × Appends (K.bytes_taken sink.old) (K.bytes_taken sink.new) written
        × Serves result (lines line.now) line.now written }
    ensures write_fault { IsErrOf result RunFault.Write ↔ (K.has_failed sink.new ≡ true) }
    ensures sound { IsSound held.new }
{
    if line.is_empty() {
        return Ok(());
    }
    out.clear();
    answer_with(alloc, line, held, out)?;
    if sink.write_all(out).is_err() {
        return Err(RunFault::Write);
    }
    Ok(())
}

// Room for a piece. That it is `PIECE_LEN` long is left unsaid: a proof that knows it may write out the list.
fn piece_room(alloc: Global) -> Result<Vec<u8>, AllocError>
    ensures { IfOk result (λ room. 0 < vec_len room) }
{
    vec![in alloc; 0u8; PIECE_LEN]
}

/// Answers the requests of a source on a sink, until the source is at its end.
///
/// Each line, ended by a line feed or the last one without, is a request: a JSON object with the members `draft` (4, 6,
/// 7, 201909 or 202012), `schema` (an object) and `instance`, and at will `validate_formats`, `ignore_unknown_formats`
/// and `fold` (true or false). Its answer is lines: `bad request` where the line is not such an object; `refused L: T`
/// where the schema object is refused at the location L, with the text T; where `fold` is true, `fold true` or `fold
/// false`, as `folds_to_false` says; `error L: T` for each error, or `valid`, and then `note L: V` for each note, with
/// its value V as compact JSON; and at last `end`. No check is registered, and a pattern that is not literal is
/// refused.
///
/// `Read` and `Write` come exactly where the source and the sink have failed, `Memory` where it is out of memory,
/// `TooLong` after 2^64 - 1 reads that each gave bytes. Each answer is made whole before its first byte is written.
/// What is written after `Read`, `Memory` and `TooLong` are whole answers, to lines whose line feed was read.
///
/// The run holds the longest line so far, a piece of 64 KiB, the answers to the lines that end in one piece, and
/// what one request takes: a byte for each byte of the longest line, its schema object, and its answer. Where lines
/// share a schema object whose text has at most 64 KiB, it holds this object too, with its text twice, its tokens
/// and what it is compiled to. Measured on the program, in bytes of memory at the peak for each byte of a long
/// line: 2 where it is no JSON, and where its instance is valid, whatever it is, and 6 where that is a text with
/// four errors.
pub fn run<S: Source, K: Sink>(alloc: Global, source: &mut S, sink: &mut K) -> Result<(), RunFault>
    requires source_works { S.has_failed source.old ≡ false }
    requires sink_works { K.has_failed sink.old ≡ false }
    // What was read, and what was written for it.
    ensures written { (read : List ℕ) × (written : List ℕ)
        × Consumes (S.bytes_left source.old) (S.bytes_left source.new) read
        × Appends (K.bytes_taken sink.old) (K.bytes_taken sink.new) written
        × IsOutcome result read written }
    ensures end { OnOk result (IsAtEnd (S.bytes_left source.new)) }
    // A failure of a device is never passed over, and no other fault stands for it.
    ensures read_fault { IsErrOf result RunFault.Read ↔ (S.has_failed source.new ≡ true) }
    ensures write_fault { IsErrOf result RunFault.Write ↔ (K.has_failed sink.new ≡ true) }
{
    run_within(alloc, None, source, sink)?;
    Ok(())
}

/// As `run`, but no line may be longer than so many bytes, without its line feed.
///
/// `LongLine` comes where one is, as soon as that byte of it is read which is one too many: the answers to the lines
/// before it were written, and the source was read a piece of 64 KiB past it at most. So the run holds, for its input,
/// no more than such a line and a piece. The other faults are those of `run`.
pub fn run_bounded<S: Source, K: Sink>(
    alloc: Global,
    longest: usize,
    source: &mut S,
    sink: &mut K,
) -> Result<(), BoundedRunFault>
    requires source_works { S.has_failed source.old ≡ false }
    requires sink_works { K.has_failed sink.old ≡ false }
    ensures written { (read : List ℕ) × (written : List ℕ)
        × Consumes (S.bytes_left source.old) (S.bytes_left source.new) read
        × Appends (K.bytes_taken sink.old) (K.bytes_taken sink.new) written
        × IsBoundedOutcome longest result read written }
    ensures end { OnOk result (IsAtEnd (S.bytes_left source.new)) }
    ensures read_fault { IsErrOf result (BoundedRunFault.Run RunFault.Read)
        ↔ (S.has_failed source.new ≡ true) }
    ensures write_fault { IsErrOf result (BoundedRunFault.Run RunFault.Write)
        ↔ (K.has_failed sink.new ≡ true) }
{
    match run_within(alloc, Some(longest), source, sink) {
        Ok(Ending::AtEnd) => Ok(()),
        Ok(Ending::AtLongLine) => Err(BoundedRunFault::LongLine(longest)),
        Err(fault) => Err(BoundedRunFault::Run(fault)),
    }
}

// Where a run without a fault has ended.
#[derive(Clone, Copy)]
enum Ending {
    AtEnd,
    // Before the byte by which a line is longer than the bound.
    AtLongLine,
}

// How many bytes of a piece come before the first by which a line is longer than the bound. The first line of the
// piece has begun before it.
fn fitting_front(bound: Option<usize>, begun: &[u8], piece: &[u8]) -> usize
    requires { IfSome bound (λ longest. length begun.now ≤ longest) }
    ensures taken { (start : List ℕ) → begun.now ≡ last_part start → HasShortLines bound start
        → IsTaken bound (start ++ piece.now) (start ++ take result piece.now) }
    ensures within { result ≤ length piece.now }
{
    let Some(longest) = bound else {
        return piece.len();
    };
    let mut at = 0;
    let mut room = longest - begun.len();
    while let Some(offset) = memchr(b'\n', &piece[at..]) {
        if room < offset {
            return at + room;
        }
        at += offset + 1;
        room = longest;
    }
    if room < piece.len() - at {
        at + room
    } else {
        piece.len()
    }
}

// A run whose lines may have a bound.
fn run_within<S: Source, K: Sink>(
    alloc: Global,
    bound: Option<usize>,
    source: &mut S,
    sink: &mut K,
) -> Result<Ending, RunFault>
    requires source_works { S.has_failed source.old ≡ false }
    requires sink_works { K.has_failed sink.old ≡ false }
    ensures written { (read : List ℕ) × (written : List ℕ)
        × Consumes (S.bytes_left source.old) (S.bytes_left source.new) read
        × Appends (K.bytes_taken sink.old) (K.bytes_taken sink.new) written
        × IsOutcomeWithin bound result read written }
    ensures end { IfOk result (λ ending. ending ≡ AtEnd → IsAtEnd (S.bytes_left source.new)) }
    ensures read_fault { IsErrOf result RunFault.Read ↔ (S.has_failed source.new ≡ true) }
    ensures write_fault { IsErrOf result RunFault.Write ↔ (K.has_failed sink.new ≡ true) }
{
    let mut held = Held::new(alloc, LONGEST_CACHED);
    run_lines(alloc, bound, &mut held, source, sink)
}

// The same with what is held from line to line.
fn run_lines<S: Source, K: Sink>(
    alloc: Global,
    bound: Option<usize>,
    held: &mut Held,
    source: &mut S,
    sink: &mut K,
) -> Result<Ending, RunFault>
    requires sound { IsSound held.old }
    requires source_works { S.has_failed source.old ≡ false }
    requires sink_works { K.has_failed sink.old ≡ false }
    ensures written { (read : List ℕ) × (written : List ℕ)
        × Consumes (S.bytes_left source.old) (S.bytes_left source.new) read
        × Appends (K.bytes_taken sink.old) (K.bytes_taken sink.new) written
        × IsOutcomeWithin bound result read written }
    ensures end { IfOk result (λ ending. ending ≡ AtEnd → IsAtEnd (S.bytes_left source.new)) }
    ensures read_fault { IsErrOf result RunFault.Read ↔ (S.has_failed source.new ≡ true) }
    ensures write_fault { IsErrOf result RunFault.Write ↔ (K.has_failed sink.new ≡ true) }
{
    let mut piece = piece_room(alloc)?;
    let mut line = Vec::new(alloc);
    let mut out = Vec::new(alloc);
    for turn in 0..u64::MAX {
        let Ok(count) = source.read(&mut piece) else {
            return Err(RunFault::Read);
        };
        if count == 0 {
            serve_last(alloc, &line, held, &mut out, sink)?;
            return Ok(Ending::AtEnd);
        }
        let fitting = fitting_front(bound, &line, &piece[..count]);
        serve_piece(alloc, &piece[..fitting], &mut line, held, &mut out, sink)?;
        if fitting < count {
            return Ok(Ending::AtLongLine);
        }
    }
    Err(RunFault::TooLong)
}
