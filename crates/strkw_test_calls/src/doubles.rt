//! What a caller hands in: a check, a codec, and a builder with its engines, each with a script for its answers.
ghost use Rattle.std.specs.Prelude.{◌≡◌, ◌==◌, ◌%◌, ◌++◌, ◌&&◌, IfOk, length, find, option_map, unwrap_or, if◌then◌else◌};
ghost use Rattle.std.specs.List.{list_any};
ghost use Rattle.std.specs.Str.{bytes_eq, chars, encode_utf8_all};
ghost use Rattle.std.specs.String.{string_bytes};

use std::alloc::{AllocError, Global};
use std::cell::Cell;
use strkw_coding::DecodeError;
use strkw_keywords::{ContentCodec, Format, MediaTypeCheck};
use strkw_pattern::{BuildRefusal, EngineBuilder, EngineFailure, Outcome, RegexEngine};
use strkw_report::{Node, char_count};

/// Admits the texts of even length, or all, or none.
#[derive(Clone, Copy)]
pub struct ScriptedCheck {
    pub by_length: bool,
    pub admits: bool,
    pub has_memory: bool,
}

impl ScriptedCheck {
    fn says(&self, text: &str) -> Result<bool, AllocError>
        ensures { IfOk result (λ b. b ≡ (if self.now.by_length then length (chars text.now) % 2 == 0
            else self.now.admits)) }
    {
        if !self.has_memory {
            return Err(AllocError);
        }
        if self.by_length {
            Ok(char_count(text) % 2 == 0)
        } else {
            Ok(self.admits)
        }
    }
}

impl Format for ScriptedCheck {
    ghost admits = { λ check text. if check.by_length then length text % 2 == 0 else check.admits };

    fn is_valid(&self, _alloc: Global, value: &str) -> Result<bool, AllocError> {
        self.says(value)
    }
}

impl MediaTypeCheck for ScriptedCheck {
    ghost accepts = { λ check text. if check.by_length then length text % 2 == 0
        else check.admits };

    fn accepts(&self, _alloc: Global, value: &str) -> Result<bool, AllocError> {
        self.says(value)
    }
}

/// The script of a check, by its name: `even`, `all`, `none`, or one that is out of memory.
pub fn check_named(name: &str) -> ScriptedCheck {
    ScriptedCheck {
        by_length: name == "even",
        admits: name == "all",
        has_memory: name != "out of memory",
    }
}

/// Takes each text for an encoding or none, and decodes each to itself behind another text, or to bytes that are no
/// text, or not at all.
#[derive(Clone, Copy)]
pub struct ScriptedCodec {
    pub encodes: bool,
    pub is_plain: bool,
    pub front: &'static str,
    pub is_bytes: bool,
    pub has_memory: bool,
}

impl ContentCodec for ScriptedCodec {
    ghost use Rattle.strkw_keywords.specs.Meanings.{no_encoding, no_text, decoded};

    ghost is_encoding = { λ codec _. codec.encodes };

    ghost decoding = { λ codec text. if codec.is_plain
        then decoded (codec.front.now ++ encode_utf8_all text)
        else (if codec.is_bytes then no_text else no_encoding) };

    fn is_encoded(&self, _alloc: Global, _value: &str) -> Result<bool, AllocError> {
        if !self.has_memory {
            return Err(AllocError);
        }
        Ok(self.encodes)
    }

    fn decode(&self, alloc: Global, value: &str) -> Result<Option<String>, DecodeError> {
        if !self.has_memory {
            return Err(DecodeError::Memory);
        }
        if self.is_plain {
            let mut text = String::from_str(alloc, self.front)?;
            text.push_str(value)?;
            return Ok(Some(text));
        }
        if self.is_bytes {
            Err(DecodeError::NotUtf8)
        } else {
            Ok(None)
        }
    }
}

/// The script of a codec, by its name: `odd` takes each text and decodes none, `bytes` takes none and decodes each to
/// what is no text, `plain` decodes each text to itself, `behind one` to itself behind a `1`; or one that is out of
/// memory.
pub fn codec_named(name: &str) -> ScriptedCodec {
    ScriptedCodec {
        encodes: name != "bytes",
        is_plain: name == "plain" || name == "behind one",
        front: if name == "behind one" { "1" } else { "" },
        is_bytes: name == "bytes",
        has_memory: name != "out of memory",
    }
}

/// What a pattern comes to on a text.
#[derive(Drop)]
pub struct Row<'a> {
    pub pattern: &'a str,
    pub text: &'a str,
    pub outcome: Outcome,
}

/// Takes the patterns of its table, and counts the patterns that it is shown.
#[derive(Drop)]
pub struct ScriptedBuilder<'a> {
    pub rows: &'a [Row<'a>],
    pub has_memory: bool,
    pub engines_have_memory: bool,
    pub calls: Cell<u32>,
}

/// A pattern of the table. A text without a row does not match.
#[derive(Drop)]
pub struct ScriptedEngine<'a> {
    rows: &'a [Row<'a>],
    pattern: String,
    has_memory: bool,
}

fn has_pattern(rows: &[Row<'_>], pattern: &str) -> bool
    ensures { result ≡ list_any (λ r. bytes_eq r.pattern.now pattern.now) rows.now }
{
    rows.iter().any(|row| row.pattern == pattern)
}

fn outcome_in(rows: &[Row<'_>], pattern: &str, text: &str) -> Outcome
    ensures { result ≡ unwrap_or (option_map (λ r. r.outcome)
        (find (λ r. bytes_eq r.pattern.now pattern.now
        && bytes_eq r.text.now text.now) rows.now)) Outcome.NoMatch }
{
    match rows
        .iter()
        .find(|row| row.pattern == pattern && row.text == text)
    {
        Some(row) => row.outcome,
        None => Outcome::NoMatch,
    }
}

impl<'a> RegexEngine for ScriptedEngine<'a> {
    ghost use Rattle.strkw_pattern.specs.declared.engine.Outcome.{Outcome};

    ghost outcome = { λ e t. unwrap_or
        (option_map (λ r. r.outcome) (find (λ r. bytes_eq r.pattern.now (string_bytes e.pattern)
        && bytes_eq r.text.now (encode_utf8_all t)) e.rows.now)) Outcome.NoMatch };

    fn is_match(&self, _alloc: Global, text: &str) -> Result<bool, EngineFailure> {
        if !self.has_memory {
            return Err(EngineFailure::Memory);
        }
        match outcome_in(self.rows, self.pattern.as_str(), text) {
            Outcome::Match => Ok(true),
            Outcome::NoMatch => Ok(false),
            Outcome::BacktrackLimit => Err(EngineFailure::BacktrackLimit),
            Outcome::Failed => Err(EngineFailure::Failed),
        }
    }
}

impl<'a> EngineBuilder for ScriptedBuilder<'a> {
    ghost use Rattle.strkw_pattern.specs.declared.engine.Outcome.{Outcome};

    type Engine = ScriptedEngine<'a>;

    ghost takes = { λ b p. list_any (λ r. bytes_eq r.pattern.now (encode_utf8_all p)) b.rows.now };

    ghost outcome = { λ b p t. unwrap_or
        (option_map (λ r. r.outcome) (find (λ r. bytes_eq r.pattern.now (encode_utf8_all p)
        && bytes_eq r.text.now (encode_utf8_all t)) b.rows.now)) Outcome.NoMatch };

    fn build(&self, alloc: Global, pattern: &str) -> Result<ScriptedEngine<'a>, BuildRefusal> {
        self.calls.set(self.calls.get().wrapping_add(1));
        if !self.has_memory {
            return Err(BuildRefusal::Memory);
        }
        if !has_pattern(self.rows, pattern) {
            return Err(BuildRefusal::Pattern);
        }
        match String::from_str(alloc, pattern) {
            Ok(pattern) => Ok(ScriptedEngine {
                rows: self.rows,
                pattern,
                has_memory: self.engines_have_memory,
            }),
            Err(AllocError) => Err(BuildRefusal::Memory),
        }
    }
}

/// What a match comes to, by its name.
pub fn outcome_named(name: &str) -> Outcome {
    match name {
        "match" => Outcome::Match,
        "backtracking" => Outcome::BacktrackLimit,
        "failed" => Outcome::Failed,
        _ => Outcome::NoMatch,
    }
}

/// An instance in another representation than a JSON value: a name, or none.
#[derive(Drop)]
pub struct Name<'a> {
    pub text: Option<&'a str>,
}

impl<'a> Node for Name<'a> {
    ghost text = { λ name. option_map (λ s. s.now) name.text };

    fn as_text(&self) -> Option<&str> {
        self.text
    }

    fn text_length(&self) -> Option<u64> {
        match self.text {
            Some(text) => Some(char_count(text)),
            None => None,
        }
    }
}
