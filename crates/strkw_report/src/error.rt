ghost use Rattle.std.specs.Prelude.{◌≡◌, IfOk, ◌++◌, codes, option_map, string_bytes};
ghost use Rattle.strkw_report.specs.Paths.{path_below};
ghost use Rattle.strkw_report.specs.Kinds.{report_at};
ghost use Rattle.strkw_report.specs.KindOf.{kind_of};
ghost use Rattle.strkw_report.specs.Standings.{standing_of};

use crate::failure::Failure;
use crate::location::Location;
use serde_json::Value;
use std::alloc::{AllocError, Global};
use std::marker::Model;

/// What a text failed at.
#[derive(Debug, Drop)]
pub enum ErrorKind {
    /// It has fewer characters than `minLength` asks for.
    MinLength { limit: u64 },
    /// It has more characters than `maxLength` admits.
    MaxLength { limit: u64 },
    /// `pattern` does not match it.
    Pattern { pattern: String },
    /// The engine of the pattern gave up on it at its limit of backtracking.
    BacktrackLimitExceeded { pattern: String },
    /// The engine of the pattern failed on it.
    RegexEngineFailure { pattern: String },
    /// It is not of the format.
    Format { format: String },
    /// It is no encoding of `contentEncoding`.
    ContentEncoding { name: String },
    /// It, or what it encodes, is not of `contentMediaType`.
    ContentMediaType { name: String },
    /// What it encodes is not UTF-8.
    FromUtf8,
}

/// An error that one keyword of a schema object reports on an instance. Contracts see it as a record of what it
/// says, with no memory or capacity.
#[derive(Debug, Drop)]
pub struct ValidationError {
    /// What the instance failed at.
    pub kind: ErrorKind,
    /// The instance: its text, as a JSON string.
    pub instance: Value,
    /// The place of the keyword in its document.
    pub schema_path: Location,
    /// The place of the keyword on the way that evaluation took.
    pub evaluation_path: Location,
    /// The place of the instance.
    pub instance_path: Location,
    /// The absolute location of the keyword, where its document has one: the prefix, `#`, and the schema path.
    pub absolute: Option<String>,
}

/// Where a schema object and an instance stand on the caller's way.
#[derive(Drop)]
pub struct Site {
    /// The place of the schema object on the way that evaluation took.
    pub evaluation: Location,
    /// The place of the instance.
    pub instance: Location,
}

impl Model for ValidationError {
    ghost use Rattle.strkw_report.specs.Kinds.{Report};

    ghost Value = { Report };

    ghost use Rattle.strkw_report.specs.Reports.{report_of, IsOfText};

    ghost view = { report_of };

    ghost invariant = { IsOfText };
}

impl ErrorKind {
    ghost use Rattle.strkw_report.specs.Failures.{kind_failed};

    /// The same, by names that are borrowed.
    pub fn failure(&self) -> Failure<'_>
        ensures { kind_failed result ≡ kind_of self.now }
    {
        match self {
            ErrorKind::MinLength { limit } => Failure::MinLength(*limit),
            ErrorKind::MaxLength { limit } => Failure::MaxLength(*limit),
            ErrorKind::Pattern { pattern } => Failure::Pattern(pattern),
            ErrorKind::BacktrackLimitExceeded { pattern } => Failure::BacktrackLimitExceeded(
                pattern,
            ),
            ErrorKind::RegexEngineFailure { pattern } => Failure::RegexEngineFailure(pattern),
            ErrorKind::Format { format } => Failure::Format(format),
            ErrorKind::ContentEncoding { name } => Failure::ContentEncoding(name),
            ErrorKind::ContentMediaType { name } => Failure::ContentMediaType(name),
            ErrorKind::FromUtf8 => Failure::FromUtf8,
        }
    }
}

impl ValidationError {
    ghost use Rattle.strkw_report.specs.Kinds.{text_of};

    /// What the error says, with the instance as compact JSON text. It is refused only where it is out of memory.
    pub fn text(&self, alloc: Global) -> Result<String, AllocError>
        ensures { IfOk result (λ s. string_bytes s ≡ text_of self.now) }
    {
        self.kind.failure().text(alloc, self.instance_text())
    }

    /// The text that the instance is.
    pub(crate) fn instance_text(&self) -> &str
        ensures { result.now ≡ self.now.instance }
    {
        self.instance.as_str().unwrap_or_default()
    }
}

/// The error of this kind that a keyword reports on a text, the schema object being at `location` in its document,
/// whose absolute prefix is `prefix`. It is refused only where it is out of memory.
pub fn error_at(
    alloc: Global,
    kind: ErrorKind,
    keyword: &str,
    text: &str,
    location: &Location,
    prefix: &Option<String>,
    site: &Site,
) -> Result<ValidationError, AllocError>
    ensures { IfOk result (λ e. e
        ≡ report_at (standing_of location.now prefix.now site.now) keyword.now (kind_of kind)
        text.now) }
{
    let instance = Value::try_from_str(alloc, text)?;
    let places = places_at(alloc, keyword, location, prefix, site)?;
    Ok(ValidationError {
        kind,
        instance,
        schema_path: places.schema,
        evaluation_path: places.evaluation,
        instance_path: places.instance,
        absolute: places.absolute,
    })
}

// Where a keyword and an instance stand.
#[derive(Drop)]
struct Places {
    schema: Location,
    evaluation: Location,
    instance: Location,
    absolute: Option<String>,
}

fn places_at(
    alloc: Global,
    keyword: &str,
    location: &Location,
    prefix: &Option<String>,
    site: &Site,
) -> Result<Places, AllocError>
    ensures schema { IfOk result (λ p. p.schema ≡ path_below location.now keyword.now) }
    ensures evaluation { IfOk result (λ p.
        p.evaluation ≡ path_below site.now.evaluation keyword.now) }
    ensures instance { IfOk result (λ p. p.instance ≡ site.now.instance) }
    ensures absolute { IfOk result (λ p. option_map string_bytes p.absolute ≡ option_map
        (λ before. before ++ codes "#" ++ path_below location.now keyword.now)
        (option_map string_bytes prefix.now)) }
{
    let schema = location.join(keyword)?;
    let absolute = match prefix {
        Some(prefix) => Some(absolute_location(alloc, prefix, &schema)?),
        None => None,
    };
    Ok(Places {
        schema,
        evaluation: site.evaluation.join(keyword)?,
        instance: site.instance.clone()?,
        absolute,
    })
}

fn absolute_location(
    alloc: Global,
    prefix: &str,
    schema_path: &Location,
) -> Result<String, AllocError>
    ensures { IfOk result (λ s. string_bytes s ≡ prefix.now ++ codes "#" ++ schema_path.now) }
{
    let path = schema_path.as_str();
    format!(in alloc; "{prefix}#{path}")
}
