ghost use Rattle.std.specs.Prelude.{◌≡◌, ◌++◌, ℕ, List, false, IfOk, OnErr, OnOk, string_bytes};
ghost use Rattle.strkw_report.specs.Refusals.{reason_of, prints_float, explanation, value_text, advice};
ghost use Rattle.strkw_report.specs.Wordings.{wording_text};

use crate::location::Location;
use crate::wording::{Rest, Wording};
use serde_json::Value;
use std::alloc::{AllocError, Global};

/// Why a schema object is refused.
#[derive(Debug, Drop)]
pub enum CompileErrorKind {
    /// A value that is to be a string is another one.
    NotString { value: Value },
    /// A limit is no whole number from 0 to 18446744073709551615.
    Size,
    /// The format is not known, and unknown formats are not ignored; `by_dialect`, since the dialect asserts formats.
    UnknownFormat { name: String, by_dialect: bool },
    /// The builder of engines does not take the pattern.
    Regex { pattern: String },
    /// A value that would be printed or kept holds, at any depth, a number that is no whole number of 64 bits.
    FractionalNumber,
    /// Out of memory.
    Memory,
}

/// The refusal of a schema object.
#[derive(Debug, Drop)]
pub struct CompileError {
    /// Why it is refused.
    pub kind: CompileErrorKind,
    /// The place of the keyword that is refused, or the root where it is out of memory.
    pub location: Location,
}

impl CompileError {
    /// What the refusal says, with a refused value or pattern as compact JSON text. The text is promised where each
    /// number in that value is a whole number of 64 bits; `holds_fraction` is the test. The call is refused only
    /// for being out of memory.
    pub fn text(&self, alloc: Global) -> Result<String, AllocError>
        ensures { IfOk result (λ s. prints_float (reason_of self.now.kind) ≡ false
            → string_bytes s ≡ explanation (reason_of self.now.kind)) }
    {
        self.kind.text(alloc)
    }

    /// Appends what `text` gives. Out of memory, a beginning of it may have been appended.
    pub fn push_text(&self, alloc: Global, out: &mut Vec<u8>) -> Result<(), AllocError>
        ensures ok { OnOk result (prints_float (reason_of self.now.kind) ≡ false
            → out.new.items ≡ out.old.items ++ explanation (reason_of self.now.kind)) }
        ensures err { OnErr result ((more : List ℕ) × (out.new.items ≡ out.old.items ++ more)) }
    {
        let value = self.kind.value_text(alloc)?;
        out.extend_from_slice(value.as_bytes())?;
        self.kind.wording().push(out)
    }
}

impl CompileErrorKind {
    fn text(&self, alloc: Global) -> Result<String, AllocError>
        ensures { IfOk result (λ s. prints_float (reason_of self.now) ≡ false
            → string_bytes s ≡ explanation (reason_of self.now)) }
    {
        let value = self.value_text(alloc)?;
        let wording = self.wording();
        format!(in alloc; "{value}{wording}")
    }

    // The refused value that the text begins with, as compact JSON text, and nothing where it begins with none.
    fn value_text(&self, alloc: Global) -> Result<String, AllocError>
        ensures { IfOk result (λ s. prints_float (reason_of self.now) ≡ false
            → string_bytes s ≡ value_text (reason_of self.now)) }
    {
        match self {
            CompileErrorKind::NotString { value } => value.to_string(alloc),
            _ => Ok(String::new(alloc)),
        }
    }

    /// What the text says behind the refused value, where there is one. These are all words of refusals.
    pub(crate) fn wording(&self) -> Wording<'_, '_>
        ensures { value_text (reason_of self.now) ++ wording_text result
            ≡ explanation (reason_of self.now) }
    {
        match self {
            CompileErrorKind::NotString { .. } => Wording::name_between(
                " is not of type \"string\"",
                "",
                "",
            ),
            CompileErrorKind::Size => {
                Wording::name_between(
                    "the limit is not a non-negative whole number of 64 bits",
                    "",
                    "",
                )
            }
            CompileErrorKind::UnknownFormat { name, by_dialect } => {
                Wording::name_between("Unknown format: '", name, advice(*by_dialect))
            }
            CompileErrorKind::Regex { pattern } => {
                Wording::text_before(pattern, " is not a \"regex\"", Rest::Name("", ""))
            }
            CompileErrorKind::FractionalNumber => {
                Wording::name_between(
                    "the value holds a number that is no whole number of 64 bits",
                    "",
                    "",
                )
            }
            CompileErrorKind::Memory => Wording::name_between("out of memory", "", ""),
        }
    }
}

// What stands behind the name of an unknown format.
fn advice(by_dialect: bool) -> &'static str
    ensures { result.now ≡ advice by_dialect }
{
    if by_dialect {
        "'. The meta-schema asserts formats, so unrecognized ones cannot be ignored. Register a check for it or disable format validation"
    } else {
        "'. Adjust configuration to ignore unrecognized formats"
    }
}
