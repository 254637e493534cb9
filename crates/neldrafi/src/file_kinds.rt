//! What files are.

use neldrafi_csv::Delimiter;

/// What a file is.
#[derive(Clone, Copy, Debug, PartialEq, Eq)]
pub(crate) enum FileKind {
    /// A JSON document.
    Json,
    /// A JSON document on each line.
    JsonLines,
    /// Records whose fields are separated by commas (RFC 4180), each an object.
    Csv,
    /// The same with tabs in place of commas.
    Tsv,
    /// A string on each line.
    Text,
}

/// Their names on the command line.
pub(crate) const FILE_KIND_NAMES: &[&str] = &["json", "jsonl", "csv", "tsv", "text"];

// The ends of names that tell what a file is.
const ENDINGS: &[(&str, FileKind)] = &[
    (".jsonl", FileKind::JsonLines),
    (".ndjson", FileKind::JsonLines),
    (".csv", FileKind::Csv),
    (".tsv", FileKind::Tsv),
    (".txt", FileKind::Text),
];

impl FileKind {
    /// What a name on the command line stands for.
    pub(crate) fn named(name: &str) -> Option<FileKind> {
        match name {
            "json" => Some(FileKind::Json),
            "jsonl" => Some(FileKind::JsonLines),
            "csv" => Some(FileKind::Csv),
            "tsv" => Some(FileKind::Tsv),
            "text" => Some(FileKind::Text),
            _ => None,
        }
    }

    /// What a file of this name is. It is a JSON document if its name does not tell.
    pub(crate) fn of_name(name: &str) -> FileKind {
        for (ending, kind) in ENDINGS {
            if name.ends_with(ending) {
                return *kind;
            }
        }
        FileKind::Json
    }

    /// The character that separates the fields of its records.
    pub(crate) fn delimiter(self) -> Delimiter {
        match self {
            FileKind::Tsv => Delimiter::new(b'\t').unwrap_or(Delimiter::comma()),
            _ => Delimiter::comma(),
        }
    }
}
