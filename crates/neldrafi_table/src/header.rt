//! The names of the columns of a file.

ghost use Rattle.std.specs.Prelude.{◌≡◌, [], Some, None, IfErr, IfOk, IfSome, OnOk};
ghost use Rattle.std.specs.BTreeMap.{get_by};
ghost use Rattle.csv.specs.Records.{fields_of};
ghost use Rattle.neldrafi_csv.specs.Reading.{values_of};
ghost use Rattle.neldrafi_csv.specs.Records.{IsMisplaced};
ghost use Rattle.neldrafi_table.specs.Headers.{AreDistinct, AreNames, IsDuplicate, IsWhyNoNames, numbers};

use crate::faults::RowFault;
use csv::StringRecord;
use itoa::Buffer;
use neldrafi_csv::RecordReader;
use std::alloc::{AllocError, Global};
use std::collections::BTreeMap;
use std::io::Read;
use std::str;

/// The numbers of so many columns, from 1. The only error is out of memory.
#[tactic(auto, using(crate::proofs::HeaderLemmas::numbers_none, crate::proofs::HeaderLemmas::numbers_next))]
pub(crate) fn numbered(alloc: Global, count: usize) -> Result<StringRecord, AllocError>
    ensures { IfOk result (λ names. fields_of names ≡ numbers count) }
{
    let mut names = StringRecord::new(alloc);
    let mut digits = Buffer::new();
    for at in 0..count {
        names.push_field(digits.format(at + 1))?;
    }
    Ok(names)
}

/// The fields of a record as names, by the number of its first field with a misplaced quote, or why they are none. The
/// only error is out of memory.
pub(crate) fn names_of<R: Read>(
    alloc: Global,
    reader: &RecordReader<R>,
    misplaced: Option<usize>,
) -> Result<Result<StringRecord, RowFault>, AllocError>
    ensures names { IsMisplaced (values_of reader.now) misplaced → IfOk result (λ r. IfOk r
        (λ names. AreNames (values_of reader.now) (fields_of names))) }
    ensures why { IsMisplaced (values_of reader.now) misplaced → IfOk result (λ r. IfErr r
        (IsWhyNoNames (values_of reader.now))) }
{
    if let Some(field) = misplaced {
        return Ok(Err(RowFault::MisplacedQuote(field)));
    }
    let mut names = StringRecord::new(alloc);
    for at in 0..reader.len() {
        let bytes = reader.field(at).unwrap_or(b"");
        let Ok(name) = str::from_utf8(bytes) else {
            return Ok(Err(RowFault::NotUtf8(at + 1)));
        };
        names.push_field(name)?;
    }
    Ok(Ok(names))
}

/// A name that two columns have, or `None` if no two have the same. The only error is out of memory.
pub(crate) fn duplicate(alloc: Global, names: &StringRecord) -> Result<Option<&str>, AllocError>
    ensures some { IfOk result (λ o. IfSome o (λ name. IsDuplicate (fields_of names.now) name.now)) }
    ensures none { IfOk result (λ o. o ≡ None → AreDistinct (fields_of names.now)) }
{
    let mut places: BTreeMap<&str, usize> = BTreeMap::new(alloc);
    for at in 0..names.len() {
        let Some(name) = names.get(at) else {
            return Ok(None);
        };
        if places.insert(name, at)?.is_some() {
            return Ok(Some(name));
        }
    }
    Ok(None)
}
