//! The columns that a table is made with: for each a character that stands for all of it.

ghost use Rattle.std.specs.Prelude.{◌≡◌, ◌≤◌, ◌<◌, ℕ, length, get_or, IfOk, IsTrue};
ghost use Rattle.strkw_charset.specs.machine.CharClasses.{cell_of as spec_cell_of};
ghost use Rattle.strkw_ecma.specs.machine.Told.{Tells};
ghost use Rattle.strkw_regex_search.specs.machine.Machine.{pattern_of};

use std::alloc::{AllocError, Global};
use strkw_charset::char_classes::{CharClasses, MOST_CLASSES, tells_sets};
use strkw_charset::pages::{Pages, cell_of, pages_of};
use strkw_charset::sets::WORD_CHARACTERS;
use strkw_charset::tree::CharSet;
use strkw_regex_search::program::Program;

// Behind the characters that are one byte.
const ASCII_END: u32 = 0x80;

/// How many sets the classes of a table may have together. Each is asked about each character that may stand for a
/// column.
const MOST_SETS: usize = 512;

/// The columns of a pattern, and for each of them a character that has it.
#[derive(Drop)]
pub(crate) struct Representatives {
    pub(crate) columns: CharClasses,
    pub(crate) samples: Vec<char>,
}

// One more class, where none has the same sets.
fn add_class(
    alloc: Global,
    classes: &mut Vec<Vec<CharSet>>,
    sets: &[CharSet],
) -> Result<(), AllocError> {
    if classes.len() <= MOST_CLASSES && !tells_sets(classes, sets) {
        classes.push(Vec::from_slice(alloc, sets)?)?;
    }
    Ok(())
}

// The classes of a pattern, and where it asks for word characters, that of these; up to one more than may be.
fn classes_of(alloc: Global, program: &Program) -> Result<Vec<Vec<CharSet>>, AllocError> {
    let mut classes = Vec::new(alloc);
    for class in &program.code.classes {
        add_class(alloc, &mut classes, &class.sets)?;
    }
    if program.has_boundary {
        add_class(alloc, &mut classes, &WORD_CHARACTERS)?;
    }
    Ok(classes)
}

fn set_count(classes: &[Vec<CharSet>]) -> usize {
    let mut count = 0usize;
    for class in classes {
        count = count.saturating_add(class.len());
    }
    count
}

// The columns of the characters that are one byte.
fn ascii_of(alloc: Global, pages: &Pages) -> Result<Vec<u8>, AllocError>
    requires all { length pages.now.pages.items ≡ 17408 }
    requires within { (k : ℕ) → k < 17408
        → get_or pages.now.pages.items k 0 < length pages.now.cells.items }
    ensures few { IfOk result (λ ascii. length ascii.items ≤ 128) }
    ensures right { IfOk result (λ ascii. (c : ℕ) → c < length ascii.items
        → get_or ascii.items c 0 ≡ spec_cell_of pages.now.pages.items pages.now.cells.items c) }
{
    let mut ascii = Vec::new(alloc);
    for c in 0..ASCII_END {
        ascii.push(cell_of(&pages.pages, &pages.cells, c))?;
    }
    Ok(ascii)
}

/// The columns of a pattern, where its classes and they are few enough.
#[tactic(auto, using(strkw_charset::proofs::Paged::ascii_right))]
pub(crate) fn sampled_of(
    alloc: Global,
    program: &Program,
) -> Result<Option<Representatives>, AllocError> {
    let classes = classes_of(alloc, program)?;
    if classes.len() > MOST_CLASSES || set_count(&classes) > MOST_SETS {
        return Ok(None);
    }
    let Some(pages) = pages_of(alloc, &classes)? else {
        return Ok(None);
    };
    let ascii = ascii_of(alloc, &pages)?;
    let Pages {
        keys,
        samples,
        pages,
        cells,
        ..
    } = pages;
    let columns = CharClasses {
        classes,
        keys,
        ascii,
        pages,
        cells,
    };
    Ok(Some(Representatives { columns, samples }))
}

/// Whether the answers of the classes tell all that a pattern asks about a character.
pub(crate) fn tells(classes: &[Vec<CharSet>], program: &Program) -> bool
    ensures { IsTrue result → Tells classes.now (pattern_of program.now) }
{
    if program.has_boundary && !tells_sets(classes, &WORD_CHARACTERS) {
        return false;
    }
    for class in &program.code.classes {
        if !tells_sets(classes, &class.sets) {
            return false;
        }
    }
    true
}
