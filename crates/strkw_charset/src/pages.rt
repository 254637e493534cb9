//! The columns of all characters, page by page. They are made from run to run: code points up to an end about which the
//! classes of a pattern give the same answers. Each of these runs is asked about once.

ghost use Rattle.std.specs.Prelude.{◌≡◌, ◌*◌, ◌+◌, ◌/◌, ◌≤◌, ◌<◌, ℕ, length, get_or, Some, IsTrue, IfOk, IfSome};
ghost use Rattle.strkw_charset.specs.machine.CharClasses.{column_of, cell_of as spec_cell_of, ShareColumn, IsPaged, MayGrow, ArePages};
ghost use Rattle.strkw_charset.specs.machine.Lists.{IsFront};
ghost use Rattle.std.specs.Char.{InScalarRange};

use crate::char_classes::{MOST_COLUMNS, answers, place_of};
use crate::ends::{Ends, UNICODE_END};
use crate::tree::CharSet;
use std::alloc::{AllocError, Global};

/// How many code points are a page.
pub(crate) const PAGE: usize = 64;

/// How many pages there are.
pub(crate) const PAGES: usize = UNICODE_END as usize / PAGE;

// Behind the surrogates, which are no characters.
const SURROGATES_END: u32 = 0xE000;

/// The column of a code point.
pub fn cell_of(pages: &[u16], cells: &[[u8; PAGE]], c: u32) -> u8
    requires page { c / 64 < length pages.now }
    requires cells { get_or pages.now (c / 64) 0 < length cells.now }
    ensures { result ≡ spec_cell_of pages.now cells.now c }
{
    let c = c as usize;
    cells[usize::from(pages[c / PAGE])][c % PAGE]
}

// Gives the cells of a page from one place up to another a column.
fn fill(page: &mut [u8; PAGE], from: usize, end: usize, column: u8)
    requires order { from ≤ end }
    requires within { end ≤ 64 }
    ensures filled { (j : ℕ) → from ≤ j → j < end → get_or page.new j 0 ≡ column }
    ensures before { (j : ℕ) → j < from → get_or page.new j 0 ≡ get_or page.old j 0 }
{
    for place in from..end {
        page[place] = column;
    }
}

// Code points up to an end that share a column, as far as they are characters.
#[derive(Clone, Copy)]
struct Run {
    column: u8,
    end: u32,
}

/// Pages while they are made: for each column the answers that have it, a character that stands for it, and the number
/// of the cells that are this column throughout; for each page the number of its cells; and the cells.
#[derive(Drop)]
pub struct Pages {
    pub keys: Vec<u64>,
    pub samples: Vec<char>,
    plain: Vec<u16>,
    pub pages: Vec<u16>,
    pub cells: Vec<[u8; PAGE]>,
}

impl Pages {
    // The column of a character, a new one where no other has its answers; none where there are too many.
    fn column_for(&mut self, classes: &[Vec<CharSet>], c: char) -> Result<Option<u8>, AllocError>
        requires may_grow { MayGrow classes.now self.old }
        ensures column { IfOk result (λ r. IfSome r (λ k.
            column_of classes.now self.new.keys.items c ≡ Some k)) }
        ensures paged { IfOk result (λ r. IfSome r (λ _. IsPaged classes.now self.new)) }
        ensures grows { IfOk result (λ r. IfSome r (λ _.
            IsFront self.old.keys.items self.new.keys.items)) }
        ensures pages { self.new.pages ≡ self.old.pages }
    {
        let key = answers(classes, c);
        if let Some(column) = place_of(&self.keys, key) {
            return Ok(Some(column as u8));
        }
        let column = self.keys.len();
        if column == MOST_COLUMNS {
            return Ok(None);
        }
        self.keys.push(key)?;
        self.samples.push(c)?;
        self.plain.push(self.cells.len() as u16)?;
        self.cells.push([column as u8; PAGE])?;
        Ok(Some(column as u8))
    }

    // The run of a code point: this one, where it does not end before, or the next.
    fn run_of(
        &mut self,
        classes: &[Vec<CharSet>],
        ends: &mut Ends,
        run: Run,
        c: u32,
    ) -> Result<Option<Run>, AllocError>
        requires may_grow { MayGrow classes.now self.old }
        requires within { c < 0x110000 }
        requires end { run.end ≤ 0x110000 }
        requires shared { ShareColumn classes.now self.old.keys.items c run.end run.column }
        ensures shared { IfOk result (λ r. IfSome r (λ next.
            ShareColumn classes.now self.new.keys.items c next.end next.column)) }
        ensures beyond { IfOk result (λ r. IfSome r (λ next. c < next.end)) }
        ensures end { IfOk result (λ r. IfSome r (λ next. next.end ≤ 0x110000)) }
        ensures paged { IfOk result (λ r. IfSome r (λ _. IsPaged classes.now self.new)) }
        ensures grows { IfOk result (λ r. IfSome r (λ _.
            IsFront self.old.keys.items self.new.keys.items)) }
        ensures pages { self.new.pages ≡ self.old.pages }
    {
        if c < run.end {
            return Ok(Some(run));
        }
        let Some(first) = char::from_u32(c) else {
            return Ok(Some(Run {
                column: 0,
                end: SURROGATES_END,
            }));
        };
        let end = ends.run_end(classes, c);
        match self.column_for(classes, first)? {
            Some(column) => Ok(Some(Run { column, end })),
            None => Ok(None),
        }
    }

    // The cells of a page of several runs, from its first code point on, and the run that goes on behind it.
    fn cells_of(
        &mut self,
        classes: &[Vec<CharSet>],
        ends: &mut Ends,
        run: Run,
        first: u32,
    ) -> Result<Option<([u8; PAGE], Run)>, AllocError>
        requires may_grow { MayGrow classes.now self.old }
        requires within { first + 64 ≤ 0x110000 }
        requires end { run.end ≤ 0x110000 }
        requires shared { ShareColumn classes.now self.old.keys.items first run.end run.column }
        ensures right { IfOk result (λ r. IfSome r (λ made. (j : ℕ) → j < 64
            → InScalarRange (first + j) → column_of classes.now self.new.keys.items (first + j)
            ≡ Some (get_or made.0 j 0))) }
        ensures shared { IfOk result (λ r. IfSome r (λ made.
            ShareColumn classes.now self.new.keys.items (first + 64) made.1.end made.1.column)) }
        ensures end { IfOk result (λ r. IfSome r (λ made. made.1.end ≤ 0x110000)) }
        ensures paged { IfOk result (λ r. IfSome r (λ _. IsPaged classes.now self.new)) }
        ensures pages { self.new.pages ≡ self.old.pages }
    {
        let mut page = [0; PAGE];
        let mut run = run;
        let mut place = 0;
        'runs: while place < PAGE {
            let Some(next) = self.run_of(classes, ends, run, first + place as u32)? else {
                return Ok(None);
            };
            let end = PAGE.min((next.end - first) as usize);
            fill(&mut page, place, end, next.column);
            place = end;
            run = next;
        }
        Ok(Some((page, run)))
    }

    // One more page, from its first code point on, and where one run has all of it, each that this run has all of. The
    // run that goes on behind; none where there are too many columns.
    fn add_pages(
        &mut self,
        classes: &[Vec<CharSet>],
        ends: &mut Ends,
        run: Run,
        first: u32,
    ) -> Result<Option<Run>, AllocError>
        requires may_grow { MayGrow classes.now self.old }
        requires first { first ≡ length self.old.pages.items * 64 }
        requires end { run.end ≤ 0x110000 }
        requires shared { ShareColumn classes.now self.old.keys.items first run.end run.column }
        ensures shared { IfOk result (λ r. IfSome r (λ next.
            ShareColumn classes.now self.new.keys.items (length self.new.pages.items * 64)
            next.end next.column)) }
        ensures end { IfOk result (λ r. IfSome r (λ next. next.end ≤ 0x110000)) }
        ensures paged { IfOk result (λ r. IfSome r (λ _. IsPaged classes.now self.new)) }
        ensures grows { IfOk result (λ r. IfSome r (λ _.
            length self.old.pages.items < length self.new.pages.items)) }
        ensures few { IfOk result (λ r. IfSome r (λ _. length self.new.pages.items ≤ 17408)) }
    {
        let Some(run) = self.run_of(classes, ends, run, first)? else {
            return Ok(None);
        };
        if run.end - first < PAGE as u32 {
            let Some(made) = self.cells_of(classes, ends, run, first)? else {
                return Ok(None);
            };
            let page = made.0;
            self.pages.push(self.cells.len() as u16)?;
            self.cells.push(page)?;
            return Ok(Some(made.1));
        }
        let Some(cells) = self.plain.get(usize::from(run.column)) else {
            return Ok(None);
        };
        let cells = *cells;
        self.pages.resize(run.end as usize / PAGE, cells)?;
        Ok(Some(run))
    }
}

/// The pages of all code points; none where there are too many columns.
pub fn pages_of(alloc: Global, classes: &[Vec<CharSet>]) -> Result<Option<Pages>, AllocError>
    requires few { length classes.now ≤ 64 }
    ensures few { IfOk result (λ r. IfSome r (λ made. length made.keys.items < 256)) }
    ensures all { IfOk result (λ r. IfSome r (λ made. length made.pages.items ≡ 17408)) }
    ensures right { IfOk result (λ r. IfSome r (λ made.
        ArePages classes.now made.keys.items made.pages.items made.cells.items)) }
{
    let mut made = Pages {
        keys: Vec::new(alloc),
        samples: Vec::new(alloc),
        plain: Vec::new(alloc),
        pages: Vec::with_capacity(alloc, PAGES)?,
        cells: Vec::new(alloc),
    };
    let mut ends = Ends::new();
    let mut run = Run { column: 0, end: 0 };
    'pages: while made.pages.len() < PAGES {
        let first = (made.pages.len() * PAGE) as u32;
        match made.add_pages(classes, &mut ends, run, first)? {
            Some(next) => run = next,
            None => return Ok(None),
        }
    }
    made.cells.shrink_to_fit();
    Ok(Some(made))
}
