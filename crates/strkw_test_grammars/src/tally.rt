//! How many answers came, and which of them are wrong.

use std::alloc::{AllocError, Global};

// The most wrong answers of a row that are shown.
const MOST: u64 = 5;

/// What was asked of all rows so far.
#[derive(Clone, Copy, Default)]
pub struct Totals {
    pub rows: u64,
    pub asked: u64,
    pub failed: u64,
}

impl Totals {
    /// Adds the counts of a row.
    pub fn add(&mut self, row: &Tally) {
        self.rows = self.rows.wrapping_add(1);
        self.asked = self.asked.wrapping_add(row.asked);
        self.failed = self.failed.wrapping_add(u64::from(row.wrong > 0));
    }
}

/// What was asked of a row.
#[derive(Drop)]
pub struct Tally {
    asked: u64,
    wrong: u64,
    shown: String,
}

impl Tally {
    /// Nothing was asked.
    pub fn new(alloc: Global) -> Tally {
        Tally {
            asked: 0,
            wrong: 0,
            shown: String::new(alloc),
        }
    }

    /// Counts an answer on a text, and shows a wrong one.
    pub fn count(&mut self, is_expected: bool, text: &str, answer: &str) -> Result<(), AllocError> {
        self.asked = self.asked.wrapping_add(1);
        if is_expected {
            return Ok(());
        }
        self.wrong = self.wrong.wrapping_add(1);
        if self.wrong > MOST {
            return Ok(());
        }
        write!(self.shown, "  WRONG: {text:?}: {answer}\n")
    }

    /// What is printed of a row: nothing where each answer is as expected. One that asked nothing is wrong.
    pub fn lines(&mut self, alloc: Global, name: &str) -> Result<String, AllocError> {
        if self.asked == 0 {
            self.count(false, "", "nothing is asked")?;
        }
        if self.wrong == 0 {
            return Ok(String::new(alloc));
        }
        format!(in alloc; "{name}\n{}", self.shown)
    }
}
