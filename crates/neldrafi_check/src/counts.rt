//! How many values were checked, and how many errors there are.

ghost use Rattle.std.specs.Prelude.{◌≡◌, ◌⊎◌, ◌≤◌, ◌+◌, ◌^◌, IfErr, IfOk};
ghost use Rattle.neldrafi_check.specs.declared.faults.CheckFault.TheVariants.{TooLong};
ghost use Rattle.neldrafi_check.specs.Counting.{both, of_no_value, of_nothing, of_value};

use crate::faults::CheckFault;

/// How many values a file has that were checked, and how many errors were found in it. A line or a record that has no
/// value is an error, and no value.
#[derive(Clone, Copy, Debug, PartialEq, Eq)]
pub struct Counts {
    /// The values.
    pub values: u64,
    /// The errors.
    pub errors: u64,
}

impl Counts {
    /// No value and no error.
    pub const NONE: Counts = Counts {
        values: 0,
        errors: 0,
    };

    /// One value with so many errors.
    pub fn of_value(errors: u64) -> Counts
        ensures { result ≡ of_value errors }
    {
        Counts { values: 1, errors }
    }

    // A line or a record that has no value.
    pub(crate) fn of_no_value() -> Counts
        ensures { result ≡ of_no_value }
    {
        Counts {
            values: 0,
            errors: 1,
        }
    }

    /// Both together. The only error is `TooLong`, for more values or errors than a `u64` counts.
    pub fn plus(self, more: Counts) -> Result<Counts, CheckFault>
        ensures sum { IfOk result (λ all. all ≡ both self more) }
        ensures why { IfErr result (λ why. (why ≡ TooLong)
            × ((2 ^ 64 ≤ self.values + more.values) ⊎ (2 ^ 64 ≤ self.errors + more.errors))) }
    {
        match (
            self.values.checked_add(more.values),
            self.errors.checked_add(more.errors),
        ) {
            (Some(values), Some(errors)) => Ok(Counts { values, errors }),
            _ => Err(CheckFault::TooLong),
        }
    }
}
