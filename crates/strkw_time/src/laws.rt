//! Laws over the definitions that the calls of this crate name. Each function has an empty body, and its clause is the
//! law.
ghost use Rattle.std.specs.Prelude.{◌≡◌, ◌==◌, ◌%◌, ◌&&◌, ◌||◌, not, true, false, ℕ, codes};
ghost use Rattle.strkw_text.specs.Bounds.{DerivesAtLeast, DerivesLength};
ghost use Rattle.strkw_time.specs.Duration.{IsDuration};
ghost use Rattle.strkw_time.specs.Time.{days_in, is_leap_year, IsFullDate, IsFullTime, IsDateTime};

/// The greatest day of each month, row by row as the table of RFC 3339, section 5.7, has it.
pub fn days_of_months()
    ensures january { (year : ℕ) → days_in year 1 ≡ 31 }
    ensures february_normal { (year : ℕ) → is_leap_year year ≡ false → days_in year 2 ≡ 28 }
    ensures february_leap_year { (year : ℕ) → is_leap_year year ≡ true → days_in year 2 ≡ 29 }
    ensures march { (year : ℕ) → days_in year 3 ≡ 31 }
    ensures april { (year : ℕ) → days_in year 4 ≡ 30 }
    ensures may { (year : ℕ) → days_in year 5 ≡ 31 }
    ensures june { (year : ℕ) → days_in year 6 ≡ 30 }
    ensures july { (year : ℕ) → days_in year 7 ≡ 31 }
    ensures august { (year : ℕ) → days_in year 8 ≡ 31 }
    ensures september { (year : ℕ) → days_in year 9 ≡ 30 }
    ensures october { (year : ℕ) → days_in year 10 ≡ 31 }
    ensures november { (year : ℕ) → days_in year 11 ≡ 30 }
    ensures december { (year : ℕ) → days_in year 12 ≡ 31 }
{}

/// When a year is leap, as the subroutine of RFC 3339, appendix C, returns it:
/// `(year % 4 == 0 && (year % 100 != 0 || year % 400 == 0))`.
pub fn leap_years()
    ensures { (year : ℕ) → is_leap_year year
        ≡ ((year % 4 == 0) && (not (year % 100 == 0) || (year % 400 == 0))) }
{}

/// A date has 10 characters.
pub fn date_length()
    ensures { DerivesLength 10 IsFullDate }
{}

/// A time has at least 9 characters.
pub fn time_length()
    ensures { DerivesAtLeast 9 IsFullTime }
{}

/// A date-time has at least 20 characters.
pub fn datetime_length()
    ensures { DerivesAtLeast 20 IsDateTime }
{}

/// A duration has at least 3 characters.
pub fn duration_length()
    ensures { DerivesAtLeast 3 IsDuration }
{}

/// `2020-01-01` is a date.
pub fn date_example()
    ensures { IsFullDate (codes "2020-01-01") }
{}

/// `00:00:00Z` is a time, one of least length.
pub fn time_example()
    ensures { IsFullTime (codes "00:00:00Z") }
{}

/// `2020-01-01T00:00:00Z` is a date-time, one of least length.
pub fn datetime_example()
    ensures { IsDateTime (codes "2020-01-01T00:00:00Z") }
{}

/// `P1D` is a duration, one of least length.
pub fn duration_example()
    ensures { IsDuration (codes "P1D") }
{}
