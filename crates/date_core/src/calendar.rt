//! A day by its number, and by its year and its place in that year. The calendar is that of `jiff`.
ghost use Rattle.std.specs.Prelude.{◌≡◌};
ghost use Rattle.date_core.specs.Dates.{IsDated, day_in};

use jcl_plan::day::Day;
use jiff_core::civil::Date;

/// The first year that a date has.
pub const FIRST_YEAR: u16 = 1900;

/// The last year that a date has.
pub const LAST_YEAR: u16 = 2155;

/// How many days the kit's calendar has before 1900/001.
const DAYS_BEFORE: u32 = 4_346_020;

/// A year, and the place of a day in it, from 1.
#[derive(Clone, Copy, PartialEq, Eq)]
pub struct OrdinalDate {
    pub year: u16,
    pub of_year: u16,
}

/// The day of a year, from 1; none where the year lacks it, or lies before the first or after the last year that a date has.
pub fn day_of(year: u16, of_year: u16) -> Option<Day>
    ensures { result ≡ day_in year of_year }
{
    if year < FIRST_YEAR || LAST_YEAR < year || 366 < of_year {
        return None;
    }
    match Date::from_day_of_year(year as i16, of_year as i16) {
        Err(_) => None,
        Ok(date) => Day::new(date.days_since_min() - DAYS_BEFORE),
    }
}

/// The year of a day, and its place in that year.
pub fn date_of(day: Day) -> OrdinalDate
    ensures { IsDated day result }
{
    let date = Date::from_days_since_min(DAYS_BEFORE + day.number());
    OrdinalDate {
        year: date.year.unsigned_abs(),
        of_year: date.day_of_year(),
    }
}
