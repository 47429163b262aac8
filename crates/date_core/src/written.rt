//! Days as they are written: yyddd of the years from 1900 to 1999, and yyyy/ddd. (GC28-6704, "LABEL parameter"; yyyy/ddd is this profile's)
ghost use Rattle.std.specs.Prelude.{◌≡◌, ◌+◌};
ghost use Rattle.date_core.specs.Written.{day_by, short_day, slashed_day, written_day};

use crate::calendar::{FIRST_YEAR, LAST_YEAR, day_of};
use jcl_plan::day::Day;
use jname_core::decimal::number_within;

fn day_by(year: Option<u16>, of_year: Option<u16>) -> Option<Day>
    ensures { result ≡ day_by year of_year }
{
    match (year, of_year) {
        (Some(year), Some(of_year)) => day_of(year, of_year),
        _ => None,
    }
}

/// The day that yyddd means: two digits of a year from 1900 on, and three of a day of it.
pub fn short_day(text: &[u8]) -> Option<Day>
    ensures { result ≡ short_day text.now }
{
    if text.len() != 5 {
        return None;
    }
    let (year, of_year) = text.split_at(2);
    match number_within(0, 99, year) {
        None => None,
        Some(year) => day_by(Some(FIRST_YEAR + year), number_within(1, 366, of_year)),
    }
}

/// The day of a year, where the text behind the year is a slash and it.
fn slashed_day(year: &[u8], behind: &[u8]) -> Option<Day>
    ensures { result ≡ slashed_day year.now behind.now }
{
    match behind.split_first() {
        Some((b'/', of_year)) => day_by(
            number_within(FIRST_YEAR, LAST_YEAR, year),
            number_within(1, 366, of_year),
        ),
        _ => None,
    }
}

/// The day that yyyy/ddd means: four digits of a year, a slash, and three of a day of it.
pub fn written_day(text: &[u8]) -> Option<Day>
    ensures { result ≡ written_day text.now }
{
    if text.len() != 8 {
        return None;
    }
    let (year, behind) = text.split_at(4);
    slashed_day(year, behind)
}
