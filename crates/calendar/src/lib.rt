// The calendar: the days of each month, the year and the month of a month number, and a month's first and last day, by one table.
#![tactic(auto)]

ghost use Rattle.std.specs.Prelude.{◌≡◌, ◌<◌};
ghost use Rattle.format.specs.Layout.{month_count};
ghost use Rattle.calendar.specs.Calendar.{leap_year, days_of, year_of, month_of, first_day, last_day_of, Tabled};

mod table;

// The months of a year.
#[derive(Clone, Copy)]
pub enum Month {
    January,
    February,
    March,
    April,
    May,
    June,
    July,
    August,
    September,
    October,
    November,
    December,
}

// A year is a leap year by four, not by a hundred, but by four hundred.
fn is_leap(year: u64) -> bool
    ensures { result ≡ leap_year year }
{
    ((year % 4 == 0) & (year % 100 != 0)) | (year % 400 == 0)
}

// The days of a month: twelve cases, to be laid beside the standard.
pub fn days_in(year: u64, month: Month) -> u16
    ensures { result ≡ days_of year month }
{
    match month {
        Month::January => 31,
        Month::February => if is_leap(year) { 29 } else { 28 },
        Month::March => 31,
        Month::April => 30,
        Month::May => 31,
        Month::June => 30,
        Month::July => 31,
        Month::August => 31,
        Month::September => 30,
        Month::October => 31,
        Month::November => 30,
        Month::December => 31,
    }
}

// The year and the month of a month number: 0 is January 2000, 1199 December 2099.
pub fn year_of(month: u64) -> u64
    ensures { result ≡ year_of month }
{
    2000 + month / 12
}

pub fn month_of(month: u64) -> Month
    ensures { result ≡ month_of month }
{
    let months = [
        Month::January,
        Month::February,
        Month::March,
        Month::April,
        Month::May,
        Month::June,
        Month::July,
        Month::August,
        Month::September,
        Month::October,
        Month::November,
        Month::December,
    ];
    months[(month % 12) as usize]
}

// The first day of each month. By its length each month ends the day before the next one's first: one test over the whole table.
fn first_days() -> [u16; 1200]
    ensures { Tabled result }
{
    table::FIRST_DAYS
}

// The first and the last day of a month.
#[derive(Clone, Copy)]
pub struct Span {
    pub first: u16,
    pub last: u16,
}

// By a copy of the table's 2,400 bytes: who needs them in a loop asks before it.
pub fn days_of(month: u64) -> Span
    requires { month < month_count }
    ensures { (result.first ≡ first_day month) × (result.last ≡ last_day_of month) }
{
    let days = first_days();
    let first = days[month as usize];
    let length = days_in(year_of(month), month_of(month));
    let last = first + length - 1;
    Span { first, last }
}
