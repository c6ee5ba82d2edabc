// A month of the calendar, asked for and shown, to be laid beside a printed one.
use calendar::Month;

fn name(month: Month) -> &'static [u8] {
    match month {
        Month::January => b"January",
        Month::February => b"February",
        Month::March => b"March",
        Month::April => b"April",
        Month::May => b"May",
        Month::June => b"June",
        Month::July => b"July",
        Month::August => b"August",
        Month::September => b"September",
        Month::October => b"October",
        Month::November => b"November",
        Month::December => b"December",
    }
}

// The weekday of a day: day 0, 1 January 2000, was a Saturday.
fn weekday(number: u16) -> &'static [u8] {
    match number % 7 {
        0 => b"Saturday",
        1 => b"Sunday",
        2 => b"Monday",
        3 => b"Tuesday",
        4 => b"Wednesday",
        5 => b"Thursday",
        _ => b"Friday",
    }
}

fn day(number: u16) {
    script::say(weekday(number));
    script::tell(b", day ", number as usize);
}

// The month of a month number, how many days it has, and its first and last.
pub fn days(month: u64) {
    if format::MONTH_COUNT <= month {
        script::say(b" -> none");
        return;
    }
    let year = calendar::year_of(month);
    let named = calendar::month_of(month);
    let length = calendar::days_in(year, named);
    let span = calendar::days_of(month);
    script::say(b" -> ");
    script::say(name(named));
    script::tell(b" ", year as usize);
    script::tell(b": ", length as usize);
    script::say(b" days, from ");
    day(span.first);
    script::say(b", to ");
    day(span.last);
}
