// Days in their order: the days so many days on, the names of weekdays and months, and the days that texts spell.
#![tactic(auto)]

ghost use Rattle.std.specs.Prelude.{◌≡◌, ◌+◌, ◌≤◌, ◌<◌, ◌↔◌, ◌+ℤ◌, ◌<ℤ◌, length, take, drop, pos};
ghost use Rattle.std.specs.Prelude.{unsigned_abs, MatchOption, IsOk, IfOk, true};
ghost use Rattle.jiff.specs.Words.{epoch_day, IsEpochDay, IsYmd, monday_zero};
ghost use Rattle.fixed_num.specs.Reading.{are_digits, with_digits};
ghost use Rattle.calendar.specs.Days.{IsDay, HasDay};
ghost use Rattle.calendar.specs.Calendar.{day_number, days_on, date_plus, date_minus, days_between, same_date};
ghost use Rattle.calendar.specs.Calendar.{is_earlier, day_of, month_of, year_of, weekday};
ghost use Rattle.calendar.specs.Calendar.{weekday_of as weekday_number_of, weekday_name_of, month_name_of};
ghost use Rattle.calendar.specs.DateTexts.{before_slash, after_slash, is_short, year_spelled, date_spelled, date_read};

use crate::day::{Day, DayParts};
use fixed_num::{Num, are_digits, without_blanks, without_last_blanks};
use jiff::ToSpan;
use jiff::civil::{Date, Weekday, date};

/// The most days between two dates of the library.
const MOST_DAYS: u128 = 7_304_483;

impl Day {
    /// The date so many days on, by the number's whole part. It is blank outside of the years 1 to 9999, and where the
    /// date is blank or the number the asterisk value.
    pub fn plus(self, days: Num) -> Day
        ensures { result ≡ date_plus self days }
    {
        if days.is_asterisk() {
            return Day::blank();
        }
        self.days_on(days.whole())
    }

    /// The date so many days before, by the number's whole part. It is blank outside of the years 1 to 9999, and where
    /// the date is blank or the number the asterisk value.
    pub fn minus(self, days: Num) -> Day
        ensures { result ≡ date_minus self days }
    {
        if days.is_asterisk() {
            return Day::blank();
        }
        self.days_on(-days.whole())
    }

    /// The date so many days on, or back where the number is below zero.
    fn days_on(self, days: i128) -> Day
        ensures { result ≡ days_on days self }
    {
        let Some(parts) = self.parts() else {
            return Day::blank();
        };
        if days.unsigned_abs() > MOST_DAYS {
            return Day::blank();
        }
        match date_after(library_date(parts), days as i64) {
            Ok(date) => held(date),
            Err(_) => Day::blank(),
        }
    }

    /// How many days the other date is before this one; the asterisk value where one is blank.
    pub fn days_since(self, other: Day) -> Num
        ensures { result ≡ days_between self other }
    {
        let Some(parts) = self.parts() else {
            return Num::asterisk();
        };
        let Some(others) = other.parts() else {
            return Num::asterisk();
        };
        Num::from(day_number(parts) - day_number(others))
    }

    /// Whether both are the same date.
    pub fn is(self, other: Day) -> bool
        ensures { result ≡ same_date self other }
    {
        let Some(parts) = self.parts() else {
            return other.parts().is_none();
        };
        let Some(others) = other.parts() else {
            return false;
        };
        parts.year == others.year && parts.month == others.month && parts.day == others.day
    }

    /// Whether this date is before the other one, the blank date before every day.
    pub fn is_before(self, other: Day) -> bool
        ensures { result ≡ is_earlier self other }
    {
        let Some(others) = other.parts() else {
            return false;
        };
        let Some(parts) = self.parts() else {
            return true;
        };
        day_number(parts) < day_number(others)
    }

    /// The day of the month, 0 of the blank date.
    pub fn day(self) -> u8
        ensures { result ≡ day_of self }
    {
        match self.parts() {
            Some(parts) => parts.day,
            None => 0,
        }
    }

    /// The month, 0 of the blank date.
    pub fn month(self) -> u8
        ensures { result ≡ month_of self }
    {
        match self.parts() {
            Some(parts) => parts.month,
            None => 0,
        }
    }

    /// The year, 0 of the blank date.
    pub fn year(self) -> u16
        ensures { result ≡ year_of self }
    {
        match self.parts() {
            Some(parts) => parts.year,
            None => 0,
        }
    }

    /// The day of the week from 1 for Sunday, 0 of the blank date.
    pub fn weekday(self) -> u8
        ensures { result ≡ weekday_number_of self }
    {
        match self.parts() {
            Some(parts) => weekday(parts).to_sunday_one_offset() as u8,
            None => 0,
        }
    }

    /// The name of the day of the week, empty of the blank date.
    pub fn weekday_name(self) -> &'static [u8]
        ensures { result.now ≡ weekday_name_of self }
    {
        let Some(parts) = self.parts() else {
            return b"";
        };
        match weekday(parts) {
            Weekday::Monday => b"Monday",
            Weekday::Tuesday => b"Tuesday",
            Weekday::Wednesday => b"Wednesday",
            Weekday::Thursday => b"Thursday",
            Weekday::Friday => b"Friday",
            Weekday::Saturday => b"Saturday",
            Weekday::Sunday => b"Sunday",
        }
    }

    /// The name of the month, empty of the blank date.
    pub fn month_name(self) -> &'static [u8]
        ensures { result.now ≡ month_name_of self }
    {
        let Some(parts) = self.parts() else {
            return b"";
        };
        match parts.month {
            1 => b"January",
            2 => b"February",
            3 => b"March",
            4 => b"April",
            5 => b"May",
            6 => b"June",
            7 => b"July",
            8 => b"August",
            9 => b"September",
            10 => b"October",
            11 => b"November",
            _ => b"December",
        }
    }

    /// The date that a text spells behind and before blanks: one or two digits for the month, `/`, one or two for the
    /// day, `/`, and two for a year of 1900 to 1999 or four for any. Any other text gives the blank date, and so does a
    /// day that the calendar doesn't have.
    pub fn read(bytes: &[u8]) -> Day
        ensures { result ≡ date_read bytes.now }
    {
        let text = without_last_blanks(without_blanks(bytes));
        let first = slash_place(text);
        let others = behind(text, first + 1);
        let second = slash_place(others);
        let year = behind(others, second + 1);
        date_spelled(&text[..first], &others[..second], year)
    }
}

/// The library's date of a day.
fn library_date(parts: DayParts) -> Date
    requires { IsDay parts }
    ensures same { IsYmd (pos parts.year) (pos parts.month) (pos parts.day) result }
    ensures number { epoch_day result ≡ day_number parts }
{
    date(parts.year as i16, parts.month as i8, parts.day as i8)
}

/// The date so many days after one of the library, or before, where the library has it.
fn date_after(date: Date, days: i64) -> Result<Date, jiff::Error>
    requires { unsigned_abs days ≤ 7_304_483 }
    ensures succeeds { IsOk result ↔ IsEpochDay (epoch_day date +ℤ days) }
    ensures value { IfOk result (λ d. epoch_day d ≡ epoch_day date +ℤ days) }
{
    date.checked_add(days.days())
}

/// The library's date as a day, which is blank before the year 1.
fn held(date: Date) -> Day
    ensures day { HasDay result }
    ensures same { MatchOption result (date.year <ℤ pos 1)
        (λ parts. IsYmd (pos parts.year) (pos parts.month) (pos parts.day) date) }
{
    if date.year() < 1 {
        return Day::blank();
    }
    let parts = DayParts {
        year: date.year() as u16,
        month: date.month() as u8,
        day: date.day() as u8,
    };
    match Day::from_parts(parts) {
        Some(day) => day,
        None => unreachable!(),
    }
}

/// The number of a day: 0 for 1 January 1970, and one more for each day after.
fn day_number(parts: DayParts) -> i64
    requires { IsDay parts }
    ensures value { result ≡ day_number parts }
    ensures bound { IsEpochDay result }
{
    i64::from(library_date(parts).to_plain().to_unix_epoch_day())
}

/// The day of the week.
fn weekday(parts: DayParts) -> Weekday
    requires { IsDay parts }
    ensures { monday_zero result ≡ weekday parts }
{
    library_date(parts).weekday()
}

/// The bytes behind the first `count`.
fn behind(bytes: &[u8], count: usize) -> &[u8]
    ensures { result.now ≡ drop count bytes.now }
{
    &bytes[count.min(bytes.len())..]
}

/// Where the first `/` stands, or the length of a text without one.
fn slash_place(text: &[u8]) -> usize
    ensures bound { result ≤ length text.now }
    ensures before { take result text.now ≡ before_slash text.now }
    ensures after { drop (result + 1) text.now ≡ after_slash text.now }
{
    for (place, byte) in text.iter().enumerate() {
        if *byte == b'/' {
            return place;
        }
    }
    text.len()
}

/// The date of the three parts between the slashes of a text.
fn date_spelled(month: &[u8], day: &[u8], year: &[u8]) -> Day
    ensures { result ≡ date_spelled month.now day.now year.now }
{
    if !is_short(month) || !is_short(day) {
        return Day::blank();
    }
    let Some(year) = year_spelled(year) else {
        return Day::blank();
    };
    let parts = DayParts {
        year,
        month: with_digits(month) as u8,
        day: with_digits(day) as u8,
    };
    match Day::from_parts(parts) {
        Some(day) => day,
        None => Day::blank(),
    }
}

/// Whether these are one or two digits.
fn is_short(digits: &[u8]) -> bool
    ensures { result ≡ is_short digits.now }
{
    are_digits(digits) && 1 <= digits.len() && digits.len() <= 2
}

/// The year that digits spell, if they are two or four.
fn year_spelled(digits: &[u8]) -> Option<u16>
    ensures { result ≡ year_spelled digits.now }
{
    if !are_digits(digits) {
        return None;
    }
    match digits.len() {
        2 => Some(1900 + with_digits(digits)),
        4 => Some(with_digits(digits)),
        _ => None,
    }
}

/// The number of at most four digits.
pub fn with_digits(digits: &[u8]) -> u16
    requires digits { are_digits digits.now ≡ true }
    requires few { length digits.now ≤ 4 }
    ensures value { result ≡ with_digits 0 digits.now }
    ensures short { length digits.now ≤ 2 → result < 100 }
    ensures small { result < 10000 }
{
    let mut number = 0;
    for digit in digits {
        number = number * 10 + u16::from(*digit - b'0');
    }
    number
}
