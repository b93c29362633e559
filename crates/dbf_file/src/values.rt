//! What a field's text stands for.

ghost use Rattle.std.specs.Prelude.{◌≡◌, ◌+◌, ◌/◌, ◌%◌, ◌<◌, ◌≤◌, pos, length, take};
ghost use Rattle.std.specs.Prelude.{slice_index, true, IfSome, ◌^◌};
ghost use Rattle.fixed_num.specs.Number.{finite};
ghost use Rattle.fixed_num.specs.Reading.{are_digits, with_digits};
ghost use Rattle.xvalue.specs.Kinds.{kind_of};
ghost use Rattle.calendar.specs.Calendar.{day_or_blank};
ghost use Rattle.dbf_file.specs.Values.{kind_for, is_all_blanks, number_in, day_in, is_yes, value_by, value_of};
ghost use Rattle.dbf_file.specs.Values.{fitted_text};
ghost use Rattle.dbf_file.specs.Values.{stored_day as day_text_of, logical_text as logical_text_of, text_by, text_for};

use crate::field::{Field, Letter, MAX_DECIMALS};
use calendar::{Day, DayParts, with_digits};
use fixed_num::{Num, Parts, are_digits, without_blanks};
use xvalue::{Kind, Lent, Text, Value};

/// The most bytes of a text value.
const TEXT_BYTES: usize = 254;

/// The least number of 18 digits. A number that is read at once has at most so many.
const LAST_PLACE: u64 = 100_000_000_000_000_000;

impl Letter {
    /// The kind of the values of such a field.
    pub fn kind(self) -> Kind
        ensures { result ≡ kind_for self }
    {
        match self {
            Letter::C => Kind::Text,
            Letter::N => Kind::Number,
            Letter::D => Kind::Date,
            Letter::L => Kind::Logical,
        }
    }
}

/// Whether there are blanks alone.
fn is_blank(text: &[u8]) -> bool
    ensures { result ≡ is_all_blanks text.now }
{
    text.iter().all(|byte| *byte == b' ')
}

/// A number below 10^18 over a power of ten.
fn number_with(magnitude: u64, decimals: u8) -> Num
    requires small { magnitude < 10 ^ 18 }
    requires decimals { decimals ≤ 15 }
    ensures { result ≡ finite (pos magnitude) decimals }
{
    let parts = Parts {
        negative: false,
        magnitude,
        decimals,
    };
    match Num::from_parts(parts) {
        Some(number) => number,
        None => unreachable!(),
    }
}

/// The number that a text of digits alone spells, if it has a digit and the number is below 10^18; else none.
fn digits_value(digits: &[u8]) -> Option<u64>
    ensures digits { IfSome result (λ n. are_digits digits.now ≡ true) }
    ensures some { IfSome result (λ n. 0 < length digits.now) }
    ensures value { IfSome result (λ n. n ≡ with_digits 0 digits.now) }
    ensures small { IfSome result (λ n. n < 10 ^ 18) }
{
    if digits.is_empty() {
        return None;
    }
    let mut number = 0;
    for digit in digits {
        if !digit.is_ascii_digit() || number >= LAST_PLACE {
            return None;
        }
        number = number * 10 + u64::from(*digit - b'0');
    }
    Some(number)
}

/// The number of a text in a field with these decimals. Digits alone behind blanks, which most texts are, are read at
/// once.
pub(crate) fn number_in(decimals: u8, text: &[u8]) -> Num
    ensures { result ≡ number_in decimals text.now }
{
    if let Some(magnitude) = digits_value(without_blanks(text)) {
        return number_with(magnitude, 0);
    }
    if is_blank(text) {
        number_with(0, decimals.min(MAX_DECIMALS))
    } else {
        Num::parse(text)
    }
}

/// The day of these parts, or the blank date where the calendar has no such day.
fn day_or_blank(parts: DayParts) -> Day
    ensures { result ≡ day_or_blank parts }
{
    match Day::from_parts(parts) {
        Some(day) => day,
        None => Day::blank(),
    }
}

/// The day of a text: four digits of the year, two of the month, two of the day.
pub(crate) fn day_in(text: &[u8]) -> Day
    ensures { result ≡ day_in text.now }
{
    if !are_digits(text) || text.len() != 8 {
        return Day::blank();
    }
    let (year, others) = text.split_at(4);
    let (month, day) = others.split_at(2);
    day_or_blank(DayParts {
        year: with_digits(year),
        month: with_digits(month) as u8,
        day: with_digits(day) as u8,
    })
}

/// Whether this byte stands for true.
fn is_yes(byte: u8) -> bool
    ensures { result ≡ is_yes byte }
{
    byte == b'T' || byte == b't' || byte == b'Y' || byte == b'y'
}

/// The first bytes, as many as a text value may have.
#[inline(always)]
pub(crate) fn first_bytes(text: &[u8]) -> &[u8]
    ensures same { result.now ≡ take 254 text.now }
    ensures short { length result.now ≤ 254 }
{
    &text[..text.len().min(TEXT_BYTES)]
}

/// Whether the first byte stands for true.
pub(crate) fn begins_with_yes(text: &[u8]) -> bool
    ensures { result ≡ is_yes (slice_index text.now 0) }
{
    match text {
        [first, ..] => is_yes(*first),
        [] => false,
    }
}

/// The value of a text in a field. Each text has one, whatever its length.
#[tactic(auto, unfolding(crate::specs::Values::value_of))]
pub fn value(field: &Field, text: &[u8]) -> Value
    ensures { result ≡ value_of field.now text.now }
{
    lent(field.letter, field.decimals, text).owned()
}

/// The value of a text in a field of this letter and these decimals, lent from there.
#[inline(always)]
pub fn lent(letter: Letter, decimals: u8, text: &[u8]) -> Lent<'_>
    ensures { result ≡ value_by letter decimals text.entry.now }
{
    match letter {
        Letter::C => Lent::of_text(first_bytes(text)),
        Letter::N => Lent::of_number(number_in(decimals, text)),
        Letter::D => Lent::of_day(day_in(text)),
        Letter::L => Lent::of_truth(begins_with_yes(text)),
    }
}

/// Writes a text, cut or padded with blanks.
fn put_text(text: &[u8], field: &mut [u8])
    ensures { field.new ≡ fitted_text (length field.old) text.now }
{
    let kept = text.len().min(field.len());
    let (front, behind) = field.split_at_mut(kept);
    front.copy_from_slice(&text[..kept]);
    behind.fill(b' ');
}

/// A digit of a number, by a power of ten.
fn digit(number: u16, power: u16) -> u8
    requires { 0 < power }
    ensures { result ≡ 48 + number / power % 10 }
{
    b'0' + (number / power % 10) as u8
}

/// A day as a text: four digits of the year, two of the month, two of the day; blanks of the blank date.
fn day_text(day: Day) -> [u8; 8]
    ensures { result ≡ day_text_of day }
{
    let Some(parts) = day.parts() else {
        return *b"        ";
    };
    let month = u16::from(parts.month);
    let day = u16::from(parts.day);
    [
        digit(parts.year, 1000),
        digit(parts.year, 100),
        digit(parts.year, 10),
        digit(parts.year, 1),
        digit(month, 10),
        digit(month, 1),
        digit(day, 10),
        digit(day, 1),
    ]
}

/// A truth value as a text: `T` or `F`.
fn logical_text(truth: bool) -> [u8; 1]
    ensures { result ≡ logical_text_of truth }
{
    [if truth { b'T' } else { b'F' }]
}

/// Writes the text of a value of the field's kind into a text of the field's width. A number is rounded to the field's
/// decimals; where it doesn't fit, the text is all asterisks. Other values are cut or padded with blanks.
#[tactic(auto, unfolding(crate::specs::Values::text_for))]
pub fn put(field: &Field, value: &Lent<'_>, text: &mut [u8])
    requires width { length text.old ≡ field.now.width }
    requires kind { kind_of value.now ≡ kind_for field.now.letter }
    ensures { text.new ≡ text_for field.now value.now }
{
    put_with_decimals(field.decimals, value, text);
}

/// The same in a field of the text's width and these decimals.
pub(crate) fn put_with_decimals(decimals: u8, value: &Lent<'_>, text: &mut [u8])
    ensures { text.new ≡ text_by (length text.old) decimals value.now }
{
    match value.kind() {
        Kind::Number => {
            let number = value.number();
            number.print(text.len(), decimals.min(MAX_DECIMALS), text)
        }
        Kind::Text => put_text(value.text(), text),
        Kind::Date => put_text(&day_text(value.day()), text),
        Kind::Logical => put_text(&logical_text(value.truth()), text),
    }
}
