// Values as the screen shows them.
#![tactic(auto)]

ghost use Rattle.std.specs.Prelude.{◌≡◌, true, false};
ghost use Rattle.xvalue.specs.declared.settings.Settings.{Settings as AnySettings};
ghost use Rattle.fixed_num.specs.Text.{last_digits};
ghost use Rattle.xvalue.specs.Shown.{shown_number, shown_day, shown_logical};

use crate::settings::Settings;
use crate::text::{Text, text_from};
use crate::texts::{append, write, write_blanks};
use calendar::Day;
use fixed_num::Num;

/// A truth value's text as the screen shows it: `.T.` or `.F.`.
pub fn shown_logical(truth: bool) -> Text
    ensures { result.items ≡ shown_logical truth }
{
    if truth {
        text_from(b".T.")
    } else {
        text_from(b".F.")
    }
}

/// A number's text as the screen shows it: right in ten places, or whole where it is longer.
#[tactic(auto, unfolding(crate::specs::Shown::shown_number))]
pub fn shown_number(number: Num) -> Text
    ensures { result.items ≡ shown_number number }
{
    let digits = number.text();
    let mut text = Text::new();
    write_blanks(10usize.saturating_sub(digits.len()), &mut text);
    append(&mut text, digits.as_slice());
    text
}

/// A date's text as the screen shows it under the settings: `MM/DD/YY`, and with CENTURY on `MM/DD/YYYY`; the blank
/// date has blanks in the places of digits.
pub fn shown_day(day: Day, settings: Settings) -> Text
    ensures { result.items ≡ shown_day settings day }
{
    let mut text = Text::new();
    write_day(day, settings, &mut text);
    text
}

/// Writes that text of a date over another text.
pub(crate) fn write_day(day: Day, settings: Settings, text: &mut Text)
    ensures { text.new.items ≡ shown_day settings day }
{
    if settings.century {
        write_with_century(day, text);
    } else {
        write_without_century(day, text);
    }
}

/// Writes a date's text with the last two digits of its year.
#[tactic(auto, unfolding(crate::specs::Shown::shown_day))]
fn write_without_century(day: Day, text: &mut Text)
    ensures { (settings : AnySettings) → settings.century ≡ false → text.new.items ≡ shown_day settings day }
{
    let Some(parts) = day.parts() else {
        return write(b"  /  /  ", text);
    };
    let [month_ten, month] = two_digits(u16::from(parts.month));
    let [day_ten, day] = two_digits(u16::from(parts.day));
    let [year_ten, year] = two_digits(parts.year);
    write(
        &[month_ten, month, b'/', day_ten, day, b'/', year_ten, year],
        text,
    );
}

/// Writes a date's text with its year whole.
#[tactic(auto, unfolding(crate::specs::Shown::shown_day))]
fn write_with_century(day: Day, text: &mut Text)
    ensures { (settings : AnySettings) → settings.century ≡ true → text.new.items ≡ shown_day settings day }
{
    let Some(parts) = day.parts() else {
        return write(b"  /  /    ", text);
    };
    let [month_ten, month] = two_digits(u16::from(parts.month));
    let [day_ten, day] = two_digits(u16::from(parts.day));
    let [a, b, c, d] = four_digits(parts.year);
    write(
        &[month_ten, month, b'/', day_ten, day, b'/', a, b, c, d],
        text,
    );
}

/// The last two digits of a number.
fn two_digits(number: u16) -> [u8; 2]
    ensures { result ≡ last_digits 2 number }
{
    [b'0' + (number / 10 % 10) as u8, b'0' + (number % 10) as u8]
}

/// The last four digits of a number.
fn four_digits(number: u16) -> [u8; 4]
    ensures { result ≡ last_digits 4 number }
{
    [
        b'0' + (number / 1000 % 10) as u8,
        b'0' + (number / 100 % 10) as u8,
        b'0' + (number / 10 % 10) as u8,
        b'0' + (number % 10) as u8,
    ]
}
