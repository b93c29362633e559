// Values as examples spell them, and what functions give of them.

use calendar::Day;
use fixed_num::Num;
use xvalue::apply::apply;
use xvalue::{Fun, Gathered, Kind, MOST_ARGUMENTS, Setting, Settings, Text, Value};

/// The text of these bytes, of which examples have few.
pub(crate) fn text_made(bytes: &[u8]) -> Text {
    let mut text = Text::new();
    match text.try_extend_from_slice(bytes) {
        Ok(()) => text,
        Err(_) => Text::new(),
    }
}

/// The value of a kind that a text spells; true is `T`.
pub(crate) fn value_of(kind: Kind, spelled: &str) -> Value {
    let bytes = spelled.as_bytes();
    match kind {
        Kind::Number => Value::Number(Num::parse(bytes)),
        Kind::Text => Value::Text(text_made(bytes)),
        Kind::Date => Value::Date(Day::read(bytes)),
        Kind::Logical => Value::Logical(bytes == b"T".as_slice()),
    }
}

/// The argument of a place, from what a text spells; false where the function takes none there.
fn argument(fun: Fun, spelled: &str, place: usize) -> Value {
    match (fun.takes().get(place), spelled.split('|').nth(place)) {
        (Some(kind), Some(word)) => value_of(*kind, word),
        _ => Value::Logical(false),
    }
}

/// A value's text: a number's own, any other's as the screen shows it.
pub(crate) fn text_of_value(settings: Settings, value: &Value) -> Text {
    match value {
        Value::Number(number) => text_made(number.text().as_slice()),
        other => other.shown(settings),
    }
}

/// What a function gives under the settings of these values, of which it takes four at most.
pub(crate) fn result_of_values(settings: Settings, fun: Fun, values: &[Value]) -> Text {
    let gathered = Gathered::of(&values[..values.len().min(MOST_ARGUMENTS)]);
    text_of_value(settings, &apply(fun, settings, &gathered.arguments()))
}

/// What a function gives under the settings of the arguments that a text spells.
pub(crate) fn result_of(settings: Settings, fun: Fun, spelled: &str) -> Text {
    let values = [
        argument(fun, spelled, 0),
        argument(fun, spelled, 1),
        argument(fun, spelled, 2),
        argument(fun, spelled, 3),
    ];
    result_of_values(
        settings,
        fun,
        &values[..fun.takes().len().min(MOST_ARGUMENTS)],
    )
}

/// Whether a call gives what is wanted.
fn is_right(settings: Settings, fun: Fun, call: &str) -> bool {
    match call.split_once('=') {
        Some((spelled, wanted)) => {
            result_of(settings, fun, spelled).as_slice() == wanted.as_bytes()
        }
        None => false,
    }
}

/// Whether all calls of a function give what is wanted.
fn are_right(settings: Settings, fun: Fun, calls: &str) -> bool {
    for call in calls.split(';') {
        if !is_right(settings, fun, call) {
            return false;
        }
    }
    true
}

/// Whether all calls of a row give what is wanted. Where CENTURY is turned on and off again, they give the same as
/// before.
fn is_right_row(letter: &str, fun: Fun, calls: &str) -> bool {
    let off = Settings::off();
    let century = off.with(Setting::Century, true);
    if letter == "E" {
        return are_right(off.with(Setting::Exact, true), fun, calls);
    }
    if letter == "C" {
        return are_right(century, fun, calls);
    }
    are_right(off, fun, calls) && are_right(century.with(Setting::Century, false), fun, calls)
}

/// The function of a number that a text spells.
fn fun_of(number: &str) -> Option<Fun> {
    Fun::numbered(number.parse().unwrap_or(0))
}

/// The first row with a call that doesn't give what is wanted.
pub(crate) fn first_wrong<'a>(rows: &'a str) -> Option<&'a str> {
    for row in rows.lines() {
        let (letter, rest) = row.split_once(' ').unwrap_or((row, ""));
        let (number, rest) = rest.split_once(' ').unwrap_or((rest, ""));
        let (_, calls) = rest.split_once(' ').unwrap_or((rest, ""));
        match fun_of(number) {
            Some(fun) if is_right_row(letter, fun, calls) => {}
            _ => return Some(row),
        }
    }
    None
}
