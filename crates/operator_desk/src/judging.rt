//! How an answer is judged: what a run makes of it, and why a person is asked for it again before it is kept.
#![tactic(auto)]

ghost use Rattle.calendar.specs.DateTexts.{date_read};
ghost use Rattle.fixed_num.specs.Reading.{parsed};
ghost use Rattle.fixed_num.specs.Text.{printed_in};
ghost use Rattle.operator_desk.specs.Again as asks;
ghost use Rattle.operator_desk.specs.Asked as spec;
ghost use Rattle.std.specs.Prelude.{◌≡◌, ◌≤◌, IfSome, None, Some, drop, if◌then◌else◌, is_none, is_some, take};
ghost use Rattle.xvalue.specs.Answers as answers;

use calendar::Day;
use fixed_num::{MOST_DECIMALS, Num};
use operating::FieldSize;
use xvalue::Kind;

/// The most bytes of a line that a run reads.
const MOST_LETTERS: usize = 254;

/// The most bytes of a number in a field.
const MOST_DIGITS: usize = 19;

/// Of which kind an answer spells no value, so that a READ keeps the old one.
#[derive(Clone, Copy)]
pub enum NoValue {
    Number,
    Date,
    Truth,
}

impl NoValue {
    /// What is told where the answer was taken.
    pub fn told(self) -> &'static str {
        match self {
            NoValue::Number => "that is no number; the old value stays",
            NoValue::Date => "that is no date; the old value stays",
            NoValue::Truth => "that is neither T, Y, F nor N; the old value stays",
        }
    }
}

/// How much of an answer a value takes, as far as that is known.
#[derive(Clone, Copy)]
pub enum Holds {
    /// All, or it isn't known.
    Unknown,
    /// A text of so many bytes.
    Text(usize),
    /// A number that fits this field.
    Number(FieldSize),
}

/// What the line that is wanted is for: the kind of its value, none if it is a line as such, and how much of it the
/// value takes.
#[derive(Clone, Copy)]
pub struct Wanted {
    pub kind: Option<Kind>,
    pub holds: Holds,
}

/// Why a person is asked for a line again.
#[derive(Clone, Copy)]
pub enum Again {
    /// It holds a control character, as a cursor key types it.
    Control,
    /// It spells no value of the kind that is wanted, so that the old value would stay.
    NoValue(NoValue),
    /// Its text would be cut.
    TooLong,
    /// Asterisks would be stored in place of its number.
    TooLarge,
}

impl Again {
    /// What a person is told: what is wrong, and what to do.
    pub fn note(self) -> &'static str {
        match self {
            Again::Control =>
                "that line has a cursor key, Tab or other control key in it; type it again",
            Again::NoValue(NoValue::Number) => {
                "that is no number; type it again, or Enter alone to keep the old value"
            }
            Again::NoValue(NoValue::Date) => {
                "that is no date (month/day/year); type it again, or Enter to keep the old value"
            }
            Again::NoValue(NoValue::Truth) => {
                "that is neither T, Y, F nor N; type it again, or Enter to keep the old value"
            }
            Again::TooLong => {
                "that is too long for the field; type it again, or Enter to keep the old value"
            }
            Again::TooLarge => {
                "the field can't hold that number; type it again, or Enter to keep the old value"
            }
        }
    }
}

/// Whether a letter is T or Y.
fn says_yes(letter: u8) -> bool
    ensures { result ≡ answers.says_yes letter }
{
    (letter == b'T' || letter == b't') || (letter == b'Y' || letter == b'y')
}

/// Whether a letter is F or N.
fn says_no(letter: u8) -> bool
    ensures { result ≡ answers.says_no letter }
{
    (letter == b'F' || letter == b'f') || (letter == b'N' || letter == b'n')
}

/// Whether a line begins with none of T, Y, F and N.
fn is_no_truth(line: &[u8]) -> bool
    ensures { result ≡ spec.is_no_truth line.now }
{
    match line {
        [letter, ..] => !(says_yes(*letter) || says_no(*letter)),
        [] => false,
    }
}

/// Whether a line spells no number.
fn is_no_number(line: &[u8]) -> bool
    ensures { result ≡ spec.is_no_number (parsed line.now) }
{
    Num::parse(line).is_asterisk()
}

/// Whether a line spells no day.
fn is_no_day(line: &[u8]) -> bool
    ensures { result ≡ is_none (date_read line.now) }
{
    Day::read(line).parts().is_none()
}

/// This, if it is so.
fn given_if<T: Drop>(is: bool, given: T) -> Option<T>
    ensures { result ≡ (if is then Some given else None) }
{
    if is { Some(given) } else { None }
}

/// So many bytes from the front, or all.
fn front(line: &[u8], count: usize) -> &[u8]
    ensures { result.now ≡ take count line.now }
{
    &line[..count.min(line.len())]
}

/// What an answer doesn't spell, if it leaves the old value.
pub fn bad_answer(kind: Option<Kind>, line: &[u8]) -> Option<NoValue>
    ensures value { result ≡ spec.no_value_in kind (take 254 line.now) }
    ensures told { is_some result ≡ spec.leaves_old kind (take 254 line.now) }

    // What is told is what a run makes of the line.
    ensures run { IfSome kind (λ wanted. spec.IsToldOf (is_some result) wanted (take 254 line.now)) }
{
    told_of(kind, front(line, MOST_LETTERS))
}

/// What an answer as it is read doesn't spell, if it leaves the old value.
fn told_of(kind: Option<Kind>, line: &[u8]) -> Option<NoValue>
    ensures value { result ≡ spec.no_value_in kind line.now }
    ensures told { is_some result ≡ spec.leaves_old kind line.now }
{
    if line.is_empty() {
        return None;
    }
    match kind {
        None | Some(Kind::Text) => None,
        Some(Kind::Number) => given_if(is_no_number(line), NoValue::Number),
        Some(Kind::Date) => given_if(is_no_day(line), NoValue::Date),
        Some(Kind::Logical) => given_if(is_no_truth(line), NoValue::Truth),
    }
}

/// What is told of an answer that was taken: that the old value stays, if it does.
pub fn note_of(kind: Option<Kind>, line: &[u8]) -> &'static str {
    match bad_answer(kind, line) {
        Some(bad) => bad.told(),
        None => "",
    }
}

/// Whether a line holds a control character: a byte below 32, or 127.
fn has_control(line: &[u8]) -> bool
    ensures { result ≡ asks.has_control line.now }
{
    line.iter().any(|byte| *byte < 32 || *byte == 127)
}

/// Whether a line holds a byte from 128 on.
pub fn has_letter_above(line: &[u8]) -> bool
    ensures { result ≡ asks.has_letter_above line.now }
{
    line.iter().any(|byte| *byte >= 128)
}

/// What follows so many bytes.
fn rest(line: &[u8], count: usize) -> &[u8]
    ensures { result.now ≡ drop count line.now }
{
    &line[count.min(line.len())..]
}

/// Whether a text of so many bytes takes less of a line than all but the blanks at its end.
fn is_cut(line: &[u8], length: usize) -> bool
    ensures { result ≡ asks.is_cut_off length line.now }
{
    rest(line, length).iter().any(|byte| *byte != b' ')
}

/// Whether a number in a field is all asterisks.
fn is_asterisks(number: Num, width: usize, decimals: u8) -> bool
    requires width { width ≤ 19 }
    requires decimals { decimals ≤ 15 }
    ensures { result ≡ asks.is_asterisks (printed_in width decimals number) }
{
    let mut field = [b' '; MOST_DIGITS];
    let (text, _) = field.split_at_mut(width);
    number.print(width, decimals, text);
    text.iter().all(|byte| *byte == b'*')
}

/// Whether a field would hold asterisks in place of a number.
fn is_too_large(line: &[u8], size: FieldSize) -> bool
    ensures { result ≡ asks.is_too_large size line.now }
{
    let (width, decimals) = (usize::from(size.width), size.decimals.min(MOST_DECIMALS));
    !line.is_empty() && width <= MOST_DIGITS && is_asterisks(Num::parse(line), width, decimals)
}

/// Why the value for which a line is wanted doesn't take it whole.
fn lost_by(holds: Holds, line: &[u8]) -> Option<Again>
    ensures { result ≡ asks.lost_by holds line.now }
{
    match holds {
        Holds::Unknown => None,
        Holds::Text(length) => given_if(is_cut(line, length), Again::TooLong),
        Holds::Number(size) => {
            let read = front(line, MOST_LETTERS);
            given_if(is_too_large(read, size), Again::TooLarge)
        }
    }
}

/// Why a person is asked for a line again.
pub fn asked_again(wanted: Wanted, line: &[u8]) -> Option<Again>
    ensures { result ≡ asks.asked_again wanted line.now }
{
    if has_control(line) {
        return Some(Again::Control);
    }
    match bad_answer(wanted.kind, line) {
        Some(bad) => Some(Again::NoValue(bad)),
        None => lost_by(wanted.holds, line),
    }
}
