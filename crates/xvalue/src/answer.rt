// What a line of the operator leaves of an old value. An empty line keeps it, and so does one that says nothing of its
// kind.
#![tactic(auto)]

ghost use Rattle.std.specs.Prelude.{◌≡◌, ◌≤◌, length};
ghost use Rattle.xvalue.specs.Answers.{at_length, text_answered, number_answered, date_answered, truth_answered};
ghost use Rattle.xvalue.specs.Answers.{answered};

use crate::kind::Kind;
use crate::lent::Lent;
use crate::text::{Text, text_from};
use crate::texts::{front, write_blanks, write_joined};
use crate::value::Value;
use calendar::Day;
use fixed_num::Num;

impl Lent<'_> {
    /// What the line leaves of the value, by the value's own kind. It takes no memory.
    pub fn answered(&self, line: &[u8]) -> Value
        ensures { result ≡ answered self.now line.now }
    {
        match self.kind() {
            Kind::Number => Value::Number(answered_number(self.number(), line)),
            Kind::Text => Value::Text(answered_text(self.text(), line)),
            Kind::Date => Value::Date(answered_day(self.day(), line)),
            Kind::Logical => Value::Logical(answered_logical(self.truth(), line)),
        }
    }
}

/// The line cut, or padded with blanks, to the old text's length.
fn answered_text(old: &[u8], line: &[u8]) -> Text
    requires { length old.now ≤ 254 }
    ensures { result.items ≡ text_answered old.now line.now }
{
    if line.is_empty() {
        return text_from(old);
    }
    at_length(line, old.len())
}

/// The number that the line is read as, the old one where that is the asterisk value. Blanks are read as 0.
fn answered_number(old: Num, line: &[u8]) -> Num
    ensures { result ≡ number_answered old line.now }
{
    if line.is_empty() {
        return old;
    }
    let new = Num::parse(line);
    if new.is_asterisk() { old } else { new }
}

/// The day that the line spells, the old date where it spells none.
fn answered_day(old: Day, line: &[u8]) -> Day
    ensures { result ≡ date_answered old line.now }
{
    if line.is_empty() {
        return old;
    }
    let new = Day::read(line);
    match new.parts() {
        Some(_) => new,
        None => old,
    }
}

/// The truth value that the line's first byte says, in either case of T and Y or F and N; the old one where it says
/// none.
fn answered_logical(old: bool, line: &[u8]) -> bool
    ensures { result ≡ truth_answered old line.now }
{
    match line {
        [b'T' | b't' | b'Y' | b'y', ..] => true,
        [b'F' | b'f' | b'N' | b'n', ..] => false,
        _ => old,
    }
}

/// The bytes cut, or padded with blanks, to a length of at most 254.
fn at_length(bytes: &[u8], size: usize) -> Text
    requires { size ≤ 254 }
    ensures { result.items ≡ at_length size bytes.now }
{
    let mut padding = Text::new();
    write_blanks(size.saturating_sub(bytes.len()), &mut padding);
    let mut text = Text::new();
    write_joined(front(bytes, size), padding.as_slice(), &mut text);
    text
}
