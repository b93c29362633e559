//! Messages as a terminal is sent them. A name of the command line or of the folder may hold anything; a terminal gets
//! nothing of it that it would obey, or that turns the direction of writing.

use crate::shown::Audience;
use std::alloc::{AllocError, Global};
use std::fmt::{self, Display, Formatter, Write};
use std::rt::Runtime;

/// Whether a terminal might obey a letter: a control character, or one that turns the direction of writing.
fn is_obeyed(letter: char) -> bool {
    matches!(
        letter,
        '\u{0}'..='\u{1f}' | '\u{7f}'..='\u{9f}' | '\u{202a}'..='\u{202e}' | '\u{2066}'..='\u{2069}'
    )
}

/// Whether a text holds a letter that a terminal might obey.
pub fn has_obeyed(text: &str) -> bool {
    text.chars().any(is_obeyed)
}

/// Writes a letter, or its number if a terminal might obey it.
fn put_letter<W: Write>(f: &mut W, letter: char) -> fmt::Result {
    if !is_obeyed(letter) {
        return f.write_char(letter);
    }
    let number = u32::from(letter);
    if number < 128 {
        write!(f, "\\x{number:02x}")
    } else {
        write!(f, "\\u{{{number:x}}}")
    }
}

/// Writes texts on, letter by letter.
#[derive(Drop)]
struct Escaping<'w, W> {
    on: &'w mut W,
}

impl<W: Write> Write for Escaping<'_, W> {
    fn write_str(&mut self, text: &str) -> fmt::Result {
        for letter in text.chars() {
            put_letter(&mut *self.on, letter)?;
        }
        Ok(())
    }
}

/// A message of one line: as it is, or as a terminal is sent it.
#[derive(Clone, Copy)]
pub struct Escaped<'a, D> {
    pub what: &'a D,
    pub at_terminal: bool,
}

impl<D: Display> Display for Escaped<'_, D> {
    fn fmt<W: Write>(&self, f: &mut Formatter<W>) -> fmt::Result {
        if !self.at_terminal {
            return write!(f, "{}", self.what);
        }
        let mut escaping = Escaping { on: f };
        write!(escaping, "{}", self.what)
    }
}

/// Tells a line on standard error.
pub fn tell<D: Display>(rt: &impl Runtime, audience: Audience, what: &D) {
    let at_terminal = audience.person;
    let _ = eprintln!(rt; "{}", Escaped { what, at_terminal });
}

/// A name as a terminal is sent it.
pub fn escaped_name(alloc: Global, name: &str) -> Result<String, AllocError> {
    let what = &name;
    format!(in alloc;
        "{}",
        Escaped {
            what,
            at_terminal: true
        }
    )
}
