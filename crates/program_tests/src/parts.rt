// Cases as text. What stands before the first `#` is common to the cases; each case begins with `#` and its name, and
// each part with `%` and a word. A part says what stands behind its word, up to the next `%` or `#`.
#![tactic(auto)]

use std::alloc::AllocError;

/// The words of parts. What stands behind another word would be asked of nobody.
const WORDS: &str = "\
absent again both budget bytes calls checked code constants cut day declarations each ended fails \
failures faults file files filters first full handed holds index indexes kept keys lends length limit lines \
list maps original over part parts procedures refused rehearsed room rows saved screens set shape slots sorted \
source stack starves steps table tables told typed untagged untold verdict works";

/// A case: its own parts, and those that it has in common with others.
#[derive(Clone, Copy)]
pub struct RunCase<'a> {
    pub own: &'a str,
    pub common: &'a str,
}

/// What the first part of this word says.
fn said_in<'a>(text: &'a str, word: &str) -> Option<&'a str> {
    for part in text.split('%') {
        if let Some(said) = part.strip_prefix(word) {
            return Some(said);
        }
    }
    None
}

fn is_word(word: &str) -> bool {
    for known in WORDS.split(' ') {
        if known == word {
            return true;
        }
    }
    false
}

/// Whether each part of a case has a word that is known.
pub fn are_known(own: &str) -> bool {
    let Some((_, parts)) = own.split_once('%') else {
        return true;
    };
    for part in parts.split('%') {
        if !is_word(part.split_whitespace().next().unwrap_or("")) {
            return false;
        }
    }
    true
}

impl<'a> RunCase<'a> {
    /// Whether the case has a part of this word of its own.
    pub fn has(&self, word: &str) -> bool {
        said_in(self.own, word).is_some()
    }

    /// What the part of this word says; nothing where there is none.
    pub fn says(&self, word: &str) -> &'a str {
        match said_in(self.own, word) {
            Some(said) => said,
            None => said_in(self.common, word).unwrap_or(""),
        }
    }

    /// The first line of what the part of this word says, without blanks at its end.
    pub fn line(&self, word: &str) -> &'a str {
        self.says(word).lines().next().unwrap_or("").trim_end()
    }

    /// The number that the part of this word says; another one where it says none.
    pub fn number(&self, word: &str, otherwise: u64) -> u64 {
        self.line(word).parse().unwrap_or(otherwise)
    }
}

/// The number at a place among the words of a text, in hexadecimal digits behind `0x`; 0 where there is none.
pub fn number_at(text: &str, place: usize) -> u64 {
    let word = text.split_whitespace().nth(place).unwrap_or("");
    match word.strip_prefix("0x") {
        Some(digits) => u64::from_str_radix(digits, 16).unwrap_or(0),
        None => word.parse().unwrap_or(0),
    }
}

/// Whether a text was made, and is this one.
pub fn is_text(made: Result<String, AllocError>, wanted: &str) -> bool {
    match made {
        Ok(text) => text.as_str() == wanted,
        Err(_) => false,
    }
}

/// Whether bytes were made, and are these.
pub fn are_bytes(made: Result<Vec<u8>, AllocError>, wanted: &[u8]) -> bool {
    match made {
        Ok(bytes) => bytes.as_slice() == wanted,
        Err(_) => false,
    }
}

/// Whether a text was made, and begins so.
pub fn begins(made: Result<String, AllocError>, wanted: &str) -> bool {
    match made {
        Ok(text) => text.as_str().starts_with(wanted),
        Err(_) => false,
    }
}
