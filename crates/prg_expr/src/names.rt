//! Names and command words.

ghost use Rattle.std.specs.Prelude.{◌≡◌, ◌≤◌, map, take, length};
ghost use Rattle.std.specs.Char.{to_ascii_uppercase};
ghost use Rattle.prg_expr.specs.Functions as functions;

use crate::tree::{MOST_LETTERS, Name};

/// The first bytes, so many of them, or all where there are not more.
pub(crate) fn front(bytes: &[u8], most: usize) -> &[u8]
    ensures value { result.now ≡ take most bytes.now }
    ensures within { length result.now ≤ most }
{
    if bytes.len() <= most {
        bytes
    } else {
        &bytes[..most]
    }
}

/// The name that a word spells: its letters in capitals, ten of them where there are more.
#[tactic(auto, using(crate::proofs::Equations::capitals_cut))]
pub fn name_of(word: &[u8]) -> Name
    ensures { result.items ≡ take 10 (map to_ascii_uppercase word.now) }
{
    let mut name = Name::new();
    let mut rest = front(word, MOST_LETTERS);
    while let Some((letter, others)) = rest.split_first() {
        name.push(letter.to_ascii_uppercase());
        rest = others;
    }
    name
}

/// Whether a word, in any letter case, is this one of capitals: all of it, or its first letters, four or more.
pub fn is_word(word: &[u8], whole: &[u8]) -> bool
    ensures { result ≡ functions.is_cut (map to_ascii_uppercase word.now) whole.now }
{
    is_front(word, whole) && (word.len() == whole.len() || 4 <= word.len())
}

/// Whether the letters, in any letter case, are the first ones of these capitals.
#[tactic(auto, unfolding(crate::specs::Functions::is_front))]
fn is_front(word: &[u8], whole: &[u8]) -> bool
    ensures { result ≡ functions.is_front (map to_ascii_uppercase word.now) whole.now }
{
    let Some((letter, letters)) = word.split_first() else {
        return true;
    };
    let Some((capital, capitals)) = whole.split_first() else {
        return false;
    };
    letter.to_ascii_uppercase() == *capital && is_front(letters, capitals)
}
