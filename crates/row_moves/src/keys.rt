//! What must stand at the front of keys for a text that is sought.

ghost use Rattle.std.specs.Prelude.{◌≡◌, ◌≤◌, drop, slice_index_or};
ghost use Rattle.row_moves.specs.Moves.{is_all_blanks};
ghost use Rattle.row_moves.specs.Seeking.{cut_or_filled};

use arrayvec::ArrayVec;

/// The text cut to a length, or with blanks behind it up to that length.
pub(crate) fn cut_or_filled(text: &[u8], length: usize) -> ArrayVec<u8, 100>
    requires { length ≤ 100 }
    ensures { result.items ≡ cut_or_filled length text.now }
{
    let mut key = ArrayVec::new();
    for place in 0..length {
        key.push(byte_at(text, place));
    }
    key
}

// A byte of the text, or a blank behind it.
fn byte_at(text: &[u8], place: usize) -> u8
    ensures { result ≡ slice_index_or text.now place 32 }
{
    if place < text.len() {
        return text[place];
    }
    b' '
}

/// Whether nothing but blanks stands behind a length of the text.
pub(crate) fn is_blank_behind(text: &[u8], length: usize) -> bool
    ensures { result ≡ is_all_blanks (drop length text.now) }
{
    if text.len() <= length {
        return true;
    }
    is_blank(&text[length..])
}

// Whether the text is nothing but blanks.
fn is_blank(text: &[u8]) -> bool
    ensures { result ≡ is_all_blanks text.now }
{
    let mut rest = text;
    while let [byte, others @ ..] = rest {
        if *byte != b' ' {
            return false;
        }
        rest = others;
    }
    true
}
