//! Names of tables and indexes, and of tables' files.

ghost use Rattle.std.specs.Prelude.{◌≡◌, ◌<◌, ◌⊎◌, true, false, length, MatchOption};
ghost use Rattle.std.specs.Str.{IsUtf8, bytes_eq};
ghost use Rattle.shape.specs.Names.{is_file_name as is_file_name_of};
ghost use Rattle.shape_files.specs.Shapes.{file_name};

use arrayvec::ArrayString;
use shape::{Name, is_file_name};
use std::str;

/// The name of a table's file.
pub type FileName = ArrayString<12>;

/// The name that a word is, if a table or an index can have it.
#[tactic(auto, unfolding(shape::specs::Names::is_file_name))]
pub fn name_in(word: &[u8]) -> Option<Name>
    ensures { MatchOption result (is_file_name_of word.now ≡ false)
        (λ name. (name.items ≡ word.now) × (is_file_name_of word.now ≡ true)) }
{
    if !is_file_name(word) {
        return None;
    }
    let mut name = Name::new();
    name.try_extend_from_slice(word).ok()?;
    Some(name)
}

/// Whether the name is this word.
pub fn is_word(name: &Name, word: &[u8]) -> bool
    ensures { result ≡ bytes_eq name.now.items word.now }
{
    name.as_slice() == word
}

/// The number in a byte, if it fits.
pub fn as_byte(number: usize) -> Option<u8>
    ensures { MatchOption result (255 < number) (λ byte. byte ≡ number) }
{
    if 255 < number {
        return None;
    }
    Some(number as u8)
}

/// The name of a table's file; none where the table's name is no text, or has more than eight bytes.
pub fn file_of(name: &[u8]) -> Option<FileName>
    ensures { MatchOption result ((¬ (IsUtf8 name.now)) ⊎ (8 < length name.now))
        (λ file. file.bytes ≡ file_name name.now) }
{
    let mut file = FileName::new();
    file.try_push_str(str::from_utf8(name).ok()?).ok()?;
    file.try_push_str(".DBF").ok()?;
    Some(file)
}
