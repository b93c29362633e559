//! The file of the table that a line of a declaration file names.

ghost use Rattle.std.specs.Prelude.{◌≡◌, ℕ, List, Some, IfSome, IsTrue, map, true};
ghost use Rattle.std.specs.Char.{to_ascii_lowercase};
ghost use Rattle.file_access.specs.Holding.{SameFiles};
ghost use Rattle.folder_shapes.specs.Reading.{NoTableFile};
ghost use Rattle.hints.specs.Sentences.{is_sentence};

use crate::kinds::{of_declaration, of_table_note};
use arrayvec::ArrayVec;
use file_access::{FILE_LIMIT, Files};
use folder_shapes::{Note, Unfit, table_file};
use prg_expr::{Token, words};
use shape_files::{FileName, LineFault, file_of};
use std::alloc::Global;
use std::str;

/// The file of the table that a line names behind its first word.
fn file_of_line(alloc: Global, line: &[u8]) -> Option<FileName> {
    let read = words(alloc, line).ok()?;
    match read.words.as_slice() {
        [Token::Name(_), Token::Name(name), ..] => file_of(*name),
        _ => None,
    }
}

/// Why a file isn't that of a table that may be declared. None where it is, or where memory was refused.
fn note_of<F: Files>(alloc: Global, files: &mut F, file: &FileName) -> Option<Note>
    ensures told { IfSome result (NoTableFile (F.holds files.old) file.now.bytes) }
    ensures kept { SameFiles (F.holds files.old) (F.holds files.new) }
{
    match table_file(alloc, files, file.as_str().as_bytes()) {
        Err(Unfit::Noted(note)) => Some(note),
        Err(Unfit::Memory) => None,
        Ok(_) => None,
    }
}

/// Whether a file stands under the same name in small letters.
fn stands_small<F: Files>(alloc: Global, files: &mut F, file: &FileName) -> bool
    ensures told { IsTrue result
        → (bytes : List ℕ) × F.holds files.old (map to_ascii_lowercase file.now.bytes) (Some bytes) }
    ensures kept { SameFiles (F.holds files.old) (F.holds files.new) }
{
    let mut small = ArrayVec::<u8, 12>::new();
    if small
        .try_extend_from_slice(file.as_str().as_bytes())
        .is_err()
    {
        return false;
    }
    small.as_mut_slice().make_ascii_lowercase();
    match str::from_utf8(small.as_slice()) {
        Ok(name) => files.read(alloc, name, FILE_LIMIT).is_ok(),
        Err(_) => false,
    }
}

/// What to do about a line of a declaration file whose table can't be taken, in one sentence without its point.
pub fn of_table_line<F: Files>(alloc: Global, files: &mut F, line: &[u8]) -> &'static str
    ensures sentence { is_sentence result.now ≡ true }
    ensures kept { SameFiles (F.holds files.old) (F.holds files.new) }
{
    let Some(file) = file_of_line(alloc, line) else {
        return of_declaration(LineFault::Table);
    };
    match note_of(alloc, files, &file) {
        Some(Note::Gone) => {
            if stands_small(alloc, files, &file) {
                return of_table_note(Note::SmallLetters);
            }
            of_table_note(Note::Gone)
        }
        Some(note) => of_table_note(note),
        None => of_declaration(LineFault::Table),
    }
}
