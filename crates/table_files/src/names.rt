//! Names of files.

ghost use Rattle.std.specs.Prelude.{◌≡◌, ◌++◌, ◌≤◌, true, length};
ghost use Rattle.shape.specs.Names.{is_file_name};
ghost use Rattle.table_files.specs.Names.{table_file, index_file};

use arrayvec::ArrayString;
use shape::laws::file_names_are_texts;
use shape::{IndexShape, Name, TableShape};
use std::str;

/// The name of a file: at most eight bytes, a point and three more.
pub type FileName = ArrayString<12>;

/// A name with an ending.
fn with_ending(name: &Name, ending: &str) -> FileName
    requires name { is_file_name name.now.items ≡ true }
    requires ending { length ending.now ≤ 4 }
    ensures { result.bytes ≡ name.now.items ++ ending.now }
{
    file_names_are_texts();
    let mut file = FileName::new();
    let text = str::from_utf8(name.as_slice()).unwrap();
    file.push_str(text);
    file.push_str(ending);
    file
}

/// The name of a declared table's file.
pub(crate) fn table_file_name(table: &TableShape) -> FileName
    requires { is_file_name table.now.name.items ≡ true }
    ensures { result.bytes ≡ table_file table.now }
{
    with_ending(&table.name, ".DBF")
}

/// The name of a declared index's file.
pub(crate) fn index_file_name(index: &IndexShape) -> FileName
    requires { is_file_name index.now.name.items ≡ true }
    ensures { result.bytes ≡ index_file index.now }
{
    with_ending(&index.name, ".NDX")
}
