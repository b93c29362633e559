//! A table that is found in a folder.

ghost use Rattle.std.specs.Prelude.{◌≤◌, length};

use dbf_file::Table;

/// A table of a folder, of at most a million rows.
#[derive(Drop)]
pub struct FoundTable {
    pub table: Table,
    ghost few: { length table.rows ≤ 1000000 },
}
