//! Files of tables and indexes read.

ghost use Rattle.std.specs.Prelude.{◌≢◌, ◌≤◌, ◌∷◌, [], length, slice_range, IfOk, IfErr, IsTrue};
ghost use Rattle.file_access.specs.Holding.{SameFiles};
ghost use Rattle.ndx_tree.specs.IndexFile.{IsIndexFile};
ghost use Rattle.folder_shapes.specs.Reading.{IsReadAs, NotRead, UnfitIs, IsTable, NoTableIs, NoIndexIs};

use crate::found::FoundTable;
use crate::note::Note;
use crate::unfit::Unfit;
use dbf_file::DbfFault;
use file_access::{FILE_LIMIT, Files, ReadFault};
use ndx_tree::{NdxTree, TreeFault};
use std::alloc::Global;
use std::str;

/// The most rows of a table.
const MOST_ROWS: usize = 1_000_000;

/// The bytes of a file of at most 64 MiB.
pub fn read_bytes<F: Files>(alloc: Global, files: &mut F, name: &[u8]) -> Result<Vec<u8>, Unfit>
    ensures bytes { IfOk result (λ bytes. IsReadAs (F.holds files.old) name.now bytes.items) }
    ensures unfit { IfErr result (UnfitIs (NotRead (F.holds files.old) name.now)) }
    ensures kept { SameFiles (F.holds files.old) (F.holds files.new) }
{
    let Ok(name) = str::from_utf8(name) else {
        return Err(Unfit::Noted(Note::NoText));
    };
    match files.read(alloc, name, FILE_LIMIT) {
        Ok(bytes) => Ok(bytes),
        Err(ReadFault::Absent) => Err(Unfit::Noted(Note::Gone)),
        Err(ReadFault::TooLong) => Err(Unfit::Noted(Note::TooLong)),
        Err(ReadFault::Device) => Err(Unfit::Noted(Note::Unreadable)),
        Err(ReadFault::Memory) => Err(Unfit::Memory),
    }
}

/// The table in these bytes.
pub fn table_in(alloc: Global, bytes: &[u8]) -> Result<FoundTable, Unfit>
    ensures table { IfOk result (IsTable bytes.now) }
    ensures unfit { IfErr result (UnfitIs (NoTableIs bytes.now)) }
{
    match dbf_file::read(alloc, bytes, MOST_ROWS) {
        Ok(table) => Ok(FoundTable { table }),
        Err(DbfFault::Memory) => Err(Unfit::Memory),
        Err(DbfFault::Version) => match bytes.first() {
            Some(version) => Err(Unfit::Noted(Note::Version(*version))),
            None => Err(Unfit::Noted(Note::NoTable(DbfFault::Version))),
        },
        Err(fault) => Err(Unfit::Noted(Note::NoTable(fault))),
    }
}

/// Whether the head of an index file tells keys of numbers.
fn has_numbers(bytes: &[u8]) -> bool
    ensures { IsTrue result → slice_range bytes.now 16 18 ≢ 0 ∷ 0 ∷ [] }
{
    bytes.len() >= 512 && &bytes[16..18] != [0u8, 0].as_slice()
}

/// The index in these bytes.
pub fn index_in(alloc: Global, bytes: &[u8]) -> Result<NdxTree, Unfit>
    requires { length bytes.now ≤ 67108864 }
    ensures index { IfOk result (λ tree. IsIndexFile bytes.now tree.form tree.pairs) }
    ensures unfit { IfErr result (UnfitIs (NoIndexIs bytes.now)) }
{
    match NdxTree::read(alloc, bytes) {
        Ok(tree) => Ok(tree),
        Err(TreeFault::Memory) => Err(Unfit::Memory),
        Err(TreeFault::Head) => {
            if has_numbers(bytes) {
                return Err(Unfit::Noted(Note::Numbers));
            }
            Err(Unfit::Noted(Note::NoIndex(TreeFault::Head)))
        }
        Err(fault) => Err(Unfit::Noted(Note::NoIndex(fault))),
    }
}
