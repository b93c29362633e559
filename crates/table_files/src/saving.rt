//! A store's tables and indexes written to their files.

ghost use Rattle.std.specs.Prelude.{◌≡◌, ◌≤◌, ◌<◌, true, length, slice_get, is_some, Some, OnOk, IfOk, IfErr, IfSome};
ghost use Rattle.file_access.specs.Holding.{Rose};
ghost use Rattle.shape.specs.Whole.{is_shape};
ghost use Rattle.table_files.specs.Names.{files_of};
ghost use Rattle.table_files.specs.Saving.{is_written, IsTextOf, AreSaved, EndedAt};

use crate::names::{FileName, index_file_name, table_file_name};
use crate::refusal::FilesRefusal;
use dbf_file::Stamp;
use file_access::Files;
use ndx_tree::NdxTree;
use shape::Shape;
use std::alloc::{AllocError, Global};
use work_area::Store;

/// A file's name, and the bytes that it gets.
#[derive(Drop)]
struct NewFile {
    name: FileName,
    bytes: Vec<u8>,
}

/// The name and the bytes of the declared file of number k. The numbers begin at 0 and count the files of the tables
/// first, and those of the indexes behind them. The file of a stale index isn't written, and the answer is `None` then.
fn new_file(
    alloc: Global,
    shape: &Shape,
    store: &Store<NdxTree>,
    stamp: Stamp,
    k: usize,
) -> Result<Option<NewFile>, AllocError>
    requires legal { is_shape shape.now ≡ true }
    requires count { length store.now.tables ≡ length shape.now.tables }
    requires within { k < length (files_of shape.now) }
    ensures written { IfOk result (λ file. is_some file ≡ is_written shape.now store.now k) }
    ensures named { IfOk result (λ file. IfSome file (λ f. slice_get (files_of shape.now) k ≡ Some f.name.bytes)) }
    ensures text { IfOk result (λ file. IfSome file (λ f. IsTextOf shape.now store.now stamp k f.bytes.items)) }
{
    let tables = shape.tables.len();
    if k < tables {
        let name = table_file_name(shape.tables.get(k));
        let bytes = dbf_file::write(alloc, store.table(k as u16), stamp)?;
        return Ok(Some(NewFile { name, bytes }));
    }
    let n = k - tables;
    let Some(list) = store.keys(n as u8) else {
        return Ok(None);
    };
    let name = index_file_name(shape.indexes.get(n));
    let bytes = list.write(alloc)?;
    Ok(Some(NewFile { name, bytes }))
}

/// Replaces the file of every declared table, in their order, and then of every declared index that isn't stale, by
/// what the store holds. A table's file has this stamp; an index's lists the table's rows under the index's key. The
/// files of stale indexes stay.
///
/// # Errors
/// `Disk` names the file at which the device failed. On a refusal the first files of that order are new, and the others
/// as they were.
pub fn save<F: Files>(
    alloc: Global,
    files: &mut F,
    shape: &Shape,
    store: &Store<NdxTree>,
    stamp: Stamp,
) -> Result<(), FilesRefusal>
    requires legal { is_shape shape.now ≡ true }
    requires count { length store.now.tables ≡ length shape.now.tables }
    ensures saved { OnOk result (AreSaved shape.now store.now stamp (length (files_of shape.now)) (F.holds files.old)
        (F.holds files.new)) }
    ensures ended { IfErr result (EndedAt shape.now store.now stamp (F.holds files.old) (F.holds files.new)
        (Rose (F.failed files.old) (F.failed files.new))) }
    ensures counted { F.failed files.old ≤ F.failed files.new }
{
    for k in 0..shape.tables.len() + shape.indexes.len() {
        let Some(file) = new_file(alloc, shape, store, stamp, k)? else {
            continue;
        };
        let NewFile { name, bytes } = file;
        match files.replace(name.as_str(), bytes) {
            Ok(()) => {}
            Err(_) => return Err(FilesRefusal::Disk { name }),
        }
    }
    Ok(())
}
