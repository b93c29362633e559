//! Lists of indexes read from their files.

ghost use Rattle.std.specs.Prelude.{◌≡◌, ◌≤◌, ◌↔◌, true, List, length, IfOk, IfErr, IfSome, IsSomeAnd};
ghost use Rattle.std.specs.Prelude.{IsTrue};
ghost use Rattle.file_access.specs.Holding.{Rose, SameFiles};
ghost use Rattle.ndx_tree.specs.IndexFile.{IsIndexFile};
ghost use Rattle.key_lists.specs.Pairs.{Pair};
ghost use Rattle.shape.specs.Names.{is_file_name};
ghost use Rattle.shape.specs.Whole.{is_shape};
ghost use Rattle.work_area.specs.Making.{key_form};
ghost use Rattle.table_files.specs.Loading.{IsListOf, AreListsOf};
ghost use Rattle.table_files.specs.Refusals.{ListRefused, ListsRefused};

use crate::names::index_file_name;
use crate::refusal::FilesRefusal;
use file_access::{FILE_LIMIT, Files, ReadFault};
use ndx_tree::{NdxTree, TreeFault};
use shape::laws::legal_shapes_have_keys;
use shape::{IndexShape, Shape, TableShape};
use std::alloc::{AllocError, Global};
use work_area::handed::is_list_of;

/// Whether an index file wasn't read for want of memory.
fn is_memory(fault: TreeFault) -> bool
    ensures { IsTrue result ↔ (fault ≡ TreeFault.Memory) }
{
    matches!(fault, TreeFault::Memory)
}

/// The list in the bytes of an index's file; none where they are no index file, or one of another key.
fn list_in(
    alloc: Global,
    bytes: &[u8],
    table: &TableShape,
    index: &IndexShape,
) -> Result<Option<NdxTree>, AllocError>
    requires { length bytes.now ≤ 67108864 }
    ensures form { IfOk result (λ list. IfSome list (λ k. k.form ≡ key_form table.now index.now)) }
    ensures just { IfOk result (λ list. (pairs : List Pair)
        → IsSomeAnd list (λ k. k.pairs ≡ pairs) ↔ IsIndexFile bytes.now (key_form table.now index.now) pairs) }
{
    let tree = match NdxTree::read(alloc, bytes) {
        Ok(tree) => tree,
        Err(fault) => {
            if is_memory(fault) {
                return Err(AllocError);
            }
            return Ok(None);
        }
    };
    if !is_list_of(&tree, table, index) {
        return Ok(None);
    }
    Ok(Some(tree))
}

/// The list of a declared index, read from its file; none where there is no such file, it is above 64 MiB, or no index
/// file of the declared key.
fn load_list<F: Files>(
    alloc: Global,
    files: &mut F,
    table: &TableShape,
    index: &IndexShape,
) -> Result<Option<NdxTree>, FilesRefusal>
    requires { is_file_name index.now.name.items ≡ true }
    ensures loaded { IfOk result (IsListOf (F.holds files.old) table.now index.now) }
    ensures refused { IfErr result (ListRefused index.now (Rose (F.failed files.old) (F.failed files.new))) }
    ensures kept { SameFiles (F.holds files.old) (F.holds files.new) }
    ensures counted { F.failed files.old ≤ F.failed files.new }
{
    let name = index_file_name(index);
    let bytes = match files.read(alloc, name.as_str(), FILE_LIMIT) {
        Ok(bytes) => bytes,
        Err(ReadFault::Absent) => return Ok(None),
        Err(ReadFault::TooLong) => return Ok(None),
        Err(ReadFault::Device) => return Err(FilesRefusal::Disk { name }),
        Err(ReadFault::Memory) => return Err(FilesRefusal::Memory),
    };
    let list = list_in(alloc, bytes.as_slice(), table, index)?;
    Ok(list)
}

/// The lists of the declared indexes in their order, each read from its file.
pub(crate) fn load_lists<F: Files>(
    alloc: Global,
    files: &mut F,
    shape: &Shape,
) -> Result<Vec<Option<NdxTree>>, FilesRefusal>
    requires { is_shape shape.now ≡ true }
    ensures loaded { IfOk result (λ lists. AreListsOf (F.holds files.old) shape.now lists.items) }
    ensures refused { IfErr result (ListsRefused shape.now (Rose (F.failed files.old) (F.failed files.new))) }
    ensures kept { SameFiles (F.holds files.old) (F.holds files.new) }
    ensures counted { F.failed files.old ≤ F.failed files.new }
{
    legal_shapes_have_keys();
    let mut lists = Vec::with_capacity(alloc, shape.indexes.len())?;
    for n in 0..shape.indexes.len() {
        let index = shape.indexes.get(n);
        let table = shape.tables.get(usize::from(index.table));
        let list = load_list(alloc, files, table, index)?;
        lists.push(list)?;
    }
    Ok(lists)
}
