//! A store of declared tables and indexes.

ghost use Rattle.std.specs.Prelude.{◌≡◌, ◌≤◌, true, min, IfOk, IfErr};
ghost use Rattle.file_access.specs.Holding.{Rose, SameFiles};
ghost use Rattle.shape.specs.Whole.{is_shape};
ghost use Rattle.work_area.specs.Shapes.{StoreHasShape};
ghost use Rattle.table_files.specs.Loading.{Loaded};
ghost use Rattle.table_files.specs.Refusals.{LoadRefused};

use crate::lists::load_lists;
use crate::refusal::FilesRefusal;
use crate::tables::load_tables;
use file_access::Files;
use ndx_tree::NdxTree;
use shape::Shape;
use std::alloc::Global;
use work_area::{MOST_RECORDS, Store};

/// The store of the tables and indexes that a shape declares, as their files hold them, all work areas closed. No table
/// may have more records than the smaller of `limit` and 1,000,000.
///
/// An index is stale if its file is absent, is above 64 MiB, is no index file, has another key, or has other pairs than
/// those of its table's rows.
///
/// # Errors
/// `Refused` names the first table whose file is absent, is above 64 MiB, is no table's file, or has other fields than
/// those declared. `Disk` is a failure of the device.
pub fn load<F: Files>(
    alloc: Global,
    files: &mut F,
    shape: &Shape,
    limit: u32,
) -> Result<Store<NdxTree>, FilesRefusal>
    requires legal { is_shape shape.now ≡ true }
    ensures loaded { IfOk result (Loaded (F.holds files.old) shape.now (min limit 1000000)) }
    ensures shape { IfOk result (StoreHasShape shape.now) }
    ensures refused { IfErr result (LoadRefused (F.holds files.old) shape.now (min limit 1000000)
        (Rose (F.failed files.old) (F.failed files.new))) }
    ensures kept { SameFiles (F.holds files.old) (F.holds files.new) }
    ensures counted { F.failed files.old ≤ F.failed files.new }
{
    let tables = load_tables(alloc, files, shape, limit.min(MOST_RECORDS))?;
    let lists = load_lists(alloc, files, shape)?;
    let store = Store::new(alloc, shape, tables, lists, limit)?;
    Ok(store)
}
