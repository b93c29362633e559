//! What follows of loading and saving. The functions do nothing: their contracts are the laws.

ghost use Rattle.std.specs.Prelude.{◌≡◌, ℕ, true, List};
ghost use Rattle.dbf_file.specs.declared.stamp.Stamp.{Stamp as TheStamp};
ghost use Rattle.dbf_file.specs.Rows.{Row};
ghost use Rattle.dbf_file.specs.Tables.{DbfText, StructureState};
ghost use Rattle.file_access.specs.Holding.{HoldsOneThing};
ghost use Rattle.shape.specs.Whole.{is_shape};
ghost use Rattle.shape.specs.declared.whole.Shape.{Shape as TheShape};
ghost use Rattle.work_area.specs.Areas.{StoreState};
ghost use Rattle.work_area.specs.Shapes.{StoreHasShape};
ghost use Rattle.table_files.specs.Loading.{Loaded};
ghost use Rattle.table_files.specs.Saving.{AreSaved, FindsLists, FindsSaved, HoldsLists};

use file_access::Files;
use work_area::laws::indexes_have_their_declared_keys;

/// Bytes that are a table's file hold one table alone: its structure with the bytes that are kept, its rows and its
/// stamp are known.
pub fn bytes_hold_one_table()
    ensures { (one other : StructureState) (rows others : List Row) (stamp later : TheStamp) (bytes : List ℕ)
        → DbfText one rows stamp bytes → DbfText other others later bytes
        → (one ≡ other) × (rows ≡ others) × (stamp ≡ later) }
{}

/// A load after a save that ended with the first k declared files replaced, or with all of them, finds the tables of
/// these files as the store had them, and the others as their files held them before. That is so where each name holds
/// one thing alone.
pub fn loads_find_what_was_saved<F: Files>()
    ensures { (before after : F) (shape : TheShape) (store loaded : StoreState) (stamp : TheStamp) (k limit : ℕ)
        → HoldsOneThing (F.holds after) → is_shape shape ≡ true
        → AreSaved shape store stamp k (F.holds before) (F.holds after) → Loaded (F.holds after) shape limit loaded
        → FindsSaved (F.holds before) shape store k limit loaded }
{}

/// A save of a store of a shape ended behind the first k declared files, or behind all of them. The file of each index
/// among these that isn't stale then lists the rows of its table under the declared key: its length, and the text that
/// says how it is made.
pub fn saved_indexes_have_their_declared_keys<F: Files>()
    ensures { (before after : F) (shape : TheShape) (store : StoreState) (stamp : TheStamp) (k : ℕ)
        → StoreHasShape shape store
        → AreSaved shape store stamp k (F.holds before) (F.holds after) → HoldsLists (F.holds after) shape store k }
{
    indexes_have_their_declared_keys();
}

/// A load after such a save finds none of these indexes stale whose file has at most 64 MiB. That is so where each name
/// holds one thing alone.
pub fn loads_find_saved_indexes<F: Files>()
    ensures { (before after : F) (shape : TheShape) (store loaded : StoreState) (stamp : TheStamp) (k limit : ℕ)
        → HoldsOneThing (F.holds after) → is_shape shape ≡ true
        → AreSaved shape store stamp k (F.holds before) (F.holds after) → Loaded (F.holds after) shape limit loaded
        → FindsLists (F.holds after) shape store k loaded }
{}
