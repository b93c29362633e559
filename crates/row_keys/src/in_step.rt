//! A list of keys kept in step with the rows of its table.

ghost use Rattle.std.specs.Prelude.{◌≡◌, ◌<◌, Contains, length, slice_index};
ghost use Rattle.dbf_file.specs.Rows.{with_text};
ghost use Rattle.dbf_file.specs.Tables.{row_widths};
ghost use Rattle.row_keys.specs.Lists.{list_by, row_pair, IsIndexOf, IsExact, HasAdded, HasFollowed};

use crate::key_change::{key_with, names_field};
use crate::laws::index_lists;
use dbf_file::Table;
use key_lists::KeyList;
use shape::KeyParts;

/// Puts the pair of row `r`, counted from 0, into a list of this key.
#[tactic(auto, unfolding(crate::specs::Lists::row_pair))]
pub fn add_row<K: KeyList>(list: &mut K, key: &KeyParts, table: &Table, r: usize)
    requires row { r < length table.now.rows }
    requires few { r < 1000000 }
    requires index { IsIndexOf table.now.structure key.now (list_by K.pairs K.spare K.form list.old) }
    requires reserved { 0 < K.spare list.old }
    requires absent { ¬ Contains (K.pairs list.old) (row_pair key.now table.now.rows r) }
    ensures { HasAdded table.now.rows r key.now (list_by K.pairs K.spare K.form list.old)
        (list_by K.pairs K.spare K.form list.new) }
{
    let text = key.row_key(table, r);
    list.insert(text.as_slice(), r as u32 + 1);
}

/// Has a list of this key follow a change of row `r`: field `f` of it, both counted from 0, had this text before. Where
/// the row's key stayed equal the list is left alone.
pub fn follow<K: KeyList>(
    list: &mut K,
    key: &KeyParts,
    table: &Table,
    r: usize,
    f: usize,
    before: &[u8],
)
    requires row { r < length table.now.rows }
    requires few { r < 1000000 }
    requires field { f < length table.now.structure.fields }
    requires width { length before.now ≡ slice_index (row_widths table.now.structure) f }
    requires exact { IsExact table.now.structure (with_text table.now.rows r f before.now) key.now
        (list_by K.pairs K.spare K.form list.old) }
    requires reserved { 0 < K.spare list.old }
    ensures { HasFollowed table.now.structure table.now.rows key.now (list_by K.pairs K.spare K.form list.old)
        (list_by K.pairs K.spare K.form list.new) }
{
    index_lists();
    if !names_field(key, f) {
        return;
    }
    let old = key_with(key, table, r, f, before);
    let new = key.row_key(table, r);
    if old.as_slice() == new.as_slice() {
        return;
    }
    list.remove(old.as_slice(), r as u32 + 1);
    list.insert(new.as_slice(), r as u32 + 1);
}
