//! Keys of a row of which a field had another text.

ghost use Rattle.std.specs.Prelude.{◌≡◌, ◌<◌, length, slice_index};
ghost use Rattle.std.specs.Prelude.{slice_index_or, slice_set, []};
ghost use Rattle.dbf_file.specs.Rows.{row_at};
ghost use Rattle.dbf_file.specs.Tables.{row_widths};
ghost use Rattle.shape.specs.Keys.{IsKey, key_of, key_length};
ghost use Rattle.row_keys.specs.Lists.{names_field as names_field_of};

use arrayvec::ArrayVec;
use dbf_file::Table;
use shape::{KeyParts, put_text};

/// Whether a key is made of a field, counted from 0, among others.
pub(crate) fn names_field(key: &KeyParts, f: usize) -> bool
    ensures { result ≡ names_field_of key.now f }
{
    key.parts().iter().any(|part| usize::from(part.field) == f)
}

/// The text of field `g` of row `r`, both counted from 0, where field `f` has this text.
fn text_with<'a>(table: &'a Table, r: usize, f: usize, text: &'a [u8], g: usize) -> &'a [u8]
    requires row { r < length table.now.rows }
    requires field { f < length table.now.structure.fields }
    requires width { length text.now ≡ slice_index (row_widths table.now.structure) f }
    requires other { g < length table.now.structure.fields }
    ensures text { result.now ≡ slice_index_or (slice_set (row_at table.now.rows r).texts f text.now) g [] }
    ensures width { length result.now ≡ slice_index (row_widths table.now.structure) g }
{
    table.rows();
    if g == f {
        return text;
    }
    table.field(r, g)
}

/// The key of row `r` where field `f`, both counted from 0, has this text, which is as wide as the field.
pub(crate) fn key_with(
    key: &KeyParts,
    table: &Table,
    r: usize,
    f: usize,
    text: &[u8],
) -> ArrayVec<u8, 100>
    requires row { r < length table.now.rows }
    requires field { f < length table.now.structure.fields }
    requires width { length text.now ≡ slice_index (row_widths table.now.structure) f }
    requires key { IsKey table.now.structure key.now }
    ensures key { result.items ≡ key_of key.now (slice_set (row_at table.now.rows r).texts f text.now) }
    ensures length { length result.items ≡ key_length key.now (row_widths table.now.structure) }
{
    let mut made = ArrayVec::new();
    let mut rest = key.parts();
    while let Some((part, others)) = rest.split_first() {
        put_text(
            &mut made,
            text_with(table, r, f, text, usize::from(part.field)),
            part.upper,
        );
        rest = others;
    }
    made
}
