//! Rows of tables as their bytes.

ghost use Rattle.std.specs.Prelude.{◌≡◌, ◌<◌, ◌++◌, length, map, IfOk, OnOk};
ghost use Rattle.std.specs.List.{concat};
ghost use Rattle.dbf_file.specs.Rows.{row_at, row_text};
ghost use Rattle.table_changes.specs.Rows.{texts_of};

use dbf_file::Table;
use std::alloc::{AllocError, Global};

/// Puts the texts of row `r` behind other bytes.
fn put_texts(out: &mut Vec<u8>, table: &Table, r: usize) -> Result<(), AllocError>
    requires { r < length table.now.rows }
    ensures { OnOk result (out.new.items ≡ out.old.items ++ concat (row_at table.now.rows r).texts) }
{
    let _ = table.rows();
    for f in 0..table.structure().fields().len() {
        out.extend_from_slice(table.field(r, f))?;
    }
    Ok(())
}

/// The bytes of row `r`.
#[tactic(auto, unfolding(dbf_file::specs::Rows::row_text))]
fn text_of(alloc: Global, table: &Table, r: usize) -> Result<Vec<u8>, AllocError>
    requires { r < length table.now.rows }
    ensures { IfOk result (λ text. text.items ≡ row_text (row_at table.now.rows r)) }
{
    let _ = table.rows();
    let mut text = Vec::new(alloc);
    text.push(if table.mark(r) { b'*' } else { b' ' })?;
    put_texts(&mut text, table, r)?;
    Ok(text)
}

/// The bytes of each row.
pub(crate) fn texts_of(alloc: Global, table: &Table) -> Result<Vec<Vec<u8>>, AllocError>
    ensures { IfOk result (λ texts. map (λ text. text.items) texts.items ≡ texts_of table.now.rows) }
{
    let mut texts = Vec::with_capacity(alloc, table.rows())?;
    for r in 0..table.rows() {
        texts.push(text_of(alloc, table, r)?)?;
    }
    Ok(texts)
}
