//! Writing tables, indexes and lists of indexes.

ghost use Rattle.std.specs.Prelude.{◌≡◌, ◌<◌, ◌++◌, length, OnOk};
ghost use Rattle.code_parts.specs.Texts.{counted_text, field_text, table_text, key_part_text, index_text, list_text};

use crate::writing::{Writes, put_all};
use dbf_file::Field;
use shape::{IndexList, IndexShape, KeyPart, TableShape};
use std::alloc::AllocError;

/// Puts the length of a text of less than 256 bytes, and the text.
pub(crate) fn put_counted(out: &mut Vec<u8>, text: &[u8]) -> Result<(), AllocError>
    requires { length text.now < 256 }
    ensures { OnOk result (out.new.items ≡ out.old.items ++ counted_text text.now) }
{
    out.push(text.len() as u8)?;
    out.extend_from_slice(text)
}

impl Writes for Field {
    ghost text = { field_text };

    ghost fits = { λ _. Unit {0} };

    fn put(&self, out: &mut Vec<u8>) -> Result<(), AllocError> {
        put_counted(out, self.name.as_slice())?;
        out.push(self.letter.code())?;
        out.push(self.width)?;
        out.push(self.decimals)?;
        Ok(())
    }
}

impl Writes for TableShape {
    ghost text = { table_text };

    ghost fits = { λ t. length t.fields < 256 };

    fn put(&self, out: &mut Vec<u8>) -> Result<(), AllocError> {
        put_counted(out, self.name.as_slice())?;
        out.push(self.fields.len() as u8)?;
        put_all(out, self.fields.as_slice())
    }
}

impl Writes for KeyPart {
    ghost text = { key_part_text };

    ghost fits = { λ _. Unit {0} };

    fn put(&self, out: &mut Vec<u8>) -> Result<(), AllocError> {
        out.push(self.field)?;
        out.push(u8::from(self.upper))?;
        Ok(())
    }
}

impl Writes for IndexShape {
    ghost text = { index_text };

    ghost fits = { λ _. Unit {0} };

    fn put(&self, out: &mut Vec<u8>) -> Result<(), AllocError> {
        let parts = self.key.parts();
        put_counted(out, self.name.as_slice())?;
        out.push(self.table)?;
        out.push(parts.len() as u8)?;
        put_all(out, parts)
    }
}

impl Writes for IndexList {
    ghost text = { list_text };

    ghost fits = { λ _. Unit {0} };

    fn put(&self, out: &mut Vec<u8>) -> Result<(), AllocError> {
        put_counted(out, self.indexes.as_slice())
    }
}
