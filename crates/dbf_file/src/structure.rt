//! The structure of a table.

ghost use Rattle.std.specs.Prelude.{◌≡◌, ◌+◌, ◌<◌, ◌≤◌, IfOk, length, take};
ghost use Rattle.dbf_file.specs.Fields.{places_from, total, widths_of};

use crate::field::Field;
use std::alloc::{AllocError, Global};
use std::marker::Model;

/// The structure of a table: its fields, where each begins in a record, and every byte of its header that is kept.
#[derive(Drop)]
pub struct Structure {
    fields: Vec<Field>,
    places: Vec<u16>,
    head: Vec<u8>,
}

impl Model for Structure {
    ghost use Rattle.std.specs.Prelude.{◌≡◌};
    ghost use Rattle.dbf_file.specs.Fields.{places_from, widths_of};
    ghost use Rattle.dbf_file.specs.Tables.{StructureState};

    ghost Value = { StructureState };

    ghost view = { λ s. record { fields = s.fields.items; head = s.head.items } };

    ghost invariant = { λ s. s.places.items ≡ places_from 1 (widths_of s.fields.items) };
}

/// The same fields once more, in a vector.
pub fn copied_fields(alloc: Global, fields: &[Field]) -> Result<Vec<Field>, AllocError>
    ensures { IfOk result (λ copies. copies.items ≡ fields.now) }
{
    let mut copies = Vec::with_capacity(alloc, fields.len())?;
    for field in fields {
        copies.push(field.copied())?;
    }
    Ok(copies)
}

/// Where each field begins in a record, behind its mark and the fields before it.
fn places_of(alloc: Global, fields: &[Field]) -> Result<Vec<u16>, AllocError>
    requires { length fields.now ≤ 128 }
    ensures { IfOk result (λ places. places.items ≡ places_from 1 (widths_of fields.now)) }
{
    let mut places = Vec::with_capacity(alloc, fields.len())?;
    let mut place = 1;
    for field in fields {
        places.push(place)?;
        place += u16::from(field.width);
    }
    Ok(places)
}

impl Structure {
    /// The structure of these fields and these bytes of a header from its byte 12 on.
    pub(crate) fn of_parts(
        alloc: Global,
        fields: &[Field],
        head: &[u8],
    ) -> Result<Structure, AllocError>
        requires { length fields.now ≤ 128 }
        ensures fields { IfOk result (λ structure. structure.fields ≡ fields.now) }
        ensures head { IfOk result (λ structure. structure.head ≡ head.now) }
    {
        Ok(Structure {
            fields: copied_fields(alloc, fields)?,
            places: places_of(alloc, fields)?,
            head: Vec::from_slice(alloc, head)?,
        })
    }

    /// The fields in their order.
    pub fn fields(&self) -> &[Field]
        ensures { result.now ≡ self.now.fields }
    {
        self.fields.as_slice()
    }

    /// Where field `f` begins in a record, behind its mark and the fields before it.
    pub(crate) fn place(&self, f: usize) -> usize
        requires { f < length self.now.fields }
        ensures value { result ≡ 1 + total (take f (widths_of self.now.fields)) }
        ensures bound { result < 65536 }
    {
        usize::from(self.places[f])
    }

    /// The header's bytes from byte 12 on: all that is kept of it.
    pub fn head(&self) -> &[u8]
        ensures { result.now ≡ self.now.head }
    {
        self.head.as_slice()
    }
}
