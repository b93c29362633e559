//! A shape once more.

ghost use Rattle.std.specs.Prelude.{◌≡◌, IfOk};

use shape::{IndexShape, Items, Shape, TableShape};
use std::alloc::{AllocError, Global};

fn copies_of_tables(alloc: Global, tables: &[TableShape]) -> Result<Vec<TableShape>, AllocError>
    ensures { IfOk result (λ copies. copies.items ≡ tables.now) }
{
    let mut copies = Vec::with_capacity(alloc, tables.len())?;
    for table in tables {
        copies.push(table.copied(alloc)?)?;
    }
    Ok(copies)
}

fn copies_of_indexes(alloc: Global, indexes: &[IndexShape]) -> Result<Vec<IndexShape>, AllocError>
    ensures { IfOk result (λ copies. copies.items ≡ indexes.now) }
{
    let mut copies = Vec::with_capacity(alloc, indexes.len())?;
    for index in indexes {
        copies.push(index.copied())?;
    }
    Ok(copies)
}

/// The same shape once more.
pub fn copy_of_shape(alloc: Global, shape: &Shape) -> Result<Shape, AllocError>
    ensures { IfOk result (λ copy. copy ≡ shape.now) }
{
    let tables = copies_of_tables(alloc, shape.tables.as_slice())?;
    let indexes = copies_of_indexes(alloc, shape.indexes.as_slice())?;
    Ok(Shape {
        tables: Items::of(tables),
        indexes: Items::of(indexes),
    })
}
