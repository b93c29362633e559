//! The table to which an index belongs.

ghost use Rattle.std.specs.Prelude.{◌≡◌, IfOk};
ghost use Rattle.folder_shapes.specs.Keys.{made_of, plain_text};
ghost use Rattle.folder_shapes.specs.Owners as spec;

use crate::found::FoundTable;
use crate::keys::made_of;
use dbf_file::Table;
use key_lists::KeyList;
use ndx_tree::NdxTree;
use row_keys::exact::lists_rows;
use shape::KeyParts;
use shape::laws::fitting_keys_are_keys;
use std::alloc::{AllocError, Global};

/// To which of several tables an index belongs.
#[derive(Clone, Copy, PartialEq, Eq, Debug)]
pub enum Owner {
    /// To none: no table's fields make its key.
    Nobody,
    /// To one of several whose fields do; it isn't known to which.
    Unknown,
    /// To the table of that number.
    Table(usize),
}

/// The key that a table's fields make by a plain text, with keys of that length.
pub fn key_of_table(
    alloc: Global,
    table: &Table,
    plain: &[u8],
    key_length: usize,
) -> Result<Option<KeyParts>, AllocError>
    ensures { IfOk result (λ key. key ≡ made_of table.now.structure.fields key_length plain.now) }
{
    made_of(alloc, table.structure().fields(), plain, key_length)
}

/// Whether a table's fields make the key of an index.
fn makes(
    alloc: Global,
    found: &FoundTable,
    plain: &[u8],
    key_length: usize,
) -> Result<bool, AllocError>
    ensures { IfOk result (λ answer. answer ≡ spec.makes key_length plain.now found.now) }
{
    Ok(key_of_table(alloc, &found.table, plain, key_length)?.is_some())
}

/// Whether an index lists a table's rows under the key that its fields make.
fn lists(
    alloc: Global,
    found: &FoundTable,
    plain: &[u8],
    tree: &NdxTree,
) -> Result<bool, AllocError>
    ensures { IfOk result (λ answer. answer
        ≡ spec.lists tree.now.form.key_length plain.now tree.now.pairs found.now) }
{
    fitting_keys_are_keys();
    let key_length = tree.key_length();
    match key_of_table(alloc, &found.table, plain, key_length)? {
        Some(key) => Ok(lists_rows(&found.table, &key, tree)),
        None => Ok(false),
    }
}

/// The numbers of the tables whose fields make the key of an index.
fn makers(
    alloc: Global,
    tables: &[FoundTable],
    plain: &[u8],
    key_length: usize,
) -> Result<Vec<usize>, AllocError>
    ensures { IfOk result (λ numbers. numbers.items ≡ spec.numbers_of (spec.makes key_length plain.now) 0 tables.now) }
{
    let mut numbers = Vec::new(alloc);
    for (t, found) in tables.iter().enumerate() {
        if makes(alloc, found, plain, key_length)? {
            numbers.push(t)?;
        }
    }
    Ok(numbers)
}

/// The numbers of those whose rows it lists.
fn listed(
    alloc: Global,
    tables: &[FoundTable],
    plain: &[u8],
    tree: &NdxTree,
) -> Result<Vec<usize>, AllocError>
    ensures { IfOk result (λ numbers. numbers.items
        ≡ spec.numbers_of (spec.lists tree.now.form.key_length plain.now tree.now.pairs) 0 tables.now) }
{
    let mut numbers = Vec::new(alloc);
    for (t, found) in tables.iter().enumerate() {
        if lists(alloc, found, plain, tree)? {
            numbers.push(t)?;
        }
    }
    Ok(numbers)
}

/// The owner by the tables whose fields make the key and those whose rows are listed.
fn owner_among(makers: &[usize], listed: &[usize]) -> Owner
    ensures { result ≡ spec.owner_among makers.now listed.now }
{
    match (makers, listed) {
        ([], _) => Owner::Nobody,
        ([table], _) => Owner::Table(*table),
        (_, [table]) => Owner::Table(*table),
        _ => Owner::Unknown,
    }
}

/// The table to which an index belongs, and the numbers of those whose rows it lists. `plain` is the plain text of its
/// key.
pub fn owner_of(
    alloc: Global,
    tables: &[FoundTable],
    plain: &[u8],
    tree: &NdxTree,
) -> Result<(Owner, Vec<usize>), AllocError>
    requires { plain.now ≡ plain_text tree.now.form.key_text }
    ensures owner { IfOk result (λ x. x.0 ≡ spec.owner_of tables.now tree.now.form tree.now.pairs) }
    ensures listed { IfOk result (λ x. x.1.items ≡ spec.listed_tables tables.now tree.now.form tree.now.pairs) }
{
    let makers = makers(alloc, tables, plain, tree.key_length())?;
    let listed = listed(alloc, tables, plain, tree)?;
    Ok((owner_among(makers.as_slice(), listed.as_slice()), listed))
}
