//! Indexes declared.

ghost use Rattle.std.specs.Prelude.{◌≡◌, ◌≤◌, ◌==◌, length, IfOk, IfErr};
ghost use Rattle.std.specs.List.{list_any};
ghost use Rattle.folder_shapes.specs.Keys.{plain_text as plain_text_of};
ghost use Rattle.folder_shapes.specs.Owners.{HasKey, IsMaker, owner_of as owner_of_index};
ghost use Rattle.folder_shapes.specs.Reading.{UnfitIs};
ghost use Rattle.folder_shapes.specs.States.{taken_state};
ghost use Rattle.folder_shapes.specs.Told.{MayIndex, MayNotIndex, NotOwned, is_stale, stale_by};
ghost use Rattle.folder_shapes.specs.declared.owners.Owner.TheVariants as owner;

use crate::declared::FolderDeclared;
use crate::found::FoundTable;
use crate::keys::plain_text;
use crate::names::{capitals, has_small, stem};
use crate::note::Note;
use crate::owners::{Owner, key_of_table, owner_of};
use crate::unfit::Unfit;
use key_lists::KeyList;
use ndx_tree::NdxTree;
use shape::{IndexShape, KeyParts};
use std::alloc::{AllocError, Global};

/// The most indexes that are declared.
const MOST_INDEXES: usize = 64;

/// An index whose table is known.
#[derive(Drop)]
pub struct Owned {
    pub table: usize,
    pub key: KeyParts,
    pub stale: bool,
}

/// The key that the fields of the table of that number make.
fn owner_key(
    alloc: Global,
    found: &[FoundTable],
    table: usize,
    plain: &[u8],
    key_length: usize,
) -> Result<KeyParts, AllocError>
    requires { IsMaker found.now key_length plain.now table }
    ensures { IfOk result (HasKey found.now key_length plain.now table) }
{
    match found.get(table) {
        Some(owner) => match key_of_table(alloc, &owner.table, plain, key_length)? {
            Some(key) => Ok(key),
            None => unreachable!(),
        },
        None => unreachable!(),
    }
}

/// Whether a number is among these.
fn is_among(numbers: &[usize], number: usize) -> bool
    ensures { result ≡ list_any (λ l. l == number) numbers.now }
{
    numbers.iter().any(|other| *other == number)
}

/// Whether an index is stale whose plain text and listed tables are these.
fn is_stale_of(tree: &NdxTree, plain: &[u8], listed: &[usize], table: usize) -> bool
    ensures { result ≡ stale_by listed.now table tree.now.form.key_text plain.now }
{
    !is_among(listed, table) || tree.key_text() != plain
}

/// The table of an index, its key, and whether the index is stale.
pub fn owned_by(alloc: Global, found: &[FoundTable], tree: &NdxTree) -> Result<Owned, Unfit>
    ensures of { IfOk result (λ x. owner_of_index found.now tree.now.form tree.now.pairs ≡ owner.Table x.table) }
    ensures key { IfOk result (λ x. HasKey found.now tree.now.form.key_length (plain_text_of tree.now.form.key_text)
        x.table x.key) }
    ensures stale { IfOk result (λ x. x.stale ≡ is_stale found.now tree.now.form tree.now.pairs x.table) }
    ensures unfit { IfErr result (UnfitIs (NotOwned found.now tree.now.form tree.now.pairs)) }
{
    let plain = plain_text(alloc, tree.key_text())?;
    let (owner, listed) = owner_of(alloc, found, plain.as_slice(), tree)?;
    match owner {
        Owner::Nobody => Err(Unfit::Noted(Note::NoOwner)),
        Owner::Unknown => Err(Unfit::Noted(Note::ManyOwners)),
        Owner::Table(table) => {
            let key = owner_key(alloc, found, table, plain.as_slice(), tree.key_length())?;
            let stale = is_stale_of(tree, plain.as_slice(), listed.as_slice(), table);
            Ok(Owned { table, key, stale })
        }
    }
}

/// The declaration of an index in a file of that name behind what is declared, and whether it is stale.
pub fn index_shape(
    alloc: Global,
    declared: &FolderDeclared,
    name: &[u8],
    tree: &NdxTree,
) -> Result<(IndexShape, bool), Unfit>
    requires { length declared.now.found.items ≤ 32 }
    ensures index { IfOk result (λ x. MayIndex (taken_state declared.now) name.now tree.now.form tree.now.pairs x.0) }
    ensures stale { IfOk result (λ x. x.1 ≡ is_stale declared.now.found.items tree.now.form tree.now.pairs x.0.table) }
    ensures unfit { IfErr result (UnfitIs (MayNotIndex (taken_state declared.now) name.now tree.now.form
        tree.now.pairs)) }
{
    let Owned { table, key, stale } = owned_by(alloc, declared.found.as_slice(), tree)?;
    let Some(capitals) = capitals(stem(name)) else {
        return Err(Unfit::Noted(Note::NoName));
    };
    let index = IndexShape {
        name: capitals,
        table: table as u8,
        key,
    };
    if !index.is_index(declared.tables.as_slice()) {
        return Err(Unfit::Noted(Note::NoName));
    }
    if has_small(name) {
        return Err(Unfit::Noted(Note::SmallLetters));
    }
    if MOST_INDEXES <= declared.indexes.len() {
        return Err(Unfit::Noted(Note::TooMany));
    }
    if !index.is_next(declared.tables.as_slice(), declared.indexes.as_slice()) {
        return Err(Unfit::Noted(Note::TooMany));
    }
    Ok((index, stale))
}
