//! Tables, indexes and lists of indexes.

ghost use Rattle.std.specs.Prelude.{◌≡◌, Ok};
ghost use Rattle.code_parts.specs.Reading.{Finds, judge, both_judged, in_list};
ghost use Rattle.code_parts.specs.Items.{name_from as name_from_bytes, name_read_at, field_from as field_from_parts};
ghost use Rattle.code_parts.specs.Items.{field_at, table_read_at, part_from as part_from_parts, part_at};
ghost use Rattle.code_parts.specs.Items.{index_from as index_from_parts, index_at, list_from as list_from_bytes};
ghost use Rattle.code_parts.specs.Items.{list_at};

use crate::fields::{byte_of, counted_text};
use crate::flaw::{Flaw, Missing, Unread};
use crate::kinds::truth_of_number;
use crate::several::{Reads, read_counted};
use arrayvec::ArrayVec;
use dbf_file::{Field, Letter};
use shape::{IndexList, IndexShape, Items, KeyPart, KeyParts, Name, TableShape};
use std::alloc::Global;

fn name_from(bytes: &[u8]) -> Result<Name, Flaw>
    ensures { result ≡ name_from_bytes bytes.now }
{
    let mut name = ArrayVec::new();
    if bytes.len() > 10 {
        return Err(Flaw::Shape);
    }
    name.try_extend_from_slice(bytes).unwrap();
    Ok(name)
}

#[tactic(auto, unfolding(crate::specs::Items::name_read_at))]
fn name_of(bytes: &[u8]) -> Result<(Result<Name, Flaw>, &[u8]), Missing>
    ensures { Finds (λ x. (x.0, x.1.now)) result (name_read_at bytes.now) }
{
    let (text, rest) = counted_text(bytes)?;
    Ok((name_from(text), rest))
}

fn field_from(name: Result<Name, Flaw>, letter: u8, width: u8, decimals: u8) -> Result<Field, Flaw>
    ensures { result
        ≡ judge (both_judged name (both_judged (Ok letter) (both_judged (Ok width) (Ok decimals)))) field_from_parts }
{
    let name = name?;
    match Letter::of_code(letter) {
        None => Err(Flaw::Shape),
        Some(letter) => Ok(Field {
            name,
            letter,
            width,
            decimals,
        }),
    }
}

/// Fields of tables.
#[derive(Clone, Copy)]
pub struct Fields;

impl Reads for Fields {
    type Thing = Field;

    ghost at = { λ _. field_at };

    #[tactic(auto, unfolding(crate::specs::Items::field_at))]
    fn read<'a>(
        &self,
        _alloc: Global,
        bytes: &'a [u8],
    ) -> Result<(Result<Field, Flaw>, &'a [u8]), Unread> {
        let (name, rest) = name_of(bytes)?;
        let (letter, rest) = byte_of(rest)?;
        let (width, rest) = byte_of(rest)?;
        let (decimals, rest) = byte_of(rest)?;
        Ok((field_from(name, letter, width, decimals), rest))
    }
}

fn table_from(
    name: Result<Name, Flaw>,
    fields: Result<Vec<Field>, Flaw>,
) -> Result<TableShape, Flaw>
    ensures { result ≡ judge (both_judged name (in_list fields)) (λ p. Ok (record { name = p.0; fields = p.1 })) }
{
    let name = name?;
    let fields = fields?;
    Ok(TableShape {
        name,
        fields: Items::of(fields),
    })
}

/// Tables.
#[derive(Clone, Copy)]
pub struct Tables;

impl Reads for Tables {
    type Thing = TableShape;

    ghost at = { λ _. table_read_at };

    #[tactic(auto, unfolding(crate::specs::Items::table_read_at))]
    fn read<'a>(
        &self,
        alloc: Global,
        bytes: &'a [u8],
    ) -> Result<(Result<TableShape, Flaw>, &'a [u8]), Unread> {
        let (name, rest) = name_of(bytes)?;
        let (fields, rest) = read_counted(alloc, &Fields, rest)?;
        Ok((table_from(name, fields), rest))
    }
}

fn part_from(field: u8, upper: u8) -> Result<KeyPart, Flaw>
    ensures { result ≡ part_from_parts (field, upper) }
{
    match truth_of_number(upper) {
        None => Err(Flaw::Shape),
        Some(upper) => Ok(KeyPart { field, upper }),
    }
}

/// Parts of keys.
#[derive(Clone, Copy)]
pub struct KeyPartItems;

impl Reads for KeyPartItems {
    type Thing = KeyPart;

    ghost at = { λ _. part_at };

    #[tactic(auto, unfolding(crate::specs::Items::part_at))]
    fn read<'a>(
        &self,
        _alloc: Global,
        bytes: &'a [u8],
    ) -> Result<(Result<KeyPart, Flaw>, &'a [u8]), Unread> {
        let (field, rest) = byte_of(bytes)?;
        let (upper, rest) = byte_of(rest)?;
        Ok((part_from(field, upper), rest))
    }
}

fn index_from(
    name: Result<Name, Flaw>,
    table: u8,
    parts: Result<Vec<KeyPart>, Flaw>,
) -> Result<IndexShape, Flaw>
    ensures { result ≡ judge (both_judged name (both_judged (Ok table) (in_list parts))) index_from_parts }
{
    let name = name?;
    let parts = parts?;
    if parts.len() > 8 {
        return Err(Flaw::Shape);
    }
    Ok(IndexShape {
        name,
        table,
        key: KeyParts::new(parts.as_slice()),
    })
}

/// Indexes.
#[derive(Clone, Copy)]
pub struct Indexes;

impl Reads for Indexes {
    type Thing = IndexShape;

    ghost at = { λ _. index_at };

    #[tactic(auto, unfolding(crate::specs::Items::index_at))]
    fn read<'a>(
        &self,
        alloc: Global,
        bytes: &'a [u8],
    ) -> Result<(Result<IndexShape, Flaw>, &'a [u8]), Unread> {
        let (name, rest) = name_of(bytes)?;
        let (table, rest) = byte_of(rest)?;
        let (parts, rest) = read_counted(alloc, &KeyPartItems, rest)?;
        Ok((index_from(name, table, parts), rest))
    }
}

fn list_from(bytes: &[u8]) -> Result<IndexList, Flaw>
    ensures { result ≡ list_from_bytes bytes.now }
{
    let mut indexes = ArrayVec::new();
    if bytes.len() > 7 {
        return Err(Flaw::Shape);
    }
    indexes.try_extend_from_slice(bytes).unwrap();
    Ok(IndexList { indexes })
}

/// Lists of indexes.
#[derive(Clone, Copy)]
pub struct ListItems;

impl Reads for ListItems {
    type Thing = IndexList;

    ghost at = { λ _. list_at };

    #[tactic(auto, unfolding(crate::specs::Items::list_at))]
    fn read<'a>(
        &self,
        _alloc: Global,
        bytes: &'a [u8],
    ) -> Result<(Result<IndexList, Flaw>, &'a [u8]), Unread> {
        let (text, rest) = counted_text(bytes)?;
        Ok((list_from(text), rest))
    }
}
