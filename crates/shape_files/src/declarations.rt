//! What is declared by the lines so far.

ghost use Rattle.std.specs.Prelude.{◌≡◌, ◌<◌, ◌≤◌, ◌⊎◌, true, false, length, take, IfErr, MatchOption, OnErr, OnOk};
ghost use Rattle.shape.specs.Indexes.{is_next_index};
ghost use Rattle.shape.specs.Tables.{is_next_table};
ghost use Rattle.shape.specs.Whole.{is_shape};
ghost use Rattle.shape_files.specs.declared.refusal.LineFault.TheVariants as fault;
ghost use Rattle.shape_files.specs.declared.refusal.LineRefusal.TheVariants as line;
ghost use Rattle.shape_files.specs.Shapes.{NamesTable, is_index_named as is_index_named_of, is_new_index_name};
ghost use Rattle.shape_files.specs.Shapes.{is_new_table_name, is_table_named as is_table_named_of, no_shape, shape_of};
ghost use Rattle.shape_files.specs.Shapes.{with_index, with_declared_table};

use crate::names::{as_byte, is_word, name_in};
use crate::refusal::{LineFault, LineRefusal};
use dbf_file::Field;
use shape::{IndexShape, Items, Name, Shape, TableShape};
use std::alloc::Global;

/// The most tables that are declared.
pub const MOST_TABLES: usize = 32;

/// The most indexes that are declared.
const MOST_INDEXES: usize = 64;

/// The tables and indexes that are declared.
#[derive(Drop)]
pub struct Declarations {
    pub tables: Vec<TableShape>,
    pub indexes: Vec<IndexShape>,
}

/// The first table of that name: its number, up to 255, and its fields.
#[tactic(auto, using(std::proofs::lemmas::Option::slice_get_read))]
fn table_of<'t>(tables: &'t [TableShape], name: &[u8]) -> Option<(u8, &'t [Field])>
    ensures { MatchOption result (is_table_named_of (take 256 tables.now) name.now ≡ false)
        (λ x. NamesTable tables.now x.0 name.now x.1.now) }
{
    for (t, table) in tables.iter().enumerate() {
        if is_word(&table.name, name) {
            let number = as_byte(t)?;
            return Some((number, table.fields.as_slice()));
        }
    }
    None
}

/// Whether one of these tables has the name.
fn is_table_named(tables: &[TableShape], name: &[u8]) -> bool
    ensures { result ≡ is_table_named_of tables.now name.now }
{
    tables.iter().any(|table| is_word(&table.name, name))
}

/// Whether one of these indexes has the name.
fn is_index_named(indexes: &[IndexShape], name: &[u8]) -> bool
    ensures { result ≡ is_index_named_of indexes.now name.now }
{
    indexes.iter().any(|index| is_word(&index.name, name))
}

impl Declarations {
    /// None yet.
    pub fn none(alloc: Global) -> Declarations
        ensures { shape_of result ≡ no_shape }
    {
        Declarations {
            tables: Vec::new(alloc),
            indexes: Vec::new(alloc),
        }
    }

    /// The first table of that name: its number, up to 255, and its fields.
    pub fn table(&self, name: &[u8]) -> Option<(u8, &[Field])>
        ensures { MatchOption result (is_table_named_of (take 256 self.now.tables.items) name.now ≡ false)
            (λ x. NamesTable self.now.tables.items x.0 name.now x.1.now) }
    {
        table_of(self.tables.as_slice(), name)
    }

    /// The name that a word is, if a further table can have it.
    pub fn table_name(&self, word: &[u8]) -> Option<Name>
        ensures { MatchOption result (is_new_table_name self.now.tables.items word.now ≡ false)
            (λ name. (name.items ≡ word.now) × (is_new_table_name self.now.tables.items word.now ≡ true)) }
    {
        if is_table_named(self.tables.as_slice(), word) {
            return None;
        }
        name_in(word)
    }

    /// The name that a word is, if a further index can have it.
    pub fn index_name(&self, word: &[u8]) -> Option<Name>
        ensures { MatchOption result (is_new_index_name self.now.indexes.items word.now ≡ false)
            (λ name. (name.items ≡ word.now) × (is_new_index_name self.now.indexes.items word.now ≡ true)) }
    {
        if is_index_named(self.indexes.as_slice(), word) {
            return None;
        }
        name_in(word)
    }

    /// Adds a table, for which there is room. The fault is Table where it can't be declared.
    pub fn add_table(&mut self, table: TableShape) -> Result<(), LineRefusal>
        requires { length self.old.tables.items < 32 }
        ensures added { OnOk result (shape_of self.new ≡ with_declared_table (shape_of self.old) table) }
        ensures legal { is_shape (shape_of self.old) ≡ true → OnOk result (is_shape (shape_of self.new) ≡ true) }
        ensures next { OnOk result (is_next_table self.old.tables.items table ≡ true) }
        ensures refused { IfErr result (λ why. (why ≡ line.Memory)
            ⊎ ((why ≡ line.Fault fault.Table) × (is_next_table self.old.tables.items table ≡ false))) }
        ensures kept { OnErr result (shape_of self.new ≡ shape_of self.old) }
    {
        if !table.is_next(self.tables.as_slice()) {
            return Err(LineRefusal::Fault(LineFault::Table));
        }
        self.tables.push(table)?;
        Ok(())
    }

    /// Adds an index whose name no other has. The fault is Key where it can't be declared, and else Limit where there
    /// is no room.
    pub fn add_index(&mut self, index: IndexShape) -> Result<(), LineRefusal>
        ensures added { OnOk result (shape_of self.new ≡ with_index (shape_of self.old) index) }
        ensures legal { is_shape (shape_of self.old) ≡ true → OnOk result (is_shape (shape_of self.new) ≡ true) }
        ensures next { OnOk result (is_next_index self.old.tables.items self.old.indexes.items index ≡ true) }
        ensures room { OnOk result (length self.old.indexes.items < 64) }
        ensures refused { IfErr result (λ why. (why ≡ line.Memory)
            ⊎ ((why ≡ line.Fault fault.Key)
            × (is_next_index self.old.tables.items self.old.indexes.items index ≡ false))
            ⊎ ((why ≡ line.Fault fault.Limit) × (64 ≤ length self.old.indexes.items)
            × (is_next_index self.old.tables.items self.old.indexes.items index ≡ true))) }
        ensures kept { OnErr result (shape_of self.new ≡ shape_of self.old) }
    {
        if !index.is_next(self.tables.as_slice(), self.indexes.as_slice()) {
            return Err(LineRefusal::Fault(LineFault::Key));
        }
        if MOST_INDEXES <= self.indexes.len() {
            return Err(LineRefusal::Fault(LineFault::Limit));
        }
        self.indexes.push(index)?;
        Ok(())
    }

    /// All that is declared.
    pub fn whole(self) -> Shape
        ensures { result ≡ shape_of self }
    {
        let Declarations { tables, indexes } = self;
        Shape {
            tables: Items::of(tables),
            indexes: Items::of(indexes),
        }
    }
}
