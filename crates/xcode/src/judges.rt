//! What may stand in each section.

ghost use Rattle.shape.specs.Tables.{is_next_table};
ghost use Rattle.shape.specs.Indexes.{is_next_index};
ghost use Rattle.xcode.specs.Decoding.{always, list_follows, filter_follows, procedure_follows, map_follows};

use crate::sections::Judges;
use code_items::{Declared, Filter, IndexList, IndexShape, Instr, Map, Proc, TableShape};
use xvalue::Value;

/// Anything may stand there.
#[derive(Clone, Copy)]
pub struct Anything;

impl Judges<Value> for Anything {
    ghost follows = { λ _. always };

    fn may_follow(&self, _earlier: &[Value], _one: &Value) -> bool {
        true
    }
}

impl Judges<Instr> for Anything {
    ghost follows = { λ _. always };

    fn may_follow(&self, _earlier: &[Instr], _one: &Instr) -> bool {
        true
    }
}

/// Tables that may be declared.
#[derive(Clone, Copy)]
pub struct NextTables;

impl Judges<TableShape> for NextTables {
    ghost follows = { λ _. is_next_table };

    fn may_follow(&self, earlier: &[TableShape], one: &TableShape) -> bool {
        one.is_next(earlier)
    }
}

/// Indexes that may be declared of these tables.
#[derive(Clone, Copy)]
pub struct NextIndexes<'a> {
    pub tables: &'a [TableShape],
}

impl Judges<IndexShape> for NextIndexes<'_> {
    ghost follows = { λ j. is_next_index j.tables.now };

    fn may_follow(&self, earlier: &[IndexShape], one: &IndexShape) -> bool {
        one.is_next(self.tables, earlier)
    }
}

/// Lists of these indexes.
#[derive(Clone, Copy)]
pub struct LegalLists<'a> {
    pub indexes: &'a [IndexShape],
}

impl Judges<IndexList> for LegalLists<'_> {
    ghost follows = { λ j. list_follows j.indexes.now };

    fn may_follow(&self, _earlier: &[IndexList], one: &IndexList) -> bool {
        one.is_list(self.indexes)
    }
}

/// Filters in codes of so many tables and slots.
#[derive(Clone, Copy)]
pub struct LegalFilters {
    pub tables: usize,
    pub slots: u16,
}

impl Judges<Filter> for LegalFilters {
    ghost follows = { λ j. filter_follows j.tables j.slots };

    fn may_follow(&self, _earlier: &[Filter], one: &Filter) -> bool {
        one.is_filter(self.tables, self.slots)
    }
}

/// Procedures and maps of codes that declare this.
#[derive(Clone, Copy)]
pub struct Declaring<'a> {
    pub declared: &'a Declared,
}

impl Judges<Proc> for Declaring<'_> {
    ghost follows = { λ j. procedure_follows j.declared.now };

    fn may_follow(&self, earlier: &[Proc], one: &Proc) -> bool {
        match earlier {
            [] => one.is_procedure(self.declared) && one.entry.is_blank(),
            [_, ..] => one.is_procedure(self.declared),
        }
    }
}

impl Judges<Map> for Declaring<'_> {
    ghost follows = { λ j. map_follows j.declared.now };

    fn may_follow(&self, _earlier: &[Map], one: &Map) -> bool {
        self.declared.is_state(&one.state)
    }
}
