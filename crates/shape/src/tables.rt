//! Declared tables.

ghost use Rattle.std.specs.Prelude.{◌≡◌, [], IfOk};
ghost use Rattle.std.specs.List.{list_all, list_any};
ghost use Rattle.shape.specs.Names.{is_capital_name as is_capital_name_of};
ghost use Rattle.shape.specs.Tables.{has_table_name, is_table, is_next_table, tables_go_on};

use crate::items::Items;
use crate::names::{Name, copy_of_name, is_capital_name, is_file_name};
use dbf_file::{Field, are_fields, copied_fields};
use std::alloc::{AllocError, Global};

/// A declared table: its name, which is that of its file, and its fields in their order.
#[derive(Drop, Debug)]
pub struct TableShape {
    pub name: Name,
    pub fields: Items<Field>,
}

fn are_capital_names(fields: &[Field]) -> bool
    ensures { result ≡ list_all (λ f. is_capital_name_of f.name.items) fields.now }
{
    fields
        .iter()
        .all(|field| is_capital_name(field.name.as_slice()))
}

fn is_taken(tables: &[TableShape], name: &Name) -> bool
    ensures { result ≡ list_any (has_table_name name.now.items) tables.now }
{
    tables.iter().any(|table| table.name.as_slice().eq_ignore_ascii_case(name.as_slice()))
}

impl TableShape {
    /// Whether it may be declared: a name that a table can have, and fields that a table can have, with names in
    /// capitals.
    #[tactic(auto, unfolding(crate::specs::Tables::is_table))]
    pub fn is_table(&self) -> bool
        ensures { result ≡ is_table self.now }
    {
        is_file_name(self.name.as_slice())
            && are_fields(self.fields.as_slice())
            && are_capital_names(self.fields.as_slice())
    }

    /// Whether it may be declared behind these tables: it may be declared, and none of them has its name.
    #[tactic(auto, unfolding(crate::specs::Tables::is_next_table))]
    pub fn is_next(&self, tables: &[TableShape]) -> bool
        ensures { result ≡ is_next_table tables.now self.now }
    {
        self.is_table() && !is_taken(tables, &self.name)
    }

    /// The same table once more.
    pub fn copied(&self, alloc: Global) -> Result<TableShape, AllocError>
        ensures { IfOk result (λ copy. copy ≡ self.now) }
    {
        Ok(TableShape {
            name: copy_of_name(&self.name),
            fields: Items::of(copied_fields(alloc, self.fields.as_slice())?),
        })
    }
}

/// Whether each may be declared behind these tables and those before it.
pub(crate) fn go_on(tables: &[TableShape]) -> bool
    ensures { result ≡ tables_go_on [] tables.now }
{
    for (t, table) in tables.iter().enumerate() {
        if !table.is_next(&tables[..t]) {
            return false;
        }
    }
    true
}
