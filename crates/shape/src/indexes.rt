//! Declared indexes.

ghost use Rattle.std.specs.Prelude.{◌≡◌, []};
ghost use Rattle.std.specs.List.{list_any};
ghost use Rattle.shape.specs.Indexes.{has_index_name, has_declared_key, is_index, is_next_index, indexes_go_on};

use crate::names::{Name, copy_of_name, is_file_name};
use crate::parts::KeyParts;
use crate::tables::TableShape;

/// A declared index: its name, which is that of its file, its table by the number, counted from 0, and how a row's key
/// is made.
#[derive(Drop, Debug)]
pub struct IndexShape {
    pub name: Name,
    pub table: u8,
    pub key: KeyParts,
}

fn is_taken(indexes: &[IndexShape], name: &Name) -> bool
    ensures { result ≡ list_any (has_index_name name.now.items) indexes.now }
{
    indexes.iter().any(|index| index.name.as_slice().eq_ignore_ascii_case(name.as_slice()))
}

impl IndexShape {
    /// Whether it may be declared of these tables: a name that an index can have, a table that is there, and a key that
    /// its rows can have, spelled in at most 100 bytes.
    #[tactic(auto, unfolding(crate::specs::Indexes::is_index))]
    pub fn is_index(&self, tables: &[TableShape]) -> bool
        ensures { result ≡ is_index tables.now self.now }
    {
        is_file_name(self.name.as_slice()) && self.has_key(tables)
    }

    fn has_key(&self, tables: &[TableShape]) -> bool
        ensures { result ≡ has_declared_key tables.now self.now }
    {
        match tables.get(usize::from(self.table)) {
            Some(table) => {
                self.key.fits(table.fields.as_slice())
                    && self.key.text(table.fields.as_slice()).len() <= 100
            }
            None => false,
        }
    }

    /// Whether it may be declared of these tables behind these indexes: it may be declared, and none of them has its
    /// name.
    #[tactic(auto, unfolding(crate::specs::Indexes::is_next_index))]
    pub fn is_next(&self, tables: &[TableShape], indexes: &[IndexShape]) -> bool
        ensures { result ≡ is_next_index tables.now indexes.now self.now }
    {
        self.is_index(tables) && !is_taken(indexes, &self.name)
    }

    /// The same index once more.
    pub fn copied(&self) -> IndexShape
        ensures { result ≡ self.now }
    {
        IndexShape {
            name: copy_of_name(&self.name),
            table: self.table,
            key: self.key.copied(),
        }
    }
}

/// Whether each may be declared behind those before it.
pub(crate) fn go_on(tables: &[TableShape], indexes: &[IndexShape]) -> bool
    ensures { result ≡ indexes_go_on tables.now [] indexes.now }
{
    for (i, index) in indexes.iter().enumerate() {
        if !index.is_next(tables, &indexes[..i]) {
            return false;
        }
    }
    true
}
