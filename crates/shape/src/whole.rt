//! The tables and indexes that a code declares.

ghost use Rattle.std.specs.Prelude.{◌≡◌};
ghost use Rattle.shape.specs.Whole.{is_shape};

use crate::indexes::{self, IndexShape};
use crate::items::Items;
use crate::tables::{self, TableShape};

/// What a code's world has: its tables and indexes.
#[derive(Drop, Debug)]
pub struct Shape {
    pub tables: Items<TableShape>,
    pub indexes: Items<IndexShape>,
}

impl Shape {
    /// Whether it may be declared: at most 32 tables and 64 indexes, each legal behind those before it.
    #[tactic(auto, unfolding(crate::specs::Whole::is_shape))]
    pub fn is_legal(&self) -> bool
        ensures { result ≡ is_shape self.now }
    {
        self.tables.len() <= 32
            && self.indexes.len() <= 64
            && tables::go_on(self.tables.as_slice())
            && indexes::go_on(self.tables.as_slice(), self.indexes.as_slice())
    }
}
