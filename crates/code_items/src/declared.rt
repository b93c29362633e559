//! What a code declares.

ghost use Rattle.std.specs.Prelude.{◌≡◌};
ghost use Rattle.std.specs.Option.{option_copied};
ghost use Rattle.std.specs.List.{list_all};
ghost use Rattle.code_items.specs.Constants.{is_constant as is_constant_of};
ghost use Rattle.code_items.specs.Declarations.{needs_rise, is_filter, lists_are_legal, constants_are_legal};
ghost use Rattle.code_items.specs.Declarations.{filters_are_legal, are_declared, list_of, filter_of};
ghost use Rattle.shape.specs.Lists.{is_list};

use crate::constants::is_constant;
use shape::{IndexList, Items, Shape};
use xvalue::{Kind, Value};

/// The version of a code file. With the second, a state may have work areas of which nothing is known, and CENTURY may
/// be set.
#[derive(Clone, Copy, Debug)]
pub enum Version {
    One,
    Two,
}

/// A slot that a filter's block loads, and the kind that it needs there.
#[derive(Clone, Copy, PartialEq, Eq)]
pub struct Need {
    pub slot: u8,
    pub kind: Kind,
}

/// A filter: its table, counted from 0, how many instructions its block has, and what the block needs.
#[derive(Drop)]
pub struct Filter {
    pub table: u8,
    pub length: u16,
    pub needs: Items<Need>,
}

/// What a code declares: its version, the most values on its stack (at most 64), how many slots there are (at most
/// 256), and its tables, indexes, lists, constants and filters.
#[derive(Drop)]
pub struct Declared {
    pub version: Version,
    pub stack_bound: u16,
    pub slots: u16,
    pub shape: Shape,
    pub lists: Items<IndexList>,
    pub constants: Items<Value>,
    pub filters: Items<Filter>,
}

fn do_needs_rise(least: u16, slots: u16, needs: &[Need]) -> bool
    ensures { result ≡ needs_rise least slots needs.now }
{
    let mut from = least;
    let mut rest = needs;
    while let Some((need, others)) = rest.split_first() {
        let slot = u16::from(need.slot);
        if slot < from || slots <= slot {
            return false;
        }
        from = slot + 1;
        rest = others;
    }
    true
}

fn are_constants(constants: &[Value]) -> bool
    ensures { result ≡ list_all is_constant_of constants.now }
{
    constants.iter().all(|constant| is_constant(constant))
}

impl Filter {
    /// Whether it may be declared: a table that is there, and needs at rising slots that are there.
    pub fn is_filter(&self, tables: usize, slots: u16) -> bool
        ensures { result ≡ is_filter tables slots self.now }
    {
        usize::from(self.table) < tables && do_needs_rise(0, slots, self.needs.as_slice())
    }
}

fn are_filters(tables: usize, slots: u16, filters: &[Filter]) -> bool
    ensures { result ≡ list_all (is_filter tables slots) filters.now }
{
    filters.iter().all(|filter| filter.is_filter(tables, slots))
}

fn are_lists(shape: &Shape, lists: &[IndexList]) -> bool
    ensures { result ≡ list_all (is_list shape.now.indexes) lists.now }
{
    lists
        .iter()
        .all(|list| list.is_list(shape.indexes.as_slice()))
}

impl Declared {
    /// Whether all of it may be declared.
    #[tactic(auto, unfolding(crate::specs::Declarations::are_declared))]
    pub fn is_legal(&self) -> bool
        ensures { result ≡ are_declared self.now }
    {
        self.stack_bound <= 64
            && self.slots <= 256
            && self.shape.is_legal()
            && self.has_lists()
            && self.has_constants()
            && self.has_filters()
    }

    fn has_lists(&self) -> bool
        ensures { result ≡ lists_are_legal self.now }
    {
        self.lists.len() <= 64 && are_lists(&self.shape, self.lists.as_slice())
    }

    fn has_constants(&self) -> bool
        ensures { result ≡ constants_are_legal self.now }
    {
        self.constants.len() <= 4096 && are_constants(self.constants.as_slice())
    }

    fn has_filters(&self) -> bool
        ensures { result ≡ filters_are_legal self.now }
    {
        self.filters.len() <= 64
            && are_filters(self.shape.tables.len(), self.slots, self.filters.as_slice())
    }

    /// The list of this number, counted from 1.
    pub fn list(&self, number: u32) -> Option<&IndexList>
        ensures { option_copied result ≡ list_of self.now number }
    {
        if number < 1 {
            return None;
        }
        self.lists.as_slice().get(number as usize - 1)
    }

    /// The filter of this number, counted from 1.
    pub fn filter(&self, number: u16) -> Option<&Filter>
        ensures { option_copied result ≡ filter_of self.now number }
    {
        if number < 1 {
            return None;
        }
        self.filters.as_slice().get(usize::from(number) - 1)
    }
}
