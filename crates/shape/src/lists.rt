//! Lists of indexes that are opened together.

ghost use Rattle.std.specs.Prelude.{◌≡◌, ◌==◌};
ghost use Rattle.std.specs.List.{list_all, list_any};
ghost use Rattle.shape.specs.Lists.{is_index_of, list_table, are_of_table, numbers_differ, is_list as is_list_of};

use crate::indexes::IndexShape;
use arrayvec::ArrayVec;

/// One to seven indexes of one table, by their numbers, counted from 0, in the order in which they are opened.
#[derive(Drop, Debug)]
pub struct IndexList {
    pub indexes: ArrayVec<u8, 7>,
}

fn is_of(indexes: &[IndexShape], table: u8, number: u8) -> bool
    ensures { result ≡ is_index_of indexes.now table number }
{
    match indexes.get(usize::from(number)) {
        Some(index) => index.table == table,
        None => false,
    }
}

fn are_of(indexes: &[IndexShape], table: u8, numbers: &[u8]) -> bool
    ensures { result ≡ list_all (is_index_of indexes.now table) numbers.now }
{
    numbers.iter().all(|number| is_of(indexes, table, *number))
}

/// Whether a number is among some.
pub fn is_among(numbers: &[u8], number: u8) -> bool
    ensures { result ≡ list_any (λ other. other == number) numbers.now }
{
    numbers.iter().any(|other| *other == number)
}

fn differ(numbers: &[u8]) -> bool
    ensures { result ≡ numbers_differ numbers.now }
{
    let mut rest = numbers;
    while let Some((number, others)) = rest.split_first() {
        if is_among(others, *number) {
            return false;
        }
        rest = others;
    }
    true
}

impl IndexList {
    /// The table of its first index, by its number; none where there is no first index, or none of that number.
    pub fn table(&self, indexes: &[IndexShape]) -> Option<u8>
        ensures { result ≡ list_table indexes.now self.now }
    {
        match self.indexes.as_slice() {
            [] => None,
            [number, ..] => match indexes.get(usize::from(*number)) {
                Some(index) => Some(index.table),
                None => None,
            },
        }
    }

    /// Whether it lists one to seven different ones of these indexes, all of one table.
    #[tactic(auto, unfolding(crate::specs::Lists::is_list))]
    pub fn is_list(&self, indexes: &[IndexShape]) -> bool
        ensures { result ≡ is_list_of indexes.now self.now }
    {
        self.indexes.len() <= 7 && self.is_of_one_table(indexes)
    }

    fn is_of_one_table(&self, indexes: &[IndexShape]) -> bool
        ensures { result ≡ are_of_table indexes.now self.now.indexes.items (list_table indexes.now self.now) }
    {
        match self.table(indexes) {
            Some(table) => are_of(indexes, table, &self.indexes) && differ(&self.indexes),
            None => false,
        }
    }

    /// The same list once more.
    pub fn copied(&self) -> IndexList
        ensures { result ≡ self.now }
    {
        let mut indexes = ArrayVec::new();
        indexes
            .try_extend_from_slice(self.indexes.as_slice())
            .unwrap();
        IndexList { indexes }
    }
}
