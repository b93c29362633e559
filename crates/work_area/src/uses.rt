//! What an open work area holds.

/// What an open work area holds: a table, counted from 0; the number of the list of indexes that was opened and of the
/// filter, counted from 1, 0 for none.
#[derive(Clone, Copy, PartialEq, Eq, Debug)]
pub struct Use {
    pub table: u16,
    pub list: u32,
    pub filter: u16,
}
