// Where the next byte goes.
#![tactic(auto)]

/// The cursor: before the first row, or at a row (0 to 24) and a column (0 to 80, where 80 is behind the last one).
#[derive(Clone, Copy, PartialEq, Eq, Debug)]
pub enum Cursor {
    BeforeFirst,
    At { row: usize, column: usize },
}
