//! What a move answers.

/// Where a move led, and at what cost.
#[derive(Debug, Clone, Copy, PartialEq, Eq)]
pub struct Landed {
    /// The record, or none at the end of file.
    pub row: Option<u32>,
    /// One, and one for each row met.
    pub cost: u64,
    /// What BOF() answers then.
    pub bof: bool,
    /// What FOUND() answers then.
    pub found: bool,
}

/// The move's cost is above the budget.
#[derive(Debug, Clone, Copy, PartialEq, Eq)]
pub struct Spent;
