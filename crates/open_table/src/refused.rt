//! What stands against a change that ends with a move.

/// Why a change that ends with a move wasn't made.
#[derive(Debug, Clone, Copy, PartialEq, Eq)]
pub enum Refused {
    /// The cost is above the budget.
    Spent,
    /// Memory is missing.
    NoMemory,
}
