//! The verifier's rules.

/// The rules that accepted code keeps, the one that is told first first.
#[derive(Clone, Copy, PartialEq, Eq, Debug)]
pub enum Rule {
    /// A value taken or a slot loaded has another kind, or a slot isn't as the next place's map says.
    Kind,
    /// A slot is loaded that may be unset.
    Unset,
    /// The work area needed is closed.
    ClosedArea,
    /// A list or filter is of another table, or the work areas aren't as the next place's map says.
    OtherTable,
    /// The work area has no such order.
    NoOrder,
    /// The table is open in another work area.
    OpenTwice,
    /// Fewer values than are taken.
    StackUnder,
    /// The stack is higher than the code's bound.
    StackOver,
    /// The stack isn't empty where it has to be, or isn't as the next place's map says.
    StackNotEmpty,
    /// A jump to a place outside the procedure, or without a map.
    Jump,
    /// A procedure's end is run over, or a place is reached by no fall and has no map.
    Fall,
    /// The called procedure's level isn't below the caller's.
    CallLevel,
    /// What a procedure leaves isn't its exit state.
    Exit,
    /// A filter's needs aren't met, or its block has another instruction than a filter may have.
    Filter,
    /// An operand names nothing that is declared.
    Constant,
}
