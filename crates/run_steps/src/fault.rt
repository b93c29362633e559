//! What can be wrong with an instruction.

/// The faults, in the order in which they are tested.
#[derive(Clone, Copy, PartialEq, Eq, Debug)]
pub enum FaultKind {
    /// A value taken or loaded has another kind.
    WrongKind,
    /// The slot loaded is unset.
    Unset,
    /// The work area needed is closed.
    ClosedArea,
    /// Fewer values than are taken.
    EmptyStack,
    /// The stack would be higher than the code's bound.
    StackOver,
    /// The next place stands in no procedure.
    BadJump,
    /// The work area has no such order.
    NoOrder,
    /// The table is open in another work area.
    OpenTwice,
    /// Too many calls within one another.
    DeepCall,
    /// An operand names nothing that is declared.
    BadField,
    /// The filter can't be asked.
    BadFilter,
}
