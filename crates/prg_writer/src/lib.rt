//! Code that is being written: the copies of procedures, each where it is first called, the rounds of loops, and the
//! finished code.
//!
//! Ways that meet know what all of them know; a loop is written again, from what is known before it and on its ways
//! back, until that holds.
#![tactic(auto)]

mod assembling;
mod calling;
mod emitting;
mod ends;
mod fault_list;
mod filtering;
mod heads;
mod laws;
mod loops;
mod procedures;
mod shapes;
mod variables;
mod writer;

pub use assembling::assemble;
pub use calling::close_copy;
pub use fault_list::FaultList;
pub use laws::rounds_are_given_up;
pub use procedures::NamedProcedures;
pub use shapes::copy_of_shape;
pub use writer::{ProcedureCopy, Writer};
