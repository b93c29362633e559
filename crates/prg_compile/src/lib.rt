//! The compiler of command files: from their trees to code that the verifier accepts.
//!
//! A copy of a procedure is written for each state and binding of names with which it is called (`prg_writer`). At the
//! end the code is laid out, judged and verified.
#![tactic(auto)]

mod compiling;
mod ways;

pub use compiling::{areas_at_fault, compile, find_faults};
pub use met_areas::{HeldTable, MetAreas};
pub use prg_code::{CompileFault, CompileFaultKind, CompileRefusal, Names, Pool, Variable};
pub use prg_values::{Scope, compile_expr};
