//! The checking machine over tables: it runs any code that has a code file, accepted by the verifier or not. Blocks
//! whose guards are met are carried out at once. Before each other instruction it tests for the eleven faults, in their
//! order and before the budget; where there is none, the instruction is carried out as by the machine that tests
//! nothing.
#![tactic(auto)]

mod areas;
mod clear;
mod faults;
mod guarded;
mod kinds;
mod operands;
mod places;
mod running;
mod scratch;
mod soundness;
mod world;

pub use run_steps::{End, FaultKind, Outcome};
pub use running::run_checked;
pub use world::World;
