//! What instructions take, give and leave, what is known at each place of a code, and the rules that accepted code
//! keeps.
//!
//! An instruction is a line in each of a few tables, which the verifier and both machines share: `signature` (how many
//! values it takes and adds, and where it stands), `wants` and `gives` (their kinds), `area` (the work area that it
//! needs), and what it leaves (`specs/Flow.antt`). The rules are in `specs/Rules.antt`, what acceptance means in
//! `specs/Kept.antt` and `laws`.
#![tactic(auto)]

pub mod blocks;
pub mod desks;
pub mod filters;
pub mod flow;
pub mod heights;
pub mod kinds;
pub mod laws;
pub mod operands;
mod rule;
pub mod signature;
pub mod slots;

pub use rule::Rule;
pub use signature::Signature;
