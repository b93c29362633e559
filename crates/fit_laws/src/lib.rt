//! Laws of accepted codes and the worlds of their runs: where what is known at a place is true of the world, the
//! instruction there has no fault, and leads to such a world again. So a run meets no fault, wherever it comes to.
#![tactic(auto)]

pub mod flows;
pub mod laws;
