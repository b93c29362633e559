//! Laws of a run: an instruction whose tests all come out well has all that it needs, so that it can be carried out
//! without them.
#![tactic(auto)]

pub mod laws;
