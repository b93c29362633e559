//! Whether finished code is laid out as commands say: each command's instructions stand behind those of the command
//! before, and each jump leads to the part that the command's form names.
#![tactic(auto)]

mod checker;
mod fault;
mod filters;
mod judging;
mod known;
mod layout;

pub use crate::fault::LayoutFault;
pub use crate::judging::judge;
