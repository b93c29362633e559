//! Laws of compiled expressions: run by a machine, the code of an expression leaves the value that the expression
//! means, and changes nothing else; a filter shows the rows for which its condition holds. One law is of commands of
//! one instruction.
#![tactic(auto)]

pub mod laws;
