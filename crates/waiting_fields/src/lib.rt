//! Which shown values of a code wait for the lines that a READ takes.
//!
//! A READ takes a line for each GET before it, and its code doesn't say where on the screen they were shown. Between
//! the GETs and the READ stands straight code, so each value that the READ asks for is matched with the instruction
//! that showed it there.
#![tactic(auto)]

mod reads;

pub use reads::{Read, reads_of};
