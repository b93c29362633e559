//! The parts of a code file: readers and writers of bytes and numbers, of many of one item, and of each item.
#![tactic(auto)]

mod constants;
mod fields;
mod filters;
mod flaw;
mod instrs;
mod kinds;
pub mod laws;
mod operands;
mod procedures;
mod several;
mod shapes;
mod states;

pub use constants::Constants;
pub use fields::{byte_of, counted_text, four_of, two_of};
pub use filters::{FilterItems, Needs};
pub use flaw::{Flaw, Missing, Unread};
pub use instrs::Instrs;
pub use kinds::{KindItems, SlotItems, number_of_kind, number_of_slot};
pub use operands::{InstrParts, parts_of_instr};
pub use procedures::{Maps, Procedures};
pub use several::Reads;
pub use shapes::{Fields, Indexes, ListItems, Tables};
pub use states::{Areas, States};
