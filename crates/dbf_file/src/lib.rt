//! Table files (DBF): their structures and rows, read from bytes and written to bytes.
#![tactic(auto)]

mod descriptors;
mod fault;
mod field;
pub mod laws;
mod numbers;
mod reading;
mod stamp;
mod structure;
mod table;
mod values;
mod writing;

pub use fault::DbfFault;
pub use field::{Field, Letter, MAX_NAME, are_fields};
pub use stamp::Stamp;
pub use structure::{Structure, copied_fields};
pub use table::{Table, read, read_in_place, write};
pub use values::{lent, put, value};
