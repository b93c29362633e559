//! What the program's reading commands do with files: code files are verified and listed, tables and index files
//! listed.
//!
//! Files are reached through the trait `Files`, so that each command's contract says what files may hold, and the same
//! functions serve a folder of the disk and files in memory.
#![tactic(auto)]

mod index_listing;
mod lines;
mod listing;
mod reading;
mod refusal;
mod status;
mod table_listing;

pub use crate::index_listing::list_index;
pub use crate::listing::{list_code, verify_file};
pub use crate::reading::{read_code, read_table};
pub use crate::refusal::{Fault, Refusal};
pub use crate::status::{Status, of_refusal};
pub use crate::table_listing::list_table;
pub use file_access::{Files, MemoryEntry, MemoryFiles, ReadFault, read_within};
