//! Files by name: what the program asks of them, files in memory, and readers read to their end.
//!
//! A trait says what is asked of files, so that what stands on it serves a folder of the disk and files in memory
//! alike, and its contracts say what files may hold.
#![tactic(auto)]

mod files;
mod memory_files;
mod reader;

pub use crate::files::{Device, FILE_LIMIT, Files, ReadFault};
pub use crate::memory_files::{
    MemoryEntry, MemoryFiles, WORKS_FOR_EVER, WrittenFile, files_in_memory_hold_one_thing,
};
pub use crate::reader::{read_in_turns, read_within};
