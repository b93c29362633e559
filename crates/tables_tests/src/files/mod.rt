//! What the crates of files, tables and index files promise their callers.

mod bytes;
pub mod lists;
mod memory;
mod pages;
mod reader;
mod tables;
mod trees;
