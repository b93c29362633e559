//! Lists of keys in trees of pages, and their files.
//!
//! `NdxTree` keeps a list of keys with record numbers in a tree of pages, which it reads from an index file and writes
//! to one.
#![tactic(auto)]

mod build;
mod fault;
mod index_file;
pub mod laws;
mod lists;
mod order;
mod page;
mod page_file;
mod tree;
mod walk;

pub use fault::TreeFault;
pub use key_lists::{Entry, KeyList, SortedKeys};
pub use tree::NdxTree;
