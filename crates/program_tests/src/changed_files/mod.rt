//! Three small files cut at every length, and with each of their bytes set to every other value: a code file, a table
//! and an index. Every call returns. What is refused has the fault that belongs to its length; a code that is accepted
//! runs as the checking machine runs it, without a fault; an index that loads fresh lists its table's keys.

mod changed;
mod cuts;
pub mod originals;
