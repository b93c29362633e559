//! What commands become: each command's code is put into a sink, which writes it or compares a finished code with it.
//! Commands with blocks, and those that turn the way (calls of procedures, LOOP and EXIT, RETURN, QUIT and CANCEL), are
//! put by one walk along the commands of a procedure (`walk`); each other command is put by `put_statement`.
#![tactic(auto)]

mod areas;
mod control;
mod keys;
mod moves;
mod programs;
mod screen;
mod sink;
mod statement;
mod values;
mod variables;
mod walk;
mod way;

pub use programs::{Target, parameters};
pub use sink::Sink;
pub use walk::put_main;
pub use way::{Leaps, Way};
