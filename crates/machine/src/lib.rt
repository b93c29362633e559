//! The machine for accepted code: values without tags, and no test of any instruction.
//!
//! `run` takes the checking machine's steps and meets no fault; `resume` goes on where a run ended.
//! `resume_to_line` pauses where a line of the operator is wanted that isn't there, and `Banks::take_line` takes one
//! that a journal keeps.
#![tactic(auto)]

mod banks;
mod running;
mod showing;

pub use banks::Banks;
pub use run_steps::{End, Leg, Outcome, takes_line};
pub use running::{banks_go_on, resume, resume_to_line, run};
pub use showing::ShownAt;
