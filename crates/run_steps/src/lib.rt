//! Steps of a run over tables: the world, what each instruction makes of it, and both machines' way through a code.
#![tactic(auto)]

mod blocks;
mod carrying;
mod decoding;
mod drafting;
mod ending;
mod environment;
mod fault;
mod filtering;
pub mod layout;
mod machine;
mod on_areas;
mod on_moves;
mod on_records;
mod on_screen;
mod on_values;
mod pausing;
mod returns;
mod row_values;
mod row_works;
pub mod running;

pub use carrying::take_block;
pub use decoding::Decoded;
pub use ending::{End, Outcome, Stop, finishing};
pub use environment::Environment;
pub use fault::FaultKind;
pub use machine::{Machine, execute};
pub use pausing::{Leg, run_to_line, takes_line};
pub use returns::ReturnPlaces;
pub use row_works::{
    DateWork, FilterWorks, MadeText, NumberWork, PlainNumber, TextWork, TruthWork,
};
pub use running::run;
