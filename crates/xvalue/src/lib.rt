//! Values of command files: numbers, texts, dates and truth values, and the functions on them.
//!
//! A kind is a case of `Kind` and a value a case of `Value`. `Fun` has functions by what they give, a case for each. A
//! function is a line of `FUNS`, a line of the table in `specs/Signature.antt`, a line of its meaning in
//! `specs/Functions.antt`, and an arm in `apply`.
#![tactic(auto)]

mod answer;
pub mod apply;
mod arguments;
mod fun;
mod kind;
pub mod laws;
mod lent;
mod settings;
mod shown;
mod text;
mod texts;
mod value;

pub use arguments::{Arguments, Gathered, MOST_ARGUMENTS};
pub use calendar::Day;
pub use fun::{
    Arithmetic, DateFun, FUNS, Fun, NumberFun, NumberOrder, TextFun, TruthFun, signature,
};
pub use kind::Kind;
pub use lent::Lent;
pub use settings::{Setting, Settings};
pub use shown::{shown_day, shown_logical, shown_number};
pub use text::{Text, copy_of, text_from, write_over};
pub use texts::{
    append, begins_with_capital, begins_with_letter, begins_with_small, count_of, eq_text,
    first_byte, first_place, front, last_part, less_text, part_from, place_of,
};
pub use value::Value;
