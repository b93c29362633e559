//! Decimal numbers of at most nineteen digits, of which at most fifteen stand after the point, and the asterisk
//! value, which stands for a result that is none.
#![tactic(auto)]

mod arithmetic;
pub mod laws;
mod number;
mod powers;
mod reading;
mod rounding;
mod text;

pub use number::{MOST_DECIMALS, Num, Parts};
pub use reading::{are_digits, without_blanks, without_last_blanks};
