//! Examples of numbers, values and screens, as calls of the public functions of their crates. Tables of examples stand
//! in functions of their own, whose results no proof looks into.

mod calls;
mod numbers;
mod screens;
mod spelled;
mod typed;
mod values;
