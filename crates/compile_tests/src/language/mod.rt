//! Expressions, lines and command files: worked examples, and what no contract says.

mod expressions;
mod lines;
mod programs;
mod rows;
mod texts;
