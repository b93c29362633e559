//! Whole codes and their verifier.

mod files;
mod hand;
mod spelled;
mod verdicts;
