//! The verifier of code files: `verify` says yes exactly where no rule fails at any place.
//!
//! The rules are definitions of the crate `code_rules`. Here they are tested place by place, each place once. Each rule
//! is a function of its own, which goes by groups of instructions. The tests that the checking machine has too are
//! those of `code_rules`. `refusal` asks the rules in their order.
#![tactic(auto)]

mod covering;
mod desks;
mod here;
mod procedures;
mod rules;
mod stacks;
mod verified;
mod verifying;

pub use code_rules::Rule;
pub use verified::{FailedRule, Verified, VerifyError};
pub use verifying::{begun, verify};
