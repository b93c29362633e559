//! The rules at one place, in their order.

ghost use Rattle.std.specs.Prelude.{◌≡◌};
ghost use Rattle.code_rules.specs.Rules.{refusal_of};
ghost use Rattle.xverify.specs.Told.{place_told, IsPlace};

use crate::desks::{closed_fails, table_fails};
use crate::here::Here;
use crate::procedures::{exit_fails, fall_fails, filter_fails, jump_fails, level_fails};
use crate::stacks::{empty_fails, kind_fails, loads_free, over_fails, under_fails};
use code_rules::Rule;
use code_rules::desks::{opens_twice, order_fails};
use code_rules::operands::undeclared;

/// The first rule that fails at the place, if one fails.
#[tactic(auto, unfolding(code_rules::specs::Rules::refusal_of))]
pub fn refusal(h: &Here) -> Option<Rule>
    requires { IsPlace h.now }
    ensures { result ≡ refusal_of h.now.code.now (place_told h.now) }
{
    if kind_fails(h) {
        Some(Rule::Kind)
    } else if loads_free(h.before, h.instr) {
        Some(Rule::Unset)
    } else if closed_fails(h) {
        Some(Rule::ClosedArea)
    } else if table_fails(h) {
        Some(Rule::OtherTable)
    } else if order_fails(&h.code.declared, &h.before.desk, h.instr) {
        Some(Rule::NoOrder)
    } else if opens_twice(&h.before.desk, h.instr) {
        Some(Rule::OpenTwice)
    } else if under_fails(h) {
        Some(Rule::StackUnder)
    } else if over_fails(h) {
        Some(Rule::StackOver)
    } else if empty_fails(h) {
        Some(Rule::StackNotEmpty)
    } else if jump_fails(h) {
        Some(Rule::Jump)
    } else if fall_fails(h) {
        Some(Rule::Fall)
    } else if level_fails(h) {
        Some(Rule::CallLevel)
    } else if exit_fails(h) {
        Some(Rule::Exit)
    } else if filter_fails(h) {
        Some(Rule::Filter)
    } else if undeclared(h.code, &h.before.desk, h.instr) {
        Some(Rule::Constant)
    } else {
        None
    }
}
