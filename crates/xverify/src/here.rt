//! What stands at a place.

use code_items::{Code, Instr, State};
use code_rules::blocks::Block;

/// An instruction at a place of a block, what is known before it, and what it leaves.
#[derive(Clone, Copy)]
pub struct Here<'a> {
    pub code: &'a Code,
    pub place: usize,
    pub block: Block,
    pub instr: Instr,
    pub before: &'a State,
    pub after: &'a State,
    /// What is known where the block begins, if it begins here.
    pub start: &'a State,
}
