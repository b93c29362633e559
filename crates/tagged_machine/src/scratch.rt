//! Room for the tests, taken once for a run.

ghost use Rattle.std.specs.Prelude.{◌≡◌, [], IfOk};
ghost use Rattle.tagged_machine.specs.Seen.{ten_closed};

use crate::areas::TenAreas;
use run_values::Pile;
use std::alloc::{AllocError, Global};
use xvalue::Kind;

/// Room for the test of a filter's block: the work areas that it finds, and the kinds on its stack.
#[derive(Drop)]
pub struct BlockScratch {
    pub areas: TenAreas,
    pub kinds: Pile<Kind>,
}

/// Room for the tests of an instruction: the work areas as they are, and what the test of a filter needs.
#[derive(Drop)]
pub struct TestScratch {
    pub areas: TenAreas,
    pub block: BlockScratch,
}

impl TestScratch {
    /// All the room that the tests of a run need.
    pub fn new(alloc: Global) -> Result<TestScratch, AllocError>
        ensures areas { IfOk result (λ room. room.areas ≡ ten_closed) }
        ensures block { IfOk result (λ room. room.block.areas ≡ ten_closed) }
        ensures kinds { IfOk result (λ room. room.block.kinds ≡ []) }
    {
        Ok(TestScratch {
            areas: TenAreas::new(alloc)?,
            block: BlockScratch {
                areas: TenAreas::new(alloc)?,
                kinds: Pile::new(alloc)?,
            },
        })
    }
}
