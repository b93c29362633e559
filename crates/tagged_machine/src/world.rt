//! The checking machine's world.

ghost use Rattle.std.specs.Prelude.{◌≡◌, IfOk};
ghost use Rattle.code_rules.specs.Rules.{Accepted};
ghost use Rattle.fit_laws.specs.Fits.{IsFitting};
ghost use Rattle.run_steps.specs.Opening.{opening as opening_of};
ghost use Rattle.run_steps.specs.Shapes.{HasShape, StoreFits};
ghost use Rattle.screen_lines.specs.State.{sent};
ghost use Rattle.work_area.specs.Areas.{AreApart};

use crate::scratch::TestScratch;
use calendar::Day;
use code_items::laws::legal_codes;
use fit_laws::laws::openings_fit;
use key_lists::KeyList;
use legal_code::LegalCode;
use run_laws::laws::openings_have_the_shape;
use run_steps::Machine;
use run_values::Tagged;
use std::alloc::{AllocError, Global};
use std::marker::Model;
use text_lines::TypedLines;
use work_area::Store;

/// The world of a run of any code: values that keep their kinds, and room for the tests.
#[derive(Drop)]
pub struct World<K: KeyList> {
    pub(crate) machine: Machine<Tagged, K>,
    pub(crate) scratch: TestScratch,
}

impl<K: KeyList> Model for World<K> {
    ghost use Rattle.run_steps.specs.World.{World as AnyWorld};
    ghost use Rattle.tagged_machine.specs.Seen.{world_seen};

    ghost Value = { AnyWorld };

    ghost view = { λ w. world_seen w.machine };
}

impl<K: KeyList> World<K> {
    /// The world from which a run of the code begins: at place 0, with all slots unset and nothing on the stack, these
    /// tables with all areas closed, these lines of the operator, a blank screen and all settings off, on this day.
    pub fn opening(
        alloc: Global,
        code: &LegalCode,
        store: Store<K>,
        today: Day,
        lines: TypedLines,
    ) -> Result<Self, AllocError>
        requires fits { StoreFits code.now.declared store }
        ensures world { IfOk result (λ world. world ≡ opening_of code.now store lines today) }
        ensures shape { IfOk result (λ world. HasShape code.now world) }
        ensures apart { IfOk result (λ world. AreApart world.env.store.areas) }
        // An accepted code meets no fault from it.
        ensures fits { IfOk result (λ world. Accepted code.now → IsFitting code.now world) }
    {
        openings_have_the_shape();
        openings_fit();
        legal_codes();
        let values = Tagged::new(alloc, usize::from(code.code().declared.slots))?;
        Ok(World {
            machine: Machine::opening(alloc, values, store, lines, today)?,
            scratch: TestScratch::new(alloc)?,
        })
    }

    /// The tables and work areas.
    pub fn store(&self) -> &Store<K>
        ensures { result.now ≡ self.now.env.store }
    {
        self.machine.store()
    }

    /// The bytes for printing, if the run ends here: the rows sent so far and those that are seen. The world stays as
    /// it is.
    pub fn finish(&self, alloc: Global) -> Result<Vec<u8>, AllocError>
        ensures { IfOk result (λ bytes. bytes.items ≡ sent self.now.env.screen) }
    {
        self.machine.finish(alloc)
    }
}
