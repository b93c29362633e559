//! Writing states, procedures and maps.

ghost use Rattle.code_parts.specs.Texts.{kind_text, slot_text, area_text, state_text, procedure_text, map_text};
ghost use Rattle.xcode.specs.Fitting.{AreaFitsBytes, StateFitsBytes, ProcedureFitsBytes};

use crate::writing::{Writes, put_all, put_two};
use code_items::{AreaState, Map, Proc, State};
use code_parts::{number_of_kind, number_of_slot};
use std::alloc::AllocError;
use xvalue::Kind;

impl Writes for Kind {
    ghost text = { kind_text };

    ghost fits = { λ _. Unit {0} };

    fn put(&self, out: &mut Vec<u8>) -> Result<(), AllocError> {
        out.push(number_of_kind(*self))?;
        Ok(())
    }
}

impl Writes for Option<Kind> {
    ghost text = { slot_text };

    ghost fits = { λ _. Unit {0} };

    fn put(&self, out: &mut Vec<u8>) -> Result<(), AllocError> {
        out.push(number_of_slot(*self))?;
        Ok(())
    }
}

impl Writes for AreaState {
    ghost text = { area_text };

    ghost fits = { AreaFitsBytes };

    fn put(&self, out: &mut Vec<u8>) -> Result<(), AllocError> {
        match self {
            AreaState::Closed => {
                out.push(0)?;
                Ok(())
            }
            AreaState::Open(area) => {
                out.push((area.table + 1) as u8)?;
                out.push(area.list as u8)?;
                out.push(area.order as u8)?;
                out.push(area.filter as u8)?;
                Ok(())
            }
            AreaState::Unsure => {
                out.push(255)?;
                Ok(())
            }
        }
    }
}

impl Writes for State {
    ghost text = { state_text };

    ghost fits = { StateFitsBytes };

    fn put(&self, out: &mut Vec<u8>) -> Result<(), AllocError> {
        out.push(self.desk.selected)?;
        put_all(out, self.desk.areas.as_slice())?;
        put_all(out, self.slots.kinds())?;
        out.push(self.stack.len() as u8)?;
        put_all(out, self.stack.kinds())
    }
}

impl Writes for Proc {
    ghost text = { procedure_text };

    ghost fits = { ProcedureFitsBytes };

    fn put(&self, out: &mut Vec<u8>) -> Result<(), AllocError> {
        put_two(out, self.length)?;
        out.push(self.level)?;
        self.entry.put(out)?;
        self.exit.put(out)
    }
}

impl Writes for Map {
    ghost text = { map_text };

    ghost fits = { λ m. StateFitsBytes m.state };

    fn put(&self, out: &mut Vec<u8>) -> Result<(), AllocError> {
        put_two(out, self.place)?;
        self.state.put(out)
    }
}
