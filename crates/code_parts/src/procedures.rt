//! Procedures and maps.

ghost use Rattle.std.specs.Prelude.{◌≡◌, Ok};
ghost use Rattle.code_parts.specs.Reading.{judge, both_judged};
ghost use Rattle.code_parts.specs.Items.{level_from as level_from_byte, procedure_read_at, map_read_at};

use crate::fields::{byte_of, two_of};
use crate::flaw::{Flaw, Unread};
use crate::several::Reads;
use crate::states::States;
use code_items::{Map, Proc, State};
use std::alloc::Global;

fn level_from(level: u8) -> Result<u8, Flaw>
    ensures { result ≡ level_from_byte level }
{
    if level > 20 {
        return Err(Flaw::Limit);
    }
    Ok(level)
}

fn procedure_from(
    length: u16,
    level: Result<u8, Flaw>,
    entry: Result<State, Flaw>,
    exit: Result<State, Flaw>,
) -> Result<Proc, Flaw>
    ensures { result ≡ judge (both_judged (Ok length) (both_judged level (both_judged entry exit)))
        (λ (length, (level, (entry, exit))).
        Ok (record { length = length; level = level; entry = entry; exit = exit })) }
{
    let level = level?;
    let entry = entry?;
    let exit = exit?;
    Ok(Proc {
        length,
        level,
        entry,
        exit,
    })
}

/// Procedures, with states that these read.
#[derive(Clone, Copy)]
pub struct Procedures {
    pub states: States,
}

impl Reads for Procedures {
    type Thing = Proc;

    ghost at = { λ s. procedure_read_at s.states.version s.states.slots };

    #[tactic(auto, unfolding(crate::specs::Items::procedure_read_at))]
    fn read<'a>(
        &self,
        alloc: Global,
        bytes: &'a [u8],
    ) -> Result<(Result<Proc, Flaw>, &'a [u8]), Unread> {
        let (length, rest) = two_of(bytes)?;
        let (level, rest) = byte_of(rest)?;
        let (entry, rest) = self.states.read(alloc, rest)?;
        let (exit, rest) = self.states.read(alloc, rest)?;
        Ok((procedure_from(length, level_from(level), entry, exit), rest))
    }
}

fn map_from(place: u16, state: Result<State, Flaw>) -> Result<Map, Flaw>
    ensures { result ≡ judge (both_judged (Ok place) state) (λ p. Ok (record { place = p.0; state = p.1 })) }
{
    let state = state?;
    Ok(Map { place, state })
}

/// Maps, with states that these read.
#[derive(Clone, Copy)]
pub struct Maps {
    pub states: States,
}

impl Reads for Maps {
    type Thing = Map;

    ghost at = { λ s. map_read_at s.states.version s.states.slots };

    #[tactic(auto, unfolding(crate::specs::Items::map_read_at))]
    fn read<'a>(
        &self,
        alloc: Global,
        bytes: &'a [u8],
    ) -> Result<(Result<Map, Flaw>, &'a [u8]), Unread> {
        let (place, rest) = two_of(bytes)?;
        let (state, rest) = self.states.read(alloc, rest)?;
        Ok((map_from(place, state), rest))
    }
}
