//! States.

ghost use Rattle.std.specs.Prelude.{◌≡◌, ◌<◌, Ok};
ghost use Rattle.code_parts.specs.Reading.{Finds, judge, both_judged, in_list};
ghost use Rattle.code_parts.specs.Items.{open_from as open_from_parts, open_read_at, area_read_at};
ghost use Rattle.code_parts.specs.Items.{state_from as state_from_parts, state_read_at};

use crate::fields::byte_of;
use crate::flaw::{Flaw, Missing, Unread};
use crate::kinds::{KindItems, SlotItems};
use crate::several::{Reads, read_counted, read_several};
use code_items::{AreaState, Desk, KindSlots, KindStack, OpenArea, State, Version, may_be_unsure};
use shape::Items;
use std::alloc::Global;
use xvalue::Kind;

fn open_from(byte: u8, list: u8, order: u8, filter: u8) -> AreaState
    requires { 0 < byte }
    ensures { Ok result ≡ open_from_parts byte (list, (order, filter)) }
{
    AreaState::Open(OpenArea {
        table: u16::from(byte - 1),
        list: u32::from(list),
        order: u16::from(order),
        filter: u16::from(filter),
    })
}

#[tactic(auto, unfolding(crate::specs::Items::open_read_at))]
fn open_of(byte: u8, bytes: &[u8]) -> Result<(Result<AreaState, Flaw>, &[u8]), Missing>
    requires { 0 < byte }
    ensures { Finds (λ x. (x.0, x.1.now)) result (open_read_at byte bytes.now) }
{
    let (list, rest) = byte_of(bytes)?;
    let (order, rest) = byte_of(rest)?;
    let (filter, rest) = byte_of(rest)?;
    Ok((Ok(open_from(byte, list, order, filter)), rest))
}

/// Work areas in states of code files of a version.
#[derive(Clone, Copy)]
pub struct Areas {
    pub version: Version,
}

impl Reads for Areas {
    type Thing = AreaState;

    ghost at = { λ s. area_read_at s.version };

    #[tactic(auto, unfolding(crate::specs::Items::area_read_at))]
    fn read<'a>(
        &self,
        _alloc: Global,
        bytes: &'a [u8],
    ) -> Result<(Result<AreaState, Flaw>, &'a [u8]), Unread> {
        let (byte, rest) = byte_of(bytes)?;
        if byte == 0 {
            return Ok((Ok(AreaState::Closed), rest));
        }
        if byte == 255 && may_be_unsure(self.version) {
            return Ok((Ok(AreaState::Unsure), rest));
        }
        Ok(open_of(byte, rest)?)
    }
}

fn state_from(
    selected: u8,
    areas: Result<Vec<AreaState>, Flaw>,
    slots: Result<Vec<Option<Kind>>, Flaw>,
    kinds: Result<Vec<Kind>, Flaw>,
) -> Result<State, Flaw>
    ensures { result ≡ judge (both_judged (Ok selected)
        (both_judged (in_list areas) (both_judged (in_list slots) (in_list kinds)))) state_from_parts }
{
    let areas = areas?;
    let slots = slots?;
    let kinds = kinds?;
    Ok(State {
        desk: Desk {
            selected,
            areas: Items::of(areas),
        },
        slots: KindSlots::of(slots),
        stack: KindStack::of(kinds),
    })
}

/// States of codes of a version with so many slots.
#[derive(Clone, Copy)]
pub struct States {
    pub version: Version,
    pub slots: u16,
}

impl Reads for States {
    type Thing = State;

    ghost at = { λ s. state_read_at s.version s.slots };

    #[tactic(auto, unfolding(crate::specs::Items::state_read_at))]
    fn read<'a>(
        &self,
        alloc: Global,
        bytes: &'a [u8],
    ) -> Result<(Result<State, Flaw>, &'a [u8]), Unread> {
        let areas = Areas {
            version: self.version,
        };
        let (selected, rest) = byte_of(bytes)?;
        let (areas, rest) = read_several(alloc, &areas, 10, rest)?;
        let (slots, rest) = read_several(alloc, &SlotItems, usize::from(self.slots), rest)?;
        let (kinds, rest) = read_counted(alloc, &KindItems, rest)?;
        Ok((state_from(selected, areas, slots, kinds), rest))
    }
}
