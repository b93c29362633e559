//! Filters.

ghost use Rattle.std.specs.Prelude.{◌≡◌, Ok};
ghost use Rattle.code_parts.specs.Reading.{Gives, judge, both_judged, in_list};
ghost use Rattle.code_parts.specs.Items.{need_from as need_from_parts, need_at, needs_at, filter_at};

use crate::fields::{byte_of, two_of};
use crate::flaw::{Flaw, Unread};
use crate::kinds::kind_of_number;
use crate::several::{Reads, read_several};
use code_items::{Filter, Need};
use shape::Items;
use std::alloc::Global;

fn need_from(slot: u8, kind: u8) -> Result<Need, Flaw>
    ensures { result ≡ need_from_parts (slot, kind) }
{
    match kind_of_number(kind) {
        None => Err(Flaw::Shape),
        Some(kind) => Ok(Need { slot, kind }),
    }
}

/// What filters need.
#[derive(Clone, Copy)]
pub struct Needs;

impl Reads for Needs {
    type Thing = Need;

    ghost at = { λ _. need_at };

    #[tactic(auto, unfolding(crate::specs::Items::need_at))]
    fn read<'a>(
        &self,
        _alloc: Global,
        bytes: &'a [u8],
    ) -> Result<(Result<Need, Flaw>, &'a [u8]), Unread> {
        let (slot, rest) = byte_of(bytes)?;
        let (kind, rest) = byte_of(rest)?;
        Ok((need_from(slot, kind), rest))
    }
}

#[tactic(auto, unfolding(crate::specs::Items::needs_at))]
fn needs_of(alloc: Global, bytes: &[u8]) -> Result<(Result<Vec<Need>, Flaw>, &[u8]), Unread>
    ensures { Gives (λ x. (in_list x.0, x.1.now)) result (needs_at bytes.now) }
{
    let (count, rest) = two_of(bytes)?;
    read_several(alloc, &Needs, usize::from(count), rest)
}

fn filter_from(table: u8, length: u16, needs: Result<Vec<Need>, Flaw>) -> Result<Filter, Flaw>
    ensures { result ≡ judge (both_judged (Ok table) (both_judged (Ok length) (in_list needs)))
        (λ (table, (length, needs)). Ok (record { table = table; length = length; needs = needs })) }
{
    let needs = needs?;
    Ok(Filter {
        table,
        length,
        needs: Items::of(needs),
    })
}

/// Filters.
#[derive(Clone, Copy)]
pub struct FilterItems;

impl Reads for FilterItems {
    type Thing = Filter;

    ghost at = { λ _. filter_at };

    #[tactic(auto, unfolding(crate::specs::Items::filter_at))]
    fn read<'a>(
        &self,
        alloc: Global,
        bytes: &'a [u8],
    ) -> Result<(Result<Filter, Flaw>, &'a [u8]), Unread> {
        let (table, rest) = byte_of(bytes)?;
        let (length, rest) = two_of(rest)?;
        let (needs, rest) = needs_of(alloc, rest)?;
        Ok((filter_from(table, length, needs), rest))
    }
}
