// Rows compared.
#![tactic(auto)]

ghost use Rattle.std.specs.Prelude.{◌≡◌, ◌+◌, ◌<◌, ◌≤◌, ◌^◌, [], length, map, IfOk, OnOk, IfSome, IfNone};
ghost use Rattle.std.specs.Prelude.{IsPermutation};
ghost use Rattle.row_changes.specs.Changes.{AreCounted, GoesAndComes};
ghost use Rattle.row_changes.specs.Ordered.{Rising};
ghost use Rattle.row_changes.specs.Turns.{texts, LeadsOn};

use std::alloc::AllocError;
use std::cmp::Ordering;

/// How many rows there were and are, and how many of them were changed, removed and added.
#[derive(Clone, Copy, PartialEq, Eq, Debug)]
pub struct RowCounts {
    pub before: usize,
    pub after: usize,
    pub changed: usize,
    pub removed: usize,
    pub added: usize,
}

/// The rows in order that weren't gone through yet, and how many of the others went and came.
#[derive(Clone, Copy)]
struct Rest<'a> {
    before: &'a [Vec<u8>],
    after: &'a [Vec<u8>],
    goes: usize,
    comes: usize,
}

/// What is left behind the least row; none where no row is left.
fn without_least(rest: Rest<'_>) -> Option<Rest<'_>>
    requires before { Rising (texts rest.before.now) }
    requires after { Rising (texts rest.after.now) }
    requires few_go { rest.goes + length rest.before.now < 2 ^ 63 }
    requires few_come { rest.comes + length rest.after.now < 2 ^ 63 }
    ensures none { IfNone result ((texts rest.entry.before.now ≡ []) × (texts rest.entry.after.now ≡ [])) }
    ensures leads { IfSome result (λ next. LeadsOn (texts rest.entry.before.now) (texts rest.entry.after.now)
        rest.entry.goes rest.entry.comes (texts next.before.now) (texts next.after.now) next.goes next.comes) }
    ensures gone_fit { IfSome result (λ next.
        next.goes + length next.before.now ≤ rest.entry.goes + length rest.entry.before.now) }
    ensures come_fit { IfSome result (λ next.
        next.comes + length next.after.now ≤ rest.entry.comes + length rest.entry.after.now) }
    ensures shorter { IfSome result (λ next. length next.before.now + length next.after.now
        < length rest.entry.before.now + length rest.entry.after.now) }
{
    let Some((first, later)) = rest.before.split_first() else {
        let (_, others) = rest.after.split_first()?;
        return Some(Rest {
            after: others,
            comes: rest.comes + 1,
            ..rest
        });
    };
    let Some((other, others)) = rest.after.split_first() else {
        return Some(Rest {
            before: later,
            goes: rest.goes + 1,
            ..rest
        });
    };
    match first.cmp(other) {
        Ordering::Less => Some(Rest {
            before: later,
            goes: rest.goes + 1,
            ..rest
        }),
        Ordering::Equal => Some(Rest {
            before: later,
            after: others,
            ..rest
        }),
        Ordering::Greater => Some(Rest {
            after: others,
            comes: rest.comes + 1,
            ..rest
        }),
    }
}

/// How many of rows in order went, and how many came.
fn gone_and_come(before: &[Vec<u8>], after: &[Vec<u8>]) -> (usize, usize)
    requires before { Rising (texts before.now) }
    requires after { Rising (texts after.now) }
    ensures { GoesAndComes (texts before.now) (texts after.now) result.0 result.1 }
{
    let mut rest = Rest {
        before,
        after,
        goes: 0,
        comes: 0,
    };
    while let Some(next) = without_least(rest) {
        rest = next;
    }
    (rest.goes, rest.comes)
}

/// Puts rows in order.
fn put_in_order(rows: &mut Vec<Vec<u8>>) -> Result<(), AllocError>
    ensures same { OnOk result (IsPermutation (texts rows.old.items) (texts rows.new.items)) }
    ensures rising { OnOk result (Rising (texts rows.new.items)) }
{
    rows.sort()?;
    Ok(())
}

/// What became of rows: how many of them went and came, and of these how many were changed, removed and added.
pub fn compare(before: Vec<Vec<u8>>, after: Vec<Vec<u8>>) -> Result<RowCounts, AllocError>
    ensures { IfOk result (AreCounted (map (λ row. row.items) before.items) (map (λ row. row.items) after.items)) }
{
    let (mut before, mut after) = (before, after);
    put_in_order(&mut before)?;
    put_in_order(&mut after)?;
    let (goes, comes) = gone_and_come(before.as_slice(), after.as_slice());
    let changed = goes.min(comes);
    Ok(RowCounts {
        before: before.len(),
        after: after.len(),
        changed,
        removed: goes - changed,
        added: comes - changed,
    })
}
