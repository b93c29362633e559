//! Moves over rows in an order.

ghost use Rattle.std.specs.Prelude.{◌≡◌, ℕ, ◌≤◌, Bool, false, List, Option, IfOk, option_map};
ghost use Rattle.std.specs.Result.{result_map_both};
ghost use Rattle.key_lists.specs.Order.{IsAscending, first};
ghost use Rattle.key_lists.specs.Pairs.{Pair, is_before};
ghost use Rattle.row_moves.specs.Orders.{candidates, MayTry, Sees};
ghost use Rattle.row_moves.specs.Moves.{IsMove, IsScan, end_of, hops, landing_of, skipped};

use crate::places::{end_from, is_past, record_of};
use crate::{Landed, RowOrder, Spent};
use key_lists::laws::meets_each;

/// What a move over rows in an order asks for.
#[derive(Clone, Copy)]
pub enum RowMove {
    /// TOP: the first shown row, or the end of file.
    Top,
    /// BOTTOM: the last shown row, or the end of file.
    Bottom,
    /// SKIP: so many shown rows on, or back.
    Skip { forward: bool, rows: u128 },
}

impl RowMove {
    /// SKIP by a number: so many rows on, or back where it is below 0.
    pub fn skip(steps: i128) -> RowMove
        ensures { (shown : ℕ → Bool) (at : Option Pair) (pairs : List Pair)
            → landing_of shown result at pairs ≡ skipped shown steps at pairs }
    {
        let rows = steps.unsigned_abs();
        if steps < 0 {
            return RowMove::Skip {
                forward: false,
                rows,
            };
        }
        RowMove::Skip {
            forward: true,
            rows,
        }
    }
}

/// Makes a move, from a place or the end of file. TOP and BOTTOM lead to the same row wherever they begin.
pub fn make_move<O: RowOrder, F: Fn(u32) -> bool>(
    order: &mut O,
    from: Option<O::Place>,
    asked: RowMove,
    see: &F,
    budget: u64,
) -> Result<Landed, Spent>
    requires { MayTry F.pre see.now (O.list order.old).pairs }
    ensures lands { (shown : ℕ → Bool) → Sees F.post see.now (O.list order.old).pairs shown
        → IsMove (landing_of shown asked (option_map O.pair from) (O.list order.old).pairs) budget result }
    ensures same { O.list order.new ≡ O.list order.old }
{
    match asked {
        RowMove::Top => go_to_end(order, true, see, budget),
        RowMove::Bottom => go_to_end(order, false, see, budget),
        RowMove::Skip { forward, rows } => go_on(order, from, forward, rows, see, budget),
    }
}

// The first shown row of the order, or the last.
fn go_to_end<O: RowOrder, F: Fn(u32) -> bool>(
    order: &mut O,
    forward: bool,
    see: &F,
    budget: u64,
) -> Result<Landed, Spent>
    requires { MayTry F.pre see.now (O.list order.old).pairs }
    ensures lands { (shown : ℕ → Bool) → Sees F.post see.now (O.list order.old).pairs shown
        → IsMove (end_of shown forward (O.list order.old).pairs) budget result }
    ensures same { O.list order.new ≡ O.list order.old }
{
    order.row_count();
    if budget == 0 {
        return Err(Spent);
    }
    let (at, cost) = search(order, forward, &None, see, 1, budget)?;
    Ok(Landed {
        row: record_of::<O>(&at),
        cost,
        bof: at.is_none(),
        found: false,
    })
}

// A number of shown rows on, or back.
fn go_on<O: RowOrder, F: Fn(u32) -> bool>(
    order: &mut O,
    from: Option<O::Place>,
    forward: bool,
    steps: u128,
    see: &F,
    budget: u64,
) -> Result<Landed, Spent>
    requires { MayTry F.pre see.now (O.list order.old).pairs }
    ensures lands { (shown : ℕ → Bool) → Sees F.post see.now (O.list order.old).pairs shown
        → IsMove (hops shown forward steps (option_map O.pair from) (O.list order.old).pairs) budget result }
    ensures same { O.list order.new ≡ O.list order.old }
{
    order.row_count();
    if budget == 0 {
        return Err(Spent);
    }
    let mut at = from;
    let mut cost = 1;
    let mut left = steps;
    while left > 0 {
        if is_past(forward, &at) {
            break;
        }
        let (next, met) = search(order, forward, &at, see, cost, budget)?;
        cost = met;
        left -= 1;
        if next.is_none() {
            return Ok(landed(end_from::<O>(forward, &at), cost, !forward));
        }
        at = next;
    }
    Ok(landed(record_of::<O>(&at), cost, false))
}

// Looks on in a direction for a row that is shown. The cost counts the rows met.
fn search<O: RowOrder, F: Fn(u32) -> bool>(
    order: &mut O,
    forward: bool,
    from: &Option<O::Place>,
    see: &F,
    cost: u64,
    budget: u64,
) -> Result<(Option<O::Place>, u64), Spent>
    requires ordered { IsAscending is_before (O.list order.old).pairs }
    requires callable { MayTry F.pre see.now (O.list order.old).pairs }
    requires in_budget { cost ≤ budget }
    ensures scan { (shown : ℕ → Bool) → Sees F.post see.now (O.list order.old).pairs shown
        → IsScan shown (candidates forward (option_map O.pair from.now) (O.list order.old).pairs) cost budget
        (result_map_both (λ r. (option_map O.pair r.0, r.1)) (λ spent. spent) result) }
    ensures in_budget { IfOk result (λ r. r.1 ≤ budget) }
    ensures same { O.list order.new ≡ O.list order.old }
{
    meets_each();
    let mut met = first_met(order, forward, from);
    let mut cost = cost;
    while let Some(place) = met {
        if cost == budget {
            return Err(Spent);
        }
        cost += 1;
        if see(O::number(&place)) {
            return Ok((Some(place), cost));
        }
        met = order.next(forward, &place);
    }
    Ok((None, cost))
}

// The first row in a direction: from a place, or from the start or the end.
fn first_met<O: RowOrder>(order: &mut O, forward: bool, from: &Option<O::Place>) -> Option<O::Place>
    ensures found { option_map O.pair result
        ≡ first (candidates forward (option_map O.pair from.now) (O.list order.old).pairs) }
    ensures same { O.list order.new ≡ O.list order.old }
{
    match from {
        Some(place) => order.next(forward, place),
        None => order.outermost(forward),
    }
}

// Where a move that sought nothing led.
fn landed(row: Option<u32>, cost: u64, bof: bool) -> Landed
    ensures { result ≡ record { row = row; cost = cost; bof = bof; found = false } }
{
    Landed {
        row,
        cost,
        bof,
        found: false,
    }
}
