//! SEEK over a list of keys.

ghost use Rattle.std.specs.Prelude.{◌≡◌, ℕ, ◌≤◌, Bool};
ghost use Rattle.key_lists.specs.KeyForm.{IsKeyList};
ghost use Rattle.key_lists.specs.Order.{IsAscending, first};
ghost use Rattle.key_lists.specs.Pairs.{is_before};
ghost use Rattle.row_moves.specs.Orders.{MayTry, Sees};
ghost use Rattle.row_moves.specs.Moves.{IsMove, IsScan, matching, sought};
ghost use Rattle.row_moves.specs.Seeking.{all_starting, begun_or_none, starting};

use crate::keys::{cut_or_filled, is_blank_behind};
use crate::places::record_of;
use crate::{Landed, Spent};
use key_lists::laws::{meets_each, stand_together};
use key_lists::{Entry, KeyList};

/// SEEK: the first shown row whose key matches the text, or the end of file. With EXACT on, a key matches if it is the
/// text but for blanks at the end of either. With EXACT off, a key matches if it begins with the text.
pub fn seek<K: KeyList, F: Fn(u32) -> bool>(
    keys: &mut K,
    text: &[u8],
    exact: bool,
    see: &F,
    budget: u64,
) -> Result<Landed, Spent>
    requires { MayTry F.pre see.now (K.pairs keys.old) }
    ensures lands { (shown : ℕ → Bool) → Sees F.post see.now (K.pairs keys.old) shown
        → IsMove (sought shown exact text.now (K.pairs keys.old)) budget result }
    ensures pairs { K.pairs keys.new ≡ K.pairs keys.old }
    ensures form { K.form keys.new ≡ K.form keys.old }
    ensures spare { K.spare keys.new ≡ K.spare keys.old }
{
    keys.len();
    if budget == 0 {
        return Err(Spent);
    }
    let (at, cost) = seek_matching(keys, text, exact, see, budget)?;
    Ok(Landed {
        row: record_of::<K>(&at),
        cost,
        bof: false,
        found: at.is_some(),
    })
}

// The first shown row whose key matches. Keys are of one length, so with EXACT on one key alone can match.
fn seek_matching<K: KeyList, F: Fn(u32) -> bool>(
    keys: &mut K,
    text: &[u8],
    exact: bool,
    see: &F,
    budget: u64,
) -> Result<(Option<Entry>, u64), Spent>
    requires sound { IsKeyList (K.form keys.old) (K.pairs keys.old) }
    requires callable { MayTry F.pre see.now (K.pairs keys.old) }
    requires in_budget { 1 ≤ budget }
    ensures scan { (shown : ℕ → Bool) → Sees F.post see.now (K.pairs keys.old) shown
        → IsScan shown (matching exact text.now (K.pairs keys.old)) 1 budget result }
    ensures pairs { K.pairs keys.new ≡ K.pairs keys.old }
    ensures form { K.form keys.new ≡ K.form keys.old }
    ensures spare { K.spare keys.new ≡ K.spare keys.old }
{
    if !exact {
        return seek_start(keys, text, see, budget);
    }
    let length = keys.key_length();
    if !is_blank_behind(text, length) {
        return Ok((None, 1));
    }
    seek_start(keys, cut_or_filled(text, length).as_slice(), see, budget)
}

// The first shown row whose key begins so. The rows met count to the cost, which is one before.
fn seek_start<K: KeyList, F: Fn(u32) -> bool>(
    keys: &mut K,
    start: &[u8],
    see: &F,
    budget: u64,
) -> Result<(Option<Entry>, u64), Spent>
    requires ordered { IsAscending is_before (K.pairs keys.old) }
    requires callable { MayTry F.pre see.now (K.pairs keys.old) }
    requires in_budget { 1 ≤ budget }
    ensures scan { (shown : ℕ → Bool) → Sees F.post see.now (K.pairs keys.old) shown
        → IsScan shown (all_starting start.now (K.pairs keys.old)) 1 budget result }
    ensures pairs { K.pairs keys.new ≡ K.pairs keys.old }
    ensures form { K.form keys.new ≡ K.form keys.old }
    ensures spare { K.spare keys.new ≡ K.spare keys.old }
{
    meets_each();
    stand_together();
    let mut at = None;
    let mut cost = 1;
    while let Some(entry) = next_begun(keys, start, &at) {
        if cost == budget {
            return Err(Spent);
        }
        cost += 1;
        if see(entry.number()) {
            return Ok((Some(entry), cost));
        }
        at = Some(entry);
    }
    Ok((None, cost))
}

// The next pair whose key begins so, from a pair on or from the first.
fn next_begun<K: KeyList>(keys: &mut K, start: &[u8], at: &Option<Entry>) -> Option<Entry>
    ensures found { result ≡ first (starting start.now at.now (K.pairs keys.old)) }
    ensures pairs { K.pairs keys.new ≡ K.pairs keys.old }
    ensures form { K.form keys.new ≡ K.form keys.old }
    ensures spare { K.spare keys.new ≡ K.spare keys.old }
{
    match at {
        None => if_begun(keys.first_from(start), start),
        Some(entry) => if_begun(keys.after(entry.key(), entry.number()), start),
    }
}

// The pair, if its key begins so.
fn if_begun(found: Option<Entry>, start: &[u8]) -> Option<Entry>
    ensures { result ≡ begun_or_none start.now found }
{
    let entry = found?;
    if entry.key().starts_with(start) {
        return Some(entry);
    }
    None
}
