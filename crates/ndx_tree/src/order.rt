//! Whether what a walk met is in order.

ghost use Rattle.std.specs.Prelude.{◌≡◌, ◌≤◌, ◌↔◌, false, length, take, drop, List, IsTrue};
ghost use Rattle.key_lists.specs.Pairs.{key_before};
ghost use Rattle.key_lists.specs.Order.{Each};
ghost use Rattle.key_lists.specs.Rising.{IsRising};
ghost use Rattle.ndx_tree.specs.Reads.{IsBetween, AreInside, separators_at};
ghost use Rattle.ndx_tree.specs.IndexFile.{AreInOrder, listed, Item};

use crate::walk::{Found, Separator};
use key_rows::{Entries, is_key_before};

// Whether each entry stands before the next.
fn is_rising(entries: &Entries) -> bool
    ensures { IsTrue result ↔ IsRising entries.now.items }
{
    for index in 1..entries.len() {
        let number = u64::from(entries.number(index));
        if !entries.is_below(index - 1, entries.key(index), number) {
            return false;
        }
    }
    true
}

// Whether a key is no less than the keys before a place.
fn bounds_left(entries: &Entries, place: usize, key: &[u8]) -> bool
    requires rising { IsRising entries.now.items }
    requires inside { place ≤ length entries.now.items }
    ensures { IsTrue result ↔ Each (λ p. key_before key.now p.0 ≡ false) (take place entries.now.items) }
{
    if place == 0 {
        return true;
    }
    !is_key_before(key, entries.key(place - 1))
}

// Whether a key is no greater than the keys from a place on.
fn bounds_right(entries: &Entries, place: usize, key: &[u8]) -> bool
    requires { IsRising entries.now.items }
    ensures { IsTrue result ↔ Each (λ p. key_before p.0 key.now ≡ false) (drop place entries.now.items) }
{
    if place >= entries.len() {
        return true;
    }
    !is_key_before(entries.key(place), key)
}

// Whether a separator stands between the keys on its two sides.
fn is_between(entries: &Entries, separator: &Separator) -> bool
    requires rising { IsRising entries.now.items }
    requires inside { separator.now.place ≤ length entries.now.items }
    ensures { IsTrue result ↔ IsBetween entries.now.items separator.now }
{
    let key = separator.key.as_slice();
    bounds_left(entries, separator.place, key) && bounds_right(entries, separator.place, key)
}

// Whether all separators are.
fn are_between(entries: &Entries, separators: &[Separator]) -> bool
    requires rising { IsRising entries.now.items }
    requires inside { AreInside (length entries.now.items) separators.now }
    ensures { IsTrue result ↔ Each (IsBetween entries.now.items) separators.now }
{
    for separator in separators {
        if !is_between(entries, separator) {
            return false;
        }
    }
    true
}

/// Whether the pairs rise and the separators stand between their sides.
pub(crate) fn is_in_order(found: &Found) -> bool
    requires { AreInside (length found.now.entries.items) found.now.separators.items }
    ensures { (items : List Item) → found.now.entries.items ≡ listed items
        → found.now.separators.items ≡ separators_at 0 items
        → IsTrue result ↔ AreInOrder items }
{
    is_rising(&found.entries) && are_between(&found.entries, &found.separators)
}
