//! Places of a move: that of a row, or none at the end of file.

ghost use Rattle.std.specs.Prelude.{◌≡◌, option_map, is_none, ◌&&◌, if◌then◌else◌, None};

use crate::RowOrder;

/// The record of a place.
pub(crate) fn record_of<O: RowOrder>(at: &Option<O::Place>) -> Option<u32>
    ensures { result ≡ option_map (λ p. (O.pair p).1) at.now }
{
    match at {
        Some(place) => Some(O::number(place)),
        None => None,
    }
}

/// Whether a move forward begins at the end of file.
pub(crate) fn is_past<P>(forward: bool, at: &Option<P>) -> bool
    ensures { result ≡ (forward && is_none at.now) }
{
    forward && at.is_none()
}

/// The record where a move that finds no row ends. A move forward ends at the end of file, where there is none; a move
/// back ends at the place that it came to.
pub(crate) fn end_from<O: RowOrder>(forward: bool, at: &Option<O::Place>) -> Option<u32>
    ensures { result ≡ (if forward then None else option_map (λ p. (O.pair p).1) at.now) }
{
    if forward { None } else { record_of::<O>(at) }
}
