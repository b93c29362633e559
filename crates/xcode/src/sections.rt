//! Sections of a code file: so many items of one kind, each judged when it is read.

ghost use Rattle.std.specs.Prelude.{◌≡◌, List, [], Bool};
ghost use Rattle.xcode.specs.Decoding.{FileGives, item_told, items_at};

use crate::fault::CodeFault;
use code_parts::{Reads, Unread};
use std::alloc::Global;

/// Which things may stand in a section.
pub trait Judges<T> {
    ghost follows: { Self → List T → T → Bool };

    /// Whether the thing may stand behind the earlier ones.
    fn may_follow(&self, earlier: &[T], one: &T) -> bool
        ensures { result ≡ follows self.now earlier.now one.now };
}

/// The item at the front, and the bytes behind it.
pub(crate) fn item_of<'a, R: Reads>(
    alloc: Global,
    reader: &R,
    bytes: &'a [u8],
) -> Result<(R::Thing, &'a [u8]), CodeFault>
    ensures { FileGives (λ x. (x.0, x.1.now)) result (item_told (R.at reader.now bytes.now)) }
{
    match reader.read(alloc, bytes) {
        Err(Unread::Short) => Err(CodeFault::Short),
        Err(Unread::Memory) => Err(CodeFault::Memory),
        Ok((read, rest)) => match read {
            Err(flaw) => Err(CodeFault::of(flaw)),
            Ok(thing) => Ok((thing, rest)),
        },
    }
}

/// So many items, and the bytes behind them.
pub(crate) fn items_of<'a, R: Reads, J: Judges<R::Thing>>(
    alloc: Global,
    reader: &R,
    judge: &J,
    count: u16,
    bytes: &'a [u8],
) -> Result<(Vec<R::Thing>, &'a [u8]), CodeFault>
    ensures { FileGives (λ x. (x.0.items, x.1.now)) result
        (items_at (R.at reader.now) (J.follows judge.now) count [] bytes.now) }
{
    let mut things = Vec::new(alloc);
    let mut rest = bytes;
    for _ in 0..count {
        let (one, after) = item_of(alloc, reader, rest)?;
        if !judge.may_follow(things.as_slice(), &one) {
            return Err(CodeFault::Shape);
        }
        things.push(one)?;
        rest = after;
    }
    Ok((things, rest))
}
