//! Many of one thing, one behind the other.

ghost use Rattle.std.specs.Prelude.{◌≡◌, IfOk, ℕ, List, Option, Result};
ghost use Rattle.code_parts.specs.declared.flaw.Flaw.{Flaw as OneFlaw};
ghost use Rattle.code_parts.specs.Reading.{Gives, several, in_list, judged_behind, counted_at};

use crate::fields::byte_of;
use crate::flaw::{Flaw, Unread};
use std::alloc::{AllocError, Global};

/// What reads a thing at the front of bytes.
pub trait Reads {
    /// The thing that it reads.
    type Thing: Drop;

    ghost at: { Self → List ℕ → Option (Result Self.Thing OneFlaw × List ℕ) };

    /// The thing at the front, or its first flaw, and the bytes behind it. `Short` is told where bytes of it are
    /// missing.
    fn read<'a>(
        &self,
        alloc: Global,
        bytes: &'a [u8],
    ) -> Result<(Result<Self::Thing, Flaw>, &'a [u8]), Unread>
        ensures { Gives (λ x. (x.0, x.1.now)) result (at self.now bytes.now) };
}

/// The things so far with one more, or the first flaw.
fn with_one<T: Drop>(
    things: Result<Vec<T>, Flaw>,
    one: Result<T, Flaw>,
) -> Result<Result<Vec<T>, Flaw>, AllocError>
    ensures { IfOk result (λ all. in_list all ≡ judged_behind (in_list things) one) }
{
    match things {
        Ok(mut things) => match one {
            Ok(one) => {
                things.push(one)?;
                Ok(Ok(things))
            }
            Err(flaw) => Ok(Err(flaw)),
        },
        Err(flaw) => Ok(Err(flaw)),
    }
}

/// So many things, or the first flaw, and the bytes behind them all. `Short` is told where bytes of one are missing.
pub(crate) fn read_several<'a, R: Reads>(
    alloc: Global,
    reader: &R,
    count: usize,
    bytes: &'a [u8],
) -> Result<(Result<Vec<R::Thing>, Flaw>, &'a [u8]), Unread>
    ensures { Gives (λ x. (in_list x.0, x.1.now)) result (several (R.at reader.now) count bytes.now) }
{
    let mut things = Ok(Vec::new(alloc));
    let mut rest = bytes;
    for _ in 0..count {
        let (one, after) = reader.read(alloc, rest)?;
        things = with_one(things, one)?;
        rest = after;
    }
    Ok((things, rest))
}

/// A byte that says how many follow, those or the first flaw, and the bytes behind them all.
pub(crate) fn read_counted<'a, R: Reads>(
    alloc: Global,
    reader: &R,
    bytes: &'a [u8],
) -> Result<(Result<Vec<R::Thing>, Flaw>, &'a [u8]), Unread>
    ensures { Gives (λ x. (in_list x.0, x.1.now)) result (counted_at (R.at reader.now) bytes.now) }
{
    let (count, rest) = byte_of(bytes)?;
    read_several(alloc, reader, usize::from(count), rest)
}
