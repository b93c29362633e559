//! Sums of bytes, and the line with which a paper begins.

ghost use Rattle.std.specs.Prelude.{◌≡◌, length, take};
ghost use Rattle.std.specs.Str.{bytes_eq};
ghost use Rattle.save_papers.specs.Papers.{head as the_head, seal_of as the_sum};

use save_steps::Sum;
use sha2::{Digest, Sha256};

/// The line with which a paper begins.
const HEAD: &[u8] = b"Tablereef: a save that is not at its end\n";

/// The SHA-256 sum of bytes.
#[tactic(auto, unfolding(crate::specs::Papers::seal_of))]
pub fn sum_of(bytes: &[u8]) -> Sum
    ensures { result ≡ the_sum bytes.now }
{
    Sha256::digest(bytes)
}

/// The line with which a paper begins.
#[tactic(auto, unfolding(crate::specs::Papers::head))]
pub(crate) fn head() -> &'static [u8]
    ensures { result.now ≡ the_head }
{
    HEAD
}

/// Whether bytes are those of a plan or a note that is cut at any place, as far as its first line tells.
pub fn may_begin_paper(bytes: &[u8]) -> bool
    ensures { result ≡ bytes_eq (take (length the_head) bytes.now) (take (length bytes.now) the_head) }
{
    let line = head();
    let count = bytes.len().min(line.len());
    bytes[..count] == line[..count]
}
