//! Journals, and lines that were kept in one.

ghost use Rattle.std.specs.Prelude.{◌≡◌, ◌++◌, ℕ, List, IfErr, IfOk, OnOk, OnErr};
ghost use Rattle.file_access.specs.Holding.{Rose};
ghost use Rattle.line_journal.specs.Kept.{NotKeptIs, ended_by_lf};
ghost use Rattle.line_journal.specs.declared.kept.NotKept.TheVariants.{Memory as OfMemory};

use std::alloc::AllocError;
use std::marker::Model;

/// The journal failed: what was to be kept isn't in it.
#[derive(Clone, Copy, PartialEq, Eq, Debug)]
pub struct JournalFailed;

/// What keeps the bytes that an operator typed, one behind the other.
pub trait Journal {
    /// The bytes that it holds.
    ghost holds: { Self → List ℕ };

    /// How often it failed, as far as 2^64 - 1.
    ghost failed: { Self → ℕ };

    /// Puts bytes behind those that it holds. Where it fails it holds what it held: what was written of them doesn't
    /// count. The count of its failures rose in this call then, or is at its greatest; else it stays. Refused memory
    /// is a failure of the journal.
    fn append(&mut self, bytes: &[u8]) -> Result<(), JournalFailed>
        ensures added { OnOk result (holds self.new ≡ holds self.old ++ bytes.now) }
        ensures kept { OnErr result (holds self.new ≡ holds self.old) }
        ensures rose { OnErr result (Rose (failed self.old) (failed self.new)) }
        ensures unfailed { OnOk result (failed self.new ≡ failed self.old) };
}

/// A line that a journal keeps, seen as its bytes with LF behind them. `keep` alone makes one.
#[derive(Drop)]
pub struct KeptLine {
    bytes: Vec<u8>,
}

impl Model for KeptLine {
    ghost use Rattle.std.specs.Prelude.{List, ℕ};

    ghost Value = { List ℕ };

    ghost view = { λ l. l.bytes.items };
}

impl KeptLine {
    /// The line's bytes, with LF.
    pub fn into_bytes(self) -> Vec<u8>
        ensures { result.items ≡ self }
    {
        self.bytes
    }
}

/// Why a line isn't kept.
#[derive(Clone, Copy, PartialEq, Eq, Debug)]
pub enum NotKept {
    /// The journal failed.
    Journal,
    /// Memory was refused.
    Memory,
}

impl From<AllocError> for NotKept {
    ghost from_gives = { λ _ e. e ≡ OfMemory };

    fn from(_: AllocError) -> NotKept {
        NotKept::Memory
    }
}

/// A line with LF behind it.
fn ended(mut line: Vec<u8>) -> Result<Vec<u8>, AllocError>
    ensures { IfOk result (λ bytes. bytes.items ≡ ended_by_lf line.items) }
{
    line.push(b'\n')?;
    Ok(line)
}

/// Keeps a line in a journal: it holds the line with LF behind what it held. On a refusal it holds what it held.
/// `NotKept::Journal` is answered only where the journal failed, and counted that.
pub fn keep<J: Journal>(journal: &mut J, line: Vec<u8>) -> Result<KeptLine, NotKept>
    ensures line { IfOk result (λ kept. kept ≡ ended_by_lf line.items) }
    ensures added { OnOk result (J.holds journal.new ≡ J.holds journal.old ++ ended_by_lf line.items) }
    ensures kept { OnErr result (J.holds journal.new ≡ J.holds journal.old) }
    ensures unfailed { OnOk result (J.failed journal.new ≡ J.failed journal.old) }
    ensures refused { IfErr result (NotKeptIs (J.failed journal.old) (J.failed journal.new)) }
{
    let bytes = ended(line)?;
    match journal.append(bytes.as_slice()) {
        Ok(()) => Ok(KeptLine { bytes }),
        Err(_) => Err(NotKept::Journal),
    }
}
