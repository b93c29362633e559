//! The journal of a conversation.
#![tactic(auto)]

ghost use Rattle.folder_files.specs.Journals.{bytes_counted};
ghost use Rattle.std.specs.Prelude.{◌≡◌, [], false, IfOk, length};

use folder_files::{JournalFault, JournalFile, Tail};
use line_journal::{Journal, JournalFailed};
use std::alloc::Global;
use std::fs::File;
use std::rt::Runtime;

/// The journal of a conversation: lines on the device, the bytes that were brought there, and how often it failed, as
/// far as 2^64 - 1.
#[derive(Drop)]
pub struct KeptJournal {
    pub file: JournalFile,
    pub bytes: Vec<u8>,
    pub failures: u64,
    ghost counted: { bytes_counted file ≡ length bytes.items },
}

impl KeptJournal {
    /// The journal of a conversation that begins, or that goes on, and what stands behind its lines.
    pub fn open<R: Runtime<A = Global, File = File>>(
        rt: &R,
        name: &str,
        goes_on: bool,
        no_lock: bool,
    ) -> Result<(KeptJournal, Option<Tail>), JournalFault>
        ensures { goes_on ≡ false → IfOk result (λ opened. opened.0.bytes.items ≡ []) }
    {
        if !goes_on {
            let journal = KeptJournal {
                file: JournalFile::make(rt, name, no_lock)?,
                bytes: Vec::new(rt.alloc()),
                failures: 0,
            };
            return Ok((journal, None));
        }
        let taken = JournalFile::take_up(rt, name, no_lock)?;
        let journal = KeptJournal {
            file: taken.journal,
            bytes: taken.lines,
            failures: 0,
        };
        Ok((journal, taken.tail))
    }
}

impl Journal for KeptJournal {
    ghost holds = { λ journal. journal.bytes.items };

    ghost failed = { λ journal. journal.failures };

    fn append(&mut self, bytes: &[u8]) -> Result<(), JournalFailed> {
        if self.bytes.reserve(bytes.len()).is_err() || self.file.add(bytes).is_err() {
            self.failures = self.failures.saturating_add(1);
            return Err(JournalFailed);
        }
        self.bytes.extend_from_slice(bytes).unwrap();
        Ok(())
    }
}
