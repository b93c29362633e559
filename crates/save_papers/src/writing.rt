//! Plans and notes written.

ghost use Rattle.std.specs.Prelude.{◌≡◌, ◌<◌, ◌≤◌, ◌^◌, ◌++◌, length, OnOk, IfOk, IfSome, IsErrOf};
ghost use Rattle.save_papers.specs.Papers.{IsPaper, IsPaperText, FitsEntry, paper_entry_text, entry_view, paper_view};
ghost use Rattle.save_papers.specs.Papers.{string};
ghost use Rattle.save_papers.specs.Papers.{flagged_sum};

use crate::paper::{PaperEntry, SavePaper, WriteError};
use crate::sums::{head, sum_of};
use save_steps::Sum;
use std::alloc::{AllocError, Global};

/// A length that a text can say.
fn length_of(len: usize) -> Result<u32, WriteError>
    ensures ok { IfOk result (λ n. n ≡ len) }
    ensures fits { IfOk result (λ _. len < 2 ^ 32) }
    ensures long { IsErrOf result WriteError.Long → 2 ^ 32 ≤ len }
{
    match u32::try_from(len) {
        Ok(n) => Ok(n),
        Err(_) => Err(WriteError::Long),
    }
}

fn put_string(out: &mut Vec<u8>, bytes: &[u8]) -> Result<(), WriteError>
    ensures ok { OnOk result (out.new.items ≡ out.old.items ++ string bytes.now) }
    ensures fits { OnOk result (length bytes.now < 2 ^ 32) }
    ensures long { IsErrOf result WriteError.Long → 2 ^ 32 ≤ length bytes.now }
{
    let len = length_of(bytes.len())?;
    out.extend_from_slice(&len.to_be_bytes())?;
    out.extend_from_slice(bytes)?;
    Ok(())
}

fn put_flagged(out: &mut Vec<u8>, sum: &Option<Sum>) -> Result<(), AllocError>
    ensures ok { OnOk result (out.new.items ≡ out.old.items ++ flagged_sum sum.now) }
    ensures fits { OnOk result (IfSome sum.now (λ s. length s ≡ 32)) }
{
    match sum {
        None => out.push(0)?,
        Some(sum) => {
            out.push(1)?;
            out.extend_from_slice(sum)?;
        }
    }
    Ok(())
}

fn put_entry(out: &mut Vec<u8>, entry: &PaperEntry) -> Result<(), WriteError>
    ensures ok { OnOk result (out.new.items ≡ out.old.items ++ paper_entry_text (entry_view entry.now)) }
    ensures fits { OnOk result (FitsEntry (entry_view entry.now)) }
    ensures long { IsErrOf result WriteError.Long → FitsEntry (entry_view entry.now) → ⊥ }
{
    put_string(out, entry.name.as_slice())?;
    put_string(out, entry.beside.as_slice())?;
    put_flagged(out, &entry.old)?;
    out.extend_from_slice(&entry.new)?;
    Ok(())
}

/// The text of a plan or a note.
///
/// # Errors
/// `Long` where a name or the list of files is too long for a text: 4 GiB, or as many files.
pub fn write(alloc: Global, paper: &SavePaper) -> Result<Vec<u8>, WriteError>
    ensures ok { IfOk result (λ text. IsPaperText (paper_view paper.now) text.items) }
    // So what is written is read again.
    ensures fits { IfOk result (λ _. IsPaper (paper_view paper.now)) }
    ensures long { IsErrOf result WriteError.Long → IsPaper (paper_view paper.now) → ⊥ }
{
    let mut out = Vec::new(alloc);
    let count = length_of(paper.entries.len())?;
    out.extend_from_slice(head())?;
    out.push(paper.noted as u8)?;
    out.extend_from_slice(&count.to_be_bytes())?;
    for entry in &paper.entries {
        put_entry(&mut out, entry)?;
    }
    let seal = sum_of(out.as_slice());
    out.extend_from_slice(&seal)?;
    Ok(out)
}
