//! Plans and notes read.

ghost use Rattle.std.specs.Prelude.{IfOk, Some};
ghost use Rattle.std.specs.Int.{w32};
ghost use Rattle.save_papers.specs.Papers.{PaperSays, IsPaper, IsPaperText, entry_view, entry_views, paper_view};
ghost use Rattle.save_papers.specs.Reading.{PaperGives, after_head, noted_at, number_in_front, string_at, sum_at};
ghost use Rattle.save_papers.specs.Reading.{flagged_sum_at};
ghost use Rattle.save_papers.specs.Reading.{paper_entry_at, paper_entries_at, body_of, unsealed, paper_of};

use crate::paper::{PaperEntry, PaperError, SavePaper};
use crate::sums::{head, sum_of};
use save_steps::Sum;
use std::alloc::Global;

/// How many bytes a sum has.
const SUM: usize = 32;

fn number_of(bytes: &[u8]) -> Result<(u32, &[u8]), PaperError>
    ensures { PaperGives (λ x. (x.0, x.1.now)) result (number_in_front w32 bytes.now) }
{
    if bytes.len() < 4 {
        return Err(PaperError::Foreign);
    }
    let (front, rest) = bytes.split_at(4);
    let number = u32::from_be_bytes([front[0], front[1], front[2], front[3]]);
    Ok((number, rest))
}

#[tactic(auto, unfolding(crate::specs::Reading::string_at))]
fn string_of(alloc: Global, bytes: &[u8]) -> Result<(Vec<u8>, &[u8]), PaperError>
    ensures { PaperGives (λ x. (x.0.items, x.1.now)) result (string_at bytes.now) }
{
    let (len, rest) = number_of(bytes)?;
    let len = len as usize;
    if rest.len() < len {
        return Err(PaperError::Foreign);
    }
    let (text, rest) = rest.split_at(len);
    Ok((Vec::from_slice(alloc, text)?, rest))
}

fn sum_in(bytes: &[u8]) -> Result<(Sum, &[u8]), PaperError>
    ensures { PaperGives (λ x. (x.0, x.1.now)) result (sum_at bytes.now) }
{
    if bytes.len() < SUM {
        return Err(PaperError::Foreign);
    }
    let (front, rest) = bytes.split_at(SUM);
    let mut sum = [0u8; SUM];
    sum.copy_from_slice(front);
    Ok((sum, rest))
}

#[tactic(auto, unfolding(crate::specs::Reading::flagged_sum_at))]
fn flagged_sum_of(bytes: &[u8]) -> Result<(Option<Sum>, &[u8]), PaperError>
    ensures { PaperGives (λ x. (x.0, x.1.now)) result (flagged_sum_at bytes.now) }
{
    match bytes {
        [] => Err(PaperError::Foreign),
        [0, rest @ ..] => Ok((None, rest)),
        [1, rest @ ..] => {
            let (sum, rest) = sum_in(rest)?;
            Ok((Some(sum), rest))
        }
        [_, ..] => Err(PaperError::Foreign),
    }
}

#[tactic(auto, unfolding(crate::specs::Reading::paper_entry_at))]
fn entry_of(alloc: Global, bytes: &[u8]) -> Result<(PaperEntry, &[u8]), PaperError>
    ensures { PaperGives (λ x. (entry_view x.0, x.1.now)) result (paper_entry_at bytes.now) }
{
    let (name, rest) = string_of(alloc, bytes)?;
    let (beside, rest) = string_of(alloc, rest)?;
    let (old, rest) = flagged_sum_of(rest)?;
    let (new, rest) = sum_in(rest)?;
    let entry = PaperEntry {
        name,
        beside,
        old,
        new,
    };
    Ok((entry, rest))
}

fn entries_of(
    alloc: Global,
    count: u32,
    bytes: &[u8],
) -> Result<(Vec<PaperEntry>, &[u8]), PaperError>
    ensures { PaperGives (λ x. (entry_views x.0.items, x.1.now)) result (paper_entries_at count bytes.now) }
{
    let mut entries = Vec::new(alloc);
    let mut rest = bytes;
    for _ in 0..count {
        let (entry, after) = entry_of(alloc, rest)?;
        entries.push(entry)?;
        rest = after;
    }
    Ok((entries, rest))
}

fn kind_of(bytes: &[u8]) -> Result<(bool, &[u8]), PaperError>
    ensures { PaperGives (λ x. (x.0, x.1.now)) result (noted_at bytes.now) }
{
    match bytes {
        [] => Err(PaperError::Foreign),
        [0, rest @ ..] => Ok((false, rest)),
        [1, rest @ ..] => Ok((true, rest)),
        [_, ..] => Err(PaperError::Foreign),
    }
}

fn behind_head(bytes: &[u8]) -> Result<&[u8], PaperError>
    ensures { PaperGives (λ x. x.now) result (after_head bytes.now) }
{
    match bytes.strip_prefix(head()) {
        Some(rest) => Ok(rest),
        None => Err(PaperError::Foreign),
    }
}

#[tactic(auto, unfolding(crate::specs::Reading::body_of))]
fn paper_in(alloc: Global, body: &[u8]) -> Result<SavePaper, PaperError>
    ensures { PaperGives paper_view result (body_of body.now) }
{
    let rest = behind_head(body)?;
    let (noted, rest) = kind_of(rest)?;
    let (count, rest) = number_of(rest)?;
    let (entries, rest) = entries_of(alloc, count, rest)?;
    if !rest.is_empty() {
        return Err(PaperError::Foreign);
    }
    Ok(SavePaper { noted, entries })
}

#[tactic(auto, unfolding(crate::specs::Reading::unsealed))]
fn unseal(bytes: &[u8]) -> Result<&[u8], PaperError>
    ensures { PaperGives (λ x. x.now) result (unsealed bytes.now) }
{
    if bytes.len() < SUM {
        return Err(PaperError::Foreign);
    }
    let (body, seal) = bytes.split_at(bytes.len() - SUM);
    if sum_of(body).as_slice() != seal {
        return Err(PaperError::Foreign);
    }
    Ok(body)
}

#[tactic(auto, unfolding(crate::specs::Reading::paper_of))]
fn whole(alloc: Global, bytes: &[u8]) -> Result<SavePaper, PaperError>
    ensures { PaperGives paper_view result (paper_of bytes.now) }
{
    let body = unseal(bytes)?;
    paper_in(alloc, body)
}

/// The plan or the note that the bytes spell, all of the bytes.
///
/// # Errors
/// `Foreign` where they spell none, be they cut short or another program's.
pub fn read(alloc: Global, bytes: &[u8]) -> Result<SavePaper, PaperError>
    // What is read is spelled so, so that nothing else is taken for a paper.
    ensures found { IfOk result (λ paper. IsPaper (paper_view paper) × IsPaperText (paper_view paper) bytes.now) }
    // What is spelled so is read, unless memory runs out.
    ensures only { (says : PaperSays) → IsPaper says → IsPaperText says bytes.now
        → PaperGives paper_view result (Some says) }
{
    whole(alloc, bytes)
}
