//! Sums of files, as such texts tell them.

ghost use Rattle.std.specs.Prelude.{◌≡◌, ◌≢◌, ℕ, List, Some, IfOk, OnOk, OnErr, not, position, string_bytes};
ghost use Rattle.hex.specs.Hex.{encode_lower};
ghost use Rattle.toml.specs.Data.{get_member, string};
ghost use Rattle.toml.specs.View.{table_view};
ghost use Rattle.journal_papers.specs.Papers as spec;
ghost use Rattle.journal_papers.specs.Papers.{is_said, sum_word};

use crate::paper::JournalPaper;
use save_steps::Sum;
use std::alloc::{AllocError, Global};

/// The word of a file that there isn't.
const ABSENT: &str = "absent";

/// A file's name, and the SHA-256 sum of what it holds, none where there is no such file.
#[derive(Drop)]
pub struct FileSum {
    pub name: String,
    pub sum: Option<Sum>,
}

/// A sum as a word: its digits in hex, or that there is none.
#[tactic(auto, unfolding(crate::specs::Papers::sum_word))]
fn word(alloc: Global, sum: &Option<Sum>) -> Result<String, AllocError>
    ensures { IfOk result (λ word. string_bytes word ≡ sum_word sum.now) }
{
    match sum {
        Some(sum) => hex::encode(alloc, *sum),
        None => String::from_str(alloc, ABSENT),
    }
}

fn begins_with_hyphen(name: &[u8]) -> bool
    ensures { result ≡ spec.begins_with_hyphen name.now }
{
    match name {
        [first, ..] => *first == b'-',
        [] => false,
    }
}

/// The key of a file's sum: its name, of which the first hyphen is left out where two stand in front, since words of
/// the command line are keys too.
fn sum_key(name: &str) -> &str
    ensures { result.now ≡ spec.sum_key name.now }
{
    match name.strip_prefix('-') {
        Some(rest) => {
            if begins_with_hyphen(rest.as_bytes()) {
                rest
            } else {
                name
            }
        }
        None => name,
    }
}

impl JournalPaper {
    /// Puts a file's sum under its key. The words under other keys stay.
    pub fn put_sum(&mut self, alloc: Global, file: &FileSum) -> Result<(), AllocError>
        ensures stands { OnOk result (get_member (spec.sum_key (string_bytes file.now.name)) (table_view self.new.table)
            ≡ Some (string (sum_word file.now.sum))) }
        ensures others { OnOk result ((other : List ℕ) → other ≢ spec.sum_key (string_bytes file.now.name)
            → get_member other (table_view self.new.table) ≡ get_member other (table_view self.old.table)) }
        ensures refused { OnErr result (table_view self.new.table ≡ table_view self.old.table) }
    {
        let word = word(alloc, &file.sum)?;
        self.put(alloc, sum_key(file.name.as_str()), word.as_str())
    }
}

/// The digits of a sum in hex.
fn digits_of(sum: &Sum) -> [u8; 64]
    ensures { result ≡ encode_lower sum.now }
{
    let mut digits = [0u8; 64];
    hex::encode_to_slice(*sum, &mut digits).unwrap();
    digits
}

/// Whether a file's sum is the one that is told of it.
#[tactic(auto, unfolding(crate::specs::Papers::sum_word))]
fn is_told(paper: &JournalPaper, file: &FileSum) -> bool
    ensures { result ≡ is_said (table_view paper.now.table) file.now }
{
    let Some(word) = paper.get(sum_key(file.name.as_str())) else {
        return false;
    };
    match &file.sum {
        Some(sum) => word.as_bytes() == digits_of(sum).as_slice(),
        None => word == ABSENT,
    }
}

/// The number of the first file whose sum isn't the one that is told of it.
pub fn first_changed(paper: &JournalPaper, files: &[FileSum]) -> Option<usize>
    ensures { result ≡ position (λ file. not (is_said (table_view paper.now.table) file)) files.now }
{
    files.iter().position(|file| !is_told(paper, file))
}
