//! What stands beside a journal.
#![tactic(auto)]

ghost use Rattle.operating.specs.declared.operator.OperatorFailed.TheVariants.{Memory as ForMemory, Other as ForOther};
ghost use Rattle.operator_desk.specs.Beginnings.{changed_of};
ghost use Rattle.operator_desk.specs.Openings.{NamesNoMore, NamesOne, is_opened};
ghost use Rattle.std.specs.Prelude.{◌≡◌, ◌<◌, Err, IfErr, IfOk, IfSome, IsErr, IsOk, MatchOption, None, OnErr, OnOk};
ghost use Rattle.std.specs.Prelude.{false, is_some, length, slice_get, string_bytes, true};

use crate::begun::{Talk, put_talk};
use folder_files::{FileSum, Tail, put_new_file};
use journal_papers::{JournalPaper, first_changed};
use operating::OperatorFailed;
use std::alloc::{AllocError, Global};
use std::fs::File;
use std::io;
use std::rt::Runtime;

/// Beside what the conversation is recorded.
#[derive(Drop)]
pub struct Record<'a, R> {
    pub rt: &'a R,
    /// The name of the journal.
    pub journal: String,
    /// What stands behind the journal's lines.
    pub tail: Option<Tail>,
    /// The name of the text of its beginning.
    pub begun: String,
    /// What that text says, where the conversation goes on.
    pub said: Option<&'a JournalPaper>,
    /// The file that isn't as it was when the conversation was begun.
    pub changed: Option<String>,
    /// The name of a file that couldn't be written.
    pub unwritten: Option<String>,
    /// Whether the text of the beginning was written, or each file was found as it says.
    opened: bool,
}

/// Puts what a conversation is asked for, and the sums of its files.
fn put_begun(
    alloc: Global,
    paper: &mut JournalPaper,
    talk: &Talk,
    sums: &[FileSum],
) -> Result<(), AllocError> {
    put_talk(alloc, paper, talk)?;
    for sum in sums {
        paper.put_sum(alloc, sum)?;
    }
    Ok(())
}

/// The text of a beginning.
fn begun_text(alloc: Global, talk: &Talk, sums: &[FileSum]) -> Result<String, OperatorFailed>
    ensures { IfErr result (λ why. why ≡ ForMemory) }
{
    let mut paper = JournalPaper::new(alloc);
    put_begun(alloc, &mut paper, talk, sums)?;
    match paper.text(alloc) {
        Ok(text) => Ok(text),
        Err(_) => Err(OperatorFailed::Memory),
    }
}

impl<'a, R: Runtime<A = Global, File = File>> Record<'a, R> {
    /// What stands beside a journal, with nothing written and looked at yet.
    pub fn new(
        rt: &'a R,
        journal: String,
        tail: Option<Tail>,
        begun: String,
        said: Option<&'a JournalPaper>,
    ) -> Record<'a, R>
        ensures { is_opened result ≡ false }
    {
        Record {
            rt,
            journal,
            tail,
            begun,
            said,
            changed: None,
            unwritten: None,
            opened: false,
        }
    }

    /// Writes the text of the beginning, or, where the conversation goes on, looks whether all files are as it says.
    /// The sums are those of the files of its run as they were read, first that of its code.
    ///
    /// # Errors
    /// `Memory` if memory was refused, and then no file is named. Otherwise `changed` names the first file that isn't
    /// as it was, or `unwritten` the text that can't be written.
    pub fn begin(
        &mut self,
        alloc: Global,
        talk: &Talk,
        sums: &[FileSum],
    ) -> Result<(), OperatorFailed>
        ensures ok { OnOk result (self.new ≡ record self.old { opened = true }) }
        ensures err { OnErr result (self.new
            ≡ record self.old { changed = self.new.changed; unwritten = self.new.unwritten }) }

        // Want of memory names no file, and any other failure names one.
        ensures memory { result ≡ Err ForMemory → NamesNoMore self.old.changed self.new.changed
            × NamesNoMore self.old.unwritten self.new.unwritten }
        ensures other { result ≡ Err ForOther → NamesOne self.new.changed self.new.unwritten }

        // It goes on exactly where no file has changed.
        ensures goes_on { IfSome self.old.said (λ said. MatchOption (changed_of said.now sums.now) (IsOk result)
            (λ _. IsErr result)) }
        ensures named { IfSome self.old.said (λ said. IfSome (changed_of said.now sums.now)
            (λ n. IfSome self.new.changed (λ name. IfSome (slice_get sums.now n)
            (λ file. string_bytes name ≡ string_bytes file.name)))) }
    {
        match self.said {
            Some(said) => match first_changed(said, sums) {
                Some(number) => {
                    self.changed = None;
                    self.changed = Some(name_at(alloc, sums, number)?);
                    Err(OperatorFailed::Other)
                }
                None => {
                    self.opened = true;
                    Ok(())
                }
            },
            None => {
                self.write(alloc, talk, sums)?;
                self.opened = true;
                Ok(())
            }
        }
    }

    /// Cuts off what stands behind the journal's lines. Answers it.
    ///
    /// # Errors
    /// `Memory` if memory was refused. Otherwise the journal can't be written, and `unwritten` names it.
    pub fn cut_tail(&mut self) -> Result<Option<Tail>, OperatorFailed>
        ensures cut { IfOk result (λ tail. tail ≡ self.old.tail) }
        ensures ok { OnOk result (self.new ≡ record self.old { tail = None }) }
        ensures err { OnErr result (self.new
            ≡ record self.old { tail = None; unwritten = self.new.unwritten }) }
        ensures memory { result ≡ Err ForMemory → self.new.unwritten ≡ self.old.unwritten }
        ensures other { result ≡ Err ForOther → is_some self.new.unwritten ≡ true }
    {
        let Some(tail) = self.tail.take() else {
            return Ok(None);
        };
        match tail.cut_off() {
            Ok(()) => Ok(Some(tail)),
            Err(error) => Err(why_unwritten(error, &self.journal, &mut self.unwritten)),
        }
    }

    /// Writes the text of the beginning.
    fn write(&mut self, alloc: Global, talk: &Talk, sums: &[FileSum]) -> Result<(), OperatorFailed>
        ensures ok { OnOk result (self.new ≡ self.old) }
        ensures err { OnErr result (self.new ≡ record self.old { unwritten = self.new.unwritten }) }
        ensures memory { result ≡ Err ForMemory → self.new ≡ self.old }
        ensures other { result ≡ Err ForOther → is_some self.new.unwritten ≡ true }
    {
        let text = begun_text(alloc, talk, sums)?;
        match put_new_file(self.rt, self.begun.as_str(), text.as_bytes()) {
            Ok(()) => Ok(()),
            Err(error) => Err(why_unwritten(error, &self.begun, &mut self.unwritten)),
        }
    }
}

/// Why a file wasn't written. It is named, unless memory was refused.
fn why_unwritten(error: io::Error, name: &String, unwritten: &mut Option<String>) -> OperatorFailed
    ensures memory { result ≡ ForMemory → unwritten.new ≡ unwritten.old }
    ensures other { result ≡ ForOther → is_some unwritten.new ≡ true }
{
    let why = OperatorFailed::from(error);
    if let OperatorFailed::Other = why {
        let Ok(name) = name.clone() else {
            return OperatorFailed::Memory;
        };
        *unwritten = Some(name);
    }
    why
}

/// The name of a file by its number.
fn name_at(alloc: Global, sums: &[FileSum], number: usize) -> Result<String, AllocError>
    requires { number < length sums.now }
    ensures { IfOk result (λ name. IfSome (slice_get sums.now number)
        (λ file. string_bytes name ≡ string_bytes file.name)) }
{
    String::from_str(alloc, sums[number].name.as_str())
}
