//! Who types lines that are all there, so that the screens before them can be kept.
#![tactic(auto)]

ghost use Rattle.operating.specs.Answers.{NotesFailure, answer_bytes};
ghost use Rattle.operating.specs.declared.operator.OperatorFailed.TheVariants.{Memory as ForMemory};
ghost use Rattle.operator_desk.specs.Again.{IsTypedLine};
ghost use Rattle.operator_desk.specs.Held.{left_of};
ghost use Rattle.operator_desk.specs.Typists.{lines_taken, lines_to_type, watcher_of};
ghost use Rattle.std.specs.Prelude.{◌≡◌, ◌++◌, [], None, IfErr, IfOk, OnErr};

use crate::held_lines::HeldLines;
use crate::screens::Screens;
use code_items::Code;
use line_journal::{Journal, JournalFailed, keep};
use operating::{Answer, Operator, OperatorFailed, Scene};
use run_commands::Watcher;
use std::alloc::{Alloc, AllocError, Global};
use std::fs::File;
use std::rt::Runtime;
use text_lines::without_return;

/// The lines that a run took, in memory alone, and how often memory for one was refused, as far as 2^64 - 1.
#[derive(Drop)]
pub struct TakenLines {
    pub bytes: Vec<u8>,
    pub failures: u64,
}

impl Journal for TakenLines {
    ghost holds = { λ lines. lines.bytes.items };

    ghost failed = { λ lines. lines.failures };

    fn append(&mut self, bytes: &[u8]) -> Result<(), JournalFailed> {
        if self.bytes.extend_from_slice(bytes).is_err() {
            self.failures = self.failures.saturating_add(1);
            return Err(JournalFailed);
        }
        Ok(())
    }
}

impl TakenLines {
    /// None.
    pub fn new(alloc: Global) -> TakenLines
        ensures { result.bytes.items ≡ [] }
    {
        TakenLines {
            bytes: Vec::new(alloc),
            failures: 0,
        }
    }
}

/// The lines that an operator answered, and why he failed last.
#[derive(Drop)]
pub struct Answered {
    pub lines: TakenLines,
    pub failure: Option<OperatorFailed>,
}

impl Answered {
    /// Nothing yet.
    pub fn new(alloc: Global) -> Answered
        ensures none { result.lines.bytes.items ≡ [] }
        ensures unfailed { result.failure ≡ None }
    {
        Answered {
            lines: TakenLines::new(alloc),
            failure: None,
        }
    }

    /// Adds a line with LF after it, and answers it.
    ///
    /// # Errors
    /// Memory was refused, and nothing is added.
    pub fn answer(&mut self, alloc: Global, line: &[u8]) -> Result<Answer, OperatorFailed>
        ensures line { IfOk result (IsTypedLine line.now) }
        ensures answer { IfOk result (λ answer. self.new.lines.bytes.items
            ≡ self.old.lines.bytes.items ++ answer_bytes answer) }
        ensures failed { OnErr result (self.new.lines.bytes.items ≡ self.old.lines.bytes.items) }
        ensures unnoted { self.new.failure ≡ self.old.failure }
        ensures cause { IfErr result (λ why. why ≡ ForMemory) }
    {
        let answered = Vec::from_slice(alloc, line)?;
        let kept = Vec::from_slice(alloc, line)?;
        match keep(&mut self.lines, kept) {
            Ok(_) => Ok(Answer::Line(answered)),
            Err(_) => Err(OperatorFailed::Memory),
        }
    }

    /// Notes why, if something failed.
    pub fn note<T>(&mut self, done: Result<T, OperatorFailed>) -> Result<T, OperatorFailed>
        ensures same { result ≡ done }
        ensures lines { self.new.lines ≡ self.old.lines }
        ensures noted { NotesFailure done self.old.failure self.new.failure }
    {
        if let Err(why) = &done {
            self.failure = Some(*why);
        }
        done
    }
}

/// Types the lines of a text, one after another, and then ends the input. The watcher is told how far the run has come.
#[derive(Drop)]
pub struct Typist<'a, R, W: Drop> {
    rt: &'a R,
    left: HeldLines<'a>,
    /// Whether the text ends with a return, which belongs to its last line then.
    ends_with_return: bool,
    taken: Answered,
    screens: Screens,
    watcher: W,
}

impl<'a, R: Alloc<A = Global>, W: Drop> Typist<'a, R, W> {
    /// One that types the lines of this text. The last one needs no line end.
    pub fn of(rt: &'a R, text: &'a [u8], screens: Screens, watcher: W) -> Typist<'a, R, W>
        ensures lines { left_of (lines_to_type result) ≡ text.now }
        ensures none { lines_taken result ≡ [] }
        ensures watcher { watcher_of result ≡ watcher }
    {
        Typist {
            rt,
            left: HeldLines::of(text),
            ends_with_return: text.ends_with(b"\r"),
            taken: Answered::new(rt.alloc()),
            screens,
            watcher,
        }
    }

    /// Who is told how far the run has come.
    pub fn watcher(&self) -> &W
        ensures { result.now ≡ watcher_of self.now }
    {
        &self.watcher
    }
}

impl<R, W: Drop> Typist<'_, R, W> {
    /// The next line, as it is typed before LF. A return just before LF is no part of a line. So behind a return that
    /// ends the text, and belongs to its last line, another one is typed.
    fn next_line(&mut self, alloc: Global) -> Result<Option<Vec<u8>>, AllocError>
        ensures { self.new.taken ≡ self.old.taken }
    {
        let Some(line) = self.left.next() else {
            return Ok(None);
        };
        let mut line = Vec::from_slice(alloc, line)?;
        if self.ends_with_return && self.left.is_empty() {
            line.push(b'\r')?;
        }
        Ok(Some(line))
    }
}

impl<R: Runtime<A = Global, File = File>, W: Drop> Typist<'_, R, W> {
    /// Writes the screen before a line that is taken now, or at the end.
    fn write_screen(&mut self, seen: &Scene<'_>, line: Option<&[u8]>) -> Result<(), OperatorFailed>
        ensures { self.new.taken ≡ self.old.taken }
    {
        let alloc = self.rt.alloc();
        self.screens.write(alloc, seen.screen.rows(), line)
    }

    /// Types the next line, or ends the input.
    fn type_line(&mut self, seen: &Scene<'_>) -> Result<Answer, OperatorFailed>
        ensures answer { IfOk result (λ answer. lines_taken self.new ≡ lines_taken self.old ++ answer_bytes answer) }
        ensures failed { OnErr result (lines_taken self.new ≡ lines_taken self.old) }
        ensures unnoted { self.new.taken.failure ≡ self.old.taken.failure }
    {
        let alloc = self.rt.alloc();
        let Some(line) = self.next_line(alloc)? else {
            self.write_screen(seen, Some(&[]))?;
            return Ok(Answer::End);
        };
        let shown = without_return(line.as_slice());
        self.write_screen(seen, Some(shown))?;
        self.taken.answer(alloc, line.as_slice())
    }
}

impl<R: Runtime<A = Global, File = File>, W: Watcher + Drop> Operator for Typist<'_, R, W> {
    ghost answered = { λ typist. typist.taken.lines.bytes.items };

    ghost failure = { λ typist. typist.taken.failure };

    fn begin(&mut self, _: &Code) -> Result<Vec<bool>, OperatorFailed> {
        let made = self.screens.make(self.rt);
        self.taken.note(made)?;
        Ok(Vec::new(self.rt.alloc()))
    }

    fn hear(&mut self, steps: u64, budget: u64) -> u64 {
        if self.watcher.is_watching() {
            self.watcher.hear(steps, budget)
        } else {
            budget
        }
    }

    fn see(&mut self, _: &Scene<'_>) -> Result<(), OperatorFailed> {
        Ok(())
    }

    fn miss(&mut self, seen: &Scene<'_>) -> Result<(), OperatorFailed> {
        let written = self.write_screen(seen, Some(&[]));
        self.taken.note(written)
    }

    fn ask(&mut self, seen: &Scene<'_>, _: usize) -> Result<Answer, OperatorFailed> {
        let answer = self.type_line(seen);
        self.taken.note(answer)
    }

    fn end(&mut self, seen: &Scene<'_>) -> Result<(), OperatorFailed> {
        let written = self.write_screen(seen, None);
        self.taken.note(written)
    }
}
