//! The operator's desk: what a person or another program sees of a run, and types for it.
#![tactic(auto)]

ghost use Rattle.std.specs.Prelude.{◌≡◌, ◌++◌, [], None, IfOk, IfSome, OnErr, OnOk, string_bytes, true};
ghost use Rattle.operating.specs.Answers.{NotesFailure, answer_bytes};
ghost use Rattle.operator_desk.specs.Again.{IsAnswerTaken, asked_again as asked_again_of};
ghost use Rattle.operator_desk.specs.Asked.{AsksTheSame, held_by_field, kind_wanted_at, newest_note};
ghost use Rattle.operator_desk.specs.Openings.{is_opened};

use crate::begun::Talk;
use crate::gets::{Gets, WaitingPlace};
use crate::held_lines::OwnLines;
use crate::judging::{asked_again, has_letter_above, note_of};
use crate::record::Record;
use crate::screens::Screens;
use crate::typing::{Typed, next_line};
use crate::typist::Answered;
use code_items::Code;
use code_pages::{CodePage, LetterFault, in_page};
use folder_files::FileSum;
use operating::{Answer, MOST_TYPED, Operator, OperatorFailed, Scene};
use screen_lines::Cursor;
use std::alloc::{AllocError, Global};
use std::cell::RefCell;
use std::fs::File;
use std::rt::Runtime;
use std::str;
use terminal_screen::{Drawing, Window, drawn, left, plain_lines, sent_lines};
use text_lines::without_return;

/// What a person at a terminal is told where they end the input.
const AT_END: &str =
    "Ctrl-C leaves everything for --continue; END typed makes each later line empty";

/// What a person is told where a line without a code page has a letter above 127.
const NO_PAGE: &str =
    "accented letters need --from cp437 or --from cp850; or type it again as it is";

/// What is told where no more lines are taken.
const TOO_LONG: &str = "all lines together are longer than 1 MiB; no more lines are taken";

/// The most bytes that are read of a line: a letter in UTF-8 has up to three for one of its page.
const MOST_READ: usize = 3 * MOST_TYPED;

/// Where the streams of a conversation lead, and how it is shown there.
#[derive(Clone, Copy)]
pub struct Manner {
    /// Whether a person types.
    pub typing: bool,
    /// Whether rows go to the terminal on which the screen is shown.
    pub one_terminal: bool,
    /// Whether rows go to a terminal, which is sent no byte that it would obey.
    pub rows: bool,
    /// The window on which the screen is drawn; none where rows are only listed.
    pub window: Option<Window>,
    pub page: Option<CodePage>,
}

/// The desk of one conversation.
#[derive(Drop)]
pub struct OperatorDesk<'a, R: Runtime<A = Global, File = File>> {
    rt: &'a R,
    pub manner: Manner,
    talk: &'a Talk,
    /// The sums of the files of its run as they were read, first that of its code.
    sums: &'a RefCell<Vec<FileSum>>,
    pub record: Record<'a, R>,
    screens: Screens,
    /// What is known of the fields of its code, and which line is wanted.
    pub gets: Gets,
    /// The lines that the journal held at the beginning and that the run hasn't come to yet.
    held: OwnLines,
    /// What is read of the input.
    reader: R::Reader,
    /// How many of the bytes that were sent out are shown.
    pub shown: usize,
    /// The rows as they were shown last.
    before: Vec<[u8; 80]>,
    /// The line below the drawing.
    pub note: &'static str,
    /// The same of a line that was cut off, until another one or the first answer; empty where none was.
    cut: String,
    /// Whether a person ended the input at this question.
    ended: bool,
    /// What is told at the end too, since no drawing follows that would show it; empty where nothing is.
    pub last_note: &'static str,
    /// Whether another program typed a letter that the page lacks, so that the conversation broke off.
    pub lacks_letter: bool,
    /// Whether a person was told that a code page is wanted.
    told_of_pages: bool,
    /// The lines that were answered, and why the desk failed last.
    pub answers: Answered,
}

impl<'a, R: Runtime<A = Global, File = File>> OperatorDesk<'a, R> {
    /// The desk of a conversation over these lines, which its journal held at the beginning. Its rows and its lines go
    /// in this manner, and its screens to their file. Nothing is shown or asked yet.
    pub fn new(
        rt: &'a R,
        manner: Manner,
        talk: &'a Talk,
        sums: &'a RefCell<Vec<FileSum>>,
        record: Record<'a, R>,
        screens: Screens,
        held: Vec<u8>,
    ) -> OperatorDesk<'a, R>
        ensures none { result.answers.lines.bytes.items ≡ [] }
        ensures unfailed { result.answers.failure ≡ None }
    {
        let alloc = rt.alloc();
        OperatorDesk {
            rt,
            manner,
            talk,
            sums,
            record,
            screens,
            gets: Gets::new(alloc),
            held: OwnLines::of(held),
            reader: rt.reader(),
            shown: 0,
            before: Vec::new(alloc),
            note: "",
            cut: String::new(alloc),
            ended: false,
            last_note: "",
            lacks_letter: false,
            told_of_pages: false,
            answers: Answered::new(alloc),
        }
    }
}

impl<R: Runtime<A = Global, File = File>> OperatorDesk<'_, R> {
    /// Shows a text on standard error.
    fn show(&self, text: &str) -> Result<(), OperatorFailed> {
        Ok(eprint!(self.rt; "{text}")?)
    }

    /// The bytes that were sent out and aren't shown yet.
    fn unshown<'s>(&self, seen: &Scene<'s>) -> &'s [u8] {
        let sent = seen.screen.sent();
        &sent[self.shown.min(sent.len())..]
    }

    /// Prints rows on standard output: as they stand, or as a terminal may be sent them.
    ///
    /// # Errors
    /// `Memory` if memory was refused; `Other` if they can't be printed.
    pub fn print_rows(&self, alloc: Global, rows: &[u8]) -> Result<(), OperatorFailed> {
        if self.manner.rows {
            let text = sent_lines(alloc, rows, self.manner.page)?;
            return Ok(self.rt.write_all(text.as_bytes())?);
        }
        Ok(self.rt.write_all(rows)?)
    }

    /// What stands below the drawing: the newest note.
    fn told(&self) -> &str
        ensures { result.now ≡ newest_note self.now.note.now (string_bytes self.now.cut) }
    {
        if self.note.is_empty() {
            self.cut.as_str()
        } else {
            self.note
        }
    }

    /// The same in the page, in which each letter is a byte and takes a column.
    fn told_in_page(&self, alloc: Global) -> Result<Vec<u8>, AllocError> {
        let told = self.told();
        let bytes = Vec::from_slice(alloc, told.as_bytes())?;
        let Some(page) = self.manner.page else {
            return Ok(bytes);
        };
        match in_page(alloc, page, told) {
            Ok(bytes) => Ok(bytes),
            Err(LetterFault::Lacks(_)) => Ok(bytes),
            Err(LetterFault::Memory) => Err(AllocError),
        }
    }

    /// The rows with the answers that were taken laid over them.
    fn rows_now(&self, alloc: Global, seen: &Scene<'_>) -> Result<Vec<[u8; 80]>, AllocError> {
        let mut rows = Vec::from_slice(alloc, seen.screen.rows())?;
        self.gets.lay_answers(&mut rows);
        Ok(rows)
    }

    /// Row and column at which the line is typed.
    fn cursor(&self, seen: &Scene<'_>) -> (usize, usize) {
        match (self.gets.waiting, seen.screen.cursor()) {
            (WaitingPlace::Field(field), _) => (field.row, field.column),
            (WaitingPlace::Behind, Cursor::At { row, column }) => (row, column),
            _ => (24, 0),
        }
    }

    /// Draws the screen in its window.
    fn draw(&self, alloc: Global, window: Window, seen: &Scene<'_>) -> Result<(), OperatorFailed> {
        let rows = self.rows_now(alloc, seen)?;
        let sent = if self.manner.one_terminal {
            self.unshown(seen)
        } else {
            &[]
        };
        let note = self.told_in_page(alloc)?;
        let drawing = Drawing {
            sent,
            rows: rows.as_slice(),
            fields: self.gets.fields.as_slice(),
            cursor: self.cursor(seen),
            window,
            page: self.manner.page,
            note: note.as_slice(),
        };
        let text = drawn(alloc, &drawing)?;
        self.show(text.as_str())
    }

    /// Clears the line below the drawing, where something is drawn, and puts the cursor there.
    fn leave(&self, alloc: Global) -> Result<(), OperatorFailed> {
        let Some(window) = self.manner.window else {
            return Ok(());
        };
        let text = left(alloc, window)?;
        self.show(text.as_str())
    }

    /// Goes below the drawing if something failed: there it is told.
    fn below<T>(&self, done: Result<T, OperatorFailed>) -> Result<T, OperatorFailed>
        ensures { result ≡ done }
    {
        if done.is_err() {
            let _ = self.leave(self.rt.alloc());
        }
        done
    }

    /// Shows the rows that left the screen, where they go to the terminal on which it is listed.
    fn list_sent(&self, alloc: Global, seen: &Scene<'_>) -> Result<(), OperatorFailed> {
        if !self.manner.one_terminal {
            return Ok(());
        }
        let text = sent_lines(alloc, self.unshown(seen), self.manner.page)?;
        self.show(text.as_str())
    }

    /// Lists the rows that left the screen and those that changed, and what waits.
    fn list(&mut self, alloc: Global, seen: &Scene<'_>) -> Result<(), OperatorFailed>
        ensures untold { self.new.answers ≡ self.old.answers }
        ensures asks { (self.new.gets ≡ self.old.gets) × (self.new.manner ≡ self.old.manner) }
    {
        self.list_sent(alloc, seen)?;
        let rows = seen.screen.rows();
        let text = plain_lines(alloc, self.before.as_slice(), rows, self.manner.page)?;
        self.show(text.as_str())?;
        self.before = Vec::from_slice(alloc, rows)?;
        if !self.told().is_empty() {
            let _ = eprintln!(self.rt; "{}", self.told());
        }
        self.prompt()
    }

    /// Says what waits.
    fn prompt(&self) -> Result<(), OperatorFailed> {
        Ok(match self.gets.waiting {
            WaitingPlace::Field(field) => eprint!(self.rt;
                "[row {}, column {}] ",
                field.row, field.column
            ),
            WaitingPlace::Behind => eprint!(self.rt; "[line] "),
            WaitingPlace::Unknown => eprint!(self.rt; "[field {}] ", self.gets.number),
        }?)
    }

    /// Shows the run as it waits: the rows that left the screen, then what is drawn or listed, and what waits last, so
    /// that who reads both finds the rows before the prompt.
    fn show_all(&mut self, alloc: Global, seen: &Scene<'_>) -> Result<(), OperatorFailed>
        ensures untold { self.new.answers ≡ self.old.answers }
        ensures asks { (self.new.gets ≡ self.old.gets) × (self.new.manner ≡ self.old.manner) }
    {
        if !self.manner.one_terminal {
            self.print_rows(alloc, self.unshown(seen))?;
        }
        match self.manner.window {
            Some(window) => self.draw(alloc, window, seen)?,
            None => self.list(alloc, seen)?,
        }
        self.shown = seen.screen.sent().len();
        Ok(())
    }

    /// What a line is, that was typed in UTF-8, in the page; none where the page lacks a letter of it.
    fn in_its_page(&self, alloc: Global, line: Vec<u8>) -> Result<Option<Vec<u8>>, AllocError> {
        let Some(page) = self.manner.page else {
            return Ok(Some(line));
        };
        let Ok(text) = str::from_utf8(line.as_slice()) else {
            return Ok(None);
        };
        match in_page(alloc, page, text) {
            Ok(bytes) => Ok(Some(bytes)),
            Err(LetterFault::Lacks(_)) => Ok(None),
            Err(LetterFault::Memory) => Err(AllocError),
        }
    }

    /// What becomes of the end of the input. A person ends it once without harm.
    fn at_end(&mut self) -> Result<Option<Answer>, OperatorFailed>
        ensures untold { self.new.answers ≡ self.old.answers }
        ensures end { IfOk result (λ found. IfSome found (IsAnswerTaken self.old.gets.wanted)) }
        ensures asks { (self.new.gets ≡ self.old.gets) × (self.new.manner ≡ self.old.manner) }
    {
        if !self.manner.typing {
            return Ok(Some(Answer::End));
        }
        if self.ended {
            return Err(OperatorFailed::Other);
        }
        self.ended = true;
        self.note = AT_END;
        Ok(None)
    }

    /// What becomes of a line with a letter that the page lacks. A person types it again. Another program can't, and
    /// its next line would come in the place of this one.
    fn without_letter(&mut self) -> Result<Option<Answer>, OperatorFailed>
        ensures untold { self.new.answers ≡ self.old.answers }
        ensures none { IfOk result (λ found. found ≡ None) }
        ensures asks { (self.new.gets ≡ self.old.gets) × (self.new.manner ≡ self.old.manner) }
    {
        if !self.manner.typing {
            self.lacks_letter = true;
            return Err(OperatorFailed::Other);
        }
        self.note = "the code page lacks a letter of this line; type it again";
        Ok(None)
    }

    /// What a person is told who types this line again; none where it is taken. Another program's lines all are.
    fn refused(&mut self, line: &[u8]) -> Option<&'static str>
        ensures untold { self.new.answers ≡ self.old.answers }
        ensures asks { (self.new.gets ≡ self.old.gets) × (self.new.manner ≡ self.old.manner) }
        ensures taken { self.old.manner.typing ≡ true → result ≡ None
            → asked_again_of self.old.gets.wanted line.now ≡ None }
    {
        if !self.manner.typing {
            return None;
        }
        match asked_again(self.gets.wanted, line) {
            Some(why) => Some(why.note()),
            None => self.without_page(line),
        }
    }

    /// What a person is told, once, of a letter above 127 where no code page says what it is.
    fn without_page(&mut self, line: &[u8]) -> Option<&'static str>
        ensures untold { self.new.answers ≡ self.old.answers }
        ensures asks { (self.new.gets ≡ self.old.gets) × (self.new.manner ≡ self.old.manner) }
    {
        if self.manner.page.is_some() || self.told_of_pages || !has_letter_above(line) {
            return None;
        }
        self.told_of_pages = true;
        Some(NO_PAGE)
    }

    /// What becomes of a line that was typed, in the page; none where another one is to be typed.
    fn of_bytes(&mut self, bytes: Vec<u8>, room: usize) -> Option<Answer>
        ensures untold { self.new.answers ≡ self.old.answers }
        ensures asks { (self.new.gets ≡ self.old.gets) × (self.new.manner ≡ self.old.manner) }
        ensures taken { self.old.manner.typing ≡ true → IfSome result (IsAnswerTaken self.old.gets.wanted) }
    {
        if bytes.len() >= room {
            return Some(self.refuse_line());
        }
        match self.refused(without_return(bytes.as_slice())) {
            Some(why) => {
                self.note = why;
                None
            }
            None => Some(Answer::Line(bytes)),
        }
    }

    /// What becomes of a line that was typed; none where another one is to be typed.
    fn of_line(
        &mut self,
        alloc: Global,
        line: Vec<u8>,
        room: usize,
    ) -> Result<Option<Answer>, OperatorFailed>
        ensures untold { self.new.answers ≡ self.old.answers }
        ensures asks { (self.new.gets ≡ self.old.gets) × (self.new.manner ≡ self.old.manner) }
        ensures taken { self.old.manner.typing ≡ true → IfOk result (λ found. IfSome found
            (IsAnswerTaken self.old.gets.wanted)) }
    {
        if self.ended && without_return(line.as_slice()).eq_ignore_ascii_case(b"END") {
            return Ok(Some(Answer::End));
        }
        match self.in_its_page(alloc, line)? {
            Some(bytes) => Ok(self.of_bytes(bytes, room)),
            None => self.without_letter(),
        }
    }

    /// One reading of a line; none where another one is to be read.
    fn read(&mut self, alloc: Global, room: usize) -> Result<Option<Answer>, OperatorFailed>
        ensures untold { self.new.answers ≡ self.old.answers }
        ensures asks { (self.new.gets ≡ self.old.gets) × (self.new.manner ≡ self.old.manner) }
        ensures taken { self.old.manner.typing ≡ true → IfOk result (λ found. IfSome found
            (IsAnswerTaken self.old.gets.wanted)) }
    {
        match next_line(alloc, &mut self.reader, MOST_READ)? {
            Typed::Line(line) => self.of_line(alloc, line, room),
            Typed::Long => Ok(Some(self.refuse_line())),
            Typed::End => self.at_end(),
        }
    }

    /// Shows the run as it waits and reads lines until one is an answer.
    fn wait_for_answer(
        &mut self,
        alloc: Global,
        seen: &Scene<'_>,
        room: usize,
    ) -> Result<Answer, OperatorFailed>
        ensures untold { self.new.answers ≡ self.old.answers }
        ensures asks { (self.new.gets ≡ self.old.gets) × (self.new.manner ≡ self.old.manner) }
        ensures taken { self.old.manner.typing ≡ true → IfOk result (IsAnswerTaken self.old.gets.wanted) }
    {
        for _ in 0..u32::MAX {
            self.show_all(alloc, seen)?;
            if let Some(answer) = self.read(alloc, room)? {
                return Ok(answer);
            }
        }
        Err(OperatorFailed::Other)
    }

    /// Says that a line is too long: the input ends. What is drawn is wiped at the end, so it is told behind it.
    fn refuse_line(&mut self) -> Answer
        ensures untold { self.new.answers ≡ self.old.answers }
        ensures end { IsAnswerTaken self.old.gets.wanted result }
        ensures asks { (self.new.gets ≡ self.old.gets) × (self.new.manner ≡ self.old.manner) }
    {
        match self.manner.window {
            Some(_) => self.last_note = TOO_LONG,
            None => {
                let _ = eprintln!(self.rt; "{TOO_LONG}");
            }
        }
        Answer::End
    }

    /// Notes the answer, so that it lies over the drawing until the program writes there.
    fn note_answer(
        &mut self,
        alloc: Global,
        answer: &Answer,
        seen: &Scene<'_>,
    ) -> Result<(), OperatorFailed>
        ensures untold { self.new.answers ≡ self.old.answers }
        ensures asks { AsksTheSame self.old.gets self.new.gets }
        ensures manner { self.new.manner ≡ self.old.manner }
    {
        self.ended = false;
        self.cut = String::new(alloc);
        let line = match answer {
            Answer::Line(line) => without_return(line.as_slice()),
            Answer::End => &[],
        };
        self.note = note_of(self.gets.wanted.kind, line);
        self.take(alloc, line, seen)
    }

    /// Lays a line that is taken now over its field, and writes the screen before it.
    fn take(&mut self, alloc: Global, line: &[u8], seen: &Scene<'_>) -> Result<(), OperatorFailed>
        ensures untold { self.new.answers ≡ self.old.answers }
        ensures asks { AsksTheSame self.old.gets self.new.gets }
        ensures manner { self.new.manner ≡ self.old.manner }
    {
        self.gets.take(alloc, line, seen)?;
        self.write_screen(alloc, seen.screen.rows(), Some(line))
    }

    /// Writes a screen to the file for screens, where there is one.
    fn write_screen(
        &mut self,
        alloc: Global,
        rows: &[[u8; 80]],
        line: Option<&[u8]>,
    ) -> Result<(), OperatorFailed>
        ensures untold { self.new.answers ≡ self.old.answers }
        ensures asks { (self.new.gets ≡ self.old.gets) × (self.new.manner ≡ self.old.manner) }
        ensures opened { is_opened self.new.record ≡ is_opened self.old.record }
    {
        let written = self.screens.write(alloc, rows, line);
        self.note_screens(written)
    }

    /// Names the file for screens as one that can't be written, if that is why this failed.
    fn note_screens(&mut self, done: Result<(), OperatorFailed>) -> Result<(), OperatorFailed>
        ensures untold { self.new.answers ≡ self.old.answers }
        ensures asks { (self.new.gets ≡ self.old.gets) × (self.new.manner ≡ self.old.manner) }
        ensures opened { is_opened self.new.record ≡ is_opened self.old.record }
    {
        let (Err(OperatorFailed::Other), Some(name)) = (&done, self.screens.name()) else {
            return done;
        };
        self.record.unwritten = Some(String::from_str(self.rt.alloc(), name)?);
        done
    }

    /// Makes the file for screens, where there is to be one.
    fn make_screens(&mut self) -> Result<(), OperatorFailed>
        ensures untold { self.new.answers ≡ self.old.answers }
        ensures opened { is_opened self.new.record ≡ is_opened self.old.record }
    {
        let made = self.screens.make(self.rt);
        self.note_screens(made)
    }

    /// Says beside the journal how the conversation begins, or looks whether it may go on.
    fn open(&mut self, alloc: Global) -> Result<(), OperatorFailed>
        ensures untold { self.new.answers ≡ self.old.answers }
        ensures opened { OnOk result (is_opened self.new.record ≡ true) }
    {
        match self.sums.try_borrow() {
            Ok(sums) => self.record.begin(alloc, self.talk, sums.as_slice()),
            Err(_) => Err(OperatorFailed::Other),
        }
    }

    /// Cuts off what stands behind the journal's lines, and shows it.
    fn cut_tail(&mut self, alloc: Global) -> Result<(), OperatorFailed>
        ensures untold { self.new.answers ≡ self.old.answers }
        ensures opened { is_opened self.new.record ≡ is_opened self.old.record }
    {
        let Some(tail) = self.record.cut_tail()? else {
            return Ok(());
        };
        let text = sent_lines(alloc, tail.bytes.as_slice(), self.manner.page)?;
        let text = text.as_str().trim_end();
        self.cut = format!(in alloc; "cut off, since Enter was missing; type it again: {text}")?;
        Ok(())
    }

    /// What becomes of the next line that the journal held, where the run has come to the place that takes it.
    fn pass_held(&mut self, seen: &Scene<'_>) -> Result<(), OperatorFailed>
        ensures untold { self.new.answers ≡ self.old.answers }
    {
        let alloc = self.rt.alloc();
        let Some(line) = self.held.next(alloc)? else {
            return Ok(());
        };
        let line = without_return(line.as_slice());
        self.gets.wait(alloc, seen)?;
        if self.cut.is_empty() {
            self.note = note_of(self.gets.wanted.kind, line);
        }
        self.take(alloc, line, seen)
    }

    /// What becomes of the first line that the journal held, where the code takes one before any step: no place is
    /// looked at before it.
    fn pass_first(&mut self, alloc: Global) -> Result<(), OperatorFailed>
        ensures untold { self.new.answers ≡ self.old.answers }
        ensures opened { is_opened self.new.record ≡ is_opened self.old.record }
    {
        if !self.gets.takes_line(0) {
            return Ok(());
        }
        match self.held.next(alloc)? {
            Some(line) => {
                let line = without_return(line.as_slice());
                self.write_screen(alloc, &[[b' '; 80]; 25], Some(line))
            }
            None => Ok(()),
        }
    }

    /// Begins the run: what stands beside the journal, the file for screens, and the places that are marked.
    fn begin_run(&mut self, code: &Code) -> Result<Vec<bool>, OperatorFailed>
        ensures untold { self.new.answers ≡ self.old.answers }
        ensures opened { OnOk result (is_opened self.new.record ≡ true) }
    {
        let alloc = self.rt.alloc();
        self.open(alloc)?;
        self.cut_tail(alloc)?;
        self.make_screens()?;
        let marks = self.gets.begin(alloc, code)?;
        self.pass_first(alloc)?;
        Ok(marks)
    }

    /// Looks at a marked place.
    fn look(&mut self, seen: &Scene<'_>) -> Result<(), OperatorFailed>
        ensures untold { self.new.answers ≡ self.old.answers }
    {
        self.gets.look(self.rt.alloc(), seen)?;
        if self.gets.takes_line(seen.place) {
            return self.pass_held(seen);
        }
        Ok(())
    }

    /// Asks for a line, and adds it to those that were answered.
    fn answer(&mut self, seen: &Scene<'_>, room: usize) -> Result<Answer, OperatorFailed>
        ensures answer { IfOk result (λ answer. self.new.answers.lines.bytes.items
            ≡ self.old.answers.lines.bytes.items ++ answer_bytes answer) }
        ensures failed { OnErr result (self.new.answers.lines.bytes.items ≡ self.old.answers.lines.bytes.items) }
        ensures unnoted { self.new.answers.failure ≡ self.old.answers.failure }
        ensures taken { self.old.manner.typing ≡ true → IfOk result (IsAnswerTaken self.new.gets.wanted) }
        ensures kind { OnOk result (self.new.gets.wanted.kind ≡ kind_wanted_at self.old.gets seen.now.place) }
        ensures field { OnOk result (IfSome seen.now.field (λ size. self.new.gets.wanted.holds
            ≡ held_by_field (kind_wanted_at self.old.gets seen.now.place) size)) }
    {
        let alloc = self.rt.alloc();
        self.gets.wait(alloc, seen)?;
        let answer = self.wait_for_answer(alloc, seen, room)?;
        self.note_answer(alloc, &answer, seen)?;
        match answer {
            Answer::Line(line) => self.answers.answer(alloc, line.as_slice()),
            Answer::End => Ok(Answer::End),
        }
    }
}

impl<R: Runtime<A = Global, File = File>> Operator for OperatorDesk<'_, R> {
    ghost answered = { λ desk. desk.answers.lines.bytes.items };

    ghost failure = { λ desk. desk.answers.failure };

    fn begin(&mut self, code: &Code) -> Result<Vec<bool>, OperatorFailed>
        ensures untold { self.new.answers.lines.bytes.items ≡ self.old.answers.lines.bytes.items }
        ensures cause { NotesFailure result self.old.answers.failure self.new.answers.failure }

        // The run begins only where the text of its beginning was written, or no file was found changed.
        ensures opened { OnOk result (is_opened self.new.record ≡ true) }
    {
        let begun = self.begin_run(code);
        self.answers.note(begun)
    }

    /// What is drawn or listed stays until the run waits.
    fn hear(&mut self, _steps: u64, budget: u64) -> u64 {
        budget
    }

    fn see(&mut self, seen: &Scene<'_>) -> Result<(), OperatorFailed> {
        let looked = self.look(seen);
        self.answers.note(looked)
    }

    fn ask(&mut self, seen: &Scene<'_>, room: usize) -> Result<Answer, OperatorFailed>
        ensures answer { IfOk result (λ answer. self.new.answers.lines.bytes.items
            ≡ self.old.answers.lines.bytes.items ++ answer_bytes answer) }
        ensures failed { OnErr result (self.new.answers.lines.bytes.items ≡ self.old.answers.lines.bytes.items) }
        ensures cause { NotesFailure result self.old.answers.failure self.new.answers.failure }

        // A line that a person types holds no control character, and what it is for takes it whole. What isn't so is
        // asked for again, and isn't among the lines that were answered.
        ensures taken { self.old.manner.typing ≡ true → IfOk result (IsAnswerTaken self.new.gets.wanted) }
        ensures kind { OnOk result (self.new.gets.wanted.kind ≡ kind_wanted_at self.old.gets seen.now.place) }
        ensures field { OnOk result (IfSome seen.now.field (λ size. self.new.gets.wanted.holds
            ≡ held_by_field (kind_wanted_at self.old.gets seen.now.place) size)) }
    {
        let answer = self.answer(seen, room);
        let answer = self.below(answer);
        self.answers.note(answer)
    }

    fn miss(&mut self, seen: &Scene<'_>) -> Result<(), OperatorFailed> {
        let written = self.write_screen(self.rt.alloc(), seen.screen.rows(), Some(&[]));
        let written = self.below(written);
        self.answers.note(written)
    }

    fn end(&mut self, seen: &Scene<'_>) -> Result<(), OperatorFailed> {
        let alloc = self.rt.alloc();
        // what is saved doesn't hang on this line
        let _ = self.leave(alloc);
        let written = self.write_screen(alloc, seen.screen.rows(), None);
        self.answers.note(written)
    }
}
