//! `operate`: a run in conversation, from its words to its end.

ghost use Rattle.std.specs.Prelude.{◌≡◌, false};

use crate::escaped::tell;
use crate::rehearsing::{report_rehearsal, seen_folder};
use crate::repeating::is_repeated;
use crate::screens::{is_backup, is_free_name, is_new_name, is_path_of};
use crate::shown::{Audience, Progress, RecordedName, of_end};
use crate::{
    finish_before, first_failed, folder, has_no_tables, hindered, may_back_up, page_for, refuse,
    tell_hindered, tell_lock_file, tell_unfinished, tell_unsaved,
};
use code_pages::CodePage;
use command_words::{
    DEFAULT_BUDGET, OperateWords, Outcomes, RepeatedWords, ShownWords, TalkAsked, TalkWords,
    WordsFault,
};
use file_access::{FILE_LIMIT, Files, ReadFault};
use file_commands::{Refusal, Status};
use folder_files::{
    FileSum, Folder, Held, Hindrance, JournalFault, Listener, SaveTerms, SavingFolder, Tail,
    UnfinishedSave, Unsaved, hindered_plan, let_go, note_stands, paper_name, put_new_file, stands,
    sum_of, take_folder,
};
use journal_papers::{JournalPaper, PaperFault, first_changed};
use journal_steps::{Next, Remains, next_of};
use operating::{Broken, MOST_TYPED, OperatorFailed};
use operator_desk::{
    KeptJournal, Manner, OperatorDesk, Record, Screens, Talk, TalkSave, local_day, talk_in,
};
use run_commands::{
    Ended, Job, OperateRefusal, OperationReport, Rehearsal, RunDay, RunRefusal, operate_files,
    rehearse_talk,
};
use std::alloc::{AllocError, Global};
use std::cell::RefCell;
use std::fs::{self, File};
use std::io::ErrorKind;
use std::rt::Runtime;
use std::str;
use terminal_screen::Window;

/// The most bytes of a file's name.
const MOST_OF_NAME: usize = 255;

/// The most lines of a window that are drawn: the 25 rows and the note.
const MOST_LINES: usize = 26;

/// What to do where a file was changed since the conversation was begun.
const CHANGED: &str =
    "nothing is saved; put the file back and use --continue, or give the journal to run with its options";

/// What to do where a failure stopped a conversation that was begun.
const STOPPED: &str =
    "no table was changed, and the journal has each line that was taken; --continue goes on";

/// What to do where a failure came before it was begun.
const UNBEGUN: &str = "nothing was typed, and no table was changed; use the same words again";

/// What to do where no journal can be made.
const UNMADE: &str =
    "nothing was run; see that a file can be made here, or give --no-lock where there are no locks";

/// What to do where a line that another program typed has a letter that the page lacks.
const NO_LETTER: &str =
    "the code page lacks a letter of a line; no table was changed, and --continue goes on before it";

/// What to do where another program has the journal.
const HELD: &str =
    "another program has this conversation open; wait for its end, or name another file";

/// What to do where the text of a beginning is none.
const FOREIGN: &str =
    "no conversation wrote this text; run takes its journal's lines, once no program has it open";

/// What to do where a file stands that no conversation made.
const NO_TALK: &str = "this file isn't a conversation's; name another one";

/// The names of a conversation's files.
#[derive(Drop)]
struct Names {
    journal: String,
    begun: String,
    done: String,
}

/// The name of the text of the beginning of a conversation with this journal.
pub fn begun_name(alloc: Global, journal: &str) -> Result<String, AllocError> {
    format!(in alloc; "{journal}.begun")
}

/// The name of the text of its end.
pub fn done_name(alloc: Global, journal: &str) -> Result<String, AllocError> {
    format!(in alloc; "{journal}.done")
}

/// Whether a text can be made under a name. Its draft has the longest name of all that are made for a conversation: the
/// name of a save's file and a point before its own.
fn has_room(name: &str) -> bool {
    name.len() < MOST_OF_NAME.saturating_sub(paper_name().len())
}

/// Whether the texts of a conversation can be made under their names, and none is the code's file.
fn may_be_made(names: &Names, code: &str) -> bool {
    names.begun.as_str() != code && names.done.as_str() != code && has_room(names.begun.as_str())
}

/// The names of a conversation's files, if they harm nothing and none is too long.
fn names_of(alloc: Global, words: &OperateWords<'_>) -> Result<Option<Names>, AllocError> {
    let journal = words.journal;
    if !is_free_name(journal, words.code) {
        return Ok(None);
    }
    let names = Names {
        journal: String::from_str(alloc, journal)?,
        begun: begun_name(alloc, journal)?,
        done: done_name(alloc, journal)?,
    };
    if may_be_made(&names, words.code) {
        Ok(Some(names))
    } else {
        Ok(None)
    }
}

/// Whether a file for screens harms nothing.
fn may_write_screens<R: Runtime<A = Global, File = File>>(
    rt: &R,
    words: &OperateWords<'_>,
    names: &Names,
) -> bool {
    match words.shown.screens {
        Some(screens) => {
            is_new_name(rt, screens, words.code)
                && screens != names.journal.as_str()
                && screens != names.begun.as_str()
                && screens != names.done.as_str()
        }
        None => true,
    }
}

/// On which terms the tables of a conversation are saved; none where what would be saved is told.
fn save_of(alloc: Global, tables: Outcomes<'_>) -> Result<Option<TalkSave>, AllocError> {
    let Outcomes::Saved(save) = tables else {
        return Ok(None);
    };
    Ok(Some(TalkSave {
        only_finished: save.only_finished,
        backup: match save.backup {
            Some(path) => Some(String::from_str(alloc, path)?),
            None => None,
        },
        new_owner: save.new_owner,
        no_lock: save.no_lock,
        keep_unchanged: save.keep_unchanged,
    }))
}

/// The day of a conversation: the computer's where the words don't say one.
fn day_of<R: Runtime<A = Global, File = File>>(rt: &R, words: &TalkWords<'_>) -> Option<RunDay> {
    match words.day {
        Some(day) => Some(day),
        None => local_day(rt),
    }
}

/// What a conversation is asked for. A person's run has the greatest budget where the words don't say one.
fn talk_of(
    alloc: Global,
    audience: Audience,
    words: &TalkWords<'_>,
    day: RunDay,
    page: Option<CodePage>,
) -> Result<Talk, AllocError> {
    let budget = if audience.typing {
        u64::MAX
    } else {
        DEFAULT_BUDGET
    };
    Ok(Talk {
        budget: words.budget.unwrap_or(budget),
        limit: words.limit,
        day,
        save: save_of(alloc, words.tables)?,
        page,
    })
}

/// The window in which a conversation is drawn; none where its rows are only listed.
fn window_of(audience: Audience, shown: &ShownWords<'_>) -> Option<Window> {
    let words = shown.window?;
    let window = Window {
        rows: words.rows,
        columns: words.columns,
    };
    if window.fits() && audience.person && !shown.plain {
        Some(window)
    } else {
        None
    }
}

/// Tells a person what to do, in one sentence without its point.
fn advise(rt: &impl Runtime, audience: Audience, sentence: &str) {
    if audience.person {
        let _ = eprintln!(rt; "  {sentence}.");
    }
}

/// Tells on standard error that a file isn't taken, and why.
fn tell_file(rt: &impl Runtime, audience: Audience, name: &str, why: &str) -> Status {
    tell(rt, audience, &format_args!("refused {name} {why}"));
    Status::Refused
}

/// Tells that a file isn't as it was when the conversation was begun.
fn tell_changed(rt: &impl Runtime, audience: Audience, name: &str) -> Status {
    let status = tell_file(rt, audience, name, "Changed");
    advise(rt, audience, CHANGED);
    status
}

/// What to do where a failure stopped a conversation.
fn of_stop<R: Runtime<A = Global, File = File>>(rt: &R, names: &Names) -> &'static str {
    if stands(rt, names.begun.as_str()) {
        STOPPED
    } else {
        UNBEGUN
    }
}

/// Tells that the device failed at a file, or at the terminal, and how the conversation can go on.
fn tell_stopped<R: Runtime<A = Global, File = File>>(
    rt: &R,
    audience: Audience,
    names: &Names,
    name: &str,
) -> Status {
    let status = refuse(rt, audience, Refusal::Disk { name });
    advise(rt, audience, of_stop(rt, names));
    status
}

/// Tells that memory was refused, and how the conversation can go on.
fn tell_no_memory<R: Runtime<A = Global, File = File>>(
    rt: &R,
    audience: Audience,
    names: &Names,
) -> Status {
    let status = refuse(rt, audience, Refusal::Memory);
    advise(rt, audience, of_stop(rt, names));
    status
}

/// Tells why a journal isn't made or taken up.
fn tell_journal<R: Runtime<A = Global, File = File>>(
    rt: &R,
    audience: Audience,
    open: &Open<'_>,
    fault: JournalFault,
) -> Status {
    let name = open.names.journal.as_str();
    let (status, sentence) = match fault {
        JournalFault::Exists => (tell_file(rt, audience, name, "Exists"), NO_TALK),
        JournalFault::Held => (tell_file(rt, audience, name, "Held"), HELD),
        JournalFault::Absent => (tell_file(rt, audience, name, "Absent"), NO_TALK),
        JournalFault::TooLong => (tell_file(rt, audience, name, "TooLong"), NO_TALK),
        JournalFault::Disk if open.said.is_none() => (
            refuse(rt, audience, Refusal::Disk { name }),
            UNMADE,
        ),
        JournalFault::Disk => return tell_stopped(rt, audience, open.names, name),
        JournalFault::Memory => return tell_no_memory(rt, audience, open.names),
    };
    advise(rt, audience, sentence);
    status
}

/// What stands of a conversation in the folder, no file of whose run was read. An empty journal alone counts as none.
fn found_of<R: Runtime<A = Global, File = File>>(rt: &R, names: &Names) -> Remains {
    Remains {
        journal: stands(rt, names.journal.as_str()) && !is_left_empty(rt, names),
        begun: stands(rt, names.begun.as_str()),
        noted: note_stands(rt),
        done: stands(rt, names.done.as_str()),
        same: true,
    }
}

/// What to do where a conversation neither begins nor goes on.
fn of_next(next: Next, found: Remains) -> &'static str {
    match next {
        Next::Changed => CHANGED,
        Next::Ended => "this conversation is at its end; name another file to begin one",
        Next::Missing if found.begun => "its journal is gone; name another file to begin one",
        Next::Missing if found.journal => NO_TALK,
        Next::Missing => "no conversation was begun with this file; without --continue one begins",
        _ if found.begun => "--continue takes it up again; else name another file",
        _ => NO_TALK,
    }
}

/// Why a conversation neither begins nor goes on.
fn tell_next(
    rt: &impl Runtime,
    audience: Audience,
    names: &Names,
    found: Remains,
    next: Next,
) -> Status {
    let status = match next {
        Next::Ended => tell_file(rt, audience, names.journal.as_str(), "Finished"),
        Next::Missing => tell_file(rt, audience, names.journal.as_str(), "Absent"),
        Next::Changed => tell_file(rt, audience, names.journal.as_str(), "Changed"),
        _ => tell_file(rt, audience, names.journal.as_str(), "Exists"),
    };
    advise(rt, audience, of_next(next, found));
    status
}

/// The text of a beginning or of an end that bytes spell.
fn paper_in(alloc: Global, bytes: &[u8]) -> Result<JournalPaper, PaperFault> {
    match str::from_utf8(bytes) {
        Ok(text) => JournalPaper::read(alloc, text),
        Err(_) => Err(PaperFault::Foreign),
    }
}

/// Tells that the text of a beginning isn't one that a conversation wrote.
fn tell_foreign(rt: &impl Runtime, audience: Audience, names: &Names) -> Status {
    let status = tell_file(rt, audience, names.begun.as_str(), "Foreign");
    advise(rt, audience, FOREIGN);
    status
}

/// The text of a beginning that stands.
fn read_begun<R: Runtime<A = Global, File = File>>(
    rt: &R,
    audience: Audience,
    names: &Names,
) -> Result<JournalPaper, Status> {
    let name = names.begun.as_str();
    let mut folder = folder(rt, audience);
    let paper = match folder.read(rt.alloc(), name, FILE_LIMIT) {
        Ok(bytes) => paper_in(rt.alloc(), bytes.as_slice()),
        Err(ReadFault::TooLong) => Err(PaperFault::Foreign),
        Err(ReadFault::Memory) => Err(PaperFault::Memory),
        Err(_) => return Err(tell_stopped(rt, audience, names, name)),
    };
    match paper {
        Ok(paper) => Ok(paper),
        Err(PaperFault::Foreign) => Err(tell_foreign(rt, audience, names)),
        Err(PaperFault::Memory) => Err(tell_no_memory(rt, audience, names)),
    }
}

/// Puts how a run ended into the text of an end.
fn put_end(alloc: Global, paper: &mut JournalPaper, ended: &Ended) -> Result<(), AllocError> {
    let end = format!(in alloc; "{ended}")?;
    paper.put(alloc, "--end", end.as_str())
}

/// Puts what the journal of this name holds into the text of an end.
fn put_journal(
    alloc: Global,
    paper: &mut JournalPaper,
    name: &str,
    bytes: &[u8],
) -> Result<(), AllocError> {
    let length = format!(in alloc; "{}", bytes.len())?;
    paper.put(alloc, "--length", length.as_str())?;
    let sum = FileSum {
        name: String::from_str(alloc, name)?,
        sum: Some(sum_of(bytes)),
    };
    paper.put_sum(alloc, &sum)
}

/// Puts what was saved into the text of an end.
fn put_saved(alloc: Global, paper: &mut JournalPaper, saved: &[FileSum]) -> Result<(), AllocError> {
    for sum in saved {
        paper.put_sum(alloc, sum)?;
    }
    Ok(())
}

/// The text of an end: how the run ended, what the journal holds, and what was saved.
fn done_text(
    alloc: Global,
    names: &Names,
    journal: &KeptJournal,
    ended: &Ended,
    saved: &[FileSum],
) -> Result<String, AllocError> {
    let mut paper = JournalPaper::new(alloc);
    put_end(alloc, &mut paper, ended)?;
    put_journal(
        alloc,
        &mut paper,
        names.journal.as_str(),
        journal.bytes.as_slice(),
    )?;
    put_saved(alloc, &mut paper, saved)?;
    match paper.text(alloc) {
        Ok(text) => Ok(text),
        Err(_) => Err(AllocError),
    }
}

/// A conversation that is open: what it is asked for, its files, and what stands of it.
#[derive(Drop)]
struct Open<'a> {
    code: &'a str,
    names: &'a Names,
    talk: &'a Talk,
    /// The window in which it is drawn.
    window: Option<Window>,
    /// The file for screens.
    screens: Option<&'a str>,
    /// The text of its beginning, where it goes on.
    said: Option<&'a JournalPaper>,
    /// The sums of the files of its run as they are read.
    sums: &'a RefCell<Vec<FileSum>>,
}

/// Beside what a conversation is recorded.
fn record_of<'a, R: Runtime<A = Global, File = File>>(
    rt: &'a R,
    open: &Open<'a>,
    tail: Option<Tail>,
) -> Result<Record<'a, R>, AllocError> {
    let (journal, begun) = (open.names.journal.clone()?, open.names.begun.clone()?);
    Ok(Record::new(rt, journal, tail, begun, open.said))
}

/// The name of the file for screens.
fn screens_of(alloc: Global, open: &Open<'_>) -> Result<Option<String>, AllocError> {
    match open.screens {
        Some(name) => Ok(Some(String::from_str(alloc, name)?)),
        None => Ok(None),
    }
}

/// The desk of a conversation, over the bytes that its journal holds at the beginning.
fn desk_of<'a, R: Runtime<A = Global, File = File>>(
    rt: &'a R,
    audience: Audience,
    open: &Open<'a>,
    held: &[u8],
    tail: Option<Tail>,
) -> Result<OperatorDesk<'a, R>, AllocError> {
    let alloc = rt.alloc();
    let record = record_of(rt, open, tail)?;
    let screens = screens_of(alloc, open)?;
    let held = Vec::from_slice(alloc, held)?;
    let manner = Manner {
        typing: audience.typing,
        one_terminal: audience.person && audience.rows,
        rows: audience.rows,
        window: open.window,
        page: open.talk.page,
    };
    Ok(OperatorDesk::new(
        rt,
        manner,
        open.talk,
        open.sums,
        record,
        Screens::to(screens),
        held,
    ))
}

/// Takes away what is drawn in a window, line by line, so that no terminal keeps it in its scrollback, and puts the
/// cursor in the first one.
fn wipe(rt: &impl Runtime, window: Window) {
    let _ = eprint!(rt; "\x1b[0m\x1b[H");
    for _ in 0..window.rows.min(MOST_LINES) {
        let _ = eprint!(rt; "\x1b[K\x1b[B");
    }
    let _ = eprint!(rt; "\x1b[H");
}

/// Goes below a drawing, which stays.
fn leave_drawing(rt: &impl Runtime) {
    let _ = eprint!(rt; "\x1b[0m\x1b[25;1H\r\n");
}

/// Prints the rows that aren't printed yet. What was drawn gives way to them.
fn print_rest<R: Runtime<A = Global, File = File>>(
    rt: &R,
    audience: Audience,
    desk: &OperatorDesk<'_, R>,
    rows: &[u8],
) -> Result<(), OperatorFailed> {
    if let Some(window) = desk.manner.window {
        if desk.manner.one_terminal {
            wipe(rt, window);
        } else {
            leave_drawing(rt);
        }
    }
    let rest = &rows[desk.shown.min(rows.len())..];
    desk.print_rows(rt.alloc(), rest)?;
    if audience.person && !desk.note.is_empty() {
        let _ = eprintln!(rt; "{}", desk.note);
    }
    if !desk.last_note.is_empty() {
        let _ = eprintln!(rt; "{}", desk.last_note);
    }
    Ok(())
}

/// What refuses the last rows.
fn unprinted(why: OperatorFailed) -> Refusal<'static> {
    match why {
        OperatorFailed::Memory => Refusal::Memory,
        OperatorFailed::Other => Refusal::Disk { name: "-" },
    }
}

/// Tells that the last rows weren't printed, and how the conversation can go on.
fn tell_unprinted<R: Runtime<A = Global, File = File>>(
    rt: &R,
    audience: Audience,
    names: &Names,
    why: OperatorFailed,
) -> Status {
    let status = refuse(rt, audience, unprinted(why));
    advise(rt, audience, of_stop(rt, names));
    status
}

/// Tells why the operator's desk failed: a file isn't as it was, or can't be written, or a line has a letter that the
/// page lacks, or the terminal failed.
fn tell_desk<R: Runtime<A = Global, File = File>>(
    rt: &R,
    audience: Audience,
    open: &Open<'_>,
    desk: &OperatorDesk<'_, R>,
) -> Status {
    match (&desk.record.changed, &desk.record.unwritten) {
        (Some(name), _) => tell_changed(rt, audience, name.as_str()),
        (None, Some(name)) => tell_stopped(rt, audience, open.names, name.as_str()),
        (None, None) if desk.lacks_letter => {
            let status = tell_file(rt, audience, "-", "Letter");
            advise(rt, audience, NO_LETTER);
            status
        }
        (None, None) => tell_stopped(rt, audience, open.names, "-"),
    }
}

/// The first of these files that isn't as the text of a beginning says.
fn changed_among(alloc: Global, said: &JournalPaper, sums: &[FileSum]) -> Option<String> {
    let file = sums.get(first_changed(said, sums)?)?;
    String::from_str(alloc, file.name.as_str()).ok()
}

/// The first of the files that were read that isn't as it was when the conversation was begun; none where it begins
/// now.
fn changed_in(alloc: Global, open: &Open<'_>) -> Option<String> {
    let said = open.said?;
    match open.sums.try_borrow() {
        Ok(sums) => changed_among(alloc, said, sums.as_slice()),
        Err(_) => None,
    }
}

/// Takes the journal away of a conversation that didn't begin, if it was made for it: nothing was typed.
fn leave_no_journal<R: Runtime<A = Global, File = File>>(
    rt: &R,
    names: &Names,
    journal: &KeptJournal,
) {
    if is_left_empty(rt, names) {
        journal.file.take_away(rt, names.journal.as_str());
    }
}

/// Tells why a run wasn't carried out. A file that was changed since the conversation was begun is told first.
fn tell_no_run<R: Runtime<A = Global, File = File>>(
    rt: &R,
    audience: Audience,
    open: &Open<'_>,
    refusal: &RunRefusal,
    hindrance: Option<Hindrance>,
) -> Status {
    match changed_in(rt.alloc(), open) {
        Some(name) => tell_changed(rt, audience, name.as_str()),
        None => {
            let status = tell_hindered(rt, audience, open.code, refusal, hindrance);
            let failed = matches!(status, Status::Disk | Status::Memory);
            if open.said.is_some() || (failed && hindrance.is_none()) {
                advise(rt, audience, of_stop(rt, open.names));
            }
            status
        }
    }
}

/// Tells why a conversation came to no end. No file was changed, and the journal stays.
fn tell_broken<R: Runtime<A = Global, File = File>>(
    rt: &R,
    audience: Audience,
    open: &Open<'_>,
    desk: &OperatorDesk<'_, R>,
    hindrance: Option<Hindrance>,
    refusal: &OperateRefusal,
) -> Status {
    if let (OperateRefusal::Broke(Broken::Journal | Broken::Memory), Some(_)) = (
        refusal,
        desk.manner.window,
    ) {
        leave_drawing(rt);
    }
    match refusal {
        OperateRefusal::Run(refusal) => { tell_no_run(rt, audience, open, refusal, hindrance) }
        OperateRefusal::Handed => tell_journal(rt, audience, open, JournalFault::TooLong),
        OperateRefusal::Broke(Broken::Journal) => {
            tell_stopped(rt, audience, open.names, open.names.journal.as_str())
        }
        OperateRefusal::Broke(Broken::Memory) => tell_no_memory(rt, audience, open.names),
        OperateRefusal::Broke(Broken::Operator | Broken::Line) => {
            tell_desk(rt, audience, open, desk)
        }
    }
}

/// Writes the text of an end beside the journal of a conversation that saved nothing.
fn write_done<R: Runtime<A = Global, File = File>>(
    rt: &R,
    audience: Audience,
    open: &Open<'_>,
    journal: &KeptJournal,
    ended: &Ended,
) -> Option<Status> {
    let name = open.names.done.as_str();
    let Ok(text) = done_text(rt.alloc(), open.names, journal, ended, &[]) else {
        return Some(tell_no_memory(rt, audience, open.names));
    };
    match put_new_file(rt, name, text.as_bytes()) {
        Ok(()) => None,
        Err(error) if error.kind() == ErrorKind::OutOfMemory => {
            Some(tell_no_memory(rt, audience, open.names))
        }
        Err(_) => Some(tell_stopped(rt, audience, open.names, name)),
    }
}

/// Hands in the text of an end, so that it takes its place together with the tables.
fn hand_in_done<R: Runtime<A = Global, File = File>, L: Listener>(
    rt: &R,
    audience: Audience,
    open: &Open<'_>,
    journal: &KeptJournal,
    saving: &mut SavingFolder<'_, R, L>,
    ended: &Ended,
) -> Option<Status> {
    let text = match saving.new_sums() {
        Ok(sums) => done_text(rt.alloc(), open.names, journal, ended, sums.as_slice()),
        Err(error) => Err(error),
    };
    let handed_in = match text {
        Ok(text) => saving
            .replace(open.names.done.as_str(), text.into_bytes())
            .is_ok(),
        Err(_) => false,
    };
    if handed_in {
        None
    } else {
        Some(tell_no_memory(rt, audience, open.names))
    }
}

/// Tells how a run ended, whether it saved its tables or nothing. A person is told what to do then.
fn tell_end(rt: &impl Runtime, audience: Audience, ended: &Ended, saved: bool) -> Status {
    let _ = eprintln!(rt; "{ended}");
    if let Some(hint) = of_end(&ended.how, saved) {
        advise(rt, audience, hint);
    }
    ended.status()
}

/// Writes the text of an end, and tells how a run ended that saved nothing.
fn tell_unsaved_end<R: Runtime<A = Global, File = File>>(
    rt: &R,
    audience: Audience,
    open: &Open<'_>,
    journal: &KeptJournal,
    ended: &Ended,
) -> Status {
    match write_done(rt, audience, open, journal, ended) {
        None => tell_end(rt, audience, ended, false),
        Some(status) => status,
    }
}

/// Ends a conversation whose run saved nothing.
fn end_unsaved<R: Runtime<A = Global, File = File>>(
    rt: &R,
    audience: Audience,
    open: &Open<'_>,
    journal: &KeptJournal,
    desk: &OperatorDesk<'_, R>,
    rows: &[u8],
    ended: &Ended,
) -> Status {
    if let Err(why) = print_rest(rt, audience, desk, rows) {
        return tell_unprinted(rt, audience, open.names, why);
    }
    tell_unsaved_end(rt, audience, open, journal, ended)
}

/// Ends a conversation that was rehearsed: what a run would have saved is told before how it ended.
fn end_rehearsed<R: Runtime<A = Global, File = File>>(
    rt: &R,
    audience: Audience,
    open: &Open<'_>,
    journal: &KeptJournal,
    desk: &OperatorDesk<'_, R>,
    told: &Rehearsal,
) -> Status {
    if let Err(why) = print_rest(rt, audience, desk, told.rows.as_slice()) {
        return tell_unprinted(rt, audience, open.names, why);
    }
    report_rehearsal(rt, audience, open.code, told);
    tell_unsaved_end(rt, audience, open, journal, &told.ended)
}

/// Tells a person where what was typed stands when the save itself is refused, and by which words it goes on. Behind
/// the note of a save there is nothing to do.
fn advise_unsaved(rt: &impl Runtime, audience: Audience, open: &Open<'_>, unsaved: Unsaved) {
    if !audience.person {
        return;
    }
    let (journal, begun) = (open.names.journal.as_str(), open.names.begun.as_str());
    match unsaved {
        Unsaved::Changed { .. } => tell(
            rt,
            audience,
            &format_args!(
                "  what was typed stands in {journal}; put the file back and use --continue, \
             or give it to run with the options in {begun}."
            ),
        ),
        Unsaved::Disk { .. } | Unsaved::Backup | Unsaved::Memory => tell(
            rt,
            audience,
            &format_args!("  what was typed stands in {journal}; --continue goes on."),
        ),
        Unsaved::Cut { .. } => {}
    }
}

/// Ends a conversation whose run is saved: tables, indexes and the text of the end all together or not at all.
fn end_saved<'a, R: Runtime<A = Global, File = File>>(
    rt: &'a R,
    audience: Audience,
    open: &Open<'_>,
    journal: &KeptJournal,
    desk: &OperatorDesk<'_, R>,
    saving: &mut SavingFolder<'_, R, Progress<'a, R>>,
    rows: &[u8],
    ended: &Ended,
) -> Status {
    if let Some(status) = hand_in_done(rt, audience, open, journal, saving, ended) {
        return status;
    }
    let committed = saving.commit();
    let printed = match print_rest(rt, audience, desk, rows) {
        Ok(()) => Status::Done,
        Err(why) => refuse(rt, audience, unprinted(why)),
    };
    if let Err(unsaved) = committed {
        let status = tell_unsaved(rt, audience, saving, unsaved, backup_of(open.talk));
        advise_unsaved(rt, audience, open, unsaved);
        return first_failed(printed, status);
    }
    first_failed(printed, tell_end(rt, audience, ended, true))
}

/// Ends a conversation whose run came to its end.
fn conclude<'a, R: Runtime<A = Global, File = File>>(
    rt: &'a R,
    audience: Audience,
    open: &Open<'_>,
    journal: &KeptJournal,
    desk: &OperatorDesk<'_, R>,
    saving: &mut SavingFolder<'_, R, Progress<'a, R>>,
    told: &OperationReport,
) -> Status {
    let rows = told.rows.as_slice();
    let ended = match &told.result {
        Ok(ended) => ended,
        Err(refusal) => {
            return tell_broken(rt, audience, open, desk, saving.hindrance(), refusal);
        }
    };
    match &open.talk.save {
        Some(save) if ended.is_saved(save.only_finished) => {
            end_saved(rt, audience, open, journal, desk, saving, rows, ended)
        }
        _ => end_unsaved(rt, audience, open, journal, desk, rows, ended),
    }
}

/// The run of a conversation, over the lines that its journal holds at the beginning.
fn job_of<'a>(code: &'a str, talk: &Talk, input: &'a [u8]) -> Job<'a>
    ensures untested { result.checked ≡ false }
    ensures input { result.input.now ≡ input.now }
{
    Job {
        name: code,
        checked: false,
        budget: talk.budget,
        limit: talk.limit,
        day: talk.day,
        input,
    }
}

/// The folder to which all that a conversation replaces is copied first.
fn backup_of(talk: &Talk) -> Option<&str> {
    match &talk.save {
        Some(save) => match &save.backup {
            Some(path) => Some(path.as_str()),
            None => None,
        },
        None => None,
    }
}

/// On which terms a conversation replaces files.
fn terms_of<'t>(save: &'t TalkSave, closed: Option<Hindrance>) -> SaveTerms<'t> {
    SaveTerms {
        closed,
        takes_over: save.new_owner,
        backup: save.backup.as_ref().map(|path| path.as_str()),
        keep_unchanged: save.keep_unchanged,
    }
}

/// Carries out a conversation whose journal is open.
fn converse<'a, R: Runtime<A = Global, File = File>>(
    rt: &'a R,
    audience: Audience,
    open: &Open<'a>,
    journal: &mut KeptJournal,
    tail: Option<Tail>,
    closed: Option<Hindrance>,
) -> Status {
    let Ok(mut desk) = desk_of(rt, audience, open, journal.bytes.as_slice(), tail) else {
        return tell_no_memory(rt, audience, open.names);
    };
    match journal.bytes.clone() {
        Ok(input) => talk_at_desk(
            rt,
            audience,
            open,
            journal,
            &mut desk,
            input.as_slice(),
            closed,
        ),
        Err(_) => tell_no_memory(rt, audience, open.names),
    }
}

/// Carries out a conversation at its desk, over what its journal holds at the beginning.
fn talk_at_desk<'a, R: Runtime<A = Global, File = File>>(
    rt: &'a R,
    audience: Audience,
    open: &Open<'a>,
    journal: &mut KeptJournal,
    desk: &mut OperatorDesk<'a, R>,
    input: &[u8],
    closed: Option<Hindrance>,
) -> Status
    requires { input.now ≡ journal.old.bytes.items }
{
    let job = job_of(open.code, open.talk, input);
    let Some(save) = &open.talk.save else {
        return rehearse_at_desk(rt, audience, open, journal, desk, &job);
    };
    let noting = Progress {
        rt,
        audience,
        sums: Some(open.sums),
    };
    let mut saving = SavingFolder::new(Folder::new(rt, noting), terms_of(save, closed));
    let told = operate_files(rt.alloc(), &mut saving, &job, MOST_TYPED, journal, desk);
    conclude(rt, audience, open, journal, desk, &mut saving, &told)
}

/// Rehearses a conversation at its desk, over files of one moment.
fn rehearse_at_desk<'a, R: Runtime<A = Global, File = File>>(
    rt: &'a R,
    audience: Audience,
    open: &Open<'a>,
    journal: &mut KeptJournal,
    desk: &mut OperatorDesk<'a, R>,
    job: &Job<'_>,
) -> Status
    requires untested { job.now.checked ≡ false }
    requires input { job.now.input.now ≡ journal.old.bytes.items }
{
    let mut seen = match seen_folder(rt, audience, open.code, Some(open.sums)) {
        Ok(seen) => seen,
        Err(status) => return status,
    };
    match rehearse_talk(rt.alloc(), &mut seen, job, MOST_TYPED, journal, desk) {
        Ok(told) => end_rehearsed(rt, audience, open, journal, desk, &told),
        Err(refusal) => tell_broken(rt, audience, open, desk, seen.hindrance(), &refusal),
    }
}

/// How a conversation ended, as these bytes of the text of its end say.
fn end_in(alloc: Global, bytes: &[u8]) -> Option<String> {
    let paper = paper_in(alloc, bytes).ok()?;
    String::from_str(alloc, paper.get("--end")?).ok()
}

/// How a conversation ended, as the text of its end says.
fn end_of<R: Runtime<A = Global, File = File>>(
    rt: &R,
    audience: Audience,
    names: &Names,
) -> Option<String> {
    let mut folder = folder(rt, audience);
    match folder.read(rt.alloc(), names.done.as_str(), FILE_LIMIT) {
        Ok(bytes) => end_in(rt.alloc(), bytes.as_slice()),
        Err(_) => None,
    }
}

/// Finishes the save that a note tells of, where the folder is held. Where it is the conversation's, its end is told.
fn finish_noted<R: Runtime<A = Global, File = File>>(
    rt: &R,
    audience: Audience,
    names: &Names,
    closed: Option<Hindrance>,
) -> Status {
    if closed.is_some() {
        return tell_unfinished(rt, audience, &UnfinishedSave::PaperDisk);
    }
    let stood = stands(rt, names.done.as_str());
    let status = finish_before(rt, audience).unwrap_or(Status::Disk);
    if !stood {
        if let Some(end) = end_of(rt, audience, names) {
            tell(
                rt,
                audience,
                &format_args!(
                    "{} {}",
                    names.journal,
                    RecordedName {
                        name: end.as_str(),
                        audience
                    }
                ),
            );
        }
    }
    status
}

/// The folder for a conversation. One that saves needs it for itself; one that is rehearsed needs it only to finish a
/// committed save that it finds.
fn folder_for<R: Runtime<A = Global, File = File>>(
    rt: &R,
    saves: bool,
    no_lock: bool,
) -> Option<Held> {
    if saves || note_stands(rt) {
        Some(take_folder(rt, no_lock))
    } else {
        None
    }
}

/// Lets the folder of a conversation go, if it was taken.
fn leave_folder<R: Runtime<A = Global, File = File>>(rt: &R, held: Option<Held>) {
    if let Some(held) = held {
        let_go(rt, held);
    }
}

/// Why the folder isn't held that a conversation asked for, if it isn't.
fn hindered_by(held: &Option<Held>) -> Option<Hindrance> {
    match held {
        Some(held) => hindered(held),
        None => None,
    }
}

/// Why nothing that a conversation leaves can be saved, if that is so; a status where it neither begins nor goes on.
fn may_talk<R: Runtime<A = Global, File = File>>(
    rt: &R,
    audience: Audience,
    open: &Open<'_>,
    held: &Option<Held>,
) -> Result<Option<Hindrance>, Status> {
    if let Some(Held::LockFile) = held {
        return Err(tell_lock_file(rt, audience));
    }
    let closed = hindered_by(held);
    let found = found_of(rt, open.names);
    match next_of(found, open.said.is_some()) {
        Next::Begin | Next::GoOn => {}
        Next::Finish => return Err(finish_noted(rt, audience, open.names, closed)),
        next => return Err(tell_next(rt, audience, open.names, found, next)),
    }
    if open.talk.save.is_none() {
        return Ok(None);
    }
    let closed = match closed {
        // a save that hadn't come to its note is taken away
        None => match finish_before(rt, audience) {
            Some(status) => return Err(status),
            None => hindered_plan(rt),
        },
        closed => closed,
    };
    if closed.is_some() && has_no_tables(rt, open.code) {
        // the text of its end is saved, and no table is read that would tell of it
        return Err(tell_hindered(rt, audience, paper_name(), &RunRefusal::Disk, closed));
    }
    Ok(closed)
}

/// Opens the journal of a conversation, and carries it out.
fn talk_over_journal<'a, R: Runtime<A = Global, File = File>>(
    rt: &'a R,
    audience: Audience,
    open: &Open<'a>,
    closed: Option<Hindrance>,
) -> Status {
    let name = open.names.journal.as_str();
    match KeptJournal::open(rt, name, open.said.is_some(), open.talk.no_lock()) {
        Ok((mut journal, tail)) => {
            let status = converse(rt, audience, open, &mut journal, tail, closed);
            leave_no_journal(rt, open.names, &journal);
            status
        }
        Err(fault) => tell_journal(rt, audience, open, fault),
    }
}

/// Begins a conversation or takes one up again, of which the words are known.
fn operate_talk<'a, R: Runtime<A = Global, File = File>>(
    rt: &'a R,
    audience: Audience,
    open: &Open<'a>,
    held: &Option<Held>,
) -> Status {
    match may_talk(rt, audience, open, held) {
        Ok(closed) => talk_over_journal(rt, audience, open, closed),
        Err(status) => status,
    }
}

/// Whether of a conversation only an empty journal stands.
fn is_left_empty<R: Runtime<A = Global, File = File>>(rt: &R, names: &Names) -> bool {
    let empty = match fs::symlink_metadata(rt, names.journal.as_str()) {
        Ok(data) => data.is_file() && data.len() == 0,
        Err(_) => false,
    };
    empty && !stands(rt, names.begun.as_str()) && !stands(rt, names.done.as_str())
}

/// Whether a conversation was begun where the file system knows no locks, by the text of its beginning.
fn began_unlocked<R: Runtime<A = Global, File = File>>(
    rt: &R,
    audience: Audience,
    names: &Names,
) -> bool {
    let mut folder = folder(rt, audience);
    let Ok(bytes) = folder.read(rt.alloc(), names.begun.as_str(), FILE_LIMIT) else {
        return false;
    };
    let Ok(paper) = paper_in(rt.alloc(), bytes.as_slice()) else {
        return false;
    };
    match talk_in(rt.alloc(), &paper) {
        Some(talk) => talk.no_lock(),
        None => false,
    }
}

/// Finishes the save that a note tells of, for a conversation that is to go on.
fn finish_begun<R: Runtime<A = Global, File = File>>(
    rt: &R,
    audience: Audience,
    names: &Names,
) -> Status {
    let held = take_folder(rt, began_unlocked(rt, audience, names));
    let status = match &held {
        Held::LockFile => tell_lock_file(rt, audience),
        held => finish_noted(rt, audience, names, hindered(held)),
    };
    let_go(rt, held);
    status
}

/// The text of the beginning of a conversation that is to go on, or what is told where it doesn't.
fn said_of<R: Runtime<A = Global, File = File>>(
    rt: &R,
    audience: Audience,
    names: &Names,
) -> Result<JournalPaper, Status> {
    let found = found_of(rt, names);
    match next_of(found, true) {
        Next::GoOn => read_begun(rt, audience, names),
        Next::Finish => Err(finish_begun(rt, audience, names)),
        next => Err(tell_next(rt, audience, names, found, next)),
    }
}

/// Takes up a conversation as it was begun; options that are given again must be those with which it was begun.
fn go_on<'a, R: Runtime<A = Global, File = File>>(
    rt: &'a R,
    audience: Audience,
    words: &'a OperateWords<'a>,
    repeated: &RepeatedWords<'_>,
    names: &'a Names,
) -> Result<Status, WordsFault> {
    let said = match said_of(rt, audience, names) {
        Ok(said) => said,
        Err(status) => return Ok(status),
    };
    let Some(talk) = talk_in(rt.alloc(), &said) else {
        return Ok(tell_foreign(rt, audience, names));
    };
    if let Err(status) = is_repeated(rt, audience, &said, names.begun.as_str(), repeated) {
        return Ok(status);
    }
    if is_backup(words.shown.screens, backup_of(&talk)) {
        return Err(WordsFault::Screens);
    }
    Ok(begin(rt, audience, words, names, &talk, Some(&said)))
}

/// Begins a conversation, or takes one up again of which the text of its beginning is given.
fn begin<'a, R: Runtime<A = Global, File = File>>(
    rt: &'a R,
    audience: Audience,
    words: &'a OperateWords<'a>,
    names: &'a Names,
    talk: &'a Talk,
    said: Option<&'a JournalPaper>,
) -> Status {
    let sums = RefCell::new(Vec::new(rt.alloc()));
    let open = Open {
        code: words.code,
        names,
        talk,
        window: window_of(audience, &words.shown),
        screens: words.shown.screens,
        said,
        sums: &sums,
    };
    let held = folder_for(rt, talk.save.is_some(), talk.no_lock());
    let status = operate_talk(rt, audience, &open, &held);
    leave_folder(rt, held);
    status
}

/// Whether the folder for copies has the name of a file of the conversation.
fn is_copied_over(words: &TalkWords<'_>, names: &Names, screens: Option<&str>) -> bool {
    let Outcomes::Saved(save) = words.tables else {
        return false;
    };
    match save.backup {
        Some(path) => {
            is_path_of(path, names.journal.as_str())
                || is_path_of(path, names.begun.as_str())
                || is_path_of(path, names.done.as_str())
                || is_backup(screens, save.backup)
        }
        None => false,
    }
}

/// Begins a conversation that is asked for so.
fn begin_asked<R: Runtime<A = Global, File = File>>(
    rt: &R,
    audience: Audience,
    words: &OperateWords<'_>,
    asked: &TalkWords<'_>,
    names: &Names,
) -> Result<Status, WordsFault> {
    may_back_up(rt, asked.tables, words.code)?;
    if is_copied_over(asked, names, words.shown.screens) {
        return Err(WordsFault::Backup);
    }
    let Some(day) = day_of(rt, asked) else {
        return Err(WordsFault::Zone);
    };
    let page = page_for(rt, asked.page)?;
    match talk_of(rt.alloc(), audience, asked, day, page) {
        Ok(talk) => Ok(begin(rt, audience, words, names, &talk, None)),
        Err(_) => Ok(refuse(rt, audience, Refusal::Memory)),
    }
}

/// Runs a code in conversation, whose files have these names.
fn operate_named<R: Runtime<A = Global, File = File>>(
    rt: &R,
    audience: Audience,
    words: &OperateWords<'_>,
    names: &Names,
) -> Result<Status, WordsFault> {
    if !may_write_screens(rt, words, names) {
        return Err(WordsFault::Screens);
    }
    match &words.talk {
        TalkAsked::Begins(asked) => begin_asked(rt, audience, words, asked, names),
        TalkAsked::GoesOn(repeated) => go_on(rt, audience, words, repeated, names),
    }
}

/// Runs a code in conversation.
pub fn operate<R: Runtime<A = Global, File = File>>(
    rt: &R,
    audience: Audience,
    words: &OperateWords<'_>,
) -> Result<Status, WordsFault> {
    match names_of(rt.alloc(), words) {
        Ok(Some(names)) => operate_named(rt, audience, words, &names),
        Ok(None) => Err(WordsFault::Journal),
        Err(_) => Ok(refuse(rt, audience, Refusal::Memory)),
    }
}
