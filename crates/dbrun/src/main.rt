//! `dbrun`: compiles command files and lists their faults, verifies, runs and lists code files, lists tables and
//! indexes, and declares those of a folder.
//!
//! What a command does with files stands in functions over the trait `Files`; here the words of the command line are
//! carried out, and what they give is printed.
#![tactic(auto)]

mod areas;
mod escaped;
mod faults;
mod forgetting;
mod operate;
mod progress;
mod rehearsing;
mod repeating;
mod screens;
mod shown;

use crate::areas::tell_areas;
use crate::escaped::Escaped;
use crate::escaped::escaped_name;
use crate::escaped::has_obeyed;
use crate::escaped::tell;
use crate::faults::faults;
use crate::forgetting::forget_save;
use crate::operate::begun_name;
use crate::operate::done_name;
use crate::operate::operate;
use crate::rehearsing::declared_files;
use crate::rehearsing::rehearse;
use crate::rehearsing::run_tested;
use crate::screens::may_show;
use crate::screens::run_shown;
use crate::shown::Audience;
use crate::shown::FaultyLine;
use crate::shown::OutTold;
use crate::shown::PrintableLine;
use crate::shown::Progress;
use crate::shown::RecordedName;
use crate::shown::UnwrittenTold;
use crate::shown::absent_file;
use crate::shown::faulty_line;
use crate::shown::hint_of;
use crate::shown::letters_alone;
use crate::shown::line_at;
use crate::shown::of_end;
use crate::shown::of_file;
use crate::shown::printable;
use crate::shown::why_hindered;
use clap::ArgMatches;
use clap::Command;
use clap::error::ErrorKind;
use code_pages::CodePage;
use code_pages::in_utf8;
use command_words::Listing;
use command_words::Outcomes;
use command_words::RunWords;
use command_words::SaveWords;
use command_words::Words;
use command_words::WordsFault;
use command_words::command;
use command_words::page_named;
use command_words::sources_of;
use command_words::words_of;
use compile_commands::CompileFilesRefusal;
use compile_commands::CompileTold;
use compile_commands::CompileWords;
use compile_commands::compile_files;
use file_access::FILE_LIMIT;
use file_access::Files;
use file_access::ReadFault;
use file_access::read_in_turns;
use file_access::read_within;
use file_commands::Refusal;
use file_commands::Status;
use file_commands::list_code;
use file_commands::list_index;
use file_commands::list_table;
use file_commands::of_refusal;
use file_commands::read_code;
use file_commands::verify_file;
use folder_files::FinishedSave;
use folder_files::Folder;
use folder_files::Held;
use folder_files::Hindrance;
use folder_files::LOCK_FILE;
use folder_files::Nobody;
use folder_files::SaveTerms;
use folder_files::SavingFolder;
use folder_files::UnfinishedSave;
use folder_files::Unreplaced;
use folder_files::Unsaved;
use folder_files::behind_links;
use folder_files::finish;
use folder_files::hindered_plan;
use folder_files::is_same_file;
use folder_files::let_go;
use folder_files::may_take_copies;
use folder_files::name_in_folder;
use folder_files::note_stands;
use folder_files::paper_name;
use folder_files::save_stands;
use folder_files::stands;
use folder_files::take_folder;
use folder_shapes::FolderDeclared;
use folder_shapes::LineTold;
use folder_shapes::declare;
use run_commands::Ended;
use run_commands::Job;
use run_commands::Report;
use run_commands::RunRefusal;
use save_rules::Overwritten;
use save_rules::overwritten_by;
use shape_files::ShapeRefusal;
use std::alloc::AllocError;
use std::alloc::Global;
use std::env;
use std::env::VarError;
use std::fs::File;
use std::io;
use std::io::IsTerminal;
use std::process::ExitCode;
use std::rt::Runtime;
use std::str;
use table_csv::list_csv;

/// The most bytes that an operator may type for a run: 1 MiB.
const INPUT_LIMIT: usize = 1_048_576;

/// The most reads of what an operator types: two for each byte.
const INPUT_TURNS: usize = 2_097_152;

/// The variable of the environment that stands for --from.
const PAGE_VARIABLE: &str = "DBRUN_PAGE";

/// The most bytes of all names of a folder: 64 MiB.
const NAMES_LIMIT: usize = 67_108_864;

/// Tells on standard error why a command isn't carried out.
pub fn refuse(rt: &impl Runtime, audience: Audience, refusal: Refusal<'_>) -> Status {
    tell(rt, audience, &refusal);
    of_refusal(&refusal)
}

/// The folder in which the program runs; a person is told of long files.
pub fn folder<'a, R: Runtime<A = Global, File = File>>(
    rt: &'a R,
    audience: Audience,
) -> Folder<'a, R, Progress<'a, R>> {
    let sums = None;
    Folder::new(rt, Progress { rt, audience, sums })
}

/// All that the operator typed, or how the program exits where that can't be had.
fn typed<R: Runtime<A = Global, File = File>>(
    rt: &R,
    audience: Audience,
) -> Result<Vec<u8>, Status> {
    let mut reader = rt.reader();
    match read_in_turns(rt.alloc(), &mut reader, INPUT_LIMIT, INPUT_TURNS) {
        Ok(bytes) => Ok(bytes),
        Err(ReadFault::TooLong) => {
            let _ = eprintln!(rt; "refused - TooLong");
            Err(Status::Refused)
        }
        Err(ReadFault::Memory) => Err(no_memory(rt)),
        Err(_) => Err(refuse(rt, audience, Refusal::Disk { name: "-" })),
    }
}

/// How the program exits where files aren't compiled.
fn of_compiling(refusal: &CompileFilesRefusal) -> Status {
    match refusal {
        CompileFilesRefusal::Declarations(ShapeRefusal::Refused(_)) => Status::Refused,
        CompileFilesRefusal::Declarations(ShapeRefusal::Disk) => Status::Disk,
        CompileFilesRefusal::Declarations(ShapeRefusal::TableDisk(_)) => Status::Disk,
        CompileFilesRefusal::Declarations(ShapeRefusal::Memory) => Status::Memory,
        CompileFilesRefusal::Source { .. } => Status::Refused,
        CompileFilesRefusal::SourceDisk { .. } => Status::Disk,
        CompileFilesRefusal::CodeDisk => Status::Disk,
        CompileFilesRefusal::Memory => Status::Memory,
    }
}

/// Shows a faulty line on standard error, and below it what to do about it.
fn show_line<R: Runtime<A = Global, File = File>, F: Files>(
    rt: &R,
    files: &mut F,
    refusal: &CompileFilesRefusal,
    words: CompileWords<'_>,
    line: PrintableLine<'_>,
) {
    let _ = eprintln!(rt; "  {line}");
    if tell_areas(rt, rt.alloc(), files, refusal, words, line.bytes()) {
        return;
    }
    if let Some(hint) = hint_of(rt.alloc(), files, refusal, line) {
        let _ = eprintln!(rt; "  {hint}.");
    }
}

/// Shows a faulty line and what to do about it, where its file can still be read.
fn show_faulty<R: Runtime<A = Global, File = File>>(
    rt: &R,
    place: FaultyLine<'_>,
    refusal: &CompileFilesRefusal,
    words: CompileWords<'_>,
) {
    let mut folder = Folder::new(rt, Nobody);
    if let Ok(bytes) = folder.read(rt.alloc(), place.file, FILE_LIMIT) {
        if let Some(line) = line_at(bytes.as_slice(), place.line) {
            show_line(rt, &mut folder, refusal, words, line);
        }
    }
}

/// Whether a conversation has been recorded beside a file of this name: the text of its beginning or of its end stands.
pub fn is_recorded<R: Runtime<A = Global, File = File>>(
    rt: &R,
    name: &str,
) -> Result<bool, AllocError> {
    let begun = begun_name(rt.alloc(), name)?;
    let done = done_name(rt.alloc(), name)?;
    Ok(stands(rt, begun.as_str()) || stands(rt, done.as_str()))
}

/// What a code file would overwrite by its name, and by the name that it leads to.
fn overwritten_names<R: Runtime<A = Global, File = File>>(
    rt: &R,
    decl: &str,
    out: &str,
    names: &[&str],
) -> Result<Option<Overwritten>, AllocError> {
    let recorded = is_recorded(rt, out)?;
    if let Some(what) = overwritten_by(out, decl, names, paper_name(), recorded) {
        return Ok(Some(what));
    }
    let Some(last) = behind_links(rt, out) else {
        return Ok(None);
    };
    let recorded = is_recorded(rt, last.as_str())?;
    let name = name_in_folder(last.as_str());
    Ok(overwritten_by(name, "", &[], paper_name(), recorded))
}

/// What a file is that stands under the name of a table or an index in the folder too, if it does.
fn kept_as<R: Runtime<A = Global, File = File>>(rt: &R, out: &str) -> Option<Overwritten> {
    if !stands(rt, out) {
        return None;
    }
    let bytes = folder_names(rt).ok()?;
    for bytes in bytes.split(|byte| *byte == 0) {
        let name = str::from_utf8(bytes).unwrap_or("");
        let what = overwritten_by(name, "", &[], paper_name(), false);
        if let Some(Overwritten::Table | Overwritten::Index) = what
            && is_same_file(rt, out, name)
        {
            return what;
        }
    }
    None
}

/// What a code file would overwrite by the files themselves.
fn overwritten_files<R: Runtime<A = Global, File = File>>(
    rt: &R,
    decl: &str,
    out: &str,
    names: &[&str],
) -> Option<Overwritten> {
    if is_same_file(rt, out, decl) {
        return Some(Overwritten::Declarations);
    }
    if is_same_file(rt, out, paper_name()) {
        return Some(Overwritten::Save);
    }
    for (file, name) in names.iter().enumerate() {
        if is_same_file(rt, out, name) {
            return Some(Overwritten::Source { file });
        }
    }
    kept_as(rt, out)
}

fn compile<'a, R: Runtime<A = Global, File = File>>(
    rt: &R,
    audience: Audience,
    decl: &'a str,
    out: &'a str,
    names: &'a [&'a str],
) -> Result<Status, WordsFault> {
    if names.is_empty() {
        return Err(WordsFault::Missing);
    }
    let overwritten = match overwritten_names(rt, decl, out, names) {
        Ok(Some(what)) => Some(what),
        Ok(None) => overwritten_files(rt, decl, out, names),
        Err(_) => return Ok(no_memory(rt)),
    };
    if let Some(what) = overwritten {
        return Err(WordsFault::Out(what));
    }
    let _ = settle(rt, audience);
    let mut folder = folder(rt, audience);
    let refusal = match compile_files(rt.alloc(), &mut folder, decl, out, names) {
        Ok(()) => return Ok(Status::Done),
        Err(refusal) => refusal,
    };
    let words = CompileWords { decl, out, names };
    Ok(tell_uncompiled(rt, audience, &refusal, words, folder.unreplaced()))
}

/// Whether a file stands under a name in capitals, or in small letters.
fn stands_otherwise<R: Runtime<A = Global, File = File>>(rt: &R, name: &str) -> bool {
    let Ok(mut name) = String::from_str(rt.alloc(), name) else {
        return false;
    };
    name.make_ascii_uppercase();
    if stands(rt, name.as_str()) {
        return true;
    }
    name.make_ascii_lowercase();
    stands(rt, name.as_str())
}

/// Shows a person what to do about files that aren't compiled.
fn show_uncompiled<R: Runtime<A = Global, File = File>>(
    rt: &R,
    refusal: &CompileFilesRefusal,
    words: CompileWords<'_>,
    unreplaced: Option<Unreplaced>,
) {
    if let Some(unreplaced) = unreplaced {
        let told = UnwrittenTold(unreplaced);
        let _ = eprintln!(rt; "  {told}.");
    } else if let Some(name) = absent_file(refusal, words)
        && stands_otherwise(rt, name)
    {
        let _ = eprintln!(rt;
            "  a file of this name stands in other letters; write it as it stands."
        );
    } else if let Some(sentence) = of_file(refusal) {
        let _ = eprintln!(rt; "  {sentence}.");
    } else if let Some(place) = faulty_line(refusal, words) {
        show_faulty(rt, place, refusal, words);
    }
}

/// Tells on standard error why files aren't compiled; a person is shown what to do about it too.
pub fn tell_uncompiled<R: Runtime<A = Global, File = File>>(
    rt: &R,
    audience: Audience,
    refusal: &CompileFilesRefusal,
    words: CompileWords<'_>,
    unreplaced: Option<Unreplaced>,
) -> Status {
    tell(rt, audience, &CompileTold { refusal, words });
    if audience.person {
        show_uncompiled(rt, refusal, words, unreplaced);
    }
    of_compiling(refusal)
}

/// Prints bytes on standard output. A terminal gets a question mark in place of each byte that isn't printed.
pub fn print_bytes<R: Runtime<A = Global, File = File>>(
    rt: &R,
    audience: Audience,
    bytes: &[u8],
) -> Status {
    if !audience.rows {
        return status_of(rt, rt.write_all(bytes));
    }
    match printable(rt.alloc(), bytes) {
        Ok(shown) => status_of(rt, rt.write_all(shown.as_slice())),
        Err(_) => no_memory(rt),
    }
}

/// Tells on standard error that standard output failed, unless a reader closed the pipe and so wants no more.
fn tell_unprinted(rt: &impl Runtime, error: &io::Error) -> Status {
    if error.kind() == io::ErrorKind::BrokenPipe {
        return Status::Disk;
    }
    let refusal = Refusal::Disk { name: "-" };
    let _ = eprintln!(rt; "{refusal}");
    of_refusal(&refusal)
}

/// How the program exits behind an output on standard output.
pub fn status_of(rt: &impl Runtime, written: io::Result<()>) -> Status {
    match written {
        Ok(()) => Status::Done,
        Err(error) => tell_unprinted(rt, &error),
    }
}

/// How the program exits where it printed, with the first status, and told more behind that, with the second.
pub fn first_failed(printed: Status, told: Status) -> Status {
    match printed {
        Status::Done => told,
        failed => failed,
    }
}

/// Tells how a run ended, or why there was none.
fn tell_end(
    rt: &impl Runtime,
    audience: Audience,
    name: &str,
    ended: &Result<Ended, RunRefusal>,
) -> Status {
    match ended {
        Ok(ended) => {
            let _ = eprintln!(rt; "{ended}");
            ended.status()
        }
        Err(refusal) => tell_refusal(rt, audience, name, refusal),
    }
}

/// Tells on standard error why a run was refused.
pub fn tell_refusal(
    rt: &impl Runtime,
    audience: Audience,
    name: &str,
    refusal: &RunRefusal,
) -> Status {
    tell(rt, audience, &refusal.told(name));
    refusal.status()
}

/// Prints the rows of a run, and then how it ended, also where the rows can't be printed.
pub fn report<R: Runtime<A = Global, File = File>>(
    rt: &R,
    audience: Audience,
    name: &str,
    report: &Report,
) -> Status {
    let printed = print_bytes(rt, audience, report.rows.as_slice());
    first_failed(printed, tell_end(rt, audience, name, &report.result))
}

/// What to do about a save that was cut off, of which maybe a note stands, and that isn't finished, in one sentence
/// without its point.
fn why_unfinished(unfinished: &UnfinishedSave, noted: bool) -> Option<&'static str> {
    match unfinished {
        UnfinishedSave::Foreign => Some("this file isn't a save's; give it another name"),
        UnfinishedSave::Changed { .. } => Some(
            "another program changed this file behind the save; dbrun forget takes the save away, and no table",
        ),
        UnfinishedSave::Disk { .. } | UnfinishedSave::PaperDisk if noted => Some(
            "the next command finishes this save; do not repeat the run",
        ),
        UnfinishedSave::Disk { .. } | UnfinishedSave::PaperDisk => Some(
            "what is left of a save can't be taken away; no table was changed",
        ),
        UnfinishedSave::Memory => None,
    }
}

/// Tells on standard error why a save that was cut off isn't finished.
pub fn tell_unfinished<R: Runtime<A = Global, File = File>>(
    rt: &R,
    audience: Audience,
    unfinished: &UnfinishedSave,
) -> Status {
    let (_, status) = match unfinished {
        UnfinishedSave::Foreign => (
            eprintln!(rt; "refused {} Foreign", paper_name()),
            Status::Refused,
        ),
        UnfinishedSave::Changed { name } => (
            eprintln!(rt; "refused {} Changed", RecordedName { name, audience }),
            Status::Refused,
        ),
        UnfinishedSave::Disk { name } => (
            eprintln!(rt; "disk {}", RecordedName { name, audience }),
            Status::Disk,
        ),
        UnfinishedSave::PaperDisk => (eprintln!(rt; "disk {}", paper_name()), Status::Disk),
        UnfinishedSave::Memory => (eprintln!(rt; "memory"), Status::Memory),
    };
    if audience.person {
        let _ = match why_unfinished(unfinished, note_stands(rt)) {
            Some(sentence) => eprintln!(rt; "  {sentence}."),
            None => Ok(()),
        };
    }
    status
}

/// Finishes a save that was cut off before; a status where the run ends with that.
pub fn finish_before<R: Runtime<A = Global, File = File>>(
    rt: &R,
    audience: Audience,
) -> Option<Status> {
    match finish(rt) {
        Ok(FinishedSave::Before) => None,
        Ok(FinishedSave::Behind) => {
            let _ = eprintln!(rt; "the save of an earlier run is finished; nothing was run");
            Some(Status::Disk)
        }
        Err(unfinished) => Some(tell_unfinished(rt, audience, &unfinished)),
    }
}

/// Tells on standard error that a lock file holds the folder.
pub fn tell_lock_file(rt: &impl Runtime, audience: Audience) -> Status {
    let status = refuse(rt, audience, Refusal::Disk { name: LOCK_FILE });
    if audience.person {
        let _ = eprintln!(rt; "  {}.", why_hindered(Hindrance::LockFile));
    }
    status
}

/// Before tables are only read, a save that had come to its note is finished. Where that can't be, it is told on
/// standard error, and what stands is read. Returns whether that is so and nobody else may be finishing it.
pub fn settle<R: Runtime<A = Global, File = File>>(rt: &R, audience: Audience) -> bool {
    if !note_stands(rt) {
        return false;
    }
    let held = take_folder(rt, false);
    let unfinished = match &held {
        Held::Alone(_) => match finish(rt) {
            Ok(_) => None,
            Err(unfinished) => Some(tell_unfinished(rt, audience, &unfinished)),
        },
        Held::LockFile => Some(tell_lock_file(rt, audience)),
        Held::Taken | Held::NoLocks | Held::Closed | Held::NoRoom => {
            Some(tell_unfinished(rt, audience, &UnfinishedSave::PaperDisk))
        }
    };
    let is_others = matches!(held, Held::Taken | Held::LockFile);
    let_go(rt, held);
    unfinished.is_some() && !is_others
}

/// Tells on standard error why the tables of a run aren't saved.
pub fn tell_unsaved<R: Runtime<A = Global, File = File>>(
    rt: &R,
    audience: Audience,
    saving: &SavingFolder<'_, R, Progress<'_, R>>,
    unsaved: Unsaved,
    backup: Option<&str>,
) -> Status {
    let status = match unsaved {
        Unsaved::Changed { file } => {
            tell(
                rt,
                audience,
                &format_args!("refused {} Changed", saving.name_of(file)),
            );
            Status::Refused
        }
        Unsaved::Disk { file } | Unsaved::Cut { file } => {
            let name = saving.name_of(file);
            refuse(rt, audience, Refusal::Disk { name })
        }
        Unsaved::Backup => {
            let name = backup.unwrap_or(".");
            refuse(rt, audience, Refusal::Disk { name })
        }
        Unsaved::Memory => no_memory(rt),
    };
    if audience.person {
        let _ = match unsaved {
            Unsaved::Cut { .. } => eprintln!(rt;
                "the next command finishes this save; do not repeat the run"
            ),
            _ => eprintln!(rt; "no file was changed"),
        };
    }
    status
}

/// Tells why a run was refused; a person is told too why a file of it couldn't be saved.
pub fn tell_hindered<R: Runtime<A = Global, File = File>>(
    rt: &R,
    audience: Audience,
    name: &str,
    refusal: &RunRefusal,
    hindrance: Option<Hindrance>,
) -> Status {
    let status = tell_refusal(rt, audience, name, refusal);
    if audience.person {
        let _ = match hindrance {
            Some(hindrance) => eprintln!(rt; "{}; no file was changed", why_hindered(hindrance)),
            None if status == Status::Disk => eprintln!(rt; "no file was changed"),
            None => Ok(()),
        };
    }
    status
}

/// Runs the code, and saves the tables all together or not at all. A folder that is closed is another program's.
fn run_and_save<R: Runtime<A = Global, File = File>>(
    rt: &R,
    audience: Audience,
    job: &Job<'_>,
    save: SaveWords<'_>,
    screens: Option<&str>,
    closed: Option<Hindrance>,
) -> Status {
    let terms = SaveTerms {
        closed,
        takes_over: save.new_owner,
        backup: save.backup,
        keep_unchanged: save.keep_unchanged,
    };
    let mut saving = SavingFolder::new(folder(rt, audience), terms);
    match run_shown(rt, audience, &mut saving, job, screens) {
        Ok(done) => save_done(rt, audience, job.name, save, &mut saving, &done),
        Err(status) => status,
    }
}

/// Saves what a run left, and tells how it ended.
fn save_done<R: Runtime<A = Global, File = File>>(
    rt: &R,
    audience: Audience,
    name: &str,
    save: SaveWords<'_>,
    saving: &mut SavingFolder<'_, R, Progress<'_, R>>,
    done: &Report,
) -> Status {
    let ended = match &done.result {
        Ok(ended) => ended,
        Err(refusal) => return tell_hindered(rt, audience, name, refusal, saving.hindrance()),
    };
    let saved = ended.is_saved(save.only_finished);
    if saved && let Err(unsaved) = saving.commit() {
        let printed = print_bytes(rt, audience, done.rows.as_slice());
        let told = tell_unsaved(rt, audience, saving, unsaved, save.backup);
        return first_failed(printed, told);
    }
    let status = report(rt, audience, name, done);
    if audience.person {
        if let Some(hint) = of_end(&ended.how, saved) {
            let _ = eprintln!(rt; "  {hint}.");
        }
    }
    status
}

/// Why the folder isn't held, if it isn't.
pub fn hindered(held: &Held) -> Option<Hindrance> {
    match held {
        Held::Alone(_) => None,
        Held::Taken => Some(Hindrance::Taken),
        Held::LockFile => Some(Hindrance::LockFile),
        Held::NoLocks => Some(Hindrance::NoLocks),
        Held::Closed => Some(Hindrance::Closed),
        Held::NoRoom => Some(Hindrance::NoRoom),
    }
}

/// Finishes a save that was cut off before, if one was; a status where the run ends with that. Returns why the folder
/// couldn't be held for it, so that nobody waits for the folder twice.
fn finish_alone<R: Runtime<A = Global, File = File>>(
    rt: &R,
    audience: Audience,
    no_lock: bool,
) -> Result<Option<Hindrance>, Status> {
    if !save_stands(rt) {
        return Ok(None);
    }
    let held = take_folder(rt, no_lock);
    let hindrance = hindered(&held);
    let status = match &held {
        Held::LockFile => Some(tell_lock_file(rt, audience)),
        Held::Alone(_) => finish_before(rt, audience),
        Held::Taken | Held::NoLocks | Held::Closed | Held::NoRoom => None,
    };
    let_go(rt, held);
    match status {
        Some(status) => Err(status),
        None => Ok(hindrance),
    }
}

/// Whether a code is known to have no tables, so that its run saves nothing.
pub fn has_no_tables<R: Runtime<A = Global, File = File>>(rt: &R, name: &str) -> bool {
    let mut files = Folder::new(rt, Nobody);
    match read_code(rt.alloc(), &mut files, name) {
        Ok(code) => code.code().declared.shape.tables.len() == 0,
        Err(_) => false,
    }
}

/// Why no table can be saved, if that is so. In a folder that is held, a save that was cut off before is finished
/// first; a status where the run ends with that.
fn hindrance_of<R: Runtime<A = Global, File = File>>(
    rt: &R,
    audience: Audience,
    held: &Held,
) -> Result<Option<Hindrance>, Status> {
    if let Held::LockFile = held {
        return Err(tell_lock_file(rt, audience));
    }
    if let Some(hindrance) = hindered(held) {
        return Ok(Some(hindrance));
    }
    match finish_before(rt, audience) {
        Some(status) => Err(status),
        None => Ok(hindered_plan(rt)),
    }
}

/// Carries out a run that saves, all of whose input is there. The folder is held for it alone, unless the code has no
/// tables; then none is read, whatever stands under the code's name by now. Where it is known already why the folder
/// can't be held, nobody waits for it again.
fn run_alone<R: Runtime<A = Global, File = File>>(
    rt: &R,
    audience: Audience,
    job: &Job<'_>,
    save: SaveWords<'_>,
    screens: Option<&str>,
    known: Option<Hindrance>,
) -> Status {
    if has_no_tables(rt, job.name) {
        return run_and_save(rt, audience, job, save, screens, Some(Hindrance::Taken));
    }
    if known.is_some() {
        return run_and_save(rt, audience, job, save, screens, known);
    }
    let held = take_folder(rt, save.no_lock);
    let status = match hindrance_of(rt, audience, &held) {
        Ok(hindrance) => run_and_save(rt, audience, job, save, screens, hindrance),
        Err(status) => status,
    };
    let_go(rt, held);
    status
}

/// Looks, where a person types, whether the code's file is there and accepted, before they type in vain; a status where
/// it isn't.
fn look_before<R: Runtime<A = Global, File = File>>(
    rt: &R,
    audience: Audience,
    name: &str,
) -> Option<Status> {
    let mut folder = folder(rt, audience);
    match verify_file(rt.alloc(), &mut folder, name) {
        Ok(None) => {
            let _ = eprintln!(rt; "type the operator's lines; Ctrl-D ends them");
            None
        }
        Ok(Some(refused)) => {
            tell(rt, audience, &format_args!("refused {name} {refused}"));
            Some(Status::Refused)
        }
        Err(refusal) => Some(refuse(rt, audience, refusal)),
    }
}

/// What a run ends with before anything is typed for it, if it ends then; else why the folder couldn't be held, if
/// that is known.
fn ends_before<R: Runtime<A = Global, File = File>>(
    rt: &R,
    audience: Audience,
    words: &RunWords<'_>,
) -> Result<Option<Hindrance>, Status> {
    let known = match words.tables {
        Outcomes::Saved(save) => finish_alone(rt, audience, save.no_lock)?,
        Outcomes::Nothing | Outcomes::Told => None,
    };
    if words.job.checked || !audience.person || !audience.typing {
        return Ok(known);
    }
    match look_before(rt, audience, words.job.name) {
        Some(status) => Err(status),
        None => Ok(known),
    }
}

/// Carries out a run, of which only what the operator types is still to be had. A save that was cut off before is
/// finished first; where that had counted, nothing is run.
fn run<R: Runtime<A = Global, File = File>>(
    rt: &R,
    audience: Audience,
    words: &RunWords<'_>,
) -> Status {
    let known = match ends_before(rt, audience, words) {
        Ok(known) => known,
        Err(status) => return status,
    };
    if audience.person && words.day_left_out {
        let _ = eprintln!(rt;
            "the date of this run is {}; --today YYYY-MM-DD gives another one",
            words.job.day
        );
    }
    match typed(rt, audience) {
        Ok(input) => run_typed(rt, audience, words, input.as_slice(), known),
        Err(status) => status,
    }
}

/// Carries out a run for which this was typed.
fn run_typed<R: Runtime<A = Global, File = File>>(
    rt: &R,
    audience: Audience,
    words: &RunWords<'_>,
    input: &[u8],
    known: Option<Hindrance>,
) -> Status {
    let job = Job {
        name: words.job.name,
        checked: words.job.checked,
        budget: words.job.budget,
        limit: words.job.limit,
        day: words.job.day,
        input,
    };
    match words.tables {
        Outcomes::Saved(save) => run_alone(rt, audience, &job, save, words.screens, known),
        Outcomes::Nothing => run_tested(rt, audience, &job),
        Outcomes::Told => rehearse(rt, audience, &job, words.screens),
    }
}

fn verify<R: Runtime<A = Global, File = File>>(rt: &R, audience: Audience, name: &str) -> Status {
    let mut folder = folder(rt, audience);
    let (written, status) = match verify_file(rt.alloc(), &mut folder, name) {
        Ok(None) => (println!(rt; "accepted"), Status::Done),
        Ok(Some(refused)) => (println!(rt; "refused {refused}"), Status::Refused),
        Err(refusal) => return refuse(rt, audience, refusal),
    };
    first_failed(status_of(rt, written), status)
}

/// Prints the lines of a listing.
fn print_lines<R: Runtime<A = Global, File = File>>(
    rt: &R,
    audience: Audience,
    listed: Result<Vec<u8>, Refusal<'_>>,
) -> Status {
    match listed {
        Ok(lines) => print_bytes(rt, audience, lines.as_slice()),
        Err(refusal) => refuse(rt, audience, refusal),
    }
}

fn code<R: Runtime<A = Global, File = File>>(rt: &R, audience: Audience, name: &str) -> Status {
    let mut folder = folder(rt, audience);
    print_lines(rt, audience, list_code(rt.alloc(), &mut folder, name))
}

/// Prints lines in UTF-8, where the words say what their bytes stand for.
fn print_listing<R: Runtime<A = Global, File = File>>(
    rt: &R,
    audience: Audience,
    page: Option<CodePage>,
    lines: &[u8],
) -> Status {
    let Some(page) = page else {
        return print_bytes(rt, audience, lines);
    };
    let told = if audience.rows {
        letters_of(rt.alloc(), page, lines)
    } else {
        in_utf8(rt.alloc(), page, lines)
    };
    match told {
        Ok(shown) => status_of(rt, rt.write_all(shown.as_bytes())),
        Err(_) => no_memory(rt),
    }
}

/// Lines in UTF-8 as a terminal is sent them.
fn letters_of(alloc: Global, page: CodePage, lines: &[u8]) -> Result<String, AllocError> {
    let letters = letters_alone(alloc, lines)?;
    in_utf8(alloc, page, letters.as_slice())
}

/// The lines of a table.
fn table_lines<'a, R: Runtime<A = Global, File = File>>(
    rt: &R,
    audience: Audience,
    listing: Listing<'a>,
) -> Result<Vec<u8>, Refusal<'a>> {
    let mut folder = folder(rt, audience);
    if listing.csv {
        list_csv(rt.alloc(), &mut folder, listing.name)
    } else {
        list_table(rt.alloc(), &mut folder, listing.name)
    }
}

/// The code page that the environment names, if it names one. An empty variable names none.
fn page_of_environment<R: Runtime<A = Global>>(rt: &R) -> Result<Option<CodePage>, WordsFault> {
    match env::var(rt, PAGE_VARIABLE) {
        Ok(name) if name.is_empty() => Ok(None),
        Ok(name) => match page_named(name.as_str()) {
            Some(page) => Ok(Some(page)),
            None => Err(WordsFault::PageVariable),
        },
        Err(VarError::NotPresent) => Ok(None),
        Err(VarError::NotUnicode) => Err(WordsFault::PageVariable),
        Err(VarError::OutOfMemory) => Err(WordsFault::Memory),
    }
}

/// The code page of --from, or that of the environment if that option is left out.
pub fn page_for<R: Runtime<A = Global>>(
    rt: &R,
    given: Option<CodePage>,
) -> Result<Option<CodePage>, WordsFault> {
    match given {
        Some(page) => Ok(Some(page)),
        None => page_of_environment(rt),
    }
}

/// Prints the records of a table. The environment's code page counts for comma-separated values only.
fn list<R: Runtime<A = Global, File = File>>(
    rt: &R,
    audience: Audience,
    listing: Listing<'_>,
) -> Result<Status, WordsFault> {
    let page = if listing.csv {
        page_for(rt, listing.page)?
    } else {
        listing.page
    };
    let _ = settle(rt, audience);
    match table_lines(rt, audience, listing) {
        Ok(lines) => Ok(print_listing(rt, audience, page, lines.as_slice())),
        Err(refusal) => Ok(refuse(rt, audience, refusal)),
    }
}

fn index<R: Runtime<A = Global, File = File>>(rt: &R, audience: Audience, name: &str) -> Status {
    let _ = settle(rt, audience);
    let mut folder = folder(rt, audience);
    print_lines(rt, audience, list_index(rt.alloc(), &mut folder, name))
}

/// The names in the current folder, each ended by a zero byte.
pub fn folder_names<R: Runtime<A = Global, File = File>>(
    rt: &R,
) -> Result<Vec<u8>, Refusal<'static>> {
    let Ok(mut names) = rt.open_dir(".") else {
        return Err(Refusal::Disk { name: "." });
    };
    match read_within(rt.alloc(), &mut names, NAMES_LIMIT) {
        Ok(names) => Ok(names),
        Err(ReadFault::Memory) => Err(Refusal::Memory),
        Err(_) => Err(Refusal::Disk { name: "." }),
    }
}

/// The names one by one, in the order of their bytes.
fn in_order(alloc: Global, names: &[u8]) -> Result<Vec<&[u8]>, AllocError> {
    let mut sorted = Vec::new(alloc);
    for name in names.split(|byte| *byte == 0) {
        sorted.push(name)?;
    }
    sorted.sort()?;
    Ok(sorted)
}

/// Prints the declaration file of the files of these names.
fn print_declared<'n, R: Runtime<A = Global, File = File>>(
    rt: &R,
    audience: Audience,
    names: &'n [&'n [u8]],
) -> Result<Status, AllocError> {
    let mut folder = folder(rt, audience);
    let declared = declare(rt.alloc(), &mut folder, names)?;
    Ok(print_declared_lines(rt, &declared, names))
}

/// Prints the lines of a declaration file.
fn print_declared_lines<'n, R: Runtime>(
    rt: &R,
    declared: &FolderDeclared,
    names: &'n [&'n [u8]],
) -> Status {
    for line in declared.lines.as_slice() {
        let told = LineTold {
            declared,
            names,
            line: *line,
        };
        if let Err(error) = println!(rt; "{told}") {
            return tell_unprinted(rt, &error);
        }
    }
    Status::Done
}

fn declare_folder<R: Runtime<A = Global, File = File>>(rt: &R, audience: Audience) -> Status {
    let _ = settle(rt, audience);
    let bytes = match folder_names(rt) {
        Ok(bytes) => bytes,
        Err(refusal) => return refuse(rt, audience, refusal),
    };
    let Ok(names) = in_order(rt.alloc(), bytes.as_slice()) else {
        return no_memory(rt);
    };
    match print_declared(rt, audience, names.as_slice()) {
        Ok(status) => status,
        Err(_) => no_memory(rt),
    }
}

/// Whether a folder can take copies of the files that a run of this code saves.
fn may_copy_to<R: Runtime<A = Global, File = File>>(
    rt: &R,
    path: &str,
    code: &str,
) -> Result<bool, AllocError> {
    let names = declared_files(rt, code)?;
    let mut lent = Vec::with_capacity(rt.alloc(), names.len())?;
    for name in &names {
        lent.push(name.as_str())?;
    }
    Ok(may_take_copies(rt, path, lent.as_slice()))
}

/// Refuses a folder for copies that holds anything but what an interrupted run of this code left there.
pub fn may_back_up<R: Runtime<A = Global, File = File>>(
    rt: &R,
    tables: Outcomes<'_>,
    code: &str,
) -> Result<(), WordsFault> {
    if let Outcomes::Saved(save) = tables {
        if let Some(path) = save.backup {
            // where a committed save is found, nothing is run, and so nothing is copied
            if !note_stands(rt) && !may_copy_to(rt, path, code).unwrap_or(false) {
                return Err(WordsFault::Backup);
            }
        }
    }
    Ok(())
}

fn carry_out<R: Runtime<A = Global, File = File>>(
    rt: &R,
    audience: Audience,
    words: &Words<'_>,
    sources: &[&str],
) -> Result<Status, WordsFault> {
    match words {
        Words::Compile { decl, out } => compile(rt, audience, decl, out, &*sources),
        Words::Faults { decl } => faults(rt, audience, decl, &*sources),
        Words::Run(words) => {
            may_back_up(rt, words.tables, words.job.name)?;
            may_show(rt, words)?;
            Ok(run(rt, audience, words))
        }
        Words::Operate(words) => operate(rt, audience, words),
        Words::Verify { name } => Ok(verify(rt, audience, name)),
        Words::Code { name } => Ok(code(rt, audience, name)),
        Words::List(listing) => list(rt, audience, *listing),
        Words::Index { name } => Ok(index(rt, audience, name)),
        Words::Declare => Ok(declare_folder(rt, audience)),
        Words::Forget { no_lock } => Ok(forget_save(rt, audience, *no_lock)),
    }
}

/// Carries out what was parsed.
fn carry_out_all<R: Runtime<A = Global, File = File>>(
    rt: &R,
    audience: Audience,
    matches: &ArgMatches<'_>,
) -> Result<Status, WordsFault> {
    match words_of(matches) {
        Ok(words) => match sources_of(matches) {
            Some(sources) => carry_out(rt, audience, &words, sources),
            None => carry_out(rt, audience, &words, &[]),
        },
        Err(fault) => Err(fault),
    }
}

/// Tells on standard error that memory was refused.
pub fn no_memory(rt: &impl Runtime) -> Status {
    let _ = eprintln!(rt; "{}", Refusal::Memory);
    Status::Memory
}

/// Prints the version that was asked for.
fn print_version(rt: &impl Runtime, version: &clap::Error) -> Status {
    status_of(rt, print!(rt; "{version}"))
}

/// Tells on standard error what is wrong with the words, or how words are put where they ask for help. A version that
/// they ask for goes to standard output.
fn refuse_words(rt: &impl Runtime, error: &clap::Error) -> Status {
    match error.kind() {
        ErrorKind::OutOfMemory => no_memory(rt),
        ErrorKind::DisplayVersion => print_version(rt, error),
        _ => {
            let _ = eprint!(rt; "{error}");
            Status::Words
        }
    }
}

/// What is wrong with words that the parser took.
fn message(fault: WordsFault) -> &'static str {
    match fault {
        WordsFault::Today => "the day of --today is YYYY-MM-DD, in the years 1900 to 2155",
        WordsFault::Page => "the code page of --from is cp437 or cp850",
        WordsFault::PageVariable => "the code page of DBRUN_PAGE is cp437 or cp850",
        WordsFault::Limit => "the number of --limit is one of 1 to 1000000",
        WordsFault::Backup => "--backup needs a new or an empty folder",
        WordsFault::Window => "the size of --window is ROWSxCOLUMNS",
        WordsFault::Journal =>
            "the file of --journal is a plain name here of at most 238 bytes, and none that the run uses",
        WordsFault::Screens =>
            "the file of --screens is a plain name in this folder, of which no file stands",
        WordsFault::Rehearsed =>
            "a rehearsal saves nothing; leave out --only-finished, --backup, --new-owner and --keep-unchanged",
        WordsFault::Zone =>
            "the zone of TZ isn't known, or its day isn't in the years 1900 to 2155; give --today",
        WordsFault::Missing | WordsFault::Out(_) | WordsFault::Memory => "an argument is missing",
    }
}

/// What a code file would overwrite, in words.
fn out_message(
    alloc: Global,
    audience: Audience,
    matches: &ArgMatches<'_>,
    what: Overwritten,
) -> Result<String, AllocError> {
    let names = sources_of(matches).unwrap_or(&[]);
    let at_terminal = audience.person;
    match words_of(matches) {
        Ok(Words::Compile { decl, out }) => {
            let words = CompileWords { decl, out, names };
            let what = &OutTold { what, words };
            format!(in alloc; "{}", Escaped { what, at_terminal })
        }
        _ => String::from_str(alloc, message(WordsFault::Missing)),
    }
}

/// Tells what is wrong with words that the parser took.
fn refuse_fault<R: Runtime<A = Global, File = File>>(
    rt: &R,
    audience: Audience,
    command: &mut Command<'_>,
    matches: &ArgMatches<'_>,
    fault: WordsFault,
) -> Status {
    let told = match fault {
        WordsFault::Memory => return no_memory(rt),
        WordsFault::Out(what) => out_message(rt.alloc(), audience, matches, what),
        _ => String::from_str(rt.alloc(), message(fault)),
    };
    let Ok(told) = told else {
        return no_memory(rt);
    };
    match command.error(ErrorKind::ValueValidation, told.as_str()) {
        Ok(error) => refuse_words(rt, &error),
        Err(_) => no_memory(rt),
    }
}

/// The words as a terminal is sent them.
fn escaped_words(alloc: Global, arguments: &[String]) -> Result<Vec<String>, AllocError> {
    let mut words = Vec::with_capacity(alloc, arguments.len())?;
    for word in arguments {
        words.push(escaped_name(alloc, word.as_str())?)?;
    }
    Ok(words)
}

/// Tells what is wrong with words that the parser refused, and that hold what a terminal would obey: what it says of
/// the same words as a terminal is sent them.
fn refuse_escaped<R: Runtime<A = Global, File = File>>(rt: &R, arguments: &[String]) -> Status {
    let Ok(words) = escaped_words(rt.alloc(), arguments) else {
        return no_memory(rt);
    };
    let Ok(mut command) = command(rt.alloc()) else {
        return no_memory(rt);
    };
    match command.try_get_matches_from_mut(words.as_slice()) {
        Ok(_) => Status::Words,
        Err(error) => refuse_words(rt, &error),
    }
}

/// Parses the words and carries them out.
fn answer<R: Runtime<A = Global, File = File>>(
    rt: &R,
    audience: Audience,
    arguments: &[String],
) -> Status {
    let Ok(mut command) = command(rt.alloc()) else {
        return no_memory(rt);
    };
    match command.try_get_matches_from_mut(arguments) {
        Ok(matches) => match carry_out_all(rt, audience, &matches) {
            Ok(status) => status,
            Err(fault) => refuse_fault(rt, audience, &mut command, &matches, fault),
        },
        Err(_) if audience.person && arguments.iter().any(|word| has_obeyed(word.as_str())) => {
            refuse_escaped(rt, arguments)
        }
        Err(error) => refuse_words(rt, &error),
    }
}

fn arguments<R: Runtime<A = Global, File = File>>(rt: &R) -> io::Result<Vec<String>> {
    let arguments = env::args(rt)?.collect(rt.alloc())?;
    Ok(arguments)
}

fn main(rt: HostRuntime) -> ExitCode {
    let audience = Audience {
        person: rt.stderr().is_terminal(),
        rows: rt.stdout().is_terminal(),
        typing: rt.stdin().is_terminal(),
    };
    let status = match arguments(&rt) {
        Ok(arguments) => answer(&rt, audience, arguments.as_slice()),
        Err(error) if error.kind() == io::ErrorKind::OutOfMemory => no_memory(&rt),
        Err(error) => {
            let _ = eprintln!(rt; "{error}");
            Status::Words
        }
    };
    ExitCode::from(status as u8)
}
