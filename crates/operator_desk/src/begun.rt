//! How a conversation was begun, as the text beside its journal says it. Its keys are words of the command line, which
//! no file's name is, and names of files.
#![tactic(auto)]

ghost use Rattle.std.specs.Prelude.{◌≡◌, IfSome, OnOk, Some, codes};
ghost use Rattle.operator_desk.specs.Talked.{IsOutcomeSaid, IsSaveSaid, IsTalkSaid, flag_if_said, flag_said, page_said};
ghost use Rattle.operator_desk.specs.Talked.{save_without_lock, word_said};

use code_pages::CodePage;
use journal_papers::JournalPaper;
use run_commands::{RecordLimit, RunDay};
use std::alloc::{AllocError, Global};
use std::fmt::Display;

/// On which terms the tables of a conversation are saved.
#[derive(Drop)]
pub struct TalkSave {
    /// Whether only those of a finished run are.
    pub only_finished: bool,
    /// The folder to which all that is replaced is copied first.
    pub backup: Option<String>,
    /// Whether new files may have another owner than the old ones.
    pub new_owner: bool,
    /// Whether they are saved where the file system knows no locks.
    pub no_lock: bool,
    /// Whether files that the run didn't change stay.
    pub keep_unchanged: bool,
}

/// The words of a conversation, all of them said.
#[derive(Drop)]
pub struct Talk {
    /// The most that the run may cost.
    pub budget: u64,
    /// The most records that a table may have.
    pub limit: RecordLimit,
    /// The day of the run.
    pub day: RunDay,
    /// On which terms the tables are saved; none where what would be saved is told.
    pub save: Option<TalkSave>,
    /// What bytes from 128 on stand for, in what is typed and shown.
    pub page: Option<CodePage>,
}

impl Talk {
    /// Whether its tables are saved where the file system knows no locks.
    pub fn no_lock(&self) -> bool
        ensures { result ≡ save_without_lock self.now.save }
    {
        match &self.save {
            Some(save) => save.no_lock,
            None => false,
        }
    }
}

/// A yes or a no.
fn yes_no(is: bool) -> &'static str
    ensures { flag_said (Some result.now) ≡ Some is }
{
    if is { "yes" } else { "no" }
}

/// The name of a code page, or `none`.
pub fn page_word(page: Option<CodePage>) -> &'static str
    ensures { page_said (Some result.now) ≡ Some page }
{
    match page {
        Some(CodePage::Cp437) => "cp437",
        Some(CodePage::Cp850) => "cp850",
        None => "none",
    }
}

/// Puts the terms of a save, and leaves the words that say what becomes of the tables, and the code page.
fn put_save(alloc: Global, paper: &mut JournalPaper, save: &TalkSave) -> Result<(), AllocError>
    ensures said { OnOk result (IsSaveSaid paper.new save.now) }
    ensures rehearsed { OnOk result (word_said paper.new (codes "--rehearse")
        ≡ word_said paper.old (codes "--rehearse")) }
    ensures page { OnOk result (word_said paper.new (codes "--from") ≡ word_said paper.old (codes "--from")) }
{
    let backup = match &save.backup {
        Some(path) => path.as_str(),
        None => "",
    };
    paper.put(alloc, "--only-finished", yes_no(save.only_finished))?;
    paper.put(alloc, "--new-owner", yes_no(save.new_owner))?;
    paper.put(alloc, "--no-lock", yes_no(save.no_lock))?;
    paper.put(alloc, "--keep-unchanged", yes_no(save.keep_unchanged))?;
    paper.put(alloc, "--backup", backup)
}

/// Puts a value as it is shown.
fn put_shown<D: Display>(
    alloc: Global,
    paper: &mut JournalPaper,
    key: &str,
    value: &D,
) -> Result<(), AllocError> {
    let text = format!(in alloc; "{value}")?;
    paper.put(alloc, key, text.as_str())
}

/// Puts the words of a conversation.
pub fn put_talk(alloc: Global, paper: &mut JournalPaper, talk: &Talk) -> Result<(), AllocError>
    ensures { OnOk result (IsTalkSaid paper.new talk.now) }
{
    put_shown(alloc, paper, "--today", &talk.day)?;
    put_shown(alloc, paper, "--budget", &talk.budget)?;
    put_shown(alloc, paper, "--limit", &talk.limit.records())?;
    paper.put(alloc, "--from", page_word(talk.page))?;
    paper.put(alloc, "--rehearse", yes_no(talk.save.is_none()))?;
    match &talk.save {
        Some(save) => put_save(alloc, paper, save),
        None => Ok(()),
    }
}

/// Whether a word is a yes; none where it is neither yes nor no.
fn is_yes(paper: &JournalPaper, key: &str) -> Option<bool>
    ensures { result ≡ flag_said (word_said paper.now key.now) }
{
    let word = paper.get(key)?;
    if word == "yes" {
        return Some(true);
    }
    if word == "no" {
        return Some(false);
    }
    None
}

/// Whether a word is a yes. Where nothing is said under its key, as in a text that an earlier program wrote, it is a
/// no; none where what is said is neither.
fn is_yes_if_said(paper: &JournalPaper, key: &str) -> Option<bool>
    ensures { result ≡ flag_if_said (word_said paper.now key.now) }
{
    match paper.get(key) {
        Some(_) => is_yes(paper, key),
        None => Some(false),
    }
}

/// The code page that is said; none where nothing is said of it, or no such page is known.
fn page_in(paper: &JournalPaper) -> Option<Option<CodePage>>
    ensures { result ≡ page_said (word_said paper.now (codes "--from")) }
{
    let word = paper.get("--from")?;
    if word == "cp437" {
        return Some(Some(CodePage::Cp437));
    }
    if word == "cp850" {
        return Some(Some(CodePage::Cp850));
    }
    if word == "none" {
        return Some(None);
    }
    None
}

/// A copy of a text, of which an empty one says none.
fn name_in(alloc: Global, text: &str) -> Result<Option<String>, AllocError> {
    if text.is_empty() {
        return Ok(None);
    }
    Ok(Some(String::from_str(alloc, text)?))
}

/// The terms of a save that the text says, if it says all of them.
fn save_in(alloc: Global, paper: &JournalPaper) -> Option<TalkSave>
    ensures { IfSome result (IsSaveSaid paper.now) }
{
    Some(TalkSave {
        only_finished: is_yes(paper, "--only-finished")?,
        new_owner: is_yes(paper, "--new-owner")?,
        no_lock: is_yes(paper, "--no-lock")?,
        keep_unchanged: is_yes_if_said(paper, "--keep-unchanged")?,
        backup: name_in(alloc, paper.get("--backup")?).ok()?,
    })
}

/// What becomes of the tables that the text says, if it says all of it; none is saved in a rehearsal.
fn outcome_in(alloc: Global, paper: &JournalPaper) -> Option<Option<TalkSave>>
    ensures { IfSome result (IsOutcomeSaid paper.now) }
{
    if is_yes(paper, "--rehearse")? {
        return Some(None);
    }
    Some(Some(save_in(alloc, paper)?))
}

/// The words of a conversation that the text says, if it says all of them.
pub fn talk_in(alloc: Global, paper: &JournalPaper) -> Option<Talk>
    ensures { IfSome result (IsTalkSaid paper.now) }
{
    let budget = paper.get("--budget")?.parse::<u64>().ok()?;
    let limit = RecordLimit::of(paper.get("--limit")?.parse::<u32>().ok()?)?;
    let day = RunDay::named(paper.get("--today")?)?;
    let page = page_in(paper)?;
    let save = outcome_in(alloc, paper)?;
    Some(Talk {
        budget,
        limit,
        day,
        save,
        page,
    })
}
