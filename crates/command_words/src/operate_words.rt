// The words of `operate`.
#![tactic(auto)]

ghost use Rattle.std.specs.Prelude.{◌≡◌, ◌++◌, ◌↔◌, ℕ, List, IfOk, IfErr, Some, codes};
ghost use Rattle.clap.specs.Matches.{found_of};
ghost use Rattle.clap.specs.Simple.{app_of};
ghost use Rattle.clap.specs.Walk.{rows_of, rule_of};
ghost use Rattle.run_commands.specs.Days.{IsDayNamed};
ghost use Rattle.command_words.specs.Asked.{lent, IsNamedIf, IsTalk, IsRepeated, IsTalkAsked, IsShown, IsOperate};
ghost use Rattle.command_words.specs.Refused.{NoDay, NoWindow, NewTalkRefused, RepeatedRefused, TalkRefused};
ghost use Rattle.command_words.specs.Refused.{OperateRefused};
ghost use Rattle.command_words.specs.CommandLine.{taking, alone, valued_word, journal_word};
ghost use Rattle.command_words.specs.CommandLine.{run_words, save_words, talk_words};
ghost use Rattle.command_words.specs.Said.{word_given};
ghost use Rattle.command_words.specs.declared.operate_words.WindowWords.{WindowWords as Size};
ghost use Rattle.command_words.specs.Windows.{IsNumber, IsSize};

use crate::words::{
    FILE, Outcomes, REHEARSE, RunHelp, SaveWords, WordsFault, flag, is_set, limit_if_said,
    limit_of, number_if, page, page_of, run_outcomes, runner, save_of, saver, valued, with_word,
    word_if, word_of,
};
use clap::{Arg, ArgMatches, Command};
use code_pages::CodePage;
use run_commands::{RecordLimit, RunDay};
use std::alloc::{AllocError, Global};

const JOURNAL: &str = "journal";

const CONTINUE: &str = "continue";

const WINDOW: &str = "window";

const PLAIN: &str = "plain";

const SCREENS: &str = "screens";

/// The rows and columns of a terminal's window.
#[derive(Clone, Copy)]
pub struct WindowWords {
    pub rows: usize,
    pub columns: usize,
}

/// What a conversation is asked for. It is kept beside its journal.
#[derive(Clone, Copy)]
pub struct TalkWords<'a> {
    /// The most that the run may cost; none where the words don't say.
    pub budget: Option<u64>,
    /// The most records that a table may have.
    pub limit: RecordLimit,
    /// The day of the run; none where the words don't say.
    pub day: Option<RunDay>,
    pub tables: Outcomes<'a>,
    /// What bytes from 128 on stand for, in what is typed and shown.
    pub page: Option<CodePage>,
}

/// The options that are given again when a conversation goes on. They must be those with which it was begun; an option
/// that isn't given says nothing.
#[derive(Clone, Copy)]
pub struct RepeatedWords<'a> {
    pub budget: Option<u64>,
    pub limit: Option<RecordLimit>,
    pub day: Option<RunDay>,
    pub page: Option<CodePage>,
    pub rehearse: bool,
    pub save: SaveWords<'a>,
}

/// Whether a conversation begins or goes on.
#[derive(Clone, Copy)]
pub enum TalkAsked<'a> {
    Begins(TalkWords<'a>),
    GoesOn(RepeatedWords<'a>),
}

/// How a conversation is shown. Other options than before may be given whenever it goes on.
#[derive(Clone, Copy)]
pub struct ShownWords<'a> {
    /// The size of the window, where the words say it.
    pub window: Option<WindowWords>,
    /// Whether rows are only listed.
    pub plain: bool,
    /// The file to which the screens before each line are written.
    pub screens: Option<&'a str>,
}

/// What the words of `operate` ask for.
#[derive(Clone, Copy)]
pub struct OperateWords<'a> {
    /// The code's file.
    pub code: &'a str,
    /// The journal's file.
    pub journal: &'a str,
    pub talk: TalkAsked<'a>,
    pub shown: ShownWords<'a>,
}

/// What help says of the budget and the day of a conversation.
const HELP: RunHelp<'static> = RunHelp {
    budget: "The most that the run may cost, below 2^64 (default: 1000000; at a terminal, the greatest)",
    today: "The date of the run, in the years 1900 to 2155 (default: the computer's, in the time zone of TZ)",
};

/// How a session ends, and an example.
const OPERATE_FURTHER: &str = "\
A session that ends early, because the budget is spent, a table is full or memory is refused during the run, saves what
it did until then. --only-finished saves nothing in that case, --rehearse saves nothing at all, and --backup keeps the
old files.

Example (after compile): dbrun operate DAY.XBC --journal MONDAY.TXT";

/// The word that names the journal.
fn journal<'a>(alloc: Global) -> Arg<'a>
    ensures { rule_of result ≡ journal_word }
{
    valued(
        alloc,
        JOURNAL,
        "FILE",
        "The file to which each line is written before the program reads it",
    )
    .required(true)
}

/// The words of conversations alone, behind those of the run.
fn talker<'a>(alloc: Global, command: Command<'a>) -> Result<Command<'a>, AllocError>
    ensures { (name : List ℕ) → app_of command.entry ≡ alone (taking name (run_words ++ save_words))
        → IfOk result (λ c. app_of c ≡ alone (taking name (run_words ++ save_words ++ talk_words))) }
{
    let again = flag(
        alloc,
        CONTINUE,
        "Resumes the session after the last line of its journal; options may be repeated, not changed",
    );
    let window = valued(
        alloc,
        WINDOW,
        "ROWSxCOLUMNS",
        "The size of the terminal's window",
    );
    let plain = flag(
        alloc,
        PLAIN,
        "Prints the rows that changed instead of drawing the screen",
    );
    let command = with_word(command, journal(alloc))?;
    let command = with_word(command, again)?;
    let command = with_word(
        command,
        page(
            alloc,
            "The code page of the tables' texts, cp437 or cp850 (left out: DBRUN_PAGE, if it is set)",
        ),
    )?;
    let command = with_word(command, window)?;
    let command = with_word(command, plain)?;
    with_word(command, screens(alloc))
}

/// The words of `operate`.
pub(crate) fn operator<'a>(alloc: Global) -> Result<Command<'a>, AllocError>
    ensures { IfOk result (λ c. app_of c
        ≡ alone (taking (codes "operate") (run_words ++ save_words ++ talk_words))) }
{
    let run = runner(
        alloc,
        "operate",
        "Runs a code file with an operator at a terminal, and writes each line that is typed to a journal",
        OPERATE_FURTHER,
        &HELP,
    )?;
    talker(alloc, saver(alloc, run)?)
}

/// The word that names a file for screens.
pub(crate) fn screens<'a>(alloc: Global) -> Arg<'a>
    ensures { rule_of result ≡ valued_word (codes "screens") }
{
    valued(
        alloc,
        SCREENS,
        "FILE",
        "Writes the screen before each input line, and the last screen, to this new file",
    )
}

/// The file for screens that the words name.
pub(crate) fn screens_of<'a>(matches: &ArgMatches<'a>) -> Option<&'a str>
    ensures { lent result ≡ word_given (codes "screens") (rows_of (found_of matches.now)) }
{
    word_if(matches, SCREENS)
}

/// The number that a text says in decimal; none where it says none below 2^64. A plus sign may stand in front.
fn number_said(text: &str) -> Option<usize>
    ensures { (n : ℕ) → (result ≡ Some n) ↔ IsNumber text.now n }
{
    text.parse::<usize>().ok()
}

/// The size that a word of the form ROWSxCOLUMNS says; none of another word.
pub fn window_named(word: &str) -> Option<WindowWords>
    ensures { (size : Size) → (result ≡ Some size) ↔ IsSize word.now size }
{
    let (rows, columns) = word.split_once('x')?;
    Some(WindowWords {
        rows: number_said(rows)?,
        columns: number_said(columns)?,
    })
}

/// The size of the window that the words name.
fn window_of(matches: &ArgMatches<'_>) -> Result<Option<WindowWords>, WordsFault>
    ensures told { IfOk result (IsNamedIf IsSize (word_given (codes "window") (rows_of (found_of matches.now)))) }
    ensures refused { IfErr result (NoWindow (word_given (codes "window") (rows_of (found_of matches.now)))) }
{
    match word_if(matches, WINDOW) {
        Some(word) => match window_named(word) {
            Some(window) => Ok(Some(window)),
            None => Err(WordsFault::Window),
        },
        None => Ok(None),
    }
}

/// The day of a run where the words say one.
fn day_if_said(matches: &ArgMatches<'_>) -> Result<Option<RunDay>, WordsFault>
    ensures told { IfOk result (IsNamedIf IsDayNamed (word_given (codes "today") (rows_of (found_of matches.now)))) }
    ensures refused { IfErr result (NoDay (word_given (codes "today") (rows_of (found_of matches.now)))) }
{
    match word_if(matches, "today") {
        Some(word) => match RunDay::named(word) {
            Some(day) => Ok(Some(day)),
            None => Err(WordsFault::Today),
        },
        None => Ok(None),
    }
}

/// What a conversation that begins is asked for.
fn new_talk_of<'a>(matches: &ArgMatches<'a>) -> Result<TalkWords<'a>, WordsFault>
    ensures told { IfOk result (IsTalk (rows_of (found_of matches.now))) }
    ensures refused { IfErr result (NewTalkRefused (rows_of (found_of matches.now))) }
{
    Ok(TalkWords {
        budget: number_if(matches, "budget"),
        limit: limit_of(matches)?,
        day: day_if_said(matches)?,
        tables: run_outcomes(matches)?,
        page: page_of(matches)?,
    })
}

/// The options that are given again when a conversation goes on.
fn repeated_of<'a>(matches: &ArgMatches<'a>) -> Result<RepeatedWords<'a>, WordsFault>
    ensures told { IfOk result (IsRepeated (rows_of (found_of matches.now))) }
    ensures refused { IfErr result (RepeatedRefused (rows_of (found_of matches.now))) }
{
    Ok(RepeatedWords {
        budget: number_if(matches, "budget"),
        limit: limit_if_said(matches)?,
        day: day_if_said(matches)?,
        page: page_of(matches)?,
        rehearse: is_set(matches, REHEARSE),
        save: save_of(matches),
    })
}

/// Whether a conversation begins or goes on, and the options for it.
fn talk_of<'a>(matches: &ArgMatches<'a>) -> Result<TalkAsked<'a>, WordsFault>
    ensures told { IfOk result (IsTalkAsked (rows_of (found_of matches.now))) }
    ensures refused { IfErr result (TalkRefused (rows_of (found_of matches.now))) }
{
    if is_set(matches, CONTINUE) {
        return match repeated_of(matches) {
            Ok(repeated) => Ok(TalkAsked::GoesOn(repeated)),
            Err(fault) => Err(fault),
        };
    }
    match new_talk_of(matches) {
        Ok(talk) => Ok(TalkAsked::Begins(talk)),
        Err(fault) => Err(fault),
    }
}

/// How a conversation is shown.
fn shown_of<'a>(matches: &ArgMatches<'a>) -> Result<ShownWords<'a>, WordsFault>
    ensures told { IfOk result (IsShown (rows_of (found_of matches.now))) }
    ensures refused { IfErr result (NoWindow (word_given (codes "window") (rows_of (found_of matches.now)))) }
{
    Ok(ShownWords {
        window: window_of(matches)?,
        plain: is_set(matches, PLAIN),
        screens: screens_of(matches),
    })
}

/// What the words of `operate` ask for.
pub(crate) fn operate_of<'a>(matches: &ArgMatches<'a>) -> Result<OperateWords<'a>, WordsFault>
    ensures told { IfOk result (IsOperate (rows_of (found_of matches.now))) }
    ensures refused { IfErr result (OperateRefused (rows_of (found_of matches.now))) }
{
    let code = word_of(matches, FILE)?;
    let journal = word_of(matches, JOURNAL)?;
    let shown = shown_of(matches)?;
    match talk_of(matches) {
        Ok(talk) => Ok(OperateWords {
            code,
            journal,
            talk,
            shown,
        }),
        Err(fault) => Err(fault),
    }
}
