// The words of the command line.
#![tactic(auto)]

ghost use Rattle.std.specs.Prelude.{◌≡◌, ◌∷◌, ◌++◌, ℕ, true, List, IfOk, IfErr, Some, [], codes, map, unwrap_or};
ghost use Rattle.std.specs.Option.{option_map};
ghost use Rattle.clap.specs.Matches.{found_of};
ghost use Rattle.clap.specs.Simple.{app_of, subcommand_rows_of, with_rule};
ghost use Rattle.clap.specs.Walk.{rows_of, rule_of};
ghost use Rattle.run_commands.specs.Days.{IsDayNamed};
ghost use Rattle.command_words.specs.Asked.{lent, IsNumberIf, IsNumberOr, IsPageNamed, IsPageIfKnown, IsJob};
ghost use Rattle.command_words.specs.Asked.{IsSave, AreOutcomes, IsListAsked, AsksFor, Asks};
ghost use Rattle.command_words.specs.Refused.{Lacks, NoDay, NoLimit, NoPage, SavesToo, JobRefused, RunRefused};
ghost use Rattle.command_words.specs.Refused.{ListingRefused, RefusedBehind, RefusesWords};
ghost use Rattle.command_words.specs.CommandLine.{needed_word, needed_words, flag_word, valued_word, taking, alone};
ghost use Rattle.command_words.specs.CommandLine.{file_word, budget_word, limit_word};
ghost use Rattle.command_words.specs.CommandLine.{run_words, save_words, no_commands, program as the_program};
ghost use Rattle.command_words.specs.Made.{AddsMade, IsPlainCommand};
ghost use Rattle.command_words.specs.Said.{has_flag, sources_said, word_given};

use crate::operate_words::{OperateWords, operate_of, operator, screens, screens_of};
use clap::{Arg, ArgAction, ArgMatches, Command, value_parser};
use code_pages::CodePage;
use run_commands::{Job, RecordLimit, RunDay};
use save_rules::Overwritten;
use std::alloc::{AllocError, Global};

/// How much a run may cost where the words don't say.
pub const DEFAULT_BUDGET: u64 = 1_000_000;

/// The day of a run where the words don't say.
const DEFAULT_DAY: &str = "1985-01-01";

/// Why words that the parser took don't say what to do.
#[derive(Clone, Copy)]
pub enum WordsFault {
    /// The day of a run isn't one of the years 1900 to 2155, or isn't written as YYYY-MM-DD.
    Today,
    /// The most records of a table isn't one of 1 to 1,000,000.
    Limit,
    /// The code page of --from isn't known.
    Page,
    /// The code page that the environment names isn't known.
    PageVariable,
    /// A word is missing.
    Missing,
    /// The folder for copies is neither absent nor empty.
    Backup,
    /// The code file would overwrite another file.
    Out(Overwritten),
    /// The journal would overwrite another file, or is none of the folder's.
    Journal,
    /// The file for screens would overwrite another file, or is none of the folder's.
    Screens,
    /// The size of a window isn't written as ROWSxCOLUMNS.
    Window,
    /// A rehearsal is told how to save.
    Rehearsed,
    /// The day is to be the computer's, and that isn't known.
    Zone,
    /// Memory was refused while the environment was read.
    Memory,
}

/// On which terms the tables of a run are saved.
#[derive(Clone, Copy)]
pub struct SaveWords<'a> {
    /// Whether only those of a finished run are.
    pub only_finished: bool,
    /// The folder to which all that is replaced is copied first.
    pub backup: Option<&'a str>,
    /// Whether new files may have another owner than the old ones.
    pub new_owner: bool,
    /// Whether they are saved where the file system knows no locks.
    pub no_lock: bool,
    /// Whether files stay as they are whose records the run didn't change.
    pub keep_unchanged: bool,
}

/// What becomes of the tables that a run leaves.
#[derive(Clone, Copy)]
pub enum Outcomes<'a> {
    /// Nothing.
    Nothing,
    /// What would be saved is told.
    Told,
    /// They are saved.
    Saved(SaveWords<'a>),
}

/// What a run is asked for.
#[derive(Clone, Copy)]
pub struct RunWords<'a> {
    /// The run; nothing is typed yet.
    pub job: Job<'a>,
    /// Whether its day is the one that counts if no other is given.
    pub day_left_out: bool,
    pub tables: Outcomes<'a>,
    /// The file to which the screens before each line and the last one are written.
    pub screens: Option<&'a str>,
}

/// How a table is listed.
#[derive(Clone, Copy)]
pub struct Listing<'a> {
    /// The table's file.
    pub name: &'a str,
    /// Whether as comma-separated values.
    pub csv: bool,
    /// What its bytes stand for; they are printed as they stand where the words don't say.
    pub page: Option<CodePage>,
}

/// What the words ask for. A file is named as in the current folder.
#[derive(Clone, Copy)]
pub enum Words<'a> {
    /// Compile command files, with these declarations, to this code file.
    Compile { decl: &'a str, out: &'a str },
    /// List the faults of a declaration file and of command files.
    Faults { decl: &'a str },
    /// Run a code file.
    Run(RunWords<'a>),
    /// Run a code file in conversation.
    Operate(OperateWords<'a>),
    /// Say whether a code file is accepted.
    Verify { name: &'a str },
    /// List a code file.
    Code { name: &'a str },
    /// List a table.
    List(Listing<'a>),
    /// List an index file.
    Index { name: &'a str },
    /// Print the declaration file of the folder.
    Declare,
    /// Take away a save that was cut off.
    Forget { no_lock: bool },
}

/// The version of all that stands in this repository.
const VERSION: &str = "0.9.0";

/// An example session, and the exit statuses.
const FURTHER: &str = "Example:
  dbrun compile FIRM.DCL DAY.XBC DAY.PRG ENTRY.PRG POST.PRG REPORT.PRG REORDER.PRG PRICES.PRG
  dbrun run DAY.XBC --rehearse < day.txt
  dbrun run DAY.XBC --today 1985-01-15 < day.txt
  dbrun list ORDERS.DBF

A run that ends early, with status 3, 4 or 5, saves what it did until then; see dbrun run --help.

Exit status:
  0  finished, accepted, listed or written
  1  wrong arguments, or help was printed
  2  a file was refused
  3  spent: the budget was exhausted
  4  full: a table reached its record limit
  5  memory: an allocation failed
  6  disk: a device or standard output failed, another run holds the folder, or the command only completed the
     interrupted save of an earlier run
  7  fault: check-run stopped at a run-time fault";

/// What `run` says of runs that end early, and an example.
const RUN_FURTHER: &str = "\
A run that ends early, because the budget is spent, a table is full or memory is refused during the run, saves what it
did until then. --only-finished saves nothing in that case, --rehearse saves nothing at all, and --backup keeps
the old files. The budget counts steps, not seconds: use timeout 60 dbrun run .. to bound the time.

Example (after compile): dbrun run DAY.XBC --today 1985-01-15 < day.txt";

/// The words that name files.
pub(crate) const FILE: &str = "FILE";

const DECLARATIONS: &str = "DECL";

const OUT: &str = "OUT";

const SOURCES: &str = "MAIN";

/// The words that say what becomes of a run's tables.
pub(crate) const REHEARSE: &str = "rehearse";

const CHANGES: &str = "changes";

const ONLY_FINISHED: &str = "only-finished";

const BACKUP: &str = "backup";

const NEW_OWNER: &str = "new-owner";

const NO_LOCK: &str = "no-lock";

const KEEP_UNCHANGED: &str = "keep-unchanged";

/// A command with a word more.
pub(crate) fn with_word<'a>(command: Command<'a>, word: Arg<'a>) -> Result<Command<'a>, AllocError>
    requires { (rule_of word).is_simple ≡ true }
    ensures { IfOk result (λ c. app_of c ≡ with_rule (app_of command.entry) (rule_of word.entry)) }
{
    command.arg(word)
}

/// A command of which help tells what it does, with an example.
fn made<'a>(alloc: Global, name: &'a str, about: &'a str, example: &'a str) -> Command<'a>
    ensures { app_of result ≡ alone (taking name.entry.now []) }
{
    Command::new(alloc, name).about(about).after_help(example)
}

fn reader<'a>(
    alloc: Global,
    name: &'a str,
    about: &'a str,
    sort: &'a str,
    example: &'a str,
) -> Result<Command<'a>, AllocError>
    ensures { IfOk result (λ c. app_of c ≡ alone (taking name.entry.now (file_word ∷ []))) }
{
    let file = Arg::new(alloc, FILE)
        .value_name(sort)
        .required(true)
        .help("The file, in the current folder");
    with_word(made(alloc, name, about, example), file)
}

/// A word with another behind it, which help calls so.
pub(crate) fn valued<'a>(alloc: Global, name: &'a str, sort: &'a str, help: &'a str) -> Arg<'a>
    ensures { rule_of result ≡ valued_word name.entry.now }
{
    Arg::new(alloc, name).long(name).value_name(sort).help(help)
}

/// The word that names the code page of a table's texts.
pub(crate) fn page<'a>(alloc: Global, help: &'a str) -> Arg<'a>
    ensures { rule_of result ≡ valued_word (codes "from") }
{
    valued(alloc, "from", "PAGE", help)
}

fn lister<'a>(alloc: Global) -> Result<Command<'a>, AllocError>
    ensures { IfOk result (λ c. app_of c
        ≡ alone (taking (codes "list") (file_word ∷ flag_word (codes "csv") ∷ valued_word (codes "from") ∷ []))) }
{
    let command = reader(
        alloc,
        "list",
        "Prints the records of a table",
        "TABLE",
        "Example: dbrun list CUST.DBF --csv --from cp437",
    )?;
    let csv = flag(
        alloc,
        "csv",
        "Prints comma-separated values; a first column DELETED has the deletion marks",
    );
    let command = with_word(command, csv)?;
    with_word(
        command,
        page(
            alloc,
            "The code page of the table's texts, cp437 or cp850; prints UTF-8 (with --csv, left out: DBRUN_PAGE)",
        ),
    )
}

/// What help says of a run's budget and its day.
pub(crate) struct RunHelp<'a> {
    pub(crate) budget: &'a str,
    pub(crate) today: &'a str,
}

/// What it says of runs that take all lines beforehand.
const HELP: RunHelp<'static> = RunHelp {
    budget: "The most that the run may cost, below 2^64 (default: 1000000)",
    today: "The date of the run, in the years 1900 to 2155 (default: 1985-01-01)",
};

fn budget<'a>(alloc: Global, help: &'a str) -> Arg<'a>
    ensures { rule_of result ≡ budget_word }
{
    valued(alloc, "budget", "N", help).value_parser(value_parser!(u64))
}

fn limit<'a>(alloc: Global) -> Arg<'a>
    ensures { rule_of result ≡ limit_word }
{
    valued(
        alloc,
        "limit",
        "N",
        "The most records that a table may have, 1 to 1000000 (default: 1000000)",
    )
    .value_parser(value_parser!(u32))
}

/// The words of all runs.
pub(crate) fn runner<'a>(
    alloc: Global,
    name: &'a str,
    about: &'a str,
    example: &'a str,
    help: &RunHelp<'a>,
) -> Result<Command<'a>, AllocError>
    ensures { IfOk result (λ c. app_of c ≡ alone (taking name.entry.now run_words)) }
{
    let command = reader(alloc, name, about, "CODE", example)?;
    let command = with_word(command, budget(alloc, help.budget))?;
    let command = with_word(command, limit(alloc))?;
    with_word(command, valued(alloc, "today", "YYYY-MM-DD", help.today))
}

/// A word that is there or not.
pub(crate) fn flag<'a>(alloc: Global, name: &'a str, help: &'a str) -> Arg<'a>
    ensures { rule_of result ≡ flag_word name.entry.now }
{
    Arg::new(alloc, name)
        .long(name)
        .action(ArgAction::SetTrue)
        .help(help)
}

/// The words that say what becomes of a run's tables, behind those of the run.
pub(crate) fn saver<'a>(alloc: Global, command: Command<'a>) -> Result<Command<'a>, AllocError>
    ensures { (name : List ℕ) → app_of command.entry ≡ alone (taking name run_words)
        → IfOk result (λ c. app_of c ≡ alone (taking name (run_words ++ save_words))) }
{
    let rehearse = flag(
        alloc,
        REHEARSE,
        "Saves nothing, and reports what a run would save (a dry run)",
    );
    let only_finished = flag(alloc, ONLY_FINISHED, "Saves only if the run finished");
    let backup = valued(
        alloc,
        BACKUP,
        "FOLDER",
        "Copies the files to be replaced to this folder first (new, empty, or left by an interrupted run)",
    );
    let new_owner = flag(
        alloc,
        NEW_OWNER,
        "Lets new files be yours if the owner or group of the old ones can't be kept",
    );
    let no_lock = flag(
        alloc,
        NO_LOCK,
        "Saves on a file system without locks; dbrun.lock keeps other runs out meanwhile",
    );
    let keep_unchanged = flag(
        alloc,
        KEEP_UNCHANGED,
        "Replaces only files whose records or keys the program changed",
    );
    let command = with_word(command, rehearse)?;
    let command = with_word(command, only_finished)?;
    let command = with_word(command, backup)?;
    let command = with_word(command, new_owner)?;
    let command = with_word(command, no_lock)?;
    with_word(command, keep_unchanged)
}

fn forgetter<'a>(alloc: Global) -> Result<Command<'a>, AllocError>
    ensures { IfOk result (λ c. app_of c ≡ alone (taking (codes "forget") (flag_word (codes "no-lock") ∷ []))) }
{
    let command = made(
        alloc,
        "forget",
        "Discards an interrupted save: removes its new files and dbrun.lock, and changes no table",
        "Example: dbrun forget",
    );
    with_word(
        command,
        flag(alloc, NO_LOCK, "For a file system without locks"),
    )
}

/// A word that must be there.
fn given<'a>(alloc: Global, name: &'a str, help: &'a str) -> Arg<'a>
    ensures { rule_of result ≡ needed_word name.entry.now }
{
    Arg::new(alloc, name).required(true).help(help)
}

/// The word that names the declaration file.
fn declarations<'a>(alloc: Global) -> Arg<'a>
    ensures { rule_of result ≡ needed_word (codes "DECL") }
{
    given(
        alloc,
        DECLARATIONS,
        "The file that declares tables and indexes",
    )
}

/// The words that name command files.
fn sources<'a>(alloc: Global) -> Arg<'a>
    ensures { rule_of result ≡ needed_words (codes "MAIN") }
{
    given(alloc, SOURCES, "The command files, main file first").num_args(1..)
}

fn compiler<'a>(alloc: Global) -> Result<Command<'a>, AllocError>
    ensures { IfOk result (λ c. app_of c ≡ alone (taking (codes "compile")
        (needed_word (codes "DECL") ∷ needed_word (codes "OUT") ∷ needed_words (codes "MAIN") ∷ []))) }
{
    let command = made(
        alloc,
        "compile",
        "Compiles command files to a code file",
        "Example: dbrun compile FIRM.DCL DAY.XBC DAY.PRG ENTRY.PRG POST.PRG REPORT.PRG REORDER.PRG PRICES.PRG",
    );
    let command = with_word(command, declarations(alloc))?;
    let command = with_word(command, given(alloc, OUT, "The code file that is written"))?;
    with_word(command, sources(alloc))
}

fn checker<'a>(alloc: Global) -> Result<Command<'a>, AllocError>
    ensures { IfOk result (λ c. app_of c
        ≡ alone (taking (codes "faults") (needed_word (codes "DECL") ∷ needed_words (codes "MAIN") ∷ []))) }
{
    let command = made(
        alloc,
        "faults",
        "Lists all faults of DECL and of the command files, and writes nothing",
        "Example: dbrun faults FIRM.DCL DAY.PRG ENTRY.PRG POST.PRG REPORT.PRG REORDER.PRG PRICES.PRG",
    );
    let command = with_word(command, declarations(alloc))?;
    with_word(command, sources(alloc))
}

/// The words of a run that saves.
fn saving_runner<'a>(alloc: Global) -> Result<Command<'a>, AllocError>
    ensures { IfOk result (λ c. app_of c
        ≡ alone (taking (codes "run") (run_words ++ save_words ++ valued_word (codes "screens") ∷ []))) }
{
    let run = runner(
        alloc,
        "run",
        "Verifies and runs a code file, then saves all its tables or none, even if it ends early",
        RUN_FURTHER,
        &HELP,
    )?;
    with_word(saver(alloc, run)?, screens(alloc))
}

/// The words of a run of any code.
fn testing_runner<'a>(alloc: Global) -> Result<Command<'a>, AllocError>
    ensures { IfOk result (λ c. app_of c
        ≡ alone (taking (codes "check-run") (run_words ++ flag_word (codes "changes") ∷ []))) }
{
    let run = runner(
        alloc,
        "check-run",
        "Runs any code file, verified or not, with run-time checks, and saves nothing",
        "Example (after compile): dbrun check-run DAY.XBC --changes < day.txt",
        &HELP,
    )?;
    with_word(run, flag(alloc, CHANGES, "Reports what a run would save"))
}

/// A command with one that was made below it.
fn with<'a>(
    command: Command<'a>,
    made: Result<Command<'a>, AllocError>,
) -> Result<Command<'a>, AllocError>
    requires { IfOk made IsPlainCommand }
    ensures { IfOk result (AddsMade command.entry made.entry) }
{
    command.subcommand(made?)
}

fn verifier<'a>(alloc: Global) -> Result<Command<'a>, AllocError>
    ensures { IfOk result (λ c. app_of c ≡ alone (taking (codes "verify") (file_word ∷ []))) }
{
    reader(
        alloc,
        "verify",
        "Reports whether the verifier accepts a code file",
        "CODE",
        "Example (after compile): dbrun verify DAY.XBC",
    )
}

fn code_lister<'a>(alloc: Global) -> Result<Command<'a>, AllocError>
    ensures { IfOk result (λ c. app_of c ≡ alone (taking (codes "code") (file_word ∷ []))) }
{
    reader(
        alloc,
        "code",
        "Prints the instructions of a code file",
        "CODE",
        "Example (after compile): dbrun code DAY.XBC",
    )
}

fn index_lister<'a>(alloc: Global) -> Result<Command<'a>, AllocError>
    ensures { IfOk result (λ c. app_of c ≡ alone (taking (codes "index") (file_word ∷ []))) }
{
    reader(
        alloc,
        "index",
        "Prints the keys of an index file",
        "INDEX",
        "Example (after run): dbrun index ORDKEY.NDX",
    )
}

fn declarer<'a>(alloc: Global) -> Command<'a>
    ensures { app_of result ≡ alone (taking (codes "declare") []) }
{
    made(
        alloc,
        "declare",
        "Prints a declaration file for the current folder, and proposes indexes that its command files name",
        "Example: dbrun declare > MADE.DCL",
    )
}

/// The commands that `dbrun` knows, and the words that each takes.
pub fn command<'a>(alloc: Global) -> Result<Command<'a>, AllocError>
    ensures { IfOk result (λ c. app_of c ≡ the_program) }
{
    let command = with(program(alloc), compiler(alloc))?;
    let command = with(command, checker(alloc))?;
    let command = with(command, saving_runner(alloc))?;
    let command = with(command, operator(alloc))?;
    let command = with(command, testing_runner(alloc))?;
    let command = with(command, verifier(alloc))?;
    let command = with(command, code_lister(alloc))?;
    let command = with(command, lister(alloc))?;
    let command = with(command, index_lister(alloc))?;
    let command = with(command, Ok(declarer(alloc)))?;
    with(command, forgetter(alloc))
}

/// The program without its commands.
fn program<'a>(alloc: Global) -> Command<'a>
    ensures { app_of result ≡ alone no_commands }
{
    Command::new(alloc, "dbrun")
        .about(
            "Compiles command files of dBASE III PLUS, runs them over tables, and lists codes, tables and indexes",
        )
        .after_help(FURTHER)
        .version(VERSION)
        .subcommand_required(true)
        .arg_required_else_help(true)
}

/// Whether a word is there that is there or not.
#[tactic(auto, using(crate::proofs::Rows::same_read))]
pub(crate) fn is_set(matches: &ArgMatches<'_>, id: &str) -> bool
    ensures { result ≡ has_flag id.now (rows_of (found_of matches.now)) }
{
    matches.get_one::<bool>(id).unwrap_or(false)
}

/// The number that a word says, if it does.
pub(crate) fn number_if(matches: &ArgMatches<'_>, id: &str) -> Option<u64>
    ensures { IsNumberIf (word_given id.now (rows_of (found_of matches.now))) result }
{
    word_if(matches, id)?.parse::<u64>().ok()
}

fn budget_of(matches: &ArgMatches<'_>) -> u64
    ensures { IsNumberOr 1000000 (word_given (codes "budget") (rows_of (found_of matches.now))) result }
{
    number_if(matches, "budget").unwrap_or(DEFAULT_BUDGET)
}

/// The most records of a table that the words say, if they do.
pub(crate) fn limit_if_said(matches: &ArgMatches<'_>) -> Result<Option<RecordLimit>, WordsFault>
    ensures told { IfOk result (IsNumberIf (word_given (codes "limit") (rows_of (found_of matches.now)))) }
    ensures refused { IfErr result (NoLimit (word_given (codes "limit") (rows_of (found_of matches.now)))) }
{
    let Some(number) = number_if(matches, "limit") else {
        return Ok(None);
    };
    if number > 1_000_000 {
        return Err(WordsFault::Limit);
    }
    match RecordLimit::of(number as u32) {
        Some(limit) => Ok(Some(limit)),
        None => Err(WordsFault::Limit),
    }
}

pub(crate) fn limit_of(matches: &ArgMatches<'_>) -> Result<RecordLimit, WordsFault>
    ensures told { IfOk result
        (IsNumberOr 1000000 (word_given (codes "limit") (rows_of (found_of matches.now)))) }
    ensures refused { IfErr result (NoLimit (word_given (codes "limit") (rows_of (found_of matches.now)))) }
{
    match limit_if_said(matches) {
        Ok(Some(limit)) => Ok(limit),
        Ok(None) => Ok(RecordLimit::most()),
        Err(fault) => Err(fault),
    }
}

#[tactic(auto, using(crate::proofs::Rows::same_word))]
fn day_of(matches: &ArgMatches<'_>) -> Result<RunDay, WordsFault>
    ensures told { IfOk result (IsDayNamed
        (unwrap_or (word_given (codes "today") (rows_of (found_of matches.now))) (codes "1985-01-01"))) }
    ensures refused { IfErr result (NoDay (Some
        (unwrap_or (word_given (codes "today") (rows_of (found_of matches.now))) (codes "1985-01-01")))) }
{
    let word = matches.get_str("today").unwrap_or(DEFAULT_DAY);
    RunDay::named(word).ok_or(WordsFault::Today)
}

/// The code page of this name, if it is one that is known.
pub fn page_named(name: &str) -> Option<CodePage>
    ensures { IsPageIfKnown name.now result }
{
    match name {
        "cp437" => Some(CodePage::Cp437),
        "cp850" => Some(CodePage::Cp850),
        _ => None,
    }
}

#[tactic(auto, using(crate::proofs::Rows::same_word))]
pub(crate) fn page_of(matches: &ArgMatches<'_>) -> Result<Option<CodePage>, WordsFault>
    ensures told { IfOk result (IsPageNamed (rows_of (found_of matches.now))) }
    ensures refused { IfErr result (NoPage (word_given (codes "from") (rows_of (found_of matches.now)))) }
{
    let Some(name) = matches.get_str("from") else {
        return Ok(None);
    };
    match page_named(name) {
        Some(page) => Ok(Some(page)),
        None => Err(WordsFault::Page),
    }
}

/// The text that the words name by this id, if they do.
#[tactic(auto, using(crate::proofs::Rows::same_word))]
pub(crate) fn word_if<'a>(matches: &ArgMatches<'a>, id: &str) -> Option<&'a str>
    ensures { lent result ≡ word_given id.now (rows_of (found_of matches.now)) }
{
    matches.get_str(id)
}

#[tactic(auto, using(crate::proofs::Rows::same_word))]
pub(crate) fn word_of<'a>(matches: &ArgMatches<'a>, id: &str) -> Result<&'a str, WordsFault>
    ensures told { IfOk result (λ word. word_given id.now (rows_of (found_of matches.now)) ≡ Some word.now) }
    ensures refused { IfErr result (Lacks (id.now ∷ []) (rows_of (found_of matches.now))) }
{
    matches.get_str(id).ok_or(WordsFault::Missing)
}

/// The run that the words of `run` or `check-run` ask for; nothing is typed yet.
fn job_of<'a>(matches: &ArgMatches<'a>, checked: bool) -> Result<Job<'a>, WordsFault>
    ensures told { IfOk result (IsJob (rows_of (found_of matches.now)) checked) }
    ensures refused { IfErr result (JobRefused (rows_of (found_of matches.now))) }
{
    Ok(Job {
        name: word_of(matches, FILE)?,
        checked,
        budget: budget_of(matches),
        limit: limit_of(matches)?,
        day: day_of(matches)?,
        input: &[],
    })
}

/// On which terms the words say that tables are saved.
pub(crate) fn save_of<'a>(matches: &ArgMatches<'a>) -> SaveWords<'a>
    ensures { IsSave (rows_of (found_of matches.now)) result }
{
    SaveWords {
        only_finished: is_set(matches, ONLY_FINISHED),
        backup: word_if(matches, BACKUP),
        new_owner: is_set(matches, NEW_OWNER),
        no_lock: is_set(matches, NO_LOCK),
        keep_unchanged: is_set(matches, KEEP_UNCHANGED),
    }
}

/// What becomes of the tables of a run that may save them.
pub(crate) fn run_outcomes<'a>(matches: &ArgMatches<'a>) -> Result<Outcomes<'a>, WordsFault>
    ensures told { IfOk result (AreOutcomes (rows_of (found_of matches.now))) }
    ensures refused { IfErr result (SavesToo (rows_of (found_of matches.now))) }
{
    let save = save_of(matches);
    if !is_set(matches, REHEARSE) {
        return Ok(Outcomes::Saved(save));
    }
    if save.only_finished || save.backup.is_some() || save.new_owner || save.keep_unchanged {
        return Err(WordsFault::Rehearsed);
    }
    Ok(Outcomes::Told)
}

/// What the words of `run` ask for.
fn run_of<'a>(matches: &ArgMatches<'a>) -> Result<Words<'a>, WordsFault>
    ensures told { IfOk result (AsksFor (codes "run") (rows_of (found_of matches.now))) }
    ensures refused { IfErr result (RunRefused (rows_of (found_of matches.now))) }
{
    let tables = run_outcomes(matches)?;
    let screens = screens_of(matches);
    match job_of(matches, false) {
        Ok(job) => Ok(Words::Run(RunWords {
            job,
            day_left_out: word_if(matches, "today").is_none(),
            tables,
            screens,
        })),
        Err(fault) => Err(fault),
    }
}

/// What the words of `check-run` ask for.
fn tested_run_of<'a>(matches: &ArgMatches<'a>) -> Result<Words<'a>, WordsFault>
    ensures told { IfOk result (AsksFor (codes "check-run") (rows_of (found_of matches.now))) }
    ensures refused { IfErr result (JobRefused (rows_of (found_of matches.now))) }
{
    let tables = if is_set(matches, CHANGES) {
        Outcomes::Told
    } else {
        Outcomes::Nothing
    };
    match job_of(matches, true) {
        Ok(job) => Ok(Words::Run(RunWords {
            job,
            day_left_out: word_if(matches, "today").is_none(),
            tables,
            screens: None,
        })),
        Err(fault) => Err(fault),
    }
}

/// How the words of `list` ask for a table.
fn listing_of<'a>(matches: &ArgMatches<'a>) -> Result<Listing<'a>, WordsFault>
    ensures told { IfOk result (IsListAsked (rows_of (found_of matches.now))) }
    ensures refused { IfErr result (ListingRefused (rows_of (found_of matches.now))) }
{
    Ok(Listing {
        name: word_of(matches, FILE)?,
        csv: is_set(matches, "csv"),
        page: page_of(matches)?,
    })
}

/// The command files that the words name, the main one first.
pub fn sources_of<'m, 'a: 'm>(matches: &'m ArgMatches<'a>) -> Option<&'m [&'a str]>
    ensures { option_map (λ s. map (λ w. w.now) s.now) result ≡ sources_said (subcommand_rows_of matches.now) }
{
    let (_, matches) = matches.subcommand()?;
    matches.get_raw(SOURCES)
}

/// What the words behind a command's name ask for.
fn words_behind<'a>(command: &str, matches: &ArgMatches<'a>) -> Result<Words<'a>, WordsFault>
    ensures asked { IfOk result (AsksFor command.now (rows_of (found_of matches.now))) }
    ensures refused { IfErr result (RefusedBehind command.now (rows_of (found_of matches.now))) }
{
    match command {
        "compile" => Ok(Words::Compile {
            decl: word_of(matches, DECLARATIONS)?,
            out: word_of(matches, OUT)?,
        }),
        "faults" => Ok(Words::Faults {
            decl: word_of(matches, DECLARATIONS)?,
        }),
        "run" => run_of(matches),
        "operate" => match operate_of(matches) {
            Ok(words) => Ok(Words::Operate(words)),
            Err(fault) => Err(fault),
        },
        "check-run" => tested_run_of(matches),
        "verify" => Ok(Words::Verify {
            name: word_of(matches, FILE)?,
        }),
        "code" => Ok(Words::Code {
            name: word_of(matches, FILE)?,
        }),
        "list" => Ok(Words::List(listing_of(matches)?)),
        "index" => Ok(Words::Index {
            name: word_of(matches, FILE)?,
        }),
        "declare" => Ok(Words::Declare),
        "forget" => Ok(Words::Forget {
            no_lock: is_set(matches, NO_LOCK),
        }),
        _ => Err(WordsFault::Missing),
    }
}

/// What the words ask for, or why they ask for nothing that can be done.
pub fn words_of<'a>(matches: &ArgMatches<'a>) -> Result<Words<'a>, WordsFault>
    ensures asked { IfOk result (Asks (subcommand_rows_of matches.now)) }
    ensures refused { IfErr result (RefusesWords (subcommand_rows_of matches.now)) }
{
    let (command, matches) = matches.subcommand().ok_or(WordsFault::Missing)?;
    words_behind(command, matches)
}
