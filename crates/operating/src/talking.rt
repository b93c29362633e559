//! Runs of accepted code that ask an operator for lines.

ghost use Rattle.std.specs.Prelude.{◌≡◌, ◌≤◌, true, Option, length, IfErr, IfOk, OnErr, OnOk};
ghost use Rattle.calendar.specs.declared.day.DayParts.{DayParts};
ghost use Rattle.machine.specs.Showing.{shown_next};
ghost use Rattle.machine.specs.Twins.{Twin};
ghost use Rattle.operating.specs.Answers.{AnswersKept, AnythingBreaks, BrokeOff, LastUnkept, OperatorBreaks};
ghost use Rattle.operating.specs.Asking.{field_wanted as field_wanted_of};
ghost use Rattle.operating.specs.Talks.{ComesTo, IsCounted, IsNearer, Talked, TookLine, Turned};
ghost use Rattle.run_steps.specs.Shapes.{StoreFits};
ghost use Rattle.run_steps.specs.World.{World};
ghost use Rattle.text_lines.specs.Lines.{is_ended as is_ended_text, is_out, short_lines};
ghost use Rattle.work_area.specs.Areas.{StoreState};

use crate::asking::field_wanted;
use crate::operator::{Answer, Broken, Operator, Scene};
use crate::pieces::{Piece, take_piece};
use crate::silence::run_out;
use calendar::Day;
use key_lists::KeyList;
use line_journal::{Journal, NotKept, keep};
use machine::{Banks, banks_go_on};
use run_laws::laws::{lines_behind_change_no_step, pieces_make_the_whole};
use run_steps::Outcome;
use std::alloc::{AllocError, Global};
use text_lines::laws::texts_join_at_line_ends;
use text_lines::{TypedLines, is_ended};
use work_area::Store;
use xverify::Verified;

/// The most bytes that all lines of a conversation have together, each with its LF: 1 MiB, the most that a run is
/// given.
pub const MOST_TYPED: usize = 1_048_576;

/// The same of lines that were given to a run at once, whose last one may have no end. It is typed with one: LF, or a
/// return and LF where the line ends with a return, since a return just before LF is no part of a line.
pub const MOST_GIVEN: usize = MOST_TYPED + 2;

/// What a turn of the conversation leads to.
#[derive(Clone, Copy)]
pub(crate) enum Turn {
    /// The run ended so.
    Over(Outcome),
    /// It goes on behind steps of this cost and so many bytes of lines.
    On { steps: u64, used: usize },
}

/// What an operator sees where the banks stand.
fn view_of<'a, K: KeyList>(verified: &'a Verified, banks: &'a Banks<K>) -> Scene<'a> {
    Scene {
        code: verified.code(),
        screen: banks.screen(),
        place: banks.place(),
        shown: None,
        field: None,
    }
}

/// What an operator sees at a marked place: also where the next instruction shows a value.
fn marked_view<'a, K: KeyList>(verified: &'a Verified, banks: &'a Banks<K>) -> Scene<'a>
    requires { (w : World) × Twin verified.now w banks.now }
    ensures { (w : World) → Twin verified.now w banks.now → result.shown ≡ shown_next verified.now w }
{
    let mut view = view_of(verified, banks);
    view.shown = banks.next_shown(verified);
    view
}

/// What an operator sees who is asked for a line: also the field in which its value is stored.
fn asking_view<'a, K: KeyList>(verified: &'a Verified, banks: &'a Banks<K>) -> Scene<'a>
    ensures { result.field ≡ field_wanted_of verified.now banks.now.env.store banks.now.place }
{
    let mut view = view_of(verified, banks);
    view.field = field_wanted(verified.code(), banks.store(), banks.place());
    view
}

/// Asks for a line, keeps it and gives it to the banks, where none is left. Answers how many bytes all lines have then,
/// or none where the input ended.
fn take_one<J: Journal, O: Operator, K: KeyList>(
    verified: &Verified,
    journal: &mut J,
    operator: &mut O,
    banks: &mut Banks<K>,
    used: usize,
    most: usize,
) -> Result<Option<usize>, Broken>
    requires out { is_out banks.old.env.lines ≡ true }
    requires few { used ≤ most }
    requires counted { used ≡ length (J.holds journal.old) }
    ensures took { IfOk result (λ longer. TookLine (J.holds journal.old) banks.old used most longer
        (J.holds journal.new) banks.new) }
    ensures few { length (J.holds journal.new) ≤ most }
    ensures kept { OnOk result (AnswersKept (O.answered operator.old) (O.answered operator.new)
        (J.holds journal.old) (J.holds journal.new)) }
    ensures unkept { OnErr result (LastUnkept (O.answered operator.old) (O.answered operator.new)
        (J.holds journal.old) (J.holds journal.new)) }
    ensures unfailed { OnOk result (J.failed journal.new ≡ J.failed journal.old) }
    ensures broke { IfErr result (BrokeOff (J.failed journal.old) (J.failed journal.new)) }
    ensures cause { AnythingBreaks result (O.failure operator.old) (O.failure operator.new) }
{
    let room = most - used;
    let line = match operator.ask(&asking_view(verified, banks), room)? {
        Answer::Line(line) => line,
        Answer::End => return Ok(None),
    };
    let bytes = line.len();
    if bytes >= room || line.contains(&b'\n') {
        return Err(Broken::Line);
    }
    match keep(journal, line) {
        Ok(kept) => banks.take_line(kept),
        Err(NotKept::Journal) => return Err(Broken::Journal),
        Err(NotKept::Memory) => return Err(Broken::Memory),
    }
    Ok(Some(used + bytes + 1))
}

/// Shows an operator what stands at a marked place.
pub(crate) fn show<O: Operator, K: KeyList>(
    verified: &Verified,
    operator: &mut O,
    banks: &Banks<K>,
) -> Result<(), Broken>
    requires { (w : World) × Twin verified.now w banks.now }
    ensures untold { O.answered operator.new ≡ O.answered operator.old }
    ensures cause { OperatorBreaks result (O.failure operator.old) (O.failure operator.new) }
{
    Ok(operator.see(&marked_view(verified, banks))?)
}

/// Tells an operator of an empty line behind the end of the input.
pub(crate) fn miss<O: Operator, K: KeyList>(
    verified: &Verified,
    operator: &mut O,
    banks: &Banks<K>,
) -> Result<(), Broken>
    ensures untold { O.answered operator.new ≡ O.answered operator.old }
    ensures cause { OperatorBreaks result (O.failure operator.old) (O.failure operator.new) }
{
    Ok(operator.miss(&view_of(verified, banks))?)
}

/// Shows an operator where the run ended.
fn close<O: Operator, K: KeyList>(
    verified: &Verified,
    operator: &mut O,
    banks: &Banks<K>,
) -> Result<(), Broken>
    ensures untold { O.answered operator.new ≡ O.answered operator.old }
    ensures cause { OperatorBreaks result (O.failure operator.old) (O.failure operator.new) }
{
    Ok(operator.end(&view_of(verified, banks))?)
}

/// Takes a line where none is left, and goes on behind it; where the input ended, the run goes on to its end.
fn answer<J: Journal, O: Operator, K: KeyList>(
    alloc: Global,
    verified: &Verified,
    marks: &[bool],
    journal: &mut J,
    operator: &mut O,
    banks: &mut Banks<K>,
    budget: u64,
    steps: u64,
    used: usize,
    most: usize,
) -> Result<Turn, Broken>
    requires within { steps ≤ budget }
    requires few { used ≤ most }
    requires counted { used ≡ length (J.holds journal.old) }
    requires out { is_out banks.old.env.lines ≡ true }
    requires talked { (store : StoreState) × (today : Option DayParts)
        × Talked verified.now store today (J.holds journal.old) steps banks.old }
    ensures turned { IfOk result (λ turn. (store : StoreState) (today : Option DayParts)
        → Talked verified.now store today (J.holds journal.old) steps banks.old
        → Turned verified.now store today (J.holds journal.new) budget turn banks.new) }
    ensures nearer { IfOk result (IsNearer budget most steps used) }
    ensures counted { IfOk result (IsCounted (length (J.holds journal.new))) }
    ensures few { length (J.holds journal.new) ≤ most }
    ensures kept { OnOk result (AnswersKept (O.answered operator.old) (O.answered operator.new)
        (J.holds journal.old) (J.holds journal.new)) }
    ensures unkept { OnErr result (LastUnkept (O.answered operator.old) (O.answered operator.new)
        (J.holds journal.old) (J.holds journal.new)) }
    ensures unfailed { OnOk result (J.failed journal.new ≡ J.failed journal.old) }
    ensures broke { IfErr result (BrokeOff (J.failed journal.old) (J.failed journal.new)) }
    ensures cause { AnythingBreaks result (O.failure operator.old) (O.failure operator.new) }
{
    banks_go_on(verified);
    lines_behind_change_no_step();
    texts_join_at_line_ends();
    let taken = take_one(verified, journal, operator, banks, used, most)?;
    match taken {
        Some(longer) => Ok(Turn::On {
            steps,
            used: longer,
        }),
        None => {
            let outcome = run_out(alloc, verified, marks, operator, banks, budget, steps)?;
            Ok(Turn::Over(outcome))
        }
    }
}

/// One turn of the conversation. The run goes on to where it ends, waits, stands at a marked place, or has gone on for
/// as much as the operator said. Then the operator is asked or shown what stands there.
fn take_turn<J: Journal, O: Operator, K: KeyList>(
    alloc: Global,
    verified: &Verified,
    marks: &[bool],
    journal: &mut J,
    operator: &mut O,
    banks: &mut Banks<K>,
    budget: u64,
    steps: u64,
    used: usize,
    most: usize,
) -> Result<Turn, Broken>
    requires within { steps ≤ budget }
    requires few { used ≤ most }
    requires counted { used ≡ length (J.holds journal.old) }
    requires talked { (store : StoreState) × (today : Option DayParts)
        × Talked verified.now store today (J.holds journal.old) steps banks.old }
    ensures turned { IfOk result (λ turn. (store : StoreState) (today : Option DayParts)
        → Talked verified.now store today (J.holds journal.old) steps banks.old
        → Turned verified.now store today (J.holds journal.new) budget turn banks.new) }
    ensures nearer { IfOk result (IsNearer budget most steps used) }
    ensures counted { IfOk result (IsCounted (length (J.holds journal.new))) }
    ensures few { length (J.holds journal.new) ≤ most }
    ensures kept { OnOk result (AnswersKept (O.answered operator.old) (O.answered operator.new)
        (J.holds journal.old) (J.holds journal.new)) }
    ensures unkept { OnErr result (LastUnkept (O.answered operator.old) (O.answered operator.new)
        (J.holds journal.old) (J.holds journal.new)) }
    ensures unfailed { OnOk result (J.failed journal.new ≡ J.failed journal.old) }
    ensures broke { IfErr result (BrokeOff (J.failed journal.old) (J.failed journal.new)) }
    ensures cause { AnythingBreaks result (O.failure operator.old) (O.failure operator.new) }
{
    pieces_make_the_whole();
    let left = budget - steps;
    let part = operator.hear(steps, budget);
    match take_piece(alloc, verified, marks, banks, left, part) {
        Piece::Ended(last) => Ok(Turn::Over(Outcome {
            end: last.end,
            steps: steps + last.steps,
        })),
        Piece::Spent(more) => Ok(Turn::On {
            steps: steps + more,
            used,
        }),
        Piece::Marked(more) => {
            show(verified, operator, banks)?;
            Ok(Turn::On {
                steps: steps + more,
                used,
            })
        }
        Piece::Waits(more) => answer(
            alloc,
            verified,
            marks,
            journal,
            operator,
            banks,
            budget,
            steps + more,
            used,
            most,
        ),
    }
}

/// The whole conversation, from the beginning of a run to its end.
fn take_turns<J: Journal, O: Operator, K: KeyList>(
    alloc: Global,
    verified: &Verified,
    marks: &[bool],
    journal: &mut J,
    operator: &mut O,
    banks: &mut Banks<K>,
    budget: u64,
    used: usize,
    most: usize,
) -> Result<Outcome, Broken>
    requires few { used ≤ most }
    requires counted { used ≡ length (J.holds journal.old) }
    requires talked { (store : StoreState) × (today : Option DayParts)
        × Talked verified.now store today (J.holds journal.old) 0 banks.old }
    ensures comes_to { IfOk result (λ outcome. (store : StoreState) (today : Option DayParts)
        → Talked verified.now store today (J.holds journal.old) 0 banks.old
        → ComesTo verified.now store today (J.holds journal.new) budget outcome banks.new) }
    ensures few { length (J.holds journal.new) ≤ most }
    ensures kept { OnOk result (AnswersKept (O.answered operator.old) (O.answered operator.new)
        (J.holds journal.old) (J.holds journal.new)) }
    ensures unkept { OnErr result (LastUnkept (O.answered operator.old) (O.answered operator.new)
        (J.holds journal.old) (J.holds journal.new)) }
    ensures unfailed { OnOk result (J.failed journal.new ≡ J.failed journal.old) }
    ensures broke { IfErr result (BrokeOff (J.failed journal.old) (J.failed journal.new)) }
    ensures cause { AnythingBreaks result (O.failure operator.old) (O.failure operator.new) }
{
    let mut steps = 0;
    let mut used = used;
    loop {
        let turned = take_turn(
            alloc, verified, marks, journal, operator, banks, budget, steps, used, most,
        )?;
        match turned {
            Turn::Over(outcome) => return Ok(outcome),
            Turn::On {
                steps: more,
                used: longer,
            } => {
                steps = more;
                used = longer;
            }
        }
    }
}

/// Tells the operator that the run begins. Answers which places are marked.
fn begin<O: Operator>(verified: &Verified, operator: &mut O) -> Result<Vec<bool>, Broken>
    ensures untold { O.answered operator.new ≡ O.answered operator.old }
    ensures cause { OperatorBreaks result (O.failure operator.old) (O.failure operator.new) }
{
    Ok(operator.begin(verified.code())?)
}

/// All lines of a text.
pub fn typed(alloc: Global, bytes: &[u8]) -> Result<TypedLines, AllocError>
    ensures { IfOk result (λ lines. lines ≡ short_lines bytes.now) }
{
    Ok(TypedLines::new(Vec::from_slice(alloc, bytes)?))
}

/// The banks from which a run over these lines begins.
fn begun<K: KeyList>(
    alloc: Global,
    verified: &Verified,
    store: Store<K>,
    today: Day,
    handed: &[u8],
) -> Result<Banks<K>, AllocError>
    requires fits { StoreFits verified.now.declared store }
    requires ended { is_ended_text handed.now ≡ true }
    ensures { IfOk result (Talked verified.now store today handed.now 0) }
{
    banks_go_on(verified);
    let lines = typed(alloc, handed)?;
    Banks::opening(alloc, verified, store, today, lines)
}

/// Whether a conversation can go on behind these bytes: whole lines, of at most so many bytes together.
pub fn can_go_on(handed: &[u8], most: usize) -> bool
    ensures ended { result ≡ true → is_ended_text handed.now ≡ true }
    ensures few { result ≡ true → length handed.now ≤ most }
    ensures only { is_ended_text handed.now ≡ true → length handed.now ≤ most → result ≡ true }
{
    if handed.len() > most {
        return false;
    }
    is_ended(handed)
}

/// A conversation whose run ended: where, and how.
#[derive(Drop)]
pub struct EndedTalk<K: KeyList> {
    pub banks: Banks<K>,
    pub outcome: Outcome,
}

/// Runs an accepted code over tables of the declared structures while an operator types its lines. It begins with the
/// lines that the journal holds, and goes on with those that the operator answers: each is kept in the journal before
/// the run sees it. Behind the end of the input each further line is empty. The run ends as that over all lines that
/// the journal holds then: at the same cost, with the same screen and tables. Whether the budget is spent is judged
/// before a line is asked for. All lines together have at most so many bytes, each with its LF: one that would pass
/// that isn't taken. Where the conversation breaks off, the last line that was answered may be missing in the journal.
///
/// # Errors
/// The operator or the journal failed, or a line isn't one, or memory was refused: before the run began, for a line, or
/// to the operator. If the operator failed, the error is the one that his failure makes; `Broken::Operator` comes only
/// then. `Broken::Journal` comes only if the journal failed and counted that.
pub fn converse<J: Journal, O: Operator, K: KeyList>(
    alloc: Global,
    verified: &Verified,
    store: Store<K>,
    today: Day,
    handed: &[u8],
    journal: &mut J,
    operator: &mut O,
    budget: u64,
    most: usize,
) -> Result<EndedTalk<K>, Broken>
    requires fits { StoreFits verified.now.declared store }
    requires held { J.holds journal.old ≡ handed.now }
    requires ended { is_ended_text handed.now ≡ true }
    requires few { length (J.holds journal.old) ≤ most }
    ensures comes_to { IfOk result (λ talk. ComesTo verified.now store today (J.holds journal.new) budget talk.outcome
        talk.banks) }
    ensures few { length (J.holds journal.new) ≤ most }

    // What the journal holds then is what it held before, with the lines that were answered behind it, and no more.
    ensures kept { OnOk result (AnswersKept (O.answered operator.old) (O.answered operator.new)
        (J.holds journal.old) (J.holds journal.new)) }
    ensures unkept { OnErr result (LastUnkept (O.answered operator.old) (O.answered operator.new)
        (J.holds journal.old) (J.holds journal.new)) }
    ensures unfailed { OnOk result (J.failed journal.new ≡ J.failed journal.old) }
    ensures broke { IfErr result (BrokeOff (J.failed journal.old) (J.failed journal.new)) }
    ensures cause { AnythingBreaks result (O.failure operator.old) (O.failure operator.new) }
{
    let marks = begin(verified, operator)?;
    let mut banks = begun(alloc, verified, store, today, handed)?;
    let outcome = take_turns(
        alloc,
        verified,
        marks.as_slice(),
        journal,
        operator,
        &mut banks,
        budget,
        handed.len(),
        most,
    )?;
    close(verified, operator, &banks)?;
    Ok(EndedTalk { banks, outcome })
}
