//! Moves of the selected area's record pointer.

ghost use Rattle.std.specs.Prelude.{◌≡◌, ◌∷◌, [], ℕ, Bool, Ok, Err, MatchResult, IfSome, IsSome};
ghost use Rattle.std.specs.Fn.{FnReturnsAt};
ghost use Rattle.work_area.specs.Areas.{here, change_here};
ghost use Rattle.work_area.specs.Calls.{MovesHere, skip_of};
ghost use Rattle.open_table.specs.Open.{gone};
ghost use Rattle.open_table.specs.Tried.{MayAskRows, ShowsRows};
ghost use Rattle.code_rules.specs.Signature.{move_signature};
ghost use Rattle.code_items.specs.Legal.{IsCode};
ghost use Rattle.code_items.specs.declared.instr.Instr.TheVariants.{Moves as OfMoves};
ghost use Rattle.run_values.specs.Tagged.{TaggedValues, HasOnTop, dropped};
ghost use Rattle.xvalue.specs.declared.kind.Kind.TheVariants.{Number as OfNumber, Text as OfText};
ghost use Rattle.run_steps.specs.Effects.{top, whole_on_top, given_text, record_number};
ghost use Rattle.run_steps.specs.Executed.{Executed};
ghost use Rattle.run_steps.specs.Filters.{viewing, shown_by, filter_block, is_visible as visible, RunsOnRows};
ghost use Rattle.run_steps.specs.Needs.{FilterNeeds, FitsThere, MoveNeeds, SeekNeeds, GivenNeeds, given_of};
ghost use Rattle.run_steps.specs.RowWorks.{CanLook, IsRowWork, AreRowWorks};
ghost use Rattle.run_steps.specs.Walking.{HasWalked, HasChanged};

use crate::ending::Stop;
use crate::environment::Environment;
use crate::filtering::View;
use crate::row_works::FilterWorks;
use code_items::Code;
use code_items::instr::MoveInstr;
use key_lists::KeyList;
use open_table::Row;
use row_moves::Spent;
use run_values::Values;
use work_area::Store;
use xvalue::Kind;

/// The whole part of the number on top.
fn whole<V: Values>(values: &V) -> i128
    requires { (t : TaggedValues) × (V.stands values.now t × HasOnTop (OfNumber ∷ []) t.stack) }
    ensures { (t : TaggedValues) → V.stands values.now t → HasOnTop (OfNumber ∷ []) t.stack
        → result ≡ whole_on_top (top t) }
{
    values.top_number().whole()
}

/// The record of the whole part of the number on top; no table has one below 0 or from 2^32 on.
fn record_given<V: Values>(values: &V) -> Option<u32>
    requires { (t : TaggedValues) × (V.stands values.now t × HasOnTop (OfNumber ∷ []) t.stack) }
    ensures { (t : TaggedValues) → V.stands values.now t → HasOnTop (OfNumber ∷ []) t.stack
        → result ≡ record_number (whole_on_top (top t)) }
{
    let whole = whole(values);
    if 0 <= whole && whole < 1 << 32 {
        return Some(whole as u32);
    }
    None
}

/// The bytes of the text on top.
fn text<V: Values>(values: &V) -> &[u8]
    requires { (t : TaggedValues) × (V.stands values.now t × HasOnTop (OfText ∷ []) t.stack) }
    ensures { (t : TaggedValues) → V.stands values.entry.now t → HasOnTop (OfText ∷ []) t.stack
        → result.now ≡ given_text (top t) }
{
    values.top_text()
}

/// What a move answers of its cost.
fn settled(moved: Result<u64, Spent>) -> Result<u64, Stop>
    ensures { MatchResult moved (λ cost. result ≡ Ok cost) (λ _. result ≡ Err Stop.Spent) }
{
    match moved {
        Ok(cost) => Ok(cost),
        Err(Spent) => Err(Stop::Spent),
    }
}

/// Makes a move, whose operand, if it has one, is on top, with a test of what is visible.
fn walk<V: Values, K: KeyList, F: Fn(&Row<'_>) -> bool>(
    store: &mut Store<K>,
    exact: bool,
    instr: MoveInstr,
    values: &V,
    see: F,
    left: u64,
) -> Result<u64, Stop>
    requires open { IsSome (here store.old) }
    requires order { SeekNeeds instr store.old }
    requires given { (t : TaggedValues) × (V.stands values.now t × GivenNeeds instr t) }
    requires callable { IfSome (here store.old) (λ o. MayAskRows F.pre see o.table.structure) }
    ensures { (t : TaggedValues) → V.stands values.now t → GivenNeeds instr t
        → IfSome (here store.old) (λ o. (shown : ℕ → Bool)
        → ShowsRows (FnReturnsAt F.Fn) see o.table.structure o.table.rows shown
        → HasWalked instr (given_of instr t) exact store.old o shown left result store.new) }
{
    match instr {
        MoveInstr::Top => settled(store.top(see, left)),
        MoveInstr::Bottom => settled(store.bottom(see, left)),
        MoveInstr::Skip => settled(skip(store, values, see, left)),
        MoveInstr::Go => go(store, record_given(values), see, left),
        MoveInstr::Seek => settled(store.seek(text(values), exact, see, left)),
    }
}

/// SKIP, by the whole part of the number on top.
fn skip<V: Values, K: KeyList, F: Fn(&Row<'_>) -> bool>(
    store: &mut Store<K>,
    values: &V,
    see: F,
    left: u64,
) -> Result<u64, Spent>
    requires open { IsSome (here store.old) }
    requires given { (t : TaggedValues) × (V.stands values.now t × HasOnTop (OfNumber ∷ []) t.stack) }
    requires callable { IfSome (here store.old) (λ o. MayAskRows F.pre see o.table.structure) }
    ensures { (t : TaggedValues) → V.stands values.now t → HasOnTop (OfNumber ∷ []) t.stack
        → MovesHere (FnReturnsAt F.Fn) see (skip_of (whole_on_top (top t))) store.old store.new left result }
{
    store.skip(whole(values), see, left)
}

/// GO, which meets no row.
fn go<K: KeyList, F: Fn(&Row<'_>) -> bool>(
    store: &mut Store<K>,
    number: Option<u32>,
    see: F,
    left: u64,
) -> Result<u64, Stop>
    requires { IsSome (here store.old) }
    ensures done { HasChanged (change_here (gone number) store.old) 0 store.old left result store.new }
    ensures grows { ¬ (result ≡ Err Stop.NoMemory) }
{
    match store.go(number, see, left) {
        Ok(paid) => Ok(paid),
        Err(Spent) => Err(Stop::Spent),
    }
}

/// Takes the operand of a move off the stack, if it has one.
fn take_operand<V: Values>(values: &mut V, instr: MoveInstr)
    requires { (t : TaggedValues) × (V.stands values.old t × GivenNeeds instr t) }
    ensures stands { (t : TaggedValues) → V.stands values.old t → GivenNeeds instr t
        → V.stands values.new (dropped (move_signature instr).taken t) }
    ensures registers { V.registers values.new ≡ V.registers values.old }
{
    match instr {
        MoveInstr::Top | MoveInstr::Bottom => {}
        MoveInstr::Skip | MoveInstr::Go => values.discard(Kind::Number),
        MoveInstr::Seek => values.discard(Kind::Text),
    }
}

/// Makes a move among the rows that the filter shows.
fn look_and_walk<V: Values, K: KeyList>(
    view: &View<'_, V>,
    store: &mut Store<K>,
    instr: MoveInstr,
    left: u64,
) -> Result<u64, Stop>
    requires block { view.now.block.now ≡ filter_block view.now.code.now view.now.filter }
    requires work { IfSome view.now.work (λ work. IsRowWork view.now.code.now view.now.block.now work.now) }
    requires open { IsSome (here store.old) }
    requires order { SeekNeeds instr store.old }
    requires filter { (t : TaggedValues)
        × (V.stands view.now.values.now t × FilterNeeds view.now.code.now t view.now.filter
        × FitsThere view.now.code.now (viewing t view.now.moment) view.now.filter (here store.old)
        × GivenNeeds instr t) }
    ensures { (t : TaggedValues) → V.stands view.now.values.now t → FilterNeeds view.now.code.now t view.now.filter
        → FitsThere view.now.code.now (viewing t view.now.moment) view.now.filter (here store.old)
        → GivenNeeds instr t
        → IfSome (here store.old) (λ o. HasWalked instr (given_of instr t) view.now.moment.settings.exact store.old o
        (shown_by view.now.code.now (viewing t view.now.moment) view.now.filter o.table.structure o.table.rows) left
        result store.new) }
{
    walk(
        store,
        view.moment.settings.exact,
        instr,
        view.values,
        |row: &Row<'_>| -> bool
            requires block { view.now.block.now ≡ filter_block view.now.code.now view.now.filter }
            requires work { IfSome view.now.work (λ work. IsRowWork view.now.code.now view.now.block.now work.now) }
            requires filter { CanLook view.now.code.now (V.stands view.now.values.now) view.now.moment
                view.now.filter row.now.structure }
            ensures { (t : TaggedValues) → V.stands view.entry.now.values.now t
                → FilterNeeds view.entry.now.code.now t view.entry.now.filter
                → RunsOnRows view.entry.now.code.now (viewing t view.entry.now.moment) view.entry.now.filter
                row.now.structure → result ≡ visible view.entry.now.code.now
                (viewing t view.entry.now.moment) view.entry.now.filter row.now }
        { view.shows(row) },
        left,
    )
}

/// Carries out a move.
pub fn on_moves<V: Values, K: KeyList>(
    code: &Code,
    filters: &FilterWorks,
    values: &mut V,
    env: &mut Environment<K>,
    instr: MoveInstr,
    left: u64,
) -> Result<u64, Stop>
    requires legal { IsCode code.now }
    requires filters { AreRowWorks code.now filters.now }
    requires needs { (t : TaggedValues) × (V.stands values.old t × MoveNeeds code.now instr t env.old) }
    ensures stands { (t : TaggedValues) → V.stands values.old t → MoveNeeds code.now instr t env.old
        → Executed code.now (OfMoves instr) t env.old left result (V.stands values.new) env.new }
    ensures registers { V.registers values.new ≡ V.registers values.old }
{
    let view = View::new(code, filters, values, env.moment(), env.filter_here());
    let cost = look_and_walk(&view, &mut env.store, instr, left)?;
    take_operand(values, instr);
    Ok(cost)
}
