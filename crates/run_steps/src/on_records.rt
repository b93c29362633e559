//! Instructions on records.

ghost use Rattle.std.specs.Prelude.{◌≡◌, ◌≤◌, ℕ, Bool, List, IfSome, IsSome};
ghost use Rattle.std.specs.Fn.{FnReturnsAt};
ghost use Rattle.dbf_file.specs.Rows.{Row as TheRow};
ghost use Rattle.dbf_file.specs.Tables.{StructureState, letter_at};
ghost use Rattle.dbf_file.specs.Values.{kind_for};
ghost use Rattle.open_table.specs.Open.{field_of};
ghost use Rattle.open_table.specs.Tried.{MayAskRows};
ghost use Rattle.work_area.specs.Areas.{here, area_table};
ghost use Rattle.code_items.specs.Legal.{IsCode};
ghost use Rattle.code_items.specs.declared.instr.Instr.TheVariants.{Records as OfRecords};
ghost use Rattle.code_items.specs.declared.instr.RecordInstr.TheVariants.{Append as OfAppend};
ghost use Rattle.code_items.specs.declared.code.Code.{Code as AnyCode};
ghost use Rattle.run_values.specs.Tagged.{TaggedValues, pushed};
ghost use Rattle.run_steps.specs.Effects.{answer as answer_of, index_in, closing_store, closing_met};
ghost use Rattle.run_steps.specs.Executed.{Executed};
ghost use Rattle.run_steps.specs.Filters.{viewing, shown_by, filter_block, is_visible as visible, RunsOnRows};
ghost use Rattle.run_steps.specs.Needs.{FilterNeeds, HasField, TakesField, RecordNeeds, ClosingNeeds};
ghost use Rattle.run_steps.specs.Needs.{HasRoom, FitsThere, Walks, closing_instr};
ghost use Rattle.run_steps.specs.RowWorks.{CanLook, IsRowWork, AreRowWorks};
ghost use Rattle.run_steps.specs.Walking.{HasChanged, HasReplaced, ShowsAll};

use crate::ending::Stop;
use crate::environment::Environment;
use crate::filtering::View;
use crate::on_areas::{list_of, refused};
use crate::row_works::FilterWorks;
use code_items::Code;
use code_items::instr::{Question, RecordInstr};
use key_lists::KeyList;
use open_table::{AppendError, Row};
use run_values::Values;
use std::alloc::Global;
use work_area::Store;
use xvalue::Kind;

/// Puts what a question answers of the selected area, which is open, on the stack.
pub(crate) fn push_answer<V: Values, K: KeyList>(
    values: &mut V,
    store: &Store<K>,
    question: Question,
)
    requires { (t : TaggedValues) × (V.stands values.old t × IsSome (here store.now) × HasRoom t) }
    ensures stands { (t : TaggedValues) → V.stands values.old t
        → IfSome (here store.now) (λ o. V.stands values.new (pushed (answer_of question o) t)) }
    ensures registers { V.registers values.new ≡ V.registers values.old }
{
    match question {
        Question::Recno => values.push_number(store.recno().into()),
        Question::Reccount => values.push_number(store.reccount().into()),
        Question::Eof => values.push_truth(store.eof()),
        Question::Bof => values.push_truth(store.bof()),
        Question::Found => values.push_truth(store.found()),
        Question::Deleted => values.push_truth(store.deleted()),
    }
}

/// Puts the value of a field of an area's current record on the stack.
pub(crate) fn push_field<V: Values, K: KeyList>(
    values: &mut V,
    store: &Store<K>,
    area: u8,
    field: u16,
)
    requires { (t : TaggedValues) × (V.stands values.old t × (1 ≤ area) × (area ≤ 10)
        × HasField field (area_table store.now area) × HasRoom t) }
    ensures stands { (t : TaggedValues) → V.stands values.old t
        → IfSome (area_table store.now area) (λ o. V.stands values.new (pushed (field_of field o) t)) }
    ensures registers { V.registers values.new ≡ V.registers values.old }
{
    values.push_lent(&store.field(area, usize::from(field)))
}

/// The kind of the values of a field of the selected area's table.
fn kind_here<K: KeyList>(store: &Store<K>, field: u16) -> Kind
    requires { HasField field (here store.now) }
    ensures { IfSome (here store.now) (λ o. result ≡ kind_for (letter_at o.table.structure field)) }
{
    match store.use_of(store.selected()) {
        Some(used) => {
            let table = store.table(used.table);
            table.structure().fields()[usize::from(field)].letter.kind()
        }
        None => unreachable!(),
    }
}

/// The one index of a list.
fn index_of(code: &Code, list: u16) -> u8
    ensures { result ≡ index_in code.now.declared list }
{
    match list_of(code, u32::from(list)).first() {
        Some(number) => *number,
        None => 0,
    }
}

/// APPEND to the selected area's table.
fn append<V: Values, K: KeyList>(values: &V, env: &mut Environment<K>) -> Result<u64, Stop>
    requires { IsSome (here env.old.store) }
    ensures { (code : AnyCode) (t : TaggedValues) (left : ℕ) → 1 ≤ left → V.stands values.now t
        → Executed code (OfRecords OfAppend) t env.old left result (V.stands values.now) env.new }
{
    match env.store.append() {
        Ok(()) => Ok(1),
        Err(AppendError::Full) => Err(Stop::Full(env.table_here())),
        Err(AppendError::NoMemory) => Err(Stop::NoMemory),
    }
}

/// REPLACE: puts the value on top into a field of the current record, and takes it. Where memory is refused nothing
/// changes.
fn replace<V: Values, K: KeyList>(
    values: &mut V,
    store: &mut Store<K>,
    field: u16,
) -> Result<u64, Stop>
    requires { (t : TaggedValues)
        × (V.stands values.old t × HasField field (here store.old) × IfSome (here store.old) (TakesField field t)) }
    ensures stands { (t : TaggedValues) → V.stands values.old t → HasField field (here store.old)
        → IfSome (here store.old) (TakesField field t)
        → HasReplaced field t store.old result (V.stands values.new) store.new }
    ensures registers { V.registers values.new ≡ V.registers values.old }
{
    let kind = kind_here(store, field);
    let value = values.top_lent(kind);
    match store.replace(usize::from(field), &value) {
        Ok(()) => {
            values.discard(kind);
            Ok(1)
        }
        Err(_) => Err(Stop::NoMemory),
    }
}

/// A change that ends with TOP.
#[derive(Clone, Copy)]
pub enum Closing {
    Pack,
    Zap,
    Reindex,
    Index(u16),
}

/// A change that ends with TOP, with a test of what is visible.
fn close_with<K: KeyList, F: Fn(&Row<'_>) -> bool>(
    alloc: Global,
    code: &Code,
    store: &mut Store<K>,
    closing: Closing,
    see: F,
    left: u64,
) -> Result<u64, Stop>
    requires open { IsSome (here store.old) }
    requires needs { ClosingNeeds code.now (closing_instr closing) store.old }
    requires callable { IfSome (here store.old) (λ o. MayAskRows F.pre see o.table.structure) }
    ensures { IfSome (here store.old) (λ o. (shown : StructureState → List TheRow → ℕ → Bool)
        → ShowsAll (FnReturnsAt F.Fn) see o.table.structure shown
        → HasChanged (closing_store code.now.declared (closing_instr closing) shown o store.old)
        (closing_met code.now.declared (closing_instr closing) shown o) store.old left result store.new) }
{
    match closing {
        Closing::Pack => refused(store.pack(alloc, see, left)),
        Closing::Zap => refused(store.zap(alloc, see, left)),
        Closing::Reindex => refused(store.reindex(alloc, see, left)),
        Closing::Index(list) => refused(store.index_on(
            alloc,
            u32::from(list),
            index_of(code, list),
            see,
            left,
        )),
    }
}

/// A change that ends with TOP among the rows that the filter shows.
fn look_and_close<V: Values, K: KeyList>(
    alloc: Global,
    view: &View<'_, V>,
    store: &mut Store<K>,
    closing: Closing,
    left: u64,
) -> Result<u64, Stop>
    requires block { view.now.block.now ≡ filter_block view.now.code.now view.now.filter }
    requires work { IfSome view.now.work (λ work. IsRowWork view.now.code.now view.now.block.now work.now) }
    requires open { IsSome (here store.old) }
    requires needs { ClosingNeeds view.now.code.now (closing_instr closing) store.old }
    requires filter { (t : TaggedValues)
        × (V.stands view.now.values.now t × FilterNeeds view.now.code.now t view.now.filter
        × FitsThere view.now.code.now (viewing t view.now.moment) view.now.filter (here store.old)) }
    ensures { (t : TaggedValues) → V.stands view.now.values.now t → FilterNeeds view.now.code.now t view.now.filter
        → FitsThere view.now.code.now (viewing t view.now.moment) view.now.filter (here store.old)
        → IfSome (here store.old) (λ o. HasChanged
        (closing_store view.now.code.now.declared (closing_instr closing)
        (shown_by view.now.code.now (viewing t view.now.moment) view.now.filter) o store.old)
        (closing_met view.now.code.now.declared (closing_instr closing)
        (shown_by view.now.code.now (viewing t view.now.moment) view.now.filter) o) store.old left result store.new) }
{
    close_with(
        alloc,
        view.code,
        store,
        closing,
        |row: &Row<'_>| -> bool
            requires block { view.now.block.now ≡ filter_block view.now.code.now view.now.filter }
            requires work { IfSome view.now.work (λ work. IsRowWork view.now.code.now view.now.block.now work.now) }
            requires filter { CanLook view.now.code.now (V.stands view.now.values.now) view.now.moment
                view.now.filter row.now.structure }
            ensures { (t : TaggedValues) → V.stands view.entry.now.values.now t
                → FilterNeeds view.entry.now.code.now t view.entry.now.filter
                → RunsOnRows view.entry.now.code.now (viewing t view.entry.now.moment) view.entry.now.filter
                row.now.structure → result ≡ visible view.entry.now.code.now
                (viewing t view.entry.now.moment) view.entry.now.filter row.now }
        { view.shows(row) },
        left,
    )
}

/// A change that ends with TOP.
fn close<V: Values, K: KeyList>(
    alloc: Global,
    code: &Code,
    filters: &FilterWorks,
    values: &V,
    env: &mut Environment<K>,
    closing: Closing,
    left: u64,
) -> Result<u64, Stop>
    requires legal { IsCode code.now }
    requires filters { AreRowWorks code.now filters.now }
    requires closing { ClosingNeeds code.now (closing_instr closing) env.old.store }
    requires needs { (t : TaggedValues) × (V.stands values.now t × Walks code.now t env.old) }
    ensures { (t : TaggedValues) → V.stands values.now t → Walks code.now t env.old
        → Executed code.now (OfRecords (closing_instr closing)) t env.old left result (V.stands values.now) env.new }
{
    let view = View::new(code, filters, values, env.moment(), env.filter_here());
    look_and_close(alloc, &view, &mut env.store, closing, left)
}

/// Carries out an instruction on records.
#[inline(never)]
pub fn on_records<V: Values, K: KeyList>(
    alloc: Global,
    code: &Code,
    filters: &FilterWorks,
    values: &mut V,
    env: &mut Environment<K>,
    instr: RecordInstr,
    left: u64,
) -> Result<u64, Stop>
    requires legal { IsCode code.now }
    requires filters { AreRowWorks code.now filters.now }
    requires needs { (t : TaggedValues) × (V.stands values.old t × RecordNeeds code.now instr t env.old) }
    ensures stands { (t : TaggedValues) → V.stands values.old t → RecordNeeds code.now instr t env.old
        → Executed code.now (OfRecords instr) t env.old left result (V.stands values.new) env.new }
    ensures registers { V.registers values.new ≡ V.registers values.old }
{
    if left == 0 {
        return Err(Stop::Spent);
    }
    let closing = match instr {
        RecordInstr::Field { area, field } => {
            push_field(values, &env.store, area, field);
            return Ok(1);
        }
        RecordInstr::Ask(question) => {
            push_answer(values, &env.store, question);
            return Ok(1);
        }
        RecordInstr::Append => return append(values, env),
        RecordInstr::Replace(field) => return replace(values, &mut env.store, field),
        RecordInstr::Delete => {
            env.store.delete();
            return Ok(1);
        }
        RecordInstr::Recall => {
            env.store.recall();
            return Ok(1);
        }
        RecordInstr::Pack => Closing::Pack,
        RecordInstr::Zap => Closing::Zap,
        RecordInstr::Reindex => Closing::Reindex,
        RecordInstr::Index(list) => Closing::Index(list),
        // A filter's instruction is carried out with the filter.
        RecordInstr::RowField(_) => unreachable!(),
    };
    close(alloc, code, filters, values, env, closing, left)
}
