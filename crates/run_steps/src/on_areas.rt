//! Instructions on work areas.

ghost use Rattle.std.specs.Prelude.{◌≡◌, ℕ, Bool, Ok, Err, MatchResult, IfSome};
ghost use Rattle.std.specs.Fn.{FnReturnsAt};
ghost use Rattle.open_table.specs.Tried.{ShowsRows};
ghost use Rattle.code_items.specs.declared.instr.Instr.TheVariants.{Areas as OfAreas};
ghost use Rattle.run_values.specs.Tagged.{TaggedValues};
ghost use Rattle.work_area.specs.Areas.{table_at};
ghost use Rattle.work_area.specs.Calls.{used_here, open_of};
ghost use Rattle.open_table.specs.Open.{landed, opened};
ghost use Rattle.run_steps.specs.Filters.{is_unhidden, unhidden};
ghost use Rattle.run_steps.specs.Effects.{list_numbers, changed_area};
ghost use Rattle.run_steps.specs.Executed.{Executed};
ghost use Rattle.run_steps.specs.Needs.{AreaNeeds, OpenNeeds, ChangeNeeds};
ghost use Rattle.run_steps.specs.Walking.{HasChanged, stop_of};

use crate::ending::Stop;
use crate::environment::Environment;
use code_items::Code;
use code_items::instr::AreaInstr;
use key_lists::KeyList;
use open_table::{Refused, Row};
use run_values::Values;
use std::alloc::Global;
use work_area::Store;

/// Why a change was refused.
pub(crate) fn refused(done: Result<u64, Refused>) -> Result<u64, Stop>
    ensures { MatchResult done (λ cost. result ≡ Ok cost) (λ why. result ≡ Err (stop_of why)) }
{
    match done {
        Ok(cost) => Ok(cost),
        Err(Refused::Spent) => Err(Stop::Spent),
        Err(Refused::NoMemory) => Err(Stop::NoMemory),
    }
}

/// The indexes of a list, counted from 1; none of no list.
pub(crate) fn list_of(code: &Code, list: u32) -> &[u8]
    ensures { result.now ≡ list_numbers code.now.declared list }
{
    match code.declared.list(list) {
        Some(list) => list.indexes.as_slice(),
        None => &[],
    }
}

/// OPEN with a test of what is visible.
fn open_with<K: KeyList, F: Fn(&Row<'_>) -> bool>(
    alloc: Global,
    store: &mut Store<K>,
    table: u16,
    list: u32,
    indexes: &[u8],
    see: F,
    left: u64,
) -> Result<u64, Stop>
    requires needs { OpenNeeds table indexes.now store.old }
    requires callable { F.IsAlwaysCallable see }
    ensures { IfSome (table_at store.old table)
        (λ o. (shown : ℕ → Bool) → ShowsRows (FnReturnsAt F.Fn) see o.table.structure o.table.rows shown
        → HasChanged (used_here table list (landed (opened indexes.now o) (open_of indexes.now o shown)) store.old)
        (open_of indexes.now o shown).met store.old left result store.new) }
{
    refused(store.open(alloc, table, list, indexes, see, left))
}

/// OPEN: opens the table with the list of indexes; rows are visible that aren't hidden by their marks.
fn open_table<K: KeyList>(
    alloc: Global,
    store: &mut Store<K>,
    table: u16,
    list: u32,
    indexes: &[u8],
    hides: bool,
    left: u64,
) -> Result<u64, Stop>
    requires needs { OpenNeeds table indexes.now store.old }
    ensures { IfSome (table_at store.old table)
        (λ o. HasChanged (used_here table list
        (landed (opened indexes.now o)
        (open_of indexes.now o (unhidden hides o.table.structure o.table.rows))) store.old)
        (open_of indexes.now o (unhidden hides o.table.structure o.table.rows)).met store.old left result store.new) }
{
    open_with(
        alloc,
        store,
        table,
        list,
        indexes,
        |row: &Row<'_>| -> bool
            ensures { result ≡ is_unhidden hides row.now }
        { !(hides && row.marked()) },
        left,
    )
}

/// Carries out an instruction on the store at a cost of 1.
fn change_areas<K: KeyList>(store: &mut Store<K>, instr: AreaInstr)
    requires { ChangeNeeds instr store.old }
    ensures { store.new ≡ changed_area instr store.old }
{
    match instr {
        AreaInstr::Open { .. } => {}
        AreaInstr::Close => store.close(),
        AreaInstr::CloseAll => store.close_all(),
        AreaInstr::Select(area) => store.select(area),
        AreaInstr::Order(order) => store.set_order(order as u8),
        AreaInstr::Filter(filter) => store.set_filter(filter),
    }
}

/// Carries out an instruction on work areas. This, records and screen stand apart from `execute`: the locals of a
/// function are cleared on entry, and moves need few.
#[inline(never)]
pub fn on_areas<V: Values, K: KeyList>(
    alloc: Global,
    code: &Code,
    values: &V,
    env: &mut Environment<K>,
    instr: AreaInstr,
    left: u64,
) -> Result<u64, Stop>
    requires { AreaNeeds code.now instr env.old }
    ensures { (t : TaggedValues) → V.stands values.now t
        → Executed code.now (OfAreas instr) t env.old left result (V.stands values.now) env.new }
{
    if let AreaInstr::Open { table, list } = instr {
        let hides = env.settings.deleted;
        let indexes = list_of(code, list);
        return open_table(alloc, &mut env.store, table, list, indexes, hides, left);
    }
    if left == 0 {
        return Err(Stop::Spent);
    }
    change_areas(&mut env.store, instr);
    Ok(1)
}
