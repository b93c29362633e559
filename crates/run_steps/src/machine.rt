//! A machine, whatever keeps its values and its tables' lists; and one instruction on it.

ghost use Rattle.std.specs.Prelude.{◌≡◌, ◌<◌, IfOk};
ghost use Rattle.code_items.specs.Legal.{IsCode};
ghost use Rattle.code_items.specs.declared.code.Code.{Code as AnyCode};
ghost use Rattle.code_items.specs.declared.instr.Instr.TheVariants.{Flow as OfFlow};
ghost use Rattle.run_values.specs.Tagged.{TaggedValues};
ghost use Rattle.run_steps.specs.Control.{flow_place as flow_place_of};
ghost use Rattle.run_steps.specs.Control.{place_after as place_after_of, returns_after};
ghost use Rattle.run_steps.specs.Executed.{Executed};
ghost use Rattle.run_steps.specs.Machines.{StandsFor, StepsMachine};
ghost use Rattle.run_steps.specs.Needs.{FlowNeeds, JumpNeeds, Needs, CallFits, IsReadyFor};
ghost use Rattle.run_steps.specs.Opening.{no_values, opening};
ghost use Rattle.run_steps.specs.RowWorks.{AreRowWorks};
ghost use Rattle.screen_lines.specs.State.{sent};
ghost use Rattle.run_steps.specs.World.{World, EnvState};

use crate::ending::Stop;
use crate::environment::Environment;
use crate::layout::entry_place;
use crate::on_areas::on_areas;
use crate::on_moves::on_moves;
use crate::on_records::on_records;
use crate::on_screen::on_screen;
use crate::on_values::on_values;
use crate::returns::ReturnPlaces;
use crate::row_works::FilterWorks;
use calendar::Day;
use code_items::Code;
use code_items::instr::{FlowInstr, Instr};
use key_lists::KeyList;
use run_values::Values;
use screen_lines::Screen;
use std::alloc::{AllocError, Global};
use text_lines::TypedLines;
use work_area::Store;
use xvalue::{Kind, Settings};

/// What a run changes: the place of the next instruction, return places, slots and stack, and the rest.
#[derive(Drop)]
pub struct Machine<V, K: KeyList> {
    pub place: usize,
    pub returns: ReturnPlaces,
    pub values: V,
    pub env: Environment<K>,
}

impl<V: Values, K: KeyList> Machine<V, K> {
    /// The machine at the beginning of a run: at place 0, with these slots and stack, these tables with all areas
    /// closed, these lines of the operator, a blank screen and all settings off, on this day.
    pub fn opening(
        alloc: Global,
        values: V,
        store: Store<K>,
        lines: TypedLines,
        today: Day,
    ) -> Result<Self, AllocError>
        ensures opens { (code : AnyCode) → V.stands values (no_values code)
            → IfOk result (λ machine. StandsFor V.stands machine (opening code store lines today)) }
        ensures values { IfOk result (λ machine. machine.values ≡ values) }
    {
        let mut store = store;
        store.close_all();
        Ok(Machine {
            place: 0,
            returns: ReturnPlaces::new(),
            values,
            env: Environment::new(store, Screen::new(alloc)?, lines, Settings::off(), today),
        })
    }

    /// The bytes for printing, if the run ends here: the rows sent so far and those that are seen. The machine stays as
    /// it is.
    pub fn finish(&self, alloc: Global) -> Result<Vec<u8>, AllocError>
        ensures { IfOk result (λ bytes. bytes.items ≡ sent self.now.env.screen) }
    {
        self.env.screen().finish(alloc)
    }

    /// The tables and work areas.
    pub fn store(&self) -> &Store<K>
        ensures { result.now ≡ self.now.env.store }
    {
        self.env.store()
    }
}

/// Where an instruction on the flow of control goes next.
fn flow_place<V: Values>(
    code: &Code,
    instr: FlowInstr,
    place: usize,
    returns: &ReturnPlaces,
    values: &V,
) -> usize
    requires legal { IsCode code.now }
    requires place { place < 65536 }
    requires needs { (t : TaggedValues) × (V.stands values.now t × FlowNeeds instr t) }
    ensures { (t : TaggedValues) → V.stands values.now t → FlowNeeds instr t
        → result ≡ flow_place_of code.now instr place returns.now t }
{
    match instr {
        FlowInstr::Jump(target) => target as usize,
        FlowInstr::JumpFalse(target) => {
            if values.truth() {
                place + 1
            } else {
                target as usize
            }
        }
        FlowInstr::Call(number) => entry_place(code, number),
        FlowInstr::Return => returns.last_or(place),
        FlowInstr::End => place,
    }
}

/// Where an instruction goes next.
pub fn place_after<V: Values>(
    code: &Code,
    instr: Instr,
    place: usize,
    returns: &ReturnPlaces,
    values: &V,
) -> usize
    requires legal { IsCode code.now }
    requires place { place < 65536 }
    requires needs { (t : TaggedValues) × (V.stands values.now t × JumpNeeds instr t) }
    ensures { (t : TaggedValues) → V.stands values.now t → JumpNeeds instr t
        → result ≡ place_after_of code.now instr place returns.now t }
{
    match instr {
        Instr::Flow(instr) => flow_place(code, instr, place, returns, values),
        _ => place + 1,
    }
}

/// Carries out an instruction on the flow of control, as far as values go.
fn on_flow<V: Values>(values: &mut V, instr: FlowInstr, left: u64) -> Result<u64, Stop>
    requires { (t : TaggedValues) × (V.stands values.old t × FlowNeeds instr t) }
    ensures stands { (code : AnyCode) (t : TaggedValues) (e : EnvState) → V.stands values.old t → FlowNeeds instr t
        → Executed code (OfFlow instr) t e left result (V.stands values.new) e }
    ensures registers { V.registers values.new ≡ V.registers values.old }
{
    if left == 0 {
        return Err(Stop::Spent);
    }
    if let FlowInstr::JumpFalse(_) = instr {
        values.discard(Kind::Logical);
    }
    Ok(1)
}

/// Carries out an instruction on values and environment. Where it can't be paid, or memory or room is missing, both are
/// as they were.
fn carry_out<V: Values, K: KeyList>(
    alloc: Global,
    code: &Code,
    filters: &FilterWorks,
    values: &mut V,
    env: &mut Environment<K>,
    instr: Instr,
    left: u64,
) -> Result<u64, Stop>
    requires legal { IsCode code.now }
    requires filters { AreRowWorks code.now filters.now }
    requires needs { (t : TaggedValues) × (V.stands values.old t × Needs code.now instr t env.old) }
    ensures stands { (t : TaggedValues) → V.stands values.old t → Needs code.now instr t env.old
        → Executed code.now instr t env.old left result (V.stands values.new) env.new }
    ensures registers { V.registers values.new ≡ V.registers values.old }
{
    match instr {
        Instr::Values(instr) => on_values(code, values, env, instr, left),
        Instr::Flow(instr) => on_flow(values, instr, left),
        Instr::Screen(instr) => on_screen(values, env, instr, left),
        Instr::Areas(instr) => on_areas(alloc, code, values, env, instr, left),
        Instr::Moves(instr) => on_moves(code, filters, values, env, instr, left),
        Instr::Records(instr) => on_records(alloc, code, filters, values, env, instr, left),
    }
}

/// Notes a call's return place, or takes that of a return away.
fn turn(returns: &mut ReturnPlaces, place: usize, instr: Instr)
    requires fits { CallFits instr returns.old }
    requires place { place < 65536 }
    ensures { returns.new ≡ returns_after instr place returns.old }
{
    match instr {
        Instr::Flow(FlowInstr::Call(_)) => returns.push(place + 1),
        Instr::Flow(FlowInstr::Return) => returns.pop(),
        _ => {}
    }
}

/// Carries out an instruction that doesn't finish the run. For each world that the machine stands for, it answers what
/// the instruction costs there, and stands for the world after it. Where it answers why the instruction was not carried
/// out, the machine stands for what it stood for.
pub fn execute<V: Values, K: KeyList>(
    alloc: Global,
    code: &Code,
    filters: &FilterWorks,
    machine: &mut Machine<V, K>,
    instr: Instr,
    left: u64,
) -> Result<u64, Stop>
    requires legal { IsCode code.now }
    requires filters { AreRowWorks code.now filters.now }
    requires ready { (w : World) × (StandsFor V.stands machine.old w × IsReadyFor code.now w instr) }
    ensures steps { (w : World) → StandsFor V.stands machine.old w → IsReadyFor code.now w instr
        → StepsMachine code.now w instr left result V.stands machine.new }
    ensures registers { V.registers machine.new.values ≡ V.registers machine.old.values }
{
    let place = place_after(
        code,
        instr,
        machine.place,
        &machine.returns,
        &machine.values,
    );
    match carry_out(
        alloc,
        code,
        filters,
        &mut machine.values,
        &mut machine.env,
        instr,
        left,
    ) {
        Ok(cost) => {
            turn(&mut machine.returns, machine.place, instr);
            machine.place = place;
            Ok(cost)
        }
        Err(stop) => Err(stop),
    }
}
