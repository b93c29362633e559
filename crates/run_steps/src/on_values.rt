//! Instructions on values, slots and settings.

ghost use Rattle.std.specs.Prelude.{◌≡◌, ◌<◌, length};
ghost use Rattle.code_items.specs.declared.instr.Instr.TheVariants.{Values as OfValues};
ghost use Rattle.run_values.specs.Tagged.{TaggedValues, pushed};
ghost use Rattle.xvalue.specs.declared.value.Value.TheVariants.{Date};
ghost use Rattle.run_steps.specs.Effects.{value_values, value_env};
ghost use Rattle.run_steps.specs.Needs.{ValueNeeds};
ghost use Rattle.run_steps.specs.Executed.{Executed};

use crate::ending::Stop;
use crate::environment::Environment;
use calendar::Day;
use code_items::Code;
use code_items::instr::ValueInstr;
use key_lists::KeyList;
use run_values::Values;
use xvalue::Value;

/// Puts a day on the stack. It stands apart, since a value is large and a function's locals are zeroed on entry.
fn push_day<V: Values>(values: &mut V, day: Day)
    requires { (t : TaggedValues) × (V.stands values.old t × (length t.stack < 64)) }
    ensures stands { (t : TaggedValues) → V.stands values.old t → V.stands values.new (pushed (Date day) t) }
    ensures registers { V.registers values.new ≡ V.registers values.old }
{
    values.push(Value::Date(day));
}

/// An instruction on values, slots and settings, which costs 1 and is never refused for another cause.
pub(crate) fn change_values<V: Values, K: KeyList>(
    code: &Code,
    values: &mut V,
    env: &mut Environment<K>,
    instr: ValueInstr,
)
    requires { (t : TaggedValues) × (V.stands values.old t × ValueNeeds code.now instr t) }
    ensures values { (t : TaggedValues) → V.stands values.old t → ValueNeeds code.now instr t
        → V.stands values.new (value_values code.now instr t env.old) }
    ensures env { env.new ≡ value_env instr env.old }
    ensures registers { V.registers values.new ≡ V.registers values.old }
{
    match instr {
        ValueInstr::Constant(number) => {
            values.push_copy(code.declared.constants.get(usize::from(number)));
        }
        ValueInstr::Load(kind, slot) => values.load(kind, usize::from(slot)),
        ValueInstr::Store(kind, slot) => values.store(kind, usize::from(slot)),
        ValueInstr::Unset(slot) => values.unset(usize::from(slot)),
        ValueInstr::Discard(kind) => values.discard(kind),
        ValueInstr::Function(fun) => values.call(fun, env.settings()),
        ValueInstr::Today => push_day(values, env.today()),
        ValueInstr::Set(setting, on) => env.set(setting, on),
    }
}

/// Carries out an instruction on values, slots and settings.
pub fn on_values<V: Values, K: KeyList>(
    code: &Code,
    values: &mut V,
    env: &mut Environment<K>,
    instr: ValueInstr,
    left: u64,
) -> Result<u64, Stop>
    requires { (t : TaggedValues) × (V.stands values.old t × ValueNeeds code.now instr t) }
    ensures stands { (t : TaggedValues) → V.stands values.old t → ValueNeeds code.now instr t
        → Executed code.now (OfValues instr) t env.old left result (V.stands values.new) env.new }
    ensures registers { V.registers values.new ≡ V.registers values.old }
{
    if left == 0 {
        return Err(Stop::Spent);
    }
    change_values(code, values, env, instr);
    Ok(1)
}
