//! Instructions on the screen and the operator's lines.

ghost use Rattle.std.specs.Prelude.{◌≡◌, ◌≤◌, ◌∷◌, ℕ, [], Ok, Err, MatchResult};
ghost use Rattle.xvalue.specs.declared.kind.Kind.TheVariants.{Number as OfNumber};
ghost use Rattle.code_items.specs.declared.code.Code.{Code as AnyCode};
ghost use Rattle.code_items.specs.declared.instr.Instr.TheVariants.{Screen as OfScreen};
ghost use Rattle.code_items.specs.declared.instr.ScreenInstr.TheVariants.{Print as OfPrint, Say as OfSay};
ghost use Rattle.code_items.specs.declared.instr.ScreenInstr.TheVariants.{SayOn as OfSayOn, Input as OfInput};
ghost use Rattle.run_values.specs.Tagged.{TaggedValues, HasOnTop, dropped};
ghost use Rattle.run_steps.specs.Effects.{screen_values, screen_env};
ghost use Rattle.run_steps.specs.Needs.{ScreenNeeds};
ghost use Rattle.run_steps.specs.Executed.{Executed};

use crate::ending::Stop;
use crate::environment::Environment;
use code_items::instr::ScreenInstr;
use key_lists::KeyList;
use run_values::Values;
use std::alloc::AllocError;
use xvalue::{Kind, Value};

/// SAY: takes the value, the column and the row, and shows the value there.
fn say<V: Values, K: KeyList>(values: &mut V, env: &mut Environment<K>, kind: Kind)
    requires { (t : TaggedValues) × (V.stands values.old t × HasOnTop (kind ∷ OfNumber ∷ OfNumber ∷ []) t.stack) }
    ensures stands { (t : TaggedValues) → V.stands values.old t → HasOnTop (kind ∷ OfNumber ∷ OfNumber ∷ []) t.stack
        → V.stands values.new (dropped 3 t) × (env.new ≡ screen_env (OfSay kind) t env.old) }
    ensures registers { V.registers values.new ≡ V.registers values.old }
{
    let text = values.shown(kind, env.settings());
    values.discard(kind);
    let column = values.pop_number().whole();
    let row = values.pop_number().whole();
    env.say(row, column, &text);
}

/// SAYON: takes the value and shows it one column behind the cursor.
fn say_on<V: Values, K: KeyList>(values: &mut V, env: &mut Environment<K>, kind: Kind)
    requires { (t : TaggedValues) × (V.stands values.old t × HasOnTop (kind ∷ []) t.stack) }
    ensures stands { (t : TaggedValues) → V.stands values.old t → HasOnTop (kind ∷ []) t.stack
        → V.stands values.new (dropped 1 t) × (env.new ≡ screen_env (OfSayOn kind) t env.old) }
    ensures registers { V.registers values.new ≡ V.registers values.old }
{
    let text = values.shown(kind, env.settings());
    values.discard(kind);
    env.say_on(&text);
}

/// INPUT: takes the old value, and puts what the operator's next line makes of it.
fn input<V: Values, K: KeyList>(values: &mut V, env: &mut Environment<K>, kind: Kind)
    requires { (t : TaggedValues) × (V.stands values.old t × ScreenNeeds (OfInput kind) t) }
    ensures stands { (t : TaggedValues) → V.stands values.old t → ScreenNeeds (OfInput kind) t
        → V.stands values.new (screen_values (OfInput kind) t env.old)
        × (env.new ≡ screen_env (OfInput kind) t env.old) }
    ensures registers { V.registers values.new ≡ V.registers values.old }
{
    let line = env.next_line();
    let answer = values.top_lent(kind).answered(line.as_slice());
    values.discard(kind);
    values.push(answer);
}

/// PRINT: shows the value at the cursor, and takes it. Where memory is refused nothing changes.
fn print<V: Values, K: KeyList>(
    values: &mut V,
    env: &mut Environment<K>,
    kind: Kind,
) -> Result<u64, Stop>
    requires { (t : TaggedValues) × (V.stands values.old t × HasOnTop (kind ∷ []) t.stack) }
    ensures stands { (code : AnyCode) (t : TaggedValues) (left : ℕ) → 1 ≤ left → V.stands values.old t
        → HasOnTop (kind ∷ []) t.stack
        → Executed code (OfScreen (OfPrint kind)) t env.old left result (V.stands values.new) env.new }
    ensures registers { V.registers values.new ≡ V.registers values.old }
{
    let text = values.shown(kind, env.settings());
    if env.print(&text).is_err() {
        return Err(Stop::NoMemory);
    }
    values.discard(kind);
    Ok(1)
}

/// An instruction that may want memory, at a cost of 1.
fn grown(done: Result<(), AllocError>) -> Result<u64, Stop>
    ensures { MatchResult done (λ _. result ≡ Ok 1) (λ _. result ≡ Err Stop.NoMemory) }
{
    match done {
        Ok(()) => Ok(1),
        Err(_) => Err(Stop::NoMemory),
    }
}

/// Carries out an instruction on the screen and the operator's lines.
#[inline(never)]
pub fn on_screen<V: Values, K: KeyList>(
    values: &mut V,
    env: &mut Environment<K>,
    instr: ScreenInstr,
    left: u64,
) -> Result<u64, Stop>
    requires { (t : TaggedValues) × (V.stands values.old t × ScreenNeeds instr t) }
    ensures stands { (code : AnyCode) (t : TaggedValues) → V.stands values.old t → ScreenNeeds instr t
        → Executed code (OfScreen instr) t env.old left result (V.stands values.new) env.new }
    ensures registers { V.registers values.new ≡ V.registers values.old }
{
    if left == 0 {
        return Err(Stop::Spent);
    }
    match instr {
        ScreenInstr::NewLine => grown(env.new_line()),
        ScreenInstr::Print(kind) => print(values, env, kind),
        ScreenInstr::Say(kind) => {
            say(values, env, kind);
            Ok(1)
        }
        ScreenInstr::SayOn(kind) => {
            say_on(values, env, kind);
            Ok(1)
        }
        ScreenInstr::Input(kind) => {
            input(values, env, kind);
            Ok(1)
        }
        ScreenInstr::Line => {
            values.push(Value::Text(env.next_line()));
            Ok(1)
        }
        ScreenInstr::Clear => grown(env.clear()),
    }
}
