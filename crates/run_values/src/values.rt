//! What instructions ask of a machine's values.

ghost use Rattle.std.specs.Prelude.{◌≡◌, ◌<◌, ◌≤◌, ◌∷◌, [], length, slice_get, slice_set, Some, None, true, IfSome};
ghost use Rattle.xvalue.specs.declared.kind.Kind.TheVariants.{Number as OfNumber, Text as OfText, Logical as OfLogical};
ghost use Rattle.xvalue.specs.declared.value.Value.TheVariants.{Number as IsNumber, Text as IsText};
ghost use Rattle.xvalue.specs.declared.value.Value.TheVariants.{Logical as IsLogical};
ghost use Rattle.xvalue.specs.Shown.{shown as shown_of};
ghost use Rattle.run_values.specs.Tagged.{TaggedValues, HasOnTop, HasArguments, HoldsKind, pushed, dropped, with_slot};
ghost use Rattle.run_values.specs.Tagged.{loaded, stored, called};
ghost use Rattle.run_values.specs.Operands.{RegisterState, HoldsConstants, sources_of, NumberThere, TruthThere};
ghost use Rattle.run_values.specs.Operands.{number_of_operand, truth_of_operand, source_at, HasPlace};
ghost use Rattle.run_values.specs.Operands.{values_with, registers_with};

use crate::operands::Operand;
use fixed_num::Num;
use xvalue::{Fun, Kind, Lent, Settings, Text, Value};

/// Slots and a stack. Whether they keep the kinds of what they hold is theirs: they stand for values that have them,
/// perhaps for many. No call takes memory.
pub trait Values: Drop {
    ghost stands: { Self → TaggedValues → Type 0 };

    /// The registers beside them, which blocks use.
    ghost registers: { Self → RegisterState };

    /// Puts a value on the stack.
    fn push(&mut self, value: Value)
        requires { (t : TaggedValues) × (stands self.old t × (length t.stack < 64)) }
        ensures stands { (t : TaggedValues) → stands self.old t → stands self.new (pushed value t) }
        ensures registers { registers self.new ≡ registers self.old };

    /// Puts the same value once more on the stack.
    fn push_copy(&mut self, value: &Value)
        requires { (t : TaggedValues) × (stands self.old t × (length t.stack < 64)) }
        ensures stands { (t : TaggedValues) → stands self.old t → stands self.new (pushed value.now t) }
        ensures registers { registers self.new ≡ registers self.old };

    /// The value on top, which is of this kind, lent from there.
    fn top_lent(&self, kind: Kind) -> Lent<'_>
        requires { (t : TaggedValues) × (stands self.now t × HasOnTop (kind ∷ []) t.stack) }
        ensures { (t : TaggedValues) → stands self.now t → HasOnTop (kind ∷ []) t.stack
            → slice_get t.stack 0 ≡ Some result };

    /// Puts a value that is lent on the stack.
    fn push_lent(&mut self, value: &Lent<'_>)
        requires { (t : TaggedValues) × (stands self.old t × (length t.stack < 64)) }
        ensures stands { (t : TaggedValues) → stands self.old t → stands self.new (pushed value.now t) }
        ensures registers { registers self.new ≡ registers self.old };

    /// The number on top; it stays.
    fn top_number(&self) -> Num
        requires { (t : TaggedValues) × (stands self.now t × HasOnTop (OfNumber ∷ []) t.stack) }
        ensures { (t : TaggedValues) → stands self.now t → HasOnTop (OfNumber ∷ []) t.stack
            → slice_get t.stack 0 ≡ Some (IsNumber result) };

    /// The bytes of the text on top, lent from there.
    fn top_text(&self) -> &[u8]
        requires { (t : TaggedValues) × (stands self.now t × HasOnTop (OfText ∷ []) t.stack) }
        ensures { (t : TaggedValues) → stands self.now t → HasOnTop (OfText ∷ []) t.stack
            → slice_get t.stack 0 ≡ Some (IsText (record { items = result.now })) };

    /// The text that the screen shows of the value on top, which is of this kind. It stays.
    fn shown(&self, kind: Kind, settings: Settings) -> Text
        requires { (t : TaggedValues) × (stands self.now t × HasOnTop (kind ∷ []) t.stack) }
        ensures { (t : TaggedValues) → stands self.now t → HasOnTop (kind ∷ []) t.stack
            → IfSome (slice_get t.stack 0) (λ value. result.items ≡ shown_of settings value) };

    /// The truth value on top; it stays.
    fn truth(&self) -> bool
        requires { (t : TaggedValues) × (stands self.now t × HasOnTop (OfLogical ∷ []) t.stack) }
        ensures { (t : TaggedValues) → stands self.now t → HasOnTop (OfLogical ∷ []) t.stack
            → slice_get t.stack 0 ≡ Some (IsLogical result) };

    /// Puts a number on the stack.
    fn push_number(&mut self, number: Num)
        requires { (t : TaggedValues) × (stands self.old t × (length t.stack < 64)) }
        ensures stands { (t : TaggedValues) → stands self.old t → stands self.new (pushed (IsNumber number) t) }
        ensures registers { registers self.new ≡ registers self.old };

    /// Takes the number on top off the stack.
    fn pop_number(&mut self) -> Num
        requires { (t : TaggedValues) × (stands self.old t × HasOnTop (OfNumber ∷ []) t.stack) }
        ensures stands { (t : TaggedValues) → stands self.old t → HasOnTop (OfNumber ∷ []) t.stack
            → (slice_get t.stack 0 ≡ Some (IsNumber result)) × stands self.new (dropped 1 t) }
        ensures registers { registers self.new ≡ registers self.old };

    /// Puts a truth value on the stack.
    fn push_truth(&mut self, truth: bool)
        requires { (t : TaggedValues) × (stands self.old t × (length t.stack < 64)) }
        ensures stands { (t : TaggedValues) → stands self.old t → stands self.new (pushed (IsLogical truth) t) }
        ensures registers { registers self.new ≡ registers self.old };

    /// Takes the truth value on top off the stack.
    fn pop_truth(&mut self) -> bool
        requires { (t : TaggedValues) × (stands self.old t × HasOnTop (OfLogical ∷ []) t.stack) }
        ensures stands { (t : TaggedValues) → stands self.old t → HasOnTop (OfLogical ∷ []) t.stack
            → (slice_get t.stack 0 ≡ Some (IsLogical result)) × stands self.new (dropped 1 t) }
        ensures registers { registers self.new ≡ registers self.old };

    /// Takes the value on top, which is of this kind, away.
    fn discard(&mut self, kind: Kind)
        requires { (t : TaggedValues) × (stands self.old t × HasOnTop (kind ∷ []) t.stack) }
        ensures stands { (t : TaggedValues) → stands self.old t → HasOnTop (kind ∷ []) t.stack
            → stands self.new (dropped 1 t) }
        ensures registers { registers self.new ≡ registers self.old };

    /// What the slot holds, which is of this kind, lent from there.
    fn value(&self, kind: Kind, slot: usize) -> Lent<'_>
        requires { (t : TaggedValues) × (stands self.now t × HoldsKind kind (slice_get t.slots slot)) }
        ensures { (t : TaggedValues) → stands self.now t → HoldsKind kind (slice_get t.slots slot)
            → slice_get t.slots slot ≡ Some (Some result) };

    /// The number of a slot or in a register, where it stands.
    fn number(&self, operand: Operand) -> &Num
        requires { (t : TaggedValues)
            × (stands self.now t × NumberThere operand (sources_of t (registers self.now))) }
        ensures { (t : TaggedValues) → stands self.now t → NumberThere operand (sources_of t (registers self.now))
            → IsNumber result.now ≡ number_of_operand operand (sources_of t (registers self.now)) };

    /// The truth value of a slot or in a register.
    fn held_truth(&self, operand: Operand) -> bool
        requires { (t : TaggedValues)
            × (stands self.now t × TruthThere operand (sources_of t (registers self.now))) }
        ensures { (t : TaggedValues) → stands self.now t → TruthThere operand (sources_of t (registers self.now))
            → IsLogical result ≡ truth_of_operand operand (sources_of t (registers self.now)) };

    /// Puts what the slot holds, which is of this kind, on the stack.
    fn load(&mut self, kind: Kind, slot: usize)
        requires { (t : TaggedValues)
            × (stands self.old t × HoldsKind kind (slice_get t.slots slot) × (length t.stack < 64)) }
        ensures stands { (t : TaggedValues) → stands self.old t → HoldsKind kind (slice_get t.slots slot)
            → stands self.new (loaded slot t) }
        ensures registers { registers self.new ≡ registers self.old };

    /// Takes the value on top, which is of this kind, into the slot, which is there.
    fn store(&mut self, kind: Kind, slot: usize)
        requires { (t : TaggedValues) × (stands self.old t × HasOnTop (kind ∷ []) t.stack × (slot < length t.slots)) }
        ensures stands { (t : TaggedValues) → stands self.old t → HasOnTop (kind ∷ []) t.stack
            → stands self.new (stored slot t) }
        ensures registers { registers self.new ≡ registers self.old };

    /// Unsets the slot, which is there.
    fn unset(&mut self, slot: usize)
        requires { (t : TaggedValues) × (stands self.old t × (slot < length t.slots)) }
        ensures stands { (t : TaggedValues) → stands self.old t → stands self.new (with_slot slot None t) }
        ensures registers { registers self.new ≡ registers self.old };

    /// Takes the arguments of the function, which are there, off the stack, and puts its result there.
    fn call(&mut self, fun: Fun, settings: Settings)
        requires { (t : TaggedValues) × (stands self.old t × HasArguments fun t.stack × (length t.stack ≤ 64)) }
        ensures stands { (t : TaggedValues) → stands self.old t → HasArguments fun t.stack
            → stands self.new (called fun settings t) }
        ensures registers { registers self.new ≡ registers self.old };
}

/// Values that blocks can use: their registers can be written.
pub trait Registered: Values {
    /// Puts a number into a register, which is there.
    fn set_number_register(&mut self, register: usize, number: Num)
        requires { register < length (Self.registers self.old).numbers }
        ensures stands { (t : TaggedValues) → Self.stands self.old t → Self.stands self.new t }
        ensures registers { Self.registers self.new ≡ record (Self.registers self.old) {
          numbers = slice_set (Self.registers self.old).numbers register number;
        } };

    /// Puts a number into a slot or a register, which is there.
    fn put_number(&mut self, to: Operand, number: Num)
        requires { (t : TaggedValues) × (Self.stands self.old t
            × HasPlace (source_at to.place) (sources_of t (Self.registers self.old))) }
        ensures stands { (t : TaggedValues) → Self.stands self.old t
            → Self.stands self.new (values_with (source_at to.place) number t) }
        ensures registers { Self.registers self.new
            ≡ registers_with (source_at to.place) number (Self.registers self.old) };

    /// Puts a truth value into a register, which is there.
    fn set_truth_register(&mut self, register: usize, truth: bool)
        requires { register < length (Self.registers self.old).truths }
        ensures stands { (t : TaggedValues) → Self.stands self.old t → Self.stands self.new t }
        ensures registers { Self.registers self.new ≡ record (Self.registers self.old) {
          truths = slice_set (Self.registers self.old).truths register truth;
        } };

    /// Makes the registers those for a run with these constants; whether there was memory for them.
    fn fill_registers(&mut self, constants: &[Value]) -> bool
        ensures stands { (t : TaggedValues) → Self.stands self.old t → Self.stands self.new t }
        ensures filled { result ≡ true → HoldsConstants constants.now (Self.registers self.new) };
}
