//! Constants by number.

ghost use Rattle.std.specs.Prelude.{◌≡◌, true, length, Some, Err, IfOk, OnErr, slice_get};
ghost use Rattle.fixed_num.specs.Words.{magnitude_of};
ghost use Rattle.prg_code.specs.Numbers.{Grows};
ghost use Rattle.prg_code.specs.declared.fault.CompileError.TheVariants as error;
ghost use Rattle.prg_code.specs.declared.fault.CompileFaultKind.TheVariants as kind;
ghost use Rattle.prg_code.specs.Pools.{HasConstant, is_same_day as is_same_day_of, is_one_constant, day_code};

use crate::fault::CompileError;
use crate::numbering::Numbering;
use fixed_num::Num;
use std::hash::{Hash, Hasher};
use std::marker::Model;
use xvalue::{Day, Value};

/// The most constants that a code may have.
pub const MOST_CONSTANTS: u16 = 4096;

/// A constant, seen as its value.
#[derive(Drop)]
pub struct Constant {
    value: Value,
}

/// Constants, numbered from 0 at their first use.
pub type Pool = Numbering<Constant, MOST_CONSTANTS>;

impl Model for Constant {
    ghost use Rattle.xvalue.specs.declared.value.Value.{Value as AnyValue};

    ghost Value = { AnyValue };

    ghost view = { λ c. c.value };

    ghost inverse = { λ v. record { value = v } };
}

/// Both are one day, or both are blank.
fn is_same_day(one: Day, two: Day) -> bool
    ensures { result ≡ is_same_day_of one two }
{
    match (one.parts(), two.parts()) {
        (None, None) => true,
        (Some(a), Some(b)) => a.year == b.year && a.month == b.month && a.day == b.day,
        _ => false,
    }
}

/// Whether two constants are written by the same bytes: 1 and 1.0 are not.
pub fn is_same_constant(one: &Value, two: &Value) -> bool
    ensures is { result ≡ is_one_constant one.now two.now }
    ensures same { result ≡ true → one.now ≡ two.now }
    ensures found { one.now ≡ two.now → result ≡ true }
{
    match (one, two) {
        (Value::Number(a), Value::Number(b)) => *a == *b,
        (Value::Text(a), Value::Text(b)) => a.as_slice() == b.as_slice(),
        (Value::Date(a), Value::Date(b)) => is_same_day(*a, *b),
        (Value::Logical(a), Value::Logical(b)) => *a == *b,
        _ => false,
    }
}

/// Constants are equal where they are written by the same bytes.
impl PartialEq for Constant {
    ghost use Rattle.std.specs.Cmp.{partial_equiv_from_equiv};
    ghost use Rattle.prg_code.specs.Pools.{is_one_constant as is_equal, is_one_constant-laws};

    ghost eq = { is_equal };

    ghost laws = { partial_equiv_from_equiv is_one_constant-laws };

    fn eq(&self, other: &Constant) -> bool {
        is_same_constant(&self.value, &other.value)
    }
}

impl Eq for Constant {
    ghost use Rattle.prg_code.specs.Pools.{is_one_constant-laws};

    ghost laws = { is_one_constant-laws };
}

fn magnitude(number: Num) -> u64
    ensures { result ≡ magnitude_of number }
{
    match number.parts() {
        Some(parts) => parts.magnitude,
        None => 0,
    }
}

fn day_number(day: Day) -> u32
    ensures { result ≡ day_code day }
{
    match day.parts() {
        Some(parts) => {
            (u32::from(parts.year) * 16 + u32::from(parts.month)) * 32 + u32::from(parts.day)
        }
        None => 0,
    }
}

/// A number is hashed without its sign and decimals.
impl Hash for Constant {
    ghost use Rattle.std.proofs.Common.{ap};
    ghost use Rattle.prg_code.specs.Pools.{constant_input, is_one_constant-true};

    ghost hash_input = { constant_input };

    ghost respects_eq = { λ x y h. ap constant_input (is_one_constant-true x y h) };

    fn hash<H: Hasher>(&self, state: &mut H) {
        match &self.value {
            Value::Number(number) => magnitude(*number).hash(state),
            Value::Text(text) => text.hash(state),
            Value::Date(day) => day_number(*day).hash(state),
            Value::Logical(truth) => truth.hash(state),
        }
    }
}

impl Constant {
    /// Its value.
    pub fn value(&self) -> &Value
        ensures { result.now ≡ self.now }
    {
        &self.value
    }
}

impl Numbering<Constant, MOST_CONSTANTS> {
    /// The number of the constant. It is added where it isn't there; Limit where there is no room for it.
    pub fn number_of(&mut self, value: Value) -> Result<u16, CompileError>
        // It is the constant's number.
        ensures there { IfOk result (λ number. slice_get self.new number ≡ Some value) }
        // The constants that were there keep their numbers.
        ensures grown { Grows self.old self.new }
        // A constant that is there isn't added.
        ensures once { HasConstant self.old value → self.new ≡ self.old }
        // Limit comes only where all numbers are given to others.
        ensures full { result ≡ Err (error.Fault kind.Limit) → (length self.old ≡ 4096)
            × (HasConstant self.old value → ⊥) }
        ensures refused { OnErr result (self.new ≡ self.old) }
    {
        self.number(Constant { value })
    }
}
