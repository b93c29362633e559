// Values that carry their kind.
#![tactic(auto)]

ghost use Rattle.std.specs.Prelude.{◌≡◌, false};
ghost use Rattle.xvalue.specs.declared.value.Value.{Value as AnyValue};
ghost use Rattle.xvalue.specs.Blank.{blank_of};
ghost use Rattle.xvalue.specs.Kinds.{kind_of};
ghost use Rattle.xvalue.specs.Shown.{shown};

use crate::kind::Kind;
use crate::settings::Settings;
use crate::shown::{shown_day, shown_logical, shown_number};
use crate::text::{Text, copy_of};
use calendar::Day;
use fixed_num::Num;

/// A value with its kind.
#[derive(Drop, Debug)]
pub enum Value {
    Number(Num),
    Text(Text),
    Date(Day),
    Logical(bool),
}

/// False, which stands in the unused places of arrays.
impl Default for Value {
    ghost is_default = { λ v. v ≡ AnyValue.Logical false };

    fn default() -> Value {
        Value::Logical(false)
    }
}

impl Value {
    /// The kind of the value.
    pub fn kind(&self) -> Kind
        ensures { result ≡ kind_of self.now }
    {
        match self {
            Value::Number(_) => Kind::Number,
            Value::Text(_) => Kind::Text,
            Value::Date(_) => Kind::Date,
            Value::Logical(_) => Kind::Logical,
        }
    }

    /// The same value once more. It takes no memory.
    pub fn copied(&self) -> Value
        ensures { result ≡ self.now }
    {
        match self {
            Value::Number(number) => Value::Number(*number),
            Value::Text(text) => Value::Text(copy_of(text)),
            Value::Date(day) => Value::Date(*day),
            Value::Logical(truth) => Value::Logical(*truth),
        }
    }

    /// The value of the kind that stands for nothing: 0, the empty text, the blank date or false.
    pub fn blank(kind: Kind) -> Value
        ensures { result ≡ blank_of kind }
    {
        match kind {
            Kind::Number => Value::Number(Num::from_whole(0)),
            Kind::Text => Value::Text(Text::new()),
            Kind::Date => Value::Date(Day::blank()),
            Kind::Logical => Value::Logical(false),
        }
    }

    /// The value's text as the screen shows it under the settings. It takes no memory.
    pub fn shown(&self, settings: Settings) -> Text
        ensures { result.items ≡ shown settings self.now }
    {
        match self {
            Value::Number(number) => shown_number(*number),
            Value::Text(text) => copy_of(text),
            Value::Date(day) => shown_day(*day, settings),
            Value::Logical(truth) => shown_logical(*truth),
        }
    }
}
