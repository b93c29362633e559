//! Constants that a code file can hold.

ghost use Rattle.std.specs.Prelude.{◌≡◌};
ghost use Rattle.std.specs.List.{list_all};
ghost use Rattle.code_items.specs.Constants.{is_decimal as is_decimal_of, is_date as is_date_of, is_text as is_text_of};
ghost use Rattle.code_items.specs.Constants.{is_byte as is_byte_of, is_constant as is_constant_of};

use calendar::Day;
use fixed_num::Num;
use xvalue::Value;

fn is_decimal(number: Num) -> bool
    ensures { result ≡ is_decimal_of number }
{
    !number.is_asterisk()
}

fn is_date(day: Day) -> bool
    ensures { result ≡ is_date_of day }
{
    true
}

fn is_byte(byte: u8) -> bool
    ensures { result ≡ is_byte_of byte }
{
    u16::from(byte) < 256
}

fn are_bytes(text: &[u8]) -> bool
    ensures { result ≡ list_all is_byte_of text.now }
{
    text.iter().all(|byte| is_byte(*byte))
}

fn is_text(text: &[u8]) -> bool
    ensures { result ≡ is_text_of text.now }
{
    text.len() <= 254 && are_bytes(text)
}

/// Whether a code file can hold the value: any but the asterisk value.
#[tactic(auto, unfolding(crate::specs::Constants::is_constant))]
pub fn is_constant(value: &Value) -> bool
    ensures { result ≡ is_constant_of value.now }
{
    match value {
        Value::Number(number) => is_decimal(*number),
        Value::Date(day) => is_date(*day),
        Value::Text(text) => is_text(text.as_slice()),
        Value::Logical(_) => true,
    }
}
