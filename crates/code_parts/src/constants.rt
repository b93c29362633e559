//! Constants.

ghost use Rattle.std.specs.Prelude.{◌≡◌};
ghost use Rattle.code_parts.specs.Reading.{Finds};
ghost use Rattle.code_parts.specs.Items.{decimal_from as decimal_from_parts, decimal_at, date_from as date_from_parts};
ghost use Rattle.code_parts.specs.Items.{date_at, text_from as text_from_bytes, text_value_at};
ghost use Rattle.code_parts.specs.Items.{truth_from as truth_from_byte, truth_at, constant_at};

use crate::fields::{byte_of, counted_text, eight_of, two_of};
use crate::flaw::{Flaw, Missing, Unread};
use crate::kinds::truth_of_number;
use crate::several::Reads;
use calendar::{Day, DayParts};
use fixed_num::{Num, Parts};
use std::alloc::Global;
use xvalue::Value;

fn decimal_from(decimals: u8, sign: u8, magnitude: u64) -> Result<Value, Flaw>
    ensures { result ≡ decimal_from_parts (decimals, (sign, magnitude)) }
{
    if sign > 1 {
        return Err(Flaw::Shape);
    }
    let parts = Parts {
        negative: sign == 1,
        magnitude,
        decimals,
    };
    match Num::from_parts(parts) {
        Some(number) => Ok(Value::Number(number)),
        None => Err(Flaw::Shape),
    }
}

#[tactic(auto, unfolding(crate::specs::Items::decimal_at))]
fn decimal_of(bytes: &[u8]) -> Result<(Result<Value, Flaw>, &[u8]), Missing>
    ensures { Finds (λ x. (x.0, x.1.now)) result (decimal_at bytes.now) }
{
    let (decimals, rest) = byte_of(bytes)?;
    let (sign, rest) = byte_of(rest)?;
    let (magnitude, rest) = eight_of(rest)?;
    Ok((decimal_from(decimals, sign, magnitude), rest))
}

fn date_from(parts: DayParts) -> Result<Value, Flaw>
    ensures { result ≡ date_from_parts parts }
{
    if parts.year == 0 && parts.month == 0 && parts.day == 0 {
        return Ok(Value::Date(Day::blank()));
    }
    match Day::from_parts(parts) {
        Some(day) => Ok(Value::Date(day)),
        None => Err(Flaw::Shape),
    }
}

#[tactic(auto, unfolding(crate::specs::Items::date_at))]
fn date_of(bytes: &[u8]) -> Result<(Result<Value, Flaw>, &[u8]), Missing>
    ensures { Finds (λ x. (x.0, x.1.now)) result (date_at bytes.now) }
{
    let (year, rest) = two_of(bytes)?;
    let (month, rest) = byte_of(rest)?;
    let (day, rest) = byte_of(rest)?;
    Ok((date_from(DayParts { year, month, day }), rest))
}

fn text_from(bytes: &[u8]) -> Result<Value, Flaw>
    ensures { result ≡ text_from_bytes bytes.now }
{
    if bytes.len() > 254 {
        return Err(Flaw::Shape);
    }
    Ok(Value::Text(xvalue::text_from(bytes)))
}

#[tactic(auto, unfolding(crate::specs::Items::text_value_at))]
fn text_value_of(bytes: &[u8]) -> Result<(Result<Value, Flaw>, &[u8]), Missing>
    ensures { Finds (λ x. (x.0, x.1.now)) result (text_value_at bytes.now) }
{
    let (text, rest) = counted_text(bytes)?;
    Ok((text_from(text), rest))
}

fn truth_from(byte: u8) -> Result<Value, Flaw>
    ensures { result ≡ truth_from_byte byte }
{
    match truth_of_number(byte) {
        None => Err(Flaw::Shape),
        Some(truth) => Ok(Value::Logical(truth)),
    }
}

#[tactic(auto, unfolding(crate::specs::Items::truth_at))]
fn truth_of(bytes: &[u8]) -> Result<(Result<Value, Flaw>, &[u8]), Missing>
    ensures { Finds (λ x. (x.0, x.1.now)) result (truth_at bytes.now) }
{
    let (byte, rest) = byte_of(bytes)?;
    Ok((truth_from(byte), rest))
}

#[tactic(auto, unfolding(crate::specs::Items::constant_at))]
fn constant_of(bytes: &[u8]) -> Result<(Result<Value, Flaw>, &[u8]), Missing>
    ensures { Finds (λ x. (x.0, x.1.now)) result (constant_at bytes.now) }
{
    let (byte, rest) = byte_of(bytes)?;
    match byte {
        1 => decimal_of(rest),
        2 => text_value_of(rest),
        3 => date_of(rest),
        4 => truth_of(rest),
        _ => Ok((Err(Flaw::Shape), rest)),
    }
}

/// Constants. Of one of an unknown kind the kind's byte alone is read.
#[derive(Clone, Copy)]
pub struct Constants;

impl Reads for Constants {
    type Thing = Value;

    ghost at = { λ _. constant_at };

    fn read<'a>(
        &self,
        _alloc: Global,
        bytes: &'a [u8],
    ) -> Result<(Result<Value, Flaw>, &'a [u8]), Unread> {
        Ok(constant_of(bytes)?)
    }
}
