//! Writing constants and filters.

ghost use Rattle.std.specs.Prelude.{◌≡◌, ◌<◌, ◌^◌, ◌++◌, length, OnOk};
ghost use Rattle.code_parts.specs.Texts.{decimal_text, date_text, constant_text, need_text, filter_text};

use crate::shapes::put_counted;
use crate::writing::{Writes, put_all, put_two};
use calendar::Day;
use code_items::{Filter, Need};
use code_parts::number_of_kind;
use fixed_num::Num;
use std::alloc::AllocError;
use xvalue::Value;

fn put_number(out: &mut Vec<u8>, number: Num) -> Result<(), AllocError>
    ensures { OnOk result (out.new.items ≡ out.old.items ++ decimal_text number) }
{
    let Some(parts) = number.parts() else {
        return Ok(());
    };
    out.push(parts.decimals)?;
    out.push(u8::from(parts.negative))?;
    out.extend_from_slice(&parts.magnitude.to_le_bytes())
}

fn put_date(out: &mut Vec<u8>, day: Day) -> Result<(), AllocError>
    ensures { OnOk result (out.new.items ≡ out.old.items ++ date_text day) }
{
    let Some(parts) = day.parts() else {
        return out.extend_from_slice(&[0; 4]);
    };
    put_two(out, parts.year)?;
    out.push(parts.month)?;
    out.push(parts.day)?;
    Ok(())
}

impl Writes for Value {
    ghost text = { constant_text };

    ghost fits = { λ _. Unit {0} };

    fn put(&self, out: &mut Vec<u8>) -> Result<(), AllocError> {
        match self {
            Value::Number(number) => {
                out.push(1)?;
                put_number(out, *number)
            }
            Value::Text(text) => {
                out.push(2)?;
                put_counted(out, text.as_slice())
            }
            Value::Date(day) => {
                out.push(3)?;
                put_date(out, *day)
            }
            Value::Logical(truth) => {
                out.push(4)?;
                out.push(if *truth { 1 } else { 0 })?;
                Ok(())
            }
        }
    }
}

impl Writes for Need {
    ghost text = { need_text };

    ghost fits = { λ _. Unit {0} };

    fn put(&self, out: &mut Vec<u8>) -> Result<(), AllocError> {
        out.push(self.slot)?;
        out.push(number_of_kind(self.kind))?;
        Ok(())
    }
}

impl Writes for Filter {
    ghost text = { filter_text };

    ghost fits = { λ f. length f.needs < 2 ^ 16 };

    fn put(&self, out: &mut Vec<u8>) -> Result<(), AllocError> {
        out.push(self.table)?;
        put_two(out, self.length)?;
        put_two(out, self.needs.len() as u16)?;
        put_all(out, self.needs.as_slice())
    }
}
