//! The descriptors of fields.

ghost use Rattle.std.specs.Prelude.{◌≡◌, ◌≤◌, ◌<◌, length, [], position, ◌==◌, IfSome, IfOk, MatchResult, Ok, Err};
ghost use Rattle.dbf_file.specs.Descriptors.{decimals_of, field_with, if_field, told_field as told_field_of, if_new};
ghost use Rattle.dbf_file.specs.Descriptors.{next_told, fields_from};

use crate::fault::DbfFault;
use crate::field::{Field, Letter, MAX_FIELDS, MAX_NAME, is_new};
use arrayvec::ArrayVec;

/// The place of the letter in a descriptor. The bytes before it hold the name and the zero byte that ends it.
const LETTER_PLACE: usize = 11;

/// The place of the width in a descriptor.
const WIDTH_PLACE: usize = 16;

/// The place of the decimals in a descriptor.
const DECIMALS_PLACE: usize = 17;

/// The bytes of a descriptor.
pub(crate) const DESCRIPTOR: usize = 32;

/// The byte behind the last descriptor.
pub(crate) const END: u8 = 13;

/// The decimals of a field with this byte of decimals.
fn decimals_of(letter: Letter, byte: u8) -> u8
    ensures { result ≡ decimals_of letter byte }
{
    match letter {
        Letter::N => byte,
        Letter::C | Letter::D | Letter::L => 0,
    }
}

/// The place of the first zero byte.
fn end_of(bytes: &[u8]) -> Option<usize>
    ensures value { result ≡ position (λ byte. byte == 0) bytes.now }
    ensures within { IfSome result (λ end. end < length bytes.now) }
{
    bytes.iter().position(|byte| *byte == 0)
}

/// The name of these bytes.
fn name_of(bytes: &[u8]) -> ArrayVec<u8, MAX_NAME>
    requires { length bytes.now ≤ 10 }
    ensures { result.items ≡ bytes.now }
{
    let mut name = ArrayVec::new();
    match name.try_extend_from_slice(bytes) {
        Ok(()) => name,
        Err(_) => unreachable!(),
    }
}

/// The field of a descriptor, by the length of its name and its letter.
fn field_with(descriptor: &[u8], end: usize, letter: Letter) -> Field
    requires whole { length descriptor.now ≡ 32 }
    requires short { end ≤ 10 }
    ensures { result ≡ field_with descriptor.now end letter }
{
    Field {
        name: name_of(&descriptor[..end]),
        letter,
        width: descriptor[WIDTH_PLACE],
        decimals: decimals_of(letter, descriptor[DECIMALS_PLACE]),
    }
}

/// The field, where a table can have it.
fn if_field(field: Field) -> Option<Field>
    ensures { result ≡ if_field field }
{
    if field.is_valid() { Some(field) } else { None }
}

/// The field that a descriptor tells, `None` where it is bad.
#[tactic(auto, unfolding(crate::specs::Descriptors::told_field))]
fn told_field(descriptor: &[u8]) -> Option<Field>
    requires { length descriptor.now ≡ 32 }
    ensures { result ≡ told_field_of descriptor.now }
{
    let end = end_of(&descriptor[..LETTER_PLACE])?;
    let letter = Letter::of_code(descriptor[LETTER_PLACE])?;
    if_field(field_with(descriptor, end, letter))
}

/// The field, where it is told and has another name than the earlier ones.
fn if_new(earlier: &[Field], told: Option<Field>) -> Result<Option<Field>, DbfFault>
    ensures { result ≡ if_new earlier.now told }
{
    match told {
        Some(field) => {
            if is_new(earlier, &field) {
                Ok(Some(field))
            } else {
                Err(DbfFault::FieldShape)
            }
        }
        None => Err(DbfFault::FieldShape),
    }
}

/// What stands behind the descriptors of the earlier fields: one more field, or `None` at their end.
#[tactic(auto, unfolding(crate::specs::Descriptors::next_told))]
fn next_told(earlier: &[Field], bytes: &[u8]) -> Result<Option<Field>, DbfFault>
    ensures told { result ≡ next_told earlier.now bytes.now }
    ensures room { IfOk result (λ told. IfSome told (λ _. (length earlier.now < 128) × (32 ≤ length bytes.now))) }
{
    match bytes {
        [] => Err(DbfFault::NoEnd),
        [END, ..] => {
            if earlier.is_empty() {
                Err(DbfFault::FieldShape)
            } else {
                Ok(None)
            }
        }
        _ => {
            if earlier.len() >= MAX_FIELDS {
                Err(DbfFault::FieldShape)
            } else if bytes.len() < DESCRIPTOR {
                Err(DbfFault::NoEnd)
            } else {
                if_new(earlier, told_field(&bytes[..DESCRIPTOR]))
            }
        }
    }
}

/// The fields of the descriptors that these bytes begin with.
pub(crate) fn fields_of(bytes: &[u8]) -> Result<ArrayVec<Field, MAX_FIELDS>, DbfFault>
    ensures { MatchResult result (λ fields. fields_from 129 [] bytes.now ≡ Ok fields.items)
        (λ fault. fields_from 129 [] bytes.now ≡ Err fault) }
{
    let mut fields = ArrayVec::new();
    let mut rest = bytes;
    for _ in 0..MAX_FIELDS + 1 {
        let Some(field) = next_told(fields.as_slice(), rest)? else {
            return Ok(fields);
        };
        fields.push(field);
        rest = rest.split_at(DESCRIPTOR).1;
    }
    Err(DbfFault::FieldShape)
}
