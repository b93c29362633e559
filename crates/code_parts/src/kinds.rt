//! Kinds of values.

ghost use Rattle.std.specs.Prelude.{◌≡◌};
ghost use Rattle.code_parts.specs.Texts.{kind_number, slot_number};
ghost use Rattle.code_parts.specs.Items.{kind_of_byte, kind_from as kind_from_byte, slot_from as slot_from_byte};
ghost use Rattle.code_parts.specs.Items.{truth_of_byte, kind_at, slot_at};

use crate::fields::byte_of;
use crate::flaw::{Flaw, Unread};
use crate::several::Reads;
use std::alloc::Global;
use xvalue::Kind;

/// The kind of this number.
pub fn kind_of_number(byte: u8) -> Option<Kind>
    ensures { result ≡ kind_of_byte byte }
{
    match byte {
        1 => Some(Kind::Number),
        2 => Some(Kind::Text),
        3 => Some(Kind::Date),
        4 => Some(Kind::Logical),
        _ => None,
    }
}

/// The number of a kind.
pub fn number_of_kind(kind: Kind) -> u8
    ensures { result ≡ kind_number kind }
{
    match kind {
        Kind::Number => 1,
        Kind::Text => 2,
        Kind::Date => 3,
        Kind::Logical => 4,
    }
}

/// The number of a slot's kind; 0 for none.
pub fn number_of_slot(slot: Option<Kind>) -> u8
    ensures { result ≡ slot_number slot }
{
    match slot {
        None => 0,
        Some(kind) => number_of_kind(kind),
    }
}

/// The truth value of this number.
pub fn truth_of_number(byte: u8) -> Option<bool>
    ensures { result ≡ truth_of_byte byte }
{
    match byte {
        0 => Some(false),
        1 => Some(true),
        _ => None,
    }
}

fn kind_from(byte: u8) -> Result<Kind, Flaw>
    ensures { result ≡ kind_from_byte byte }
{
    match kind_of_number(byte) {
        None => Err(Flaw::Shape),
        Some(kind) => Ok(kind),
    }
}

fn slot_from(byte: u8) -> Result<Option<Kind>, Flaw>
    ensures { result ≡ slot_from_byte byte }
{
    if byte == 0 {
        return Ok(None);
    }
    match kind_of_number(byte) {
        None => Err(Flaw::Shape),
        Some(kind) => Ok(Some(kind)),
    }
}

/// Kinds, by their numbers.
#[derive(Clone, Copy)]
pub struct KindItems;

impl Reads for KindItems {
    type Thing = Kind;

    ghost at = { λ _. kind_at };

    #[tactic(auto, unfolding(crate::specs::Items::kind_at))]
    fn read<'a>(
        &self,
        _alloc: Global,
        bytes: &'a [u8],
    ) -> Result<(Result<Kind, Flaw>, &'a [u8]), Unread> {
        let (byte, rest) = byte_of(bytes)?;
        Ok((kind_from(byte), rest))
    }
}

/// The kinds of slots, by their numbers, or 0 for none.
#[derive(Clone, Copy)]
pub struct SlotItems;

impl Reads for SlotItems {
    type Thing = Option<Kind>;

    ghost at = { λ _. slot_at };

    #[tactic(auto, unfolding(crate::specs::Items::slot_at))]
    fn read<'a>(
        &self,
        _alloc: Global,
        bytes: &'a [u8],
    ) -> Result<(Result<Option<Kind>, Flaw>, &'a [u8]), Unread> {
        let (byte, rest) = byte_of(bytes)?;
        Ok((slot_from(byte), rest))
    }
}
