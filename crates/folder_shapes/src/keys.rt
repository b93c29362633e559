//! Fields that make a key.

ghost use Rattle.std.specs.Prelude.{◌≡◌, ◌<◌, ◌≤◌, ◌∷◌, length, option_map, IfOk, IfSome};
ghost use Rattle.std.specs.List.{slice_split, position_or_len};
ghost use Rattle.std.specs.Option.{option_copied};
ghost use Rattle.folder_shapes.specs.Keys as spec;
ghost use Rattle.prg_expr.specs.Lexicon.{is_blank_or_tab};

use dbf_file::Field;
use shape::{KeyPart, KeyParts};
use std::alloc::{AllocError, Global};

/// The most bytes in which a key is spelled.
const MOST_SPELLED: usize = 100;

fn is_blank(byte: u8) -> bool
    ensures { result ≡ is_blank_or_tab byte }
{
    byte == b' ' || byte == b'\t'
}

/// A key's text in capitals and without blanks.
#[tactic(auto, unfolding(crate::specs::Keys::plain_text))]
pub fn plain_text(alloc: Global, text: &[u8]) -> Result<Vec<u8>, AllocError>
    ensures { IfOk result (λ plain. plain.items ≡ spec.plain_text text.now) }
{
    text.iter()
        .filter(|byte| !is_blank(**byte))
        .map(|byte| byte.to_ascii_uppercase())
        .collect(alloc)
}

/// Whether a piece stands in UPPER().
fn is_upper(piece: &[u8]) -> bool
    ensures { result ≡ spec.is_upper piece.now }
{
    piece.len() >= 7
        && &piece[..6] == b"UPPER(".as_slice()
        && &piece[piece.len() - 1..] == b")".as_slice()
}

/// The number of the field of that name, without regard to case.
fn field_named(fields: &[Field], name: &[u8]) -> Option<usize>
    ensures { result ≡ spec.number_named fields.now name.now }
{
    fields
        .iter()
        .position(|field| field.name.as_slice().eq_ignore_ascii_case(name))
}

/// The part that is the field of that name.
fn part_named(fields: &[Field], name: &[u8], upper: bool) -> Option<KeyPart>
    requires { length fields.now ≤ 128 }
    ensures { result ≡ spec.part_named fields.now name.now upper }
{
    match field_named(fields, name) {
        Some(field) => Some(KeyPart {
            field: field as u8,
            upper,
        }),
        None => None,
    }
}

/// The part that a piece of a key's text says.
#[tactic(auto, unfolding(crate::specs::Keys::part_in))]
fn part_in(fields: &[Field], piece: &[u8]) -> Option<KeyPart>
    requires { length fields.now ≤ 128 }
    ensures { result ≡ spec.part_in fields.now piece.now }
{
    if is_upper(piece) {
        return part_named(fields, &piece[6..piece.len() - 1], true);
    }
    part_named(fields, piece, false)
}

/// How long the piece before the first plus sign is.
fn piece_length(text: &[u8]) -> usize
    ensures value { result ≡ position_or_len spec.is_plus text.now }
    ensures within { result ≤ length text.now }
{
    text.iter().take_while(|byte| **byte != b'+').count()
}

/// The piece before the first plus sign, and what stands behind that.
fn first_piece(text: &[u8]) -> (&[u8], Option<&[u8]>)
    ensures pieces { slice_split spec.is_plus text.now ≡ result.0.now ∷ spec.pieces_behind (option_copied result.1) }
    ensures shorter { IfSome result.1 (λ behind. length behind.now < length text.now) }
{
    let length = piece_length(text);
    if length == text.len() {
        return (text, None);
    }
    (text.split_at(length).0, Some(text.split_at(length + 1).1))
}

/// The parts that the pieces of a text say, if each says one.
fn parts_in(
    alloc: Global,
    fields: &[Field],
    text: &[u8],
) -> Result<Option<Vec<KeyPart>>, AllocError>
    requires { length fields.now ≤ 128 }
    ensures { IfOk result (λ parts. option_map (λ ps. ps.items) parts
        ≡ spec.said_parts fields.now (slice_split spec.is_plus text.now)) }
{
    let mut parts = Vec::new(alloc);
    let mut rest = text;
    loop {
        let (piece, behind) = first_piece(rest);
        let Some(part) = part_in(fields, piece) else {
            return Ok(None);
        };
        parts.push(part)?;
        let Some(others) = behind else {
            return Ok(Some(parts));
        };
        rest = others;
    }
}

/// The key of these parts, if rows of the fields can have it, with keys of that length.
#[tactic(auto, unfolding(shape::specs::Keys::is_key))]
fn key_of(fields: &[Field], parts: &[KeyPart], key_length: usize) -> Option<KeyParts>
    ensures { option_map (λ key. key) result ≡ spec.fitting_key fields.now key_length parts.now }
{
    if 8 < parts.len() {
        return None;
    }
    let key = KeyParts::new(parts);
    if key.fits(fields) && key.bytes(fields) == key_length {
        return Some(key);
    }
    None
}

/// The key that fields make by a plain text, with keys of that length.
pub fn made_of(
    alloc: Global,
    fields: &[Field],
    plain: &[u8],
    key_length: usize,
) -> Result<Option<KeyParts>, AllocError>
    requires { length fields.now ≤ 128 }
    ensures { IfOk result (λ key. key ≡ spec.made_of fields.now key_length plain.now) }
{
    if 100 < plain.len() {
        return Ok(None);
    }
    match parts_in(alloc, fields, plain)? {
        Some(parts) => Ok(key_of(fields, parts.as_slice(), key_length)),
        None => Ok(None),
    }
}

/// Whether parts make a key that rows of the fields can have.
#[tactic(auto, unfolding(shape::specs::Keys::is_key))]
fn is_key_of(fields: &[Field], parts: &[KeyPart]) -> bool
    ensures { result ≡ spec.can_be_key fields.now parts.now }
{
    if 8 < parts.len() {
        return false;
    }
    let key = KeyParts::new(parts);
    key.fits(fields) && key.text(fields).len() <= MOST_SPELLED
}

/// Whether rows of the fields can have a key that is spelled so.
pub fn has_key(alloc: Global, fields: &[Field], spelled: &[u8]) -> Result<bool, AllocError>
    requires { length fields.now ≤ 128 }
    ensures { IfOk result (λ answer. answer ≡ spec.has_key fields.now spelled.now) }
{
    match parts_in(alloc, fields, spelled)? {
        Some(parts) => Ok(is_key_of(fields, parts.as_slice())),
        None => Ok(false),
    }
}
