//! Keys of rows.

ghost use Rattle.std.specs.Prelude.{◌≡◌, ◌+◌, ◌<◌, ◌≤◌, ◌++◌, length, map};
ghost use Rattle.std.specs.Char.{to_ascii_uppercase};
ghost use Rattle.dbf_file.specs.Rows.{row_at};
ghost use Rattle.dbf_file.specs.Tables.{row_widths};
ghost use Rattle.std.specs.Prelude.{◌*◌, slice_get};
ghost use Rattle.std.specs.List.{list_all};
ghost use Rattle.shape.specs.Keys.{IsKey, cased, key_of, key_length, width_of as width_of_field, names_text, key_bytes};
ghost use Rattle.shape.specs.Keys.{is_key, name_of, part_spelled, more_spelled, key_text};

use arrayvec::ArrayVec;
use dbf_file::{Field, Letter, Table};
use std::marker::Model;

/// The most parts of a key.
pub const MAX_PARTS: usize = 8;

/// How a key is spelled: at most eight names in UPPER(), joined by plus signs.
pub type KeyText = ArrayVec<u8, 143>;

/// The most bytes of a key.
pub const MAX_KEY: usize = 100;

/// A part of a key: a C field by its number, counted from 0, as it stands or in capitals.
#[derive(Clone, Copy, Debug, Default, PartialEq, Eq)]
pub struct KeyPart {
    pub field: u8,
    pub upper: bool,
}

/// How the key of a row is made: its parts' texts joined.
#[derive(Debug, Drop)]
pub struct KeyParts {
    parts: ArrayVec<KeyPart, 8>,
}

impl Model for KeyParts {
    ghost use Rattle.std.specs.Prelude.{List, length, ◌≤◌};
    ghost use Rattle.shape.specs.declared.parts.KeyPart.{KeyPart as ThePart};

    ghost Value = { List ThePart };

    ghost view = { λ k. k.parts.items };

    ghost invariant = { λ k. length k.parts.items ≤ 8 };
}

impl KeyParts {
    /// A key of these parts.
    pub fn new(parts: &[KeyPart]) -> Self
        requires { length parts.now ≤ 8 }
        ensures { result ≡ parts.now }
    {
        let mut copy = ArrayVec::new();
        copy.try_extend_from_slice(parts).unwrap();
        KeyParts { parts: copy }
    }

    /// The same key again.
    pub fn copied(&self) -> Self
        ensures { result ≡ self.now }
    {
        KeyParts::new(self.parts.as_slice())
    }

    /// The parts, in their order, at most eight.
    pub fn parts(&self) -> &[KeyPart]
        ensures parts { result.now ≡ self.now }
        ensures few { length self.now ≤ 8 }
    {
        self.parts.as_slice()
    }

    /// Whether rows of these fields can have the key: one to eight parts, each a field that holds texts, of 1 to 100
    /// bytes together.
    #[tactic(auto, unfolding(crate::specs::Keys::is_key))]
    pub fn fits(&self, fields: &[Field]) -> bool
        ensures { result ≡ is_key fields.now self.now }
    {
        let parts = self.parts();
        1 <= parts.len()
            && parts.len() <= MAX_PARTS
            && name_texts(fields, parts)
            && 1 <= bytes_in(fields, parts)
            && bytes_in(fields, parts) <= MAX_KEY
    }

    /// How many bytes the key has over these fields; a part that names no field gives none.
    pub fn bytes(&self, fields: &[Field]) -> usize
        ensures { result ≡ key_bytes fields.now self.now }
    {
        bytes_in(fields, self.parts())
    }

    /// How the key is spelled over these fields: their names joined by plus signs, in UPPER() where the text is taken
    /// in capitals.
    pub fn text(&self, fields: &[Field]) -> KeyText
        ensures { result.items ≡ key_text fields.now self.now }
    {
        let mut text = ArrayVec::new();
        match self.parts() {
            [] => {}
            [first, others @ ..] => {
                put_part(&mut text, fields, *first);
                put_more(&mut text, fields, others);
            }
        }
        text
    }

    /// The key of row `r`, counted from 0.
    pub fn row_key(&self, table: &Table, r: usize) -> ArrayVec<u8, 100>
        requires row { r < length table.now.rows }
        requires key { IsKey table.now.structure self.now }
        ensures key { result.items ≡ key_of self.now (row_at table.now.rows r).texts }
        ensures length { length result.items ≡ key_length self.now (row_widths table.now.structure) }
    {
        let mut key = ArrayVec::new();
        let mut rest = self.parts();
        while let Some((part, others)) = rest.split_first() {
            put_text(
                &mut key,
                table.field(r, usize::from(part.field)),
                part.upper,
            );
            rest = others;
        }
        key
    }

    /// The length of the keys of a table's rows.
    pub fn length(&self, table: &Table) -> usize
        requires { IsKey table.now.structure self.now }
        ensures { result ≡ key_length self.now (row_widths table.now.structure) }
    {
        let fields = table.structure().fields();
        let mut length = 0;
        let mut rest = self.parts();
        while let Some((part, more)) = rest.split_first() {
            length += usize::from(fields[usize::from(part.field)].width);
            rest = more;
        }
        length
    }
}

fn names_a_text(fields: &[Field], part: KeyPart) -> bool
    ensures { result ≡ names_text fields.now part }
{
    match fields.get(usize::from(part.field)) {
        Some(field) => matches!(field.letter, Letter::C),
        None => false,
    }
}

fn name_texts(fields: &[Field], parts: &[KeyPart]) -> bool
    ensures { result ≡ list_all (names_text fields.now) parts.now }
{
    parts.iter().all(|part| names_a_text(fields, *part))
}

fn width_in(fields: &[Field], part: KeyPart) -> u8
    ensures { result ≡ width_of_field (slice_get fields.now part.field) }
{
    match fields.get(usize::from(part.field)) {
        Some(field) => field.width,
        None => 0,
    }
}

fn bytes_in(fields: &[Field], parts: &[KeyPart]) -> usize
    requires { length parts.now ≤ 8 }
    ensures { result ≡ key_bytes fields.now parts.now }
{
    let mut bytes = 0;
    let mut rest = parts;
    while let Some((part, more)) = rest.split_first() {
        bytes += usize::from(width_in(fields, *part));
        rest = more;
    }
    bytes
}

fn put_name(text: &mut KeyText, fields: &[Field], part: KeyPart)
    requires { length text.old.items ≤ 133 }
    ensures value { text.new.items ≡ text.old.items ++ name_of (slice_get fields.now part.field) }
    ensures bound { length text.new.items ≤ length text.old.items + 10 }
{
    match fields.get(usize::from(part.field)) {
        Some(field) => text.try_extend_from_slice(field.name.as_slice()).unwrap(),
        None => {}
    }
}

fn put_part(text: &mut KeyText, fields: &[Field], part: KeyPart)
    requires { length text.old.items ≤ 126 }
    ensures value { text.new.items ≡ text.old.items ++ part_spelled fields.now part }
    ensures bound { length text.new.items ≤ length text.old.items + 17 }
{
    if part.upper {
        text.try_extend_from_slice(b"UPPER(").unwrap();
        put_name(text, fields, part);
        text.push(b')');
        return;
    }
    put_name(text, fields, part);
}

fn put_more(text: &mut KeyText, fields: &[Field], parts: &[KeyPart])
    requires { length text.old.items + 18 * length parts.now ≤ 143 }
    ensures { text.new.items ≡ text.old.items ++ more_spelled fields.now parts.now }
{
    let mut rest = parts;
    while let Some((part, more)) = rest.split_first() {
        text.push(b'+');
        put_part(text, fields, *part);
        rest = more;
    }
}

/// Puts a text at the end of a key, as it stands or in capitals.
pub fn put_text(key: &mut ArrayVec<u8, 100>, text: &[u8], upper: bool)
    requires { length key.old.items + length text.now ≤ 100 }
    ensures { key.new.items ≡ key.old.items ++ cased upper text.now }
{
    if upper {
        put_capitals(key, text);
        return;
    }
    key.try_extend_from_slice(text).unwrap();
}

/// Puts a text at the end of a key, in capitals.
fn put_capitals(key: &mut ArrayVec<u8, 100>, text: &[u8])
    requires { length key.old.items + length text.now ≤ 100 }
    ensures { key.new.items ≡ key.old.items ++ map to_ascii_uppercase text.now }
{
    let mut rest = text;
    while let Some((letter, others)) = rest.split_first() {
        key.push(letter.to_ascii_uppercase());
        rest = others;
    }
}
