//! The fields of a table.

ghost use Rattle.std.specs.Prelude.{◌≡◌, ◌≤◌, ◌<◌, [], length, slice_index, ◌&&◌};
ghost use Rattle.std.specs.List.{list_all, list_any};
ghost use Rattle.dbf_file.specs.Names.{is_name_byte, begins_with_letter, is_name as is_name_of};
ghost use Rattle.dbf_file.specs.Names.{same_name as same_name_of};
ghost use Rattle.dbf_file.specs.Fields.{code_of, letter_of, has_shape, is_field, is_new as is_new_of, fields_go_on};
ghost use Rattle.dbf_file.specs.Fields.{are_fields as are_fields_of, widths_of, size_of as size_of_fields};

use arrayvec::ArrayVec;

/// The most fields of a table.
pub(crate) const MAX_FIELDS: usize = 128;

/// The most bytes of a name.
pub const MAX_NAME: usize = 10;

/// The most digits behind a number's point.
pub const MAX_DECIMALS: u8 = 15;

/// The most bytes of a record: its mark and its fields.
pub(crate) const MAX_RECORD: usize = 4000;

/// The letter of a field: what its text stands for.
#[derive(Clone, Copy, Debug, Default, PartialEq, Eq)]
pub enum Letter {
    /// A text of 1 to 254 bytes.
    #[default]
    C,
    /// A number in 1 to 19 bytes: without decimals, or with up to 15 of them and at least two bytes more than these.
    N,
    /// A day in 8 bytes: four digits of the year, two of the month, two of the day, or blanks.
    D,
    /// A truth value in one byte.
    L,
}

impl Letter {
    /// The byte of the letter.
    pub fn code(self) -> u8
        ensures { result ≡ code_of self }
    {
        match self {
            Letter::C => b'C',
            Letter::N => b'N',
            Letter::D => b'D',
            Letter::L => b'L',
        }
    }

    /// The letter of this byte, a capital.
    pub fn of_code(code: u8) -> Option<Letter>
        ensures { result ≡ letter_of code }
    {
        match code {
            b'C' => Some(Letter::C),
            b'N' => Some(Letter::N),
            b'D' => Some(Letter::D),
            b'L' => Some(Letter::L),
            _ => None,
        }
    }

    /// Whether a field of this letter may have this width and these decimals. All but numbers have decimals 0.
    pub fn has_shape(self, width: u8, decimals: u8) -> bool
        ensures { result ≡ has_shape self width decimals }
    {
        match self {
            Letter::C => (1..=254).contains(&width) && decimals == 0,
            Letter::N => {
                1 <= width
                    && width <= 19
                    && (decimals == 0 || (decimals <= 15 && decimals + 2 <= width))
            }
            Letter::D => width == 8 && decimals == 0,
            Letter::L => width == 1 && decimals == 0,
        }
    }
}

/// A field of a table.
#[derive(Debug, Default, PartialEq, Eq, Drop)]
pub struct Field {
    /// The name: a letter, then letters, digits and underscores, 10 bytes at most.
    pub name: ArrayVec<u8, MAX_NAME>,
    /// What the field's texts stand for.
    pub letter: Letter,
    /// The bytes of each text.
    pub width: u8,
    /// The digits behind a number's point, else 0.
    pub decimals: u8,
}

/// Whether the first byte is a letter.
fn begins_with_letter(name: &[u8]) -> bool
    ensures { result ≡ begins_with_letter name.now }
{
    match name {
        [first, ..] => first.is_ascii_alphabetic(),
        [] => false,
    }
}

/// Whether these are letters, digits and underscores.
fn are_name_bytes(name: &[u8]) -> bool
    ensures { result ≡ list_all is_name_byte name.now }
{
    name.iter()
        .all(|byte| byte.is_ascii_alphanumeric() || *byte == b'_')
}

/// Whether these bytes are at most ten letters, digits and underscores, a letter first.
#[tactic(auto, unfolding(crate::specs::Names::is_name))]
fn is_name(name: &[u8]) -> bool
    ensures { result ≡ is_name_of name.now }
{
    name.len() <= MAX_NAME && begins_with_letter(name) && are_name_bytes(name)
}

/// Whether these are one name, without regard to case.
#[tactic(auto, unfolding(crate::specs::Names::same_name))]
fn same_name(a: &[u8], b: &[u8]) -> bool
    ensures { result ≡ same_name_of a.now b.now }
{
    a.eq_ignore_ascii_case(b)
}

impl Field {
    /// The same field once more. It takes no memory.
    pub fn copied(&self) -> Field
        ensures { result ≡ self.now }
    {
        let mut name = ArrayVec::new();
        match name.try_extend_from_slice(self.name.as_slice()) {
            Ok(()) => Field {
                name,
                letter: self.letter,
                width: self.width,
                decimals: self.decimals,
            },
            Err(_) => unreachable!(),
        }
    }

    /// Whether a table can have the field.
    #[tactic(auto, unfolding(crate::specs::Fields::is_field))]
    pub fn is_valid(&self) -> bool
        ensures { result ≡ is_field self.now }
    {
        is_name(&self.name) && self.letter.has_shape(self.width, self.decimals)
    }
}

/// Whether one of the earlier fields has this name, without regard to case.
fn is_taken(earlier: &[Field], name: &[u8]) -> bool
    ensures { result ≡ list_any (λ g. same_name_of g.name.items name.now) earlier.now }
{
    earlier
        .iter()
        .any(|other| same_name(other.name.as_slice(), name))
}

/// Whether none of the earlier fields has the name of this one, without regard to case.
#[tactic(auto, unfolding(crate::specs::Fields::is_new))]
pub(crate) fn is_new(earlier: &[Field], field: &Field) -> bool
    ensures { result ≡ is_new_of earlier.now field.now }
{
    !is_taken(earlier, field.name.as_slice())
}

/// The bytes of a record of these fields: a mark, and their widths.
pub(crate) fn size_of(fields: &[Field]) -> usize
    requires { length fields.now ≤ 128 }
    ensures value { result ≡ size_of_fields (widths_of fields.now) }
    ensures bound { result ≤ 32641 }
{
    let mut size = 1;
    for field in fields {
        size += usize::from(field.width);
    }
    size
}

/// The width of field `f`.
pub(crate) fn width_of(fields: &[Field], f: usize) -> usize
    requires { f < length fields.now }
    ensures value { result ≡ slice_index (widths_of fields.now) f }
    ensures bound { result < 256 }
{
    usize::from(fields[f].width)
}

/// Whether it is a field, and has another name than the earlier ones.
fn goes_on(earlier: &[Field], field: &Field) -> bool
    ensures { result ≡ (is_field field.now && is_new_of earlier.now field.now) }
{
    field.is_valid() && is_new(earlier, field)
}

/// Whether each is a field, and has another name than the earlier ones and those before it.
fn go_on(fields: &[Field]) -> bool
    ensures { result ≡ fields_go_on [] fields.now }
{
    for (f, field) in fields.iter().enumerate() {
        if !goes_on(&fields[..f], field) {
            return false;
        }
    }
    true
}

/// Whether a table can have these fields: 1 to 128 of them, each valid, with different names, in a record of at most
/// 4000 bytes.
#[tactic(auto, unfolding(crate::specs::Fields::are_fields))]
pub fn are_fields(fields: &[Field]) -> bool
    ensures { result ≡ are_fields_of fields.now }
{
    1 <= fields.len()
        && fields.len() <= MAX_FIELDS
        && go_on(fields)
        && size_of(fields) <= MAX_RECORD
}
