// Files byte by byte, and the rules of fields.

ghost use Rattle.std.specs.Prelude.{◌≡◌, ◌<◌, ◌≤◌, length, IsTrue};

use crate::files::bytes::set;
use arrayvec::ArrayVec;
use calendar::{Day, DayParts};
use dbf_file::{
    DbfFault, Field, Letter, MAX_NAME, Stamp, Table, are_fields, put, read, read_in_place, value,
    write,
};
use fixed_num::Num;
use std::alloc::{AllocError, Global};
use std::test::Fail;
use xvalue::{Kind, Lent, Settings, Value};

/// 9 May 1988.
const STAMP: Stamp = Stamp {
    year: 88,
    month: 5,
    day: 9,
};

/// The first ten bytes of a name.
fn name_of(name: &[u8]) -> ArrayVec<u8, MAX_NAME> {
    let mut made = ArrayVec::new();
    for byte in name {
        let _ = made.try_push(*byte);
    }
    made
}

/// A field, its name cut after ten bytes.
fn field(name: &[u8], letter: Letter, width: u8, decimals: u8) -> Field
    ensures letter { result.letter ≡ letter }
    ensures width { result.width ≡ width }
{
    Field {
        name: name_of(name),
        letter,
        width,
        decimals,
    }
}

/// A descriptor, with other bytes where they have no meaning.
fn push_descriptor(
    file: &mut Vec<u8>,
    name: &[u8],
    letter: u8,
    width: u8,
    decimals: u8,
) -> Result<(), AllocError> {
    for place in 0..11 {
        file.push(name.get(place).copied().unwrap_or(0))?;
    }
    file.extend_from_slice(&[letter, 1, 2, 3, 4, width, decimals])?;
    file.extend_from_slice(&[9; 14])
}

/// The first 32 bytes of a file.
fn push_front(
    file: &mut Vec<u8>,
    version: u8,
    rows: u8,
    header: u16,
    size: u16,
) -> Result<(), AllocError> {
    let [header_low, header_high] = header.to_le_bytes();
    let [size_low, size_high] = size.to_le_bytes();
    file.extend_from_slice(&[
        version,
        88,
        5,
        9,
        rows,
        0,
        0,
        0,
        header_low,
        header_high,
        size_low,
        size_high,
    ])?;
    file.extend_from_slice(&[7; 20])
}

/// One field C 3, a header of 66 bytes, one live record, and no byte behind it: 70 bytes.
fn seventy(alloc: Global) -> Result<Vec<u8>, AllocError> {
    let mut file = Vec::new(alloc);
    push_front(&mut file, 3, 1, 66, 4)?;
    push_descriptor(&mut file, b"K", b'C', 3, 0)?;
    file.extend_from_slice(b"\x0d\x55 abc")?;
    Ok(file)
}

/// The table of these bytes or their fault, where the bytes are taken over.
fn taken_over(alloc: Global, bytes: &[u8], limit: usize) -> Result<Table, DbfFault> {
    match Vec::from_slice(alloc, bytes) {
        Ok(copy) => read_in_place(alloc, copy, limit),
        Err(_) => Err(DbfFault::Memory),
    }
}

/// The fault of these bytes, within 1000 rows, the same whether they are lent or taken over.
fn fault_of(alloc: Global, bytes: &[u8]) -> Option<DbfFault> {
    let fault = read(alloc, bytes, 1000).err();
    if taken_over(alloc, bytes, 1000).err() == fault {
        fault
    } else {
        None
    }
}

/// The table of these bytes, within so many rows, that is made of bytes taken over; none where one of bytes that are
/// lent has other rows.
fn table_of(alloc: Global, bytes: &[u8], limit: usize) -> Option<Table> {
    let lent = read(alloc, bytes, limit).ok()?;
    let taken = taken_over(alloc, bytes, limit).ok()?;
    if lent.rows() == taken.rows() {
        Some(taken)
    } else {
        None
    }
}

/// The table's file.
fn written(alloc: Global, table: &Table) -> Result<Vec<u8>, AllocError> {
    write(alloc, table, STAMP)
}

/// Whether a row is marked, where the table has it.
fn mark_of(table: &Table, r: usize) -> Option<bool> {
    if r < table.rows() {
        Some(table.mark(r))
    } else {
        None
    }
}

/// Whether the field of a row is there and holds this text.
fn holds(table: &Table, r: usize, f: usize, text: &[u8]) -> bool {
    r < table.rows() && f < table.structure().fields().len() && table.field(r, f) == text
}

/// Whether the bytes from a place up to another are these.
fn are(bytes: &[u8], from: usize, to: usize, wanted: &[u8]) -> bool {
    bytes.get(from..to) == Some(wanted)
}

/// The file with other bytes at places: a place and a byte each, with `,` between them.
fn with_bytes(alloc: Global, changes: &str) -> Result<Vec<u8>, AllocError> {
    let mut file = seventy(alloc)?;
    for change in changes.split(',') {
        let (place, byte) = change.split_once(' ').unwrap_or((change, ""));
        set(
            &mut file,
            place.parse().unwrap_or(0),
            byte.parse().unwrap_or(0),
        );
    }
    Ok(file)
}

fn seventy_bytes_are_a_table(alloc: Global) -> Result<bool, AllocError> {
    let file = seventy(alloc)?;
    match table_of(alloc, file.as_slice(), 1) {
        Some(table) => Ok(
            file.len() == 70
                && table.rows() == 1
                && mark_of(&table, 0) == Some(false)
                && holds(&table, 0, 0, b"abc")
                && table.structure().fields().len() == 1,
        ),
        None => Ok(false),
    }
}

fn a_byte_less_is_truncated(alloc: Global) -> Result<bool, AllocError> {
    let mut file = seventy(alloc)?;
    let _ = file.pop();
    Ok(fault_of(alloc, file.as_slice()) == Some(DbfFault::Truncated))
}

/// Whether bytes behind the last row are gone in the file that is written.
fn drops_bytes_behind(alloc: Global) -> Result<bool, AllocError> {
    let mut file = seventy(alloc)?;
    file.extend_from_slice(b"\x1aXXXX")?;
    match table_of(alloc, file.as_slice(), 1000) {
        None => Ok(false),
        Some(table) => {
            let again = written(alloc, &table)?;
            Ok(again.len() == 71 && file.get(..71) == Some(again.as_slice()))
        }
    }
}

/// Bytes that are put at places of the file, and the fault that is told then, the first of two.
const FAULTS: &str = "\
0 4|Version
0 131|Version
8 64|HeaderLength
8 71|HeaderLength
43 99|FieldShape
43 77|FieldShape
48 0|FieldShape
32 49|FieldShape
32 0|FieldShape
32 13|FieldShape
64 88|NoEnd
10 5|RecordLength
4 2|Truncated
66 120|RecordMark
0 4,8 64|Version
8 64,43 99|HeaderLength
43 99,64 88|FieldShape
64 88,10 5|NoEnd
48 0,10 5|FieldShape
10 5,5 9|RecordLength
5 9,66 120|TooMany
4 2,66 120|Truncated
";

/// Whether the file with the bytes of a row has its fault.
fn is_told(alloc: Global, row: &str) -> Result<bool, AllocError> {
    let (changes, wanted) = row.split_once('|').unwrap_or((row, ""));
    let file = with_bytes(alloc, changes)?;
    match fault_of(alloc, file.as_slice()) {
        Some(fault) => Ok(fault.to_string(alloc)?.as_str() == wanted),
        None => Ok(false),
    }
}

/// The first row whose fault isn't told.
fn first_untold<'a>(alloc: Global, rows: &'a str) -> Result<Option<&'a str>, AllocError> {
    for row in rows.lines() {
        if !is_told(alloc, row)? {
            return Ok(Some(row));
        }
    }
    Ok(None)
}

/// Whether the front of a file is told as short before any other fault.
fn a_front_is_short(alloc: Global) -> Result<bool, AllocError> {
    let both = with_bytes(alloc, "0 4,8 64")?;
    let front = both.get(..64).unwrap_or(b"");
    Ok(fault_of(alloc, front) == Some(DbfFault::Short))
}

fn short_files_and_too_many_rows(alloc: Global) -> Result<bool, AllocError> {
    let file = seventy(alloc)?;
    let front = file.get(..64).unwrap_or(b"");
    Ok(
        fault_of(alloc, b"") == Some(DbfFault::Short)
            && fault_of(alloc, front) == Some(DbfFault::Short)
            && read(alloc, file.as_slice(), 0).err() == Some(DbfFault::TooMany),
    )
}

fn a_name_comes_once(alloc: Global) -> Result<bool, AllocError> {
    let mut file = Vec::new(alloc);
    push_front(&mut file, 3, 0, 97, 3)?;
    push_descriptor(&mut file, b"KEY", b'C', 1, 0)?;
    push_descriptor(&mut file, b"Key", b'C', 1, 0)?;
    file.push(13)?;
    Ok(fault_of(alloc, file.as_slice()) == Some(DbfFault::FieldShape))
}

/// Takes a row's mark away, where the table has the row.
fn unmark(table: &mut Table, r: usize) {
    if r < table.rows() {
        table.set_mark(r, false);
    }
}

/// Whether a marked row stays marked in the file that is written, until its mark is taken away.
fn mark_stays(alloc: Global, table: &mut Table, file: &[u8]) -> Result<bool, AllocError> {
    let marked = table.rows() == 1 && mark_of(table, 0) == Some(true);
    let again = written(alloc, table)?;
    unmark(table, 0);
    Ok(marked && are(again.as_slice(), 0, 70, file) && mark_of(table, 0) == Some(false))
}

fn marks_stay(alloc: Global) -> Result<bool, AllocError> {
    let file = with_bytes(alloc, "66 42")?;
    match table_of(alloc, file.as_slice(), 1000) {
        Some(mut table) => mark_stays(alloc, &mut table, file.as_slice()),
        None => Ok(false),
    }
}

/// Writes a value into a text, where the value and the text suit the field.
fn put_where_it_suits(field: &Field, from: &Value, text: &mut [u8]) -> bool {
    if text.len() == usize::from(field.width) && from.kind() == field.letter.kind() {
        put(field, &Lent::of(from), text);
        true
    } else {
        false
    }
}

/// Whether the value of a text is shown on the screen so.
fn shows(field: &Field, text: &[u8], shown: &[u8]) -> bool {
    value(field, text).shown(Settings::off()).as_slice() == shown
}

/// Whether a value is written as a text of at most ten bytes, where other bytes stood.
fn writes(field: &Field, from: &Value, wanted: &[u8]) -> bool {
    let mut text = [b'X'; 10];
    let width = wanted.len().min(10);
    put_where_it_suits(field, from, &mut text[..width]) && &text[..width] == wanted
}

/// A field's letter, width and decimals; a text of it and how the screen shows that, or behind `>` a value and the text
/// that it is written as: numbers stand right, texts are cut or padded, and a field that no table has holds values too.
const FIELDS: &str = "\
N 5 2|     |      0.00
N 5 2|*****|**********
N 5 2|   12|        12
N 5 2>12.345 |12.35
N 5 2>123.456|*****
N 5 2>-1     |-1.00
C 3 0>Anna|Ann
C 3 0>A|A  
C 3 0|A b|A b
D 4 0>|    
D 4 0|1988|  /  /  
N 9 40>7|*********
L 2 0>T|T 
L 2 0||.F.
D 8 0|19880229|02/29/88
D 8 0|19890229|  /  /  
D 8 0|        |  /  /  
D 8 0>12/01/0007|00071201
D 8 0>|        
L 1 0|y|.T.
L 1 0|?|.F.
L 1 0>T|T
L 1 0>F|F
";

fn letter_of(word: &str) -> Letter {
    if word == "N" {
        return Letter::N;
    }
    if word == "D" {
        return Letter::D;
    }
    if word == "L" {
        return Letter::L;
    }
    Letter::C
}

fn field_of(text: &str) -> Field {
    let mut words = text.split(' ');
    let letter = letter_of(words.next().unwrap_or(""));
    let width = words.next().unwrap_or("").parse().unwrap_or(0);
    let decimals = words.next().unwrap_or("").parse().unwrap_or(0);
    field(b"F", letter, width, decimals)
}

/// The value of a field that a text spells.
fn value_of(letter: Letter, spelled: &[u8]) -> Value {
    match letter {
        Letter::C => text_value(spelled),
        Letter::N => Value::Number(Num::parse(spelled)),
        Letter::D => Value::Date(Day::read(spelled)),
        Letter::L => Value::Logical(spelled == b"T".as_slice()),
    }
}

fn is_right(row: &str) -> bool {
    let (said, wanted) = row.rsplit_once('|').unwrap_or((row, ""));
    if let Some((field, spelled)) = said.split_once('>') {
        let field = field_of(field);
        return writes(
            &field,
            &value_of(field.letter, spelled.as_bytes()),
            wanted.as_bytes(),
        );
    }
    let (field, text) = said.split_once('|').unwrap_or((said, ""));
    shows(&field_of(field), text.as_bytes(), wanted.as_bytes())
}

fn first_wrong<'a>(rows: &'a str) -> Option<&'a str> {
    for row in rows.lines() {
        if !is_right(row) {
            return Some(row);
        }
    }
    None
}

/// The field NAME C 10.
fn name_field() -> Field {
    field(b"NAME", Letter::C, 10, 0)
}

/// A table of that field without rows.
fn no_rows(alloc: Global) -> Result<Option<Table>, AllocError> {
    let fields = [name_field()];
    if are_fields(&fields) {
        Ok(Some(Table::empty(alloc, &fields)?))
    } else {
        Ok(None)
    }
}

/// Appends a blank row where there are few.
fn append(table: &mut Table) -> Result<bool, AllocError> {
    if table.rows() > 1000 {
        return Ok(false);
    }
    table.reserve_row()?;
    table.push_blank();
    Ok(true)
}

/// Whether the table has a row and a field.
fn has_first(table: &Table) -> bool
    ensures { IsTrue result → (0 < length table.now.rows) × (0 < length table.now.structure.fields) }
{
    table.rows() > 0 && !table.structure().fields().is_empty()
}

/// Writes a value into the first field of the first row, where it has the field's kind.
fn put_first(table: &mut Table, from: &Value) -> bool {
    if !has_first(table) || from.kind() != table.structure().fields()[0].letter.kind() {
        return false;
    }
    table.put_at(0, 0, &Lent::of(from));
    true
}

/// Whether the value of the first field of the first row is shown so.
fn first_shows(table: &Table, shown: &[u8]) -> bool {
    has_first(table) && shows(&table.structure().fields()[0], table.field(0, 0), shown)
}

/// Writes a text of the field's length into the first field of the first row.
fn write_first(table: &mut Table, text: &[u8]) -> bool {
    if !has_first(table) {
        return false;
    }
    let room = table.field_mut(0, 0);
    if room.len() != text.len() {
        return false;
    }
    room.copy_from_slice(text);
    true
}

/// Writes a value as a field of the table's first row, by the field's own text.
fn lend_first(table: &mut Table, from: &Value) -> bool {
    has_first(table) && put_where_it_suits(&name_field(), from, table.field_mut(0, 0))
}

fn text_value(text: &[u8]) -> Value {
    let mut bytes = xvalue::Text::new();
    let _ = bytes.try_extend_from_slice(text);
    Value::Text(bytes)
}

/// Whether a row is written as a value, as bytes and once more as a value.
fn writes_a_row(table: &mut Table) -> bool {
    put_first(table, &text_value(b"Ann"))
        && first_shows(table, b"Ann       ")
        && write_first(table, b"Bob       ")
        && holds(table, 0, 0, b"Bob       ")
        && lend_first(table, &text_value(b"Ann"))
}

/// Whether a table without rows gets one and is written.
fn gets_a_row(alloc: Global, table: &mut Table) -> Result<bool, AllocError> {
    let empty = table.rows() == 0 && table.structure().fields().len() == 1;
    let row = append(table)? && writes_a_row(table) && table.rows() == 1;
    let bytes = written(alloc, table)?;
    let front = b"\x03\x58\x05\x09\x01\x00\x00\x00\x41\x00\x0b\x00";
    Ok(
        empty
            && row
            && bytes.len() == 77
            && are(bytes.as_slice(), 65, 77, b" Ann       \x1a")
            && are(bytes.as_slice(), 0, 12, front)
            && table_of(alloc, bytes.as_slice(), 1).is_some(),
    )
}

fn a_table_of_one_row(alloc: Global) -> Result<bool, AllocError> {
    match no_rows(alloc)? {
        Some(mut table) => gets_a_row(alloc, &mut table),
        None => Ok(false),
    }
}

/// The ninth of May of a year.
fn in_may(year: u16) -> Day {
    let parts = DayParts {
        year,
        month: 5,
        day: 9,
    };
    Day::from_parts(parts).unwrap_or(Day::blank())
}

fn stamps_have_years_from_1900_to_2155() -> bool {
    let last = Stamp { year: 255, ..STAMP };
    Stamp::of(in_may(1988)) == Some(STAMP)
        && Stamp::of(in_may(1899)).is_none()
        && Stamp::of(in_may(2155)) == Some(last)
        && Stamp::of(in_may(2156)).is_none()
        && Stamp::of(Day::blank()).is_none()
}

/// Four rows of one field K C 1, the first and the third marked.
fn four_rows(alloc: Global) -> Result<Vec<u8>, AllocError> {
    let mut file = Vec::new(alloc);
    push_front(&mut file, 3, 4, 65, 2)?;
    push_descriptor(&mut file, b"K", b'C', 1, 0)?;
    file.extend_from_slice(b"\x0d*a b*c d\x1a")?;
    Ok(file)
}

/// Whether two of four rows are kept, and then none.
fn packs(alloc: Global, table: &mut Table) -> Result<bool, AllocError> {
    table.pack();
    let bytes = written(alloc, table)?;
    let two = table.rows() == 2;
    table.clear();
    Ok(
        bytes.len() == 70
            && are(bytes.as_slice(), 65, 70, b" b d\x1a")
            && two
            && table.rows() == 0
            && table.structure().head().len() == 53,
    )
}

fn pack_keeps_the_unmarked_rows(alloc: Global) -> Result<bool, AllocError> {
    let file = four_rows(alloc)?;
    match table_of(alloc, file.as_slice(), 4) {
        Some(mut table) => packs(alloc, &mut table),
        None => Ok(false),
    }
}

/// What a field holds here whose number is below 100: the number in two digits, and then twice its row's letter. A
/// field takes as many bytes of it as it is wide.
fn text_here(number: u8, letter: u8) -> [u8; 4] {
    [b'0' + number / 10, b'0' + number % 10, letter, letter]
}

/// How wide a field of this number is here: two to four bytes.
fn width_here(number: u8) -> u8
    ensures { result ≤ 4 }
{
    2 + number % 3
}

/// Puts the descriptors of forty fields, whose widths differ, behind the others.
fn push_forty_fields(file: &mut Vec<u8>) -> Result<(), AllocError> {
    for number in 0..40_u8 {
        let [tens, ones, _, _] = text_here(number, b' ');
        push_descriptor(file, &[b'F', tens, ones], b'C', width_here(number), 0)?;
    }
    Ok(())
}

/// Puts a live row of forty fields behind the others.
fn push_row_of_forty(file: &mut Vec<u8>, letter: u8) -> Result<(), AllocError> {
    file.push(b' ')?;
    for number in 0..40_u8 {
        let text = text_here(number, letter);
        file.extend_from_slice(&text[..usize::from(width_here(number))])?;
    }
    Ok(())
}

/// Two rows of forty fields, 120 bytes each with their marks.
fn forty_fields(alloc: Global) -> Result<Vec<u8>, AllocError> {
    let mut file = Vec::new(alloc);
    push_front(&mut file, 3, 2, 1313, 120)?;
    push_forty_fields(&mut file)?;
    file.push(13)?;
    push_row_of_forty(&mut file, b'a')?;
    push_row_of_forty(&mut file, b'b')?;
    Ok(file)
}

/// Whether each of forty fields of a row is read where it stands.
fn holds_row_of_forty(table: &Table, r: usize, letter: u8) -> bool {
    for number in 0..40_u8 {
        let text = text_here(number, letter);
        let wanted = &text[..usize::from(width_here(number))];
        if !holds(table, r, usize::from(number), wanted) {
            return false;
        }
    }
    true
}

fn each_of_forty_fields_is_read(alloc: Global) -> Result<bool, AllocError> {
    let file = forty_fields(alloc)?;
    let Some(table) = table_of(alloc, file.as_slice(), 2) else {
        return Ok(false);
    };
    Ok(holds_row_of_forty(&table, 0, b'a') && holds_row_of_forty(&table, 1, b'b'))
}

#[test]
fn tables_of_files(rt: HostRuntime) -> Result<(), Fail> {
    let alloc = rt.alloc();
    assert_eq!(rt; first_untold(alloc, FAULTS)?, None);
    assert_eq!(rt; first_wrong(FIELDS), None);
    assert!(rt; Letter::L.kind() == Kind::Logical && Letter::L.code() == b'L');
    assert!(rt; seventy_bytes_are_a_table(alloc)? && a_byte_less_is_truncated(alloc)?);
    assert!(rt; drops_bytes_behind(alloc)? && a_front_is_short(alloc)?);
    assert!(rt; short_files_and_too_many_rows(alloc)? && a_name_comes_once(alloc)?);
    assert!(rt; marks_stay(alloc)? && a_table_of_one_row(alloc)?);
    assert!(rt; stamps_have_years_from_1900_to_2155() && pack_keeps_the_unmarked_rows(alloc)?);
    assert!(rt; each_of_forty_fields_is_read(alloc)?);
    Ok(())
}
