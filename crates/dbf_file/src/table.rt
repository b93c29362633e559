//! Tables.

ghost use Rattle.std.specs.Prelude.{◌≡◌, ℕ, ◌+◌, ◌*◌, ◌^◌, ◌<◌, ◌≤◌, ◌++◌, ◌∷◌, [], List, length, slice_index};
ghost use Rattle.std.specs.Prelude.{slice_range, IsTrue, IfOk, OnOk, OnErr, MatchResult, Some, None, ◌⊎◌, vec_capacity};
ghost use Rattle.std.specs.Prelude.{take};
ghost use Rattle.std.specs.Borrow.{sem};
ghost use Rattle.dbf_file.specs.declared.stamp.Stamp.{Stamp as TheStamp};
ghost use Rattle.dbf_file.specs.Fields.{size_of as size_of_fields, are_fields};
ghost use Rattle.dbf_file.specs.Descriptors.{field_head_text};
ghost use Rattle.dbf_file.specs.Rows.{Row, rows_in, is_marked_at, text_at, with_text, with_mark, blank_row, unmarked};
ghost use Rattle.dbf_file.specs.Tables.{StructureState, IsStructure, AreRows, DbfText, dbf_text, row_widths};
ghost use Rattle.dbf_file.specs.Tables.{structure_of, letter_at, decimals_at};
ghost use Rattle.dbf_file.specs.Faults.{first_fault};
ghost use Rattle.dbf_file.specs.Layouts.{IsLayout, structure_told, rows_told};
ghost use Rattle.xvalue.specs.Kinds.{kind_of};
ghost use Rattle.dbf_file.specs.Values.{kind_for, value_by, text_by, number_in as number_of, day_in as day_of, is_yes};
ghost use Rattle.dbf_file.specs.Lending.{place_of_field, LendsText};

use crate::fault::DbfFault;
use crate::field::{Field, size_of, width_of};
use crate::reading::{LIVE, Layout, MARKED, layout_of};
use crate::stamp::Stamp;
use crate::structure::Structure;
use crate::values::{begins_with_yes, day_in, first_bytes, lent, number_in, put_with_decimals};
use crate::writing::{mark_byte, put_descriptors, put_end, put_front, put_rows, put_zeros};
use calendar::Day;
use fixed_num::Num;
use std::alloc::{AllocError, Global};
use std::marker::Model;
use xvalue::Lent;

/// The byte behind the last row of a file.
const LAST: u8 = 26;

/// The place in a file's header from which on its bytes are kept.
const HEAD_PLACE: usize = 12;

/// A table: a structure, and rows in one vector of bytes.
#[derive(Drop)]
pub struct Table {
    structure: Structure,
    size: usize,
    rows: usize,
    records: Vec<u8>,
}

impl Model for Table {
    ghost use Rattle.std.specs.Prelude.{◌-◌, ◌/◌, vec_len, vec_capacity};
    ghost use Rattle.dbf_file.specs.Rows.{rows_in};
    ghost use Rattle.dbf_file.specs.Tables.{TableState, row_widths};
    ghost use Rattle.dbf_file.specs.Kept.{IsKept};

    ghost Value = { TableState };

    ghost view = { λ t. record {
      structure = t.structure;
      rows = rows_in (row_widths t.structure) t.rows t.records.items;
      spare = (vec_capacity t.records - vec_len t.records) / t.size;
    } };

    ghost invariant = { λ t. IsKept t.structure t.size t.rows t.records.items };
}

/// Where field `f` of row `r` begins among the records, each of `size` bytes.
fn place_of(structure: &Structure, size: usize, r: usize, f: usize) -> usize
    requires size { size ≡ size_of_fields (row_widths structure.now) }
    requires field { f < length structure.now.fields }
    requires row { r < 2 ^ 32 }
    requires small { size ≤ 4000 }
    ensures { result ≡ place_of_field (row_widths structure.now) r f }
{
    r * size + structure.place(f)
}

/// The table of this layout.
fn table_of(alloc: Global, bytes: &[u8], layout: &Layout) -> Result<Table, AllocError>
    requires { IsLayout bytes.now layout.now }
    ensures structure { IfOk result (λ table. table.structure ≡ structure_told bytes.now layout.now) }
    ensures rows { IfOk result (λ table. table.rows ≡ rows_told bytes.now layout.now) }
{
    let head = &bytes[HEAD_PLACE..layout.header];
    let records = &bytes[layout.header..layout.header + layout.rows * layout.size];
    Ok(Table {
        structure: Structure::of_parts(alloc, layout.fields.as_slice(), head)?,
        size: layout.size,
        rows: layout.rows,
        records: Vec::from_slice(alloc, records)?,
    })
}

/// The table of a file's bytes, which may have at most `limit` rows. That memory is missing is told only of bytes
/// without a fault.
///
/// The fields and all bytes of the header from byte 12 on are kept. The day of the last update isn't kept, nor is what
/// stands behind the last row.
pub fn read(alloc: Global, bytes: &[u8], limit: usize) -> Result<Table, DbfFault>
    // What is read stands in the bytes.
    ensures found { IfOk result (λ table. (stamp : TheStamp) × DbfText table.structure table.rows stamp bytes.now) }
    ensures within { IfOk result (λ table. length table.rows ≤ limit) }
    // What stands in the bytes is read, unless memory is refused.
    ensures only { (structure : StructureState) (rows : List Row) (stamp : TheStamp)
        → DbfText structure rows stamp bytes.now → length rows ≤ limit →
        MatchResult result (λ table. (table.structure ≡ structure) × (table.rows ≡ rows))
        (λ fault. fault ≡ DbfFault.Memory) }
    // The first fault is told, and want of memory only where there is none.
    ensures fault { MatchResult result (λ _. first_fault limit bytes.now ≡ None)
        (λ fault. (first_fault limit bytes.now ≡ Some fault) ⊎
        ((fault ≡ DbfFault.Memory) × (first_fault limit bytes.now ≡ None))) }
{
    let layout = layout_of(bytes, limit)?;
    match table_of(alloc, bytes, &layout) {
        Ok(table) => Ok(table),
        Err(_) => Err(DbfFault::Memory),
    }
}

/// Leaves so many bytes from a place on.
fn keep_part(bytes: &mut Vec<u8>, start: usize, count: usize)
    requires { start + count ≤ length bytes.old.items }
    ensures { bytes.new.items ≡ slice_range bytes.old.items start (start + count) }
{
    bytes.copy_within(start..start + count, 0);
    bytes.truncate(count);
}

/// The table of this layout, its rows in the place of the bytes.
fn table_in_place(alloc: Global, mut bytes: Vec<u8>, layout: &Layout) -> Result<Table, AllocError>
    requires { IsLayout bytes.items layout.now }
    ensures structure { IfOk result (λ table. table.structure ≡ structure_told bytes.items layout.now) }
    ensures rows { IfOk result (λ table. table.rows ≡ rows_told bytes.items layout.now) }
{
    let head = &bytes[HEAD_PLACE..layout.header];
    let structure = Structure::of_parts(alloc, layout.fields.as_slice(), head)?;
    keep_part(&mut bytes, layout.header, layout.rows * layout.size);
    Ok(Table {
        structure,
        size: layout.size,
        rows: layout.rows,
        records: bytes,
    })
}

/// The layout that these bytes tell, or the first fault.
fn layout_in(bytes: &Vec<u8>, limit: usize) -> Result<Layout, DbfFault>
    ensures layout { IfOk result (IsLayout bytes.now.items) }
    ensures limited { IfOk result (λ layout. layout.rows ≤ limit) }
    ensures fault { MatchResult result (λ _. first_fault limit bytes.now.items ≡ None)
        (λ fault. first_fault limit bytes.now.items ≡ Some fault) }
{
    layout_of(bytes.as_slice(), limit)
}

/// The table of a file's bytes as `read` gives it, its rows in the place of the bytes: so it takes memory for its
/// structure alone.
pub fn read_in_place(alloc: Global, bytes: Vec<u8>, limit: usize) -> Result<Table, DbfFault>
    ensures found { IfOk result (λ table. (stamp : TheStamp) × DbfText table.structure table.rows stamp bytes.items) }
    ensures within { IfOk result (λ table. length table.rows ≤ limit) }
    ensures only { (structure : StructureState) (rows : List Row) (stamp : TheStamp)
        → DbfText structure rows stamp bytes.items → length rows ≤ limit →
        MatchResult result (λ table. (table.structure ≡ structure) × (table.rows ≡ rows))
        (λ fault. fault ≡ DbfFault.Memory) }
    ensures fault { MatchResult result (λ _. first_fault limit bytes.items ≡ None)
        (λ fault. (first_fault limit bytes.items ≡ Some fault) ⊎
        ((fault ≡ DbfFault.Memory) × (first_fault limit bytes.items ≡ None))) }
{
    let layout = layout_in(&bytes, limit)?;
    match table_in_place(alloc, bytes, &layout) {
        Ok(table) => Ok(table),
        Err(_) => Err(DbfFault::Memory),
    }
}

/// Where the text of field `f` of row `r` begins and ends among so many rows of `size` bytes.
fn span_of(structure: &Structure, size: usize, rows: usize, r: usize, f: usize) -> (usize, usize)
    requires good { IsStructure structure.now }
    requires size { size ≡ size_of_fields (row_widths structure.now) }
    requires few { rows < 2 ^ 32 }
    requires row { r < rows }
    requires field { f < length structure.now.fields }
    ensures start { result.0 ≡ place_of_field (row_widths structure.now) r f }
    ensures end { result.1 ≡ result.0 + slice_index (row_widths structure.now) f }
    ensures within { result.1 ≤ rows * size }
{
    let start = place_of(structure, size, r, f);
    (start, start + width_of(structure.fields(), f))
}

/// How many decimals field `f` has.
fn field_decimals(structure: &Structure, f: usize) -> u8
    requires { f < length structure.now.fields }
    ensures { result ≡ decimals_at structure.now f }
{
    structure.fields()[f].decimals
}

/// Where row `r` begins among so many rows of `size` bytes.
fn row_place(size: usize, rows: usize, r: usize) -> usize
    requires some { 0 < size }
    requires small { size ≤ 4000 }
    requires few { rows < 2 ^ 32 }
    requires row { r < rows }
    ensures place { result ≡ r * size }
    ensures within { result + size ≤ rows * size }
{
    r * size
}

/// Moves the records that aren't marked to the front, in their order, and counts them. Every record has `size` bytes.
fn keep_unmarked(records: &mut Vec<u8>, size: usize, rows: usize) -> usize
    requires some { 0 < size }
    requires small { size ≤ 4000 }
    requires few { rows < 2 ^ 32 }
    requires whole { length records.old.items ≡ rows * size }
    ensures same_length { length records.new.items ≡ length records.old.items }
    ensures capacity { vec_capacity records.new ≡ vec_capacity records.old }
    ensures count { result ≤ rows }
    ensures kept { (ws : List ℕ) → size_of_fields ws ≡ size
        → rows_in ws result records.new.items ≡ unmarked (rows_in ws rows records.old.items) }
{
    let mut kept = 0;
    for r in 0..rows {
        let place = row_place(size, rows, r);
        if records[place] != MARKED {
            records.copy_within(place..place + size, row_place(size, rows, kept));
            kept += 1;
        }
    }
    kept
}

/// The bytes of a table's file, with this stamp of the last update, and a byte 26 behind the last row.
pub fn write(alloc: Global, table: &Table, stamp: Stamp) -> Result<Vec<u8>, AllocError>
    ensures exact { IfOk result (λ bytes. bytes.items ≡ dbf_text table.now.structure table.now.rows stamp) }
    // What is written reads as that table.
    ensures reads { IfOk result (λ bytes. DbfText table.now.structure table.now.rows stamp bytes.items) }
{
    let head = table.structure.head();
    let header = HEAD_PLACE + head.len();
    let mut out = Vec::with_capacity(alloc, header + table.records.len() + 1)?;
    put_front(&mut out, stamp, table.rows, header, table.size)?;
    out.extend_from_slice(head)?;
    put_rows(&mut out, table.size, table.rows, table.records.as_slice())?;
    out.push(LAST)?;
    Ok(out)
}

/// The header's bytes from byte 12 on, for a structure of these fields that no file gave.
fn head_of(alloc: Global, fields: &[Field]) -> Result<Vec<u8>, AllocError>
    ensures { IfOk result (λ head. head.items ≡ field_head_text fields.now) }
{
    let mut head = Vec::new(alloc);
    put_zeros(&mut head, 20)?;
    put_descriptors(&mut head, fields)?;
    put_end(&mut head)?;
    Ok(head)
}

impl Table {
    /// A table of these fields without rows. Nothing else is kept in its header: all bytes without a meaning are 0.
    pub fn empty(alloc: Global, fields: &[Field]) -> Result<Table, AllocError>
        requires { IsTrue (are_fields fields.now) }
        ensures structure { IfOk result (λ table. table.structure ≡ structure_of fields.now) }
        ensures rows { IfOk result (λ table. table.rows ≡ []) }
    {
        let head = head_of(alloc, fields)?;
        Ok(Table {
            structure: Structure::of_parts(alloc, fields, head.as_slice())?,
            size: size_of(fields),
            rows: 0,
            records: Vec::new(alloc),
        })
    }

    /// The table's structure.
    pub fn structure(&self) -> &Structure
        ensures same { result.now ≡ self.now.structure }
        ensures good { IsStructure self.now.structure }
    {
        &self.structure
    }

    /// The number of rows.
    pub fn rows(&self) -> usize
        ensures count { result ≡ length self.now.rows }
        ensures sound { AreRows self.now.structure self.now.rows }
    {
        self.rows
    }

    /// The text of field `f` in row `r`, both counted from 0.
    pub fn field(&self, r: usize, f: usize) -> &[u8]
        requires row { r < length self.now.rows }
        requires field { f < length self.now.structure.fields }
        ensures text { result.now ≡ text_at self.now.rows r f }
        ensures width { length result.now ≡ slice_index (row_widths self.now.structure) f }
    {
        let (start, end) = span_of(&self.structure, self.size, self.rows, r, f);
        &self.records[start..end]
    }

    /// Lends the text of field `f` in row `r`, both counted from 0, to be written. Nothing else changes.
    pub fn field_mut(&mut self, r: usize, f: usize) -> &mut [u8]
        requires row { r < length self.old.rows }
        requires field { f < length self.old.structure.fields }
        ensures* writes_back { sem 𝓛 (LendsText self.entry r f result) }
        ensures text { result.now ≡ text_at self.old.rows r f }
        ensures width { length result.now ≡ slice_index (row_widths self.old.structure) f }
    {
        let (start, end) = span_of(&self.structure, self.size, self.rows, r, f);
        self.records.slice_mut(start..end)
    }

    /// The value of field `f` in row `r`, both counted from 0, lent from there.
    #[inline(always)]
    pub fn lent_at(&self, r: usize, f: usize) -> Lent<'_>
        requires row { r < length self.now.rows }
        requires field { f < length self.now.structure.fields }
        ensures { result ≡ value_by (letter_at self.entry.now.structure f) (decimals_at self.entry.now.structure f)
            (text_at self.entry.now.rows r f) }
    {
        let field = &self.structure.fields()[f];
        lent(field.letter, field.decimals, self.field(r, f))
    }

    /// The bytes of field `f` in row `r`, both counted from 0, as many as a text value may have.
    #[inline(always)]
    pub fn text_at(&self, r: usize, f: usize) -> &[u8]
        requires row { r < length self.now.rows }
        requires field { f < length self.now.structure.fields }
        ensures same { result.now ≡ take 254 (text_at self.now.rows r f) }
        ensures short { length result.now ≤ 254 }
    {
        first_bytes(self.field(r, f))
    }

    /// The number that the text of field `f` in row `r` stands for, both counted from 0.
    pub fn number_at(&self, r: usize, f: usize) -> Num
        requires row { r < length self.now.rows }
        requires field { f < length self.now.structure.fields }
        ensures { result ≡ number_of (decimals_at self.now.structure f) (text_at self.now.rows r f) }
    {
        number_in(self.structure.fields()[f].decimals, self.field(r, f))
    }

    /// The day that the text of field `f` in row `r` stands for, both counted from 0.
    pub fn day_at(&self, r: usize, f: usize) -> Day
        requires row { r < length self.now.rows }
        requires field { f < length self.now.structure.fields }
        ensures { result ≡ day_of (text_at self.now.rows r f) }
    {
        day_in(self.field(r, f))
    }

    /// The truth value that the text of field `f` in row `r` stands for, both counted from 0.
    pub fn truth_at(&self, r: usize, f: usize) -> bool
        requires row { r < length self.now.rows }
        requires field { f < length self.now.structure.fields }
        ensures { result ≡ is_yes (slice_index (text_at self.now.rows r f) 0) }
    {
        begins_with_yes(self.field(r, f))
    }

    /// Writes a value of the field's kind into field `f` of row `r`, both counted from 0. Nothing else changes.
    pub fn put_at(&mut self, r: usize, f: usize, from: &Lent<'_>)
        requires row { r < length self.old.rows }
        requires field { f < length self.old.structure.fields }
        requires kind { kind_of from.now ≡ kind_for (letter_at self.old.structure f) }
        ensures { self.new ≡ record self.old {
          rows = with_text self.old.rows r f
              (text_by (slice_index (row_widths self.old.structure) f) (decimals_at self.old.structure f) from.now);
        } }
    {
        let decimals = field_decimals(&self.structure, f);
        let text = self.field_mut(r, f);
        put_with_decimals(decimals, from, text);
    }

    /// Whether row `r`, counted from 0, is marked.
    pub fn mark(&self, r: usize) -> bool
        requires { r < length self.now.rows }
        ensures { result ≡ is_marked_at self.now.rows r }
    {
        let place = row_place(self.size, self.rows, r);
        self.records[place] == MARKED
    }

    /// Marks row `r`, counted from 0, or takes its mark away. Nothing else changes.
    pub fn set_mark(&mut self, r: usize, marked: bool)
        requires { r < length self.old.rows }
        ensures { self.new ≡ record self.old { rows = with_mark self.old.rows r marked } }
    {
        let place = row_place(self.size, self.rows, r);
        self.records[place] = mark_byte(marked);
    }

    /// Makes room for one more row. Where memory is refused the table is as it was.
    pub fn reserve_row(&mut self) -> Result<(), AllocError>
        ensures structure { self.new.structure ≡ self.old.structure }
        ensures rows { self.new.rows ≡ self.old.rows }
        ensures kept { self.old.spare ≤ self.new.spare }
        ensures ok { OnOk result (0 < self.new.spare) }
        ensures err { OnErr result (self.new ≡ self.old) }
    {
        self.records.reserve(self.size)
    }

    /// Adds a live row of blanks behind the others, in the room that there is for it.
    pub fn push_blank(&mut self)
        requires reserved { 0 < self.old.spare }
        requires few { length self.old.rows < 1000000 }
        ensures structure { self.new.structure ≡ self.old.structure }
        ensures rows { self.new.rows ≡ self.old.rows ++ blank_row (row_widths self.old.structure) ∷ [] }
        ensures spare { self.old.spare ≤ self.new.spare + 1 }
    {
        let end = self.records.len() + self.size;
        match self.records.resize(end, LIVE) {
            Ok(()) => self.rows += 1,
            Err(_) => unreachable!(),
        }
    }

    /// Removes the marked rows; the others stay in their order.
    pub fn pack(&mut self)
        ensures structure { self.new.structure ≡ self.old.structure }
        ensures rows { self.new.rows ≡ unmarked self.old.rows }
        ensures spare { self.old.spare ≤ self.new.spare }
    {
        let kept = keep_unmarked(&mut self.records, self.size, self.rows);
        self.records.truncate(kept * self.size);
        self.rows = kept;
    }

    /// Removes every row.
    pub fn clear(&mut self)
        ensures structure { self.new.structure ≡ self.old.structure }
        ensures rows { self.new.rows ≡ [] }
        ensures spare { self.old.spare ≤ self.new.spare }
    {
        self.records.clear();
        self.rows = 0;
    }
}
