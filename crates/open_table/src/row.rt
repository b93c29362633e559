//! The row that a test of rows is asked for.

ghost use Rattle.std.specs.Prelude.{◌≡◌, ◌<◌, ◌≤◌, length, slice_index, slice_index_or, take, []};
ghost use Rattle.dbf_file.specs.Rows.{row_at};
ghost use Rattle.dbf_file.specs.Tables.{letter_at, decimals_at};
ghost use Rattle.dbf_file.specs.Values.{value_by, number_in, day_in, is_yes};

use calendar::Day;
use dbf_file::Table;
use fixed_num::Num;
use std::marker::Model;
use xvalue::Lent;

/// A row that a filter is asked for: a row of a table, with the number and the count of records that it has in the
/// world in which it is tried.
#[derive(Drop)]
pub struct Row<'a> {
    table: &'a Table,
    place: usize,
    number: u32,
    count: u32,
}

impl<'a> Model for Row<'a> {
    ghost use Rattle.std.specs.Prelude.{◌<◌, length};
    ghost use Rattle.dbf_file.specs.Rows.{row_at};
    ghost use Rattle.open_table.specs.Tried.{TriedRow};

    ghost Value = { TriedRow };

    ghost view = { λ r. record {
      structure = r.table.now.structure;
      row = row_at r.table.now.rows r.place;
      number = r.number;
      count = r.count;
    } };

    ghost invariant = { λ r. r.place < length r.table.now.rows };
}

impl<'a> Row<'a> {
    /// Row `place` of a table, counted from 0, as record `number` of `count`.
    pub fn new(table: &'a Table, place: usize, number: u32, count: u32) -> Self
        requires { place < length table.now.rows }
        ensures { result ≡ record {
          structure = table.entry.now.structure;
          row = row_at table.entry.now.rows place;
          number = number;
          count = count;
        } }
    {
        Row {
            table,
            place,
            number,
            count,
        }
    }

    /// The record's number, counted from 1.
    pub fn record(&self) -> u32
        ensures { result ≡ self.now.number }
    {
        self.number
    }

    /// How many records there are.
    pub fn count(&self) -> u32
        ensures { result ≡ self.now.count }
    {
        self.count
    }

    /// Whether the row is marked.
    pub fn marked(&self) -> bool
        ensures { result ≡ self.now.row.marked }
    {
        self.table.mark(self.place)
    }

    /// How many fields the row has.
    pub fn fields(&self) -> usize
        ensures { result ≡ length self.now.structure.fields }
    {
        self.table.structure().fields().len()
    }

    /// The value of field `f`, counted from 0, lent from there.
    #[inline(always)]
    pub fn lent(&self, f: usize) -> Lent<'_>
        requires { f < length self.now.structure.fields }
        ensures { result ≡ value_by (letter_at self.entry.now.structure f) (decimals_at self.entry.now.structure f)
            (slice_index_or self.entry.now.row.texts f []) }
    {
        self.table.lent_at(self.place, f)
    }

    /// The number that the text of field `f`, counted from 0, stands for.
    pub fn number(&self, f: usize) -> Num
        requires { f < length self.now.structure.fields }
        ensures { result ≡ number_in (decimals_at self.now.structure f) (slice_index_or self.now.row.texts f []) }
    {
        self.table.number_at(self.place, f)
    }

    /// The bytes of field `f`, counted from 0, as many as a text value may have.
    pub fn text(&self, f: usize) -> &[u8]
        requires { f < length self.now.structure.fields }
        ensures same { result.now ≡ take 254 (slice_index_or self.now.row.texts f []) }
        ensures short { length result.now ≤ 254 }
    {
        self.table.text_at(self.place, f)
    }

    /// The day that the text of field `f`, counted from 0, stands for.
    pub fn day(&self, f: usize) -> Day
        requires { f < length self.now.structure.fields }
        ensures { result ≡ day_in (slice_index_or self.now.row.texts f []) }
    {
        self.table.day_at(self.place, f)
    }

    /// The truth value that the text of field `f`, counted from 0, stands for.
    pub fn truth(&self, f: usize) -> bool
        requires { f < length self.now.structure.fields }
        ensures { result ≡ is_yes (slice_index (slice_index_or self.now.row.texts f []) 0) }
    {
        self.table.truth_at(self.place, f)
    }
}
