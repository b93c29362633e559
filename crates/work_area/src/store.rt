//! The ten work areas.

ghost use Rattle.std.specs.Prelude.{◌≡◌, ℕ, ◌+◌, ◌<◌, ◌≤◌, ◌↔◌, Bool, true, false, Some, [], ◌∷◌, length};
ghost use Rattle.std.specs.Prelude.{slice_get, is_some, is_none, min, unwrap_or, IfSome, IsSome, IsSomeAnd};
ghost use Rattle.std.specs.Prelude.{MatchOption, None, OnOk, OnErr, IfOk, Err, map, MatchResult};
ghost use Rattle.std.specs.Fn.{FnReturnsAt};
ghost use Rattle.std.specs.List.{list_all};
ghost use Rattle.dbf_file.specs.Tables.{letter_at};
ghost use Rattle.dbf_file.specs.Values.{kind_for};
ghost use Rattle.row_keys.specs.Lists.{index_list};
ghost use Rattle.open_table.specs.Open.{closed, with_blank, replaced_here, remarked_here, gone, reordered, field_of};
ghost use Rattle.open_table.specs.Open.{IsEnded, deleted_of, opened};
ghost use Rattle.open_table.specs.Marks.{mark_at, is_fresh, parts_in, form_in};
ghost use Rattle.open_table.specs.Tried.{MayAskRows, ShowsRows};
ghost use Rattle.work_area.specs.Areas.{use_at, selected_use, table_at, area_table, here, with_use, with_selected};
ghost use Rattle.work_area.specs.Areas.{with_here, change_here, closed_here, closed_all, is_elsewhere, holds};
ghost use Rattle.work_area.specs.Areas.{index_table, mark_in, closed_other, IsWithinLimit};
ghost use Rattle.work_area.specs.Areas.{NoOpenIndexIsStale};
ghost use Rattle.work_area.specs.Calls.{MovesHere, EndsHere, put_landed, top_of, bottom_of, skip_of, seek_of};
ghost use Rattle.work_area.specs.Calls.{packed_rows, all_rows, packed_in, pack_of, zapped_in, reindexed_in, reindex_of};
ghost use Rattle.work_area.specs.Calls.{index_on_of, open_of, indexed_here, used_here, with_filter, with_list};
ghost use Rattle.work_area.specs.Calls.{zap_landing};
ghost use Rattle.work_area.specs.Making.{AreOfShape, AreLists, IsNewStore, lists_just};
ghost use Rattle.work_area.specs.Shapes.{StoreHasShape};
ghost use Rattle.shape.specs.Whole.{is_shape};
ghost use Rattle.xvalue.specs.Kinds.{kind_of};

use crate::tables::{declare_all, unused_tables};
use crate::uses::Use;
use dbf_file::Table;
use key_lists::KeyList;
use open_table::{AppendError, OpenTable, Refused, Row};
use row_moves::{RowMove, Spent};
use shape::Shape;
use shape::laws::legal_shapes_have_keys;
use std::alloc::{AllocError, Global};
use std::marker::Model;
use xvalue::Lent;

/// The most records that any table may have.
pub const MOST_RECORDS: u32 = 1_000_000;

/// What a move that was made cost: one, and what it met.
pub type Moved = u64;

/// The declared tables, and ten work areas that hold them. A table is held by one area at a time.
#[derive(Drop)]
pub struct Store<K: KeyList> {
    tables: Vec<OpenTable<K>>,
    areas: [Option<Use>; 10],
    selected: u8,
    limit: u32,
}

impl<K: KeyList> Model for Store<K> {
    ghost use Rattle.work_area.specs.Areas.{StoreState, IsStore};

    ghost Value = { StoreState };

    ghost view = { λ s. record { tables = s.tables.items; areas = s.areas; selected = s.selected; limit = s.limit } };

    ghost invariant = { λ s. IsStore s.tables.items s.areas s.selected s.limit };
}

/// Whether an area holds this table.
fn holds_table(held: &Option<Use>, table: u16) -> bool
    ensures { result ≡ holds table held.now }
{
    match held {
        Some(used) => used.table == table,
        None => false,
    }
}

impl<K: KeyList> Store<K> {
    /// The tables of a shape, all areas closed, area 1 selected. `keys` has for each index of the shape, in their
    /// order, a list of its key, or none; an index is stale unless its list has just the pairs of its table's rows.
    /// Each table has at most as many records as the smaller of `limit` and 1,000,000, and no change gives it more.
    /// Where memory is missing, what was handed in is given up.
    pub fn new(
        alloc: Global,
        shape: &Shape,
        tables: Vec<Table>,
        keys: Vec<Option<K>>,
        limit: u32,
    ) -> Result<Self, AllocError>
        requires legal { is_shape shape.now ≡ true }
        requires tables { AreOfShape shape.now (min limit 1000000) tables.items }
        requires lists { AreLists K.form shape.now keys.items }
        ensures made { IfOk result
            (IsNewStore (lists_just K.pairs keys.items) shape.now tables.items (min limit 1000000)) }
        ensures shape { IfOk result (StoreHasShape shape.now) }
    {
        legal_shapes_have_keys();
        let mut made = unused_tables(alloc, tables)?;
        declare_all(&mut made, shape, keys)?;
        Ok(Store {
            tables: made,
            areas: [None; 10],
            selected: 1,
            limit: limit.min(MOST_RECORDS),
        })
    }

    /// The selected area, 1 to 10.
    pub fn selected(&self) -> u8
        ensures value { result ≡ self.now.selected }
        ensures first { 1 ≤ result }
        ensures last { result ≤ 10 }
    {
        self.selected
    }

    /// The most records that a table may have, at most 1,000,000.
    pub fn limit(&self) -> u32
        ensures value { result ≡ self.now.limit }
        ensures few { result ≤ 1000000 }
    {
        self.limit
    }

    /// How many tables are declared.
    pub fn count(&self) -> usize
        ensures { result ≡ length self.now.tables }
    {
        self.tables.len()
    }

    /// What an area, 1 to 10, holds.
    pub fn use_of(&self, area: u8) -> Option<Use>
        requires first { 1 ≤ area }
        requires last { area ≤ 10 }
        ensures value { result ≡ use_at self.now area }
        ensures declared { IfSome result (λ u. u.table < length self.now.tables) }
    {
        self.areas[usize::from(area) - 1]
    }

    /// Whether an area, 1 to 10, holds a table.
    pub fn is_open(&self, area: u8) -> bool
        requires first { 1 ≤ area }
        requires last { area ≤ 10 }
        ensures held { result ≡ is_some (use_at self.now area) }
        ensures table { result ≡ is_some (area_table self.now area) }
    {
        self.use_of(area).is_some()
    }

    /// Whether another area than the selected one holds the table.
    pub fn is_elsewhere(&self, table: u16) -> bool
        ensures { result ≡ is_elsewhere self.now table }
    {
        let mut others = self.areas;
        others[usize::from(self.selected) - 1] = None;
        others.iter().any(|held| holds_table(held, table))
    }

    /// The place of the table that an area, 1 to 10, holds.
    fn place(&self, area: u8) -> usize
        requires first { 1 ≤ area }
        requires last { area ≤ 10 }
        requires open { IsSome (area_table self.now area) }
        ensures within { result < length self.now.tables }
        ensures table { area_table self.now area ≡ table_at self.now result }
        ensures place { IfSome (use_at self.now area) (λ u. u.table ≡ result) }
    {
        match self.areas[usize::from(area) - 1] {
            Some(used) => usize::from(used.table),
            None => unreachable!(),
        }
    }

    /// The place of the selected area's table.
    fn place_here(&self) -> usize
        requires { IsSome (here self.now) }
        ensures within { result < length self.now.tables }
        ensures table { here self.now ≡ table_at self.now result }
        ensures place { IfSome (selected_use self.now) (λ u. u.table ≡ result) }
    {
        self.place(self.selected())
    }

    /// SELECT: another area, 1 to 10, which may be closed.
    pub fn select(&mut self, area: u8)
        requires first { 1 ≤ area }
        requires last { area ≤ 10 }
        ensures { self.new ≡ with_selected area self.old }
    {
        self.selected = area;
    }

    /// SET ORDER of the selected area's table: 0 is record order, 1 that of the first open index.
    pub fn set_order(&mut self, order: u8)
        requires open { IsSome (here self.old) }
        requires order { IfSome (here self.old) (λ o. order ≤ length o.list) }
        ensures { self.new ≡ change_here (reordered order) self.old }
    {
        let t = self.place_here();
        self.tables[t].set_order(order);
    }

    /// TOP, and what it cost. Where the cost is above the budget nothing changes.
    pub fn top<F: Fn(&Row<'_>) -> bool>(&mut self, see: F, budget: u64) -> Result<Moved, Spent>
        requires open { IsSome (here self.old) }
        requires callable { IfSome (here self.old) (λ o. MayAskRows F.pre see o.table.structure) }
        ensures { MovesHere (FnReturnsAt F.Fn) see top_of self.old self.new budget result }
    {
        let t = self.place_here();
        self.tables[t].make_move(RowMove::Top, see, budget)
    }

    /// BOTTOM, and what it cost. Where the cost is above the budget nothing changes.
    pub fn bottom<F: Fn(&Row<'_>) -> bool>(&mut self, see: F, budget: u64) -> Result<Moved, Spent>
        requires open { IsSome (here self.old) }
        requires callable { IfSome (here self.old) (λ o. MayAskRows F.pre see o.table.structure) }
        ensures { MovesHere (FnReturnsAt F.Fn) see bottom_of self.old self.new budget result }
    {
        let t = self.place_here();
        self.tables[t].make_move(RowMove::Bottom, see, budget)
    }

    /// SKIP: so many rows on, or back where the number is below 0, and what it cost. Where the cost is above the budget
    /// nothing changes.
    pub fn skip<F: Fn(&Row<'_>) -> bool>(
        &mut self,
        steps: i128,
        see: F,
        budget: u64,
    ) -> Result<Moved, Spent>
        requires open { IsSome (here self.old) }
        requires callable { IfSome (here self.old) (λ o. MayAskRows F.pre see o.table.structure) }
        ensures { MovesHere (FnReturnsAt F.Fn) see (skip_of steps) self.old self.new budget result }
    {
        let t = self.place_here();
        self.tables[t].make_move(RowMove::skip(steps), see, budget)
    }

    /// SEEK in the index of the order: the first shown row whose key matches, or the end of file; and what it cost.
    /// Where the cost is above the budget nothing changes.
    pub fn seek<F: Fn(&Row<'_>) -> bool>(
        &mut self,
        text: &[u8],
        exact: bool,
        see: F,
        budget: u64,
    ) -> Result<Moved, Spent>
        requires open { IsSome (here self.old) }
        requires order { IfSome (here self.old) (λ o. 1 ≤ o.order) }
        requires callable { IfSome (here self.old) (λ o. MayAskRows F.pre see o.table.structure) }
        ensures { MovesHere (FnReturnsAt F.Fn) see (seek_of exact text.now) self.old self.new budget result }
    {
        let t = self.place_here();
        self.tables[t].seek(text, exact, see, budget)
    }

    /// GO: to the record of a number, whether the test shows it or not, or to the end of file where there is none. It
    /// meets no row, and costs 1. Where that is above the budget nothing changes.
    pub fn go<F: Fn(&Row<'_>) -> bool>(
        &mut self,
        number: Option<u32>,
        _see: F,
        budget: u64,
    ) -> Result<Moved, Spent>
        requires { IsSome (here self.old) }
        ensures { MatchResult result
            (λ cost. (cost ≡ 1) × (cost ≤ budget) × (self.new ≡ change_here (gone number) self.old))
            (λ _. (budget < 1) × (self.new ≡ self.old)) }
    {
        if budget == 0 {
            return Err(Spent);
        }
        let t = self.place_here();
        self.tables[t].go(number);
        Ok(1)
    }

    /// APPEND: adds a blank row, and points to it. Where there are as many rows as the limit, or memory is missing,
    /// nothing changes.
    pub fn append(&mut self) -> Result<(), AppendError>
        requires { IsSome (here self.old) }
        ensures ok { OnOk result (self.new ≡ change_here with_blank self.old) }
        ensures err { OnErr result (self.new ≡ self.old) }
        ensures full { IfSome (here self.old)
            (λ o. (result ≡ Err AppendError.Full) ↔ (self.old.limit ≤ length o.table.rows)) }
    {
        let t = self.place_here();
        let limit = self.limit;
        self.tables[t].append(limit)
    }

    /// REPLACE: writes a value of the field's kind into field `f`, counted from 0, of the record that is pointed to; at
    /// the end of file nothing changes. The pointer and the answers stay. Where memory is missing nothing changes.
    pub fn replace(&mut self, f: usize, from: &Lent<'_>) -> Result<(), AllocError>
        requires open { IsSome (here self.old) }
        requires field { IfSome (here self.old) (λ o. f < length o.table.structure.fields) }
        requires kind { IfSome (here self.old) (λ o. kind_of from.now ≡ kind_for (letter_at o.table.structure f)) }
        ensures ok { OnOk result (self.new ≡ change_here (replaced_here f from.now) self.old) }
        ensures err { OnErr result (self.new ≡ self.old) }
    {
        let t = self.place_here();
        self.tables[t].replace(f, from)
    }

    /// DELETE: marks the record that is pointed to; at the end of file nothing changes. The pointer and the answers
    /// stay.
    pub fn delete(&mut self)
        requires { IsSome (here self.old) }
        ensures { self.new ≡ change_here (remarked_here true) self.old }
    {
        let t = self.place_here();
        self.tables[t].set_mark(true);
    }

    /// RECALL: takes away the mark of the record that is pointed to; at the end of file nothing changes. The pointer
    /// and the answers stay.
    pub fn recall(&mut self)
        requires { IsSome (here self.old) }
        ensures { self.new ≡ change_here (remarked_here false) self.old }
    {
        let t = self.place_here();
        self.tables[t].set_mark(false);
    }

    /// PACK: removes the marked rows, and ends with TOP, for which the test is asked of the rows that are kept, as they
    /// are numbered then; and what it cost. Where it is refused nothing changes.
    pub fn pack<F: Fn(&Row<'_>) -> bool>(
        &mut self,
        alloc: Global,
        see: F,
        budget: u64,
    ) -> Result<Moved, Refused>
        requires open { IsSome (here self.old) }
        requires callable { IfSome (here self.old) (λ o. MayAskRows F.pre see o.table.structure) }
        ensures { EndsHere (FnReturnsAt F.Fn) see packed_rows packed_in pack_of self.old self.new budget result }
    {
        let t = self.place_here();
        self.tables[t].pack(alloc, see, budget)
    }

    /// ZAP: removes every row; TOP then comes to the end of file, whatever the test shows; and what it cost. Where it
    /// is refused nothing changes.
    pub fn zap<F: Fn(&Row<'_>) -> bool>(
        &mut self,
        alloc: Global,
        _see: F,
        budget: u64,
    ) -> Result<Moved, Refused>
        requires open { IsSome (here self.old) }
        ensures { IfSome (here self.old) (λ o. IsEnded (put_landed with_here (zapped_in o) self.old)
            self.old self.new zap_landing budget result) }
    {
        let t = self.place_here();
        self.tables[t].zap(alloc, budget)
    }

    /// REINDEX: makes the open indexes anew, and ends with TOP; and what it cost. Where it is refused nothing changes.
    pub fn reindex<F: Fn(&Row<'_>) -> bool>(
        &mut self,
        alloc: Global,
        see: F,
        budget: u64,
    ) -> Result<Moved, Refused>
        requires open { IsSome (here self.old) }
        requires callable { IfSome (here self.old) (λ o. MayAskRows F.pre see o.table.structure) }
        ensures { EndsHere (FnReturnsAt F.Fn) see all_rows reindexed_in reindex_of self.old self.new budget result }
    {
        let t = self.place_here();
        self.tables[t].reindex(alloc, see, budget)
    }

    /// INDEX ON: makes one index anew, which alone is open then and gives the order, and ends with TOP; and what it
    /// cost. `list` is the number of the list of just this index. Where it is refused nothing changes.
    pub fn index_on<F: Fn(&Row<'_>) -> bool>(
        &mut self,
        alloc: Global,
        list: u32,
        number: u8,
        see: F,
        budget: u64,
    ) -> Result<Moved, Refused>
        requires open { IsSome (here self.old) }
        requires declared { IfSome (here self.old) (λ o. is_some (mark_at o.table.marks number) ≡ true) }
        requires callable { IfSome (here self.old) (λ o. MayAskRows F.pre see o.table.structure) }
        ensures { IfSome (here self.old) (λ o. (shown : ℕ → Bool)
            → ShowsRows (FnReturnsAt F.Fn) see o.table.structure o.table.rows shown
            → IsEnded (put_landed (indexed_here list) (opened (number ∷ []) o) self.old)
            self.old self.new (index_on_of number o shown) budget result) }
    {
        let t = self.place_here();
        match self.tables[t].index_on(alloc, number, see, budget) {
            Ok(cost) => {
                self.note_list(list);
                Ok(cost)
            }
            Err(refused) => Err(refused),
        }
    }

    /// The selected area's list of indexes has this number.
    fn note_list(&mut self, list: u32)
        ensures { self.new ≡ with_use self.old self.old.selected (with_list list (selected_use self.old)) }
    {
        let place = usize::from(self.selected) - 1;
        if let Some(used) = self.areas[place] {
            self.areas[place] = Some(Use { list, ..used });
        }
    }

    /// SET FILTER of the selected area: another filter by its number, counted from 1.
    pub fn set_filter(&mut self, filter: u16)
        requires { IsSome (here self.old) }
        ensures { self.new ≡ with_use self.old self.old.selected (with_filter filter (selected_use self.old)) }
    {
        let place = usize::from(self.selected) - 1;
        if let Some(used) = self.areas[place] {
            self.areas[place] = Some(Use { filter, ..used });
        }
    }

    /// SET FILTER of the selected area to none.
    pub fn clear_filter(&mut self)
        requires { IsSome (here self.old) }
        ensures { self.new ≡ with_use self.old self.old.selected (with_filter 0 (selected_use self.old)) }
    {
        self.set_filter(0);
    }

    /// USE: the selected area holds this table, in the place of what it held, with these open indexes, the first as the
    /// order, and no filter. The stale ones of them are made anew, and it ends with TOP; and what it cost. `list` is
    /// the number of the list of these indexes. Where it is refused nothing changes.
    pub fn open<F: Fn(&Row<'_>) -> bool>(
        &mut self,
        alloc: Global,
        table: u16,
        list: u32,
        indexes: &[u8],
        see: F,
        budget: u64,
    ) -> Result<Moved, Refused>
        requires table { table < length self.old.tables }
        requires elsewhere { is_elsewhere self.old table ≡ false }
        requires few { length indexes.now ≤ 7 }
        requires declared { IfSome (table_at self.old table)
            (λ o. list_all (λ n. is_some (mark_at o.table.marks n)) indexes.now ≡ true) }
        requires callable { IfSome (table_at self.old table) (λ o. MayAskRows F.pre see o.table.structure) }
        ensures { IfSome (table_at self.old table)
            (λ o. (shown : ℕ → Bool) → ShowsRows (FnReturnsAt F.Fn) see o.table.structure o.table.rows shown
            → IsEnded (put_landed (used_here table list) (opened indexes.now o) self.old)
            self.old self.new (open_of indexes.now o shown) budget result) }
    {
        match self.tables[usize::from(table)].open(alloc, indexes, see, budget) {
            Ok(cost) => {
                self.let_go(table);
                self.hold(Use {
                    table,
                    list,
                    filter: 0,
                });
                Ok(cost)
            }
            Err(refused) => Err(refused),
        }
    }

    /// Takes the selected area's table out of use, unless it is this one.
    fn let_go(&mut self, table: u16)
        ensures { self.new ≡ closed_other table (selected_use self.old) self.old }
    {
        if let Some(used) = self.areas[usize::from(self.selected) - 1] {
            if used.table != table {
                self.tables[usize::from(used.table)].close();
            }
        }
    }

    /// The selected area holds this from now on.
    fn hold(&mut self, held: Use)
        requires table { held.table < length self.old.tables }
        requires elsewhere { is_elsewhere self.old held.table ≡ false }
        ensures { self.new ≡ with_use self.old self.old.selected (Some held) }
    {
        self.areas[usize::from(self.selected) - 1] = Some(held);
    }

    /// CLOSE: closes the selected area, which may be closed already.
    pub fn close(&mut self)
        ensures { self.new ≡ closed_here self.old }
    {
        let place = usize::from(self.selected) - 1;
        if let Some(used) = self.areas[place] {
            self.tables[usize::from(used.table)].close();
        }
        self.areas[place] = None;
    }

    /// CLOSE ALL: closes all areas, and selects area 1.
    pub fn close_all(&mut self)
        ensures { self.new ≡ closed_all self.old }
    {
        close_tables(&mut self.tables);
        self.areas = [None; 10];
        self.selected = 1;
    }

    /// The order of an open area, 1 to 10: 0 is record order, 1 that of the first open index.
    pub fn order_of(&self, area: u8) -> u8
        requires first { 1 ≤ area }
        requires last { area ≤ 10 }
        requires open { IsSome (area_table self.now area) }
        ensures { IfSome (area_table self.now area) (λ o. (result ≡ o.order) × (result ≤ length o.list)) }
    {
        self.tables[self.place(area)].order()
    }

    /// The numbers of the open indexes of an open area, 1 to 10, at most seven.
    pub fn list_of(&self, area: u8) -> &[u8]
        requires first { 1 ≤ area }
        requires last { area ≤ 10 }
        requires open { IsSome (area_table self.now area) }
        ensures { IfSome (area_table self.now area) (λ o. (result.now ≡ o.list) × (length o.list ≤ 7)) }
    {
        self.tables[self.place(area)].list()
    }

    /// Whether indexes, by their numbers counted from 0, are all declared of a table, counted from 0.
    pub fn has_indexes(&self, table: u16, indexes: &[u8]) -> bool
        requires { table < length self.now.tables }
        ensures { IfSome (table_at self.now table)
            (λ o. result ≡ list_all (λ n. is_some (mark_at o.table.marks n)) indexes.now) }
    {
        has_all(&self.tables[usize::from(table)], indexes)
    }

    /// The value of field `f`, counted from 0, of the record that an open area, 1 to 10, points to, lent from there; at
    /// the end of file that of a field of blanks.
    pub fn field(&self, area: u8, f: usize) -> Lent<'_>
        requires first { 1 ≤ area }
        requires last { area ≤ 10 }
        requires open { IsSome (area_table self.now area) }
        requires field { IfSome (area_table self.now area) (λ o. f < length o.table.structure.fields) }
        ensures { IfSome (area_table self.entry.now area) (λ o. result ≡ field_of f o) }
    {
        self.tables[self.place(area)].field(f)
    }

    /// EOF() of the selected area.
    pub fn eof(&self) -> bool
        requires { IsSome (here self.now) }
        ensures { IfSome (here self.now) (λ o. result ≡ is_none o.pointer) }
    {
        self.tables[self.place_here()].eof()
    }

    /// BOF() of the selected area.
    pub fn bof(&self) -> bool
        requires { IsSome (here self.now) }
        ensures { IfSome (here self.now) (λ o. result ≡ o.bof) }
    {
        self.tables[self.place_here()].bof()
    }

    /// FOUND() of the selected area.
    pub fn found(&self) -> bool
        requires { IsSome (here self.now) }
        ensures { IfSome (here self.now) (λ o. result ≡ o.found) }
    {
        self.tables[self.place_here()].found()
    }

    /// RECNO() of the selected area: at the end of file the count plus 1.
    pub fn recno(&self) -> u32
        requires { IsSome (here self.now) }
        ensures { IfSome (here self.now) (λ o. result ≡ unwrap_or o.pointer (length o.table.rows + 1)) }
    {
        self.tables[self.place_here()].recno()
    }

    /// RECCOUNT() of the selected area.
    pub fn reccount(&self) -> u32
        requires { IsSome (here self.now) }
        ensures { IfSome (here self.now) (λ o. result ≡ length o.table.rows) }
    {
        self.tables[self.place_here()].reccount()
    }

    /// DELETED() of the selected area: whether the record that it points to is marked; false at the end of file.
    pub fn deleted(&self) -> bool
        requires { IsSome (here self.now) }
        ensures { IfSome (here self.now) (λ o. result ≡ deleted_of o) }
    {
        self.tables[self.place_here()].deleted()
    }

    /// A declared table, counted from 0.
    pub fn table(&self, t: u16) -> &Table
        requires { t < length self.now.tables }
        ensures structure { IfSome (table_at self.now t) (λ o. result.now.structure ≡ o.table.structure) }
        ensures rows { IfSome (table_at self.now t) (λ o. result.now.rows ≡ o.table.rows) }
    {
        self.tables[usize::from(t)].table()
    }

    /// The list of an open index of a declared table, by its place among those that are open there, both counted from
    /// 0; none where there is no such table, or fewer are open. It is never stale, and lists the table's rows.
    pub fn open_keys(&self, t: u16, k: usize) -> Option<&K>
        ensures { MatchOption (table_at self.now t) (result ≡ None)
            (λ o. MatchOption (slice_get o.list k) (result ≡ None)
            (λ n. IsSomeAnd result (λ keys. K.pairs keys.now
            ≡ index_list (parts_in (mark_at o.table.marks n)) o.table.rows))) }
    {
        match self.tables.get(usize::from(t)) {
            Some(table) => table.open_keys(k),
            None => None,
        }
    }

    /// No open index of any table is marked stale. `open_keys` lends the list of such an index.
    pub fn no_open_index_is_stale(&self)
        ensures { NoOpenIndexIsStale self.now }
    {
        for t in 0..self.tables.len() {
            self.tables[t].no_open_index_is_stale();
        }
    }

    /// No table has more records than the limit.
    pub fn tables_are_within_the_limit(&self)
        ensures { IsWithinLimit self.now.limit self.now }
    {
        let _limit = self.limit;
    }

    /// The list of a declared index by its number, counted from 0; none where it is stale, or there is no such index.
    /// It lists the rows of its table under the declared key.
    pub fn keys(&self, number: u8) -> Option<&K>
        ensures fresh { is_some result ≡ is_fresh (mark_in (index_table self.now number) number) }
        ensures exact { IfSome result (λ keys. IfSome (index_table self.now number)
            (λ o. K.pairs keys.now ≡ index_list (parts_in (mark_at o.table.marks number)) o.table.rows)) }
        ensures form { IfSome result (λ keys. IfSome (index_table self.now number)
            (λ o. K.form keys.now ≡ form_in o.table.structure (mark_at o.table.marks number))) }
    {
        for (t, table) in self.tables.iter().enumerate() {
            if table.has_index(number) {
                return table.keys(number);
            }
        }
        None
    }
}

/// Takes all tables out of use.
fn close_tables<K: KeyList>(tables: &mut Vec<OpenTable<K>>)
    ensures { tables.new.items ≡ map closed tables.old.items }
{
    for t in 0..tables.len() {
        tables[t].close();
    }
}

/// Whether a table has indexes of all these numbers.
fn has_all<K: KeyList>(table: &OpenTable<K>, indexes: &[u8]) -> bool
    ensures { result ≡ list_all (λ n. is_some (mark_at table.now.table.marks n)) indexes.now }
{
    let mut rest = indexes;
    while let Some((number, others)) = rest.split_first() {
        if !table.has_index(*number) {
            return false;
        }
        rest = others;
    }
    true
}
