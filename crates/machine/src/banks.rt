//! The banks: a stack for each kind, slots with a place for each kind, and all else that a run changes.

ghost use Rattle.std.specs.Prelude.{◌≡◌, true, IfOk, IsSomeAnd, MatchOption, None, slice_get};
ghost use Rattle.code_items.specs.Legal.{IsCode};
ghost use Rattle.code_rules.specs.Rules.{Accepted};
ghost use Rattle.machine.specs.Showing.{StepShows, shown_next as shown_next_of};
ghost use Rattle.machine.specs.Twins.{Begins, Twin};
ghost use Rattle.row_keys.specs.Lists.{index_list};
ghost use Rattle.run_steps.specs.Opening.{opening as opening_of};
ghost use Rattle.run_steps.specs.Shapes.{StoreFits};
ghost use Rattle.run_steps.specs.World.{World, with_lines};
ghost use Rattle.screen_lines.specs.State.{sent};
ghost use Rattle.text_lines.specs.Lines.{is_out, short_lines};
ghost use Rattle.open_table.specs.Marks.{mark_at, parts_in};
ghost use Rattle.work_area.specs.Areas.{table_at};

use crate::showing::{ShownAt, place_shown_by};
use calendar::Day;
use code_items::Code;
use code_items::instr::Instr;
use code_items::laws::legal_codes;
use fit_laws::laws::fitting_worlds_are_safe_here;
use key_lists::KeyList;
use line_journal::KeptLine;
use run_steps::{Decoded, Machine};
use run_values::Untagged;
use screen_lines::Screen;
use std::alloc::{AllocError, Global};
use std::marker::Model;
use text_lines::TypedLines;
use work_area::Store;
use xverify::Verified;

/// What a run of accepted code changes: values without tags, places, tables, screen, lines of the operator and
/// settings; and what the code is decoded to.
#[derive(Drop)]
pub struct Banks<K: KeyList> {
    pub(crate) machine: Machine<Untagged, K>,
    pub(crate) decoded: Decoded,
}

impl<K: KeyList> Model for Banks<K> {
    ghost use Rattle.std.specs.Coded.{codes};
    ghost use Rattle.machine.specs.Twins.{BankState, banks_of};
    ghost use Rattle.run_steps.specs.contracts.row_works.TruthWork as any_work;

    ghost Value = { BankState };

    ghost coded = { Prim.hlevel (codes, any_work.the_row.coded) };

    ghost view = { λ b. banks_of b.machine b.decoded };
}

impl<K: KeyList> Banks<K> {
    /// The banks from which a run of the code begins: at place 0, with all slots unset and nothing on the stacks, these
    /// tables with all areas closed, these lines of the operator, a blank screen and all settings off, on this day.
    /// They take the memory for slots, stacks and registers, so that values take none in a run. The code is decoded
    /// here, once for all parts of the run, as far as there is memory.
    pub fn opening(
        alloc: Global,
        verified: &Verified,
        store: Store<K>,
        today: Day,
        lines: TypedLines,
    ) -> Result<Self, AllocError>
        requires { StoreFits verified.now.declared store }
        ensures { IfOk result (Begins verified.now (opening_of verified.now store lines today)) }
    {
        legal_codes();
        let mut values = Untagged::new(alloc, usize::from(verified.code().declared.slots))?;
        let decoded = Decoded::of(alloc, verified.code(), &mut values);
        Ok(Banks {
            machine: Machine::opening(alloc, values, store, lines, today)?,
            decoded,
        })
    }

    /// The tables and work areas.
    pub fn store(&self) -> &Store<K>
        ensures { result.now ≡ self.now.env.store }
    {
        self.machine.store()
    }

    /// The list of an open index of a declared table, by its place among those that are open there, both counted from
    /// 0; none where there is no such table, or fewer are open. At whatever step a run has ended, it is never stale,
    /// and lists the keys of the table's rows in order.
    pub fn open_keys(&self, table: u16, k: usize) -> Option<&K>
        ensures { MatchOption (table_at self.now.env.store table) (result ≡ None)
            (λ o. MatchOption (slice_get o.list k) (result ≡ None)
            (λ n. IsSomeAnd result (λ keys. K.pairs keys.now
            ≡ index_list (parts_in (mark_at o.table.marks n)) o.table.rows))) }
    {
        self.machine.store().open_keys(table, k)
    }

    /// The bytes for printing, if the run ends here: the rows sent so far and those that are seen. The banks stay as
    /// they are.
    pub fn finish(&self, alloc: Global) -> Result<Vec<u8>, AllocError>
        ensures { IfOk result (λ bytes. bytes.items ≡ sent self.now.env.screen) }
    {
        self.machine.finish(alloc)
    }

    /// The screen.
    pub fn screen(&self) -> &Screen
        ensures { result.now ≡ self.now.env.screen }
    {
        self.machine.env.screen()
    }

    /// The place of the next instruction in the code.
    pub fn place(&self) -> usize
        ensures { result ≡ self.now.place }
    {
        self.machine.place
    }

    /// Takes a line that was kept, where none is left. Nothing else changes, and no memory is taken.
    pub fn take_line(&mut self, line: KeptLine)
        requires { is_out self.old.env.lines ≡ true }
        ensures { self.new ≡ record self.old { env = with_lines (short_lines line) self.old.env } }
    {
        self.machine
            .env
            .add_lines(TypedLines::new(line.into_bytes()));
    }

    /// Where the next instruction of the code shows a value at a place of the screen. None where it is another
    /// instruction, where the place lies outside the screen, or where it is to be behind a cursor before the first row.
    pub fn next_shown(&self, verified: &Verified) -> Option<ShownAt>
        requires { (w : World) × Twin verified.now w self.now }
        ensures place { (w : World) → Twin verified.now w self.now → result ≡ shown_next_of verified.now w }

        // So it is by what the step makes of the screen.
        ensures step { (w : World) → Twin verified.now w self.now → StepShows verified.now w result }
    {
        self.shown_next(verified.code())
    }

    /// `next_shown` of an accepted code.
    fn shown_next(&self, code: &Code) -> Option<ShownAt>
        requires legal { IsCode code.now }
        requires accepted { Accepted code.now }
        requires twin { (w : World) × Twin code.now w self.now }
        ensures { (w : World) → Twin code.now w self.now → result ≡ shown_next_of code.now w }
    {
        fitting_worlds_are_safe_here();
        match *code.instructions.get(self.machine.place) {
            Instr::Screen(instr) => place_shown_by(instr, &self.machine.values, &self.machine.env),
            _ => None,
        }
    }
}
