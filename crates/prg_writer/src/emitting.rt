//! The writer as a sink: code is put at the end of the copy that is being written.

ghost use Rattle.std.specs.Prelude.{◌≡◌, Bool, true};
ghost use Rattle.code_items.specs.declared.instr.Instr.TheVariants.{Values};
ghost use Rattle.code_items.specs.declared.instr.ValueInstr.TheVariants as value_instr;
ghost use Rattle.prg_values.specs.Readings.{scoped};
ghost use Rattle.xvalue.specs.declared.settings.Setting.TheVariants as setting;
ghost use Rattle.prg_writer.specs.Arguments.{scope_at};

use crate::calling::{close_call, open_call};
use crate::ends::put_return;
use crate::filtering::filter_block;
use crate::loops::{begin_loop, end_round};
use crate::writer::Writer;
use code_items::{Instr, Name, OpenArea, ValueInstr};
use prg_code::{
    CompileError, CompileFaultKind, ListedIndexes, Output, has_unmet_needs, indexes_opened,
};
use prg_commands::{Sink, Target};
use prg_expr::Expr;
use prg_parser::Program;
use prg_values::{Scope, compile_expr, kind_of};
use xvalue::{Kind, Setting, Value};

/// Remembers SET CENTURY.
fn note_setting(out: &mut Output, instr: Instr)
    ensures { (on : Bool) → instr ≡ Values (value_instr.Set setting.Century on) → out.new.century ≡ true }
{
    if let Instr::Values(ValueInstr::Set(Setting::Century, _)) = instr {
        out.century = true;
    }
}

impl Writer<'_> {
    /// What names mean behind the code that is written.
    pub fn scope_here(&self) -> Scope
        ensures { scoped result ≡ scope_at self.now }
    {
        Scope {
            shape: self.shape,
            state: &self.work.block.state,
            names: &self.work.names,
            in_filter: false,
        }
    }

    pub(crate) fn put_expr(&mut self, e: &Expr) -> Result<Kind, CompileError> {
        let scope = Scope {
            shape: self.shape,
            state: &self.work.block.state,
            names: &self.work.names,
            in_filter: false,
        };
        let kind = kind_of(&scope, e)?;
        let code = compile_expr(self.alloc, e, &scope, &mut self.out.pool)?;
        self.work.block.put_all(&code)?;
        Ok(kind)
    }

    fn put_constant(&mut self, value: Value) -> Result<(), CompileError> {
        let number = self.out.pool.number_of(value)?;
        self.work
            .block
            .put(Instr::Values(ValueInstr::Constant(number)))
    }

    fn put_truth(&mut self, e: &Expr) -> Result<(), CompileError> {
        let kind = self.put_expr(e)?;
        if kind.is(Kind::Logical) {
            Ok(())
        } else {
            Err(CompileError::Fault(CompileFaultKind::Kind))
        }
    }

    /// Lists the fault of a condition, where faults are listed, and puts .T. in its place.
    fn put_true_for(&mut self, error: CompileError) -> Result<(), CompileError> {
        self.passed(Err(error))?;
        self.end_command(false)?;
        self.put_constant(Value::Logical(true))
    }
}

impl Sink for Writer<'_> {
    ghost use Rattle.prg_commands.specs.Layout.{nothing_laid};

    ghost laying = { λ _. nothing_laid };

    ghost place = { λ _. 0 };

    ghost judges = { ⊥ };

    fn scope(&self) -> Result<Scope, CompileError> {
        Ok(self.scope_here())
    }

    fn put(&mut self, instr: Instr) -> Result<(), CompileError> {
        note_setting(&mut self.out, instr);
        self.work.block.put(instr)
    }

    fn constant(&mut self, value: Value) -> Result<(), CompileError> {
        self.put_constant(value)
    }

    fn value(&mut self, e: &Expr) -> Result<Kind, CompileError> {
        self.put_expr(e)
    }

    fn slot(&mut self, name: &Name) -> Result<u8, CompileError> {
        self.bound_slot(name)
    }

    fn hide(&mut self, names: &[Name]) {
        if self.work.is_main {
            return;
        }
        for name in names {
            self.work.names.hide(name);
        }
    }

    fn list(&mut self, indexes: ListedIndexes) -> Result<u16, CompileError> {
        if indexes.is_empty() {
            return Ok(0);
        }
        Ok(self.out.lists.number(indexes)? + 1)
    }

    fn filter(&mut self, table: u16, condition: &Expr) -> Result<u16, CompileError> {
        let block = filter_block(self, table, condition)?;
        Ok(self.out.filters.number(block)? + 1)
    }

    fn has_order(&self, area: OpenArea, order: u16) -> bool {
        indexes_opened(&self.out.lists, area.list) >= usize::from(order)
    }

    fn meets_filter(&self, area: OpenArea) -> bool {
        !has_unmet_needs(
            &self.out.filters,
            area.filter,
            self.work.block.state.slots.kinds(),
        )
    }

    fn at(&mut self, line: usize) {
        self.work.block.line = line;
    }

    fn truth(&mut self, e: &Expr) -> Result<(), CompileError> {
        self.begin_command()?;
        match self.put_truth(e) {
            Ok(()) => Ok(self.end_command(true)?),
            Err(error) => self.put_true_for(error),
        }
    }

    fn fork(&mut self) -> Result<usize, CompileError> {
        let label = self.work.block.new_label()?;
        self.work.block.jump_false(label)?;
        Ok(label)
    }

    fn fork_to(&mut self, label: usize) -> Result<(), CompileError> {
        self.work.block.jump_false(label)
    }

    fn jump(&mut self, label: usize) -> Result<(), CompileError> {
        self.work.block.jump(label)
    }

    fn leave(&mut self, end: Option<usize>) -> Result<usize, CompileError> {
        let label = match end {
            Some(label) => label,
            None => self.work.block.new_label()?,
        };
        self.work.block.jump(label)?;
        Ok(label)
    }

    fn before(&mut self, _label: usize, _count: usize) -> Result<usize, CompileError> {
        self.work.block.new_label()
    }

    fn lead(&mut self, label: usize) -> Result<(), CompileError> {
        self.place(label)
    }

    fn mark(&mut self) -> Result<usize, CompileError> {
        begin_loop(self)
    }

    fn again(&mut self, label: usize) -> Result<bool, CompileError> {
        end_round(self, label)
    }

    fn quit(&mut self) -> Result<(), CompileError> {
        self.work.block.put_end()
    }

    fn give_back(&mut self) -> Result<(), CompileError> {
        put_return(&mut self.work)
    }

    fn note(&mut self, error: CompileError) -> Result<(), CompileError> {
        self.passed(Err(error))
    }

    fn begin(&mut self) -> Result<(), CompileError> {
        Ok(self.begin_command()?)
    }

    fn end(&mut self, kept: bool) -> Result<(), CompileError> {
        Ok(self.end_command(kept)?)
    }

    fn open(
        &mut self,
        programs: &[Program],
        procedure: &Name,
        arguments: &[Expr],
    ) -> Result<Option<Target>, CompileError> {
        open_call(programs, self, procedure, arguments)
    }

    fn close(&mut self) -> Result<(), CompileError> {
        close_call(self)
    }
}
