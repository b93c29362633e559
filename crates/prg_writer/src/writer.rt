//! The copies of procedures that are written, and how a round of a loop is given up.

ghost use Rattle.std.specs.Prelude.{◌≡◌, [], ◌∷◌, ◌++◌, None, Err, true, false, take, IfOk, OnOk};
ghost use Rattle.prg_code.specs.Parts.{told_at};
ghost use Rattle.prg_code.specs.declared.fault.CompileError.TheVariants as error;
ghost use Rattle.prg_writer.specs.Writing.{IsMark, IsBegun, IsBackAt, IsOpened};

use crate::calling::OpenCopy;
use crate::fault_list::FaultList;
use crate::heads::LoopHead;
use crate::loops::OpenLoop;
use crate::procedures::NamedProcedures;
use code_items::State;
use prg_code::{
    CompileError, CompileFault, CompileFaultKind, CompileRefusal, DraftBlock, Names, Output, Work,
};
use prg_commands::Target;
use shape::Shape;
use std::alloc::{AllocError, Global};
use std::mem;

/// A copy of a procedure that is written.
#[derive(Drop)]
pub struct ProcedureCopy {
    pub target: Target,
    /// The variables that are seen where it begins.
    pub names: Names,
    /// What is known where it begins.
    pub entry: State,
    /// What is known where it returns, if it does.
    pub exit: Option<State>,
    pub level: u8,
    /// The slots that are its own, rising.
    pub own: Vec<u8>,
    pub block: DraftBlock,
    /// Whether all of it is written.
    pub done: bool,
}

/// All that is written so far.
#[derive(Drop)]
pub struct Writer<'a> {
    pub alloc: Global,
    /// The tables and indexes that are declared.
    pub shape: &'a Shape,
    pub out: Output,
    /// The copy that is being written.
    pub work: Work,
    pub copies: Vec<ProcedureCopy>,
    /// The procedures that calls may name.
    pub procedures: NamedProcedures,
    /// The procedures that are being written, from the main one on.
    pub active: Vec<Target>,
    /// The copies that are being written where they are called first, but the main procedure.
    pub calls: Vec<OpenCopy>,
    /// The loops that are being written.
    pub loops: Vec<OpenLoop>,
    /// What held at the heads of loops.
    pub heads: Vec<LoopHead>,
    /// What stood before the commands that are being written, where faults are listed.
    pub begun: Vec<Begun>,
    /// Where faults are listed and the writing goes on behind them; none where the first fault ends the writing.
    pub listed: Option<FaultList>,
}

/// What stood before a command.
#[derive(Drop)]
pub struct Begun {
    mark: WrittenMark,
    state: State,
    loops: usize,
}

/// How much was written at some time.
#[derive(Drop)]
pub struct WrittenMark {
    pieces: usize,
    labels: usize,
    constants: usize,
    lists: usize,
    filters: usize,
    pub(crate) slots: u16,
    century: bool,
    copies: usize,
    own: usize,
    level: u8,
    pub(crate) names: Names,
    exit: Option<State>,
}

/// The same once more.
pub fn copy_of_state(alloc: Global, state: &Option<State>) -> Result<Option<State>, AllocError>
    ensures { IfOk result (λ copy. copy ≡ state.now) }
{
    match state {
        Some(state) => Ok(Some(state.copied(alloc)?)),
        None => Ok(None),
    }
}

/// Gives up what was added since.
fn cut_output(out: &mut Output, mark: &WrittenMark)
    ensures constants { out.new.pool ≡ take mark.now.constants out.old.pool }
    ensures lists { out.new.lists ≡ take mark.now.lists out.old.lists }
    ensures filters { out.new.filters ≡ take mark.now.filters out.old.filters }
    ensures slots { out.new.slots ≡ mark.now.slots }
    ensures century { out.new.century ≡ mark.now.century }
{
    out.pool.cut(mark.constants);
    out.lists.cut(mark.lists);
    out.filters.cut(mark.filters);
    out.slots = mark.slots;
    out.century = mark.century;
}

impl<'a> Writer<'a> {
    /// How much is written.
    pub fn mark(&self) -> Result<WrittenMark, AllocError>
        ensures { IfOk result (IsMark self.now) }
    {
        Ok(WrittenMark {
            pieces: self.work.block.pieces.len(),
            labels: self.work.block.labels.len(),
            constants: self.out.pool.len(),
            lists: self.out.lists.len(),
            filters: self.out.filters.len(),
            slots: self.out.slots,
            century: self.out.century,
            copies: self.copies.len(),
            own: self.work.own.len(),
            level: self.work.level,
            names: self.work.names.copied()?,
            exit: copy_of_state(self.alloc, &self.work.exit)?,
        })
    }

    /// Gives up what was written since, and goes on with what is known now.
    pub fn give_up(&mut self, mark: &WrittenMark, known: &State) -> Result<(), AllocError>
        ensures back { OnOk result (IsBackAt mark.now known.now self.old self.new) }
    {
        let state = known.copied(self.alloc)?;
        self.work.block.cut(mark.pieces, mark.labels, state);
        cut_output(&mut self.out, mark);
        self.copies.truncate(mark.copies);
        self.work.own.truncate(mark.own);
        self.work.level = mark.level;
        self.work.names = mark.names.copied()?;
        self.work.exit = copy_of_state(self.alloc, &mark.exit)?;
        Ok(())
    }

    /// The refusal of the command whose code is being put.
    pub fn refused(&self, error: CompileError) -> CompileRefusal
        ensures { result ≡ told_at error self.now.work.file self.now.work.block.line }
    {
        error.at(self.work.file, self.work.block.line)
    }

    /// The label stands here. Merge where different work areas are selected on the ways that meet here.
    pub(crate) fn place(&mut self, label: usize) -> Result<(), CompileError> {
        let outcome = self.work.block.place(label);
        self.passed(outcome)
    }

    /// What stands before a command.
    fn stands(&self) -> Result<Begun, AllocError>
        ensures { IfOk result (IsBegun self.now) }
    {
        let state = self.work.block.state.copied(self.alloc)?;
        let mark = self.mark()?;
        Ok(Begun {
            mark,
            state,
            loops: self.loops.len(),
        })
    }

    /// A command begins, which may be given up where faults are listed.
    pub(crate) fn begin_command(&mut self) -> Result<(), AllocError>
        ensures none { self.old.listed ≡ None → self.new ≡ self.old }
        // Nothing is written.
        ensures same { self.new ≡ record self.old { begun = self.new.begun } }
    {
        if self.listed.is_some() {
            let begun = self.stands()?;
            self.begun.push(begun)?;
        }
        Ok(())
    }

    /// The command that began last ends. Where faults are listed, nothing of it stays unless it is kept.
    pub(crate) fn end_command(&mut self, kept: bool) -> Result<(), AllocError>
        ensures kept { kept ≡ true → self.new ≡ record self.old { begun = self.new.begun } }
    {
        match self.begun.pop() {
            Some(begun) if !kept => self.give_up_command(&begun),
            _ => Ok(()),
        }
    }

    /// Goes on as if nothing of a command were written since it was begun.
    fn give_up_command(&mut self, begun: &Begun) -> Result<(), AllocError> {
        self.give_up(&begun.mark, &begun.state)?;
        self.loops.truncate(begun.loops);
        Ok(())
    }

    /// Lists the fault, where faults are listed, and goes on; else it is the answer.
    pub(crate) fn passed(&mut self, outcome: Result<(), CompileError>) -> Result<(), CompileError>
        ensures ok { OnOk outcome (result ≡ outcome) }
        ensures told { self.old.listed ≡ None → result ≡ outcome }
        // Nothing is written.
        ensures same { self.new ≡ record self.old { listed = self.new.listed } }
    {
        match outcome {
            Ok(()) => Ok(()),
            Err(CompileError::NoMemory) => Err(CompileError::NoMemory),
            Err(CompileError::Fault(kind)) => self.list(kind),
        }
    }

    fn list(&mut self, kind: CompileFaultKind) -> Result<(), CompileError>
        ensures told { self.old.listed ≡ None → result ≡ Err (error.Fault kind) }
        ensures same { self.new ≡ record self.old { listed = self.new.listed } }
    {
        let fault = CompileFault {
            file: self.work.file,
            line: self.work.block.line,
            kind,
        };
        match &mut self.listed {
            Some(list) => Ok(list.note(fault)?),
            None => Err(CompileError::Fault(kind)),
        }
    }

    /// Begins a copy of which nothing is written yet, with these names and what is known here.
    pub fn open_copy(&mut self, target: Target, names: Names) -> Result<(), AllocError>
        ensures active { OnOk result (self.new.active.items ≡ self.old.active.items ++ target ∷ []) }
        ensures opened { OnOk result (IsOpened target names self.old.work.block.state
            self.old.copies.items self.new.copies.items) }
        ensures same { self.new ≡ record self.old { copies = self.new.copies; active = self.new.active } }
    {
        let entry = self.work.block.state.copied(self.alloc)?;
        self.copies.push(ProcedureCopy {
            target,
            names,
            entry,
            exit: None,
            level: 0,
            own: Vec::new(self.alloc),
            block: DraftBlock::unwritten(self.alloc),
            done: false,
        })?;
        self.active.push(target)?;
        Ok(())
    }

    /// Nothing yet but this copy, of which nothing is written, and the procedures that calls may name.
    pub fn new(
        alloc: Global,
        shape: &'a Shape,
        work: Work,
        procedures: NamedProcedures,
    ) -> Writer<'a>
        ensures out { result.out ≡ record {
          pool = [];
          lists = [];
          filters = [];
          slots = 0;
          highest = 0;
          century = false;
        } }
        ensures shape { result.shape.now ≡ shape.now }
        ensures work { result.work ≡ work }
        ensures copies { result.copies.items ≡ [] }
        ensures procedures { result.procedures ≡ procedures }
        ensures active { result.active.items ≡ [] }
        ensures calls { result.calls.items ≡ [] }
        ensures loops { result.loops.items ≡ [] }
        ensures heads { result.heads.items ≡ [] }
        ensures begun { result.begun.items ≡ [] }
        ensures listed { result.listed ≡ None }
    {
        Writer {
            alloc,
            shape,
            out: Output::new(alloc),
            work,
            copies: Vec::new(alloc),
            procedures,
            active: Vec::new(alloc),
            calls: Vec::new(alloc),
            loops: Vec::new(alloc),
            heads: Vec::new(alloc),
            begun: Vec::new(alloc),
            listed: None,
        }
    }

    /// Goes on with another copy, and gives the one that was being written.
    pub fn begin(&mut self, work: Work) -> Work
        ensures given { result ≡ self.old.work }
        ensures goes_on { self.new ≡ record self.old { work = work } }
    {
        mem::replace(&mut self.work, work)
    }
}
