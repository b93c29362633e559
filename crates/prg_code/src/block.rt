//! A procedure's block that is being written.

ghost use Rattle.std.specs.Prelude.{◌≡◌, ◌<◌, ◌^◌, [], ◌∷◌, ◌++◌, true, false, length, take, IfOk, IsOk, OnOk, OnErr};
ghost use Rattle.std.specs.Prelude.{replicate, None};
ghost use Rattle.code_items.specs.declared.instr.FlowInstr.TheVariants.{End};
ghost use Rattle.code_items.specs.declared.instr.Instr.TheVariants.{Flow};
ghost use Rattle.prg_code.specs.Growth.{BlockGrows, BlockBegins, IsBesidePieces, Puts, drafts_of, nothing_known};
ghost use Rattle.prg_code.specs.declared.block.Draft.TheVariants as draft;

use crate::fault::{CompileError, CompileFaultKind};
use crate::merging::merged;
use crate::seen::Seen;
use code_items::{AreaState, Desk, FlowInstr, Instr, Items, KindSlots, KindStack, State};
use code_rules::Signature;
use code_rules::flow::{change_desk, change_slots};
use std::alloc::{AllocError, Global};
use xvalue::Kind;

/// The most values on the stack.
const MOST_VALUES: usize = 64;

/// The most slots.
pub const MOST_SLOTS: usize = 256;

/// A piece of a block, before its labels have places.
#[derive(Clone, Copy)]
pub enum Draft {
    /// An instruction that is no jump.
    Instr(Instr),
    /// JUMP to the label of this number.
    Jump(u32),
    /// JUMPF to the label of this number.
    JumpFalse(u32),
    /// The place of the label of this number.
    Label(u32),
    /// The procedure's variables lose their values, and it returns.
    Return,
}

/// A line of a command file, whose files are counted from 0.
#[derive(Clone, Copy)]
pub struct SourceLine {
    pub file: usize,
    pub line: usize,
}

/// A draft, and the line of the command whose code it is.
#[derive(Clone, Copy)]
pub struct BlockPiece {
    pub draft: Draft,
    pub line: u32,
}

/// A number of a line or of a label, in four bytes. No file has so many lines that one doesn't fit.
fn four_bytes(number: usize) -> u32
    ensures { number < 2 ^ 32 → result ≡ number }
{
    u32::try_from(number).unwrap_or(u32::MAX)
}

/// A place to which jumps may lead.
#[derive(Drop)]
pub struct Label {
    /// What is known there, from all ways that lead there so far; none where none does.
    pub state: Option<Seen>,
    /// Whether a jump leads there.
    pub jumped: bool,
    /// Whether different work areas are selected on the ways.
    pub split: bool,
}

/// A block: its pieces and labels, and what is known behind the last piece.
#[derive(Drop)]
pub struct DraftBlock {
    alloc: Global,
    pub pieces: Vec<BlockPiece>,
    pub labels: Vec<Label>,
    /// The line of the command whose code is being put.
    pub line: usize,
    /// What is known behind the last piece, if that is reached. It has 256 slots.
    pub state: State,
    /// Whether the place behind the last piece is reached.
    pub reached: bool,
    /// How many values are on the stack behind the last piece, and the most at any place.
    depth: usize,
    pub highest: usize,
}

/// As many slots, of which nothing is known.
fn free_slots(alloc: Global, count: usize) -> Result<Vec<Option<Kind>>, AllocError>
    ensures { IfOk result (λ slots. slots.items ≡ replicate count None) }
{
    let mut slots = Vec::new(alloc);
    for _ in 0..count {
        slots.push(None)?;
    }
    Ok(slots)
}

/// Nothing known of 256 slots, all areas closed and the first selected.
fn blank(alloc: Global) -> Result<State, AllocError>
    ensures { IfOk result (λ state. state ≡ nothing_known) }
{
    let areas = vec![in alloc; AreaState::Closed; 10]?;
    let kinds = free_slots(alloc, MOST_SLOTS)?;
    Ok(State {
        desk: Desk {
            selected: 1,
            areas: Items::of(areas),
        },
        slots: KindSlots::of(kinds),
        stack: KindStack::of(Vec::new(alloc)),
    })
}

impl DraftBlock {
    /// An empty block of the main procedure.
    pub fn main(alloc: Global) -> Result<DraftBlock, AllocError>
        ensures { IfOk result (BlockBegins nothing_known) }
    {
        Ok(DraftBlock::entered(alloc, blank(alloc)?))
    }

    /// An empty block, at whose beginning this is known.
    pub fn entered(alloc: Global, state: State) -> DraftBlock
        ensures { BlockBegins state result }
    {
        DraftBlock {
            alloc,
            pieces: Vec::new(alloc),
            labels: Vec::new(alloc),
            line: 0,
            state,
            reached: true,
            depth: 0,
            highest: 0,
        }
    }

    /// In place of a block that isn't written yet, of whose beginning nothing is known.
    pub fn unwritten(alloc: Global) -> DraftBlock
        ensures { BlockBegins result.state result }
    {
        DraftBlock::entered(
            alloc,
            State {
                desk: Desk {
                    selected: 1,
                    areas: Items::of(Vec::new(alloc)),
                },
                slots: KindSlots::of(Vec::new(alloc)),
                stack: KindStack::of(Vec::new(alloc)),
            },
        )
    }

    fn push(&mut self, draft: Draft) -> Result<(), AllocError>
        ensures put { OnOk result (drafts_of self.new ≡ drafts_of self.old ++ draft ∷ []) }
        ensures grown { BlockGrows self.old self.new }
        ensures refused { OnErr result (drafts_of self.new ≡ drafts_of self.old) }
        ensures same { IsBesidePieces self.old self.new }
    {
        let line = four_bytes(self.line);
        self.pieces.push(BlockPiece { draft, line })?;
        Ok(())
    }

    /// Adds an instruction that is no jump. Limit where the stack would be too high.
    pub fn put(&mut self, instr: Instr) -> Result<(), CompileError>
        ensures put { OnOk result (Puts (instr ∷ []) self.old self.new) }
        ensures grown { BlockGrows self.old self.new }
        // Where it is refused, nothing is put, and the same is known.
        ensures refused { OnErr result (Puts [] self.old self.new) }
        ensures reached { self.new.reached ≡ self.old.reached }
    {
        let signature = Signature::of(instr);
        let left = self.depth.saturating_sub(signature.taken);
        let depth = left.saturating_add(signature.adds);
        if depth > MOST_VALUES {
            return Err(CompileError::Fault(CompileFaultKind::Limit));
        }
        self.push(Draft::Instr(instr))?;
        self.depth = depth;
        self.highest = self.highest.max(depth);
        change_slots(instr, &mut self.state.slots);
        change_desk(instr, &mut self.state.desk);
        Ok(())
    }

    /// Adds instructions that are no jumps.
    pub fn put_all(&mut self, instrs: &[Instr]) -> Result<(), CompileError>
        ensures put { OnOk result (Puts instrs.now self.old self.new) }
        ensures grown { BlockGrows self.old self.new }
        ensures reached { self.new.reached ≡ self.old.reached }
    {
        for instr in instrs {
            self.put(*instr)?;
        }
        Ok(())
    }

    /// Ends the way: an END.
    pub fn put_end(&mut self) -> Result<(), CompileError>
        ensures put { OnOk result (drafts_of self.new ≡ drafts_of self.old ++ draft.Instr (Flow End) ∷ []) }
        ensures grown { BlockGrows self.old self.new }
        ensures reached { OnOk result (self.new.reached ≡ false) }
    {
        self.push(Draft::Instr(Instr::Flow(FlowInstr::End)))?;
        self.reached = false;
        Ok(())
    }

    /// Ends the way: the procedure returns.
    pub fn put_return(&mut self) -> Result<(), CompileError>
        ensures put { OnOk result (drafts_of self.new ≡ drafts_of self.old ++ draft.Return ∷ []) }
        ensures grown { BlockGrows self.old self.new }
        ensures reached { OnOk result (self.new.reached ≡ false) }
    {
        self.push(Draft::Return)?;
        self.reached = false;
        Ok(())
    }

    /// A new label, which has no place yet.
    pub fn new_label(&mut self) -> Result<usize, CompileError>
        ensures number { IfOk result (λ number. number ≡ length self.old.labels.items) }
        ensures there { IfOk result (λ number. number < length self.new.labels.items) }
        ensures grown { BlockGrows self.old self.new }
        ensures pieces { self.new.pieces ≡ self.old.pieces }
    {
        let number = self.labels.len();
        self.labels.push(Label {
            state: None,
            jumped: false,
            split: false,
        })?;
        Ok(number)
    }

    /// A JUMP to the label, where the place is reached. It isn't reached afterwards.
    pub fn jump(&mut self, label: usize) -> Result<(), CompileError>
        ensures put { OnOk result (label < 2 ^ 32 → self.old.reached ≡ true
            → drafts_of self.new ≡ drafts_of self.old ++ draft.Jump label ∷ []) }
        // Where the place isn't reached, no jump is written.
        ensures none { self.old.reached ≡ false → IsOk result × (self.new.pieces ≡ self.old.pieces) }
        ensures grown { BlockGrows self.old self.new }
        ensures reached { OnOk result (self.new.reached ≡ false) }
    {
        if !self.reached {
            return Ok(());
        }
        self.push(Draft::Jump(four_bytes(label)))?;
        self.flow_to(label, true)?;
        self.reached = false;
        Ok(())
    }

    /// A JUMPF to the label, which takes the truth value on top.
    pub fn jump_false(&mut self, label: usize) -> Result<(), CompileError>
        ensures put { OnOk result (label < 2 ^ 32
            → drafts_of self.new ≡ drafts_of self.old ++ draft.JumpFalse label ∷ []) }
        ensures grown { BlockGrows self.old self.new }
        ensures known { self.new.state ≡ self.old.state }
        ensures reached { self.new.reached ≡ self.old.reached }
    {
        self.push(Draft::JumpFalse(four_bytes(label)))?;
        self.depth = self.depth.saturating_sub(1);
        self.flow_to(label, true)?;
        Ok(())
    }

    /// What is known here flows to the label.
    fn flow_to(&mut self, label: usize, jumped: bool) -> Result<(), CompileError>
        ensures pieces { self.new.pieces ≡ self.old.pieces }
        ensures grown { BlockGrows self.old self.new }
        ensures known { self.new.state ≡ self.old.state }
        ensures reached { self.new.reached ≡ self.old.reached }
    {
        let Some(there) = self.labels.get_mut(label) else {
            return Ok(());
        };
        there.meet(self.alloc, &self.state)?;
        there.jumped = there.jumped || jumped;
        Ok(())
    }

    /// The label stands here. Merge where ways meet here on which different areas are selected.
    pub fn place(&mut self, label: usize) -> Result<(), CompileError>
        ensures put { OnOk result (label < 2 ^ 32
            → drafts_of self.new ≡ drafts_of self.old ++ draft.Label label ∷ []) }
        ensures grown { BlockGrows self.old self.new }
    {
        if self.reached {
            self.flow_to(label, false)?;
        }
        self.push(Draft::Label(four_bytes(label)))?;
        self.arrive(label)
    }

    /// What is known at the label is known here. Merge where ways meet there on which different areas are selected.
    fn arrive(&mut self, label: usize) -> Result<(), CompileError>
        ensures pieces { self.new.pieces ≡ self.old.pieces }
        ensures grown { BlockGrows self.old self.new }
    {
        let Some(there) = self.labels.get(label) else {
            return Ok(());
        };
        if let Some(seen) = &there.state {
            self.state = seen.state(self.alloc, MOST_SLOTS)?;
            self.reached = true;
        }
        if there.split {
            return Err(CompileError::Fault(CompileFaultKind::Merge));
        }
        Ok(())
    }

    /// Leaves out the pieces and labels behind the first so many, and knows this.
    pub fn cut(&mut self, pieces: usize, labels: usize, state: State)
        ensures pieces { self.new.pieces.items ≡ take pieces self.old.pieces.items }
        ensures labels { self.new.labels.items ≡ take labels self.old.labels.items }
        ensures known { self.new.state ≡ state }
        ensures reached { self.new.reached ≡ true }
        ensures highest { self.new.highest ≡ self.old.highest }
    {
        self.state = state;
        self.reached = true;
        self.depth = 0;
        self.pieces.truncate(pieces);
        self.labels.truncate(labels);
    }
}

impl Label {
    /// One more way leads there, on which this is known.
    fn meet(&mut self, alloc: Global, state: &State) -> Result<(), AllocError> {
        let split = is_split(&self.state, state);
        self.state = Some(flown(alloc, &self.state, state)?);
        self.split = self.split || split;
        Ok(())
    }
}

/// What is known where this way meets those that are there.
fn flown(alloc: Global, there: &Option<Seen>, state: &State) -> Result<Seen, AllocError> {
    match there {
        Some(seen) => met(alloc, seen, state),
        None => Seen::of(alloc, state),
    }
}

/// What is known there and on this way.
fn met(alloc: Global, there: &Seen, state: &State) -> Result<Seen, AllocError> {
    let there = there.state(alloc, MOST_SLOTS)?;
    known_on_both(alloc, &there, state)
}

fn known_on_both(alloc: Global, one: &State, two: &State) -> Result<Seen, AllocError> {
    let both = merged(alloc, one, two)?;
    Seen::of(alloc, &both)
}

/// Whether another work area is selected there.
fn is_split(there: &Option<Seen>, state: &State) -> bool {
    match there {
        Some(seen) => !seen.selects(state.desk.selected),
        None => false,
    }
}
