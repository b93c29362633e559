//! The work areas at the command for which command files aren't compiled.

ghost use Rattle.std.specs.Prelude.{IfOk};
ghost use Rattle.met_areas.specs.Met.{AreasOfShape};

use code_items::{AreaState, Desk, FlowInstr, Instr, Shape};
use code_rules::flow::change_desk;
use met_areas::{MetAreas, met_areas};
use prg_code::{CompileFaultKind, Draft, DraftBlock, Label};
use prg_writer::{ProcedureCopy, Writer};
use std::alloc::{AllocError, Global};

/// The work areas that there are.
const AREAS: usize = 10;

/// The work areas that are selected on ways to a place, by their numbers less one. The state of each is that on the
/// first of the ways that selects it.
#[derive(Drop)]
struct Ways {
    selected: Vec<Option<AreaState>>,
}

impl Ways {
    /// No way yet.
    fn new(alloc: Global) -> Result<Ways, AllocError> {
        Ok(Ways {
            selected: vec![in alloc; None; AREAS]?,
        })
    }

    /// One more way, on which this is known. The first one that has selected a work area tells what it holds.
    fn add(&mut self, desk: &Desk) {
        let place = usize::from(desk.selected).saturating_sub(1);
        let Some(area) = desk.areas.as_slice().get(place) else {
            return;
        };
        if let Some(way) = self.selected.get_mut(place)
            && way.is_none()
        {
            *way = Some(*area);
        }
    }
}

/// A walk along the pieces of a procedure that is being written, to find the ways to one of its labels.
#[derive(Drop)]
struct Walk {
    /// The number of the label.
    label: usize,
    /// What is known behind the pieces that are passed.
    desk: Desk,
    /// Whether the place behind them is reached.
    reached: bool,
    ways: Ways,
}

impl Walk {
    /// A jump to this label, or its place, is met.
    fn meet(&mut self, label: usize) {
        if self.reached && label == self.label {
            self.ways.add(&self.desk);
        }
    }

    /// The label stands here: what is known on all ways to it is known.
    fn arrive(&mut self, alloc: Global, labels: &[Label], label: usize) -> Result<(), AllocError> {
        self.meet(label);
        if let Some(
            Label {
                state: Some(seen),
                ..
            },
        ) = labels.get(label)
        {
            self.desk = seen.desk(alloc)?;
            self.reached = true;
        }
        Ok(())
    }

    /// A procedure was called: what it returns with is known, if it returns.
    fn come_back(
        &mut self,
        alloc: Global,
        copies: &[ProcedureCopy],
        number: u16,
    ) -> Result<(), AllocError> {
        if let Some(copy) = copies.get(usize::from(number))
            && let Some(exit) = &copy.exit
        {
            self.desk = exit.desk.copied(alloc)?;
        }
        Ok(())
    }

    /// One more piece is passed.
    fn pass(&mut self, w: &Writer, draft: Draft) -> Result<(), AllocError> {
        match draft {
            Draft::Label(label) => {
                self.arrive(w.alloc, &w.work.block.labels, label as usize)?;
            }
            Draft::JumpFalse(label) => self.meet(label as usize),
            Draft::Jump(label) => {
                self.meet(label as usize);
                self.reached = false;
            }
            Draft::Return | Draft::Instr(Instr::Flow(FlowInstr::End)) => self.reached = false,
            Draft::Instr(Instr::Flow(FlowInstr::Call(number))) => {
                self.come_back(w.alloc, &w.copies, number)?;
            }
            Draft::Instr(instr) => change_desk(instr, &mut self.desk),
        }
        Ok(())
    }
}

/// What is known where the procedure begins that is being written.
fn entry(w: &Writer) -> Result<Desk, AllocError> {
    let mut desk = w.work.block.state.desk.copied(w.alloc)?;
    for copy in &w.copies {
        if !copy.done {
            desk = copy.entry.desk.copied(w.alloc)?;
        }
    }
    Ok(desk)
}

/// The ways to a label of the procedure that is being written.
fn ways_to(w: &Writer, label: usize) -> Result<Ways, AllocError> {
    let mut walk = Walk {
        label,
        desk: entry(w)?,
        reached: true,
        ways: Ways::new(w.alloc)?,
    };
    for piece in &w.work.block.pieces {
        walk.pass(w, piece.draft)?;
    }
    let Walk { ways, .. } = walk;
    Ok(ways)
}

/// The label, if different work areas are selected on ways to it.
fn split_label(block: &DraftBlock, draft: Draft) -> Option<usize> {
    let Draft::Label(label) = draft else {
        return None;
    };
    match block.labels.get(label as usize) {
        Some(Label { split: true, .. }) => Some(label as usize),
        _ => None,
    }
}

/// The label at which ways meet with different work areas: the last piece; or where nothing behind the pieces is
/// reached, the head of the loop that ends there.
fn meeting(block: &DraftBlock) -> Option<usize> {
    let last = split_label(block, block.pieces.last()?.draft);
    if last.is_some() || block.reached {
        return last;
    }
    let mut head = None;
    for piece in &block.pieces {
        if let Some(label) = split_label(block, piece.draft) {
            head = Some(label);
        }
    }
    head
}

/// The ways on which the procedure that is being written returns, here too.
fn ways_out(w: &Writer) -> Result<Ways, AllocError> {
    let mut ways = Ways::new(w.alloc)?;
    if let Some(exit) = &w.work.exit {
        ways.add(&exit.desk);
    }
    ways.add(&w.work.block.state.desk);
    Ok(ways)
}

/// The ways to the command at which the writer stands, which has this fault.
fn ways_here(w: &Writer, kind: CompileFaultKind) -> Result<Ways, AllocError> {
    if kind != CompileFaultKind::Merge {
        let mut ways = Ways::new(w.alloc)?;
        ways.add(&w.work.block.state.desk);
        return Ok(ways);
    }
    match meeting(&w.work.block) {
        Some(label) => ways_to(w, label),
        None => ways_out(w),
    }
}

/// The work areas at the command at which the writer stands, which has this fault; tables go by their declared names.
pub(crate) fn areas_at(
    w: &Writer,
    shape: &Shape,
    kind: CompileFaultKind,
) -> Result<MetAreas, AllocError>
    ensures { IfOk result (AreasOfShape shape.now) }
{
    let ways = ways_here(w, kind)?;
    met_areas(
        w.alloc,
        shape,
        w.work.block.state.desk.areas.as_slice(),
        ways.selected.as_slice(),
    )
}
