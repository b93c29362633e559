//! Blocks laid out: places in place of labels.

ghost use Rattle.std.specs.Prelude.{◌≡◌, ◌<◌, ◌≤◌, ◌⊎◌, [], length, IfOk, IfErr, OnErr};
ghost use Rattle.prg_code.specs.Growth.{drafts_of};
ghost use Rattle.prg_code.specs.Numbers.{Grows};
ghost use Rattle.prg_code.specs.Rooms.{in_64_bits, sizes_of, maps_of};
ghost use Rattle.prg_code.specs.Rooms as rooms;
ghost use Rattle.prg_code.specs.declared.fault.CompileFaultKind.TheVariants.{Limit};
ghost use Rattle.prg_code.specs.declared.fault.CompileRefusal.TheVariants as refusal;

use crate::block::{Draft, DraftBlock, Label, SourceLine};
use crate::fault::{CompileError, CompileFaultKind, CompileRefusal};
use crate::seen::Seen;
use code_items::{FlowInstr, Instr, Map, ValueInstr};
use std::alloc::{AllocError, Global};

/// The most instructions of a code.
const MOST_INSTRUCTIONS: usize = 65535;

/// The most maps of a code.
const MOST_MAPS: usize = 4096;

/// Instructions from place 0 on, and what is known at places to which jumps lead, by rising place, of so many slots.
#[derive(Drop)]
pub struct LaidOut {
    pub instrs: Vec<Instr>,
    pub maps: Vec<Map>,
    slots: usize,
}

impl LaidOut {
    /// Nothing yet of a code with so many slots, with room for so many instructions and maps.
    pub fn new(
        alloc: Global,
        slots: usize,
        instrs: usize,
        maps: usize,
    ) -> Result<LaidOut, AllocError>
        ensures instrs { IfOk result (λ laid. laid.instrs.items ≡ []) }
        ensures maps { IfOk result (λ laid. laid.maps.items ≡ []) }
    {
        Ok(LaidOut {
            instrs: Vec::with_capacity(alloc, instrs)?,
            maps: Vec::with_capacity(alloc, maps)?,
            slots,
        })
    }

    /// Limit in this line, where there are more instructions or maps than a code may have.
    pub fn fits(&self, at: SourceLine) -> Result<(), CompileRefusal>
        ensures instrs { IfOk result (λ _. length self.now.instrs.items ≤ 65535) }
        ensures maps { IfOk result (λ _. length self.now.maps.items ≤ 4096) }
        ensures told { IfErr result (λ e. e ≡ refusal.Fault (record {
          file = at.file;
          line = at.line;
          kind = Limit;
        })) }
        ensures full { OnErr result ((65535 < length self.now.instrs.items) ⊎ (4096 < length self.now.maps.items)) }
    {
        if self.instrs.len() > MOST_INSTRUCTIONS || self.maps.len() > MOST_MAPS {
            let SourceLine { file, line } = at;
            return Err(CompileError::Fault(CompileFaultKind::Limit).at(file, line));
        }
        Ok(())
    }
}

/// How many instructions a piece has, in a procedure with so many slots of its own.
fn size_of(draft: Draft, own: usize) -> usize
    ensures { result ≡ in_64_bits (rooms.piece_size own draft) }
{
    match draft {
        Draft::Instr(_) => 1,
        Draft::Jump(_) => 1,
        Draft::JumpFalse(_) => 1,
        Draft::Label(_) => 0,
        Draft::Return => own.saturating_add(1),
    }
}

/// Whether a jump leads to the label.
fn is_jumped(labels: &[Label], label: u32) -> bool
    ensures { result ≡ rooms.is_jumped labels.now label }
{
    match labels.get(label as usize) {
        Some(label) => label.jumped,
        None => false,
    }
}

/// How many maps a piece has at most.
fn maps_at(labels: &[Label], draft: Draft) -> usize
    ensures { result ≡ rooms.maps_at labels.now draft }
{
    match draft {
        Draft::Label(label) => usize::from(is_jumped(labels, label)),
        Draft::Instr(_) => 0,
        Draft::Jump(_) => 0,
        Draft::JumpFalse(_) => 0,
        Draft::Return => 0,
    }
}

/// How many instructions and maps the block has at most, if it has so many slots of its own.
#[tactic(auto, using(crate::proofs::Rooms::all_sizes, crate::proofs::Rooms::all_maps))]
pub fn room_of(block: &DraftBlock, own: usize) -> (usize, usize)
    ensures instrs { result.0 ≡ in_64_bits (sizes_of own (drafts_of block.now)) }
    ensures maps { result.1 ≡ in_64_bits (maps_of block.now.labels.items (drafts_of block.now)) }
{
    let mut instrs = 0usize;
    let mut maps = 0usize;
    let mut rest = block.pieces.as_slice();
    while let Some((piece, others)) = rest.split_first() {
        instrs = instrs.saturating_add(size_of(piece.draft, own));
        maps = maps.saturating_add(maps_at(&block.labels, piece.draft));
        rest = others;
    }
    (instrs, maps)
}

/// The places of the labels, if the block begins at this place.
fn places(
    alloc: Global,
    block: &DraftBlock,
    own: usize,
    first: usize,
) -> Result<Vec<usize>, AllocError> {
    let mut places = vec![in alloc; first; block.labels.len()]?;
    let mut place = first;
    for piece in &block.pieces {
        if let Draft::Label(label) = piece.draft {
            set(&mut places, label as usize, place);
        }
        place = place.saturating_add(size_of(piece.draft, own));
    }
    Ok(places)
}

fn set(places: &mut Vec<usize>, label: usize, place: usize) {
    if label < places.len() {
        places[label] = place;
    }
}

fn target(places: &[usize], label: u32) -> u32 {
    match places.get(label as usize) {
        Some(place) => u32::try_from(*place).unwrap_or(u32::MAX),
        None => u32::MAX,
    }
}

fn put_return(instrs: &mut Vec<Instr>, own: &[u8]) -> Result<(), AllocError>
    ensures { Grows instrs.old.items instrs.new.items }
{
    for slot in own {
        instrs.push(Instr::Values(ValueInstr::Unset(u16::from(*slot))))?;
    }
    instrs.push(Instr::Flow(FlowInstr::Return))?;
    Ok(())
}

/// Leaves out the last map where it is of this place: what is known there flows into the label that stands behind it.
fn drop_last_at(maps: &mut Vec<Map>, place: u16) {
    if is_last_at(maps, place) {
        maps.truncate(maps.len().saturating_sub(1));
    }
}

fn is_last_at(maps: &[Map], place: u16) -> bool {
    match maps.last() {
        Some(last) => last.place == place,
        None => false,
    }
}

/// What is known at a label to which a jump leads.
fn known_at(block: &DraftBlock, label: u32) -> Option<&Seen> {
    match block.labels.get(label as usize) {
        Some(
            Label {
                state: Some(seen),
                jumped: true,
                ..
            },
        ) => Some(seen),
        _ => None,
    }
}

fn put_map(
    alloc: Global,
    laid: &mut LaidOut,
    block: &DraftBlock,
    label: u32,
) -> Result<(), AllocError>
    ensures { laid.new.instrs ≡ laid.old.instrs }
{
    let Some(seen) = known_at(block, label) else {
        return Ok(());
    };
    let place = u16::try_from(laid.instrs.len()).unwrap_or(u16::MAX);
    drop_last_at(&mut laid.maps, place);
    let state = seen.state(alloc, laid.slots)?;
    laid.maps.push(Map { place, state })?;
    Ok(())
}

fn put_instr(laid: &mut LaidOut, instr: Instr) -> Result<(), AllocError>
    ensures { Grows laid.old.instrs.items laid.new.instrs.items }
{
    laid.instrs.push(instr)?;
    Ok(())
}

fn put(
    alloc: Global,
    laid: &mut LaidOut,
    block: &DraftBlock,
    places: &[usize],
    own: &[u8],
    draft: Draft,
) -> Result<(), AllocError>
    ensures { Grows laid.old.instrs.items laid.new.instrs.items }
{
    match draft {
        Draft::Instr(instr) => put_instr(laid, instr),
        Draft::Jump(label) => {
            put_instr(laid, Instr::Flow(FlowInstr::Jump(target(places, label))))
        }
        Draft::JumpFalse(label) => put_instr(
            laid,
            Instr::Flow(FlowInstr::JumpFalse(target(places, label))),
        ),
        Draft::Label(label) => put_map(alloc, laid, block, label),
        Draft::Return => put_return(&mut laid.instrs, own),
    }
}

/// Puts the pieces of the block, whose labels have these places.
fn lay_pieces(
    alloc: Global,
    laid: &mut LaidOut,
    block: &DraftBlock,
    places: &[usize],
    own: &[u8],
    file: usize,
) -> Result<(), CompileRefusal>
    ensures { Grows laid.old.instrs.items laid.new.instrs.items }
{
    for piece in &block.pieces {
        put(alloc, laid, block, places, own, piece.draft)?;
        let line = piece.line as usize;
        laid.fits(SourceLine { file, line })?;
    }
    Ok(())
}

/// Puts the block behind what is laid out. Where it returns, these slots lose their values. Limit in the line, of this
/// file, of the first command whose code has no room.
pub fn lay(
    alloc: Global,
    laid: &mut LaidOut,
    block: &DraftBlock,
    own: &[u8],
    file: usize,
) -> Result<(), CompileRefusal>
    // The instructions that are laid out stay where they are.
    ensures { Grows laid.old.instrs.items laid.new.instrs.items }
{
    let places = places(alloc, block, own.len(), laid.instrs.len())?;
    lay_pieces(alloc, laid, block, &places, own, file)
}
