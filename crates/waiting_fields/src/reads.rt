//! The READs of a code.

ghost use Rattle.std.specs.Prelude.{◌≡◌, ◌≤◌, ◌-◌, ℕ, true, false, length, IfOk};
ghost use Rattle.std.specs.List.{All, Contains};
ghost use Rattle.code_items.specs.Showing.{shows_value};
ghost use Rattle.waiting_fields.specs.Reads as spec;
ghost use Rattle.waiting_fields.specs.Reads.{AreMatched, GoesOn, IsReadOfCode, IsTaken};

use code_items::Code;
use code_items::instr::{FlowInstr, Instr, RecordInstr, ScreenInstr, ValueInstr};
use std::alloc::{AllocError, Global};
use xvalue::laws::same_kinds_are_equal;

/// A READ: the places at which it takes lines, and those of the instructions that show the values it asks for, in their
/// order; none of these where they can't be told apart.
#[derive(Drop)]
pub struct Read {
    pub takes: Vec<usize>,
    pub shows: Vec<usize>,
}

/// Whether an instruction puts the value of a variable or of a field on the stack.
fn is_source(instr: Instr) -> bool
    ensures { result ≡ spec.is_source instr }
{
    matches!(
        instr,
        Instr::Values(ValueInstr::Load(_, _)) | Instr::Records(RecordInstr::Field { .. })
    )
}

/// Whether an instruction takes a value into a variable or a field.
fn is_sink(instr: Instr) -> bool {
    matches!(
        instr,
        Instr::Values(ValueInstr::Store(_, _)) | Instr::Records(RecordInstr::Replace(_))
    )
}

/// Whether an instruction takes a line for a value.
fn is_input(instr: Instr) -> bool
    ensures { result ≡ spec.is_input instr }
{
    matches!(instr, Instr::Screen(ScreenInstr::Input(_)))
}

/// The instruction before a place.
fn before(code: &[Instr], place: usize) -> Option<Instr>
    ensures { result ≡ spec.before code.now place }
{
    if place == 0 {
        return None;
    }
    code.get(place - 1).copied()
}

/// Whether a line is taken at a place for the value before it.
fn takes_at(code: &[Instr], place: usize) -> bool
    ensures { result ≡ spec.takes_at code.now place }
{
    match (before(code, place), code.get(place)) {
        (Some(source), Some(instr)) => is_source(source) && is_input(*instr),
        _ => false,
    }
}

/// Whether a READ takes its first line at a place: none of its lines is taken just before.
fn begins_at(code: &[Instr], place: usize) -> bool
    ensures { result ≡ false → spec.takes_at code.now place ≡ true
        → (3 ≤ place) × (spec.takes_at code.now (place - 3) ≡ true) }
{
    if !takes_at(code, place) {
        return false;
    }
    match (place.checked_sub(3), place.checked_sub(2)) {
        (Some(input), Some(sink)) => match code.get(sink) {
            Some(instr) => !(is_sink(*instr) && takes_at(code, input)),
            None => true,
        },
        _ => true,
    }
}

/// How many instructions there are.
fn count_of(code: &[Instr]) -> usize
    ensures { result ≡ length code.now }
{
    code.len()
}

/// The places at which the READ that begins at a place takes its lines.
fn takes_from(alloc: Global, code: &[Instr], first: usize) -> Result<Vec<usize>, AllocError>
    ensures takes { IfOk result (λ takes. All (λ place. spec.takes_at code.now place ≡ true) takes.items) }
    ensures goes_on { IfOk result (λ takes. GoesOn code.now takes.items) }
    ensures first { IfOk result (λ takes. spec.takes_at code.now first ≡ true → Contains takes.items first) }
{
    let count = count_of(code);
    let mut takes = Vec::new(alloc);
    let mut next = first;
    while next < count && takes_at(code, next) {
        takes.push(next)?;
        next = next.saturating_add(3);
    }
    Ok(takes)
}

/// Whether straight code ends at an instruction, as seen from behind it.
fn ends_straight(instr: Instr) -> bool {
    match instr {
        Instr::Flow(
            FlowInstr::Jump(_)
            | FlowInstr::JumpFalse(_)
            | FlowInstr::Call(_)
            | FlowInstr::Return
            | FlowInstr::End,
        ) => true,
        Instr::Screen(ScreenInstr::Input(_) | ScreenInstr::Line | ScreenInstr::Clear) => true,
        _ => false,
    }
}

/// Whether an instruction shows a value at a place of the screen.
fn shows(instr: Instr) -> bool
    ensures { result ≡ shows_value instr }
{
    matches!(
        instr,
        Instr::Screen(ScreenInstr::Say(_)) | Instr::Screen(ScreenInstr::SayOn(_))
    )
}

/// Whether the instruction at a place shows a value at a place of the screen.
fn shows_at(code: &[Instr], place: usize) -> bool
    ensures { result ≡ spec.shows_at code.now place }
{
    match code.get(place) {
        Some(instr) => shows(*instr),
        None => false,
    }
}

/// Whether two instructions put the value of one variable on the stack.
fn is_same_variable(one: ValueInstr, other: ValueInstr) -> bool
    ensures { result ≡ true → one ≡ other }
{
    same_kinds_are_equal();
    match (one, other) {
        (ValueInstr::Load(kind, slot), ValueInstr::Load(of, at)) => kind.is(of) && slot == at,
        _ => false,
    }
}

/// Whether two instructions put the value of one field on the stack.
fn is_same_field(one: RecordInstr, other: RecordInstr) -> bool
    ensures { result ≡ true → one ≡ other }
{
    match (one, other) {
        (
            RecordInstr::Field { area, field },
            RecordInstr::Field {
                area: of,
                field: at,
            },
        ) => area == of && field == at,
        _ => false,
    }
}

/// Whether two instructions put the value of one variable or of one field on the stack.
fn is_same_source(one: Instr, other: Instr) -> bool
    ensures { result ≡ true → one ≡ other }
{
    match (one, other) {
        (Instr::Values(one), Instr::Values(other)) => is_same_variable(one, other),
        (Instr::Records(one), Instr::Records(other)) => is_same_field(one, other),
        _ => false,
    }
}

/// Whether the values before two places are those of one variable or of one field.
fn are_same(code: &[Instr], one: usize, other: usize) -> bool
    ensures { result ≡ true → spec.before code.now one ≡ spec.before code.now other }
{
    match (before(code, one), before(code, other)) {
        (Some(one), Some(other)) => is_same_source(one, other),
        _ => false,
    }
}

/// Whether a READ asks for the value that is shown at a place.
fn is_asked(code: &[Instr], takes: &[usize], place: usize) -> bool {
    takes.iter().any(|take| are_same(code, place, *take))
}

/// Where the straight code before a place begins.
fn straight_from(code: &[Instr], place: usize) -> usize {
    let mut first = place;
    for number in 0..place {
        let before = place - 1 - number;
        match code.get(before) {
            Some(instr) if !ends_straight(*instr) => first = before,
            _ => return first,
        }
    }
    first
}

/// The places of the instructions before a READ that show values it asks for.
fn shown_before(
    alloc: Global,
    code: &[Instr],
    takes: &[usize],
    first: usize,
) -> Result<Vec<usize>, AllocError>
    ensures { IfOk result (λ shows. All (λ place. spec.shows_at code.now place ≡ true) shows.items) }
{
    let mut shows = Vec::new(alloc);
    for place in straight_from(code, first)..first {
        if shows_at(code, place) && is_asked(code, takes, place) {
            shows.push(place)?;
        }
    }
    Ok(shows)
}

/// Whether each line of a READ has its shown value, in order.
fn are_matched(code: &[Instr], takes: &[usize], shows: &[usize]) -> bool
    ensures { result ≡ true → AreMatched code.now takes.now shows.now }
{
    if takes.len() != shows.len() {
        return false;
    }
    for number in 0..takes.len() {
        if !are_same(code, shows[number], takes[number]) {
            return false;
        }
    }
    true
}

/// The READ whose first line is taken at a place.
fn read_at(alloc: Global, code: &[Instr], place: usize) -> Result<Read, AllocError>
    ensures read { IfOk result (IsReadOfCode code.now) }
    ensures first { IfOk result (λ read. spec.takes_at code.now place ≡ true → Contains read.takes.items place) }
{
    let takes = takes_from(alloc, code, place)?;
    let shows = shown_before(alloc, code, takes.as_slice(), place.saturating_sub(1))?;
    if are_matched(code, takes.as_slice(), shows.as_slice()) {
        return Ok(Read { takes, shows });
    }
    Ok(Read {
        takes,
        shows: Vec::new(alloc),
    })
}

/// The READs of a code, by rising place: each line that is taken for a variable or a field is one of a READ's. Those
/// whose fields can't be told apart have no shows.
pub fn reads_of(alloc: Global, code: &Code) -> Result<Vec<Read>, AllocError>
    ensures reads { IfOk result (λ reads. All (IsReadOfCode code.now.instructions) reads.items) }
    ensures all { IfOk result (λ reads. (place : ℕ) → spec.takes_at code.now.instructions place ≡ true
        → IsTaken reads.items place) }
{
    let instrs = code.instructions.as_slice();
    let mut reads = Vec::new(alloc);
    for place in 0..instrs.len() {
        if !begins_at(instrs, place) {
            continue;
        }
        let read = read_at(alloc, instrs, place)?;
        reads.push(read)?;
    }
    Ok(reads)
}
