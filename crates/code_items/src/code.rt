//! Codes, and which of them have a file.

ghost use Rattle.std.specs.Prelude.{◌≡◌, ◌≤◌, length, map};
ghost use Rattle.std.specs.List.{list_all};
ghost use Rattle.code_items.specs.Instrs.{is_instr};
ghost use Rattle.code_items.specs.Legal.{is_procedure, begins_blank, is_map, places_of, blocks_of};
ghost use Rattle.code_items.specs.Legal.{blocks_fill};
ghost use Rattle.code_items.specs.Legal.{maps_rise, left_behind, procedures_are_legal, maps_are_legal};
ghost use Rattle.code_items.specs.Legal.{instructions_are_legal, is_code};

use crate::declared::{Declared, Filter, Version};
use crate::instr::Instr;
use crate::state::State;
use shape::Items;

/// A procedure: how many instructions its block has, its level of calls (at most 20), and what is known where it is
/// entered and where it returns.
#[derive(Drop)]
pub struct Proc {
    pub length: u16,
    pub level: u8,
    pub entry: State,
    pub exit: State,
}

/// What is known before the instruction at a place, counted from 0.
#[derive(Drop)]
pub struct Map {
    pub place: u16,
    pub state: State,
}

/// A code: what a code file says. Which codes have a file is `is_code` of `specs/Legal.antt`.
#[derive(Drop)]
pub struct Code {
    pub declared: Declared,
    /// The main procedure first. Their blocks follow one another from place 0, and those of the filters follow them.
    pub procedures: Items<Proc>,
    /// By rising place.
    pub maps: Items<Map>,
    pub instructions: Items<Instr>,
}

impl Proc {
    /// Whether a code that declares this can have the procedure: a level of at most 20, and states that its file can
    /// hold, with empty stacks.
    #[tactic(auto, unfolding(crate::specs::Legal::is_procedure))]
    pub fn is_procedure(&self, declared: &Declared) -> bool
        ensures { result ≡ is_procedure declared.now self.now }
    {
        self.level <= 20
            && declared.is_state(&self.entry)
            && declared.is_state(&self.exit)
            && self.entry.stack.len() == 0
            && self.exit.stack.len() == 0
    }
}

fn are_procedures(declared: &Declared, procedures: &[Proc]) -> bool
    ensures { result ≡ list_all (is_procedure declared.now) procedures.now }
{
    procedures
        .iter()
        .all(|procedure| procedure.is_procedure(declared))
}

fn begin_blank(procedures: &[Proc]) -> bool
    ensures { result ≡ begins_blank procedures.now }
{
    match procedures {
        [main, ..] => main.entry.is_blank(),
        [] => false,
    }
}

fn are_maps(declared: &Declared, maps: &[Map]) -> bool
    ensures { result ≡ list_all (is_map declared.now) maps.now }
{
    maps.iter().all(|map| declared.is_state(&map.state))
}

fn are_instrs(version: Version, instrs: &[Instr]) -> bool
    ensures { result ≡ list_all (is_instr version) instrs.now }
{
    instrs.iter().all(|instr| instr.is_legal(version))
}

/// How many places the procedures' blocks have.
pub fn places_of_blocks(procedures: &[Proc]) -> usize
    requires { length procedures.now ≤ 256 }
    ensures value { result ≡ places_of procedures.now }
    ensures few { result ≤ 16777216 }
{
    let mut places = 0;
    let mut rest = procedures;
    while let Some((procedure, others)) = rest.split_first() {
        places += usize::from(procedure.length);
        rest = others;
    }
    places
}

/// Whether the maps' places rise, from 0 on, and stand before the end.
pub fn do_maps_rise(places: usize, maps: &[Map]) -> bool
    ensures { result ≡ maps_rise 0 places maps.now }
{
    let mut least = 0;
    let mut rest = maps;
    while let Some((map, others)) = rest.split_first() {
        let place = usize::from(map.place);
        if place < least || places <= place {
            return false;
        }
        least = place + 1;
        rest = others;
    }
    true
}

/// What is left of so many places behind the procedures' blocks; none where a block is empty or they have more.
fn behind_procedures(places: usize, procedures: &[Proc]) -> Option<usize>
    ensures { result ≡ left_behind places (map (λ p. p.length) procedures.now) }
{
    let mut left = places;
    let mut rest = procedures;
    while let Some((procedure, others)) = rest.split_first() {
        let length = usize::from(procedure.length);
        if length < 1 || left < length {
            return None;
        }
        left -= length;
        rest = others;
    }
    Some(left)
}

fn behind_filters(places: usize, filters: &[Filter]) -> Option<usize>
    ensures { result ≡ left_behind places (map (λ f. f.length) filters.now) }
{
    let mut left = places;
    let mut rest = filters;
    while let Some((filter, others)) = rest.split_first() {
        let length = usize::from(filter.length);
        if length < 1 || left < length {
            return None;
        }
        left -= length;
        rest = others;
    }
    Some(left)
}

#[tactic(auto, using(crate::proofs::Blocks::filled_by))]
fn do_filters_fill(places: usize, filters: &[Filter]) -> bool
    ensures { result ≡ blocks_fill places (map (λ f. f.length) filters.now) }
{
    match behind_filters(places, filters) {
        Some(left) => left == 0,
        None => false,
    }
}

/// Whether the blocks have an instruction at least, and together so many.
#[tactic(auto, using(crate::proofs::Blocks::filled))]
pub fn do_blocks_fill(places: usize, procedures: &[Proc], filters: &[Filter]) -> bool
    ensures { result ≡ blocks_fill places (blocks_of procedures.now filters.now) }
{
    match behind_procedures(places, procedures) {
        Some(left) => do_filters_fill(left, filters),
        None => false,
    }
}

impl Code {
    fn has_procedures(&self) -> bool
        ensures { result ≡ procedures_are_legal self.now }
    {
        self.procedures.len() <= 256
            && are_procedures(&self.declared, self.procedures.as_slice())
            && begin_blank(self.procedures.as_slice())
    }

    fn has_maps(&self) -> bool
        requires { length self.now.procedures ≤ 256 }
        ensures { result ≡ maps_are_legal self.now }
    {
        self.maps.len() <= 4096
            && are_maps(&self.declared, self.maps.as_slice())
            && do_maps_rise(
                places_of_blocks(self.procedures.as_slice()),
                self.maps.as_slice(),
            )
    }

    fn has_instructions(&self) -> bool
        ensures { result ≡ instructions_are_legal self.now }
    {
        let instrs = self.instructions.as_slice();
        1 <= instrs.len()
            && instrs.len() <= 65535
            && are_instrs(self.declared.version, instrs)
            && do_blocks_fill(
                instrs.len(),
                self.procedures.as_slice(),
                self.declared.filters.as_slice(),
            )
    }

    /// Whether the code has a code file: all that it declares may be declared, its procedures, maps and instructions
    /// are such as a file can hold, its blocks fill it, and its maps rise and stand in procedures' blocks.
    #[tactic(auto, unfolding(crate::specs::Legal::is_code))]
    pub fn is_legal(&self) -> bool
        ensures { result ≡ is_code self.now }
    {
        self.declared.is_legal()
            && self.has_procedures()
            && self.has_maps()
            && self.has_instructions()
    }
}
