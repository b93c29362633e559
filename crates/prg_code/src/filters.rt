//! Filters by number.

ghost use Rattle.std.specs.Prelude.{◌≡◌};
ghost use Rattle.std.specs.List.{list_any};
ghost use Rattle.prg_code.specs.Parts.{is_unmet as is_unmet_need, has_unmet_needs as has_unmet};

use crate::block::SourceLine;
use crate::numbering::Numbering;
use code_items::{Instr, Need, RecordInstr, ValueInstr};
use std::hash::Hash;
use xvalue::Kind;

/// The most filters that a code may have.
const MOST_FILTERS: u16 = 64;

/// A filter. Two are equal where their tables, their needs and their blocks are.
#[derive(Drop)]
#[derive_where(PartialEq, Eq, Hash)]
pub struct FilterBlock {
    /// Its table, counted from 0.
    pub table: u8,
    /// The slots that its block loads, rising.
    #[derive_where(skip(Hash))]
    pub needs: Vec<Need>,
    #[derive_where(skip(Hash))]
    pub block: Vec<Instr>,
    /// Where it is set first.
    #[derive_where(skip(EqHashOrd))]
    pub at: SourceLine,
    /// What stands for the block in a hash.
    digest: u64,
}

/// Filters, numbered from 0 at their first use. Instructions count them from 1.
pub type Filters = Numbering<FilterBlock, MOST_FILTERS>;

/// The number that a filter's instruction names.
fn named(instr: Instr) -> u64 {
    match instr {
        Instr::Values(ValueInstr::Constant(number)) => u64::from(number),
        Instr::Values(ValueInstr::Load(_, slot)) => u64::from(slot),
        Instr::Records(RecordInstr::RowField(field)) => u64::from(field),
        _ => 0,
    }
}

fn digest_of(block: &[Instr]) -> u64 {
    let mut digest = 0u64;
    for instr in block {
        digest = digest.wrapping_mul(65_599).wrapping_add(named(*instr));
    }
    digest
}

fn is_unmet(kinds: &[Option<Kind>], need: Need) -> bool
    ensures { result ≡ is_unmet_need kinds.now need }
{
    match kinds.get(usize::from(need.slot)) {
        Some(Some(kind)) => !kind.is(need.kind),
        _ => true,
    }
}

fn some_is_unmet(kinds: &[Option<Kind>], needs: &[Need]) -> bool
    ensures { result ≡ list_any (is_unmet_need kinds.now) needs.now }
{
    needs.iter().any(|need| is_unmet(kinds, *need))
}

impl FilterBlock {
    /// A filter of this table with this block, which loads these slots and is first set there.
    pub fn new(table: u8, needs: Vec<Need>, block: Vec<Instr>, at: SourceLine) -> FilterBlock
        ensures table { result.table ≡ table }
        ensures needs { result.needs ≡ needs }
        ensures block { result.block ≡ block }
        ensures place { result.at ≡ at }
    {
        let digest = digest_of(&block);
        FilterBlock {
            table,
            needs,
            block,
            at,
            digest,
        }
    }
}

/// Whether the filter that instructions name by this number needs a value that isn't known to be there. No filter needs
/// anything.
pub fn has_unmet_needs(filters: &Filters, number: u16, kinds: &[Option<Kind>]) -> bool
    ensures { result ≡ has_unmet filters.now number kinds.now }
{
    if number < 1 {
        return false;
    }
    match filters.as_slice().get(usize::from(number) - 1) {
        Some(filter) => some_is_unmet(kinds, &filter.needs),
        None => false,
    }
}
