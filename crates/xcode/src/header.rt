//! The header of a code file.

ghost use Rattle.std.specs.Prelude.{◌≡◌};
ghost use Rattle.xcode.specs.Decoding.{FileFinds, within_limits, number_at_front, version_from as version_from_number};
ghost use Rattle.xcode.specs.Decoding.{counts_at, magic_at, version_at, limited_at, header_at};

use crate::fault::CodeFault;
use code_items::Version;
use code_parts::{four_of, two_of};

/// `XBCF`, as a number.
const MAGIC: u32 = 0x4643_4258;

/// How much there is of everything.
#[derive(Clone, Copy, Debug)]
pub struct Counts {
    pub stack_bound: u16,
    pub slots: u16,
    pub tables: u16,
    pub indexes: u16,
    pub lists: u16,
    pub constants: u16,
    pub filters: u16,
    pub procedures: u16,
    pub maps: u16,
    pub instructions: u16,
}

/// The version, and how much there is of everything.
#[derive(Clone, Copy, Debug)]
pub struct Header {
    pub version: Version,
    pub counts: Counts,
}

/// Whether each number is within its limit.
fn is_within_limits(c: &Counts) -> bool
    ensures { result ≡ within_limits c.now }
{
    c.stack_bound <= 64
        && c.slots <= 256
        && c.tables <= 32
        && c.indexes <= 64
        && c.lists <= 64
        && c.constants <= 4096
        && c.filters <= 64
        && 1 <= c.procedures
        && c.procedures <= 256
        && c.maps <= 4096
        && 1 <= c.instructions
}

#[tactic(auto, unfolding(crate::specs::Decoding::number_at_front))]
fn next_number(bytes: &[u8]) -> Result<(u16, &[u8]), CodeFault>
    ensures { FileFinds (λ x. (x.0, x.1.now)) result (number_at_front bytes.now) }
{
    match two_of(bytes) {
        Err(_) => Err(CodeFault::Short),
        Ok((number, rest)) => Ok((number, rest)),
    }
}

#[tactic(auto, unfolding(crate::specs::Decoding::counts_at))]
fn counts_of(bytes: &[u8]) -> Result<(Counts, &[u8]), CodeFault>
    ensures { FileFinds (λ x. (x.0, x.1.now)) result (counts_at bytes.now) }
{
    let (stack_bound, rest) = next_number(bytes)?;
    let (slots, rest) = next_number(rest)?;
    let (tables, rest) = next_number(rest)?;
    let (indexes, rest) = next_number(rest)?;
    let (lists, rest) = next_number(rest)?;
    let (constants, rest) = next_number(rest)?;
    let (filters, rest) = next_number(rest)?;
    let (procedures, rest) = next_number(rest)?;
    let (maps, rest) = next_number(rest)?;
    let (instructions, rest) = next_number(rest)?;
    let counts = Counts {
        stack_bound,
        slots,
        tables,
        indexes,
        lists,
        constants,
        filters,
        procedures,
        maps,
        instructions,
    };
    Ok((counts, rest))
}

fn version_from(number: u16) -> Result<Version, CodeFault>
    ensures { FileFinds (λ x. x) result (version_from_number number) }
{
    match number {
        1 => Ok(Version::One),
        2 => Ok(Version::Two),
        _ => Err(CodeFault::Version),
    }
}

#[tactic(auto, unfolding(crate::specs::Decoding::magic_at))]
fn magic_of(bytes: &[u8]) -> Result<(u32, &[u8]), CodeFault>
    ensures { FileFinds (λ x. (x.0, x.1.now)) result (magic_at bytes.now) }
{
    match four_of(bytes) {
        Err(_) => Err(CodeFault::Magic),
        Ok((magic, rest)) => {
            if magic != MAGIC {
                return Err(CodeFault::Magic);
            }
            Ok((magic, rest))
        }
    }
}

#[tactic(auto, unfolding(crate::specs::Decoding::version_at))]
fn version_of(bytes: &[u8]) -> Result<(Version, &[u8]), CodeFault>
    ensures { FileFinds (λ x. (x.0, x.1.now)) result (version_at bytes.now) }
{
    match two_of(bytes) {
        Err(_) => Err(CodeFault::Version),
        Ok((number, rest)) => {
            let version = version_from(number)?;
            Ok((version, rest))
        }
    }
}

#[tactic(auto, unfolding(crate::specs::Decoding::limited_at))]
fn limited_of(bytes: &[u8]) -> Result<(Counts, &[u8]), CodeFault>
    ensures { FileFinds (λ x. (x.0, x.1.now)) result (limited_at bytes.now) }
{
    let (counts, rest) = counts_of(bytes)?;
    if !is_within_limits(&counts) {
        return Err(CodeFault::Limit);
    }
    Ok((counts, rest))
}

/// The header, and the bytes behind it.
#[tactic(auto, unfolding(crate::specs::Decoding::header_at))]
pub fn header_of(bytes: &[u8]) -> Result<(Header, &[u8]), CodeFault>
    ensures { FileFinds (λ x. (x.0, x.1.now)) result (header_at bytes.now) }
{
    let (_, rest) = magic_of(bytes)?;
    let (version, rest) = version_of(rest)?;
    let (counts, rest) = limited_of(rest)?;
    Ok((Header { version, counts }, rest))
}
