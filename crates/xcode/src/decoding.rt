//! Reading a code file.

ghost use Rattle.std.specs.Prelude.{◌≡◌, ◌≤◌, ◌++◌, ℕ, List, length, Ok, Err, IfOk};
ghost use Rattle.code_items.specs.declared.code.Code.{Code as AnyCode};
ghost use Rattle.code_parts.specs.Laws.{AreBytes};
ghost use Rattle.xcode.specs.declared.fault.CodeFault.TheVariants.{Extra};
ghost use Rattle.xcode.specs.declared.fault.CodeFault.{CodeFault as AnyFault};
ghost use Rattle.xcode.specs.CodeFile.{CodeText};
ghost use Rattle.xcode.specs.Laws.{Lasts};
ghost use Rattle.xcode.specs.Decoding.{FileGives, declared_at, body_at, is_laid as is_laid_code, whole_at, code_at};

use crate::fault::CodeFault;
use crate::header::{Counts, Header, header_of};
use crate::judges::{Anything, Declaring, LegalFilters, LegalLists, NextIndexes, NextTables};
use crate::sections::items_of;
use code_items::code::{do_blocks_fill, do_maps_rise, places_of_blocks};
use code_items::{Code, Declared, Items, Shape};
use code_parts::laws::{
    constants_and_filters_are_spelled, declarations_are_spelled, instructions_are_spelled,
    numbers_are_spelled, procedures_and_maps_are_spelled,
};
use code_parts::{
    Constants, FilterItems, Indexes, Instrs, ListItems, Maps, Procedures, States, Tables,
};
use legal_code::LegalCode;
use std::alloc::Global;

/// What is declared, and the bytes behind it.
#[tactic(auto, unfolding(crate::specs::Decoding::declared_at))]
fn declared_of<'a>(
    alloc: Global,
    header: &Header,
    bytes: &'a [u8],
) -> Result<(Declared, &'a [u8]), CodeFault>
    ensures { FileGives (λ x. (x.0, x.1.now)) result (declared_at header.now bytes.now) }
{
    let counts = header.counts;
    let (tables, rest) = items_of(alloc, &Tables, &NextTables, counts.tables, bytes)?;
    let next = NextIndexes { tables: &tables };
    let (indexes, rest) = items_of(alloc, &Indexes, &next, counts.indexes, rest)?;
    let legal = LegalLists { indexes: &indexes };
    let (lists, rest) = items_of(alloc, &ListItems, &legal, counts.lists, rest)?;
    let (constants, rest) = items_of(alloc, &Constants, &Anything, counts.constants, rest)?;
    let legal = LegalFilters {
        tables: tables.len(),
        slots: counts.slots,
    };
    let (filters, rest) = items_of(alloc, &FilterItems, &legal, counts.filters, rest)?;
    let declared = Declared {
        version: header.version,
        stack_bound: counts.stack_bound,
        slots: counts.slots,
        shape: Shape {
            tables: Items::of(tables),
            indexes: Items::of(indexes),
        },
        lists: Items::of(lists),
        constants: Items::of(constants),
        filters: Items::of(filters),
    };
    Ok((declared, rest))
}

/// The code that declares this, and the bytes behind it.
#[tactic(auto, unfolding(crate::specs::Decoding::body_at))]
fn body_of<'a>(
    alloc: Global,
    counts: &Counts,
    declared: Declared,
    bytes: &'a [u8],
) -> Result<(Code, &'a [u8]), CodeFault>
    ensures { FileGives (λ x. (x.0, x.1.now)) result (body_at counts.now declared bytes.now) }
{
    let states = States {
        version: declared.version,
        slots: declared.slots,
    };
    let legal = Declaring {
        declared: &declared,
    };
    let procedures = Procedures { states };
    let (procedures, rest) = items_of(alloc, &procedures, &legal, counts.procedures, bytes)?;
    let (maps, rest) = items_of(alloc, &Maps { states }, &legal, counts.maps, rest)?;
    let instrs = Instrs {
        version: declared.version,
    };
    let (instructions, rest) = items_of(alloc, &instrs, &Anything, counts.instructions, rest)?;
    let code = Code {
        declared,
        procedures: Items::of(procedures),
        maps: Items::of(maps),
        instructions: Items::of(instructions),
    };
    Ok((code, rest))
}

#[tactic(auto, unfolding(crate::specs::Decoding::whole_at))]
fn whole_of(alloc: Global, bytes: &[u8]) -> Result<(Code, &[u8]), CodeFault>
    ensures { FileGives (λ x. (x.0, x.1.now)) result (whole_at bytes.now) }
{
    let (header, rest) = header_of(bytes)?;
    let (declared, rest) = declared_of(alloc, &header, rest)?;
    let (code, rest) = body_of(alloc, &header.counts, declared, rest)?;
    Ok((code, rest))
}

fn is_laid(code: &Code) -> bool
    ensures { result ≡ is_laid_code code.now }
{
    let procedures = code.procedures.as_slice();
    procedures.len() <= 256
        && do_blocks_fill(
            code.instructions.len(),
            procedures,
            code.declared.filters.as_slice(),
        )
        && do_maps_rise(places_of_blocks(procedures), code.maps.as_slice())
}

#[tactic(auto, unfolding(crate::specs::Decoding::code_at))]
fn code_of(alloc: Global, bytes: &[u8]) -> Result<Code, CodeFault>
    ensures { FileGives (λ x. x) result (code_at bytes.now) }
{
    let (code, rest) = whole_of(alloc, bytes)?;
    if !is_laid(&code) {
        return Err(CodeFault::Shape);
    }
    if !rest.is_empty() {
        return Err(CodeFault::Extra);
    }
    Ok(code)
}

/// The bytes from which a code is read are its file, and a code's file is read as that code.
fn files_are_of_their_codes()
    ensures found { (bytes : List ℕ) (code : AnyCode) → AreBytes bytes → code_at bytes ≡ Ok code → CodeText bytes code }
    ensures only { (bytes : List ℕ) (code : AnyCode) → CodeText bytes code → code_at bytes ≡ Ok code }
{
    numbers_are_spelled();
    declarations_are_spelled();
    constants_and_filters_are_spelled();
    procedures_and_maps_are_spelled();
    instructions_are_spelled();
}

/// The code whose file the bytes are. An error is the first fault from the front, and within one item the least; where
/// memory is refused before that is found, it is `Memory`. Numbers that instructions name aren't judged.
pub fn decode(alloc: Global, bytes: &[u8]) -> Result<LegalCode, CodeFault>
    // The bytes are the file of the code that is read.
    ensures found { IfOk result (λ code. CodeText bytes.now code) }
    // A code's file is read as that code, unless memory runs out.
    ensures only { (code : AnyCode) → CodeText bytes.now code → FileGives (λ x. x) result (Ok code) }
    // Which fault it is.
    ensures exact { FileGives (λ x. x) result (code_at bytes.now) }
{
    files_are_of_their_codes();
    match code_of(alloc, bytes) {
        Ok(code) => Ok(LegalCode::of(code)),
        Err(fault) => Err(fault),
    }
}

/// A fault that is told of bytes that are there stays where bytes are appended: all but `Magic`, `Version`, `Short` and
/// `Memory`.
pub fn faults_stay()
    ensures { (bytes more : List ℕ) (f : AnyFault) → Lasts f → code_at bytes ≡ Err f → code_at (bytes ++ more) ≡ Err f }
{
    numbers_are_spelled();
    declarations_are_spelled();
    constants_and_filters_are_spelled();
    procedures_and_maps_are_spelled();
    instructions_are_spelled();
}

/// Each code has one file, and each file is that of one code.
pub fn one_file_each()
    ensures text { (a b : List ℕ) (code : AnyCode) → CodeText a code → CodeText b code → a ≡ b }
    ensures code { (bytes : List ℕ) (a b : AnyCode) → CodeText bytes a → CodeText bytes b → a ≡ b }
{
    files_are_of_their_codes();
}

/// Bytes behind a code's file are `Extra`, and a file that is cut has a fault of missing bytes: `Magic`, `Version` or
/// `Short`.
pub fn files_end_where_they_end()
    ensures behind { (bytes more : List ℕ) (code : AnyCode) → CodeText bytes code → 1 ≤ length more
        → code_at (bytes ++ more) ≡ Err Extra }
    ensures cut { (front more : List ℕ) (code : AnyCode) → CodeText (front ++ more) code → 1 ≤ length more
        → (f : AnyFault) × (code_at front ≡ Err f) × (Lasts f → ⊥) }
{
    numbers_are_spelled();
    declarations_are_spelled();
    constants_and_filters_are_spelled();
    procedures_and_maps_are_spelled();
    instructions_are_spelled();
}
