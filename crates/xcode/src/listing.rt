//! The listing of a code.

ghost use Rattle.std.specs.Prelude.{◌≡◌, ◌++◌, ◌∷◌, IfOk, OnOk};
ghost use Rattle.std.specs.Fmt.{decimal};
ghost use Rattle.xcode.specs.Listing.{place_text, operands_text, listing_line, lines_from};

use crate::operation_name;
use code_items::{Code, Instr};
use code_parts::{InstrParts, parts_of_instr};
use std::alloc::{AllocError, Global};
/// Five places wide, with blanks in front.
fn put_place(alloc: Global, out: &mut Vec<u8>, place: usize) -> Result<(), AllocError>
    ensures { OnOk result (out.new.items ≡ out.old.items ++ place_text place) }
{
    let digits = place.to_string(alloc)?;
    let missing = 5usize.saturating_sub(digits.len());
    out.extend_from_slice(&[b' '; 5][..missing])?;
    out.extend_from_slice(digits.as_bytes())?;
    Ok(())
}

fn put_operand(alloc: Global, out: &mut Vec<u8>, operand: u32) -> Result<(), AllocError>
    ensures { OnOk result (out.new.items ≡ out.old.items ++ 32 ∷ decimal operand) }
{
    let digits = operand.to_string(alloc)?;
    out.push(b' ')?;
    out.extend_from_slice(digits.as_bytes())
}

fn put_operands(alloc: Global, out: &mut Vec<u8>, parts: InstrParts) -> Result<(), AllocError>
    ensures { OnOk result (out.new.items ≡ out.old.items ++ operands_text parts) }
{
    put_operand(alloc, out, u32::from(parts.a))?;
    put_operand(alloc, out, u32::from(parts.b))?;
    put_operand(alloc, out, parts.c)?;
    Ok(())
}

#[tactic(auto, unfolding(crate::specs::Listing::listing_line))]
fn put_line(alloc: Global, out: &mut Vec<u8>, place: usize, instr: &Instr) -> Result<(), AllocError>
    ensures { OnOk result (out.new.items ≡ out.old.items ++ listing_line place instr.now) }
{
    put_place(alloc, out, place)?;
    out.push(b' ')?;
    out.extend_from_slice(operation_name(*instr))?;
    put_operands(alloc, out, parts_of_instr(*instr))?;
    out.push(b'\n')?;
    Ok(())
}

/// A line for each instruction: its place, right in five places, its name and its operands in decimal, joined by one
/// blank. The only error is that memory was refused.
pub fn list(alloc: Global, code: &Code) -> Result<Vec<u8>, AllocError>
    ensures { IfOk result (λ lines. lines.items ≡ lines_from 0 code.now.instructions) }
{
    let mut out = Vec::new(alloc);
    for (place, instr) in code.instructions.as_slice().iter().enumerate() {
        put_line(alloc, &mut out, place, instr)?;
    }
    Ok(out)
}
