//! Writing a code file.

ghost use Rattle.std.specs.Prelude.{◌≡◌, ◌++◌, IfOk, OnOk};
ghost use Rattle.std.specs.List.{flat_map};
ghost use Rattle.code_parts.specs.Texts.{two};
ghost use Rattle.xcode.specs.CodeFile.{version_number, counts_text, header_text, header_of as header_of_code};
ghost use Rattle.xcode.specs.CodeFile.{declared_text, body_text, code_text};
ghost use Rattle.xcode.specs.Writing.{Writable};

use crate::header::{Counts, Header};
use crate::{put_all, put_two};
use code_items::{Code, Version};
use legal_code::LegalCode;
use std::alloc::{AllocError, Global};

fn number_of_version(version: Version) -> u16
    ensures { result ≡ version_number version }
{
    match version {
        Version::One => 1,
        Version::Two => 2,
    }
}

fn put_numbers(out: &mut Vec<u8>, numbers: &[u16]) -> Result<(), AllocError>
    ensures { OnOk result (out.new.items ≡ out.old.items ++ flat_map two numbers.now) }
{
    for number in numbers {
        put_two(out, *number)?;
    }
    Ok(())
}

fn put_counts(out: &mut Vec<u8>, c: Counts) -> Result<(), AllocError>
    ensures { OnOk result (out.new.items ≡ out.old.items ++ counts_text c) }
{
    let numbers = [
        c.stack_bound,
        c.slots,
        c.tables,
        c.indexes,
        c.lists,
        c.constants,
        c.filters,
        c.procedures,
        c.maps,
        c.instructions,
    ];
    put_numbers(out, &numbers)
}

fn put_header(out: &mut Vec<u8>, header: Header) -> Result<(), AllocError>
    ensures { OnOk result (out.new.items ≡ out.old.items ++ header_text header) }
{
    out.extend_from_slice(b"XBCF")?;
    put_two(out, number_of_version(header.version))?;
    put_counts(out, header.counts)
}

/// The header of a code.
fn header_for(code: &Code) -> Header
    requires { Writable code.now }
    ensures { result ≡ header_of_code code.now }
{
    let declared = &code.declared;
    Header {
        version: declared.version,
        counts: Counts {
            stack_bound: declared.stack_bound,
            slots: declared.slots,
            tables: declared.shape.tables.len() as u16,
            indexes: declared.shape.indexes.len() as u16,
            lists: declared.lists.len() as u16,
            constants: declared.constants.len() as u16,
            filters: declared.filters.len() as u16,
            procedures: code.procedures.len() as u16,
            maps: code.maps.len() as u16,
            instructions: code.instructions.len() as u16,
        },
    }
}

fn put_declared(out: &mut Vec<u8>, code: &Code) -> Result<(), AllocError>
    requires { Writable code.now }
    ensures { OnOk result (out.new.items ≡ out.old.items ++ declared_text code.now.declared) }
{
    put_all(out, code.declared.shape.tables.as_slice())?;
    put_all(out, code.declared.shape.indexes.as_slice())?;
    put_all(out, code.declared.lists.as_slice())?;
    put_all(out, code.declared.constants.as_slice())?;
    put_all(out, code.declared.filters.as_slice())
}

fn put_body(out: &mut Vec<u8>, code: &Code) -> Result<(), AllocError>
    requires { Writable code.now }
    ensures { OnOk result (out.new.items ≡ out.old.items ++ body_text code.now) }
{
    put_all(out, code.procedures.as_slice())?;
    put_all(out, code.maps.as_slice())?;
    put_all(out, code.instructions.as_slice())
}

/// The bytes of the file of a code whose numbers and counts fit their bytes. The only error is that memory was refused.
#[tactic(auto, unfolding(crate::specs::CodeFile::code_text))]
pub(crate) fn encode_fitting(alloc: Global, code: &Code) -> Result<Vec<u8>, AllocError>
    requires { Writable code.now }
    ensures { IfOk result (λ bytes. bytes.items ≡ code_text code.now) }
{
    let mut out = Vec::new(alloc);
    put_header(&mut out, header_for(code))?;
    put_declared(&mut out, code)?;
    put_body(&mut out, code)?;
    Ok(out)
}

/// The bytes of the code's file. The only error is that memory was refused.
pub fn encode(alloc: Global, code: &LegalCode) -> Result<Vec<u8>, AllocError>
    ensures { IfOk result (λ bytes. bytes.items ≡ code_text code.now) }
{
    encode_fitting(alloc, code.code())
}
