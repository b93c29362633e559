//! What is told of code files without running them.

ghost use Rattle.std.specs.Prelude.{IfOk, IfErr};
ghost use Rattle.file_access.specs.Holding.{SameFiles};
ghost use Rattle.file_commands.specs.Refusals.{RefusalIs, CodeFileFault};
ghost use Rattle.file_commands.specs.Reports.{ListedCode, JudgedFile};

use crate::reading::read_code;
use crate::refusal::Refusal;
use file_access::Files;
use std::alloc::Global;
use xcode::list;
use xverify::{FailedRule, VerifyError, verify};

/// Whether the code in a file is accepted: none, or the least rule that fails at the least place where one does.
pub fn verify_file<'a, F: Files>(
    alloc: Global,
    files: &mut F,
    name: &'a str,
) -> Result<Option<FailedRule>, Refusal<'a>>
    ensures judged { IfOk result (JudgedFile (F.holds files.old name.now)) }
    ensures refused { IfErr result (RefusalIs (CodeFileFault (F.holds files.old name.now)) (F.failed files.old)
        (F.failed files.new) name.now) }
    ensures kept { SameFiles (F.holds files.old) (F.holds files.new) }
{
    let code = read_code(alloc, files, name)?;
    match verify(alloc, code) {
        Ok(_) => Ok(None),
        Err(VerifyError::Refused(refused)) => Ok(Some(refused)),
        Err(VerifyError::NoMemory) => Err(Refusal::Memory),
    }
}

/// The listing of the code in a file, a line for each instruction.
pub fn list_code<'a, F: Files>(
    alloc: Global,
    files: &mut F,
    name: &'a str,
) -> Result<Vec<u8>, Refusal<'a>>
    ensures listed { IfOk result (λ lines. ListedCode (F.holds files.old name.now) lines.items) }
    ensures refused { IfErr result (RefusalIs (CodeFileFault (F.holds files.old name.now)) (F.failed files.old)
        (F.failed files.new) name.now) }
    ensures kept { SameFiles (F.holds files.old) (F.holds files.new) }
{
    let code = read_code(alloc, files, name)?;
    match list(alloc, code.code()) {
        Ok(lines) => Ok(lines),
        Err(_) => Err(Refusal::Memory),
    }
}
