//! Tablereef embedded: a command file that stands in memory is compiled, verified and run, and its rows are printed.
#![tactic(auto)]

ghost use Rattle.std.specs.Prelude.{OnOk, ◌∷◌, []};
ghost use Rattle.tablereef.specs.CompileCommands.Compiling.{IsCompiled};

use std::alloc::Global;
use std::io;
use std::rt::Runtime;
use tablereef::compile_commands::{CompileFilesRefusal, compile_files};
use tablereef::file_access::{Files, MemoryEntry, MemoryFiles, WORKS_FOR_EVER};
use tablereef::file_commands::verify_file;
use tablereef::run_commands::{Job, RecordLimit, RunDay, run_files};

/// The declaration file, the command file, and the code file that is made of them.
const DECLARATIONS: &str = "DAY.DCL";

const SOURCE: &str = "DAY.PRG";

const CODE: &str = "DAY.XBC";

/// What the operator types.
const TYPED: &[u8] = b"Ann\n";

/// Asks for a name, and says when the bill of a leap day falls due.
const COMMANDS: &str = "ACCEPT \"Customer? \" TO WHO\n? WHO, DTOC(CTOD(\"02/29/88\") + 366)\n";

/// Compiles a command file to a code file, which then holds an accepted code of the declared shape.
fn compile<F: Files>(
    alloc: Global,
    files: &mut F,
    decl: &str,
    out: &str,
    source: &str,
) -> Result<(), CompileFilesRefusal>
    ensures { OnOk result (IsCompiled (F.holds files.old) decl.now out.now (source.now ∷ []) (F.holds files.new)) }
{
    compile_files(alloc, files, decl, out, &[source])
}

/// Compiles the command file to the code file, and tells whether that was done and the code is accepted.
fn is_compiled(alloc: Global, files: &mut MemoryFiles<'_>) -> bool {
    compile(alloc, files, DECLARATIONS, CODE, SOURCE).is_ok()
        && matches!(verify_file(alloc, files, CODE), Ok(None))
}

/// Runs the code file, and prints its rows and how it ended.
fn run<R: Runtime<A = Global>>(rt: &R, files: &mut MemoryFiles<'_>, day: RunDay) -> io::Result<()> {
    let job = Job {
        name: CODE,
        checked: false,
        budget: 1_000,
        limit: RecordLimit::most(),
        day,
        input: TYPED,
    };
    let done = run_files(rt.alloc(), files, &job);
    rt.write_all(done.rows.as_slice())?;
    match &done.result {
        Ok(ended) => println!(rt; "{ended}"),
        Err(refusal) => {
            let told = refusal.told(CODE);
            println!(rt; "{told}")
        }
    }
}

fn main(rt: HostRuntime) -> io::Result<()> {
    let entries = [
        MemoryEntry {
            name: DECLARATIONS,
            bytes: b"",
        },
        MemoryEntry {
            name: SOURCE,
            bytes: COMMANDS.as_bytes(),
        },
    ];
    let mut files = MemoryFiles::new(rt.alloc(), &entries, WORKS_FOR_EVER);
    if !is_compiled(rt.alloc(), &mut files) {
        return println!(rt; "not compiled");
    }
    match RunDay::named("1988-03-01") {
        Some(day) => run(&rt, &mut files, day),
        None => println!(rt; "no day"),
    }
}
