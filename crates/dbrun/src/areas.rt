//! The work areas of a refused command, named to a person at a terminal.

use compile_commands::{CompileFilesRefusal, CompileWords, SourceFault, areas_where_refused};
use file_access::Files;
use hints::of_areas;
use std::alloc::Global;
use std::io::Eprint;

/// Tells what to do about a refused line with its work areas named, and whether that was told.
pub fn tell_areas<F: Files>(
    rt: &impl Eprint,
    alloc: Global,
    files: &mut F,
    refusal: &CompileFilesRefusal,
    words: CompileWords<'_>,
    line: &[u8],
) -> bool {
    let CompileFilesRefusal::Source {
        fault: SourceFault::Compile { kind, .. },
        ..
    } = refusal
    else {
        return false;
    };
    if words.names.is_empty() {
        return false;
    }
    let Some(met) = areas_where_refused(alloc, files, words.decl, words.names) else {
        return false;
    };
    match of_areas(alloc, *kind, line, &met) {
        Some(hint) => eprintln!(rt; "  {hint}.").is_ok(),
        None => false,
    }
}
