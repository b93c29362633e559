// Tables and indexes listed.
#![tactic(auto)]

use super::cases::{are_lists, has_length};
use super::parts::RunCase;
use super::tables::lay;
use file_access::{MemoryFiles, WORKS_FOR_EVER};
use std::alloc::Global;

/// Files, and their lists or why there are none. A byte too many in the second record leaves the third without a mark.
pub const LISTS: &str = "
#a table
%table KI.NDX NAME C 10 0
 Ann       |
%length 77
%list KI.NDX
NAME C 10 0
records 1
      1   Ann       
#a wrong mark
%table KI.NDX T C 3 9,N N 5 2,D D 8 0,L L 1 0
*A\x07\x7f12.3519880229y|     *****19890229N|                  |
%list KI.NDX
refused KI.NDX RecordMark
#each kind
%table KI.NDX T C 3 9,N N 5 2,D D 8 0,L L 1 0
*A\x07\x7f12.3519880229y|    *****19890229N|                  |
%list KI.NDX
T C 3 0
N N 5 2
D D 8 0
L L 1 0
records 3
      1 * A        12.35 02/29/88 .T.
      2       **********   /  /   .F.
      3             0.00   /  /   .F.
#a letter of no kind
%table KI.NDX K X 1 0
%list KI.NDX
refused KI.NDX FieldShape
#an index of three entries
%index KI.NDX
03 00 00 00 00 00 00 00 02 00 00 00 42 00 00 00 00 00 00 00 03 00 00 00 43 00 00 00 00 00 00 00 01 00 00 00 5a 00 00 00
%length 1024
%keys KI.NDX
K 1
      2 B
      3 C
      1 Z
#a page that is its own child
%index KI.NDX
01 00 00 00 01 00 00 00 00 00 00 00 4d 00 00 00 01 00 00 00
%keys KI.NDX
refused KI.NDX Reach
#a file without a page 0
%bytes KI.NDX
01 02 03
%keys KI.NDX
refused KI.NDX Head
#no file
%keys KI.NDX
refused KI.NDX Absent
";

/// Whether the file of a case is listed as it says.
pub fn lists_well(alloc: Global, case: RunCase<'_>) -> bool {
    let mut files = MemoryFiles::new(alloc, &[], WORKS_FOR_EVER);
    if !lay(alloc, &mut files, case) {
        return false;
    }
    has_length(files.bytes_of("KI.NDX").unwrap_or(b""), case) && are_lists(alloc, &mut files, case)
}
