// All faults of files: `file line kind`, the files counted from 0, one behind the other.

use crate::shown::{programs_of, shape};
use prg_compile::find_faults;
use std::alloc::{AllocError, Global};

/// The faults of a row, or the fault of its lines.
pub(crate) fn listed(alloc: Global, row: &str) -> Result<String, AllocError> {
    let programs = match programs_of(alloc, row)? {
        Ok(programs) => programs,
        Err(fault) => return Ok(fault),
    };
    if programs.is_empty() {
        return String::from_str(alloc, "no program");
    }
    let mut text = String::new(alloc);
    for fault in &find_faults(alloc, &programs, &shape(alloc)?)? {
        let file = fault.file;
        let line = fault.line;
        let kind = fault.kind;
        text.push_str(format!(in alloc; "{file} {line} {kind:?}; ")?.as_str())?;
    }
    Ok(text)
}

/// Faults behind faults: in conditions, loops, procedures and further files, and where a READ is awaited.
pub(crate) const ALL_FAULTS: &str = "\
     CLEAR|\n\
     ? X^? Y|0 1 Name; 0 2 Name; \n\
     ? X^X = 1^? X + 'A'|0 1 Name; 0 3 Kind; \n\
     IF X^? Y^ENDIF|0 1 Name; 0 2 Name; \n\
     DO CASE^CASE X^? Y^CASE 1^ENDCASE|0 2 Name; 0 3 Name; 0 4 Kind; \n\
     DO P^? X^PROCEDURE P^? Y^DO Q^PROCEDURE Q^? -'A'|0 4 Name; 0 7 Kind; 0 2 Name; \n\
     DO P^DO P^PROCEDURE P^? Y|0 4 Name; \n\
     DO WHILE .T.^? Y^SELECT 2^ENDDO|0 2 Name; 0 4 Merge; \n\
     X = 1^@ 1,1 GET X^CLEAR^READ^? Y|0 3 Get; 0 5 Name; \n\
     DO NONE^DO OTHER{OTHER}? Z|0 1 Name; 1 1 Name; \n\
    ";
