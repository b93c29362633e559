//! What the screen showed before each line, kept in a file.
#![tactic(auto)]

ghost use Rattle.std.specs.Prelude.{◌≡◌, None, OnErr, OnOk, IsOk, false, true, is_some, option_map, string_bytes};
ghost use Rattle.operator_desk.specs.Asked.{are_kept, screens_file};

use operating::OperatorFailed;
use std::alloc::{AllocError, Global};
use std::fs::{File, OpenOptions};
use std::io::Write;
use std::rt::Files as Disk;

/// The file for screens, where one is wanted.
#[derive(Drop)]
pub struct Screens {
    name: Option<String>,
    file: Option<File>,
}

/// A row without the blanks at its end.
fn put_row(out: &mut Vec<u8>, row: &[u8; 80]) -> Result<(), AllocError> {
    let blanks = row.iter().rev().take_while(|byte| **byte == b' ').count();
    out.extend_from_slice(&row[..80 - blanks.min(80)])?;
    out.push(b'\n')?;
    Ok(())
}

/// The rows of a screen, and the line that was taken behind them.
fn screen_text(
    alloc: Global,
    rows: &[[u8; 80]],
    line: Option<&[u8]>,
) -> Result<Vec<u8>, AllocError> {
    let mut out = Vec::new(alloc);
    for row in rows {
        put_row(&mut out, row)?;
    }
    if let Some(line) = line {
        out.extend_from_slice(b"> ".as_slice())?;
        out.extend_from_slice(line)?;
        out.push(b'\n')?;
    }
    Ok(out)
}

impl Screens {
    /// Those that are written to a file of this name, or to none.
    pub fn to(name: Option<String>) -> Screens
        ensures name { screens_file result ≡ option_map string_bytes name }
        ensures unmade { are_kept result ≡ false }
    {
        Screens { name, file: None }
    }

    /// The name of their file.
    pub fn name(&self) -> Option<&str>
        ensures { option_map (λ name. name.now) result ≡ screens_file self.now }
    {
        match &self.name {
            Some(name) => Some(name.as_str()),
            None => None,
        }
    }

    /// Makes their file, if one is wanted. None of its name stands.
    ///
    /// # Errors
    /// The file can't be made, or memory was refused.
    pub fn make<R: Disk<File = File>>(&mut self, rt: &R) -> Result<(), OperatorFailed>
        ensures name { screens_file self.new ≡ screens_file self.old }
        ensures unwanted { screens_file self.old ≡ None → (self.new ≡ self.old) × IsOk result }
        ensures made { OnOk result (is_some (screens_file self.old) ≡ true → are_kept self.new ≡ true) }
        ensures err { OnErr result (self.new ≡ self.old) }
    {
        let Some(name) = &self.name else {
            return Ok(());
        };
        let mut options = OpenOptions::new();
        options.write(true);
        options.create_new(true);
        self.file = Some(options.open(rt, name.as_str())?);
        Ok(())
    }

    /// Writes the 25 rows as they stand, without the blanks at their ends, and behind them the line that is taken now,
    /// if one is, after `> `. Where their file wasn't made, nothing is written.
    ///
    /// # Errors
    /// The file can't be written, or memory was refused.
    pub fn write(
        &mut self,
        alloc: Global,
        rows: &[[u8; 80]],
        line: Option<&[u8]>,
    ) -> Result<(), OperatorFailed>
        ensures name { screens_file self.new ≡ screens_file self.old }
        ensures made { are_kept self.new ≡ are_kept self.old }
        ensures unmade { are_kept self.old ≡ false → IsOk result }
    {
        let Some(file) = &mut self.file else {
            return Ok(());
        };
        let text = screen_text(alloc, rows, line)?;
        Ok(file.write_all(text.as_slice())?)
    }
}
