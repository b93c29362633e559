//! Words under keys, as a text in TOML.

ghost use Rattle.std.specs.Prelude.{◌≡◌, ◌≢◌, ◌≤◌, ℕ, List, Some, None, IfOk, IfErr, OnOk, OnErr, option_map};
ghost use Rattle.std.specs.Prelude.{option_and_then, string_bytes};
ghost use Rattle.toml.specs.Data.{no_members, string, as_str, get_member, members_depth};
ghost use Rattle.toml.specs.Parse.{parse_document};
ghost use Rattle.toml.specs.View.{table_view};

use std::alloc::{AllocError, AllocFailed, Global};
use toml::{Table, Value};

/// Why a text isn't read.
#[derive(Clone, Copy)]
pub enum PaperFault {
    /// It is no text in TOML.
    Foreign,
    /// Memory was refused.
    Memory,
}

/// Words under keys.
#[derive(Drop)]
pub struct JournalPaper {
    /// The words, each a text under its key.
    pub table: Table,
}

impl JournalPaper {
    /// No words.
    pub fn new(alloc: Global) -> JournalPaper
        ensures { table_view result.table ≡ no_members }
    {
        JournalPaper {
            table: Table::new(alloc),
        }
    }

    /// Puts a word under a key, in place of the one that stood there. The words under other keys stay.
    pub fn put(&mut self, alloc: Global, key: &str, word: &str) -> Result<(), AllocError>
        ensures stands { OnOk result (get_member key.now (table_view self.new.table) ≡ Some (string word.now)) }
        ensures others { OnOk result ((other : List ℕ) → other ≢ key.now
            → get_member other (table_view self.new.table) ≡ get_member other (table_view self.old.table)) }
        ensures refused { OnErr result (table_view self.new.table ≡ table_view self.old.table) }
    {
        let key = String::from_str(alloc, key)?;
        let word = String::from_str(alloc, word)?;
        self.table.insert(key, Value::from(word))?;
        Ok(())
    }

    /// The word under a key, if one stands there.
    pub fn get(&self, key: &str) -> Option<&str>
        ensures { option_map (λ s. s.now) result
            ≡ option_and_then as_str (get_member key.now (table_view self.now.table)) }
    {
        match self.table.get(key) {
            Some(value) => value.as_str(),
            None => None,
        }
    }

    /// The text that tells these words.
    ///
    /// # Errors
    /// `Memory` where memory was refused.
    pub fn text(&self, alloc: Global) -> Result<String, PaperFault>
        ensures told { IfOk result (λ text. members_depth (table_view self.now.table) ≤ 80
            → parse_document (string_bytes text) ≡ Some (table_view self.now.table)) }
        ensures refused { IfErr result (λ fault. fault ≡ PaperFault.Memory) }
    {
        match toml::table_to_string(alloc, &self.table) {
            Ok(text) => Ok(text),
            Err(_) => Err(PaperFault::Memory),
        }
    }

    /// The words that a text tells.
    ///
    /// # Errors
    /// `Foreign` where it is no text in TOML; `Memory` where memory was refused.
    pub fn read(alloc: Global, text: &str) -> Result<JournalPaper, PaperFault>
        ensures read { IfOk result (λ paper. parse_document text.now ≡ Some (table_view paper.table)) }
        ensures refused { IfErr result (λ fault. fault ≡ PaperFault.Foreign → parse_document text.now ≡ None) }
    {
        match toml::table_from_str(alloc, text) {
            Ok(table) => Ok(JournalPaper { table }),
            Err(error) => {
                if error.is_memory() {
                    return Err(PaperFault::Memory);
                }
                Err(PaperFault::Foreign)
            }
        }
    }
}
