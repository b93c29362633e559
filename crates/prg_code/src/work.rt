//! What is being written.

ghost use Rattle.std.specs.Prelude.{◌≡◌, [], false};
ghost use Rattle.prg_code.specs.Growth.{IsNewWork};

use crate::block::{DraftBlock, SourceLine};
use crate::filters::Filters;
use crate::lists::Lists;
use crate::names::Names;
use crate::pool::Pool;
use code_items::{Name, State};
use std::alloc::Global;

/// What all procedures of a code have in common: constants, lists, filters, and how many slots are given out.
#[derive(Drop)]
pub struct Output {
    pub pool: Pool,
    pub lists: Lists,
    pub filters: Filters,
    pub slots: u16,
    /// The most values on the stack in a filter's block.
    pub highest: usize,
    /// Whether CENTURY is set somewhere.
    pub century: bool,
}

/// A GET that waits for its READ.
#[derive(Drop)]
pub struct Get {
    pub variable: Name,
    pub line: usize,
}

/// A copy of a procedure that is being written.
#[derive(Drop)]
pub struct Work {
    pub alloc: Global,
    /// The number of its command file, counted from 0.
    pub file: usize,
    /// Whether it is the main procedure.
    pub is_main: bool,
    pub block: DraftBlock,
    /// The variables that it sees.
    pub names: Names,
    /// The slots that are its own, rising.
    pub own: Vec<u8>,
    pub gets: Vec<Get>,
    /// One more than the greatest level that it calls; 0 without calls.
    pub level: u8,
    /// What is known where it returns, if it does so far.
    pub exit: Option<State>,
}

impl Output {
    /// Nothing yet.
    pub fn new(alloc: Global) -> Output
        ensures { result ≡ record {
          pool = [];
          lists = [];
          filters = [];
          slots = 0;
          highest = 0;
          century = false;
        } }
    {
        Output {
            pool: Pool::new(alloc),
            lists: Lists::new(alloc),
            filters: Filters::new(alloc),
            slots: 0,
            highest: 0,
            century: false,
        }
    }
}

impl Work {
    /// The line of the command whose code is being put.
    pub fn source_line(&self) -> SourceLine
        ensures { result ≡ record { file = self.now.file; line = self.now.block.line } }
    {
        SourceLine {
            file: self.file,
            line: self.block.line,
        }
    }

    /// A copy that begins with this block and these names.
    pub fn new(alloc: Global, file: usize, is_main: bool, block: DraftBlock, names: Names) -> Work
        ensures { IsNewWork file is_main block names result }
    {
        Work {
            alloc,
            file,
            is_main,
            block,
            names,
            own: Vec::new(alloc),
            gets: Vec::new(alloc),
            level: 0,
            exit: None,
        }
    }
}
