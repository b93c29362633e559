//! The front door for programs that embed Tablereef: its whole public surface, a module for each crate, by its name.
//!
//! | Module | What it has |
//! |---|---|
//! | `fixed_num`, `calendar`, `xvalue` | decimal numbers, days of the calendar, values and the functions on them |
//! | `text_lines`, `screen_lines` | the operator's lines, and the screen |
//! | `dbf_file`, `ndx_tree`, `work_area` | DBF tables, NDX indexes, and the work areas over declared ones |
//! | `code_items`, `xcode`, `xverify` | codes, their files, and which of them are accepted |
//! | `machine`, `tagged_machine` | the machine without tests; the one that carries out no fault |
//! | `run_laws`, `fit_laws`, `expr_laws` | laws of runs, of accepted codes, and of what compiled expressions mean |
//! | `prg_parser`, `prg_compile` | command files read to trees, and trees compiled to accepted code |
//! | `file_access`, `folder_files` | what is asked of files; files in memory, and those of a folder of the disk |
//! | `shape_files`, `table_files` | declaration files; tables and indexes loaded and saved |
//! | `compile_commands`, `file_commands`, `run_commands` | from files to files: what the program's commands do |
//! | `table_csv`, `code_pages` | tables as comma-separated values; old texts in UTF-8 |
//! | `folder_shapes`, `hints` | what a folder's tables and indexes declare; what to do about a refusal |
//! | `operating`, `waiting_fields` | runs that ask an operator for each line, and what a READ asks for |
//! | `line_journal` | lines kept before a run sees them |
//!
//! A program that compiles, verifies and runs needs `file_access`, `compile_commands`, `file_commands` and
//! `run_commands` alone; the crate `embedded` is one, and has two proved callers of the theorems besides. What a run of
//! accepted code promises is the contract of `machine::run`.
#![tactic(auto)]

pub use calendar;
pub use code_items;
pub use code_pages;
pub use compile_commands;
pub use dbf_file;
pub use expr_laws;
pub use file_access;
pub use file_commands;
pub use fit_laws;
pub use fixed_num;
pub use folder_files;
pub use folder_shapes;
pub use hints;
pub use line_journal;
pub use machine;
pub use ndx_tree;
pub use operating;
pub use prg_compile;
pub use prg_parser;
pub use run_commands;
pub use run_laws;
pub use screen_lines;
pub use shape_files;
pub use table_csv;
pub use table_files;
pub use tagged_machine;
pub use text_lines;
pub use waiting_fields;
pub use work_area;
pub use xcode;
pub use xvalue;
pub use xverify;
