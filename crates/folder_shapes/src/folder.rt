//! The files of a folder, one after the other.

ghost use Rattle.std.specs.Prelude.{◌≡◌, ◌≤◌, true, length, map, All, IfOk, IfErr, OnOk};
ghost use Rattle.file_access.specs.Holding.{SameFiles};
ghost use Rattle.folder_shapes.specs.declared.note.Note.{Note as TheNote};
ghost use Rattle.folder_shapes.specs.declared.unfit.Unfit.TheVariants.{Noted};
ghost use Rattle.folder_shapes.specs.Reading.{UnfitIs, IsTableFile, NoTableFile, IsFileOfIndex, NoFileOfIndex};
ghost use Rattle.shape.specs.Whole.{is_shape};
ghost use Rattle.folder_shapes.specs.States.{taken_state, declared_shape};
ghost use Rattle.folder_shapes.specs.Told.{HasTable, HasIndex, WhyNoTable, WhyNoIndex, TakesTable, TakesIndex};
ghost use Rattle.folder_shapes.specs.Folder.{DeclaresBefore, IsNamed, TakesFolder};
ghost use Rattle.folder_shapes.specs.Programs.{named_in};
ghost use Rattle.folder_shapes.specs.Proposals.{with_proposals};
ghost use Rattle.folder_shapes.specs.Told.{TakesDeclared, TakesProgram, ProgramStep, TakePrograms};
ghost use Rattle.folder_shapes.specs.Told.{nothing_taken as nothing_told, with_note, with_found_table};
ghost use Rattle.folder_shapes.specs.Told.{with_found_index};
ghost use Rattle.folder_shapes.specs.Told.{TableStep, IndexStep, TakeTables};
ghost use Rattle.folder_shapes.specs.Names.{sort_of as sort_of_name};

use crate::declared::FolderDeclared;
use crate::found::FoundTable;
use crate::indexes::index_shape;
use crate::line::FolderLine;
use crate::mentions::take_lines;
use crate::names::{Sort, sort_of};
use crate::note::Note;
use crate::pages::mark_of;
use crate::proposals::proposed_lines;
use crate::reading::{index_in, read_bytes, table_in};
use crate::tables::table_shape;
use crate::unfit::Unfit;
use file_access::Files;
use ndx_tree::NdxTree;
use shape::{IndexShape, TableShape};
use std::alloc::{AllocError, Global};

/// The table in a file of a folder, whatever its name, or why it is none that may be declared. No file changes.
pub fn table_file<F: Files>(alloc: Global, files: &mut F, name: &[u8]) -> Result<FoundTable, Unfit>
    ensures found { IfOk result (IsTableFile (F.holds files.old) name.now) }
    ensures unfit { IfErr result (UnfitIs (NoTableFile (F.holds files.old) name.now)) }
    ensures kept { SameFiles (F.holds files.old) (F.holds files.new) }
{
    let bytes = read_bytes(alloc, files, name)?;
    let found = table_in(alloc, bytes.as_slice())?;
    Ok(found)
}

/// The index in a file.
fn index_file<F: Files>(alloc: Global, files: &mut F, name: &[u8]) -> Result<NdxTree, Unfit>
    ensures index { IfOk result (λ tree. IsFileOfIndex (F.holds files.old) name.now tree.form tree.pairs) }
    ensures unfit { IfErr result (UnfitIs (NoFileOfIndex (F.holds files.old) name.now)) }
    ensures kept { SameFiles (F.holds files.old) (F.holds files.new) }
{
    let bytes = read_bytes(alloc, files, name)?;
    match index_in(alloc, bytes.as_slice()) {
        Ok(tree) => Ok(tree),
        Err(unfit) => Err(unfit),
    }
}

impl FolderDeclared {
    /// Nothing yet.
    fn nothing(alloc: Global) -> FolderDeclared
        ensures { taken_state result ≡ nothing_told }
    {
        FolderDeclared {
            tables: Vec::new(alloc),
            found: Vec::new(alloc),
            indexes: Vec::new(alloc),
            mentions: Vec::new(alloc),
            lines: Vec::new(alloc),
        }
    }

    /// Notes why a file isn't taken, unless memory was refused.
    fn note(&mut self, file: usize, unfit: Unfit) -> Result<(), AllocError>
        ensures noted { OnOk result ((told : TheNote) × (unfit ≡ Noted told)
            × (taken_state self.new ≡ with_note file told (taken_state self.old))) }
    {
        match unfit {
            Unfit::Noted(note) => {
                self.lines.push(FolderLine::Noted(file, note))?;
                Ok(())
            }
            Unfit::Memory => Err(AllocError),
        }
    }

    /// The table in a file, and its declaration.
    fn next_table<F: Files>(
        &self,
        alloc: Global,
        files: &mut F,
        name: &[u8],
    ) -> Result<(TableShape, FoundTable), Unfit>
        ensures table { IfOk result (λ x. HasTable (F.holds files.old) (taken_state self.now) name.now x.0 x.1) }
        ensures unfit { IfErr result (UnfitIs (WhyNoTable (F.holds files.old) (taken_state self.now) name.now)) }
        ensures kept { SameFiles (F.holds files.old) (F.holds files.new) }
    {
        let found = table_file(alloc, files, name)?;
        match table_shape(alloc, self, name, &found) {
            Ok(shape) => Ok((shape, found)),
            Err(unfit) => Err(unfit),
        }
    }

    fn add_table(&mut self, shape: TableShape, found: FoundTable) -> Result<(), AllocError>
        ensures { OnOk result (taken_state self.new ≡ with_found_table shape found (taken_state self.old)) }
    {
        let number = self.tables.len();
        let mark = mark_of(&found);
        self.lines.push(FolderLine::Table(number))?;
        if mark != 0 {
            self.lines.push(FolderLine::Page(number, mark))?;
        }
        self.tables.push(shape)?;
        self.found.push(found)?;
        Ok(())
    }

    /// Takes the table in the file of that number.
    fn take_table<F: Files>(
        &mut self,
        alloc: Global,
        files: &mut F,
        file: usize,
        name: &[u8],
    ) -> Result<(), AllocError>
        ensures taken { OnOk result (TakesTable (F.holds files.old) file name.now (taken_state self.old)
            (taken_state self.new)) }
        ensures kept { SameFiles (F.holds files.old) (F.holds files.new) }
    {
        match self.next_table(alloc, files, name) {
            Ok((shape, found)) => {
                self.add_table(shape, found)?;
                Ok(())
            }
            Err(unfit) => self.note(file, unfit),
        }
    }

    /// The declaration of the index in a file, and whether it is stale.
    fn next_index<F: Files>(
        &self,
        alloc: Global,
        files: &mut F,
        name: &[u8],
    ) -> Result<(IndexShape, bool), Unfit>
        requires { length self.now.found.items ≤ 32 }
        ensures index { IfOk result (λ x. HasIndex (F.holds files.old) (taken_state self.now) name.now x.0 x.1) }
        ensures unfit { IfErr result (UnfitIs (WhyNoIndex (F.holds files.old) (taken_state self.now) name.now)) }
        ensures kept { SameFiles (F.holds files.old) (F.holds files.new) }
    {
        let tree = index_file(alloc, files, name)?;
        match index_shape(alloc, self, name, &tree) {
            Ok(index) => Ok(index),
            Err(unfit) => Err(unfit),
        }
    }

    fn add_index(&mut self, file: usize, index: IndexShape, stale: bool) -> Result<(), AllocError>
        ensures { OnOk result (taken_state self.new ≡ with_found_index file index stale (taken_state self.old)) }
    {
        self.lines.push(FolderLine::Index(self.indexes.len()))?;
        self.indexes.push(index)?;
        if stale {
            self.lines.push(FolderLine::Noted(file, Note::Stale))?;
        }
        Ok(())
    }

    /// Takes the index in the file of that number.
    fn take_index<F: Files>(
        &mut self,
        alloc: Global,
        files: &mut F,
        file: usize,
        name: &[u8],
    ) -> Result<(), AllocError>
        requires { length self.old.found.items ≤ 32 }
        ensures taken { OnOk result (TakesIndex (F.holds files.old) file name.now (taken_state self.old)
            (taken_state self.new)) }
        ensures kept { SameFiles (F.holds files.old) (F.holds files.new) }
    {
        match self.next_index(alloc, files, name) {
            Ok((index, stale)) => {
                self.add_index(file, index, stale)?;
                Ok(())
            }
            Err(unfit) => self.note(file, unfit),
        }
    }

    /// Takes the file of that number if its name is a table's.
    fn table_step<F: Files>(
        &mut self,
        alloc: Global,
        files: &mut F,
        file: usize,
        name: &[u8],
    ) -> Result<(), AllocError>
        ensures taken { OnOk result (TableStep (sort_of_name name.now) (F.holds files.old) file name.now
            (taken_state self.old) (taken_state self.new)) }
        ensures kept { SameFiles (F.holds files.old) (F.holds files.new) }
    {
        match sort_of(name) {
            Sort::Table => self.take_table(alloc, files, file, name),
            Sort::Index | Sort::Program | Sort::Other => Ok(()),
        }
    }

    /// Takes the file of that number if its name is an index's.
    fn index_step<F: Files>(
        &mut self,
        alloc: Global,
        files: &mut F,
        file: usize,
        name: &[u8],
    ) -> Result<(), AllocError>
        requires { length self.old.found.items ≤ 32 }
        ensures taken { OnOk result (IndexStep (sort_of_name name.now) (F.holds files.old) file name.now
            (taken_state self.old) (taken_state self.new)) }
        ensures kept { SameFiles (F.holds files.old) (F.holds files.new) }
    {
        match sort_of(name) {
            Sort::Index => self.take_index(alloc, files, file, name),
            Sort::Table | Sort::Program | Sort::Other => Ok(()),
        }
    }

    /// Takes the command file of that number.
    fn take_program<F: Files>(
        &mut self,
        alloc: Global,
        files: &mut F,
        file: usize,
        name: &[u8],
    ) -> Result<(), AllocError>
        ensures taken { OnOk result (TakesProgram (F.holds files.old) file name.now (taken_state self.old)
            (taken_state self.new)) }
        ensures kept { SameFiles (F.holds files.old) (F.holds files.new) }
    {
        match read_bytes(alloc, files, name) {
            Ok(bytes) => take_lines(alloc, &mut self.mentions, file, bytes.as_slice()),
            Err(unfit) => self.note(file, unfit),
        }
    }

    /// Takes the file of that number if its name is a command file's.
    fn program_step<F: Files>(
        &mut self,
        alloc: Global,
        files: &mut F,
        file: usize,
        name: &[u8],
    ) -> Result<(), AllocError>
        ensures taken { OnOk result (ProgramStep (sort_of_name name.now) (F.holds files.old) file name.now
            (taken_state self.old) (taken_state self.new)) }
        ensures kept { SameFiles (F.holds files.old) (F.holds files.new) }
    {
        match sort_of(name) {
            Sort::Program => self.take_program(alloc, files, file, name),
            Sort::Table | Sort::Index | Sort::Other => Ok(()),
        }
    }

    /// Adds what is proposed for the indexes that the command files name.
    fn propose(&mut self, alloc: Global) -> Result<(), AllocError>
        ensures { OnOk result (taken_state self.new ≡ with_proposals (taken_state self.old)) }
    {
        let mut proposed = proposed_lines(alloc, self)?;
        self.lines.append(&mut proposed)?;
        Ok(())
    }
}

/// Takes the tables of a folder.
fn take_tables<F: Files>(
    alloc: Global,
    files: &mut F,
    names: &[&[u8]],
) -> Result<FolderDeclared, AllocError>
    ensures taken { IfOk result (λ declared. TakeTables (F.holds files.old) 0 (map (λ name. name.now) names.now)
        nothing_told (taken_state declared)) }
    ensures few { IfOk result (λ declared. length declared.found.items ≤ 32) }
    ensures kept { SameFiles (F.holds files.old) (F.holds files.new) }
{
    let mut declared = FolderDeclared::nothing(alloc);
    for (file, name) in names.iter().enumerate() {
        declared.table_step(alloc, files, file, name)?;
    }
    Ok(declared)
}

/// Takes the tables and then the indexes of a folder.
fn take_all<F: Files>(
    alloc: Global,
    files: &mut F,
    names: &[&[u8]],
) -> Result<FolderDeclared, AllocError>
    ensures taken { IfOk result (λ declared. TakesDeclared (F.holds files.old) (map (λ name. name.now) names.now)
        (taken_state declared)) }
    ensures kept { SameFiles (F.holds files.old) (F.holds files.new) }
{
    let mut declared = take_tables(alloc, files, names)?;
    for (file, name) in names.iter().enumerate() {
        declared.index_step(alloc, files, file, name)?;
    }
    Ok(declared)
}

/// Takes the command files of a folder.
fn take_programs<F: Files>(
    alloc: Global,
    files: &mut F,
    names: &[&[u8]],
    declared: &mut FolderDeclared,
) -> Result<(), AllocError>
    ensures taken { OnOk result (TakePrograms (F.holds files.old) 0 (map (λ name. name.now) names.now)
        (taken_state declared.old) (taken_state declared.new)) }
    ensures kept { SameFiles (F.holds files.old) (F.holds files.new) }
{
    for (file, name) in names.iter().enumerate() {
        declared.program_step(alloc, files, file, name)?;
    }
    Ok(())
}

/// Takes the tables, the indexes and the command files of a folder, and proposes what the last ones name.
fn take_folder<F: Files>(
    alloc: Global,
    files: &mut F,
    names: &[&[u8]],
) -> Result<FolderDeclared, AllocError>
    ensures taken { IfOk result (λ declared. TakesFolder (F.holds files.old) (map (λ name. name.now) names.now)
        (taken_state declared)) }
    ensures kept { SameFiles (F.holds files.old) (F.holds files.new) }
{
    let mut declared = take_all(alloc, files, names)?;
    take_programs(alloc, files, names, &mut declared)?;
    declared.propose(alloc)?;
    Ok(declared)
}

/// What the tables and indexes of a folder declare, in the order of its names, the tables first, and what is proposed
/// for the indexes that its command files name.
pub fn declare<F: Files>(
    alloc: Global,
    files: &mut F,
    names: &[&[u8]],
) -> Result<FolderDeclared, AllocError>
    // Each file of a table is declared, or noted with a reason that is true of it, and then each file of an index. Then
    // the command files are read, and what they name is proposed.
    ensures taken { IfOk result (λ declared. TakesFolder (F.holds files.old) (map (λ name. name.now) names.now)
        (taken_state declared)) }
    // Without the command files the same is declared: they add comments only.
    ensures comments { IfOk result (λ declared. DeclaresBefore (F.holds files.old) (map (λ name. name.now) names.now)
        (taken_state declared)) }
    // Each index that is proposed is named by a line of a command file.
    ensures named { IfOk result (λ declared. All (IsNamed (F.holds files.old) (map (λ name. name.now) names.now))
        (map named_in declared.mentions.items)) }
    // It is a shape that a code can have.
    ensures legal { IfOk result (λ declared. is_shape (declared_shape declared) ≡ true) }
    ensures kept { SameFiles (F.holds files.old) (F.holds files.new) }
{
    let declared = take_folder(alloc, files, names)?;
    Ok(declared)
}
