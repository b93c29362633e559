//! Procedures by their names.

ghost use Rattle.std.specs.Prelude.{◌≡◌, [], IfOk, OnOk};
ghost use Rattle.prg_writer.specs.Targets.{target_named, with_target, targets_of_file, targets_of_files};

use indexmap::IndexMap;
use prg_commands::Target;
use prg_parser::{Name, Procedure, Program};
use shape::copy_of_name;
use std::alloc::{AllocError, Global};
use std::marker::Model;

/// The first procedure of each name in the command files, in their order; seen as their list.
#[derive(Drop)]
pub struct NamedProcedures {
    first: IndexMap<Name, Target>,
}

impl Model for NamedProcedures {
    ghost use Rattle.prg_writer.specs.Targets.{NamedTargets};

    ghost Value = { NamedTargets };

    ghost view = { λ procedures. procedures.first.entries };
}

impl NamedProcedures {
    /// Those of these files.
    pub fn of(alloc: Global, programs: &[Program]) -> Result<NamedProcedures, AllocError>
        ensures { IfOk result (λ procedures. procedures ≡ targets_of_files 0 programs.now []) }
    {
        let mut procedures = NamedProcedures {
            first: IndexMap::new(alloc),
        };
        procedures.add_files(programs)?;
        Ok(procedures)
    }

    fn add_files(&mut self, programs: &[Program]) -> Result<(), AllocError>
        ensures { OnOk result (self.new ≡ targets_of_files 0 programs.now self.old) }
    {
        let mut file = 0usize;
        let mut rest = programs;
        while let Some((program, others)) = rest.split_first() {
            self.add_file(file, program.procedures.as_slice())?;
            file += 1;
            rest = others;
        }
        Ok(())
    }

    /// Adds those of this file.
    fn add_file(&mut self, file: usize, procedures: &[Procedure]) -> Result<(), AllocError>
        ensures { OnOk result (self.new ≡ targets_of_file file 0 procedures.now self.old) }
    {
        let mut number = 0usize;
        let mut rest = procedures;
        while let Some((procedure, others)) = rest.split_first() {
            let target = Target {
                file,
                procedure: Some(number),
            };
            self.add(&procedure.name, target)?;
            number += 1;
            rest = others;
        }
        Ok(())
    }

    /// Adds a procedure, unless one of its name is there.
    fn add(&mut self, name: &Name, target: Target) -> Result<(), AllocError>
        ensures { OnOk result (self.new ≡ with_target name.now target self.old) }
    {
        if self.first.contains_key(name) {
            return Ok(());
        }
        self.first.insert(copy_of_name(name), target)?;
        Ok(())
    }

    /// The procedure of this name, if there is one.
    pub fn named(&self, name: &Name) -> Option<Target>
        ensures { result ≡ target_named name.now.items self.now }
    {
        match self.first.get(name) {
            Some(target) => Some(*target),
            None => None,
        }
    }
}
