//! The faults that are listed while the writing goes on.

ghost use Rattle.std.specs.Prelude.{◌≡◌, true, false, [], ◌∷◌, ◌++◌, IfOk, OnOk, OnErr};
ghost use Rattle.prg_writer.specs.Faults.{has_line};

use prg_code::CompileFault;
use std::alloc::{AllocError, Global};
use std::collections::BTreeSet;
use std::marker::Model;

/// Faults behind one that is told already, in the order in which they were found, one of each line; seen as the told
/// one and their list.
#[derive(Drop)]
pub struct FaultList {
    told: CompileFault,
    faults: Vec<CompileFault>,
    places: BTreeSet<(usize, usize)>,
}

impl Model for FaultList {
    ghost use Rattle.prg_writer.specs.Faults.{ListedFaults, ArePlaces};

    ghost Value = { ListedFaults };

    ghost view = { λ list. record { told = list.told; others = list.faults.items } };

    ghost invariant = { λ list. ArePlaces list.places list.told list.faults.items };
}

impl FaultList {
    /// No faults behind this one.
    pub fn behind(alloc: Global, told: CompileFault) -> Result<FaultList, AllocError>
        ensures { IfOk result (λ list. list ≡ record { told = told; others = [] }) }
    {
        let mut places = BTreeSet::new(alloc);
        places.insert((told.file, told.line))?;
        Ok(FaultList {
            told,
            faults: Vec::new(alloc),
            places,
        })
    }

    /// Lists the fault behind the others, where none of its line is told or listed.
    pub fn note(&mut self, fault: CompileFault) -> Result<(), AllocError>
        ensures known { has_line fault self.old.told self.old.others ≡ true → self.new ≡ self.old }
        ensures noted { OnOk result (has_line fault self.old.told self.old.others ≡ false
            → self.new ≡ record self.old { others = self.old.others ++ fault ∷ [] }) }
        ensures refused { OnErr result (self.new ≡ self.old) }
    {
        self.faults.reserve(1)?;
        if !self.places.insert((fault.file, fault.line))? {
            return Ok(());
        }
        self.faults.push(fault)?;
        Ok(())
    }

    /// The faults that are listed.
    pub fn into_faults(self) -> Vec<CompileFault>
        ensures { result.items ≡ self.others }
    {
        self.faults
    }
}
