//! Variables by their names.

ghost use Rattle.std.specs.Prelude.{◌≡◌, ◌↔◌, [], Some, true, false, IfOk, IsTrue, OnOk, OnErr, List, ℕ};
ghost use Rattle.std.specs.Map.{values_of};
ghost use Rattle.std.specs.Str.{bytes_eq};
ghost use Rattle.prg_code.specs.Bindings.{slot_named, as_caller, as_callers, is_left, without_caller, DoNameSame};

use code_items::Name;
use indexmap::IndexMap;
use shape::copy_of_name;
use std::alloc::{AllocError, Global};
use std::marker::Model;

/// The variable for which a name stands.
#[derive(Clone, Copy)]
pub struct Variable {
    pub slot: u8,
    /// Whether it is a variable or a parameter of the procedure itself, and not one that a caller has.
    pub own: bool,
}

/// The variables that a procedure sees, by their names.
#[derive(Drop)]
pub struct Names {
    variables: IndexMap<Name, Variable>,
}

impl Model for Names {
    ghost use Rattle.prg_code.specs.Bindings.{NamedVariables};

    ghost Value = { NamedVariables };

    ghost view = { λ n. n.variables.entries };
}

impl Names {
    /// No names.
    pub fn new(alloc: Global) -> Names
        ensures { result ≡ [] }
    {
        Names {
            variables: IndexMap::new(alloc),
        }
    }

    /// The slot of the variable of this name, if there is one.
    pub fn slot(&self, name: &Name) -> Option<u8>
        ensures { result ≡ slot_named self.now name.now.items }
    {
        match self.variables.get(name) {
            Some(variable) => Some(variable.slot),
            None => None,
        }
    }

    /// The variables, in the order in which their names came.
    pub fn variables(&self) -> &[Variable]
        ensures { result.now ≡ values_of self.now }
    {
        self.variables.values().as_slice()
    }

    /// Lets the name stand for this variable.
    pub fn set(&mut self, name: &Name, variable: Variable) -> Result<(), AllocError>
        ensures named { OnOk result (slot_named self.new name.now.items ≡ Some variable.slot) }
        // Other names stand for what they stood for.
        ensures others { OnOk result ((other : List ℕ) → bytes_eq name.now.items other ≡ false
            → slot_named self.new other ≡ slot_named self.old other) }
        ensures refused { OnErr result (self.new ≡ self.old) }
    {
        self.variables.insert(copy_of_name(name), variable)?;
        Ok(())
    }

    /// The same names once more, all as a caller's.
    pub fn handed_on(&self) -> Result<Names, AllocError>
        ensures { IfOk result (λ names. names ≡ as_callers self.now) }
    {
        let mut variables = copy_of_variables(&self.variables)?;
        variables.retain(
            |_name: &Name, variable: &mut Variable| -> bool
                ensures { (result ≡ true) × (variable.new ≡ as_caller variable.old) }
            {
                variable.own = false;
                true
            },
        );
        Ok(Names { variables })
    }

    /// The same names once more.
    pub fn copied(&self) -> Result<Names, AllocError>
        ensures { IfOk result (λ copy. copy ≡ self.now) }
    {
        let variables = copy_of_variables(&self.variables)?;
        Ok(Names { variables })
    }

    /// Leaves out this name, where it is a caller's.
    pub fn hide(&mut self, hidden: &Name)
        ensures { self.new ≡ without_caller hidden.now.items self.old }
    {
        let hidden = copy_of_name(hidden);
        self.variables.retain(
            |name: &Name, variable: &mut Variable| -> bool
                ensures { (result ≡ is_left hidden.items (name.now, variable.old)) × (variable.new ≡ variable.old) }
            { variable.own || name.as_slice() != hidden.as_slice() },
        );
    }

    /// Whether both name the same variables.
    pub fn is_same(&self, other: &Names) -> bool
        ensures { IsTrue result ↔ DoNameSame self.now other.now }
    {
        if self.variables.len() != other.variables.len() {
            return false;
        }
        for (name, variable) in &self.variables {
            if other.slot(name) != Some(variable.slot) {
                return false;
            }
        }
        true
    }
}

/// The same variables once more.
fn copy_of_variables(
    variables: &IndexMap<Name, Variable>,
) -> Result<IndexMap<Name, Variable>, AllocError>
    ensures { IfOk result (λ copy. copy.entries ≡ variables.now.entries) }
{
    let copy = variables.clone()?;
    Ok(copy)
}
