//! Where the code of commands goes.

ghost use Rattle.std.specs.Prelude.{◌≡◌, ◌+◌, ℕ, false, IfOk, OnOk, Some};
ghost use Rattle.code_items.specs.declared.instr.FlowInstr.TheVariants.{Jump, JumpFalse, End};
ghost use Rattle.code_items.specs.declared.instr.Instr.TheVariants.{Flow};
ghost use Rattle.prg_code.specs.Bindings.{slot_named};
ghost use Rattle.prg_expr.specs.Tree.{tree_of};
ghost use Rattle.prg_commands.specs.Acts as acts;
ghost use Rattle.prg_commands.specs.Layout.{Laying, ExprLaid, IsSeen};
ghost use Rattle.prg_commands.specs.Walking.{Told};
ghost use Rattle.prg_values.specs.Placed.{InstrStands};
ghost use Rattle.xvalue.specs.declared.kind.Kind.TheVariants.{Logical};

use crate::programs::Target;
use code_items::{Instr, Name, OpenArea};
use prg_code::{CompileError, ListedIndexes};
use prg_expr::Expr;
use prg_parser::Program;
use prg_values::Scope;
use xvalue::{Kind, Value};

/// Where the code of commands goes: it is written there, or compared with a finished code. Labels are places of a
/// finished code, and numbers of the writer's own.
pub trait Sink {
    /// The finished code with which it is compared.
    ghost laying: { Self → Laying };

    /// The place of the next instruction in it.
    ghost place: { Self → ℕ };

    /// Whether there is a finished code. A sink that writes promises nothing.
    ghost judges: { Type 0 };

    /// What names mean at this place.
    fn scope(&self) -> Result<Scope, CompileError>
        ensures { judges → IfOk result (IsSeen (laying self.now) (place self.now)) };

    /// Puts an instruction that is no jump.
    fn put(&mut self, instr: Instr) -> Result<(), CompileError>
        ensures put { judges → OnOk result (InstrStands (laying self.old).text (place self.old) instr (place self.new)) }
        ensures same { laying self.new ≡ laying self.old };

    /// Puts an instruction that loads the constant.
    fn constant(&mut self, value: Value) -> Result<(), CompileError>
        ensures put { judges → OnOk result (acts.ConstantStands (laying self.old) (place self.old) value
            (place self.new)) }
        ensures same { laying self.new ≡ laying self.old };

    /// Puts the code of an expression, and returns its kind.
    fn value(&mut self, e: &Expr) -> Result<Kind, CompileError>
        ensures put { judges → IfOk result (λ kind. ExprLaid (laying self.old) (place self.old) (tree_of e.now) kind
            (place self.new)) }
        ensures same { laying self.new ≡ laying self.old };

    /// The slot of a variable that is set. A variable that isn't there yet is added.
    fn slot(&mut self, name: &Name) -> Result<u8, CompileError>
        ensures named { judges → IfOk result (λ slot. slot_named (laying self.old).names name.now.items ≡ Some slot) }
        ensures place { judges → place self.new ≡ place self.old }
        ensures same { laying self.new ≡ laying self.old };

    /// Hides the caller's variables of these names.
    fn hide(&mut self, names: &[Name])
        ensures place { judges → place self.new ≡ place self.old }
        ensures same { laying self.new ≡ laying self.old };

    /// The number of the list of these indexes, counted from 1; of none 0.
    fn list(&mut self, indexes: ListedIndexes) -> Result<u16, CompileError>
        ensures number { judges → IfOk result (acts.IsNumbered (laying self.old) indexes.items) }
        ensures place { judges → place self.new ≡ place self.old }
        ensures same { laying self.new ≡ laying self.old };

    /// The number, counted from 1, of the filter of the selected work area's table whose block is the condition.
    fn filter(&mut self, table: u16, condition: &Expr) -> Result<u16, CompileError>
        ensures number { judges → IfOk result (acts.IsFilterNumber (laying self.old) (place self.old)
            (tree_of condition.now)) }
        ensures place { judges → place self.new ≡ place self.old }
        ensures same { laying self.new ≡ laying self.old };

    /// Whether the area's list of indexes has this order.
    fn has_order(&self, area: OpenArea, order: u16) -> bool;

    /// Whether the variables that the area's filter needs are known to have their values.
    fn meets_filter(&self, area: OpenArea) -> bool;

    /// Goes on with the command, or the part of one, in this line.
    fn at(&mut self, line: usize)
        ensures place { judges → place self.new ≡ place self.old }
        ensures same { laying self.new ≡ laying self.old };

    /// Puts the code of a condition. Where faults are listed, a faulty one counts as .T.
    fn truth(&mut self, e: &Expr) -> Result<(), CompileError>
        ensures put { judges → OnOk result (ExprLaid (laying self.old) (place self.old) (tree_of e.now) Logical
            (place self.new)) }
        ensures same { laying self.new ≡ laying self.old };

    /// Puts a JUMPF. Gives the label to which it leads.
    fn fork(&mut self) -> Result<usize, CompileError>
        ensures put { judges → IfOk result (λ l. InstrStands (laying self.old).text (place self.old)
            (Flow (JumpFalse l)) (place self.new)) }
        ensures same { laying self.new ≡ laying self.old };

    /// Puts a JUMPF to this label.
    fn fork_to(&mut self, label: usize) -> Result<(), CompileError>
        ensures put { judges → OnOk result (InstrStands (laying self.old).text (place self.old)
            (Flow (JumpFalse label)) (place self.new)) }
        ensures same { laying self.new ≡ laying self.old };

    /// Puts a JUMP to this label.
    fn jump(&mut self, label: usize) -> Result<(), CompileError>
        ensures put { judges → OnOk result (InstrStands (laying self.old).text (place self.old) (Flow (Jump label))
            (place self.new)) }
        ensures same { laying self.new ≡ laying self.old };

    /// Puts the JUMP that leaves a part of a choice. Gives the label of the choice's end, which may be known already.
    fn leave(&mut self, end: Option<usize>) -> Result<usize, CompileError>
        ensures put { judges → IfOk result (λ l. InstrStands (laying self.old).text (place self.old) (Flow (Jump l))
            (place self.new)) }
        ensures told { judges → IfOk result (Told end) }
        ensures same { laying self.new ≡ laying self.old };

    /// The label so many instructions before another one. What it promises is promised where it is led to.
    fn before(&mut self, label: usize, count: usize) -> Result<usize, CompileError>
        ensures place { judges → place self.new ≡ place self.old }
        ensures same { laying self.new ≡ laying self.old };

    /// The label is here.
    fn lead(&mut self, label: usize) -> Result<(), CompileError>
        ensures here { judges → OnOk result (label ≡ place self.old) }
        ensures place { judges → place self.new ≡ place self.old }
        ensures same { laying self.new ≡ laying self.old };

    /// The head of a loop is here. Gives its label.
    fn mark(&mut self) -> Result<usize, CompileError>
        ensures here { judges → IfOk result (λ label. label ≡ place self.old) }
        ensures place { judges → place self.new ≡ place self.old }
        ensures same { laying self.new ≡ laying self.old };

    /// Ends a round of the loop whose head has this label. Gives whether the round is given up, and another one begins.
    fn again(&mut self, label: usize) -> Result<bool, CompileError>
        ensures never { judges → IfOk result (λ more. more ≡ false) }
        ensures place { judges → place self.new ≡ place self.old }
        ensures same { laying self.new ≡ laying self.old };

    /// Ends the run.
    fn quit(&mut self) -> Result<(), CompileError>
        ensures put { judges → OnOk result (InstrStands (laying self.old).text (place self.old) (Flow End)
            (place self.new)) }
        ensures same { laying self.new ≡ laying self.old };

    /// Ends the procedure: the main one, and no other is judged, ends the run.
    fn give_back(&mut self) -> Result<(), CompileError>
        ensures put { judges → OnOk result (InstrStands (laying self.old).text (place self.old) (Flow End)
            (place self.new)) }
        ensures same { laying self.new ≡ laying self.old };

    /// Lists the fault, where faults are listed; else it is the answer.
    fn note(&mut self, error: CompileError) -> Result<(), CompileError>
        ensures never { judges → OnOk result ⊥ }
        ensures same { laying self.new ≡ laying self.old };

    /// A command begins.
    fn begin(&mut self) -> Result<(), CompileError>
        ensures place { judges → place self.new ≡ place self.old }
        ensures same { laying self.new ≡ laying self.old };

    /// The command that began last ends. Nothing of it stays unless it is kept.
    fn end(&mut self, kept: bool) -> Result<(), CompileError>
        ensures place { judges → place self.new ≡ place self.old }
        ensures same { laying self.new ≡ laying self.old };

    /// Puts a call of the procedure of this name in the command files. Gives the procedure where its code stands
    /// nowhere yet: its commands come next, and then `close`.
    fn open(
        &mut self,
        programs: &[Program],
        procedure: &Name,
        arguments: &[Expr],
    ) -> Result<Option<Target>, CompileError>
        // A finished code with calls isn't judged.
        ensures never { judges → OnOk result ⊥ }
        ensures same { laying self.new ≡ laying self.old };

    /// The commands of the procedure that was called last have ended.
    fn close(&mut self) -> Result<(), CompileError>
        ensures same { laying self.new ≡ laying self.old };
}
