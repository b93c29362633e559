//! What the code of an expression does where it runs, and where a command of one instruction is laid out. The functions
//! do nothing: their contracts are the laws.

ghost use Rattle.std.specs.Prelude.{◌≡◌, ◌&&◌, ℕ, suc, true, List, Some, length, map};
ghost use Rattle.code_items.specs.declared.code.Code.{Code as AnyCode};
ghost use Rattle.code_items.specs.declared.instr.Instr.{Instr as AnyInstr};
ghost use Rattle.code_items.specs.Legal.{IsCode};
ghost use Rattle.code_rules.specs.Rules.{Accepted};
ghost use Rattle.expr_laws.specs.Meaning.{holds_in, value_in};
ghost use Rattle.expr_laws.specs.Rows.{row_sight, IsOfFilter, IsOfTable};
ghost use Rattle.expr_laws.specs.Seeing.{sight, HasWay, IsThere, StandsAt, with_value};
ghost use Rattle.fit_laws.specs.Fits.{IsFitting};
ghost use Rattle.prg_code.specs.Numbers.{Grows};
ghost use Rattle.prg_expr.specs.Tree.{Tree};
ghost use Rattle.prg_commands.specs.Acts.{ActLaid};
ghost use Rattle.prg_commands.specs.Layout.{Laying};
ghost use Rattle.prg_line.specs.Act.{Act, Letters};
ghost use Rattle.prg_values.specs.OneInstr.{only_instr};
ghost use Rattle.prg_values.specs.Placed.{InstrStands};
ghost use Rattle.prg_values.specs.Readings.{Scoped};
ghost use Rattle.prg_values.specs.Written.{IsWrittenExpr};
ghost use Rattle.run_steps.specs.Filters.{filter_block, is_sound, is_unhidden, is_visible, Viewer};
ghost use Rattle.run_steps.specs.Run.{after, spent};
ghost use Rattle.run_steps.specs.World.{kind_held, World as AnyWorld};
ghost use Rattle.open_table.specs.Tried.{TriedRow};
ghost use Rattle.xvalue.specs.declared.kind.Kind.{Kind as AnyKind};
ghost use Rattle.xvalue.specs.declared.kind.Kind.TheVariants.{Logical};
ghost use Rattle.xvalue.specs.declared.value.Value.{Value as AnyValue};
ghost use Rattle.xvalue.specs.Kinds.{kind_of};

use code_items::laws::legal_codes;
use fit_laws::laws::fitting_worlds_are_safe;
use run_laws::laws::faultless_instructions_are_clear;
use xvalue::laws::{results_have_their_kind, same_kinds_are_equal};

/// The code of an expression, wherever it stands in accepted code, leaves the expression's value on top after one step
/// an instruction. The value has the kind that was known, and nothing else is changed but the place. What was known
/// where the expression was compiled has to be true of the world.
pub fn expressions_leave_their_values()
    ensures world { (code : AnyCode) (s : Scoped) (w : AnyWorld) (e : Tree) (kind : AnyKind) (block : List AnyInstr)
        → IsCode code → Accepted code → IsFitting code w → StandsAt code s w
        → IsWrittenExpr s e kind code.declared.constants block → IsThere code w.place block
        → after code w (length block)
        ≡ Some (with_value (length block) (value_in (sight code.declared.shape s.names w) e) w) }
    ensures steps { (code : AnyCode) (s : Scoped) (w : AnyWorld) (e : Tree) (kind : AnyKind) (block : List AnyInstr)
        → IsCode code → Accepted code → IsFitting code w → StandsAt code s w
        → IsWrittenExpr s e kind code.declared.constants block → IsThere code w.place block
        → spent code w (length block) ≡ length block }
    ensures kind { (code : AnyCode) (s : Scoped) (w : AnyWorld) (e : Tree) (kind : AnyKind) (block : List AnyInstr)
        → IsCode code → Accepted code → IsFitting code w → StandsAt code s w
        → IsWrittenExpr s e kind code.declared.constants block → IsThere code w.place block
        → kind_of (value_in (sight code.declared.shape s.names w) e) ≡ kind }
{
    results_have_their_kind();
    fitting_worlds_are_safe();
}

/// The code of an expression leaves the expression's value on top after one step an instruction, wherever it stands in
/// a code, accepted or not. Each name is read as its slot or field. The value has the kind that was known, and nothing
/// else is changed but the place. The code holds at least the constants with which the expression was compiled. The
/// world has the code's shape, and what was known where the expression was compiled is true of it. Its stack has room,
/// and the place behind the expression's code stands in a procedure.
pub fn expressions_leave_their_values_anywhere()
    ensures world { (code : AnyCode) (s : Scoped) (w : AnyWorld) (e : Tree) (kind : AnyKind)
        (constants : List AnyValue) (block : List AnyInstr) → HasWay code w block → StandsAt code s w
        → IsWrittenExpr s e kind constants block → Grows constants code.declared.constants
        → IsThere code w.place block
        → after code w (length block)
        ≡ Some (with_value (length block) (value_in (sight code.declared.shape s.names w) e) w) }
    ensures steps { (code : AnyCode) (s : Scoped) (w : AnyWorld) (e : Tree) (kind : AnyKind)
        (constants : List AnyValue) (block : List AnyInstr) → HasWay code w block → StandsAt code s w
        → IsWrittenExpr s e kind constants block → Grows constants code.declared.constants
        → IsThere code w.place block → spent code w (length block) ≡ length block }
    ensures kind { (code : AnyCode) (s : Scoped) (w : AnyWorld) (e : Tree) (kind : AnyKind)
        (constants : List AnyValue) (block : List AnyInstr) → HasWay code w block → StandsAt code s w
        → IsWrittenExpr s e kind constants block → Grows constants code.declared.constants
        → IsThere code w.place block → kind_of (value_in (sight code.declared.shape s.names w) e) ≡ kind }
{
    results_have_their_kind();
    faultless_instructions_are_clear();
}

/// A filter compiled from a condition shows just the rows that aren't hidden by their mark and for which the condition
/// holds, where its needs are met and its block can be run. The condition reads fields from the row tried, and
/// variables, settings and the day as they are then.
pub fn filters_hold_where_their_conditions_do()
    ensures { (code : AnyCode) (s : Scoped) (v : Viewer) (number table : ℕ) (row : TriedRow) (e : Tree) → IsCode code
        → IsOfFilter code s (suc number) table → IsOfTable code v table row
        → is_sound code (map kind_held v.slots) (suc number) ≡ true
        → IsWrittenExpr s e Logical code.declared.constants (filter_block code (suc number))
        → is_visible code v (suc number) row
        ≡ (is_unhidden v.settings.deleted row && holds_in (row_sight code.declared.shape s.names v table row) e) }
{
    legal_codes();
    results_have_their_kind();
    same_kinds_are_equal();
}

/// A command whose code is one instruction that the command alone tells (`only_instr`) is laid out just where that
/// instruction stands. So the compiler, which puts it, and the judge of finished code mean the same instruction.
pub fn lone_instructions_are_laid()
    ensures laid { (f : Laying) (gets : List Letters) (a b : ℕ) (act : Act) (i : AnyInstr) → only_instr act ≡ Some i
        → InstrStands f.text a i b → ActLaid f gets a act b }
    ensures alone { (f : Laying) (gets : List Letters) (a b : ℕ) (act : Act) (i : AnyInstr) → only_instr act ≡ Some i
        → ActLaid f gets a act b → InstrStands f.text a i b }
{}
