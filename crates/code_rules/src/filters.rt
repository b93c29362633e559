//! Which instructions may stand in a filter's block.

ghost use Rattle.std.specs.Prelude.{◌≡◌};
ghost use Rattle.code_rules.specs.Rules.{value_filters as value_filters_of, question_filters as question_filters_of};
ghost use Rattle.code_rules.specs.Rules.{is_rows as is_rows_of, filters as filters_of};

use code_items::{Instr, Question, RecordInstr, ValueInstr};

/// Whether it reads a field of the row tried, which a filter's block alone may do.
pub fn is_rows(instr: Instr) -> bool
    ensures { result ≡ is_rows_of instr }
{
    matches!(instr, Instr::Records(RecordInstr::RowField(_)))
}

fn value_filters(instr: ValueInstr) -> bool
    ensures { result ≡ value_filters_of instr }
{
    match instr {
        ValueInstr::Constant(_)
        | ValueInstr::Load(_, _)
        | ValueInstr::Function(_)
        | ValueInstr::Today => true,
        ValueInstr::Store(_, _)
        | ValueInstr::Unset(_)
        | ValueInstr::Discard(_)
        | ValueInstr::Set(_, _) => false,
    }
}

fn question_filters(question: Question) -> bool
    ensures { result ≡ question_filters_of question }
{
    match question {
        Question::Recno | Question::Reccount | Question::Deleted => true,
        Question::Eof | Question::Bof | Question::Found => false,
    }
}

/// Whether a filter's block may have the instruction.
pub fn filters(instr: Instr) -> bool
    ensures { result ≡ filters_of instr }
{
    match instr {
        Instr::Values(instr) => value_filters(instr),
        Instr::Records(RecordInstr::RowField(_)) => true,
        Instr::Records(RecordInstr::Ask(question)) => question_filters(question),
        _ => false,
    }
}
