//! What follows from the definitions of readers and texts. The functions do nothing: their contracts are the laws.

ghost use Rattle.std.specs.Prelude.{ℕ, ◌<◌, ◌^◌};
ghost use Rattle.std.specs.Int.{w16, w32, to_le_bytes};
ghost use Rattle.code_parts.specs.Reading.{number_read_at, sure};
ghost use Rattle.code_items.specs.declared.declared.Version.{Version as AnyVersion};
ghost use Rattle.code_parts.specs.Items.{table_read_at, index_at, list_at, constant_at, filter_at, procedure_read_at};
ghost use Rattle.code_parts.specs.Items.{map_read_at};
ghost use Rattle.code_parts.specs.Instructions.{instr_read_at, instr_text};
ghost use Rattle.code_parts.specs.Texts.{table_text, index_text, list_text, constant_text, filter_text, procedure_text};
ghost use Rattle.code_parts.specs.Texts.{map_text};
ghost use Rattle.code_parts.specs.Laws.{ReadsTexts, Any, TableFits, IndexFits, ListFits, IsLegalConstant, FilterFits};
ghost use Rattle.code_parts.specs.Laws.{ProcedureFits, MapFits, IsLegalInstr};

use xvalue::laws::functions_have_their_numbers;

/// Numbers that fit are read from their two or four bytes, and what is read of one fits and stays where bytes are
/// appended.
pub fn numbers_are_spelled()
    ensures two { ReadsTexts (sure (number_read_at w16)) (to_le_bytes w16) (λ n. n < 2 ^ 16) (λ n. n < 2 ^ 16) }
    ensures four { ReadsTexts (sure (number_read_at w32)) (to_le_bytes w32) (λ n. n < 2 ^ 32) (λ n. n < 2 ^ 32) }
{}

/// Tables, indexes and lists of indexes that their types can hold are read from their texts, and what is read of one
/// stays where bytes are appended.
pub fn declarations_are_spelled()
    ensures tables { ReadsTexts table_read_at table_text TableFits Any }
    ensures indexes { ReadsTexts index_at index_text IndexFits Any }
    ensures lists { ReadsTexts list_at list_text ListFits Any }
{}

/// Legal constants, and filters that their types can hold, likewise; a constant that is read is legal.
pub fn constants_and_filters_are_spelled()
    ensures constants { ReadsTexts constant_at constant_text IsLegalConstant IsLegalConstant }
    ensures filters { ReadsTexts filter_at filter_text FilterFits Any }
{}

/// Procedures and maps with states of a version of so many slots likewise.
pub fn procedures_and_maps_are_spelled()
    ensures procedures { (version : AnyVersion) (slots : ℕ)
        → ReadsTexts (procedure_read_at version slots) procedure_text (ProcedureFits version slots) Any }
    ensures maps { (version : AnyVersion) (slots : ℕ)
        → ReadsTexts (map_read_at version slots) map_text (MapFits version slots) Any }
{}

/// Legal instructions of a version likewise; an instruction that is read is legal.
pub fn instructions_are_spelled()
    ensures { (version : AnyVersion)
        → ReadsTexts (instr_read_at version) instr_text (IsLegalInstr version) (IsLegalInstr version) }
{
    functions_have_their_numbers();
}
