//! What follows from the definitions, for the crates above. Each function does nothing: its contract is the law.

ghost use Rattle.std.specs.Prelude.{◌≡◌, ℕ, List, length, slice_index, true};
ghost use Rattle.std.specs.List.{AllByRecursion};
ghost use Rattle.xvalue.specs.Kinds.{kind_of};
ghost use Rattle.xvalue.specs.declared.value.Value.{Value as TheValue};
ghost use Rattle.dbf_file.specs.declared.field.Field.{Field as TheField};
ghost use Rattle.dbf_file.specs.Fields.{are_fields, is_field, has_shape};
ghost use Rattle.dbf_file.specs.Rows.{Row, with_text};
ghost use Rattle.dbf_file.specs.Lending.{rows_left};
ghost use Rattle.dbf_file.specs.Values.{kind_for, value_of, text_for, FitsField, kept_of};

/// The text of a value that fits its field is read as that value: a number rounded to the field's decimals, a text cut
/// or padded with blanks.
pub fn values_read_back()
    ensures { (f : TheField) (v : TheValue) → kind_of v ≡ kind_for f.letter → FitsField f v
        → value_of f (text_for f v) ≡ kept_of f v }
{
    fixed_num::laws::text_reads_back();
}

/// A text of the field's width that is left in a field is that field's text, and no other text changes.
pub fn texts_are_left()
    ensures { (widths : List ℕ) (rows : List Row) (r f : ℕ) (text : List ℕ) → length text ≡ slice_index widths f →
        rows_left widths rows r f text ≡ with_text rows r f text }
{}

/// Each field of a table is one that a table can have.
pub fn fields_are_good()
    ensures { (fields : List TheField) → are_fields fields ≡ true → AllByRecursion (λ f. is_field f ≡ true) fields }
{}

/// Such a field has one of the widths and decimals of its letter.
pub fn fields_have_shapes()
    ensures { (f : TheField) → is_field f ≡ true → has_shape f.letter f.width f.decimals ≡ true }
{}
