//! What follows from the tests. The functions do nothing: their contracts are the laws.

ghost use Rattle.std.specs.Prelude.{◌≡◌, ◌≤◌, ℕ, true, List, length, IsUtf8};
ghost use Rattle.dbf_file.specs.Tables.{StructureState};
ghost use Rattle.shape.specs.declared.parts.KeyPart.{KeyPart as ThePart};
ghost use Rattle.shape.specs.Keys.{IsKey, is_key};
ghost use Rattle.shape.specs.Names.{is_file_name};
ghost use Rattle.shape.specs.Whole.{is_shape, IsLegal};
ghost use Rattle.shape.specs.declared.whole.Shape.{Shape as TheShape};

/// A key that fits fields is one that rows of any structure with these fields can have.
pub fn fitting_keys_are_keys()
    ensures { (structure : StructureState) (parts : List ThePart) → is_key structure.fields parts ≡ true
        → IsKey structure parts }
{}

/// Each index of a shape that may be declared is of a declared table, whose rows can have its key, and the text of that
/// key has at most 100 bytes, none of them zero.
pub fn legal_shapes_have_keys()
    ensures { (shape : TheShape) → is_shape shape ≡ true → IsLegal shape }
{}

/// The name of a declared table or index is a text of at most eight bytes.
pub fn file_names_are_texts()
    ensures { (name : List ℕ) → is_file_name name ≡ true → IsUtf8 name × (length name ≤ 8) }
{}
